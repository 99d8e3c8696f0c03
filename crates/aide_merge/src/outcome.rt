//! What a run without a fault returns.
ghost use Rattle.std.specs.Prelude.{◌≡◌};
ghost use Rattle.aide_merge.specs.Outcomes.{status_of};

/// How the new database differs from the old one, in numbers of entries.
#[derive(Clone, Copy, Debug, PartialEq, Eq)]
pub struct Outcome {
    /// The entries that only the new database has.
    pub added: u64,
    /// The entries that only the old database has.
    pub removed: u64,
    /// The entries of both that are reported as changed.
    pub changed: u64,
    /// All entries of the new database.
    pub total: u64,
    /// Bit c - 1 for each unknown column c of the old database, counted from 1, which was skipped.
    pub skipped_old: u64,
    /// The same for the new database.
    pub skipped_new: u64,
}

impl Outcome {
    /// The exit status, as in aide(1): 1 if an entry was added, plus 2 if one was removed, plus 4 if one has changed.
    pub fn status(&self) -> u8
        ensures { result ≡ status_of self.now.added self.now.removed self.now.changed }
    {
        let added = if self.added == 0 { 0 } else { 1 };
        let removed = if self.removed == 0 { 0 } else { 2 };
        let changed = if self.changed == 0 { 0 } else { 4 };
        added + (removed + changed)
    }
}
