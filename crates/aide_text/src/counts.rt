//! How many entries were added, removed and changed.
ghost use Rattle.std.specs.Prelude.{◌≡◌};
ghost use Rattle.aide_text.specs.Overview.{differs};

/// The numbers of entries of two databases.
#[derive(Clone, Copy, PartialEq, Eq)]
pub struct Counts {
    /// The entries that only the new database has.
    pub added: u64,
    /// The entries that only the old database has.
    pub removed: u64,
    /// The entries of both databases that are reported as changed.
    pub changed: u64,
    /// All entries of the new database.
    pub total: u64,
    /// The entries that show an attribute in the details.
    pub shown: u64,
}

impl Counts {
    /// Returns counts that are all 0.
    pub fn new() -> Counts
        ensures { result ≡ record { added = 0; removed = 0; changed = 0; total = 0; shown = 0 } }
    {
        Counts {
            added: 0,
            removed: 0,
            changed: 0,
            total: 0,
            shown: 0,
        }
    }

    /// Returns whether an entry was added, removed or changed.
    pub fn databases_differ(&self) -> bool
        ensures { result ≡ differs self.now }
    {
        self.added != 0 || self.removed != 0 || self.changed != 0
    }
}
