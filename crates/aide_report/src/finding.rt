//! What was found of both databases.
ghost use Rattle.std.specs.Prelude.{◌≡◌};
ghost use Rattle.aide_merge.specs.Outcomes.{outcome_by};

use aide_merge::{Digests, Outcome};
use aide_text::Counts;

/// What the readings and the counting pass have found.
#[derive(Clone, Copy)]
pub(crate) struct Finding {
    pub(crate) counts: Counts,
    pub(crate) digests: Digests,
    pub(crate) skipped_old: u64,
    pub(crate) skipped_new: u64,
}

impl Finding {
    /// The outcome that a run without a fault returns.
    pub(crate) fn outcome(&self) -> Outcome
        ensures { result ≡ outcome_by self.now.counts self.now.skipped_old self.now.skipped_new }
    {
        Outcome {
            added: self.counts.added,
            removed: self.counts.removed,
            changed: self.counts.changed,
            total: self.counts.total,
            skipped_old: self.skipped_old,
            skipped_new: self.skipped_new,
        }
    }
}
