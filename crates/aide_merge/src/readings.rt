//! What is known of both databases once they are read.
ghost use Rattle.aide_db.specs.DeskView.{DeskView};
ghost use Rattle.aide_merge.specs.code.Merging.{IsEnded};
ghost use Rattle.aide_merge.specs.code.BothRead.{AreReadAt};

use crate::digests::{Digests, digest_of};
use crate::merge::Merge;
use aide_db::Reel;

/// What the readings of both databases have found.
#[derive(Clone, Copy)]
pub struct Readings {
    /// The SHA-256 of each database.
    pub digests: Digests,
    /// Bit c - 1 for each unknown column c of the old database, counted from 1, which was skipped.
    pub skipped_old: u64,
    /// The same for the new database.
    pub skipped_new: u64,
}

/// What is known of both databases at their ends.
pub fn readings_of<R: Reel>(merge: &Merge<R>) -> Readings
    requires { IsEnded merge.now }
    ensures { (desk : DeskView) → AreReadAt R.Reel merge.now desk result }
{
    Readings {
        digests: Digests {
            of_old: digest_of(&merge.old_cursor),
            of_new: digest_of(&merge.new_cursor),
        },
        skipped_old: merge.old_cursor.skipped(),
        skipped_new: merge.new_cursor.skipped(),
    }
}
