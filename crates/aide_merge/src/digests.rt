//! The digests of both databases, and whether a later reading has the same.
ghost use Rattle.std.specs.Prelude.{◌≡◌, ℕ, List, IfSome, IfNone};
ghost use Rattle.sha2.specs.Sha256.{sha256};
ghost use Rattle.aide_db.specs.Answer.{StandsFor};
ghost use Rattle.aide_entry.specs.declared.column.Column.{Column};
ghost use Rattle.aide_db.specs.declared.stage.Stage.TheVariants.{Ended as AtEnd};
ghost use Rattle.aide_merge.specs.code.Digests.{digest_on};
ghost use Rattle.aide_merge.specs.code.Merging.{IsEnded, cursor_at};

use crate::merge::Merge;
use aide_db::{Cursor, Reel, Side};

/// The SHA-256 of each database, as it was first read.
#[derive(Clone, Copy)]
pub struct Digests {
    /// That of the old database.
    pub of_old: [u8; 32],
    /// That of the new database.
    pub of_new: [u8; 32],
}

/// The SHA-256 of all bytes that a cursor has read, at its end.
pub fn digest_of<R: Reel>(cursor: &Cursor<R>) -> [u8; 32]
    requires { cursor.now.stage ≡ AtEnd }
    ensures { (list : List ℕ) (under : List Column) (text : List ℕ)
        → StandsFor R.to_come cursor.now list under text → result ≡ sha256 text }
{
    match cursor.digest() {
        Some(digest) => digest,
        None => [0; 32],
    }
}

/// The first side, the old one before the new one, whose digest at the end of a pass is not the one that it had before.
pub fn changed_side<R: Reel>(merge: &Merge<R>, digests: &Digests) -> Option<Side>
    requires { IsEnded merge.now }
    ensures changed { IfSome result (λ side. (list : List ℕ) (under : List Column) (text : List ℕ)
        → StandsFor R.to_come (cursor_at merge.now side) list under text
        → digest_on digests.now side ≡ sha256 text → ⊥) }
    ensures old_first { IfSome result (λ side. side ≡ Side.New → (list : List ℕ)
        (under : List Column) (text : List ℕ)
        → StandsFor R.to_come (cursor_at merge.now Side.Old) list under text
        → digest_on digests.now Side.Old ≡ sha256 text) }
    ensures same { IfNone result ((side : Side) (list : List ℕ) (under : List Column)
        (text : List ℕ)
        → StandsFor R.to_come (cursor_at merge.now side) list under text
        → digest_on digests.now side ≡ sha256 text) }
{
    if digest_of(&merge.old_cursor) != digests.of_old {
        return Some(Side::Old);
    }
    if digest_of(&merge.new_cursor) != digests.of_new {
        return Some(Side::New);
    }
    None
}
