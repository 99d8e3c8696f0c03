//! What a reading of databases begins and ends with.
ghost use Rattle.std.specs.Prelude.{◌≡◌, ◌<◌, [], true, ℕ, List, IfErr, OnOk};
ghost use Rattle.aide_db.specs.Answer.{Stands};
ghost use Rattle.aide_db.specs.Database.{IsSound};
ghost use Rattle.aide_db.specs.Desk.{list_of};
ghost use Rattle.aide_db.specs.Giving.{columns_of_text};
ghost use Rattle.aide_db.specs.declared.stage.Stage.TheVariants.{Ended as AtEnd};
ghost use Rattle.aide_merge.specs.code.MergeCalls.{IsCursorFault, KeepsCursor};
ghost use Rattle.aide_merge.specs.code.Merging.{reels_failed};
ghost use Rattle.aide_merge.specs.Seen.{AreLimits, KeepsSources, seen};
ghost use Rattle.aide_merge.specs.Standing.{IsUnfailed};
ghost use Rattle.aide_text.specs.Failures.{Rose};

use crate::merge::Merge;
use aide_db::{Cursor, DbFault, Desk, Limits, Reel, Side, Sources, Step};
use std::alloc::Allocator;

/// Lets go of what a desk still holds from an earlier run.
#[inline(never)]
pub fn clear<A: Allocator + Copy>(limits: Limits, desk: &mut Desk<A>)
    requires { AreLimits limits }
    ensures old { list_of Side.Old desk.new ≡ [] }
    ensures new { list_of Side.New desk.new ≡ [] }
    ensures peak { desk.new.peak ≡ desk.old.peak }
    ensures room { desk.new.room ≡ desk.old.room }
{
    let nothing: &[u8] = &[];
    let _ = Cursor::start(Side::Old, nothing, limits, desk).into_reel();
    let _ = Cursor::start(Side::New, nothing, limits, desk).into_reel();
}

/// Closes both reels, the old one first.
pub fn close_both<S: Sources>(sources: &mut S, merge: Merge<S::R>)
    ensures keeps { KeepsSources (seen S.Sources sources.old) (seen S.Sources sources.new) }
    ensures openings { S.openings sources.new ≡ S.openings sources.old }
    ensures rose { 0 < reels_failed S.R.failures merge
        → Rose (S.failures sources.old) (S.failures sources.new) }
    ensures unfailed { S.is_reliable sources.old ≡ true → reels_failed S.R.failures merge ≡ 0 }
{
    let (old_reel, new_reel) = merge.into_reels();
    sources.close(old_reel);
    sources.close(new_reel);
}

/// Reads to the end of a database.
pub fn read_to_end<R: Reel, A: Allocator + Copy>(
    cursor: &mut Cursor<R>,
    desk: &mut Desk<A>,
) -> Result<(), DbFault>
    requires { IsUnfailed cursor.old.stage }
    ensures keeps { KeepsCursor R.Reel cursor.old cursor.new desk.old desk.new }
    ensures sound { OnOk result ((text : List ℕ) → Stands R.to_come cursor.old desk.old text
        → IsSound cursor.old.limits text × (cursor.new.columns ≡ columns_of_text text)) }
    ensures ended { OnOk result (cursor.new.stage ≡ AtEnd) }
    ensures fault { IfErr result (IsCursorFault R.Reel cursor.old cursor.new desk.old) }
{
    'read: loop {
        match cursor.next(desk) {
            Ok(Step::Record) => {}
            Ok(Step::End) => return Ok(()),
            Err(fault) => return Err(fault),
        }
    }
}
