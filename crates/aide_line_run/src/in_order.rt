//! Both databases at the moment when they are opened.
ghost use Rattle.std.specs.Prelude.{◌≡◌, false, ℕ, List, Some, IfErr, IfOk, OnOk};
ghost use Rattle.aide_db.specs.Database.{IsSound};
ghost use Rattle.aide_merge.specs.Seen.{AreLimits, KeepsSources, seen};
ghost use Rattle.aide_line_run.specs.code.OneReading.{IsOldFault, Reads};
ghost use Rattle.aide_merge.specs.code.Desks.{KeepsDesk};
ghost use Rattle.aide_merge.specs.code.Starts.{GivesBoth, GivesSide};

use aide_db::{DbFault, Desk, Limits, OpenFault, Side, Sources};
use aide_merge::{RunFault, read_to_end, start_cursor};
use std::alloc::Allocator;

/// Reads the old database to its end, and closes it.
fn read_old<S: Sources, A: Allocator + Copy>(
    sources: &mut S,
    reel: S::R,
    limits: Limits,
    desk: &mut Desk<A>,
) -> Result<(), DbFault>
    requires limits { AreLimits limits }
    requires gives { GivesSide S.R.to_come (S.bytes_of sources.old) Side.Old reel }
    ensures sources { KeepsSources (seen S.Sources sources.old) (seen S.Sources sources.new) }
    ensures openings { S.openings sources.new ≡ S.openings sources.old }
    ensures given { S.was_given sources.new ≡ S.was_given sources.old }
    ensures sound { OnOk result ((text : List ℕ) → S.bytes_of sources.old Side.Old ≡ Some text
        → IsSound limits text) }
    ensures fault { IfErr result (IsOldFault
        limits (seen S.Sources sources.old) (seen S.Sources sources.new) desk.old.room) }
    ensures desk { KeepsDesk limits (S.bytes_of sources.old) desk.old desk.new }
{
    let mut cursor = start_cursor(Side::Old, reel, limits, desk);
    match read_to_end(&mut cursor, desk) {
        Ok(()) => {
            sources.close(cursor.into_reel());
            Ok(())
        }
        Err(fault) => {
            sources.close(cursor.into_reel());
            Err(fault)
        }
    }
}

/// Opens both sides, the old one first. If the new one is refused, the old one is read to its end, since a fault of it
/// comes first.
pub(crate) fn open_in_order<S: Sources, A: Allocator + Copy>(
    sources: &mut S,
    limits: Limits,
    desk: &mut Desk<A>,
) -> Result<(S::R, S::R), RunFault>
    requires { AreLimits limits }
    ensures reads { Reads limits (seen S.Sources sources.old) (seen S.Sources sources.new)
        desk.old desk.new ⊥ result }
    ensures gives { IfOk result (λ reels.
        GivesBoth S.R.to_come (S.bytes_of sources.old) reels.0 reels.1) }
    ensures there { OnOk result ((side : Side) → S.is_missing sources.old side ≡ false) }
{
    let old_reel = match sources.open(Side::Old) {
        Ok(reel) => reel,
        Err(OpenFault) => return Err(RunFault::Open(Side::Old)),
    };
    match sources.open(Side::New) {
        Ok(new_reel) => Ok((old_reel, new_reel)),
        Err(OpenFault) => match read_old(sources, old_reel, limits, desk) {
            Ok(()) => Err(RunFault::Open(Side::New)),
            Err(fault) => Err(RunFault::Database(fault)),
        },
    }
}
