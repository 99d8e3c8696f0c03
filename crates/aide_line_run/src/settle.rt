//! Which of the faults of both pairs comes first.
ghost use Rattle.std.specs.Prelude.{◌≡◌, [], IfErr, OnOk};
ghost use Rattle.aide_merge.specs.Bound.{FitsAfterBoth};
ghost use Rattle.aide_line_run.specs.code.OneReading.{IsFirstOfBoth};
ghost use Rattle.aide_text.specs.PenSheet.{on_sheet};
ghost use Rattle.aide_line_run.specs.ListView.{list_read};
ghost use Rattle.aide_line_run.specs.code.Settled.{AreReadSound, FitsMerges, IsFirstStop};
ghost use Rattle.aide_line_run.specs.code.Settled.{IsPairStopped, IsSettledStop};
ghost use Rattle.aide_line_run.specs.code.Walked.{CanWalk, HasEnded, HasWalked, KeepsMerges};
ghost use Rattle.aide_merge.specs.code.Merging.{IsReady};

use crate::walk::{Merges, PairStop, Terms, put_accounted, read_rest};
use aide_db::{DbFault, Desk, Reel};
use aide_line_text::LineCounts;
use aide_merge::{Merge, settled};
use aide_text::{Pen, Sink};
use std::alloc::Allocator;

/// Reads what a merge has still to give. At a fault it is the first one of both databases.
pub(crate) fn read_out<R: Reel, A: Allocator + Copy>(
    merge: &mut Merge<R>,
    desk: &mut Desk<A>,
) -> Result<(), DbFault>
    requires { IsReady merge.old desk.old }
    ensures room { desk.new.room ≡ desk.old.room }
    ensures fits { FitsAfterBoth R.to_come merge.old desk.old desk.new }
    ensures sound { OnOk result (AreReadSound R.Reel merge.old desk.old) }
    ensures fault { IfErr result (IsFirstOfBoth R.Reel merge.old merge.new desk.old) }
{
    match read_rest(merge, desk) {
        Ok(()) => Ok(()),
        Err(fault) => Err(settled(merge, desk, fault)),
    }
}

/// Returns the stop that comes first: a fault of the compared pair comes before one of the trusted pair. What comes
/// before a fault is read to its end.
fn settle<R: Reel, A: Allocator + Copy>(
    merges: &mut Merges<R>,
    desk: &mut Desk<A>,
    trusted_desk: &mut Desk<A>,
    stop: PairStop,
) -> PairStop
    requires { IsPairStopped R.Reel merges.old desk.old stop }
    ensures fits { FitsMerges R.Reel merges.old
        desk.old desk.new trusted_desk.old trusted_desk.new }
    ensures first { IsFirstStop R.Reel merges.old merges.new desk.old desk.new
        trusted_desk.old trusted_desk.new stop result }
{
    match stop {
        PairStop::Compared(fault) => {
            PairStop::Compared(settled(&mut merges.compared, desk, fault))
        }
        PairStop::Trusted(fault) => match read_out(&mut merges.compared, desk) {
            Ok(()) => PairStop::Trusted(settled(&mut merges.trusted, trusted_desk, fault)),
            Err(first) => PairStop::Compared(first),
        },
        PairStop::Write => PairStop::Write,
    }
}

/// Writes and counts the lines of all changes, and reads both pairs to their ends. At a fault it is the first one of
/// all four databases.
pub(crate) fn put_all_accounted<R: Reel, W: Sink, A: Allocator + Copy>(
    merges: &mut Merges<R>,
    desk: &mut Desk<A>,
    trusted_desk: &mut Desk<A>,
    out: &mut W,
    pen: &mut Pen,
    terms: &Terms<'_>,
) -> Result<LineCounts, PairStop>
    requires { CanWalk merges.old desk.old trusted_desk.old pen.old }
    ensures keeps { OnOk result (KeepsMerges R.Reel merges.old merges.new desk.old desk.new
        trusted_desk.old trusted_desk.new) }
    ensures fits { FitsMerges R.Reel merges.old
        desk.old desk.new trusted_desk.old trusted_desk.new }
    ensures walked { HasWalked R.Reel (list_read terms.now.list) terms.now.options.now []
        (λ counts. counts) merges.old desk.old trusted_desk.old
        (on_sheet W.Sink out.old pen.old) (on_sheet W.Sink out.new pen.new) result }
    ensures ended { OnOk result (HasEnded merges.new pen.new) }
    ensures fault { IfErr result (IsSettledStop R.Reel merges.old merges.new
        desk.old trusted_desk.old pen.new) }
{
    let counts = match put_accounted(merges, desk, trusted_desk, out, pen, terms) {
        Ok(counts) => counts,
        Err(stop) => return Err(settle(merges, desk, trusted_desk, stop)),
    };
    match read_rest(&mut merges.trusted, trusted_desk) {
        Ok(()) => Ok(counts),
        Err(fault) => Err(settle(merges, desk, trusted_desk, PairStop::Trusted(fault))),
    }
}
