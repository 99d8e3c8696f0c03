//! Readings of databases: each whole, or both in lock step.
ghost use Rattle.std.specs.Prelude.{◌≡◌, ℕ, List, ◌<◌, [], false, true, Some, IfOk, IfErr, OnOk};
ghost use Rattle.std.specs.List.{flat_map};
ghost use Rattle.aide_entry.specs.Count.{one_more};
ghost use Rattle.aide_db.specs.DeskView.{DeskView};
ghost use Rattle.aide_db.specs.Map.{entries_of};
ghost use Rattle.aide_fields.specs.Path.{path_cmp};
ghost use Rattle.aide_db.specs.Side.{by_side};
ghost use Rattle.aide_merge.specs.Bound.{Fits, OpensWithin};
ghost use Rattle.aide_report.specs.code.Counts.{Completes};
ghost use Rattle.aide_merge.specs.code.Digests.{AreDigests};
ghost use Rattle.aide_report.specs.code.GivenDigests.{GaveDigests, next_given};
ghost use Rattle.aide_report.specs.code.LaterFault.{later_of};
ghost use Rattle.aide_merge.specs.Merged.{merged};
ghost use Rattle.aide_report.specs.code.PassFaults.{pass_fault_of};
ghost use Rattle.aide_report.specs.code.Passes.{KeepsPen, Passes, WritesOver};
ghost use Rattle.aide_text.specs.PenSheet.{on_sheet};
ghost use Rattle.aide_merge.specs.code.Starts.{GivesBoth};
ghost use Rattle.aide_merge.specs.code.ReadFaults.{IsReadingFault};
ghost use Rattle.aide_report.specs.code.Readings.{IsWholeReading};
ghost use Rattle.aide_merge.specs.Seen.{AreLimits, KeepsSources, OpensOnce, seen};

use crate::change_writer::{ChangeWriter, PassFault, put_entries};
use crate::count::count;
use crate::plan::Plan;
use aide_conf::Options;
use aide_db::{DbFault, DbFaultKind, Desk, Limits, OpenFault, Side, Sources};
use aide_merge::{
    Digests, Merge, RunFault, changed_side, close_both, digest_of, read_to_end, start_cursor,
};
use aide_text::{Counts, Pen, Sink};
use std::alloc::Allocator;

/// What the reading of a whole database found.
#[derive(Clone, Copy)]
pub(crate) struct WholeReading {
    pub(crate) skipped: u64,
    pub(crate) digest: [u8; 32],
}

/// Opens both sides, old then new. If the new one is refused, the old one is closed.
pub(crate) fn open_both<S: Sources>(sources: &mut S) -> Result<(S::R, S::R), RunFault>
    ensures passes { (limits : Limits) (desk : DeskView) → Passes limits 1
        (seen S.Sources sources.old) (seen S.Sources sources.new) desk desk ⊥ result }
    ensures gives { IfOk result (λ reels.
        GivesBoth S.R.to_come (S.bytes_of sources.old) reels.0 reels.1) }
    ensures gives_at { IfOk result (λ reels. GivesBoth S.R.to_come
        (next_given (S.bytes_at sources.old) (S.openings sources.old)) reels.0 reels.1) }
    ensures old_opened { S.openings sources.new Side.Old
        ≡ one_more (S.openings sources.old Side.Old) }
{
    let old_reel = match sources.open(Side::Old) {
        Ok(reel) => reel,
        Err(OpenFault) => return Err(RunFault::Open(Side::Old)),
    };
    match sources.open(Side::New) {
        Ok(new_reel) => Ok((old_reel, new_reel)),
        Err(OpenFault) => {
            sources.close(old_reel);
            Err(RunFault::Open(Side::New))
        }
    }
}

/// What a fault after the first readings means: a fault of the text shows that the side changed.
pub(crate) fn later_fault(fault: DbFault) -> RunFault
    ensures { result ≡ later_of fault }
{
    match fault.kind {
        DbFaultKind::Memory => RunFault::Database(fault),
        DbFaultKind::Read => RunFault::Database(fault),
        _ => RunFault::Changed(fault.side),
    }
}

/// What the end of a pass means, with the number of bytes that have been written.
pub(crate) fn pass_fault(fault: PassFault, sent: u64) -> RunFault
    ensures { result ≡ pass_fault_of fault sent }
{
    match fault {
        PassFault::Database(fault) => later_fault(fault),
        PassFault::Write => RunFault::Write { written: sent },
    }
}

/// Reads the database of a side whole. Returns which columns were skipped, and the digest of its bytes.
#[inline(never)]
pub(crate) fn read_whole<S: Sources, A: Allocator + Copy>(
    sources: &mut S,
    side: Side,
    limits: Limits,
    desk: &mut Desk<A>,
) -> Result<WholeReading, RunFault>
    requires { AreLimits limits }
    ensures sources { KeepsSources (seen S.Sources sources.old) (seen S.Sources sources.new) }
    ensures opens { OpensOnce (seen S.Sources sources.old) (seen S.Sources sources.new) side }
    ensures read { IfOk result (IsWholeReading limits (seen S.Sources sources.old) side) }
    ensures fault { IfErr result (IsReadingFault
        limits (seen S.Sources sources.old) (seen S.Sources sources.new) side desk.old.room) }
    ensures room { desk.new.room ≡ desk.old.room }
    ensures fits { (old_line new_line before : ℕ)
        → OpensWithin (S.bytes_of sources.old) limits side (by_side old_line new_line side)
        → Fits old_line new_line before desk.old → Fits old_line new_line before desk.new }
{
    let reel = match sources.open(side) {
        Ok(reel) => reel,
        Err(OpenFault) => return Err(RunFault::Open(side)),
    };
    let mut cursor = start_cursor(side, reel, limits, desk);
    match read_to_end(&mut cursor, desk) {
        Ok(()) => {
            let reading = WholeReading {
                skipped: cursor.skipped(),
                digest: digest_of(&cursor),
            };
            sources.close(cursor.into_reel());
            Ok(reading)
        }
        Err(fault) => {
            sources.close(cursor.into_reel());
            Err(RunFault::Database(fault))
        }
    }
}

/// The counting pass.
#[inline(never)]
pub(crate) fn count_pass<S: Sources, A: Allocator + Copy>(
    sources: &mut S,
    limits: Limits,
    desk: &mut Desk<A>,
    options: &Options,
    digests: &Digests,
) -> Result<Counts, RunFault>
    requires limits { AreLimits limits }
    requires digests { AreDigests (S.bytes_of sources.old) digests.now }
    ensures passes { Passes limits 1 (seen S.Sources sources.old) (seen S.Sources sources.new)
        desk.old desk.new ⊥ result }
    ensures counts { IfOk result (λ counts. (old new : List ℕ)
        → S.bytes_of sources.old Side.Old ≡ Some old → S.bytes_of sources.old Side.New ≡ Some new
        → Completes options.now counts [] (merged path_cmp (entries_of old) (entries_of new))) }
    ensures gave { OnOk result (GaveDigests (S.bytes_at sources.old)
        (S.openings sources.old) (S.openings sources.new) digests.now) }
{
    let (old_reel, new_reel) = open_both(sources)?;
    let mut merge = Merge::start(old_reel, new_reel, limits, desk);
    match count(&mut merge, desk, options) {
        Ok(counts) => {
            let changed = changed_side(&merge, digests);
            close_both(sources, merge);
            match changed {
                None => Ok(counts),
                Some(side) => Err(RunFault::Changed(side)),
            }
        }
        Err(fault) => {
            close_both(sources, merge);
            Err(later_fault(fault))
        }
    }
}

/// A pass that writes the text of each change.
#[inline(never)]
pub(crate) fn entries_pass<S: Sources, W: Sink, A: Allocator + Copy, T: ChangeWriter>(
    plan: &Plan<'_>,
    sources: &mut S,
    desk: &mut Desk<A>,
    out: &mut W,
    pen: &mut Pen,
    writer: &T,
) -> Result<(), RunFault>
    requires limits { AreLimits plan.now.limits }
    requires digests { AreDigests (S.bytes_of sources.old) plan.now.finding.now.digests }
    requires writes_on { pen.old.failed ≡ false }
    ensures passes { Passes plan.now.limits 1
        (seen S.Sources sources.old) (seen S.Sources sources.new)
        desk.old desk.new (pen.new.failed ≡ true) result }
    ensures writes { WritesOver (S.bytes_of sources.old) (λ old new.
        flat_map (T.text_of writer.now)
        (merged path_cmp (entries_of old) (entries_of new)))
        result (on_sheet W.Sink out.old pen.old) (on_sheet W.Sink out.new pen.new) }
    ensures pen { KeepsPen (on_sheet W.Sink out.old pen.old) (on_sheet W.Sink out.new pen.new)
        pen.new result }
    ensures gave { OnOk result (GaveDigests (S.bytes_at sources.old)
        (S.openings sources.old) (S.openings sources.new) plan.now.finding.now.digests) }
    ensures old_opened { S.openings sources.new Side.Old
        ≡ one_more (S.openings sources.old Side.Old) }
{
    let (old_reel, new_reel) = open_both(sources)?;
    let mut merge = Merge::start(old_reel, new_reel, plan.limits, desk);
    match put_entries(&mut merge, desk, out, pen, writer) {
        Ok(()) => {
            let changed = changed_side(&merge, &plan.finding.digests);
            close_both(sources, merge);
            match changed {
                None => Ok(()),
                Some(side) => Err(RunFault::Changed(side)),
            }
        }
        Err(fault) => {
            close_both(sources, merge);
            Err(pass_fault(fault, pen.sent))
        }
    }
}
