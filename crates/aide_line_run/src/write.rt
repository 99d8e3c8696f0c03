//! The writing of the lines, while all four databases are read.
ghost use Rattle.std.specs.Prelude.{◌≡◌, ◌⊎◌, IfErr, IfOk, OnOk, false};
ghost use Rattle.std.specs.Io.KnownBytes.{Appends};
ghost use Rattle.aide_line_text.specs.ReadView.{facts_read};
ghost use Rattle.aide_merge.specs.Asked.{asked};
ghost use Rattle.aide_line_run.specs.code.OneReading.{new_read, old_read};
ghost use Rattle.aide_text.specs.Failures.{Rose};
ghost use Rattle.aide_text.specs.PenSheet.{on_sheet};
ghost use Rattle.aide_text.specs.Sheet.{Wrote};
ghost use Rattle.aide_line_run.specs.Lines.{last_line, first_line};
ghost use Rattle.aide_line_run.specs.ListView.{list_read};
ghost use Rattle.aide_line_run.specs.code.Settled.{FitsMerges, IsSettledStop};
ghost use Rattle.aide_line_run.specs.code.Walked.{CanWalk, HasWalked};
ghost use Rattle.aide_line_run.specs.code.Written.{ArePairsRead, CutsChanges, CutsLast};
ghost use Rattle.aide_line_run.specs.code.Written.{FlushesPair};
ghost use Rattle.aide_line_run.specs.code.Written.{HasToldAll, IsFirstFault, facts_found};
ghost use Rattle.aide_line_run.specs.code.Written.{pair_fault_of};

use crate::line_counts::outcome_of;
use crate::list::LeftOutList;
use crate::pair_fault::PairFault;
use crate::settle::put_all_accounted;
use crate::walk::{Merges, PairStop, Terms};
use aide_conf::Task;
use aide_db::{Desk, Reel};
use aide_entry::DeviceFault;
use aide_line_text::{LineCounts, Read, ReadFour, ReadPair, put_closing_line, put_opening_line};
use aide_merge::{Readings, RunFault, readings_of};
use aide_text::{Pen, Sink};
use std::alloc::Allocator;

/// What is asked of two pairs of databases and of a list.
#[derive(Clone, Copy)]
pub struct Tasks<'a> {
    /// The paths of the databases that are compared, and the options.
    pub compared: &'a Task<'a>,
    /// The paths of the trusted pair.
    pub trusted: &'a Task<'a>,
    /// What is left out.
    pub list: LeftOutList<'a>,
}

/// What a run has found that has read all four databases.
#[derive(Clone, Copy)]
pub(crate) struct PairsFound {
    pub(crate) counts: LineCounts,
    pub(crate) compared: Readings,
    pub(crate) trusted: Readings,
}

/// Writes the first line.
fn put_first<W: Sink>(out: &mut W, pen: &mut Pen, tasks: &Tasks<'_>)
    ensures { Wrote (first_line (asked tasks.now.compared.now) (asked tasks.now.trusted.now))
        (on_sheet W.Sink out.old pen.old) (on_sheet W.Sink out.new pen.new) }
{
    put_opening_line(
        out,
        pen,
        tasks.compared.old_path.as_bytes(),
        tasks.compared.new_path.as_bytes(),
        tasks.trusted.old_path.as_bytes(),
        tasks.trusted.new_path.as_bytes(),
    );
}

/// Returns what the last line says about both databases of a pair.
fn pair_of(readings: &Readings) -> ReadPair<'_>
    ensures old { facts_read result.old ≡ old_read readings.now }
    ensures new { facts_read result.new ≡ new_read readings.now }
{
    ReadPair {
        old: Read {
            digest: &readings.digests.of_old,
            skipped: readings.skipped_old,
        },
        new: Read {
            digest: &readings.digests.of_new,
            skipped: readings.skipped_new,
        },
    }
}

/// Writes the last line.
fn put_last<W: Sink>(out: &mut W, pen: &mut Pen, found: &PairsFound, list: LeftOutList<'_>)
    ensures { Wrote (last_line (list_read list.entry) (facts_found found.now)
        found.now.counts)
        (on_sheet W.Sink out.old pen.old) (on_sheet W.Sink out.new pen.new) }
{
    let read = ReadFour {
        compared: pair_of(&found.compared),
        trusted: pair_of(&found.trusted),
        list: list.digest,
    };
    let status = outcome_of(&found.counts, &found.compared).status();
    put_closing_line(out, pen, &read, &found.counts, status);
}

/// Writes the first line and the lines of the changes, and reads all four databases to their ends.
fn put_changes<R: Reel, W: Sink, A: Allocator + Copy>(
    merges: &mut Merges<R>,
    tasks: &Tasks<'_>,
    desk: &mut Desk<A>,
    trusted_desk: &mut Desk<A>,
    out: &mut W,
    pen: &mut Pen,
) -> Result<PairsFound, PairStop>
    requires { CanWalk merges.old desk.old trusted_desk.old pen.old }
    ensures fits { FitsMerges R.Reel merges.old
        desk.old desk.new trusted_desk.old trusted_desk.new }
    ensures read { IfOk result (ArePairsRead R.Reel merges.old merges.new desk.old desk.new
        trusted_desk.old trusted_desk.new) }
    ensures walked { HasWalked R.Reel (list_read tasks.now.list) tasks.now.compared.now.options
        (first_line (asked tasks.now.compared.now) (asked tasks.now.trusted.now))
        (λ found. found.counts) merges.old desk.old trusted_desk.old
        (on_sheet W.Sink out.old pen.old) (on_sheet W.Sink out.new pen.new) result }
    ensures writes_on { OnOk result (pen.new.failed ≡ false) }
    ensures fault { IfErr result (IsSettledStop R.Reel merges.old merges.new
        desk.old trusted_desk.old pen.new) }
{
    put_first(out, pen, tasks);
    if pen.failed {
        return Err(PairStop::Write);
    }
    let terms = Terms {
        options: &tasks.compared.options,
        list: tasks.list,
    };
    let counts = match put_all_accounted(merges, desk, trusted_desk, out, pen, &terms) {
        Ok(counts) => counts,
        Err(stop) => return Err(stop),
    };
    Ok(PairsFound {
        counts,
        compared: readings_of(&merges.compared),
        trusted: readings_of(&merges.trusted),
    })
}

/// The fault that the run returns, with the number of bytes that have been written.
fn pair_fault(stop: PairStop, sent: u64) -> PairFault
    ensures { result ≡ pair_fault_of stop sent }
{
    match stop {
        PairStop::Compared(fault) => PairFault::Compared(RunFault::Database(fault)),
        PairStop::Trusted(fault) => PairFault::Trusted(RunFault::Database(fault)),
        PairStop::Write => PairFault::Compared(RunFault::Write { written: sent }),
    }
}

/// Writes all lines, and flushes them once.
pub(crate) fn write_lines<R: Reel, W: Sink, A: Allocator + Copy>(
    merges: &mut Merges<R>,
    tasks: &Tasks<'_>,
    desk: &mut Desk<A>,
    trusted_desk: &mut Desk<A>,
    out: &mut W,
) -> Result<PairsFound, PairFault>
    requires { CanWalk merges.old desk.old trusted_desk.old (record { sent = 0; failed = false }) }
    ensures fits { FitsMerges R.Reel merges.old
        desk.old desk.new trusted_desk.old trusted_desk.new }
    ensures told { IfOk result (λ found. HasToldAll R.Reel (list_read tasks.now.list)
        (asked tasks.now.compared.now) (asked tasks.now.trusted.now) merges.old merges.new
        desk.old desk.new trusted_desk.old trusted_desk.new found
        (Appends (W.delivered out.old) (W.delivered out.new))) }
    ensures cut { IfErr result (λ fault. CutsChanges R.Reel (list_read tasks.now.list)
        (asked tasks.now.compared.now) (asked tasks.now.trusted.now) merges.old
        desk.old trusted_desk.old (W.delivered out.old) (W.delivered out.new) fault
        ⊎ CutsLast R.Reel (list_read tasks.now.list)
        (asked tasks.now.compared.now) (asked tasks.now.trusted.now) merges.old merges.new
        desk.old desk.new trusted_desk.old trusted_desk.new
        (W.delivered out.old) (W.delivered out.new) fault) }
    ensures fault { IfErr result (IsFirstFault R.Reel merges.old merges.new
        desk.old trusted_desk.old (Rose (W.failures out.old) (W.failures out.new))) }
    ensures sink { FlushesPair W.Sink out.old out.new result }
{
    let mut pen = Pen::new();
    let found = match put_changes(merges, tasks, desk, trusted_desk, out, &mut pen) {
        Ok(found) => found,
        Err(stop) => return Err(pair_fault(stop, pen.sent)),
    };
    put_last(out, &mut pen, &found, tasks.list);
    if pen.failed {
        return Err(PairFault::Compared(RunFault::Write { written: pen.sent }));
    }
    if let Err(DeviceFault) = out.flush() {
        return Err(PairFault::Compared(RunFault::Write { written: pen.sent }));
    }
    Ok(found)
}
