//! The writing of a report, once both databases are known to be sound and their differences are counted.
ghost use Rattle.std.specs.Prelude.{◌≡◌, ◌+◌, false, true, ℕ, List, length, Some, OnOk};
ghost use Rattle.aide_attr.specs.Level.{reaches};
ghost use Rattle.aide_attr.specs.declared.level.Level.{Level as AnyLevel};
ghost use Rattle.aide_report_specs.specs.Agreement.{BeginsWith, beginning_by, goes_on_by};
ghost use Rattle.aide_merge.specs.code.Digests.{AreDigests};
ghost use Rattle.aide_merge.specs.code.Merging.{pass_of};
ghost use Rattle.aide_report.specs.code.Finding.{old_origin, new_origin};
ghost use Rattle.aide_report.specs.code.GivenDigests.{GaveDigests};
ghost use Rattle.aide_report.specs.code.Passes.{FlushesOnce, KeepsPen, Passes, WritesOver};
ghost use Rattle.aide_text.specs.PenSheet.{on_sheet};
ghost use Rattle.aide_report_specs.specs.Report.{is_silent, parts_of, text_of, section_count};
ghost use Rattle.aide_report_specs.specs.Sections.{sections_of};
ghost use Rattle.aide_merge.specs.Seen.{AreLimits, seen};
ghost use Rattle.aide_text.specs.Failures.{Rose};
ghost use Rattle.aide_text.specs.Overview.{differs, overview_by};
ghost use Rattle.aide_text.specs.Sent.{Sends};
ghost use Rattle.aide_text.specs.Sheet.{WritesFirst};

use crate::databases::put_databases;
use crate::finding::Finding;
use crate::flush::flush_written;
use crate::plan::Plan;
use crate::sections::put_sections;
use aide_conf::{Options, Task};
use aide_db::{Desk, Limits, Side, Sources};
use aide_merge::RunFault;
use aide_text::{Counts, Pen, Sink, put_overview};
use std::alloc::Allocator;

/// Whether nothing is to be written: the databases do not differ, and a quiet report is wanted.
fn is_silent(options: &Options, counts: &Counts) -> bool
    ensures { result ≡ is_silent options.now (differs counts.now) }
{
    options.quiet && !counts.databases_differ()
}

/// Writes all parts of the report.
fn put_parts<S: Sources, W: Sink, A: Allocator + Copy>(
    plan: &Plan<'_>,
    sources: &mut S,
    desk: &mut Desk<A>,
    out: &mut W,
    pen: &mut Pen,
) -> Result<(), RunFault>
    requires limits { AreLimits plan.now.limits }
    requires digests { AreDigests (S.bytes_of sources.old) plan.now.finding.now.digests }
    requires writes_on { pen.old.failed ≡ false }
    ensures passes { Passes plan.now.limits
        (length (sections_of plan.now.task.now.options plan.now.finding.now.counts))
        (seen S.Sources sources.old) (seen S.Sources sources.new)
        desk.old desk.new (pen.new.failed ≡ true) result }
    ensures writes { WritesOver (S.bytes_of sources.old)
        (λ old new. parts_of plan.now.task.now.options
        (old_origin plan.now.task.now plan.now.finding.now)
        (new_origin plan.now.task.now plan.now.finding.now)
        plan.now.finding.now.counts (pass_of old new))
        result (on_sheet W.Sink out.old pen.old) (on_sheet W.Sink out.new pen.new) }
    ensures first { OnOk result (WritesFirst
        (overview_by plan.now.task.now.options.level plan.now.finding.now.counts)
        (reaches plan.now.task.now.options.level AnyLevel.DatabaseAttributes)
        (on_sheet W.Sink out.old pen.old) (on_sheet W.Sink out.new pen.new)) }
    ensures pen { KeepsPen (on_sheet W.Sink out.old pen.old) (on_sheet W.Sink out.new pen.new)
        pen.new result }
    ensures gave { OnOk result (GaveDigests (S.bytes_at sources.old)
        (S.openings sources.old) (S.openings sources.new) plan.now.finding.now.digests) }
{
    put_overview(out, pen, plan.task.options.level, &plan.finding.counts);
    if pen.failed {
        return Err(RunFault::Write { written: pen.sent });
    }
    match put_sections(plan, sources, desk, out, pen) {
        Ok(()) => {}
        Err(fault) => return Err(fault),
    }
    put_databases(out, pen, plan.task, plan.finding);
    if pen.failed {
        return Err(RunFault::Write { written: pen.sent });
    }
    Ok(())
}

/// Writes the report, unless nothing is to be written.
fn put_report<S: Sources, W: Sink, A: Allocator + Copy>(
    plan: &Plan<'_>,
    sources: &mut S,
    desk: &mut Desk<A>,
    out: &mut W,
    pen: &mut Pen,
) -> Result<(), RunFault>
    requires limits { AreLimits plan.now.limits }
    requires digests { AreDigests (S.bytes_of sources.old) plan.now.finding.now.digests }
    requires writes_on { pen.old.failed ≡ false }
    ensures passes { Passes plan.now.limits
        (section_count plan.now.task.now.options plan.now.finding.now.counts)
        (seen S.Sources sources.old) (seen S.Sources sources.new)
        desk.old desk.new (pen.new.failed ≡ true) result }
    ensures writes { WritesOver (S.bytes_of sources.old)
        (λ old new. text_of plan.now.task.now.options
        (old_origin plan.now.task.now plan.now.finding.now)
        (new_origin plan.now.task.now plan.now.finding.now)
        plan.now.finding.now.counts (pass_of old new))
        result (on_sheet W.Sink out.old pen.old) (on_sheet W.Sink out.new pen.new) }
    ensures first { OnOk result (WritesFirst
        (beginning_by plan.now.task.now.options plan.now.finding.now.counts)
        (goes_on_by plan.now.task.now.options plan.now.finding.now.counts)
        (on_sheet W.Sink out.old pen.old) (on_sheet W.Sink out.new pen.new)) }
    ensures pen { KeepsPen (on_sheet W.Sink out.old pen.old) (on_sheet W.Sink out.new pen.new)
        pen.new result }
    ensures gave { OnOk result (GaveDigests (S.bytes_at sources.old)
        (S.openings sources.old) (S.openings sources.new) plan.now.finding.now.digests) }
{
    if is_silent(&plan.task.options, &plan.finding.counts) {
        return Ok(());
    }
    put_parts(plan, sources, desk, out, pen)
}

/// Writes the report, and flushes it once, even if it is empty.
pub(crate) fn write_report<S: Sources, W: Sink, A: Allocator + Copy>(
    task: &Task<'_>,
    limits: Limits,
    desk: &mut Desk<A>,
    sources: &mut S,
    out: &mut W,
    finding: &Finding,
) -> Result<(), RunFault>
    requires limits { AreLimits limits }
    requires digests { AreDigests (S.bytes_of sources.old) finding.now.digests }
    ensures passes { Passes limits (section_count task.now.options finding.now.counts)
        (seen S.Sources sources.old) (seen S.Sources sources.new)
        desk.old desk.new (Rose (W.failures out.old) (W.failures out.new)) result }
    ensures sends { (old new : List ℕ) → S.bytes_of sources.old Side.Old ≡ Some old
        → S.bytes_of sources.old Side.New ≡ Some new
        → Sends result (text_of task.now.options (old_origin task.now finding.now)
        (new_origin task.now finding.now) finding.now.counts (pass_of old new))
        (W.delivered out.old) (W.delivered out.new) }
    ensures first { OnOk result (BeginsWith (beginning_by task.now.options finding.now.counts)
        (goes_on_by task.now.options finding.now.counts)
        (W.delivered out.old) (W.delivered out.new)) }
    ensures sink { FlushesOnce W.Sink out.old out.new result }
    ensures gave { OnOk result (GaveDigests (S.bytes_at sources.old)
        (S.openings sources.old) (S.openings sources.new) finding.now.digests) }
{
    let plan = Plan {
        task,
        limits,
        finding,
    };
    let mut pen = Pen::new();
    let written = put_report(&plan, sources, desk, out, &mut pen);
    flush_written(out, &pen, written)
}
