//! The sections of entries, each of which is a pass of its own.
ghost use Rattle.std.specs.Prelude.{◌≡◌, ◌+◌, [], false, true, length, OnOk};
ghost use Rattle.aide_attr.specs.Level.{reaches};
ghost use Rattle.aide_attr.specs.declared.level.Level.{Level as AnyLevel};
ghost use Rattle.aide_merge.specs.code.Digests.{AreDigests};
ghost use Rattle.aide_merge.specs.code.Merging.{pass_of};
ghost use Rattle.aide_report.specs.code.GivenDigests.{GaveDigests};
ghost use Rattle.aide_report.specs.code.Passes.{KeepsPen, Passes, WritesOver};
ghost use Rattle.aide_text.specs.PenSheet.{on_sheet};
ghost use Rattle.aide_report_specs.specs.Report.{sections_text};
ghost use Rattle.aide_report_specs.specs.Sections.{has_entry, is_there, sections_of, section_text};
ghost use Rattle.aide_merge.specs.Seen.{AreLimits, seen};
ghost use Rattle.aide_text.specs.Sheet.{WritesFirst};

use crate::entries::SectionWriter;
use crate::pass::entries_pass;
use crate::plan::Plan;
use aide_conf::Options;
use aide_db::{Desk, Sources};
use aide_merge::RunFault;
use aide_text::{Contents, Counts, Pen, Section, Sink, put_section_head};
use std::alloc::Allocator;

/// Whether there is an entry for these contents.
fn has_entry(counts: &Counts, contents: Contents) -> bool
    ensures { result ≡ has_entry counts.now contents }
{
    match contents {
        Contents::Listed {
            added,
            removed,
            changed,
        } => {
            added && counts.added != 0
                || removed && counts.removed != 0
                || changed && counts.changed != 0
        }
        Contents::Detailed => counts.shown != 0,
    }
}

/// Whether the report has the section.
fn is_there(options: &Options, counts: &Counts, section: Section) -> bool
    ensures { result ≡ is_there options.now counts.now section }
{
    section.is_asked(options.level, options.grouped) && has_entry(counts, section.contents())
}

/// A section: its title lines, and a pass over both databases.
fn section_pass<S: Sources, W: Sink, A: Allocator + Copy>(
    plan: &Plan<'_>,
    sources: &mut S,
    desk: &mut Desk<A>,
    out: &mut W,
    pen: &mut Pen,
    section: Section,
) -> Result<(), RunFault>
    requires limits { AreLimits plan.now.limits }
    requires digests { AreDigests (S.bytes_of sources.old) plan.now.finding.now.digests }
    requires writes_on { pen.old.failed ≡ false }
    ensures passes { Passes plan.now.limits 1
        (seen S.Sources sources.old) (seen S.Sources sources.new)
        desk.old desk.new (pen.new.failed ≡ true) result }
    ensures writes { WritesOver (S.bytes_of sources.old)
        (λ old new. section_text plan.now.task.now.options (pass_of old new) section)
        result (on_sheet W.Sink out.old pen.old) (on_sheet W.Sink out.new pen.new) }
    ensures pen { KeepsPen (on_sheet W.Sink out.old pen.old) (on_sheet W.Sink out.new pen.new)
        pen.new result }
    ensures gave { OnOk result (GaveDigests (S.bytes_at sources.old)
        (S.openings sources.old) (S.openings sources.new) plan.now.finding.now.digests) }
{
    put_section_head(out, pen, section);
    if pen.failed {
        return Err(RunFault::Write { written: pen.sent });
    }
    let writer = SectionWriter {
        options: &plan.task.options,
        contents: section.contents(),
    };
    entries_pass(plan, sources, desk, out, pen, &writer)
}

/// Writes all sections of the report.
pub(crate) fn put_sections<S: Sources, W: Sink, A: Allocator + Copy>(
    plan: &Plan<'_>,
    sources: &mut S,
    desk: &mut Desk<A>,
    out: &mut W,
    pen: &mut Pen,
) -> Result<(), RunFault>
    requires limits { AreLimits plan.now.limits }
    requires digests { AreDigests (S.bytes_of sources.old) plan.now.finding.now.digests }
    requires writes_on { pen.old.failed ≡ false }
    ensures passes { Passes plan.now.limits
        (length (sections_of plan.now.task.now.options plan.now.finding.now.counts))
        (seen S.Sources sources.old) (seen S.Sources sources.new)
        desk.old desk.new (pen.new.failed ≡ true) result }
    ensures writes { WritesOver (S.bytes_of sources.old)
        (λ old new. sections_text plan.now.task.now.options plan.now.finding.now.counts
        (pass_of old new))
        result (on_sheet W.Sink out.old pen.old) (on_sheet W.Sink out.new pen.new) }
    ensures first { OnOk result (WritesFirst []
        (reaches plan.now.task.now.options.level AnyLevel.DatabaseAttributes)
        (on_sheet W.Sink out.old pen.old) (on_sheet W.Sink out.new pen.new)) }
    ensures pen { KeepsPen (on_sheet W.Sink out.old pen.old) (on_sheet W.Sink out.new pen.new)
        pen.new result }
    ensures gave { OnOk result (GaveDigests (S.bytes_at sources.old)
        (S.openings sources.old) (S.openings sources.new) plan.now.finding.now.digests) }
{
    for section in &Section::ALL {
        if !is_there(&plan.task.options, &plan.finding.counts, *section) {
            continue;
        }
        match section_pass(plan, sources, desk, out, pen, *section) {
            Ok(()) => {}
            Err(fault) => return Err(fault),
        }
    }
    Ok(())
}
