//! Writes the beginning of a report: whether the databases differ, and the numbers of entries.
ghost use Rattle.std.specs.Prelude.{◌≡◌, ◌++◌};
ghost use Rattle.aide_attr.specs.declared.level.Level.{Level as AnyLevel};
ghost use Rattle.aide_text.specs.Overview.{head_of, summary_title, number_line, first_numbers};
ghost use Rattle.aide_text.specs.Overview.{last_numbers, summary_of, overview_by, when};
ghost use Rattle.aide_attr.specs.Level.{reaches};
ghost use Rattle.aide_text.specs.PenSheet.{on_sheet};
ghost use Rattle.aide_text.specs.Sheet.{Wrote};

use crate::counts::Counts;
use crate::pen::{Pen, put, put_newline, put_number};
use crate::sink::Sink;
use aide_attr::Level;

/// Writes the first line: whether the databases differ.
#[tactic(auto, unfolding(crate::specs::Overview::head_of))]
fn put_head<W: Sink>(out: &mut W, pen: &mut Pen, differ: bool)
    ensures { Wrote (head_of differ) (on_sheet W.Sink out.old pen.old)
        (on_sheet W.Sink out.new pen.new) }
{
    if differ {
        put(
            out,
            pen,
            b"AIDE found differences between the two databases.\n",
        );
    } else {
        put(
            out,
            pen,
            b"AIDE found NO differences between the two databases.\n",
        );
    }
}

#[tactic(auto, unfolding(crate::specs::Overview::summary_title))]
fn put_summary_title<W: Sink>(out: &mut W, pen: &mut Pen)
    ensures { Wrote summary_title (on_sheet W.Sink out.old pen.old)
        (on_sheet W.Sink out.new pen.new) }
{
    put(out, pen, b"\nSummary:\n");
}

fn put_number_line<W: Sink>(out: &mut W, pen: &mut Pen, label: &[u8], number: u64)
    ensures { Wrote (number_line label.now number)
        (on_sheet W.Sink out.old pen.old) (on_sheet W.Sink out.new pen.new) }
{
    put(out, pen, label);
    put_number(out, pen, number);
    put_newline(out, pen);
}

fn put_first_numbers<W: Sink>(out: &mut W, pen: &mut Pen, total: u64, added: u64)
    ensures { Wrote (first_numbers total added)
        (on_sheet W.Sink out.old pen.old) (on_sheet W.Sink out.new pen.new) }
{
    put_number_line(out, pen, b"  Total number of entries: ", total);
    put_number_line(out, pen, b"  Added entries:           ", added);
}

fn put_last_numbers<W: Sink>(out: &mut W, pen: &mut Pen, removed: u64, changed: u64)
    ensures { Wrote (last_numbers removed changed)
        (on_sheet W.Sink out.old pen.old) (on_sheet W.Sink out.new pen.new) }
{
    put_number_line(out, pen, b"  Removed entries:         ", removed);
    put_number_line(out, pen, b"  Changed entries:         ", changed);
}

/// Writes the summary: the numbers of entries.
fn put_summary<W: Sink>(out: &mut W, pen: &mut Pen, counts: &Counts)
    ensures { Wrote (summary_of
        counts.now.total counts.now.added counts.now.removed counts.now.changed)
        (on_sheet W.Sink out.old pen.old) (on_sheet W.Sink out.new pen.new) }
{
    put_summary_title(out, pen);
    put_first_numbers(out, pen, counts.total, counts.added);
    put_last_numbers(out, pen, counts.removed, counts.changed);
}

fn put_wanted_summary<W: Sink>(out: &mut W, pen: &mut Pen, level: Level, counts: &Counts)
    ensures { Wrote (when (reaches level AnyLevel.Summary)
        (summary_of counts.now.total counts.now.added counts.now.removed counts.now.changed))
        (on_sheet W.Sink out.old pen.old) (on_sheet W.Sink out.new pen.new) }
{
    if level.reaches(Level::Summary) {
        put_summary(out, pen, counts);
    }
}

/// Writes the head, and the summary if the level asks for it.
pub fn put_overview<W: Sink>(out: &mut W, pen: &mut Pen, level: Level, counts: &Counts)
    ensures { Wrote (overview_by level counts.now)
        (on_sheet W.Sink out.old pen.old) (on_sheet W.Sink out.new pen.new) }
{
    put_head(out, pen, counts.databases_differ());
    put_wanted_summary(out, pen, level, counts);
}
