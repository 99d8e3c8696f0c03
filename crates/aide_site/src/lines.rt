//! The lines on standard error. A line with holes is written by a pen of its own.
ghost use Rattle.std.specs.Prelude.{◌≡◌, ◌==◌, ◌<◌};
ghost use Rattle.std.specs.Int.{bit_at};
ghost use Rattle.aide_entry.specs.Fault.{column_of_kind};
ghost use Rattle.aide_site.specs.Lines.{changed_line, conf_line, database_line, line_if_skipped};
ghost use Rattle.aide_site.specs.Lines.{lines_usage_line, memory_line, number_if_any, open_line};
ghost use Rattle.aide_site.specs.Lines.{outcome_lines, side_word, skipped_line, skipped_lines};
ghost use Rattle.aide_site.specs.Lines.{too_large_line, unread_line, usage_line, write_line};
ghost use Rattle.aide_site.specs.Put.{PutOn};
ghost use Rattle.aide_text.specs.PenSheet.{on_sheet};
ghost use Rattle.aide_text.specs.Sheet.{Wrote};

use crate::put::put_fixed;
use crate::whose::Whose;
use aide_conf::ConfFault;
use aide_db::{DbFault, DbFaultKind, Side};
use aide_merge::Outcome;
use aide_text::{Pen, Sink, SliceFeed, put, put_number, put_path};

/// Puts the line that says how to call the program.
#[tactic(auto, unfolding(crate::specs::Lines::usage_line))]
pub fn put_usage_line<E: Sink>(err: &mut E)
    ensures { PutOn usage_line E.Sink err.old err.new }
{
    put_fixed(
        err,
        b"aide: usage: aide (-E | -D) -c FILE [-B TEXT] [-A TEXT]\n",
    );
}

/// Puts the line that says how to call the program that writes lines of JSON.
#[tactic(auto, unfolding(crate::specs::Lines::lines_usage_line))]
pub fn put_lines_usage_line<E: Sink>(err: &mut E)
    ensures { PutOn lines_usage_line E.Sink err.old err.new }
{
    put_fixed(
        err,
        b"aide: usage: aide_lines (-E [--trusted-old FILE --trusted-new FILE] [--without TEXT] \
          | -D) -c FILE [-B TEXT] [-A TEXT]\n",
    );
}

/// Puts the line for out of memory.
#[tactic(auto, unfolding(crate::specs::Lines::memory_line))]
pub fn put_memory_line<E: Sink>(err: &mut E)
    ensures { PutOn memory_line E.Sink err.old err.new }
{
    put_fixed(err, b"aide: out of memory\n");
}

/// Puts the line for a configuration that is too long.
#[tactic(auto, unfolding(crate::specs::Lines::too_large_line))]
pub(crate) fn put_too_large_line<E: Sink>(err: &mut E)
    ensures { PutOn too_large_line E.Sink err.old err.new }
{
    put_fixed(
        err,
        b"aide: the configuration is longer than 4194304 bytes\n",
    );
}

/// Puts the line for a report that was not written.
#[tactic(auto, unfolding(crate::specs::Lines::write_line))]
pub fn put_write_line<E: Sink>(err: &mut E)
    ensures { PutOn write_line E.Sink err.old err.new }
{
    put_fixed(err, b"aide: cannot write the report\n");
}

/// Puts the line for a configuration that was not opened or not read.
pub(crate) fn put_unread_line<E: Sink>(err: &mut E, path: &str)
    ensures { PutOn (unread_line path.now) E.Sink err.old err.new }
{
    let mut pen = Pen::new();
    put(err, &mut pen, b"aide: cannot read the configuration ");
    put_path(err, &mut pen, SliceFeed::of(path.as_bytes()));
    put(err, &mut pen, b"\n");
}

/// Puts the line for a fault of the configuration.
pub(crate) fn put_conf_line<E: Sink>(err: &mut E, fault: ConfFault)
    ensures { PutOn (conf_line fault) E.Sink err.old err.new }
{
    let mut pen = Pen::new();
    put(err, &mut pen, b"aide: ");
    put(err, &mut pen, fault.text.word().as_bytes());
    put(err, &mut pen, b":");
    put_number(err, &mut pen, fault.line);
    put(err, &mut pen, b": ");
    put(err, &mut pen, fault.kind.words().as_bytes());
    put(err, &mut pen, b"\n");
}

/// Returns the word for a side.
fn side_name(whose: Whose, of: Side) -> &'static [u8]
    ensures { result.now ≡ side_word whose of }
{
    match whose {
        Whose::Compared => match of {
            Side::Old => b"old",
            Side::New => b"new",
        },
        Whose::Trusted => match of {
            Side::Old => b"trusted old",
            Side::New => b"trusted new",
        },
    }
}

/// Puts the number of the column that a fault is about, if it is about one.
#[tactic(auto, unfolding(crate::specs::Lines::number_if_any))]
fn put_fault_column<E: Sink>(err: &mut E, pen: &mut Pen, kind: DbFaultKind)
    ensures { Wrote (number_if_any (column_of_kind kind)) (on_sheet E.Sink err.old pen.old)
        (on_sheet E.Sink err.new pen.new) }
{
    if let Some(column) = kind.column() {
        put(err, pen, b" ");
        put_number(err, pen, column as u64);
    }
}

/// Puts the line for a fault of a database.
pub(crate) fn put_database_line<E: Sink>(err: &mut E, whose: Whose, fault: DbFault)
    ensures { PutOn (database_line whose fault) E.Sink err.old err.new }
{
    let mut pen = Pen::new();
    put(err, &mut pen, b"aide: ");
    put(err, &mut pen, side_name(whose, fault.side));
    put(err, &mut pen, b" database:");
    put_number(err, &mut pen, fault.line);
    put(err, &mut pen, b": ");
    put(err, &mut pen, fault.kind.words());
    put_fault_column(err, &mut pen, fault.kind);
    put(err, &mut pen, b"\n");
}

/// Puts the line for a database that was not opened.
pub(crate) fn put_open_line<E: Sink>(err: &mut E, whose: Whose, side: Side, path: &str)
    ensures { PutOn (open_line whose side path.now) E.Sink err.old err.new }
{
    let mut pen = Pen::new();
    put(err, &mut pen, b"aide: cannot open the ");
    put(err, &mut pen, side_name(whose, side));
    put(err, &mut pen, b" database ");
    put_path(err, &mut pen, SliceFeed::of(path.as_bytes()));
    put(err, &mut pen, b"\n");
}

/// Puts the line for a database that changed while it was read.
pub(crate) fn put_changed_line<E: Sink>(err: &mut E, whose: Whose, side: Side)
    ensures { PutOn (changed_line whose side) E.Sink err.old err.new }
{
    let mut pen = Pen::new();
    put(err, &mut pen, b"aide: the ");
    put(err, &mut pen, side_name(whose, side));
    put(err, &mut pen, b" database changed while it was read\n");
}

fn put_skipped_line<E: Sink>(err: &mut E, pen: &mut Pen, side: Side, column: u64)
    ensures { Wrote (skipped_line side column) (on_sheet E.Sink err.old pen.old)
        (on_sheet E.Sink err.new pen.new) }
{
    put(err, pen, b"aide: ");
    put(err, pen, side_name(Whose::Compared, side));
    put(err, pen, b" database: column ");
    put_number(err, pen, column);
    put(err, pen, b" skipped\n");
}

/// Returns whether the column at this index was skipped.
fn is_skipped(columns: u64, index: u32) -> bool
    requires { index < 64 }
    ensures { result ≡ (bit_at columns index == 1) }
{
    (columns >> index) % 2 == 1
}

#[tactic(auto, unfolding(crate::specs::Lines::line_if_skipped))]
fn put_line_if_skipped<E: Sink>(err: &mut E, pen: &mut Pen, side: Side, columns: u64, index: u32)
    requires { index < 64 }
    ensures { Wrote (line_if_skipped side columns index) (on_sheet E.Sink err.old pen.old)
        (on_sheet E.Sink err.new pen.new) }
{
    if is_skipped(columns, index) {
        put_skipped_line(err, pen, side, index as u64 + 1);
    }
}

fn put_skipped_lines<E: Sink>(err: &mut E, pen: &mut Pen, side: Side, columns: u64)
    ensures { Wrote (skipped_lines side columns) (on_sheet E.Sink err.old pen.old)
        (on_sheet E.Sink err.new pen.new) }
{
    for index in 0..64 {
        put_line_if_skipped(err, pen, side, columns, index);
    }
}

/// Puts a line for each column that a good run skipped, those of the old side first.
pub fn put_outcome_lines<E: Sink>(err: &mut E, outcome: &Outcome)
    ensures { PutOn (outcome_lines outcome.now) E.Sink err.old err.new }
{
    let mut pen = Pen::new();
    put_skipped_lines(err, &mut pen, Side::Old, outcome.skipped_old);
    put_skipped_lines(err, &mut pen, Side::New, outcome.skipped_new);
}
