//! Writes the columns of a database that were skipped.
ghost use Rattle.std.specs.Prelude.{◌≡◌, ◌≤◌, true};
ghost use Rattle.aide_json.specs.Number.{count};
ghost use Rattle.aide_json.specs.Value.{print};
ghost use Rattle.aide_json.specs.code.Items.{items_from, next_item};
ghost use Rattle.aide_line_text.specs.Ends.{is_skipped, numbers, skipped_array};
ghost use Rattle.aide_text.specs.PenSheet.{on_sheet};
ghost use Rattle.aide_text.specs.Sheet.{Wrote};

use crate::side::is_still_first;
use aide_json::{put_comma, put_count};
use aide_text::{Pen, Sink, put};

/// Returns whether a column was skipped, counted from 1.
fn is_skipped(columns: u64, column: u32) -> bool
    requires least { 1 ≤ column }
    requires most { column ≤ 64 }
    ensures { result ≡ is_skipped columns column }
{
    (columns >> (column - 1)) % 2 == 1
}

/// Writes the number of a column if it was skipped, after a comma if it is not the first.
fn put_next<W: Sink>(out: &mut W, pen: &mut Pen, column: u32, skipped: bool, first: bool)
    ensures { Wrote (next_item skipped first (print (count column)))
        (on_sheet W.Sink out.old pen.old) (on_sheet W.Sink out.new pen.new) }
{
    if skipped {
        put_comma(out, pen, first);
        put_count(out, pen, column as u128);
    }
}

fn put_columns<W: Sink>(out: &mut W, pen: &mut Pen, columns: u64)
    ensures { Wrote (items_from true (is_skipped columns) (λ n. print (count n)) (numbers 1 64))
        (on_sheet W.Sink out.old pen.old) (on_sheet W.Sink out.new pen.new) }
{
    let mut first = true;
    for column in 1..65 {
        let skipped = is_skipped(columns, column);
        put_next(out, pen, column, skipped, first);
        first = is_still_first(first, skipped);
    }
}

/// Writes an array of the columns that were skipped. Bit c - 1 means column c.
pub(crate) fn put_skipped<W: Sink>(out: &mut W, pen: &mut Pen, columns: u64)
    ensures { Wrote (print (skipped_array columns))
        (on_sheet W.Sink out.old pen.old) (on_sheet W.Sink out.new pen.new) }
{
    put(out, pen, b"[");
    put_columns(out, pen, columns);
    put(out, pen, b"]");
}
