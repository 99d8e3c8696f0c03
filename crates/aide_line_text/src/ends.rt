//! Writes the numbers of the last line.
ghost use Rattle.aide_json.specs.Object.{joined};
ghost use Rattle.aide_json.specs.Value.{texts_of};
ghost use Rattle.aide_line_text.specs.Ends.{account_members, count_members};
ghost use Rattle.aide_text.specs.PenSheet.{on_sheet};
ghost use Rattle.aide_text.specs.Sheet.{Wrote};

use crate::counts::LineCounts;
use aide_json::put_count_member;
use aide_text::{Pen, Sink, put};

/// Writes the numbers of entries.
pub(crate) fn put_counts<W: Sink>(out: &mut W, pen: &mut Pen, counts: &LineCounts)
    ensures { Wrote (joined (texts_of (count_members counts.now)))
        (on_sheet W.Sink out.old pen.old) (on_sheet W.Sink out.new pen.new) }
{
    put_count_member(out, pen, b"total", counts.total as u128);
    put(out, pen, b",");
    put_count_member(out, pen, b"added", counts.added as u128);
    put(out, pen, b",");
    put_count_member(out, pen, b"removed", counts.removed as u128);
    put(out, pen, b",");
    put_count_member(out, pen, b"changed", counts.changed as u128);
}

/// Writes for how many lines the old entries account, for how many a trusted machine, for how many a list, and for how
/// many nothing.
pub(crate) fn put_accounts<W: Sink>(out: &mut W, pen: &mut Pen, counts: &LineCounts)
    ensures { Wrote (joined (texts_of (account_members counts.now)))
        (on_sheet W.Sink out.old pen.old) (on_sheet W.Sink out.new pen.new) }
{
    put_count_member(out, pen, b"same_as_old", counts.same_as_old as u128);
    put(out, pen, b",");
    put_count_member(out, pen, b"same_as_trusted", counts.same_as_trusted as u128);
    put(out, pen, b",");
    put_count_member(out, pen, b"left_out", counts.left_out as u128);
    put(out, pen, b",");
    put_count_member(out, pen, b"others", counts.others as u128);
}
