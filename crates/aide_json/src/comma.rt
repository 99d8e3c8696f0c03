//! Writes the commas of an object or an array.
ghost use Rattle.std.specs.Prelude.{◌≡◌};
ghost use Rattle.aide_json.specs.Object.{comma};
ghost use Rattle.aide_text.specs.PenSheet.{on_sheet};
ghost use Rattle.aide_text.specs.Sheet.{Wrote};

use aide_text::{Pen, Sink, put};

/// Writes the comma before a member or a value that is not the first.
pub fn put_comma<W: Sink>(out: &mut W, pen: &mut Pen, first: bool)
    ensures { Wrote (comma first) (on_sheet W.Sink out.old pen.old)
        (on_sheet W.Sink out.new pen.new) }
{
    if !first {
        put(out, pen, b",");
    }
}
