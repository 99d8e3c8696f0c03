//! Writes a set of attributes as an array of their names.
ghost use Rattle.std.specs.Prelude.{◌≡◌, true};
ghost use Rattle.aide_attr.specs.Set.{has};
ghost use Rattle.aide_json.specs.Value.{print};
ghost use Rattle.aide_json.specs.code.Items.{items_from};
ghost use Rattle.aide_line_text.specs.Settings.{attr_word, attrs_array};
ghost use Rattle.aide_text.specs.PenSheet.{on_sheet};
ghost use Rattle.aide_text.specs.Sheet.{Wrote};

use aide_attr::{Attr, AttrSet};
use aide_json::{put_comma, put_quoted};
use aide_text::{Pen, Sink, put};

/// Writes the names of those of these attributes that are in the set, with commas between them.
fn put_names<W: Sink>(out: &mut W, pen: &mut Pen, set: AttrSet, attrs: &[Attr])
    ensures { Wrote (items_from true (has set) (λ a. print (attr_word a)) attrs.now)
        (on_sheet W.Sink out.old pen.old) (on_sheet W.Sink out.new pen.new) }
{
    let mut first = true;
    for attr in attrs {
        if set.has(*attr) {
            put_comma(out, pen, first);
            put_quoted(out, pen, attr.name());
            first = false;
        }
    }
}

/// Writes an array of the names of the attributes in a set, in the order of all attributes.
pub(crate) fn put_set<W: Sink>(out: &mut W, pen: &mut Pen, set: AttrSet)
    ensures { Wrote (print (attrs_array set)) (on_sheet W.Sink out.old pen.old)
        (on_sheet W.Sink out.new pen.new) }
{
    put(out, pen, b"[");
    put_names(out, pen, set, &Attr::ALL);
    put(out, pen, b"]");
}
