//! Writes the attributes of an entry as an object.
ghost use Rattle.std.specs.Prelude.{◌≡◌, ◌&&◌, true, not};
ghost use Rattle.aide_attr.specs.Set.{has};
ghost use Rattle.aide_entry.specs.View.{entry_in};
ghost use Rattle.aide_json.specs.code.Items.{items_from, next_item};
ghost use Rattle.aide_json.specs.Value.{members_of, object, print};
ghost use Rattle.aide_line_text.specs.Attribute.{attribute_members};
ghost use Rattle.aide_line_text.specs.code.Parts.{attribute_text};
ghost use Rattle.aide_text.specs.PenSheet.{on_sheet};
ghost use Rattle.aide_text.specs.Sheet.{Wrote};

use crate::attribute::put_attribute;
use aide_attr::{Attr, AttrSet};
use aide_entry::View;
use aide_json::put_comma;
use aide_text::{Pen, Sink, put};

/// Writes the member of an attribute if it is wanted, after a comma if it is not the first.
fn put_next<W: Sink>(
    out: &mut W,
    pen: &mut Pen,
    view: &View<'_>,
    attr: Attr,
    wanted: bool,
    first: bool,
)
    ensures { Wrote (next_item wanted first (attribute_text (entry_in view.now).1 attr))
        (on_sheet W.Sink out.old pen.old) (on_sheet W.Sink out.new pen.new) }
{
    if wanted {
        put_comma(out, pen, first);
        put_attribute(out, pen, view, attr);
    }
}

/// Returns whether the next item is the first one that is written.
pub(crate) fn is_still_first(first: bool, wanted: bool) -> bool
    ensures { result ≡ (first && not wanted) }
{
    first && !wanted
}

fn put_attributes<W: Sink>(
    out: &mut W,
    pen: &mut Pen,
    view: &View<'_>,
    set: AttrSet,
    attrs: &[Attr],
)
    ensures { Wrote (items_from true (has set) (attribute_text (entry_in view.now).1) attrs.now)
        (on_sheet W.Sink out.old pen.old) (on_sheet W.Sink out.new pen.new) }
{
    let mut first = true;
    for attr in attrs {
        let wanted = set.has(*attr);
        put_next(out, pen, view, *attr, wanted, first);
        first = is_still_first(first, wanted);
    }
}

/// Writes an object of the attributes that are shown and that the entry has.
pub(crate) fn put_entry<W: Sink>(out: &mut W, pen: &mut Pen, view: &View<'_>, shown: AttrSet)
    ensures { Wrote (print (object (members_of (attribute_members (has shown) (entry_in view.now).1))))
        (on_sheet W.Sink out.old pen.old) (on_sheet W.Sink out.new pen.new) }
{
    put(out, pen, b"{");
    put_attributes(out, pen, view, shown.common(view.attrs()), &Attr::ALL);
    put(out, pen, b"}");
}
