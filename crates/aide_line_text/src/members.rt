//! Writes the members that stand for a path, for a truth value and for a set of attributes.
ghost use Rattle.std.specs.Prelude.{◌≡◌, option_map};
ghost use Rattle.aide_json.specs.Value.{print, print_member, text_or_null, truth};
ghost use Rattle.aide_line_text.specs.Settings.{attrs_array};
ghost use Rattle.aide_text.specs.PenSheet.{on_sheet};
ghost use Rattle.aide_text.specs.Sheet.{Wrote};

use crate::names::put_set;
use aide_attr::AttrSet;
use aide_json::{put_literal_member, put_name, put_text_member};
use aide_text::{Pen, Sink, SliceFeed};

/// Writes the member of a path, which is null if there is none.
pub(crate) fn put_path<W: Sink>(out: &mut W, pen: &mut Pen, name: &[u8], path: Option<&[u8]>)
    ensures { Wrote (print_member (text_or_null name.now (option_map (λ p. p.now) path.entry)))
        (on_sheet W.Sink out.old pen.old) (on_sheet W.Sink out.new pen.new) }
{
    match path {
        None => put_literal_member(out, pen, name, b"null"),
        Some(path) => put_text_member(out, pen, name, SliceFeed::of(path)),
    }
}

/// Returns the word for a truth value.
fn truth(value: bool) -> &'static [u8]
    ensures { result.now ≡ print (truth value) }
{
    if value { b"true" } else { b"false" }
}

/// Writes the member of a truth value.
pub(crate) fn put_truth<W: Sink>(out: &mut W, pen: &mut Pen, name: &[u8], value: bool)
    ensures { Wrote (print_member (name.now, truth value)) (on_sheet W.Sink out.old pen.old)
        (on_sheet W.Sink out.new pen.new) }
{
    put_literal_member(out, pen, name, truth(value));
}

/// Writes the member of a set of attributes.
pub(crate) fn put_attrs<W: Sink>(out: &mut W, pen: &mut Pen, name: &[u8], set: AttrSet)
    ensures { Wrote (print_member (name.now, attrs_array set)) (on_sheet W.Sink out.old pen.old)
        (on_sheet W.Sink out.new pen.new) }
{
    put_name(out, pen, name);
    put_set(out, pen, set);
}
