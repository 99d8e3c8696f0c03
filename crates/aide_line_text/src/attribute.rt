//! Writes an attribute as a member of an object.
ghost use Rattle.std.specs.Prelude.{◌≡◌, ◌≤◌, Option, None, Some, length};
ghost use Rattle.aide_attr.specs.declared.attr.Attr.{Attr as AnyAttr};
ghost use Rattle.aide_fields.specs.Attributes.{link_in, digest_in, opaque_in};
ghost use Rattle.aide_entry.specs.View.{entry_in};
ghost use Rattle.aide_json.specs.Number.{integer};
ghost use Rattle.aide_json.specs.Value.{base16, print_member, text_member, text_or_null, word};
ghost use Rattle.aide_line_text.specs.code.Parts.{attribute_text};
ghost use Rattle.aide_text.specs.PenSheet.{on_sheet};
ghost use Rattle.aide_text.specs.ReadyRest.{ready_rest};
ghost use Rattle.aide_text.specs.Sheet.{Wrote};
ghost use Rattle.aide_text.specs.ValueText.{mode_text, option_text, type_text};

use aide_attr::{Attr, FileType, Form};
use aide_entry::View;
use aide_json::{
    put_digest_member, put_integer_member, put_literal_member, put_text_member, put_word_member,
};
use aide_text::{DecodedFeed, Pen, Ready, Sink, SliceFeed, kind_text, mode_text};

/// Writes a member whose value is a short string that needs no escape.
fn put_ready<W: Sink>(out: &mut W, pen: &mut Pen, name: &[u8], text: Ready)
    ensures { Wrote (print_member (name.now, word (ready_rest text)))
        (on_sheet W.Sink out.old pen.old) (on_sheet W.Sink out.new pen.new) }
{
    put_word_member(out, pen, name, text.bytes());
}

/// Writes the member of a type of file.
pub(crate) fn put_type<W: Sink>(out: &mut W, pen: &mut Pen, name: &[u8], kind: FileType)
    ensures { Wrote (print_member (name.now, word (type_text kind))) (on_sheet W.Sink out.old pen.old)
        (on_sheet W.Sink out.new pen.new) }
{
    put_ready(out, pen, name, kind_text(Some(kind)));
}

fn put_kind<W: Sink>(out: &mut W, pen: &mut Pen, name: &[u8], kind: Option<FileType>)
    ensures { Wrote (option_text (λ kind. print_member (name.now, word (type_text kind))) kind)
        (on_sheet W.Sink out.old pen.old) (on_sheet W.Sink out.new pen.new) }
{
    if let Some(kind) = kind {
        put_type(out, pen, name, kind);
    }
}

fn put_mode<W: Sink>(out: &mut W, pen: &mut Pen, name: &[u8], mode: Option<i128>)
    ensures { Wrote (option_text (λ n. print_member (name.now, word (mode_text n))) mode)
        (on_sheet W.Sink out.old pen.old) (on_sheet W.Sink out.new pen.new) }
{
    if let Some(mode) = mode {
        put_ready(out, pen, name, mode_text(Some(mode)));
    }
}

fn put_number<W: Sink>(out: &mut W, pen: &mut Pen, name: &[u8], number: Option<i128>)
    ensures { Wrote (option_text (λ n. print_member (name.now, integer n)) number)
        (on_sheet W.Sink out.old pen.old) (on_sheet W.Sink out.new pen.new) }
{
    if let Some(number) = number {
        put_integer_member(out, pen, name, number);
    }
}

fn put_link<W: Sink>(out: &mut W, pen: &mut Pen, name: &[u8], view: &View<'_>)
    ensures { Wrote (option_text (λ target. print_member (text_or_null name.now target))
        (link_in ((entry_in view.now).1 AnyAttr.Lname)))
        (on_sheet W.Sink out.old pen.old) (on_sheet W.Sink out.new pen.new) }
{
    match view.link() {
        None => {}
        Some(None) => put_literal_member(out, pen, name, b"null"),
        Some(Some(target)) => put_text_member(out, pen, name, DecodedFeed::of(target)),
    }
}

fn put_digest<W: Sink>(out: &mut W, pen: &mut Pen, name: &[u8], view: &View<'_>, attr: Attr)
    ensures { Wrote (option_text (λ bytes. print_member (name.now, base16 bytes))
        (digest_in ((entry_in view.now).1 attr)))
        (on_sheet W.Sink out.old pen.old) (on_sheet W.Sink out.new pen.new) }
{
    let mut buffer = [0; 64];
    if let Some(len) = view.digest(attr, &mut buffer) {
        put_digest_member(out, pen, name, &buffer[..len]);
    }
}

fn put_field<W: Sink>(out: &mut W, pen: &mut Pen, name: &[u8], view: &View<'_>, attr: Attr)
    ensures { Wrote (option_text (λ bytes. print_member (text_member name.now bytes))
        (opaque_in ((entry_in view.now).1 attr)))
        (on_sheet W.Sink out.old pen.old) (on_sheet W.Sink out.new pen.new) }
{
    if let Some(bytes) = view.field(attr) {
        put_text_member(out, pen, name, SliceFeed::of(bytes));
    }
}

/// Writes the member of an attribute, and nothing if the entry lacks it.
pub(crate) fn put_attribute<W: Sink>(out: &mut W, pen: &mut Pen, view: &View<'_>, attr: Attr)
    ensures { Wrote (attribute_text (entry_in view.now).1 attr)
        (on_sheet W.Sink out.old pen.old) (on_sheet W.Sink out.new pen.new) }
{
    let name = attr.detail_name();
    match attr.form() {
        Form::Kind => put_kind(out, pen, name, view.kind()),
        Form::Mode => put_mode(out, pen, name, view.number(attr)),
        Form::Number => put_number(out, pen, name, view.number(attr)),
        Form::Time => put_number(out, pen, name, view.number(attr)),
        Form::Link => put_link(out, pen, name, view),
        Form::Digest(_, _) => put_digest(out, pen, name, view, attr),
        Form::Opaque => put_field(out, pen, name, view, attr),
    }
}
