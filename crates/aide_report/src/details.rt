//! The details of an entry.
ghost use Rattle.std.specs.Prelude.{◌≡◌, true, IfSome, Option, None, Some};
ghost use Rattle.aide_attr.specs.Set.{has};
ghost use Rattle.aide_attr.specs.declared.attr.Attr.{Attr as AnyAttr};
ghost use Rattle.aide_fields.specs.Attributes.{link_in, digest_in, opaque_in};
ghost use Rattle.aide_entry.specs.View.{entry_in};
ghost use Rattle.aide_merge.specs.code.ChangeView.{change_of};
ghost use Rattle.aide_report_specs.specs.Entries.{attribute_text, attributes_text, shown_text};
ghost use Rattle.aide_report_specs.specs.Entries.{title_of};
ghost use Rattle.aide_report_specs.specs.Entries.{title_word};
ghost use Rattle.aide_report_specs.specs.Sections.{one_text};
ghost use Rattle.aide_text.specs.DecodedRest.{decoded_rest};
ghost use Rattle.aide_text.specs.PenSheet.{on_sheet};
ghost use Rattle.aide_text.specs.Printed.{printed};
ghost use Rattle.aide_text.specs.ReadyRest.{ready_rest};
ghost use Rattle.aide_text.specs.Sheet.{Wrote};
ghost use Rattle.aide_text.specs.SliceRest.{slice_rest};
ghost use Rattle.aide_text.specs.TextRest.{text_rest};
ghost use Rattle.aide_text.specs.ValueText.{text_at, side_text, option_text, printed_link};
ghost use Rattle.aide_text.specs.ValueText.{digest_text};

use aide_agreement::{Change, type_at};
use aide_attr::{Attr, AttrSet, FileType, Form};
use aide_conf::Options;
use aide_db::View;
use aide_merge::{name_of, said_of};
use aide_text::{
    Contents, DecodedFeed, Pen, Printed, Ready, Sink, SliceFeed, ValueText, digest_text, kind_text,
    mode_text, number_text, put_encoded_path_line, put_newline, put_side_by_side,
    put_texts_side_by_side,
};

/// The text of a value.
type Text<'a> = ValueText<Ready, DecodedFeed<'a>, SliceFeed<'a>>;

fn link_value<'a>(view: &View<'a>) -> Text<'a>
    ensures { text_rest ready_rest decoded_rest slice_rest result
        ≡ option_text printed_link (link_in ((entry_in view.now).1 AnyAttr.Lname)) }
{
    match view.link() {
        None => ValueText::Short(Ready::of(b"")),
        Some(None) => ValueText::Short(Ready::of(b"")),
        Some(Some(name)) => ValueText::Link(Printed::of(DecodedFeed::of(name))),
    }
}

fn field_value<'a>(view: &View<'a>, attr: Attr) -> Text<'a>
    ensures { text_rest ready_rest decoded_rest slice_rest result
        ≡ option_text printed (opaque_in ((entry_in view.now).1 attr)) }
{
    match view.field(attr) {
        None => ValueText::Short(Ready::of(b"")),
        Some(bytes) => ValueText::Field(Printed::of(SliceFeed::of(bytes))),
    }
}

fn digest_in_base16(view: &View<'_>, attr: Attr) -> Ready
    ensures { ready_rest result
        ≡ option_text (digest_text true) (digest_in ((entry_in view.now).1 attr)) }
{
    let mut buffer = [0; 64];
    match view.digest(attr, &mut buffer) {
        None => Ready::of(b""),
        Some(len) => digest_text(true, &buffer[..len]),
    }
}

/// The text of a digest. In base 64 it is the field as it is written.
fn digest_value<'a>(view: &View<'a>, attr: Attr, base16: bool) -> Text<'a>
    ensures { text_rest ready_rest decoded_rest slice_rest result
        ≡ option_text (digest_text base16) (digest_in ((entry_in view.now).1 attr)) }
{
    if base16 {
        return ValueText::Short(digest_in_base16(view, attr));
    }
    match view.digest_text(attr) {
        None => ValueText::Short(Ready::of(b"")),
        Some(text) => ValueText::Lent(SliceFeed::of(text)),
    }
}

/// The value of an attribute as a text.
fn value<'a>(view: &View<'a>, attr: Attr, base16: bool) -> Text<'a>
    ensures { text_rest ready_rest decoded_rest slice_rest result
        ≡ text_at base16 attr ((entry_in view.now).1 attr) }
{
    match attr.form() {
        Form::Kind => ValueText::Short(kind_text(view.kind())),
        Form::Mode => ValueText::Short(mode_text(view.number(attr))),
        Form::Number => ValueText::Short(number_text(view.number(attr))),
        Form::Time => ValueText::Short(number_text(view.number(attr))),
        Form::Link => link_value(view),
        Form::Digest(_, _) => digest_value(view, attr, base16),
        Form::Opaque => field_value(view, attr),
    }
}

/// The old side's value in a change, or the empty text if that side has no entry.
fn old_value<'a>(change: Change<'a>, attr: Attr, base16: bool) -> Text<'a>
    ensures { text_rest ready_rest decoded_rest slice_rest result
        ≡ side_text base16 attr (change_of change.entry).1.0 }
{
    match change {
        Change::Added(_) => ValueText::Short(Ready::of(b"")),
        Change::Removed(old) => value(&old, attr, base16),
        Change::Common(old, _) => value(&old, attr, base16),
    }
}

/// The new side's value.
fn new_value<'a>(change: Change<'a>, attr: Attr, base16: bool) -> Text<'a>
    ensures { text_rest ready_rest decoded_rest slice_rest result
        ≡ side_text base16 attr (change_of change.entry).1.1 }
{
    match change {
        Change::Added(new) => value(&new, attr, base16),
        Change::Removed(_) => ValueText::Short(Ready::of(b"")),
        Change::Common(_, new) => value(&new, attr, base16),
    }
}

/// The bytes of a text, if they are kept or lent as they are written.
fn bytes_of<'x>(text: &'x Text<'_>) -> Option<&'x [u8]>
    ensures { IfSome result (λ bytes.
        text_rest ready_rest decoded_rest slice_rest text.now ≡ bytes.now) }
{
    match text {
        ValueText::Short(ready) => Some(ready.bytes()),
        ValueText::Lent(field) => Some(field.bytes()),
        ValueText::Link(_) => None,
        ValueText::Field(_) => None,
    }
}

/// An attribute: the old value and the new one.
fn put_attribute<W: Sink>(out: &mut W, pen: &mut Pen, change: Change<'_>, attr: Attr, base16: bool)
    ensures { Wrote (attribute_text base16 (change_of change.entry).1 attr)
        (on_sheet W.Sink out.old pen.old) (on_sheet W.Sink out.new pen.new) }
{
    let name = attr.detail_name();
    let old = old_value(change, attr, base16);
    let new = new_value(change, attr, base16);
    if let Some(old_text) = bytes_of(&old) {
        if let Some(new_text) = bytes_of(&new) {
            put_texts_side_by_side(out, pen, name, old_text, new_text);
            return;
        }
    }
    put_side_by_side(out, pen, name, old, new);
}

#[tactic(auto, unfolding(aide_report_specs::specs::Entries::shown_text))]
fn put_if_shown<W: Sink>(
    out: &mut W,
    pen: &mut Pen,
    change: Change<'_>,
    attr: Attr,
    base16: bool,
    shown: AttrSet,
)
    ensures { Wrote (shown_text base16 (change_of change.entry).1 (has shown) attr)
        (on_sheet W.Sink out.old pen.old) (on_sheet W.Sink out.new pen.new) }
{
    if shown.has(attr) {
        put_attribute(out, pen, change, attr, base16);
    }
}

/// The attributes that are shown, in their order.
fn put_attributes<W: Sink>(
    out: &mut W,
    pen: &mut Pen,
    change: Change<'_>,
    base16: bool,
    shown: AttrSet,
    attrs: &[Attr],
)
    ensures { Wrote (attributes_text base16 (change_of change.entry).1 (has shown) attrs.now)
        (on_sheet W.Sink out.old pen.old) (on_sheet W.Sink out.new pen.new) }
{
    for attr in attrs {
        put_if_shown(out, pen, change, *attr, base16, shown);
    }
}

/// The word that a title has for a type.
fn title_word(kind: Option<FileType>) -> &'static [u8]
    ensures { result.now ≡ title_word kind }
{
    match kind {
        None => b"Entry",
        Some(FileType::File) => b"File",
        Some(FileType::Directory) => b"Directory",
        Some(FileType::Link) => b"Link",
        Some(FileType::Char) => b"Character device",
        Some(FileType::Block) => b"Block device",
        Some(FileType::Fifo) => b"FIFO",
        Some(FileType::Socket) => b"Socket",
        Some(FileType::Other(_)) => b"Entry",
    }
}

/// The title word: by the new entry's type if it has one, otherwise by the old entry's.
fn title(change: Change<'_>) -> &'static [u8]
    ensures { result.now ≡ title_of (change_of change.entry).1 }
{
    title_word(type_at(change))
}

/// Writes the details of a change, and nothing if no attribute is shown.
pub(crate) fn put_details<W: Sink>(
    out: &mut W,
    pen: &mut Pen,
    options: &Options,
    change: Change<'_>,
)
    ensures { Wrote (one_text options.now Contents.Detailed (change_of change.entry))
        (on_sheet W.Sink out.old pen.old) (on_sheet W.Sink out.new pen.new) }
{
    let (shown, _) = said_of(change, options);
    if !shown.is_empty() {
        put_newline(out, pen);
        put_encoded_path_line(out, pen, title(change), name_of(change));
        put_attributes(out, pen, change, options.base16, shown, &Attr::ALL);
    }
}
