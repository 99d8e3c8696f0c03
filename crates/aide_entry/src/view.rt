//! Views: entries that are lent.
ghost use Rattle.std.specs.Prelude.{◌≡◌, ◌||◌, ◌&&◌, true};
ghost use Rattle.aide_attr.specs.Set.{has, is_attr};
ghost use Rattle.aide_attr.specs.declared.attr.Attr.{Attr};
ghost use Rattle.aide_entry.specs.Columns.{columns_in};
ghost use Rattle.aide_entry.specs.code.FirstColumns.{bits_in};
ghost use Rattle.aide_entry.specs.Entry.{has_entry};
ghost use Rattle.aide_fields.specs.Spans.{AreSpans};

use crate::column::Column;
use crate::columns::Columns;
use crate::entry::{bits_of, field_under, is_on, name_of};
use crate::held_entry::HeldEntry;
use aide_attr::{Attr, AttrSet, FileType, Form};
use aide_fields::{
    Base64Tables, Decoded, Spans, has_value, is_nought, read_digest, read_link, read_mode,
    read_number, read_time, read_type, written_digest,
};
use percent_encoding::percent_decode;

/// Returns the set, with the attribute added if it belongs there.
pub(crate) fn with_if(set: AttrSet, attr: Attr, belongs: bool) -> AttrSet
    ensures { (a : Attr) → has result a ≡ (has set a || (belongs && is_attr a attr)) }
{
    if belongs {
        set.union(AttrSet::of(attr))
    } else {
        set
    }
}

/// An entry of a database, without a copy of its bytes.
#[derive(Clone, Copy)]
pub struct View<'a> {
    pub(crate) line: &'a [u8],
    pub(crate) columns: &'a Columns,
    pub(crate) spans: &'a Spans,
    ghost spanned: { AreSpans line.now spans.now },
    ghost judged: { has_entry (columns_in columns.now) line.now ≡ true },
}

impl<'a> HeldEntry<'a> {
    ghost use Rattle.std.specs.Prelude.{IfSome};
    ghost use Rattle.aide_entry.specs.View.{Shows, entry_at, line_in, columns_under};

    /// Returns a view of the entry, if there is one.
    pub fn view(&self) -> Option<View<'a>>
        ensures shows { Shows result (entry_at (columns_in self.now.columns.now)
            self.now.line.now) }
        ensures lent { IfSome result (λ view. line_in view ≡ self.now.line.now) }
        ensures under { IfSome result (λ view. columns_under view
            ≡ columns_in self.now.columns.now) }
    {
        if self.line.is_empty() {
            None
        } else {
            Some(View {
                line: self.line,
                columns: self.columns,
                spans: self.spans,
            })
        }
    }
}

impl<'a> View<'a> {
    ghost use Rattle.std.specs.Prelude.{is_some, option_map, None};
    ghost use Rattle.std.specs.Option.{option_copied};
    ghost use Rattle.base64.specs.Engines.{standard};
    ghost use Rattle.base64.specs.GeneralPurpose.{encode_of};
    ghost use Rattle.percent_encoding.specs.Iter.{decoded_bytes};
    ghost use Rattle.aide_entry.specs.View.{entry_in, name_in};
    ghost use Rattle.aide_fields.specs.Attributes.{type_in, number_in, link_in, digest_in};
    ghost use Rattle.aide_fields.specs.Attributes.{opaque_in};
    ghost use Rattle.aide_entry.specs.Entry.{field_of};
    ghost use Rattle.aide_fields.specs.Lent.{IsDigest, lent_link};
    ghost use Rattle.aide_fields.specs.Values.{IsTimeOrNothing};

    /// Returns the path of the entry twice: the field as it is written, and the decoded bytes.
    pub fn name(&self) -> (&'a [u8], Decoded<'a>)
        ensures field { result.0.now ≡ name_in self.now }
        ensures path { decoded_bytes result.1 ≡ (entry_in self.now).0 }
    {
        let name = name_of(self.columns, self.line, self.spans);
        (name, percent_decode(name))
    }

    /// Reads the number in the field of bits, if there is such a field, for many attributes.
    pub(crate) fn with_bits(&self) -> ViewWithBits<'_, 'a>
        ensures { result.view.now ≡ self.now }
    {
        ViewWithBits {
            view: self,
            bits: bits_of(self.columns, self.line, self.spans),
        }
    }

    /// Returns when the entry's inode last changed, as it is written, or an empty text. Whether the attribute counts
    /// does not matter.
    pub(crate) fn time(&self) -> &'a [u8]
        ensures { IsTimeOrNothing result.now }
    {
        match field_under(self.columns, Column::Of(Attr::Ctime), self.line, self.spans) {
            None => &[],
            Some(field) => field,
        }
    }

    /// Returns the field of an attribute's column, if it counts.
    fn field_of(&self, attr: Attr) -> Option<&'a [u8]>
        ensures { option_copied result ≡ field_of (columns_in self.now.columns.now)
            self.now.line.now attr }
    {
        match attr.bit() {
            None => field_under(
                self.columns,
                Column::Of(attr.holder()),
                self.line,
                self.spans,
            ),
            Some(_) => self.with_bits().field(attr),
        }
    }

    /// Returns the attributes that the entry has.
    pub fn attrs(&self) -> AttrSet
        ensures { (attr : Attr) → has result attr ≡ is_some ((entry_in self.now).1 attr) }
    {
        let read = self.with_bits();
        let mut set = AttrSet::empty();
        let mut rest = self.columns.attrs();
        'attrs: while let Some((attr, more)) = rest.split_first() {
            set = with_if(set, *attr, read.has(*attr));
            rest = more;
        }
        set
    }

    /// Returns the type of the file, if the entry has it.
    #[tactic(auto, unfolding(aide_attr::specs::Attr::row_of, aide_attr::specs::Attr::row))]
    pub fn kind(&self) -> Option<FileType>
        ensures { result ≡ type_in ((entry_in self.now).1 Attr.Ftype) }
    {
        match self.field_of(Attr::Ftype) {
            None => None,
            Some(field) => read_type(field),
        }
    }

    /// Returns the value of an attribute that is a number, if the entry has it: the number, the low twelve bits of a
    /// mode, or seconds since 1970-01-01 UTC.
    pub fn number(&self, attr: Attr) -> Option<i128>
        ensures { result ≡ number_in ((entry_in self.now).1 attr) }
    {
        let field = self.field_of(attr)?;
        match attr.form() {
            Form::Mode => {
                let mode = read_mode(field)?;
                Some(i128::from(mode % 4096))
            }
            Form::Number => read_number(field),
            Form::Time => read_time(field),
            _ => None,
        }
    }

    #[tactic(auto, unfolding(aide_attr::specs::Attr::row_of, aide_attr::specs::Attr::row))]
    /// Returns the path in a symbolic link, if the entry has the attribute: `Some(None)` if it says that there is none.
    pub fn link(&self) -> Option<Option<Decoded<'a>>>
        ensures { option_map lent_link result ≡ link_in ((entry_in self.now).1 Attr.Lname) }
    {
        match self.field_of(Attr::Lname) {
            None => None,
            Some(field) => Some(read_link(field)),
        }
    }

    /// Decodes a digest (base64, RFC 4648 section 4) into the first bytes of a buffer, if the entry has it. Returns how
    /// many bytes there are.
    pub fn digest(&self, attr: Attr, buffer: &mut [u8; 64]) -> Option<usize>
        ensures { IsDigest (digest_in ((entry_in self.now).1 attr)) result buffer.new }
    {
        let field = self.field_of(attr)?;
        match attr.form() {
            Form::Digest(least, most) => read_digest(
                &Base64Tables::new(),
                least,
                most,
                field,
                buffer,
            ),
            _ => None,
        }
    }

    /// Returns the text of a digest in base64 (RFC 4648 section 4), if the entry has it. It is the field as it is
    /// written, since a digest has no other text.
    pub fn digest_text(&self, attr: Attr) -> Option<&'a [u8]>
        ensures { option_copied result
            ≡ option_map (encode_of standard) (digest_in ((entry_in self.now).1 attr)) }
    {
        let field = self.field_of(attr)?;
        written_digest(attr.form(), field)
    }

    /// Returns the bytes of an attribute whose bytes have no other meaning here, such as `acl`, as they are written,
    /// if the entry has it.
    pub fn field(&self, attr: Attr) -> Option<&'a [u8]>
        ensures { option_copied result ≡ opaque_in ((entry_in self.now).1 attr) }
    {
        let field = self.field_of(attr)?;
        match attr.form() {
            Form::Opaque => { if is_nought(field) { None } else { Some(field) } }
            _ => None,
        }
    }
}

/// A view of an entry, with the number in its field of bits if there is such a field. The number is read once for many
/// attributes.
#[derive(Clone, Copy)]
pub(crate) struct ViewWithBits<'x, 'a> {
    pub(crate) view: &'x View<'a>,
    pub(crate) bits: Option<u64>,
    ghost read: { bits ≡ bits_in (columns_in view.now.columns.now) view.now.line.now },
}

impl<'x, 'a> ViewWithBits<'x, 'a> {
    ghost use Rattle.std.specs.Prelude.{is_some};
    ghost use Rattle.std.specs.Option.{option_copied};
    ghost use Rattle.aide_entry.specs.View.{entry_in};
    ghost use Rattle.aide_entry.specs.Entry.{field_of};

    /// Returns the field of an attribute's column, if it counts by the bits.
    // Two entries that differ ask for it at each attribute, and a call takes as long as the look-up.
    #[inline(always)]
    pub(crate) fn field(&self, attr: Attr) -> Option<&'a [u8]>
        ensures { option_copied result ≡ field_of (columns_in self.now.view.now.columns.now)
            self.now.view.now.line.now attr }
    {
        let view = self.view;
        match field_under(
            view.columns,
            Column::Of(attr.holder()),
            view.line,
            view.spans,
        ) {
            None => None,
            Some(field) => {
                if is_on(attr.bit(), self.bits) {
                    Some(field)
                } else {
                    None
                }
            }
        }
    }

    /// Returns whether the entry has an attribute.
    pub(crate) fn has(&self, attr: Attr) -> bool
        ensures { result ≡ is_some ((entry_in self.now.view.now).1 attr) }
    {
        match self.field(attr) {
            None => false,
            Some(field) => has_value(attr.form(), field),
        }
    }
}
