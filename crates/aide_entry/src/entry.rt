//! Finds and judges the fields of an entry line, under the columns.
ghost use Rattle.std.specs.Prelude.{true, None, Some, IfNone, IfSome, ℕ, ◌≡◌, ◌^◌, ◌<◌, ◌≤◌};
ghost use Rattle.std.specs.Prelude.{List, length, All};
ghost use Rattle.std.specs.List.{AllPairs, zip};
ghost use Rattle.std.specs.Option.{option_copied};
ghost use Rattle.percent_encoding.specs.Iter.{decoded_bytes};
ghost use Rattle.aide_entry.specs.Columns.{columns_in};
ghost use Rattle.aide_entry.specs.EntryLines.{IsEntryLine, IsBefore};
ghost use Rattle.aide_entry.specs.Entry.{name_of, path_of, is_path, has_entry, first_bad, follows};
ghost use Rattle.aide_entry.specs.Entry.{entry_fault};
ghost use Rattle.aide_entry.specs.code.FirstColumns.{bits_in, is_set};
ghost use Rattle.aide_entry.specs.Cause.{IsOfText};
ghost use Rattle.aide_entry.specs.Fields.{is_column, field_under};
ghost use Rattle.aide_entry.specs.code.Shapes.{IsShort, first_misshapen_from};
ghost use Rattle.aide_fields.specs.Spans.{AreSpans, fields_at};
ghost use Rattle.aide_fields.specs.Text.{fields, last_of};
ghost use Rattle.aide_fields.specs.Values.{IsTimeOrNothing};
ghost use Rattle.aide_entry.specs.declared.fault_kind.DbFaultKind.TheVariants.{FieldCount};

use crate::column::Column;
use crate::columns::Columns;
use crate::fault_kind::DbFaultKind;
use crate::held_entry::HeldEntry;
use crate::shape::{Shape, fault_of_shape, last_time};
use aide_fields::{
    Base64Tables, Decoded, Span, SpannedLine, Spans, cmp_paths, is_nought, read_bits,
};
use percent_encoding::percent_decode;
use std::cmp::Ordering;

/// Returns the field under the first column of this kind.
pub fn field_under<'a>(
    columns: &Columns,
    wanted: Column,
    line: &'a [u8],
    spans: &Spans,
) -> Option<&'a [u8]>
    requires { AreSpans line.now spans.now }
    ensures { option_copied result
        ≡ field_under (is_column wanted) (columns_in columns.now) (fields line.now) }
{
    let index = columns.index_of(wanted)?;
    spans.field(line, index)
}

/// Returns the field with the path of a line's entry, as it is written.
pub fn name_of<'a>(columns: &Columns, line: &'a [u8], spans: &Spans) -> &'a [u8]
    requires { AreSpans line.now spans.now }
    ensures { result.now ≡ name_of (columns_in columns.now) line.now }
{
    match field_under(columns, Column::Name, line, spans) {
        Some(name) => name,
        None => &[],
    }
}

/// Returns the number in the field of bits, if there is such a field. The result is 0 if the field is not a number.
pub fn bits_of(columns: &Columns, line: &[u8], spans: &Spans) -> Option<u64>
    requires { AreSpans line.now spans.now }
    ensures { result ≡ bits_in (columns_in columns.now) line.now }
{
    match field_under(columns, Column::Bits, line, spans) {
        None => None,
        Some(field) => match read_bits(field) {
            None => Some(0),
            Some(bits) => Some(bits),
        },
    }
}

/// Returns whether an attribute with this bit counts, given the number in the field of bits.
pub fn is_on(bit: Option<u32>, bits: Option<u64>) -> bool
    requires { IfSome bit (λ k. k < 64) }
    ensures { result ≡ is_set bit bits }
{
    match (bit, bits) {
        (Some(bit), Some(bits)) => (bits >> bit) % 2 == 1,
        _ => true,
    }
}

/// Returns the path of a line's entry.
pub fn path_of<'a>(columns: &Columns, line: &'a [u8], spans: &Spans) -> Decoded<'a>
    requires { AreSpans line.now spans.now }
    ensures { decoded_bytes result ≡ path_of (columns_in columns.now) line.now }
{
    percent_decode(name_of(columns, line, spans))
}

#[tactic(auto, unfolding(crate::specs::Entry::is_path))]
fn is_path(path: Decoded<'_>) -> bool
    ensures { result ≡ is_path (decoded_bytes path.entry) }
{
    let mut bytes = path;
    match bytes.next() {
        None => false,
        Some(first) => first == b'/',
    }
}

/// Returns a time of the entry as it is written, or an empty text.
fn time_in<'a>(entry: &HeldEntry<'a>) -> &'a [u8]
    ensures { IsTimeOrNothing result.now }
{
    match entry.view() {
        None => &[],
        Some(view) => view.time(),
    }
}

/// Returns the fault of the first field that does not have its column's shape. The field `0` has every shape. A time
/// that is known to be one need not be decoded again: that of the entry before is often the time of the next one too.
// It is not inlined, so that its loop has the registers for itself.
#[inline(never)]
fn first_misshapen(
    tables: &Base64Tables,
    shapes: &[Shape],
    line: &[u8],
    spans: &[Span],
    known: &[u8],
) -> Option<DbFaultKind>
    requires few { length shapes.now ≤ 64 }
    requires short { All IsShort shapes.now }
    requires time { IsTimeOrNothing known.now }
    ensures same { result ≡ first_misshapen_from 1 (zip shapes.now (fields_at line.now spans.now)) }
    ensures of_text { IfSome result IsOfText }
{
    let count = shapes.len().min(spans.len());
    let mut time = known;
    let mut index: usize = 0;
    'columns: while index < count {
        let field = spans[index].of(line);
        if !is_nought(field) {
            let Some(last) = last_time(tables, shapes[index], field, time) else {
                return Some(fault_of_shape(shapes[index], index as u32 + 1));
            };
            time = last;
        }
        index += 1;
    }
    None
}

/// Returns the fault of the first column whose field does not have the column's form.
fn first_bad(
    tables: &Base64Tables,
    columns: &Columns,
    line: &[u8],
    spans: &Spans,
    known: &[u8],
) -> Option<DbFaultKind>
    requires spanned { AreSpans line.now spans.now }
    requires time { IsTimeOrNothing known.now }
    ensures same { result ≡ first_bad (columns_in columns.now) (fields line.now) }
    ensures of_text { IfSome result IsOfText }
{
    first_misshapen(tables, columns.shapes(), line, spans.as_slice(), known)
}

/// Returns whether there is no last entry, or its path comes before the path of the line's entry in path order.
pub fn follows(columns: &Columns, last: &HeldEntry<'_>, next: &SpannedLine<'_>) -> bool
    ensures { result ≡ follows (columns_in columns.now) last.now.line.now next.now.line.now }
{
    let is_first = last.line.is_empty();
    if is_first {
        return true;
    }
    match cmp_paths(
        name_of(columns, last.line, last.spans),
        name_of(columns, next.line, next.spans),
    ) {
        Ordering::Less => true,
        Ordering::Equal => false,
        Ordering::Greater => false,
    }
}

/// Returns the fault of a line as the entry after the last one, if it has one. If it has none, the spans are those of
/// its fields. The fault is the first of these that the line has: the wrong number of fields (also of any line of 2^32
/// bytes or more), a bad name, the wrong order, a field that is not one of its column.
pub fn entry_fault(
    tables: &Base64Tables,
    columns: &Columns,
    last: &HeldEntry<'_>,
    line: &[u8],
    spans: &mut Spans,
) -> Option<DbFaultKind>
    ensures spanned { IfNone result (AreSpans line.now spans.new) }
    ensures sound { IfNone result (has_entry (columns_in columns.now) line.now ≡ true) }
    ensures of_line { IfSome result IsOfText }
    ensures found { length line.now < 2 ^ 32 → (entries : List (List ℕ))
        → All (IsEntryLine (columns_in columns.now)) entries
        → AllPairs (IsBefore (columns_in columns.now)) entries
        → last.now.line.now ≡ last_of entries
        → result ≡ entry_fault (columns_in columns.now) entries line.now }
    ensures long { 2 ^ 32 ≤ length line.now → result ≡ Some FieldCount }
{
    if line.len() > u32::MAX as usize {
        return Some(DbFaultKind::FieldCount);
    }
    if !spans.find(line) {
        return Some(DbFaultKind::FieldCount);
    }
    if spans.count() != columns.as_slice().len() {
        return Some(DbFaultKind::FieldCount);
    }
    let path = path_of(columns, line, spans);
    if !is_path(path) {
        return Some(DbFaultKind::BadName);
    }
    if !follows(columns, last, &SpannedLine { line, spans }) {
        return Some(DbFaultKind::OutOfOrder);
    }
    first_bad(tables, columns, line, spans, time_in(last))
}
