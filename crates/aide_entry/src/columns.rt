//! The columns of a database.
ghost use Rattle.std.specs.Prelude.{◌≡◌, ◌+◌, ◌*◌, ◌<◌, ◌≤◌, [], ◌∷◌, ◌++◌, length, true, false};
ghost use Rattle.std.specs.Prelude.{take, map, All, ℕ, List, None, IfNone, IfSome, drop};
ghost use Rattle.std.specs.List.{list_any};
ghost use Rattle.aide_entry.specs.Fields.{is_column, field_under};
ghost use Rattle.aide_entry.specs.code.FirstColumns.{AreFirstColumns};
ghost use Rattle.aide_fields.specs.Spans.{first_in};
ghost use Rattle.aide_entry.specs.declared.column.Column.{Column};
ghost use Rattle.aide_entry.specs.Skipped.{skipped_in};
ghost use Rattle.aide_entry.specs.code.Codes.{code_of};
ghost use Rattle.aide_entry.specs.code.ColumnAttrs.{AreListed};
ghost use Rattle.aide_entry.specs.code.Shapes.{shape_of, IsShort};

use crate::column::{Column, code_of, is_column};
use crate::shape::{Shape, shape_of};
use aide_attr::Attr;

/// Notes the index of an added column, plus 1, if it is the first one of its kind.
fn note_first(firsts: &mut [u8; 64], column: Column, first: u8)
    ensures { (columns : List Column) → first ≡ length columns + 1
        → AreFirstColumns firsts.old columns
        → AreFirstColumns firsts.new (columns ++ column ∷ []) }
{
    let code = code_of(column) as usize;
    if firsts[code] == 0 {
        firsts[code] = first;
    }
}

/// Appends an attribute to the first `count`. Returns the new number of attributes.
fn add_attr(attrs: &mut [Attr; 128], count: usize, attr: Attr) -> usize
    requires { count < 128 }
    ensures count { result ≡ count + 1 }
    ensures added { take result attrs.new ≡ take count attrs.old ++ attr ∷ [] }
{
    attrs[count] = attr;
    count + 1
}

/// Appends the attributes of an added column to the first `count`. The column of the type has the permissions too.
/// Returns the new number of attributes.
fn note_attrs(attrs: &mut [Attr; 128], count: usize, column: Column) -> usize
    requires { count + 2 ≤ 128 }
    ensures few { result ≤ count + 2 }
    ensures listed { (columns : List Column) → AreListed (take count attrs.old) columns
        → AreListed (take result attrs.new) (columns ++ column ∷ []) }
{
    match column {
        Column::Of(attr) => {
            let more = add_attr(attrs, count, attr);
            if attr.index() == Attr::Ftype.index() {
                add_attr(attrs, more, Attr::Perm)
            } else {
                more
            }
        }
        _ => count,
    }
}

/// The columns that a spec line names, at most 64.
#[derive(Clone, Copy)]
pub struct Columns {
    kinds: [Column; 64],
    // the numbers of the columns, since bytes are fast to compare
    codes: [u8; 64],
    // what the fields of each column have to be, since each line asks for it
    shapes: [Shape; 64],
    // for the number of each column, the index of the first column of this kind, plus 1, or 0 if there is none, since
    // each entry looks up fields
    firsts: [u8; 64],
    // the attributes that have a column, since each pair of entries that differ is compared at these
    attrs: [Attr; 128],
    attr_count: u8,
    count: u8,
    ghost few: { count ≤ 64 },
    ghost numbers: { take count codes ≡ map code_of (take count kinds) },
    ghost shaped: { take count shapes ≡ map shape_of (take count kinds) },
    ghost short: { All IsShort (take count shapes) },
    ghost placed: { AreFirstColumns firsts (take count kinds) },
    ghost two_each: { attr_count ≤ 2 * count },
    ghost listed: { AreListed (take attr_count attrs) (take count kinds) },
}

impl Columns {
    ghost use Rattle.aide_entry.specs.Columns.{columns_in, has_column};

    /// Returns a list without columns.
    pub fn none() -> Columns
        ensures { columns_in result ≡ [] }
    {
        Columns {
            kinds: [Column::Skipped; 64],
            codes: [0; 64],
            shapes: [Shape::Free; 64],
            firsts: [0; 64],
            attrs: [Attr::Ftype; 128],
            attr_count: 0,
            count: 0,
        }
    }

    /// Returns the columns, in their order.
    pub(crate) fn as_slice(&self) -> &[Column]
        ensures same { result.now ≡ columns_in self.now }
        ensures few { length result.now ≤ 64 }
    {
        let (front, _) = self.kinds.split_at(self.count as usize);
        front
    }

    /// Returns what the fields of each column have to be, in the order of the columns.
    pub(crate) fn shapes(&self) -> &[Shape]
        ensures same { result.now ≡ map shape_of (columns_in self.now) }
        ensures few { length result.now ≤ 64 }
        ensures short { All IsShort result.now }
    {
        let (front, _) = self.shapes.split_at(self.count as usize);
        front
    }

    /// Returns every attribute that has a column. Some may be there twice.
    pub(crate) fn attrs(&self) -> &[Attr]
        ensures { AreListed result.now (columns_in self.now) }
    {
        let (front, _) = self.attrs.split_at(self.attr_count as usize);
        front
    }

    /// Returns the index of the first column of this kind.
    pub(crate) fn index_of(&self, wanted: Column) -> Option<usize>
        ensures none { IfNone result ((fields : List (List ℕ))
            → field_under (is_column wanted) (columns_in self.now) fields ≡ None) }
        ensures some { IfSome result (λ index. (fields : List (List ℕ))
            → field_under (is_column wanted) (columns_in self.now) fields
            ≡ first_in (drop index fields)) }
    {
        let first = self.firsts[code_of(wanted) as usize];
        if first == 0 {
            None
        } else {
            Some(first as usize - 1)
        }
    }

    /// Returns whether these are the same columns.
    pub fn same(&self, other: &Columns) -> bool
        ensures only { result ≡ true → columns_in self.now ≡ columns_in other.now }
        ensures alike { columns_in self.now ≡ columns_in other.now → result ≡ true }
    {
        // the usual case, which needs no loop
        if self.count == other.count && self.codes == other.codes {
            return true;
        }
        let (codes, _) = self.codes.split_at(self.count as usize);
        let (other_codes, _) = other.codes.split_at(other.count as usize);
        codes == other_codes
    }

    /// Returns whether an attribute has a column of its own.
    pub fn has(&self, attr: Attr) -> bool
        ensures { result ≡ has_column attr (columns_in self.now) }
    {
        is_among(Column::Of(attr), self.as_slice())
    }

    /// Returns the unknown columns as bits. The lowest bit belongs to the first column.
    pub fn skipped(&self) -> u64
        ensures { result ≡ skipped_in (columns_in self.now) }
    {
        skipped_bits(self.as_slice())
    }

    /// Copies the columns of another list, if they are not the same already.
    pub fn copy(&mut self, other: &Columns)
        ensures { columns_in self.new ≡ columns_in other.now }
    {
        if !self.same(other) {
            *self = *other;
        }
    }

    /// Appends a column if there are fewer than 64. Returns whether it did.
    pub(crate) fn push(&mut self, column: Column) -> bool
        ensures pushed { result ≡ true → columns_in self.new ≡ columns_in self.old ++ column ∷ [] }
        ensures full { result ≡ false → length (columns_in self.old) ≡ 64 }
        ensures kept { result ≡ false → columns_in self.new ≡ columns_in self.old }
    {
        if self.count == 64 {
            return false;
        }
        self.kinds[self.count as usize] = column;
        self.codes[self.count as usize] = code_of(column);
        self.shapes[self.count as usize] = shape_of(column);
        self.attr_count = note_attrs(&mut self.attrs, self.attr_count as usize, column) as u8;
        self.count += 1;
        note_first(&mut self.firsts, column, self.count);
        true
    }
}

/// Returns whether the wanted column is one of these.
fn is_among(wanted: Column, columns: &[Column]) -> bool
    ensures { result ≡ list_any (is_column wanted) columns.now }
{
    match columns.split_first() {
        None => false,
        Some((first, more)) => is_column(wanted, *first) || is_among(wanted, more),
    }
}

/// Returns the unknown columns as bits. The lowest bit belongs to the first column.
fn skipped_bits(columns: &[Column]) -> u64
    requires few { length columns.now ≤ 64 }
    ensures { result ≡ skipped_in columns.now }
{
    let mut bits: u64 = 0;
    let mut rest = columns;
    'columns: while let Some((column, before)) = rest.split_last() {
        bits *= 2;
        if is_column(Column::Skipped, *column) {
            bits += 1;
        }
        rest = before;
    }
    bits
}
