//! Reads the columns that a spec line names.
ghost use Rattle.std.specs.Prelude.{◌≡◌, false, true, IfSome, IfNone};
ghost use Rattle.std.specs.List.{list_any};
ghost use Rattle.aide_entry.specs.Columns.{columns_in};
ghost use Rattle.aide_entry.specs.Fields.{column_named, columns_of, is_column, are_distinct};
ghost use Rattle.aide_entry.specs.Fields.{are_columns};

use crate::column::{Column, is_column};
use crate::columns::Columns;
use aide_attr::Attr;
use aide_fields::next_field;

#[tactic(auto, unfolding(crate::specs::Fields::column_named))]
fn column_named(name: &[u8]) -> Column
    ensures { result ≡ column_named name.now }
{
    if name == b"name".as_slice() {
        Column::Name
    } else if name == b"attr".as_slice() {
        Column::Bits
    } else {
        match Attr::of_column(name) {
            Some(attr) => Column::Of(attr),
            None => Column::Skipped,
        }
    }
}

/// Returns whether a column is among others.
fn stands_in(column: Column, others: &[Column]) -> bool
    ensures { result ≡ list_any (is_column column) others.now }
{
    let mut rest = others;
    'others: while let Some((other, more)) = rest.split_first() {
        if is_column(column, *other) {
            return true;
        }
        rest = more;
    }
    false
}

/// Returns whether no known column is there twice.
fn are_distinct(columns: &[Column]) -> bool
    ensures { result ≡ are_distinct columns.now }
{
    let mut rest = columns;
    'columns: while let Some((column, more)) = rest.split_first() {
        if !is_column(Column::Skipped, *column) && stands_in(*column, more) {
            return false;
        }
        rest = more;
    }
    true
}

/// Returns whether a database may have these columns.
fn are_columns(columns: &[Column]) -> bool
    ensures { result ≡ are_columns columns.now }
{
    columns.len() <= 64 && stands_in(Column::Name, columns) && are_distinct(columns)
}

/// Returns the columns of a spec line, if a database may have them: at most 64, with `name` among them, and no known
/// column twice.
pub fn read_columns(line: &[u8]) -> Option<Columns>
    ensures none { IfNone result (are_columns (columns_of line.now) ≡ false) }
    ensures some { IfSome result (λ c. (columns_in c ≡ columns_of line.now)
        × (are_columns (columns_of line.now) ≡ true)) }
{
    let Some((_, fields)) = next_field(line) else {
        return None;
    };
    let mut columns = Columns::none();
    let mut rest = fields;
    'fields: while let Some((field, more)) = next_field(rest) {
        if !columns.push(column_named(field)) {
            return None;
        }
        rest = more;
    }
    if are_columns(columns.as_slice()) {
        Some(columns)
    } else {
        None
    }
}
