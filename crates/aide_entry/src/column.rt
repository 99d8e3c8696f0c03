//! What the fields of a column mean.
ghost use Rattle.std.specs.Prelude.{◌≡◌, ◌<◌};
ghost use Rattle.aide_entry.specs.Fields.{is_column};
ghost use Rattle.aide_entry.specs.code.Codes.{code_of};

use aide_attr::Attr;

/// What the fields of a column mean.
#[derive(Clone, Copy)]
pub enum Column {
    /// `name`, the path.
    Name,
    /// `attr`, the bits that say which attributes an entry has.
    Bits,
    /// The column of an attribute, or of the first one if the column has two.
    Of(Attr),
    /// An unknown column.
    Skipped,
}

/// Returns whether a column is the wanted one.
pub fn is_column(wanted: Column, column: Column) -> bool
    ensures { result ≡ is_column wanted column }
{
    match wanted {
        Column::Name => matches!(column, Column::Name),
        Column::Bits => matches!(column, Column::Bits),
        Column::Of(attr) => match column {
            Column::Of(other) => attr.index() == other.index(),
            _ => false,
        },
        Column::Skipped => matches!(column, Column::Skipped),
    }
}

/// Returns the number of a column. Each column has a number of its own.
#[tactic(auto, using(crate::proofs::ColumnLemmas::code_fits))]
pub fn code_of(column: Column) -> u8
    ensures same { result ≡ code_of column }
    ensures small { result < 64 }
{
    match column {
        Column::Name => 0,
        Column::Bits => 1,
        Column::Skipped => 2,
        Column::Of(attr) => 3 + attr.index() as u8,
    }
}
