//! What is kept of an entry while later lines are judged.
ghost use Rattle.aide_entry.specs.Columns.{columns_in};
ghost use Rattle.aide_entry.specs.EntryLines.{IsHeld};
ghost use Rattle.aide_fields.specs.Spans.{AreHeldSpans};

use crate::columns::Columns;
use aide_fields::Spans;

/// An entry that someone else holds: its line, its columns and the spans of its fields. The line is empty if there is
/// no entry.
#[derive(Clone, Copy)]
pub struct HeldEntry<'a> {
    pub line: &'a [u8],
    pub columns: &'a Columns,
    pub spans: &'a Spans,
    ghost entry: { IsHeld (columns_in columns.now) line.now },
    ghost spanned: { AreHeldSpans line.now spans.now },
}
