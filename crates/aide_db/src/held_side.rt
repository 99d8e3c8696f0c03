//! What the desk holds of one side.
ghost use Rattle.std.specs.Prelude.{◌≡◌, [], vec_capacity};
ghost use Rattle.aide_entry.specs.Columns.{columns_in};
ghost use Rattle.aide_entry.specs.EntryLines.{IsHeld};
ghost use Rattle.aide_fields.specs.Spans.{AreHeldSpans, spans_in};

use aide_entry::{Columns, HeldEntry};
use aide_fields::Spans;
use std::alloc::Allocator;
use std::mem;

/// The entry of a side: its line, its columns and the spans of its fields. The line is empty if there is no entry.
#[derive(Drop)]
pub struct HeldSide<A: Allocator + Copy> {
    pub line: Vec<u8, A>,
    pub columns: Columns,
    pub spans: Spans,
}

impl<A: Allocator + Copy> HeldSide<A> {
    /// Returns a side without an entry. It allocates no memory.
    pub fn none(alloc: A) -> HeldSide<A>
        ensures line { result.line.items ≡ [] }
    {
        HeldSide {
            line: Vec::new(alloc),
            columns: Columns::none(),
            spans: Spans::none(),
        }
    }

    /// Lends the entry.
    pub fn entry(&self) -> HeldEntry<'_>
        requires entry { IsHeld (columns_in self.now.columns) self.now.line.items }
        requires spanned { AreHeldSpans self.now.line.items self.now.spans }
        ensures line { result.line.now ≡ self.now.line.items }
        ensures columns { columns_in result.columns.now ≡ columns_in self.now.columns }
    {
        HeldEntry {
            line: self.line.as_slice(),
            columns: &self.columns,
            spans: &self.spans,
        }
    }

    /// Makes a line the entry. The list of the entry before takes the place of the line, and is emptied.
    pub fn accept(&mut self, line: &mut Vec<u8, A>, columns: &Columns, spans: &Spans)
        ensures list { self.new.line ≡ line.old }
        ensures columns { columns_in self.new.columns ≡ columns_in columns.now }
        ensures spans { spans_in self.new.spans ≡ spans_in spans.now }
        ensures emptied { line.new.items ≡ [] }
        ensures room { vec_capacity line.new ≡ vec_capacity self.old.line }
    {
        mem::swap(&mut self.line, line);
        line.clear();
        self.columns.copy(columns);
        self.spans.copy(spans);
    }
}
