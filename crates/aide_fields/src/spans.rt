//! The spans of the fields of a line. They are found once.
ghost use Rattle.std.specs.Prelude.{true, false, ◌≡◌, ◌+◌, ◌^◌, ◌<◌, ◌≤◌, [], ◌∷◌, ◌++◌, length};
ghost use Rattle.std.specs.Prelude.{take, drop, IfSome, IfNone};
ghost use Rattle.aide_fields.specs.Text.{fields};

use crate::fields::{field_len, run_of};
use crate::runs::{add_span, find_runs};
use crate::span::Span;

/// The spans of the fields of a line, at most 64.
#[derive(Clone, Copy)]
pub struct Spans {
    spans: [Span; 64],
    count: u8,
    ghost few: { count ≤ 64 },
}

/// Copies the first `count` spans.
fn copy_front(to: &mut [Span], from: &[Span], count: usize)
    requires to { count ≤ length to.old }
    requires from { count ≤ length from.now }
    ensures long { length to.new ≡ length to.old }
    ensures same { take count to.new ≡ take count from.now }
{
    to[..count].copy_from_slice(&from[..count]);
}

impl Spans {
    ghost use Rattle.aide_fields.specs.Spans.{spans_in, fields_at, AreSpans};

    /// Returns a list without spans.
    pub fn none() -> Spans
        ensures { spans_in result ≡ [] }
    {
        Spans {
            spans: [Span { start: 0, len: 0 }; 64],
            count: 0,
        }
    }

    /// Copies the spans of another list.
    pub fn copy(&mut self, other: &Spans)
        ensures { spans_in self.new ≡ spans_in other.now }
    {
        copy_front(&mut self.spans, &other.spans, other.count as usize);
        self.count = other.count;
    }

    /// Returns how many spans there are.
    pub fn count(&self) -> usize
        ensures same { result ≡ length (spans_in self.now) }
        ensures few { result ≤ 64 }
    {
        self.count as usize
    }

    /// Returns the spans, in their order.
    pub fn as_slice(&self) -> &[Span]
        ensures { result.now ≡ spans_in self.now }
    {
        let (front, _) = self.spans.split_at(self.count as usize);
        front
    }

    /// Appends a span if there are fewer than 64. Returns whether it did.
    fn push(&mut self, span: Span) -> bool
        ensures pushed { result ≡ true → spans_in self.new ≡ spans_in self.old ++ span ∷ [] }
        ensures full { result ≡ false → length (spans_in self.old) ≡ 64 }
    {
        match add_span(&mut self.spans, self.count as usize, span) {
            None => false,
            Some(count) => {
                self.count = count as u8;
                true
            }
        }
    }

    /// Returns the field of a line at the span of this index, counted from 0.
    pub fn field<'a>(&self, line: &'a [u8], index: usize) -> Option<&'a [u8]>
        ensures none { AreSpans line.now self.now → IfNone result
            (drop index (fields line.now) ≡ []) }
        ensures some { AreSpans line.now self.now
            → IfSome result (λ field. drop index (fields line.now) ≡ field.now
            ∷ drop (index + 1) (fields line.now)) }
    {
        if index >= self.count as usize {
            return None;
        }
        Some(self.spans[index].of(line))
    }

    /// Finds the fields after those that were found. Returns whether there are at most 64 in all.
    fn find_behind(&mut self, line: &[u8], from: usize) -> bool
        requires small { length line.now < 2 ^ 32 }
        requires within { from ≤ length line.now }
        requires found { fields_at line.now (spans_in self.old) ++ fields (drop from line.now)
            ≡ fields line.now }
        ensures all { result ≡ true → AreSpans line.now self.new }
        ensures many { result ≡ false → 64 < length (fields line.now) }
    {
        let (_, behind_from) = line.split_at(from);
        let mut rest = behind_from;
        let mut at = from as u32;
        'fields: loop {
            let skip = run_of(rest, true);
            let (_, behind) = rest.split_at(skip);
            let len = field_len(behind);
            if len == 0 {
                return true;
            }
            let start = at + skip as u32;
            if !self.push(Span {
                start,
                len: len as u32,
            }) {
                return false;
            }
            at = start + len as u32;
            let (_, more) = behind.split_at(len);
            rest = more;
        }
    }

    /// Finds the fields of a line. Returns whether there are at most 64.
    pub fn find(&mut self, line: &[u8]) -> bool
        requires { length line.now < 2 ^ 32 }
        ensures all { result ≡ true → AreSpans line.now self.new }
        ensures many { result ≡ false → 64 < length (fields line.now) }
    {
        self.count = 0;
        if line.len() < 32 {
            return self.find_behind(line, 0);
        }
        match find_runs(&mut self.spans, line) {
            None => false,
            Some(count) => {
                self.count = count as u8;
                true
            }
        }
    }
}
