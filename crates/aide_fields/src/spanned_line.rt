//! A line whose fields have been found.
ghost use Rattle.aide_fields.specs.Spans.{AreSpans};

use crate::spans::Spans;

/// A line, and the spans of its fields.
#[derive(Clone, Copy)]
pub struct SpannedLine<'a> {
    pub line: &'a [u8],
    pub spans: &'a Spans,
    ghost spanned: { AreSpans line.now spans.now },
}
