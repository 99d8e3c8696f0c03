//! Where a field is in its line.
ghost use Rattle.std.specs.Prelude.{◌≡◌, ◌+◌, ◌<◌, length};

/// Where a field begins in its line, and how long it is.
#[derive(Clone, Copy)]
pub struct Span {
    pub start: u32,
    pub len: u32,
}

impl Span {
    ghost use Rattle.aide_fields.specs.Spans.{field_at};

    /// Returns the bytes of this span.
    pub fn of<'a>(self, line: &'a [u8]) -> &'a [u8]
        ensures { result.now ≡ field_at line.now self }
    {
        let start = self.start as usize;
        let end = start + self.len as usize;
        if end <= line.len() {
            &line[start..end]
        } else {
            self.cut(line)
        }
    }

    /// Returns the bytes of a span that reaches over the line's end. No span of the line's own fields does that.
    #[cold]
    #[inline(never)]
    fn cut<'a>(self, line: &'a [u8]) -> &'a [u8]
        requires { length line.now < self.start + self.len }
        ensures { result.now ≡ field_at line.now self }
    {
        let start = self.start as usize;
        if start < line.len() {
            &line[start..]
        } else {
            &[]
        }
    }
}
