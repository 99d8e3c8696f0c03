//! Finds the runs of bytes between blanks, which are the fields of a line.
ghost use Rattle.std.specs.Prelude.{slice_index, true, ◌≡◌, ◌+◌, ◌^◌, ◌<◌, ◌≤◌, [], ◌∷◌, ◌++◌};
ghost use Rattle.std.specs.Prelude.{length, take, IfSome, IfNone};
ghost use Rattle.aide_fields.specs.Text.{is_blank, fields};
ghost use Rattle.aide_fields.specs.Spans.{fields_at};
ghost use Rattle.aide_fields.specs.code.Runs.{AreFound, AreMarked};

use crate::blanks::{bits_from, blanks_of_both, lowest_bit, without_lowest};
use crate::span::Span;

/// Appends a span to the first `count` spans, if these are fewer than 64. Returns the new number of spans.
pub fn add_span(spanned: &mut [Span; 64], count: usize, span: Span) -> Option<usize>
    requires { count ≤ 64 }
    ensures added { IfSome result (λ more. (more ≤ 64)
        × (take more spanned.new ≡ take count spanned.old ++ span ∷ [])) }
    ensures full { IfNone result (length (take count spanned.old) ≡ 64) }
{
    if count >= 64 {
        return None;
    }
    spanned[count] = span;
    Some(count + 1)
}

/// How far the fields of a line have been found.
#[derive(Clone, Copy)]
pub struct Found {
    /// How many spans there are.
    pub count: usize,
    /// Where the next field begins, or the blanks before it.
    pub begin: usize,
}

/// Appends the span of the field that ends before the blank at `at`, if it is not empty. Returns how far the fields
/// have been found then.
fn run_ends(spanned: &mut [Span; 64], found: Found, line: &[u8], at: usize) -> Option<Found>
    requires found { AreFound line.now spanned.old found at at }
    requires short { at < length line.now }
    requires small { length line.now < 2 ^ 32 }
    requires blank { is_blank (slice_index line.now at) ≡ true }
    ensures found { IfSome result (λ more. AreFound line.now spanned.new more (at + 1) (at + 1)) }
    ensures begin { IfSome result (λ more. more.begin ≡ at + 1) }
    ensures many { IfNone result (64 < length (fields line.now)) }
{
    let _ = line;
    let begin = at + 1;
    if found.begin == at {
        return Some(Found {
            count: found.count,
            begin,
        });
    }
    let span = Span {
        start: found.begin as u32,
        len: (at - found.begin) as u32,
    };
    match add_span(spanned, found.count, span) {
        None => None,
        Some(count) => Some(Found { count, begin }),
    }
}

/// Appends the span of the field at the line's end, if it is not empty. Returns the new number of spans.
fn line_ends(spanned: &mut [Span; 64], found: Found, line: &[u8]) -> Option<usize>
    requires found { AreFound line.now spanned.old found (length line.now) (length line.now) }
    requires small { length line.now < 2 ^ 32 }
    ensures few { IfSome result (λ more. more ≤ 64) }
    ensures all { IfSome result (λ more. fields_at line.now (take more spanned.new)
        ≡ fields line.now) }
    ensures many { IfNone result (64 < length (fields line.now)) }
{
    if found.begin == line.len() {
        return Some(found.count);
    }
    let span = Span {
        start: found.begin as u32,
        len: (line.len() - found.begin) as u32,
    };
    match add_span(spanned, found.count, span) {
        None => None,
        Some(more) => Some(more),
    }
}

/// Appends the spans of the fields that end among at most 64 bytes. The blanks among these bytes are given as bits.
/// Returns how far the fields have been found then.
#[inline(always)]
fn runs_among(
    spanned: &mut [Span; 64],
    before: Found,
    line: &[u8],
    at: usize,
    end: usize,
    blanks: u64,
) -> Option<Found>
    requires found { AreFound line.now spanned.old before at end }
    requires within { end ≤ length line.now }
    requires near { end ≤ at + 64 }
    requires small { length line.now < 2 ^ 32 }
    requires blanks { AreMarked line.now before.begin at end blanks }
    ensures found { IfSome result (λ found. AreFound line.now spanned.new found end end) }
    ensures many { IfNone result (64 < length (fields line.now)) }
{
    let mut found = before;
    let mut bits = blanks;
    'bits: while bits != 0 {
        let Some(more) = run_ends(spanned, found, line, at + lowest_bit(bits)) else {
            return None;
        };
        found = more;
        bits = without_lowest(bits);
    }
    Some(found)
}

/// Returns where to look at 64 bytes that include the index `base`: where their first 32 bytes begin, and where their
/// last 32 begin. The last bytes of a line are looked at together with some of those before them. If the line is
/// shorter than 64 bytes, the two halves overlap.
fn window_of(len: usize, base: usize) -> (usize, usize)
    requires long { 32 ≤ len }
    requires within { base < len }
    ensures before { result.0 ≤ base }
    ensures behind { base < result.1 + 32 }
    ensures order { result.0 ≤ result.1 }
    ensures near { result.1 ≤ result.0 + 32 }
    ensures within { result.1 + 32 ≤ len }
{
    if len - base >= 64 {
        (base, base + 32)
    } else if len >= 64 {
        (len - 64, len - 32)
    } else {
        (0, len - 32)
    }
}

/// Finds the fields of a line of 32 bytes or more. Returns how many there are, if there are at most 64.
// It is not inlined, so that its loops have the registers for themselves.
#[inline(never)]
pub fn find_runs(spanned: &mut [Span; 64], line: &[u8]) -> Option<usize>
    requires long { 32 ≤ length line.now }
    requires small { length line.now < 2 ^ 32 }
    ensures few { IfSome result (λ count. count ≤ 64) }
    ensures all { IfSome result (λ count. fields_at line.now (take count spanned.new)
        ≡ fields line.now) }
    ensures many { IfNone result (64 < length (fields line.now)) }
{
    let mut found = Found { count: 0, begin: 0 };
    let mut base: usize = 0;
    'windows: while base < line.len() {
        let (at, later) = window_of(line.len(), base);
        let bits = bits_from(blanks_of_both(line, at, later), base - at);
        let Some(more) = runs_among(spanned, found, line, at, later + 32, bits) else {
            return None;
        };
        found = more;
        base = later + 32;
    }
    line_ends(spanned, found, line)
}
