//! The fields of a line.
ghost use Rattle.std.specs.Prelude.{ℕ, not, slice_index, true, false, ◌≡◌, ◌<◌, ◌≤◌, [], ◌∷◌};
ghost use Rattle.std.specs.Prelude.{length, IfSome, IfNone};
ghost use Rattle.aide_fields.specs.Text.{is_blank, fields};

use memchr::memchr2;

/// Returns whether a byte is a space or a tab.
fn is_blank(byte: u8) -> bool
    ensures { result ≡ is_blank byte }
{
    byte == b' ' || byte == b'\t'
}

/// Returns how many of the first bytes are blank, if `blank` is set, or how many are not.
pub fn run_of(line: &[u8], blank: bool) -> usize
    ensures bound { result ≤ length line.now }
    ensures same { (k : ℕ) → k < result → is_blank (slice_index line.now k) ≡ blank }
    ensures other { result < length line.now → is_blank (slice_index line.now result) ≡ not blank }
{
    for (i, byte) in line.iter().enumerate() {
        if is_blank(*byte) != blank {
            return i;
        }
    }
    line.len()
}

/// Returns how many of the first bytes are not blank.
pub fn field_len(rest: &[u8]) -> usize
    ensures bound { result ≤ length rest.now }
    ensures same { (k : ℕ) → k < result → is_blank (slice_index rest.now k) ≡ false }
    ensures other { result < length rest.now → is_blank (slice_index rest.now result) ≡ true }
{
    match memchr2(b' ', b'\t', rest) {
        Some(len) => len,
        None => rest.len(),
    }
}

/// Returns the first field of a line, and the rest of the line after it.
#[tactic(auto, using(crate::proofs::FieldLemmas::first_fields))]
pub fn next_field(line: &[u8]) -> Option<(&[u8], &[u8])>
    ensures none { IfNone result (fields line.now ≡ []) }
    ensures some { IfSome result (λ parts. fields line.now ≡ parts.0.now ∷ fields parts.1.now) }
    ensures shorter { IfSome result (λ parts. length parts.1.now < length line.now) }
{
    let start = run_of(line, true);
    if start == line.len() {
        return None;
    }
    let (_, rest) = line.split_at(start);
    let end = field_len(rest);
    Some(rest.split_at(end))
}
