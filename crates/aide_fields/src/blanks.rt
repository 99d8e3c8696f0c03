//! The blanks among 32 bytes, as bits.
ghost use Rattle.std.specs.Prelude.{ℕ, true, max, ◌≡◌, ◌≢◌, ◌↔◌, ◌+◌, ◌<◌, ◌≤◌, ◌==◌};
ghost use Rattle.std.specs.Prelude.{if◌then◌else◌, length, slice_index, bit_or};
ghost use Rattle.std.specs.Int.{bit_at};
ghost use Rattle.memchr.specs.Lanes.{HasLanes};
ghost use Rattle.aide_fields.specs.Text.{is_blank};

use std::simd::prelude::*;

// ---- single operations, each with what it does lane by lane or bit by bit, so that the proofs of their callers read
// clauses in place of code

fn next_lanes(line: &[u8], at: usize) -> u8x32
    requires { at + 32 ≤ length line.now }
    ensures { HasLanes result (λ k. slice_index line.now (at + k)) }
{
    u8x32::from_slice(&line[at..])
}

fn lanes_equal(v: u8x32, byte: u8) -> u8x32
    ensures { HasLanes result (λ k. if slice_index v k == byte then 255 else 0) }
{
    v.simd_eq(u8x32::splat(byte))
        .select(u8x32::splat(255), u8x32::splat(0))
}

fn lanes_either(a: u8x32, b: u8x32) -> u8x32
    ensures { HasLanes result (λ k. bit_or (slice_index a k) (slice_index b k)) }
{
    a | b
}

fn high_lanes(v: u8x32) -> u64
    ensures { (k : ℕ) → (bit_at result k ≡ 1) ↔ (128 ≤ slice_index v k) }
{
    v.simd_ge(u8x32::splat(128)).to_bitmask()
}

/// Moves bits up by this distance. All of them are among the lowest 32 before.
fn bits_shifted(bits: u64, distance: usize) -> u64
    requires few { distance ≤ 32 }
    requires low { (k : ℕ) → bit_at bits k ≡ 1 → k < 32 }
    ensures each { (k : ℕ) → bit_at result (k + distance) ≡ bit_at bits k }
    ensures gone { (k : ℕ) → k < distance → bit_at result k ≡ 0 }
{
    bits << distance
}

/// Returns the bits that are set in one argument or the other.
fn bits_either(a: u64, b: u64) -> u64
    ensures { (k : ℕ) → bit_at result k ≡ max (bit_at a k) (bit_at b k) }
{
    a | b
}

// ---- the blanks

/// Finds the blanks among 32 bytes: bit k is set if the byte at `at` + k is blank.
pub fn blanks_at(line: &[u8], at: usize) -> u64
    requires { at + 32 ≤ length line.now }
    ensures each { (k : ℕ) → k < 32 → (bit_at result k ≡ 1)
        ↔ (is_blank (slice_index line.now (at + k)) ≡ true) }
    ensures within { (k : ℕ) → bit_at result k ≡ 1 → k < 32 }
{
    let v = next_lanes(line, at);
    let either = lanes_either(lanes_equal(v, b' '), lanes_equal(v, b'\t'));
    high_lanes(either)
}

/// Finds the blanks among the 32 bytes from `at` on and the 32 bytes from `later` on: bit k is set if the byte at
/// `at` + k is blank. The two runs of bytes may overlap.
pub fn blanks_of_both(line: &[u8], at: usize, later: usize) -> u64
    requires order { at ≤ later }
    requires near { later ≤ at + 32 }
    requires long { later + 32 ≤ length line.now }
    ensures each { (k : ℕ) → at + k < later + 32 → (bit_at result k ≡ 1)
        ↔ (is_blank (slice_index line.now (at + k)) ≡ true) }
    ensures within { (k : ℕ) → bit_at result k ≡ 1 → at + k < later + 32 }
{
    let behind = bits_shifted(blanks_at(line, later), later - at);
    bits_either(blanks_at(line, at), behind)
}

/// Returns the index of the lowest bit.
pub fn lowest_bit(bits: u64) -> usize
    requires { bits ≢ 0 }
    ensures bound { result < 64 }
    ensures set { bit_at bits result ≡ 1 }
    ensures below { (k : ℕ) → k < result → bit_at bits k ≡ 0 }
{
    bits.trailing_zeros() as usize
}

/// Returns the bits without the lowest one. It is found without a shift, so a loop over the bits need not wait for its
/// index.
pub fn without_lowest(bits: u64) -> u64
    requires { bits ≢ 0 }
    ensures smaller { result < bits }
    ensures kept { (low k : ℕ) → bit_at bits low ≡ 1 → low < k → bit_at result k ≡ bit_at bits k }
    ensures fewer { (k : ℕ) → bit_at result k ≡ 1 → bit_at bits k ≡ 1 }
    ensures gone { (low : ℕ) → bit_at bits low ≡ 1
        → ((k : ℕ) → k < low → bit_at bits k ≡ 0) → bit_at result low ≡ 0 }
{
    bits & (bits - 1)
}

/// Returns the bits from an index on.
pub fn bits_from(bits: u64, index: usize) -> u64
    requires { index < 64 }
    ensures kept { (k : ℕ) → index ≤ k → bit_at result k ≡ bit_at bits k }
    ensures gone { (k : ℕ) → k < index → bit_at result k ≡ 0 }
{
    let high = bits >> index;
    high << index
}
