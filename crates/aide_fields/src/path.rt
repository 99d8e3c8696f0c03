//! Compares paths.
ghost use Rattle.std.specs.Prelude.{◌≡◌, ◌<◌, ◌≤◌, true, map, length, take};
ghost use Rattle.std.specs.Ordering.{nat_cmp};
ghost use Rattle.std.specs.Cmp.Lexicographic.{slice_cmp};
ghost use Rattle.percent_encoding.specs.Iter.{decoded_bytes};
ghost use Rattle.percent_encoding.specs.Percent.{percent_decode};
ghost use Rattle.aide_fields.specs.Path.{path_cmp, rank_of, IsBetweenEscapes};

use crate::decoded::Decoded;
use percent_encoding::percent_decode;
use std::cmp::Ordering;

/// Returns the rank of a byte in the order of paths. A slash comes first.
fn rank(byte: u8) -> u16
    ensures { result ≡ rank_of byte }
{
    if byte == b'/' { 0 } else { u16::from(byte) + 1 }
}

/// Compares two paths by the ranks of their bytes.
fn cmp_ranks(x: Decoded<'_>, y: Decoded<'_>) -> Ordering
    ensures { result ≡ slice_cmp nat_cmp (map rank_of (decoded_bytes x.entry))
        (map rank_of (decoded_bytes y.entry)) }
{
    let mut left = x;
    let mut right = y;
    'bytes: while let Some(a) = left.next() {
        let Some(b) = right.next() else {
            return Ordering::Greater;
        };
        match rank(a).cmp(&rank(b)) {
            Ordering::Equal => {}
            order => return order,
        }
    }
    if right.next().is_none() {
        Ordering::Equal
    } else {
        Ordering::Less
    }
}

/// Returns how many of the first bytes of two texts are the same. It compares words of this size.
fn equal_words(x: &[u8], y: &[u8], size: usize) -> usize
    requires { 0 < size }
    ensures left { result ≤ length x.now }
    ensures right { result ≤ length y.now }
    ensures same { take result x.now ≡ take result y.now }
{
    let mut count: usize = 0;
    let mut left = x;
    let mut right = y;
    'words: while left.len() >= size && right.len() >= size {
        let (word, more_left) = left.split_at(size);
        let (other_word, more_right) = right.split_at(size);
        if word != other_word {
            return count;
        }
        count += size;
        left = more_left;
        right = more_right;
    }
    count
}

/// Returns how many of the first bytes of two texts are the same. It compares one byte after another.
fn equal_front(x: &[u8], y: &[u8]) -> usize
    ensures left { result ≤ length x.now }
    ensures right { result ≤ length y.now }
    ensures same { take result x.now ≡ take result y.now }
{
    let far = equal_words(x, y, 32);
    let (_, x_behind) = x.split_at(far);
    let (_, y_behind) = y.split_at(far);
    let near = equal_words(x_behind, y_behind, 8);
    let (_, x_rest) = x_behind.split_at(near);
    let (_, y_rest) = y_behind.split_at(near);
    let mut count = far + near;
    let mut left = x_rest;
    let mut right = y_rest;
    'bytes: while let Some((byte, more_left)) = left.split_first() {
        let Some((other_byte, more_right)) = right.split_first() else {
            return count;
        };
        if *byte != *other_byte {
            return count;
        }
        count += 1;
        left = more_left;
        right = more_right;
    }
    count
}

/// Returns whether no escape reaches over an index: neither of the two bytes before it is `%`.
fn is_between_escapes(text: &[u8], at: usize) -> bool
    requires { at ≤ length text.now }
    ensures between { result ≡ true → IsBetweenEscapes text.now at }
    ensures first { at ≡ 0 → result ≡ true }
{
    (at < 1 || text[at - 1] != b'%') && (at < 2 || text[at - 2] != b'%')
}

/// Returns a number of first bytes in which two texts agree. No escape reaches over their end.
fn common_front(x: &[u8], y: &[u8]) -> usize
    ensures left { result ≤ length x.now }
    ensures right { result ≤ length y.now }
    ensures same { take result x.now ≡ take result y.now }
    ensures between { IsBetweenEscapes x.now result }
{
    let mut count = equal_front(x, y);
    'escapes: while !is_between_escapes(x, count) {
        count -= 1;
    }
    count
}

/// Compares the paths in two fields, component by component.
pub fn cmp_paths(x: &[u8], y: &[u8]) -> Ordering
    ensures { result ≡ path_cmp (percent_decode x.now) (percent_decode y.now) }
{
    let front = common_front(x, y);
    let (_, left) = x.split_at(front);
    let (_, right) = y.split_at(front);
    cmp_ranks(percent_decode(left), percent_decode(right))
}
