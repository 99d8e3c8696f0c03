//! Reads the numbers in fields.
ghost use Rattle.std.specs.Prelude.{◌≡◌, ◌<◌, ◌≤◌, ◌+◌, ◌*◌, ◌^◌, true, false, is_some};
ghost use Rattle.std.specs.List.{list_all};
ghost use Rattle.aide_fields.specs.Numbers.{is_digit, natural_of, mode_of, number_of, bits_of};

/// Returns whether a byte is a digit below the base.
pub fn is_digit(base: u8, byte: u8) -> bool
    requires { base ≤ 10 }
    ensures { result ≡ is_digit base byte }
{
    byte >= b'0' && byte < b'0' + base
}

/// Returns whether a number with one more digit is 2^64 or more, for a number that is not far below a tenth of 2^64.
// It is not inlined, so that the loop over the digits of a smaller number compares once for each digit.
#[cold]
#[inline(never)]
fn is_over_late(value: u64, digit: u64) -> bool
    requires late { 1844674407370955161 ≤ value }
    requires digit { digit < 10 }
    ensures over { result ≡ true → 2 ^ 64 ≤ value * 10 + digit }
    ensures below { result ≡ false → value * 10 + digit < 2 ^ 64 }
{
    value > 1844674407370955161 || digit > 5
}

/// Returns whether a number with one more digit is 2^64 or more. It needs no division.
fn is_over(value: u64, digit: u64) -> bool
    requires { digit < 10 }
    ensures over { result ≡ true → 2 ^ 64 ≤ value * 10 + digit }
    ensures below { result ≡ false → value * 10 + digit < 2 ^ 64 }
{
    value >= 1844674407370955161 && is_over_late(value, digit)
}

/// Reads the number that decimal digits write, if it is below 2^64.
pub fn read_natural(digits: &[u8]) -> Option<u64>
    ensures { result ≡ natural_of digits.now }
{
    if digits.is_empty() {
        return None;
    }
    let mut value: u64 = 0;
    let mut rest = digits;
    'digits: while let Some((byte, more)) = rest.split_first() {
        if !is_digit(10, *byte) {
            return None;
        }
        let digit = u64::from(*byte - b'0');
        if is_over(value, digit) {
            return None;
        }
        value = value * 10 + digit;
        rest = more;
    }
    Some(value)
}

/// Reads the number that octal digits write, if it is below 2^32.
pub fn read_mode(digits: &[u8]) -> Option<u32>
    ensures { result ≡ mode_of digits.now }
{
    if digits.is_empty() {
        return None;
    }
    let mut value: u32 = 0;
    let mut rest = digits;
    'digits: while let Some((byte, more)) = rest.split_first() {
        if !is_digit(8, *byte) {
            return None;
        }
        let digit = u32::from(*byte - b'0');
        if value > (u32::MAX - digit) / 8 {
            return None;
        }
        value = value * 8 + digit;
        rest = more;
    }
    Some(value)
}

/// Reads the number in a field, from -2^63 to 2^64 - 1.
#[tactic(auto, unfolding(crate::specs::Numbers::number_of))]
pub fn read_number(field: &[u8]) -> Option<i128>
    ensures { result ≡ number_of field.now }
{
    let (first, digits) = field.split_first()?;
    if *first == b'-' {
        let n = read_natural(digits)?;
        if n <= 1 << 63 {
            Some(-i128::from(n))
        } else {
            None
        }
    } else {
        let n = read_natural(field)?;
        Some(i128::from(n))
    }
}

/// Reads the number in a field, from 0 to 2^64 - 1.
#[tactic(auto, unfolding(crate::specs::Numbers::bits_of, crate::specs::Numbers::number_of))]
pub fn read_bits(field: &[u8]) -> Option<u64>
    ensures { result ≡ bits_of field.now }
{
    let (first, digits) = field.split_first()?;
    if *first == b'-' {
        let n = read_natural(digits)?;
        if n == 0 { Some(0) } else { None }
    } else {
        read_natural(field)
    }
}

// ---- whether a field has such a number; its value is not computed if the digits suffice to decide

/// Returns whether four bytes are digits below the base. There is no branch for each of them.
fn are_four_digits(base: u8, bytes: &[u8; 4]) -> bool
    requires { base ≤ 10 }
    ensures { result ≡ list_all (is_digit base) bytes.now }
{
    let [a, b, c, d] = *bytes;
    is_digit(base, a) & is_digit(base, b) & is_digit(base, c) & is_digit(base, d)
}

/// Returns whether each of a few bytes is a digit below the base.
fn few_digits(base: u8, bytes: &[u8]) -> bool
    requires { base ≤ 10 }
    ensures { result ≡ list_all (is_digit base) bytes.now }
{
    let mut rest = bytes;
    'bytes: while let Some((byte, more)) = rest.split_first() {
        if !is_digit(base, *byte) {
            return false;
        }
        rest = more;
    }
    true
}

/// Returns whether each byte is a digit below the base. The bytes are checked four at a time. Bytes that are left over
/// are checked together with some of those before them.
fn all_digits(base: u8, bytes: &[u8]) -> bool
    requires { base ≤ 10 }
    ensures { result ≡ list_all (is_digit base) bytes.now }
{
    let Some(last) = bytes.last_chunk::<4>() else {
        return few_digits(base, bytes);
    };
    let mut rest = bytes;
    'fours: while let Some((four, more)) = rest.split_first_chunk::<4>() {
        if !are_four_digits(base, four) {
            return false;
        }
        rest = more;
    }
    rest.is_empty() || are_four_digits(base, last)
}

/// Returns whether decimal digits, more than 19, write a number below 2^64.
#[cold]
#[inline(never)]
fn is_long_natural(digits: &[u8]) -> bool
    ensures { result ≡ is_some (natural_of digits.now) }
{
    read_natural(digits).is_some()
}

/// Returns whether decimal digits write a number below 2^64. At most 19 digits always do.
fn is_natural(digits: &[u8]) -> bool
    ensures { result ≡ is_some (natural_of digits.now) }
{
    if digits.is_empty() {
        return false;
    }
    if digits.len() > 19 {
        return is_long_natural(digits);
    }
    all_digits(10, digits)
}

/// Returns whether octal digits write a number below 2^32. At most 10 digits always do.
pub fn is_mode(digits: &[u8]) -> bool
    ensures { result ≡ is_some (mode_of digits.now) }
{
    if digits.is_empty() {
        return false;
    }
    if digits.len() > 10 {
        return read_mode(digits).is_some();
    }
    all_digits(8, digits)
}

/// Returns whether a field is a number from -2^63 to 2^64 - 1.
pub fn is_number(field: &[u8]) -> bool
    ensures { result ≡ is_some (number_of field.now) }
{
    let Some((first, _)) = field.split_first() else {
        return false;
    };
    if *first == b'-' {
        return read_number(field).is_some();
    }
    is_natural(field)
}

/// Returns whether a field is a number from 0 to 2^64 - 1.
pub fn is_bits(field: &[u8]) -> bool
    ensures { result ≡ is_some (bits_of field.now) }
{
    let Some((first, _)) = field.split_first() else {
        return false;
    };
    if *first == b'-' {
        return read_bits(field).is_some();
    }
    is_natural(field)
}
