//! Writes numbers.
ghost use Rattle.std.specs.Prelude.{◌≡◌, ◌≤◌, decimal, length, nat_abs};
ghost use Rattle.std.specs.Fmt.{signed_decimal};
ghost use Rattle.aide_json.specs.Number.{is_exact, number_as, integer, count};
ghost use Rattle.aide_json.specs.Value.{print};
ghost use Rattle.aide_text.specs.PenSheet.{on_sheet};
ghost use Rattle.aide_text.specs.Sheet.{Wrote};

use crate::string::put_quoted;
use aide_text::{Pen, Sink, put};
use itoa::Buffer;

/// Returns whether each reader keeps a number of this size: one of 53 bits.
fn is_exact(size: u128) -> bool
    ensures { result ≡ is_exact size }
{
    size < 1 << 53
}

/// Writes a number by its digits: as it is, or as a string if not each reader would keep it.
fn put_digits<W: Sink>(out: &mut W, pen: &mut Pen, size: u128, digits: &[u8])
    ensures { Wrote (print (number_as size digits.now)) (on_sheet W.Sink out.old pen.old)
        (on_sheet W.Sink out.new pen.new) }
{
    if is_exact(size) {
        put(out, pen, digits);
    } else {
        put_quoted(out, pen, digits);
    }
}

/// Writes an integer.
pub(crate) fn put_integer<W: Sink>(out: &mut W, pen: &mut Pen, number: i128)
    ensures { Wrote (print (integer number)) (on_sheet W.Sink out.old pen.old)
        (on_sheet W.Sink out.new pen.new) }
{
    let mut buffer = Buffer::new();
    put_digits(
        out,
        pen,
        number.unsigned_abs(),
        buffer.format(number).as_bytes(),
    );
}

/// Writes a count. Above 2^53 - 1 it is a string of the digits (RFC 7493 section 2.2).
pub fn put_count<W: Sink>(out: &mut W, pen: &mut Pen, number: u128)
    ensures { Wrote (print (count number)) (on_sheet W.Sink out.old pen.old)
        (on_sheet W.Sink out.new pen.new) }
{
    let mut buffer = Buffer::new();
    put_digits(out, pen, number, buffer.format(number).as_bytes());
}
