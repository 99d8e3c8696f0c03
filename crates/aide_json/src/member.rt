//! Writes members of objects. The name of each is a text that needs no escape.
ghost use Rattle.std.specs.Prelude.{◌≡◌, ◌≤◌, ◌*◌, ◌++◌, ◌∷◌, [], codes, length};
ghost use Rattle.hex.specs.Hex.{encode_lower};
ghost use Rattle.aide_json.specs.Number.{count, integer};
ghost use Rattle.aide_json.specs.Value.{base16, name_colon, print_member, text_member, word};
ghost use Rattle.aide_text.specs.PenSheet.{on_sheet};
ghost use Rattle.aide_text.specs.Sheet.{Wrote};

use crate::number::{put_count, put_integer};
use crate::plain::plain_text;
use crate::string::{put_hex, put_quoted, put_string};
use crate::utf8::is_utf8;
use aide_text::{Feed, Pen, Sink, put};

/// Writes the name of a member and the colon. The value comes next.
pub fn put_name<W: Sink>(out: &mut W, pen: &mut Pen, name: &[u8])
    ensures { Wrote (name_colon name.now) (on_sheet W.Sink out.old pen.old)
        (on_sheet W.Sink out.new pen.new) }
{
    put(out, pen, b"\"");
    put(out, pen, name);
    put(out, pen, b"\":");
}

/// Writes the name of a member whose value is in base 16, and the colon.
fn put_hex_name<W: Sink>(out: &mut W, pen: &mut Pen, name: &[u8])
    ensures { Wrote (name_colon (name.now ++ codes "_hex")) (on_sheet W.Sink out.old pen.old)
        (on_sheet W.Sink out.new pen.new) }
{
    put(out, pen, b"\"");
    put(out, pen, name);
    put(out, pen, b"_hex\":");
}

/// Writes a member whose value is any text: a string if the text is UTF-8. Otherwise `_hex` is added to the name, and
/// the value is the text's bytes in base 16. A plain text that is short is written at once.
pub fn put_text_member<W: Sink, B: Feed + Copy>(out: &mut W, pen: &mut Pen, name: &[u8], text: B)
    ensures { Wrote (print_member (text_member name.now (B.rest text))) (on_sheet W.Sink out.old pen.old)
        (on_sheet W.Sink out.new pen.new) }
{
    let mut room = [0; 128];
    if let Some(len) = plain_text(text, &mut room) {
        put_word_member(out, pen, name, &room[..len]);
    } else if is_utf8(text) {
        put_name(out, pen, name);
        put_string(out, pen, text);
    } else {
        put_hex_name(out, pen, name);
        put_hex(out, pen, text);
    }
}

/// Writes a member whose value is written as it is: `null`, `true` or `false`.
pub fn put_literal_member<W: Sink>(out: &mut W, pen: &mut Pen, name: &[u8], literal: &[u8])
    ensures { Wrote (name_colon name.now ++ literal.now) (on_sheet W.Sink out.old pen.old)
        (on_sheet W.Sink out.new pen.new) }
{
    put_name(out, pen, name);
    put(out, pen, literal);
}

/// Writes a member whose value is a string that needs no escape.
pub fn put_word_member<W: Sink>(out: &mut W, pen: &mut Pen, name: &[u8], text: &[u8])
    ensures { Wrote (print_member (name.now, word text.now)) (on_sheet W.Sink out.old pen.old)
        (on_sheet W.Sink out.new pen.new) }
{
    put_name(out, pen, name);
    put_quoted(out, pen, text);
}

/// Puts bytes in base 16, in lower case, into a text that has room for just them.
fn encode(bytes: &[u8], text: &mut [u8])
    requires { length text.old ≡ 2 * length bytes.now }
    ensures { text.new ≡ encode_lower bytes.now }
{
    // The room is as it has to be, so this cannot fail.
    let _ = hex::encode_to_slice(bytes, text);
}

/// Writes a member whose value is at most 64 bytes in base 16, in lower case.
pub fn put_digest_member<W: Sink>(out: &mut W, pen: &mut Pen, name: &[u8], digest: &[u8])
    requires { length digest.now ≤ 64 }
    ensures { Wrote (print_member (name.now, base16 digest.now)) (on_sheet W.Sink out.old pen.old)
        (on_sheet W.Sink out.new pen.new) }
{
    let mut text = [0; 128];
    let text = &mut text[..2 * digest.len()];
    encode(digest, text);
    put_word_member(out, pen, name, text);
}

/// Writes a member whose value is an integer. Beyond 2^53 - 1 either way it is a string of the digits (RFC 7493 section
/// 2.2).
pub fn put_integer_member<W: Sink>(out: &mut W, pen: &mut Pen, name: &[u8], number: i128)
    ensures { Wrote (print_member (name.now, integer number)) (on_sheet W.Sink out.old pen.old)
        (on_sheet W.Sink out.new pen.new) }
{
    put_name(out, pen, name);
    put_integer(out, pen, number);
}

/// Writes a member whose value is a count, by the same rule.
pub fn put_count_member<W: Sink>(out: &mut W, pen: &mut Pen, name: &[u8], number: u128)
    ensures { Wrote (print_member (name.now, count number)) (on_sheet W.Sink out.old pen.old)
        (on_sheet W.Sink out.new pen.new) }
{
    put_name(out, pen, name);
    put_count(out, pen, number);
}
