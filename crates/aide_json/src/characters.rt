//! How the characters are written in a string that a byte alone, or the last byte after known ones, makes out.
ghost use Rattle.std.specs.Prelude.{◌≡◌, ◌<◌, ◌∷◌, []};
ghost use Rattle.aide_json.specs.Json.{u_escape, hex_digit};
ghost use Rattle.aide_json.specs.code.Escaping.{one_byte, after_c2, after_d8, after_e2_80};
ghost use Rattle.aide_json.specs.code.Escaping.{after_e2_81};
ghost use Rattle.aide_json.specs.code.Spelled.{spelled};

use crate::spelling::Spelling;

/// Returns a digit of base 16, in lower case.
pub(crate) fn hex_digit(d: u8) -> u8
    requires { d < 16 }
    ensures { result ≡ hex_digit d }
{
    b"0123456789abcdef"[usize::from(d)]
}

/// Returns a backslash, a `u` and four digits of base 16.
#[tactic(auto, unfolding(crate::specs::Json::u_escape))]
fn u_escape(c: u16) -> Spelling
    ensures { spelled result ≡ u_escape c }
{
    Spelling {
        bytes: [
            b'\\',
            b'u',
            hex_digit((c / 4096 % 16) as u8),
            hex_digit((c / 256 % 16) as u8),
            hex_digit((c / 16 % 16) as u8),
            hex_digit((c % 16) as u8),
        ],
        at: 0,
    }
}

pub(crate) fn one(c: u8) -> Spelling
    ensures { spelled result ≡ c ∷ [] }
{
    Spelling {
        bytes: [0, 0, 0, 0, 0, c],
        at: 5,
    }
}

pub(crate) fn two(c: u8, d: u8) -> Spelling
    ensures { spelled result ≡ c ∷ d ∷ [] }
{
    Spelling {
        bytes: [0, 0, 0, 0, c, d],
        at: 4,
    }
}

fn three(c: u8, d: u8, e: u8) -> Spelling
    ensures { spelled result ≡ c ∷ d ∷ e ∷ [] }
{
    Spelling {
        bytes: [0, 0, 0, c, d, e],
        at: 3,
    }
}

/// Returns what is written for a character of one byte, and for any byte of a character that cannot be hidden.
pub(crate) fn one_byte(c: u8) -> Spelling
    ensures { spelled result ≡ one_byte c }
{
    if c == b'"' || c == b'\\' {
        two(b'\\', c)
    } else if c < 0x20 || c == 0x7f {
        u_escape(u16::from(c))
    } else {
        one(c)
    }
}

/// Returns what is written for a character from U+0080 to U+00BF, by its second byte.
pub(crate) fn after_c2(c: u8) -> Spelling
    ensures { spelled result ≡ after_c2 c }
{
    if c < 0xa0 {
        u_escape(u16::from(c))
    } else {
        two(0xc2, c)
    }
}

/// Returns what is written for a character from U+0600 to U+063F, by its second byte.
pub(crate) fn after_d8(c: u8) -> Spelling
    ensures { spelled result ≡ after_d8 c }
{
    if c == 0x9c {
        u_escape(0x61c)
    } else {
        two(0xd8, c)
    }
}

/// Returns what is written for a character from U+2000 to U+203F, by its last byte.
pub(crate) fn after_e2_80(c: u8) -> Spelling
    ensures { spelled result ≡ after_e2_80 c }
{
    if 0x8e <= c && c <= 0x8f || 0xa8 <= c && c <= 0xae {
        u_escape(0x1f80 + u16::from(c))
    } else {
        three(0xe2, 0x80, c)
    }
}

/// Returns what is written for a character from U+2040 to U+207F, by its last byte.
pub(crate) fn after_e2_81(c: u8) -> Spelling
    ensures { spelled result ≡ after_e2_81 c }
{
    if 0xa6 <= c && c <= 0xa9 {
        u_escape(0x1fc0 + u16::from(c))
    } else {
        three(0xe2, 0x81, c)
    }
}
