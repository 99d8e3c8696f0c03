//! The text of an attribute's value.

ghost use Rattle.hex.specs.Hex.{encode_lower};
ghost use Rattle.base64.specs.Engines.{standard};
ghost use Rattle.base64.specs.GeneralPurpose.{encode_of};
ghost use Rattle.std.specs.Prelude.{◌≡◌, ◌<◌, ◌≤◌, ◌++◌, ◌∷◌, [], ◌-◌, ℕ, ℤ, List, length, take};
ghost use Rattle.std.specs.Prelude.{drop, nat_abs};
ghost use Rattle.std.specs.Fmt.{signed_decimal};
ghost use Rattle.aide_text.specs.ReadyRest.{ready_rest};
ghost use Rattle.aide_text.specs.TextRest.{text_rest};
ghost use Rattle.aide_text.specs.ValueText.{type_text, mode_text, digest_text, option_text};
ghost use Rattle.aide_text.specs.ValueText.{octal_text};

use crate::feed::{Feed, Printed};
use crate::ready::Ready;
use aide_attr::FileType;
use base64::engine::general_purpose::STANDARD;
use itoa::Buffer;

/// Hands out the text of a value. A short text is kept in place. A link name and a field are printed as a path is.
#[derive(Drop)]
pub enum ValueText<S, L, F> {
    /// A text that is kept in place.
    Short(S),
    /// A field that is written as the database has it.
    Lent(F),
    /// A link name.
    Link(Printed<L>),
    /// A field, with the bytes that the database has.
    Field(Printed<F>),
}

impl<S: Feed, L: Feed, F: Feed> Feed for ValueText<S, L, F> {
    ghost rest = { text_rest S.rest L.rest F.rest };

    fn next_byte(&mut self) -> Option<u8> {
        match self {
            ValueText::Short(ready) => ready.next_byte(),
            ValueText::Lent(field) => field.next_byte(),
            ValueText::Link(printed) => printed.next_byte(),
            ValueText::Field(printed) => printed.next_byte(),
        }
    }
}

/// The text for a type of file.
fn type_text(kind: FileType) -> &'static [u8]
    ensures value { result.now ≡ type_text kind }
    ensures short { length result.now ≤ 16 }
{
    match kind {
        FileType::File => b"File",
        FileType::Directory => b"Directory",
        FileType::Link => b"Link",
        FileType::Char => b"Character device",
        FileType::Block => b"Block device",
        FileType::Fifo => b"FIFO",
        FileType::Socket => b"Socket",
        FileType::Other(_) => b"Other",
    }
}

/// Returns the word for a type of file, or the empty text if there is no type.
pub fn kind_text(kind: Option<FileType>) -> Ready
    ensures { ready_rest result ≡ option_text type_text kind }
{
    match kind {
        None => Ready::of(b""),
        Some(kind) => Ready::of(type_text(kind)),
    }
}

fn octal(n: u128) -> Ready
    ensures { ready_rest result ≡ octal_text n }
{
    Ready::of(&[
        octal_digit(n / 512),
        octal_digit(n / 64),
        octal_digit(n / 8),
        octal_digit(n),
    ])
}

fn octal_digit(n: u128) -> u8
    ensures { result ≡ 48 + n % 8 }
{
    b'0' + (n % 8) as u8
}

ghost use Rattle.std.specs.Prelude.{◌+◌, ◌%◌};

/// Returns the low twelve bits of a mode as four octal digits, or the empty text if there is no mode. A mode below zero
/// has the digits of its absolute value.
pub fn mode_text(mode: Option<i128>) -> Ready
    ensures { ready_rest result ≡ option_text mode_text mode }
{
    match mode {
        None => Ready::of(b""),
        Some(mode) => octal(mode.unsigned_abs()),
    }
}

/// Returns a number in decimal, or the empty text if there is no number.
pub fn number_text(number: Option<i128>) -> Ready
    ensures { ready_rest result ≡ option_text signed_decimal number }
{
    match number {
        None => Ready::of(b""),
        Some(number) => {
            let mut buffer = Buffer::new();
            Ready::of(buffer.format(number).as_bytes())
        }
    }
}

/// Returns at most 64 bytes in base 16.
fn hex_of(bytes: &[u8]) -> Ready
    requires { length bytes.now ≤ 64 }
    ensures { ready_rest result ≡ encode_lower bytes.now }
{
    let mut text = [0; 128];
    let text = &mut text[..2 * bytes.len()];
    // The text has two bytes for each of these, so this cannot fail.
    let _ = hex::encode_to_slice(bytes, text);
    Ready::of(text)
}

/// Returns at most 64 bytes in base 64.
fn base64_of(bytes: &[u8]) -> Ready
    requires { length bytes.now ≤ 64 }
    ensures { ready_rest result ≡ encode_of standard bytes.now }
{
    let mut text = [0; 88];
    match STANDARD.encode_slice(bytes, &mut text) {
        Ok(len) => Ready::of(&text[..len]),
        Err(_) => Ready::of(b""),
    }
}

/// Returns a digest of at most 64 bytes as a text, in base 16 (lowercase) if `base16` is set. Otherwise the text is
/// in base 64 (RFC 4648 section 4).
#[tactic(auto, unfolding(crate::specs::ValueText::digest_text))]
pub fn digest_text(base16: bool, bytes: &[u8]) -> Ready
    requires { length bytes.now ≤ 64 }
    ensures { ready_rest result ≡ digest_text base16 bytes.now }
{
    if base16 {
        hex_of(bytes)
    } else {
        base64_of(bytes)
    }
}
