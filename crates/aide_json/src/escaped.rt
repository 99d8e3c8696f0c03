//! Hands out the bytes of a text as they are written in a string. It looks at most at three bytes of the text together.
ghost use Rattle.std.specs.Prelude.{◌≡◌, ◌<◌, ◌++◌, ◌∷◌, [], ℕ, List, drop};
ghost use Rattle.aide_json.specs.code.Escaping.{Begun, text_after};
ghost use Rattle.aide_json.specs.code.Spelled.{spelled};

use crate::characters::{after_c2, after_d8, after_e2_80, after_e2_81, one, one_byte, two};
use crate::spelling::Spelling;
use aide_text::Feed;

/// Returns what is written for C2 and the bytes after it that belong to its character, if it may be hidden.
fn from_c2<B: Feed>(bytes: &mut B) -> Spelling
    ensures { spelled result ++ text_after Begun.Nothing (B.rest bytes.new)
        ≡ text_after Begun.C2 (B.rest bytes.old) }
{
    match bytes.next_byte() {
        None => one(0xc2),
        Some(c) => after_c2(c),
    }
}

/// Returns what is written for D8 and the bytes after it that belong to its character, if it may be hidden.
fn from_d8<B: Feed>(bytes: &mut B) -> Spelling
    ensures { spelled result ++ text_after Begun.Nothing (B.rest bytes.new)
        ≡ text_after Begun.D8 (B.rest bytes.old) }
{
    match bytes.next_byte() {
        None => one(0xd8),
        Some(c) => after_d8(c),
    }
}

/// Returns what is written for E2 80 and the bytes after it that belong to its character, if it may be hidden.
fn from_e2_80<B: Feed>(bytes: &mut B) -> Spelling
    ensures { spelled result ++ text_after Begun.Nothing (B.rest bytes.new)
        ≡ text_after Begun.E2_80 (B.rest bytes.old) }
{
    match bytes.next_byte() {
        None => two(0xe2, 0x80),
        Some(c) => after_e2_80(c),
    }
}

/// Returns what is written for E2 81 and the bytes after it that belong to its character, if it may be hidden.
fn from_e2_81<B: Feed>(bytes: &mut B) -> Spelling
    ensures { spelled result ++ text_after Begun.Nothing (B.rest bytes.new)
        ≡ text_after Begun.E2_81 (B.rest bytes.old) }
{
    match bytes.next_byte() {
        None => two(0xe2, 0x81),
        Some(c) => after_e2_81(c),
    }
}

/// Returns what is written for E2 and the bytes after it that belong to its character, if it may be hidden.
fn from_e2<B: Feed>(bytes: &mut B) -> Spelling
    ensures { spelled result ++ text_after Begun.Nothing (B.rest bytes.new)
        ≡ text_after Begun.E2 (B.rest bytes.old) }
{
    match bytes.next_byte() {
        None => one(0xe2),
        Some(0x80) => from_e2_80(bytes),
        Some(0x81) => from_e2_81(bytes),
        Some(c) => two(0xe2, c),
    }
}

/// Returns what is written for a byte. If a hidden character can begin with it, it also takes the bytes that decide.
fn next_spelling<B: Feed>(c: u8, bytes: &mut B) -> Spelling
    ensures { spelled result ++ text_after Begun.Nothing (B.rest bytes.new)
        ≡ text_after Begun.Nothing (c ∷ B.rest bytes.old) }
{
    match c {
        0xc2 => from_c2(bytes),
        0xd8 => from_d8(bytes),
        0xe2 => from_e2(bytes),
        _ => one_byte(c),
    }
}

/// Hands out the bytes of another feed as they are written in a string.
#[derive(Drop)]
pub struct Escaped<B> {
    bytes: B,
    pending: [u8; 6],
    at: usize,
}

impl<B: Feed> Escaped<B> {
    ghost use Rattle.aide_json.specs.code.EscapedRest.{escaped_rest};

    /// Returns the bytes of a feed as they are written in a string.
    pub fn of(bytes: B) -> Escaped<B>
        ensures { escaped_rest B.rest result ≡ text_after Begun.Nothing (B.rest bytes) }
    {
        Escaped {
            bytes,
            pending: [0; 6],
            at: 6,
        }
    }
}

impl<B: Feed> Feed for Escaped<B> {
    ghost use Rattle.aide_json.specs.code.EscapedRest.{escaped_rest};

    ghost rest = { escaped_rest B.rest };

    // A call for each byte of each text would take as long as the work itself.
    #[inline(always)]
    fn next_byte(&mut self) -> Option<u8> {
        if self.at < 6 {
            let c = self.pending[self.at];
            self.at += 1;
            return Some(c);
        }
        match self.bytes.next_byte() {
            None => None,
            Some(c) => {
                let spelling = next_spelling(c, &mut self.bytes);
                self.pending = spelling.bytes;
                self.at = spelling.at + 1;
                Some(spelling.bytes[spelling.at])
            }
        }
    }
}
