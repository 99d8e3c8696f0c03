//! Hands out the bytes of a text in base 16 (RFC 4648 section 8).
ghost use Rattle.std.specs.Prelude.{◌≡◌, ◌<◌, ℕ, List};
ghost use Rattle.hex.specs.Hex.{encode_lower};
ghost use Rattle.aide_json.specs.Json.{hex_digit};

use crate::characters::hex_digit;
use aide_text::Feed;

/// Hands out the bytes of another feed in base 16, in lower case.
#[derive(Drop)]
pub struct Base16<B> {
    bytes: B,
    pending: Option<u8>,
}

impl<B: Feed> Base16<B> {
    ghost use Rattle.aide_json.specs.code.Base16Rest.{base16_rest};

    /// Returns the bytes of a feed in base 16.
    pub fn of(bytes: B) -> Base16<B>
        ensures { base16_rest B.rest result ≡ encode_lower (B.rest bytes) }
    {
        Base16 {
            bytes,
            pending: None,
        }
    }
}

impl<B: Feed> Feed for Base16<B> {
    ghost use Rattle.aide_json.specs.code.Base16Rest.{base16_rest};

    ghost rest = { base16_rest B.rest };

    fn next_byte(&mut self) -> Option<u8> {
        match self.pending {
            Some(c) => {
                self.pending = None;
                Some(c)
            }
            None => match self.bytes.next_byte() {
                None => None,
                Some(c) => {
                    self.pending = Some(hex_digit(c % 16));
                    Some(hex_digit(c / 16))
                }
            },
        }
    }
}
