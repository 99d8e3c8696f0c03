//! A feed over a lent text with escapes.

ghost use Rattle.std.specs.Prelude.{◌≡◌, ℕ, List};
ghost use Rattle.percent_encoding.specs.Iter.{decoded_bytes};

use crate::feed::Feed;
use aide_fields::Decoded;

/// Hands out the bytes of a text whose escapes are decoded.
#[derive(Clone, Copy, Drop)]
pub struct DecodedFeed<'a> {
    bytes: Decoded<'a>,
}

impl<'a> DecodedFeed<'a> {
    /// Returns a feed of all bytes of a decoded text.
    pub fn of(bytes: Decoded<'a>) -> DecodedFeed<'a>
        ensures { decoded_rest result ≡ decoded_bytes bytes.entry }
    {
        DecodedFeed { bytes }
    }
}

ghost use Rattle.aide_text.specs.DecodedRest.{decoded_rest};

impl<'a> Feed for DecodedFeed<'a> {
    ghost rest = { decoded_rest };

    fn next_byte(&mut self) -> Option<u8> {
        self.bytes.next()
    }
}
