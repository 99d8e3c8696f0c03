//! A feed over a slice.

ghost use Rattle.std.specs.Prelude.{◌≡◌, ℕ, List};

use crate::feed::Feed;

/// Hands out the bytes of a slice.
#[derive(Clone, Copy, Drop)]
pub struct SliceFeed<'a> {
    bytes: &'a [u8],
}

impl<'a> SliceFeed<'a> {
    /// Returns a feed of all bytes of a slice.
    pub fn of(bytes: &'a [u8]) -> SliceFeed<'a>
        ensures { slice_rest result ≡ bytes.now }
    {
        SliceFeed { bytes }
    }

    /// Returns the bytes that were not handed out yet.
    pub fn bytes(&self) -> &'a [u8]
        ensures { result.now ≡ slice_rest self.now }
    {
        self.bytes
    }
}

ghost use Rattle.aide_text.specs.SliceRest.{slice_rest};

impl<'a> Feed for SliceFeed<'a> {
    ghost rest = { slice_rest };

    fn next_byte(&mut self) -> Option<u8> {
        match self.bytes.split_first() {
            None => None,
            Some((c, others)) => {
                self.bytes = others;
                Some(*c)
            }
        }
    }
}
