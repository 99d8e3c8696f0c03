//! Pieces of a text.

ghost use Rattle.std.specs.Prelude.{◌≡◌, ◌<◌, ◌≤◌, ◌++◌, ◌∷◌, [], ◌-◌, ℕ, List, length, take, drop};

use crate::feed::Feed;

/// At most 32 bytes of a text.
#[derive(Clone, Copy)]
pub(crate) struct Piece {
    bytes: [u8; 32],
    len: usize,
    ghost fits: { len ≤ 32 },
}

impl Piece {
    ghost use Rattle.aide_text.specs.code.PieceText.{piece_text};

    /// Takes the next piece of a text: its next 32 bytes, or all that are left.
    pub(crate) fn of<T: Feed>(text: &mut T) -> Piece
        ensures piece { piece_text result ≡ take 32 (T.rest text.old) }
        ensures rest { T.rest text.new ≡ drop 32 (T.rest text.old) }
    {
        let mut bytes = [0; 32];
        let mut len = 0;
        'bytes: while len < 32 {
            match text.next_byte() {
                Some(c) => {
                    bytes[len] = c;
                    len += 1;
                }
                None => return Piece { bytes, len },
            }
        }
        Piece { bytes, len }
    }

    pub(crate) fn bytes(&self) -> &[u8]
        ensures { result.now ≡ piece_text self.now }
    {
        &self.bytes[..self.len]
    }

    pub(crate) fn len(&self) -> usize
        ensures value { result ≡ length (piece_text self.now) }
        ensures fits { result ≤ 32 }
    {
        self.len
    }
}
