//! A short text that is kept in place, as a feed.

ghost use Rattle.std.specs.Prelude.{◌≡◌, ◌<◌, ◌≤◌, ◌++◌, ◌∷◌, [], ◌-◌, ℕ, List, length, take, drop};

use crate::feed::Feed;

/// Hands out a text of at most 128 bytes, which is kept in place.
#[derive(Clone, Copy)]
pub struct Ready {
    bytes: [u8; 128],
    at: usize,
    len: usize,
    ghost begins: { at ≤ len },
    ghost fits: { len ≤ 128 },
}

impl Ready {
    ghost use Rattle.aide_text.specs.ReadyRest.{ready_rest};

    /// Returns a feed of a copy of this text, which has at most 128 bytes.
    pub fn of(text: &[u8]) -> Ready
        requires { length text.now ≤ 128 }
        ensures { ready_rest result ≡ text.now }
    {
        let mut bytes = [0; 128];
        bytes[..text.len()].copy_from_slice(text);
        Ready {
            bytes,
            at: 0,
            len: text.len(),
        }
    }

    /// Returns the bytes that were not handed out yet.
    pub fn bytes(&self) -> &[u8]
        ensures { result.now ≡ ready_rest self.now }
    {
        &self.bytes[self.at..self.len]
    }
}

impl Feed for Ready {
    ghost use Rattle.aide_text.specs.ReadyRest.{ready_rest};

    ghost rest = { ready_rest };

    fn next_byte(&mut self) -> Option<u8> {
        if self.at < self.len {
            let c = self.bytes[self.at];
            self.at += 1;
            Some(c)
        } else {
            None
        }
    }
}
