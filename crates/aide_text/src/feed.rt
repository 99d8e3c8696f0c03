//! Texts that are handed out byte by byte, and cut into pieces.

ghost use Rattle.std.specs.Prelude.{◌≡◌, ◌<◌, ◌≤◌, ◌++◌, ◌∷◌, [], ◌-◌, ℕ, List, length, take, drop};
ghost use Rattle.std.specs.Prelude.{Some, None};
ghost use Rattle.aide_text.specs.Feed.{HandsOut};
ghost use Rattle.aide_text.specs.Printed.{printed, is_escaped, octal_escape};

/// Hands out the bytes of a text one after another.
pub trait Feed: Drop {
    /// The bytes that are still to come.
    ghost rest: { Self → List ℕ };

    /// Hands out the next byte, or `None` if no byte is left.
    fn next_byte(&mut self) -> Option<u8>
        ensures { HandsOut result (rest self.old) (rest self.new) };
}

fn needs_escape(c: u8) -> bool
    ensures { result ≡ is_escaped c }
{
    c < 32 || c == 127 || c == b'\\'
}

fn octal_escape(c: u8) -> [u8; 4]
    ensures { result ≡ octal_escape c }
{
    [b'\\', b'0' + c / 64, b'0' + c / 8 % 8, b'0' + c % 8]
}

/// Hands out the bytes of another feed as a path is printed.
#[derive(Drop)]
pub struct Printed<B> {
    bytes: B,
    pending: [u8; 4],
    at: usize,
}

impl<B: Feed> Printed<B> {
    ghost use Rattle.aide_text.specs.PrintedRest.{printed_rest};

    /// Returns the bytes of a feed as a path is printed: a control byte or a backslash becomes a backslash and three
    /// octal digits.
    pub fn of(bytes: B) -> Printed<B>
        ensures { printed_rest B.rest result ≡ printed (B.rest bytes) }
    {
        Printed {
            bytes,
            pending: [0; 4],
            at: 4,
        }
    }
}

impl<B: Feed> Feed for Printed<B> {
    ghost use Rattle.aide_text.specs.PrintedRest.{printed_rest};

    ghost rest = { printed_rest B.rest };

    // A call for each byte of each path would take as long as the work itself.
    #[inline(always)]
    fn next_byte(&mut self) -> Option<u8> {
        if self.at < 4 {
            let c = self.pending[self.at];
            self.at += 1;
            return Some(c);
        }
        match self.bytes.next_byte() {
            None => None,
            Some(c) => {
                if needs_escape(c) {
                    self.pending = octal_escape(c);
                    self.at = 1;
                    Some(b'\\')
                } else {
                    Some(c)
                }
            }
        }
    }
}
