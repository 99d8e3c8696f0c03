//! Finds the first piece of a line among the bytes that have been read.
ghost use Rattle.std.specs.Prelude.{◌≡◌, take};
ghost use Rattle.aide_db.specs.code.Piece.{IsPiece};

use memchr::memchr;

/// Returns the first bytes, at most `most` of them.
pub fn front_of(bytes: &[u8], most: u64) -> &[u8]
    ensures { result.now ≡ take most bytes.now }
{
    if bytes.len() as u64 > most {
        let (front, _) = bytes.split_at(most as usize);
        front
    } else {
        bytes
    }
}

/// Returns the bytes before the first newline, at most `most` of them. Returns also whether that newline is among the
/// first `most` bytes.
pub fn first_piece(ahead: &[u8], most: u64) -> (&[u8], bool)
    ensures { IsPiece ahead.now most result.0.now result.1 }
{
    let near = front_of(ahead, most);
    match memchr(b'\n', near) {
        Some(at) => {
            let (piece, _) = near.split_at(at);
            (piece, true)
        }
        None => (near, false),
    }
}
