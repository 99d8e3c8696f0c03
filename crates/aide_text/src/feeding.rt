//! Writes all bytes of a feed.
ghost use Rattle.std.specs.Prelude.{◌≡◌};
ghost use Rattle.aide_text.specs.PenSheet.{on_sheet};
ghost use Rattle.aide_text.specs.Sheet.{Wrote};

use crate::feed::Feed;
use crate::pen::{Pen, put};
use crate::piece::Piece;
use crate::sink::Sink;

/// Writes the bytes of a feed as they are.
pub fn put_feed<W: Sink, B: Feed>(out: &mut W, pen: &mut Pen, mut text: B)
    ensures { Wrote (B.rest text) (on_sheet W.Sink out.old pen.old)
        (on_sheet W.Sink out.new pen.new) }
{
    'pieces: loop {
        let piece = Piece::of(&mut text);
        if piece.len() == 0 {
            return;
        }
        put(out, pen, piece.bytes());
    }
}
