//! Writes a report piece by piece.
ghost use Rattle.std.specs.Prelude.{◌≡◌, ◌++◌, ◌∷◌, [], false, decimal, OnOk, IfErr};
ghost use Rattle.std.specs.Io.KnownBytes.{Appends};
ghost use Rattle.aide_text.specs.Failures.{CountsFault};
ghost use Rattle.aide_text.specs.Layout.{empty_line, colon_blank, ended};
ghost use Rattle.aide_text.specs.PenSheet.{on_sheet};
ghost use Rattle.aide_text.specs.Printed.{printed};
ghost use Rattle.aide_text.specs.Sent.{IsCut};
ghost use Rattle.aide_text.specs.Sheet.{Wrote};

use crate::emitting::emit;
use crate::feed::{Feed, Printed};
use crate::piece::Piece;
use crate::sink::Sink;
use crate::slices::SliceFeed;
use itoa::Buffer;

/// Counts the bytes of a report that have been written. Once the sink has failed, the pen writes nothing more. So each
/// function that writes with a pen writes its whole text, or only the beginning of it and then nothing.
#[derive(Clone, Copy, PartialEq, Eq)]
pub struct Pen {
    /// The bytes that have been written. The count stops at `u64::MAX`.
    pub sent: u64,
    /// Whether the sink has failed.
    pub failed: bool,
}

impl Pen {
    /// Returns a pen that has written nothing.
    pub fn new() -> Pen
        ensures { result ≡ record { sent = 0; failed = false } }
    {
        Pen {
            sent: 0,
            failed: false,
        }
    }
}

/// Writes these bytes, and counts those that were written. A failure of the sink is noted in the pen.
// Most texts are a few bytes, and the compiler knows how many: for these a call would take longer than the copy.
#[inline(always)]
pub fn put<W: Sink>(out: &mut W, pen: &mut Pen, bytes: &[u8])
    ensures { Wrote bytes.now (on_sheet W.Sink out.old pen.old) (on_sheet W.Sink out.new pen.new) }
{
    if pen.failed {
        return;
    }
    match emit(out, bytes) {
        Ok(()) => pen.sent = pen.sent.saturating_add(bytes.len() as u64),
        Err(n) => {
            pen.sent = pen.sent.saturating_add(n);
            pen.failed = true;
        }
    }
}

/// Writes the bytes of a feed in the way that a path is printed.
pub fn put_path<W: Sink, B: Feed>(out: &mut W, pen: &mut Pen, path: B)
    ensures { Wrote (printed (B.rest path)) (on_sheet W.Sink out.old pen.old)
        (on_sheet W.Sink out.new pen.new) }
{
    let mut text = Printed::of(path);
    'pieces: loop {
        let piece = Piece::of(&mut text);
        if piece.len() == 0 {
            return;
        }
        put(out, pen, piece.bytes());
    }
}

/// Writes these bytes as a path is printed: a control byte or a backslash becomes a backslash and three octal digits.
/// If the sink fails, the error is how many printed bytes were written, or `u64::MAX` if there were more.
pub fn emit_path<W: Sink>(out: &mut W, bytes: &[u8]) -> Result<(), u64>
    ensures ok { OnOk result (Appends (W.delivered out.old) (W.delivered out.new)
        (printed bytes.now)) }
    ensures cut { IfErr result (IsCut (printed bytes.now)
        (W.delivered out.old) (W.delivered out.new)) }
    ensures fault { CountsFault (W.failures out.old) (W.failures out.new) result }
    ensures flushes { W.flushes out.new ≡ W.flushes out.old }
{
    let mut pen = Pen::new();
    put_path(out, &mut pen, SliceFeed::of(bytes));
    if pen.failed { Err(pen.sent) } else { Ok(()) }
}

/// Writes a number in decimal.
pub fn put_number<W: Sink>(out: &mut W, pen: &mut Pen, number: u64)
    ensures { Wrote (decimal number) (on_sheet W.Sink out.old pen.old)
        (on_sheet W.Sink out.new pen.new) }
{
    let mut buffer = Buffer::new();
    put(out, pen, buffer.format(number).as_bytes());
}

/// Writes the end of a line.
#[tactic(auto, unfolding(crate::specs::Layout::empty_line))]
pub fn put_newline<W: Sink>(out: &mut W, pen: &mut Pen)
    ensures { Wrote empty_line (on_sheet W.Sink out.old pen.old) (on_sheet W.Sink out.new pen.new) }
{
    put(out, pen, b"\n");
}

/// Writes these bytes and the end of the line.
pub(crate) fn put_ended<W: Sink>(out: &mut W, pen: &mut Pen, bytes: &[u8])
    ensures { Wrote (ended bytes.now) (on_sheet W.Sink out.old pen.old)
        (on_sheet W.Sink out.new pen.new) }
{
    put(out, pen, bytes);
    put_newline(out, pen);
}

/// Writes a colon and a blank.
#[tactic(auto, unfolding(crate::specs::Layout::colon_blank))]
pub(crate) fn put_colon_blank<W: Sink>(out: &mut W, pen: &mut Pen)
    ensures { Wrote colon_blank (on_sheet W.Sink out.old pen.old)
        (on_sheet W.Sink out.new pen.new) }
{
    put(out, pen, b": ");
}

/// Writes a colon, a path and the end of the line.
pub fn put_path_end<W: Sink, B: Feed>(out: &mut W, pen: &mut Pen, path: B)
    ensures { Wrote (colon_blank ++ ended (printed (B.rest path)))
        (on_sheet W.Sink out.old pen.old) (on_sheet W.Sink out.new pen.new) }
{
    put_colon_blank(out, pen);
    put_path(out, pen, path);
    put_newline(out, pen);
}
