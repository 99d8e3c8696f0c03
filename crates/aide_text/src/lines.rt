//! Writes lines of padded and cut text.
ghost use Rattle.std.specs.Prelude.{◌≡◌, ◌≤◌, length, replicate, take, drop, if◌then◌else◌, []};
ghost use Rattle.aide_text.specs.PenSheet.{on_sheet};
ghost use Rattle.aide_text.specs.Sheet.{Wrote};
ghost use Rattle.aide_text.specs.Layout.{padded, margin, indent, heading, single_line, alone};
ghost use Rattle.aide_text.specs.Layout.{pair_body, pair_line, next_line, has_lines, side_by_side};
ghost use Rattle.aide_text.specs.code.PieceText.{piece_text};

use crate::columns::{blank_line, lay_name, lay_pair};
use crate::feed::Feed;
use crate::pen::{Pen, put, put_colon_blank, put_ended};
use crate::piece::Piece;
use crate::sink::Sink;

const BLANKS: [u8; 32] = [b' '; 32];

/// Returns this many blanks.
fn blanks(count: usize) -> &'static [u8]
    requires { count ≤ 32 }
    ensures { result.now ≡ replicate count 32 }
{
    &BLANKS[..count]
}

/// Writes a text, aligned to the left and padded with blanks to a width.
fn put_padded<W: Sink>(out: &mut W, pen: &mut Pen, width: usize, text: &[u8])
    requires { width ≤ 32 }
    ensures { Wrote (padded width text.now) (on_sheet W.Sink out.old pen.old)
        (on_sheet W.Sink out.new pen.new) }
{
    put(out, pen, text);
    put(out, pen, blanks(width.saturating_sub(text.len())));
}

#[tactic(auto, unfolding(crate::specs::Layout::margin))]
fn put_margin<W: Sink>(out: &mut W, pen: &mut Pen)
    ensures { Wrote margin (on_sheet W.Sink out.old pen.old) (on_sheet W.Sink out.new pen.new) }
{
    put(out, pen, b"              ");
}

#[tactic(auto, unfolding(crate::specs::Layout::indent))]
fn put_indent<W: Sink>(out: &mut W, pen: &mut Pen)
    ensures { Wrote indent (on_sheet W.Sink out.old pen.old) (on_sheet W.Sink out.new pen.new) }
{
    put(out, pen, b"  ");
}

/// Writes the head of a line: a name, aligned to the left in ten columns.
fn put_heading<W: Sink>(out: &mut W, pen: &mut Pen, name: &[u8])
    ensures { Wrote (heading name.now) (on_sheet W.Sink out.old pen.old)
        (on_sheet W.Sink out.new pen.new) }
{
    put_indent(out, pen);
    put_padded(out, pen, 10, name);
    put_colon_blank(out, pen);
}

/// Returns the first 32 bytes, or all if there are fewer.
fn piece(text: &[u8]) -> &[u8]
    ensures { result.now ≡ take 32 text.now }
{
    if text.len() < 32 { text } else { &text[..32] }
}

/// Returns the bytes after the first 32.
fn behind(text: &[u8]) -> &[u8]
    ensures { result.now ≡ drop 32 text.now }
{
    if text.len() < 32 { &[] } else { &text[32..] }
}

fn put_first<W: Sink>(out: &mut W, pen: &mut Pen, name: &[u8], text: &[u8])
    ensures { Wrote (single_line (heading name.now) (take 32 text.now))
        (on_sheet W.Sink out.old pen.old) (on_sheet W.Sink out.new pen.new) }
{
    put_heading(out, pen, name);
    put_ended(out, pen, piece(text));
}

fn put_more<W: Sink>(out: &mut W, pen: &mut Pen, text: &[u8])
    ensures { Wrote (single_line margin (take 32 text.now))
        (on_sheet W.Sink out.old pen.old) (on_sheet W.Sink out.new pen.new) }
{
    put_margin(out, pen);
    put_ended(out, pen, piece(text));
}

/// Writes a text, cut into pieces of 32 bytes, next to a name.
pub(crate) fn put_alone<W: Sink>(out: &mut W, pen: &mut Pen, name: &[u8], text: &[u8])
    ensures { Wrote (alone name.now text.now)
        (on_sheet W.Sink out.old pen.old) (on_sheet W.Sink out.new pen.new) }
{
    put_first(out, pen, name, text);
    let mut rest = behind(text);
    'lines: while !rest.is_empty() {
        put_more(out, pen, rest);
        rest = behind(rest);
    }
}

/// Writes what follows the head of a line: a piece of each text.
fn put_pair<W: Sink>(out: &mut W, pen: &mut Pen, old_piece: &[u8], new_piece: &[u8])
    requires old_short { length old_piece.now ≤ 32 }
    requires new_short { length new_piece.now ≤ 32 }
    ensures { Wrote (pair_body old_piece.now new_piece.now)
        (on_sheet W.Sink out.old pen.old) (on_sheet W.Sink out.new pen.new) }
{
    let mut line = blank_line();
    let len = lay_pair(&mut line, old_piece, new_piece);
    put(out, pen, &line[14..len]);
}

/// Writes a line that begins with a name.
fn put_first_line<W: Sink>(
    out: &mut W,
    pen: &mut Pen,
    name: &[u8],
    old_piece: &[u8],
    new_piece: &[u8],
)
    requires old_short { length old_piece.now ≤ 32 }
    requires new_short { length new_piece.now ≤ 32 }
    ensures { Wrote (pair_line (heading name.now) old_piece.now new_piece.now)
        (on_sheet W.Sink out.old pen.old) (on_sheet W.Sink out.new pen.new) }
{
    if name.len() > 10 {
        put_heading(out, pen, name);
        put_pair(out, pen, old_piece, new_piece);
        return;
    }
    let mut line = blank_line();
    lay_name(&mut line, name);
    let len = lay_pair(&mut line, old_piece, new_piece);
    put(out, pen, &line[..len]);
}

/// Writes a line that begins with blanks.
fn put_more_line<W: Sink>(out: &mut W, pen: &mut Pen, old_piece: &[u8], new_piece: &[u8])
    requires old_short { length old_piece.now ≤ 32 }
    requires new_short { length new_piece.now ≤ 32 }
    ensures { Wrote (pair_line margin old_piece.now new_piece.now)
        (on_sheet W.Sink out.old pen.old) (on_sheet W.Sink out.new pen.new) }
{
    let mut line = blank_line();
    let len = lay_pair(&mut line, old_piece, new_piece);
    put(out, pen, &line[..len]);
}

/// Returns whether either piece has a byte.
fn has_more(old_piece: &Piece, new_piece: &Piece) -> bool
    ensures { result ≡ has_lines (piece_text old_piece.now) (piece_text new_piece.now) }
{
    old_piece.len() + new_piece.len() != 0
}

/// Writes the first line: the name, and the first piece of each text.
fn put_name_line<W: Sink, B: Feed, C: Feed>(
    out: &mut W,
    pen: &mut Pen,
    name: &[u8],
    old_text: &mut B,
    new_text: &mut C,
)
    ensures wrote { Wrote (pair_line (heading name.now) (take 32 (B.rest old_text.old))
        (take 32 (C.rest new_text.old)))
        (on_sheet W.Sink out.old pen.old) (on_sheet W.Sink out.new pen.new) }
    ensures old_rest { B.rest old_text.new ≡ drop 32 (B.rest old_text.old) }
    ensures new_rest { C.rest new_text.new ≡ drop 32 (C.rest new_text.old) }
{
    let old_piece = Piece::of(old_text);
    let new_piece = Piece::of(new_text);
    put_first_line(out, pen, name, old_piece.bytes(), new_piece.bytes());
}

fn put_pieces<W: Sink>(out: &mut W, pen: &mut Pen, more: bool, old_piece: &Piece, new_piece: &Piece)
    ensures { Wrote (if more
        then pair_line margin (piece_text old_piece.now) (piece_text new_piece.now) else [])
        (on_sheet W.Sink out.old pen.old) (on_sheet W.Sink out.new pen.new) }
{
    if more {
        put_more_line(out, pen, old_piece.bytes(), new_piece.bytes());
    }
}

/// Writes the next line below the first, if either text has more bytes. Returns whether there was such a line.
fn put_next_line<W: Sink, B: Feed, C: Feed>(
    out: &mut W,
    pen: &mut Pen,
    old_text: &mut B,
    new_text: &mut C,
) -> bool
    ensures wrote { Wrote (next_line (B.rest old_text.old) (C.rest new_text.old))
        (on_sheet W.Sink out.old pen.old) (on_sheet W.Sink out.new pen.new) }
    ensures old_rest { B.rest old_text.new ≡ drop 32 (B.rest old_text.old) }
    ensures new_rest { C.rest new_text.new ≡ drop 32 (C.rest new_text.old) }
    ensures more { result ≡ has_lines (B.rest old_text.old) (C.rest new_text.old) }
{
    let old_piece = Piece::of(old_text);
    let new_piece = Piece::of(new_text);
    let more = has_more(&old_piece, &new_piece);
    put_pieces(out, pen, more, &old_piece, &new_piece);
    more
}

/// Writes two texts side by side, cut into pieces of 32 bytes, next to a name. There are as many lines as the longer
/// text has pieces, and at least one. The columns of the first line are those of the others if the name has at most ten
/// bytes.
pub fn put_side_by_side<W: Sink, B: Feed, C: Feed>(
    out: &mut W,
    pen: &mut Pen,
    name: &[u8],
    mut old_text: B,
    mut new_text: C,
)
    ensures { Wrote (side_by_side name.now (B.rest old_text) (C.rest new_text))
        (on_sheet W.Sink out.old pen.old) (on_sheet W.Sink out.new pen.new) }
{
    put_name_line(out, pen, name, &mut old_text, &mut new_text);
    'lines: loop {
        let more = put_next_line(out, pen, &mut old_text, &mut new_text);
        if !more {
            return;
        }
    }
}

/// Returns whether either text has a byte left.
fn has_rest(old_rest: &[u8], new_rest: &[u8]) -> bool
    ensures { result ≡ has_lines old_rest.now new_rest.now }
{
    !old_rest.is_empty() || !new_rest.is_empty()
}

/// Writes two texts side by side, as `put_side_by_side` does, without handing out their bytes.
pub fn put_texts_side_by_side<W: Sink>(
    out: &mut W,
    pen: &mut Pen,
    name: &[u8],
    old_text: &[u8],
    new_text: &[u8],
)
    ensures { Wrote (side_by_side name.now old_text.now new_text.now)
        (on_sheet W.Sink out.old pen.old) (on_sheet W.Sink out.new pen.new) }
{
    put_first_line(out, pen, name, piece(old_text), piece(new_text));
    let mut old_rest = behind(old_text);
    let mut new_rest = behind(new_text);
    'lines: while has_rest(old_rest, new_rest) {
        put_more_line(out, pen, piece(old_rest), piece(new_rest));
        old_rest = behind(old_rest);
        new_rest = behind(new_rest);
    }
}
