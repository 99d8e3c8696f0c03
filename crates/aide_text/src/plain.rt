//! Writes the paths that texts with escapes mean. Most bytes mean themselves and are printed as they are.
ghost use Rattle.std.specs.Prelude.{◌≡◌, ◌≤◌, ◌++◌, length};
ghost use Rattle.std.specs.List.{list_all};
ghost use Rattle.percent_encoding.specs.Percent.{percent_decode};
ghost use Rattle.aide_text.specs.PenSheet.{on_sheet};
ghost use Rattle.aide_text.specs.Layout.{colon_blank, ended, path_line};
ghost use Rattle.aide_text.specs.Printed.{printed};
ghost use Rattle.aide_text.specs.Sheet.{Wrote};
ghost use Rattle.aide_text.specs.code.Plain.{is_plain, IsPlainUpTo};

use crate::decoded::DecodedFeed;
use crate::pen::{Pen, put, put_colon_blank, put_newline, put_path};
use crate::sink::Sink;
use percent_encoding::percent_decode;

/// Returns whether a byte means itself in a text with escapes, and is printed as it is. There is no branch.
#[tactic(auto, unfolding(crate::specs::code::Plain::is_plain))]
fn is_plain(byte: u8) -> bool
    ensures { result ≡ is_plain byte }
{
    (byte >= 32) & (byte != b'%') & (byte != b'\\') & (byte != 127)
}

/// Returns whether eight bytes are plain. There is no branch for each of them.
fn are_eight_plain(bytes: &[u8; 8]) -> bool
    ensures { result ≡ list_all is_plain bytes.now }
{
    let [a, b, c, d, e, f, g, h] = *bytes;
    is_plain(a)
        & is_plain(b)
        & is_plain(c)
        & is_plain(d)
        & is_plain(e)
        & is_plain(f)
        & is_plain(g)
        & is_plain(h)
}

/// Returns how many bytes come before the first eight that are not all plain, or before the last few.
fn plain_eights(text: &[u8]) -> usize
    ensures fits { result ≤ length text.now }
    ensures plain { IsPlainUpTo text.now result }
{
    let mut rest = text;
    'eights: while let Some((eight, more)) = rest.split_first_chunk::<8>() {
        if !are_eight_plain(eight) {
            return text.len() - rest.len();
        }
        rest = more;
    }
    text.len() - rest.len()
}

/// Returns how many bytes come before the first one that is not plain.
fn few_plain(text: &[u8]) -> usize
    ensures fits { result ≤ length text.now }
    ensures plain { IsPlainUpTo text.now result }
{
    let mut len = 0;
    'bytes: while len < text.len() {
        if !is_plain(text[len]) {
            return len;
        }
        len += 1;
    }
    len
}

/// Returns how many bytes come before the first one that is not plain. The bytes are checked eight at a time.
fn plain_len(text: &[u8]) -> usize
    ensures fits { result ≤ length text.now }
    ensures plain { IsPlainUpTo text.now result }
{
    let front = plain_eights(text);
    let (_, rest) = text.split_at(front);
    front + few_plain(rest)
}

/// Writes the rest of a text with escapes as a path is printed.
fn put_rest<W: Sink>(out: &mut W, pen: &mut Pen, text: &[u8])
    ensures { Wrote (printed (percent_decode text.now)) (on_sheet W.Sink out.old pen.old)
        (on_sheet W.Sink out.new pen.new) }
{
    if !text.is_empty() {
        put_path(out, pen, DecodedFeed::of(percent_decode(text)));
    }
}

/// Writes the path that a text with escapes means. The plain bytes at its beginning are written together.
fn put_encoded_path<W: Sink>(out: &mut W, pen: &mut Pen, encoded: &[u8])
    ensures { Wrote (printed (percent_decode encoded.now)) (on_sheet W.Sink out.old pen.old)
        (on_sheet W.Sink out.new pen.new) }
{
    let (plain, rest) = encoded.split_at(plain_len(encoded));
    put(out, pen, plain);
    put_rest(out, pen, rest);
}

/// Writes a colon, the path that a text with escapes means, and the end of the line.
pub fn put_encoded_path_end<W: Sink>(out: &mut W, pen: &mut Pen, encoded: &[u8])
    ensures { Wrote (colon_blank ++ ended (printed (percent_decode encoded.now)))
        (on_sheet W.Sink out.old pen.old) (on_sheet W.Sink out.new pen.new) }
{
    put_colon_blank(out, pen);
    put_encoded_path(out, pen, encoded);
    put_newline(out, pen);
}

/// Writes a line with a word, a colon and the path that a text with escapes means.
pub fn put_encoded_path_line<W: Sink>(out: &mut W, pen: &mut Pen, word: &[u8], encoded: &[u8])
    ensures { Wrote (path_line word.now (percent_decode encoded.now))
        (on_sheet W.Sink out.old pen.old) (on_sheet W.Sink out.new pen.new) }
{
    put(out, pen, word);
    put_encoded_path_end(out, pen, encoded);
}
