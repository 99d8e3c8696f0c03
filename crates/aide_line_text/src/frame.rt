//! Writes the first and the last line of lines that are written while the databases are read.
ghost use Rattle.std.specs.Prelude.{◌∷◌, codes};
ghost use Rattle.aide_json.specs.Value.{print, print_member, text_member};
ghost use Rattle.aide_line_text.specs.Frame.{closing_line, list_member};
ghost use Rattle.aide_line_text.specs.Frame.{opening_line, read_object};
ghost use Rattle.aide_line_text.specs.ReadView.{facts_read};
ghost use Rattle.aide_text.specs.PenSheet.{on_sheet};
ghost use Rattle.aide_text.specs.Sheet.{Wrote};

use crate::counts::LineCounts;
use crate::ends::{put_accounts, put_counts};
use crate::skipped::put_skipped;
use aide_json::{
    put_count_member, put_digest_member, put_literal_member, put_name, put_text_member,
};
use aide_text::{Pen, Sink, SliceFeed, put};

/// What is known of one database at its end.
#[derive(Clone, Copy)]
pub struct Read<'a> {
    /// The SHA-256 of the bytes.
    pub digest: &'a [u8; 32],
    /// Bit c - 1 for each column c that was skipped, counted from 1.
    pub skipped: u64,
}

/// What is known of both databases of a pair at their ends.
#[derive(Clone, Copy)]
pub struct ReadPair<'a> {
    pub old: Read<'a>,
    pub new: Read<'a>,
}

/// What is known of two databases at their ends, of a trusted pair, and of a list.
#[derive(Clone, Copy)]
pub struct ReadFour<'a> {
    /// The pair that is compared.
    pub compared: ReadPair<'a>,
    /// The trusted pair.
    pub trusted: ReadPair<'a>,
    /// The SHA-256 of the list that says what is left out.
    pub list: &'a [u8; 32],
}

/// Writes what is known of one database at its end.
fn put_read<W: Sink>(out: &mut W, pen: &mut Pen, read: &Read<'_>)
    ensures { Wrote (print (read_object (facts_read read.now)))
        (on_sheet W.Sink out.old pen.old) (on_sheet W.Sink out.new pen.new) }
{
    let digest = read.digest;
    put(out, pen, b"{");
    put_digest_member(out, pen, b"sha256", digest);
    put(out, pen, b",");
    put_name(out, pen, b"skipped");
    put_skipped(out, pen, read.skipped);
    put(out, pen, b"}");
}

/// Writes a path with this name, after another member.
fn put_path_behind<W: Sink>(out: &mut W, pen: &mut Pen, name: &[u8], path: &[u8])
    ensures { Wrote (44 ∷ print_member (text_member name.now path.now))
        (on_sheet W.Sink out.old pen.old) (on_sheet W.Sink out.new pen.new) }
{
    put(out, pen, b",");
    put_text_member(out, pen, name, SliceFeed::of(path));
}

/// Writes the first line.
pub fn put_opening_line<W: Sink>(
    out: &mut W,
    pen: &mut Pen,
    old_path: &[u8],
    new_path: &[u8],
    trusted_old: &[u8],
    trusted_new: &[u8],
)
    ensures { Wrote (opening_line old_path.now new_path.now trusted_old.now trusted_new.now)
        (on_sheet W.Sink out.old pen.old) (on_sheet W.Sink out.new pen.new) }
{
    put(out, pen, b"{");
    put_count_member(out, pen, b"format", 4);
    put_path_behind(out, pen, b"old", old_path);
    put_path_behind(out, pen, b"new", new_path);
    put_path_behind(out, pen, b"trusted_old", trusted_old);
    put_path_behind(out, pen, b"trusted_new", trusted_new);
    put(out, pen, b"}\n");
}

/// Writes what is known of a database with this name, after another member.
fn put_read_behind<W: Sink>(out: &mut W, pen: &mut Pen, name: &[u8], read: &Read<'_>)
    ensures { Wrote (44 ∷ print_member (name.now, read_object (facts_read read.now)))
        (on_sheet W.Sink out.old pen.old) (on_sheet W.Sink out.new pen.new) }
{
    put(out, pen, b",");
    put_name(out, pen, name);
    put_read(out, pen, read);
}

/// Writes the SHA-256 of a list.
fn put_list<W: Sink>(out: &mut W, pen: &mut Pen, digest: &[u8; 32])
    ensures { Wrote (print_member (list_member digest.now))
        (on_sheet W.Sink out.old pen.old) (on_sheet W.Sink out.new pen.new) }
{
    put_name(out, pen, b"list");
    put(out, pen, b"{");
    put_digest_member(out, pen, b"sha256", digest);
    put(out, pen, b"}");
}

/// Writes the last line.
pub fn put_closing_line<W: Sink>(
    out: &mut W,
    pen: &mut Pen,
    read: &ReadFour<'_>,
    counts: &LineCounts,
    status: u8,
)
    ensures { Wrote (closing_line
        (facts_read read.now.compared.old) (facts_read read.now.compared.new)
        (facts_read read.now.trusted.old) (facts_read read.now.trusted.new)
        read.now.list.now counts.now status)
        (on_sheet W.Sink out.old pen.old) (on_sheet W.Sink out.new pen.new) }
{
    put(out, pen, b"{");
    put_literal_member(out, pen, b"end", b"true");
    put_read_behind(out, pen, b"old", &read.compared.old);
    put_read_behind(out, pen, b"new", &read.compared.new);
    put_read_behind(out, pen, b"trusted_old", &read.trusted.old);
    put_read_behind(out, pen, b"trusted_new", &read.trusted.new);
    put(out, pen, b",");
    put_counts(out, pen, counts);
    put(out, pen, b",");
    put_accounts(out, pen, counts);
    put(out, pen, b",");
    put_list(out, pen, read.list);
    put(out, pen, b",");
    put_count_member(out, pen, b"status", status as u128);
    put(out, pen, b"}\n");
}
