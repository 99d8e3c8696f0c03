//! Writes the line of a path.
ghost use Rattle.std.specs.Prelude.{◌≡◌, ◌∷◌, ◌++◌, [], Some, codes};
ghost use Rattle.aide_agreement.specs.ChangeView.{found_in};
ghost use Rattle.aide_attr.specs.Set.{has};
ghost use Rattle.aide_entry.specs.View.{entry_in};
ghost use Rattle.aide_json.specs.Value.{print_member};
ghost use Rattle.aide_line_text.specs.Entry.{account_member, entry_line, entry_member};
ghost use Rattle.aide_line_text.specs.Entry.{type_member};
ghost use Rattle.aide_line_text.specs.code.Parts.{any_behind, entries_behind, entry_head};
ghost use Rattle.aide_text.specs.PenSheet.{on_sheet};
ghost use Rattle.aide_text.specs.Sheet.{Wrote};

use crate::account::Account;
use crate::attribute::put_type;
use crate::side::put_entry;
use aide_agreement::{Change, kind_word, type_at};
use aide_attr::{AttrSet, FileType};
use aide_entry::View;
use aide_json::{put_count_member, put_name, put_text_member, put_word_member};
use aide_text::{Feed, Pen, Sink, put};

/// Writes the beginning of a line: what became of the path, the path, and the summary string.
fn put_head<W: Sink, B: Feed + Copy>(
    out: &mut W,
    pen: &mut Pen,
    word: &[u8],
    path: B,
    letters: &[u8],
)
    ensures { Wrote (entry_head word.now (B.rest path) letters.now)
        (on_sheet W.Sink out.old pen.old) (on_sheet W.Sink out.new pen.new) }
{
    put(out, pen, b"{");
    put_word_member(out, pen, b"kind", word);
    put(out, pen, b",");
    put_text_member(out, pen, b"path", path);
    put(out, pen, b",");
    put_word_member(out, pen, b"summary", letters);
}

/// Writes what accounts for the change.
fn put_account<W: Sink>(out: &mut W, pen: &mut Pen, account: Account)
    ensures { Wrote (print_member (account_member account))
        (on_sheet W.Sink out.old pen.old) (on_sheet W.Sink out.new pen.new) }
{
    match account {
        Account::Old => put_word_member(out, pen, b"same_as", b"old"),
        Account::Trusted => put_word_member(out, pen, b"same_as", b"trusted"),
        Account::LeftOut(line) => put_count_member(out, pen, b"left_out", line as u128),
    }
}

fn put_account_behind<W: Sink>(out: &mut W, pen: &mut Pen, account: Option<Account>)
    ensures { Wrote (any_behind account_member account)
        (on_sheet W.Sink out.old pen.old) (on_sheet W.Sink out.new pen.new) }
{
    if let Some(account) = account {
        put(out, pen, b",");
        put_account(out, pen, account);
    }
}

fn put_type_behind<W: Sink>(out: &mut W, pen: &mut Pen, kind: Option<FileType>)
    ensures { Wrote (any_behind type_member kind)
        (on_sheet W.Sink out.old pen.old) (on_sheet W.Sink out.new pen.new) }
{
    if let Some(kind) = kind {
        put(out, pen, b",");
        put_type(out, pen, b"type", kind);
    }
}

fn put_entry_behind<W: Sink>(
    out: &mut W,
    pen: &mut Pen,
    name: &[u8],
    view: &View<'_>,
    shown: AttrSet,
)
    ensures { Wrote (any_behind (entry_member name.now (has shown)) (Some (entry_in view.now).1))
        (on_sheet W.Sink out.old pen.old) (on_sheet W.Sink out.new pen.new) }
{
    put(out, pen, b",");
    put_name(out, pen, name);
    put_entry(out, pen, view, shown);
}

fn put_entries<W: Sink>(out: &mut W, pen: &mut Pen, change: Change<'_>, shown: AttrSet)
    ensures { Wrote (entries_behind (has shown) (found_in change.entry))
        (on_sheet W.Sink out.old pen.old) (on_sheet W.Sink out.new pen.new) }
{
    match change {
        Change::Added(new) => put_entry_behind(out, pen, b"new", &new, shown),
        Change::Removed(old) => put_entry_behind(out, pen, b"old", &old, shown),
        Change::Common(old, new) => {
            put_entry_behind(out, pen, b"old", &old, shown);
            put_entry_behind(out, pen, b"new", &new, shown);
        }
    }
}

/// What a line says about its path apart from what the databases have there.
#[derive(Clone, Copy)]
pub struct Remark<'a> {
    /// The summary string.
    pub letters: &'a [u8],
    /// What accounts for the change, if anything does.
    pub account: Option<Account>,
    /// The attributes that are shown.
    pub shown: AttrSet,
}

/// Writes the line of a path.
pub fn put_entry_line<W: Sink, B: Feed + Copy>(
    out: &mut W,
    pen: &mut Pen,
    path: B,
    remark: Remark<'_>,
    change: Change<'_>,
)
    ensures { Wrote (entry_line (B.rest path) remark.entry.letters.now remark.entry.account
        (has remark.entry.shown) (found_in change.entry))
        (on_sheet W.Sink out.old pen.old) (on_sheet W.Sink out.new pen.new) }
{
    put_head(out, pen, kind_word(change), path, remark.letters);
    put_account_behind(out, pen, remark.account);
    put_type_behind(out, pen, type_at(change));
    put_entries(out, pen, change, remark.shown);
    put(out, pen, b"}\n");
}
