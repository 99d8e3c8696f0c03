//! What a section writes of each change.
ghost use Rattle.std.specs.Prelude.{◌≡◌};
ghost use Rattle.aide_merge.specs.code.ChangeView.{change_of};
ghost use Rattle.aide_report_specs.specs.Entries.{list_line, label_of};
ghost use Rattle.aide_merge.specs.Said.{letters_of, all_listed};
ghost use Rattle.aide_report_specs.specs.Sections.{lists, one_text};
ghost use Rattle.aide_text.specs.PenSheet.{on_sheet};
ghost use Rattle.aide_text.specs.Sheet.{Wrote};

use crate::change_writer::ChangeWriter;
use crate::details::put_details;
use aide_agreement::{Change, kind_word};
use aide_conf::Options;
use aide_merge::{letters, name_of};
use aide_text::{Contents, Pen, Sink, put, put_encoded_path_end};

/// Writes what comes before the path: the summary string, or a word.
fn put_label<W: Sink>(
    out: &mut W,
    pen: &mut Pen,
    options: &Options,
    change: Change<'_>,
    letters: &[u8; 18],
)
    requires { letters.now ≡ letters_of options.now.ignore (change_of change).1 }
    ensures { Wrote (label_of options.now (change_of change.entry).1)
        (on_sheet W.Sink out.old pen.old) (on_sheet W.Sink out.new pen.new) }
{
    if options.summarize {
        put(out, pen, letters);
    } else {
        put(out, pen, kind_word(change));
    }
}

/// The line of a change in a list.
fn put_line<W: Sink>(
    out: &mut W,
    pen: &mut Pen,
    options: &Options,
    change: Change<'_>,
    letters: &[u8; 18],
)
    requires { letters.now ≡ letters_of options.now.ignore (change_of change).1 }
    ensures { Wrote (list_line options.now (change_of change.entry))
        (on_sheet W.Sink out.old pen.old) (on_sheet W.Sink out.new pen.new) }
{
    put_label(out, pen, options, change, letters);
    put_encoded_path_end(out, pen, name_of(change));
}

/// Writes the line of an added, removed or changed entry, and nothing for any other.
fn put_listed<W: Sink>(out: &mut W, pen: &mut Pen, options: &Options, change: Change<'_>)
    ensures { Wrote (one_text options.now all_listed (change_of change.entry))
        (on_sheet W.Sink out.old pen.old) (on_sheet W.Sink out.new pen.new) }
{
    if let Some(letters) = letters(change, options) {
        put_line(out, pen, options, change, &letters);
    }
}

/// Whether a list is to have changes of this kind, if they are listed at all.
fn lists(contents: Contents, change: Change<'_>) -> bool
    ensures { result ≡ lists contents (change_of change.entry) }
{
    match contents {
        Contents::Listed {
            added,
            removed,
            changed,
        } => match change {
            Change::Added(_) => added,
            Change::Removed(_) => removed,
            Change::Common(_, _) => changed,
        },
        Contents::Detailed => false,
    }
}

/// Writes what a section says about a change, and nothing if the section does not have the change.
fn put_change<W: Sink>(
    out: &mut W,
    pen: &mut Pen,
    options: &Options,
    contents: Contents,
    change: Change<'_>,
)
    ensures { Wrote (one_text options.now contents (change_of change.entry))
        (on_sheet W.Sink out.old pen.old) (on_sheet W.Sink out.new pen.new) }
{
    if let Contents::Detailed = contents {
        put_details(out, pen, options, change);
    } else if lists(contents, change) {
        put_listed(out, pen, options, change);
    }
}

/// Writes the changes of a section.
#[derive(Clone, Copy)]
pub(crate) struct SectionWriter<'a> {
    pub(crate) options: &'a Options,
    pub(crate) contents: Contents,
}

impl<'a> ChangeWriter for SectionWriter<'a> {
    ghost use Rattle.aide_report_specs.specs.Sections.{one_text};

    ghost text_of = { λ writer. one_text writer.options.now writer.contents };

    fn put<W: Sink>(&self, out: &mut W, pen: &mut Pen, change: Change<'_>) {
        put_change(out, pen, self.options, self.contents, change);
    }

    fn skips_alike(&self) {}
}
