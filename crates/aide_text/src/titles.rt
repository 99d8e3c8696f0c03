//! Writes the titles of the parts of a report.
ghost use Rattle.std.specs.Prelude.{◌≡◌, ◌++◌};
ghost use Rattle.aide_text.specs.PenSheet.{on_sheet};
ghost use Rattle.aide_text.specs.Sheet.{Wrote};
ghost use Rattle.aide_text.specs.Layout.{path_line};
ghost use Rattle.aide_text.specs.Section.{gap_of};
ghost use Rattle.aide_text.specs.Titles.{rule_before, rule_after, titled, section_head};

use crate::feed::Feed;
use crate::pen::{Pen, put, put_ended, put_path_end};
use crate::section::{Contents, Section};
use crate::sink::Sink;

#[tactic(auto, unfolding(crate::specs::Titles::rule_before))]
fn put_rule_before<W: Sink>(out: &mut W, pen: &mut Pen)
    ensures { Wrote rule_before (on_sheet W.Sink out.old pen.old)
        (on_sheet W.Sink out.new pen.new) }
{
    put(
        out,
        pen,
        b"\n---------------------------------------------------\n",
    );
}

#[tactic(auto, unfolding(crate::specs::Titles::rule_after))]
fn put_rule_after<W: Sink>(out: &mut W, pen: &mut Pen)
    ensures { Wrote rule_after (on_sheet W.Sink out.old pen.old) (on_sheet W.Sink out.new pen.new) }
{
    put(
        out,
        pen,
        b"---------------------------------------------------\n",
    );
}

/// Writes a title between two rules of hyphens.
pub fn put_titled<W: Sink>(out: &mut W, pen: &mut Pen, title: &[u8])
    ensures { Wrote (titled title.now) (on_sheet W.Sink out.old pen.old)
        (on_sheet W.Sink out.new pen.new) }
{
    put_rule_before(out, pen);
    put_ended(out, pen, title);
    put_rule_after(out, pen);
}

fn gap(contents: Contents) -> &'static [u8]
    ensures { result.now ≡ gap_of contents }
{
    match contents {
        Contents::Listed { .. } => b"\n",
        Contents::Detailed => b"",
    }
}

/// Writes the title lines of a section.
pub fn put_section_head<W: Sink>(out: &mut W, pen: &mut Pen, section: Section)
    ensures { Wrote (section_head section) (on_sheet W.Sink out.old pen.old)
        (on_sheet W.Sink out.new pen.new) }
{
    put_titled(out, pen, section.title());
    put(out, pen, gap(section.contents()));
}

/// Writes a line with a word, a colon and a path.
pub fn put_path_line<W: Sink, B: Feed>(out: &mut W, pen: &mut Pen, word: &[u8], path: B)
    ensures { Wrote (path_line word.now (B.rest path))
        (on_sheet W.Sink out.old pen.old) (on_sheet W.Sink out.new pen.new) }
{
    put(out, pen, word);
    put_path_end(out, pen, path);
}
