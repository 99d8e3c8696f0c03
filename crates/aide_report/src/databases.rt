//! The databases' part of a report.
ghost use Rattle.aide_report.specs.code.Finding.{old_origin, new_origin};
ghost use Rattle.aide_report_specs.specs.Report.{databases_of, origin_lines, databases_title};
ghost use Rattle.aide_report_specs.specs.Report.{databases_text};
ghost use Rattle.aide_text.specs.PenSheet.{on_sheet};
ghost use Rattle.aide_text.specs.Sheet.{Wrote};

use crate::finding::Finding;
use aide_attr::Level;
use aide_conf::Task;
use aide_text::{Pen, Sink, SliceFeed, put_digest, put_newline, put_path_line, put_titled};

/// A database's path and the digest of its bytes.
fn put_origin<W: Sink>(
    out: &mut W,
    pen: &mut Pen,
    base16: bool,
    word: &[u8],
    path: &str,
    digest: &[u8; 32],
)
    ensures { Wrote (origin_lines base16 word.now path.now digest.now)
        (on_sheet W.Sink out.old pen.old) (on_sheet W.Sink out.new pen.new) }
{
    put_path_line(out, pen, word, SliceFeed::of(path.as_bytes()));
    put_digest(out, pen, base16, digest);
}

fn put_databases_title<W: Sink>(out: &mut W, pen: &mut Pen)
    ensures { Wrote databases_title
        (on_sheet W.Sink out.old pen.old) (on_sheet W.Sink out.new pen.new) }
{
    put_titled(out, pen, b"The attributes of the databases:");
    put_newline(out, pen);
}

fn put_origins<W: Sink>(out: &mut W, pen: &mut Pen, task: &Task<'_>, finding: &Finding)
    ensures { Wrote (databases_of task.now.options.base16 (old_origin task.now finding.now)
        (new_origin task.now finding.now))
        (on_sheet W.Sink out.old pen.old) (on_sheet W.Sink out.new pen.new) }
{
    put_databases_title(out, pen);
    put_origin(
        out,
        pen,
        task.options.base16,
        b"Old database",
        task.old_path,
        &finding.digests.of_old,
    );
    put_origin(
        out,
        pen,
        task.options.base16,
        b"New database",
        task.new_path,
        &finding.digests.of_new,
    );
}

/// Writes the databases' part, if the level has it.
#[tactic(auto, unfolding(aide_report_specs::specs::Report::databases_text))]
pub(crate) fn put_databases<W: Sink>(out: &mut W, pen: &mut Pen, task: &Task<'_>, finding: &Finding)
    ensures { Wrote (databases_text task.now.options (old_origin task.now finding.now)
        (new_origin task.now finding.now))
        (on_sheet W.Sink out.old pen.old) (on_sheet W.Sink out.new pen.new) }
{
    if task.options.level.reaches(Level::DatabaseAttributes) {
        put_origins(out, pen, task, finding);
    }
}
