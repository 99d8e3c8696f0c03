//! The line of JSON about a change.
ghost use Rattle.std.specs.Prelude.{◌≡◌, ◌^◌, [], ◌∷◌};
ghost use Rattle.aide_line_run.specs.ChangeLines.{change_line, listed_line, widest};
ghost use Rattle.aide_merge.specs.Said.{letters_of};
ghost use Rattle.aide_merge.specs.code.ChangeView.{change_of};
ghost use Rattle.aide_line_run.specs.code.LineTally.{AreLinesBelow, sum_of_counts, tally};
ghost use Rattle.aide_text.specs.PenSheet.{on_sheet};
ghost use Rattle.aide_text.specs.Sheet.{Wrote};

use crate::line_counts::{add_account, add_entry, add_kind};
use aide_agreement::Change;
use aide_attr::Level;
use aide_conf::Options;
use aide_line_text::{Account, LineCounts, Remark, put_entry_line};
use aide_merge::{letters, path_of, said_of};
use aide_text::{Pen, Sink};

/// Returns the options of the report that shows most.
fn widest(options: &Options) -> Options
    ensures { result ≡ widest options.now }
{
    let mut widest = *options;
    widest.level = Level::AddedRemovedEntries;
    widest
}

/// The line of a change.
fn put_change_line<W: Sink>(
    out: &mut W,
    pen: &mut Pen,
    options: &Options,
    change: Change<'_>,
    letters: &[u8; 18],
    account: Option<Account>,
)
    requires { letters.now ≡ letters_of options.now.ignore (change_of change).1 }
    ensures { Wrote (change_line options.now (λ any. account) (change_of change.entry))
        (on_sheet W.Sink out.old pen.old) (on_sheet W.Sink out.new pen.new) }
{
    let (shown, _) = said_of(change, &widest(options));
    let remark = Remark {
        letters,
        account,
        shown,
    };
    put_entry_line(out, pen, path_of(change), remark, change);
}

/// Writes the line of a change for which this accounts if it is an added, removed or changed entry, and counts it.
pub(crate) fn put_counted<W: Sink>(
    out: &mut W,
    pen: &mut Pen,
    counts: &mut LineCounts,
    options: &Options,
    change: Change<'_>,
    account: Option<Account>,
)
    requires { AreLinesBelow counts.old (2 ^ 62) }
    ensures counted { counts.new ≡ sum_of_counts counts.old
        (tally options.now (λ any. account) (change_of change.entry ∷ [])) }
    ensures wrote { Wrote (listed_line options.now (λ any. account) (change_of change.entry))
        (on_sheet W.Sink out.old pen.old) (on_sheet W.Sink out.new pen.new) }
{
    add_entry(counts, change);
    if let Some(letters) = letters(change, options) {
        put_change_line(out, pen, options, change, &letters, account);
        add_kind(counts, change);
        add_account(counts, account);
    }
}
