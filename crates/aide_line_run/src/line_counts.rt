//! The numbers of the last line: how many lines there are, and what accounts for their changes.
ghost use Rattle.std.specs.Prelude.{◌≡◌, ◌^◌};
ghost use Rattle.aide_line_run.specs.LineCounts.{line_outcome};
ghost use Rattle.aide_merge.specs.code.ChangeView.{change_of};
ghost use Rattle.aide_line_run.specs.code.LineTally.{AreLinesBelow, with_account, with_entry};
ghost use Rattle.aide_line_run.specs.code.LineTally.{with_kind};

use aide_agreement::Change;
use aide_line_text::{Account, LineCounts};
use aide_merge::{Outcome, Readings};

/// Returns counts that are all 0.
pub(crate) fn no_counts() -> LineCounts
    ensures { result ≡ record {
      total = 0;
      added = 0;
      removed = 0;
      changed = 0;
      same_as_old = 0;
      same_as_trusted = 0;
      left_out = 0;
      others = 0;
    } }
{
    LineCounts {
        total: 0,
        added: 0,
        removed: 0,
        changed: 0,
        same_as_old: 0,
        same_as_trusted: 0,
        left_out: 0,
        others: 0,
    }
}

/// Counts the line of a change.
pub(crate) fn add_kind(counts: &mut LineCounts, change: Change<'_>)
    requires { AreLinesBelow counts.old (2 ^ 63) }
    ensures { counts.new ≡ with_kind counts.old (change_of change.entry).1 }
{
    match change {
        Change::Added(_) => counts.added += 1,
        Change::Removed(_) => counts.removed += 1,
        Change::Common(_, _) => counts.changed += 1,
    }
}

/// Counts what accounts for the change of a line.
pub(crate) fn add_account(counts: &mut LineCounts, account: Option<Account>)
    requires { AreLinesBelow counts.old (2 ^ 63) }
    ensures { counts.new ≡ with_account counts.old account }
{
    match account {
        Some(Account::Old) => counts.same_as_old += 1,
        Some(Account::Trusted) => counts.same_as_trusted += 1,
        Some(Account::LeftOut(_)) => counts.left_out += 1,
        None => counts.others += 1,
    }
}

/// Counts the entry of the new database at a path, if there is one.
pub(crate) fn add_entry(counts: &mut LineCounts, change: Change<'_>)
    requires { AreLinesBelow counts.old (2 ^ 63) }
    ensures { counts.new ≡ with_entry counts.old (change_of change.entry).1 }
{
    match change {
        Change::Added(_) => counts.total += 1,
        Change::Removed(_) => {}
        Change::Common(_, _) => counts.total += 1,
    }
}

/// Returns the outcome of a run that has counted these lines.
pub(crate) fn outcome_of(counts: &LineCounts, readings: &Readings) -> Outcome
    ensures { result
        ≡ line_outcome counts.now readings.now.skipped_old readings.now.skipped_new }
{
    Outcome {
        added: counts.added,
        removed: counts.removed,
        changed: counts.changed,
        total: counts.total,
        skipped_old: readings.skipped_old,
        skipped_new: readings.skipped_new,
    }
}
