//! How many entries were added, removed and changed.
ghost use Rattle.std.specs.Prelude.{◌≡◌, ◌+◌, ◌^◌, ◌<◌, [], ◌∷◌, ℕ, List, IfOk, IfErr, OnOk};
ghost use Rattle.std.specs.Prelude.{count_by};
ghost use Rattle.aide_merge.specs.code.ChangeView.{change_of};
ghost use Rattle.aide_merge.specs.Changed.{differ_by};
ghost use Rattle.aide_merge.specs.Changes.{is_added, is_removed, is_changed, is_of_new};
ghost use Rattle.aide_report.specs.code.Counts.{Completes, AreBelow};
ghost use Rattle.aide_merge.specs.Said.{is_shown_entry, shows_any};
ghost use Rattle.aide_merge.specs.code.MergeCalls.{IsMergeFault, KeepsMerge};
ghost use Rattle.aide_merge.specs.code.Merging.{remaining, IsReady, IsEnded, StandsAt, total_work};

use aide_agreement::Change;
use aide_conf::Options;
use aide_db::{DbFault, Desk, Reel, Side};
use aide_merge::{AtPath, Merge, said_of};
use aide_text::Counts;
use std::alloc::Allocator;

/// Counts a change.
fn add(counts: &mut Counts, change: Change<'_>, options: &Options)
    requires { AreBelow counts.old (2 ^ 63) }
    ensures added { counts.new.added ≡ counts.old.added + count_by is_added
        (change_of change.entry ∷ []) }
    ensures removed { counts.new.removed ≡ counts.old.removed + count_by is_removed
        (change_of change.entry ∷ []) }
    ensures changed { counts.new.changed ≡ counts.old.changed + count_by
        (is_changed (differ_by options.now.ignore)) (change_of change.entry ∷ []) }
    ensures total { counts.new.total ≡ counts.old.total + count_by is_of_new
        (change_of change.entry ∷ []) }
    ensures shown { counts.new.shown ≡ counts.old.shown + count_by (is_shown_entry options.now)
        (change_of change.entry ∷ []) }
{
    let (shown, changed) = counts_as(change, options);
    if shown {
        counts.shown += 1;
    }
    if changed {
        counts.changed += 1;
    }
    match change {
        Change::Added(_) => {
            counts.added += 1;
            counts.total += 1;
        }
        Change::Removed(_) => counts.removed += 1,
        Change::Common(_, _) => counts.total += 1,
    }
}

/// The counting pass: over both databases, to their ends.
pub(crate) fn count<R: Reel, A: Allocator + Copy>(
    merge: &mut Merge<R>,
    desk: &mut Desk<A>,
    options: &Options,
) -> Result<Counts, DbFault>
    requires ready { IsReady merge.old desk.old }
    requires short { total_work merge.old < 2 ^ 62 }
    ensures keeps { KeepsMerge R.Reel merge.old merge.new desk.old desk.new }
    ensures counts { IfOk result (λ counts. (old new : List ℕ)
        → StandsAt R.to_come merge.old desk.old Side.Old old
        → StandsAt R.to_come merge.old desk.old Side.New new
        → Completes options.now counts [] (remaining merge.old desk.old old new)) }
    ensures ended { OnOk result (IsEnded merge.new) }
    ensures fault { IfErr result (IsMergeFault R.Reel merge.old merge.new desk.old) }
{
    let mut counts = Counts::new();
    'pass: loop {
        if let Err(fault) = merge.read_due(desk) {
            return Err(fault);
        }
        match merge.next(desk) {
            AtPath::Differs(change) => add(&mut counts, change, options),
            AtPath::Alike => counts.total += 1,
            AtPath::End => return Ok(counts),
        }
    }
}

/// Whether the details of a change show an attribute, and whether it is a changed entry.
pub(crate) fn counts_as(change: Change<'_>, options: &Options) -> (bool, bool)
    ensures shown { result.0 ≡ shows_any options.now (change_of change.entry).1 }
    ensures changed { result.1 ≡ is_changed (differ_by options.now.ignore)
        (change_of change.entry) }
{
    let (shown, changed) = said_of(change, options);
    (!shown.is_empty(), changed)
}
