//! A trusted pair of databases, read together with the pair that is compared.
ghost use Rattle.std.specs.Prelude.{◌≡◌, ℕ, List, IfErr, OnOk};
ghost use Rattle.aide_merge.specs.code.ChangeView.{change_of};
ghost use Rattle.aide_merge.specs.code.MergeCalls.{IsMergeFault, KeepsMerge};
ghost use Rattle.aide_merge.specs.code.Merging.{IsNotDue, IsReady, IsWithinLimits, remaining};
ghost use Rattle.aide_merge.specs.code.Settling.{IsStopped};
ghost use Rattle.aide_agreement.specs.Account.{same_as};
ghost use Rattle.aide_agreement.specs.Found.{found};
ghost use Rattle.aide_line_run.specs.code.Calls.{IsSought};
ghost use Rattle.aide_line_run.specs.ListView.{list_read, measures_at};
ghost use Rattle.aide_line_run.specs.Listed.{account_by, left_by};
ghost use Rattle.aide_line_run.specs.Sought.{found_at};

use crate::change::{entries_of, is_at, is_before};
use crate::list::{LeftOutList, line_of};
use aide_agreement::{Change, SameAs, same_as};
use aide_db::{DbFault, Desk, Reel, View};
use aide_line_text::{Account, account_as};
use aide_merge::Merge;
use std::alloc::Allocator;

/// Brings the merge of the trusted pair to the first path that is not before that of a change.
pub(crate) fn seek<R: Reel, A: Allocator + Copy>(
    merge: &mut Merge<R>,
    desk: &mut Desk<A>,
    change: Change<'_>,
) -> Result<(), DbFault>
    requires ready { IsReady merge.old desk.old }
    requires within { IsWithinLimits merge.old }
    ensures keeps { KeepsMerge R.Reel merge.old merge.new desk.old desk.new }
    ensures sought { OnOk result (IsSought R.Reel (change_of change.entry).0
        merge.old merge.new desk.old desk.new) }
    ensures fault { IfErr result (IsMergeFault R.Reel merge.old merge.new desk.old) }
    ensures stopped { IfErr result (IsStopped R.Reel merge.new) }
{
    'seek: loop {
        if let Err(fault) = merge.read_due(desk) {
            return Err(fault);
        }
        match merge.peek(desk) {
            None => return Ok(()),
            Some(trusted) => {
                if !is_before(trusted, change) {
                    return Ok(());
                }
                merge.pass_on(trusted, desk);
            }
        }
    }
}

/// What the trusted pair has at the path of a change, once its merge has come there.
fn found_at<'d, R: Reel, A: Allocator + Copy>(
    merge: &Merge<R>,
    desk: &'d Desk<A>,
    change: Change<'_>,
) -> (Option<View<'d>>, Option<View<'d>>)
    requires ready { IsReady merge.now desk.now }
    requires not_due { IsNotDue merge.now }
    ensures { (old new : List ℕ) → (found result.0, found result.1)
        ≡ found_at (change_of change.entry).0 (remaining merge.now desk.now old new) }
{
    match merge.peek(desk) {
        None => (None, None),
        Some(trusted) => {
            if is_at(trusted, change) {
                return entries_of(trusted);
            }
            (None, None)
        }
    }
}

/// Returns the entry that accounts for a change, once the merge of the trusted pair has come to its path.
fn same_of<R: Reel, A: Allocator + Copy>(
    merge: &Merge<R>,
    desk: &Desk<A>,
    change: Change<'_>,
) -> Option<SameAs>
    requires ready { IsReady merge.now desk.now }
    requires not_due { IsNotDue merge.now }
    ensures { (old new : List ℕ) → result ≡ same_as (change_of change.entry).1
        (found_at (change_of change.entry).0 (remaining merge.now desk.now old new)) }
{
    let (old, new) = entries_of(change);
    let (trusted_old, trusted_new) = found_at(merge, desk, change);
    same_as(old, new, trusted_old, trusted_new)
}

/// Returns what accounts for a change, once the merge of the trusted pair has come to its path. The list is asked last.
pub(crate) fn account_of<R: Reel, A: Allocator + Copy>(
    compared: &Merge<R>,
    trusted: &Merge<R>,
    trusted_desk: &Desk<A>,
    list: LeftOutList<'_>,
    change: Change<'_>,
    room: &mut [u8; 3839],
) -> Option<Account>
    requires ready { IsReady trusted.now trusted_desk.now }
    requires not_due { IsNotDue trusted.now }
    ensures { (old new : List ℕ) → result ≡ account_by (same_as (change_of change.entry).1
        (found_at (change_of change.entry).0
        (remaining trusted.now trusted_desk.now old new)))
        (left_by (list_read list.entry) (measures_at compared.now)
        (change_of change.entry)) }
{
    let same = same_of(trusted, trusted_desk, change);
    match same {
        Some(_) => account_as(same),
        None => match line_of(list, compared, change, room) {
            Some(line) => Some(Account::LeftOut(line)),
            None => None,
        },
    }
}
