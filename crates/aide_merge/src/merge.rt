//! Two databases read in lock step: one path after another, in path order.
ghost use Rattle.std.specs.Prelude.{◌≡◌, ◌∷◌, [], ℕ, IfOk, IfErr, List, OnOk, Option};
ghost use Rattle.aide_fields.specs.Attributes.{Attributes};
ghost use Rattle.aide_entry.specs.Columns.{has_column};
ghost use Rattle.aide_fields.specs.Path.{path_cmp};
ghost use Rattle.aide_entry.specs.View.{Shows, entry_in};
ghost use Rattle.aide_db.specs.Desk.{desk_entry};
ghost use Rattle.aide_db.specs.Kept.{IsKept};
ghost use Rattle.aide_db.specs.Side.{other_side};
ghost use Rattle.aide_merge.specs.Compare.{Change as Sided};
ghost use Rattle.aide_merge.specs.code.ChangeView.{change_of, ShowsPath};
ghost use Rattle.aide_merge.specs.code.MergeCalls.{HasRead, IsAdvanced, IsCursorFault};
ghost use Rattle.aide_merge.specs.code.MergeCalls.{IsMergeFault, IsOpened, IsStep, KeepsCursor};
ghost use Rattle.aide_merge.specs.code.MergeCalls.{KeepsMerge};
ghost use Rattle.aide_merge.specs.code.Merging.{IsNotDue, IsReady};
ghost use Rattle.aide_merge.specs.code.Upcoming.{IsPassedOn, ShowsNext, upcoming};
ghost use Rattle.aide_merge.specs.code.NextEntry.{next_entry};
ghost use Rattle.aide_merge.specs.code.Settling.{IsStopped};
ghost use Rattle.aide_merge.specs.code.NextPath.{change_by, next_change, old_after, new_after};
ghost use Rattle.aide_merge.specs.code.Desks.{KeepsDesk, ClearsSide};
ghost use Rattle.aide_merge.specs.code.Starts.{GivesBoth, GivesSide, IsStarted};
ghost use Rattle.aide_merge.specs.Seen.{AreLimits};
ghost use Rattle.aide_merge.specs.Standing.{IsUnfailed};

use crate::change::AtPath;
use aide_agreement::Change;
use aide_attr::Attr;
use aide_db::{Cursor, DbFault, Desk, Limits, Reel, Side, Step, View, cmp_names};
use std::alloc::Allocator;
use std::cmp::Ordering;

/// How far a side has come: its next entry has to be read, is on the desk and not passed on yet, or there is none.
#[derive(Clone, Copy)]
pub(crate) enum NextEntry {
    Due,
    Here,
    Ended,
}

/// Two cursors, and how far each side has come.
pub struct Merge<R: Reel> {
    pub(crate) old_cursor: Cursor<R>,
    pub(crate) new_cursor: Cursor<R>,
    old_next: NextEntry,
    new_next: NextEntry,
}

/// Begins to read a side from its reel.
pub fn start_cursor<R: Reel, A: Allocator + Copy>(
    side: Side,
    reel: R,
    limits: Limits,
    desk: &mut Desk<A>,
) -> Cursor<R>
    requires { AreLimits limits }
    ensures started { (bytes_of : Side → Option (List ℕ)) → GivesSide R.to_come bytes_of side reel
        → IsStarted R.Reel limits bytes_of side result desk.new }
    ensures desk { ClearsSide side desk.old desk.new }
{
    Cursor::start(side, reel, limits, desk)
}

impl<R: Reel> Merge<R> {
    /// Begins to read both sides from their reels.
    #[inline(never)]
    pub fn start<A: Allocator + Copy>(
        old_reel: R,
        new_reel: R,
        limits: Limits,
        desk: &mut Desk<A>,
    ) -> Merge<R>
        requires { AreLimits limits }
        ensures opened { (bytes_of : Side → Option (List ℕ))
            → GivesBoth R.to_come bytes_of old_reel new_reel
            → IsOpened R.Reel limits bytes_of result desk.new }
        ensures desk { (bytes_of : Side → Option (List ℕ))
            → KeepsDesk limits bytes_of desk.old desk.new }
    {
        Merge {
            old_cursor: start_cursor(Side::Old, old_reel, limits, desk),
            new_cursor: start_cursor(Side::New, new_reel, limits, desk),
            old_next: NextEntry::Due,
            new_next: NextEntry::Due,
        }
    }

    /// Returns whether an attribute has a column in the old and in the new database, as far as they were read.
    pub fn have_column(&self, attr: Attr) -> (bool, bool)
        ensures { result ≡ (
          has_column attr self.now.old_cursor.columns,
          has_column attr self.now.new_cursor.columns,
        ) }
    {
        (
            self.old_cursor.has_column(attr),
            self.new_cursor.has_column(attr),
        )
    }

    /// Hands back both reels, the old one first.
    pub(crate) fn into_reels(self) -> (R, R)
        ensures { result ≡ record { 0 = self.old_cursor.reel; 1 = self.new_cursor.reel } }
    {
        let Merge {
            old_cursor,
            new_cursor,
            old_next: _,
            new_next: _,
        } = self;
        (old_cursor.into_reel(), new_cursor.into_reel())
    }
}

/// Reads the next entry of a side if it is due.
fn advance<R: Reel, A: Allocator + Copy>(
    cursor: &mut Cursor<R>,
    next: NextEntry,
    desk: &mut Desk<A>,
) -> Result<NextEntry, DbFault>
    requires { IsUnfailed cursor.old.stage }
    ensures keeps { KeepsCursor R.Reel cursor.old cursor.new desk.old desk.new }
    ensures other { IsKept (other_side cursor.old.side) desk.old desk.new }
    ensures advanced { IfOk result (IsAdvanced R.Reel
        cursor.old.side cursor.old cursor.new desk.old desk.new next) }
    ensures fault { IfErr result (IsCursorFault R.Reel cursor.old cursor.new desk.old) }
{
    match next {
        NextEntry::Due => match cursor.next(desk) {
            Ok(Step::Record) => Ok(NextEntry::Here),
            Ok(Step::End) => Ok(NextEntry::Ended),
            Err(fault) => Err(fault),
        },
        NextEntry::Here => Ok(NextEntry::Here),
        NextEntry::Ended => Ok(NextEntry::Ended),
    }
}

/// The next entry of a side, if it was read and is not passed on yet.
fn next_view<A: Allocator + Copy>(next: NextEntry, desk: &Desk<A>, side: Side) -> Option<View<'_>>
    ensures { Shows result (next_entry next (desk_entry side desk.now)) }
{
    match next {
        NextEntry::Here => desk.view(side),
        NextEntry::Due => None,
        NextEntry::Ended => None,
    }
}

/// The change at the first path of two entries.
fn first_change<'a>(old: View<'a>, new: View<'a>) -> Change<'a>
    ensures { change_of result ≡ change_by (path_cmp (entry_in old.entry).0
        (entry_in new.entry).0) (entry_in old.entry) (entry_in new.entry) }
{
    match cmp_names(&old, &new) {
        Ordering::Less => Change::Removed(old),
        Ordering::Equal => Change::Common(old, new),
        Ordering::Greater => Change::Added(new),
    }
}

/// What both sides have at the first path of their next entries. If both entries have the same line, their paths are
/// not compared.
fn at_path<A: Allocator + Copy>(
    old_next: NextEntry,
    new_next: NextEntry,
    desk: &Desk<A>,
) -> AtPath<'_>
    ensures { ShowsPath result (next_change (next_entry old_next (desk_entry Side.Old desk.now))
        (next_entry new_next (desk_entry Side.New desk.now))) }
{
    let old = next_view(old_next, desk, Side::Old);
    let new = next_view(new_next, desk, Side::New);
    match (old, new) {
        (Some(old), Some(new)) => {
            if desk.is_alike() {
                return AtPath::Alike;
            }
            AtPath::Differs(first_change(old, new))
        }
        (Some(old), None) => AtPath::Differs(Change::Removed(old)),
        (None, Some(new)) => AtPath::Differs(Change::Added(new)),
        (None, None) => AtPath::End,
    }
}

impl<R: Reel> Merge<R> {
    /// Reads the next entry of each side if it is due.
    pub fn read_due<A: Allocator + Copy>(&mut self, desk: &mut Desk<A>) -> Result<(), DbFault>
        requires { IsReady self.old desk.old }
        ensures keeps { KeepsMerge R.Reel self.old self.new desk.old desk.new }
        ensures read { OnOk result (HasRead R.Reel self.old self.new desk.old desk.new) }
        ensures fault { IfErr result (IsMergeFault R.Reel self.old self.new desk.old) }
        ensures stopped { IfErr result (IsStopped R.Reel self.new) }
    {
        self.old_next = advance(&mut self.old_cursor, self.old_next, desk)?;
        self.new_next = advance(&mut self.new_cursor, self.new_next, desk)?;
        Ok(())
    }

    /// Passes on the next path, once the entries that were due have been read.
    pub fn next<'d, A: Allocator + Copy>(&mut self, desk: &'d Desk<A>) -> AtPath<'d>
        requires ready { IsReady self.old desk.now }
        requires not_due { IsNotDue self.old }
        ensures keeps { KeepsMerge R.Reel self.old self.new desk.now desk.now }
        ensures old_cursor { self.new.old_cursor ≡ self.old.old_cursor }
        ensures new_cursor { self.new.new_cursor ≡ self.old.new_cursor }
        ensures step { IsStep self.old self.new desk.now result }
    {
        let path = at_path(self.old_next, self.new_next, desk);
        self.release(path);
        path
    }

    /// What both sides have at the next path, once the entries that were due have been read. Nothing is passed on.
    pub fn peek<'d, A: Allocator + Copy>(&self, desk: &'d Desk<A>) -> Option<Change<'d>>
        ensures { ShowsNext result (upcoming self.now desk.now) }
    {
        let old = next_view(self.old_next, desk, Side::Old);
        let new = next_view(self.new_next, desk, Side::New);
        match (old, new) {
            (Some(old), Some(new)) => Some(first_change(old, new)),
            (Some(old), None) => Some(Change::Removed(old)),
            (None, Some(new)) => Some(Change::Added(new)),
            (None, None) => None,
        }
    }

    /// Passes on the change at the next path, at which a peek was taken.
    pub fn pass_on<A: Allocator + Copy>(&mut self, change: Change<'_>, desk: &Desk<A>)
        requires ready { IsReady self.old desk.now }
        requires not_due { IsNotDue self.old }
        requires shown { upcoming self.old desk.now ≡ change_of change ∷ [] }
        ensures keeps { KeepsMerge R.Reel self.old self.new desk.now desk.now }
        ensures passed { IsPassedOn self.old self.new desk.now (change_of change.entry) }
    {
        self.release(AtPath::Differs(change));
    }

    /// Lets go of the entries at a path that is passed on.
    fn release(&mut self, path: AtPath<'_>)
        ensures { (changes : List (Sided (List ℕ) Attributes)) → ShowsPath path.entry changes
            → self.new ≡ record self.old {
              old_next = old_after changes self.old.old_next;
              new_next = new_after changes self.old.new_next;
            } }
    {
        match path {
            AtPath::Differs(Change::Added(_)) => self.new_next = NextEntry::Due,
            AtPath::Differs(Change::Removed(_)) => self.old_next = NextEntry::Due,
            AtPath::Differs(Change::Common(_, _)) | AtPath::Alike => {
                self.old_next = NextEntry::Due;
                self.new_next = NextEntry::Due;
            }
            AtPath::End => {}
        }
    }
}
