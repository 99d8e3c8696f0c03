//! What a pass writes of each change, and the walk over both databases that writes it.
ghost use Rattle.std.specs.Prelude.{◌≡◌, ℕ, List, [], IfErr, OnOk, false};
ghost use Rattle.std.specs.List.{flat_map};
ghost use Rattle.aide_fields.specs.Attributes.{Entry};
ghost use Rattle.aide_merge.specs.Said.{PathChange};
ghost use Rattle.aide_merge.specs.code.ChangeView.{alike_of, change_of};
ghost use Rattle.aide_report.specs.code.PassFaults.{IsStopOf, Writes};
ghost use Rattle.aide_merge.specs.code.MergeCalls.{KeepsMerge};
ghost use Rattle.aide_merge.specs.code.Merging.{remaining, IsReady, IsEnded, StandsAt};
ghost use Rattle.aide_text.specs.PenSheet.{on_sheet};
ghost use Rattle.aide_text.specs.Sheet.{Wrote, WritesSome};

use aide_agreement::Change;
use aide_db::{DbFault, Desk, Reel, Side};
use aide_merge::{AtPath, Merge};
use aide_text::{Pen, Sink};
use std::alloc::Allocator;

/// Writes changes, each by itself.
pub(crate) trait ChangeWriter {
    /// The text of a change, which is empty if nothing is written of it.
    ghost text_of: { Self → PathChange → List ℕ };

    /// Writes the text of a change.
    fn put<W: Sink>(&self, out: &mut W, pen: &mut Pen, change: Change<'_>)
        ensures { Wrote (text_of self.now (change_of change.entry))
            (on_sheet W.Sink out.old pen.old) (on_sheet W.Sink out.new pen.new) };

    /// Does nothing. Its contract says that an entry that both databases have alike has no text, so that a pass may
    /// skip it.
    fn skips_alike(&self)
        ensures { (entry : Entry) → text_of self.now (alike_of entry) ≡ [] };
}

/// Why a pass was broken off.
#[derive(Clone, Copy)]
pub(crate) enum PassFault {
    Database(DbFault),
    Write,
}

/// Writes all changes: over both databases, to their ends.
pub(crate) fn put_entries<R: Reel, W: Sink, A: Allocator + Copy, T: ChangeWriter>(
    merge: &mut Merge<R>,
    desk: &mut Desk<A>,
    out: &mut W,
    pen: &mut Pen,
    writer: &T,
) -> Result<(), PassFault>
    requires ready { IsReady merge.old desk.old }
    requires writes_on { pen.old.failed ≡ false }
    ensures keeps { KeepsMerge R.Reel merge.old merge.new desk.old desk.new }
    ensures writes { (old new : List ℕ) → StandsAt R.to_come merge.old desk.old Side.Old old
        → StandsAt R.to_come merge.old desk.old Side.New new
        → Writes result (flat_map (T.text_of writer.now) (remaining merge.old desk.old old new))
        (on_sheet W.Sink out.old pen.old) (on_sheet W.Sink out.new pen.new) }
    ensures some { WritesSome (on_sheet W.Sink out.old pen.old) (on_sheet W.Sink out.new pen.new) }
    ensures writes_on { OnOk result (pen.new.failed ≡ false) }
    ensures ended { OnOk result (IsEnded merge.new) }
    ensures fault { IfErr result (IsStopOf R.Reel merge.old merge.new desk.old pen.new) }
{
    writer.skips_alike();
    'pass: loop {
        if let Err(fault) = merge.read_due(desk) {
            return Err(PassFault::Database(fault));
        }
        match merge.next(desk) {
            AtPath::Differs(change) => {
                writer.put(out, pen, change);
                if pen.failed {
                    return Err(PassFault::Write);
                }
            }
            AtPath::Alike => {}
            AtPath::End => return Ok(()),
        }
    }
}
