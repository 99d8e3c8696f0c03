//! The walk over both pairs that writes and counts the lines of all changes.
ghost use Rattle.std.specs.Prelude.{[], IfErr, OnOk};
ghost use Rattle.aide_merge.specs.code.MergeCalls.{IsMergeFault, KeepsMerge};
ghost use Rattle.aide_merge.specs.code.Merging.{IsEnded, IsReady};
ghost use Rattle.aide_merge.specs.code.Settling.{IsStopped};
ghost use Rattle.aide_text.specs.PenSheet.{on_sheet};
ghost use Rattle.aide_line_run.specs.ListView.{list_read};
ghost use Rattle.aide_line_run.specs.code.Calls.{IsPairStop};
ghost use Rattle.aide_line_run.specs.code.Settled.{IsPairStopped};
ghost use Rattle.aide_line_run.specs.code.Walked.{CanWalk, HasWalked, IsAtEnd, KeepsMerges};

use crate::change_lines::put_counted;
use crate::line_counts::no_counts;
use crate::list::LeftOutList;
use crate::trusted::{account_of, seek};
use aide_conf::Options;
use aide_db::{DbFault, Desk, Reel};
use aide_line_text::LineCounts;
use aide_merge::{AtPath, Merge};
use aide_text::{Pen, Sink};
use std::alloc::Allocator;

/// The merges of both pairs.
pub(crate) struct Merges<R: Reel> {
    pub(crate) compared: Merge<R>,
    pub(crate) trusted: Merge<R>,
}

/// By what a walk over both pairs writes the lines of the changes.
#[derive(Clone, Copy)]
pub(crate) struct Terms<'a> {
    /// The options of the configuration.
    pub(crate) options: &'a Options,
    /// What is left out.
    pub(crate) list: LeftOutList<'a>,
}

/// Why a walk over both pairs was broken off.
#[derive(Clone, Copy)]
pub(crate) enum PairStop {
    Compared(DbFault),
    Trusted(DbFault),
    Write,
}

/// Writes the lines of all changes, and counts them: over the compared pair to its ends, and over the trusted pair to
/// the path of the last change.
pub(crate) fn put_accounted<R: Reel, W: Sink, A: Allocator + Copy>(
    merges: &mut Merges<R>,
    desk: &mut Desk<A>,
    trusted_desk: &mut Desk<A>,
    out: &mut W,
    pen: &mut Pen,
    terms: &Terms<'_>,
) -> Result<LineCounts, PairStop>
    requires { CanWalk merges.old desk.old trusted_desk.old pen.old }
    ensures keeps { KeepsMerges R.Reel merges.old merges.new desk.old desk.new
        trusted_desk.old trusted_desk.new }
    ensures walked { HasWalked R.Reel (list_read terms.now.list) terms.now.options.now []
        (λ counts. counts) merges.old desk.old trusted_desk.old
        (on_sheet W.Sink out.old pen.old) (on_sheet W.Sink out.new pen.new) result }
    ensures ended { OnOk result (IsAtEnd merges.new desk.new trusted_desk.new pen.new) }
    ensures fault { IfErr result (IsPairStop R.Reel merges.old merges.new
        desk.old trusted_desk.old pen.new) }
    ensures stopped { IfErr result (IsPairStopped R.Reel merges.new desk.new) }
{
    let mut counts = no_counts();
    let mut room = [0; 3839];
    'pass: loop {
        if let Err(fault) = merges.compared.read_due(desk) {
            return Err(PairStop::Compared(fault));
        }
        match merges.compared.next(desk) {
            AtPath::Differs(change) => {
                if let Err(fault) = seek(&mut merges.trusted, trusted_desk, change) {
                    return Err(PairStop::Trusted(fault));
                }
                let account = account_of(
                    &merges.compared,
                    &merges.trusted,
                    trusted_desk,
                    terms.list,
                    change,
                    &mut room,
                );
                put_counted(out, pen, &mut counts, terms.options, change, account);
                if pen.failed {
                    return Err(PairStop::Write);
                }
            }
            AtPath::Alike => counts.total += 1,
            AtPath::End => return Ok(counts),
        }
    }
}

/// Reads what a merge has still to give.
pub(crate) fn read_rest<R: Reel, A: Allocator + Copy>(
    merge: &mut Merge<R>,
    desk: &mut Desk<A>,
) -> Result<(), DbFault>
    requires { IsReady merge.old desk.old }
    ensures keeps { KeepsMerge R.Reel merge.old merge.new desk.old desk.new }
    ensures ended { OnOk result (IsEnded merge.new) }
    ensures fault { IfErr result (IsMergeFault R.Reel merge.old merge.new desk.old) }
    ensures stopped { IfErr result (IsStopped R.Reel merge.new) }
{
    'rest: loop {
        if let Err(fault) = merge.read_due(desk) {
            return Err(fault);
        }
        match merge.next(desk) {
            AtPath::Differs(_) => {}
            AtPath::Alike => {}
            AtPath::End => return Ok(()),
        }
    }
}
