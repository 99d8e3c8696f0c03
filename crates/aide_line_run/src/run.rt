//! A whole run that writes the changes of two databases with a trusted pair.
ghost use Rattle.std.specs.Prelude.{◌≤◌, ◌^◌};
ghost use Rattle.aide_merge.specs.Asked.{asked};
ghost use Rattle.aide_merge.specs.Seen.{seen, sink_seen};
ghost use Rattle.aide_line_run.specs.ListView.{list_read};
ghost use Rattle.aide_line_run.specs.LinesRun.{IsLinesRun};
ghost use Rattle.aide_line_run.specs.PairSeen.{pair_seen};
ghost use Rattle.aide_line_run.specs.SamePair.{AreSamePair};

use crate::line_counts::outcome_of;
use crate::opening::open_four;
use crate::pair_fault::PairFault;
use crate::walk::Merges;
use crate::write::{Tasks, write_lines};
use aide_db::{Desk, Limits, Sources};
use aide_merge::{Outcome, clear, close_both};
use aide_text::Sink;
use std::alloc::Allocator;

/// A trusted pair of databases: where it is read from, and onto which desk.
#[derive(Drop)]
pub struct TrustedPair<'a, S: Sources, A: Allocator + Copy> {
    /// What is held of them.
    pub desk: &'a mut Desk<A>,
    /// What opens them.
    pub sources: &'a mut S,
}

/// Compares two databases, using a trusted pair, and writes their changes as lines of JSON, each with what accounts for
/// the change. The list is asked where no entry accounts for a change. Each of the four databases is
/// opened and read once.
///
/// Nothing is written before all four databases are open, and the last line only when all of them were read to their
/// ends and are sound. Without it the lines are not complete.
///
/// - After `Ok` exactly the lines have been written, and were flushed after their last byte. The outcome is that of the
///   report.
/// - After a fault other than a failed write the last line has not been written.
/// - The first fault counts, in the order old, new, trusted old, trusted new. What comes before it is read to its end.
///   No fault is [`RunFault::Changed`](aide_merge::RunFault::Changed).
///
/// `limits.line` has to be at least 14, and `limits.bytes` at most 2^60. What is promised is the fields of
/// `IsLinesRun`.
pub fn run_lines<S: Sources, W: Sink, A: Allocator + Copy>(
    tasks: &Tasks<'_>,
    limits: Limits,
    desk: &mut Desk<A>,
    sources: &mut S,
    trusted: &mut TrustedPair<'_, S, A>,
    out: &mut W,
) -> Result<Outcome, PairFault>
    requires line { 14 ≤ limits.line }
    requires bytes { limits.bytes ≤ 2 ^ 60 }
    ensures same { AreSamePair trusted.old trusted.new }
    ensures runs { IsLinesRun limits (list_read tasks.now.list)
        (pair_seen (asked tasks.now.compared.now)
        (seen S.Sources sources.old) (seen S.Sources sources.new) desk.old desk.new)
        (pair_seen (asked tasks.now.trusted.now)
        (seen S.Sources trusted.old.sources.now) (seen S.Sources trusted.new.sources.now)
        trusted.old.desk.now trusted.new.desk.now)
        (sink_seen W.Sink out.old) (sink_seen W.Sink out.new) result }
{
    clear(limits, desk);
    clear(limits, trusted.desk);
    let mut merges = match open_four(limits, desk, sources, trusted.desk, trusted.sources) {
        Ok(merges) => merges,
        Err(fault) => return Err(fault),
    };
    let written = write_lines(&mut merges, tasks, desk, trusted.desk, out);
    let Merges {
        compared,
        trusted: trusted_merge,
    } = merges;
    close_both(sources, compared);
    close_both(trusted.sources, trusted_merge);
    match written {
        Ok(found) => Ok(outcome_of(&found.counts, &found.compared)),
        Err(fault) => Err(fault),
    }
}
