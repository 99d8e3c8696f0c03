//! A whole run.
ghost use Rattle.std.specs.Prelude.{◌≤◌, ◌^◌, IfOk, IfErr, OnOk};
ghost use Rattle.aide_merge.specs.Asked.{asked};
ghost use Rattle.aide_merge.specs.Openings.{OpensExactly, OpensAtMost};
ghost use Rattle.aide_report.specs.Run.{IsRun};
ghost use Rattle.aide_merge.specs.Seen.{AreLimits, KeepsSources, seen, sink_seen};
ghost use Rattle.aide_merge.specs.code.BothRead.{AreRead};
ghost use Rattle.aide_merge.specs.code.Desks.{ClearsDesk};
ghost use Rattle.aide_report.specs.code.GivenDigests.{GaveDigests};
ghost use Rattle.aide_report.specs.code.Readings.{IsFindingFault, IsFound};

use crate::finding::Finding;
use crate::pass::{count_pass, read_whole};
use crate::report::write_report;
use aide_conf::{Options, Task};
use aide_db::{Desk, Limits, Side, Sources};
use aide_merge::{Digests, Outcome, Readings, RunFault, clear};
use aide_text::Sink;
use std::alloc::Allocator;

/// Reads both databases whole, the old one first.
pub(crate) fn read_both<S: Sources, A: Allocator + Copy>(
    limits: Limits,
    desk: &mut Desk<A>,
    sources: &mut S,
) -> Result<Readings, RunFault>
    requires { AreLimits limits }
    ensures sources { KeepsSources (seen S.Sources sources.old) (seen S.Sources sources.new) }
    ensures opens { OnOk result (OpensExactly (S.openings sources.old) (S.openings sources.new) 1) }
    ensures opens_some { OpensAtMost (S.openings sources.old) (S.openings sources.new) 1 }
    ensures read { IfOk result (AreRead limits (seen S.Sources sources.old)) }
    ensures gave { IfOk result (λ readings. GaveDigests (S.bytes_at sources.old)
        (S.openings sources.old) (S.openings sources.new) readings.digests) }
    ensures fault { IfErr result (IsFindingFault
        limits (seen S.Sources sources.old) (seen S.Sources sources.new) desk.old.room) }
    ensures desk { ClearsDesk limits (S.bytes_of sources.old) desk.old desk.new }
{
    clear(limits, desk);
    let old_reading = match read_whole(sources, Side::Old, limits, desk) {
        Ok(reading) => reading,
        Err(fault) => return Err(fault),
    };
    let new_reading = match read_whole(sources, Side::New, limits, desk) {
        Ok(reading) => reading,
        Err(fault) => return Err(fault),
    };
    let of_old = old_reading.digest;
    let of_new = new_reading.digest;
    Ok(Readings {
        digests: Digests { of_old, of_new },
        skipped_old: old_reading.skipped,
        skipped_new: new_reading.skipped,
    })
}

/// Reads both databases whole, the old one first, and then counts their differences in one pass over both.
pub(crate) fn compare<S: Sources, A: Allocator + Copy>(
    options: &Options,
    limits: Limits,
    desk: &mut Desk<A>,
    sources: &mut S,
) -> Result<Finding, RunFault>
    requires { AreLimits limits }
    ensures sources { KeepsSources (seen S.Sources sources.old) (seen S.Sources sources.new) }
    ensures opens { OnOk result (OpensExactly (S.openings sources.old) (S.openings sources.new) 2) }
    ensures opens_some { OpensAtMost (S.openings sources.old) (S.openings sources.new) 2 }
    ensures found { IfOk result (IsFound options.now limits (seen S.Sources sources.old)) }
    ensures gave { IfOk result (λ finding. GaveDigests (S.bytes_at sources.old)
        (S.openings sources.old) (S.openings sources.new) finding.digests) }
    ensures fault { IfErr result (IsFindingFault
        limits (seen S.Sources sources.old) (seen S.Sources sources.new) desk.old.room) }
    ensures desk { ClearsDesk limits (S.bytes_of sources.old) desk.old desk.new }
{
    let readings = match read_both(limits, desk, sources) {
        Ok(readings) => readings,
        Err(fault) => return Err(fault),
    };
    match count_pass(sources, limits, desk, options, &readings.digests) {
        Ok(counts) => Ok(Finding {
            counts,
            digests: readings.digests,
            skipped_old: readings.skipped_old,
            skipped_new: readings.skipped_new,
        }),
        Err(fault) => Err(fault),
    }
}

/// Compares two databases and writes the report.
///
/// First the old database is opened and read whole, then the new one. Then both are read together, and their
/// differences are counted. Then the report is written, in another pass for each of its sections of entries, and
/// flushed once, even if it is empty. In each pass the old side is opened first. Every reel that was opened is
/// closed.
///
/// - After `Ok` both texts are sound, and exactly the report has been written: the one function of the options, the
///   configured paths, the digests and the two maps of entries. It was flushed after its last byte, and the outcome
///   is its own.
/// - After a fault the beginning of the report has been written, and nothing if a text is not sound.
///   [`RunFault::Write`] has the number of bytes. A run that ends with a fault before the old side is opened a third
///   time has sent nothing, unless a write failed.
/// - If the sources say that a side is missing, nothing is written, and the answer is [`RunFault::Open`]: of the old
///   side, or of the new one after a sound old text. The first fault of the old text comes before a missing new side.
/// - A fault other than out of memory has a cause: a device that failed, the first fault of a text (the old one's
///   before the new one's), or a side that no longer gives what it first gave. After the first reading of a side, a
///   fault of its text or another digest is [`RunFault::Changed`]. A side whose openings all agree is never called
///   changed. After `Ok` all openings of a side gave bytes of one SHA-256.
/// - In a run that ends with `Ok` each side is opened twice, and once more for each section of entries. No run opens a
///   side more than six times.
/// - The desk is emptied before anything is read. At no moment does it hold more than the entry line of each side
///   and the line that is being read, even if the answer is a fault. A moment is between two calls of the desk; its
///   peak is the most that it ever held.
/// - If `limits.line` is at most the room that was reserved on the desk, the run never lacks memory for a line.
///
/// `limits.line` has to be at least 14, and `limits.bytes` at most 2^60. What is promised is the fields of `IsRun`.
pub fn run<S: Sources, W: Sink, A: Allocator + Copy>(
    task: &Task<'_>,
    limits: Limits,
    desk: &mut Desk<A>,
    sources: &mut S,
    out: &mut W,
) -> Result<Outcome, RunFault>
    requires line { 14 ≤ limits.line }
    requires bytes { limits.bytes ≤ 2 ^ 60 }
    ensures { IsRun limits (asked task.now)
        (seen S.Sources sources.old) (seen S.Sources sources.new) desk.old desk.new
        (sink_seen W.Sink out.old) (sink_seen W.Sink out.new) result }
{
    let finding = match compare(&task.options, limits, desk, sources) {
        Ok(finding) => finding,
        Err(fault) => return Err(fault),
    };
    match write_report(task, limits, desk, sources, out, &finding) {
        Ok(()) => Ok(finding.outcome()),
        Err(fault) => Err(fault),
    }
}
