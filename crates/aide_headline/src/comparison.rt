//! What a comparison of two databases promises, in five clauses.
ghost use Rattle.std.specs.Prelude.{◌≡◌, ◌≤◌, ◌+◌, ◌^◌, ℕ, List, Some, Ok, Err, OnOk, max};
ghost use Rattle.aide_db.specs.Database.{IsSound};
ghost use Rattle.aide_db.specs.Longest.{longest_line};
ghost use Rattle.aide_db.specs.declared.fault.DbFault.{DbFault};
ghost use Rattle.aide_headline.specs.Headline.{EndsAs};
ghost use Rattle.aide_merge.specs.Asked.{asked};
ghost use Rattle.aide_merge.specs.RightAnswer.{IsFirstFaultOf};
ghost use Rattle.aide_report_specs.specs.Given.{GiveOneDigest};
ghost use Rattle.aide_report_specs.specs.Runs.{report_over};
ghost use Rattle.aide_site.specs.Put.{HasNoFailure};

use aide_conf::Task;
use aide_db::{Desk, Limits, Side, Sources};
use aide_report::{Outcome, RunFault, Sink, run};
use std::alloc::Allocator;

/// Compares two databases and writes the report, by [`run`].
///
/// A task is what an accepted configuration asks for. Each clause but the last begins with the two texts
/// that every opening of the old and of the new database gives. The first three clauses are about a call
/// in which no device counts a failure:
///
/// - If both texts are sound, exactly the report is written. The report and the outcome are those that
///   the definitions assign to the two maps.
/// - If the old text is not sound, its first fault is returned and nothing is written.
/// - If only the new text is not sound, its first fault is returned and nothing is written.
/// - At no moment does the desk hold more bytes than the longest line of each text and one more line
///   as long as the longer of these, unless it held more before the call.
/// - After `Ok` all openings of a database gave bytes of one SHA-256, whatever each of them gave: a
///   comparison of a database that changed while it was read never ends with `Ok`.
///
/// `limits.line` has to be at least 14 and at most the room that was reserved on the desk, and
/// `limits.bytes` at most 2^60. What is promised beyond this, for example if a device fails, is in the
/// contract of [`run`].
pub fn compare_databases<S: Sources, W: Sink, A: Allocator + Copy>(
    task: &Task<'_>,
    limits: Limits,
    desk: &mut Desk<A>,
    sources: &mut S,
    out: &mut W,
) -> Result<Outcome, RunFault>
    requires line { 14 ≤ limits.line }
    requires bytes { limits.bytes ≤ 2 ^ 60 }
    requires room { limits.line ≤ desk.old.room }
    ensures report { (old new : List ℕ) → S.bytes_of sources.old Side.Old ≡ Some old
        → S.bytes_of sources.old Side.New ≡ Some new
        → HasNoFailure (S.failures sources.old) (S.failures sources.new)
        → HasNoFailure (W.failures out.old) (W.failures out.new)
        → IsSound limits old → IsSound limits new
        → EndsAs (Ok (report_over (asked task.now) old new)) result
        (W.delivered out.old) (W.delivered out.new) }
    ensures old_fault { (old new : List ℕ) → S.bytes_of sources.old Side.Old ≡ Some old
        → S.bytes_of sources.old Side.New ≡ Some new
        → HasNoFailure (S.failures sources.old) (S.failures sources.new)
        → HasNoFailure (W.failures out.old) (W.failures out.new)
        → (fault : DbFault) → IsFirstFaultOf limits Side.Old old fault
        → EndsAs (Err fault) result (W.delivered out.old) (W.delivered out.new) }
    ensures new_fault { (old new : List ℕ) → S.bytes_of sources.old Side.Old ≡ Some old
        → S.bytes_of sources.old Side.New ≡ Some new
        → HasNoFailure (S.failures sources.old) (S.failures sources.new)
        → HasNoFailure (W.failures out.old) (W.failures out.new)
        → (fault : DbFault) → IsSound limits old → IsFirstFaultOf limits Side.New new fault
        → EndsAs (Err fault) result (W.delivered out.old) (W.delivered out.new) }
    ensures bound { (old new : List ℕ) → S.bytes_of sources.old Side.Old ≡ Some old
        → S.bytes_of sources.old Side.New ≡ Some new
        → desk.new.peak ≤ max desk.old.peak (longest_line limits old + longest_line limits new
        + max (longest_line limits old) (longest_line limits new)) }
    ensures agreed { OnOk result (GiveOneDigest (S.bytes_at sources.old)
        (S.openings sources.old) (S.openings sources.new)) }
{
    run(task, limits, desk, sources, out)
}
