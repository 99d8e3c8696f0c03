//! Callers of `run` that take each promise of a run out of its record.
ghost use Rattle.std.specs.Io.KnownBytes.{Appends};
ghost use Rattle.std.specs.Prelude.{◌≡◌, ◌≤◌, ◌*◌, ◌^◌, [], ℕ, List, Option, Some, Result, Ok};
ghost use Rattle.std.specs.Prelude.{Err, IfOk, IfErr, OnOk, true, max};
ghost use Rattle.aide_db.specs.Database.{IsSound};
ghost use Rattle.aide_db.specs.Longest.{longest_line};
ghost use Rattle.aide_db.specs.declared.fault.DbFault.{DbFault};
ghost use Rattle.aide_report_specs.specs.Agreement.{IsOfOutcome, OpensByOutcome};
ghost use Rattle.aide_merge.specs.Asked.{asked};
ghost use Rattle.aide_merge.specs.Bound.{three_lines};
ghost use Rattle.aide_text.specs.Failures.{CountsFlush, Rose};
ghost use Rattle.aide_report_specs.specs.Given.{GiveOneDigest};
ghost use Rattle.aide_report_specs.specs.Missing.{EndsOver, RunsOver};
ghost use Rattle.aide_merge.specs.RightAnswer.{IsHindered, IsOfReliable};
ghost use Rattle.aide_merge.specs.RightAnswer.{TellsSide};
ghost use Rattle.aide_merge.specs.Openings.{IsNotGiven, IsRefusedThere, OpensAtMost, OpensExactly};
ghost use Rattle.aide_merge.specs.Openings.{OpensFirst};
ghost use Rattle.aide_merge.specs.Room.{IsNotOfMemory};
ghost use Rattle.aide_merge.specs.RunFaults.{CountsWrites, HasSentNothing, HasWrittenIfAny};
ghost use Rattle.aide_merge.specs.RunFaults.{IsRight};
ghost use Rattle.aide_merge.specs.RightAnswer.{HasCause, Report};
ghost use Rattle.aide_report_specs.specs.Runs.{Runs, openings_over};

use aide_conf::Task;
use aide_db::{Desk, Limits, Side, Sources};
use aide_report::{Outcome, RunFault, Sink, run};
use std::alloc::Allocator;

/// Runs for the answer over both sides.
pub(super) fn run_for_its_answer<S: Sources, W: Sink, A: Allocator + Copy>(
    task: &Task<'_>,
    limits: Limits,
    desk: &mut Desk<A>,
    sources: &mut S,
    out: &mut W,
) -> Result<Outcome, RunFault>
    requires line { 14 ≤ limits.line }
    requires bytes { limits.bytes ≤ 2 ^ 60 }
    ensures over { (old new : Option (List ℕ))
        → TellsSide (S.bytes_of sources.old Side.Old) (S.is_missing sources.old Side.Old) old
        → TellsSide (S.bytes_of sources.old Side.New) (S.is_missing sources.old Side.New) new
        → (r : Result Report RunFault) → RunsOver limits (asked task.now) old new r
        → EndsOver r (IsHindered old new (Rose (S.failures sources.old) (S.failures sources.new))
        (Rose (W.failures out.old) (W.failures out.new)))
        result (W.delivered out.old) (W.delivered out.new) }
    ensures reliable { S.is_reliable sources.old ≡ true
        → IfErr result (IsOfReliable (S.bytes_of sources.old)) }
    ensures sound { OnOk result ((side : Side) (text : List ℕ)
        → S.bytes_of sources.old side ≡ Some text → IsSound limits text) }
    ensures nothing { (side : Side) (text : List ℕ) → S.bytes_of sources.old side ≡ Some text
        → (IsSound limits text → ⊥)
        → Appends (W.delivered out.old) (W.delivered out.new) [] }
    ensures written { IfErr result (HasWrittenIfAny (W.delivered out.old) (W.delivered out.new)) }
    ensures agreed { OnOk result (GiveOneDigest (S.bytes_at sources.old)
        (S.openings sources.old) (S.openings sources.new)) }
    ensures at_same { S.bytes_at sources.new ≡ S.bytes_at sources.old }
{
    run(task, limits, desk, sources, out)
}

/// Runs for what has been written.
pub(super) fn run_for_its_bytes<S: Sources, W: Sink, A: Allocator + Copy>(
    task: &Task<'_>,
    limits: Limits,
    desk: &mut Desk<A>,
    sources: &mut S,
    out: &mut W,
) -> Result<Outcome, RunFault>
    requires line { 14 ≤ limits.line }
    requires bytes { limits.bytes ≤ 2 ^ 60 }
    ensures consistent { IfOk result (λ outcome.
        IsOfOutcome task.now.options outcome (W.delivered out.old) (W.delivered out.new)) }
    ensures flushed { OnOk result (W.is_flushed out.new ≡ true) }
    ensures flushes { CountsFlush (W.flushes out.old) (W.flushes out.new) result }
    ensures unsent { IfErr result (HasSentNothing 2
        (S.openings sources.old Side.Old) (S.openings sources.new Side.Old)
        (W.delivered out.old) (W.delivered out.new)) }
{
    run(task, limits, desk, sources, out)
}

/// Runs for the causes of faults.
pub(super) fn run_for_its_faults<S: Sources, W: Sink, A: Allocator + Copy>(
    task: &Task<'_>,
    limits: Limits,
    desk: &mut Desk<A>,
    sources: &mut S,
    out: &mut W,
) -> Result<Outcome, RunFault>
    requires line { 14 ≤ limits.line }
    requires bytes { limits.bytes ≤ 2 ^ 60 }
    ensures cause { IfErr result (λ fault. HasCause fault
        (Rose (S.failures sources.old) (S.failures sources.new))
        (Rose (W.failures out.old) (W.failures out.new))
        (λ first. (old new : List ℕ) → S.bytes_of sources.old Side.Old ≡ Some old
        → S.bytes_of sources.old Side.New ≡ Some new
        → (r : Result Report DbFault) → Runs limits (asked task.now) old new r → r ≡ Err first)
        (λ side. (text : List ℕ) → S.bytes_of sources.old side ≡ Some text → ⊥)) }
    ensures right { IfErr result (IsRight limits (S.bytes_of sources.old)) }
    ensures refused { IfErr result (IsRefusedThere
        (S.openings sources.old) (S.openings sources.new)) }
    ensures not_given { IfErr result (IsNotGiven (S.was_given sources.new)) }
    ensures sources_never_fall { S.failures sources.old ≤ S.failures sources.new }
    ensures sink_fails { CountsWrites (W.failures out.old) (W.failures out.new) result }
{
    run(task, limits, desk, sources, out)
}

/// Runs for how often each side is opened.
pub(super) fn run_for_its_openings<S: Sources, W: Sink, A: Allocator + Copy>(
    task: &Task<'_>,
    limits: Limits,
    desk: &mut Desk<A>,
    sources: &mut S,
    out: &mut W,
) -> Result<Outcome, RunFault>
    requires line { 14 ≤ limits.line }
    requires bytes { limits.bytes ≤ 2 ^ 60 }
    ensures opens { OnOk result ((old new : List ℕ) → S.bytes_of sources.old Side.Old ≡ Some old
        → S.bytes_of sources.old Side.New ≡ Some new
        → OpensExactly (S.openings sources.old) (S.openings sources.new)
        (openings_over (asked task.now) old new)) }
    ensures opens_told { IfOk result (λ outcome. OpensByOutcome task.now.options outcome
        (S.openings sources.old) (S.openings sources.new)) }
    ensures opens_within { (old new : List ℕ) → S.bytes_of sources.old Side.Old ≡ Some old
        → S.bytes_of sources.old Side.New ≡ Some new → IsSound limits old → IsSound limits new
        → OpensAtMost (S.openings sources.old) (S.openings sources.new)
        (openings_over (asked task.now) old new) }
    ensures opens_some { OpensAtMost (S.openings sources.old) (S.openings sources.new) 6 }
    ensures opens_first { IfErr result (OpensFirst
        (S.openings sources.old) (S.openings sources.new)) }
{
    run(task, limits, desk, sources, out)
}

/// Runs for what the desk holds.
pub(super) fn run_for_its_desk<S: Sources, W: Sink, A: Allocator + Copy>(
    task: &Task<'_>,
    limits: Limits,
    desk: &mut Desk<A>,
    sources: &mut S,
    out: &mut W,
) -> Result<Outcome, RunFault>
    requires line { 14 ≤ limits.line }
    requires bytes { limits.bytes ≤ 2 ^ 60 }
    ensures peak { desk.old.peak ≤ desk.new.peak }
    ensures below { desk.new.peak ≤ max desk.old.peak (3 * limits.line) }
    ensures bound { (old new : List ℕ) → S.bytes_of sources.old Side.Old ≡ Some old
        → S.bytes_of sources.old Side.New ≡ Some new → desk.new.peak
        ≤ max desk.old.peak (three_lines (longest_line limits old) (longest_line limits new)) }
    ensures room { desk.new.room ≡ desk.old.room }
    ensures lookups { S.lookups sources.new ≡ S.lookups sources.old }
    ensures memory { limits.line ≤ desk.old.room → IfErr result IsNotOfMemory }
{
    run(task, limits, desk, sources, out)
}
