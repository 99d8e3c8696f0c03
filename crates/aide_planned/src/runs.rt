//! Runs over two databases, or over four and a list, whose devices fail by a plan.
use crate::desks::DeskPlan;
use crate::journal::Journal;
use crate::limits::{limits_of, limits_within};
use crate::numbers::Numbers;
use crate::printing::{print_desk, print_journal, print_taken};
use crate::refusing::Refusing;
use crate::sinks::SinkPlan;
use crate::sources::{PlannedSources, SidePlan};
use crate::writer::{PlannedWriter, Taken};
use aide_conf::{Need, Options, Settings, Task};
use aide_db::{Desk, Limits, Side, Sources};
use aide_headline::compare_databases;
use aide_line_run::{LeftOutList, PairFault, Tasks, TrustedPair, run_lines};
use aide_merge::{Outcome, RunFault};
use aide_patterns::Exclusions;
use aide_report::run;
use aide_site::PagedSink;
use aide_text::{MemorySink, Sink, WriteSink};
use sha2::{Digest, Sha256};
use std::alloc::{Allocator, Global};
use std::io::{self, Write};

/// What is run.
#[derive(Clone, Copy, PartialEq, Eq)]
enum Kind {
    Report,
    /// The report by the call of the headline, if the desk has room.
    Headline,
    Lines,
}

/// A run: what is run, and by which plans.
#[derive(Clone, Copy)]
struct Case<'a> {
    kind: Kind,
    options: Options,
    list: &'a [u8],
    limits: Limits,
    old: SidePlan<'a>,
    new: SidePlan<'a>,
    trusted_old: SidePlan<'a>,
    trusted_new: SidePlan<'a>,
    sink: SinkPlan,
}

impl<'a> Case<'a> {
    fn take(alloc: Global, numbers: &mut Numbers<'a>) -> Case<'a> {
        Case {
            kind: match numbers.take() {
                0 => Kind::Report,
                1 => Kind::Headline,
                _ => Kind::Lines,
            },
            options: options_of(alloc, numbers.text()),
            list: numbers.text(),
            limits: limits_of(numbers),
            old: SidePlan::take(numbers),
            new: SidePlan::take(numbers),
            trusted_old: SidePlan::take(numbers),
            trusted_new: SidePlan::take(numbers),
            sink: SinkPlan::take(numbers),
        }
    }

    /// The same run in which nothing fails.
    fn without_failure(self) -> Case<'a> {
        Case {
            old: self.old.without_failure(),
            new: self.new.without_failure(),
            trusted_old: self.trusted_old.without_failure(),
            trusted_new: self.trusted_new.without_failure(),
            sink: SinkPlan::without_failure(),
            ..self
        }
    }
}

/// The options that a configuration sets. One with a fault sets none.
fn options_of(alloc: Global, text: &[u8]) -> Options {
    match Settings::read(alloc, b"", text, b"", Need::Check) {
        Ok(settings) => settings.options(),
        Err(_) => Options::plain(),
    }
}

/// What belongs to the compared databases, and what to the trusted ones.
#[derive(Drop)]
struct Both<X> {
    compared: X,
    trusted: X,
}

/// A trusted pair of these.
fn pair_of<'a, S: Sources, A: Allocator + Copy>(
    desk: &'a mut Desk<A>,
    sources: &'a mut S,
) -> TrustedPair<'a, S, A> {
    TrustedPair { desk, sources }
}

/// The run of these tasks.
fn run_tasks<S: Sources, W: Sink, A: Allocator + Copy>(
    tasks: &Tasks<'_>,
    limits: Limits,
    desks: &mut Both<Desk<A>>,
    sources: &mut Both<S>,
    out: &mut W,
) -> Result<Outcome, PairFault> {
    let limits = limits_within(limits);
    let mut pair = pair_of(&mut desks.trusted, &mut sources.trusted);
    run_lines(
        tasks,
        limits,
        &mut desks.compared,
        &mut sources.compared,
        &mut pair,
        out,
    )
}

/// The run that writes lines, with this list.
fn lines_with<S: Sources, W: Sink, A: Allocator + Copy>(
    case: &Case<'_>,
    rules: &Exclusions<'_>,
    desks: &mut Both<Desk<A>>,
    sources: &mut Both<S>,
    out: &mut W,
) -> Result<Outcome, PairFault> {
    let digest = Sha256::digest(case.list);
    let tasks = Tasks {
        compared: &task_of("/old", "/new", case.options),
        trusted: &task_of("/trusted_old", "/trusted_new", case.options),
        list: LeftOutList {
            rules,
            digest: &digest,
        },
    };
    run_tasks(&tasks, case.limits, desks, sources, out)
}

fn task_of<'a>(old_path: &'a str, new_path: &'a str, options: Options) -> Task<'a> {
    Task {
        old_path,
        new_path,
        options,
    }
}

/// What is answered if the list cannot be read. No run answers so.
const NO_RUN: PairFault = PairFault::Compared(RunFault::Write { written: u64::MAX });

/// The run that writes the report.
fn report_with<S: Sources, W: Sink, A: Allocator + Copy>(
    case: &Case<'_>,
    desk: &mut Desk<A>,
    sources: &mut S,
    out: &mut W,
) -> Result<Outcome, RunFault> {
    let limits = limits_within(case.limits);
    let task = task_of("/old", "/new", case.options);
    if case.kind == Kind::Headline && limits.line <= desk.room() {
        return compare_databases(&task, limits, desk, sources, out);
    }
    run(&task, limits, desk, sources, out)
}

/// Runs, and returns the answer.
fn answer_of<S: Sources, W: Sink, A: Allocator + Copy>(
    alloc: Global,
    case: &Case<'_>,
    desks: &mut Both<Desk<A>>,
    sources: &mut Both<S>,
    out: &mut W,
) -> Result<Outcome, PairFault> {
    if case.kind == Kind::Lines {
        return match Exclusions::read(alloc, case.list) {
            Ok(rules) => lines_with(case, &rules, desks, sources, out),
            Err(_) => Err(NO_RUN),
        };
    }
    match report_with(case, &mut desks.compared, &mut sources.compared, out) {
        Ok(outcome) => Ok(outcome),
        Err(fault) => Err(PairFault::Compared(fault)),
    }
}

/// The exit status after an answer.
fn status_of(answer: &Result<Outcome, PairFault>) -> u8 {
    match answer {
        Ok(outcome) => outcome.status(),
        Err(PairFault::Compared(fault)) => fault.status(),
        Err(PairFault::Trusted(fault)) => fault.status(),
    }
}

/// Runs into the planned sink, and returns the answer.
fn run_into<S: Sources, A: Allocator + Copy>(
    alloc: Global,
    case: &Case<'_>,
    desks: &mut Both<Desk<A>>,
    sources: &mut Both<S>,
    taken: &mut Taken,
) -> Result<Outcome, PairFault> {
    match case.sink {
        SinkPlan::Memory { refused } => {
            let refusing = Refusing::new(alloc, refused);
            let mut sink = MemorySink::new(&refusing);
            let answer = answer_of(alloc, case, desks, sources, &mut sink);
            taken.take_over(&sink, refusing.has_refused());
            answer
        }
        SinkPlan::Writer(plan) => {
            let mut sink = WriteSink::new(PlannedWriter::new(plan, taken));
            answer_of(alloc, case, desks, sources, &mut sink)
        }
        SinkPlan::Page(plan) => {
            let below = WriteSink::new(PlannedWriter::new(plan, taken));
            match PagedSink::new(alloc, below) {
                Ok(mut sink) => answer_of(alloc, case, desks, sources, &mut sink),
                Err(_) => Err(NO_RUN),
            }
        }
    }
}

/// Prints how often each database was opened, how often a device of a pair has failed, and what was read.
fn print_sources<O: Write>(
    out: &mut O,
    sources: &Both<PlannedSources<'_>>,
    journals: &Both<Journal>,
) -> io::Result<()> {
    let Both { compared, trusted } = sources;
    let (old, new) = (compared.openings(Side::Old), compared.openings(Side::New));
    let (trusted_old, trusted_new) = (trusted.openings(Side::Old), trusted.openings(Side::New));
    writeln!(out, "openings {old} {new} {trusted_old} {trusted_new}")?;
    let (failures, trusted_failures) = (compared.failures(), trusted.failures());
    writeln!(out, "failures {failures} {trusted_failures}")?;
    print_journal(out, "read", &journals.compared)?;
    print_journal(out, "trusted_read", &journals.trusted)
}

/// Runs on these desks, and prints all that can be seen of it.
fn play_on<O: Write, A: Allocator + Copy>(
    out: &mut O,
    alloc: Global,
    case: &Case<'_>,
    desks: &mut Both<Desk<A>>,
) -> io::Result<()> {
    let journals = Both {
        compared: Journal::new(),
        trusted: Journal::new(),
    };
    let mut sources = Both {
        compared: PlannedSources::new(case.old, case.new, &journals.compared),
        trusted: PlannedSources::new(case.trusted_old, case.trusted_new, &journals.trusted),
    };
    let mut taken = Taken::new(alloc);
    let answer = run_into(alloc, case, desks, &mut sources, &mut taken);
    writeln!(out, "answer {answer:?}")?;
    writeln!(out, "status {}", status_of(&answer))?;
    print_sources(out, &sources, &journals)?;
    print_taken(out, alloc, &taken)?;
    print_desk(out, "desk", &desks.compared)?;
    print_desk(out, "trusted_desk", &desks.trusted)
}

/// Runs once, and on the same desks once more without a failure if that is asked for.
pub(crate) fn play_run<O: Write>(
    out: &mut O,
    alloc: Global,
    numbers: &mut Numbers<'_>,
) -> io::Result<()> {
    let plan = DeskPlan::take(numbers);
    let again = numbers.flag();
    let case = Case::take(alloc, numbers);
    let refusing = plan.allocator(alloc);
    let Ok(compared) = plan.desk(&refusing) else {
        return writeln!(out, "desk refused");
    };
    let Ok(trusted) = plan.desk(&refusing) else {
        return writeln!(out, "trusted_desk refused");
    };
    let mut desks = Both { compared, trusted };
    play_on(out, alloc, &case, &mut desks)?;
    writeln!(out, "refused {}", refusing.has_refused())?;
    if again {
        play_on(out, alloc, &case.without_failure(), &mut desks)?;
    }
    Ok(())
}
