//! A database read by a cursor, whose reel and whose desk fail by a plan.
use crate::desks::DeskPlan;
use crate::journal::Journal;
use crate::limits::{limits_of, limits_within};
use crate::numbers::Numbers;
use crate::printing::{print_bytes, print_desk, print_journal};
use crate::reader::{PlannedReader, ReaderPlan};
use aide_db::{Cursor, DbFault, Desk, Limits, ReadReel, Reel, Side, Step};
use std::alloc::{Allocator, Global};
use std::io::{self, Write};

/// A database, and how it is read.
#[derive(Clone, Copy)]
struct Reading<'a> {
    side: Side,
    limits: Limits,
    text: &'a [u8],
    plan: ReaderPlan,
}

impl<'a> Reading<'a> {
    fn take(numbers: &mut Numbers<'a>) -> Reading<'a> {
        Reading {
            side: if numbers.flag() { Side::New } else { Side::Old },
            limits: limits_of(numbers),
            text: numbers.text(),
            plan: ReaderPlan::take(numbers),
        }
    }

    /// The same, without a failure.
    fn without_failure(self) -> Reading<'a> {
        Reading {
            plan: self.plan.without_failure(),
            ..self
        }
    }
}

/// What a cursor has returned.
#[derive(Drop)]
struct Steps {
    entries: u64,
    /// How often the desk showed an entry when there was one.
    views: u64,
    answer: Result<Step, DbFault>,
    /// What it returned when it was asked once more.
    later: Result<Step, DbFault>,
    digest: Option<[u8; 32]>,
    skipped: u64,
}

/// The next answer of a cursor. It has no contract, so that the many facts about `next` are no part of the proofs of
/// its callers.
fn step<R: Reel, A: Allocator + Copy>(
    cursor: &mut Cursor<R>,
    desk: &mut Desk<A>,
) -> Result<Step, DbFault> {
    cursor.next(desk)
}

/// What a cursor returns to the end of its database or to its fault.
fn steps_of<R: Reel, A: Allocator + Copy>(
    cursor: &mut Cursor<R>,
    side: Side,
    desk: &mut Desk<A>,
) -> Steps {
    let (mut entries, mut views) = (0u64, 0u64);
    let mut answer = step(cursor, desk);
    for _ in 0..u64::MAX {
        if answer != Ok(Step::Record) {
            break;
        }
        entries = entries.saturating_add(1);
        views = views.saturating_add(u64::from(desk.view(side).is_some()));
        answer = step(cursor, desk);
    }
    Steps {
        entries,
        views,
        answer,
        later: step(cursor, desk),
        digest: cursor.digest(),
        skipped: cursor.skipped(),
    }
}

/// Prints what a cursor has returned.
fn print_steps<O: Write>(out: &mut O, alloc: Global, steps: &Steps) -> io::Result<()> {
    writeln!(out, "answer {:?}", steps.answer)?;
    writeln!(out, "later {:?}", steps.later)?;
    let (entries, views, skipped) = (steps.entries, steps.views, steps.skipped);
    writeln!(out, "entries {entries} {views} {skipped}")?;
    match &steps.digest {
        Some(digest) => print_bytes(out, alloc, "digest", digest),
        None => writeln!(out, "digest none"),
    }
}

/// The steps of a cursor over a database, and how often its reel has failed.
fn steps_over<A: Allocator + Copy>(
    reading: &Reading<'_>,
    journal: &Journal,
    desk: &mut Desk<A>,
) -> (Steps, u64) {
    let side = reading.side;
    let reader = PlannedReader::new(reading.text, reading.plan, side, journal);
    let limits = limits_within(reading.limits);
    let mut cursor = Cursor::start(side, ReadReel::new(reader), limits, desk);
    let steps = steps_of(&mut cursor, side, desk);
    (steps, cursor.into_reel().failures())
}

/// Reads a database on this desk, and prints all that can be seen of it.
fn play_on<O: Write, A: Allocator + Copy>(
    out: &mut O,
    alloc: Global,
    reading: &Reading<'_>,
    desk: &mut Desk<A>,
) -> io::Result<()> {
    let journal = Journal::new();
    let (steps, failures) = steps_over(reading, &journal, desk);
    print_steps(out, alloc, &steps)?;
    writeln!(out, "failures {failures}")?;
    let reads = journal.reads();
    writeln!(out, "reads {} {:?}", reads.count, reads.answers)?;
    print_journal(out, "read", &journal)?;
    print_desk(out, "desk", desk)
}

/// Reads once, and on the same desk once more without a failure if that is asked for.
pub(crate) fn play_cursor<O: Write>(
    out: &mut O,
    alloc: Global,
    numbers: &mut Numbers<'_>,
) -> io::Result<()> {
    let plan = DeskPlan::take(numbers);
    let again = numbers.flag();
    let reading = Reading::take(numbers);
    let refusing = plan.allocator(alloc);
    match plan.desk(&refusing) {
        Ok(mut desk) => {
            print_desk(out, "new_desk", &desk)?;
            play_on(out, alloc, &reading, &mut desk)?;
            writeln!(out, "refused {}", refusing.has_refused())?;
            if again {
                play_on(out, alloc, &reading.without_failure(), &mut desk)?;
            }
            Ok(())
        }
        Err(fault) => writeln!(out, "desk {fault:?} {}", fault.code()),
    }
}
