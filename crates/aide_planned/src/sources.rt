//! Two databases that fail to open, or give other bytes, at chosen openings.
ghost use Rattle.std.specs.Prelude.{◌≡◌, None};
ghost use Rattle.aide_entry.specs.Count.{one_more};
ghost use Rattle.aide_db.specs.Side.{by_side, other_side};

use crate::journal::Journal;
use crate::numbers::Numbers;
use crate::reader::{PlannedReader, ReaderPlan};
use aide_db::{OpenFault, ReadReel, Side, Sources};

/// How the database of one side is given. Openings are counted from 1.
#[derive(Clone, Copy)]
pub(crate) struct SidePlan<'a> {
    /// The text of each opening.
    text: &'a [u8],
    /// From which opening on another text comes instead, and from which on the first one again.
    changed_from: u64,
    changed_until: u64,
    other_text: &'a [u8],
    /// The opening that is refused.
    refused: u64,
    /// The opening whose reel is given by this plan. The other ones never fail.
    planned: u64,
    plan: ReaderPlan,
}

impl<'a> SidePlan<'a> {
    pub(crate) fn take(numbers: &mut Numbers<'a>) -> SidePlan<'a> {
        SidePlan {
            text: numbers.text(),
            changed_from: numbers.take(),
            changed_until: numbers.take(),
            other_text: numbers.text(),
            refused: numbers.take(),
            planned: numbers.take(),
            plan: ReaderPlan::take(numbers),
        }
    }

    /// The same text, without a change or a failure.
    pub(crate) fn without_failure(self) -> SidePlan<'a> {
        SidePlan {
            changed_from: u64::MAX,
            refused: u64::MAX,
            planned: u64::MAX,
            ..self
        }
    }

    /// The reader of the opening with this number.
    fn reader(self, opening: u64, side: Side, journal: &'a Journal) -> PlannedReader<'a> {
        let text = if self.changed_from <= opening && opening < self.changed_until {
            self.other_text
        } else {
            self.text
        };
        let plan = if self.planned == opening {
            self.plan
        } else {
            self.plan.without_failure()
        };
        PlannedReader::new(text, plan, side, journal)
    }
}

/// Two databases, each given by a plan. They show contracts none of their bytes.
#[derive(Drop)]
pub(crate) struct PlannedSources<'a> {
    old_plan: SidePlan<'a>,
    new_plan: SidePlan<'a>,
    old_openings: u64,
    new_openings: u64,
    failures: u64,
    journal: &'a Journal,
}

impl<'a> PlannedSources<'a> {
    ghost use Rattle.aide_planned.specs.code.Openings.{openings_of};

    pub(crate) fn new(
        old_plan: SidePlan<'a>,
        new_plan: SidePlan<'a>,
        journal: &'a Journal,
    ) -> PlannedSources<'a> {
        PlannedSources {
            old_plan,
            new_plan,
            old_openings: 0,
            new_openings: 0,
            failures: 0,
            journal,
        }
    }

    /// How often a side was opened, also if that was refused. The count stops at its last value.
    pub(crate) fn openings(&self, side: Side) -> u64 {
        match side {
            Side::Old => self.old_openings,
            Side::New => self.new_openings,
        }
    }

    /// How often an opening or a closed reel has failed. The count stops at its last value.
    pub(crate) fn failures(&self) -> u64 {
        self.failures
    }

    /// Counts an opening, and returns its number.
    fn count(&mut self, side: Side) -> u64
        ensures counts { openings_of self.new side ≡ one_more (openings_of self.old side) }
        ensures others { openings_of self.new (other_side side)
            ≡ openings_of self.old (other_side side) }
        ensures failures { self.new.failures ≡ self.old.failures }
    {
        match side {
            Side::Old => {
                self.old_openings = self.old_openings.saturating_add(1);
                self.old_openings
            }
            Side::New => {
                self.new_openings = self.new_openings.saturating_add(1);
                self.new_openings
            }
        }
    }
}

impl<'a> Sources for PlannedSources<'a> {
    ghost use Rattle.aide_planned.specs.code.Openings.{openings_of};

    type R = ReadReel<PlannedReader<'a>>;

    ghost bytes_of = { λ _ _. None };

    ghost openings = { openings_of };

    ghost failures = { λ sources. sources.failures };

    fn open(&mut self, side: Side) -> Result<ReadReel<PlannedReader<'a>>, OpenFault> {
        let opening = self.count(side);
        let plan = match side {
            Side::Old => self.old_plan,
            Side::New => self.new_plan,
        };
        self.journal.note_opening(side);
        if plan.refused == opening {
            self.failures = self.failures.saturating_add(1);
            return Err(OpenFault);
        }
        Ok(ReadReel::new(plan.reader(opening, side, self.journal)))
    }

    fn close(&mut self, reel: ReadReel<PlannedReader<'a>>) {
        self.failures = self.failures.saturating_add(reel.failures());
    }
}
