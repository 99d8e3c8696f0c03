//! What was read of two databases, and in which order.
use aide_db::Side;
use std::cell::Cell;

/// How many reads have gone well, and what each of the first four gave.
#[derive(Clone, Copy)]
pub(crate) struct Reads {
    pub(crate) count: usize,
    pub(crate) answers: [usize; 4],
}

/// Notes which side was read last, how many bytes the last opened reel of each side has given, and the reads of all
/// reels.
pub(crate) struct Journal {
    last: Cell<Option<Side>>,
    old_given: Cell<u64>,
    new_given: Cell<u64>,
    reads: Cell<Reads>,
}

impl Journal {
    pub(crate) fn new() -> Journal {
        Journal {
            last: Cell::new(None),
            old_given: Cell::new(0),
            new_given: Cell::new(0),
            reads: Cell::new(Reads {
                count: 0,
                answers: [0; 4],
            }),
        }
    }

    /// The side that was read last, also if the read failed.
    pub(crate) fn last(&self) -> Option<Side> {
        self.last.get()
    }

    /// How many bytes the last opened reel of a side has given.
    pub(crate) fn given(&self, side: Side) -> u64 {
        self.cell(side).get()
    }

    pub(crate) fn reads(&self) -> Reads {
        self.reads.get()
    }

    fn cell(&self, side: Side) -> &Cell<u64> {
        match side {
            Side::Old => &self.old_given,
            Side::New => &self.new_given,
        }
    }

    /// Notes that a side was opened.
    pub(crate) fn note_opening(&self, side: Side) {
        self.cell(side).set(0);
    }

    /// Notes that a read of a side failed.
    pub(crate) fn note_failure(&self, side: Side) {
        self.last.set(Some(side));
    }

    /// Notes that a read of a side gave this number of bytes.
    pub(crate) fn note_read(&self, side: Side, count: usize) {
        self.last.set(Some(side));
        let given = self.cell(side);
        given.set(given.get().saturating_add(count as u64));
        let mut reads = self.reads.get();
        let number = reads.count;
        if let Some(answer) = reads.answers.get_mut(number) {
            *answer = count;
        }
        reads.count = reads.count.saturating_add(1);
        self.reads.set(reads);
    }
}

impl Drop for Journal {
    fn drop(self) {
        let Self {
            last: _,
            old_given: _,
            new_given: _,
            reads: _,
        } = self;
    }
}
