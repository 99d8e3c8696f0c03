//! A reader that gives few bytes at a time, fails after a chosen number of bytes once or for good, or never ends.
ghost use Rattle.std.specs.Prelude.{◌≤◌, length};

use crate::journal::Journal;
use crate::numbers::Numbers;
use aide_db::Side;
use std::io::{self, Error, ErrorKind, Read};

/// How a text is given.
#[derive(Clone, Copy)]
pub(crate) struct ReaderPlan {
    /// The most bytes that one read gives.
    pub(crate) pace: u64,
    /// After so many bytes a read fails.
    pub(crate) sound: u64,
    /// Whether only this read fails. Otherwise all later ones fail too.
    pub(crate) once: bool,
    /// What follows the text for ever, if it is a byte.
    pub(crate) endless: u64,
}

impl ReaderPlan {
    pub(crate) fn take(numbers: &mut Numbers<'_>) -> ReaderPlan {
        ReaderPlan {
            pace: numbers.take(),
            sound: numbers.take(),
            once: numbers.flag(),
            endless: numbers.take(),
        }
    }

    /// The same text at the same pace, without a failure.
    pub(crate) fn without_failure(self) -> ReaderPlan {
        ReaderPlan {
            sound: u64::MAX,
            ..self
        }
    }
}

/// Gives a text by a plan, and notes each read.
#[derive(Drop)]
pub(crate) struct PlannedReader<'a> {
    bytes: &'a [u8],
    plan: ReaderPlan,
    side: Side,
    journal: &'a Journal,
}

impl<'a> PlannedReader<'a> {
    pub(crate) fn new(
        bytes: &'a [u8],
        plan: ReaderPlan,
        side: Side,
        journal: &'a Journal,
    ) -> PlannedReader<'a> {
        PlannedReader {
            bytes,
            plan,
            side,
            journal,
        }
    }

    /// Gives the next bytes of the text.
    fn give(&mut self, buffer: &mut [u8], most: usize) -> usize
        ensures { result ≤ length buffer.old }
    {
        let count = most.min(self.bytes.len()).min(buffer.len());
        let (front, back) = self.bytes.split_at(count);
        buffer[..count].copy_from_slice(front);
        self.bytes = back;
        count
    }

    /// Gives the byte that follows the text for ever, if there is one.
    fn give_endless(&self, buffer: &mut [u8]) -> usize
        ensures { result ≤ length buffer.old }
    {
        if buffer.len() == 0 {
            return 0;
        }
        match u8::try_from(self.plan.endless) {
            Ok(byte) => {
                buffer[0] = byte;
                1
            }
            Err(_) => 0,
        }
    }
}

impl<'a> Read for PlannedReader<'a> {
    fn read(&mut self, buffer: &mut [u8]) -> io::Result<usize> {
        if self.plan.sound == 0 {
            if self.plan.once {
                self.plan.sound = u64::MAX;
            }
            self.journal.note_failure(self.side);
            return Err(Error::from(ErrorKind::Other));
        }
        let most = self.plan.pace.min(self.plan.sound) as usize;
        let count = if self.bytes.is_empty() {
            self.give_endless(buffer)
        } else {
            self.give(buffer, most)
        };
        self.plan.sound = self.plan.sound.saturating_sub(count as u64);
        self.journal.note_read(self.side, count);
        Ok(count)
    }
}
