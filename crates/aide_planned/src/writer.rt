//! A writer that takes few bytes at a time, and stumbles after a chosen number of bytes once or for good.
use crate::numbers::Numbers;
use aide_text::MemorySink;
use std::alloc::{Allocator, Global};
use std::io::{self, Error, ErrorKind, Write};

/// How bytes are taken.
#[derive(Clone, Copy)]
pub(crate) struct WriterPlan {
    /// The most bytes that one write takes.
    pace: u64,
    /// After so many bytes a write stumbles.
    sound: u64,
    /// Whether it takes nothing then. Otherwise it fails.
    takes_nothing: bool,
    /// Whether a flush fails.
    flush_fails: bool,
    /// Whether only one call stumbles. Otherwise all later ones do too.
    once: bool,
}

impl WriterPlan {
    pub(crate) fn take(numbers: &mut Numbers<'_>) -> WriterPlan {
        WriterPlan {
            pace: numbers.take(),
            sound: numbers.take(),
            takes_nothing: numbers.flag(),
            flush_fails: numbers.flag(),
            once: numbers.flag(),
        }
    }

    /// Whatever is written is taken.
    pub(crate) fn without_failure() -> WriterPlan {
        WriterPlan {
            pace: u64::MAX,
            sound: u64::MAX,
            takes_nothing: false,
            flush_fails: false,
            once: false,
        }
    }
}

/// What a writer has taken, and how often it was called.
#[derive(Drop)]
pub(crate) struct Taken {
    pub(crate) bytes: Vec<u8>,
    /// How often it was flushed.
    pub(crate) flushes: u64,
    /// How many bytes it had when it was flushed last.
    pub(crate) flushed: usize,
    /// How often it has stumbled.
    pub(crate) stumbles: u64,
    /// How often it was called after it stumbled first.
    pub(crate) later: u64,
}

impl Taken {
    pub(crate) fn new(alloc: Global) -> Taken {
        Taken {
            bytes: Vec::new(alloc),
            flushes: 0,
            flushed: 0,
            stumbles: 0,
            later: 0,
        }
    }

    /// Takes the bytes of a sink that was refused memory, or was not. Without memory for them there are none.
    pub(crate) fn take_over<A: Allocator + Copy>(
        &mut self,
        sink: &MemorySink<A>,
        is_refused: bool,
    ) {
        let _ = self.bytes.extend_from_slice(sink.bytes());
        self.flushes = sink.flushes();
        self.flushed = self.bytes.len();
        self.stumbles = u64::from(is_refused);
    }
}

/// Takes bytes by a plan.
#[derive(Drop)]
pub(crate) struct PlannedWriter<'a> {
    plan: WriterPlan,
    taken: &'a mut Taken,
}

impl<'a> PlannedWriter<'a> {
    pub(crate) fn new(plan: WriterPlan, taken: &'a mut Taken) -> PlannedWriter<'a> {
        PlannedWriter { plan, taken }
    }

    /// Counts a call.
    fn note_call(&mut self) {
        if self.taken.stumbles > 0 {
            self.taken.later = self.taken.later.saturating_add(1);
        }
    }

    /// Counts a call that stumbles. If there is to be only one, all is well from now on.
    fn note_stumble(&mut self) {
        self.taken.stumbles = self.taken.stumbles.saturating_add(1);
        if self.plan.once {
            self.plan = WriterPlan {
                pace: self.plan.pace,
                ..WriterPlan::without_failure()
            };
        }
    }
}

impl<'a> Write for PlannedWriter<'a> {
    fn write(&mut self, buf: &[u8]) -> io::Result<usize> {
        self.note_call();
        if self.plan.sound == 0 {
            let takes_nothing = self.plan.takes_nothing;
            self.note_stumble();
            return if takes_nothing {
                Ok(0)
            } else {
                Err(Error::from(ErrorKind::Other))
            };
        }
        let most = self.plan.pace.min(self.plan.sound) as usize;
        let count = most.min(buf.len());
        self.plan.sound = self.plan.sound.saturating_sub(count as u64);
        self.taken.bytes.extend_from_slice(&buf[..count])?;
        Ok(count)
    }

    fn flush(&mut self) -> io::Result<()> {
        self.note_call();
        if self.plan.flush_fails {
            self.note_stumble();
            return Err(Error::from(ErrorKind::Other));
        }
        self.taken.flushes = self.taken.flushes.saturating_add(1);
        self.taken.flushed = self.taken.bytes.len();
        Ok(())
    }
}
