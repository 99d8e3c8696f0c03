//! A sink that keeps its bytes in memory.
ghost use Rattle.std.specs.Prelude.{◌≡◌, [], Some, true};

use crate::sink::Sink;
use aide_entry::DeviceFault;
use std::alloc::Allocator;
use std::marker::Model;

/// Keeps the bytes that were delivered. A failed allocation is a failure of this sink.
#[derive(Drop)]
pub struct MemorySink<A: Allocator + Copy> {
    bytes: Vec<u8, A>,
    failures: u64,
    flushes: u64,
}

impl<A: Allocator + Copy> Model for MemorySink<A> {
    ghost use Rattle.aide_text.specs.SinkViews.{MemorySinkView};

    ghost Value = { MemorySinkView };

    ghost view = { λ sink. record {
      bytes = sink.bytes.items;
      failures = sink.failures;
      flushes = sink.flushes;
    } };
}

impl<A: Allocator + Copy> MemorySink<A> {
    /// Returns a sink without bytes. It allocates no memory.
    pub fn new(alloc: A) -> MemorySink<A>
        ensures { result ≡ record { bytes = []; failures = 0; flushes = 0 } }
    {
        MemorySink {
            bytes: Vec::new(alloc),
            failures: 0,
            flushes: 0,
        }
    }

    /// Returns how often the sink was flushed. The count stops at `u64::MAX`.
    pub fn flushes(&self) -> u64
        ensures { result ≡ self.now.flushes }
    {
        self.flushes
    }

    /// Returns all bytes delivered so far.
    pub fn bytes(&self) -> &[u8]
        ensures { result.now ≡ self.now.bytes }
    {
        self.bytes.as_slice()
    }
}

impl<A: Allocator + Copy> Sink for MemorySink<A> {
    ghost delivered = { λ sink. Some sink.bytes };

    ghost failures = { λ sink. sink.failures };

    ghost flushes = { λ sink. sink.flushes };

    ghost is_flushed = { λ _. true };

    fn write(&mut self, bytes: &[u8]) -> Result<usize, DeviceFault> {
        match self.bytes.extend_from_slice(bytes) {
            Ok(()) => Ok(bytes.len()),
            Err(_) => {
                self.failures = self.failures.saturating_add(1);
                Err(DeviceFault)
            }
        }
    }

    fn flush(&mut self) -> Result<(), DeviceFault> {
        self.flushes = self.flushes.saturating_add(1);
        Ok(())
    }
}
