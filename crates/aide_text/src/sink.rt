//! Where a report goes: devices that take bytes.
ghost use Rattle.std.specs.Prelude.{◌≡◌, ◌<◌, ◌≤◌, ℕ, List, Option, length, IfOk, OnOk, Bool, true};
ghost use Rattle.std.specs.Prelude.{false};
ghost use Rattle.std.specs.Io.KnownBytes.{WriteAppends, Keeps};
ghost use Rattle.aide_text.specs.Failures.{CountsFault, CountsFlush};

use aide_entry::DeviceFault;
use std::io::Write;
use std::marker::Model;

/// A device that takes bytes. Contracts see the bytes delivered, if the device shows them, and how often it has failed.
/// They also see how often it was flushed, and whether all delivered bytes have been flushed. Both counts stop at
/// `u64::MAX`.
pub trait Sink {
    /// The bytes delivered so far, if the device shows them.
    ghost delivered: { Self → Option (List ℕ) };

    /// How often the device has failed.
    ghost failures: { Self → ℕ };

    /// How often the device was flushed. Failed flushes do not count.
    ghost flushes: { Self → ℕ };

    /// Whether the device was flushed, and nothing was written after that.
    ghost is_flushed: { Self → Bool };

    /// Takes the first of these bytes, of which there must be one, and returns how many it took: at least one. A failed
    /// write takes no byte, and counts one failure.
    fn write(&mut self, bytes: &[u8]) -> Result<usize, DeviceFault>
        requires { 0 < length bytes.now }
        ensures some { IfOk result (λ n. (0 < n) × (n ≤ length bytes.now)) }
        ensures bytes { WriteAppends (delivered self.old) (delivered self.new) result bytes.now }
        ensures flushes { flushes self.new ≡ flushes self.old }
        ensures fault { CountsFault (failures self.old) (failures self.new) result };

    /// Passes on the bytes that the device has taken so far. It adds no byte of its own. A failed flush counts one
    /// failure.
    fn flush(&mut self) -> Result<(), DeviceFault>
        ensures bytes { Keeps (delivered self.old) (delivered self.new) }
        ensures flushed { OnOk result (is_flushed self.new ≡ true) }
        ensures flushes { CountsFlush (flushes self.old) (flushes self.new) result }
        ensures fault { CountsFault (failures self.old) (failures self.new) result };
}

/// A sink over any writer. Every error of the writer counts as a failure, and so does a write that takes no byte. What
/// was delivered is what the writer shows of its contents.
#[derive(Drop)]
pub struct WriteSink<W> {
    writer: W,
    failures: u64,
    flushes: u64,
    is_flushed: bool,
}

impl<W> Model for WriteSink<W> {
    ghost use Rattle.aide_text.specs.SinkViews.{WriteSinkView};

    ghost Value = { WriteSinkView W };

    ghost view = { λ sink. record {
      device = sink.writer;
      failures = sink.failures;
      flushes = sink.flushes;
      is_flushed = sink.is_flushed;
    } };
}

impl<W: Write> WriteSink<W> {
    /// Returns a sink that has counted no failure. It allocates no memory.
    pub fn new(writer: W) -> WriteSink<W>
        ensures { result ≡ record {
          device = writer;
          failures = 0;
          flushes = 0;
          is_flushed = false;
        } }
    {
        WriteSink {
            writer,
            failures: 0,
            flushes: 0,
            is_flushed: false,
        }
    }

    /// Returns how often the writer was flushed. Failed flushes do not count. The count stops at `u64::MAX`.
    pub fn flushes(&self) -> u64
        ensures { result ≡ self.now.flushes }
    {
        self.flushes
    }

    /// Hands back the writer as it is.
    pub fn into_inner(self) -> W
        ensures { result ≡ self.device }
    {
        let WriteSink {
            writer,
            failures: _,
            flushes: _,
            is_flushed: _,
        } = self;
        writer
    }
}

impl<W: Write> Sink for WriteSink<W> {
    ghost delivered = { λ sink. W.contents sink.device };

    ghost failures = { λ sink. sink.failures };

    ghost flushes = { λ sink. sink.flushes };

    ghost is_flushed = { λ sink. sink.is_flushed };

    // Whatever was flushed before: after a write something may wait in the writer.
    fn write(&mut self, bytes: &[u8]) -> Result<usize, DeviceFault>
        requires { 0 < length bytes.now }
        ensures some { IfOk result (λ n. (0 < n) × (n ≤ length bytes.now)) }
        ensures bytes { WriteAppends (W.contents self.old.device) (W.contents self.new.device)
            result bytes.now }
        ensures flushes { self.new.flushes ≡ self.old.flushes }
        ensures unflushed { self.new.is_flushed ≡ false }
        ensures fault { CountsFault self.old.failures self.new.failures result }
    {
        self.is_flushed = false;
        match self.writer.write(bytes) {
            Ok(count) if count > 0 => Ok(count),
            _ => {
                self.failures = self.failures.saturating_add(1);
                Err(DeviceFault)
            }
        }
    }

    fn flush(&mut self) -> Result<(), DeviceFault> {
        match self.writer.flush() {
            Ok(()) => {
                self.flushes = self.flushes.saturating_add(1);
                self.is_flushed = true;
                Ok(())
            }
            Err(_) => {
                self.failures = self.failures.saturating_add(1);
                Err(DeviceFault)
            }
        }
    }
}
