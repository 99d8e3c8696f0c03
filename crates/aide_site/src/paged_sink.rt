//! A sink that gathers small pieces.
ghost use Rattle.std.specs.Prelude.{◌≡◌, ◌==◌, ◌&&◌, ◌<◌, ◌≤◌, ℕ, List, [], length, drop, take};
ghost use Rattle.std.specs.Prelude.{IfOk, OnOk, Bool};
ghost use Rattle.std.specs.Io.KnownBytes.{Appends, Keeps, WriteAppends, append_known};
ghost use Rattle.aide_text.specs.Failures.{CountsFault};
ghost use Rattle.aide_site.specs.Page.{none_waits, known_of};

use aide_entry::DeviceFault;
use aide_text::{Sink, emit};
use aide_words::Memory;
use std::alloc::Global;
use std::marker::Model;

/// The number of bytes of a page. It is more than the longest line about a database that the
/// configuration names: such a path has at most 4,096 bytes, each printed as at most four.
const PAGE: usize = 32_768;

/// Gathers bytes in a page of 32,768 bytes. A write that finds the page full, and a flush, pass the
/// page on to another sink. Memory for the page is reserved when the sink is made. Later calls
/// allocate nothing.
///
/// Bytes on the page count as delivered. After a failure the bytes that were not passed on stay on
/// the page.
#[derive(Drop)]
pub struct PagedSink<W> {
    sink: W,
    page: Box<[u8; PAGE]>,
    used: usize,
    passed: usize,
    ghost within: { passed ≤ used },
    ghost room: { used ≤ 32768 },
}

impl<W> Model for PagedSink<W> {
    ghost use Rattle.std.specs.Prelude.{drop, take};
    ghost use Rattle.aide_site.specs.Page.{Paged};

    ghost Value = { Paged W };

    ghost view = { λ s. record {
      sink = s.sink;
      waiting = drop s.passed (take s.used s.page.value);
      used = s.used;
    } };
}

impl<W: Sink> PagedSink<W> {
    /// Makes an empty page before a sink. Only this call takes memory.
    pub fn new(alloc: Global, sink: W) -> Result<PagedSink<W>, Memory>
    where
        W: Drop,
        ensures sink { IfOk result (λ s. s.sink ≡ sink) }
        ensures waiting { IfOk result (λ s. s.waiting ≡ []) }
        ensures used { IfOk result (λ s. s.used ≡ 0) }
    {
        let Ok(page) = Box::new(alloc, [0; PAGE]) else {
            return Err(Memory);
        };
        Ok(PagedSink {
            sink,
            page,
            used: 0,
            passed: 0,
        })
    }

    /// Passes on the bytes on the page.
    fn send(&mut self) -> Result<(), DeviceFault>
        ensures ok { OnOk result (self.new.waiting ≡ []) }
        ensures room { OnOk result (self.new.used ≡ 0) }
        ensures bytes { Keeps (known_of W.delivered self.old) (known_of W.delivered self.new) }
        ensures flushes { W.flushes self.new.sink ≡ W.flushes self.old.sink }
        ensures fault { CountsFault (W.failures self.old.sink) (W.failures self.new.sink) result }
    {
        match emit(&mut self.sink, &self.page[self.passed..self.used]) {
            Ok(()) => {
                self.used = 0;
                self.passed = 0;
                Ok(())
            }
            Err(count) => {
                self.passed += count as usize;
                Err(DeviceFault)
            }
        }
    }

    /// Takes as many of the first bytes as fit on the page. Returns their number.
    #[inline(always)]
    fn take(&mut self, bytes: &[u8]) -> usize
        requires some { 0 < length bytes.now }
        requires room { self.old.used < 32768 }
        ensures some { (0 < result) × (result ≤ length bytes.now) }
        ensures bytes { Appends (known_of W.delivered self.old) (known_of W.delivered self.new)
            (take result bytes.now) }
        ensures sink { self.new.sink ≡ self.old.sink }
    {
        let count = bytes.len().min(PAGE - self.used);
        self.page[self.used..self.used + count].copy_from_slice(&bytes[..count]);
        self.used += count;
        count
    }

    /// Takes some of these bytes, which may find the page full. It is passed on then.
    #[cold]
    #[inline(never)]
    fn take_late(&mut self, bytes: &[u8]) -> Result<usize, DeviceFault>
        requires { 0 < length bytes.now }
        ensures some { IfOk result (λ n. (0 < n) × (n ≤ length bytes.now)) }
        ensures bytes { WriteAppends (known_of W.delivered self.old) (known_of W.delivered self.new)
            result bytes.now }
        ensures flushes { W.flushes self.new.sink ≡ W.flushes self.old.sink }
        ensures fault { CountsFault (W.failures self.old.sink) (W.failures self.new.sink) result }
    {
        if self.used >= PAGE {
            self.send()?;
        }
        Ok(self.take(bytes))
    }
}

impl<W: Sink> Sink for PagedSink<W> {
    ghost delivered = { λ s. known_of W.delivered s };

    ghost failures = { λ s. W.failures s.sink };

    ghost flushes = { λ s. W.flushes s.sink };

    ghost is_flushed = { λ s. W.is_flushed s.sink && none_waits s.waiting };

    // Nearly every piece fits, and the compiler knows how long most of them are.
    #[inline(always)]
    fn write(&mut self, bytes: &[u8]) -> Result<usize, DeviceFault> {
        if bytes.len() > PAGE - self.used {
            return self.take_late(bytes);
        }
        Ok(self.take(bytes))
    }

    fn flush(&mut self) -> Result<(), DeviceFault> {
        self.send()?;
        self.sink.flush()
    }
}
