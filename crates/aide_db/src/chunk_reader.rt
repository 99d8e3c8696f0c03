//! A reel that is read in chunks.
ghost use Rattle.sha2.specs.Hashers.{Holds256};
ghost use Rattle.sha2.specs.Sha256.{sha256};
ghost use Rattle.std.specs.Prelude.{ℕ, List, true, [], ◌++◌, Some, drop, length, IfOk, OnErr, OnOk};
ghost use Rattle.std.specs.Prelude.{◌≡◌, ◌<◌, ◌≤◌, ◌==◌, IsSome};
ghost use Rattle.aide_db.specs.NextChunk.{IsFilled, IsLeft, Gives, IsAhead, IsChunkFront};
ghost use Rattle.aide_db.specs.NextChunk.{IsReadInto, after_filled};
ghost use Rattle.aide_db.specs.Told.{told, tells};
ghost use Rattle.aide_db.specs.code.ChunkReaderView.{ChunkReaderView, left_in};

use crate::reel::Reel;
use aide_entry::DeviceFault;
use sha2::{Digest, Sha256};
use std::marker::Model;

/// The outcome of asking for a chunk.
#[derive(Clone, Copy)]
pub enum Filled {
    /// Some bytes are ahead now.
    Some,
    /// No byte is left.
    Nothing,
    /// The device failed, and gave no byte.
    Failed,
}

/// A reel, and the last chunk that it gave. Contracts see the reel, the bytes of that chunk that were not used yet, and
/// the hash of all bytes that the reel gave.
pub struct ChunkReader<R: Reel> {
    reel: R,
    chunk: [u8; 4096],
    start: usize,
    end: usize,
    hash: Sha256,
}

impl<R: Reel> Model for ChunkReader<R> {
    ghost use Rattle.std.specs.Prelude.{◌≤◌, ◌-◌, take, drop};
    ghost use Rattle.aide_db.specs.code.ChunkReaderView.{ChunkReaderView};

    ghost Value = { ChunkReaderView R };

    ghost view = { λ b. record {
      reel = b.reel;
      ahead = take (b.end - b.start) (drop b.start b.chunk);
      hash = b.hash;
    } };

    ghost invariant = { λ b. (b.start ≤ b.end) × (b.end ≤ 4096) };
}

impl<R: Reel> ChunkReader<R> {
    /// Returns a reader over a reel. The reel has not been asked for a byte yet.
    pub fn new(reel: R) -> ChunkReader<R>
        ensures reel { result.reel ≡ reel }
        ensures ahead { result.ahead ≡ [] }
        ensures hash { Holds256 result.hash [] }
    {
        ChunkReader {
            reel,
            chunk: [0; 4096],
            start: 0,
            end: 0,
            hash: Sha256::new(),
        }
    }

    /// Hands back the reel as it is.
    pub fn into_reel(self) -> R
        ensures { result ≡ self.reel }
    {
        let ChunkReader {
            reel,
            chunk: _,
            start: _,
            end: _,
            hash: _,
        } = self;
        reel
    }

    /// Returns the bytes that were not used yet.
    pub fn ahead(&self) -> &[u8]
        ensures same { result.now ≡ self.now.ahead }
        ensures small { length result.now ≤ 4096 }
    {
        &self.chunk[self.start..self.end]
    }

    /// Returns the SHA-256 (FIPS 180-4) of all bytes that the reel gave.
    pub fn digest(&self) -> Option<[u8; 32]>
        ensures whole { (text : List ℕ) → Holds256 self.now.hash text
            → result ≡ Some (sha256 text) }
        ensures told { IsSome result }
    {
        match self.hash.clone() {
            Ok(hash) => Some(hash.finalize()),
            Err(_) => None,
        }
    }

    /// Uses the next `count` bytes.
    pub fn skip(&mut self, count: usize)
        requires { count ≤ length self.old.ahead }
        ensures reel { self.new.reel ≡ self.old.reel }
        ensures ahead { self.new.ahead ≡ drop count self.old.ahead }
        ensures hash { self.new.hash ≡ self.old.hash }
    {
        self.start += count;
    }

    /// Makes sure that bytes are ahead. If there is none, it asks the reel for at most `most` bytes.
    pub fn more(&mut self, most: u64) -> Filled
        requires some { 0 < most }
        ensures left { tells (R.to_come self.old.reel) ≡ true
            → IsLeft (left_in R.to_come self.old) (left_in R.to_come self.new) result }
        ensures gives { tells (R.to_come self.old.reel) ≡ true
            → Gives (told (R.to_come self.old.reel)) (told (R.to_come self.new.reel)) self.old.hash
            self.new.hash }
        ensures ahead { IsAhead self.new.ahead result }
        ensures most { length self.old.ahead ≤ most → length self.new.ahead ≤ most }
        ensures tells { tells (R.to_come self.old.reel) ≡ true
            → tells (R.to_come self.new.reel) ≡ true }
        ensures failures { R.failures self.new.reel
            ≡ after_filled result (R.failures self.old.reel) }
    {
        if self.start < self.end {
            return Filled::Some;
        }
        self.fill(most)
    }

    /// Asks the reel for the next chunk, of at most `most` bytes.
    fn fill(&mut self, most: u64) -> Filled
        requires used { self.old.ahead ≡ [] }
        requires some { 0 < most }
        ensures filled { tells (R.to_come self.old.reel) ≡ true
            → IsFilled (told (R.to_come self.old.reel)) (told (R.to_come self.new.reel))
            self.new.ahead result }
        ensures hashed { (before : List ℕ) → Holds256 self.old.hash before
            → Holds256 self.new.hash (before ++ self.new.ahead) }
        ensures ahead { IsAhead self.new.ahead result }
        ensures most { length self.new.ahead ≤ most }
        ensures tells { tells (R.to_come self.old.reel) ≡ true
            → tells (R.to_come self.new.reel) ≡ true }
        ensures failures { R.failures self.new.reel
            ≡ after_filled result (R.failures self.old.reel) }
    {
        let size = if most < 4096 { most as usize } else { 4096 };
        self.start = 0;
        self.end = 0;
        match take_front(&mut self.reel, &mut self.chunk, size) {
            Err(_) => Filled::Failed,
            Ok(0) => Filled::Nothing,
            Ok(count) => {
                self.end = count;
                self.hash.update(&self.chunk[..count]);
                Filled::Some
            }
        }
    }
}

/// Takes at most `size` bytes from a reel into the beginning of a chunk. Returns how many it took.
fn take_front<R: Reel>(reel: &mut R, chunk: &mut [u8], size: usize) -> Result<usize, DeviceFault>
    requires some { 0 < size }
    requires space { size ≤ length chunk.old }
    ensures read { IsReadInto size chunk.old chunk.new (R.failures reel.old) (R.failures reel.new)
        result }
    ensures front { IfOk result (λ count. tells (R.to_come reel.old) ≡ true
        → IsChunkFront count chunk.new (told (R.to_come reel.old)) (told (R.to_come reel.new))) }
    ensures end { IfOk result (λ count. count ≡ 0 → tells (R.to_come reel.old) ≡ true
        → told (R.to_come reel.old) ≡ []) }
    ensures kept { OnErr result (tells (R.to_come reel.old) ≡ true
        → told (R.to_come reel.new) ≡ told (R.to_come reel.old)) }
    ensures tells { tells (R.to_come reel.old) ≡ true → tells (R.to_come reel.new) ≡ true }
{
    reel.read(&mut chunk[..size])
}
