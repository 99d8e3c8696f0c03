//! Reels over the machine's files.
ghost use Rattle.std.specs.Prelude.{◌≡◌};
ghost use Rattle.aide_site.specs.Reels.{reel_failures, reel_to_come};

use aide_db::{ReadReel, Reel};
use aide_entry::DeviceFault;
use std::io::Read;

/// Reads a file of the machine, or a text in memory.
pub enum FileReel<T: Read> {
    /// A file.
    File(ReadReel<T>),
    /// A text in memory.
    Text(&'static [u8]),
}

impl<T: Read> Reel for FileReel<T> {
    ghost to_come = { reel_to_come T.remaining };

    ghost failures = { reel_failures };

    fn read(&mut self, buffer: &mut [u8]) -> Result<usize, DeviceFault> {
        match self {
            FileReel::File(reel) => reel.read(buffer),
            FileReel::Text(bytes) => Reel::read(bytes, buffer),
        }
    }
}
