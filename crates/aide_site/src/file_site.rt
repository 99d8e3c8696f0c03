//! The machine's files.
ghost use Rattle.std.specs.Prelude.{◌≡◌, ℕ, List, Some, false, IfSome};
ghost use Rattle.aide_site.specs.Reels.{reel_failures, reel_to_come};
ghost use Rattle.aide_site.specs.Sites.{aim_text, machine_given, machine_path, machine_text};
ghost use Rattle.aide_site.specs.declared.pointed.Aim.TheVariants.{Nowhere};
ghost use Rattle.aide_db.specs.Side.{by_side};

use crate::file_reel::FileReel;
use crate::pointed::{Aim, Pointed, empty_database};
use crate::site::Site;
use aide_db::{OpenFault, ReadReel, Reel, Side, Sources};
use aide_words::Memory;
use std::alloc::Global;
use std::fs;
use std::marker::Model;
use std::rt::Files;

/// The files of the machine. Contracts see nothing of their bytes, only those of the empty database.
/// A read asks the machine for no more bytes than the caller asks for.
#[derive(Drop)]
pub struct FileSite<F> {
    files: F,
    sides: Pointed,
    lookups: u64,
    failures: u64,
}

impl<F> Model for FileSite<F> {
    ghost use Rattle.aide_site.specs.Sites.{Machine};

    ghost Value = { Machine F };

    ghost view = { λ s. record {
      files = s.files;
      old_aim = s.sides.old_aim;
      new_aim = s.sides.new_aim;
      old_openings = s.sides.old_openings;
      new_openings = s.sides.new_openings;
      old_given = s.sides.old_given;
      new_given = s.sides.new_given;
      lookups = s.lookups;
      failures = s.failures;
    } };
}

/// Opens a reel over the file at a path.
fn open_file<F: Files>(files: &F, path: &str) -> Option<FileReel<F::File>>
    ensures { IfSome result (λ r. reel_failures r ≡ 0) }
{
    let Ok(file) = fs::open(files, path) else {
        return None;
    };
    Some(FileReel::File(ReadReel::new(file)))
}

/// Opens a reel over what a side is pointed at, if it is pointed at anything.
fn open_aim<F: Files>(files: &F, aim: &Aim) -> Option<FileReel<F::File>>
    ensures fresh { IfSome result (λ r. reel_failures r ≡ 0) }
    ensures gives { IfSome result (λ r. IfSome (aim_text aim.now)
        (λ bytes. reel_to_come F.File.Read.remaining r ≡ Some bytes)) }
{
    match aim {
        Aim::At(path) => open_file(files, path.as_str()),
        Aim::Empty => Some(FileReel::Text(empty_database())),
        Aim::Nowhere => None,
    }
}

impl<F: Files> FileSite<F> {
    /// Returns the files of a machine. No side is pointed at anything yet. Takes no memory.
    pub fn new(files: F) -> FileSite<F>
        ensures { result ≡ record {
          files = files;
          failures = 0;
          lookups = 0;
          old_aim = Nowhere;
          new_aim = Nowhere;
          old_openings = 0;
          new_openings = 0;
          old_given = false;
          new_given = false;
        } }
    {
        FileSite {
            files,
            sides: Pointed::new(),
            lookups: 0,
            failures: 0,
        }
    }
}

impl<F: Files> Sources for FileSite<F> {
    type R = FileReel<F::File>;

    ghost bytes_of = { machine_text };

    ghost bytes_at = { λ s side _. machine_text s side };

    ghost openings = { λ s side. by_side s.old_openings s.new_openings side };

    ghost failures = { λ s. s.failures };

    ghost was_given = { machine_given };

    ghost lookups = { λ s. s.lookups };

    fn open(&mut self, side: Side) -> Result<FileReel<F::File>, OpenFault> {
        let reel = open_aim(&self.files, self.sides.aim(side));
        self.sides.count(side, reel.is_some());
        let Some(reel) = reel else {
            self.failures = self.failures.saturating_add(1);
            return Err(OpenFault);
        };
        Ok(reel)
    }

    fn close(&mut self, reel: FileReel<F::File>) {
        match reel {
            FileReel::File(reel) => {
                self.failures = self.failures.saturating_add(reel.failures());
                let _ = reel.into_reader();
            }
            FileReel::Text(_) => {}
        }
    }
}

impl<F: Files> Site for FileSite<F> {
    ghost path_of = { machine_path };

    fn config(&mut self, path: &str) -> Result<FileReel<F::File>, OpenFault> {
        self.lookups = self.lookups.saturating_add(1);
        match open_file(&self.files, path) {
            Some(reel) => Ok(reel),
            None => {
                self.failures = self.failures.saturating_add(1);
                Err(OpenFault)
            }
        }
    }

    fn point(&mut self, alloc: Global, side: Side, path: &str) -> Result<(), Memory> {
        self.sides.point(alloc, side, path)
    }

    fn point_at_empty(&mut self, side: Side) {
        self.sides.set(side, Aim::Empty);
    }
}
