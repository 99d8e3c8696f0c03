//! A site in memory.
ghost use Rattle.std.specs.Prelude.{◌≡◌, ◌≤◌, ◌≢◌, ◌++◌, ◌∷◌, [], ℕ, true, false, List, Option};
ghost use Rattle.std.specs.Prelude.{Some, None, IfOk, IfSome, OnOk, OnErr, is_ok};
ghost use Rattle.std.specs.Option.{option_map};
ghost use Rattle.aide_site.specs.Sites.{HasLooked, IsOpened, aim_bytes, bytes_at, either};
ghost use Rattle.aide_site.specs.Sites.{files_at, of_file, side_bytes, side_given};
ghost use Rattle.aide_site.specs.Sites.{side_missing, side_openings, side_path};
ghost use Rattle.aide_site.specs.Files.{GivesFile};
ghost use Rattle.aide_site.specs.declared.pointed.Aim.TheVariants.{Nowhere};
ghost use Rattle.aide_site.specs.Pointing.{KeepsSite};
ghost use Rattle.aide_entry.specs.Count.{one_more, sum_of};
ghost use Rattle.aide_db.specs.Opening.{TellsTheSame, CountsOpening, HasOpened, HasRefused};

use crate::pointed::{Aim, Pointed, empty_database};
use crate::site::Site;
use aide_db::{OpenFault, Reel, Side, Sources};
use aide_words::Memory;
use std::alloc::Global;
use std::marker::Model;

/// A file. Contracts see its path and its bytes.
#[derive(Drop)]
pub struct StoredFile<'a> {
    path: &'a str,
    bytes: &'a [u8],
}

impl<'a> Model for StoredFile<'a> {
    ghost Value = { List ℕ × List ℕ };

    ghost view = { λ h. (h.path.now, h.bytes.now) };
}

/// Files in memory, lent to the site. If several files have one path, the file added last counts.
/// The site shows what is at every path. Only the opening of a file that is not there, or of a side that points at
/// nothing, fails. `add` and `point` may run out of memory.
#[derive(Drop)]
pub struct MemorySite<'a> {
    files: Vec<StoredFile<'a>>,
    sides: Pointed,
    lookups: u64,
    failures: u64,
}

impl<'a> Model for MemorySite<'a> {
    ghost use Rattle.aide_site.specs.Sites.{Shelf};

    ghost Value = { Shelf };

    ghost view = { λ s. record {
      files = s.files.items;
      old_aim = s.sides.old_aim;
      new_aim = s.sides.new_aim;
      old_openings = s.sides.old_openings;
      new_openings = s.sides.new_openings;
      old_given = s.sides.old_given;
      new_given = s.sides.new_given;
      lookups = s.lookups;
      failures = s.failures;
    } };
}

/// Returns the bytes of a file if this path is the path of the file, otherwise those found before.
fn later<'a>(found: Option<&'a [u8]>, file: &StoredFile<'a>, path: &str) -> Option<&'a [u8]>
    ensures { option_map (λ b. b.now) result
        ≡ either (of_file file.now path.now) (option_map (λ b. b.now) found.entry) }
{
    if file.path == path {
        Some(file.bytes)
    } else {
        found
    }
}

/// Returns the bytes of the last file that has this path.
fn look<'a>(files: &[StoredFile<'a>], path: &str) -> Option<&'a [u8]>
    ensures { option_map (λ b. b.now) result ≡ bytes_at files.now path.now }
{
    let mut found = None;
    for file in files {
        found = later(found, file, path);
    }
    found
}

/// Returns the bytes that a side gives.
fn look_side<'a>(files: &[StoredFile<'a>], aim: &Aim) -> Option<&'a [u8]>
    ensures { option_map (λ b. b.now) result ≡ aim_bytes files.now aim.now }
{
    match aim {
        Aim::At(path) => look(files, path.as_str()),
        Aim::Empty => Some(empty_database()),
        Aim::Nowhere => None,
    }
}

impl<'a> MemorySite<'a> {
    /// Returns a site without files. No side is pointed at anything yet. Takes no memory.
    pub fn new(alloc: Global) -> MemorySite<'a>
        ensures { result ≡ record {
          files = [];
          failures = 0;
          lookups = 0;
          old_aim = Nowhere;
          new_aim = Nowhere;
          old_openings = 0;
          new_openings = 0;
          old_given = false;
          new_given = false;
        } }
    {
        MemorySite {
            files: Vec::new(alloc),
            sides: Pointed::new(),
            lookups: 0,
            failures: 0,
        }
    }

    /// Adds a file. From now on these are the bytes at its path, and of each side that is pointed
    /// at this path. If an allocation fails, the site is as before.
    pub fn add(&mut self, path: &'a str, bytes: &'a [u8]) -> Result<(), Memory>
        ensures ok { OnOk result (self.new
            ≡ record self.old {
              files = self.old.files ++ (path.entry.now, bytes.entry.now) ∷ [];
            }) }
        ensures here { OnOk result (bytes_at self.new.files path.entry.now ≡ Some bytes.entry.now) }
        ensures elsewhere { OnOk result ((other : List ℕ) → other ≢ path.entry.now
            → bytes_at self.new.files other ≡ bytes_at self.old.files other) }
        ensures err { OnErr result (self.new ≡ self.old) }
    {
        if let Err(_) = self.files.push(StoredFile { path, bytes }) {
            return Err(Memory);
        }
        Ok(())
    }
}

impl<'a> Sources for MemorySite<'a> {
    type R = &'a [u8];

    ghost bytes_of = { side_bytes };

    ghost bytes_at = { λ s side _. side_bytes s side };

    ghost openings = { side_openings };

    ghost failures = { λ s. s.failures };

    ghost file_at = { files_at };

    ghost is_missing = { side_missing };

    ghost is_reliable = { λ _. true };

    ghost was_given = { side_given };

    ghost lookups = { λ s. s.lookups };

    // The opening is refused exactly if the side is not pointed at a file that is there or at the empty database.
    fn open(&mut self, side: Side) -> Result<&'a [u8], OpenFault>
        ensures missing { OnErr result (side_bytes self.old side ≡ None) }
        ensures there { OnOk result (IsOpened side self.old self.new) }
        ensures fresh { IfOk result (λ reel. ⟦<&'a [u8] as Reel>⟧.failures reel ≡ 0) }
        ensures gives { IfOk result (λ reel. IfSome (side_bytes self.old side)
            (λ bytes. ⟦<&'a [u8] as Reel>⟧.to_come reel ≡ Some bytes)) }
        ensures keeps { TellsTheSame side_bytes (λ s side _. side_bytes s side) files_at
            side_missing (λ _. true) self.old self.new }
        ensures opens { CountsOpening side_openings (λ s. s.lookups) side self.old self.new }
        ensures opened { OnOk result (HasOpened side_missing (λ s. s.failures) side
            self.old self.new) }
        ensures refused { OnErr result (HasRefused side_bytes (λ _. true) side_given
            (λ s. s.failures) side self.old self.new) }
    {
        match look_side(self.files.as_slice(), self.sides.aim(side)) {
            Some(bytes) => {
                self.sides.count(side, true);
                Ok(bytes)
            }
            None => {
                self.sides.count(side, false);
                self.failures = self.failures.saturating_add(1);
                Err(OpenFault)
            }
        }
    }

    fn close(&mut self, reel: &'a [u8])
        ensures unchanged { self.new ≡ self.old }
        ensures keeps { TellsTheSame side_bytes (λ s side _. side_bytes s side) files_at
            side_missing (λ _. true) self.old self.new }
        ensures openings { side_openings self.new ≡ side_openings self.old }
        ensures adds { self.new.failures
            ≡ sum_of self.old.failures (⟦<&'a [u8] as Reel>⟧.failures reel.entry) }
    {
        let _ = reel;
    }
}

impl<'a> Site for MemorySite<'a> {
    ghost path_of = { side_path };

    // The opening is refused exactly if there is no file at the path.
    fn config(&mut self, path: &str) -> Result<&'a [u8], OpenFault>
        ensures looks { HasLooked path.now (is_ok result) self.old self.new }
        ensures lookups { self.new.lookups ≤ one_more self.old.lookups }
        ensures gone { OnErr result (files_at self.old path.now ≡ Some None) }
        ensures fresh { IfOk result (λ reel. ⟦<&'a [u8] as Reel>⟧.failures reel ≡ 0) }
        ensures gives { IfOk result (λ reel. (file : Option (List ℕ))
            → files_at self.old path.now ≡ Some file
            → GivesFile file (⟦<&'a [u8] as Reel>⟧.to_come reel)) }
        ensures keeps { KeepsSite ⟦<MemorySite<'a> as Sources>⟧ side_path self.old self.new }
        ensures ok { OnOk result (self.new.failures ≡ self.old.failures) }
        ensures fault { OnErr result (self.new.failures ≡ one_more self.old.failures) }
    {
        self.lookups = self.lookups.saturating_add(1);
        match look(self.files.as_slice(), path) {
            Some(bytes) => Ok(bytes),
            None => {
                self.failures = self.failures.saturating_add(1);
                Err(OpenFault)
            }
        }
    }

    fn point(&mut self, alloc: Global, side: Side, path: &str) -> Result<(), Memory> {
        self.sides.point(alloc, side, path)
    }

    fn point_at_empty(&mut self, side: Side) {
        self.sides.set(side, Aim::Empty);
    }
}
