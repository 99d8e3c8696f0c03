//! Where the files of a session come from, and the desk that holds what is read of them.
ghost use Rattle.std.specs.Prelude.{◌≡◌, ◌≤◌, [], ℕ, true, List, Option, Some, None};
ghost use Rattle.std.specs.Prelude.{IfOk, OnOk, OnErr};
ghost use Rattle.aide_entry.specs.Count.{one_more};
ghost use Rattle.aide_site.specs.Files.{GivesFile};
ghost use Rattle.aide_site.specs.Pointing.{KeepsFiles, KeepsOthers, KeepsSides, KeepsSite};
ghost use Rattle.aide_db.specs.EmptyDatabase.{empty_database};

use aide_db::{Desk, OpenFault, Reel, Side, Sources};
use aide_words::Memory;
use std::alloc::Global;

/// Files by their paths: a configuration, and two sides that are pointed at their databases.
pub trait Site: Sources {
    ghost use Rattle.aide_db.specs.declared.side.Side.{Side};

    /// The path that a side is pointed at, if any.
    ghost path_of: { Self → Side → Option (List ℕ) };

    /// Opens the file at a path. The caller has to close the reel like every other.
    ///
    /// If there is no file, the opening is refused and the failure is counted.
    fn config(&mut self, path: &str) -> Result<Self::R, OpenFault>
        ensures fresh { IfOk result (λ r. Self.R.failures r ≡ 0) }
        ensures gives { IfOk result (λ r. (file : Option (List ℕ))
            → Self.file_at self.old path.now ≡ Some file → GivesFile file (Self.R.to_come r)) }
        ensures keeps { KeepsSite Self.Sources path_of self.old self.new }
        ensures gone { Self.is_reliable self.old ≡ true
            → OnErr result (Self.file_at self.old path.now ≡ Some None) }
        ensures lookups { Self.lookups self.new ≤ one_more (Self.lookups self.old) }
        ensures ok { OnOk result (Self.failures self.new ≡ Self.failures self.old) }
        ensures fault { OnErr result (Self.failures self.new ≡ one_more (Self.failures self.old)) };

    /// Points a side at a path: the bytes of the side are then those at the path. The site keeps a
    /// copy of the path. If an allocation fails, the side is pointed at the same path as before.
    fn point(&mut self, alloc: Global, side: Side, path: &str) -> Result<(), Memory>
        ensures pointed { OnOk result ((bytes : List ℕ)
            → Self.file_at self.old path.now ≡ Some (Some bytes)
            → Self.bytes_of self.new side ≡ Some bytes) }
        ensures gone { OnOk result (Self.file_at self.old path.now ≡ Some None
            → Self.is_missing self.new side ≡ true) }
        ensures path { OnOk result (path_of self.new side ≡ Some path.now) }
        ensures others { KeepsOthers Self.Sources path_of side self.old self.new }
        ensures refused { OnErr result (KeepsSides Self.Sources path_of self.old self.new) }
        ensures keeps { KeepsFiles Self.Sources self.old self.new };

    /// Points a side at the empty database, a database without entries. It is no file, and opening it
    /// never fails. Takes no memory.
    fn point_at_empty(&mut self, side: Side)
        ensures pointed { Self.bytes_of self.new side ≡ Some empty_database }
        ensures path { path_of self.new side ≡ None }
        ensures others { KeepsOthers Self.Sources path_of side self.old self.new }
        ensures keeps { KeepsFiles Self.Sources self.old self.new };
}

/// A site, with the desk that holds the bytes of its two databases.
#[derive(Drop)]
pub struct SiteWithDesk<S> {
    /// What opens the files.
    pub site: S,
    /// What is held of the databases.
    pub desk: Desk<Global>,
}

impl<S> SiteWithDesk<S> {
    /// Returns a site with a desk that has held nothing. It allocates no memory.
    pub fn new(alloc: Global, site: S) -> SiteWithDesk<S>
        ensures site { result.site ≡ site }
        ensures old { result.desk.old_line ≡ [] }
        ensures new { result.desk.new_line ≡ [] }
        ensures line { result.desk.line ≡ [] }
        ensures peak { result.desk.peak ≡ 0 }
        ensures room { result.desk.room ≡ 0 }
    {
        SiteWithDesk {
            site,
            desk: Desk::new(alloc),
        }
    }
}
