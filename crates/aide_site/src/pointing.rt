//! Pointing a site at the two databases of a pair.
ghost use Rattle.std.specs.Prelude.{◌≡◌, ◌≤◌, ℕ, true, List, Some, None, OnOk};
ghost use Rattle.aide_merge.specs.Asked.{asked};
ghost use Rattle.aide_site.specs.Pointing.{KeepsFiles, KeepsOthers};
ghost use Rattle.aide_site.specs.Trusted.{files_of};
ghost use Rattle.aide_site.specs.code.Parts.{IsPointed};

use crate::limits::LONGEST;
use crate::site::Site;
use crate::whose::Whose;
use aide_conf::Task;
use aide_db::{Desk, Side};
use aide_words::Memory;
use std::alloc::Global;

/// Points a side of a site at its database. For the trusted pair the empty path stands for the
/// empty database.
#[tactic(auto, unfolding(crate::specs::Trusted::trusted_at))]
fn point_side<S: Site>(
    alloc: Global,
    site: &mut S,
    side: Side,
    path: &str,
    whose: Whose,
) -> Result<(), Memory>
    ensures pointed { OnOk result ((bytes : List ℕ)
        → files_of whose (S.file_at site.old) path.now ≡ Some (Some bytes)
        → S.bytes_of site.new side ≡ Some bytes) }
    ensures gone { OnOk result (files_of whose (S.file_at site.old) path.now ≡ Some None
        → S.is_missing site.new side ≡ true) }
    ensures others { OnOk result (KeepsOthers S.Sources S.path_of side site.old site.new) }
    ensures keeps { KeepsFiles S.Sources site.old site.new }
{
    match whose {
        Whose::Compared => site.point(alloc, side, path),
        Whose::Trusted => {
            if path.is_empty() {
                site.point_at_empty(side);
                return Ok(());
            }
            site.point(alloc, side, path)
        }
    }
}

/// Points a site at the databases of its pair, and reserves what a comparison may hold of them.
pub fn prepare<S: Site>(
    alloc: Global,
    desk: &mut Desk<Global>,
    site: &mut S,
    task: &Task<'_>,
    whose: Whose,
) -> Result<(), Memory>
    ensures keeps { KeepsFiles S.Sources site.old site.new }
    ensures peak { desk.new.peak ≡ desk.old.peak }
    ensures room { OnOk result (1048576 ≤ desk.new.room) }
    ensures pointed { OnOk result (IsPointed (files_of whose (S.file_at site.old))
        (asked task.now) (S.bytes_of site.new) (S.is_missing site.new)) }
{
    if let Err(Memory) = point_side(alloc, site, Side::Old, task.old_path, whose) {
        return Err(Memory);
    }
    if let Err(Memory) = point_side(alloc, site, Side::New, task.new_path, whose) {
        return Err(Memory);
    }
    let Ok(()) = desk.reserve(LONGEST) else {
        return Err(Memory);
    };
    Ok(())
}
