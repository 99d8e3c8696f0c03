//! What the two sides of a site are pointed at.
ghost use Rattle.std.specs.Prelude.{◌≡◌, false, OnOk, OnErr};
ghost use Rattle.aide_entry.specs.Count.{one_more};
ghost use Rattle.aide_db.specs.Side.{by_side, other_side};
ghost use Rattle.aide_db.specs.EmptyDatabase.{empty_database};
ghost use Rattle.aide_site.specs.declared.pointed.Aim.TheVariants.{Nowhere, At};

use aide_db::Side;
use aide_words::{Memory, Word};
use std::alloc::Global;

/// What a side is pointed at.
#[derive(Drop)]
pub(crate) enum Aim {
    /// Nothing. The side cannot be opened.
    Nowhere,
    /// The empty database.
    Empty,
    /// The file at a path.
    At(Word),
}

/// Returns the text of a database without entries.
#[tactic(auto, unfolding(aide_db::specs::EmptyDatabase::empty_database))]
pub(crate) fn empty_database() -> &'static [u8]
    ensures { result.now ≡ empty_database }
{
    b"@@begin_db\n@@db_spec name attr\n@@end_db\n"
}

/// What each side is pointed at; how often each was opened, and whether the last opening of each
/// succeeded.
#[derive(Drop)]
pub(crate) struct Pointed {
    old_aim: Aim,
    new_aim: Aim,
    old_openings: u64,
    new_openings: u64,
    old_given: bool,
    new_given: bool,
}

impl Pointed {
    pub(crate) fn new() -> Pointed
        ensures { result ≡ record {
          old_aim = Nowhere;
          new_aim = Nowhere;
          old_openings = 0;
          new_openings = 0;
          old_given = false;
          new_given = false;
        } }
    {
        Pointed {
            old_aim: Aim::Nowhere,
            new_aim: Aim::Nowhere,
            old_openings: 0,
            new_openings: 0,
            old_given: false,
            new_given: false,
        }
    }

    /// Returns what a side is pointed at.
    pub(crate) fn aim(&self, side: Side) -> &Aim
        ensures { result.now ≡ by_side self.now.old_aim self.now.new_aim side }
    {
        match side {
            Side::Old => &self.old_aim,
            Side::New => &self.new_aim,
        }
    }

    /// Points a side.
    pub(crate) fn set(&mut self, side: Side, aim: Aim)
        ensures set { by_side self.new.old_aim self.new.new_aim side ≡ aim }
        ensures other { by_side self.new.old_aim self.new.new_aim (other_side side)
            ≡ by_side self.old.old_aim self.old.new_aim (other_side side) }
        ensures old_openings { self.new.old_openings ≡ self.old.old_openings }
        ensures new_openings { self.new.new_openings ≡ self.old.new_openings }
        ensures old_given { self.new.old_given ≡ self.old.old_given }
        ensures new_given { self.new.new_given ≡ self.old.new_given }
    {
        match side {
            Side::Old => self.old_aim = aim,
            Side::New => self.new_aim = aim,
        }
    }

    /// Points a side at the file at a path, of which it keeps a copy.
    pub(crate) fn point(&mut self, alloc: Global, side: Side, path: &str) -> Result<(), Memory>
        ensures ok { OnOk result (by_side self.new.old_aim self.new.new_aim side ≡ At path.now) }
        ensures other { by_side self.new.old_aim self.new.new_aim (other_side side)
            ≡ by_side self.old.old_aim self.old.new_aim (other_side side) }
        ensures old_openings { self.new.old_openings ≡ self.old.old_openings }
        ensures new_openings { self.new.new_openings ≡ self.old.new_openings }
        ensures old_given { self.new.old_given ≡ self.old.old_given }
        ensures new_given { self.new.new_given ≡ self.old.new_given }
        ensures err { OnErr result (self.new ≡ self.old) }
    {
        let path = Word::new(alloc, path)?;
        self.set(side, Aim::At(path));
        Ok(())
    }

    /// Counts an opening of a side, and notes whether it succeeded.
    pub(crate) fn count(&mut self, side: Side, given: bool)
        ensures old_aim { self.new.old_aim ≡ self.old.old_aim }
        ensures new_aim { self.new.new_aim ≡ self.old.new_aim }
        ensures counted { by_side self.new.old_openings self.new.new_openings side
            ≡ one_more (by_side self.old.old_openings self.old.new_openings side) }
        ensures other { by_side self.new.old_openings self.new.new_openings (other_side side)
            ≡ by_side self.old.old_openings self.old.new_openings (other_side side) }
        ensures noted { by_side self.new.old_given self.new.new_given side ≡ given }
        ensures other_given { by_side self.new.old_given self.new.new_given (other_side side)
            ≡ by_side self.old.old_given self.old.new_given (other_side side) }
    {
        match side {
            Side::Old => {
                self.old_openings = self.old_openings.saturating_add(1);
                self.old_given = given;
            }
            Side::New => {
                self.new_openings = self.new_openings.saturating_add(1);
                self.new_given = given;
            }
        }
    }
}
