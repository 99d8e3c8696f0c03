//! A map from names to values, with a limited number of names.

ghost use Rattle.std.specs.Prelude.{◌≡◌, IfErr, OnOk, OnErr, IsTrue, IsFalse, option_map};
ghost use Rattle.std.specs.FinMap as map;
ghost use Rattle.aide_attr.specs.NameMap.{HasSpace, IsFull};

use std::alloc::{AllocError, AllocFailed, Allocator};
use std::collections::BTreeMap;
use std::marker::Model;

/// The most names in a map.
const MOST_NAMES: usize = 1024;

/// Why a name cannot get a value.
#[derive(Clone, Copy, PartialEq, Eq)]
pub enum NameMapFault {
    /// The name is new, and the map already has 1,024 names.
    Full,
    /// An allocation failed.
    Memory,
}

impl From<AllocError> for NameMapFault {
    ghost use Rattle.aide_attr.specs.declared.name_map.NameMapFault.TheVariants.{Memory};

    ghost from_gives = { λ _ e. e ≡ Memory };

    fn from(_e: AllocError) -> NameMapFault {
        NameMapFault::Memory
    }
}

/// A finite map from at most 1,024 names, which are bytes, to values.
#[derive(Drop)]
pub struct NameMap<V: Drop, A: Allocator> {
    values: BTreeMap<Vec<u8, A>, V, A>,
    alloc: A,
}

impl<V: Drop, A: Allocator> Model for NameMap<V, A> {
    ghost use Rattle.std.specs.Coded.{coded_ℕ, coded_list};
    ghost use Rattle.std.specs.FinMap as map;
    ghost use Rattle.aide_attr.specs.NameMap.{Names, named};

    ghost Value = { Names V };

    ghost coded = { map.code (coded_list coded_ℕ) V.code };

    ghost view = { λ t. named t.values.entries };
}

impl<V: Drop, A: Allocator + Copy> NameMap<V, A> {
    ghost use Rattle.aide_attr.specs.NameMapFault.{IsNameMapFault};

    /// Returns a map without names.
    pub fn new(alloc: A) -> NameMap<V, A>
        ensures { result ≡ map.empty }
    {
        NameMap {
            values: BTreeMap::new(alloc),
            alloc,
        }
    }

    /// Returns the value of this name, if it has one.
    pub fn look(&self, name: &[u8]) -> Option<&V>
        ensures { option_map (λ v. v.now) result ≡ map.get self.now name.now }
    {
        self.values.get(name)
    }

    /// Sets this name to this value, in place of an earlier value. A new name after 1,024 others, and
    /// a failed allocation, are refused. The map is then as before.
    pub fn define(&mut self, name: &[u8], value: V) -> Result<(), NameMapFault>
        ensures space { OnOk result (HasSpace self.old name.now) }
        ensures ok { OnOk result (self.new ≡ map.insert self.old name.now value) }
        ensures err { IfErr result (λ e. IsNameMapFault self.old name.now e) }
        ensures unchanged { OnErr result (self.new ≡ self.old) }
    {
        if self.is_full(name) {
            return Err(NameMapFault::Full);
        }
        self.put(name, value)?;
        Ok(())
    }

    /// Returns whether the name is new and the map already has as many names as it can have.
    fn is_full(&self, name: &[u8]) -> bool
        ensures yes { IsTrue result → IsFull self.now name.now }
        ensures no { IsFalse result → HasSpace self.now name.now }
    {
        if self.look(name).is_some() {
            return false;
        }
        self.values.len() >= MOST_NAMES
    }

    /// Sets the name to a value.
    fn put(&mut self, name: &[u8], value: V) -> Result<(), AllocError>
        ensures ok { OnOk result (self.new ≡ map.insert self.old name.now value) }
        ensures err { OnErr result (self.new ≡ self.old) }
    {
        let key = Vec::from_slice(self.alloc, name)?;
        self.values.insert(key, value)?;
        Ok(())
    }

    /// Removes this name, if the map has it.
    pub fn remove(&mut self, name: &[u8])
        ensures { self.new ≡ map.remove self.old name.now }
    {
        self.values.remove(name);
    }
}
