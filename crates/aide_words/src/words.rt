//! The arguments of a command line.
ghost use Rattle.std.specs.Prelude.{◌≡◌, ℕ, List, [], ◌∷◌, ◌++◌, OnOk, OnErr, IfOk, string_bytes};

use std::alloc::Global;
use std::convert::AsStr;
use std::marker::Model;

/// Out of memory.
#[derive(Clone, Copy, Debug, PartialEq, Eq)]
pub struct Memory;

/// An owned text. Contracts see its bytes.
#[derive(Drop)]
pub struct Word {
    text: String,
}

impl Model for Word {
    ghost Value = { List ℕ };

    ghost view = { λ w. string_bytes w.text };
}

impl Word {
    /// Returns a copy of a text, or `Memory` if the allocation fails.
    pub fn new(alloc: Global, text: &str) -> Result<Word, Memory>
        ensures { IfOk result (λ word. word ≡ text.now) }
    {
        match String::from_str(alloc, text) {
            Ok(text) => Ok(Word { text }),
            Err(_) => Err(Memory),
        }
    }

    /// Returns the text.
    pub fn as_str(&self) -> &str
        ensures { result.now ≡ self.now }
    {
        self.text.as_str()
    }
}

impl AsStr for Word {
    ghost text = { λ w. w };

    fn as_str(&self) -> &str {
        Word::as_str(self)
    }
}

/// The arguments of a command line. The program's name is the first one. Contracts see the list of
/// their bytes.
#[derive(Drop)]
pub struct Words {
    list: Vec<Word>,
    alloc: Global,
}

impl Model for Words {
    ghost Value = { List (List ℕ) };

    ghost view = { λ w. w.list.items };
}

impl Words {
    /// Returns an empty list. Takes no memory.
    pub fn new(alloc: Global) -> Words
        ensures { result ≡ [] }
    {
        Words {
            list: Vec::new(alloc),
            alloc,
        }
    }

    /// Adds a copy of an argument at the end. If an allocation fails, the list is as before.
    pub fn push(&mut self, word: &str) -> Result<(), Memory>
        ensures ok { OnOk result (self.new ≡ self.old ++ word.now ∷ []) }
        ensures err { OnErr result (self.new ≡ self.old) }
    {
        let word = Word::new(self.alloc, word)?;
        match self.list.push(word) {
            Ok(()) => Ok(()),
            Err(_) => Err(Memory),
        }
    }

    /// Returns the arguments in order.
    pub fn as_slice(&self) -> &[Word]
        ensures { result.now ≡ self.now }
    {
        self.list.as_slice()
    }
}
