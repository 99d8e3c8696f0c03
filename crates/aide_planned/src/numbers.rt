//! What a line of the input tells: numbers, which may stand for texts of lines before.
use std::alloc::Global;
use std::io;

/// The texts that lines before have given. A number that stands for none of them stands for the empty text.
#[derive(Drop)]
pub(crate) struct Texts {
    texts: Vec<Vec<u8>>,
}

impl Texts {
    pub(crate) fn new(alloc: Global) -> Texts {
        Texts {
            texts: Vec::new(alloc),
        }
    }

    /// Takes the next text, which is given in base 16.
    pub(crate) fn push(&mut self, alloc: Global, digits: &str) -> io::Result<()> {
        let Ok(text) = hex::decode(alloc, digits) else {
            return Err(io::Error::from(io::ErrorKind::InvalidInput));
        };
        self.texts.push(text)?;
        Ok(())
    }

    /// The text with this number, counted from 0.
    pub(crate) fn get(&self, number: u64) -> &[u8] {
        match self.texts.get(number as usize) {
            Some(text) => text.as_slice(),
            None => b"",
        }
    }
}

/// The numbers of a line, which are taken one after another. A word that is no number, or is not there, is the greatest
/// number.
#[derive(Drop)]
pub(crate) struct Numbers<'a> {
    left: Vec<u64>,
    taken: usize,
    texts: &'a Texts,
}

impl<'a> Numbers<'a> {
    /// The numbers of a line after its first word.
    pub(crate) fn of(alloc: Global, line: &str, texts: &'a Texts) -> io::Result<Numbers<'a>> {
        let mut left = Vec::new(alloc);
        for word in line.split(' ').skip(1) {
            left.push(word.parse::<u64>().unwrap_or(u64::MAX))?;
        }
        Ok(Numbers {
            left,
            taken: 0,
            texts,
        })
    }

    /// The next number.
    pub(crate) fn take(&mut self) -> u64 {
        let number = self.left.get(self.taken).copied().unwrap_or(u64::MAX);
        self.taken = self.taken.saturating_add(1);
        number
    }

    /// The next number, as 0 or another one.
    pub(crate) fn flag(&mut self) -> bool {
        self.take() != 0
    }

    /// The text that the next number stands for.
    pub(crate) fn text(&mut self) -> &'a [u8] {
        let number = self.take();
        self.texts.get(number)
    }

    /// The same as text. Bytes that are not UTF-8 are the empty text.
    pub(crate) fn words(&mut self) -> &'a str {
        std::str::from_utf8(self.text()).unwrap_or("")
    }
}
