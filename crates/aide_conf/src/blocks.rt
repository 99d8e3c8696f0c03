//! The open blocks of a text.

ghost use Rattle.std.specs.Prelude.{◌≡◌, length, [], OnOk};
ghost use Rattle.aide_conf.specs.code.Stack.{frames_of, top_used, top_divided, opened, divided_at};
ghost use Rattle.aide_conf.specs.code.Stack.{closed_at};

use std::alloc::{AllocError, Allocator};

/// An open block.
#[derive(Clone, Copy)]
pub(crate) struct Frame {
    /// Whether its opening line is used.
    pub(crate) used: bool,
    /// Whether it chooses the first part of its block.
    pub(crate) first: bool,
    /// Whether its dividing line has come.
    pub(crate) second: bool,
}

/// The open blocks of a text, the innermost last.
#[derive(Drop)]
pub(crate) struct Blocks<A: Allocator> {
    pub(crate) frames: Vec<Frame, A>,
}

impl<A: Allocator + Copy> Blocks<A> {
    /// Returns no open blocks. Takes no memory.
    pub(crate) fn new(alloc: A) -> Blocks<A>
        ensures { frames_of result ≡ [] }
    {
        Blocks {
            frames: Vec::new(alloc),
        }
    }

    /// Returns the number of open blocks.
    pub(crate) fn depth(&self) -> usize
        ensures { result ≡ length (frames_of self.now) }
    {
        self.frames.len()
    }

    /// Returns whether the next line is used.
    pub(crate) fn is_used(&self) -> bool
        ensures { result ≡ top_used (frames_of self.now) }
    {
        match self.frames.last() {
            None => true,
            Some(frame) => frame.used && frame.first != frame.second,
        }
    }

    /// Returns whether the innermost block is in its second part.
    pub(crate) fn is_divided(&self) -> bool
        ensures { result ≡ top_divided (frames_of self.now) }
    {
        match self.frames.last() {
            None => false,
            Some(frame) => frame.second,
        }
    }

    /// Opens a block.
    pub(crate) fn open(&mut self, used: bool, first: bool) -> Result<(), AllocError>
        ensures { OnOk result (frames_of self.new ≡ opened used first (frames_of self.old)) }
    {
        self.frames.push(Frame {
            used,
            first,
            second: false,
        })?;
        Ok(())
    }

    /// Begins the second part of the innermost block.
    pub(crate) fn divide(&mut self)
        ensures { frames_of self.new ≡ divided_at (frames_of self.old) }
    {
        if let Some(frame) = self.frames.last_mut() {
            frame.second = true;
        }
    }

    /// Closes the innermost block.
    pub(crate) fn close(&mut self)
        ensures { frames_of self.new ≡ closed_at (frames_of self.old) }
    {
        self.frames.pop();
    }
}
