//! What a session has of the machine, and what is left of one.

use crate::paged_sink::PagedSink;
use aide_words::{Memory, Words};
use std::alloc::Global;
use std::env;

/// Returns the arguments of the command line. The program's name is the first one.
pub fn take_words(rt: &HostRuntime, alloc: Global) -> Result<Words, Memory> {
    let Ok(arguments) = env::args(rt) else {
        return Err(Memory);
    };
    let mut words = Words::new(alloc);
    for word in arguments {
        words.push(word.as_str())?;
    }
    Ok(words)
}

/// What is left of a session whose output and lines each went through a page.
#[derive(Drop)]
pub struct Ended<W, E> {
    /// The exit status.
    pub status: u8,
    /// The page before the output.
    pub out: PagedSink<W>,
    /// The page before standard error.
    pub err: PagedSink<E>,
}
