//! A caller of `session`. It runs a command line over files in memory, as the program does over files of the machine.
use aide_report_session::session;
use aide_site::MemorySite;
use aide_text::MemorySink;
use aide_words::{Memory, Words};
use std::alloc::Global;

/// The results of a session.
#[derive(Drop)]
pub(super) struct Ended {
    /// The exit status.
    pub(super) status: u8,
    /// Standard output.
    pub(super) output: MemorySink<Global>,
    /// Standard error.
    pub(super) errors: MemorySink<Global>,
}

/// Runs `aide --compare --config /conf` over three files in memory.
pub(super) fn run_session(
    alloc: Global,
    config: &[u8],
    old: &[u8],
    new: &[u8],
) -> Result<Ended, Memory> {
    let mut words = Words::new(alloc);
    for word in ["aide", "--compare", "--config", "/conf"] {
        words.push(word)?;
    }
    let mut site = MemorySite::new(alloc);
    site.add("/conf", config)?;
    site.add("/old", old)?;
    site.add("/new", new)?;
    let mut output = MemorySink::new(alloc);
    let mut errors = MemorySink::new(alloc);
    let status = session(alloc, &words, &mut site, &mut output, &mut errors);
    Ok(Ended {
        status,
        output,
        errors,
    })
}
