//! The calls of a session that take memory. Each is made once more if memory is refused.
use aide_db::{Side, Sources};
use aide_line_session::lines_session_on;
use aide_report_session::session;
use aide_site::{MemorySite, Site, SiteWithDesk};
use aide_text::WriteSink;
use aide_words::{Job, LineJob, Memory, Words, WordsFault, read_line_words, read_words};
use arrayvec::ArrayVec;
use std::alloc::Global;

/// The line of a session that ends because memory has run out.
const STARVED: &[u8] = b"aide: out of memory\n";

/// Says which call was refused memory.
fn tell(rt: &HostRuntime, call: &str) {
    let _ = eprintln!(rt; "refused: {call}");
}

/// Adds an argument.
pub(crate) fn push(rt: &HostRuntime, words: &mut Words, word: &str) -> Result<(), Memory> {
    let before = words.as_slice().len();
    match words.push(word) {
        Ok(()) => Ok(()),
        Err(Memory) => {
            tell(rt, "push");
            if words.as_slice().len() != before {
                let _ = println!(rt; "push: a refused argument was added");
            }
            words.push(word)
        }
    }
}

/// Adds a file.
pub(crate) fn add<'a>(
    rt: &HostRuntime,
    site: &mut MemorySite<'a>,
    path: &'a str,
    bytes: &'a [u8],
) -> Result<(), Memory> {
    match site.add(path, bytes) {
        Ok(()) => Ok(()),
        Err(Memory) => {
            tell(rt, "add");
            if let Ok(reel) = site.config(path) {
                let _ = println!(rt; "add: a refused file of {} bytes was added", reel.len());
            }
            site.add(path, bytes)
        }
    }
}

/// Prints what a command line asks for.
fn print_job(rt: &HostRuntime, job: &Job) {
    let kind = if job.compare { "compare" } else { "check" };
    let (config, before, after) = (job.config.as_str(), job.before.as_str(), job.after.as_str());
    let _ = println!(rt; "job: {kind} {config} [{before}] [{after}]");
}

/// Reads a command line, and prints the answer.
pub(crate) fn job_of(rt: &HostRuntime, words: &Words) -> Result<(), Memory> {
    let answer = match read_words(rt.alloc(), words) {
        Err(WordsFault::Memory) => {
            tell(rt, "read_words");
            read_words(rt.alloc(), words)
        }
        answer => answer,
    };
    match answer {
        Ok(job) => print_job(rt, &job),
        Err(WordsFault::Usage) => {
            let _ = println!(rt; "job: usage");
        }
        Err(WordsFault::Memory) => return Err(Memory),
    }
    Ok(())
}

/// Prints the comparison that a command line asks for.
fn print_line_job(rt: &HostRuntime, job: &LineJob) {
    let (config, before, after) = (job.config.as_str(), job.before.as_str(), job.after.as_str());
    let (old, new) = (job.trusted_old.as_str(), job.trusted_new.as_str());
    let list = job.without.as_str();
    let _ = println!(rt;
        "job: compare {config} [{before}] [{after}] beside [{old}] [{new}] without [{list}]"
    );
}

/// Reads the command line of a comparison, which may name a trusted pair, and prints the answer.
pub(crate) fn line_job_of(rt: &HostRuntime, words: &Words) -> Result<(), Memory> {
    let answer = match read_line_words(rt.alloc(), words) {
        Err(WordsFault::Memory) => {
            tell(rt, "read_line_words");
            read_line_words(rt.alloc(), words)
        }
        answer => answer,
    };
    match answer {
        Ok(job) => print_line_job(rt, &job),
        Err(WordsFault::Usage) => {
            let _ = println!(rt; "job: no comparison");
        }
        Err(WordsFault::Memory) => return Err(Memory),
    }
    Ok(())
}

/// Prints how many bytes a side gives.
fn print_side(rt: &HostRuntime, site: &mut MemorySite<'_>, side: Side) {
    match site.open(side) {
        Ok(reel) => {
            let _ = println!(rt; "side: {} bytes", reel.len());
            site.close(reel);
        }
        Err(_) => {
            let _ = println!(rt; "side: none");
        }
    }
}

/// Points a side, which has no path yet, at a path. Prints what the side then gives.
pub(crate) fn point(
    rt: &HostRuntime,
    site: &mut MemorySite<'_>,
    side: Side,
    path: &str,
) -> Result<(), Memory> {
    if let Err(Memory) = site.point(rt.alloc(), side, path) {
        tell(rt, "point");
        if let Ok(reel) = site.open(side) {
            let _ = println!(rt; "point: a refused path was taken");
            site.close(reel);
        }
        site.point(rt.alloc(), side, path)?;
    }
    print_side(rt, site, side);
    Ok(())
}

/// What a session does.
#[derive(Drop)]
struct Ended {
    status: u8,
    output: ArrayVec<u8, 4096>,
    errors: ArrayVec<u8, 4096>,
}

impl Ended {
    /// Whether memory ran out, and the session ended with its line, its status and no output.
    fn is_starved(&self) -> bool {
        self.status == 22 && self.output.is_empty() && self.errors.as_slice() == STARVED
    }

    /// Whether the output has a last line of lines.
    fn has_last_line(&self) -> bool {
        let output = self.output.as_slice();
        for index in 0..output.len() {
            if output[index..].starts_with(b"{\"end\":true") {
                return true;
            }
        }
        false
    }

    /// Prints the output, the error lines and the status.
    fn print(&self, rt: &HostRuntime) {
        let _ = rt.stdout().write_all(self.output.as_slice());
        self.print_end(rt);
    }

    /// Prints the error lines and the status.
    fn print_end(&self, rt: &HostRuntime) {
        let _ = rt.stdout().write_all(self.errors.as_slice());
        let _ = println!(rt; "status {}", self.status);
    }

    /// Prints the lines, the error lines and the status. How many lines are written before a fault is not promised, so
    /// lines without a last one are not printed.
    fn print_lines(&self, rt: &HostRuntime) {
        if self.has_last_line() {
            self.print(rt);
        } else {
            self.print_end(rt);
        }
    }
}

/// Runs a session whose output and error lines take no memory.
fn end_of(alloc: Global, words: &Words, site: &mut MemorySite<'_>) -> Ended {
    let mut out = WriteSink::new(ArrayVec::<u8, 4096>::new());
    let mut err = WriteSink::new(ArrayVec::<u8, 4096>::new());
    let status = session(alloc, words, site, &mut out, &mut err);
    Ended {
        status,
        output: out.into_inner(),
        errors: err.into_inner(),
    }
}

/// Runs a session, and prints its answer.
pub(crate) fn run(
    rt: &HostRuntime,
    words: &Words,
    site: &mut MemorySite<'_>,
) -> Result<(), Memory> {
    let mut ended = end_of(rt.alloc(), words, site);
    if ended.is_starved() {
        tell(rt, "session");
        ended = end_of(rt.alloc(), words, site);
        if ended.is_starved() {
            return Err(Memory);
        }
    }
    ended.print(rt);
    Ok(())
}

/// Runs a session that writes lines, whose output and error lines take no memory.
fn lines_end_of<'a>(
    alloc: Global,
    words: &Words,
    compared: &mut SiteWithDesk<MemorySite<'a>>,
    trusted: &mut SiteWithDesk<MemorySite<'a>>,
) -> Ended {
    let mut out = WriteSink::new(ArrayVec::<u8, 4096>::new());
    let mut err = WriteSink::new(ArrayVec::<u8, 4096>::new());
    let status = lines_session_on(alloc, words, compared, trusted, &mut out, &mut err);
    Ended {
        status,
        output: out.into_inner(),
        errors: err.into_inner(),
    }
}

/// Runs a session that writes lines, and prints its answer.
pub(crate) fn run_lines<'a>(
    rt: &HostRuntime,
    words: &Words,
    compared: &mut SiteWithDesk<MemorySite<'a>>,
    trusted: &mut SiteWithDesk<MemorySite<'a>>,
) -> Result<(), Memory> {
    let mut ended = lines_end_of(rt.alloc(), words, compared, trusted);
    if ended.is_starved() {
        tell(rt, "lines_session_on");
        ended = lines_end_of(rt.alloc(), words, compared, trusted);
        if ended.is_starved() {
            return Err(Memory);
        }
    }
    ended.print_lines(rt);
    Ok(())
}
