//! A session on the machine that writes the report: its arguments, its files and its streams.
ghost use Rattle.std.specs.Prelude.{◌≡◌, IfOk, OnErr, None};
ghost use Rattle.aide_site.specs.Page.{empty_page};
ghost use Rattle.aide_site.specs.Session.{IsSessionBy, view_between};
ghost use Rattle.aide_words.specs.Job.{job_of};

use crate::program::session;
use aide_site::{Ended, FileSite, PagedSink, Site, Status, take_words};
use aide_text::{Sink, WriteSink};
use aide_words::{Memory, Words};
use std::alloc::Global;

/// Runs a session that writes the report, by [`session`]. Its output and lines each go through an
/// empty page. Memory for both pages is reserved before any file is opened. Only for them it may
/// refuse to run.
pub fn run_paged<S: Site, W: Sink + Drop, E: Sink + Drop>(
    alloc: Global,
    words: &Words,
    site: &mut S,
    out: W,
    err: E,
) -> Result<Ended<W, E>, Memory>
    ensures session { IfOk result (λ ended. IsSessionBy None (job_of words.now) ended.status
        (view_between S.Sources ⟦<PagedSink<W> as Sink>⟧ ⟦<PagedSink<E> as Sink>⟧
        site.old site.new (empty_page out) ended.out (empty_page err) ended.err)) }
    ensures untouched { OnErr result (site.new ≡ site.old) }
{
    let mut out = PagedSink::new(alloc, out)?;
    let mut err = PagedSink::new(alloc, err)?;
    let status = session(alloc, words, site, &mut out, &mut err);
    Ok(Ended { status, out, err })
}

/// Runs the session of the command line over the machine's files.
fn run_session(rt: &HostRuntime, alloc: Global) -> Result<u8, Memory> {
    let words = take_words(rt, alloc)?;
    let mut site = FileSite::new(rt);
    let out = WriteSink::new(rt.stdout());
    let err = WriteSink::new(rt.stderr());
    let ended = run_paged(alloc, &words, &mut site, out, err)?;
    Ok(ended.status)
}

/// Runs the session of the command line over the machine's files. The report goes to standard
/// output, and the lines go to standard error. Returns the exit status. The status is 22 if the
/// arguments cannot be taken, for example because one is not UTF-8, or if a page cannot be
/// allocated.
pub fn start(rt: &HostRuntime) -> u8 {
    match run_session(rt, rt.alloc()) {
        Ok(status) => status,
        Err(Memory) => {
            let _ = eprintln!(rt; "aide: out of memory");
            Status::Memory as u8
        }
    }
}
