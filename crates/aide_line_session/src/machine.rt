//! A session on the machine that writes lines of JSON: its arguments, its files and its streams.
ghost use Rattle.std.specs.Prelude.{◌≡◌, IfOk, OnErr};
ghost use Rattle.aide_line_session.specs.LineSession.{IsLineSession};
ghost use Rattle.aide_site.specs.Page.{empty_page};
ghost use Rattle.aide_site.specs.Session.{view_between};

use crate::lines_program::lines_session_on;
use aide_site::{Ended, FileSite, PagedSink, Site, SiteWithDesk, Status, take_words};
use aide_text::{Sink, WriteSink};
use aide_words::{Memory, Words};
use std::alloc::Global;

/// Runs a session that writes lines of JSON, by [`lines_session_on`]. Its output and lines each go
/// through an empty page. Memory for both pages is reserved before any file is opened. Only for them
/// it may refuse to run.
pub fn run_lines_paged<S: Site, W: Sink + Drop, E: Sink + Drop>(
    alloc: Global,
    words: &Words,
    compared: &mut SiteWithDesk<S>,
    trusted: &mut SiteWithDesk<S>,
    out: W,
    err: E,
) -> Result<Ended<W, E>, Memory>
    ensures session { IfOk result (λ ended. IsLineSession words.now ended.status
        (view_between S.Sources ⟦<PagedSink<W> as Sink>⟧ ⟦<PagedSink<E> as Sink>⟧
        compared.old.site compared.new.site (empty_page out) ended.out (empty_page err) ended.err)
        (view_between S.Sources ⟦<PagedSink<W> as Sink>⟧ ⟦<PagedSink<E> as Sink>⟧
        trusted.old.site trusted.new.site (empty_page out) ended.out (empty_page err) ended.err)
        (record {
          before = compared.old.desk.peak;
          after = compared.new.desk.peak;
          trusted_before = trusted.old.desk.peak;
          trusted_after = trusted.new.desk.peak;
        })) }
    ensures untouched { OnErr result (compared.new ≡ compared.old) }
    ensures trusted_untouched { OnErr result (trusted.new ≡ trusted.old) }
{
    let mut out = PagedSink::new(alloc, out)?;
    let mut err = PagedSink::new(alloc, err)?;
    let status = lines_session_on(alloc, words, compared, trusted, &mut out, &mut err);
    Ok(Ended { status, out, err })
}

/// Runs the session of the command line that writes lines of JSON over the machine's files.
fn run_lines_session(rt: &HostRuntime, alloc: Global) -> Result<u8, Memory> {
    let words = take_words(rt, alloc)?;
    let mut compared = SiteWithDesk::new(alloc, FileSite::new(rt));
    let mut trusted = SiteWithDesk::new(alloc, FileSite::new(rt));
    let out = WriteSink::new(rt.stdout());
    let err = WriteSink::new(rt.stderr());
    let ended = run_lines_paged(alloc, &words, &mut compared, &mut trusted, out, err)?;
    Ok(ended.status)
}

/// Runs the session of the command line over the machine's files. The lines of JSON go to standard
/// output, and the lines about faults go to standard error. Returns the exit status. The status is 22
/// if the arguments cannot be taken, for example because one is not UTF-8, or if a page cannot be
/// allocated.
pub fn start_lines(rt: &HostRuntime) -> u8 {
    match run_lines_session(rt, rt.alloc()) {
        Ok(status) => status,
        Err(Memory) => {
            let _ = eprintln!(rt; "aide: out of memory");
            Status::Memory as u8
        }
    }
}
