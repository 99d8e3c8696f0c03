//! Callers of the library, which `docs/dev/LIBRARY.md` explains: one of `run`, one of `session`, and some for the
//! promises of a session and of a run one by one.
mod by_clauses;
mod by_run;
mod by_run_clauses;
mod by_session;
mod summary;

use aide_conf::{Need, Settings};
use aide_db::{Desk, MemorySources};
use aide_site::{MemorySite, SiteWithDesk};
use aide_text::MemorySink;
use aide_words::{Memory, Words};
use by_clauses::{lines_on, report_on};
use by_run::{LIMITS, Refusal, counts_of};
use by_run_clauses::{
    run_for_its_answer, run_for_its_bytes, run_for_its_desk, run_for_its_faults,
    run_for_its_openings,
};
use by_session::run_session;
use std::alloc::Global;
use std::test::Fail;
use summary::{CONFIG, CUT, NEW, OLD, REPORT};

/// The arguments of a command line, which are separated by blanks in `line`.
fn words_of(alloc: Global, line: &str) -> Result<Words, Memory> {
    let mut words = Words::new(alloc);
    for word in line.split(' ') {
        words.push(word)?;
    }
    Ok(words)
}

/// A site with a configuration and two databases.
fn site_of<'a>(
    alloc: Global,
    conf: &'a [u8],
    old: &'a [u8],
    new: &'a [u8],
) -> Result<MemorySite<'a>, Memory> {
    let mut site = MemorySite::new(alloc);
    site.add("/conf", conf)?;
    site.add("/old", old)?;
    site.add("/new", new)?;
    Ok(site)
}

#[test]
fn counts_by_run(rt: HostRuntime) -> Result<(), Fail> {
    let Ok(outcome) = counts_of(rt.alloc(), CONFIG, OLD, NEW) else {
        assert!(rt; false, "no counts");
        return Ok(());
    };
    assert!(rt; outcome.added == 2 && outcome.removed == 1 && outcome.changed == 1);
    Ok(())
}

/// The new database has no end.
#[test]
fn names_the_fault_of_a_run(rt: HostRuntime) -> Result<(), Fail> {
    let Err(Refusal::Run(fault)) = counts_of(rt.alloc(), CONFIG, OLD, CUT) else {
        assert!(rt; false, "no fault of a run");
        return Ok(());
    };
    assert!(rt; fault.status() == 24, "status {}", fault.status());
    Ok(())
}

#[test]
fn reports_by_session(rt: HostRuntime) -> Result<(), Fail> {
    let ended = run_session(rt.alloc(), CONFIG, OLD, NEW)?;
    assert!(rt; ended.status == 7, "status {}", ended.status);
    assert!(rt; ended.output.bytes() == REPORT, "output");
    assert!(rt; ended.errors.bytes().is_empty(), "error lines");
    Ok(())
}

/// The statuses of a session that writes the report and of one that writes lines, on one desk. It has no contract, so
/// that the facts about both sessions are no part of the proof of the test.
fn statuses_on_one_desk(alloc: Global) -> Result<(u8, u8), Fail> {
    let words = words_of(alloc, "aide -E -c /conf")?;
    let mut compared = SiteWithDesk::new(alloc, site_of(alloc, CONFIG, OLD, NEW)?);
    let mut trusted = SiteWithDesk::new(alloc, MemorySite::new(alloc));
    let mut out = MemorySink::new(alloc);
    let mut err = MemorySink::new(alloc);
    let SiteWithDesk { site, desk } = &mut compared;
    let report = report_on(alloc, &words, desk, site, &mut out, &mut err);
    let lines = lines_on(
        alloc,
        &words,
        &mut compared,
        &mut trusted,
        &mut out,
        &mut err,
    );
    Ok((report, lines))
}

#[test]
fn takes_the_promises_of_a_session(rt: HostRuntime) -> Result<(), Fail> {
    let (report, lines) = statuses_on_one_desk(rt.alloc())?;
    assert!(rt; report == 7 && lines == 7);
    Ok(())
}

/// How many of the runs on one desk end well. It has no contract either.
fn good_runs(alloc: Global) -> Option<usize> {
    let settings = Settings::read(alloc, b"", CONFIG, b"", Need::Compare).ok()?;
    let task = settings.task()?;
    let mut desk = Desk::reserved(alloc, LIMITS.line).ok()?;
    let mut sources = MemorySources::new(OLD, NEW);
    let mut out = MemorySink::new(alloc);
    let ends = [
        run_for_its_answer(&task, LIMITS, &mut desk, &mut sources, &mut out).is_ok(),
        run_for_its_bytes(&task, LIMITS, &mut desk, &mut sources, &mut out).is_ok(),
        run_for_its_desk(&task, LIMITS, &mut desk, &mut sources, &mut out).is_ok(),
        run_for_its_faults(&task, LIMITS, &mut desk, &mut sources, &mut out).is_ok(),
        run_for_its_openings(&task, LIMITS, &mut desk, &mut sources, &mut out).is_ok(),
    ];
    Some(ends.iter().filter(|is_good| **is_good).count())
}

#[test]
fn takes_the_promises_of_a_run(rt: HostRuntime) -> Result<(), Fail> {
    assert!(rt; good_runs(rt.alloc()) == Some(5));
    Ok(())
}
