//! Sessions over files in memory. A call that is refused memory says so on standard error and is made once more, so
//! standard output is the same wherever one allocation fails. If a call is refused memory twice, the status is 22.
#![tactic(auto)]

mod calls;
mod rows;

use aide_db::Side;
use aide_site::{MemorySite, SiteWithDesk};
use aide_words::{Memory, Words};
use calls::{add, job_of, line_job_of, point, push, run, run_lines};
use rows::{CONF, LINES_ROWS, LinesRow, MODES_NEW, MODES_OLD, ROWS, Row, TRUSTED_OLD};
use std::process::ExitCode;

/// The arguments of a row: those before the last one, which are separated by blanks, and the last one.
fn words_of(rt: &HostRuntime, before: &str, last: &str) -> Result<Words, Memory> {
    let mut words = Words::new(rt.alloc());
    for word in before.split(' ') {
        push(rt, &mut words, word)?;
    }
    push(rt, &mut words, last)?;
    Ok(words)
}

/// Makes all calls of a session.
fn play(rt: &HostRuntime, row: &Row) -> Result<(), Memory> {
    let _ = println!(rt; "{}:", row.name);
    let words = words_of(rt, row.words, row.last)?;
    let mut site = MemorySite::new(rt.alloc());
    add(rt, &mut site, "/conf", row.conf)?;
    add(rt, &mut site, "/old", row.old)?;
    add(rt, &mut site, "/new", row.new)?;
    add(rt, &mut site, "/older", row.old)?;
    add(rt, &mut site, "/newer", row.new)?;
    job_of(rt, &words)?;
    point(rt, &mut site, Side::Old, "/new")?;
    run(rt, &words, &mut site)
}

/// Makes all calls of a session that writes lines.
fn play_lines(rt: &HostRuntime, row: &LinesRow) -> Result<(), Memory> {
    let _ = println!(rt; "{}:", row.name);
    let words = words_of(rt, row.words, row.last)?;
    let mut site = MemorySite::new(rt.alloc());
    add(rt, &mut site, "/conf", CONF)?;
    add(rt, &mut site, "/old", MODES_OLD)?;
    add(rt, &mut site, "/new", MODES_NEW)?;
    let mut trusted = MemorySite::new(rt.alloc());
    add(rt, &mut trusted, "/trusted_old", TRUSTED_OLD)?;
    add(rt, &mut trusted, "/trusted_new", row.trusted_new)?;
    line_job_of(rt, &words)?;
    let mut compared = SiteWithDesk::new(rt.alloc(), site);
    let mut trusted = SiteWithDesk::new(rt.alloc(), trusted);
    run_lines(rt, &words, &mut compared, &mut trusted)
}

fn main(rt: HostRuntime) -> ExitCode {
    for row in &ROWS {
        if let Err(Memory) = play(&rt, row) {
            return ExitCode::from(22);
        }
    }
    for row in &LINES_ROWS {
        if let Err(Memory) = play_lines(&rt, row) {
            return ExitCode::from(22);
        }
    }
    ExitCode::SUCCESS
}
