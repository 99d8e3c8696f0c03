//! Runs whose devices fail by a plan. Each line of standard input is one: a word that says what is run, and numbers.
//! The line `text` gives a text in base 16, for which its number stands in later lines. Standard output tells what can
//! be seen of each run, which ends with an empty line. `tests/program/planned/` writes these lines, and knows the
//! order of the numbers.
#![tactic(auto)]

mod cursors;
mod desks;
mod journal;
mod limits;
mod numbers;
mod printing;
mod reader;
mod refusing;
mod runs;
mod sessions;
mod settings;
mod sinks;
mod sources;
mod writer;

use cursors::play_cursor;
use numbers::{Numbers, Texts};
use runs::play_run;
use sessions::play_session;
use settings::{play_change, play_groups, play_settings};
use std::alloc::Global;
use std::io::{self, BufRead, BufReader, BufWriter, Error, ErrorKind, Write};

/// Runs what a line tells.
fn play<O: Write>(out: &mut O, alloc: Global, line: &str, texts: &Texts) -> io::Result<()> {
    let mut numbers = Numbers::of(alloc, line, texts)?;
    match line.split(' ').next() {
        Some("run") => play_run(out, alloc, &mut numbers)?,
        Some("cursor") => play_cursor(out, alloc, &mut numbers)?,
        Some("session") => play_session(out, alloc, &mut numbers)?,
        Some("settings") => play_settings(out, alloc, &mut numbers)?,
        Some("groups") => play_groups(out, alloc, &mut numbers)?,
        Some("change") => play_change(out, alloc, &mut numbers)?,
        _ => return Err(Error::from(ErrorKind::InvalidInput)),
    }
    writeln!(out)
}

fn main(rt: HostRuntime) -> io::Result<()> {
    let mut texts = Texts::new(rt.alloc());
    let mut out = BufWriter::new(rt.alloc(), io::writer(&rt))?;
    for line in BufReader::new(rt.alloc(), rt.reader())?.lines(rt.alloc()) {
        let line = line?;
        match line.strip_prefix("text ") {
            Some(digits) => texts.push(rt.alloc(), digits)?,
            None => play(&mut out, rt.alloc(), line.as_str(), &texts)?,
        }
    }
    out.flush()
}
