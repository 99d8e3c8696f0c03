//! Sessions over files in memory, whose outputs fail by a plan.
use crate::numbers::Numbers;
use crate::printing::{print_desk, print_taken};
use crate::refusing::Refusing;
use crate::sinks::SinkPlan;
use crate::writer::{PlannedWriter, Taken, WriterPlan};
use aide_headline::{run_lines_program, run_program};
use aide_line_session::lines_session_on;
use aide_report_session::{session, session_on};
use aide_site::{MemorySite, PagedSink, SiteWithDesk};
use aide_text::{MemorySink, Sink, WriteSink};
use aide_words::{Memory, Words};
use std::alloc::Global;
use std::io::{self, ErrorKind, Write};

/// The sites of a session.
#[derive(Drop)]
struct Sites<'a> {
    compared: SiteWithDesk<MemorySite<'a>>,
    trusted: SiteWithDesk<MemorySite<'a>>,
}

/// The call that runs a session.
#[derive(Clone, Copy)]
enum Call {
    Session,
    SessionOn,
    RunProgram,
    LinesSessionOn,
    RunLinesProgram,
}

impl Call {
    fn take(numbers: &mut Numbers<'_>) -> Call {
        match numbers.take() {
            0 => Call::Session,
            1 => Call::SessionOn,
            2 => Call::RunProgram,
            3 => Call::LinesSessionOn,
            _ => Call::RunLinesProgram,
        }
    }

    /// Makes the call, and returns the status.
    fn status<W: Sink, E: Sink>(
        self,
        alloc: Global,
        words: &Words,
        sites: &mut Sites<'_>,
        out: &mut W,
        err: &mut E,
    ) -> u8 {
        let Sites { compared, trusted } = sites;
        match self {
            Call::Session => session(alloc, words, &mut compared.site, out, err),
            Call::SessionOn => {
                session_on(
                    alloc,
                    words,
                    &mut compared.desk,
                    &mut compared.site,
                    out,
                    err,
                )
            }
            Call::RunProgram => {
                run_program(
                    alloc,
                    words,
                    &mut compared.desk,
                    &mut compared.site,
                    out,
                    err,
                )
            }
            Call::LinesSessionOn => lines_session_on(alloc, words, compared, trusted, out, err),
            Call::RunLinesProgram => run_lines_program(alloc, words, compared, trusted, out, err),
        }
    }
}

/// The arguments that the numbers tell: how many there are, and the text of each.
fn words_of(alloc: Global, numbers: &mut Numbers<'_>) -> Result<Words, Memory> {
    let mut words = Words::new(alloc);
    for _ in 0..numbers.take() {
        words.push(numbers.words())?;
    }
    Ok(words)
}

/// A site with the files that the numbers tell: how many there are, and the path and the text of each.
fn site_of<'a>(
    alloc: Global,
    numbers: &mut Numbers<'a>,
) -> Result<SiteWithDesk<MemorySite<'a>>, Memory> {
    let mut site = MemorySite::new(alloc);
    for _ in 0..numbers.take() {
        let path = numbers.words();
        site.add(path, numbers.text())?;
    }
    Ok(SiteWithDesk::new(alloc, site))
}

/// Runs a session into the planned output, and returns the status. None if there is no memory for a page.
fn status_into<E: Sink>(
    alloc: Global,
    call: Call,
    words: &Words,
    sites: &mut Sites<'_>,
    (plan, taken): (SinkPlan, &mut Taken),
    err: &mut E,
) -> Option<u8> {
    match plan {
        SinkPlan::Memory { refused } => {
            let refusing = Refusing::new(alloc, refused);
            let mut sink = MemorySink::new(&refusing);
            let status = call.status(alloc, words, sites, &mut sink, err);
            taken.take_over(&sink, refusing.has_refused());
            Some(status)
        }
        SinkPlan::Writer(plan) => {
            let mut sink = WriteSink::new(PlannedWriter::new(plan, taken));
            Some(call.status(alloc, words, sites, &mut sink, err))
        }
        SinkPlan::Page(plan) => {
            let below = WriteSink::new(PlannedWriter::new(plan, taken));
            let mut sink = PagedSink::new(alloc, below).ok()?;
            Some(call.status(alloc, words, sites, &mut sink, err))
        }
    }
}

/// Runs a session, and prints all that can be seen of it.
fn play_in<O: Write>(
    out: &mut O,
    alloc: Global,
    call: Call,
    words: &Words,
    sites: &mut Sites<'_>,
    numbers: &mut Numbers<'_>,
) -> io::Result<()> {
    let plan = SinkPlan::take(numbers);
    let err_plan = WriterPlan::take(numbers);
    let (mut taken, mut errors) = (Taken::new(alloc), Taken::new(alloc));
    let mut err = WriteSink::new(PlannedWriter::new(err_plan, &mut errors));
    let status = status_into(alloc, call, words, sites, (plan, &mut taken), &mut err);
    let _ = err.into_inner();
    writeln!(out, "status {status:?}")?;
    print_taken(out, alloc, &taken)?;
    print_taken(out, alloc, &errors)?;
    print_desk(out, "desk", &sites.compared.desk)?;
    print_desk(out, "trusted_desk", &sites.trusted.desk)
}

/// Runs the session that the numbers tell.
pub(crate) fn play_session<O: Write>(
    out: &mut O,
    alloc: Global,
    numbers: &mut Numbers<'_>,
) -> io::Result<()> {
    let call = Call::take(numbers);
    let Ok(words) = words_of(alloc, numbers) else {
        return Err(io::Error::from(ErrorKind::OutOfMemory));
    };
    let Ok(compared) = site_of(alloc, numbers) else {
        return Err(io::Error::from(ErrorKind::OutOfMemory));
    };
    let Ok(trusted) = site_of(alloc, numbers) else {
        return Err(io::Error::from(ErrorKind::OutOfMemory));
    };
    let mut sites = Sites { compared, trusted };
    play_in(out, alloc, call, &words, &mut sites, numbers)
}
