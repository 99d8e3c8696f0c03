//! The whole program over any site.
ghost use Rattle.std.specs.Prelude.{◌≡◌, ◌≤◌, Option, Some, None, true};
ghost use Rattle.aide_entry.specs.Count.{one_more};
ghost use Rattle.aide_site.specs.Answer.{IsAnswerBy, IsJobAnswerBy};
ghost use Rattle.aide_site.specs.Session.{HoldsBy, IsSessionBy, view_between};
ghost use Rattle.aide_site.specs.code.Parts.{AreSame, ClosesFor, HoldsWith};
ghost use Rattle.aide_site.specs.code.Parts.{KeepsPeak, part_between};
ghost use Rattle.aide_words.specs.Job.{JobText, job_of, text_of_job};

use crate::databases::compare;
use crate::silent::Silent;
use aide_db::{Desk, Sources};
use aide_site::{
    Devices, JobConfig, Site, Status, Telling, check_job, job_settings, pass_on, put_memory_line,
    put_no_settings, put_usage_line,
};
use aide_text::Sink;
use aide_words::{Job, Words, WordsFault, read_words};
use std::alloc::Global;

/// Runs the session of a job that compares databases.
fn compare_job<S: Site, W: Sink, E: Sink>(
    job: &Job,
    devices: &mut Devices<'_, Silent, S, W, E>,
) -> u8
    requires { job.now.compare ≡ true }
    ensures same { AreSame devices.old devices.new }
    ensures closes { (wanted : Option JobText) → wanted ≡ Some (text_of_job job.now)
        → ClosesFor None wanted result
        (part_between S.Sources W.Sink E.Sink devices.old devices.new) }
    ensures lookups { S.lookups devices.new.site.now ≤ one_more (S.lookups devices.old.site.now) }
    ensures peak { KeepsPeak devices.old devices.new }
    ensures bound { HoldsWith (λ files. IsJobAnswerBy None files (text_of_job job.now))
        (S.file_at devices.old.site.now) devices.old devices.new }
{
    match job_settings(devices.alloc, devices.site, &JobConfig::of(job)) {
        Ok(settings) => compare(&settings, devices),
        Err(why) => put_no_settings(devices.err, job.config.as_str(), why),
    }
}

/// Runs the session of these arguments. Its lines may still wait in standard error
/// afterwards.
pub(crate) fn run_words<S: Site, W: Sink, E: Sink>(
    words: &Words,
    devices: &mut Devices<'_, Silent, S, W, E>,
) -> u8
    ensures same { AreSame devices.old devices.new }
    ensures closes { ClosesFor None (job_of words.now) result
        (part_between S.Sources W.Sink E.Sink devices.old devices.new) }
    ensures lookups { S.lookups devices.new.site.now ≤ one_more (S.lookups devices.old.site.now) }
    ensures peak { KeepsPeak devices.old devices.new }
    ensures bound { HoldsWith (λ files. IsAnswerBy None files (job_of words.now))
        (S.file_at devices.old.site.now) devices.old devices.new }
{
    match read_words(devices.alloc, words) {
        Ok(job) => {
            if job.compare {
                compare_job(&job, devices)
            } else {
                check_job(&job, devices)
            }
        }
        Err(WordsFault::Usage) => {
            put_usage_line(devices.err);
            Status::Usage as u8
        }
        Err(WordsFault::Memory) => {
            put_memory_line(devices.err);
            Status::Memory as u8
        }
    }
}

/// Runs the session of these arguments, and passes its lines on.
pub(crate) fn run_and_pass_on<S: Site, W: Sink, E: Sink>(
    words: &Words,
    devices: &mut Devices<'_, Silent, S, W, E>,
) -> u8
    ensures same { AreSame devices.old devices.new }
    ensures session { IsSessionBy None (job_of words.now) result
        (part_between S.Sources W.Sink E.Sink devices.old devices.new) }
    ensures desk { HoldsBy None (S.file_at devices.old.site.now) (job_of words.now)
        devices.old.desk.now.peak devices.new.desk.now.peak }
{
    let status = run_words(words, devices);
    pass_on(devices.err);
    status
}

/// Runs the whole program over any site, on this desk. Reads the arguments, then the configuration,
/// and then compares the two databases if a comparison is asked for. Returns the exit status, as
/// aide-compare-program(8) lists it: 0 to 7, 15, 17, 18, 22 or 24.
///
/// The report goes to `out`. Lines go to `err`: one line for a fault, or after a good comparison
/// one line for each column that was skipped. `err` is flushed at the end. A failure of `err`
/// changes neither the output nor the status.
///
/// A file that is named and not there is reported like a fault, in this order: the configuration,
/// the old database and, if the old one is sound, the new database.
///
/// The desk keeps the bytes of the databases. It gets room for any line after the configuration has
/// been read and before a database is opened.
///
/// What is promised is the fields of `IsSessionBy`, and of the desk those of `HoldsBy`.
pub fn session_on<S: Site, W: Sink, E: Sink>(
    alloc: Global,
    words: &Words,
    desk: &mut Desk<Global>,
    site: &mut S,
    out: &mut W,
    err: &mut E,
) -> u8
    ensures session { IsSessionBy None (job_of words.now) result
        (view_between S.Sources W.Sink E.Sink
        site.old site.new out.old out.new err.old err.new) }
    ensures desk { HoldsBy None (S.file_at site.old) (job_of words.now)
        desk.old.peak desk.new.peak }
{
    let mut devices = Devices::new(Silent, alloc, desk, site, out, err);
    run_and_pass_on(words, &mut devices)
}

/// Runs the whole program over any site like [`session_on`], with a desk of its own that has held
/// nothing before.
pub fn session<S: Site, W: Sink, E: Sink>(
    alloc: Global,
    words: &Words,
    site: &mut S,
    out: &mut W,
    err: &mut E,
) -> u8
    ensures session { IsSessionBy None (job_of words.now) result
        (view_between S.Sources W.Sink E.Sink
        site.old site.new out.old out.new err.old err.new) }
{
    let mut desk = Desk::new(alloc);
    session_on(alloc, words, &mut desk, site, out, err)
}
