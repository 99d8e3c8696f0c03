//! The program that writes lines of JSON.
ghost use Rattle.std.specs.Prelude.{◌≡◌, ◌≤◌, Some, None};
ghost use Rattle.aide_entry.specs.Count.{one_more};
ghost use Rattle.aide_patterns.specs.List.{HasFirstFault, HasRules};
ghost use Rattle.aide_patterns.specs.declared.fault.ListFault.{ListFault};
ghost use Rattle.aide_line_session.specs.LineEnds.{EndsLinesBy};
ghost use Rattle.aide_line_session.specs.LineSession.{IsLineSession, check_job_of};
ghost use Rattle.aide_line_session.specs.GivenList.{IsListOf};
ghost use Rattle.aide_line_session.specs.SettingsTold.{settings_told};
ghost use Rattle.aide_site.specs.Session.{view_between};
ghost use Rattle.aide_line_session.specs.code.LineParts.{RunsAlone, line_view_between};
ghost use Rattle.aide_line_session.specs.code.LineParts.{peaks_between, trusted_between};
ghost use Rattle.aide_site.specs.code.Parts.{AreSame, ClosesFor, part_between};
ghost use Rattle.aide_line_run.specs.ListView.{list_read};
ghost use Rattle.aide_words.specs.LineJob.{LineJobText, line_job_of, text_of_line_job};

use crate::as_line::AsLine;
use crate::given_list::{digest_of, put_list_line};
use crate::line_databases::compare_lines;
use aide_conf::Task;
use aide_line_run::{LeftOutList, Tasks};
use aide_patterns::{Exclusions, ListFaultKind};
use aide_site::{
    Devices, JobConfig, Site, SiteWithDesk, Status, check_job, job_settings, pass_on,
    put_lines_usage_line, put_memory_line, put_no_settings,
};
use aide_text::Sink;
use aide_words::{LineJob, Words, WordsFault, read_line_words, read_words};
use std::alloc::Global;

/// Reads the settings of a comparison whose list has been read, and compares the databases that they
/// name and those of the trusted pair.
fn compare_listed<S: Site, W: Sink, E: Sink>(
    job: &LineJob,
    list: LeftOutList<'_>,
    devices: &mut Devices<'_, AsLine, S, W, E>,
    trusted: &mut SiteWithDesk<S>,
) -> u8
    ensures same { AreSame devices.old devices.new }
    ensures closes { IsListOf job.now.without (list_read list.entry)
        → EndsLinesBy (text_of_line_job job.now) result
        (S.failures devices.old.site.now)
        (line_view_between S.Sources W.Sink E.Sink devices.old devices.new
        trusted.old trusted.new) }
    ensures lookups { S.lookups devices.new.site.now ≤ one_more (S.lookups devices.old.site.now) }
    ensures trusted_lookups { S.lookups trusted.new.site ≡ S.lookups trusted.old.site }
{
    match job_settings(devices.alloc, devices.site, &JobConfig::of_lines(job)) {
        Ok(settings) => {
            let Some(task) = settings.task() else {
                unreachable!()
            };
            let trusted_task = Task {
                old_path: job.trusted_old.as_str(),
                new_path: job.trusted_new.as_str(),
                options: task.options,
            };
            let tasks = Tasks {
                compared: &task,
                trusted: &trusted_task,
                list,
            };
            compare_lines(&tasks, devices, trusted)
        }
        Err(why) => put_no_settings(devices.err, job.config.as_str(), why),
    }
}

/// Runs the session of a comparison, whose list has these rules.
fn run_ruled<S: Site, W: Sink, E: Sink>(
    job: &LineJob,
    rules: &Exclusions<'_>,
    devices: &mut Devices<'_, AsLine, S, W, E>,
    trusted: &mut SiteWithDesk<S>,
) -> u8
    ensures same { AreSame devices.old devices.new }
    ensures closes { HasRules job.now.without rules.now
        → EndsLinesBy (text_of_line_job job.now) result
        (S.failures devices.old.site.now)
        (line_view_between S.Sources W.Sink E.Sink devices.old devices.new
        trusted.old trusted.new) }
    ensures lookups { S.lookups devices.new.site.now ≤ one_more (S.lookups devices.old.site.now) }
    ensures trusted_lookups { S.lookups trusted.new.site ≡ S.lookups trusted.old.site }
{
    let digest = digest_of(job.without.as_str().as_bytes());
    let list = LeftOutList {
        rules,
        digest: &digest,
    };
    compare_listed(job, list, devices, trusted)
}

/// Runs the session of a comparison.
fn run_line_job<S: Site, W: Sink, E: Sink>(
    job: &LineJob,
    devices: &mut Devices<'_, AsLine, S, W, E>,
    trusted: &mut SiteWithDesk<S>,
) -> u8
    ensures same { AreSame devices.old devices.new }
    ensures closes { EndsLinesBy (text_of_line_job job.now) result
        (S.failures devices.old.site.now)
        (line_view_between S.Sources W.Sink E.Sink devices.old devices.new
        trusted.old trusted.new) }
    ensures unlooked { (fault : ListFault) → HasFirstFault job.now.without fault
        → S.lookups devices.new.site.now ≡ S.lookups devices.old.site.now }
    ensures lookups { S.lookups devices.new.site.now ≤ one_more (S.lookups devices.old.site.now) }
    ensures trusted_lookups { S.lookups trusted.new.site ≡ S.lookups trusted.old.site }
{
    let text = job.without.as_str().as_bytes();
    match Exclusions::read(devices.alloc, text) {
        Ok(rules) => run_ruled(job, &rules, devices, trusted),
        Err(fault) => match fault.kind {
            ListFaultKind::Memory => {
                put_memory_line(devices.err);
                Status::Memory as u8
            }
            _ => {
                put_list_line(devices.err, fault);
                Status::Configuration as u8
            }
        },
    }
}

/// Runs the session of arguments that ask for no comparison. They may ask for a check of a
/// configuration.
fn run_check_words<S: Site, W: Sink, E: Sink>(
    words: &Words,
    devices: &mut Devices<'_, AsLine, S, W, E>,
) -> u8
    ensures same { AreSame devices.old devices.new }
    ensures closes { ClosesFor (Some settings_told) (check_job_of words.now) result
        (part_between S.Sources W.Sink E.Sink devices.old devices.new) }
    ensures lookups { S.lookups devices.new.site.now ≤ one_more (S.lookups devices.old.site.now) }
    ensures still { devices.new.desk.now.peak ≡ devices.old.desk.now.peak }
{
    match read_words(devices.alloc, words) {
        Ok(job) => {
            if job.compare {
                put_lines_usage_line(devices.err);
                return Status::Usage as u8;
            }
            check_job(&job, devices)
        }
        Err(WordsFault::Usage) => {
            put_lines_usage_line(devices.err);
            Status::Usage as u8
        }
        Err(WordsFault::Memory) => {
            put_memory_line(devices.err);
            Status::Memory as u8
        }
    }
}

/// Runs the session of these arguments. Its lines may still wait in standard error afterwards.
fn run_line_words<S: Site, W: Sink, E: Sink>(
    words: &Words,
    devices: &mut Devices<'_, AsLine, S, W, E>,
    trusted: &mut SiteWithDesk<S>,
) -> u8
    ensures same { AreSame devices.old devices.new }
    ensures alone { line_job_of words.now ≡ None
        → RunsAlone words.now result (part_between S.Sources W.Sink E.Sink devices.old devices.new)
        (trusted_between S.Sources W.Sink E.Sink devices.old devices.new trusted.old trusted.new)
        (peaks_between devices.old devices.new trusted.old trusted.new) }
    ensures compares { (job : LineJobText) → line_job_of words.now ≡ Some job
        → EndsLinesBy job result (S.failures devices.old.site.now)
        (line_view_between S.Sources W.Sink E.Sink devices.old devices.new
        trusted.old trusted.new) }
    ensures unlooked { (job : LineJobText) → line_job_of words.now ≡ Some job
        → (fault : ListFault) → HasFirstFault job.without fault
        → S.lookups devices.new.site.now ≡ S.lookups devices.old.site.now }
    ensures lookups { S.lookups devices.new.site.now ≤ one_more (S.lookups devices.old.site.now) }
    ensures trusted_lookups { S.lookups trusted.new.site ≡ S.lookups trusted.old.site }
{
    match read_line_words(devices.alloc, words) {
        Ok(job) => run_line_job(&job, devices, trusted),
        Err(WordsFault::Usage) => run_check_words(words, devices),
        Err(WordsFault::Memory) => {
            put_memory_line(devices.err);
            Status::Memory as u8
        }
    }
}

/// Runs the session of these arguments, and passes its lines on.
fn run_lines_and_pass_on<S: Site, W: Sink, E: Sink>(
    words: &Words,
    devices: &mut Devices<'_, AsLine, S, W, E>,
    trusted: &mut SiteWithDesk<S>,
) -> u8
    ensures same { AreSame devices.old devices.new }
    ensures session { IsLineSession words.now result
        (part_between S.Sources W.Sink E.Sink devices.old devices.new)
        (trusted_between S.Sources W.Sink E.Sink devices.old devices.new trusted.old trusted.new)
        (peaks_between devices.old devices.new trusted.old trusted.new) }
{
    let status = run_line_words(words, devices, trusted);
    pass_on(devices.err);
    status
}

/// Runs the whole program over any site like `session_on` of `aide_report_session`, but writes the changes as lines of
/// JSON in place of the report. Of a configuration that is only checked it writes one line, which says what the
/// configuration sets.
///
/// The first site is that of the configuration and of the two databases. The arguments of a comparison may name a
/// trusted pair of databases too, which are then read from the second site. If they name none, the empty database is
/// read for both, and no file of the second site is opened. The arguments may also give a list of what is left out. A
/// fault of the list ends the session before any file is opened. If the arguments ask for no comparison, the second
/// site and both desks are left alone.
pub fn lines_session_on<S: Site, W: Sink, E: Sink>(
    alloc: Global,
    words: &Words,
    compared: &mut SiteWithDesk<S>,
    trusted: &mut SiteWithDesk<S>,
    out: &mut W,
    err: &mut E,
) -> u8
    ensures session { IsLineSession words.now result
        (view_between S.Sources W.Sink E.Sink compared.old.site compared.new.site out.old out.new
        err.old err.new)
        (view_between S.Sources W.Sink E.Sink trusted.old.site trusted.new.site out.old out.new
        err.old err.new)
        (record {
          before = compared.old.desk.peak;
          after = compared.new.desk.peak;
          trusted_before = trusted.old.desk.peak;
          trusted_after = trusted.new.desk.peak;
        }) }
{
    let SiteWithDesk { site, desk } = compared;
    let mut devices = Devices::new(AsLine, alloc, desk, site, out, err);
    run_lines_and_pass_on(words, &mut devices, trusted)
}
