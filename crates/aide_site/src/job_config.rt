//! Reading the settings of a job, for the report and for lines of JSON.
ghost use Rattle.std.specs.Prelude.{◌≡◌, Ok, IfOk, IfErr};
ghost use Rattle.aide_text.specs.Failures.{Rose};
ghost use Rattle.aide_site.specs.JobSettings.{need_of};
ghost use Rattle.aide_site.specs.JobSettings.{HasRead, IsNotOfText, NoSettingsCause};
ghost use Rattle.aide_site.specs.JobSettings.{ReadsJobAs, comparison_of, job_text_of};
ghost use Rattle.aide_site.specs.JobSettings.{no_settings_line, no_settings_status};
ghost use Rattle.aide_site.specs.Put.{PutOn};
ghost use Rattle.aide_site.specs.code.Config.{OpensOneFile};
ghost use Rattle.aide_words.specs.Job.{text_of_job};
ghost use Rattle.aide_words.specs.LineJob.{text_of_line_job};

use crate::config_file::{ConfigFault, read_config};
use crate::lines::{put_conf_line, put_memory_line, put_too_large_line, put_unread_line};
use crate::site::Site;
use crate::status::Status;
use aide_conf::{ConfFault, ConfFaultKind, Need, Settings};
use aide_text::Sink;
use aide_words::{Job, LineJob};
use std::alloc::Global;

/// What a job says of its configuration.
#[derive(Clone, Copy)]
pub struct JobConfig<'a> {
    compare: bool,
    path: &'a str,
    before: &'a str,
    after: &'a str,
}

impl<'a> JobConfig<'a> {
    /// Returns what a job of the report says.
    pub fn of(job: &'a Job) -> JobConfig<'a>
        ensures { job_text_of result ≡ text_of_job job.now }
    {
        JobConfig {
            compare: job.compare,
            path: job.config.as_str(),
            before: job.before.as_str(),
            after: job.after.as_str(),
        }
    }

    /// Returns what a comparison by lines says.
    pub fn of_lines(job: &'a LineJob) -> JobConfig<'a>
        ensures { job_text_of result ≡ comparison_of (text_of_line_job job.now) }
    {
        JobConfig {
            compare: true,
            path: job.config.as_str(),
            before: job.before.as_str(),
            after: job.after.as_str(),
        }
    }
}

/// Why a job has no settings.
#[derive(Clone, Copy)]
pub enum NoSettings {
    /// Memory ran out.
    Memory,
    /// The configuration was not read.
    Unread,
    /// It is longer than a configuration may be.
    TooLarge,
    /// It has a fault.
    Refused(ConfFault),
}

/// Returns what a configuration is read for.
fn need(compare: bool) -> Need
    ensures { result ≡ need_of compare }
{
    if compare { Need::Compare } else { Need::Check }
}

/// Reads the settings of a job whose configuration has this text.
fn read_settings(alloc: Global, job: &JobConfig<'_>, text: &[u8]) -> Result<Settings, NoSettings>
    ensures ok { IfOk result (λ settings. ReadsJobAs (job_text_of job.now) text.now (Ok settings)) }
    ensures err { IfErr result (λ why. IsNotOfText (job_text_of job.now) text.now why) }
{
    let before = job.before.as_bytes();
    let after = job.after.as_bytes();
    match Settings::read(alloc, before, text, after, need(job.compare)) {
        Ok(settings) => Ok(settings),
        Err(fault) => match fault.kind {
            ConfFaultKind::Memory => Err(NoSettings::Memory),
            _ => Err(NoSettings::Refused(fault)),
        },
    }
}

/// Reads the settings of a job.
pub fn job_settings<S: Site>(
    alloc: Global,
    site: &mut S,
    job: &JobConfig<'_>,
) -> Result<Settings, NoSettings>
    ensures ok { IfOk result (λ settings. HasRead (S.file_at site.old) (job_text_of job.now)
        (Ok settings)) }
    ensures err { IfErr result (λ why. NoSettingsCause (S.file_at site.old)
        (S.is_reliable site.old) (job_text_of job.now)
        (Rose (S.failures site.old) (S.failures site.new)) why) }
    ensures opens { OpensOneFile S.Sources site.old site.new }
{
    match read_config(alloc, site, job.path) {
        Ok(text) => read_settings(alloc, job, text.as_slice()),
        Err(ConfigFault::TooLarge) => Err(NoSettings::TooLarge),
        Err(ConfigFault::Unread) => Err(NoSettings::Unread),
        Err(ConfigFault::Memory) => Err(NoSettings::Memory),
    }
}

/// Puts the line that says why a job has no settings, and returns the status.
pub fn put_no_settings<E: Sink>(err: &mut E, path: &str, why: NoSettings) -> u8
    ensures put { PutOn (no_settings_line path.now why) E.Sink err.old err.new }
    ensures status { result ≡ no_settings_status why }
{
    match why {
        NoSettings::Memory => {
            put_memory_line(err);
            Status::Memory as u8
        }
        NoSettings::Unread => {
            put_unread_line(err, path);
            Status::Device as u8
        }
        NoSettings::TooLarge => {
            put_too_large_line(err);
            Status::Configuration as u8
        }
        NoSettings::Refused(fault) => {
            put_conf_line(err, fault);
            Status::Configuration as u8
        }
    }
}
