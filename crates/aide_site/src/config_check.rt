//! The session of a job that only checks a configuration.
ghost use Rattle.std.specs.Prelude.{◌≡◌, ◌≤◌, ℕ, List, Option, Some, Ok, false};
ghost use Rattle.aide_entry.specs.Count.{one_more};
ghost use Rattle.aide_site.specs.Closing.{AsksAndReads};
ghost use Rattle.aide_site.specs.code.Parts.{AreSame, ClosesFor, part_between};
ghost use Rattle.aide_words.specs.Job.{JobText, text_of_job};

use crate::devices::Devices;
use crate::job_config::{JobConfig, job_settings, put_no_settings};
use crate::lines::put_write_line;
use crate::site::Site;
use crate::status::Status;
use crate::telling::{Telling, Unwritten};
use aide_conf::Settings;
use aide_db::Sources;
use aide_text::Sink;
use aide_words::Job;

/// Writes what there is to say of an accepted configuration that is only checked.
fn check<T: Telling, S: Site, W: Sink, E: Sink>(
    settings: &Settings,
    devices: &mut Devices<'_, T, S, W, E>,
) -> u8
    ensures same { AreSame devices.old devices.new }
    ensures closes { (wanted : Option JobText) (config : List ℕ)
        → AsksAndReads (S.file_at devices.old.site.now) wanted config false (Ok settings.now)
        → ClosesFor T.says wanted result
        (part_between S.Sources W.Sink E.Sink devices.old devices.new) }
    ensures site_never_falls { S.failures devices.old.site.now ≤ S.failures devices.new.site.now }
    ensures lookups { S.lookups devices.new.site.now ≡ S.lookups devices.old.site.now }
    ensures still { devices.new.desk.now.peak ≡ devices.old.desk.now.peak }
{
    match T::tell(settings, devices.out) {
        Ok(()) => 0,
        Err(Unwritten) => {
            put_write_line(devices.err);
            Status::Device as u8
        }
    }
}

/// Runs the session of a job that only checks a configuration.
pub fn check_job<T: Telling, S: Site, W: Sink, E: Sink>(
    job: &Job,
    devices: &mut Devices<'_, T, S, W, E>,
) -> u8
    requires { job.now.compare ≡ false }
    ensures same { AreSame devices.old devices.new }
    ensures closes { (wanted : Option JobText) → wanted ≡ Some (text_of_job job.now)
        → ClosesFor T.says wanted result
        (part_between S.Sources W.Sink E.Sink devices.old devices.new) }
    ensures lookups { S.lookups devices.new.site.now ≤ one_more (S.lookups devices.old.site.now) }
    ensures still { devices.new.desk.now.peak ≡ devices.old.desk.now.peak }
{
    match job_settings(devices.alloc, devices.site, &JobConfig::of(job)) {
        Ok(settings) => check(&settings, devices),
        Err(why) => put_no_settings(devices.err, job.config.as_str(), why),
    }
}
