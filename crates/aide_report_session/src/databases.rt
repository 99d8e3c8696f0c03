//! Comparing the two databases that the settings name.
ghost use Rattle.std.specs.Prelude.{◌≡◌, ◌≤◌, ℕ, List, Option, Some, IsSome, Ok, true};
ghost use Rattle.aide_db.specs.declared.side.Side.{Side};
ghost use Rattle.aide_merge.specs.Asked.{asked};
ghost use Rattle.aide_site.specs.Answer.{Compares};
ghost use Rattle.aide_site.specs.Closing.{AsksAndReads, AsksToCompare};
ghost use Rattle.aide_site.specs.Closing.{compared_line, compared_status};
ghost use Rattle.aide_site.specs.code.Parts.{AreSame, ClosesFor, HoldsWith, IsPointed};
ghost use Rattle.aide_site.specs.code.Parts.{KeepsPeak, named_by, part_between};
ghost use Rattle.aide_site.specs.Held.{IsPeakOf};
ghost use Rattle.aide_site.specs.Put.{PutOn};
ghost use Rattle.aide_words.specs.Job.{JobText};

use aide_conf::{Settings, Task};
use aide_db::{Side, Sources};
use aide_merge::{Outcome, RunFault};
use aide_report::run;
use aide_site::{
    Devices, LIMITS, Site, Status, Telling, Whose, prepare, put_memory_line, put_outcome_lines,
    put_run_fault,
};
use aide_text::Sink;
use aide_words::Memory;

/// Puts what a comparison has to say on standard error, and returns the exit status.
fn put_end<E: Sink>(err: &mut E, task: &Task<'_>, end: Result<Outcome, RunFault>) -> u8
    ensures put { (config : List ℕ) → PutOn (compared_line (named_by config (asked task.now)) end)
        E.Sink err.old err.new }
    ensures status { result ≡ compared_status end }
{
    match end {
        Ok(outcome) => {
            put_outcome_lines(err, &outcome);
            outcome.status()
        }
        Err(fault) => {
            put_run_fault(err, Whose::Compared, task, fault);
            fault.status()
        }
    }
}

/// Compares the databases that the sides of a site are pointed at. The desk has room for any line.
fn compare_sides<T: Telling, S: Site, W: Sink, E: Sink>(
    task: &Task<'_>,
    devices: &mut Devices<'_, T, S, W, E>,
) -> u8
    requires room { 1048576 ≤ devices.old.desk.now.room }
    ensures same { AreSame devices.old devices.new }
    ensures closes { (wanted : Option JobText) (config : List ℕ)
        → IsPointed (S.file_at devices.old.site.now) (asked task.now)
        (S.bytes_of devices.old.site.now) (S.is_missing devices.old.site.now)
        → (asks : AsksToCompare (S.file_at devices.old.site.now) wanted
        (named_by config (asked task.now)))
        → asks.settings.options ≡ task.now.options
        → ClosesFor T.says wanted result
        (part_between S.Sources W.Sink E.Sink devices.old devices.new) }
    ensures lookups { S.lookups devices.new.site.now ≡ S.lookups devices.old.site.now }
    ensures peak { KeepsPeak devices.old devices.new }
    ensures bound { (old new : List ℕ) → S.bytes_of devices.old.site.now Side.Old ≡ Some old
        → S.bytes_of devices.old.site.now Side.New ≡ Some new
        → IsPeakOf old new devices.old.desk.now.peak devices.new.desk.now.peak }
{
    let end = run(task, LIMITS, devices.desk, devices.site, devices.out);
    put_end(devices.err, task, end)
}

/// Points a site at the databases that the settings name, reserves what a comparison may hold, and
/// compares the databases.
pub(crate) fn compare<T: Telling, S: Site, W: Sink, E: Sink>(
    settings: &Settings,
    devices: &mut Devices<'_, T, S, W, E>,
) -> u8
    requires { IsSome settings.now.old_path × IsSome settings.now.new_path }
    ensures same { AreSame devices.old devices.new }
    ensures closes { (wanted : Option JobText) (config : List ℕ)
        → AsksAndReads (S.file_at devices.old.site.now) wanted config true (Ok settings.now)
        → ClosesFor T.says wanted result
        (part_between S.Sources W.Sink E.Sink devices.old devices.new) }
    ensures lookups { S.lookups devices.new.site.now ≡ S.lookups devices.old.site.now }
    ensures peak { KeepsPeak devices.old devices.new }
    ensures bound { HoldsWith (λ files. Compares files settings.now)
        (S.file_at devices.old.site.now) devices.old devices.new }
{
    let Some(task) = settings.task() else {
        unreachable!()
    };
    if let Err(Memory) = prepare(
        devices.alloc,
        devices.desk,
        devices.site,
        &task,
        Whose::Compared,
    ) {
        put_memory_line(devices.err);
        return Status::Memory as u8;
    }
    compare_sides(&task, devices)
}
