//! Comparing the two databases that the settings name and the two of a trusted pair.
ghost use Rattle.std.specs.Prelude.{◌≡◌, ◌≤◌, ◌⊎◌, ℕ, List};
ghost use Rattle.aide_merge.specs.Asked.{asked};
ghost use Rattle.aide_text.specs.Failures.{Rose};
ghost use Rattle.aide_line_session.specs.LineEnds.{ClosesCompared, StopsWith};
ghost use Rattle.aide_line_session.specs.LineEnds.{compared_line, compared_status};
ghost use Rattle.aide_site.specs.Lines.{memory_line};
ghost use Rattle.aide_site.specs.Put.{PutOn};
ghost use Rattle.aide_site.specs.Trusted.{trusted_at};
ghost use Rattle.aide_line_session.specs.code.LineParts.{lent_pair, line_view_between};
ghost use Rattle.aide_site.specs.code.Parts.{AreSame, IsPointed, named_by};
ghost use Rattle.aide_line_run.specs.ListView.{list_read};
ghost use Rattle.aide_line_run.specs.SamePair.{AreSamePair};

use crate::as_line::AsLine;
use aide_conf::Task;
use aide_line_run::{PairFault, Tasks, TrustedPair, run_lines};
use aide_merge::Outcome;
use aide_site::{
    Devices, LIMITS, Site, SiteWithDesk, Status, Whose, prepare, put_memory_line,
    put_outcome_lines, put_run_fault,
};
use aide_text::Sink;
use aide_words::Memory;
use std::alloc::Global;

/// Puts what a comparison has to say on standard error, and returns the exit status.
fn put_end<E: Sink>(err: &mut E, tasks: &Tasks<'_>, end: Result<Outcome, PairFault>) -> u8
    ensures put { (config : List ℕ) → PutOn (compared_line
        (named_by config (asked tasks.now.compared.now))
        (named_by config (asked tasks.now.trusted.now)) end) E.Sink err.old err.new }
    ensures status { result ≡ compared_status end }
{
    match end {
        Ok(outcome) => {
            put_outcome_lines(err, &outcome);
            outcome.status()
        }
        Err(PairFault::Compared(fault)) => {
            put_run_fault(err, Whose::Compared, tasks.compared, fault);
            fault.status()
        }
        Err(PairFault::Trusted(fault)) => {
            put_run_fault(err, Whose::Trusted, tasks.trusted, fault);
            fault.status()
        }
    }
}

/// Compares the databases that both sites are pointed at. Each desk has room for any line.
fn compare_pairs<S: Site, W: Sink, E: Sink>(
    tasks: &Tasks<'_>,
    devices: &mut Devices<'_, AsLine, S, W, E>,
    pair: &mut TrustedPair<'_, S, Global>,
) -> u8
    requires room { 1048576 ≤ devices.old.desk.now.room }
    requires trusted_room { 1048576 ≤ pair.old.desk.now.room }
    ensures same { AreSame devices.old devices.new }
    ensures same_pair { AreSamePair pair.old pair.new }
    ensures closes { (config : List ℕ)
        → IsPointed (S.file_at devices.old.site.now) (asked tasks.now.compared.now)
        (S.bytes_of devices.old.site.now) (S.is_missing devices.old.site.now)
        → IsPointed (trusted_at (S.file_at pair.old.sources.now)) (asked tasks.now.trusted.now)
        (S.bytes_of pair.old.sources.now) (S.is_missing pair.old.sources.now)
        → tasks.now.trusted.now.options ≡ tasks.now.compared.now.options
        → ClosesCompared (list_read tasks.now.list)
        (named_by config (asked tasks.now.compared.now))
        (named_by config (asked tasks.now.trusted.now)) tasks.now.compared.now.options result
        (Rose (S.failures devices.old.site.now) (S.failures devices.new.site.now))
        (line_view_between S.Sources W.Sink E.Sink devices.old devices.new
        (lent_pair pair.old) (lent_pair pair.new)) }
    ensures lookups { S.lookups devices.new.site.now ≡ S.lookups devices.old.site.now }
    ensures trusted_lookups { S.lookups pair.new.sources.now ≡ S.lookups pair.old.sources.now }
{
    let end = run_lines(tasks, LIMITS, devices.desk, devices.site, pair, devices.out);
    put_end(devices.err, tasks, end)
}

/// Points both sites at their databases, reserves what a comparison may hold, and compares the
/// databases.
pub(crate) fn compare_lines<S: Site, W: Sink, E: Sink>(
    tasks: &Tasks<'_>,
    devices: &mut Devices<'_, AsLine, S, W, E>,
    trusted: &mut SiteWithDesk<S>,
) -> u8
    ensures same { AreSame devices.old devices.new }
    ensures closes { (config : List ℕ)
        → tasks.now.trusted.now.options ≡ tasks.now.compared.now.options
        → StopsWith memory_line 22 result
        (line_view_between S.Sources W.Sink E.Sink devices.old devices.new
        trusted.old trusted.new)
        ⊎ ClosesCompared (list_read tasks.now.list)
        (named_by config (asked tasks.now.compared.now))
        (named_by config (asked tasks.now.trusted.now)) tasks.now.compared.now.options result
        (Rose (S.failures devices.old.site.now) (S.failures devices.new.site.now))
        (line_view_between S.Sources W.Sink E.Sink devices.old devices.new
        trusted.old trusted.new) }
    ensures lookups { S.lookups devices.new.site.now ≡ S.lookups devices.old.site.now }
    ensures trusted_lookups { S.lookups trusted.new.site ≡ S.lookups trusted.old.site }
{
    if let Err(Memory) = prepare(
        devices.alloc,
        devices.desk,
        devices.site,
        tasks.compared,
        Whose::Compared,
    ) {
        put_memory_line(devices.err);
        return Status::Memory as u8;
    }
    if let Err(Memory) = prepare(
        devices.alloc,
        &mut trusted.desk,
        &mut trusted.site,
        tasks.trusted,
        Whose::Trusted,
    ) {
        put_memory_line(devices.err);
        return Status::Memory as u8;
    }
    let mut pair = TrustedPair {
        desk: &mut trusted.desk,
        sources: &mut trusted.site,
    };
    compare_pairs(tasks, devices, &mut pair)
}
