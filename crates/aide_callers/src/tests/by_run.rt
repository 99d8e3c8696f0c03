//! A caller of `run`. The configuration and both databases are in memory. The caller needs only the counts.
ghost use Rattle.std.specs.Prelude.{OnOk};
ghost use Rattle.aide_db.specs.Database.{IsSound};

use aide_conf::{Need, Settings};
use aide_db::{Desk, Limits, MemorySources};
use aide_report::{MemorySink, Outcome, RunFault, run};
use std::alloc::Global;

/// The longest line that a database may have, and the most bytes.
pub(super) const LIMITS: Limits = Limits {
    line: 65_536,
    bytes: 1_099_511_627_776,
};

/// Why there are no counts to return.
#[derive(Drop)]
pub(super) enum Refusal {
    /// The configuration has a fault, or names no databases.
    Configuration,
    /// Memory ran out for the desk.
    Memory,
    /// The run ended with this fault.
    Run(RunFault),
}

/// Compares two databases by a configuration that names both. The report is kept in memory, and then dropped.
/// If a database has a fault, there are no counts.
pub(super) fn counts_of(
    alloc: Global,
    config: &[u8],
    old: &[u8],
    new: &[u8],
) -> Result<Outcome, Refusal>
    ensures old { OnOk result (IsSound (record { line = 65536; bytes = 1099511627776 }) old.now) }
    ensures new { OnOk result (IsSound (record { line = 65536; bytes = 1099511627776 }) new.now) }
{
    let Ok(settings) = Settings::read(alloc, b"", config, b"", Need::Compare) else {
        return Err(Refusal::Configuration);
    };
    let Some(task) = settings.task() else {
        return Err(Refusal::Configuration);
    };
    let Ok(mut desk) = Desk::reserved(alloc, LIMITS.line) else {
        return Err(Refusal::Memory);
    };
    let mut sources = MemorySources::new(old, new);
    let mut report = MemorySink::new(alloc);
    match run(&task, LIMITS, &mut desk, &mut sources, &mut report) {
        Ok(outcome) => Ok(outcome),
        Err(fault) => Err(Refusal::Run(fault)),
    }
}
