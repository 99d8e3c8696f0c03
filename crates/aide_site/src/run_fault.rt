//! The line on standard error for a run that failed.
ghost use Rattle.std.specs.Prelude.{◌≡◌};
ghost use Rattle.aide_db.specs.Side.{by_side};
ghost use Rattle.aide_site.specs.Lines.{run_fault_line};
ghost use Rattle.aide_site.specs.Put.{PutOn};

use crate::lines::{
    put_changed_line, put_database_line, put_memory_line, put_open_line, put_write_line,
};
use crate::whose::Whose;
use aide_conf::Task;
use aide_db::{DbFaultKind, Side};
use aide_merge::RunFault;
use aide_text::Sink;

/// Returns the configured path of a side.
fn path_of<'a>(task: &Task<'a>, side: Side) -> &'a str
    ensures { result.now ≡ by_side task.now.old_path.now task.now.new_path.now side }
{
    match side {
        Side::Old => task.old_path,
        Side::New => task.new_path,
    }
}

/// Puts the line that says why a run failed.
pub fn put_run_fault<E: Sink>(err: &mut E, whose: Whose, task: &Task<'_>, fault: RunFault)
    ensures { PutOn (run_fault_line whose task.now.old_path.now task.now.new_path.now fault)
        E.Sink err.old err.new }
{
    match fault {
        RunFault::Open(side) => put_open_line(err, whose, side, path_of(task, side)),
        RunFault::Database(fault) => match fault.kind {
            DbFaultKind::Memory => put_memory_line(err),
            _ => put_database_line(err, whose, fault),
        },
        RunFault::Changed(side) => put_changed_line(err, whose, side),
        RunFault::Write { written: _ } => put_write_line(err),
    }
}
