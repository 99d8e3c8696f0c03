//! The first fault of two databases that are read in lock step.
ghost use Rattle.aide_merge.specs.code.Settling.{IsSettled, IsStopped};

use crate::merge::Merge;
use crate::pass::read_to_end;
use aide_db::{DbFault, Desk, Reel, Side};
use std::alloc::Allocator;

/// Returns the fault that comes first: one of the old database comes before one of the new one. If the new one is at
/// fault, the old one is read to its end.
pub fn settled<R: Reel, A: Allocator + Copy>(
    merge: &mut Merge<R>,
    desk: &mut Desk<A>,
    fault: DbFault,
) -> DbFault
    requires { IsStopped R.Reel merge.old fault }
    ensures { IsSettled R.Reel merge.old merge.new desk.old desk.new fault result }
{
    match fault.side {
        Side::Old => fault,
        Side::New => match read_to_end(&mut merge.old_cursor, desk) {
            Ok(()) => fault,
            Err(first) => first,
        },
    }
}
