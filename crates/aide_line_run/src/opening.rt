//! The opening of all four databases, and their end.
ghost use Rattle.std.specs.Prelude.{◌≡◌, ◌<◌, IfErr, IfOk};
ghost use Rattle.aide_merge.specs.Seen.{AreLimits, KeepsSources, seen};
ghost use Rattle.aide_merge.specs.code.Merging.{reels_failed};
ghost use Rattle.aide_text.specs.Failures.{Rose};
ghost use Rattle.aide_line_run.specs.code.Readings.{AreOpened, IsFaultOfFour, KeepsPair};

use crate::in_order::open_in_order;
use crate::pair_fault::PairFault;
use crate::settle::read_out;
use crate::walk::Merges;
use aide_db::{Desk, Limits, Sources};
use aide_merge::{Merge, RunFault, close_both};
use std::alloc::Allocator;

/// Opens all four databases: the compared pair, and then the trusted one. If the trusted pair cannot be opened, the
/// compared one is read to its end, since a fault of it comes first.
#[inline(never)]
pub(crate) fn open_four<S: Sources, A: Allocator + Copy>(
    limits: Limits,
    desk: &mut Desk<A>,
    sources: &mut S,
    trusted_desk: &mut Desk<A>,
    trusted: &mut S,
) -> Result<Merges<S::R>, PairFault>
    requires { AreLimits limits }
    ensures keeps { KeepsPair limits (seen S.Sources sources.old) (seen S.Sources sources.new)
        desk.old desk.new }
    ensures trusted_keeps { KeepsPair limits
        (seen S.Sources trusted.old) (seen S.Sources trusted.new)
        trusted_desk.old trusted_desk.new }
    ensures opened { IfOk result (λ merges. AreOpened S.R.Reel limits
        (seen S.Sources sources.old) (seen S.Sources sources.new) desk.new merges.compared) }
    ensures trusted_opened { IfOk result (λ merges. AreOpened S.R.Reel limits
        (seen S.Sources trusted.old) (seen S.Sources trusted.new) trusted_desk.new merges.trusted) }
    ensures fault { IfErr result (IsFaultOfFour limits
        (seen S.Sources sources.old) (seen S.Sources sources.new) desk.old.room ⊥
        (seen S.Sources trusted.old) (seen S.Sources trusted.new) trusted_desk.old.room) }
{
    let (old_reel, new_reel) = match open_in_order(sources, limits, desk) {
        Ok(reels) => reels,
        Err(fault) => return Err(PairFault::Compared(fault)),
    };
    let mut compared = Merge::start(old_reel, new_reel, limits, desk);
    match open_in_order(trusted, limits, trusted_desk) {
        Ok((trusted_old, trusted_new)) => {
            let merge = Merge::start(trusted_old, trusted_new, limits, trusted_desk);
            Ok(Merges {
                compared,
                trusted: merge,
            })
        }
        Err(fault) => {
            let rest = read_out(&mut compared, desk);
            close_both(sources, compared);
            match rest {
                Ok(()) => Err(PairFault::Trusted(fault)),
                Err(first) => Err(PairFault::Compared(RunFault::Database(first))),
            }
        }
    }
}
