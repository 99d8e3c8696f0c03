//! Desks whose allocations fail by a plan.
use crate::numbers::Numbers;
use crate::refusing::Refusing;
use aide_db::{Desk, DeskFault};
use std::alloc::{Allocator, Global};

/// The room of a desk, and which of its allocations is refused, counted from 0.
#[derive(Clone, Copy)]
pub(crate) struct DeskPlan {
    /// Room for lines of so many bytes is reserved, if it is a number of 32 bits.
    room: u64,
    refused: u64,
    /// Whether all later ones are refused too.
    for_good: bool,
}

impl DeskPlan {
    pub(crate) fn take(numbers: &mut Numbers<'_>) -> DeskPlan {
        DeskPlan {
            room: numbers.take(),
            refused: numbers.take(),
            for_good: numbers.flag(),
        }
    }

    /// The allocator of the desk.
    pub(crate) fn allocator(self, alloc: Global) -> Refusing<Global> {
        if self.for_good {
            Refusing::all_from(alloc, self.refused)
        } else {
            Refusing::new(alloc, self.refused)
        }
    }

    /// A desk with this room.
    pub(crate) fn desk<A: Allocator + Copy>(self, alloc: A) -> Result<Desk<A>, DeskFault> {
        match u32::try_from(self.room) {
            Ok(room) => Desk::reserved(alloc, room),
            Err(_) => Ok(Desk::new(alloc)),
        }
    }
}
