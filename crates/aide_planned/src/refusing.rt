//! An allocator that refuses one allocation, chosen by its number, or all allocations from that one on.
ghost use Rattle.std.specs.Prelude.{◌≡◌, true, false};

use std::alloc::{AllocError, Allocator};
use std::cell::Cell;

/// Which allocation is refused, whether all later ones are refused too, and how many were asked for so far.
struct Plan {
    refused: u64,
    for_good: bool,
    asked: Cell<u64>,
}

impl Plan {
    fn new(refused: u64, for_good: bool) -> Plan
        ensures refused { result.refused ≡ refused }
        ensures for_good { result.for_good ≡ for_good }
    {
        Plan {
            refused,
            for_good,
            asked: Cell::new(0),
        }
    }

    fn asked(&self) -> u64 {
        self.asked.get()
    }

    /// Counts one more allocation, and returns whether it is to be refused.
    fn refuses(&self) -> bool {
        let number = self.asked.get();
        self.asked.set(number.saturating_add(1));
        number == self.refused || (self.for_good && number > self.refused)
    }
}

impl Drop for Plan {
    fn drop(self) {
        let Self {
            refused: _,
            for_good: _,
            asked: _,
        } = self;
    }
}

/// Passes each call on to another allocator, except for the allocations that it refuses. `&Refusing<Global>` is
/// `Allocator + Copy`.
///
/// Allocations are counted from 0. So a loop over 0, 1, 2 and so on refuses each allocation in turn. It ends when
/// [`Refusing::has_refused`] returns that the chosen allocation was never asked for. The allocations before the
/// chosen one succeed. The count is no part of a contract, because it changes through a shared reference.
pub struct Refusing<B: Allocator> {
    inner: B,
    plan: Plan,
}

impl<B: Allocator> Refusing<B> {
    /// Refuses only the allocation with this number. Making this allocator needs no memory.
    pub fn new(inner: B, refused: u64) -> Refusing<B>
        ensures inner { result.inner ≡ inner }
        ensures refused { result.plan.refused ≡ refused }
        ensures once { result.plan.for_good ≡ false }
    {
        Refusing {
            inner,
            plan: Plan::new(refused, false),
        }
    }

    /// Refuses the allocation with this number and all after it. Making this allocator needs no memory.
    pub fn all_from(inner: B, refused: u64) -> Refusing<B>
        ensures inner { result.inner ≡ inner }
        ensures refused { result.plan.refused ≡ refused }
        ensures for_good { result.plan.for_good ≡ true }
    {
        Refusing {
            inner,
            plan: Plan::new(refused, true),
        }
    }

    /// How many allocations were asked for so far, including refused ones.
    pub fn asked(&self) -> u64 {
        self.plan.asked()
    }

    /// Whether the allocation to refuse was asked for.
    pub fn has_refused(&self) -> bool {
        self.plan.refused < self.plan.asked()
    }
}

impl<B: Allocator> Drop for Refusing<B> {
    fn drop(self) {
        let Self { inner: _, plan: _ } = self;
    }
}

unsafe impl<B: Allocator> Allocator for Refusing<B> {
    ghost dealloc_token = { λ heap ty ptr. B.dealloc_token heap.inner ty ptr };

    fn allocate(&self, size: usize, align: usize) -> Result<*mut u8, AllocError> {
        if self.plan.refuses() {
            return Err(AllocError);
        }
        self.inner.allocate(size, align)
    }

    unsafe fn deallocate(&self, ptr: *mut u8, size: usize, align: usize) {
        self.inner.deallocate(ptr, size, align);
    }
}
