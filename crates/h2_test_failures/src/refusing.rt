//! The allocator: it counts allocations after a `&`, and passes all but one on. No clause can name what a cell holds.
//! So the contracts about the count are those of `Countdown`; that it is kept from call to call is tested in
//! `h2_test_failures`.

use crate::countdown::Countdown;
use std::alloc::{AllocError, Allocator};
use std::cell::Cell;

/// An allocator that refuses one allocation and passes all other calls on to `inner`. To grow or shrink a block is an
/// allocation too.
///
/// Collections take a `&` to it, which is `Copy`.
#[derive(Drop)]
pub struct Refusing<B: Allocator> {
    inner: B,
    countdown: Cell<Countdown>,
}

impl<B: Allocator> Refusing<B> {
    /// Refuses the `nth` allocation, counted from 1, and no other; none at 0.
    pub fn new(inner: B, nth: u64) -> Refusing<B> {
        Refusing {
            inner,
            countdown: Cell::new(Countdown::new(nth)),
        }
    }

    /// Counts anew: refuses the `nth` allocation from now on, and no other; none at 0.
    pub fn refuse(&self, nth: u64) {
        self.countdown.set(Countdown::new(nth));
    }

    /// Whether an allocation was refused since the count began, by `new` or the last `refuse`. What `inner` refused
    /// is not counted.
    pub fn has_refused(&self) -> bool {
        self.countdown.get().has_refused()
    }
}

/// Counts an allocation, and returns whether it is the one that is refused.
fn spend(countdown: &Cell<Countdown>) -> bool {
    let mut count = countdown.get();
    let is_refused = count.spend();
    countdown.set(count);
    is_refused
}

/// The right to free a block is that of `inner`.
unsafe impl<B: Allocator> Allocator for Refusing<B> {
    ghost dealloc_token = { λ heap ty ptr. B.dealloc_token heap.inner ty ptr };

    fn allocate(&self, size: usize, align: usize) -> Result<*mut u8, AllocError> {
        if spend(&self.countdown) {
            return Err(AllocError);
        }
        self.inner.allocate(size, align)
    }

    unsafe fn deallocate(&self, ptr: *mut u8, size: usize, align: usize) {
        self.inner.deallocate(ptr, size, align);
    }
}
