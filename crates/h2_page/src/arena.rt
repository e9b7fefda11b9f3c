//! The allocator.

ghost use Rattle.std.specs.Prelude.{◌≡◌, ◌^◌, ◌<◌, ◌≤◌, IfSome};
ghost use Rattle.h2_page.specs.Token.{token};
ghost use Rattle.linked_list_allocator.specs.Region.{block_size};

use crate::memory::{Free, Memory};
use std::alloc::{AllocError, Allocator};
use std::cell::Cell;
use std::mem::ManuallyDrop;

/// An allocator over memory that is lent, as one thread's collections take it, by a `&`.
pub struct Arena {
    free: Cell<Option<Free>>,
}

/// A size, rounded up to a multiple of 16 that is not 0.
fn align_size(size: usize) -> usize
    requires { size < 2 ^ 63 }
    ensures { result ≡ block_size size }
{
    size.max(16).next_multiple_of(16)
}

impl Arena {
    /// An allocator over this memory, which is not given back.
    pub fn new(free: Free) -> Arena {
        Arena {
            free: Cell::new(Some(free)),
        }
    }

    /// A block for that many octets, if there are enough.
    fn take(&self, size: usize, align: usize) -> Option<Memory>
        ensures { IfSome result (λ m. (m.size ≡ block_size size) × (size < 2 ^ 63) × (align ≤ 16)) }
    {
        if align > 16 || size > isize::MAX as usize {
            return None;
        }
        let wanted = align_size(size);
        let Free { size: left, memory } = self.free.replace(None)?;
        if left < wanted {
            leave(self.free.replace(Some(Free { size: left, memory })));
            return None;
        }
        let (block, rest) = memory.split(wanted);
        leave(
            self.free.replace(Some(Free {
                size: left - wanted,
                memory: rest,
            })),
        );
        Some(block)
    }
}

/// Lets memory go that is not used again.
fn leave(free: Option<Free>) {
    let _left = unsafe { ManuallyDrop::new_unchecked(free) };
}

/// A block may be given back at any time, and is not used again.
unsafe impl Allocator for Arena {
    ghost dealloc_token = { λ _. token };

    fn allocate(&self, size: usize, align: usize) -> Result<*mut u8, AllocError> {
        match self.take(size, align) {
            Some(Memory { ptr }) => Ok(ptr),
            None => Err(AllocError),
        }
    }

    unsafe fn deallocate(&self, _ptr: *mut u8, _size: usize, _align: usize) {}
}

impl Drop for Arena {
    fn drop(self) {
        let Arena { free } = self;
        leave(free.into_inner());
    }
}
