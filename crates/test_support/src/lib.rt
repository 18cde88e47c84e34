//! A test's allocator, which counts the calls for memory and refuses one of them.
//!
//! A test hands `&FailingAllocator` to whatever takes an allocator, with the first index refused,
//! then the next, until a run needs fewer calls than that. So each call for memory is refused once
//! while all others are served, also where a block would do that was given back before.
//! (profile)
#![tactic(auto)]

ghost use Rattle.std.specs.Prelude.{◌≡◌};

use std::alloc::{AllocError, Allocator};
use std::cell::Cell;

/// An allocator over `inner` that counts the calls for memory and refuses one of them. A growth or
/// a shrinking of a block is a call too; what gives memory back is none. A `&` to it is the `Copy`
/// handle that collections take. (profile)
pub struct FailingAllocator<B: Allocator> {
    inner: B,
    calls: Cell<u64>,
    fail_index: u64,
}

impl<B: Allocator> FailingAllocator<B> {
    /// An allocator that refuses the call with this index, counted from 0, and passes all others on
    /// to `inner`, which may refuse them too. (profile)
    pub fn new(inner: B, fail_index: u64) -> FailingAllocator<B> {
        FailingAllocator {
            inner,
            calls: Cell::new(0),
            fail_index,
        }
    }

    /// How many calls for memory there were, with those that were refused. (profile)
    pub fn calls(&self) -> u64 {
        self.calls.get()
    }

    /// Whether the call of the index has come, and so was refused. (profile)
    pub fn has_failed(&self) -> bool {
        self.fail_index < self.calls.get()
    }

    /// Counts a call, and answers whether it is the one that is refused.
    fn is_refused(&self) -> bool {
        let index = self.calls.get();
        self.calls.set(index.saturating_add(1));
        index == self.fail_index
    }

    /// The allocator that has the memory.
    fn inner(&self) -> &B
        ensures { result.now ≡ self.now.inner }
    {
        &self.inner
    }
}

impl<B: Allocator> Drop for FailingAllocator<B> {
    fn drop(self) {
        let Self {
            inner: _,
            calls: _,
            fail_index: _,
        } = self;
    }
}

unsafe impl<B: Allocator> Allocator for FailingAllocator<B> {
    ghost dealloc_token = { λ heap block_type block. B.dealloc_token heap.inner block_type block };

    fn allocate(&self, size: usize, align: usize) -> Result<*mut u8, AllocError> {
        if self.is_refused() {
            return Err(AllocError);
        }
        self.inner().allocate(size, align)
    }

    unsafe fn deallocate(&self, ptr: *mut u8, size: usize, align: usize) {
        self.inner().deallocate(ptr, size, align);
    }
}
