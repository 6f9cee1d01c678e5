// An allocator for tests of allocation failures. It fails one request, which the test chooses by
// its number, and passes all other requests to another allocator.
use std::alloc::{AllocError, Allocator};
use std::cell::Cell;

/// An allocator that fails one request and passes every other request to `inner`.
pub struct FailingAllocator<B: Allocator> {
    inner: B,
    remaining: Cell<u64>,
}

impl<B: Allocator> FailingAllocator<B> {
    /// An allocator that fails the request with this number, counted from 1.
    pub fn new(inner: B, number: u64) -> FailingAllocator<B> {
        FailingAllocator {
            inner,
            remaining: Cell::new(number),
        }
    }

    /// Whether it has failed a request.
    pub fn has_failed_once(&self) -> bool {
        self.remaining.get() == 0
    }
}

impl<B: Allocator> Drop for FailingAllocator<B> {
    fn drop(self) {
        let Self {
            inner: _,
            remaining: _,
        } = self;
    }
}

// Counts a request, and returns whether it is the one that fails.
fn fails_now(remaining: &Cell<u64>) -> bool {
    let count = remaining.get();
    remaining.set(count.saturating_sub(1));
    count == 1
}

unsafe impl<B: Allocator> Allocator for FailingAllocator<B> {
    ghost dealloc_token = { λ heap ty ptr. B.dealloc_token heap.inner ty ptr };

    fn allocate(&self, size: usize, align: usize) -> Result<*mut u8, AllocError> {
        if fails_now(&self.remaining) {
            return Err(AllocError);
        }
        self.inner.allocate(size, align)
    }

    unsafe fn deallocate(&self, ptr: *mut u8, size: usize, align: usize) {
        self.inner.deallocate(ptr, size, align);
    }
}
