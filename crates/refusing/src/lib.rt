//! An allocator for tests, which refuses each request for memory after the first few.
#![tactic(auto)]

ghost use Rattle.std.specs.Prelude.{◌≡◌, ◌+◌, min};

use std::alloc::{AllocError, Allocator};
use std::cell::Cell;

/// An allocator that grants its first requests for memory and refuses every later one.
///
/// A granted request goes to the inner allocator, which may itself be out of memory. A collection
/// takes a `&Refusing`. Growing or shrinking a block counts as one request, and freeing a block
/// counts as none. Contracts can't speak of a cell's value, so only a test shows what is refused.
///
/// ```
/// for granted in 0..10 {
///     let heap = Refusing::new(rt.alloc(), granted);
///     let answer = String::from_str(&heap, "text");
///     assert_eq!(rt; answer.is_err(), heap.has_refused(), "{granted} granted");
/// }
/// ```
#[derive(Drop)]
pub struct Refusing<B: Allocator> {
    inner: B,
    requests: Requests,
}

impl<B: Allocator> Refusing<B> {
    /// An allocator that grants the first `granted` requests from the memory of `inner`.
    ///
    /// With 0 it refuses every request, with `u64::MAX` none. Doesn't allocate.
    pub fn new(inner: B, granted: u64) -> Self {
        Refusing {
            inner,
            requests: Requests {
                granted,
                so_far: Cell::new(0),
            },
        }
    }

    /// The number of requests so far, granted or refused.
    ///
    /// It stays 0 during a call that doesn't allocate.
    pub fn requests(&self) -> u64 {
        self.requests.so_far.get()
    }

    /// Whether a request has been refused.
    ///
    /// With it a test detects an `Err` although no request was refused, and an `Ok` although one
    /// was. Such an `Ok` is right only for a call that doesn't need the memory, such as
    /// `shrink_to_fit`.
    pub fn has_refused(&self) -> bool {
        self.requests() > self.requests.granted
    }
}

unsafe impl<B: Allocator> Allocator for Refusing<B> {
    ghost dealloc_token = { λ heap ty ptr. B.dealloc_token heap.inner ty ptr };

    fn allocate(&self, size: usize, align: usize) -> Result<*mut u8, AllocError> {
        if self.requests.refuses_next() {
            return Err(AllocError);
        }
        self.inner.allocate(size, align)
    }

    unsafe fn deallocate(&self, ptr: *mut u8, size: usize, align: usize) {
        self.inner.deallocate(ptr, size, align);
    }
}

// The number of requests to grant, and the number of requests so far.
#[derive(Drop)]
struct Requests {
    granted: u64,
    so_far: Cell<u64>,
}

impl Requests {
    // Counts one more request, and returns whether it is refused.
    fn refuses_next(&self) -> bool {
        let number = number_after(self.so_far.get());
        self.so_far.set(number);
        number > self.granted
    }
}

// The number of the next request after `requests` of them. The count saturates: if it began again
// at 0, requests would be granted again.
fn number_after(requests: u64) -> u64
    ensures { result ≡ min (requests + 1) 18_446_744_073_709_551_615 }
{
    requests.saturating_add(1)
}
