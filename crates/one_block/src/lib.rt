//! An allocator over one block of memory. It grants only requests for exactly the size of that
//! block.
#![tactic(auto)]

ghost use Rattle.std.specs.Prelude.{◌≡◌, ◌^◌, ◌<◌, ◌≤◌, IfSome};
ghost use base.Fml.{fex};
ghost use Rattle.linked_list_allocator.specs.Region.{Region, block_size};
ghost use Rattle.linked_list_allocator.specs.Ownership.{block_token};
ghost use Rattle.one_block.specs.Sizes.{block_bytes, bytes_managed};

mod block;

pub use block::MemoryBlock;
use std::alloc::{AllocError, Allocator};
use std::cell::Cell;

const UNIT: usize = 16;

/// An allocator that owns one block. It can be dropped, and then gives the block up.
pub struct OneBlock {
    size: usize,
    free: Cell<Option<MemoryBlock>>,
}

fn align_size(size: usize) -> usize
    requires { size < 2 ^ 63 }
    ensures { result ≡ block_size size }
{
    size.max(UNIT).next_multiple_of(UNIT)
}

impl OneBlock {
    /// An allocator over this block.
    pub fn new(block: MemoryBlock) -> OneBlock
        ensures size { bytes_managed result ≡ block_bytes block }
    {
        let (size, block) = block.with_size();
        OneBlock {
            size,
            free: Cell::new(Some(block)),
        }
    }

    /// The size of the block.
    pub fn size(&self) -> usize
        ensures { result ≡ bytes_managed self.now }
    {
        self.size
    }

    fn take(&self, size: usize, align: usize) -> Option<MemoryBlock>
        ensures { IfSome result (λ b. (b.size ≡ block_size size) × (size < 2 ^ 63) × (align ≤ 16)) }
    {
        if align > UNIT || size > isize::MAX as usize {
            return None;
        }
        let (found, block) = self.free.replace(None)?.with_size();
        if found == align_size(size) {
            Some(block)
        } else {
            self.give(block);
            None
        }
    }

    fn give(&self, block: MemoryBlock) {
        leave(self.free.replace(Some(block)));
    }
}

/// Leaves the block to the caller, who lent its memory.
fn leave(block: Option<MemoryBlock>) {
    if let Some(MemoryBlock { ptr: _, size: _ }) = block {}
}

impl Drop for OneBlock {
    fn drop(self) {
        let OneBlock { size: _, free } = self;
        leave(free.into_inner());
    }
}

unsafe impl Allocator for OneBlock {
    ghost dealloc_token = { λ _ ty p. fex Region (λ r. block_token r ty p) };

    fn allocate(&self, size: usize, align: usize) -> Result<*mut u8, AllocError> {
        match self.take(size, align) {
            Some(MemoryBlock { ptr, size: _ }) => Ok(ptr),
            None => Err(AllocError),
        }
    }

    unsafe fn deallocate(&self, ptr: *mut u8, size: usize, _align: usize) {
        let size = align_size(size);
        self.give(MemoryBlock { ptr, size });
    }
}
