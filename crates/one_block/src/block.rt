ghost use Rattle.std.specs.Prelude.{◌≡◌, ℕ};
ghost use Rattle.linked_list_allocator.specs.Region.{Region, IsBlock};
ghost use Rattle.linked_list_allocator.specs.Ownership.{bytes_at};

use std::marker::Model;

/// Unused memory, aligned to 16. It can't be dropped, so no code loses it by mistake.
#[repr(C)]
pub struct MemoryBlock {
    pub(crate) ptr: *mut u8,
    pub(crate) size: usize,
    pub ghost region: { Region },
    pub ghost at: { ℕ },
    pub ghost placed: { IsBlock region ptr at size },
}

impl Model for MemoryBlock {
    ghost also_owns = { λ b. bytes_at b.ptr b.size };
}

impl MemoryBlock {
    /// The block's size, and the block again.
    pub(crate) fn with_size(self) -> (usize, MemoryBlock)
        ensures { (result.0 ≡ self.size) × (result.1 ≡ self) }
    {
        let MemoryBlock { ptr, size } = self;
        (size, MemoryBlock { ptr, size })
    }
}
