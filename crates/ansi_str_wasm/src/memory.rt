//! The working memory of a call.
use bumpalo::Bump;
use one_block::OneBlock;

/// The number of bytes of a chunk that an arena reserves for itself.
const FOOTER: usize = 48;

/// An arena over the whole block. If the size of the block isn't one that a chunk can have, the
/// arena has no memory.
pub fn arena_of(block: &OneBlock) -> Bump<&OneBlock> {
    match Bump::try_with_capacity(block, block.size().saturating_sub(FOOTER)) {
        Ok(arena) => arena,
        Err(_) => Bump::new(block),
    }
}
