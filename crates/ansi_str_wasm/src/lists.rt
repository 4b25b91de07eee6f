//! Calls that return several texts: all parts, and all blocks.
ghost use Rattle.ansi_calls.specs.Calls.{Splits, ListsStyledBlocks};

use crate::memory::arena_of;
use ansi_calls::lists::{ListAnswer, StyledBlockEntry, split, styled_blocks};
use one_block::{MemoryBlock, OneBlock};

/// All parts of a text between the matches of a pattern, and where each ends.
#[unsafe(no_mangle)]
pub extern "C" fn ansi_str_raw_split(
    memory: MemoryBlock,
    text: &[u8],
    pattern: &[u8],
    buffer: &mut [u8],
    ends: &mut [usize],
) -> ListAnswer
    ensures { Splits text.now pattern.now result buffer.old buffer.new ends.old ends.new }
{
    let block = OneBlock::new(memory);
    split(&arena_of(&block), text, pattern, buffer, ends)
}

/// All blocks of a text, each between the start and the close of its style; and for each where
/// these are and its style.
#[unsafe(no_mangle)]
pub extern "C" fn ansi_str_raw_styled_blocks(
    memory: MemoryBlock,
    text: &[u8],
    buffer: &mut [u8],
    entries: &mut [StyledBlockEntry],
) -> ListAnswer
    ensures { ListsStyledBlocks text.now result buffer.old buffer.new entries.old entries.new }
{
    let block = OneBlock::new(memory);
    styled_blocks(&arena_of(&block), text, buffer, entries)
}
