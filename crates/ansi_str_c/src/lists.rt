//! Calls that return several texts: all parts, and all blocks.
ghost use Rattle.ansi_calls.specs.Calls.{Splits, ListsBlocks, ListsStyledBlocks};

use ansi_calls::lists::{BlockEntry, ListAnswer, StyledBlockEntry, blocks, split, styled_blocks};
use std::alloc::Global;

/// All parts of a text between the matches of a pattern, and where each ends.
#[unsafe(no_mangle)]
pub extern "C" fn ansi_str_raw_split(
    alloc: Global,
    text: &[u8],
    pattern: &[u8],
    buffer: &mut [u8],
    ends: &mut [usize],
) -> ListAnswer
    ensures { Splits text.now pattern.now result buffer.old buffer.new ends.old ends.new }
{
    split(alloc, text, pattern, buffer, ends)
}

/// All blocks of a text, and for each where it ends and its style.
#[unsafe(no_mangle)]
pub extern "C" fn ansi_str_raw_blocks(
    alloc: Global,
    text: &[u8],
    buffer: &mut [u8],
    entries: &mut [BlockEntry],
) -> ListAnswer
    ensures { ListsBlocks text.now result buffer.old buffer.new entries.old entries.new }
{
    blocks(alloc, text, buffer, entries)
}

/// All blocks of a text, each between the start and the close of its style; and for each where
/// these are and its style.
#[unsafe(no_mangle)]
pub extern "C" fn ansi_str_raw_styled_blocks(
    alloc: Global,
    text: &[u8],
    buffer: &mut [u8],
    entries: &mut [StyledBlockEntry],
) -> ListAnswer
    ensures { ListsStyledBlocks text.now result buffer.old buffer.new entries.old entries.new }
{
    styled_blocks(alloc, text, buffer, entries)
}
