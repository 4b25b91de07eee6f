//! Calls that return the block at an index, or its style.
ghost use Rattle.ansi_calls.specs.Calls.{TakesBlock, TakesBlockStart, TakesBlockEnd};
ghost use Rattle.ansi_calls.specs.Calls.{TakesBlockStyle};

use ansi_calls::answers::Answer;
use ansi_calls::blocks::{StyleAnswer, block, block_end, block_start, block_style};
use std::alloc::Global;

/// The text of the block at an index.
#[unsafe(no_mangle)]
pub extern "C" fn ansi_str_raw_block(
    alloc: Global,
    text: &[u8],
    index: usize,
    buffer: &mut [u8],
) -> Answer
    ensures { TakesBlock text.now index result buffer.old buffer.new }
{
    block(alloc, text, index, buffer)
}

/// The start of the style of the block at an index.
#[unsafe(no_mangle)]
pub extern "C" fn ansi_str_raw_block_start(
    alloc: Global,
    text: &[u8],
    index: usize,
    buffer: &mut [u8],
) -> Answer
    ensures { TakesBlockStart text.now index result buffer.old buffer.new }
{
    block_start(alloc, text, index, buffer)
}

/// The close of the style of the block at an index.
#[unsafe(no_mangle)]
pub extern "C" fn ansi_str_raw_block_end(
    alloc: Global,
    text: &[u8],
    index: usize,
    buffer: &mut [u8],
) -> Answer
    ensures { TakesBlockEnd text.now index result buffer.old buffer.new }
{
    block_end(alloc, text, index, buffer)
}

/// The style of the block at an index.
#[unsafe(no_mangle)]
pub extern "C" fn ansi_str_raw_block_style(alloc: Global, text: &[u8], index: usize) -> StyleAnswer
    ensures { TakesBlockStyle text.now index result }
{
    block_style(alloc, text, index)
}
