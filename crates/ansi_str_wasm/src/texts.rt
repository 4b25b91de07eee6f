//! Calls that return one text.
ghost use Rattle.ansi_calls.specs.Calls.{Strips, Edits};

use crate::memory::arena_of;
use ansi_calls::answers::Answer;
use ansi_calls::edits::{EditStep, edit_text};
use ansi_calls::texts::strip;
use one_block::{MemoryBlock, OneBlock};

/// The plain text.
#[unsafe(no_mangle)]
pub extern "C" fn ansi_str_raw_strip(memory: MemoryBlock, text: &[u8], buffer: &mut [u8]) -> Answer
    ensures { Strips text.now result buffer.old buffer.new }
{
    let block = OneBlock::new(memory);
    strip(&arena_of(&block), text, buffer)
}

/// The text after all edits, each applied to the result of the one before.
#[unsafe(no_mangle)]
pub extern "C" fn ansi_str_raw_edit(
    memory: MemoryBlock,
    text: &[u8],
    steps: &[EditStep<'_>],
    buffer: &mut [u8],
) -> Answer
    ensures { Edits text.now steps.now result buffer.old buffer.new }
{
    let block = OneBlock::new(memory);
    edit_text(&arena_of(&block), text, steps, buffer)
}
