//! Calls on what is open at the end of a text: the style and the link, what opens both again, and
//! what closes them.
ghost use Rattle.ansi_calls.specs.Pens.{TellsPen, WritesOpening, WritesEnding};

use crate::memory::arena_of;
use ansi_calls::answers::Answer;
use ansi_calls::pens::{OpenPen, pen_after, pen_end, pen_start};
use one_block::{MemoryBlock, OneBlock};
use std::mem::size_of;

// `bindings/js` gives it the place of an item, which has 48 bytes.

const _: () = prove!(size_of::<OpenPen<'static>>() <= 48);

/// The style and the link that are open at the end of a text.
#[unsafe(no_mangle)]
pub extern "C" fn ansi_str_raw_pen_after<'a>(text: &'a [u8], pen: &mut OpenPen<'a>) -> Answer
    ensures { TellsPen text.now result pen.old pen.new }
{
    pen_after(text, pen)
}

/// What opens both again.
#[unsafe(no_mangle)]
pub extern "C" fn ansi_str_raw_pen_start(
    memory: MemoryBlock,
    text: &[u8],
    buffer: &mut [u8],
) -> Answer
    ensures { WritesOpening text.now result buffer.old buffer.new }
{
    let block = OneBlock::new(memory);
    pen_start(&arena_of(&block), text, buffer)
}

/// What closes both.
#[unsafe(no_mangle)]
pub extern "C" fn ansi_str_raw_pen_end(
    memory: MemoryBlock,
    text: &[u8],
    buffer: &mut [u8],
) -> Answer
    ensures { WritesEnding text.now result buffer.old buffer.new }
{
    let block = OneBlock::new(memory);
    pen_end(&arena_of(&block), text, buffer)
}
