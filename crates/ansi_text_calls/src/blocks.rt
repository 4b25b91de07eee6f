//! Calls that return the block at an index, or its style.
ghost use Rattle.std.specs.Prelude.{◌≡◌, slice_get, option_map, IsFalse, IsOk, IfOk, string_bytes};
ghost use Rattle.ansi_str.specs.Plain.{has_escape};
ghost use Rattle.ansi_str.specs.Written.{start, close_if_any};
ghost use Rattle.ansi_str.specs.Blocks.{blocks};
ghost use Rattle.ansi_text_calls.specs.Styles.{HasNoStyle};
ghost use Rattle.ansi_text_calls.specs.Calls.{TakesBlock, TakesBlockStart, TakesBlockEnd};
ghost use Rattle.ansi_text_calls.specs.Calls.{TakesBlockStyle};

use crate::answers::{Answer, NO, NOT_UTF8, OK, OUT_OF_MEMORY, write};
use ansi_safe::utf8::from_utf8;
use ansi_str::{AnsiBlock, get_blocks};
use ansi_style::numbers::StyleNumbers;
use ansi_style::styles;
use std::alloc::{AllocError, Allocator};

/// The result of a call that returns a style.
#[repr(C)]
#[derive(Clone, Copy)]
pub struct StyleAnswer {
    pub status: u32,
    pub style: StyleNumbers,
}

impl StyleAnswer {
    /// The result of a call that returns no style.
    pub fn failed(status: u32) -> StyleAnswer
        ensures { HasNoStyle status result }
    {
        StyleAnswer {
            status,
            style: StyleNumbers::of(&styles::plain_style()),
        }
    }
}

/// The text of the block at an index.
pub fn block<A: Allocator + Copy>(alloc: A, text: &[u8], index: usize, buffer: &mut [u8]) -> Answer
    ensures { TakesBlock text.now index result buffer.old buffer.new }
{
    let Ok(text) = from_utf8(text) else {
        return Answer::failed(NOT_UTF8);
    };
    match find_block(alloc, text, index) {
        Ok(Some(block)) => write(block.text().as_bytes(), buffer),
        Ok(None) => Answer::failed(NO),
        Err(_) => Answer::failed(OUT_OF_MEMORY),
    }
}

/// The start of the style of the block at an index.
pub fn block_start<A: Allocator + Copy>(
    alloc: A,
    text: &[u8],
    index: usize,
    buffer: &mut [u8],
) -> Answer
    ensures { TakesBlockStart text.now index result buffer.old buffer.new }
{
    let Ok(text) = from_utf8(text) else {
        return Answer::failed(NOT_UTF8);
    };
    match find_start(alloc, text, index) {
        Ok(Some(start)) => write(start.as_bytes(), buffer),
        Ok(None) => Answer::failed(NO),
        Err(_) => Answer::failed(OUT_OF_MEMORY),
    }
}

/// The close of the style of the block at an index.
pub fn block_end<A: Allocator + Copy>(
    alloc: A,
    text: &[u8],
    index: usize,
    buffer: &mut [u8],
) -> Answer
    ensures { TakesBlockEnd text.now index result buffer.old buffer.new }
{
    let Ok(text) = from_utf8(text) else {
        return Answer::failed(NOT_UTF8);
    };
    match find_end(alloc, text, index) {
        Ok(Some(end)) => write(end.as_bytes(), buffer),
        Ok(None) => Answer::failed(NO),
        Err(_) => Answer::failed(OUT_OF_MEMORY),
    }
}

/// The style of the block at an index.
pub fn block_style<A: Allocator + Copy>(alloc: A, text: &[u8], index: usize) -> StyleAnswer
    ensures { TakesBlockStyle text.now index result }
{
    let Ok(text) = from_utf8(text) else {
        return StyleAnswer::failed(NOT_UTF8);
    };
    match find_block(alloc, text, index) {
        Ok(Some(block)) => StyleAnswer {
            status: OK,
            style: StyleNumbers::of(block.style()),
        },
        Ok(None) => StyleAnswer::failed(NO),
        Err(_) => StyleAnswer::failed(OUT_OF_MEMORY),
    }
}

/// The block at an index, or `None` if the text has too few blocks.
fn find_block<A: Allocator + Copy>(
    alloc: A,
    text: &str,
    index: usize,
) -> Result<Option<AnsiBlock<'_, A>>, AllocError>
    ensures found { IfOk result (λ found. found ≡ slice_get (blocks text.now) index) }
    ensures takes_no_memory { IsFalse (has_escape text.now) → IsOk result }
{
    let mut before = index;
    for block in get_blocks(alloc, text) {
        let block = block?;
        if before == 0 {
            return Ok(Some(block));
        }
        before -= 1;
    }
    Ok(None)
}

/// The start of the style of the block at an index, or `None` if the text has too few blocks.
fn find_start<A: Allocator + Copy>(
    alloc: A,
    text: &str,
    index: usize,
) -> Result<Option<String<A>>, AllocError>
    ensures { IfOk result (λ found. option_map string_bytes found
        ≡ option_map (λ b. start b.style) (slice_get (blocks text.now) index)) }
{
    match find_block(alloc, text, index)? {
        Some(block) => Ok(Some(block.style().start().to_string(alloc)?)),
        None => Ok(None),
    }
}

/// The close of the style of the block at an index, or `None` if the text has too few blocks.
fn find_end<A: Allocator + Copy>(
    alloc: A,
    text: &str,
    index: usize,
) -> Result<Option<String<A>>, AllocError>
    ensures { IfOk result (λ found. option_map string_bytes found
        ≡ option_map (λ b. close_if_any b.style) (slice_get (blocks text.now) index)) }
{
    match find_block(alloc, text, index)? {
        Some(block) => Ok(Some(block.style().end().to_string(alloc)?)),
        None => Ok(None),
    }
}
