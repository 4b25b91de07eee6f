//! Calls on links: the range and the address of each, a text with a range linked, and a text
//! without its links.
ghost use Rattle.ansi_calls.specs.Links.{WritesLinks, WritesLinked, Unlinks};

use crate::memory::arena_of;
use ansi_calls::answers::Answer;
use ansi_calls::links::{LinkEntry, link, links, unlink};
use ansi_calls::lists::ListAnswer;
use one_block::{MemoryBlock, OneBlock};

/// The addresses of all links, concatenated, and an entry for each.
#[unsafe(no_mangle)]
pub extern "C" fn ansi_str_raw_links(
    text: &[u8],
    buffer: &mut [u8],
    entries: &mut [LinkEntry],
) -> ListAnswer
    ensures { WritesLinks text.now result buffer.old buffer.new entries.old entries.new }
{
    links(text, buffer, entries)
}

/// The text with its plain bytes from one position up to another linked to an address.
#[unsafe(no_mangle)]
pub extern "C" fn ansi_str_raw_link(
    memory: MemoryBlock,
    text: &[u8],
    start: usize,
    end: usize,
    address: &[u8],
    buffer: &mut [u8],
) -> Answer
    ensures { WritesLinked text.now start end address.now result buffer.old buffer.new }
{
    let block = OneBlock::new(memory);
    link(&arena_of(&block), text, start, end, address, buffer)
}

/// The text without its links.
#[unsafe(no_mangle)]
pub extern "C" fn ansi_str_raw_unlink(memory: MemoryBlock, text: &[u8], buffer: &mut [u8]) -> Answer
    ensures { Unlinks text.now result buffer.old buffer.new }
{
    let block = OneBlock::new(memory);
    unlink(&arena_of(&block), text, buffer)
}
