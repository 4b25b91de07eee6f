//! Calls on matches and on ranges: where a pattern occurs, which range is refused, parts of a text in
//! another style, and a text without a part or with another text in its place.
ghost use Rattle.ansi_calls.specs.Restyles.{WritesMatches, Restyles, FindsRefused, Marks, Removes};
ghost use Rattle.ansi_calls.specs.Restyles.{Replaces, Inserts, ReplacesAll};
ghost use Rattle.ansi_calls.specs.Replacements.{ReplacesEach};

use ansi_calls::answers::Answer;
use ansi_calls::lists::ListAnswer;
use ansi_calls::replacements::{ReplacementEntry, replace_each};
use ansi_calls::restyles::{
    RangeEntry, insert, mark, matches, refused_range, remove, replace, replace_all, restyle,
};
use std::alloc::Global;

/// Where each match of a pattern begins and ends in the plain text.
#[unsafe(no_mangle)]
pub extern "C" fn ansi_str_raw_matches(
    text: &[u8],
    pattern: &[u8],
    entries: &mut [RangeEntry],
) -> ListAnswer
    ensures { WritesMatches text.now pattern.now result entries.old entries.new }
{
    matches(text, pattern, entries)
}

/// The text with SGR codes applied to each character in the ranges.
#[unsafe(no_mangle)]
pub extern "C" fn ansi_str_raw_restyle(
    alloc: Global,
    text: &[u8],
    entries: &[RangeEntry],
    codes: &[u8],
    buffer: &mut [u8],
) -> Answer
    ensures { Restyles text.now entries.now codes.now result buffer.old buffer.new }
{
    restyle(alloc, text, entries, codes, buffer)
}

/// The index of the first range that `ansi_str_raw_restyle` and `ansi_str_raw_replace_each` refuse.
#[unsafe(no_mangle)]
pub extern "C" fn ansi_str_raw_refused_range(
    alloc: Global,
    text: &[u8],
    entries: &[RangeEntry],
) -> Answer
    ensures { FindsRefused text.now entries.now result }
{
    refused_range(alloc, text, entries)
}

/// The text with SGR codes applied to each match of a pattern.
#[unsafe(no_mangle)]
pub extern "C" fn ansi_str_raw_mark(
    alloc: Global,
    text: &[u8],
    pattern: &[u8],
    codes: &[u8],
    buffer: &mut [u8],
) -> Answer
    ensures { Marks text.now pattern.now codes.now result buffer.old buffer.new }
{
    mark(alloc, text, pattern, codes, buffer)
}

/// The text without its plain bytes from one position up to another.
#[unsafe(no_mangle)]
pub extern "C" fn ansi_str_raw_remove(
    alloc: Global,
    text: &[u8],
    start: usize,
    end: usize,
    buffer: &mut [u8],
) -> Answer
    ensures { Removes text.now start end result buffer.old buffer.new }
{
    remove(alloc, text, start, end, buffer)
}

/// The text with another text in place of its plain bytes from one position up to another.
#[unsafe(no_mangle)]
pub extern "C" fn ansi_str_raw_replace(
    alloc: Global,
    text: &[u8],
    start: usize,
    end: usize,
    with: &[u8],
    buffer: &mut [u8],
) -> Answer
    ensures { Replaces text.now start end with.now result buffer.old buffer.new }
{
    replace(alloc, text, start, end, with, buffer)
}

/// The text with another text put in at a position.
#[unsafe(no_mangle)]
pub extern "C" fn ansi_str_raw_insert(
    alloc: Global,
    text: &[u8],
    position: usize,
    with: &[u8],
    buffer: &mut [u8],
) -> Answer
    ensures { Inserts text.now position with.now result buffer.old buffer.new }
{
    insert(alloc, text, position, with, buffer)
}

/// The text with another text in place of each match of a pattern.
#[unsafe(no_mangle)]
pub extern "C" fn ansi_str_raw_replace_all(
    alloc: Global,
    text: &[u8],
    pattern: &[u8],
    with: &[u8],
    buffer: &mut [u8],
) -> Answer
    ensures { ReplacesAll text.now pattern.now with.now result buffer.old buffer.new }
{
    replace_all(alloc, text, pattern, with, buffer)
}

/// The text with another text in place of each of many ranges.
#[unsafe(no_mangle)]
pub extern "C" fn ansi_str_raw_replace_each(
    alloc: Global,
    text: &[u8],
    entries: &[ReplacementEntry<'_>],
    buffer: &mut [u8],
) -> Answer
    ensures { ReplacesEach text.now entries.now result buffer.old buffer.new }
{
    replace_each(alloc, text, entries, buffer)
}
