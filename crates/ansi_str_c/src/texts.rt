//! Calls that return one text, made from the text that they take.
ghost use Rattle.ansi_calls.specs.Calls.{Strips, Cuts, TakesLeft, TakesRight, Trims, StripsPrefix};
ghost use Rattle.ansi_calls.specs.Calls.{StripsSuffix, TakesPart, Edits};

use ansi_calls::answers::Answer;
use ansi_calls::edits::{EditStep, edit_text};
use ansi_calls::texts::{cut, left, part, right, strip, strip_prefix, strip_suffix, trim};
use std::alloc::Global;

/// The plain text.
#[unsafe(no_mangle)]
pub extern "C" fn ansi_str_raw_strip(alloc: Global, text: &[u8], buffer: &mut [u8]) -> Answer
    ensures { Strips text.now result buffer.old buffer.new }
{
    strip(alloc, text, buffer)
}

/// The text from one position up to another.
#[unsafe(no_mangle)]
pub extern "C" fn ansi_str_raw_cut(
    alloc: Global,
    text: &[u8],
    start: usize,
    end: usize,
    buffer: &mut [u8],
) -> Answer
    ensures { Cuts text.now start end result buffer.old buffer.new }
{
    cut(alloc, text, start, end, buffer)
}

/// The text before a position.
#[unsafe(no_mangle)]
pub extern "C" fn ansi_str_raw_left(
    alloc: Global,
    text: &[u8],
    mid: usize,
    buffer: &mut [u8],
) -> Answer
    ensures { TakesLeft text.now mid result buffer.old buffer.new }
{
    left(alloc, text, mid, buffer)
}

/// The text from a position on.
#[unsafe(no_mangle)]
pub extern "C" fn ansi_str_raw_right(
    alloc: Global,
    text: &[u8],
    mid: usize,
    buffer: &mut [u8],
) -> Answer
    ensures { TakesRight text.now mid result buffer.old buffer.new }
{
    right(alloc, text, mid, buffer)
}

/// The text without the white space at its ends.
#[unsafe(no_mangle)]
pub extern "C" fn ansi_str_raw_trim(alloc: Global, text: &[u8], buffer: &mut [u8]) -> Answer
    ensures { Trims text.now result buffer.old buffer.new }
{
    trim(alloc, text, buffer)
}

/// The text without a prefix.
#[unsafe(no_mangle)]
pub extern "C" fn ansi_str_raw_strip_prefix(
    alloc: Global,
    text: &[u8],
    pattern: &[u8],
    buffer: &mut [u8],
) -> Answer
    ensures { StripsPrefix text.now pattern.now result buffer.old buffer.new }
{
    strip_prefix(alloc, text, pattern, buffer)
}

/// The text without a suffix.
#[unsafe(no_mangle)]
pub extern "C" fn ansi_str_raw_strip_suffix(
    alloc: Global,
    text: &[u8],
    pattern: &[u8],
    buffer: &mut [u8],
) -> Answer
    ensures { StripsSuffix text.now pattern.now result buffer.old buffer.new }
{
    strip_suffix(alloc, text, pattern, buffer)
}

/// The part at an index, of the parts between the matches of a pattern.
#[unsafe(no_mangle)]
pub extern "C" fn ansi_str_raw_part(
    alloc: Global,
    text: &[u8],
    pattern: &[u8],
    index: usize,
    buffer: &mut [u8],
) -> Answer
    ensures { TakesPart text.now pattern.now index result buffer.old buffer.new }
{
    part(alloc, text, pattern, index, buffer)
}

/// The text after all edits, each applied to the result of the one before.
#[unsafe(no_mangle)]
pub extern "C" fn ansi_str_raw_edit(
    alloc: Global,
    text: &[u8],
    steps: &[EditStep<'_>],
    buffer: &mut [u8],
) -> Answer
    ensures { Edits text.now steps.now result buffer.old buffer.new }
{
    edit_text(alloc, text, steps, buffer)
}
