//! Calls that search or test a text, and write nothing.
ghost use Rattle.ansi_calls.specs.Calls.{Finds, FindsBoundary, TestsFront, TestsEnd, TestsBoundary};
ghost use Rattle.ansi_calls.specs.Calls.{TestsWhole, TestsEscape};
ghost use Rattle.ansi_calls.specs.Restyles.{FindsFrom};

use ansi_calls::answers::Answer;
use ansi_calls::searches::{
    ends_with, find, find_from, floor_char_boundary, has_any, is_char_boundary, is_whole,
    starts_with,
};

/// The position of the first match of the pattern in the plain text.
#[unsafe(no_mangle)]
pub extern "C" fn ansi_str_raw_find(text: &[u8], pattern: &[u8]) -> Answer
    ensures { Finds text.now pattern.now result }
{
    find(text, pattern)
}

/// The position of the first match of the pattern in the plain text that doesn't begin before a
/// position.
#[unsafe(no_mangle)]
pub extern "C" fn ansi_str_raw_find_from(text: &[u8], position: usize, pattern: &[u8]) -> Answer
    ensures { FindsFrom text.now position pattern.now result }
{
    find_from(text, position, pattern)
}

/// Whether the plain text begins with the pattern.
#[unsafe(no_mangle)]
pub extern "C" fn ansi_str_raw_starts_with(text: &[u8], pattern: &[u8]) -> Answer
    ensures { TestsFront text.now pattern.now result }
{
    starts_with(text, pattern)
}

/// Whether the plain text ends with the pattern.
#[unsafe(no_mangle)]
pub extern "C" fn ansi_str_raw_ends_with(text: &[u8], pattern: &[u8]) -> Answer
    ensures { TestsEnd text.now pattern.now result }
{
    ends_with(text, pattern)
}

/// Whether a character of the plain text begins at the index, or the plain text ends there.
#[unsafe(no_mangle)]
pub extern "C" fn ansi_str_raw_is_char_boundary(text: &[u8], index: usize) -> Answer
    ensures { TestsBoundary text.now index result }
{
    is_char_boundary(text, index)
}

/// The last character boundary of the plain text that isn't past the index.
#[unsafe(no_mangle)]
pub extern "C" fn ansi_str_raw_floor_char_boundary(text: &[u8], index: usize) -> Answer
    ensures { FindsBoundary text.now index result }
{
    floor_char_boundary(text, index)
}

/// Whether the text is whole.
#[unsafe(no_mangle)]
pub extern "C" fn ansi_str_raw_is_whole(text: &[u8]) -> Answer
    ensures { TestsWhole text.now result }
{
    is_whole(text)
}

/// Whether the text has an ESC.
#[unsafe(no_mangle)]
pub extern "C" fn ansi_str_raw_has_any(text: &[u8]) -> Answer
    ensures { TestsEscape text.now result }
{
    has_any(text)
}
