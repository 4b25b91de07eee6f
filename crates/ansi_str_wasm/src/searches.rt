//! Calls that search or test a text, and write nothing.
ghost use Rattle.ansi_calls.specs.Calls.{Finds, TestsFront, TestsEnd, TestsWhole};
ghost use Rattle.ansi_calls.specs.Restyles.{FindsFrom};

use ansi_calls::answers::Answer;
use ansi_calls::searches::{ends_with, find, find_from, is_whole, starts_with};

/// The position of the first match of the pattern in the plain text.
#[unsafe(no_mangle)]
pub extern "C" fn ansi_str_raw_find(text: &[u8], pattern: &[u8]) -> Answer
    ensures { Finds text.now pattern.now result }
{
    find(text, pattern)
}

/// The position of the first match of the pattern in the plain text that doesn't begin before a
/// position.
#[unsafe(no_mangle)]
pub extern "C" fn ansi_str_raw_find_from(text: &[u8], position: usize, pattern: &[u8]) -> Answer
    ensures { FindsFrom text.now position pattern.now result }
{
    find_from(text, position, pattern)
}

/// Whether the plain text begins with the pattern.
#[unsafe(no_mangle)]
pub extern "C" fn ansi_str_raw_starts_with(text: &[u8], pattern: &[u8]) -> Answer
    ensures { TestsFront text.now pattern.now result }
{
    starts_with(text, pattern)
}

/// Whether the plain text ends with the pattern.
#[unsafe(no_mangle)]
pub extern "C" fn ansi_str_raw_ends_with(text: &[u8], pattern: &[u8]) -> Answer
    ensures { TestsEnd text.now pattern.now result }
{
    ends_with(text, pattern)
}

/// Whether the text is whole.
#[unsafe(no_mangle)]
pub extern "C" fn ansi_str_raw_is_whole(text: &[u8]) -> Answer
    ensures { TestsWhole text.now result }
{
    is_whole(text)
}
