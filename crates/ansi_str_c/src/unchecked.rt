//! Calls without the check that texts and patterns are UTF-8. The caller promises that they are.
ghost use Rattle.std.specs.Prelude.{◌≡◌, IsUtf8, Some, nat_eq};
ghost use Rattle.std.specs.List.{starts_with, ends_with};
ghost use Rattle.ansi_str.specs.Plain.{plain, has_escape};
ghost use Rattle.ansi_str.specs.Positions.{is_char_boundary};
ghost use Rattle.ansi_str.specs.Splits.{split_parts};
ghost use Rattle.ansi_split.specs.Walks.{parts_of_walk, IsPartWalk};
ghost use Rattle.ansi_calls.specs.Answers.{no, told, TellsBoundary, TellsPlace, Gives};
ghost use Rattle.ansi_calls.specs.Walks.{IsOver};

use ansi_calls::answers::Answer;
use ansi_calls::searches::find_text;
use ansi_calls::texts::strip_text;
use ansi_calls::walks::{BlockWalk, walk_over};
use ansi_split::walks::{PartWalk, walk_in};
use ansi_str::AnsiStr;
use std::alloc::Global;
use std::str::from_utf8_unchecked;

/// The plain text.
#[unsafe(no_mangle)]
pub extern "C" fn ansi_str_raw_strip_unchecked(
    alloc: Global,
    text: &[u8],
    buffer: &mut [u8],
) -> Answer
    requires { IsUtf8 text.now }
    ensures { Gives no (has_escape text.now) (Some (plain text.now)) result buffer.old buffer.new }
{
    let text = unsafe { from_utf8_unchecked(text) };
    strip_text(alloc, text, buffer)
}

/// The position of the first match of the pattern in the plain text.
#[unsafe(no_mangle)]
pub extern "C" fn ansi_str_raw_find_unchecked(text: &[u8], pattern: &[u8]) -> Answer
    requires text { IsUtf8 text.now }
    requires pattern { IsUtf8 pattern.now }
    ensures { TellsPlace pattern.now (plain text.now) result }
{
    let text = unsafe { from_utf8_unchecked(text) };
    let pat = unsafe { from_utf8_unchecked(pattern) };
    find_text(text, pat)
}

/// Whether the plain text begins with the pattern.
#[unsafe(no_mangle)]
pub extern "C" fn ansi_str_raw_starts_with_unchecked(text: &[u8], pattern: &[u8]) -> Answer
    requires text { IsUtf8 text.now }
    requires pattern { IsUtf8 pattern.now }
    ensures { result ≡ told (starts_with nat_eq (plain text.now) pattern.now) }
{
    let text = unsafe { from_utf8_unchecked(text) };
    let pat = unsafe { from_utf8_unchecked(pattern) };
    Answer::told(text.ansi_starts_with(pat))
}

/// Whether the plain text ends with the pattern.
#[unsafe(no_mangle)]
pub extern "C" fn ansi_str_raw_ends_with_unchecked(text: &[u8], pattern: &[u8]) -> Answer
    requires text { IsUtf8 text.now }
    requires pattern { IsUtf8 pattern.now }
    ensures { result ≡ told (ends_with nat_eq (plain text.now) pattern.now) }
{
    let text = unsafe { from_utf8_unchecked(text) };
    let pat = unsafe { from_utf8_unchecked(pattern) };
    Answer::told(text.ansi_ends_with(pat))
}

/// Whether a character of the plain text begins at the index, or the plain text ends there.
#[unsafe(no_mangle)]
pub extern "C" fn ansi_str_raw_is_char_boundary_unchecked(text: &[u8], index: usize) -> Answer
    requires { IsUtf8 text.now }
    ensures { result ≡ told (is_char_boundary (plain text.now) index) }
{
    let text = unsafe { from_utf8_unchecked(text) };
    Answer::told(text.ansi_is_char_boundary(index))
}

/// The last character boundary of the plain text that isn't past the index.
#[unsafe(no_mangle)]
pub extern "C" fn ansi_str_raw_floor_char_boundary_unchecked(text: &[u8], index: usize) -> Answer
    requires { IsUtf8 text.now }
    ensures { TellsBoundary (plain text.now) index result }
{
    let text = unsafe { from_utf8_unchecked(text) };
    Answer::done(text.ansi_floor_char_boundary(index))
}

/// Begins a walk over the blocks of a text.
#[unsafe(no_mangle)]
pub extern "C" fn ansi_str_raw_blocks_begin_unchecked<'a>(text: &'a [u8], walk: &mut BlockWalk<'a>)
    requires { IsUtf8 text.now }
    ensures { IsOver text.now walk.new }
{
    let text = unsafe { from_utf8_unchecked(text) };
    *walk = walk_over(text);
}

/// Begins a walk over the parts of a text between the matches of a pattern.
#[unsafe(no_mangle)]
pub extern "C" fn ansi_str_raw_parts_begin_unchecked<'a>(
    text: &'a [u8],
    pattern: &'a [u8],
    walk: &mut PartWalk<'a>,
)
    requires text { IsUtf8 text.now }
    requires pattern { IsUtf8 pattern.now }
    ensures walk { IsPartWalk walk.new }
    ensures parts { parts_of_walk walk.new ≡ split_parts text.now pattern.now }
{
    let text = unsafe { from_utf8_unchecked(text) };
    let pat = unsafe { from_utf8_unchecked(pattern) };
    *walk = walk_in(text, pat);
}
