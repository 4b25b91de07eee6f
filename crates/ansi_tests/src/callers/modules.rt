//! Callers that name each item by its module.
ghost use Rattle.std.specs.Prelude.{◌≡◌, ◌&&◌, nat_eq};
ghost use Rattle.std.specs.List.{starts_with, ends_with};
ghost use Rattle.ansi_str.specs.Plain.{plain, is_whole};

use ansi_str::blocks::{AnsiBlock, AnsiBlockIter, get_blocks};
use ansi_str::edits::{Edit, ansi_is_whole, edit};
use ansi_str::search::{ends_with, find, floor_char_boundary, is_char_boundary, starts_with};
use ansi_str::slice::cut_in;
use ansi_str::style::{AnsiSequenceEnd, AnsiSequenceStart, Color, Style};
use std::alloc::{AllocError, Global};
use std::borrow::CowStr;

/// The characters of a text that fit in a number of bytes.
pub fn front(alloc: Global, text: &str, len: usize) -> Result<CowStr<'_>, AllocError> {
    cut_in(alloc, text, 0, Some(floor_char_boundary(text, len)))
}

/// The text before an index, or `None` if that is no character boundary.
pub fn before(alloc: Global, text: &str, index: usize) -> Result<Option<CowStr<'_>>, AllocError> {
    if !is_char_boundary(text, index) {
        return Ok(None);
    }
    Ok(Some(cut_in(alloc, text, 0, Some(index))?))
}

/// The text before the first match of a pattern, or `None` if the pattern doesn't occur.
pub fn before_match<'t>(
    alloc: Global,
    text: &'t str,
    pat: &str,
) -> Result<Option<CowStr<'t>>, AllocError> {
    match find(text, pat) {
        Some(start) => Ok(Some(cut_in(alloc, text, 0, Some(start))?)),
        None => Ok(None),
    }
}

/// Whether a text begins with a prefix and ends with a suffix.
pub fn is_between(text: &str, prefix: &str, suffix: &str) -> bool
    ensures { result ≡ (starts_with nat_eq (plain text.now) prefix.now
        && ends_with nat_eq (plain text.now) suffix.now) }
{
    starts_with(text, prefix) && ends_with(text, suffix)
}

/// A text that is whole, without white space at its ends, or `None` if it isn't whole.
pub fn trimmed(alloc: Global, text: &str) -> Result<Option<CowStr<'_>>, AllocError> {
    if !ansi_is_whole(text) {
        return Ok(None);
    }
    edit(alloc, text, &[Edit::Trim])
}

/// The first block that the iterator has left.
pub fn first<'t>(blocks: &mut AnsiBlockIter<'t>) -> Option<Result<AnsiBlock<'t>, AllocError>> {
    blocks.next()
}

/// The first block of a text.
pub fn first_of(alloc: Global, text: &str) -> Option<Result<AnsiBlock<'_>, AllocError>> {
    first(&mut get_blocks(alloc, text))
}

/// Whether the text is red, and what sets and ends its style.
pub fn red(style: &Style) -> (bool, AnsiSequenceStart<'_>, AnsiSequenceEnd<'_>) {
    let is_red = style.foreground() == Some(Color::Red);
    (is_red, style.start(), style.end())
}
