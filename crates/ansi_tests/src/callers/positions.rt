//! Callers that each make one call without a condition: at these positions every text can be cut
//! and divided.
use ansi_str::AnsiStr;
use ansi_str::slice::{cut_in, split_at_in};
use std::alloc::{AllocError, Global};
use std::borrow::CowStr;

/// The text from its front.
pub fn cut_from_front(alloc: Global, text: &str) -> bool {
    text.ansi_cut(alloc, 0..).is_ok()
}

/// The sequences at the front.
pub fn cut_to_front(alloc: Global, text: &str) -> bool {
    text.ansi_cut(alloc, ..0).is_ok()
}

/// The sequences at the front, with both ends given.
pub fn cut_front(alloc: Global, text: &str) -> bool {
    text.ansi_cut(alloc, 0..0).is_ok()
}

/// The whole text.
pub fn cut_all(alloc: Global, text: &str) -> bool {
    text.ansi_cut(alloc, ..).is_ok()
}

/// The whole text, up to the largest position.
pub fn cut_to_largest(alloc: Global, text: &str) -> bool {
    text.ansi_cut(alloc, ..usize::MAX).is_ok()
}

/// The whole text, up to its own length, which is at least that of its plain text.
pub fn cut_to_len(alloc: Global, text: &str) -> bool {
    text.ansi_cut(alloc, ..text.len()).is_ok()
}

/// Characters of a literal text.
pub fn cut_literal(alloc: Global) -> Result<CowStr<'static>, AllocError> {
    cut_in(alloc, "\x1b[1mLöwe\x1b[0m", 1, Some(3))
}

/// The two sides at the front.
pub fn split_at_front(alloc: Global, text: &str) -> bool {
    text.ansi_split_at(alloc, 0).is_ok()
}

/// The two sides at the end.
pub fn split_at_len(alloc: Global, text: &str) -> bool {
    text.ansi_split_at(alloc, text.len()).is_ok()
}

/// The sequences at the front, for as long as the text lives.
pub fn cut_front_in(alloc: Global, text: &str) -> Result<CowStr<'_>, AllocError> {
    cut_in(alloc, text, 0, Some(0))
}

/// The two sides at the front, for as long as the text lives.
pub fn split_at_front_in(
    alloc: Global,
    text: &str,
) -> Result<(CowStr<'_>, CowStr<'_>), AllocError> {
    split_at_in(alloc, text, 0)
}

/// The characters that fit in the first 20 bytes of the plain text.
pub fn cut_to_20(alloc: Global, text: &str) -> bool {
    text.ansi_cut(alloc, ..text.ansi_floor_char_boundary(20))
        .is_ok()
}

/// The text after those characters.
pub fn cut_from_20(alloc: Global, text: &str) -> bool {
    text.ansi_cut(alloc, text.ansi_floor_char_boundary(20)..)
        .is_ok()
}

/// The two sides at the end of those characters.
pub fn split_at_20(alloc: Global, text: &str) -> bool {
    text.ansi_split_at(alloc, text.ansi_floor_char_boundary(20))
        .is_ok()
}
