//! Calls that search or test a text, and write nothing.
ghost use Rattle.ansi_str.specs.Plain.{plain};
ghost use Rattle.ansi_text_calls.specs.Answers.{TellsPlace};
ghost use Rattle.ansi_text_calls.specs.Calls.{Finds, FindsBoundary, TestsFront, TestsEnd, TestsBoundary};
ghost use Rattle.ansi_text_calls.specs.Calls.{TestsWhole, TestsEscape};
ghost use Rattle.ansi_text_calls.specs.Restyles.{FindsFrom};

use crate::answers::{Answer, NO, NOT_UTF8};
use ansi_restyle::matches;
use ansi_safe::utf8::from_utf8;
use ansi_str::{AnsiStr, ansi_is_whole};

/// The position of the first match of the pattern in the plain text.
pub fn find(text: &[u8], pattern: &[u8]) -> Answer
    ensures { Finds text.now pattern.now result }
{
    let Ok(text) = from_utf8(text) else {
        return Answer::failed(NOT_UTF8);
    };
    match from_utf8(pattern) {
        Ok(pat) => find_text(text, pat),
        Err(_) => Answer::failed(NOT_UTF8),
    }
}

/// The same for a text and a pattern that are known to be UTF-8.
pub fn find_text(text: &str, pat: &str) -> Answer
    ensures { TellsPlace pat.now (plain text.now) result }
{
    match text.ansi_find(pat) {
        Some(place) => Answer::done(place),
        None => Answer::failed(NO),
    }
}

/// The position of the first match of the pattern in the plain text that doesn't begin before a
/// position.
pub fn find_from(text: &[u8], position: usize, pattern: &[u8]) -> Answer
    ensures { FindsFrom text.now position pattern.now result }
{
    let Ok(text) = from_utf8(text) else {
        return Answer::failed(NOT_UTF8);
    };
    let Ok(pat) = from_utf8(pattern) else {
        return Answer::failed(NOT_UTF8);
    };
    let Some(place) = matches::find_from(text, position, pat) else {
        return Answer::failed(NO);
    };
    Answer::done(place)
}

/// Whether the plain text begins with the pattern.
pub fn starts_with(text: &[u8], pattern: &[u8]) -> Answer
    ensures { TestsFront text.now pattern.now result }
{
    let Ok(text) = from_utf8(text) else {
        return Answer::failed(NOT_UTF8);
    };
    match from_utf8(pattern) {
        Ok(pat) => Answer::told(text.ansi_starts_with(pat)),
        Err(_) => Answer::failed(NOT_UTF8),
    }
}

/// Whether the plain text ends with the pattern.
pub fn ends_with(text: &[u8], pattern: &[u8]) -> Answer
    ensures { TestsEnd text.now pattern.now result }
{
    let Ok(text) = from_utf8(text) else {
        return Answer::failed(NOT_UTF8);
    };
    match from_utf8(pattern) {
        Ok(pat) => Answer::told(text.ansi_ends_with(pat)),
        Err(_) => Answer::failed(NOT_UTF8),
    }
}

/// Whether a character of the plain text begins at the index, or the plain text ends there.
pub fn is_char_boundary(text: &[u8], index: usize) -> Answer
    ensures { TestsBoundary text.now index result }
{
    match from_utf8(text) {
        Ok(text) => Answer::told(text.ansi_is_char_boundary(index)),
        Err(_) => Answer::failed(NOT_UTF8),
    }
}

/// The last character boundary of the plain text that isn't past the index.
pub fn floor_char_boundary(text: &[u8], index: usize) -> Answer
    ensures { FindsBoundary text.now index result }
{
    match from_utf8(text) {
        Ok(text) => Answer::done(text.ansi_floor_char_boundary(index)),
        Err(_) => Answer::failed(NOT_UTF8),
    }
}

/// Whether the text is whole.
pub fn is_whole(text: &[u8]) -> Answer
    ensures { TestsWhole text.now result }
{
    match from_utf8(text) {
        Ok(text) => Answer::told(ansi_is_whole(text)),
        Err(_) => Answer::failed(NOT_UTF8),
    }
}

/// Whether the text has an ESC.
pub fn has_any(text: &[u8]) -> Answer
    ensures { TestsEscape text.now result }
{
    match from_utf8(text) {
        Ok(text) => Answer::told(text.ansi_has_any()),
        Err(_) => Answer::failed(NOT_UTF8),
    }
}
