//! Callers that receive a style: how long the text that they write in it may be, and what it sets.
ghost use Rattle.std.specs.Prelude.{◌≡◌, ◌≤◌, ◌+◌, length, IfOk, OnOk, string_bytes, string_len};
ghost use Rattle.ansi_str.specs.Rendition.{plain_style, known};
ghost use Rattle.ansi_str.specs.Reading.{style_after_from};
ghost use Rattle.ansi_str.specs.Written.{longest_start, longest_start_and_close};
ghost use Rattle.ansi_str.specs.States.{rendition_of};

use ansi_str::{Style, laws};
use std::alloc::{AllocError, Global};
use std::fmt::Write;

/// The start of a style as a text of its own. Read as a text, it sets everything that is known of
/// the style.
pub fn start_of(alloc: Global, style: &Style) -> Result<String, AllocError>
    ensures len { IfOk result (λ s. string_len s ≤ longest_start) }
    ensures sets { IfOk result (λ s.
        style_after_from plain_style (string_bytes s) ≡ known (rendition_of style.now)) }
{
    laws::styles_are_in_range();
    laws::start_sets();
    laws::written_texts_are_short();
    style.start().to_string(alloc)
}

/// Appends a word in a style, and resets the style. The contract bounds the length, so a caller can
/// reserve room for a line before it writes the words.
pub fn write_word(out: &mut String, style: &Style, word: &str) -> Result<(), AllocError>
    ensures { OnOk result
        (string_len out.new ≤ string_len out.old + length word.now + longest_start_and_close) }
{
    laws::styles_are_in_range();
    laws::written_texts_are_short();
    write!(out, "{}{word}{}", style.start(), style.end())
}
