//! Calls on what is open at the end of a text: the style and the link, what opens both again, and
//! what closes them.
ghost use Rattle.std.specs.Prelude.{◌≡◌, ◌++◌, not, ◌==◌, ◌||◌, length, nat_lt, Some, IfOk};
ghost use Rattle.std.specs.Prelude.{string_bytes};
ghost use Rattle.ansi_style.specs.States.{rendition_of};
ghost use Rattle.ansi_style.specs.Rendition.{has_any};
ghost use Rattle.ansi_style.specs.Written.{close};
ghost use Rattle.ansi_text_calls.specs.Answers.{no, Gives};
ghost use Rattle.ansi_text_calls.specs.Pens.{TellsPen, opening_of, WritesOpening, WritesEnding};

use crate::answers::{Answer, NOT_UTF8, write_made};
use ansi_safe::links::{Ending, Pen, address_of, pen_after as pen_of};
use ansi_safe::policy::Links;
use ansi_safe::safe::is_safe;
use ansi_safe::utf8::from_utf8;
use ansi_style::numbers::StyleNumbers;
use ansi_style::styles;
use std::alloc::{AllocError, Allocator};

/// What is open at the end of a text: the address of the link, which is a stretch of the text, and
/// empty if no link is open; and the style.
#[repr(C)]
#[derive(Clone, Copy)]
pub struct OpenPen<'a> {
    pub link: &'a [u8],
    pub style: StyleNumbers,
}

/// The style and the link that are open at the end of a text. Doesn't allocate.
pub fn pen_after<'a>(text: &'a [u8], pen: &mut OpenPen<'a>) -> Answer
    ensures { TellsPen text.now result pen.old pen.new }
{
    let Ok(text) = from_utf8(text) else {
        return Answer::failed(NOT_UTF8);
    };
    let Pen { style, link } = pen_of(text);
    *pen = OpenPen {
        link: address_of(link.as_bytes()).unwrap_or(b""),
        style: StyleNumbers::of(&style),
    };
    Answer::done(0)
}

/// What opens both again.
pub fn pen_start<A: Allocator>(alloc: A, text: &[u8], buffer: &mut [u8]) -> Answer
    ensures { WritesOpening text.now result buffer.old buffer.new }
{
    match from_utf8(text) {
        Ok(text) => write_opening(alloc, &pen_of(text), buffer),
        Err(_) => Answer::failed(NOT_UTF8),
    }
}

/// Writes what opens a pen again. Allocates only if it has a style or a link.
fn write_opening<A: Allocator>(alloc: A, pen: &Pen<'_>, buffer: &mut [u8]) -> Answer
    ensures { Gives no (has_any (rendition_of pen.now.style) || nat_lt 0 (length pen.now.link.now))
        (Some (opening_of (rendition_of pen.now.style) pen.now.link.now)) result
        buffer.old buffer.new }
{
    if pen.is_plain() {
        return Answer::done(0);
    }
    write_made(opening(alloc, pen), buffer)
}

/// What opens a pen again: the start of its style, and the sequence of its link if that is clean.
fn opening<A: Allocator>(alloc: A, pen: &Pen<'_>) -> Result<String<A>, AllocError>
    ensures { IfOk result (λ made. string_bytes made
        ≡ opening_of (rendition_of pen.now.style) pen.now.link.now) }
{
    let mut out = String::new(alloc);
    styles::write_start(&pen.style, &mut out)?;
    if is_safe(pen.link, Links::Keep) {
        out.push_str(pen.link)?;
    }
    Ok(out)
}

/// What closes both.
pub fn pen_end<A: Allocator>(alloc: A, text: &[u8], buffer: &mut [u8]) -> Answer
    ensures { WritesEnding text.now result buffer.old buffer.new }
{
    match from_utf8(text) {
        Ok(text) => write_ending(alloc, &pen_of(text).ending(), buffer),
        Err(_) => Answer::failed(NOT_UTF8),
    }
}

/// Writes what closes a pen. Allocates only if that is something.
fn write_ending<A: Allocator>(alloc: A, ending: &Ending, buffer: &mut [u8]) -> Answer
    ensures { let bytes = ending.now.link_end.now ++ close (rendition_of ending.now.style) in
        Gives no (not (length bytes == 0)) (Some bytes) result buffer.old buffer.new }
{
    if ending.is_empty() {
        return Answer::done(0);
    }
    write_made(written(alloc, ending), buffer)
}

/// What closes a pen.
fn written<A: Allocator>(alloc: A, ending: &Ending) -> Result<String<A>, AllocError>
    ensures { IfOk result (λ made. string_bytes made
        ≡ ending.now.link_end.now ++ close (rendition_of ending.now.style)) }
{
    let mut out = String::new(alloc);
    ending.push_to(&mut out)?;
    Ok(out)
}
