//! Calls that return one text, made from the text that they take.
ghost use Rattle.std.specs.Prelude.{◌≡◌, ◌+◌, ◌<◌, ◌≤◌, ◌^◌, ◌∷◌, ◌++◌, [], length, take, drop};
ghost use Rattle.std.specs.Prelude.{Some, option_map, IsTrue, IsOk, IfOk};
ghost use Rattle.std.specs.Cow.{cow_str_bytes};
ghost use Rattle.ansi_str.specs.Plain.{plain, has_escape};
ghost use Rattle.ansi_str.specs.Edited.{edited, stay_borrowed};
ghost use Rattle.ansi_str.specs.Changes.{CutRange};
ghost use Rattle.ansi_str.specs.Edits.{change_of};
ghost use Rattle.ansi_text_calls.specs.Answers.{no, Gives};
ghost use Rattle.ansi_text_calls.specs.Calls.{Strips, Changes, Cuts, TakesLeft, TakesRight, Trims};
ghost use Rattle.ansi_text_calls.specs.Calls.{StripsPrefix, StripsSuffix, TakesPart};

use crate::answers::{Answer, NO, NOT_UTF8, OUT_OF_MEMORY, REFUSED, TOO_SMALL, write, write_found};
use crate::lists::put;
use ansi_items::ansitok::{Kind, Scanner};
use ansi_safe::utf8::from_utf8;
use ansi_str::Edit;
use ansi_str::edits::edit_once;
use ansi_str::slice::{get_in, has_any, strip_in};
use std::alloc::{AllocError, Allocator};
use std::borrow::CowStr;

/// The plain text.
pub fn strip<A: Allocator>(alloc: A, text: &[u8], buffer: &mut [u8]) -> Answer
    ensures { Strips text.now result buffer.old buffer.new }
{
    match from_utf8(text) {
        Ok(text) => strip_text(alloc, text, buffer),
        Err(_) => Answer::failed(NOT_UTF8),
    }
}

/// The same for a text that is known to be UTF-8. Allocates only if the buffer has some room, but
/// less than the text's length.
pub fn strip_text<A: Allocator>(alloc: A, text: &str, buffer: &mut [u8]) -> Answer
    ensures { Gives no (has_escape text.now) (Some (plain text.now)) result buffer.old buffer.new }
{
    if !has_any(text) {
        return write(text.as_bytes(), buffer);
    }
    if text.len() <= buffer.len() {
        return Answer::done(copy_plain(text, buffer));
    }
    if buffer.is_empty() {
        return match copy_plain(text, &mut []) {
            0 => Answer::done(0),
            len => Answer {
                status: TOO_SMALL,
                len,
            },
        };
    }
    match strip_in(alloc, text) {
        Ok(plain) => write(plain.as_bytes(), buffer),
        Err(_) => Answer::failed(OUT_OF_MEMORY),
    }
}

/// Writes the plain text, if there is room for it. Returns its length.
fn copy_plain(text: &str, buffer: &mut [u8]) -> usize
    ensures len { result ≡ length (plain text.now) }
    ensures bytes { length (plain text.now) ≤ length buffer.old →
        buffer.new ≡ plain text.now ++ drop (length (plain text.now)) buffer.old }
{
    let bytes = text.as_bytes();
    let mut len = 0;
    for item in Scanner::new(text) {
        if item.kind == Kind::Text {
            len = put_run(&bytes[item.start..item.end], len, buffer);
        }
    }
    len
}

/// Copies a run of the plain text to a place in the buffer, if there is room for it. Returns the
/// place after it. It isn't inlined, so that the loop over the sequences has the registers.
#[inline(never)]
fn put_run(run: &[u8], place: usize, buffer: &mut [u8]) -> usize
    requires { place + length run.now < 2 ^ 64 }
    ensures bytes { place + length run.now ≤ length buffer.old →
        buffer.new ≡ take place buffer.old ++ run.now ++ drop (place + length run.now) buffer.old }
    ensures same_len { length buffer.new ≡ length buffer.old }
    ensures after { result ≡ place + length run.now }
{
    put(run, place, buffer)
}

/// The text from one position up to another.
#[tactic(auto, unfolding(crate::specs::Answers::GivesEdited))]
pub fn cut<A: Allocator + Copy>(
    alloc: A,
    text: &[u8],
    start: usize,
    end: usize,
    buffer: &mut [u8],
) -> Answer
    ensures { Cuts text.now start end result buffer.old buffer.new }
{
    match from_utf8(text) {
        Ok(text) => write_found(cut_text(alloc, text, start, end), REFUSED, buffer),
        Err(_) => Answer::failed(NOT_UTF8),
    }
}

/// The same for a text that is known to be UTF-8, or `None` if the range is bad.
fn cut_text<A: Allocator + Copy>(
    alloc: A,
    text: &str,
    start: usize,
    end: usize,
) -> Result<Option<CowStr<'_, A>>, AllocError>
    ensures bytes { IfOk result (λ o. option_map cow_str_bytes o
        ≡ edited (CutRange start (Some end) ∷ []) text.now) }
    ensures takes_no_memory { IsTrue (stay_borrowed (CutRange start (Some end) ∷ []) text.now) →
        IsOk result }
{
    get_in(alloc, text, start, Some(end))
}

/// The text before a position.
pub fn left<A: Allocator + Copy>(alloc: A, text: &[u8], mid: usize, buffer: &mut [u8]) -> Answer
    ensures { TakesLeft text.now mid result buffer.old buffer.new }
{
    write_edited(alloc, text, Edit::Left(mid), REFUSED, buffer)
}

/// The text from a position on.
pub fn right<A: Allocator + Copy>(alloc: A, text: &[u8], mid: usize, buffer: &mut [u8]) -> Answer
    ensures { TakesRight text.now mid result buffer.old buffer.new }
{
    write_edited(alloc, text, Edit::Right(mid), REFUSED, buffer)
}

/// The text without the white space at its ends.
pub fn trim<A: Allocator + Copy>(alloc: A, text: &[u8], buffer: &mut [u8]) -> Answer
    ensures { Trims text.now result buffer.old buffer.new }
{
    write_edited(alloc, text, Edit::Trim, REFUSED, buffer)
}

/// The text without a prefix.
pub fn strip_prefix<A: Allocator + Copy>(
    alloc: A,
    text: &[u8],
    pattern: &[u8],
    buffer: &mut [u8],
) -> Answer
    ensures { StripsPrefix text.now pattern.now result buffer.old buffer.new }
{
    match from_utf8(pattern) {
        Ok(pat) => write_edited(alloc, text, Edit::Prefix(pat), NO, buffer),
        Err(_) => Answer::failed(NOT_UTF8),
    }
}

/// The text without a suffix.
pub fn strip_suffix<A: Allocator + Copy>(
    alloc: A,
    text: &[u8],
    pattern: &[u8],
    buffer: &mut [u8],
) -> Answer
    ensures { StripsSuffix text.now pattern.now result buffer.old buffer.new }
{
    match from_utf8(pattern) {
        Ok(pat) => write_edited(alloc, text, Edit::Suffix(pat), NO, buffer),
        Err(_) => Answer::failed(NOT_UTF8),
    }
}

/// The part at an index, of the parts between the matches of a pattern.
pub fn part<A: Allocator + Copy>(
    alloc: A,
    text: &[u8],
    pattern: &[u8],
    index: usize,
    buffer: &mut [u8],
) -> Answer
    ensures { TakesPart text.now pattern.now index result buffer.old buffer.new }
{
    match from_utf8(pattern) {
        Ok(pat) => write_edited(alloc, text, Edit::Part { pat, index }, NO, buffer),
        Err(_) => Answer::failed(NOT_UTF8),
    }
}

/// Writes the text after one edit. Returns the status `absent` if the edit is refused.
#[tactic(auto, unfolding(crate::specs::Answers::GivesEdited))]
fn write_edited<A: Allocator + Copy>(
    alloc: A,
    text: &[u8],
    change: Edit<'_>,
    absent: u32,
    buffer: &mut [u8],
) -> Answer
    ensures { Changes (text.now ∷ []) absent (change_of change.entry) text.now result buffer.old buffer.new }
{
    match from_utf8(text) {
        Ok(text) => write_found(edit_text(alloc, text, change), absent, buffer),
        Err(_) => Answer::failed(NOT_UTF8),
    }
}

/// The text after one edit, or `None` if that is refused.
fn edit_text<'t, A: Allocator + Copy>(
    alloc: A,
    text: &'t str,
    change: Edit<'_>,
) -> Result<Option<CowStr<'t, A>>, AllocError>
    ensures bytes { IfOk result (λ o.
        option_map cow_str_bytes o ≡ edited (change_of change.entry ∷ []) text.now) }
    ensures takes_no_memory { IsTrue (stay_borrowed (change_of change.entry ∷ []) text.now) →
        IsOk result }
{
    edit_once(alloc, CowStr::Borrowed(text), change)
}
