//! Calls that return the display width of a text, make it ready for display, or return its links.
ghost use Rattle.std.specs.Prelude.{◌≡◌, Some, MatchResult, IsUtf8};
ghost use Rattle.std.specs.Option.{MatchOption};
ghost use Rattle.ansi_safe.specs.Cells.{cell};
ghost use Rattle.ansi_cells.specs.declared.shown.Alignment.{Alignment};
ghost use Rattle.ansi_cells.specs.Fitted.{fitted};
ghost use Rattle.ansi_cells.specs.Shown.{truncated, padded};
ghost use Rattle.ansi_text_calls.specs.Answers.{IsWritten};
ghost use Rattle.ansi_calls.specs.Columns.{alignment_of, TellsWidth, TellsFitting, TellsColumn};
ghost use Rattle.ansi_calls.specs.Columns.{Truncates, Pads};
ghost use Rattle.ansi_calls.specs.Columns.{GivesTruncated, GivesPadded, Slices, GivesSliced};
ghost use Rattle.ansi_calls.specs.Columns.{Fits, GivesFitted, side_of, TruncatesAt};
ghost use Rattle.ansi_calls.specs.Columns.{GivesTruncatedAt, ExpandsTabs, GivesExpanded};
ghost use Rattle.ansi_calls.specs.Columns.{WritesLink};

use crate::shown::{write_bare, write_shown, write_slice};
use ansi_columns::bare::{Bare, missing_bare, truncate_bare};
use ansi_columns::fit::fit_shown;
use ansi_columns::shown::{Alignment, pad_shown, tail_for, truncate_shown};
use ansi_columns::sides::{Side, Truncation};
use ansi_columns::{addresses, columns, sides, slices, tabs};
use ansi_safe::utf8::{Utf8Error, from_utf8};
use ansi_text_calls::answers::{Answer, NO, NOT_UTF8, OUT_OF_MEMORY, REFUSED, write, write_text};
use std::alloc::Allocator;

const LEFT: u32 = 0;

const CENTER: u32 = 1;

const RIGHT: u32 = 2;

const END: u32 = 0;

const START: u32 = 1;

const MIDDLE: u32 = 2;

/// The display width of the text, in columns.
pub fn width(text: &[u8]) -> Answer
    ensures { TellsWidth text.now result }
{
    match from_utf8(text) {
        Ok(text) => Answer::done(columns::width(text)),
        Err(_) => Answer::failed(NOT_UTF8),
    }
}

/// The position up to which the text fits into `width` columns.
pub fn fitting(text: &[u8], width: usize) -> Answer
    ensures { TellsFitting text.now width result }
{
    match from_utf8(text) {
        Ok(text) => Answer::done(columns::fitting(text, width)),
        Err(_) => Answer::failed(NOT_UTF8),
    }
}

/// The columns of what is shown before a position.
pub fn column_of(text: &[u8], position: usize) -> Answer
    ensures { TellsColumn text.now position result }
{
    let Ok(text) = from_utf8(text) else {
        return Answer::failed(NOT_UTF8);
    };
    match columns::column_of(text, position) {
        Some(column) => Answer::done(column),
        None => Answer::failed(REFUSED),
    }
}

/// The text truncated to `width` columns.
pub fn truncate<A: Allocator + Copy>(
    alloc: A,
    text: &[u8],
    width: usize,
    tail: &[u8],
    buffer: &mut [u8],
) -> Answer
    ensures { Truncates text.now width tail.now result buffer.old buffer.new }
{
    let Ok(text) = from_utf8(text) else {
        return Answer::failed(NOT_UTF8);
    };
    let Ok(tail) = tail_of(tail) else {
        return Answer::failed(NOT_UTF8);
    };
    truncate_text(alloc, text, width, tail, buffer)
}

/// A tail, if its bytes are UTF-8. Those of `…` are known to be.
#[inline(always)]
fn tail_of(bytes: &[u8]) -> Result<&str, Utf8Error>
    ensures { MatchResult result (λ tail. (tail.now ≡ bytes.now) × IsUtf8 bytes.now)
        (λ _. ¬ (IsUtf8 bytes.now)) }
{
    if bytes == "…".as_bytes() {
        return Ok("…");
    }
    from_utf8(bytes)
}

/// The same for texts that are known to be UTF-8.
#[tactic(auto, unfolding(crate::specs::Columns::GivesTruncated))]
fn truncate_text<A: Allocator + Copy>(
    alloc: A,
    text: &str,
    width: usize,
    tail: &str,
    buffer: &mut [u8],
) -> Answer
    ensures { GivesTruncated text.now width tail.now result buffer.old buffer.new }
{
    let Ok(tail) = tail_for(alloc, text, width, tail) else {
        return Answer::failed(OUT_OF_MEMORY);
    };
    let tail = tail.as_str();
    if let Some(answer) = truncate_at_once(text, width, tail, buffer) {
        return answer;
    }
    write_shown(alloc, truncate_shown(alloc, text, width, tail), buffer)
}

/// The same, with this tail as it is, if nothing but printable ASCII is kept of the text, and there is room
/// for all. After `None` the buffer is as it was.
#[inline(always)]
fn truncate_at_once(text: &str, width: usize, tail: &str, buffer: &mut [u8]) -> Option<Answer>
    ensures { MatchOption result (buffer.new ≡ buffer.old) (λ answer. IsWritten
        (truncated (cell text.now) width tail.now) answer buffer.old buffer.new) }
{
    let bare = truncate_bare(text, width, tail)?;
    write_bare(Bare { missing: 0, ..bare }, Alignment::Left, buffer)
}

/// The text padded to `width` columns. The call is refused if there is no such alignment.
#[tactic(auto, unfolding(crate::specs::Columns::GivesPadded))]
pub fn pad<A: Allocator + Copy>(
    alloc: A,
    text: &[u8],
    width: usize,
    alignment: u32,
    buffer: &mut [u8],
) -> Answer
    ensures { Pads text.now width alignment result buffer.old buffer.new }
{
    let Ok(text) = from_utf8(text) else {
        return Answer::failed(NOT_UTF8);
    };
    match alignment_of(alignment) {
        Some(alignment) => pad_text(alloc, text, width, alignment, buffer),
        None => Answer::failed(REFUSED),
    }
}

/// The same for a text that is known to be UTF-8.
#[tactic(auto, unfolding(crate::specs::Columns::GivesPadded))]
fn pad_text<A: Allocator + Copy>(
    alloc: A,
    text: &str,
    width: usize,
    alignment: Alignment,
    buffer: &mut [u8],
) -> Answer
    ensures { GivesPadded text.now width (Some alignment) result buffer.old buffer.new }
{
    if let Some(answer) = pad_at_once(text, width, alignment, buffer) {
        return answer;
    }
    write_shown(alloc, pad_shown(alloc, text, width, alignment), buffer)
}

/// The same, if the text is printable ASCII alone, and there is room for all. After `None` the buffer is as
/// it was.
#[inline(always)]
fn pad_at_once(text: &str, width: usize, alignment: Alignment, buffer: &mut [u8]) -> Option<Answer>
    ensures { MatchOption result (buffer.new ≡ buffer.old) (λ answer. IsWritten
        (padded (cell text.now) width alignment) answer buffer.old buffer.new) }
{
    let missing = missing_bare(text, width)?;
    let bare = Bare {
        text,
        tail: "",
        missing,
    };
    write_bare(bare, alignment, buffer)
}

/// The text truncated or padded to `width` columns. The call is refused if there is no such
/// alignment.
pub fn fit<A: Allocator + Copy>(
    alloc: A,
    text: &[u8],
    width: usize,
    alignment: u32,
    tail: &[u8],
    buffer: &mut [u8],
) -> Answer
    ensures { Fits text.now width alignment tail.now result buffer.old buffer.new }
{
    let Ok(text) = from_utf8(text) else {
        return Answer::failed(NOT_UTF8);
    };
    let Ok(tail) = tail_of(tail) else {
        return Answer::failed(NOT_UTF8);
    };
    fit_text(alloc, text, width, alignment, tail, buffer)
}

/// The same for texts that are known to be UTF-8.
#[tactic(auto, unfolding(crate::specs::Columns::GivesFitted))]
fn fit_text<A: Allocator + Copy>(
    alloc: A,
    text: &str,
    width: usize,
    alignment: u32,
    tail: &str,
    buffer: &mut [u8],
) -> Answer
    ensures { GivesFitted text.now width (alignment_of alignment) tail.now
        result buffer.old buffer.new }
{
    match alignment_of(alignment) {
        Some(alignment) => {
            let Ok(tail) = tail_for(alloc, text, width, tail) else {
                return Answer::failed(OUT_OF_MEMORY);
            };
            let tail = tail.as_str();
            if let Some(answer) = fit_at_once(text, width, alignment, tail, buffer) {
                return answer;
            }
            let shown = fit_shown(alloc, text, width, alignment, tail);
            write_shown(alloc, shown, buffer)
        }
        None => Answer::failed(REFUSED),
    }
}

/// The same, with this tail as it is, if nothing but printable ASCII is kept of the text, and there is room
/// for all. After `None` the buffer is as it was.
#[inline(always)]
fn fit_at_once(
    text: &str,
    width: usize,
    alignment: Alignment,
    tail: &str,
    buffer: &mut [u8],
) -> Option<Answer>
    ensures { MatchOption result (buffer.new ≡ buffer.old) (λ answer. IsWritten
        (fitted (cell text.now) width alignment tail.now) answer buffer.old buffer.new) }
{
    write_bare(truncate_bare(text, width, tail)?, alignment, buffer)
}

/// The text truncated to `width` columns at a side. The call is refused if there is no such side.
pub fn truncate_with<A: Allocator + Copy>(
    alloc: A,
    text: &[u8],
    width: usize,
    tail: &[u8],
    side: u32,
    buffer: &mut [u8],
) -> Answer
    ensures { TruncatesAt text.now width tail.now side result buffer.old buffer.new }
{
    let Ok(text) = from_utf8(text) else {
        return Answer::failed(NOT_UTF8);
    };
    let Ok(tail) = tail_of(tail) else {
        return Answer::failed(NOT_UTF8);
    };
    truncate_text_at(alloc, text, width, tail, side, buffer)
}

/// The same for texts that are known to be UTF-8.
#[tactic(auto, unfolding(crate::specs::Columns::GivesTruncatedAt))]
fn truncate_text_at<A: Allocator + Copy>(
    alloc: A,
    text: &str,
    width: usize,
    tail: &str,
    side: u32,
    buffer: &mut [u8],
) -> Answer
    ensures { GivesTruncatedAt text.now width tail.now (side_of side)
        result buffer.old buffer.new }
{
    match side_of(side) {
        Some(side) => {
            let to = Truncation { width, tail, side };
            write_text(sides::truncate_with(alloc, text, &to), buffer)
        }
        None => Answer::failed(REFUSED),
    }
}

/// The columns of the text from `start` up to `end`.
pub fn slice<A: Allocator + Copy>(
    alloc: A,
    text: &[u8],
    start: usize,
    end: usize,
    buffer: &mut [u8],
) -> Answer
    ensures { Slices text.now start end result buffer.old buffer.new }
{
    match from_utf8(text) {
        Ok(text) => slice_text(alloc, text, start, end, buffer),
        Err(_) => Answer::failed(NOT_UTF8),
    }
}

/// The same for a text that is known to be UTF-8.
#[tactic(auto, unfolding(crate::specs::Columns::GivesSliced))]
fn slice_text<A: Allocator + Copy>(
    alloc: A,
    text: &str,
    start: usize,
    end: usize,
    buffer: &mut [u8],
) -> Answer
    ensures { GivesSliced text.now start end result buffer.old buffer.new }
{
    let slice = slices::slice_shown(alloc, text, start, Some(end));
    write_slice(alloc, slice, buffer)
}

/// The text with each TAB expanded to blanks up to the next multiple of `stop` columns.
pub fn expand_tabs<A: Allocator + Copy>(
    alloc: A,
    text: &[u8],
    stop: usize,
    buffer: &mut [u8],
) -> Answer
    ensures { ExpandsTabs text.now stop result buffer.old buffer.new }
{
    match from_utf8(text) {
        Ok(text) => expand_text(alloc, text, stop, buffer),
        Err(_) => Answer::failed(NOT_UTF8),
    }
}

/// The same for a text that is known to be UTF-8.
#[tactic(auto, unfolding(crate::specs::Columns::GivesExpanded))]
fn expand_text<A: Allocator + Copy>(alloc: A, text: &str, stop: usize, buffer: &mut [u8]) -> Answer
    ensures { GivesExpanded text.now stop result buffer.old buffer.new }
{
    write_text(tabs::expand_tabs(alloc, text, stop), buffer)
}

/// The address of the hyperlink at a position.
pub fn link_at(text: &[u8], index: usize, buffer: &mut [u8]) -> Answer
    ensures { WritesLink text.now index result buffer.old buffer.new }
{
    let Ok(text) = from_utf8(text) else {
        return Answer::failed(NOT_UTF8);
    };
    match addresses::link_at(text, index) {
        Some(address) => write(address.as_bytes(), buffer),
        None => Answer::failed(NO),
    }
}

/// The alignment with this number, or `None` if there is none.
pub fn alignment_of(number: u32) -> Option<Alignment>
    ensures { result ≡ alignment_of number }
{
    match number {
        LEFT => Some(Alignment::Left),
        CENTER => Some(Alignment::Center),
        RIGHT => Some(Alignment::Right),
        _ => None,
    }
}

/// The side with this number, or `None` if there is none.
pub fn side_of(number: u32) -> Option<Side>
    ensures { result ≡ side_of number }
{
    match number {
        END => Some(Side::End),
        START => Some(Side::Start),
        MIDDLE => Some(Side::Middle),
        _ => None,
    }
}
