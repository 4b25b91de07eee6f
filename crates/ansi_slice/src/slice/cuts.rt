//! Cuts of a text.
ghost use Rattle.std.specs.Prelude.{◌≡◌, ◌++◌, ◌↔◌, ◌⊎◌, ◌≤◌, ◌+◌, length, Some, MatchOption, OnOk};
ghost use Rattle.std.specs.Prelude.{slice_range, IsTrue, IsFalse, IsNone, IsOk, IfOk, IfSome};
ghost use Rattle.std.specs.Prelude.{string_bytes};
ghost use Rattle.std.specs.Cow.{cow_str_bytes, IsBorrowedStr};
ghost use Rattle.ansi_items.specs.Pieces.{pieces_of};
ghost use Rattle.ansi_items.specs.Plain.{plain, has_escape};
ghost use Rattle.ansi_search.specs.Positions.{is_good_range, is_range_in, no_character_goes_on};
ghost use Rattle.ansi_slice.specs.Cut.{cut, cut_up_to};
ghost use Rattle.ansi_slice.specs.Stretches.{AreMarks, IsStretch, sequences_up_to};
ghost use Rattle.ansi_style.specs.Reading.{style_within};
ghost use Rattle.ansi_style.specs.States.{rendition_of};
ghost use Rattle.ansi_style.specs.Written.{longest_close};

use crate::slice::has_any;
use crate::slice::sequences::push_sequences;
use ansi_items::ansitok::{Kind, Scanner};
use ansi_search::search::PAST_THE_END;
use ansi_style::state::Style;
use ansi_style::styles;
use std::alloc::{AllocError, Allocator};
use std::borrow::CowStr;

/// A close has at most this many bytes, `longest_close`.
const LONGEST_CLOSE: usize = 88;

/// Like `AnsiStr::ansi_cut`, from `start` up to `end`, or to the end of the text if `end` is
/// `None`, with a result that lives as long as the text, and with any allocator. (Own.)
///
/// ```
/// let cut = cut_in(rt.alloc(), "\x1b[30mTEXT\x1b[39m", 1, Some(3))?;
/// assert!(rt; cut.as_str() == "\x1b[30mEX\x1b[39m");
/// ```
pub fn cut_in<'t, A: Allocator>(
    alloc: A,
    text: &'t str,
    start: usize,
    end: Option<usize>,
) -> Result<CowStr<'t, A>, AllocError>
    requires { IsTrue (is_range_in text.now start end) }
    ensures bytes { IfOk result (λ c. cow_str_bytes c ≡ cut text.now start end) }
    ensures borrowed { IfOk result (λ c. IsBorrowedStr c ↔ IsFalse (has_escape text.now)) }
    ensures len { IfOk result (λ c. length (cow_str_bytes c) ≤ length text.now + longest_close) }
    ensures takes_no_memory { IsFalse (has_escape text.now) → IsOk result }
{
    Ok(get_in(alloc, text, start, end)?.unwrap())
}

/// Like `AnsiStr::ansi_get`, from `start` up to `end`, or to the end of the text if `end` is
/// `None`, with a result that lives as long as the text, and with any allocator. (Own.)
///
/// ```
/// let cut = get_in(rt.alloc(), "\x1b[30mTEXT\x1b[39m", 2, None);
/// assert!(rt; matches!(&cut, Ok(Some(cut)) if cut.as_str() == "\x1b[30mXT\x1b[39m"));
/// assert!(rt; matches!(&get_in(rt.alloc(), "é", 1, None), Ok(None)));
/// ```
pub fn get_in<'t, A: Allocator>(
    alloc: A,
    text: &'t str,
    start: usize,
    end: Option<usize>,
) -> Result<Option<CowStr<'t, A>>, AllocError>
    ensures none { IfOk result (λ o.
        IsNone o ↔ IsFalse (is_good_range (plain text.now) start end)) }
    ensures bytes { IfOk result (λ o. IfSome o (λ c. cow_str_bytes c ≡ cut text.now start end)) }
    ensures borrowed { IfOk result (λ o. IfSome o (λ c.
        IsBorrowedStr c ↔ IsFalse (has_escape text.now))) }
    ensures len { IfOk result (λ o. IfSome o (λ c.
        length (cow_str_bytes c) ≤ length text.now + longest_close)) }
    ensures takes_no_memory { IsFalse (has_escape text.now)
        ⊎ IsFalse (is_good_range (plain text.now) start end) → IsOk result }
{
    let end = end.unwrap_or(PAST_THE_END);
    if !has_any(text) {
        let Some(range) = range_of(text, start, end) else {
            return Ok(None);
        };
        return Ok(Some(CowStr::Borrowed(range)));
    }
    let Some(cut) = cut_up_to(alloc, text, start, end)? else {
        return Ok(None);
    };
    Ok(Some(CowStr::Owned(cut)))
}

/// The bytes of a text in a range, or `None` if the range is bad. A position past the end counts as
/// the end.
fn range_of(text: &str, start: usize, end: usize) -> Option<&str>
    ensures { MatchOption result (IsFalse (is_good_range text.now start (Some end))) (λ range.
        IsTrue (is_good_range text.now start (Some end))
        × (range.now ≡ slice_range text.now start end)) }
{
    let from = start.min(text.len());
    let to = end.min(text.len());
    if end < start || !text.is_char_boundary(from) || !text.is_char_boundary(to) {
        return None;
    }
    Some(&text[from..to])
}

/// Where the bytes that a cut keeps are in its text.
struct Stretch {
    /// How many bytes the sequences at the front have, if the start is in the first run of text.
    marks: Option<usize>,
    /// The offset of the start.
    from: usize,
    /// The offset of the end.
    to: usize,
}

/// The stretch of a text between two positions, good or not. Every SGR up to the end changes the
/// style.
#[inline(always)]
fn stretch_of(style: &mut Style, text: &str, start: usize, end: usize) -> Stretch
    requires { start ≤ end }
    ensures stretch { IsStretch text.now start end result.marks result.from result.to }
    ensures style { rendition_of style.new ≡ style_within (rendition_of style.old) text.now end }
{
    let mut place = 0;
    let mut marks = None;
    let mut from = text.len();
    for item in Scanner::new(text) {
        let piece = &text[item.start..item.end];
        if item.kind == Kind::Text {
            if place <= start && start - place < piece.len() {
                from = item.start + (start - place);
                marks = (place == 0).then_some(item.start);
            }
            if end - place < piece.len() {
                let to = item.start + (end - place);
                return Stretch { marks, from, to };
            }
            place += piece.len();
        } else if item.kind == Kind::Sgr {
            styles::apply(style, piece);
        }
    }
    let to = text.len();
    Stretch { marks, from, to }
}

/// The cut of a range, written, or `None` if the range is bad: the sequences up to its start, the
/// stretch of the text from there on with the sequences up to its end, and the close of the style
/// there.
fn cut_up_to<A: Allocator>(
    alloc: A,
    text: &str,
    start: usize,
    end: usize,
) -> Result<Option<String<A>>, AllocError>
    ensures cut { IfOk result (λ o.
        MatchOption o (IsFalse (is_good_range (plain text.now) start (Some end))) (λ s.
        IsTrue (is_good_range (plain text.now) start (Some end))
        × (string_bytes s ≡ cut_up_to text.now start end))) }
    ensures takes_no_memory { IsFalse (is_good_range (plain text.now) start (Some end)) →
        IsOk result }
{
    if end < start {
        return Ok(None);
    }
    let mut style = styles::plain_style();
    let Stretch { marks, from, to } = stretch_of(&mut style, text, start, end);
    if !text.is_char_boundary(from) || !text.is_char_boundary(to) {
        return Ok(None);
    }
    // All bytes up to the end but the plain ones before the start.
    let most = to - from.min(start) + LONGEST_CLOSE;
    let mut cut = String::with_capacity(alloc, most)?;
    let mut begin = 0;
    if start > 0 {
        push_front(&mut cut, text, start, marks)?;
        begin = from;
    }
    cut.push_str(&text[begin..to])?;
    styles::write_close(&style, &mut cut)?;
    Ok(Some(cut))
}

/// Appends every sequence up to a good position: the first `marks` bytes, if that is known. `Err`
/// means out of memory; what was appended before it stays.
fn push_front<A: Allocator>(
    out: &mut String<A>,
    text: &str,
    position: usize,
    marks: Option<usize>,
) -> Result<(), AllocError>
    requires good { IsTrue (no_character_goes_on (plain text.now) position) }
    requires marks { IfSome marks (AreMarks text.now position) }
    ensures { OnOk result (string_bytes out.new
        ≡ string_bytes out.old ++ sequences_up_to position (pieces_of text.now)) }
{
    match marks {
        Some(len) => out.push_str(&text[..len]),
        None => {
            push_sequences(out, text, position)?;
            Ok(())
        }
    }
}
