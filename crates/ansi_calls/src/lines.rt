//! Calls that wrap a text. One returns its lines, concatenated, and where each ends. The others
//! return where each begins and ends in the plain text, all at once or one by one.
ghost use Rattle.std.specs.Prelude.{◌≡◌, ◌⊎◌, ◌<◌, ◌≤◌, [], ◌++◌, length, drop, flat_map, map};
ghost use Rattle.std.specs.Prelude.{◌∷◌, IsTrue, IsFalse, IfNone, IfSome, not, ◌||◌, bytes_eq};
ghost use Rattle.std.specs.Prelude.{IfOk, string_bytes};
ghost use Rattle.ansi_items.specs.Plain.{has_escape};
ghost use Rattle.ansi_safe.specs.Cells.{paragraph};
ghost use Rattle.ansi_text_calls.specs.Lists.{ends_from, AreCopied, AreWritten};
ghost use Rattle.ansi_clusters.specs.LineWalks.{IsLineWalk};
ghost use Rattle.ansi_calls.specs.Columns.{wrapped_lines, Wraps, GivesIndented, WrapsWith};
ghost use Rattle.ansi_calls.specs.Columns.{line_entries, WritesLines, BeginsLines, GivesNextLine};

use ansi_columns::laws;
use ansi_columns::line_walks::{LineWalk, next_line, walk_lines};
use ansi_columns::lines::Lines;
use ansi_columns::wrap::indents::{Wrap, wrap_with as wrapped_with};
use ansi_columns::wrap::{AnsiWrap, only_line, wrap as wrapped};
use ansi_safe::cells::is_paragraph;
use ansi_safe::printable::printable_len;
use ansi_safe::utf8::from_utf8;
use ansi_str::AnsiStr;
use ansi_style::styles;
use ansi_text_calls::answers::{Answer, NO, NOT_UTF8, OK, TOO_SMALL};
use ansi_text_calls::lists::{ListAnswer, copy_texts, put, write_copied, write_list, write_texts};
use ansi_text_calls::walks::write_between;
use std::alloc::Allocator;

/// An entry for a line: where it begins and ends, in bytes of the plain text.
#[repr(C)]
#[derive(Clone, Copy)]
pub struct LineEntry {
    pub start: usize,
    pub end: usize,
}

/// The lines of the text wrapped at `width` columns, ready for display, and where each ends.
#[tactic(auto, unfolding(crate::specs::Columns::GivesWrapped))]
pub fn wrap<A: Allocator + Copy>(
    alloc: A,
    text: &[u8],
    width: usize,
    buffer: &mut [u8],
    ends: &mut [usize],
) -> ListAnswer
    ensures { Wraps text.now width result buffer.old buffer.new ends.old ends.new }
{
    let Ok(text) = from_utf8(text) else {
        return ListAnswer::failed(NOT_UTF8);
    };
    if is_bare_line(text, width) {
        return write_list(text.as_bytes(), &[text.len()], buffer, ends);
    }
    if is_bare_paragraph(text) {
        return write_bare_lines(alloc, text, width, buffer, ends);
    }
    let lines = wrapped(alloc, text, width);
    match write_only(&lines, buffer, ends) {
        Some(answer) => answer,
        None => write_texts(alloc, text.len(), lines, buffer, ends),
    }
}

/// Whether a text is printable ASCII alone that fits into a line and doesn't end with a blank, so that
/// it is its only line. `false` says nothing.
#[inline(always)]
fn is_bare_line(text: &str, width: usize) -> bool
    ensures { IsTrue result → wrapped_lines text.now width ≡ text.now ∷ [] }
{
    let len = text.len();
    if len == 0 || width < len {
        return false;
    }
    let last = text.as_bytes()[len - 1];
    if last <= b' ' || last > b'~' {
        return false;
    }
    printable_len(text.as_bytes()) == len
}

/// Writes the only line of a wrap and where it ends, if it is known that there is only one, and there
/// is room. `None` says nothing, and nothing is written then. Doesn't allocate.
fn write_only<A: Allocator>(
    lines: &AnsiWrap<'_, A>,
    buffer: &mut [u8],
    ends: &mut [usize],
) -> Option<ListAnswer>
    ensures some { IfSome result (λ answer. AreWritten (flat_map (λ t. t) (map (λ l. l.bytes)
        lines.now)) (ends_from 0 (map (λ l. l.bytes) lines.now)) answer buffer.old buffer.new
        ends.old ends.new) }
    ensures none { IfNone result ((buffer.new ≡ buffer.old) × (ends.new ≡ ends.old)) }
{
    let (text, style) = only_line(lines)?;
    if ends.is_empty() {
        return None;
    }
    let close = styles::short_close(&style)?;
    let answer = write_between("", text, close.as_str(), buffer);
    if answer.status != OK {
        return None;
    }
    ends[0] = answer.len;
    Some(ListAnswer {
        status: OK,
        count: 1,
        len: answer.len,
    })
}

/// The lines of the text wrapped at `width` columns with an indent before each, ready for display,
/// and where each ends.
pub fn wrap_with<A: Allocator + Copy>(
    alloc: A,
    text: &[u8],
    width: usize,
    first_indent: &[u8],
    indent: &[u8],
    buffer: &mut [u8],
    ends: &mut [usize],
) -> ListAnswer
    ensures { WrapsWith text.now width first_indent.now indent.now result buffer.old buffer.new
        ends.old ends.new }
{
    let Ok(text) = from_utf8(text) else {
        return ListAnswer::failed(NOT_UTF8);
    };
    let Ok(first_indent) = from_utf8(first_indent) else {
        return ListAnswer::failed(NOT_UTF8);
    };
    let Ok(indent) = from_utf8(indent) else {
        return ListAnswer::failed(NOT_UTF8);
    };
    let to = Wrap::at(width).first_indent(first_indent).indent(indent);
    write_indented(alloc, text, &to, buffer, ends)
}

/// The same for texts that are known to be UTF-8.
fn write_indented<A: Allocator + Copy>(
    alloc: A,
    text: &str,
    to: &Wrap<'_>,
    buffer: &mut [u8],
    ends: &mut [usize],
) -> ListAnswer
    ensures { GivesIndented text.now to.now.width to.now.first_indent.now to.now.indent.now result
        buffer.old buffer.new ends.old ends.new }
{
    write_texts(
        alloc,
        text.len(),
        wrapped_with(alloc, text, to),
        buffer,
        ends,
    )
}

/// Whether a text has no ESC and is its own paragraph.
fn is_bare_paragraph(text: &str) -> bool
    ensures { result
        ≡ not (has_escape text.now || not (bytes_eq (paragraph text.now) text.now)) }
{
    !text.ansi_has_any() && is_paragraph(text)
}

/// Writes the lines of a paragraph without ESC, and where each ends, if there is room for all of
/// them. Doesn't allocate.
fn write_bare_lines<A: Allocator + Copy>(
    alloc: A,
    text: &str,
    width: usize,
    buffer: &mut [u8],
    ends: &mut [usize],
) -> ListAnswer
    requires paragraph { paragraph text.now ≡ text.now }
    requires bare { IsFalse (has_escape text.now) }
    ensures { AreWritten (flat_map (λ l. l) (wrapped_lines text.now width))
        (ends_from 0 (wrapped_lines text.now width)) result buffer.old buffer.new ends.old
        ends.new }
{
    laws::lines_lose_blanks_and_line_ends();
    let copy = |buffer: &mut [u8], ends: &mut [usize]| copy_bare_lines(
        alloc, text, width, buffer, ends,
    );
    write_copied(text.len(), text.len() + 1, copy, buffer, ends)
}

/// Writes the lines of a paragraph without ESC, and where each ends, as far as there is room.
/// Returns their number and their total length.
fn copy_bare_lines<A: Allocator + Copy>(
    alloc: A,
    text: &str,
    width: usize,
    buffer: &mut [u8],
    ends: &mut [usize],
) -> (usize, usize)
    requires paragraph { paragraph text.now ≡ text.now }
    requires bare { IsFalse (has_escape text.now) }
    ensures { AreCopied (wrapped_lines text.now width) result buffer.old buffer.new ends.old
        ends.new }
{
    laws::lines_lose_blanks_and_line_ends();
    copy_texts(wrapped(alloc, text, width), buffer, ends)
}

/// Where each line of the text wrapped at `width` columns begins and ends in the plain text.
pub fn lines(text: &[u8], width: usize, entries: &mut [LineEntry]) -> ListAnswer
    ensures { WritesLines text.now width result entries.old entries.new }
{
    match from_utf8(text) {
        Ok(text) => write_lines(text, width, entries),
        Err(_) => ListAnswer::failed(NOT_UTF8),
    }
}

/// Writes where each line begins and ends, if there is room for all of them.
#[tactic(auto, using(crate::proofs::LineListLemmas::few_entries))]
fn write_lines(text: &str, width: usize, entries: &mut [LineEntry]) -> ListAnswer
    ensures { AreWritten [] (line_entries text.now width) result [] [] entries.old entries.new }
{
    // There is at most one line more than the text has bytes, so they fit if the entries are as many.
    if entries.len() <= text.len() {
        let count = copy_lines(text, width, &mut []);
        if count > entries.len() {
            return ListAnswer {
                status: TOO_SMALL,
                count,
                len: 0,
            };
        }
    }
    let count = copy_lines(text, width, entries);
    ListAnswer {
        status: OK,
        count,
        len: 0,
    }
}

/// Writes where each line begins and ends, as far as there is room. Returns the number of lines.
fn copy_lines(text: &str, width: usize, entries: &mut [LineEntry]) -> usize
    ensures count { result ≡ length (line_entries text.now width) }
    ensures entries { length (line_entries text.now width) ≤ length entries.old →
        entries.new ≡ line_entries text.now width
        ++ drop (length (line_entries text.now width)) entries.old }
{
    let mut count = 0;
    for line in Lines::new(text, width) {
        let (start, end) = line;
        count = put(&[LineEntry { start, end }], count, entries);
    }
    count
}

/// Begins a walk over the lines of the text wrapped at `width` columns.
pub fn lines_begin<'a>(text: &'a [u8], width: usize, walk: &mut LineWalk<'a>) -> Answer
    ensures { BeginsLines text.now width result walk.old walk.new }
{
    let Ok(text) = from_utf8(text) else {
        return Answer::failed(NOT_UTF8);
    };
    *walk = walk_lines(text, width);
    Answer::done(0)
}

/// Takes the next line off a walk: where it begins and ends in the plain text.
pub fn lines_next(walk: &mut LineWalk<'_>, line: &mut LineEntry) -> Answer
    requires { IsLineWalk walk.old }
    ensures walk { IsLineWalk walk.new }
    ensures next { GivesNextLine walk.old walk.new line.old line.new result }
{
    match next_line(walk) {
        Some((start, end)) => {
            *line = LineEntry { start, end };
            Answer::done(0)
        }
        None => Answer::failed(NO),
    }
}
