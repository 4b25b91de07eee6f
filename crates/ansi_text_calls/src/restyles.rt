//! Calls on matches and on ranges: where a pattern occurs, which range is refused, parts of a text in
//! another style, and a text without a part or with another text in its place.
ghost use Rattle.std.specs.Prelude.{◌≡◌, ◌≤◌, ◌+◌, ◌++◌, [], length, drop};
ghost use Rattle.std.specs.Prelude.{IfOk, IsOk};
ghost use Rattle.ansi_items.specs.Plain.{plain};
ghost use Rattle.ansi_text_calls.specs.Lists.{AreWritten};
ghost use Rattle.ansi_text_calls.specs.Restyles.{match_entries, WritesMatches, ranges_of};
ghost use Rattle.ansi_text_calls.specs.Restyles.{Restyles, GivesRestyled, FindsRefused, TellsRefused};
ghost use Rattle.ansi_text_calls.specs.Restyles.{Marks, GivesMarked};
ghost use Rattle.ansi_text_calls.specs.Restyles.{Removes, GivesRemoved};
ghost use Rattle.ansi_text_calls.specs.Restyles.{Replaces, GivesReplaced, Inserts, GivesInserted};
ghost use Rattle.ansi_text_calls.specs.Restyles.{ReplacesAll, GivesReplacedAll};

use crate::answers::{
    Answer, NO, NOT_UTF8, OK, OUT_OF_MEMORY, REFUSED, TOO_SMALL, write_found, write_text,
};
use crate::lists::{ListAnswer, put};
use ansi_restyle::matches::Matches;
use ansi_restyle::remove::remove_in;
use ansi_restyle::replace::{insert_in, replace_in};
use ansi_restyle::replace_all::replace_all_in;
use ansi_restyle::restyle::{mark_in, restyle_in};
use ansi_safe::utf8::from_utf8;
use std::alloc::{AllocError, Allocator};

/// A range of a plain text: where it begins and ends, in bytes.
#[repr(C)]
#[derive(Clone, Copy)]
pub struct RangeEntry {
    pub start: usize,
    pub end: usize,
}

/// Where each match of a pattern begins and ends in the plain text.
pub fn matches(text: &[u8], pattern: &[u8], entries: &mut [RangeEntry]) -> ListAnswer
    ensures { WritesMatches text.now pattern.now result entries.old entries.new }
{
    let Ok(text) = from_utf8(text) else {
        return ListAnswer::failed(NOT_UTF8);
    };
    match from_utf8(pattern) {
        Ok(pat) => write_matches(text, pat, entries),
        Err(_) => ListAnswer::failed(NOT_UTF8),
    }
}

/// Writes where each match begins and ends, if there is room for all of them.
fn write_matches(text: &str, pat: &str, entries: &mut [RangeEntry]) -> ListAnswer
    ensures { AreWritten [] (match_entries text.now pat.now) result [] [] entries.old entries.new }
{
    let count = copy_matches(text, pat, &mut []);
    if count > entries.len() {
        return ListAnswer {
            status: TOO_SMALL,
            count,
            len: 0,
        };
    }
    copy_matches(text, pat, entries);
    ListAnswer {
        status: OK,
        count,
        len: 0,
    }
}

/// Writes where each match begins and ends, as far as there is room. Returns the number of matches.
fn copy_matches(text: &str, pat: &str, entries: &mut [RangeEntry]) -> usize
    ensures count { result ≡ length (match_entries text.now pat.now) }
    ensures entries { length (match_entries text.now pat.now) ≤ length entries.old →
        entries.new ≡ match_entries text.now pat.now
        ++ drop (length (match_entries text.now pat.now)) entries.old }
{
    let mut count = 0;
    for range in Matches::new(text, pat) {
        let (start, end) = range;
        count = put(&[RangeEntry { start, end }], count, entries);
    }
    count
}

/// The text with SGR codes applied to each character in the ranges. The call is refused if they
/// aren't codes, or the ranges aren't in turn.
pub fn restyle<A: Allocator + Copy>(
    alloc: A,
    text: &[u8],
    entries: &[RangeEntry],
    codes: &[u8],
    buffer: &mut [u8],
) -> Answer
    ensures { Restyles text.now entries.now codes.now result buffer.old buffer.new }
{
    let Ok(text) = from_utf8(text) else {
        return Answer::failed(NOT_UTF8);
    };
    match from_utf8(codes) {
        Ok(codes) => restyle_text(alloc, text, entries, codes, buffer),
        Err(_) => Answer::failed(NOT_UTF8),
    }
}

/// The same for texts that are known to be UTF-8.
#[tactic(auto, unfolding(crate::specs::Restyles::GivesRestyled))]
fn restyle_text<A: Allocator + Copy>(
    alloc: A,
    text: &str,
    entries: &[RangeEntry],
    codes: &str,
    buffer: &mut [u8],
) -> Answer
    ensures { GivesRestyled text.now (ranges_of entries.now) codes.now result buffer.old
        buffer.new }
{
    match ranges_of(alloc, entries) {
        Ok(ranges) => {
            let restyled = restyle_in(alloc, text, ranges.as_slice(), codes);
            write_found(restyled, REFUSED, buffer)
        }
        Err(_) => Answer::failed(OUT_OF_MEMORY),
    }
}

/// The ranges of entries. Doesn't allocate if there is none.
fn ranges_of<A: Allocator>(
    alloc: A,
    entries: &[RangeEntry],
) -> Result<Vec<(usize, usize), A>, AllocError>
    ensures ranges { IfOk result (λ v. v.items ≡ ranges_of entries.now) }
    ensures takes_no_memory { entries.now ≡ [] → IsOk result }
{
    let mut ranges = Vec::new(alloc);
    for entry in entries {
        ranges.push((entry.start, entry.end))?;
    }
    Ok(ranges)
}

/// The index of the first range that `restyle` and `replace_each` refuse.
pub fn refused_range<A: Allocator>(alloc: A, text: &[u8], entries: &[RangeEntry]) -> Answer
    ensures { FindsRefused text.now entries.now result }
{
    let Ok(text) = from_utf8(text) else {
        return Answer::failed(NOT_UTF8);
    };
    match ranges_of(alloc, entries) {
        Ok(ranges) => first_refused(text, ranges.as_slice()),
        Err(_) => Answer::failed(OUT_OF_MEMORY),
    }
}

/// The same for a text that is known to be UTF-8, and pairs.
fn first_refused(text: &str, ranges: &[(usize, usize)]) -> Answer
    ensures { TellsRefused (plain text.now) ranges.now result }
{
    match ansi_restyle::restyle::refused_range(text, ranges) {
        Some(index) => Answer::done(index),
        None => Answer::failed(NO),
    }
}

/// The text with SGR codes applied to each match of a pattern. The call is refused if they aren't
/// codes.
pub fn mark<A: Allocator + Copy>(
    alloc: A,
    text: &[u8],
    pattern: &[u8],
    codes: &[u8],
    buffer: &mut [u8],
) -> Answer
    ensures { Marks text.now pattern.now codes.now result buffer.old buffer.new }
{
    let Ok(text) = from_utf8(text) else {
        return Answer::failed(NOT_UTF8);
    };
    let Ok(pat) = from_utf8(pattern) else {
        return Answer::failed(NOT_UTF8);
    };
    match from_utf8(codes) {
        Ok(codes) => mark_text(alloc, text, pat, codes, buffer),
        Err(_) => Answer::failed(NOT_UTF8),
    }
}

/// The same for texts that are known to be UTF-8.
#[tactic(auto, unfolding(crate::specs::Restyles::GivesMarked))]
fn mark_text<A: Allocator + Copy>(
    alloc: A,
    text: &str,
    pat: &str,
    codes: &str,
    buffer: &mut [u8],
) -> Answer
    ensures { GivesMarked text.now pat.now codes.now result buffer.old buffer.new }
{
    write_found(mark_in(alloc, text, pat, codes), REFUSED, buffer)
}

/// The text without its plain bytes from one position up to another. The call is refused if that is
/// no range of it.
pub fn remove<A: Allocator>(
    alloc: A,
    text: &[u8],
    start: usize,
    end: usize,
    buffer: &mut [u8],
) -> Answer
    ensures { Removes text.now start end result buffer.old buffer.new }
{
    match from_utf8(text) {
        Ok(text) => remove_text(alloc, text, start, end, buffer),
        Err(_) => Answer::failed(NOT_UTF8),
    }
}

/// The same for a text that is known to be UTF-8.
#[tactic(auto, unfolding(crate::specs::Restyles::GivesRemoved))]
fn remove_text<A: Allocator>(
    alloc: A,
    text: &str,
    start: usize,
    end: usize,
    buffer: &mut [u8],
) -> Answer
    ensures { GivesRemoved text.now start end result buffer.old buffer.new }
{
    write_found(remove_in(alloc, text, (start, end)), REFUSED, buffer)
}

/// The text with another text in place of its plain bytes from one position up to another. The call
/// is refused if that is no range of it.
pub fn replace<A: Allocator>(
    alloc: A,
    text: &[u8],
    start: usize,
    end: usize,
    with: &[u8],
    buffer: &mut [u8],
) -> Answer
    ensures { Replaces text.now start end with.now result buffer.old buffer.new }
{
    let Ok(text) = from_utf8(text) else {
        return Answer::failed(NOT_UTF8);
    };
    match from_utf8(with) {
        Ok(with) => replace_text(alloc, text, start, end, with, buffer),
        Err(_) => Answer::failed(NOT_UTF8),
    }
}

/// The same for texts that are known to be UTF-8.
#[tactic(auto, unfolding(crate::specs::Restyles::GivesReplaced))]
fn replace_text<A: Allocator>(
    alloc: A,
    text: &str,
    start: usize,
    end: usize,
    with: &str,
    buffer: &mut [u8],
) -> Answer
    ensures { GivesReplaced text.now start end with.now result buffer.old buffer.new }
{
    write_found(replace_in(alloc, text, (start, end), with), REFUSED, buffer)
}

/// The text with another text put in at a position. The call is refused if that is no character
/// boundary of its plain text.
pub fn insert<A: Allocator>(
    alloc: A,
    text: &[u8],
    position: usize,
    with: &[u8],
    buffer: &mut [u8],
) -> Answer
    ensures { Inserts text.now position with.now result buffer.old buffer.new }
{
    let Ok(text) = from_utf8(text) else {
        return Answer::failed(NOT_UTF8);
    };
    match from_utf8(with) {
        Ok(with) => insert_text(alloc, text, position, with, buffer),
        Err(_) => Answer::failed(NOT_UTF8),
    }
}

/// The same for texts that are known to be UTF-8.
#[tactic(auto, unfolding(crate::specs::Restyles::GivesInserted))]
fn insert_text<A: Allocator>(
    alloc: A,
    text: &str,
    position: usize,
    with: &str,
    buffer: &mut [u8],
) -> Answer
    ensures { GivesInserted text.now position with.now result buffer.old buffer.new }
{
    write_found(insert_in(alloc, text, position, with), REFUSED, buffer)
}

/// The text with another text in place of each match of a pattern.
pub fn replace_all<A: Allocator>(
    alloc: A,
    text: &[u8],
    pattern: &[u8],
    with: &[u8],
    buffer: &mut [u8],
) -> Answer
    ensures { ReplacesAll text.now pattern.now with.now result buffer.old buffer.new }
{
    let Ok(text) = from_utf8(text) else {
        return Answer::failed(NOT_UTF8);
    };
    let Ok(pat) = from_utf8(pattern) else {
        return Answer::failed(NOT_UTF8);
    };
    match from_utf8(with) {
        Ok(with) => replace_all_text(alloc, text, pat, with, buffer),
        Err(_) => Answer::failed(NOT_UTF8),
    }
}

/// The same for texts that are known to be UTF-8.
#[tactic(auto, unfolding(crate::specs::Restyles::GivesReplacedAll))]
fn replace_all_text<A: Allocator>(
    alloc: A,
    text: &str,
    pat: &str,
    with: &str,
    buffer: &mut [u8],
) -> Answer
    ensures { GivesReplacedAll text.now pat.now with.now result buffer.old buffer.new }
{
    write_text(replace_all_in(alloc, text, pat, with), buffer)
}
