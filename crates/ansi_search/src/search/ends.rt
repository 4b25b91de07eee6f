//! What a plain text ends with.
ghost use Rattle.std.specs.Prelude.{◌≡◌, ◌+◌, ◌-◌, ◌<◌, ◌≤◌, MatchOption, drop, length};
ghost use Rattle.std.specs.Prelude.{nat_eq, IsTrue, IsFalse};
ghost use Rattle.std.specs.List.{ends_with};
ghost use Rattle.std.specs.Str.{IsCharBoundary, trim_end};
ghost use Rattle.ansi_items.specs.Plain.{plain};
ghost use Rattle.ansi_search.specs.Offsets.{StandsIn, BeginsItem, IsEnd, IsLastRun, IsSurelyPlain};
ghost use Rattle.ansi_search.specs.Offsets.{goes_on};

use crate::search::offsets::offset_at;
use crate::search::prefix::starts_with;
use ansi_items::ESC;
use ansi_items::ansitok::{Kind, Scanner};
use memchr::{memrchr, memrchr2};

/// The byte that may end an operating system command.
const BEL: u8 = 0x07;

/// Whether the plain text ends with the pattern. (std.)
///
/// The pattern is compared across sequences. Doesn't allocate.
pub fn ends_with(text: &str, pat: &str) -> bool
    ensures { result ≡ ends_with nat_eq (plain text.now) pat.now }
{
    suffix_offset(text, pat).is_some()
}

/// The offset in the text at which a suffix of the plain text begins, or `None` if the plain text
/// doesn't end with it. (std.)
///
/// Reads the text from its end. Doesn't allocate.
pub fn suffix_offset(text: &str, pat: &str) -> Option<usize>
    ensures { MatchOption result (IsFalse (ends_with nat_eq (plain text.now) pat.now))
        (λ i. IsTrue (ends_with nat_eq (plain text.now) pat.now)
        × StandsIn text.now (length (plain text.now) - length pat.now) i) }
{
    let (start, len) = plain_end(text, pat.len());
    let place = len.checked_sub(pat.len())?;
    let offset = start + offset_at(&text[start..], place)?;
    if !starts_with(&text[offset..], pat) {
        return None;
    }
    Some(offset)
}

/// The offset in the text right after the last character of the plain text that isn't white space,
/// or 0 if there is no such character. (std's `trim_end`, on the plain text.)
///
/// Reads the text from its end. Doesn't allocate.
pub fn end_before_white_space(text: &str) -> usize
    ensures end { IsEnd text.now result }
    ensures white { length (trim_end (plain text.now)) + length (plain (drop result text.now))
        ≡ length (plain text.now) }
{
    let mut start = text.len();
    while 0 < start {
        start = item_before(text, start);
        let end = solid_end(&text[start..]);
        if 0 < end {
            return start + end;
        }
    }
    0
}

/// The same, by a walk over all items.
fn solid_end(text: &str) -> usize
    ensures end { IsEnd text.now result }
    ensures white { length (trim_end (plain text.now)) + length (plain (drop result text.now))
        ≡ length (plain text.now) }
    ensures some { 0 < result → 0 < length (trim_end (plain text.now)) }
{
    let mut end = 0;
    for item in Scanner::new(text) {
        if item.kind == Kind::Text {
            let run = &text[item.start..item.end];
            let front = run.trim_end();
            if !front.is_empty() {
                end = item.start + front.len();
            }
        }
    }
    end
}

/// A text of at most this many bytes is read by one walk.
const SHORT: usize = 128;

/// Where the last run of text begins and ends. Only sequences are after it. If the plain text is
/// empty, there is no run, and both offsets are the same. Of a long run it may be only an end that
/// has at least `wanted` bytes.
///
/// Reads the text from its end. Doesn't allocate.
pub fn last_run(text: &str, wanted: usize) -> (usize, usize)
    ensures ordered { result.0 ≤ result.1 }
    ensures within { result.1 ≤ length text.now }
    ensures run { result.0 < result.1 → IsLastRun text.now result.0 result.1 }
    ensures some { 0 < length (plain text.now) → result.0 < result.1 }
{
    if SHORT < text.len() {
        let last = before_going_on(text.as_bytes(), text.len().saturating_sub(wanted.max(1)));
        if is_surely_plain(text, last) {
            return (last, text.len());
        }
    }
    let mut start = text.len();
    while 0 < start {
        start = item_before(text, start);
        let (from, to) = last_item(&text[start..]);
        if from < to {
            return (start + from, start + to);
        }
    }
    (0, 0)
}

/// The same, by a walk over all items.
fn last_item(text: &str) -> (usize, usize)
    ensures ordered { result.0 ≤ result.1 }
    ensures within { result.1 ≤ length text.now }
    ensures run { result.0 < result.1 → IsLastRun text.now result.0 result.1 }
    ensures some { 0 < length (plain text.now) → result.0 < result.1 }
{
    let mut run = (0, 0);
    for item in Scanner::new(text) {
        if item.kind == Kind::Text {
            run = (item.start, item.end);
        }
    }
    run
}

/// An end of the text that has at least `wanted` plain bytes, or all of the text if it has fewer:
/// where it begins, and how long its plain text is.
fn plain_end(text: &str, wanted: usize) -> (usize, usize)
    ensures end { IsEnd text.now result.0 }
    ensures len { result.1 ≡ length (plain (drop result.0 text.now)) }
    ensures enough { result.1 < wanted → result.0 ≡ 0 }
{
    let last = before_going_on(text.as_bytes(), text.len().saturating_sub(wanted));
    if is_surely_plain(text, last) {
        return (last, text.len() - last);
    }
    let mut start = text.len();
    let mut len = 0;
    while len < wanted && 0 < start {
        let end = start;
        start = item_before(text, end);
        len += plain_len(&text[start..end]);
    }
    (start, len)
}

/// Whether the text from an offset on is plain, as it alone and the byte before it tell. Only a
/// control string goes on after any byte, and it has an ESC or a BEL at its end.
fn is_surely_plain(text: &str, start: usize) -> bool
    requires { start ≤ length text.now }
    ensures { IsTrue result → IsSurelyPlain text.now start }
{
    let bytes = text.as_bytes();
    if 0 < start && goes_on(bytes[start - 1]) {
        return false;
    }
    text.is_char_boundary(start) && memrchr2(ESC, BEL, &bytes[start..]).is_none()
}

/// Goes back from an offset over bytes that may be in a sequence, 64 at most.
fn before_going_on(bytes: &[u8], end: usize) -> usize
    requires { end ≤ length bytes.now }
    ensures { result ≤ end }
{
    let last = &bytes[end.saturating_sub(64)..end];
    end - last.iter().rev().take_while(|b| goes_on(**b)).count()
}

/// Whether a control sequence or an escape sequence may have this byte before its last one.
fn goes_on(byte: u8) -> bool
    ensures { result ≡ goes_on byte }
{
    matches!(byte, ESC | b'[' | 0x20..=0x3F)
}

/// An offset before `end` at which surely an item begins: that of an ESC that no `\` follows, since
/// it can't be in a sequence, or 0.
///
/// It is the last one that is at least as far before `end` as the end of the text is after it, so
/// that few steps lead from the end to any place, and at least 128 bytes, so that a short text
/// takes one step.
fn item_before(text: &str, end: usize) -> usize
    requires { end ≤ length text.now }
    ensures bound { result ≤ end }
    ensures before { 0 < end → result < end }
    ensures begins { 0 < result → BeginsItem (drop result text.now) }
    ensures boundary { IsCharBoundary text.now result }
{
    let bytes = text.as_bytes();
    let read = (bytes.len() - end).max(SHORT);
    let mut unread = end.saturating_sub(read);
    while let Some(escape) = memrchr(ESC, &bytes[..unread]) {
        if bytes.get(escape + 1) != Some(&b'\\') {
            return escape;
        }
        unread = escape;
    }
    0
}

/// How long the plain text is.
fn plain_len(text: &str) -> usize
    ensures { result ≡ length (plain text.now) }
{
    let mut len = 0;
    for item in Scanner::new(text) {
        if item.kind == Kind::Text {
            len += item.end - item.start;
        }
    }
    len
}
