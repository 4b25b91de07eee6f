//! What is allowed in a safe text.
ghost use Rattle.std.specs.Prelude.{◌≡◌, ◌≤◌, ◌++◌, ◌∷◌, [], length, MatchOption, chars};
ghost use Rattle.std.specs.Prelude.{encode_utf8, slice_range};
ghost use Rattle.std.specs.Str.{IsCharBoundary};
ghost use Rattle.ansi_items.specs.Scans.{kind_of, piece_of, piece_of_kind};
ghost use Rattle.ansi_safe.specs.Safe.{is_printing, is_allowed, all_allowed, is_clean_link};
ghost use Rattle.ansi_safe.specs.Safe.{may_stay};

use crate::front::{ByteSet, front_len, split_ordinary};
use crate::links::{is_short_link, terminator_len};
use crate::policy::Links;
use ansi_items::ansitok::{Item, Kind};

/// Whether an item of the text may stay.
#[inline(always)]
pub(crate) fn item_may_stay(text: &str, item: &Item, links: Links) -> bool
    requires start { IsCharBoundary text.now item.now.start }
    requires end { IsCharBoundary text.now item.now.end }
    requires ordered { item.now.start ≤ item.now.end }
    requires kind { item.now.kind ≡ kind_of (piece_of text.now item.now) }
    ensures { result ≡ may_stay links (piece_of text.now item.now) }
{
    match item.kind {
        Kind::Text => run_is_allowed(text, item.start, item.end),
        Kind::Sgr => true,
        kind => may_stay(kind, &text[item.start..item.end], links),
    }
}

/// Whether an item of this kind may stay.
#[inline(always)]
pub(crate) fn may_stay(kind: Kind, piece: &str, links: Links) -> bool
    requires { kind ≡ kind_of (piece_of_kind kind piece.now) }
    ensures { result ≡ may_stay links (piece_of_kind kind piece.now) }
{
    match kind {
        Kind::Text => all_allowed(piece),
        Kind::Sgr => true,
        Kind::Other => links == Links::Keep && is_clean_link(piece.as_bytes()),
        Kind::Lone => false,
    }
}

/// Whether this is a short link sequence whose bytes are printable ASCII.
fn is_clean_link(sequence: &[u8]) -> bool
    ensures { result ≡ is_clean_link sequence.now }
{
    if !is_short_link(sequence) {
        return false;
    }
    let end = sequence.len() - terminator_len(sequence);
    let inside = &sequence[2..end];
    inside.iter().all(|b| matches!(*b, 0x20..=0x7E))
}

/// Whether each character of the run from `start` up to `end` is allowed where it is. What follows it
/// may be looked at too, so that a short run is read 16 bytes at a time as well.
fn run_is_allowed(text: &str, start: usize, end: usize) -> bool
    requires start { IsCharBoundary text.now start }
    requires end { IsCharBoundary text.now end }
    requires ordered { start ≤ end }
    ensures { result ≡ all_allowed (chars (slice_range text.now start end)) }
{
    let run = &text[start..end];
    let onward = &text.as_bytes()[start..];
    let ordinary = front_len(onward, ByteSet::Ordinary { white: true }).min(run.len());
    ordinary == run.len() || rest_is_allowed(&run[ordinary..])
}

/// Whether each character of the run is allowed where it is. Out of line, so that `may_stay` is small
/// enough for its callers.
#[inline(never)]
fn all_allowed(run: &str) -> bool
    ensures { result ≡ all_allowed (chars run.now) }
{
    rest_is_allowed(after_ordinary(run))
}

/// Whether each character of what is left of a run is allowed where it is. It is quicker than
/// `all_allowed` if the first character isn't an ordinary one.
#[inline(never)]
pub(crate) fn rest_is_allowed(rest: &str) -> bool
    ensures { result ≡ all_allowed (chars rest.now) }
{
    let mut left = rest;
    while let Some((c, after)) = split_first(left) {
        if !is_allowed(c, after) {
            return false;
        }
        left = after_ordinary(after);
    }
    true
}

/// A run without the ordinary characters that it begins with, which are allowed anywhere.
#[inline(always)]
fn after_ordinary(run: &str) -> &str
    ensures decides { all_allowed (chars run.now) ≡ all_allowed (chars result.now) }
    ensures shorter { length (chars result.now) ≤ length (chars run.now) }
{
    split_ordinary(run, true).1
}

/// The first character of a text, and the text after it.
pub(crate) fn split_first(text: &str) -> Option<(char, &str)>
    ensures { MatchOption result (chars text.now ≡ []) (λ (first, after).
        (text.now ≡ encode_utf8 first ++ after.now)
        × (chars text.now ≡ first ∷ chars after.now)) }
{
    let mut chars = text.chars();
    let first = chars.next()?;
    Some((first, chars.as_str()))
}

/// Whether the character is allowed in a run, in front of this text.
pub(crate) fn is_allowed(c: char, after: &str) -> bool
    ensures { result ≡ is_allowed c (chars after.now) }
{
    match c {
        '\t' | '\n' => true,
        '\r' => matches!(split_first(after), Some(('\n', _))),
        _ => is_printing(c),
    }
}

/// Whether the character is neither a control character nor a bidirectional control.
#[inline]
pub(crate) fn is_printing(c: char) -> bool
    ensures { result ≡ is_printing c }
{
    !matches!(c, '\0'..='\u{1F}' | '\u{7F}'..='\u{9F}' | '\u{202A}'..='\u{202E}' | '\u{2066}'..='\u{2069}')
}
