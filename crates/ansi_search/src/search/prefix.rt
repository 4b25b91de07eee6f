//! What a plain text begins with, and how it continues from a position on.
ghost use Rattle.std.specs.Prelude.{◌≡◌, ◌++◌, ◌+◌, ◌<◌, ◌≤◌, length, take, drop, nat_eq};
ghost use Rattle.std.specs.Prelude.{slice_index};
ghost use Rattle.std.specs.List.{starts_with};
ghost use Rattle.ansi_items.specs.Bytes.{escape};
ghost use Rattle.ansi_items.specs.Plain.{plain};

use ansi_items::ESC;
use ansi_items::ansitok::Scanner;
use memchr::memchr;

/// Whether the plain text begins with the pattern. (std.)
///
/// The pattern is compared across sequences. No run is read past the pattern's end. Doesn't
/// allocate.
pub fn starts_with(text: &str, pat: &str) -> bool
    ensures { result ≡ starts_with nat_eq (plain text.now) pat.now }
{
    let bytes = text.as_bytes();
    let front = &bytes[..pat.len().min(bytes.len())];
    if front.contains(&ESC) {
        return continues_with(text, pat.as_bytes(), 0);
    }
    bytes.starts_with(pat.as_bytes())
}

/// Whether the plain text continues with the pattern from a position on. No run is read past the
/// pattern's end.
pub(super) fn continues_with(text: &str, pat: &[u8], place: usize) -> bool
    ensures { result ≡ starts_with nat_eq (drop place (plain text.now)) pat.now }
{
    let mut before = place;
    let mut wanted = pat;
    let mut rest = text;
    while !wanted.is_empty() {
        if rest.is_empty() {
            return false;
        }
        let (run, after) = run_front(rest, before.saturating_add(wanted.len()));
        let front = &run[before.min(run.len())..];
        if !wanted.starts_with(front) {
            return false;
        }
        wanted = &wanted[front.len()..];
        before = before.saturating_sub(run.len());
        rest = after;
    }
    true
}

/// The run at the front of a text and what follows the mark after it. If no mark begins in the
/// first `most` bytes, it is these bytes alone.
#[inline(always)]
pub(super) fn run_front<'t>(text: &'t str, most: usize) -> (&'t [u8], &'t str)
    ensures front { take most (plain text.now) ≡ take most (result.0.now ++ plain result.1.now) }
    ensures most { length result.0.now ≤ most }
    ensures bytes { take (length result.0.now) text.now ≡ result.0.now }
    ensures all { length result.0.now < most → plain text.now ≡ result.0.now ++ plain result.1.now }
    ensures within { length result.0.now + length result.1.now ≤ length text.now }
    ensures shorter { 0 < length text.now → length result.1.now < length text.now }
{
    let bytes = text.as_bytes();
    if bytes.first() == Some(&ESC) {
        return (&bytes[..0], after_mark(text));
    }
    let front = &bytes[..most.min(bytes.len())];
    match memchr(ESC, front) {
        Some(len) => (&bytes[..len], after_mark(&text[len..])),
        None => (front, ""),
    }
}

/// What follows the mark at the front of a text.
fn after_mark(text: &str) -> &str
    requires some { 0 < length text.now }
    requires begins { slice_index text.now 0 ≡ escape }
    ensures plain { plain result.now ≡ plain text.now }
    ensures shorter { length result.now < length text.now }
{
    match Scanner::new(text).next() {
        Some(mark) => &text[mark.end..],
        None => "",
    }
}
