//! Where a pattern occurs in a plain text. A match may run across sequences.
ghost use Rattle.std.specs.Prelude.{◌≡◌, ◌<◌, ◌≤◌, ◌+◌, ◌^◌, [], length, None, Some, MatchOption};
ghost use Rattle.std.specs.Prelude.{IfSome, IsTrue, slice_index};
ghost use Rattle.std.specs.Str.Pattern.{FindsText, MatchBeginsAt};
ghost use Rattle.memchr.specs.Find.{IsFirst, FindsNeedle};
ghost use Rattle.ansi_items.specs.Plain.{plain};
ghost use Rattle.ansi_search.specs.Positions.{is_good_range};
ghost use Rattle.ansi_search.specs.Matches.{is_match, first_match_from};

use crate::search::two_way::{Pattern, Point, RunResult, rare_place};
use ansi_items::ESC;
use ansi_items::ansitok::{Kind, Scanner};
use memchr::memchr;
use memchr::memmem::Finder;
use std::mem;

/// Like `AnsiStr::ansi_find`, on a `&str`.
pub fn find(text: &str, pat: &str) -> Option<usize>
    ensures first { MatchOption result (FindsText pat.now (plain text.now) None)
        (MatchBeginsAt (FindsText pat.now) (plain text.now)) }
    ensures good { IfSome result (λ i.
        IsTrue (is_good_range (plain text.now) i (Some (i + length pat.now)))) }
    ensures good_before { IfSome result (λ i. IsTrue (is_good_range (plain text.now) 0 (Some i))) }
    ensures good_after { IfSome result (λ i.
        IsTrue (is_good_range (plain text.now) (i + length pat.now) None)) }
    ensures fits { IfSome result (λ i. i + length pat.now < 2 ^ 64) }
{
    find_from(text, pat, 0)
}

/// The first match of the pattern in the plain text that doesn't begin before `from`, if there is
/// one: the least character boundary of the plain text, at or past `from`, at which the pattern
/// occurs.
///
/// A match may run across sequences. An empty pattern occurs at each character boundary. A
/// pattern with an ESC occurs nowhere. Positions count bytes of the plain text. Doesn't allocate.
///
/// A text without ESC is searched as a whole. Any other text is read once, and a second time where
/// the beginning of the pattern may occur. So a search takes time in proportion to the text and the
/// pattern.
pub fn find_from(text: &str, pat: &str, from: usize) -> Option<usize>
    ensures { result ≡ first_match_from (plain text.now) pat.now from }
{
    if pat.is_empty() {
        return boundary_from(text, from);
    }
    if text.len() < pat.len() {
        return None;
    }
    match memchr(ESC, text.as_bytes()) {
        Some(_) => find_across(text, pat, from),
        None => first_in_run(text, pat, from),
    }
}

/// The first character boundary of the plain text at or past `from`, if there is one.
fn boundary_from(text: &str, from: usize) -> Option<usize>
    ensures { result ≡ first_match_from (plain text.now) [] from }
{
    let mut place = 0;
    for item in Scanner::new(text) {
        if item.kind == Kind::Text {
            let run = &text[item.start..item.end];
            if let Some(start) = first_in_run(run, "", from.saturating_sub(place)) {
                return Some(place + start);
            }
            place += run.len();
        }
    }
    if from <= place { Some(place) } else { None }
}

/// The first match at or past `from` that begins in the run and ends in it.
#[inline(always)]
pub fn first_in_run(run: &str, pat: &str, from: usize) -> Option<usize>
    ensures { IsFirst (λ i. IsTrue (is_match run.now pat.now i)) from (length run.now) result }
{
    if pat.is_empty() {
        let start = run.ceil_char_boundary(from);
        return (start < run.len()).then_some(start);
    }
    let rest = run.as_bytes().get(from..)?;
    if rest.len() < pat.len() {
        return None;
    }
    Some(from + find_bytes(rest, pat.as_bytes())?)
}

/// Where the bytes of a pattern that isn't empty first occur in those of a run.
#[inline(always)]
fn find_bytes(run: &[u8], pat: &[u8]) -> Option<usize>
    ensures { FindsNeedle run.now pat.now 0 result }
{
    match pat {
        [byte] => memchr(*byte, run),
        _ => find_several(run, pat),
    }
}

/// The longest run in which a pattern is compared wherever its first byte is. A `Finder` is quicker in a
/// longer one, but has more to prepare.
const SHORT_RUN: usize = 32;

/// The same for several bytes. (Not inlined, so that a search for one byte keeps its registers.)
#[inline(never)]
fn find_several(run: &[u8], pat: &[u8]) -> Option<usize>
    ensures { FindsNeedle run.now pat.now 0 result }
{
    match pat {
        [first, ..] if run.len() <= SHORT_RUN => find_from_first(run, *first, pat),
        _ => {
            let finder = Finder::new(pat);
            let found = finder.find(run);
            // (it owns nothing; a drop would need `Global`, which a module of WebAssembly lacks)
            mem::forget(finder);
            found
        }
    }
}

/// The same by a search for the pattern's first byte.
fn find_from_first(run: &[u8], first: u8, pat: &[u8]) -> Option<usize>
    requires some { 0 < length pat.now }
    requires first { slice_index pat.now 0 ≡ first }
    ensures { FindsNeedle run.now pat.now 0 result }
{
    let mut at = 0;
    'places: while let Some(distance) = memchr(first, &run[at..]) {
        at += distance;
        if run[at..].starts_with(pat) {
            return Some(at);
        }
        at += 1;
    }
    None
}

/// Like [`find_from`], by a walk over the items, for a pattern that isn't empty.
fn find_across(text: &str, pat: &str, from: usize) -> Option<usize>
    requires some { 0 < length pat.now }
    ensures { result ≡ first_match_from (plain text.now) pat.now from }
{
    if text.len() < from {
        return None;
    }
    let rare = pat.as_bytes()[rare_place(pat.as_bytes())];
    let first = memchr(rare, text.as_bytes())?;
    let pattern = Pattern::new(pat);
    let next = if pattern.rare_byte() == rare {
        first
    } else {
        memchr(pattern.rare_byte(), text.as_bytes())?
    };
    let mut place = 0;
    let mut window = pattern.first_window(from, next);
    for item in Scanner::new(text) {
        if item.kind == Kind::Text {
            let run = text[item.start..item.end].as_bytes();
            let here = Point {
                offset: item.start,
                position: place,
            };
            match pattern.read(text, run, here, window) {
                RunResult::Match(position) => return Some(position),
                RunResult::NoMatchYet(further) => window = further,
            }
            place += run.len();
        }
    }
    None
}
