//! A search for a pattern in a plain text that reads each run once, in order. (Crochemore and
//! Perrin, Two-way string-matching, 1991.)
ghost use Rattle.std.specs.Prelude.{◌≡◌, ◌≢◌, ℕ, List, ◌+◌, ◌-◌, ◌<◌, ◌≤◌, ◌^◌, length, take, drop};
ghost use Rattle.std.specs.Prelude.{nat_eq, slice_index};
ghost use Rattle.std.specs.List.{starts_with};
ghost use Rattle.std.specs.Str.{IsUtf8};
ghost use Rattle.memchr.specs.Find.{OccursAt};
ghost use Rattle.ansi_items.specs.Plain.{plain};
ghost use Rattle.ansi_search.specs.Searches.{IsCut, IsPoint, IsReached, IsMismatch, IsWindow};
ghost use Rattle.ansi_search.specs.Searches.{IsRunResult, StandsNowhere, LacksRareByte};

use crate::search::critical::{CriticalCut, critical_cut};
use crate::search::prefix::continues_with;
use ansi_items::ansitok::{Kind, Scanner};
use memchr::arch::all::packedpair::Pair;
use memchr::memchr;

/// A pattern, and where it is cut. The bytes after the cut are compared first, then those before
/// it.
#[derive(Drop)]
pub(super) struct Pattern<'p> {
    bytes: &'p [u8],
    cut: CriticalCut,
    // the place of a byte that is rare in most texts, up to the cut
    rare: usize,
    ghost is_cut: { IsCut bytes.now cut },
    ghost rare_within: { rare ≤ cut.at },
}

/// A place of a text: an offset, and the position of the plain text there.
#[derive(Clone, Copy)]
pub(super) struct Point {
    pub(super) offset: usize,
    pub(super) position: usize,
}

/// How far a search has come in a text: a match may begin at `position`, and the pattern's bytes
/// from `low` up to `met` agree with the plain text there.
#[derive(Clone, Copy)]
pub(super) struct Window {
    position: usize,
    low: usize,
    met: usize,
    // a place that isn't past the position
    point: Point,
    // The rare byte doesn't occur before this offset of the text, counted from where it would be in
    // a match at the position.
    next: usize,
}

/// What a run showed.
pub(super) enum RunResult {
    /// A match begins at this position of the plain text and ends in the run.
    Match(usize),
    /// No match ends in the run.
    NoMatchYet(Window),
}

impl<'p> Pattern<'p> {
    /// A pattern that isn't empty.
    pub(super) fn new(pat: &'p str) -> Self
        requires { 0 < length pat.now }
        ensures { result.bytes.now ≡ pat.entry.now }
    {
        let bytes = pat.as_bytes();
        let cut = critical_cut(bytes);
        let rare = rare_place(&bytes[..=cut.at]);
        Pattern { bytes, cut, rare }
    }

    /// The byte that is searched for first.
    pub(super) fn rare_byte(&self) -> u8
        ensures { result ≡ slice_index self.now.bytes.now self.now.rare }
    {
        self.bytes[self.rare]
    }

    /// The window in which a search from a position on begins. The rare byte doesn't occur in the
    /// text before the offset `next`.
    pub(super) fn first_window(&self, position: usize, next: usize) -> Window
        ensures comes { (t : List ℕ) → IsUtf8 t → position ≤ length t →
            IsWindow t self.now.bytes.now self.now.cut.at position result }
        ensures next { result.next ≡ next }
    {
        let point = Point {
            offset: 0,
            position: 0,
        };
        self.window_at(position, point, next)
    }

    /// A window in which no byte is compared yet.
    #[inline(always)]
    fn window_at(&self, position: usize, point: Point, next: usize) -> Window
        ensures comes { (t : List ℕ) (start : ℕ) → IsReached t self.now.bytes.now start position →
            IsPoint t point position → IsWindow t self.now.bytes.now self.now.cut.at start result }
        ensures position { result.position ≡ position }
        ensures met { result.met ≡ self.now.cut.at }
        ensures next { result.next ≡ next }
    {
        let at = self.cut.at;
        Window {
            position,
            low: at,
            met: at,
            point,
            next,
        }
    }

    /// Reads a run of a text that begins at `here`. The search has come up to there.
    #[inline(always)]
    pub(super) fn read(&self, text: &str, run: &[u8], here: Point, window: Window) -> RunResult
        requires run { OccursAt (plain text.now) run.now here.position }
        requires bytes { OccursAt text.now run.now here.offset }
        requires comes { IsWindow text.now self.now.bytes.now self.now.cut.at window.position
            window }
        requires here { IsPoint text.now here here.position }
        requires place { here.position ≤ window.position + window.met }
        requires ahead { LacksRareByte text.now self.now.bytes.now self.now.rare here window }
        ensures { IsRunResult text.now self.now.bytes.now self.now.cut.at self.now.rare
            window.position here (here.position + length run.now) result }
    {
        let end = here.position + run.len();
        let mut window = window;
        while window.position + window.met < end {
            let at = window.position + window.met - here.position;
            if run[at] != self.bytes[window.met] {
                window = self.after_mismatch(text, run, here, window);
            } else if window.met + 1 < self.bytes.len() {
                window.met += 1;
            } else {
                if window.low == 0 {
                    return RunResult::Match(window.position);
                }
                window.point = point_before(text, window.point, window.position, here.position);
                if self.front_matches(text, run, here.position, window) {
                    return RunResult::Match(window.position);
                }
                window = self.after_front(window);
            }
        }
        RunResult::NoMatchYet(window)
    }

    /// The window after one with a mismatch. It is moved to the next occurrence of the rare byte in
    /// the run, if there is one.
    #[inline(always)]
    fn after_mismatch(&self, text: &str, run: &[u8], here: Point, window: Window) -> Window
        requires run { OccursAt (plain text.now) run.now here.position }
        requires bytes { OccursAt text.now run.now here.offset }
        requires comes { IsWindow text.now self.now.bytes.now self.now.cut.at window.position
            window }
        requires here { IsPoint text.now here here.position }
        requires place { here.position ≤ window.position + window.met }
        requires inside { window.position + window.met < here.position + length run.now }
        requires other { slice_index run.now (window.position + window.met - here.position)
            ≢ slice_index self.now.bytes.now window.met }
        requires ahead { LacksRareByte text.now self.now.bytes.now self.now.rare here window }
        ensures comes { IsWindow text.now self.now.bytes.now self.now.cut.at window.position
            result }
        ensures past { window.position < result.position }
        ensures forward { window.position + window.met < result.position + result.met }
        ensures ahead { LacksRareByte text.now self.now.bytes.now self.now.rare here result }
    {
        let position = window.position + (window.met - self.cut.at) + 1;
        let place = position + self.rare;
        if place < here.position {
            return self.window_at(position, window.point, window.next);
        }
        let from = here.offset + (place - here.position);
        let next = next_of(self.rare_byte(), text.as_bytes(), from, window.next);
        let passed = next.min(here.offset + run.len()) - from;
        let begin = position + passed;
        let point = last_point(window.point, here, begin);
        self.window_at(begin, point, next)
    }

    /// Whether the bytes before the cut agree with the plain text too. Those after it do, and end
    /// in the run.
    fn front_matches(&self, text: &str, run: &[u8], place: usize, window: Window) -> bool
        requires run { OccursAt (plain text.now) run.now place }
        requires point { IsPoint text.now window.point window.position }
        requires fits { window.position + length self.now.bytes.now ≤ place + length run.now }
        ensures { result ≡ starts_with nat_eq (drop window.position (plain text.now))
            (take self.now.cut.at self.now.bytes.now) }
    {
        let front = &self.bytes[..self.cut.at];
        if place <= window.position {
            return run[window.position - place..].starts_with(front);
        }
        let rest = &text[window.point.offset..];
        continues_with(rest, front, window.position - window.point.position)
    }

    /// The window after one in which the bytes after the cut agree but those before it don't.
    fn after_front(&self, window: Window) -> Window
        requires fits { window.position + length self.now.bytes.now < 2 ^ 64 }
        ensures past { window.position < result.position }
        ensures forward { window.position + length self.now.bytes.now
            ≤ result.position + result.met }
        ensures comes { (t : List ℕ) (start : ℕ) →
            IsMismatch t self.now.bytes.now self.now.cut.at start window →
            IsWindow t self.now.bytes.now self.now.cut.at start result }
        ensures next { result.next ≡ window.next }
    {
        let position = window.position + self.cut.shift;
        if !self.cut.repeats {
            return self.window_at(position, window.point, window.next);
        }
        Window {
            position,
            low: 0,
            met: self.bytes.len() - self.cut.shift,
            point: window.point,
            next: window.next,
        }
    }
}

/// The start of the run that has a position, found from a place that isn't past it. It is that
/// place if the position isn't before `end`.
fn point_before(text: &str, point: Point, position: usize, end: usize) -> Point
    requires { IsPoint text.now point position }
    ensures { IsPoint text.now result position }
{
    if end <= position {
        return point;
    }
    let mut place = point.position;
    for item in Scanner::new(&text[point.offset..]) {
        if item.kind == Kind::Text {
            let len = item.end - item.start;
            if position - place < len {
                return Point {
                    offset: point.offset + item.start,
                    position: place,
                };
            }
            place += len;
        }
    }
    point
}

/// The second of two places if it isn't past a position, else the first.
#[inline(always)]
fn last_point(point: Point, here: Point, position: usize) -> Point
    ensures { (t : List ℕ) → IsPoint t point position → IsPoint t here here.position →
        IsPoint t result position }
{
    if position < here.position {
        return point;
    }
    here
}

/// The place of a byte that is rare in most texts, by the ranks of `memchr`.
pub(super) fn rare_place(bytes: &[u8]) -> usize
    requires { 0 < length bytes.now }
    ensures { result < length bytes.now }
{
    Pair::new(bytes).map_or(0, |pair| pair.index1() as usize)
}

/// Where a byte occurs next, from an offset on, or the end of the text. It doesn't occur before the
/// offset `next`.
#[inline(always)]
fn next_of(byte: u8, bytes: &[u8], from: usize, next: usize) -> usize
    requires within { from ≤ length bytes.now }
    requires known { StandsNowhere byte bytes.now from next }
    ensures forward { from ≤ result }
    ensures passed { StandsNowhere byte bytes.now from result }
{
    if from <= next {
        return next;
    }
    match memchr(byte, &bytes[from..]) {
        Some(distance) => from + distance,
        None => bytes.len(),
    }
}
