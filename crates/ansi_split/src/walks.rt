//! Splits that are paused, in memory that isn't Rattle's. They have a module of their own, since
//! `ansi_str` passes `split` on.
ghost use Rattle.std.specs.Prelude.{◌≡◌, ◌↔◌, ◌∷◌, [], None, IsTrue, IsFalse, IfSome, MatchResult};
ghost use Rattle.std.specs.Option.{MatchOption, option_map};
ghost use Rattle.ansi_items.specs.Plain.{has_escape};
ghost use Rattle.ansi_style.specs.Rendition.{has_any};
ghost use Rattle.ansi_style.specs.States.{rendition_of, rendition_of_numbers};
ghost use Rattle.ansi_split.specs.Spans.{span_part, IsRunFirst, IsStretchFirst};
ghost use Rattle.ansi_split.specs.Splits.{split_parts, GivesPart};
ghost use Rattle.ansi_split.specs.Walks.{parts_of_walk, parts_after, renditions_around, IsPartWalk};
ghost use Rattle.ansi_split.specs.Walks.{IsSearchedUpTo};

use crate::split::AnsiSplit;
use crate::split::cursors::Cursor;
use crate::split::rest::Rest;
use crate::split::spans::{PartSpan, PartSpans};
use ansi_style::numbers::StyleNumbers;
use ansi_style::state::Style;
use ansi_style::styles;
use std::alloc::{AllocError, Allocator};
use std::borrow::CowStr;
use std::str::from_utf8_unchecked;

/// What is left of a text that is split, and the style there, as plain data. In contracts it is the
/// list of the parts left, by `parts_of_walk`. (Own.)
#[repr(C)]
#[derive(Clone, Copy)]
pub struct PartWalk<'a> {
    /// The match before and all after it.
    pub(crate) rest: &'a [u8],
    pub(crate) pattern: &'a [u8],
    /// How many bytes at the front of `rest` are known to be plain.
    pub(crate) run_len: usize,
    pub(crate) skip: usize,
    pub(crate) from: usize,
    pub(crate) carried: StyleNumbers,
    pub(crate) finished: bool,
    /// Whether the style that is carried has anything to reset.
    pub(crate) is_styled: bool,
}

impl<'a> PartWalk<'a> {
    /// What is left of its text.
    pub(crate) fn cursor(&self) -> Cursor<'a>
        requires { IsPartWalk self.now }
        ensures text { result.rest.text.now ≡ self.now.rest.now }
        ensures skip { result.skip ≡ self.now.skip }
        ensures from { result.from ≡ self.now.from }
        ensures finished { result.finished ≡ self.now.finished }
    {
        let text = unsafe { from_utf8_unchecked(self.rest) };
        Cursor {
            rest: Rest::with_run(text, self.run_len),
            skip: self.skip,
            from: self.from,
            finished: self.finished,
        }
    }

    /// Its pattern.
    pub(crate) fn pattern(&self) -> &'a str
        requires { IsPartWalk self.now }
        ensures { result.now ≡ self.now.pattern.now }
    {
        unsafe { from_utf8_unchecked(self.pattern) }
    }

    /// The text of the next part, if the part ends in the known plain run. After `None` the same
    /// parts are left.
    #[inline(always)]
    fn next_run(&mut self) -> Option<&'a str>
        requires { IsPartWalk self.old }
        ensures walk { IsPartWalk self.new }
        ensures carried { self.new.carried ≡ self.old.carried }
        ensures plain { IfSome result (λ run. IsFalse (has_escape run.now)) }
        ensures parts { MatchOption result (parts_of_walk self.new ≡ parts_of_walk self.old)
            (λ run. parts_of_walk self.old
            ≡ span_part (rendition_of_numbers self.old.carried) run.now 0 ∷ parts_of_walk self.new) }
    {
        let mut at = self.cursor();
        let run = at.next_in_run(self.pattern());
        self.rest = at.rest.text().as_bytes();
        self.run_len = at.rest.run_len();
        self.skip = at.skip;
        self.from = at.from;
        self.finished = at.finished;
        run
    }
}

/// A part that is a stretch of the text without an ESC, and the style that is written around it. If
/// it is empty, or no style is carried into it, it stays as it is, and there is none. (Own.)
#[derive(Clone, Copy)]
pub struct PartRun<'a> {
    pub text: &'a str,
    pub style: Option<Style>,
}

/// The styles around a part: that before it, which is set in front of it, and that after it, which
/// is reset then if it has anything to reset. (Own.)
#[derive(Clone, Copy)]
pub struct Around {
    pub before: Style,
    pub after: Style,
}

/// A part that is written from one stretch of the text, with its sequences, and the styles around
/// it. A part that is a borrow has none. (Own.)
#[derive(Clone, Copy)]
pub struct PartStretch<'a> {
    pub text: &'a str,
    pub around: Option<Around>,
}

/// A walk that has all parts left. (Own.)
pub fn walk_in<'a>(text: &'a str, pat: &'a str) -> PartWalk<'a>
    ensures walk { IsPartWalk result }
    ensures parts { parts_of_walk result ≡ split_parts text.now pat.now }
{
    PartSpans::new(text, pat).walk()
}

/// Whether a walk has no part left. (Own.)
pub fn is_over(walk: &PartWalk<'_>) -> bool
    ensures { IsTrue result ↔ (parts_of_walk walk.now ≡ []) }
{
    walk.finished
}

/// What a walk has left after a part that ends in the stretch of the text that is known to have no ESC.
/// In contracts, with the walk, it is the list of the parts left, by `parts_after`. (Own.)
#[derive(Clone, Copy)]
pub struct AfterRun<'a> {
    at: Cursor<'a>,
}

/// The first part of a walk, if it ends in the stretch of the text that is known to have no ESC, and
/// what is left after it. `Err` means that it doesn't; it gives the place from which the next match is
/// still to be searched for. Doesn't allocate. (Own.)
#[inline(always)]
pub fn first_run<'a>(walk: &PartWalk<'a>) -> Result<(PartRun<'a>, AfterRun<'a>), usize>
    requires { IsPartWalk walk.now }
    ensures { MatchResult result
        (λ first. IsRunFirst (parts_of_walk walk.now) (option_map rendition_of first.0.style)
        first.0.text.now (parts_after walk.now first.1))
        (λ later. IsSearchedUpTo walk.now later) }
{
    let (text, at) = walk.cursor().first_in_run(walk.pattern())?;
    if text.is_empty() || !walk.is_styled {
        return Ok((PartRun { text, style: None }, AfterRun { at }));
    }
    let style = Some(walk.carried.style());
    Ok((PartRun { text, style }, AfterRun { at }))
}

/// Whether the style that is carried into the next part of a walk has anything to reset. (Own.)
pub fn is_styled(walk: &PartWalk<'_>) -> bool
    requires { IsPartWalk walk.now }
    ensures { result ≡ has_any (rendition_of_numbers walk.now.carried) }
{
    walk.is_styled
}

/// The next part of a walk into which no style is carried, if it ends in the stretch of the text that
/// is known to have no ESC. After an `Err` nothing has changed; it gives the place from which the next
/// match is still to be searched for. Doesn't allocate. (Own.)
#[inline(always)]
pub fn next_bare_in<'a>(walk: &mut PartWalk<'a>) -> Result<&'a str, usize>
    requires walk { IsPartWalk walk.old }
    requires plain { IsFalse (has_any (rendition_of_numbers walk.old.carried)) }
    ensures walk { IsPartWalk walk.new }
    ensures next { MatchResult result
        (λ bare. IsRunFirst (parts_of_walk walk.old) None bare.now (parts_of_walk walk.new))
        (λ later. (walk.new ≡ walk.old) × IsSearchedUpTo walk.old later) }
{
    let (bare, at) = walk.cursor().first_in_run(walk.pattern())?;
    go_on(walk, AfterRun { at });
    Ok(bare)
}

/// Takes the first part off a walk, after which this is left. (Own.)
#[inline(always)]
pub fn go_on<'a>(walk: &mut PartWalk<'a>, after: AfterRun<'a>)
    requires { IsPartWalk walk.old }
    ensures walk { IsPartWalk walk.new }
    ensures parts { parts_of_walk walk.new ≡ parts_after walk.old after.entry }
{
    let at = after.at;
    walk.rest = at.rest.text().as_bytes();
    walk.run_len = at.rest.run_len();
    walk.skip = at.skip;
    walk.from = at.from;
    walk.finished = at.finished;
}

/// The parts that a walk has left, as a split, which searches for the next match from a place on. (Own.)
#[inline(always)]
pub fn split_of_walk<'a, A: Allocator>(
    alloc: A,
    walk: &PartWalk<'a>,
    later: usize,
) -> AnsiSplit<'a, A>
    requires walk { IsPartWalk walk.now }
    requires searched { IsSearchedUpTo walk.now later }
    ensures { result ≡ parts_of_walk walk.now }
{
    let mut searched = *walk;
    searched.from = later;
    AnsiSplit {
        alloc,
        spans: PartSpans::of(&searched),
    }
}

/// A walk that has the parts left that a split has left. (Own.)
#[inline(always)]
pub fn walk_of_split<'a, A: Allocator>(parts: &AnsiSplit<'a, A>) -> PartWalk<'a>
    ensures walk { IsPartWalk result }
    ensures parts { parts_of_walk result ≡ parts.now }
{
    parts.spans.walk()
}

/// The next part that a split returns, if it is written from one stretch of the text. `None` in `Some`
/// means that it isn't, and it is passed. Doesn't allocate. (Own.)
#[inline(always)]
pub fn next_stretch_in<'a, A: Allocator + Copy>(
    parts: &mut AnsiSplit<'a, A>,
) -> Option<Option<PartStretch<'a>>>
    ensures { MatchOption result (parts.old ≡ []) (λ stretch. IfSome stretch (λ s.
        IsStretchFirst parts.old (renditions_around s.around) s.text.now parts.new)) }
{
    if let Some(text) = parts.spans.next_bare() {
        return Some(Some(PartStretch { text, around: None }));
    }
    Some(parts.spans.next()?.stretch())
}

/// The next part that a split returns, if it is written from one stretch of the text. `None` says
/// nothing. Doesn't allocate. (Own.)
#[inline(always)]
pub fn next_marked_in<'a, A: Allocator>(parts: &mut AnsiSplit<'a, A>) -> Option<PartStretch<'a>>
    ensures { IfSome result (λ s. IsStretchFirst parts.old (renditions_around s.around) s.text.now
        parts.new) }
{
    parts.spans.next()?.stretch()
}

/// The next part of a walk, as [`split_in`] returns it. (Own.)
pub fn next_in<'a, A: Allocator + Copy>(
    alloc: A,
    walk: &mut PartWalk<'a>,
) -> Option<Result<CowStr<'a, A>, AllocError>>
    requires { IsPartWalk walk.old }
    ensures walk { IsPartWalk walk.new }
    ensures next { GivesPart (parts_of_walk walk.old) result (parts_of_walk walk.new) }
{
    if let Some(run) = walk.next_run() {
        return match PartSpan::of_run(run, walk.carried.style()).write(alloc) {
            Ok(part) => Some(Ok(part)),
            Err(e) => {
                walk.finished = true;
                Some(Err(e))
            }
        };
    }
    let mut spans = PartSpans::of(walk);
    match spans.next()?.write(alloc) {
        Ok(part) => {
            *walk = spans.walk();
            Some(Ok(part))
        }
        Err(e) => {
            walk.finished = true;
            Some(Err(e))
        }
    }
}
