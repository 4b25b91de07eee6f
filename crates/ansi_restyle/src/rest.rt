//! What is left of a text.
ghost use Rattle.std.specs.Prelude.{◌≡◌, ◌<◌, ◌-◌, take, drop, length, IfSome, IsFalse, IsTrue};
ghost use Rattle.std.specs.Option.{MatchOption};
ghost use Rattle.std.specs.Str.{IsCharBoundary};
ghost use Rattle.ansi_items.specs.Plain.{plain, has_escape};
ghost use Rattle.ansi_search.specs.Matches.{first_match_from};
ghost use Rattle.ansi_search.specs.Positions.{is_char_boundary, no_character_goes_on};
ghost use Rattle.ansi_style.specs.Reading.{style_within};
ghost use Rattle.ansi_style.specs.States.{rendition_of};
ghost use Rattle.ansi_restyle.specs.Replaced.{place_after};
ghost use Rattle.ansi_restyle.specs.Rests.{is_range_left, IsDivided};

use crate::replace::place_of;
use ansi_items::ansitok::{Kind, Scanner};
use ansi_search::search;
use ansi_style::state::Style;

/// What is left of a text, and how many bytes at its front are known to be plain. So if many
/// positions are in a run, its end isn't searched for at each of them.
#[derive(Drop)]
pub(crate) struct Rest<'t> {
    pub(crate) text: &'t str,
    pub(crate) run_len: usize,
    ghost run_ends: { IsCharBoundary text.now run_len },
    ghost run_is_plain: { IsFalse (has_escape (take run_len text.now)) },
}

/// A text in two.
#[derive(Drop)]
pub(crate) struct Divided<'t> {
    /// The text before the position, with every sequence up to there.
    pub(crate) front: &'t str,
    pub(crate) rest: Rest<'t>,
}

impl<'t> Rest<'t> {
    /// All of the text.
    pub(crate) fn new(text: &'t str) -> Self
        ensures { result.text.now ≡ text.entry.now }
    {
        let run_len = first_run_len(text);
        Rest { text, run_len }
    }

    /// The first match of the pattern that doesn't begin before `from`, as a position of what is
    /// left.
    pub(crate) fn find(&self, pat: &str, from: usize) -> Option<usize>
        ensures { result ≡ first_match_from (plain self.now.text.now) pat.now from }
    {
        let (run, after) = self.text.split_at(self.run_len);
        if let Some(place) = search::first_in_run(run, pat, from) {
            return Some(place);
        }
        // the run is all of the text, and only an empty pattern matches at its end
        if after.is_empty() && !pat.is_empty() {
            return None;
        }
        search::find_from(self.text, pat, from)
    }

    /// The text in two at a position of what is left, or `None` if the position isn't good. A
    /// position past the end counts as the end.
    pub(crate) fn divide(&self, position: usize) -> Option<Divided<'t>>
        ensures { MatchOption result
            (IsFalse (no_character_goes_on (plain self.now.text.now) position)) (λ d.
            IsDivided self.now.text.now position d.front.now d.rest.text.now) }
    {
        if position < self.run_len {
            return self.divide_run(position);
        }
        let Some(offset) = search::offset_at(self.text, position) else {
            return None;
        };
        Some(divide_at(self.text, offset))
    }

    /// The same. Every SGR up to there changes the style.
    pub(crate) fn split_at(&self, style: &mut Style, position: usize) -> Option<Divided<'t>>
        ensures divided { MatchOption result
            (IsFalse (no_character_goes_on (plain self.now.text.now) position)) (λ d.
            IsDivided self.now.text.now position d.front.now d.rest.text.now) }
        ensures style { IfSome result (λ _. rendition_of style.new
            ≡ style_within (rendition_of style.old) self.now.text.now position) }
    {
        if position < self.run_len {
            return self.divide_run(position);
        }
        let Some(offset) = search::walk_to(style, self.text, position) else {
            return None;
        };
        Some(divide_at(self.text, offset))
    }

    /// The text in two at a position in the run at its front, or `None` if the position isn't good.
    #[inline(always)]
    fn divide_run(&self, position: usize) -> Option<Divided<'t>>
        requires { position < self.now.run_len }
        ensures { MatchOption result
            (IsFalse (no_character_goes_on (plain self.now.text.now) position)) (λ d.
            IsDivided self.now.text.now position d.front.now d.rest.text.now) }
    {
        if !self.text.is_char_boundary(position) {
            return None;
        }
        let (front, text) = self.text.split_at(position);
        let run_len = self.run_len - position;
        let rest = Rest { text, run_len };
        Some(Divided { front, rest })
    }

    /// The text in two where another text is put after this many plain bytes.
    pub(crate) fn split_at_place(&self, position: usize) -> (&'t str, Rest<'t>)
        requires { IsTrue (is_char_boundary (plain self.now.text.now) position) }
        ensures front { result.0.now
            ≡ take (place_after position self.now.text.now) self.now.text.now }
        ensures rest { result.1.text.now
            ≡ drop (place_after position self.now.text.now) self.now.text.now }
    {
        if position <= self.run_len {
            let (front, text) = self.text.split_at(position);
            let run_len = self.run_len - position;
            return (front, Rest { text, run_len });
        }
        let (front, text) = self.text.split_at(place_of(self.text, position).offset);
        (front, Rest::new(text))
    }

    /// What is left after a range, if it begins at `place` of a plain text. `None` if the range begins
    /// before `place`, or ends before it begins, or if it isn't from a character to another.
    pub(crate) fn after_range(&self, place: usize, range: (usize, usize)) -> Option<Rest<'t>>
        ensures { MatchOption result
            (IsFalse (is_range_left (plain self.now.text.now) place range)) (λ rest.
            IsTrue (is_range_left (plain self.now.text.now) place range)
            × (plain rest.text.now ≡ drop (range.1 - place) (plain self.now.text.now))) }
    {
        let (start, end) = range;
        if start < place || end < start {
            return None;
        }
        let Some(at_start) = self.divide(start - place) else {
            return None;
        };
        let Some(at_end) = at_start.rest.divide(end - start) else {
            return None;
        };
        Some(at_end.rest)
    }
}

/// The text in two at an offset.
fn divide_at(text: &str, offset: usize) -> Divided<'_>
    requires { IsCharBoundary text.now offset }
    ensures front { result.front.now ≡ take offset text.now }
    ensures rest { result.rest.text.now ≡ drop offset text.now }
{
    let (front, text) = text.split_at(offset);
    let rest = Rest::new(text);
    Divided { front, rest }
}

/// How long the run at the front of a text is.
fn first_run_len(text: &str) -> usize
    ensures ends { IsCharBoundary text.now result }
    ensures plain { IsFalse (has_escape (take result text.now)) }
{
    match Scanner::new(text).next() {
        Some(item) if item.kind == Kind::Text => item.end,
        _ => 0,
    }
}
