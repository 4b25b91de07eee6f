//! What is left of a text in which the matches of a pattern are marked.
ghost use Rattle.std.specs.Prelude.{◌≡◌, ℕ, List, ◌++◌, ◌<◌, ◌≤◌, ◌+◌, length, take, drop, None};
ghost use Rattle.std.specs.Prelude.{IsFalse, IsTrue};
ghost use Rattle.std.specs.Option.{MatchOption};
ghost use Rattle.std.specs.Str.{IsCharBoundary};
ghost use Rattle.memchr.specs.Find.{Nowhere, OccursAt};
ghost use Rattle.ansi_items.specs.Plain.{plain};
ghost use Rattle.ansi_search.specs.Matches.{is_match, first_match_from};
ghost use Rattle.ansi_style.specs.States.{rendition_of};
ghost use Rattle.ansi_restyle.specs.Rests.{IsAtMatch, IsAtMatchPast, IsNextPlace};

use crate::rest::Rest;
use ansi_items::ansitok::{Kind, Scanner};
use ansi_search::search;
use ansi_style::state::Style;
use ansi_style::styles;
use memchr::memchr;
use memchr::memmem::Finder;

/// What is left of a text in which the matches of a pattern that isn't empty are marked.
#[derive(Drop)]
pub(crate) struct Unmarked<'t, 'p> {
    pub(crate) rest: Rest<'t>,
    pub(crate) pat: &'p str,
    /// The pattern's bytes occur nowhere in what is left before this offset, in sequences neither.
    /// So they are searched for once, and not in each run.
    seen: usize,
    ghost seen_within: { seen ≤ length rest.text.now },
    ghost is_seen: { Nowhere (OccursAt rest.text.now pat.now) 0 seen },
}

/// What is before the first match, with every sequence up to there, and the match and all that
/// follows.
#[derive(Drop)]
pub(crate) struct AtMatch<'t, 'p> {
    pub(crate) front: &'t str,
    pub(crate) rest: Unmarked<'t, 'p>,
}

impl<'t, 'p> Unmarked<'t, 'p> {
    /// This rest of a text, of which nothing was seen.
    pub(crate) fn new(rest: Rest<'t>, pat: &'p str) -> Self
        ensures text { result.rest.text.now ≡ rest.entry.text.now }
        ensures pat { result.pat.now ≡ pat.entry.now }
    {
        let seen = 0;
        Unmarked { rest, pat, seen }
    }

    /// The text in two at the first match, or `None` if there is none. The finder is one of the
    /// pattern. Every SGR up to the match changes the style.
    pub(crate) fn cut(&self, finder: &Finder<'_>, style: &mut Style) -> Option<AtMatch<'t, 'p>>
        requires some { 0 < length self.now.pat.now }
        requires finder { finder.now ≡ self.now.pat.now }
        ensures { MatchOption result
            (first_match_from (plain self.now.rest.text.now) self.now.pat.now 0 ≡ None) (λ at.
            (at.rest.pat.now ≡ self.now.pat.now) × IsAtMatch self.now.rest.text.now
            self.now.pat.now at.front.now at.rest.rest.text.now (rendition_of style.old)
            (rendition_of style.new)) }
    {
        let text = self.rest.text;
        let run_len = self.rest.run_len;
        let pattern = self.pat.as_bytes();
        let near = place_from(text.as_bytes(), self.seen, finder);
        if near < run_len && pattern.len() <= run_len - near {
            let (front, text) = text.split_at(near);
            let run_len = run_len - near;
            let rest = Unmarked::new(Rest { text, run_len }, self.pat);
            return Some(AtMatch { front, rest });
        }
        cut_from(text, self.pat, finder, near, style)
    }

    /// What is left after this many bytes, which is `rest`.
    pub(crate) fn after(&self, len: usize, rest: Rest<'t>) -> Self
        requires within { len ≤ length self.now.rest.text.now }
        requires rest { rest.text.now ≡ drop len self.now.rest.text.now }
        ensures text { result.rest.text.now ≡ rest.entry.text.now }
        ensures pat { result.pat.now ≡ self.now.pat.now }
    {
        Unmarked {
            rest,
            pat: self.pat,
            seen: self.seen.saturating_sub(len),
        }
    }
}

/// The text in two at the first match, or `None` if there is none, by a walk over the items. The
/// pattern's bytes occur next at `near`.
fn cut_from<'t, 'p>(
    text: &'t str,
    pat: &'p str,
    finder: &Finder<'_>,
    mut near: usize,
    style: &mut Style,
) -> Option<AtMatch<'t, 'p>>
    requires some { 0 < length pat.now }
    requires finder { finder.now ≡ pat.now }
    requires near { IsNextPlace text.now pat.now 0 near }
    ensures { MatchOption result (first_match_from (plain text.now) pat.now 0 ≡ None) (λ at.
        (at.rest.pat.now ≡ pat.now) × IsAtMatch text.now pat.now at.front.now
        at.rest.rest.text.now (rendition_of style.old) (rendition_of style.new)) }
{
    for item in Scanner::new(text) {
        let piece = &text[item.start..item.end];
        match item.kind {
            Kind::Text => {
                near = next_place(text.as_bytes(), item.start, near, finder);
                if near < item.end && pat.len() <= item.end - near {
                    let (front, text) = text.split_at(near);
                    let run_len = item.end - near;
                    let rest = Unmarked::new(Rest { text, run_len }, pat);
                    return Some(AtMatch { front, rest });
                }
                if item.end == text.len() {
                    // Nothing follows in which a match could go on.
                    return None;
                }
                if may_go_on(piece, pat) {
                    return cut_across(text, item.start, near, pat, style);
                }
            }
            Kind::Sgr => styles::apply(style, piece),
            Kind::Other | Kind::Lone => {}
        }
    }
    None
}

/// The same, if no match begins before an offset where a run begins. The pattern's bytes occur next
/// at `near`.
#[inline(never)]
fn cut_across<'t, 'p>(
    text: &'t str,
    start: usize,
    near: usize,
    pat: &'p str,
    style: &mut Style,
) -> Option<AtMatch<'t, 'p>>
    requires some { 0 < length pat.now }
    requires start { IsCharBoundary text.now start }
    requires near { IsNextPlace text.now pat.now start near }
    ensures { MatchOption result
        (first_match_from (plain (drop start text.now)) pat.now 0 ≡ None) (λ at.
        (at.rest.pat.now ≡ pat.now) × IsAtMatchPast text.now pat.now start at.front.now
        at.rest.rest.text.now (rendition_of style.old) (rendition_of style.new)) }
{
    let left = &text[start..];
    let Some(place) = search::find_from(left, pat, 0) else {
        return None;
    };
    let offset = start + search::walk_to(style, left, place).unwrap();
    let (front, text) = text.split_at(offset);
    let rest = Unmarked {
        rest: Rest::new(text),
        pat,
        seen: near.saturating_sub(offset),
    };
    Some(AtMatch { front, rest })
}

/// Where the pattern's bytes occur next in those of a text, from an offset on, or the text's length.
/// The answer before was `near`, from there on or from an earlier offset.
#[inline(always)]
fn next_place(text: &[u8], from: usize, near: usize, finder: &Finder<'_>) -> usize
    requires within { from ≤ length text.now }
    requires near { IsNextPlace text.now finder.now from near }
    ensures next { IsNextPlace text.now finder.now from result }
    ensures low { from ≤ result }
{
    if from <= near {
        return near;
    }
    place_from(text, from, finder)
}

/// The same, without an answer before.
fn place_from(text: &[u8], from: usize, finder: &Finder<'_>) -> usize
    requires within { from ≤ length text.now }
    ensures next { IsNextPlace text.now finder.now from result }
    ensures low { from ≤ result }
{
    match finder.find(&text[from..]) {
        Some(distance) => from + distance,
        None => text.len(),
    }
}

/// Whether a match may begin in a run and go on after it. `false` is sure, `true` isn't: only the
/// first place at which too few bytes follow for a match, and the byte is the pattern's first, is
/// compared.
#[inline(always)]
fn may_go_on(run: &str, pat: &str) -> bool
    ensures { IsFalse result → (y : List ℕ) (i : ℕ) → i < length run.now →
        IsTrue (is_match (run.now ++ y) pat.now i) → i + length pat.now ≤ length run.now }
{
    let pattern = pat.as_bytes();
    let Some(&first) = pattern.first() else {
        return false;
    };
    let bytes = run.as_bytes();
    let tail = &bytes[(bytes.len() + 1).saturating_sub(pattern.len())..];
    let Some(place) = memchr(first, tail) else {
        return false;
    };
    pattern.starts_with(&tail[place..]) || memchr(first, &tail[place + 1..]).is_some()
}
