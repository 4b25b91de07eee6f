//! What is left of a text that is split.
ghost use Rattle.std.specs.Prelude.{◌≡◌, ℕ, List, ◌++◌, ◌<◌, ◌≤◌, ◌+◌, length, take, drop, None};
ghost use Rattle.std.specs.Prelude.{Some, IsFalse, IsTrue, MatchResult};
ghost use Rattle.std.specs.Option.{MatchOption};
ghost use Rattle.std.specs.Str.{IsCharBoundary};
ghost use Rattle.ansi_items.specs.Plain.{plain, has_escape};
ghost use Rattle.ansi_search.specs.Matches.{is_match, first_match_from};
ghost use Rattle.ansi_style.specs.Reading.{style_after_from};
ghost use Rattle.ansi_style.specs.States.{rendition_of};
ghost use Rattle.ansi_split.specs.Spans.{IsCutAtMatch};

use ansi_items::ESC;
use ansi_items::ansitok::{Kind, Scanner};
use ansi_search::search;
use ansi_style::state::Style;
use ansi_style::styles;
use memchr::memchr;

/// A text in two at the first match of a pattern.
#[derive(Drop)]
pub(super) struct MatchSplit<'t> {
    /// The text before the match, with every sequence up to there. Without a match it is all of the
    /// text.
    pub(super) front: &'t str,
    /// Whether the front has an ESC.
    pub(super) is_marked: bool,
    /// The match and all that follows.
    pub(super) rest: Option<Rest<'t>>,
}

/// What is left of a text, and how many bytes at its front are known to be plain. So if a run has
/// many matches, its end isn't searched for at each of them.
#[derive(Clone, Copy)]
pub(crate) struct Rest<'t> {
    text: &'t str,
    run_len: usize,
    ghost run_ends: { IsCharBoundary text.now run_len },
    ghost run_is_plain: { IsFalse (has_escape (take run_len text.now)) },
}

impl<'t> Rest<'t> {
    /// All of the text. Its bytes before the first ESC are known to be plain.
    pub(super) fn new(text: &'t str) -> Self
        ensures { result.text.now ≡ text.entry.now }
    {
        let run_len = memchr(ESC, text.as_bytes()).unwrap_or(text.len());
        Rest { text, run_len }
    }

    /// The text. Its first `run` bytes are known to be plain.
    pub(crate) fn with_run(text: &'t str, run_len: usize) -> Self
        requires ends { IsCharBoundary text.now run_len }
        requires plain { IsFalse (has_escape (take run_len text.now)) }
        ensures { result.text.now ≡ text.entry.now }
    {
        Rest { text, run_len }
    }

    pub(crate) fn text(&self) -> &'t str
        ensures { result.now ≡ self.now.text.now }
    {
        self.text
    }

    /// How many bytes at the front are known to be plain.
    pub(crate) fn run_len(&self) -> usize
        ensures ends { IsCharBoundary self.now.text.now result }
        ensures plain { IsFalse (has_escape (take result self.now.text.now)) }
    {
        self.run_len
    }

    /// Whether all of the text is known to be plain.
    pub(super) fn is_run(&self) -> bool
        ensures { IsTrue result → self.now.run_len ≡ length self.now.text.now }
    {
        self.run_len == self.text.len()
    }

    /// The front of the run that ends where the first match begins that doesn't begin before `from`,
    /// and the rest. `Err` means that no such match begins in the run; it gives the place from which
    /// one is still to be searched for.
    #[inline(always)]
    pub(super) fn cut_in_run(&self, pat: &str, from: usize) -> Result<(&'t str, Rest<'t>), usize>
        ensures { MatchResult result
            (λ cut. IsCutAtMatch self.now.text.now pat.now from cut.0.now cut.1.text.now
            × IsFalse (has_escape cut.0.now))
            (λ later. (from ≤ later) × (self.now.run_len ≤ later) × (first_match_from (plain self.now.text.now) pat.now later
            ≡ first_match_from (plain self.now.text.now) pat.now from)) }
    {
        let start = next_start(self.text, self.run_len, pat, from);
        if self.run_len <= start {
            return Err(start);
        }
        let (front, text) = self.text.split_at(start);
        let run_len = self.run_len - start;
        Ok((front, Rest { text, run_len }))
    }

    /// The text in two at the first match that doesn't begin before `from`. `style` is the style
    /// before the front, and becomes that after it.
    #[inline(always)]
    pub(super) fn cut_at_match(&self, pat: &str, from: usize, style: &mut Style) -> MatchSplit<'t>
        ensures rest { MatchOption result.rest
            ((first_match_from (plain self.now.text.now) pat.now from ≡ None)
            × (result.front.now ≡ self.now.text.now))
            (λ rest. IsCutAtMatch self.now.text.now pat.now from result.front.now rest.text.now) }
        ensures marked { result.is_marked ≡ has_escape result.front.now }
        ensures style { rendition_of style.new
            ≡ style_after_from (rendition_of style.old) result.front.now }
    {
        match self.cut_in_run(pat, from) {
            Ok((front, rest)) => MatchSplit {
                front,
                is_marked: false,
                rest: Some(rest),
            },
            Err(start) => cut_from(self.text, pat, from, start, style),
        }
    }
}

/// The same, by a walk over the items. No match begins before `ahead`.
#[inline(always)]
fn cut_from<'t>(
    text: &'t str,
    pat: &str,
    from: usize,
    mut ahead: usize,
    style: &mut Style,
) -> MatchSplit<'t>
    requires { first_match_from (plain text.now) pat.now ahead
        ≡ first_match_from (plain text.now) pat.now from }
    ensures rest { MatchOption result.rest
        ((first_match_from (plain text.now) pat.now from ≡ None) × (result.front.now ≡ text.now))
        (λ rest. IsCutAtMatch text.now pat.now from result.front.now rest.text.now) }
    ensures marked { result.is_marked ≡ has_escape result.front.now }
    ensures style { rendition_of style.new
        ≡ style_after_from (rendition_of style.old) result.front.now }
{
    let mut is_marked = false;
    // `ahead` counts plain bytes of what is left.
    for item in Scanner::new(text) {
        let piece = &text[item.start..item.end];
        match item.kind {
            Kind::Text => {
                ahead = next_start(&text[item.start..], piece.len(), pat, ahead);
                if ahead < piece.len() {
                    let offset = item.start + ahead;
                    let (front, rest) = text.split_at(offset);
                    let run_len = item.end - offset;
                    return MatchSplit {
                        front,
                        is_marked,
                        rest: Some(Rest {
                            text: rest,
                            run_len,
                        }),
                    };
                }
                ahead -= piece.len();
            }
            Kind::Sgr => {
                styles::apply(style, piece);
                is_marked = true;
            }
            Kind::Other | Kind::Lone => is_marked = true,
        }
    }
    // Only the empty pattern occurs at the end.
    let rest = if pat.is_empty() && ahead == 0 {
        Some(Rest::new(""))
    } else {
        None
    };
    MatchSplit {
        front: text,
        is_marked,
        rest,
    }
}

/// The place from which the first match that doesn't begin before `from` is still to be searched
/// for, after a search of the run at the front of a text. If that place is in the run, the match
/// begins there.
#[inline(always)]
fn next_start(text: &str, run_len: usize, pat: &str, from: usize) -> usize
    requires ends { IsCharBoundary text.now run_len }
    requires plain { IsFalse (has_escape (take run_len text.now)) }
    ensures later { from ≤ result }
    ensures same { first_match_from (plain text.now) pat.now result
        ≡ first_match_from (plain text.now) pat.now from }
    ensures here { result < run_len → first_match_from (plain text.now) pat.now from ≡ Some result }
    ensures boundary { result < run_len → IsCharBoundary text.now result }
    ensures cut { result < run_len →
        IsCutAtMatch text.now pat.now from (take result text.now) (drop result text.now) }
{
    if run_len <= from {
        return from;
    }
    let (front, _) = text.split_at(run_len);
    if let Some(start) = search::first_in_run(front, pat, from) {
        return start;
    }
    if may_go_on(front, pat) {
        return search::find_from(text, pat, from).unwrap_or(search::PAST_THE_END);
    }
    run_len
}

/// Whether a match may begin in a run and go on after it: whether the pattern has several bytes, and
/// its first one is one of the last bytes of the run, those that too few bytes follow for a match.
#[inline(always)]
fn may_go_on(run: &str, pat: &str) -> bool
    ensures { IsFalse result → (y : List ℕ) (i : ℕ) → i < length run.now →
        IsTrue (is_match (run.now ++ y) pat.now i) → i + length pat.now ≤ length run.now }
{
    if pat.len() == 1 {
        return false;
    }
    let Some(first) = pat.as_bytes().first() else {
        return false;
    };
    let bytes = run.as_bytes();
    let start = (bytes.len() + 1).saturating_sub(pat.len());
    memchr(*first, &bytes[start..]).is_some()
}
