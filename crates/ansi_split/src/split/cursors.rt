//! Where a split is.
ghost use Rattle.std.specs.Prelude.{◌≤◌, IsTrue};
ghost use Rattle.ansi_items.specs.Plain.{plain};
ghost use Rattle.ansi_search.specs.Positions.{is_char_boundary};

use crate::split::rest::Rest;

/// What is left of a text that is split, without the style there.
#[derive(Clone, Copy)]
pub(crate) struct Cursor<'t> {
    /// The match before and all after it.
    pub(crate) rest: Rest<'t>,
    /// How many plain bytes of `rest` are in no part: those of the match before.
    pub(crate) skip: usize,
    /// The least place in `rest` at which the next match may begin.
    pub(crate) from: usize,
    pub(crate) finished: bool,
    ghost skip_ends: { IsTrue (is_char_boundary (plain rest.text.now) skip) },
    ghost skip_before: { skip ≤ from },
}

impl<'t> Cursor<'t> {
    ghost use Rattle.std.specs.Prelude.{◌≡◌, false, true, ◌∷◌, length, max, IsFalse, IfSome, MatchResult};
    ghost use Rattle.std.specs.Option.{MatchOption};
    ghost use Rattle.ansi_items.specs.Plain.{has_escape};
    ghost use Rattle.ansi_search.specs.Matches.{first_match_from};
    ghost use Rattle.ansi_style.specs.declared.state.rendition.Rendition.{Rendition};
    ghost use Rattle.ansi_split.specs.Spans.{span_part};
    ghost use Rattle.ansi_split.specs.Cursors.{parts_at};

    /// The front of a text.
    pub(super) fn new(text: &'t str) -> Self
        ensures text { result.rest.text.now ≡ text.entry.now }
        ensures skip { result.skip ≡ 0 }
        ensures from { result.from ≡ 0 }
        ensures finished { result.finished ≡ false }
    {
        Cursor {
            rest: Rest::new(text),
            skip: 0,
            from: 0,
            finished: false,
        }
    }

    /// The end of a match, at whose beginning `rest` begins.
    #[inline(always)]
    pub(super) fn after_match(rest: Rest<'t>, pat: &str) -> Self
        requires { IsTrue (is_char_boundary (plain rest.text.now) (length pat.now)) }
        ensures text { result.rest.text.now ≡ rest.entry.text.now }
        ensures skip { result.skip ≡ length pat.now }
        ensures from { result.from ≡ max (length pat.now) 1 }
        ensures finished { result.finished ≡ false }
    {
        Cursor {
            rest,
            skip: pat.len(),
            from: pat.len().max(1),
            finished: false,
        }
    }

    /// The same, with no part left.
    #[inline(always)]
    fn end(&self) -> Self
        ensures { result.finished ≡ true }
    {
        Cursor {
            rest: self.rest,
            skip: self.skip,
            from: self.from,
            finished: true,
        }
    }

    /// The text of the next part, if the part ends in the known plain run. After `None` the same
    /// parts are left, and the next search goes on where this one ended.
    #[inline(always)]
    pub(crate) fn next_in_run(&mut self, pat: &str) -> Option<&'t str>
        ensures plain { IfSome result (λ run. IsFalse (has_escape run.now)) }
        ensures parts { (c : Rendition) → MatchOption result
            (parts_at c self.new pat.now ≡ parts_at c self.old pat.now)
            (λ run. parts_at c self.old pat.now
            ≡ span_part c run.now 0 ∷ parts_at c self.new pat.now) }
    {
        match self.first_in_run(pat) {
            Ok((run, after)) => {
                *self = after;
                Some(run)
            }
            Err(later) => {
                self.from = later;
                None
            }
        }
    }

    /// The same text, and what is left after it. `Err` means that the part doesn't end there; it gives
    /// the place from which the next match is still to be searched for.
    #[inline(always)]
    pub(crate) fn first_in_run(&self, pat: &str) -> Result<(&'t str, Self), usize>
        ensures { MatchResult result
            (λ first. IsFalse (has_escape first.0.now) × ((c : Rendition) →
            parts_at c self.now pat.now ≡ span_part c first.0.now 0 ∷ parts_at c first.1 pat.now))
            (λ later. (self.now.from ≤ later)
            × (first_match_from (plain self.now.rest.text.now) pat.now later
            ≡ first_match_from (plain self.now.rest.text.now) pat.now self.now.from)) }
    {
        if self.finished {
            return Err(self.from);
        }
        match self.rest.cut_in_run(pat, self.from) {
            Ok((front, rest)) => Ok((&front[self.skip..], Cursor::after_match(rest, pat))),
            Err(later) => {
                if pat.is_empty() || !self.rest.is_run() {
                    return Err(later);
                }
                let run = &self.rest.text()[self.skip..];
                Ok((run, self.end()))
            }
        }
    }
}
