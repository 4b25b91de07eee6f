//! Where a pattern occurs in a plain text.
ghost use Rattle.std.specs.Prelude.{◌≡◌, ◌≤◌, ◌+◌, Some, length, IfSome, IsTrue};
ghost use Rattle.ansi_items.specs.Plain.{plain};
ghost use Rattle.ansi_search.specs.Matches.{first_match_from};
ghost use Rattle.ansi_search.specs.Positions.{is_good_range};
ghost use Rattle.ansi_restyle.specs.Matches.{matches};
ghost use Rattle.ansi_restyle.specs.Ranges.{are_in_turn};

use crate::rest::Rest;
use ansi_search::search;
use std::marker::Model;

/// The matches of a pattern in a text, in order, as pairs of positions: where each begins and ends,
/// in bytes of the plain text.
///
/// After the last match `next` always returns `None`.
#[derive(Drop)]
pub struct Matches<'t, 'p> {
    /// The last match and what follows it.
    rest: Rest<'t>,
    pat: &'p str,
    /// Where `rest` begins.
    position: usize,
    /// The least place in `rest` at which the next match may begin.
    from: usize,
}

impl<'t, 'p> Model for Matches<'t, 'p> {
    ghost use Rattle.std.specs.Prelude.{ℕ, List, ◌+◌, ◌<◌, ◌^◌, length};
    ghost use Rattle.ansi_items.specs.Plain.{plain};
    ghost use Rattle.ansi_restyle.specs.Matches.{matches_left};

    ghost Value = { List (ℕ × ℕ) };

    ghost view = { λ s. matches_left s.position (plain s.rest.text.now) s.pat.now s.from };

    ghost invariant = { λ s. s.position + length (plain s.rest.text.now) < 2 ^ 64 };
}

impl<'t, 'p> Matches<'t, 'p> {
    /// Like `AnsiRestyle::ansi_matches`, for a text and a pattern that live for different times.
    ///
    /// ```
    /// let mut matches = Matches::new("a\x1b[1mba\x1b[0mb", "ab");
    /// assert!(rt; matches.next() == Some((0, 2)));
    /// assert!(rt; matches.next() == Some((2, 4)));
    /// assert!(rt; matches.next() == None);
    /// ```
    pub fn new(text: &'t str, pat: &'p str) -> Matches<'t, 'p>
        ensures matches { result ≡ matches (plain text.now) pat.now }
        ensures in_turn { IsTrue (are_in_turn (plain text.now) 0 result) }
        ensures len { length result ≤ length (plain text.now) + 1 }
    {
        Matches {
            rest: Rest::new(text),
            pat,
            position: 0,
            from: 0,
        }
    }
}

impl<'t, 'p> Iterator for Matches<'t, 'p> {
    ghost use Rattle.std.specs.Iterator.{YieldsFirst, item_count};

    type Item = (usize, usize);

    ghost next_gives = { YieldsFirst (λ s. s) };

    ghost remaining = { item_count (λ s. s) };

    fn next(&mut self) -> Option<(usize, usize)> {
        let Some(place) = self.rest.find(self.pat, self.from) else {
            return None;
        };
        self.rest = self.rest.divide(place).unwrap().rest;
        self.position += place;
        self.from = self.pat.len().max(1);
        Some((self.position, self.position + self.pat.len()))
    }
}

/// Like `AnsiRestyle::ansi_find_from`.
pub fn find_from(text: &str, position: usize, pat: &str) -> Option<usize>
    ensures first { result ≡ first_match_from (plain text.now) pat.now position }
    ensures good { IfSome result (λ i.
        IsTrue (is_good_range (plain text.now) i (Some (i + length pat.now)))) }
{
    search::find_from(text, pat, position)
}
