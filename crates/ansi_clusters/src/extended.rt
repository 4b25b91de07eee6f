//! Clusters of a letter and characters that extend it and add a known number of columns: letters with
//! accents, and those of Thai.
ghost use Rattle.std.specs.Prelude.{◌≡◌, ◌+◌, ◌^◌, ◌<◌, IfSome};
ghost use Rattle.ansi_clusters.specs.BreakStates.{added_columns, IsWithAdded};

use crate::break_state::BreakState;
use crate::singles::{is_single, single_columns};
use crate::walks::Walk;

impl Walk {
    ghost use Rattle.std.specs.Prelude.{◌≤◌, IfSome};
    ghost use Rattle.ansi_clusters.specs.declared.views.View.{View};
    ghost use Rattle.ansi_clusters.specs.Walks.{IsWalkIn, IsAnyWalk};
    ghost use Rattle.ansi_clusters.specs.Words.{ArePastLetters, IsPastLetter};

    /// The walk after the clusters that come next in the run, of letters with accents and the like, and their
    /// columns, at most `most`.
    #[inline(always)]
    pub(crate) fn past_extended(self, text: &str, most: usize) -> (Walk, usize)
        requires { IsAnyWalk text.now self }
        ensures past { (view : View) → IsWalkIn view text.now self →
            ArePastLetters view text.now self result.0 result.1 }
        ensures most { result.1 ≤ most }
    {
        let mut walk = self;
        let mut columns = 0;
        'clusters: while let Some((later, more)) = walk.next_extended(text) {
            if most - columns < more {
                break;
            }
            walk = later;
            columns += more;
        }
        (walk, columns)
    }

    /// The walk after the next cluster, and its columns, if it is a single character and others that extend it
    /// and add a known number of columns, and a single one follows in the run. A blank isn't passed, nor is
    /// ASCII by itself.
    #[inline(always)]
    fn next_extended(self, text: &str) -> Option<(Walk, usize)>
        requires { IsAnyWalk text.now self }
        ensures { IfSome result (λ (later, columns). (view : View) → IsWalkIn view text.now self →
            IsPastLetter view text.now self later columns) }
    {
        let mut chars = text[self.offset..self.run_end].chars();
        let first = chars.next()?;
        if first == ' ' {
            return None;
        }
        let mut columns = single_columns(first)?;
        let mut len = first.len_utf8();
        let mut break_state = BreakState::after_single(first);
        'added: while let Some(next) = chars.next() {
            let Some(more) = added_columns(next) else {
                if len == 1 || !is_single(next) {
                    return None;
                }
                let later = Walk {
                    position: self.position + len,
                    offset: self.offset + len,
                    run_end: self.run_end,
                    break_state,
                };
                return Some((later, columns));
            };
            columns += more;
            len += next.len_utf8();
            break_state = BreakState::after_added(next);
        }
        None
    }
}

/// The columns that a character adds to a cluster that it extends: none if it is an accent of Latin or Greek, or
/// a Thai vowel or tone above or below a letter; one if it is U+0E33, a Thai vowel. `None` for others.
#[inline(always)]
fn added_columns(c: char) -> Option<usize>
    ensures { result ≡ added_columns c }
{
    match c {
        '\u{300}'..='\u{337}'
        | '\u{339}'..='\u{36F}'
        | '\u{E31}'
        | '\u{E34}'..='\u{E3A}'
        | '\u{E47}'..='\u{E4E}' => Some(0),
        '\u{E33}' => Some(1),
        _ => None,
    }
}

/// The columns of a cluster with one character more, if they are known by those of the cluster.
#[inline(always)]
pub(crate) fn with_added(columns: Option<usize>, c: char) -> Option<usize>
    requires { IfSome columns (λ n. n + 1 < 2 ^ 64) }
    ensures { IfSome result (IsWithAdded columns c) }
{
    Some(columns? + added_columns(c)?)
}
