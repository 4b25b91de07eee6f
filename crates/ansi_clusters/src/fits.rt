//! The longest prefix of a text that fits into a width.
ghost use Rattle.std.specs.Prelude.{ℕ, List, ◌≡◌, ◌-◌, ◌≤◌, nat_le};
ghost use Rattle.ansi_clusters.specs.Columns.{columns, FitsUpTo};
ghost use Rattle.ansi_clusters.specs.Views.{seen_text, seen_len};
ghost use Rattle.ansi_clusters.specs.Walks.{IsWalkIn, IsFitted, SeesUpTo};
ghost use Rattle.ansi_clusters.specs.declared.views.View.{View};

use crate::views::View;
use crate::walks::Walk;

/// A prefix of a text that fits.
#[derive(Clone, Copy)]
pub struct Fitted {
    /// The walk at its end.
    pub walk: Walk,
    /// The columns of the width that it leaves.
    pub left: usize,
}

impl Fitted {
    /// The empty prefix.
    pub fn start(text: &str, width: usize) -> Fitted
        ensures fitted { (view : View) → IsFitted view text.now width result }
        ensures left { result.left ≡ width }
    {
        Fitted {
            walk: Walk::start(text),
            left: width,
        }
    }

    /// The same prefix, in a width that is less by `columns`.
    #[inline(always)]
    pub fn narrowed(self, columns: usize) -> Fitted
        requires { columns ≤ self.left }
        ensures { (view : View) (text : List ℕ) (width : ℕ) → IsFitted view text width self →
            IsFitted view text (width - columns) result }
    {
        Fitted {
            walk: self.walk,
            left: self.left - columns,
        }
    }
}

/// The end of the longest prefix of a text that fits into `width` columns. Characters that aren't seen
/// and follow it belong to it.
pub fn fitting_end(text: &str, width: usize, view: View) -> Walk
    ensures walk { IsWalkIn view text.now result }
    ensures fits { SeesUpTo view text.now width result.position }
{
    let (fitted, _) = longest_from(text, width, view, Fitted::start(text, width));
    fitted.walk.next_seen(text, view).0
}

/// The longest prefix of a text that fits, up to the end of its last cluster, and whether it is all of
/// the text. `from` is a prefix that fits.
#[inline(always)]
pub fn longest_from(text: &str, width: usize, view: View, from: Fitted) -> (Fitted, bool)
    requires { IsFitted view text.now width from }
    ensures fitted { IsFitted view text.now width result.0 }
    ensures fits { FitsUpTo (seen_text view text.now) width
        (seen_len view text.now result.0.walk.position) }
    ensures all { result.1 ≡ nat_le (columns (seen_text view text.now)) width }
{
    let mut fitted = from;
    'clusters: loop {
        let (later, more) = fitted.walk.past_singles(text, fitted.left, view);
        if more > 0 {
            fitted = Fitted {
                walk: later,
                left: fitted.left - more,
            };
            continue;
        }
        let Some((next, columns)) = fitted.walk.read_cluster(text, view) else {
            return (fitted, true);
        };
        if fitted.left < columns {
            return (fitted, false);
        }
        fitted = Fitted {
            walk: next,
            left: fitted.left - columns,
        };
    }
}
