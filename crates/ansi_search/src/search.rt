//! Searches in a plain text. They walk over the items of its text and don't allocate.
ghost use Rattle.std.specs.Prelude.{◌≡◌, ◌↔◌, ◌<◌, ◌≤◌, ℕ, None, Some, IsTrue};
ghost use Rattle.std.specs.Str.{IsCharBoundary};
ghost use Rattle.ansi_items.specs.Plain.{plain};
ghost use Rattle.ansi_search.specs.Positions.{is_char_boundary, is_good_range};

mod critical;
mod ends;
mod matches;
mod offsets;
mod prefix;
mod two_way;

pub use ends::{end_before_white_space, ends_with, last_run, suffix_offset};
pub use matches::{find, find_from, first_in_run};
pub use offsets::{offset_at, walk_to};
use prefix::run_front;
pub use prefix::starts_with;

/// A position past the end of every text: no end, or no match.
pub const PAST_THE_END: usize = usize::MAX;

/// Like `AnsiStr::ansi_is_char_boundary`, on a `&str`.
pub fn is_char_boundary(text: &str, index: usize) -> bool
    ensures value { result ≡ is_char_boundary (plain text.now) index }
    ensures boundary { IsTrue result ↔ IsCharBoundary (plain text.now) index }
    ensures good_before { IsTrue result → IsTrue (is_good_range (plain text.now) 0 (Some index)) }
    ensures good_after { IsTrue result → IsTrue (is_good_range (plain text.now) index None) }
{
    floor_char_boundary(text, index) == index
}

/// Like `AnsiStr::ansi_floor_char_boundary`, on a `&str`.
pub fn floor_char_boundary(text: &str, index: usize) -> usize
    ensures bound { result ≤ index }
    ensures boundary { IsCharBoundary (plain text.now) result }
    ensures nearest { (i : ℕ) → result < i → i ≤ index → ¬ (IsCharBoundary (plain text.now) i) }
    ensures good_before { IsTrue (is_good_range (plain text.now) 0 (Some result)) }
    ensures good_after { IsTrue (is_good_range (plain text.now) result None) }
{
    let mut place = 0;
    let mut rest = text;
    while !rest.is_empty() {
        let remaining = index - place;
        let (run, after) = run_front(rest, remaining.saturating_add(1));
        if remaining < run.len() {
            return place + rest.floor_char_boundary(remaining);
        }
        place += run.len();
        rest = after;
    }
    place
}
