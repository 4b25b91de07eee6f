//! Where the parts of a text are in its plain text.
ghost use Rattle.std.specs.Prelude.{◌≡◌, None, Some, IfSome, IsTrue, length, slice_get};
ghost use Rattle.ansi_items.specs.Plain.{plain};
ghost use Rattle.ansi_search.specs.Positions.{is_good_range};
ghost use Rattle.ansi_split.specs.Parts.{parts};

use crate::split::rest::Rest;
use ansi_items::ansitok::{Kind, Scanner};
use ansi_style::styles;

/// The interval of one part in the plain text, by its index: the position at which the part begins,
/// and the one at which it ends.
///
/// The parts are those of std's `split` of the plain text by the pattern, counted from 0. Positions
/// count bytes of the plain text. It is `None` exactly if there is no part of that index. The
/// interval, what is before it and what is after it are good ranges, so the text can be cut there.
/// Doesn't allocate. It takes time in proportion to the text and the pattern, whatever the index.
/// (std, on the plain text; that it returns positions, own.)
///
/// ```
/// let text = "\x1b[1mlion,\x1b[0mtiger";
/// assert!(rt; part_interval(text, ",", 0) == Some((0, 4)));
/// assert!(rt; part_interval(text, ",", 1) == Some((5, 10)));
/// assert!(rt; part_interval(text, ",", 2).is_none());
/// ```
pub fn part_interval(text: &str, pat: &str, index: usize) -> Option<(usize, usize)>
    ensures interval { result ≡ slice_get (parts (plain text.now) pat.now) index }
    ensures good { IfSome result (λ i. IsTrue (is_good_range (plain text.now) i.0 (Some i.1))) }
    ensures good_before { IfSome result (λ i.
        IsTrue (is_good_range (plain text.now) 0 (Some i.0))) }
    ensures good_after { IfSome result (λ i. IsTrue (is_good_range (plain text.now) i.1 None)) }
{
    let mut rest = Rest::new(text);
    let mut style = styles::plain_style();
    // Where `rest` begins in the plain text, and how many of its plain bytes are in no part.
    let (mut place, mut skip) = (0, 0);
    // The least place in `rest` at which the next match may begin.
    let mut from = 0;
    for _ in 0..index {
        let cut = rest.cut_at_match(pat, from, &mut style);
        place += plain_len(cut.front);
        rest = cut.rest?;
        skip = pat.len();
        from = pat.len().max(1);
    }
    let cut = rest.cut_at_match(pat, from, &mut style);
    Some((place + skip, place + plain_len(cut.front)))
}

/// How many bytes the plain text has.
fn plain_len(text: &str) -> usize
    ensures { result ≡ length (plain text.now) }
{
    let mut len = 0;
    for item in Scanner::new(text) {
        if item.kind == Kind::Text {
            let run = &text[item.start..item.end];
            len += run.len();
        }
    }
    len
}
