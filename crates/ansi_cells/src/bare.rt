//! Truncated and padded texts of which nothing but printable ASCII is written. Most cells and lines are such
//! texts, and nothing has to be closed in them.
ghost use Rattle.std.specs.Prelude.{◌≡◌, ◌++◌, IfSome};
ghost use Rattle.ansi_safe.specs.Cells.{cell};
ghost use Rattle.ansi_cells.specs.declared.shown.Alignment.{Alignment};
ghost use Rattle.ansi_cells.specs.Fitted.{fitted};
ghost use Rattle.ansi_cells.specs.Shown.{truncated, padded, between_blanks};

use crate::plain_cells::{bare_front, is_printable};
use crate::shown::is_ellipsis;

/// A text of printable ASCII and a tail, and how many columns they lack.
#[derive(Clone, Copy)]
pub struct Bare<'t, 'a> {
    /// The text, up to where it is cut.
    pub text: &'t str,
    /// What is written after it. It is empty if the text isn't cut.
    pub tail: &'a str,
    /// The number of blanks that are missing.
    pub missing: usize,
}

/// A truncated text, if it is printable ASCII alone and fits, or it is cut for the tail `…` and begins with
/// more printable ASCII than fits. `None` says nothing. Doesn't allocate. (Own.)
///
/// ```
/// let cut = truncate_bare("connection", 5, "…");
/// assert!(rt; matches!(cut, Some(cut) if cut.text == "conn" && cut.tail == "…"));
/// let whole = truncate_bare("disk", 5, "…");
/// assert!(rt; matches!(whole, Some(whole) if whole.text == "disk" && whole.missing == 1));
/// ```
#[inline(always)]
pub fn truncate_bare<'t, 'a>(text: &'t str, width: usize, tail: &'a str) -> Option<Bare<'t, 'a>>
    ensures truncated { IfSome result (λ b.
        b.text.now ++ b.tail.now ≡ truncated (cell text.now) width tail.entry.now) }
    ensures fitted { IfSome result (λ b. (alignment : Alignment) →
        between_blanks b.missing alignment (b.text.now ++ b.tail.now)
        ≡ fitted (cell text.now) width alignment tail.entry.now) }
{
    if !begins_printable(text) {
        return None;
    }
    if let Some(front) = bare_front(text, width) {
        return Some(Bare {
            text,
            tail: "",
            missing: front.left,
        });
    }
    Some(Bare {
        text: cut_bare(text, width, tail)?,
        tail,
        missing: 0,
    })
}

/// Whether a text begins with printable ASCII. Most texts that aren't bare don't.
#[inline(always)]
fn begins_printable(text: &str) -> bool {
    matches!(text.as_bytes(), [0x20..=0x7E, ..])
}

/// What is kept of a text for the tail `…`, if it begins with more printable ASCII than fits. `None` says
/// nothing.
#[inline(always)]
fn cut_bare<'t>(text: &'t str, width: usize, tail: &str) -> Option<&'t str>
    ensures truncated { IfSome result (λ front.
        front.now ++ tail.now ≡ truncated (cell text.now) width tail.now) }
    ensures fitted { IfSome result (λ front. (alignment : Alignment) →
        front.now ++ tail.now ≡ fitted (cell text.now) width alignment tail.now) }
{
    // The byte after the one that doesn't fit shows that that is a cluster by itself.
    let after = width.checked_add(2)?;
    if after <= text.len() && 0 < width && is_ellipsis(tail) && is_printable(text, 0, after) {
        return Some(&text[..width - 1]);
    }
    None
}

/// How many blanks a padded text has, if the text is printable ASCII alone. `None` says nothing. Doesn't
/// allocate. (Own.)
///
/// ```
/// assert!(rt; missing_bare("disk", 6) == Some(2) && missing_bare("disk", 3) == Some(0));
/// assert!(rt; missing_bare("\x1b[1mdisk", 6) == None);
/// ```
#[inline(always)]
pub fn missing_bare(text: &str, width: usize) -> Option<usize>
    ensures { IfSome result (λ n. (alignment : Alignment) →
        between_blanks n alignment text.now ≡ padded (cell text.now) width alignment) }
{
    if !begins_printable(text) {
        return None;
    }
    let front = bare_front(text, usize::MAX)?;
    Some(width.saturating_sub(usize::MAX - front.left))
}
