//! Truncated and padded texts, ready for display: the style and link still open at their end are
//! closed.
ghost use Rattle.std.specs.Prelude.{◌≡◌, ◌≢◌, ◌↔◌, ◌+◌, ◌≤◌, ◌∷◌, ◌++◌, ℕ, List, [], length, chars};
ghost use Rattle.std.specs.Prelude.{IsOk, IfOk, OnOk, IfSome, IsTrue, true, false, nat_le};
ghost use Rattle.std.specs.Prelude.{if◌then◌else◌, string_bytes, slice_range};
ghost use Rattle.std.specs.List.{list_all};
ghost use Rattle.std.specs.Str.{IsUtf8, IsCharBoundary};
ghost use Rattle.std.specs.Cow.{cow_str_bytes, IsBorrowedStr};
ghost use Rattle.unicode_segmentation.specs.Grapheme.{is_grapheme_break};
ghost use Rattle.ansi_items.specs.Bytes.{is_plain_byte};
ghost use Rattle.ansi_items.specs.Plain.{plain, marks};
ghost use Rattle.ansi_style.specs.States.{rendition_of};
ghost use Rattle.ansi_style.specs.Styled.{style_after};
ghost use Rattle.ansi_style.specs.Written.{close, longest_close};
ghost use Rattle.ansi_safe.specs.Cells.{cell};
ghost use Rattle.ansi_safe.specs.Links.{link_of, link_end, longest_link_end, IsClosed};
ghost use Rattle.ansi_safe.specs.Safe.{is_safe};
ghost use Rattle.ansi_safe.specs.declared.policy.Links.TheVariants.{Keep};
ghost use Rattle.ansi_cells.specs.OneLine.{is_one_line};
ghost use Rattle.ansi_clusters.specs.Columns.{columns, FitsUpTo};
ghost use Rattle.ansi_clusters.specs.Views.{seen_text, seen_len};
ghost use Rattle.ansi_cells.specs.Rows.{cell_row, row_screen, truncated_row, padded_row};
ghost use Rattle.ansi_cells.specs.Screens.{screen};
ghost use Rattle.ansi_cells.specs.Shown.{has_tail, truncated_width, truncated_ending};
ghost use Rattle.ansi_cells.specs.Shown.{truncated, KeptStays, IsTailFor};
ghost use Rattle.ansi_cells.specs.Shown.{missing, before_text, between_blanks, closing};
ghost use Rattle.ansi_clusters.specs.Lines.{blanks};
ghost use Rattle.ansi_cells.specs.Shown.{padded, closed_cell, shown_bytes, IsLent};
ghost use Rattle.ansi_clusters.specs.BreakStates.{break_state_of};
ghost use Rattle.ansi_cells.specs.PlainCells.{IsFront};
ghost use Rattle.ansi_clusters.specs.Walks.{IsWalkIn, IsFitted, SeesUpTo};

use crate::plain_cells::{
    PlainFront, bare_front, fitted, goes_past, plain_cell, plain_cut, plain_runs,
};
use crate::widths;
use ansi_clusters::fits::{Fitted, longest_from};
use ansi_clusters::views::View;
use ansi_clusters::walks::{Walk, first_run};
use ansi_safe::cells::{cell_and_ending, cell_and_ending_after, is_cell, is_empty_cell};
use ansi_safe::links::{Ending, LONGEST_ENDING, pen_after};
use ansi_safe::printable::printable_len;
use std::alloc::{AllocError, Allocator};
use std::borrow::CowStr;

/// The position of a text among the blanks that pad it. (`console`.)
///
/// ```
/// assert!(rt; "ab".ansi_pad(rt.alloc(), 5, Alignment::Center)?.as_str() == " ab  ");
/// ```
#[derive(Debug, Clone, Copy, PartialEq, Eq)]
pub enum Alignment {
    /// The text comes before the blanks.
    Left,
    /// The text is between the blanks. If their number is odd, one more follows the text.
    Center,
    /// The text comes after the blanks.
    Right,
}

/// Like `AnsiColumns::ansi_truncate`, with any allocator. The result may borrow from the text and
/// lives as long as it.
///
/// ```
/// let cut = truncate(rt.alloc(), "\x1b[31m日本語\x1b[39m", 5, "…")?;
/// assert!(rt; cut.as_str() == "\x1b[31m日本\x1b[39m…");
/// ```
pub fn truncate<'t, A: Allocator + Copy>(
    alloc: A,
    text: &'t str,
    width: usize,
    tail: &str,
) -> Result<CowStr<'t, A>, AllocError>
    ensures bytes { IfOk result (λ c.
        cow_str_bytes c ≡ truncated (cell text.now) width (closed_cell tail.now)) }
    ensures safe { IfOk result (λ c. IsTrue (is_safe Keep (cow_str_bytes c))) }
    ensures one_line { IfOk result (λ c. IsTrue (is_one_line (cow_str_bytes c))) }
    ensures closed { IfOk result (λ c. IsClosed (cow_str_bytes c)) }
    ensures screen { IfOk result (λ c. screen (cow_str_bytes c)
        ≡ row_screen (truncated_row width (cell_row tail.now) (cell_row text.now))) }
    ensures borrowed { IfOk result (λ c. IsBorrowedStr c
        ↔ (KeptStays text.now width (closed_cell tail.now)
        × (truncated_ending (cell text.now) width (closed_cell tail.now) ≡ []))) }
    ensures len { IfOk result (λ c. length (cow_str_bytes c) ≤ length text.now
        + length (closed_cell tail.now) + longest_link_end + longest_close) }
    ensures takes_no_memory { KeptStays text.now width (closed_cell tail.now)
        × (truncated_ending (cell text.now) width (closed_cell tail.now) ≡ []) → IsOk result }
{
    let tail = tail_for(alloc, text, width, tail)?;
    truncate_beside(alloc, text, width, tail.as_str())
}

/// A text that is truncated, with this tail as it is.
pub(crate) fn truncate_beside<'t, A: Allocator + Copy>(
    alloc: A,
    text: &'t str,
    width: usize,
    tail: &str,
) -> Result<CowStr<'t, A>, AllocError>
    ensures bytes { IfOk result (λ c.
        cow_str_bytes c ≡ truncated (cell text.now) width tail.now) }
    ensures borrowed { IfOk result (λ c. IsBorrowedStr c ↔ (KeptStays text.now width tail.now
        × (truncated_ending (cell text.now) width tail.now ≡ []))) }
    ensures len { IfOk result (λ c. length (cow_str_bytes c)
        ≤ length text.now + length tail.now + longest_link_end + longest_close) }
    ensures takes_no_memory { KeptStays text.now width tail.now
        × (truncated_ending (cell text.now) width tail.now ≡ []) → IsOk result }
{
    if let Some(_) = bare_front(text, width) {
        return Ok(CowStr::Borrowed(text));
    }
    let shown = truncate_shown(alloc, text, width, tail)?;
    join(alloc, shown)
}

/// Like [`truncate`], with a tail that is written as it is, and not joined yet.
///
/// ```
/// let cut = truncate_shown(rt.alloc(), "\x1b[31m日本語\x1b[39m", 5, "…")?;
/// assert!(rt; cut.tail == "…");
/// assert!(rt; join(rt.alloc(), cut)?.as_str() == "\x1b[31m日本\x1b[39m…");
/// ```
#[inline(always)]
pub fn truncate_shown<'t, 'a, A: Allocator + Copy>(
    alloc: A,
    text: &'t str,
    width: usize,
    tail: &'a str,
) -> Result<Shown<'t, 'a, A>, AllocError>
    ensures bytes { IfOk result (λ s. shown_bytes s ≡ truncated (cell text.now) width tail.entry.now) }
    ensures borrowed { IfOk result (λ s. IsLent s ↔ (KeptStays text.now width tail.entry.now
        × (truncated_ending (cell text.now) width tail.entry.now ≡ []))) }
    ensures len { IfOk result (λ s. length (shown_bytes s)
        ≤ length text.now + length tail.entry.now + longest_link_end + longest_close) }
    ensures takes_no_memory { KeptStays text.now width tail.entry.now → IsOk result }
{
    let TruncatedParts {
        front,
        ending,
        tail,
        missing: _,
    } = truncated_parts(alloc, text, width, tail, false)?;
    Ok(Shown {
        text: front,
        ending,
        tail,
        missing: 0,
        alignment: Alignment::Left,
    })
}

/// A text beside another, such as a tail: the text of a cell, closed. The result may borrow from
/// the text and lives as long as it. `Err` means out of memory. (Own.)
///
/// ```
/// assert!(rt; closed_cell(rt.alloc(), "\x1b[1m~\x07")?.as_str() == "\x1b[1m~\x1b[22m");
/// ```
pub fn closed_cell<'t, A: Allocator + Copy>(
    alloc: A,
    text: &'t str,
) -> Result<CowStr<'t, A>, AllocError>
    ensures bytes { IfOk result (λ c. cow_str_bytes c ≡ closed_cell text.now) }
    ensures utf8 { IsUtf8 text.now }
    ensures takes_no_memory { (cell text.now ≡ text.now) × (closing (cell text.now) ≡ []) →
        IsOk result }
{
    if is_usual_tail(text) {
        return Ok(CowStr::Borrowed(text));
    }
    // It isn't too narrow, so its link and its style are closed, and it gets no blanks.
    pad(alloc, text, 0, Alignment::Left)
}

/// The tail with which a text is truncated, as [`closed_cell`] makes it. If it would have to be changed
/// and isn't written, it is empty instead, so the call allocates only for a tail that is written. The
/// result may borrow from the tail and lives as long as it. `Err` means out of memory. (Own.)
///
/// ```
/// assert!(rt; tail_for(rt.alloc(), "connection", 5, "\t~")?.as_str() == " ~");
/// assert!(rt; tail_for(rt.alloc(), "disk", 5, "\t~")?.as_str() == "");
/// ```
pub fn tail_for<'t, A: Allocator + Copy>(
    alloc: A,
    text: &str,
    width: usize,
    tail: &'t str,
) -> Result<CowStr<'t, A>, AllocError>
    ensures bytes { IfOk result (λ c.
        IsTailFor (cell text.now) width (closed_cell tail.now) (cow_str_bytes c)) }
    ensures utf8 { IsUtf8 tail.now }
    ensures takes_no_memory { (IsTrue (has_tail (cell text.now) width (closed_cell tail.now)) →
        closed_cell tail.now ≡ []) → IsOk result }
{
    if is_usual_tail(tail) || is_closed_cell(tail) {
        return Ok(CowStr::Borrowed(tail));
    }
    if is_empty_cell(tail) || !has_tail(text, width, tail) {
        return Ok(CowStr::Borrowed(""));
    }
    closed_cell(alloc, tail)
}

/// Whether a text is the text of a cell and leaves nothing open, so that it stays as it is beside another.
fn is_closed_cell(text: &str) -> bool
    ensures { IsTrue result → closed_cell text.now ≡ text.now }
{
    is_cell(text) && pen_after(text).ending().is_empty()
}

/// Whether a tail is written: the text is wider than `width`, and the tail isn't. The text is read as far
/// as `fitting` reads it.
fn has_tail(text: &str, width: usize, tail: &str) -> bool
    ensures { result ≡ has_tail (cell text.now) width (closed_cell tail.now) }
{
    if width < widths::width(tail, View::Shown) {
        return false;
    }
    let from = fitted(text, width, &plain_runs(text, width));
    let (_, is_all) = longest(text, width, from);
    !is_all
}

/// Whether a text is `…` or printable ASCII, so that it stays as it is in a cell, closed. `false`
/// says nothing.
#[inline(always)]
fn is_usual_tail(text: &str) -> bool
    ensures { IsTrue result → closed_cell text.now ≡ text.now }
{
    is_ellipsis(text) || printable_len(text.as_bytes()) == text.len()
}

/// Whether a text is `…`, as most tails are. (The bytes are compared, so that it is no call.)
#[inline(always)]
pub(crate) fn is_ellipsis(text: &str) -> bool
    ensures { IsTrue result → text.now ≡ 0xE2 ∷ 0x80 ∷ 0xA6 ∷ [] }
{
    text.as_bytes() == "…".as_bytes()
}

/// A text that is ready for display and not joined yet: the text of a cell, what ends its pen and a
/// tail, in this order, and the blanks that are missing around them. (Own.)
///
/// ```
/// let padded = pad_shown(rt.alloc(), "ab", 4, Alignment::Left)?;
/// assert!(rt; padded.text.as_str() == "ab" && padded.missing == 2);
/// ```
#[derive(Drop)]
pub struct Shown<'t, 'a, A: Allocator> {
    /// A text of a cell.
    pub text: CowStr<'t, A>,
    /// What ends its pen.
    pub ending: Ending,
    /// What is written after that.
    pub tail: &'a str,
    /// The number of blanks.
    pub missing: usize,
    /// Where the blanks are.
    pub alignment: Alignment,
}

/// The parts of a truncated text, in order, and what it lacks.
pub(crate) struct TruncatedParts<'t, 'a, A: Allocator> {
    /// The text of the cell up to where it is cut.
    pub(crate) front: CowStr<'t, A>,
    /// What ends its pen there.
    pub(crate) ending: Ending,
    /// The tail that is written. It is empty if none is.
    pub(crate) tail: &'a str,
    /// The columns that the truncated text lacks, where they are known without measuring it.
    /// Nothing is open at its end then.
    pub(crate) missing: Option<usize>,
}

/// The parts of a text of a cell that is truncated. What it lacks is looked for only if it is `padded`
/// then.
pub(crate) fn truncated_parts<'t, 'a, A: Allocator>(
    alloc: A,
    text: &'t str,
    width: usize,
    tail: &'a str,
    padded: bool,
) -> Result<TruncatedParts<'t, 'a, A>, AllocError>
    ensures bytes { IfOk result (λ p. (cow_str_bytes p.front
        ++ (p.ending.link_end.now ++ close (rendition_of p.ending.style))) ++ p.tail.now
        ≡ truncated (cell text.now) width tail.entry.now) }
    ensures ending { IfOk result (λ p.
        (p.ending.link_end.now ++ close (rendition_of p.ending.style)) ++ p.tail.now
        ≡ truncated_ending (cell text.now) width tail.entry.now) }
    ensures borrowed { IfOk result (λ p.
        IsBorrowedStr p.front ↔ KeptStays text.now width tail.entry.now) }
    ensures len { IfOk result (λ p. length ((cow_str_bytes p.front
        ++ (p.ending.link_end.now ++ close (rendition_of p.ending.style))) ++ p.tail.now)
        ≤ length text.now + length tail.entry.now + longest_link_end + longest_close) }
    ensures missing { IfOk result (λ p. IfSome p.missing (λ n.
        (n ≡ missing (truncated (cell text.now) width tail.entry.now) width)
        × (closing (truncated (cell text.now) width tail.entry.now) ≡ []))) }
    ensures takes_no_memory { KeptStays text.now width tail.entry.now → IsOk result }
{
    let runs = plain_runs(text, width);
    if let Some(front) = &runs
        && let Some(plain) = plain_parts(text, width, tail, padded, front)
    {
        return Ok(plain);
    }
    let cut = truncation(text, width, tail, padded, fitted(text, width, &runs));
    let (front, ending) = kept_cell(alloc, text, width, &runs, cut.end.offset)?;
    Ok(TruncatedParts {
        front,
        ending,
        tail: cut.tail,
        missing: cut.missing,
    })
}

/// The text of a cell up to a place, and what ends its pen there. Of the front that `plain_runs` returned
/// for `width`, nothing is read again.
fn kept_cell<'t, A: Allocator>(
    alloc: A,
    text: &'t str,
    width: usize,
    front: &Option<PlainFront>,
    end: usize,
) -> Result<(CowStr<'t, A>, Ending), AllocError>
    requires front { IfSome front.now (IsFront text.now width) }
    requires boundary { IsCharBoundary text.now end }
    ensures bytes { IfOk result (λ r.
        cow_str_bytes r.0 ≡ cell (slice_range text.now 0 end)) }
    ensures link_end { IfOk result (λ r.
        r.1.link_end.now ≡ link_end (link_of (marks (cell (slice_range text.now 0 end))))) }
    ensures style { IfOk result (λ r.
        rendition_of r.1.style ≡ style_after (cell (slice_range text.now 0 end))) }
    ensures borrowed { IfOk result (λ r. IsBorrowedStr r.0
        ↔ (cell (slice_range text.now 0 end) ≡ slice_range text.now 0 end)) }
    ensures takes_no_memory { cell (slice_range text.now 0 end) ≡ slice_range text.now 0 end →
        IsOk result }
{
    let kept = &text[..end];
    if let Some(front) = front
        && let Some(run) = front.run
        && 0 < run.offset
        && run.offset <= end
    {
        return cell_and_ending_after(alloc, kept, run.offset, &front.style);
    }
    cell_and_ending(alloc, kept)
}

/// The parts of a text of a cell that is truncated, if what is kept of it is printable ASCII and
/// select graphic renditions alone. `front` is what `plain_runs` returned. `None` says nothing.
fn plain_parts<'t, 'a, A: Allocator>(
    text: &'t str,
    width: usize,
    tail: &'a str,
    padded: bool,
    front: &PlainFront,
) -> Option<TruncatedParts<'t, 'a, A>>
    requires { IsFront text.now width front.now }
    ensures bytes { IfSome result (λ p. (cow_str_bytes p.front
        ++ (p.ending.link_end.now ++ close (rendition_of p.ending.style))) ++ p.tail.now
        ≡ truncated (cell text.now) width tail.entry.now) }
    ensures ending { IfSome result (λ p.
        (p.ending.link_end.now ++ close (rendition_of p.ending.style)) ++ p.tail.now
        ≡ truncated_ending (cell text.now) width tail.entry.now) }
    ensures borrowed { IfSome result (λ p.
        IsBorrowedStr p.front ↔ KeptStays text.now width tail.entry.now) }
    ensures len { IfSome result (λ p. length ((cow_str_bytes p.front
        ++ (p.ending.link_end.now ++ close (rendition_of p.ending.style))) ++ p.tail.now)
        ≤ length text.now + length tail.entry.now + longest_link_end + longest_close) }
    ensures missing { IfSome result (λ p. IfSome p.missing (λ n.
        (n ≡ missing (truncated (cell text.now) width tail.entry.now) width)
        × (closing (truncated (cell text.now) width tail.entry.now) ≡ []))) }
{
    let Some(run) = front.run else {
        return Some(TruncatedParts {
            front: CowStr::Borrowed(text),
            ending: Ending {
                link_end: "",
                style: front.style,
            },
            tail: "",
            missing: Some(front.left),
        });
    };
    if !goes_past(text, run, front.left) {
        return None;
    }
    let (room, tail) = beside(width, tail);
    let cut = plain_cut(text, width, front, run, room)?;
    Some(TruncatedParts {
        front: CowStr::Borrowed(&text[..cut.end.offset]),
        ending: Ending {
            link_end: "",
            style: cut.style,
        },
        tail,
        missing: is_known_apart(padded, cut.end, tail).then_some(0),
    })
}

/// Where the text of a cell is cut.
#[derive(Clone, Copy)]
struct Cut<'a> {
    /// The walk at the place.
    end: Walk,
    /// The tail that is written after it. It is empty if none is.
    tail: &'a str,
    /// The columns that the truncated text lacks, where they are known without measuring it.
    missing: Option<usize>,
}

/// Where the text of a cell is cut, and the tail that is written after it.
///
/// `from` is a prefix that fits.
fn truncation<'a>(text: &str, width: usize, tail: &'a str, padded: bool, from: Fitted) -> Cut<'a>
    requires { IsFitted View.Shown text.now width from }
    ensures walk { IsWalkIn View.Shown text.now result.end }
    ensures fits { SeesUpTo View.Shown text.now
        (truncated_width (cell text.now) width tail.entry.now) result.end.position }
    ensures tail { result.tail.now
        ≡ (if has_tail (cell text.now) width tail.entry.now then tail.entry.now else []) }
    ensures missing { IfSome result.missing (λ n.
        (n ≡ missing (truncated (cell text.now) width tail.entry.now) width)
        × (closing (truncated (cell text.now) width tail.entry.now) ≡ [])) }
{
    let columns = tail_width(tail);
    if width < columns {
        let (whole, _) = longest(text, width, from);
        return Cut {
            end: whole.walk.next_seen(text, View::Shown).0,
            tail: "",
            missing: Some(whole.left),
        };
    }
    // Up to where the text has to be cut for the tail, and on to see whether it has to.
    let room = width - columns;
    let from = if columns <= from.left {
        from.narrowed(columns)
    } else {
        fitted(text, room, &plain_runs(text, room))
    };
    let (front, fits_beside) = longest(text, room, from);
    let on = Fitted {
        walk: front.walk,
        left: front.left + columns,
    };
    if fits_beside {
        return Cut {
            end: on.walk.next_seen(text, View::Shown).0,
            tail: "",
            missing: Some(on.left),
        };
    }
    let (whole, is_all) = longest(text, width, on);
    if is_all {
        return Cut {
            end: whole.walk.next_seen(text, View::Shown).0,
            tail: "",
            missing: Some(whole.left),
        };
    }
    let end = front.walk.next_seen(text, View::Shown).0;
    Cut {
        end,
        tail,
        missing: is_known_apart(padded, end, tail).then_some(front.left),
    }
}

/// The longest prefix of a text of a cell that fits, after one that does, and whether it is all of the
/// text.
fn longest(text: &str, width: usize, from: Fitted) -> (Fitted, bool)
    requires { IsFitted View.Shown text.now width from }
    ensures fitted { IsFitted View.Shown text.now width result.0 }
    ensures fits { FitsUpTo (seen_text View.Shown text.now) width
        (seen_len View.Shown text.now result.0.walk.position) }
    ensures all { result.1 ≡ nat_le (columns (seen_text View.Shown text.now)) width }
{
    longest_from(text, width, View::Shown, from)
}

/// The columns of a tail. Those of `…` are known without a walk.
#[inline(always)]
pub(crate) fn tail_width(tail: &str) -> usize
    ensures { result ≡ columns (plain tail.now) }
{
    if is_ellipsis(tail) {
        return 1;
    }
    widths::width(tail, View::Given)
}

/// The columns that are left for a text that doesn't fit, and the tail that is written after it. The
/// tail is empty if none is written.
fn beside<'a>(width: usize, tail: &'a str) -> (usize, &'a str)
    ensures room { (t : List ℕ) → nat_le (columns (plain t)) width ≡ false →
        truncated_width t width tail.entry.now ≡ result.0 }
    ensures tail { (t : List ℕ) → nat_le (columns (plain t)) width ≡ false →
        result.1.now ≡ (if has_tail t width tail.entry.now then tail.entry.now else []) }
    ensures sum { result.0 + columns (plain result.1.now) ≡ width }
{
    let columns = tail_width(tail);
    if width < columns {
        (width, "")
    } else {
        (width - columns, tail)
    }
}

/// The same as `is_apart`, if that is `asked`. `false` says nothing.
#[inline(always)]
fn is_known_apart(asked: bool, walk: Walk, tail: &str) -> bool
    ensures bare { IsTrue result → IsTrue (list_all is_plain_byte tail.now) }
    ensures breaks { IsTrue result → (before : List ℕ) → before ≢ [] →
        walk.break_state ≡ break_state_of before →
        is_grapheme_break true before (chars tail.now) ≡ true }
{
    asked && is_apart(walk, tail)
}

/// Whether a tail has no sequence, and a cluster ends before it, if it is written where a walk is. `…` isn't
/// searched. `false` says nothing.
fn is_apart(walk: Walk, tail: &str) -> bool
    ensures bare { IsTrue result → IsTrue (list_all is_plain_byte tail.now) }
    ensures breaks { IsTrue result → (before : List ℕ) → before ≢ [] →
        walk.break_state ≡ break_state_of before →
        is_grapheme_break true before (chars tail.now) ≡ true }
{
    if is_ellipsis(tail) {
        return walk.break_state.ends_before('…');
    }
    if first_run(tail) != (0, tail.len()) {
        return false;
    }
    match tail.chars().next() {
        Some(first) => walk.break_state.ends_before(first),
        None => true,
    }
}

/// A shown text, as it is joined. A borrow if nothing is written before and after its text.
///
/// ```
/// let padded = pad_shown(rt.alloc(), "ab", 4, Alignment::Center)?;
/// assert!(rt; join(rt.alloc(), padded)?.as_str() == " ab ");
/// ```
#[inline(always)]
pub fn join<'t, A: Allocator + Copy>(
    alloc: A,
    shown: Shown<'t, '_, A>,
) -> Result<CowStr<'t, A>, AllocError>
    ensures bytes { IfOk result (λ c. cow_str_bytes c ≡ shown_bytes shown.entry) }
    ensures borrowed { IfOk result (λ c. IsBorrowedStr c ↔ IsLent shown.entry) }
    ensures takes_no_memory { IsLent shown.entry → IsOk result }
{
    let Shown {
        text,
        ending,
        tail,
        missing,
        alignment,
    } = shown;
    write_shown(alloc, text, &ending, tail, missing, alignment)
}

/// A text between the missing blanks, with what ends its pen and a tail after it.
pub(crate) fn write_shown<'t, A: Allocator>(
    alloc: A,
    text: CowStr<'t, A>,
    ending: &Ending,
    tail: &str,
    missing: usize,
    alignment: Alignment,
) -> Result<CowStr<'t, A>, AllocError>
    ensures bytes { IfOk result (λ c. cow_str_bytes c ≡ between_blanks missing alignment
        ((cow_str_bytes text.entry
        ++ (ending.now.link_end.now ++ close (rendition_of ending.now.style))) ++ tail.now)) }
    ensures borrowed { IfOk result (λ c. IsBorrowedStr c ↔ (IsBorrowedStr text.entry
        × ((ending.now.link_end.now ++ close (rendition_of ending.now.style)) ++ tail.now ≡ [])
        × (missing ≡ 0))) }
    ensures takes_no_memory { ((ending.now.link_end.now ++ close (rendition_of ending.now.style)) ++ tail.now ≡ [])
        × (missing ≡ 0) → IsOk result }
{
    if missing == 0 && tail.is_empty() && ending.is_empty() {
        return Ok(text);
    }
    let before = alignment.before_text(missing);
    let more = (missing - before).saturating_add(tail.len());
    let mut out = write_after(alloc, before, text, more)?;
    ending.push_to(&mut out)?;
    out.push_str(tail)?;
    push_blanks(&mut out, missing - before)?;
    Ok(CowStr::Owned(out))
}

/// `before` blanks and a text. The string has room for an ending and for `more` further bytes.
fn write_after<A: Allocator>(
    alloc: A,
    before: usize,
    text: CowStr<'_, A>,
    more: usize,
) -> Result<String<A>, AllocError>
    ensures { IfOk result (λ s. string_bytes s ≡ blanks before ++ cow_str_bytes text.entry) }
{
    let room = more.saturating_add(LONGEST_ENDING);
    match text {
        CowStr::Owned(mut text) if before == 0 => {
            text.reserve(room)?;
            Ok(text)
        }
        text => {
            let most = before.saturating_add(text.len()).saturating_add(room);
            let mut out = String::with_capacity(alloc, most)?;
            push_blanks(&mut out, before)?;
            out.push_str(text.as_str())?;
            Ok(out)
        }
    }
}

/// Like `AnsiColumns::ansi_pad`, with any allocator. The result may borrow from the text and lives
/// as long as it.
///
/// ```
/// let padded = pad(rt.alloc(), "\x1b[31m日本", 6, Alignment::Right)?;
/// assert!(rt; padded.as_str() == "  \x1b[31m日本\x1b[39m");
/// ```
pub fn pad<'t, A: Allocator + Copy>(
    alloc: A,
    text: &'t str,
    width: usize,
    alignment: Alignment,
) -> Result<CowStr<'t, A>, AllocError>
    ensures bytes { IfOk result (λ c. cow_str_bytes c ≡ padded (cell text.now) width alignment) }
    ensures safe { IfOk result (λ c. IsTrue (is_safe Keep (cow_str_bytes c))) }
    ensures one_line { IfOk result (λ c. IsTrue (is_one_line (cow_str_bytes c))) }
    ensures closed { IfOk result (λ c. IsClosed (cow_str_bytes c)) }
    ensures screen { IfOk result (λ c. screen (cow_str_bytes c)
        ≡ row_screen (padded_row width alignment (cell_row text.now))) }
    ensures borrowed { IfOk result (λ c. IsBorrowedStr c ↔ ((cell text.now ≡ text.now)
        × (missing (cell text.now) width ≡ 0) × (closing (cell text.now) ≡ []))) }
    ensures len { IfOk result (λ c. length (cow_str_bytes c)
        ≤ length text.now + missing (cell text.now) width + longest_link_end + longest_close) }
    ensures takes_no_memory { (cell text.now ≡ text.now)
        × (missing (cell text.now) width ≡ 0) × (closing (cell text.now) ≡ []) → IsOk result }
{
    let shown = pad_shown(alloc, text, width, alignment)?;
    join(alloc, shown)
}

/// Like [`pad`], not joined yet.
///
/// ```
/// let padded = pad_shown(rt.alloc(), "\x1b[31m日本", 6, Alignment::Right)?;
/// assert!(rt; padded.missing == 2);
/// assert!(rt; join(rt.alloc(), padded)?.as_str() == "  \x1b[31m日本\x1b[39m");
/// ```
#[inline(always)]
pub fn pad_shown<'t, A: Allocator + Copy>(
    alloc: A,
    text: &'t str,
    width: usize,
    alignment: Alignment,
) -> Result<Shown<'t, 't, A>, AllocError>
    ensures bytes { IfOk result (λ s. shown_bytes s ≡ padded (cell text.now) width alignment) }
    ensures borrowed { IfOk result (λ s. IsLent s ↔ ((cell text.now ≡ text.now)
        × (missing (cell text.now) width ≡ 0) × (closing (cell text.now) ≡ []))) }
    ensures takes_no_memory { cell text.now ≡ text.now → IsOk result }
{
    if let Some(plain) = plain_cell(text, usize::MAX) {
        return Ok(Shown {
            text: CowStr::Borrowed(text),
            ending: Ending {
                link_end: "",
                style: plain.style,
            },
            tail: "",
            missing: width.saturating_sub(usize::MAX - plain.left),
            alignment,
        });
    }
    let (cell, ending) = cell_and_ending(alloc, text)?;
    Ok(pad_cell(cell, ending, width, alignment))
}

/// The text of a cell, padded. This ends its pen.
pub(crate) fn pad_cell<'t, 'a, A: Allocator>(
    cell: CowStr<'t, A>,
    ending: Ending,
    width: usize,
    alignment: Alignment,
) -> Shown<'t, 'a, A>
    requires { ending.link_end.now ++ close (rendition_of ending.style)
        ≡ closing (cow_str_bytes cell) }
    ensures bytes { shown_bytes result ≡ padded (cow_str_bytes cell.entry) width alignment }
    ensures borrowed { IsLent result ↔ (IsBorrowedStr cell.entry
        × (missing (cow_str_bytes cell.entry) width ≡ 0)
        × (closing (cow_str_bytes cell.entry) ≡ [])) }
{
    let missing = width.saturating_sub(widths::width(cell.as_str(), View::Given));
    Shown {
        text: cell,
        ending,
        tail: "",
        missing,
        alignment,
    }
}

impl Alignment {
    ghost use Rattle.std.specs.Prelude.{◌≡◌, ◌≤◌};
    ghost use Rattle.ansi_cells.specs.Shown.{before_text};

    /// How many of the blanks come before the text.
    ///
    /// ```
    /// assert!(rt; Alignment::Center.before_text(5) == 2);
    /// ```
    pub fn before_text(self, blanks: usize) -> usize
        ensures count { result ≡ before_text self blanks }
        ensures within { result ≤ blanks }
    {
        match self {
            Alignment::Left => 0,
            Alignment::Center => blanks / 2,
            Alignment::Right => blanks,
        }
    }
}

/// As many blanks as are appended at a time.
const BLANKS: &str = "                                                                ";

/// Appends `count` blanks. If there is no room for all of them, it appends none and returns `Err`.
pub(crate) fn push_blanks<A: Allocator>(out: &mut String<A>, count: usize) -> Result<(), AllocError>
    ensures { OnOk result (string_bytes out.new ≡ string_bytes out.old ++ blanks count) }
{
    if count == 0 {
        return Ok(());
    }
    out.reserve(count)?;
    let mut left = count;
    while BLANKS.len() < left {
        out.push_str(BLANKS)?;
        left -= BLANKS.len();
    }
    out.push_str(&BLANKS[..left])?;
    Ok(())
}
