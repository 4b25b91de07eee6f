//! Truncation at the end, at the start or in the middle of a text.
ghost use Rattle.std.specs.Prelude.{◌≡◌, ◌↔◌, ◌+◌, ◌*◌, ◌≤◌, [], length, IsOk, IfOk};
ghost use Rattle.std.specs.Prelude.{IsTrue, string_bytes};
ghost use Rattle.std.specs.Cow.{cow_str_bytes, IsBorrowedStr};
ghost use Rattle.ansi_items.specs.Plain.{plain};
ghost use Rattle.ansi_style.specs.Written.{longest_start_and_close};
ghost use Rattle.ansi_safe.specs.Cells.{cell};
ghost use Rattle.ansi_safe.specs.Links.{longest_link_end, IsClosed};
ghost use Rattle.ansi_safe.specs.Safe.{is_safe};
ghost use Rattle.ansi_safe.specs.declared.policy.Links.TheVariants.{Keep};
ghost use Rattle.ansi_clusters.specs.Columns.{columns};
ghost use Rattle.ansi_cells.specs.OneLine.{is_one_line};
ghost use Rattle.ansi_cells.specs.Rows.{cell_row, row_screen, truncated_row_at};
ghost use Rattle.ansi_cells.specs.Screens.{screen};
ghost use Rattle.ansi_cells.specs.Shown.{truncated_ending, KeptStays, closed_cell};
ghost use Rattle.ansi_cells.specs.Sides.{is_cut_at_end, fitting_tail, cut_before_end, truncated_at};

use crate::shown::{tail_for, tail_width, truncate_beside};
use crate::slices::push_slice;
use crate::widths;
use ansi_clusters::views::View;
use ansi_safe::cells::cell_of;
use std::alloc::{AllocError, Allocator};
use std::borrow::CowStr;

/// Where a text is cut if it is too wide.
#[derive(Debug, Clone, Copy, PartialEq, Eq)]
pub enum Side {
    /// At its end: its first columns stay.
    End,
    /// At its start: its last columns stay.
    Start,
    /// In its middle: its first and its last columns stay. If their number is odd, one more of the
    /// first ones stays.
    Middle,
}

/// How a text is truncated: to how many columns, with what tail, and at which side.
///
/// ```
/// let to = Truncation::to(6).tail("…").side(Side::Start);
/// let cut = "/usr/local/bin".ansi_truncate_with(rt.alloc(), &to)?;
/// assert!(rt; cut.as_str() == "…l/bin");
/// ```
#[derive(Clone, Copy)]
pub struct Truncation<'a> {
    /// The greatest number of columns.
    pub width: usize,
    /// What is written where the text is cut, such as `…`.
    pub tail: &'a str,
    /// Where the text is cut.
    pub side: Side,
}

impl<'a> Truncation<'a> {
    ghost use Rattle.std.specs.Prelude.{◌≡◌, [], IsFalse, IsTrue, MatchOption};
    ghost use Rattle.ansi_items.specs.Plain.{plain};
    ghost use Rattle.ansi_safe.specs.Cells.{cell};
    ghost use Rattle.ansi_clusters.specs.Columns.{columns};
    ghost use Rattle.ansi_cells.specs.Sides.{is_cut_at_end};

    /// Truncation to `width` columns, at the end of a text and without a tail.
    pub fn to(width: usize) -> Self
        ensures width { result.width ≡ width }
        ensures tail { result.tail.now ≡ [] }
        ensures side { result.side ≡ Side.End }
    {
        Truncation {
            width,
            tail: "",
            side: Side::End,
        }
    }

    /// The same with this tail.
    pub fn tail(self, tail: &'a str) -> Self
        ensures { result ≡ record self.entry { tail = tail.entry } }
    {
        Truncation { tail, ..self }
    }

    /// The same at this side.
    pub fn side(self, side: Side) -> Self
        ensures { result ≡ record self.entry { side = side } }
    {
        Truncation { side, ..self }
    }

    /// The columns of the cell of a text, if that is cut before its end.
    fn columns_cut(&self, text: &str) -> Option<usize>
        ensures { MatchOption result
            (IsTrue (is_cut_at_end self.now.side (cell text.now) self.now.width))
            (λ n. (n ≡ columns (plain (cell text.now)))
            × IsFalse (is_cut_at_end self.now.side (cell text.now) self.now.width)) }
    {
        match self.side {
            Side::End => None,
            Side::Start | Side::Middle => {
                let columns = widths::width(text, View::Shown);
                if columns <= self.width {
                    None
                } else {
                    Some(columns)
                }
            }
        }
    }
}

impl Side {
    ghost use Rattle.std.specs.Prelude.{◌≡◌, ◌≤◌};
    ghost use Rattle.ansi_cells.specs.Sides.{before_tail};

    /// How many of the columns stay before the tail.
    fn before_tail(self, columns: usize) -> usize
        ensures count { result ≡ before_tail self columns }
        ensures within { result ≤ columns }
    {
        match self {
            Side::End => columns,
            Side::Start => 0,
            Side::Middle => columns - columns / 2,
        }
    }
}

/// Like `AnsiColumns::ansi_truncate_with`, with any allocator. The result may borrow from the text and
/// lives as long as it.
///
/// ```
/// let to = Truncation::to(5).tail("…").side(Side::Middle);
/// let cut = truncate_with(rt.alloc(), "\x1b[31mabcdefgh\x1b[39m", &to)?;
/// assert!(rt; cut.as_str() == "\x1b[31mab\x1b[39m…\x1b[31mgh\x1b[39m");
/// ```
pub fn truncate_with<'t, A: Allocator + Copy>(
    alloc: A,
    text: &'t str,
    to: &Truncation<'_>,
) -> Result<CowStr<'t, A>, AllocError>
    ensures bytes { IfOk result (λ c. cow_str_bytes c
        ≡ truncated_at to.now.side (cell text.now) to.now.width (closed_cell to.now.tail.now)) }
    ensures safe { IfOk result (λ c. IsTrue (is_safe Keep (cow_str_bytes c))) }
    ensures one_line { IfOk result (λ c. IsTrue (is_one_line (cow_str_bytes c))) }
    ensures closed { IfOk result (λ c. IsClosed (cow_str_bytes c)) }
    ensures screen { IfOk result (λ c. screen (cow_str_bytes c)
        ≡ row_screen (truncated_row_at to.now.side to.now.width
        (cell_row to.now.tail.now) (cell_row text.now))) }
    ensures borrowed { IfOk result (λ c. IsBorrowedStr c
        ↔ (KeptStays text.now to.now.width (closed_cell to.now.tail.now)
        × IsTrue (is_cut_at_end to.now.side (cell text.now) to.now.width)
        × (truncated_ending (cell text.now) to.now.width (closed_cell to.now.tail.now) ≡ []))) }
    ensures len { IfOk result (λ c. length (cow_str_bytes c) ≤ 2 * length text.now
        + length (closed_cell to.now.tail.now) + to.now.width
        + 2 * (longest_start_and_close + longest_link_end)) }
    ensures takes_no_memory { KeptStays text.now to.now.width (closed_cell to.now.tail.now)
        × IsTrue (is_cut_at_end to.now.side (cell text.now) to.now.width)
        × (truncated_ending (cell text.now) to.now.width (closed_cell to.now.tail.now) ≡ []) →
        IsOk result }
{
    let tail = tail_for(alloc, text, to.width, to.tail)?;
    let shown = Truncation {
        width: to.width,
        tail: tail.as_str(),
        side: to.side,
    };
    truncate_with_beside(alloc, text, &shown)
}

/// A text that is truncated at a side, with the tail as it is.
fn truncate_with_beside<'t, A: Allocator + Copy>(
    alloc: A,
    text: &'t str,
    to: &Truncation<'_>,
) -> Result<CowStr<'t, A>, AllocError>
    ensures bytes { IfOk result (λ c. cow_str_bytes c
        ≡ truncated_at to.now.side (cell text.now) to.now.width to.now.tail.now) }
    ensures borrowed { IfOk result (λ c. IsBorrowedStr c ↔ (KeptStays text.now to.now.width to.now.tail.now
        × IsTrue (is_cut_at_end to.now.side (cell text.now) to.now.width)
        × (truncated_ending (cell text.now) to.now.width to.now.tail.now ≡ []))) }
    ensures len { IfOk result (λ c. length (cow_str_bytes c) ≤ 2 * length text.now
        + length to.now.tail.now + to.now.width
        + 2 * (longest_start_and_close + longest_link_end)) }
    ensures takes_no_memory { KeptStays text.now to.now.width to.now.tail.now
        × IsTrue (is_cut_at_end to.now.side (cell text.now) to.now.width)
        × (truncated_ending (cell text.now) to.now.width to.now.tail.now ≡ []) → IsOk result }
{
    let Some(columns) = to.columns_cut(text) else {
        return truncate_beside(alloc, text, to.width, to.tail);
    };
    let cell = cell_of(alloc, text)?;
    Ok(CowStr::Owned(cut_before_end(alloc, cell.as_str(), columns, to)?))
}

/// The text, which has this many columns, cut before its end.
fn cut_before_end<A: Allocator>(
    alloc: A,
    text: &str,
    all: usize,
    to: &Truncation<'_>,
) -> Result<String<A>, AllocError>
    requires { all ≡ columns (plain text.now) }
    ensures bytes { IfOk result (λ s. string_bytes s
        ≡ cut_before_end to.now.side text.now to.now.width to.now.tail.now) }
    ensures len { IfOk result (λ s. length (string_bytes s) ≤ 2 * length text.now
        + length to.now.tail.now + to.now.width
        + 2 * (longest_start_and_close + longest_link_end)) }
{
    let tail = fitting_tail(to.tail, to.width);
    let room = to.width.saturating_sub(tail_width(tail));
    let first = to.side.before_tail(room);
    let mut out = String::new(alloc);
    push_slice(&mut out, text, 0, first)?;
    out.push_str(tail)?;
    push_slice(&mut out, text, all.saturating_sub(room - first), all)?;
    Ok(out)
}

/// The tail, or nothing if it is wider than `width`.
fn fitting_tail(tail: &str, width: usize) -> &str
    ensures { result.now ≡ fitting_tail width tail.entry.now }
{
    if tail_width(tail) <= width { tail } else { "" }
}
