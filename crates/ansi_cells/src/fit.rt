//! The text of a table's cell: truncated if it is too wide, and padded if it is too narrow.
ghost use Rattle.std.specs.Prelude.{◌≡◌, ◌↔◌, ◌+◌, ◌*◌, ◌≤◌, [], length, IsOk, IfOk, IsTrue};
ghost use Rattle.std.specs.Cow.{cow_str_bytes, IsBorrowedStr};
ghost use Rattle.ansi_style.specs.Written.{longest_close};
ghost use Rattle.ansi_safe.specs.Cells.{cell};
ghost use Rattle.ansi_safe.specs.Links.{longest_link_end, IsClosed};
ghost use Rattle.ansi_safe.specs.Safe.{is_safe};
ghost use Rattle.ansi_safe.specs.declared.policy.Links.TheVariants.{Keep};
ghost use Rattle.ansi_cells.specs.Fitted.{fitted};
ghost use Rattle.ansi_cells.specs.OneLine.{is_one_line};
ghost use Rattle.ansi_cells.specs.Rows.{cell_row, row_screen, fitted_row};
ghost use Rattle.ansi_cells.specs.Screens.{screen};
ghost use Rattle.ansi_cells.specs.Shown.{truncated_ending, truncated, KeptStays, missing, closing};
ghost use Rattle.ansi_cells.specs.Shown.{closed_cell, shown_bytes, IsLent};

use crate::plain_cells::bare_front;
use crate::shown::{
    Alignment, Shown, TruncatedParts, join, pad_cell, tail_for, truncated_parts, write_shown,
};
use ansi_safe::links::{Ending, pen_after};
use ansi_style::styles;
use std::alloc::{AllocError, Allocator};
use std::borrow::CowStr;

/// Like `AnsiColumns::ansi_fit`, with any allocator. The result may borrow from the text and lives
/// as long as it.
///
/// ```
/// let cell = fit(rt.alloc(), "\x1b[31m日本語\x1b[39m", 4, Alignment::Right, "…")?;
/// assert!(rt; cell.as_str() == " \x1b[31m日\x1b[39m…");
/// ```
pub fn fit<'t, A: Allocator + Copy>(
    alloc: A,
    text: &'t str,
    width: usize,
    alignment: Alignment,
    tail: &str,
) -> Result<CowStr<'t, A>, AllocError>
    ensures bytes { IfOk result (λ c.
        cow_str_bytes c ≡ fitted (cell text.now) width alignment (closed_cell tail.now)) }
    ensures safe { IfOk result (λ c. IsTrue (is_safe Keep (cow_str_bytes c))) }
    ensures one_line { IfOk result (λ c. IsTrue (is_one_line (cow_str_bytes c))) }
    ensures closed { IfOk result (λ c. IsClosed (cow_str_bytes c)) }
    ensures screen { IfOk result (λ c. screen (cow_str_bytes c) ≡ row_screen
        (fitted_row width alignment (cell_row tail.now) (cell_row text.now))) }
    ensures borrowed { IfOk result (λ c. IsBorrowedStr c
        ↔ (KeptStays text.now width (closed_cell tail.now)
        × (truncated_ending (cell text.now) width (closed_cell tail.now) ≡ [])
        × (missing (truncated (cell text.now) width (closed_cell tail.now)) width ≡ 0)
        × (closing (truncated (cell text.now) width (closed_cell tail.now)) ≡ []))) }
    ensures len { IfOk result (λ c. length (cow_str_bytes c)
        ≤ length text.now + length (closed_cell tail.now)
        + missing (truncated (cell text.now) width (closed_cell tail.now)) width
        + 2 * (longest_link_end + longest_close)) }
    ensures takes_no_memory { KeptStays text.now width (closed_cell tail.now)
        × (truncated_ending (cell text.now) width (closed_cell tail.now) ≡ [])
        × (missing (truncated (cell text.now) width (closed_cell tail.now)) width ≡ 0)
        × (closing (truncated (cell text.now) width (closed_cell tail.now)) ≡ []) → IsOk result }
{
    let tail = tail_for(alloc, text, width, tail)?;
    fit_beside(alloc, text, width, alignment, tail.as_str())
}

/// A text that is truncated, with this tail as it is, and then padded.
fn fit_beside<'t, A: Allocator + Copy>(
    alloc: A,
    text: &'t str,
    width: usize,
    alignment: Alignment,
    tail: &str,
) -> Result<CowStr<'t, A>, AllocError>
    ensures bytes { IfOk result (λ c.
        cow_str_bytes c ≡ fitted (cell text.now) width alignment tail.now) }
    ensures borrowed { IfOk result (λ c. IsBorrowedStr c ↔ (KeptStays text.now width tail.now
        × (truncated_ending (cell text.now) width tail.now ≡ [])
        × (missing (truncated (cell text.now) width tail.now) width ≡ 0)
        × (closing (truncated (cell text.now) width tail.now) ≡ []))) }
    ensures len { IfOk result (λ c. length (cow_str_bytes c) ≤ length text.now + length tail.now
        + missing (truncated (cell text.now) width tail.now) width
        + 2 * (longest_link_end + longest_close)) }
    ensures takes_no_memory { KeptStays text.now width tail.now
        × (truncated_ending (cell text.now) width tail.now ≡ [])
        × (missing (truncated (cell text.now) width tail.now) width ≡ 0)
        × (closing (truncated (cell text.now) width tail.now) ≡ []) → IsOk result }
{
    if let Some(front) = bare_front(text, width) {
        let shown = Shown {
            text: CowStr::Borrowed(text),
            ending: Ending {
                link_end: "",
                style: styles::plain_style(),
            },
            tail: "",
            missing: front.left,
            alignment,
        };
        return join(alloc, shown);
    }
    let shown = fit_shown(alloc, text, width, alignment, tail)?;
    join(alloc, shown)
}

/// Like [`fit`], with a tail that is written as it is, and not joined yet.
///
/// ```
/// let cell = fit_shown(rt.alloc(), "\x1b[31m日本語\x1b[39m", 4, Alignment::Right, "…")?;
/// assert!(rt; cell.missing == 1 && cell.tail == "…");
/// ```
#[inline(always)]
pub fn fit_shown<'t, 'a, A: Allocator + Copy>(
    alloc: A,
    text: &'t str,
    width: usize,
    alignment: Alignment,
    tail: &'a str,
) -> Result<Shown<'t, 'a, A>, AllocError>
    ensures bytes { IfOk result (λ s.
        shown_bytes s ≡ fitted (cell text.now) width alignment tail.entry.now) }
    ensures borrowed { IfOk result (λ s. IsLent s ↔ (KeptStays text.now width tail.entry.now
        × (truncated_ending (cell text.now) width tail.entry.now ≡ [])
        × (missing (truncated (cell text.now) width tail.entry.now) width ≡ 0)
        × (closing (truncated (cell text.now) width tail.entry.now) ≡ []))) }
    ensures len { IfOk result (λ s. length (shown_bytes s)
        ≤ length text.now + length tail.entry.now
        + missing (truncated (cell text.now) width tail.entry.now) width
        + 2 * (longest_link_end + longest_close)) }
    ensures takes_no_memory { KeptStays text.now width tail.entry.now
        × (truncated_ending (cell text.now) width tail.entry.now ≡ []) → IsOk result }
{
    let TruncatedParts {
        front,
        ending,
        tail,
        missing,
    } = truncated_parts(alloc, text, width, tail, true)?;
    if let Some(missing) = missing {
        return Ok(Shown {
            text: front,
            ending,
            tail,
            missing,
            alignment,
        });
    }
    let cut = write_shown(alloc, front, &ending, tail, 0, alignment)?;
    let ending = pen_after(cut.as_str()).ending();
    Ok(pad_cell(cut, ending, width, alignment))
}
