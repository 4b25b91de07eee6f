//! Edits of a text by columns, one after another.
ghost use Rattle.std.specs.Prelude.{◌≡◌, ◌↔◌, ◌+◌, ◌≤◌, false, not, List, length, map, All};
ghost use Rattle.std.specs.Prelude.{IfOk, IsOk, IsTrue, IsFalse};
ghost use Rattle.std.specs.Cow.{cow_str_bytes, IsBorrowedStr};
ghost use Rattle.std.specs.List.{list_all};
ghost use Rattle.std.specs.Str.{IsUtf8};
ghost use Rattle.ansi_style.specs.Written.{longest_close};
ghost use Rattle.ansi_safe.specs.Links.{longest_link_end, IsClosed};
ghost use Rattle.ansi_safe.specs.Safe.{is_safe};
ghost use Rattle.ansi_safe.specs.declared.policy.Links.TheVariants.{Keep};
ghost use Rattle.ansi_columns.specs.Edits.{change_of, changes_of, only_expand, HasUtf8Tail};
ghost use Rattle.ansi_columns.specs.Edits.{changed, changed_in_turn, edited, edited_row};
ghost use Rattle.ansi_columns.specs.Edits.{IsLent, AreLent, IsLentCell, IsLentEdited};
ghost use Rattle.ansi_columns.specs.Edits.{most_added, most_added_in_turn};
ghost use Rattle.ansi_cells.specs.Indents.{wrapped_with, IsWrappedWith};
ghost use Rattle.ansi_cells.specs.OneLine.{is_one_line};
ghost use Rattle.ansi_cells.specs.Rows.{cell_row, row_screen, indented_screens};
ghost use Rattle.ansi_cells.specs.Screens.{screen};
ghost use Rattle.ansi_cells.specs.Shown.{closed_cell};
ghost use Rattle.ansi_cells.specs.Wrapped.{CarriedPart};

use ansi_cells::fit::fit;
use ansi_cells::shown::{Alignment, pad};
use ansi_cells::sides::{Side, Truncation, truncate_with};
use ansi_cells::slices::slice;
use ansi_cells::tabs::expand_tabs;
use ansi_wraps::wrap::indents::{AnsiWrapWith, Wrap, wrap_edited};
use std::alloc::{AllocError, Allocator};
use std::borrow::CowStr;

/// An edit of a text by the columns of a terminal. [`edit_columns`] makes a list of them in turn.
///
/// ```
/// let slice = ColumnEdit::Slice {
///     start: 2,
///     end: None,
/// };
/// let edits = [ColumnEdit::Expand(4), slice];
/// assert!(rt; edit_columns(rt.alloc(), "a\tbc", &edits)?.as_str() == "  bc");
/// ```
#[derive(Clone, Copy)]
pub enum ColumnEdit<'a> {
    /// Each TAB becomes blanks up to the next multiple of this many columns, as
    /// `AnsiColumns::ansi_expand_tabs` does it. After any other edit a text has no TAB.
    Expand(usize),
    /// The columns from `start` up to `end`, or to the last one, stay. The first column is 0.
    Slice {
        start: usize,
        end: Option<usize>,
    },
    /// A text of more than `width` columns is cut at a side of it, with a tail where it is cut.
    Truncate {
        width: usize,
        tail: &'a str,
        side: Side,
    },
    /// A text of fewer than `width` columns gets blanks.
    Pad {
        width: usize,
        alignment: Alignment,
    },
    /// A text is truncated to `width` columns, and then padded to them.
    Fit {
        width: usize,
        alignment: Alignment,
        tail: &'a str,
    },
}

/// The text after the edits in turn, ready for display: safe, on one line, and with nothing open.
///
/// Each edit is made as the call of its name makes it, of what the edit before made. Then the text
/// is the text of a cell (`ansi_safe::cells::cell_of`), and the link and the style still open are
/// closed; after any edit but an expansion it is that already. So without an edit the result is the
/// text of a cell, closed. What is shown is what the edits make of the text's columns.
///
/// Returns a borrow, and doesn't allocate, if each edit leaves a stretch of the text as it is, and
/// nothing has to be left out or closed. Otherwise the result is at most as long as the text, plus
/// what each edit adds at most, and 95 bytes for a link and a style that were only expanded. `Err`
/// means out of memory. (Own.)
///
/// ```
/// let cut = ColumnEdit::Truncate {
///     width: 4,
///     tail: "…",
///     side: Side::End,
/// };
/// let pad = ColumnEdit::Pad {
///     width: 6,
///     alignment: Alignment::Right,
/// };
/// let cell = edit_columns(rt.alloc(), "\x1b[31m日本語\x1b[39m", &[cut, pad])?;
/// assert!(rt; cell.as_str() == "   \x1b[31m日\x1b[39m…");
/// ```
pub fn edit_columns<'t, A: Allocator + Copy>(
    alloc: A,
    text: &'t str,
    edits: &[ColumnEdit<'_>],
) -> Result<CowStr<'t, A>, AllocError>
    ensures bytes { IfOk result (λ c.
        cow_str_bytes c ≡ edited (changes_of edits.now) text.now) }
    ensures safe { IfOk result (λ c. IsTrue (is_safe Keep (cow_str_bytes c))) }
    ensures one_line { IfOk result (λ c. IsTrue (is_one_line (cow_str_bytes c))) }
    ensures closed { IfOk result (λ c. IsClosed (cow_str_bytes c)) }
    ensures screen { IfOk result (λ c. screen (cow_str_bytes c)
        ≡ row_screen (edited_row (changes_of edits.now) text.now)) }
    ensures borrowed { IfOk result (λ c.
        IsBorrowedStr c ↔ IsLentEdited (changes_of edits.now) text.now) }
    ensures len { IfOk result (λ c. length (cow_str_bytes c) ≤ length text.now
        + most_added_in_turn (changes_of edits.now) text.now + longest_link_end + longest_close) }
    ensures takes_no_memory { IsLentEdited (changes_of edits.now) text.now → IsOk result }
{
    let edited = edit_in_turn(alloc, CowStr::Borrowed(text), edits)?;
    if only_expand(edits) {
        return close_cell(alloc, edited);
    }
    Ok(edited)
}

/// The text of a cell, closed, as [`edit_columns`] makes it after expansions alone. An owned text that
/// stays is passed on. `Err` means out of memory. (Own.)
///
/// ```
/// let closed = close_cell(rt.alloc(), CowStr::Borrowed("\x1b[1ma\x07"))?;
/// assert!(rt; closed.as_str() == "\x1b[1ma\x1b[22m");
/// ```
pub fn close_cell<'t, A: Allocator + Copy>(
    alloc: A,
    text: CowStr<'t, A>,
) -> Result<CowStr<'t, A>, AllocError>
    ensures bytes { IfOk result (λ c. cow_str_bytes c ≡ closed_cell (cow_str_bytes text.entry)) }
    ensures utf8 { IfOk result (λ c. IsUtf8 (cow_str_bytes text.entry)) }
    ensures borrowed { IfOk result (λ c. IsBorrowedStr c ↔ (IsBorrowedStr text.entry
        × IsLentCell (cow_str_bytes text.entry))) }
    ensures len { IfOk result (λ c. length (cow_str_bytes c)
        ≤ length (cow_str_bytes text.entry) + longest_link_end + longest_close) }
    ensures takes_no_memory { IsBorrowedStr text.entry
        × IsLentCell (cow_str_bytes text.entry) → IsOk result }
{
    // It isn't too narrow, so its link and its style are closed, and it gets no blanks.
    let close = ColumnEdit::Pad {
        width: 0,
        alignment: Alignment::Left,
    };
    edit_column(alloc, &close, text)
}

/// The lines of the text after the edits in turn, wrapped at a width, with indents.
///
/// Each edit is made as [`edit_columns`] makes it. What they make is wrapped as it is, as
/// `wrap::indents::wrap_with` does it, so each line is safe, on one line, and with nothing open. A
/// text that is only expanded keeps its line ends, and a line ends at each. Without an edit the lines
/// are those of `wrap_with`.
///
/// The lines may borrow from the text and live as long as it. If some edit doesn't leave a stretch of
/// the text as it is, each line is owned. What is wrapped is at most as long as the text, plus what each
/// edit adds at most. `Err` means out of memory for an edit; if each edit leaves a stretch, the call
/// doesn't allocate. A line may be an `Err` too. (Own.)
///
/// ```
/// let slice = ColumnEdit::Slice {
///     start: 2,
///     end: None,
/// };
/// let mut lines = String::new(rt.alloc());
/// for line in edit_and_wrap(rt.alloc(), "> \x1b[1mlion tiger", &[slice], &Wrap::at(5))? {
///     lines.push_str(line?.as_str())?;
///     lines.push('\n')?;
/// }
/// assert!(rt; lines.as_str() == "\x1b[1mlion\x1b[22m\n\x1b[1mtiger\x1b[22m\n");
/// ```
pub fn edit_and_wrap<'t, 'a, A: Allocator + Copy>(
    alloc: A,
    text: &'t str,
    edits: &[ColumnEdit<'_>],
    to: &Wrap<'a>,
) -> Result<AnsiWrapWith<'t, 'a, A>, AllocError>
    ensures first_fit { IfOk result (λ lines. (wrapped : List CarriedPart)
        × IsWrappedWith (changed_in_turn (changes_of edits.now) text.now) to.now.width
        to.now.first_indent.now to.now.indent.now wrapped
        × (map (λ l. l.bytes) lines ≡ map (λ l. l.bytes) wrapped)) }
    ensures bytes { IfOk result (λ lines. map (λ l. l.bytes) lines
        ≡ map (λ l. l.bytes) (wrapped_with (changed_in_turn (changes_of edits.now) text.now)
        to.now.width to.now.first_indent.now to.now.indent.now)) }
    ensures safe { IfOk result (All (λ l. IsTrue (is_safe Keep l.bytes))) }
    ensures one_line { IfOk result (All (λ l. IsTrue (is_one_line l.bytes))) }
    ensures closed { IfOk result (All (λ l. IsClosed l.bytes)) }
    ensures screen { IfOk result (λ lines. map (λ l. screen l.bytes) lines
        ≡ indented_screens (changed_in_turn (changes_of edits.now) text.now) to.now.width
        to.now.first_indent.now to.now.indent.now) }
    ensures lent { AreLent (changes_of edits.now) text.now → IfOk result (λ lines.
        lines ≡ wrapped_with (changed_in_turn (changes_of edits.now) text.now) to.now.width
        to.now.first_indent.now to.now.indent.now) }
    ensures owned { (AreLent (changes_of edits.now) text.now → ⊥) → IfOk result (λ lines.
        IsTrue (list_all (λ l. not l.borrowed) lines)) }
    ensures len { IfOk result (λ lines. length (changed_in_turn (changes_of edits.now) text.now)
        ≤ length text.now + most_added_in_turn (changes_of edits.now) text.now) }
    ensures takes_no_memory { AreLent (changes_of edits.now) text.now → IsOk result }
{
    let made = edit_in_turn(alloc, CowStr::Borrowed(text), edits)?;
    Ok(wrap_edited(alloc, made, to))
}

/// What edits make of a text in turn. Unlike the result of [`edit_columns`], a text that is only
/// expanded may have anything still.
///
/// Returns a borrow, and doesn't allocate, if the text is one and each edit leaves a stretch of it as
/// it is; an owned text that stays is passed on. Otherwise the result is at most as long as the text,
/// plus what each edit adds at most. `Err` means out of memory. (Own.)
pub fn edit_in_turn<'t, A: Allocator + Copy>(
    alloc: A,
    text: CowStr<'t, A>,
    edits: &[ColumnEdit<'_>],
) -> Result<CowStr<'t, A>, AllocError>
    ensures bytes { IfOk result (λ c. cow_str_bytes c
        ≡ changed_in_turn (changes_of edits.now) (cow_str_bytes text.entry)) }
    ensures row { IfOk result (λ c. cell_row (cow_str_bytes c)
        ≡ edited_row (changes_of edits.now) (cow_str_bytes text.entry)) }
    ensures safe { IsFalse (only_expand (changes_of edits.now)) →
        IfOk result (λ c. IsTrue (is_safe Keep (cow_str_bytes c))) }
    ensures one_line { IsFalse (only_expand (changes_of edits.now)) →
        IfOk result (λ c. IsTrue (is_one_line (cow_str_bytes c))) }
    ensures closed { IsFalse (only_expand (changes_of edits.now)) →
        IfOk result (λ c. IsClosed (cow_str_bytes c)) }
    ensures screen { IsFalse (only_expand (changes_of edits.now)) →
        IfOk result (λ c. screen (cow_str_bytes c)
        ≡ row_screen (edited_row (changes_of edits.now) (cow_str_bytes text.entry))) }
    ensures borrowed { IfOk result (λ c. IsBorrowedStr c ↔ (IsBorrowedStr text.entry
        × AreLent (changes_of edits.now) (cow_str_bytes text.entry))) }
    ensures len { IfOk result (λ c. length (cow_str_bytes c) ≤ length (cow_str_bytes text.entry)
        + most_added_in_turn (changes_of edits.now) (cow_str_bytes text.entry)) }
    ensures takes_no_memory { IsBorrowedStr text.entry
        × AreLent (changes_of edits.now) (cow_str_bytes text.entry) → IsOk result }
{
    let mut edited = text;
    let mut left = edits;
    'edits: while let [edit, more @ ..] = left {
        edited = edit_column(alloc, edit, edited)?;
        left = more;
    }
    Ok(edited)
}

/// Whether each edit expands TABs, or there is none. Then the text may have anything still.
fn only_expand(edits: &[ColumnEdit<'_>]) -> bool
    ensures { result ≡ only_expand (changes_of edits.now) }
{
    let mut left = edits;
    'edits: while let [edit, more @ ..] = left {
        if !matches!(edit, ColumnEdit::Expand(_)) {
            return false;
        }
        left = more;
    }
    true
}

/// What one edit makes of a text. [`edit_in_turn`] and the calls for other languages make each edit by
/// it.
///
/// Returns a borrow, and doesn't allocate, if the text is one and the edit leaves a stretch of it as it
/// is; an owned text that stays is passed on. `Err` means out of memory. (Own.)
///
/// ```
/// let expanded = edit_column(rt.alloc(), &ColumnEdit::Expand(4), CowStr::Borrowed("a\tb"))?;
/// assert!(rt; expanded.as_str() == "a   b");
/// ```
pub fn edit_column<'t, A: Allocator + Copy>(
    alloc: A,
    edit: &ColumnEdit<'_>,
    text: CowStr<'t, A>,
) -> Result<CowStr<'t, A>, AllocError>
    ensures bytes { IfOk result (λ c.
        cow_str_bytes c ≡ changed (change_of edit.now) (cow_str_bytes text.entry)) }
    ensures borrowed { IfOk result (λ c. IsBorrowedStr c ↔ (IsBorrowedStr text.entry
        × IsLent (change_of edit.now) (cow_str_bytes text.entry))) }
    ensures len { IfOk result (λ c. length (cow_str_bytes c) ≤ length (cow_str_bytes text.entry)
        + most_added (change_of edit.now) (cow_str_bytes text.entry)) }
    ensures takes_no_memory { IsBorrowedStr text.entry
        × IsLent (change_of edit.now) (cow_str_bytes text.entry) → IsOk result }
    ensures utf8 { IfOk result (λ c. IsUtf8 (cow_str_bytes text.entry)
        × HasUtf8Tail (change_of edit.now)) }
{
    match text {
        CowStr::Borrowed(text) => edit_text(alloc, edit, text),
        CowStr::Owned(text) => {
            let edited = match edit_text(alloc, edit, text.as_str())? {
                CowStr::Borrowed(kept) if kept == text.as_str() => None,
                edited => Some(edited.into_owned(alloc)?),
            };
            Ok(CowStr::Owned(edited.unwrap_or(text)))
        }
    }
}

/// What an edit makes of a text.
fn edit_text<'t, A: Allocator + Copy>(
    alloc: A,
    edit: &ColumnEdit<'_>,
    text: &'t str,
) -> Result<CowStr<'t, A>, AllocError>
    ensures bytes { IfOk result (λ c.
        cow_str_bytes c ≡ changed (change_of edit.now) text.now) }
    ensures borrowed { IfOk result (λ c.
        IsBorrowedStr c ↔ IsLent (change_of edit.now) text.now) }
    ensures len { IfOk result (λ c. length (cow_str_bytes c)
        ≤ length text.now + most_added (change_of edit.now) text.now) }
    ensures takes_no_memory { IsLent (change_of edit.now) text.now → IsOk result }
    ensures utf8 { IfOk result (λ c. IsUtf8 text.now × HasUtf8Tail (change_of edit.now)) }
{
    match edit {
        ColumnEdit::Expand(stop) => expand_tabs(alloc, text, *stop),
        ColumnEdit::Slice { start, end } => slice(alloc, text, *start, *end),
        ColumnEdit::Truncate { width, tail, side } => {
            let to = Truncation {
                width: *width,
                tail: *tail,
                side: *side,
            };
            truncate_with(alloc, text, &to)
        }
        ColumnEdit::Pad { width, alignment } => pad(alloc, text, *width, *alignment),
        ColumnEdit::Fit {
            width,
            alignment,
            tail,
        } => fit(alloc, text, *width, *alignment, *tail),
    }
}
