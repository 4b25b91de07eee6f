//! Lines of printable ASCII and select graphic renditions alone. One pass tells that such a line is shown as
//! it is, and how many columns it has, so an edit that leaves it isn't made.
ghost use Rattle.std.specs.Prelude.{◌≡◌, ◌++◌, ◌∷◌, [], List, ℕ, IfSome, true, map};
ghost use Rattle.ansi_columns.specs.Edits as columns;
ghost use Rattle.ansi_cells.specs.Wrapped.{wrapped};
ghost use Rattle.ansi_view_runs.specs.Edits.{change_of};
ghost use Rattle.ansi_view_runs.specs.LineViews.{line_of};
ghost use Rattle.ansi_view_runs.specs.PlainLines.{IsPlainLine};
ghost use Rattle.ansi_view_runs.specs.SafeJobs.{work_of};
ghost use Rattle.ansi_view_runs.specs.Views.{changed_line, decoded, opening_after, shown};

use crate::edits::LineEdit;
use crate::lines::Line;
use crate::view::{SafeJob, View};
use ansi_cells::plain_cells::plain_cell;
use ansi_columns::ColumnEdit;
use ansi_style::styles;
use std::alloc::Allocator;
use std::simd::prelude::*;

/// The text of a line that is printable ASCII and select graphic renditions alone, and leaves nothing open.
#[derive(Clone, Copy)]
pub(crate) struct PlainLine<'t> {
    pub(crate) text: &'t str,
    columns: usize,
    /// The last byte of the plain text, or 0 if that is empty.
    last: u8,
}

impl<'t> PlainLine<'t> {
    /// The text of a line whose bytes are decoded, if it is such a text. It is shown as it is, if nothing is
    /// open before it. `None` says nothing. Doesn't allocate.
    #[inline(always)]
    pub(crate) fn of(view: View, line: &Line<'_>, text: &'t str) -> Option<Self>
        requires { text.now ≡ decoded view line.now.text.now }
        ensures plain { IfSome result IsPlainLine }
        ensures text { IfSome result (λ plain. plain.text.now ≡ text.now) }
        ensures shown { IfSome result (λ _. shown view [] (line_of line.now) ≡ text.now) }
        ensures opening { IfSome result (λ _. opening_after view [] (line_of line.now) ≡ []) }
    {
        if begins_with_tab(text) {
            return None;
        }
        let cell = plain_cell(text, usize::MAX)?;
        if styles::has_close(&cell.style) {
            return None;
        }
        Some(PlainLine {
            text,
            columns: usize::MAX - cell.left,
            last: cell.last,
        })
    }

    /// Whether what a job's edits make of the text is the text. `false` says nothing. Doesn't allocate.
    pub(crate) fn is_left_by<A: Allocator>(&self, job: &SafeJob<'_, A>) -> bool
        requires { IsPlainLine self.now }
        ensures { result ≡ true → (end : List ℕ) →
            changed_line (work_of job.now).changes self.now.text.now end
            ≡ self.now.text.now ++ end }
    {
        match only_edit(job) {
            Some(LineEdit::Columns(edit)) => self.is_left_by_edit(&edit),
            Some(LineEdit::Wrap(width)) => self.is_one_line(width),
            None => false,
        }
    }

    // Whether an edit leaves the text. `false` says nothing.
    fn is_left_by_edit(&self, edit: &ColumnEdit<'_>) -> bool
        requires { IsPlainLine self.now }
        ensures { result ≡ true →
            columns.changed (columns.change_of edit.now) self.now.text.now ≡ self.now.text.now }
    {
        match edit {
            ColumnEdit::Truncate { width, .. } => self.columns <= *width,
            ColumnEdit::Pad { width, .. } => *width <= self.columns,
            ColumnEdit::Fit { width, .. } => self.columns == *width,
            ColumnEdit::Expand(_) => false,
            ColumnEdit::Slice { .. } => false,
        }
    }

    // Whether the text is the only line of its wrap at a width. `false` says nothing.
    fn is_one_line(&self, width: usize) -> bool
        requires { IsPlainLine self.now }
        ensures { result ≡ true →
            map (λ l. l.bytes) (wrapped self.now.text.now width) ≡ self.now.text.now ∷ [] }
    {
        self.columns <= width && self.last != b' '
    }
}

// The edit of a job that has only one.
fn only_edit<'t, A: Allocator>(job: &SafeJob<'t, A>) -> Option<LineEdit<'t>>
    ensures { IfSome result (λ edit. (work_of job.now).changes ≡ change_of edit ∷ []) }
{
    match job.stages.as_slice() {
        [] => match job.last.as_slice() {
            [edit] => Some(LineEdit::Columns(*edit)),
            _ => None,
        },
        [stage] => {
            if !stage.edits.is_empty() {
                return None;
            }
            if !job.last.is_empty() {
                return None;
            }
            Some(LineEdit::Wrap(stage.width))
        }
        _ => None,
    }
}

// Whether one of the first 16 bytes is a TAB. Most lines that have one have it there, and are spared the pass.
#[inline(always)]
fn begins_with_tab(text: &str) -> bool {
    let bytes = text.as_bytes();
    if bytes.len() < 16 {
        return false;
    }
    u8x16::from_slice(bytes)
        .simd_eq(u8x16::splat(b'\t'))
        .to_bitmask()
        != 0
}
