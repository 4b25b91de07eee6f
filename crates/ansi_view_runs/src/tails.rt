//! The tails of edits, made safe.
ghost use Rattle.std.specs.Prelude.{◌≡◌, IfOk, map};
ghost use Rattle.ansi_safe.specs.Sanitized.{sanitized};
ghost use Rattle.ansi_lines_runs.specs.Runs.{words_of};
ghost use Rattle.ansi_columns.specs.Edits as columns;
ghost use Rattle.ansi_view_runs.specs.Edits.{OnColumns, change_of, changes_of};
ghost use Rattle.ansi_view_runs.specs.Edits.{tail_of, with_tail};
ghost use Rattle.ansi_view_runs.specs.Jobs as jobs;
ghost use Rattle.ansi_view_runs.specs.SafeJobs.{work_of};
ghost use Rattle.ansi_view_runs.specs.Views.{with_safe_tails};

use crate::edits::{LineEdit, Stage};
use crate::view::{Job, SafeJob};
use ansi_columns::ColumnEdit;
use ansi_safe::policy::Policy;
use ansi_safe::safe::sanitize;
use std::alloc::{AllocError, Allocator};

/// The tails of edits, each made safe, in order. An edit without a tail has an empty one. `Err` means
/// out of memory.
pub(crate) fn safe_tails<A: Allocator + Copy>(
    alloc: A,
    policy: Policy,
    edits: &[LineEdit<'_>],
) -> Result<Vec<String<A>, A>, AllocError>
    ensures { IfOk result (λ tails. words_of tails.items
        ≡ map (λ change. sanitized policy (tail_of change)) (changes_of edits.now)) }
{
    let mut tails = Vec::new(alloc);
    for edit in edits {
        let tail = sanitize(alloc, tail_of(edit), policy)?;
        tails.push(tail.into_owned(alloc)?)?;
    }
    Ok(tails)
}

/// A job with these tails of its edits, which are made safe. `Err` means out of memory.
pub(crate) fn safe_job<'t, A: Allocator + Copy>(
    alloc: A,
    job: &Job<'_, A>,
    tails: &'t [String<A>],
) -> Result<SafeJob<'t, A>, AllocError>
    requires { words_of tails.now ≡ map (λ change. sanitized job.now.view.policy (tail_of change))
        (changes_of job.now.edits.items) }
    ensures { IfOk result (λ made. work_of made ≡ with_safe_tails (jobs.work_of job.now)) }
{
    let mut stages = Vec::new(alloc);
    let mut edits = Vec::new(alloc);
    let mut left = job.edits.as_slice();
    let mut tails_left = tails;
    while let [edit, more @ ..] = left {
        let [tail, more_tails @ ..] = tails_left else {
            break;
        };
        match edit {
            LineEdit::Columns(edit) => edits.push(with_column_tail(edit, tail.as_str()))?,
            LineEdit::Wrap(width) => {
                stages.push(Stage {
                    edits,
                    width: *width,
                })?;
                edits = Vec::new(alloc);
            }
        }
        left = more;
        tails_left = more_tails;
    }
    Ok(SafeJob {
        view: job.view,
        stages,
        last: edits,
    })
}

// The tail of an edit, or an empty one.
fn tail_of<'w>(edit: &LineEdit<'w>) -> &'w str
    ensures { result.now ≡ tail_of (change_of edit.now) }
{
    match edit {
        LineEdit::Columns(ColumnEdit::Truncate { tail, .. }) => tail,
        LineEdit::Columns(ColumnEdit::Fit { tail, .. }) => tail,
        _ => "",
    }
}

// The same of an edit by columns.
fn with_column_tail<'t>(edit: &ColumnEdit<'_>, tail: &'t str) -> ColumnEdit<'t>
    ensures { OnColumns (columns.change_of result)
        ≡ with_tail tail.now (OnColumns (columns.change_of edit.now)) }
{
    match edit {
        ColumnEdit::Expand(stop) => ColumnEdit::Expand(*stop),
        ColumnEdit::Slice { start, end } => ColumnEdit::Slice {
            start: *start,
            end: *end,
        },
        ColumnEdit::Truncate { width, side, .. } => ColumnEdit::Truncate {
            width: *width,
            tail,
            side: *side,
        },
        ColumnEdit::Pad { width, alignment } => ColumnEdit::Pad {
            width: *width,
            alignment: *alignment,
        },
        ColumnEdit::Fit {
            width,
            alignment,
            ..
        } => ColumnEdit::Fit {
            width: *width,
            alignment: *alignment,
            tail,
        },
    }
}
