//! What edits make of a line, and its end.
ghost use Rattle.std.specs.Prelude.{◌≡◌, ◌≤◌, ◌+◌, ◌*◌, ◌++◌, [], ◌∷◌, IfOk, length, string_bytes};
ghost use Rattle.std.specs.Cow.{cow_str_bytes};
ghost use Rattle.std.specs.List.{join_by};
ghost use Rattle.ansi_lines_runs.specs.Runs.{words_of};
ghost use Rattle.ansi_view_runs.specs.SafeJobs.{changes_then, work_of};
ghost use Rattle.ansi_view_runs.specs.Views.{changed_line, line_break};

use crate::edits::{Stage, push_edited};
use crate::view::SafeJob;
use ansi_columns::edits::{edit_and_wrap, edit_in_turn};
use ansi_columns::wrap::PushNext;
use ansi_columns::wrap::indents::{Wrap, has_next_with};
use std::alloc::{AllocError, Allocator};
use std::borrow::CowStr;

/// What a job makes of a text, as lines, the last of which has this end. `Err` means out of memory.
pub(crate) fn edit_line<A: Allocator + Copy>(
    alloc: A,
    job: &SafeJob<'_, A>,
    text: CowStr<'_, A>,
    end: &str,
) -> Result<String<A>, AllocError>
    ensures { IfOk result (λ s. string_bytes s
        ≡ changed_line (work_of job.now).changes (cow_str_bytes text.entry) end.now) }
{
    let last = job.last.as_slice();
    match job.stages.as_slice() {
        [] => end_text(alloc, edit_in_turn(alloc, text, last)?, end),
        [stage] if last.is_empty() => wrap_line(alloc, stage, text.as_str(), end),
        stages => {
            let mut texts = Vec::new(alloc);
            push_edited(alloc, stages, last, text.as_str(), &mut texts)?;
            join_lines(alloc, texts.as_slice(), end)
        }
    }
}

/// A text and its end.
pub(crate) fn end_text<A: Allocator>(
    alloc: A,
    text: CowStr<'_, A>,
    end: &str,
) -> Result<String<A>, AllocError>
    ensures { IfOk result (λ s. string_bytes s ≡ cow_str_bytes text.entry ++ end.now) }
{
    match text {
        CowStr::Owned(text) => with_end(text, end),
        CowStr::Borrowed(text) => {
            let mut ended = String::with_capacity(alloc, text.len() + end.len())?;
            ended.push_str(text)?;
            ended.push_str(end)?;
            Ok(ended)
        }
    }
}

// A text with its end, which asks for no more room than the end needs.
fn with_end<A: Allocator>(mut text: String<A>, end: &str) -> Result<String<A>, AllocError>
    ensures { IfOk result (λ s. string_bytes s ≡ string_bytes text ++ end.now) }
{
    text.reserve_exact(end.len())?;
    text.push_str(end)?;
    Ok(text)
}

// The lines of a text edited and wrapped, the last of which has this end.
fn wrap_line<A: Allocator + Copy>(
    alloc: A,
    stage: &Stage<'_, A>,
    text: &str,
    end: &str,
) -> Result<String<A>, AllocError>
    ensures { IfOk result (λ s. string_bytes s
        ≡ changed_line (changes_then (stage.now ∷ []) []) text.now end.now) }
{
    let to = Wrap::at(stage.width);
    let mut made = String::with_capacity(alloc, room_for_lines(text, stage.width, end))?;
    let mut lines = edit_and_wrap(alloc, text, stage.edits.as_slice(), &to)?;
    lines.push_next(&mut made).transpose()?;
    'lines: while has_next_with(&lines) {
        made.push_str(line_break(end))?;
        lines.push_next(&mut made).transpose()?;
    }
    with_end(made, end)
}

// How many bytes the lines of a text wrapped at a width have, with their ends, if each line is full
// and opens and closes nothing.
fn room_for_lines(text: &str, width: usize, end: &str) -> usize
    ensures most { result ≤ length text.now + length end.now
        + length text.now * length (line_break end.now) }
{
    let breaks = text.len() / width.max(1);
    text.len()
        .saturating_add(end.len())
        .saturating_add(breaks.saturating_mul(line_break(end).len()))
}

// Texts as lines, the last of which has this end.
fn join_lines<A: Allocator>(
    alloc: A,
    texts: &[String<A>],
    end: &str,
) -> Result<String<A>, AllocError>
    ensures { IfOk result (λ s. string_bytes s
        ≡ join_by (λ t. t) (line_break end.now) (words_of texts.now) ++ end.now) }
{
    let lines = texts.join(alloc, line_break(end))?;
    with_end(lines, end)
}

// What ends each of several lines but the last, which has this end.
fn line_break(end: &str) -> &str
    ensures { result.now ≡ line_break end.now }
{
    if end.is_empty() { "\n" } else { end }
}
