//! Edits of a line by columns, and wraps.
ghost use Rattle.std.specs.Prelude.{◌≡◌, ◌++◌, OnOk};
ghost use Rattle.ansi_lines_runs.specs.Runs.{words_of};
ghost use Rattle.ansi_view_runs.specs.Edits.{changed_in_turn};
ghost use Rattle.ansi_view_runs.specs.SafeJobs.{changes_then};

use ansi_columns::edits::{ColumnEdit, edit_and_wrap, edit_in_turn};
use ansi_columns::wrap::indents::Wrap;
use std::alloc::{AllocError, Allocator};
use std::borrow::CowStr;

/// An edit of a line: by the columns of a terminal, or into lines.
#[derive(Clone, Copy)]
pub enum LineEdit<'w> {
    /// One text is made of one. (`ansi_columns`.)
    Columns(ColumnEdit<'w>),
    /// The text is broken into lines of at most this many columns.
    Wrap(usize),
}

/// Edits by columns, and the wrap that follows them.
#[derive(Drop)]
pub struct Stage<'w, A: Allocator> {
    /// What is made of a text first.
    pub edits: Vec<ColumnEdit<'w>, A>,
    /// The greatest width of a line of what that is, in columns.
    pub width: usize,
}

/// Appends what stages, and then the last edits, make of a text in turn: each stage edits and wraps
/// each line that the one before made. `Err` means out of memory. (Own.)
pub(crate) fn push_edited<A: Allocator + Copy>(
    alloc: A,
    stages: &[Stage<'_, A>],
    last: &[ColumnEdit<'_>],
    text: &str,
    made: &mut Vec<String<A>, A>,
) -> Result<(), AllocError>
    ensures { OnOk result (words_of made.new.items ≡ words_of made.old.items
        ++ changed_in_turn (changes_then stages.now last.now) text.now) }
{
    let [stage, more @ ..] = stages else {
        let edited = edit_in_turn(alloc, CowStr::Borrowed(text), last)?;
        made.push(edited.into_owned(alloc)?)?;
        return Ok(());
    };
    let to = Wrap::at(stage.width);
    let mut lines = edit_and_wrap(alloc, text, stage.edits.as_slice(), &to)?;
    'lines: while let Some(line) = lines.next() {
        push_edited(alloc, more, last, line?.as_str(), made)?;
    }
    Ok(())
}
