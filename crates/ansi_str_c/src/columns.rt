//! Calls on the display width of a text, and on its links.
ghost use Rattle.ansi_calls.specs.Columns.{TellsWidth, TellsFitting, TellsColumn, Truncates, Pads};
ghost use Rattle.ansi_calls.specs.Columns.{Slices, Fits, TruncatesAt, ExpandsTabs, Wraps, WrapsWith};
ghost use Rattle.ansi_calls.specs.Columns.{WritesLines, WritesLink};
ghost use Rattle.ansi_calls.specs.ColumnSteps.{EditsColumns};

use ansi_calls::answers::Answer;
use ansi_calls::column_edits::{ColumnStep, edit_columns};
use ansi_calls::columns::{
    column_of, expand_tabs, fit, fitting, link_at, pad, slice, truncate, truncate_with, width,
};
use ansi_calls::lines::{LineEntry, lines, wrap, wrap_with};
use ansi_calls::lists::ListAnswer;
use std::alloc::Global;

/// The display width of the plain text, in columns.
#[unsafe(no_mangle)]
pub extern "C" fn ansi_str_raw_width(text: &[u8]) -> Answer
    ensures { TellsWidth text.now result }
{
    width(text)
}

/// The position up to which the plain text fits into `width` columns.
#[unsafe(no_mangle)]
pub extern "C" fn ansi_str_raw_fitting(text: &[u8], width: usize) -> Answer
    ensures { TellsFitting text.now width result }
{
    fitting(text, width)
}

/// The columns of what is shown before a position.
#[unsafe(no_mangle)]
pub extern "C" fn ansi_str_raw_column_of(text: &[u8], position: usize) -> Answer
    ensures { TellsColumn text.now position result }
{
    column_of(text, position)
}

/// The text truncated to `width` columns.
#[unsafe(no_mangle)]
pub extern "C" fn ansi_str_raw_truncate(
    alloc: Global,
    text: &[u8],
    width: usize,
    tail: &[u8],
    buffer: &mut [u8],
) -> Answer
    ensures { Truncates text.now width tail.now result buffer.old buffer.new }
{
    truncate(alloc, text, width, tail, buffer)
}

/// The text padded to `width` columns.
#[unsafe(no_mangle)]
pub extern "C" fn ansi_str_raw_pad(
    alloc: Global,
    text: &[u8],
    width: usize,
    alignment: u32,
    buffer: &mut [u8],
) -> Answer
    ensures { Pads text.now width alignment result buffer.old buffer.new }
{
    pad(alloc, text, width, alignment, buffer)
}

/// The text truncated or padded to `width` columns.
#[unsafe(no_mangle)]
pub extern "C" fn ansi_str_raw_fit(
    alloc: Global,
    text: &[u8],
    width: usize,
    alignment: u32,
    tail: &[u8],
    buffer: &mut [u8],
) -> Answer
    ensures { Fits text.now width alignment tail.now result buffer.old buffer.new }
{
    fit(alloc, text, width, alignment, tail, buffer)
}

/// The text truncated to `width` columns at a side.
#[unsafe(no_mangle)]
pub extern "C" fn ansi_str_raw_truncate_with(
    alloc: Global,
    text: &[u8],
    width: usize,
    tail: &[u8],
    side: u32,
    buffer: &mut [u8],
) -> Answer
    ensures { TruncatesAt text.now width tail.now side result buffer.old buffer.new }
{
    truncate_with(alloc, text, width, tail, side, buffer)
}

/// The columns of the text from `start` up to `end`.
#[unsafe(no_mangle)]
pub extern "C" fn ansi_str_raw_slice(
    alloc: Global,
    text: &[u8],
    start: usize,
    end: usize,
    buffer: &mut [u8],
) -> Answer
    ensures { Slices text.now start end result buffer.old buffer.new }
{
    slice(alloc, text, start, end, buffer)
}

/// The text with each TAB expanded to blanks up to the next multiple of `stop` columns.
#[unsafe(no_mangle)]
pub extern "C" fn ansi_str_raw_expand_tabs(
    alloc: Global,
    text: &[u8],
    stop: usize,
    buffer: &mut [u8],
) -> Answer
    ensures { ExpandsTabs text.now stop result buffer.old buffer.new }
{
    expand_tabs(alloc, text, stop, buffer)
}

/// The text after all edits by columns, each made on the result of the one before.
#[unsafe(no_mangle)]
pub extern "C" fn ansi_str_raw_edit_columns(
    alloc: Global,
    text: &[u8],
    steps: &[ColumnStep<'_>],
    buffer: &mut [u8],
) -> Answer
    ensures { EditsColumns text.now steps.now result buffer.old buffer.new }
{
    edit_columns(alloc, text, steps, buffer)
}

/// The lines of the text wrapped at `width` columns, ready for display, and where each ends.
#[unsafe(no_mangle)]
pub extern "C" fn ansi_str_raw_wrap(
    alloc: Global,
    text: &[u8],
    width: usize,
    buffer: &mut [u8],
    ends: &mut [usize],
) -> ListAnswer
    ensures { Wraps text.now width result buffer.old buffer.new ends.old ends.new }
{
    wrap(alloc, text, width, buffer, ends)
}

/// The lines of the text wrapped at `width` columns with an indent before each, ready for display,
/// and where each ends.
#[unsafe(no_mangle)]
pub extern "C" fn ansi_str_raw_wrap_with(
    alloc: Global,
    text: &[u8],
    width: usize,
    first_indent: &[u8],
    indent: &[u8],
    buffer: &mut [u8],
    ends: &mut [usize],
) -> ListAnswer
    ensures { WrapsWith text.now width first_indent.now indent.now result buffer.old buffer.new
        ends.old ends.new }
{
    wrap_with(alloc, text, width, first_indent, indent, buffer, ends)
}

/// Where each line of the text wrapped at `width` columns begins and ends in the plain text.
#[unsafe(no_mangle)]
pub extern "C" fn ansi_str_raw_lines(
    text: &[u8],
    width: usize,
    entries: &mut [LineEntry],
) -> ListAnswer
    ensures { WritesLines text.now width result entries.old entries.new }
{
    lines(text, width, entries)
}

/// The address of the hyperlink at a position.
#[unsafe(no_mangle)]
pub extern "C" fn ansi_str_raw_link_at(text: &[u8], index: usize, buffer: &mut [u8]) -> Answer
    ensures { WritesLink text.now index result buffer.old buffer.new }
{
    link_at(text, index, buffer)
}
