//! The results of calls on columns.
use crate::check::Check;
use crate::rows::Row;
use crate::texts::{check_cut_in, check_indented_lines, check_lines};
use ansi_columns::AnsiColumns;
use ansi_columns::columns::fitting;
use ansi_columns::edits::{ColumnEdit, edit_columns};
use ansi_columns::fit::fit;
use ansi_columns::lines::Lines;
use ansi_columns::shown::{Alignment, pad, truncate};
use ansi_columns::sides::{Side, Truncation, truncate_with};
use ansi_columns::slices::slice;
use ansi_columns::tabs::expand_tabs;
use ansi_columns::wrap::indents::{Wrap, wrap_with};
use ansi_columns::wrap::wrap;
use ansi_str::AnsiStr;
use refusing::Refusing;
use std::alloc::{AllocError, Global};
use std::borrow::CowStr;

#[derive(Clone, Copy)]
pub enum ColumnCall<'r> {
    Width,
    Fitting(usize),
    ColumnOf(usize),
    /// A cut up to where the text fits.
    Front(usize),
    Truncate(usize, &'r str),
    Pad(usize, Alignment),
    Fit(usize, Alignment, &'r str),
    TruncateWith(Truncation<'r>),
    /// The text with its TABs expanded up to multiples of this.
    ExpandTabs(usize),
    /// The columns from one up to another.
    Slice(usize, usize),
    EditColumns(&'r [ColumnEdit<'r>]),
    /// The places of the lines of a wrapped text.
    Lines(usize),
    Wrap(usize),
    WrapWith(Wrap<'r>),
    LinkAt(usize),
}

fn alignment_of(word: &str) -> Option<Alignment> {
    match word {
        "Left" => Some(Alignment::Left),
        "Center" => Some(Alignment::Center),
        "Right" => Some(Alignment::Right),
        _ => None,
    }
}

fn side_of(word: &str) -> Option<Side> {
    match word {
        "End" => Some(Side::End),
        "Start" => Some(Side::Start),
        "Middle" => Some(Side::Middle),
        _ => None,
    }
}

/// A width, a tail and a side.
fn truncation_of<'r>(row: &Row<'r>) -> Option<Truncation<'r>> {
    let tail = row.argument(1)?;
    let side = side_of(row.argument(2)?)?;
    Some(Truncation::to(row.number(0)?).tail(tail).side(side))
}

/// A width, and the indents of the first line and of the others.
fn wrap_of<'r>(row: &Row<'r>) -> Option<Wrap<'r>> {
    let to = Wrap::at(row.number(0)?).first_indent(row.argument(1)?);
    Some(to.indent(row.argument(2)?))
}

fn nth_alignment(number: usize) -> Option<Alignment> {
    match number {
        0 => Some(Alignment::Left),
        1 => Some(Alignment::Center),
        2 => Some(Alignment::Right),
        _ => None,
    }
}

fn nth_side(number: usize) -> Option<Side> {
    match number {
        0 => Some(Side::End),
        1 => Some(Side::Start),
        2 => Some(Side::Middle),
        _ => None,
    }
}

/// An edit by columns of a row: its kind, an alignment or a side, two numbers and a tail.
fn column_edit_of<'r>(row: &Row<'r>, at: usize) -> Option<ColumnEdit<'r>> {
    let place = row.number(at.saturating_add(1))?;
    let width = row.number(at.saturating_add(2))?;
    let end = row.number(at.saturating_add(3))?;
    let tail = row.argument(at.saturating_add(4))?;
    Some(match row.number(at)? {
        0 => ColumnEdit::Expand(width),
        1 => ColumnEdit::Slice {
            start: width,
            end: Some(end),
        },
        2 => ColumnEdit::Truncate {
            width,
            tail,
            side: nth_side(place)?,
        },
        3 => ColumnEdit::Pad {
            width,
            alignment: nth_alignment(place)?,
        },
        4 => ColumnEdit::Fit {
            width,
            alignment: nth_alignment(place)?,
            tail,
        },
        _ => return None,
    })
}

/// The edits by columns of a row, each of five fields. `None` if there is no such edit.
pub fn column_edits_of<'r>(alloc: Global, row: &Row<'r>) -> Option<Vec<ColumnEdit<'r>>> {
    let mut edits = Vec::new(alloc);
    for at in (0..row.more.len()).step_by(5) {
        edits.push(column_edit_of(row, at)?).ok()?;
    }
    Some(edits)
}

impl<'r> ColumnCall<'r> {
    pub fn new(row: &Row<'r>) -> Option<Self> {
        Some(match row.call {
            "width" => ColumnCall::Width,
            "fitting" => ColumnCall::Fitting(row.number(0)?),
            "column_of" => ColumnCall::ColumnOf(row.number(0)?),
            "front" => ColumnCall::Front(row.number(0)?),
            "truncate" => ColumnCall::Truncate(row.number(0)?, row.argument(1)?),
            "pad" => ColumnCall::Pad(row.number(0)?, alignment_of(row.argument(1)?)?),
            "fit" => {
                let alignment = alignment_of(row.argument(1)?)?;
                ColumnCall::Fit(row.number(0)?, alignment, row.argument(2)?)
            }
            "truncate_with" => ColumnCall::TruncateWith(truncation_of(row)?),
            "expand_tabs" => ColumnCall::ExpandTabs(row.number(0)?),
            "slice" => ColumnCall::Slice(row.number(0)?, row.number(1)?),
            "lines" => ColumnCall::Lines(row.number(0)?),
            "wrap" => ColumnCall::Wrap(row.number(0)?),
            "wrap_with" => ColumnCall::WrapWith(wrap_of(row)?),
            "link_at" => ColumnCall::LinkAt(row.number(0)?),
            _ => return None,
        })
    }
}

/// The longest prefix of a text that fits into `width` columns. Its end is a good position, so the
/// text can be cut there.
fn fitting_front<T: AnsiStr>(
    alloc: Global,
    text: &T,
    width: usize,
) -> Result<CowStr<'_>, AllocError> {
    text.ansi_cut(alloc, ..text.ansi_fitting(width))
}

fn check_column(check: &mut Check<'_>, column: Option<usize>) {
    match column {
        Some(_) => check.number_or_none(column),
        None => check.none("2"),
    }
}

fn check_places(check: &mut Check<'_>, lines: Lines<'_>) {
    for place in lines {
        check.interval(Some(place));
    }
}

fn check_link(check: &mut Check<'_>, link: Option<&str>) {
    match link {
        Some(address) => check.text(address),
        None => check.none("1"),
    }
}

/// Checks what a call of `AnsiColumns` returns.
pub fn make_column_call<T: AnsiStr>(check: &mut Check<'_>, text: &T, call: ColumnCall<'_>) {
    let alloc = check.alloc;
    match call {
        ColumnCall::Width => check.number_or_none(Some(text.ansi_width())),
        ColumnCall::Fitting(width) => check.number_or_none(Some(text.ansi_fitting(width))),
        ColumnCall::ColumnOf(position) => check_column(check, text.ansi_column_of(position)),
        ColumnCall::Front(width) => check.text_or_err(fitting_front(alloc, text, width)),
        ColumnCall::Truncate(width, tail) => {
            check.text_or_err(text.ansi_truncate(alloc, width, tail));
        }
        ColumnCall::Pad(width, alignment) => {
            check.text_or_err(text.ansi_pad(alloc, width, alignment));
        }
        ColumnCall::Fit(width, alignment, tail) => {
            check.text_or_err(text.ansi_fit(alloc, width, alignment, tail));
        }
        ColumnCall::TruncateWith(to) => check.text_or_err(text.ansi_truncate_with(alloc, &to)),
        ColumnCall::ExpandTabs(stop) => check.text_or_err(text.ansi_expand_tabs(alloc, stop)),
        ColumnCall::Slice(start, end) => check.text_or_err(text.ansi_slice(alloc, start..end)),
        ColumnCall::EditColumns(edits) => {
            check.text_or_err(edit_columns(alloc, text.as_text(), edits));
        }
        ColumnCall::Lines(width) => check_places(check, Lines::new(text.as_text(), width)),
        ColumnCall::Wrap(width) => check_lines(check, text.ansi_wrap(alloc, width)),
        ColumnCall::WrapWith(to) => check_indented_lines(check, text.ansi_wrap_with(alloc, &to)),
        ColumnCall::LinkAt(index) => check_link(check, text.ansi_link_at(index)),
    }
}

/// Checks what a call returns if it allocates from `heap`. A call without an allocator is made as
/// usual.
pub fn make_column_call_in(check: &mut Check<'_>, heap: &Refusing<Global>, call: ColumnCall<'_>) {
    let text = check.row.text;
    match call {
        ColumnCall::Front(width) => check_cut_in(check, heap, 0, Some(fitting(text, width))),
        ColumnCall::Truncate(width, tail) => {
            check.text_or_err(truncate(heap, text, width, tail));
        }
        ColumnCall::Pad(width, alignment) => check.text_or_err(pad(heap, text, width, alignment)),
        ColumnCall::Fit(width, alignment, tail) => {
            check.text_or_err(fit(heap, text, width, alignment, tail));
        }
        ColumnCall::TruncateWith(to) => check.text_or_err(truncate_with(heap, text, &to)),
        ColumnCall::ExpandTabs(stop) => check.text_or_err(expand_tabs(heap, text, stop)),
        ColumnCall::Slice(start, end) => {
            check.text_or_err(slice(heap, text, start, Some(end)));
        }
        ColumnCall::EditColumns(edits) => check.text_or_err(edit_columns(heap, text, edits)),
        ColumnCall::Wrap(width) => check_lines(check, wrap(heap, text, width)),
        ColumnCall::WrapWith(to) => check_indented_lines(check, wrap_with(heap, text, &to)),
        _ => make_column_call(check, &text, call),
    }
}
