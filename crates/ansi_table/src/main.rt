//! Prints lines of cells as a table. Each column has a width of its own.
//!
//! Cells are separated by tabs. The arguments are the widths, in columns of a terminal; without them
//! each column is as wide as its widest cell. A cell that is too wide is truncated with an ellipsis,
//! a path in its middle, and a number becomes `#`, since a number that is cut would be another one. A
//! cell that is too narrow or missing is padded with blanks. The styles and the link of a cell end
//! with it. Numbers are aligned to the right. Other sequences and control characters are left out, as
//! `ansi_pad` does.
#![tactic(auto)]

use ansi_columns::{Alignment, AnsiColumns, Side, Truncation};
use ansi_str::AnsiStr;
use short_programs::{Stop, end, lines, print_line, text_of, width_of, words};
use std::alloc::{AllocError, Global};
use std::fmt::Write;
use std::process::ExitCode;

const DONE: u8 = 0;

const FAILED: u8 = 1;

// Whether a text is a path: it has a slash and no blank.
fn is_path(plain: &str) -> bool {
    plain.contains('/') && !plain.contains(' ')
}

// Whether a text has digits alone, and has one.
fn are_digits(text: &str) -> bool {
    !text.is_empty() && text.bytes().all(|byte| byte.is_ascii_digit())
}

// Whether a text is the part of a number before its point: digits, which commas may divide by thousands.
fn is_whole_number(text: &str) -> bool {
    let mut groups = text.split(',');
    let first = groups.next().unwrap_or(text);
    let is_one = first.len() == text.len();
    are_digits(first)
        && (is_one || first.len() <= 3)
        && groups.all(|group| group.len() == 3 && are_digits(group))
}

// A text without its sign, if it has one.
fn without_sign(text: &str) -> &str {
    let rest = text.strip_prefix('-').or(text.strip_prefix('+'));
    rest.unwrap_or(text)
}

// Whether a text is a number: a sign, digits, a point with digits, an exponent; all but the digits may
// be missing.
fn is_number(plain: &str) -> bool {
    let (number, exponent) = plain.split_once('e').unwrap_or((plain, "0"));
    let number = without_sign(number);
    let (whole, fraction) = number.split_once('.').unwrap_or((number, "0"));
    is_whole_number(whole) && are_digits(fraction) && are_digits(without_sign(exponent))
}

// What a cell shows.
enum Shows {
    Number,
    Path,
    Words,
}

// What a cell shows, by its text as a row has it.
fn what_shows(alloc: Global, text: &str) -> Result<Shows, AllocError> {
    let plain = text.ansi_strip(alloc)?;
    if is_number(plain.as_str()) {
        return Ok(Shows::Number);
    }
    if is_path(plain.as_str()) {
        return Ok(Shows::Path);
    }
    Ok(Shows::Words)
}

// Appends a cell, cut or filled to the width.
fn push_cell(alloc: Global, row: &mut String, cell: &str, width: usize) -> Result<(), AllocError> {
    let shown = cell.ansi_pad(alloc, 0, Alignment::Left)?;
    let (alignment, side) = match what_shows(alloc, shown.as_str())? {
        Shows::Number if width < cell.ansi_width() => {
            write!(row, " {:#<width$} |", "")?;
            return Ok(());
        }
        Shows::Number => (Alignment::Right, Side::End),
        Shows::Path => (Alignment::Left, Side::Middle),
        Shows::Words => (Alignment::Left, Side::End),
    };
    let cut = cell.ansi_truncate_with(alloc, &Truncation::to(width).tail("…").side(side))?;
    let filled = cut.ansi_pad(alloc, width, alignment)?;
    write!(row, " {filled} |")?;
    Ok(())
}

// The row of a line, with one cell for each width.
fn row_of(alloc: Global, line: &str, widths: &[usize]) -> Result<String, AllocError> {
    let mut row = String::from_str(alloc, "|")?;
    let mut cells = line.ansi_split(alloc, "\t");
    for width in widths {
        match cells.next() {
            Some(cell) => push_cell(alloc, &mut row, cell?.as_str(), *width)?,
            None => push_cell(alloc, &mut row, "", *width)?,
        }
    }
    Ok(row)
}

// Widens the columns of a table to the cells of a line.
fn widen(alloc: Global, widths: &mut Vec<usize>, line: &str) -> Result<(), AllocError> {
    for (column, cell) in line.ansi_split(alloc, "\t").enumerate() {
        let needed = cell?.ansi_width();
        match widths.get_mut(column) {
            Some(width) => *width = needed.max(*width),
            None => widths.push(needed)?,
        }
    }
    Ok(())
}

// A line of the input as a text, without what ends it.
fn without_return(line: &str) -> &str {
    line.strip_suffix('\r').unwrap_or(line)
}

// Prints the row of each line of the input, and reads all of it first if no word names a width. Returns the status.
fn print_rows(rt: &HostRuntime) -> Result<u8, Stop> {
    let alloc = rt.alloc();
    let mut widths = Vec::new(alloc);
    for word in &words(rt)? {
        widths.push(width_of(alloc, word.as_str())?)?;
    }
    if widths.is_empty() {
        let mut texts = Vec::new(alloc);
        for line in lines(rt)? {
            let text = text_of(alloc, line)?;
            widen(alloc, &mut widths, without_return(text.as_str()))?;
            texts.push(text)?;
        }
        for text in &texts {
            print_row(rt, text.as_str(), widths.as_slice())?;
        }
    } else {
        for line in lines(rt)? {
            let text = text_of(alloc, line)?;
            print_row(rt, text.as_str(), widths.as_slice())?;
        }
    }
    Ok(DONE)
}

// Prints the row of a line.
fn print_row(rt: &HostRuntime, line: &str, widths: &[usize]) -> Result<(), Stop> {
    print_line(
        rt,
        row_of(rt.alloc(), without_return(line), widths)?.as_str(),
    )
}

fn main(rt: HostRuntime) -> ExitCode {
    end(&rt, "ansi_table", FAILED, print_rows(&rt))
}
