//! What is open at the end of a text: what opens it again, and what closes it. No row is from a run.
use crate::tests::expect;
use ansi_safe::links::{Pen, pen_after, pen_after_from};
use std::alloc::{AllocError, Global};
use std::process::Abort;

/// A text, the text that goes on after it, and after both what opens and what closes what is open.
type Row = (&'static str, &'static str, &'static str, &'static str);

static ROWS: [Row; 12] = [
    ("", "", "", ""),
    ("plain", " text", "", ""),
    ("\x1b[31mred", "", "\x1b[31m", "\x1b[39m"),
    ("\x1b[31mred", "\x1b[0m", "", ""),
    (
        "\x1b[31mred",
        "\x1b[1mbold",
        "\x1b[1m\x1b[31m",
        "\x1b[22m\x1b[39m",
    ),
    (
        "\x1b]8;id=1;http://x\x1b\\a",
        "\x1b[4mb",
        "\x1b[4m\x1b]8;id=1;http://x\x1b\\",
        "\x1b]8;;\x1b\\\x1b[24m",
    ),
    ("\x1b]8;;http://x\x07a", "\x1b]8;;\x07", "", ""),
    (
        "\x1b]8;;u\x07a",
        "\x1b]8;;v\x07b",
        "\x1b]8;;v\x07",
        "\x1b]8;;\x1b\\",
    ),
    // another sequence, and one that only begins as a link does
    (
        "\x1b]8;;u\x07a\x1b[2J",
        "\x1b]8;b\x07",
        "\x1b]8;;u\x07",
        "\x1b]8;;\x1b\\",
    ),
    // an unknown code is closed, and not set again
    ("\x1b[4:3ma", "", "", "\x1b[0m"),
    // an unfinished sequence
    ("a\x1b[3", "", "", ""),
    ("a\x1b]8;;u", "", "", ""),
];

/// What opens again what is open, and what closes it.
fn written(alloc: Global, pen: &Pen<'_>) -> Result<(String, String), AllocError> {
    let mut end = String::new(alloc);
    pen.ending().push_to(&mut end)?;
    Ok((format!(in alloc; "{}{}", pen.style.start(), pen.link)?, end))
}

/// Whether a pen is written as a row has it.
fn is_as(alloc: Global, pen: &Pen<'_>, row: Row) -> bool {
    matches!(written(alloc, pen), Ok((start, end)) if start.as_str() == row.2 && end.as_str() == row.3)
}

/// Compares the pen after both texts together, and that after the second from the one after the first.
fn compare<R: AllocGlobal + Abort>(rt: &R, row: Row) {
    let alloc = rt.alloc();
    let both = format!(in alloc; "{}{}", row.0, row.1);
    let is_whole = matches!(&both, Ok(both) if is_as(alloc, &pen_after(both.as_str()), row));
    expect(rt, is_whole, "the pen after both texts", row);
    let next = pen_after_from(pen_after(row.0), row.1);
    expect(rt, is_as(alloc, &next, row), "the pen carried over", row);
}

#[test]
fn what_is_open_at_an_end_opens_again(rt: HostRuntime) {
    for row in &ROWS {
        compare(&rt, *row);
    }
}
