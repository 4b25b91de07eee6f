//! Texts with another text in place of a range. No row is from a run.
use crate::tests::expect;
use ansi_restyle::AnsiRestyle;
use std::alloc::Global;
use std::process::Abort;

/// A text, a range, the new text, and what becomes of them.
type Row = (
    &'static str,
    (usize, usize),
    &'static str,
    Option<&'static str>,
);

static ROWS: [Row; 30] = [
    ("abc", (1, 2), "X", Some("aXc")),
    ("abc", (1, 2), "", Some("ac")),
    ("", (0, 0), "X", Some("X")),
    // in one style
    (
        "\x1b[31mabc\x1b[39m",
        (1, 2),
        "X",
        Some("\x1b[31maXc\x1b[39m"),
    ),
    (
        "\x1b[31mabc\x1b[39m",
        (0, 1),
        "X",
        Some("\x1b[31mXbc\x1b[39m"),
    ),
    (
        "\x1b[31mabc\x1b[39m",
        (0, 3),
        "X",
        Some("\x1b[31mX\x1b[39m"),
    ),
    (
        "\x1b[31mab\x1b[39m",
        (2, 2),
        "X",
        Some("\x1b[31mabX\x1b[39m"),
    ),
    ("\x1b[31m", (0, 0), "X", Some("\x1b[31mX")),
    // from one style to another
    (
        "a\x1b[31mb\x1b[39mc",
        (1, 2),
        "X",
        Some("aX\x1b[31m\x1b[39mc"),
    ),
    (
        "a\x1b[31mbc\x1b[39m",
        (0, 2),
        "X",
        Some("X\x1b[31mc\x1b[39m"),
    ),
    ("\x1b[1mab\x1b[0mc", (1, 2), "X", Some("\x1b[1maX\x1b[0mc")),
    ("a\x1b[1m\x1b[31mb", (1, 1), "X", Some("aX\x1b[1m\x1b[31mb")),
    ("\x1b[1ma\x1b[22mb", (2, 2), "X", Some("\x1b[1ma\x1b[22mbX")),
    // the new text has a style
    (
        "abc",
        (1, 2),
        "\x1b[1mX\x1b[22m",
        Some("a\x1b[1mX\x1b[22mc"),
    ),
    (
        "\x1b[31mabc",
        (1, 2),
        "\x1b[1mX",
        Some("\x1b[31ma\x1b[1mX\x1b[22m\x1b[39m\x1b[31mc"),
    ),
    (
        "\x1b[31mabc",
        (1, 2),
        "\x1b[0mX",
        Some("\x1b[31ma\x1b[0mX\x1b[31mc"),
    ),
    (
        "\x1b[31mabc",
        (1, 2),
        "\x1b[34mX",
        Some("\x1b[31ma\x1b[34mX\x1b[39m\x1b[31mc"),
    ),
    ("abc", (1, 2), "\x1b[99mX", Some("a\x1b[99mX\x1b[0mc")),
    // links, and a sequence that isn't finished
    (
        "\x1b]8;;u\x1b\\ab\x1b]8;;\x1b\\c",
        (1, 3),
        "X",
        Some("\x1b]8;;u\x1b\\aX\x1b]8;;\x1b\\"),
    ),
    ("ab\x1b[3", (1, 1), "X", Some("aXb\x1b[3")),
    // the new text is put into a link, or has one
    (
        "\x1b]8;;u\x1b\\ab",
        (1, 1),
        "\x1b[1mX",
        Some("\x1b]8;;u\x1b\\a\x1b[1mX\x1b[22mb"),
    ),
    (
        "\x1b]8;;u\x1b\\ab",
        (1, 1),
        "\x1b]8;;v\x1b\\X",
        Some("\x1b]8;;u\x1b\\a\x1b]8;;v\x1b\\X\x1b]8;;u\x1b\\b"),
    ),
    (
        "\x1b]8;;u\x1b\\ab",
        (1, 1),
        "\x1b]8;;v\x1b\\X\x1b]8;;\x1b\\",
        Some("\x1b]8;;u\x1b\\a\x1b]8;;v\x1b\\X\x1b]8;;\x1b\\\x1b]8;;u\x1b\\b"),
    ),
    (
        "ab",
        (1, 1),
        "\x1b]8;;v\x1b\\X",
        Some("a\x1b]8;;v\x1b\\X\x1b]8;;\x1b\\b"),
    ),
    (
        "\x1b]8;;u\x1b\\a\x1b]8;;\x1b\\b",
        (1, 1),
        "\x1b]8;;\x07X",
        Some("\x1b]8;;u\x1b\\a\x1b]8;;\x07X\x1b]8;;u\x1b\\\x1b]8;;\x1b\\b"),
    ),
    (
        "\x1b[31mab",
        (1, 1),
        "\x1b]8;;v\x1b\\\x1b[1mX",
        Some("\x1b[31ma\x1b]8;;v\x1b\\\x1b[1mX\x1b]8;;\x1b\\\x1b[22m\x1b[39m\x1b[31mb"),
    ),
    // positions
    ("aöb", (1, 3), "o", Some("aob")),
    ("aöb", (1, 2), "o", None),
    ("abc", (2, 1), "X", None),
    ("abc", (1, 4), "X", None),
];

fn expect_replaced(rt: &impl Abort, alloc: Global, row: &Row) {
    let (text, range, with, want) = *row;
    let is_right = match (&text.ansi_replace(alloc, range, with), want) {
        (Ok(Some(got)), Some(want)) => got.as_str() == want,
        (Ok(None), None) => true,
        _ => false,
    };
    expect(rt, is_right, "the text replaced", (text, range, with));
}

#[test]
fn ranges_are_replaced(rt: HostRuntime) {
    for row in &ROWS {
        expect_replaced(&rt, rt.alloc(), row);
    }
}

#[test]
fn texts_are_inserted(rt: HostRuntime) {
    let longer = "a\x1b[1mb".ansi_insert(rt.alloc(), 1, "\x1b[3mX");
    assert!(rt;
        matches!(&longer, Ok(Some(longer)) if longer.as_str() == "a\x1b[3mX\x1b[23m\x1b[1mb")
    );
    assert!(rt; matches!("aö".ansi_insert(rt.alloc(), 2, "X"), Ok(None)));
}
