//! The pieces in which a style is printed to a caller's writer, and what a writer that fails has
//! taken of them. No contract says it.
use super::expect;
use ansi_str::{Style, get_blocks};
use std::fmt::{self, Display, Write};
use std::process::Abort;
use std::test::Fail;

/// The SGRs of a style and a letter, the pieces of its start, and those of its close. The code of an
/// attribute is one piece. A number of a font or a color is one of its own, between ESC `[` and `m`.
static ROWS: [(&str, &[&str], &[&str]); 11] = [
    ("\x1b[56mx", &[], &[]),
    ("\x1b[0;56mx", &[], &["\x1b[0m", "\x1b[0m"]),
    (
        "\x1b[1;3;21;51mx",
        &["\x1b[1m", "\x1b[3m", "\x1b[21m", "\x1b[51m"],
        &["\x1b[22m", "\x1b[23m", "\x1b[24m", "\x1b[54m"],
    ),
    ("\x1b[12mx", &["\x1b[", "12", "m"], &["\x1b[10m"]),
    (
        "\x1b[31;104mx",
        &["\x1b[", "31", "m", "\x1b[", "104", "m"],
        &["\x1b[39m", "\x1b[49m"],
    ),
    (
        "\x1b[38;5;7mx",
        &["\x1b[", "38", ";5;", "7", "m"],
        &["\x1b[39m"],
    ),
    (
        "\x1b[48;5;42mx",
        &["\x1b[", "48", ";5;", "42", "m"],
        &["\x1b[49m"],
    ),
    (
        "\x1b[58;5;208mx",
        &["\x1b[", "58", ";5;", "208", "m"],
        &["\x1b[59m"],
    ),
    (
        "\x1b[38;2;0;10;255mx",
        &["\x1b[", "38", ";2;", "0", ";", "10", ";", "255", "m"],
        &["\x1b[39m"],
    ),
    (
        "\x1b[48;2;100;99;9mx",
        &["\x1b[", "48", ";2;", "100", ";", "99", ";", "9", "m"],
        &["\x1b[49m"],
    ),
    (
        "\x1b[53;58;2;1;2;3;97;11;1mx",
        &[
            "\x1b[1m", "\x1b[", "11", "m", "\x1b[", "97", "m", "\x1b[", "58", ";2;", "1", ";", "2",
            ";", "3", "m", "\x1b[53m",
        ],
        &["\x1b[10m", "\x1b[22m", "\x1b[39m", "\x1b[55m", "\x1b[59m"],
    ),
];

/// Pieces and bytes that no row has.
const MANY: usize = 60;

/// A writer that takes a number of pieces and of bytes, and compares each piece with the expected one.
#[derive(Drop)]
struct Limited<'r> {
    pieces: &'r [&'r str],
    writes: usize,
    room: usize,
    taken: usize,
    are_same: bool,
}

impl fmt::Write for Limited<'_> {
    fn write_str(&mut self, s: &str) -> fmt::Result {
        if self.taken == self.writes || self.room < s.len() {
            return Err(fmt::Error);
        }
        let is_next = matches!(self.pieces.get(self.taken), Some(piece) if *piece == s);
        self.are_same = self.are_same && is_next;
        self.room -= s.len();
        self.taken = self.taken.saturating_add(1);
        Ok(())
    }
}

/// How many of the pieces come before the first that a writer refuses.
fn taken_of(pieces: &[&str], writes: usize, room: usize) -> usize {
    let mut left = room;
    let mut taken = 0usize;
    for piece in pieces {
        if taken == writes || left < piece.len() {
            break;
        }
        left -= piece.len();
        taken = taken.saturating_add(1);
    }
    taken
}

/// Prints to a writer with these limits, and checks what it has taken, and whether it failed.
fn expect_taken<D: Display + Drop>(
    rt: &impl Abort,
    printed: D,
    pieces: &[&str],
    writes: usize,
    room: usize,
) {
    let mut writer = Limited {
        pieces,
        writes,
        room,
        taken: 0,
        are_same: true,
    };
    let is_ok = writer.write(printed).is_ok();
    let taken = taken_of(pieces, writes, room);
    let limits = (pieces.len(), writes, room);
    expect(rt, writer.are_same, "the pieces", limits);
    expect(rt, writer.taken == taken, "those before the error", limits);
    expect(rt, is_ok == (taken == pieces.len()), "the error", limits);
}

/// Prints a style to a writer that fails at each write, and at each byte.
fn expect_style(rt: &impl Abort, style: &Style, start: &[&str], close: &[&str]) {
    for limit in 0..MANY {
        expect_taken(rt, style.start(), start, limit, MANY);
        expect_taken(rt, style.start(), start, MANY, limit);
        expect_taken(rt, style.end(), close, limit, MANY);
        expect_taken(rt, style.end(), close, MANY, limit);
    }
}

#[test]
fn a_writer_that_fails_has_taken_the_pieces_before(rt: HostRuntime) -> Result<(), Fail> {
    for (text, start, close) in &ROWS {
        let first = get_blocks(rt.alloc(), text).next();
        let block = first.ok_or("a text has a block")??;
        expect_style(&rt, block.style(), start, close);
    }
    Ok(())
}
