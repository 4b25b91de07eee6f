//! The callers, each on several texts.
use super::expect;
use crate::callers::blocks::{count_blocks, have_same_blocks, write_cell, write_status};
use crate::callers::searches::{
    cut_around_match, cut_around_part, cut_at_boundary, cut_match, split_at_boundary,
};
use ansi_str::get_blocks;
use std::alloc::{AllocError, Global};
use std::borrow::CowStr;
use std::process::Abort;
use std::test::Fail;

/// Compares the cut of a match of a pattern with the expected one.
fn expect_match(rt: &impl Abort, alloc: Global, text: &str, pat: &str, want: Option<&str>) {
    let is_right = match (&cut_match(alloc, &text, pat), want) {
        (Ok(Some(got)), Some(want)) => got.as_str() == want,
        (Ok(None), None) => true,
        _ => false,
    };
    expect(rt, is_right, "the cut of a match", (text, pat));
}

#[test]
fn matches_are_cut(rt: HostRuntime) {
    let text = "a\x1b[1mb\x1b[0mc";
    let across_a_sequence = Some("\x1b[1mb\x1b[0mc");
    expect_match(&rt, rt.alloc(), text, "bc", across_a_sequence);
    expect_match(&rt, rt.alloc(), text, "cb", None);
}

#[test]
fn texts_are_cut_around_matches(rt: HostRuntime) -> Result<(), Fail> {
    let cuts = cut_around_match(rt.alloc(), &"a\x1b[1mb\x1b[0mc", "b")?;
    let (before, found, after) = cuts.ok_or("no match")?;
    assert!(rt; before.as_str() == "a\x1b[1m\x1b[22m");
    assert!(rt; found.as_str() == "\x1b[1mb\x1b[0m");
    assert!(rt; after.as_str() == "\x1b[1m\x1b[0mc");
    Ok(())
}

#[test]
fn texts_are_cut_around_parts(rt: HostRuntime) -> Result<(), Fail> {
    let cuts = cut_around_part(rt.alloc(), &"a,\x1b[1mb\x1b[0m,c", ",", 1)?;
    let (before, part, after) = cuts.ok_or("no part")?;
    assert!(rt; before.as_str() == "a,\x1b[1m\x1b[22m");
    assert!(rt; part.as_str() == "\x1b[1mb\x1b[0m");
    assert!(rt; after.as_str() == "\x1b[1m\x1b[0m,c");
    Ok(())
}

/// Compares the two sides of a text with the expected ones.
fn expect_sides(
    rt: &impl Abort,
    got: &Result<Option<(CowStr<'_>, CowStr<'_>)>, AllocError>,
    want: Option<(&str, &str)>,
    row: (&str, usize),
) {
    let is_right = match (got, want) {
        (Ok(Some((left, right))), Some(want)) => (left.as_str(), right.as_str()) == want,
        (Ok(None), None) => true,
        _ => false,
    };
    expect(rt, is_right, "the sides", row);
}

/// A text, an index, and the two sides there.
type SidesRow = (&'static str, usize, Option<(&'static str, &'static str)>);

/// Between two characters, inside a character, and past the end.
static SIDES_ROWS: [SidesRow; 3] = [
    (
        "\x1b[30mTEXT\x1b[39m",
        2,
        Some(("\x1b[30mTE\x1b[39m", "\x1b[30mXT\x1b[39m")),
    ),
    ("\x1b[1mé", 1, None),
    ("\x1b[1mé", 3, None),
];

fn expect_split(rt: &impl Abort, alloc: Global, row: &SidesRow) {
    let (text, index, want) = *row;
    let sides = split_at_boundary(alloc, &text, index);
    expect_sides(rt, &sides, want, (text, index));
}

#[test]
fn texts_are_split_at_boundaries(rt: HostRuntime) {
    for row in &SIDES_ROWS {
        expect_split(&rt, rt.alloc(), row);
    }
}

fn expect_cuts(rt: &impl Abort, alloc: Global, row: &SidesRow) {
    let (text, index, want) = *row;
    let cuts = cut_at_boundary(alloc, &text, index);
    expect_sides(rt, &cuts, want, (text, index));
}

#[test]
fn texts_are_cut_at_boundaries(rt: HostRuntime) {
    for row in &SIDES_ROWS {
        expect_cuts(&rt, rt.alloc(), row);
    }
}

/// A text, and its number of blocks.
static COUNTS: [(&str, usize); 15] = [
    ("", 0),
    ("213\n456", 1),
    ("\x1b[38;7;1mx", 1),
    ("\x1b[38;5;300mx", 1),
    ("\x1b[mx", 1),
    ("\x1b[1;01mx", 1),
    ("\x1b[1;?2mx", 1),
    (
        "\x1b[1;2;3;4;5;6;7;8;9;19;20;21;26;38;2;255;255;255;48;2;255;255;255;58;2;255;255;255;51;52;53;60;61;62;63;64;73;74mx",
        1,
    ),
    ("\x1b[>4;2mx", 1),
    ("\x1b[41;30mqwe:TEXT\x1b[39m \x1b[34mQWE", 3),
    ("\x1b[41;30m Hello \x1b[0m \t \x1b[43;32m World \x1b[0m", 3),
    ("\x1b[1 mx", 1),
    ("\x1b]8;;u\x1b\\link\x1b]8;;\x1b\\", 1),
    ("a\x1b]0;t\x07", 1),
    ("\x1b]", 1),
];

fn expect_count(rt: &impl Abort, alloc: Global, text: &str, want: usize) -> Result<(), Fail> {
    let count = count_blocks(alloc, text)?;
    expect(rt, count == want, "how many blocks", text);
    Ok(())
}

#[test]
fn blocks_are_counted(rt: HostRuntime) -> Result<(), Fail> {
    for (text, want) in &COUNTS {
        expect_count(&rt, rt.alloc(), text, *want)?;
    }
    Ok(())
}

/// Two texts, and whether they have the same blocks.
type SameRow = (&'static str, &'static str, bool);

static SAME_ROWS: [SameRow; 10] = [
    ("", "\x1b[31m\x1b]0;t\x07", true),
    ("\x1b[1;31mred", "\x1b[31m\x1b[1mred\x1b[0m", true),
    ("\x1b]0;t\x07\x1b[31mred", "\x1b[31m\x1b]0;t\x07red", true),
    ("\x1b[31mred", "\x1b[32mred", false),
    ("\x1b[31mred", "\x1b[31mred\x1b[1m", true),
    ("\x1b[31mred", "\x1b[99;31mred", false),
    ("\x1b[31mred", "\x1b[31mrod", false),
    ("red", "red\x1b[31m and", false),
    ("red\x1b[31m and", "red", false),
    ("red", "\x1b]0;t\x07red", false),
];

fn expect_same(rt: &impl Abort, alloc: Global, row: &SameRow) -> Result<(), Fail> {
    let (one, other, want) = *row;
    let got = have_same_blocks(alloc, one, other)?;
    expect(rt, got == want, "whether they are the same", row);
    Ok(())
}

#[test]
fn blocks_are_the_same(rt: HostRuntime) -> Result<(), Fail> {
    for row in &SAME_ROWS {
        expect_same(&rt, rt.alloc(), row)?;
    }
    Ok(())
}

#[test]
fn cells_are_printed(rt: HostRuntime) -> Result<(), Fail> {
    let mut cells = String::new(rt.alloc());
    for block in get_blocks(rt.alloc(), "\x1b[31;1mred\x1b[99m, \x1b[0mplain") {
        write_cell(&mut cells, &block?)?;
        cells.push('|')?;
    }
    let want = "\x1b[1m\x1b[31mred\x1b[22m\x1b[39m|\x1b[1m\x1b[31m, \x1b[22m\x1b[39m\x1b[0m|plain|";
    expect(&rt, cells.as_str() == want, "a cell a block", want);
    Ok(())
}

#[test]
fn a_status_is_printed(rt: HostRuntime) -> Result<(), Fail> {
    let mut status = String::new(rt.alloc());
    for block in get_blocks(rt.alloc(), "\x1b[32mdone") {
        write_status(&mut status, block?.style(), "ready")?;
    }
    let want = "\x1b[32mready\x1b[0m";
    expect(&rt, status.as_str() == want, "a status", want);
    Ok(())
}
