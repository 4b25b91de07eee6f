//! Runs of words and an input alone. The built program has the same rows: `rows/program.tsv`.
use super::{Plan, Row, expect_end, run_with};
use std::alloc::Global;
use std::process::Abort;
use std::test::Fail;

static ROWS: [Row; 43] = [
    (
        &["strip"],
        "\x1b[31mred\x1b[39m and plain\n",
        0,
        "red and plain\n",
        "",
    ),
    (&["strip"], "a\x1b]0;t\n\x07b\n", 0, "a]0;t\n\x07b\n", ""),
    (&["strip"], "a\x1b]0;t\x07b\n", 0, "ab\n", ""),
    (&["strip"], "", 0, "", ""),
    (&["strip"], "\n", 0, "\n", ""),
    (&["strip"], "\n\n\n", 0, "\n\n\n", ""),
    (&["strip"], "a", 0, "a", ""),
    (&["strip"], "a\n\nb", 0, "a\n\nb", ""),
    (&["strip"], "\x1b[m", 0, "", ""),
    (&["strip"], "é\r\n\x1b", 0, "é\r\n", ""),
    (&["cut:3:1"], "", 0, "", ""),
    (&["cut:0:1"], "\x1b[mab", 0, "\x1b[ma", ""),
    (&["cut:0:"], "a\n\nb", 0, "a\n\nb", ""),
    (&["cut:2:"], "é\nabc\n", 0, "\nc\n", ""),
    (&["cut:0:0"], "ab\ncd", 0, "\n", ""),
    (&["cut:5:7"], "ab\n", 0, "\n", ""),
    (&["cut:00:18446744073709551615"], "a\nb\n", 0, "a\nb\n", ""),
    (&["cut:18446744073709551615:"], "ab\n", 0, "\n", ""),
    (&["part:1:"], "ab", 0, "a", ""),
    (&["prefix:a:b", "cut:00:"], "a:bc\n", 0, "c\n", ""),
    (&["cut:0:1", "cut:0:1"], "abc\n", 0, "a\n", ""),
    (&["right:4", "cut:0:2"], "abc def", 0, "de", ""),
    (&["right:1", "prefix:b"], "abc", 0, "c", ""),
    (&["right:18446744073709551615"], "x", 0, "", ""),
    (&["part:3:"], "ab", 0, "", ""),
    (
        &["part:2:X", "cut:1:3", "trim"],
        "\x1b[31mlionXXtiger\x1b[0m",
        0,
        "\x1b[31mig\x1b[39m",
        "",
    ),
    (
        &["left:1", "suffix:a"],
        "a\x1b]0;t\x07b",
        0,
        "\x1b]0;t\x07",
        "",
    ),
    (
        &["cut:0:2", "trim"],
        "\x1b[31m a \x1b[39m",
        0,
        "\x1b[31ma\x1b[39m",
        "",
    ),
    (&["suffix:", "part:0:,"], "a,\x1b[1mb", 0, "a", ""),
    (&["part:1::"], "a:b:c\n", 0, "b\n", ""),
    (&["strip"], "a\x1b]0;t\n\x07b", 0, "a]0;t\n\x07b", ""),
    (&["cut:1:"], "é", 1, "", "line 1: refused\n"),
    (&["cut:1:"], "é\né\nab\n", 1, "", "line 1: refused\n"),
    (&["cut:0:1"], "ab\n\né\nab", 1, "a\n\n", "line 3: refused\n"),
    (&["cut:3:1"], "\n", 1, "", "line 1: refused\n"),
    (
        &["cut:0:1"],
        "\n\n\n\n\n\n\n\n\né",
        1,
        "\n\n\n\n\n\n\n\n\n",
        "line 10: refused\n",
    ),
    (&["left:1"], "é\n", 1, "", "line 1: refused\n"),
    (
        &["left:13"],
        "\x1b[31;40mPer Martin-Löf\x1b[0m",
        1,
        "",
        "line 1: refused\n",
    ),
    (&["part:4:"], "ab", 1, "", "line 1: refused\n"),
    (
        &["part:3:X"],
        "\x1b[31mlionXXtiger\x1b[0m",
        1,
        "",
        "line 1: refused\n",
    ),
    (
        &["part:18446744073709551615:"],
        "ab",
        1,
        "",
        "line 1: refused\n",
    ),
    (
        &["left:1", "prefix:x"],
        "\x1b[31mab\x1b[39m",
        1,
        "",
        "line 1: refused\n",
    ),
    (
        &["suffix:", "part:0:,", "prefix:x"],
        "a,\x1b[1mb",
        1,
        "",
        "line 1: refused\n",
    ),
];

fn expect_row(rt: &impl Abort, alloc: Global, row: &Row) -> Result<(), Fail> {
    let (words, text, status, written, told) = *row;
    let ran = run_with(alloc, words, text.as_bytes(), Plan::new(alloc))?;
    expect_end(rt, &ran, status, written, told, (words, text));
    Ok(())
}

#[test]
fn each_line_is_edited_until_one_is_refused(rt: HostRuntime) -> Result<(), Fail> {
    for row in &ROWS {
        expect_row(&rt, rt.alloc(), row)?;
    }
    Ok(())
}

static BAD_WORDS: [&[&str]; 50] = [
    &[],
    &["strip", "trim"],
    &["strip", "strip"],
    &["strip", "cut:0:1"],
    &["Strip"],
    &["strip "],
    &["strip:"],
    &["--strip"],
    &[""],
    &["cut"],
    &["cut:1"],
    &["cut::3"],
    &["cut::"],
    &["cut:x:"],
    &["cut:1:x"],
    &["cut:+1:"],
    &["cut:1:+3"],
    &["cut:-1:"],
    &["cut:1:2:3"],
    &["cut:1:2:"],
    &["cut:1: 2"],
    &[" cut:0:1"],
    &["Cut:0:1"],
    &["cut:18446744073709551616:"],
    &["cut:0:18446744073709551616"],
    &["strip", "x"],
    &["trim", "strip"],
    &["trim", ""],
    &["trim", "cut:0:1", "x"],
    &["trim:"],
    &["Trim"],
    &["left"],
    &["left:"],
    &["left:1:"],
    &["left:+1"],
    &["left: 1"],
    &["left:18446744073709551616"],
    &["right:"],
    &["right:-1"],
    &["right:x"],
    &["part"],
    &["part:"],
    &["part:1"],
    &["part::a"],
    &["part:a:1"],
    &["part:+1:"],
    &["prefix"],
    &["suffix"],
    &["prefix "],
    &["trim", "part:1"],
];

fn expect_bad_words(rt: &impl Abort, alloc: Global, words: &[&str]) -> Result<(), Fail> {
    let ran = run_with(alloc, words, b"abc\n", Plan::new(alloc))?;
    expect_end(rt, &ran, 2, "", "bad words\n", words);
    Ok(())
}

#[test]
fn words_that_are_no_edits_are_bad(rt: HostRuntime) -> Result<(), Fail> {
    for words in &BAD_WORDS {
        expect_bad_words(&rt, rt.alloc(), words)?;
    }
    Ok(())
}

// A word and the length of an input of one line. Then the status, the length of the output, and the
// faults.
type LengthRow = (&'static str, usize, u8, usize, &'static str);

static LENGTH_ROWS: [LengthRow; 4] = [
    ("strip", 1_048_576, 0, 1_048_576, ""),
    ("strip", 1_048_577, 3, 0, "bad input\n"),
    ("trim", 1_048_576, 0, 1_048_576, ""),
    ("trim", 1_048_577, 3, 0, "bad input\n"),
];

fn expect_length(rt: &impl Abort, alloc: Global, row: &LengthRow) -> Result<(), Fail> {
    let (word, len, status, written, told) = *row;
    let text = "a".repeat(alloc, len)?;
    let written = "a".repeat(alloc, written)?;
    let mut plan = Plan::new(alloc);
    plan.chunk = len;
    plan.room = len;
    let ran = run_with(alloc, &[word], text.as_bytes(), plan)?;
    expect_end(rt, &ran, status, written.as_str(), told, (word, len));
    Ok(())
}

#[test]
fn the_longest_input_is_edited_and_a_longer_one_is_bad(rt: HostRuntime) -> Result<(), Fail> {
    for row in &LENGTH_ROWS {
        expect_length(&rt, rt.alloc(), row)?;
    }
    Ok(())
}
