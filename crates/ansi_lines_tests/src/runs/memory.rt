//! Each request for memory that a run makes, refused in turn.
use super::{Plan, Ran, Row, expect, expect_end, owned, run_in};
use refusing::Refusing;
use std::alloc::{AllocError, Global};
use std::process::Abort;
use std::test::Fail;

// More requests than a run makes.
const MOST_REQUESTS: u64 = 100;

static ROWS: [Row; 6] = [
    (
        &["strip"],
        "\x1b[31mred\x1b[39m and plain\n\nlast \x1b",
        0,
        "red and plain\n\nlast ",
        "",
    ),
    (
        &["cut:1:3"],
        "\x1b[30mTEXT\x1b[39m\nabcd",
        0,
        "\x1b[30mEX\x1b[39m\nbc",
        "",
    ),
    (
        &["cut:1:3", "trim"],
        "\x1b[30mTEXT\x1b[39m\n a \n",
        0,
        "\x1b[30mEX\x1b[39m\na\n",
        "",
    ),
    (
        &["cut:1:3"],
        "\x1b[30mTEXT\x1b[39m\né\n",
        1,
        "\x1b[30mEX\x1b[39m\n",
        "line 2: refused\n",
    ),
    (
        &["left:1", "prefix:x"],
        "\x1b[31mab\x1b[39m\n",
        1,
        "",
        "line 1: refused\n",
    ),
    (&["trim", "x"], "abc\n", 2, "", "bad words\n"),
];

// Checks a run that met a refusal. Its output is a beginning of the whole output.
fn expect_out_of_memory(rt: &impl Abort, row: &Row, granted: u64, ran: &Ran) {
    let (words, _, _, written, _) = *row;
    let name = (words, granted);
    expect(rt, ran.status == 5, "status", name);
    let has_faults = ran.faults.as_slice() == b"out of memory\n".as_slice();
    expect(rt, has_faults, "faults", name);
    let is_beginning = written.as_bytes().starts_with(ran.output.as_slice());
    expect(rt, is_beginning, "the beginning of the output", name);
}

fn expect_ended(rt: &impl Abort, row: &Row, granted: u64, ran: &Ran) {
    let (words, _, status, written, told) = *row;
    expect_end(rt, ran, status, written, told, (words, granted));
    expect(rt, 0 < granted, "memory", words);
}

// Runs with `granted` requests granted, and returns whether one was refused.
fn run_is_refused(
    rt: &impl Abort,
    alloc: Global,
    row: &Row,
    given: &[String],
    granted: u64,
) -> Result<bool, AllocError> {
    let (_, text, ..) = *row;
    let heap = Refusing::new(alloc, granted);
    let ran = run_in(&heap, given, text.as_bytes(), Plan::new(alloc), alloc)?;
    if heap.has_refused() {
        expect_out_of_memory(rt, row, granted, &ran);
    } else {
        expect_ended(rt, row, granted, &ran);
    }
    Ok(heap.has_refused())
}

// Refuses each request of a run in turn, until a run meets no refusal.
fn refuse_each(rt: &impl Abort, alloc: Global, row: &Row) -> Result<(), Fail> {
    let (words, ..) = *row;
    let given = owned(alloc, words)?;
    for granted in 0..MOST_REQUESTS {
        if !run_is_refused(rt, alloc, row, given.as_slice(), granted)? {
            return Ok(());
        }
    }
    expect(rt, false, "a run without a refusal", words);
    Ok(())
}

#[test]
fn each_refused_growth_is_told_of(rt: HostRuntime) -> Result<(), Fail> {
    for row in &ROWS {
        refuse_each(&rt, rt.alloc(), row)?;
    }
    Ok(())
}
