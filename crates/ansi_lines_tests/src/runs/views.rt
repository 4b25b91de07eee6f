//! Runs of `ansi_view` whose devices fail. No clause says how much was read before a failing read.
use super::{FakeDevices, Plan, Ran, at_call, expect, expect_end, owned};
use ansi_io::fake_device::Outcome;
use ansi_view_runs::runs::run;
use std::alloc::{AllocError, Global};
use std::process::Abort;

// A run without words.
fn view_with(alloc: Global, bytes: &[u8], plan: Plan) -> Result<Ran, AllocError> {
    view_by(alloc, &[], bytes, plan)
}

fn view_by(alloc: Global, words: &[String], bytes: &[u8], plan: Plan) -> Result<Ran, AllocError> {
    let mut devices = FakeDevices::new(alloc, bytes, plan)?;
    let status = run(
        alloc,
        words,
        &mut devices.input,
        &mut devices.output,
        &mut devices.faults,
    );
    Ran::over(alloc, status, &devices)
}

#[test]
fn what_is_read_before_a_failing_read_is_written(rt: HostRuntime) -> Result<(), AllocError> {
    let mut plan = Plan::new(rt.alloc());
    plan.input = at_call(rt.alloc(), 1, Outcome::Failed)?;
    let ran = view_with(rt.alloc(), b"a\nbc", plan)?;
    let name = "a read that fails after one that works";
    expect_end(&rt, &ran, 3, "a\nbc", "read failed: other error\n", name);
    expect(&rt, ran.flushed == 4, "what is flushed", name);
    Ok(())
}

#[test]
fn a_closed_output_is_no_fault(rt: HostRuntime) -> Result<(), AllocError> {
    let mut plan = Plan::new(rt.alloc());
    // (a line that stays as it is takes two calls)
    plan.output = at_call(rt.alloc(), 2, Outcome::Closed)?;
    let ran = view_with(rt.alloc(), b"a\nb\n", plan)?;
    let name = "a write that finds the output closed";
    expect_end(&rt, &ran, 0, "a\n", "", name);
    expect(&rt, ran.output_left == 0, "the calls", name);
    Ok(())
}

// A word, an input of two lines that one read gives, and what the first line becomes.
type FirstLine = (&'static str, &'static str, &'static str);

// The first four lines stay as they were read, and the others don't.
static FIRST_LINES: [FirstLine; 8] = [
    ("plain", "a\nb\n", "a\n"),
    ("truncate:5", "a\nb\n", "a\n"),
    ("pad:1", "a\nb\n", "a\n"),
    ("wrap:5", "a\nb\n", "a\n"),
    ("plain", "\x1b[ma\nb\n", "a\n"),
    ("truncate:1", "ab\nb\n", "a\n"),
    ("pad:3", "a\nb\n", "a  \n"),
    ("wrap:1", "a b\nc\n", "a\nb\n"),
];

// Checks that the first write has the whole first line, by a run whose second write fails.
fn expect_at_once(rt: &impl Abort, alloc: Global, row: &FirstLine) -> Result<(), AllocError> {
    let (word, text, line) = *row;
    let words = owned(alloc, &[word])?;
    let mut plan = Plan::new(alloc);
    plan.output = at_call(alloc, 1, Outcome::Failed)?;
    let ran = view_by(alloc, words.as_slice(), text.as_bytes(), plan)?;
    expect_end(rt, &ran, 4, line, "write failed: other error\n", row);
    expect(rt, ran.output_left == 0, "the calls", row);
    Ok(())
}

#[test]
fn a_line_that_is_stripped_or_edited_is_written_at_once(rt: HostRuntime) -> Result<(), AllocError> {
    for row in &FIRST_LINES {
        expect_at_once(&rt, rt.alloc(), row)?;
    }
    Ok(())
}
