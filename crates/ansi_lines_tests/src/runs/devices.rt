//! Runs over devices that fail or are interrupted.
use super::{CHUNK, Plan, ROOM, Ran, at_call, expect, expect_end, run_with};
use ansi_io::fake_device::Outcome;
use std::alloc::{AllocError, Global};
use std::process::Abort;
use std::test::Fail;

// A run over devices that work: what it ends with, and how many calls of the output it makes.
struct Case {
    words: &'static [&'static str],
    text: &'static str,
    status: u8,
    output: &'static str,
    faults: &'static str,
    output_calls: usize,
}

// A run writes once for each run of plain text of `strip`, for each result of edits and for each
// line feed. The flush comes last.
static CASES: [Case; 4] = [
    Case {
        words: &["strip"],
        text: "\x1b[31mred\x1b[39m and plain\n\nlast \x1b",
        status: 0,
        output: "red and plain\n\nlast ",
        faults: "",
        output_calls: 6,
    },
    Case {
        words: &["cut:1:3", "trim"],
        text: "\x1b[30mTEXT\x1b[39m\n a \n",
        status: 0,
        output: "\x1b[30mEX\x1b[39m\na\n",
        faults: "",
        output_calls: 5,
    },
    Case {
        words: &["cut:1:"],
        text: "ab\né\n",
        status: 1,
        output: "b\n",
        faults: "line 2: refused\n",
        output_calls: 3,
    },
    Case {
        words: &["prefix:ab"],
        text: "abc\nxbc\nabd",
        status: 1,
        output: "c\n",
        faults: "line 2: refused\n",
        output_calls: 3,
    },
];

// How many calls of the fault writer report a refused line.
const FAULT_CALLS: usize = 3;

// The outcomes of `calls` calls that work, each after one that is interrupted.
fn interrupted_each_once(alloc: Global, calls: usize) -> Result<Vec<Outcome>, AllocError> {
    let mut schedule = Vec::new(alloc);
    for _ in 0..calls {
        schedule.push(Outcome::Interrupted)?;
        schedule.push(Outcome::Works)?;
    }
    Ok(schedule)
}

// Runs a case with these outcomes of its reads and of its output's calls.
fn run_case(
    alloc: Global,
    case: &Case,
    input: Vec<Outcome>,
    output: Vec<Outcome>,
) -> Result<Ran, AllocError> {
    let plan = Plan {
        input,
        output,
        faults: Vec::new(alloc),
        chunk: CHUNK,
        room: ROOM,
    };
    run_with(alloc, case.words, case.text.as_bytes(), plan)
}

// Runs a case with these outcomes of its reads.
fn run_reading(alloc: Global, case: &Case, schedule: Vec<Outcome>) -> Result<Ran, AllocError> {
    run_case(alloc, case, schedule, Vec::new(alloc))
}

// Runs a case with these outcomes of its output's calls.
fn run_writing(alloc: Global, case: &Case, schedule: Vec<Outcome>) -> Result<Ran, AllocError> {
    run_case(alloc, case, Vec::new(alloc), schedule)
}

// Checks that a run ends as its case says.
fn expect_case(rt: &impl Abort, case: &Case, ran: &Ran, what: &str) {
    let name = (case.words, what);
    expect_end(rt, ran, case.status, case.output, case.faults, name);
}

// Checks a run whose read fails after `call` reads that work.
fn expect_failing_read(
    rt: &impl Abort,
    alloc: Global,
    case: &Case,
    call: usize,
) -> Result<(), Fail> {
    let ran = run_reading(alloc, case, at_call(alloc, call, Outcome::Failed)?)?;
    let name = (case.words, "a failing read", call);
    expect_end(rt, &ran, 3, "", "bad input\n", name);
    expect(rt, ran.input_left == 0, "the reads", name);
    Ok(())
}

fn expect_failing_reads(rt: &impl Abort, alloc: Global, case: &Case) -> Result<(), Fail> {
    let reads = case.text.len().div_ceil(CHUNK) + 1;
    for call in 0..reads {
        expect_failing_read(rt, alloc, case, call)?;
    }
    let ran = run_reading(alloc, case, at_call(alloc, reads, Outcome::Failed)?)?;
    expect_case(rt, case, &ran, "a failing read that isn't made");
    Ok(())
}

#[test]
fn each_failing_read_is_told_of(rt: HostRuntime) -> Result<(), Fail> {
    for case in &CASES {
        expect_failing_reads(&rt, rt.alloc(), case)?;
    }
    Ok(())
}

fn expect_interrupted_once(rt: &impl Abort, alloc: Global, case: &Case) -> Result<(), Fail> {
    let ran = run_reading(alloc, case, interrupted_each_once(alloc, 10)?)?;
    expect_case(rt, case, &ran, "reads that are interrupted once");
    Ok(())
}

fn expect_interrupted_for_ever(rt: &impl Abort, alloc: Global, case: &Case) -> Result<(), Fail> {
    let schedule = vec![in alloc; Outcome::Interrupted; 2_097_155]?;
    let ran = run_reading(alloc, case, schedule)?;
    let name = (case.words, "reads that are interrupted for ever");
    expect_end(rt, &ran, 3, "", "bad input\n", name);
    expect(rt, ran.input_left == 1, "2,097,154 reads", name);
    Ok(())
}

fn expect_interruptions(rt: &impl Abort, alloc: Global, case: &Case) -> Result<(), Fail> {
    expect_interrupted_once(rt, alloc, case)?;
    expect_interrupted_for_ever(rt, alloc, case)
}

#[test]
fn interrupted_reads_are_made_again(rt: HostRuntime) -> Result<(), Fail> {
    for case in &CASES {
        expect_interruptions(&rt, rt.alloc(), case)?;
    }
    Ok(())
}

#[test]
fn the_longest_input_takes_the_most_reads(rt: HostRuntime) -> Result<(), Fail> {
    let longest = "a".repeat(rt.alloc(), 1_048_576)?;
    let mut plan = Plan::new(rt.alloc());
    plan.input = interrupted_each_once(rt.alloc(), 1_048_577)?;
    plan.chunk = 1;
    plan.room = longest.len();
    let ran = run_with(rt.alloc(), &["strip"], longest.as_bytes(), plan)?;
    let name = "the longest input, a byte a read";
    expect_end(&rt, &ran, 0, longest.as_str(), "", name);
    expect(&rt, ran.input_left == 0, "the reads", name);
    Ok(())
}

fn expect_failing_call(
    rt: &impl Abort,
    alloc: Global,
    case: &Case,
    call: usize,
    outcome: Outcome,
) -> Result<(), Fail> {
    let ran = run_writing(alloc, case, at_call(alloc, call, outcome)?)?;
    let name = (case.words, call, outcome);
    expect(rt, ran.status == 4, "status", name);
    let has_faults = ran.faults.as_slice() == b"write failed\n".as_slice();
    expect(rt, has_faults, "faults", name);
    expect(rt, ran.output_left == 0, "the calls", name);
    expect(rt, ran.flushed == 0, "what is flushed on", name);
    Ok(())
}

fn expect_failing_calls(rt: &impl Abort, alloc: Global, case: &Case) -> Result<(), Fail> {
    for call in 0..case.output_calls {
        expect_failing_call(rt, alloc, case, call, Outcome::Failed)?;
        expect_failing_call(rt, alloc, case, call, Outcome::Interrupted)?;
    }
    let schedule = at_call(alloc, case.output_calls, Outcome::Failed)?;
    let ran = run_writing(alloc, case, schedule)?;
    expect_case(rt, case, &ran, "a failing call that isn't made");
    Ok(())
}

#[test]
fn each_failing_write_and_flush_is_told_of(rt: HostRuntime) -> Result<(), Fail> {
    for case in &CASES {
        expect_failing_calls(&rt, rt.alloc(), case)?;
    }
    Ok(())
}

#[test]
fn a_full_device_takes_no_more(rt: HostRuntime) -> Result<(), Fail> {
    let mut plan = Plan::new(rt.alloc());
    plan.room = 3;
    let ran = run_with(rt.alloc(), &["strip"], b"abc\n", plan)?;
    let name = "a device with no room for the line feed";
    expect_end(&rt, &ran, 4, "abc", "write failed\n", name);
    Ok(())
}

#[test]
fn bad_words_read_and_write_nothing(rt: HostRuntime) -> Result<(), Fail> {
    let mut plan = Plan::new(rt.alloc());
    plan.input = at_call(rt.alloc(), 0, Outcome::Failed)?;
    plan.output = at_call(rt.alloc(), 0, Outcome::Failed)?;
    let ran = run_with(rt.alloc(), &["strip", "trim"], b"abc\n", plan)?;
    expect_end(&rt, &ran, 2, "", "bad words\n", "bad words");
    expect(&rt, ran.input_left == 1, "no read", "bad words");
    expect(&rt, ran.output_left == 1, "no write", "bad words");
    Ok(())
}

// A word, an input, the status and the output, and how many calls of the fault writer report it.
type FaultRow = (&'static str, &'static [u8], u8, &'static str, usize);

static FAULT_ROWS: [FaultRow; 4] = [
    ("Trim", b"abc\n", 2, "", 1),
    ("strip", b"\xff", 3, "", 1),
    ("cut:1:", b"ab\n\xc3\xa9\n", 1, "b\n", FAULT_CALLS),
    ("prefix:ab", b"abc\nxbc\nabd", 1, "c\n", FAULT_CALLS),
];

fn expect_failing_fault(
    rt: &impl Abort,
    alloc: Global,
    row: &FaultRow,
    call: usize,
) -> Result<(), Fail> {
    let (word, bytes, status, written, _) = *row;
    let mut plan = Plan::new(alloc);
    plan.faults = at_call(alloc, call, Outcome::Failed)?;
    let ran = run_with(alloc, &[word], bytes, plan)?;
    let name = (word, call);
    expect(rt, ran.status == status, "status", name);
    let has_output = ran.output.as_slice() == written.as_bytes();
    expect(rt, has_output, "output", name);
    expect(rt, ran.flushed == written.len(), "what is flushed on", name);
    expect(rt, ran.faults_left == 0, "the calls", name);
    Ok(())
}

// Each call of the fault writer fails, so nothing is written to it.
fn expect_silence(rt: &impl Abort, alloc: Global, row: &FaultRow) -> Result<(), Fail> {
    let (word, bytes, status, written, calls) = *row;
    let mut plan = Plan::new(alloc);
    plan.faults = vec![in alloc; Outcome::Failed; calls]?;
    let ran = run_with(alloc, &[word], bytes, plan)?;
    expect_end(rt, &ran, status, written, "", word);
    Ok(())
}

fn expect_failing_faults(rt: &impl Abort, alloc: Global, row: &FaultRow) -> Result<(), Fail> {
    let (_, _, _, _, calls) = *row;
    for call in 0..calls {
        expect_failing_fault(rt, alloc, row, call)?;
    }
    expect_silence(rt, alloc, row)
}

#[test]
fn a_fault_of_the_fault_writer_is_passed_over(rt: HostRuntime) -> Result<(), Fail> {
    for row in &FAULT_ROWS {
        expect_failing_faults(&rt, rt.alloc(), row)?;
    }
    Ok(())
}
