//! Runs of the programs over fake devices: what a run writes, reports and returns, also if its
//! devices or its memory fail.
mod devices;
mod hosts;
mod memory;
mod prepared;
mod rows;
pub mod statuses;
mod views;

use ansi_io::fake_device::{FakeDevice, Outcome};
use ansi_lines_runs::runs::run;
use std::alloc::{AllocError, Allocator, Global};
use std::fmt::Debug;
use std::process::Abort;

// How many bytes a read gives, so that most inputs need several reads.
const CHUNK: usize = 7;

// How many bytes an output takes.
const ROOM: usize = 100;

// Words and an input, and the status, the output and the faults of a run that meets no failure.
type Row = (
    &'static [&'static str],
    &'static str,
    u8,
    &'static str,
    &'static str,
);

// What the devices of a run do.
#[derive(Drop)]
struct Plan {
    // The outcomes of each device's calls.
    input: Vec<Outcome>,
    output: Vec<Outcome>,
    faults: Vec<Outcome>,
    // The most bytes that a read gives.
    chunk: usize,
    // How many bytes the output takes.
    room: usize,
}

impl Plan {
    // Devices that work.
    fn new(alloc: Global) -> Self {
        Plan {
            input: Vec::new(alloc),
            output: Vec::new(alloc),
            faults: Vec::new(alloc),
            chunk: CHUNK,
            room: ROOM,
        }
    }
}

// What a run has done. It has no devices, so that a check of it is quick to prove.
#[derive(Drop)]
struct Ran {
    status: u8,
    output: Vec<u8>,
    faults: Vec<u8>,
    // How many bytes the output has passed on.
    flushed: usize,
    // How many outcomes are left of each device.
    input_left: usize,
    output_left: usize,
    faults_left: usize,
}

impl Ran {
    fn over(alloc: Global, status: u8, devices: &FakeDevices) -> Result<Self, AllocError> {
        Ok(Ran {
            status,
            output: devices.output.bytes().to_vec(alloc)?,
            faults: devices.faults.bytes().to_vec(alloc)?,
            flushed: devices.output.flushed(),
            input_left: devices.input.outcomes_left(),
            output_left: devices.output.outcomes_left(),
            faults_left: devices.faults.outcomes_left(),
        })
    }
}

// The devices of a run.
#[derive(Drop)]
struct FakeDevices {
    input: FakeDevice,
    output: FakeDevice,
    faults: FakeDevice,
}

impl FakeDevices {
    // Devices that follow a plan, with these bytes to read.
    fn new(alloc: Global, bytes: &[u8], plan: Plan) -> Result<Self, AllocError> {
        let Plan {
            input,
            output,
            faults,
            chunk,
            room,
        } = plan;
        let device = FakeDevice::of(alloc, bytes.to_vec(alloc)?);
        Ok(FakeDevices {
            input: device.in_chunks(chunk).with_schedule(input),
            output: FakeDevice::with_room(alloc, room)?.with_schedule(output),
            faults: FakeDevice::with_room(alloc, ROOM)?.with_schedule(faults),
        })
    }
}

fn push_owned(given: &mut Vec<String>, alloc: Global, word: &str) -> Result<(), AllocError> {
    given.push(String::from_str(alloc, word)?)?;
    Ok(())
}

fn owned(alloc: Global, words: &[&str]) -> Result<Vec<String>, AllocError> {
    let mut given = Vec::new(alloc);
    for word in words {
        push_owned(&mut given, alloc, word)?;
    }
    Ok(given)
}

// The status of a run over devices. It has no clauses, so that its callers are quick to prove.
fn status_of<A: Allocator>(alloc: A, words: &[String], devices: &mut FakeDevices) -> u8 {
    run(
        alloc,
        words,
        &mut devices.input,
        &mut devices.output,
        &mut devices.faults,
    )
}

// Runs with this heap as the run's allocator.
fn run_in<A: Allocator + Copy>(
    heap: A,
    words: &[String],
    bytes: &[u8],
    plan: Plan,
    alloc: Global,
) -> Result<Ran, AllocError> {
    let mut devices = FakeDevices::new(alloc, bytes, plan)?;
    let status = status_of(heap, words, &mut devices);
    Ran::over(alloc, status, &devices)
}

fn run_with(alloc: Global, words: &[&str], bytes: &[u8], plan: Plan) -> Result<Ran, AllocError> {
    let given = owned(alloc, words)?;
    run_in(alloc, given.as_slice(), bytes, plan, alloc)
}

// The outcomes of `call` calls that work, and then this outcome.
fn at_call(alloc: Global, call: usize, outcome: Outcome) -> Result<Vec<Outcome>, AllocError> {
    let mut schedule = vec![in alloc; Outcome::Works; call]?;
    schedule.push(outcome)?;
    Ok(schedule)
}

// Ends the test if this doesn't hold for the row.
fn expect<R: Copy + Debug>(rt: &impl Abort, holds: bool, what: &str, row: R) {
    assert!(rt; holds, "{what}: {row:?}");
}

// Checks the status, the output and the faults of a run.
fn expect_end<R: Copy + Debug>(
    rt: &impl Abort,
    ran: &Ran,
    status: u8,
    output: &str,
    faults: &str,
    run: R,
) {
    let has_status = ran.status == status;
    expect(rt, has_status, "status", run);
    let has_output = ran.output.as_slice() == output.as_bytes();
    expect(rt, has_output, "output", run);
    let has_faults = ran.faults.as_slice() == faults.as_bytes();
    expect(rt, has_faults, "faults", run);
}
