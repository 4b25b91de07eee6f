//! Words and an output that the program may lack.
use super::{ROOM, expect};
use ansi_io::fake_device::FakeDevice;
use ansi_lines_runs::runs::prepare;
use std::alloc::{AllocError, Global};
use std::io::{self, Error, ErrorKind};
use std::process::Abort;
use std::test::Fail;

// Whether the program has its words and its output, and the status and the faults.
type Row = (bool, bool, Option<u8>, &'static str);

static ROWS: [Row; 4] = [
    (true, true, None, ""),
    (false, true, Some(2), "bad words\n"),
    (true, false, Some(5), "out of memory\n"),
    (false, false, Some(2), "bad words\n"),
];

// What the program is given, or an error.
fn given<T: Drop>(is_given: bool, value: T) -> io::Result<T> {
    if is_given {
        return Ok(value);
    }
    Err(Error::from(ErrorKind::Other))
}

fn expect_prepared(rt: &impl Abort, alloc: Global, row: &Row) -> Result<(), AllocError> {
    let (has_words, has_output, status, told) = *row;
    let words = given(has_words, Vec::new(alloc));
    let output = given(has_output, FakeDevice::with_room(alloc, ROOM)?);
    let mut faults = FakeDevice::with_room(alloc, ROOM)?;
    let ended = prepare(words, output, &mut faults).err();
    let name = (has_words, has_output);
    expect(rt, ended == status, "status", name);
    let has_faults = faults.bytes() == told.as_bytes();
    expect(rt, has_faults, "faults", name);
    Ok(())
}

#[test]
fn missing_words_or_output_have_a_status(rt: HostRuntime) -> Result<(), Fail> {
    for row in &ROWS {
        expect_prepared(&rt, rt.alloc(), row)?;
    }
    Ok(())
}
