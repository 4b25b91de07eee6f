//! Makes the call of each row of its standard input, and reports each row whose call returns
//! something else than the row says. At the end it reports how many rows of each call passed.
//!
//! A row is a line, and an empty line is skipped. The module `rows` documents the fields of a row.
//! Rows whose text isn't UTF-8 are passed over, and those of a call that only other languages have.
#![tactic(auto)]

mod blocks;
mod calls;
mod check;
mod columns;
mod items;
mod ranges;
mod restyles;
mod rows;
mod safe;
mod texts;
mod tries;

use check::Check;
use rows::{Line, Row};
use std::alloc::{AllocError, Global};
use std::io;
use tries::try_row;

/// The call for other languages alone.
const LACKING: &str = "sanitize_bytes";

/// How many rows of each call passed.
#[derive(Drop)]
struct Tally {
    passed: Vec<(String, usize)>,
}

impl Tally {
    fn count(&mut self, alloc: Global, call: &str) -> Result<(), AllocError> {
        for (name, count) in self.passed.iter_mut() {
            if name.as_str() == call {
                *count = count.saturating_add(1);
                return Ok(());
            }
        }
        self.passed.push((String::from_str(alloc, call)?, 1))?;
        Ok(())
    }
}

/// The first difference between the row and its call, or `None` if there is none.
fn fault_of_row(alloc: Global, row: Row<'_>) -> Option<String> {
    let mut check = Check::new(alloc, row);
    if try_row(&mut check).is_none() {
        check.fail("no such call");
    }
    check.fault
}

fn tried(alloc: Global, line: &str, tally: &mut Tally) -> io::Result<Option<String>> {
    let fields = match Line::new(alloc, line) {
        Line::Fields(fields) => fields,
        Line::NotUtf8 => {
            tally.count(alloc, "passed over")?;
            return Ok(None);
        }
        Line::Unread => return Ok(Some(String::from_str(alloc, "no row")?)),
    };
    let Some(row) = Row::new(fields.as_slice()) else {
        return Ok(Some(String::from_str(alloc, "no row")?));
    };
    if row.call == LACKING {
        tally.count(alloc, "passed over")?;
        return Ok(None);
    }
    let fault = fault_of_row(alloc, row);
    if fault.is_none() {
        tally.count(alloc, row.call)?;
    }
    Ok(fault)
}

fn main(rt: HostRuntime) -> io::Result<()> {
    let alloc = rt.alloc();
    let mut tally = Tally {
        passed: Vec::new(alloc),
    };
    for (index, line) in rt.lines(alloc).enumerate() {
        let line = line?;
        if line.is_empty() {
            continue;
        }
        if let Some(fault) = tried(alloc, line.as_str(), &mut tally)? {
            println!(rt; "line {}: {fault}", index + 1)?;
        }
    }
    for (call, count) in &tally.passed {
        println!(rt; "{call}: {count}")?;
    }
    Ok(())
}
