//! Tests of what no row of `ansi_rows` can test.
mod blocks;
mod callers;
mod colors;
mod pens;
mod replaces;
mod requests;
mod writers;

use std::fmt::Debug;
use std::process::Abort;

/// Aborts the test with the row if the condition doesn't hold.
pub fn expect<R: Copy + Debug>(rt: &impl Abort, holds: bool, what: &str, row: R) {
    assert!(rt; holds, "{what}: {row:?}");
}
