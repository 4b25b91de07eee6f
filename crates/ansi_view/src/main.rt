//! Makes a stranger's text safe for a terminal, line by line, as it comes.
#![tactic(auto)]

mod named;

use crate::named::Named;
use ansi_io::host::{HostIn, HostOut};
use ansi_lines_runs::runs::prepare;
use ansi_view_runs::runs::run;
use std::env;
use std::io::{self, BufWriter};
use std::process::ExitCode;

fn main(rt: HostRuntime) -> ExitCode {
    let mut input = HostIn::new(rt.stdin());
    let mut faults = Named::new(HostOut::new(rt.stderr()));
    let words = words_given(&rt);
    let output = BufWriter::new(rt.alloc(), rt.stdout()).map(HostOut::new);
    let status = match prepare(words, output, &mut faults) {
        Ok((words, mut output)) => run(
            rt.alloc(),
            words.as_slice(),
            &mut input,
            &mut output,
            &mut faults,
        ),
        Err(status) => status,
    };
    ExitCode::from(status)
}

// The words after the program's name.
fn words_given(rt: &HostRuntime) -> io::Result<Vec<String>> {
    Ok(env::args(rt)?.skip(1).collect(rt.alloc())?)
}
