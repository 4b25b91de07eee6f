//! Wraps each line of its input at blanks. Each resulting line sets its styles and its link itself,
//! and closes them.
//!
//! The first argument is the width, in columns of a terminal. A word that is wider is broken. The
//! second, if there is one, is written before each line but the first that a line becomes.
#![tactic(auto)]

use ansi_columns::{AnsiColumns, Wrap};
use short_programs::{
    Stop, end, lines, missing, print_line, refuse_after, text_of, width_of, words,
};
use std::process::ExitCode;

const DONE: u8 = 0;

const FAILED: u8 = 1;

// Prints each line of the input, wrapped. Returns the status.
fn print_wrapped(rt: &HostRuntime) -> Result<u8, Stop> {
    let alloc = rt.alloc();
    let words = words(rt)?;
    let word = words.first().ok_or(missing("width"))?;
    let width = width_of(alloc, word.as_str())?;
    let indent = words.get(1).map_or("", |indent| indent.as_str());
    refuse_after(alloc, words.as_slice(), 2)?;
    let to = Wrap::at(width).indent(indent);
    for line in lines(rt)? {
        let line = text_of(alloc, line)?;
        let text = line.as_str().strip_suffix('\r').unwrap_or(line.as_str());
        for wrapped in text.ansi_wrap_with(alloc, &to) {
            print_line(rt, wrapped?.as_str())?;
        }
    }
    Ok(DONE)
}

fn main(rt: HostRuntime) -> ExitCode {
    end(&rt, "ansi_wrap", FAILED, print_wrapped(&rt))
}
