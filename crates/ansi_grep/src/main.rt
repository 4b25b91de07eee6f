//! Prints the lines of a log that contain a text, each after its number, with every match marked.
//!
//! The first argument is the text. It is searched as if the log had no colors, so it is found even
//! if a color begins or ends inside it. A match is shown in inverse. What is inverse in the log
//! already is shown not inverse in a match.
//!
//! A log may have what a stranger sent. So sequences other than colors and links are left out, and
//! so are control characters. The text is searched in what remains. A color or a link that is open
//! at the end of a line ends there.
//!
//! Line ends and statuses are those of `grep`. A line ends at a line feed, and a carriage return
//! before it is part of the line, and stays. A last line without a line feed gets one. The status
//! is 0 if a line matches, 1 if none does, and 2 after an error. It has no options: this program
//! shows how `ansi_restyle` is used.
#![tactic(auto)]

use ansi_restyle::AnsiRestyle;
use ansi_safe::policy::{Links, Policy, Rest};
use ansi_safe::safe::sanitize;
use ansi_str::{AnsiStr, get_blocks};
use short_programs::{Stop, end, lines, missing, print_line, refuse_after, text_of, words};
use std::alloc::{AllocError, Global};
use std::borrow::CowStr;
use std::process::ExitCode;

const FOUND: u8 = 0;

const NOT_FOUND: u8 = 1;

const FAILED: u8 = 2;

const INVERSE: &str = "7";

const NOT_INVERSE: &str = "27";

// The parts of the matches where a safe line is inverse, or those where it isn't, in order. (A block
// of a safe line is its run after link sequences alone.)
fn parts_of(
    alloc: Global,
    matches: &[(usize, usize)],
    line: &str,
    is_inverse: bool,
) -> Result<Vec<(usize, usize)>, AllocError> {
    let mut parts = Vec::new(alloc);
    let mut start: usize = 0;
    for block in get_blocks(alloc, line) {
        let block = block?;
        let end = start.saturating_add(block.text().ansi_strip(alloc)?.len());
        if block.style().is_inverse() == is_inverse {
            let before = matches.partition_point(|(_, to)| *to <= start);
            for (from, to) in matches[before..].iter().take_while(|(from, _)| *from < end) {
                parts.push(((*from).max(start), (*to).min(end)))?;
            }
        }
        start = end;
    }
    Ok(parts)
}

// The line with each match marked: inverse, or not inverse where the line is inverse already. (The
// ranges are never refused.)
fn marked(alloc: Global, line: &str, matches: &[(usize, usize)]) -> Result<String, AllocError> {
    let upright = parts_of(alloc, matches, line, false)?;
    let inverse = parts_of(alloc, matches, line, true)?;
    let marked = line.ansi_restyle(alloc, upright.as_slice(), INVERSE)?;
    let marked = marked.unwrap_or(CowStr::Borrowed(line)).into_owned(alloc)?;
    match marked.ansi_restyle(alloc, inverse.as_slice(), NOT_INVERSE)? {
        Some(both) => both.into_owned(alloc),
        None => Ok(marked),
    }
}

// A line that contains the pattern, made safe and with its matches marked. A carriage return at its
// end stays.
fn found(alloc: Global, line: &str, pattern: &str) -> Result<Option<String>, AllocError> {
    let policy = Policy {
        rest: Rest::Drop,
        links: Links::Keep,
    };
    let end = if line.ends_with('\r') { "\r" } else { "" };
    let safe = sanitize(alloc, line.strip_suffix('\r').unwrap_or(line), policy)?;
    let matches: Vec<(usize, usize)> = safe.ansi_matches(pattern).collect(alloc)?;
    if matches.is_empty() {
        return Ok(None);
    }
    let marked = marked(alloc, safe.as_str(), matches.as_slice())?;
    Ok(Some(format!(in alloc; "{marked}{end}")?))
}

// Prints the lines that contain the text. Returns the status.
fn print_found(rt: &HostRuntime) -> Result<u8, Stop> {
    let alloc = rt.alloc();
    let words = words(rt)?;
    let pattern = words.first().ok_or(missing("text to find"))?.as_str();
    refuse_after(alloc, words.as_slice(), 1)?;
    let mut status = NOT_FOUND;
    for (number, line) in (1..u64::MAX).zip(lines(rt)?) {
        let line = text_of(alloc, line)?;
        if let Some(found) = found(alloc, line.as_str(), pattern)? {
            print_line(rt, format!(in alloc; "{number}: {found}")?.as_str())?;
            status = FOUND;
        }
    }
    Ok(status)
}

fn main(rt: HostRuntime) -> ExitCode {
    end(&rt, "ansi_grep", FAILED, print_found(&rt))
}
