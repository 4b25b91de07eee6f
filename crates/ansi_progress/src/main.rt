//! Prints a progress line for each line `NAME DONE TOTAL` of its input, in the styles of a sample.
//!
//! The first argument is the sample: the text for a step that is done, and then, in another style,
//! the text for a step that is left, such as what `printf '\033[32m#\033[90m-'` writes. In a name,
//! sequences other than select graphic renditions are left out, and so are control characters.
#![tactic(auto)]

ghost use Rattle.std.specs.Prelude.{◌≤◌};

use ansi_columns::AnsiColumns;
use ansi_safe::policy::{Links, Policy, Rest};
use ansi_safe::safe::sanitize;
use ansi_str::{AnsiBlock, get_blocks};
use anyhow::anyhow;
use short_programs::{Stop, end, lines, missing, print_line, refuse_after, text_of, words};
use std::alloc::{AllocError, Global};
use std::process::ExitCode;

const DONE: u8 = 0;

const FAILED: u8 = 1;

const STEPS: u32 = 20;

// The column at which names end.
const NAME_COLUMNS: usize = 8;

#[derive(Drop)]
struct Task<'t> {
    name: &'t str,
    done: u32,
    total: u32,
}

impl<'t> Task<'t> {
    fn parse(line: &'t str) -> Option<Task<'t>> {
        let mut words = line.split_whitespace();
        let name = words.next()?;
        let done = words.next()?.parse().ok()?;
        let total = words.next()?.parse().ok()?;
        Some(Task { name, done, total })
    }

    // How many of `parts` parts of the task are done. A task without steps is done.
    fn done_of(&self, parts: u32) -> u32
        ensures { result ≤ parts }
    {
        if self.done >= self.total {
            return parts;
        }
        (u64::from(self.done) * u64::from(parts) / u64::from(self.total)) as u32
    }
}

// `count` steps, in the style of the sample.
fn steps_of(alloc: Global, sample: &AnsiBlock<'_>, count: u32) -> Result<String, AllocError> {
    let style = sample.style();
    let steps = sample.text().repeat(alloc, count as usize)?;
    format!(in alloc; "{}{steps}{}", style.start(), style.end())
}

// The progress line of a task.
fn line_of(
    alloc: Global,
    task: &Task<'_>,
    done: &AnsiBlock<'_>,
    left: &AnsiBlock<'_>,
) -> Result<String, AllocError> {
    let policy = Policy {
        rest: Rest::Drop,
        links: Links::Remove,
    };
    let count = task.done_of(STEPS);
    let steps_done = steps_of(alloc, done, count)?;
    let steps_left = steps_of(alloc, left, STEPS - count)?;
    let name = sanitize(alloc, task.name, policy)?;
    let blanks = " ".repeat(alloc, NAME_COLUMNS.saturating_sub(name.ansi_width()))?;
    let percent = task.done_of(100);
    format!(in alloc; "{blanks}{name} {steps_done}{steps_left} {percent:>3}%")
}

// Prints the progress line of each line of the input. Returns the status.
fn print_progress(rt: &HostRuntime) -> Result<u8, Stop> {
    let alloc = rt.alloc();
    let words = words(rt)?;
    let sample = words.first().ok_or(missing("sample"))?;
    refuse_after(alloc, words.as_slice(), 1)?;
    let mut blocks = get_blocks(alloc, sample.as_str());
    let done = blocks.next().ok_or(missing("step that is done"))??;
    let left = blocks.next().ok_or(missing("step that is left"))??;
    for (number, line) in (1..u64::MAX).zip(lines(rt)?) {
        let line = text_of(alloc, line)?;
        let Some(task) = Task::parse(line.as_str()) else {
            return Err(Stop::Failed(anyhow!("line {number} isn't NAME DONE TOTAL")));
        };
        print_line(rt, line_of(alloc, &task, &done, &left)?.as_str())?;
    }
    Ok(DONE)
}

fn main(rt: HostRuntime) -> ExitCode {
    end(&rt, "ansi_progress", FAILED, print_progress(&rt))
}
