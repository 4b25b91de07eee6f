//! Edits or strips a text line by line.
ghost use Rattle.std.specs.Prelude.{◌≡◌, ◌<◌, ◌||◌, [], is_err, length, IfErr, IfNone, IfOk};
ghost use Rattle.std.specs.Prelude.{IfSome, OnOk};
ghost use Rattle.std.specs.Io.KnownBytes.{append_known};
ghost use Rattle.ansi_str.specs.Plain.{plain};
ghost use Rattle.ansi_lines_runs.specs.Jobs.{work_of};
ghost use Rattle.ansi_lines_runs.specs.Lines.{answer_of, answers, first_refused, lines};
ghost use Rattle.ansi_lines_runs.specs.Lines.{HasFirstLine, StopsWriting, WritesAnswer};
ghost use Rattle.ansi_lines_runs.specs.Lines.{WritesBeginning};

use crate::words::Job;
use ansi_io::devices::{Sink, WriteFault};
use ansi_io::stop::Stop;
use ansi_str::ansitok::{Kind, Scanner};
use memchr::memchr;
use std::alloc::Allocator;

/// Writes the result of each line, in order, and a line feed after each line that had one. It stops
/// before the first line that is refused, and returns that line's number, counted from 1. `None`
/// means that no line is refused.
///
/// `Err` means that a write failed, or that memory has run out. If no write failed, a beginning of
/// the results is written.
///
/// Stripping a line doesn't allocate. Editing one allocates its result, which is freed before the
/// next line.
pub fn write_lines<A: Allocator + Copy, W: Sink>(
    alloc: A,
    job: &Job<'_, A>,
    text: &str,
    output: &mut W,
) -> Result<Option<usize>, Stop>
    ensures done { OnOk result (W.taken output.new
        ≡ append_known (W.taken output.old) (answers (work_of job.now) text.now)) }
    ensures refused { IfOk result (λ line. line ≡ first_refused 1 (work_of job.now) text.now) }
    ensures flushes { W.flushes output.new ≡ W.flushes output.old }
    ensures unfailed { OnOk result (W.failed output.new ≡ W.failed output.old) }
    ensures stopped { IfErr result (StopsWriting (W.failed output.old) (W.failed output.new)
        (WritesBeginning (W.taken output.old) (W.taken output.new)
        (answers (work_of job.now) text.now))) }
{
    let mut rest = text;
    let mut number = 1;
    while let Some((line, ended, more)) = split_first_line(rest) {
        if !write_answer(alloc, job, line, output)? {
            return Ok(Some(number));
        }
        if ended {
            output.write(b"\n")?;
        }
        rest = more;
        number += 1;
    }
    Ok(None)
}

// The text of the first line, whether a line feed ends it, and the text after it. An empty text
// has no line.
fn split_first_line(text: &str) -> Option<(&str, bool, &str)>
    ensures none { IfNone result (lines text.now ≡ []) }
    ensures first { IfSome result (λ line. HasFirstLine text.now line.0.now line.1 line.2.now) }
    ensures shorter { IfSome result (λ line. length line.2.now < length text.now) }
{
    if text.is_empty() {
        return None;
    }
    match memchr(b'\n', text.as_bytes()) {
        Some(end) => Some((&text[..end], true, &text[end + 1..])),
        None => Some((text, false, "")),
    }
}

// Writes the result of a line's text, or nothing if memory has run out. It returns false if the
// line is refused, and then writes nothing.
fn write_answer<A: Allocator + Copy, W: Sink>(
    alloc: A,
    job: &Job<'_, A>,
    line: &str,
    output: &mut W,
) -> Result<bool, Stop>
    ensures done { IfOk result (λ answered. WritesAnswer (answer_of (work_of job.now) line.now)
        answered (W.taken output.old) (W.taken output.new)) }
    ensures flushes { W.flushes output.new ≡ W.flushes output.old }
    ensures unfailed { OnOk result (W.failed output.new ≡ W.failed output.old) }
    ensures stopped { IfErr result (StopsWriting (W.failed output.old) (W.failed output.new)
        (W.taken output.new ≡ W.taken output.old)) }
{
    match job {
        Job::Strip => {
            write_plain(line, output)?;
            Ok(true)
        }
        Job::Edits(edits) => {
            let Some(edited) = ansi_str::edit(alloc, line, edits.as_slice())? else {
                return Ok(false);
            };
            output.write(edited.as_bytes())?;
            Ok(true)
        }
    }
}

// Writes the plain text of a line run by run, so it doesn't allocate.
fn write_plain<W: Sink>(line: &str, output: &mut W) -> Result<(), WriteFault>
    ensures taken { OnOk result
        (W.taken output.new ≡ append_known (W.taken output.old) (plain line.now)) }
    ensures flushes { W.flushes output.new ≡ W.flushes output.old }
    ensures failed { W.failed output.new ≡ (W.failed output.old || is_err result) }
{
    for item in Scanner::new(line) {
        if item.kind == Kind::Text {
            output.write(line[item.start..item.end].as_bytes())?;
        }
    }
    Ok(())
}
