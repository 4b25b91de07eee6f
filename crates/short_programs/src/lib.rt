//! What the four short programs share: the lines of their input, their words, and how they end.
//!
//! A program that nobody reads any more ends silently with the status 141, which a shell shows of a
//! `grep` there. Any other failure is a line on standard error, which begins with the program's
//! name; bad words have the status 2.
#![tactic(auto)]

ghost use Rattle.std.specs.Prelude.{◌≡◌, ◌≤◌, ◌↔◌, ℕ, IfOk, IsErr, IsOk, length, string_bytes, vec_items};
ghost use Rattle.std.specs.Process.{exit_status};
ghost use Rattle.std.specs.Str.Lossy.{utf8_lossy};
ghost use Rattle.short_programs.specs.Stops.{status_after, status_of};

use ansi_safe::policy::{Links, Policy, Rest};
use ansi_safe::safe::sanitize;
use anyhow::{Context, Error, anyhow};
use std::alloc::{AllocError, AllocFailed, Global};
use std::env;
use std::io::{self, BufRead, BufReader, ErrorKind, Split};
use std::process::ExitCode;
use std::rt::Env;

const BAD_WORDS: u8 = 2;

// 128 and the number of the signal SIGPIPE
const OUTPUT_CLOSED: u8 = 141;

/// Why a program ends before it is done.
#[derive(Debug, Drop)]
pub enum Stop {
    /// Nobody reads the output any more.
    OutputClosed,
    /// The words that it is given are bad.
    BadWords(Error),
    /// Something failed.
    Failed(Error),
}

impl From<Error> for Stop {
    fn from(error: Error) -> Self {
        Stop::Failed(error)
    }
}

impl From<AllocError> for Stop {
    fn from(error: AllocError) -> Self {
        Stop::Failed(Error::from(error))
    }
}

impl<T: Drop> From<AllocFailed<T>> for Stop {
    fn from(error: AllocFailed<T>) -> Self {
        Stop::from(AllocError::from(error))
    }
}

/// The words after the program's name.
pub fn words<R: Env + AllocGlobal>(rt: &R) -> Result<Vec<String>, Stop> {
    let words = env::args(rt)
        .context("the words can't be read")
        .map_err(Stop::BadWords)?;
    Ok(words.skip(1).collect(rt.alloc())?)
}

/// The stop for a word that is missing. `which` says which.
pub fn missing(which: &str) -> Stop
    ensures { (failed : ℕ) → status_of failed result ≡ 2 }
{
    Stop::BadWords(anyhow!("no {which} is given"))
}

/// The stop for a bad word, which is named, made safe. `why` says what is wrong with it.
pub fn bad_word(alloc: Global, why: &str, word: &str) -> Stop {
    let policy = Policy {
        rest: Rest::Show,
        links: Links::Remove,
    };
    match sanitize(alloc, word, policy) {
        Ok(word) => Stop::BadWords(anyhow!("{why}: {word}")),
        Err(error) => Stop::from(error),
    }
}

/// Refuses a word after the first `count`, which are all that the program takes.
pub fn refuse_after(alloc: Global, words: &[String], count: usize) -> Result<(), Stop>
    ensures { IsOk result ↔ (length words.now ≤ count) }
{
    match words.get(count) {
        None => Ok(()),
        Some(word) => {
            let why = "a word too many, though `<FILE` reads a file";
            Err(bad_word(alloc, why, word.as_str()))
        }
    }
}

/// The width in columns that a word names.
pub fn width_of(alloc: Global, word: &str) -> Result<usize, Stop> {
    match word.parse() {
        Ok(width) => Ok(width),
        Err(_) => Err(bad_word(alloc, "not a width", word)),
    }
}

/// The lines of standard input, without their line feeds.
pub fn lines<R: Input + AllocGlobal>(rt: &R) -> Result<Split<BufReader<R::Reader>>, Stop> {
    let input = BufReader::new(rt.alloc(), rt.reader()).context("no memory for the input")?;
    Ok(input.split(rt.alloc(), b'\n'))
}

/// The text of a line that was read. Bytes that aren't UTF-8 become U+FFFD.
pub fn text_of(alloc: Global, line: io::Result<Vec<u8>>) -> Result<String, Stop>
    ensures text { IfOk line (λ bytes. IfOk result (λ text.
        string_bytes text ≡ utf8_lossy (vec_items bytes))) }
    ensures failed { IsErr line → IsErr result }
{
    let line = line.context("read failed")?;
    Ok(String::from_utf8_lossy(alloc, line.as_slice())?)
}

/// Prints a line.
pub fn print_line(rt: &impl Print, line: &str) -> Result<(), Stop> {
    match rt.println(line) {
        Ok(()) => Ok(()),
        Err(error) if error.kind() == ErrorKind::BrokenPipe => Err(Stop::OutputClosed),
        Err(error) => Err(Stop::Failed(Error::from(error).context("write failed"))),
    }
}

/// Ends a program: reports why it stopped, if it failed, and returns its status. `failed` is that of
/// a failure.
pub fn end(rt: &impl Eprint, program: &str, failed: u8, ended: Result<u8, Stop>) -> ExitCode
    ensures { exit_status result ≡ status_after failed ended }
{
    let status = match ended {
        Ok(status) => status,
        Err(Stop::OutputClosed) => OUTPUT_CLOSED,
        Err(Stop::BadWords(why)) => {
            let _ = eprintln!(rt; "{program}: {why:#}: `{program} --help` lists the words");
            BAD_WORDS
        }
        Err(Stop::Failed(why)) => {
            let _ = eprintln!(rt; "{program}: {why:#}");
            failed
        }
    };
    ExitCode::from(status)
}
