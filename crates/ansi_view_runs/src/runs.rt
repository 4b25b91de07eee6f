//! A run of the program, over any devices.
ghost use Rattle.std.specs.Prelude.{◌≡◌, ◌≤◌, ◌⊎◌, ◌++◌, ◌==◌, [], false, true, codes, length, vec_len};
ghost use Rattle.std.specs.Prelude.{IfErr, IfOk, IfSome, IsErrOf, IsSome, OnErr, OnOk, string_bytes};
ghost use Rattle.std.specs.Prelude.{if◌then◌else◌, is_err, ◌||◌};
ghost use Rattle.std.specs.Cow.{cow_str_bytes};
ghost use Rattle.std.specs.Io.KnownBytes.{append_known};
ghost use Rattle.ansi_io.specs.Devices.{count_after, was_closed};
ghost use Rattle.ansi_lines_runs.specs.Runs.{words_of};
ghost use Rattle.ansi_view_runs.specs.Lines.{max_piece, HasNoLineFeed};
ghost use Rattle.ansi_view_runs.specs.Jobs as jobs;
ghost use Rattle.ansi_view_runs.specs.LineViews.{line_of};
ghost use Rattle.ansi_view_runs.specs.PlainLines.{IsPlainLine};
ghost use Rattle.ansi_view_runs.specs.Runs.{to_come, Shows, ShowsBeginning, StopsWriting, Writes};
ghost use Rattle.ansi_view_runs.specs.Runs.{KeepsFlags, MostFlushes, StopsReading};
ghost use Rattle.ansi_view_runs.specs.Runs.{ViewsAll, ViewsBeginning, ViewsFront};
ghost use Rattle.ansi_view_runs.specs.SafeJobs.{work_of};
ghost use Rattle.ansi_view_runs.specs.Stops.{message_of};
ghost use Rattle.ansi_view_runs.specs.Views.{changed_line, decoded, opening_after, shown, viewed};
ghost use Rattle.ansi_view_runs.specs.Views.{with_safe_tails};
ghost use Rattle.ansi_view_runs.specs.Words.{bad_word, message_of_word, view_asked};

use crate::ended::{edit_line, end_text};
use crate::lines::{Line, split_first};
use crate::plain_lines::PlainLine;
use crate::stop::{OUT_OF_MEMORY, Stop, write_message};
use crate::tails::{safe_job, safe_tails};
use crate::view::{Job, SafeJob, as_decoded, decode_tested, edits_nothing, stays, view_decoded};
use crate::words::parse;
use ansi_columns::edits::edit_in_turn;
use ansi_io::devices::{ReadFault, Sink, Source, WriteFault};
use ansi_safe::policy::{Links, Policy, Rest};
use ansi_safe::safe::sanitize;
use ansi_safe::utf8::from_utf8;
use std::alloc::{AllocError, Allocator};
use std::borrow::CowStr;

// What follows a bad word.
const WHERE_WORDS_ARE: &str = ": `ansi_view --help` lists the words\n";

// The most bytes that a read may give.
const ROOM: usize = 65_536;

/// What a run holds between two reads.
#[derive(Drop)]
pub struct Held<A: Allocator> {
    /// What opens what is open before the next line.
    pub opening: String<A>,
    /// The bytes that are read and don't decide a line yet.
    pub rest: Vec<u8, A>,
}

// Writes what a line becomes. `opening` is what is open before the line, and then after it.
//
// `read` is the line with its end, as it was read, which saves copies; no clause depends on it. A line that stays as
// it is, without edits, is written without its end first. Any other line is written at once.
fn write_line<A: Allocator + Copy, W: Sink>(
    alloc: A,
    job: &SafeJob<'_, A>,
    opening: &mut String<A>,
    line: &Line<'_>,
    read: &[u8],
    output: &mut W,
) -> Result<(), Stop>
    ensures written { Writes W.taken W.flushes W.failed W.closed
        (viewed (work_of job.now) (string_bytes opening.old) (line_of line.now))
        result output.old output.new }
    ensures opening { OnOk result (string_bytes opening.new
        ≡ opening_after job.now.view (string_bytes opening.old) (line_of line.now)) }
{
    let tested = from_utf8(line.text);
    let Some(text) = as_decoded(job.view, line.text, tested) else {
        let text = decode_tested(alloc, job.view, line.text, tested)?;
        return write_text(alloc, job, opening, line, text, read, output);
    };
    if !opening.is_empty() {
        return write_text(
            alloc,
            job,
            opening,
            line,
            CowStr::Borrowed(text),
            read,
            output,
        );
    }
    if edits_nothing(job) {
        return write_unedited(alloc, job, opening, line, text, output);
    }
    match PlainLine::of(job.view, line, text) {
        Some(plain) => write_plain(alloc, job, line, plain, read, output),
        None => write_text(
            alloc,
            job,
            opening,
            line,
            CowStr::Borrowed(text),
            read,
            output,
        ),
    }
}

// Like `write_line`, of a line whose bytes are decoded already, if there are no edits.
#[inline(always)]
fn write_unedited<A: Allocator + Copy, W: Sink>(
    alloc: A,
    job: &SafeJob<'_, A>,
    opening: &mut String<A>,
    line: &Line<'_>,
    text: &str,
    output: &mut W,
) -> Result<(), Stop>
    requires unedited { (work_of job.now).changes ≡ [] }
    requires text { text.now ≡ decoded job.now.view line.now.text.now }
    ensures written { Writes W.taken W.flushes W.failed W.closed
        (viewed (work_of job.now) (string_bytes opening.old) (line_of line.now))
        result output.old output.new }
    ensures opening { OnOk result (string_bytes opening.new
        ≡ opening_after job.now.view (string_bytes opening.old) (line_of line.now)) }
{
    if stays(job.view, opening.as_str(), line, text) {
        write_ended(text, line.end, output)?;
        return Ok(());
    }
    let viewed = view_decoded(alloc, job, opening, line, text)?;
    output.write(viewed.as_bytes())?;
    Ok(())
}

// Like `write_line`, of a line that is plain, with nothing open before it. It leaves nothing open.
#[inline(always)]
fn write_plain<A: Allocator + Copy, W: Sink>(
    alloc: A,
    job: &SafeJob<'_, A>,
    line: &Line<'_>,
    plain: PlainLine<'_>,
    read: &[u8],
    output: &mut W,
) -> Result<(), Stop>
    requires plain { IsPlainLine plain }
    requires shown { shown job.now.view [] (line_of line.now) ≡ plain.text.now }
    ensures { Writes W.taken W.flushes W.failed W.closed
        (viewed (work_of job.now) [] (line_of line.now)) result output.old output.new }
{
    let text = CowStr::Borrowed(plain.text);
    if plain.is_left_by(job) {
        return write_at_once(alloc, text, line.end, read, output);
    }
    write_edited(alloc, job, text, line.end, read, output)
}

// Like `write_line`, of a line whose bytes are decoded already.
fn write_text<A: Allocator + Copy, W: Sink>(
    alloc: A,
    job: &SafeJob<'_, A>,
    opening: &mut String<A>,
    line: &Line<'_>,
    text: CowStr<'_, A>,
    read: &[u8],
    output: &mut W,
) -> Result<(), Stop>
    requires { cow_str_bytes text ≡ decoded job.now.view line.now.text.now }
    ensures written { Writes W.taken W.flushes W.failed W.closed
        (viewed (work_of job.now) (string_bytes opening.old) (line_of line.now))
        result output.old output.new }
    ensures opening { OnOk result (string_bytes opening.new
        ≡ opening_after job.now.view (string_bytes opening.old) (line_of line.now)) }
{
    if stays(job.view, opening.as_str(), line, text.as_str()) {
        return write_edited(alloc, job, text, line.end, read, output);
    }
    let viewed = view_decoded(alloc, job, opening, line, text.as_str())?;
    output.write(viewed.as_bytes())?;
    Ok(())
}

// Writes what edits make of a text in turn, as lines, the last of which has this end. It makes no copy if that
// is `read`.
#[inline(always)]
fn write_edited<A: Allocator + Copy, W: Sink>(
    alloc: A,
    job: &SafeJob<'_, A>,
    text: CowStr<'_, A>,
    end: &str,
    read: &[u8],
    output: &mut W,
) -> Result<(), Stop>
    ensures { Writes W.taken W.flushes W.failed W.closed
        (changed_line (work_of job.now).changes (cow_str_bytes text.entry) end.now)
        result output.old output.new }
{
    let stages = job.stages.as_slice();
    if stages.is_empty() {
        let edited = edit_in_turn(alloc, text, job.last.as_slice())?;
        return write_at_once(alloc, edited, end, read, output);
    }
    let lines = edit_line(alloc, job, text, end)?;
    output.write(lines.as_bytes())?;
    Ok(())
}

// Writes a text and its end in one write. It makes no copy if they are `read`.
#[inline(always)]
fn write_at_once<A: Allocator, W: Sink>(
    alloc: A,
    text: CowStr<'_, A>,
    end: &str,
    read: &[u8],
    output: &mut W,
) -> Result<(), Stop>
    ensures { Writes W.taken W.flushes W.failed W.closed (cow_str_bytes text.entry ++ end.now)
        result output.old output.new }
{
    if are_text_and_end(read, text.as_str(), end) {
        output.write(read)?;
        return Ok(());
    }
    let line = end_text(alloc, text, end)?;
    output.write(line.as_bytes())?;
    Ok(())
}

// Whether these bytes are a text and its end.
#[inline(always)]
fn are_text_and_end(bytes: &[u8], text: &str, end: &str) -> bool
    ensures { result ≡ true → bytes.now ≡ text.now ++ end.now }
{
    match bytes.strip_prefix(text.as_bytes()) {
        Some(rest) => rest == end.as_bytes(),
        None => false,
    }
}

// Writes a text, and then its end.
#[inline(always)]
fn write_ended<W: Sink>(text: &str, end: &str, output: &mut W) -> Result<(), WriteFault>
    ensures taken { OnOk result
        (W.taken output.new ≡ append_known (W.taken output.old) (text.now ++ end.now)) }
    ensures flushes { W.flushes output.new ≡ W.flushes output.old }
    ensures failed { W.failed output.new ≡ (W.failed output.old || is_err result) }
    ensures closed { W.closed output.new ≡ (W.closed output.old || was_closed result) }
{
    output.write(text.as_bytes())?;
    output.write(end.as_bytes())
}

// Writes what each line and piece becomes that these bytes decide, and returns the other bytes.
fn write_lines<'t, A: Allocator + Copy, W: Sink>(
    alloc: A,
    job: &SafeJob<'_, A>,
    opening: &mut String<A>,
    bytes: &'t [u8],
    output: &mut W,
) -> Result<&'t [u8], Stop>
    ensures done { IfOk result (λ rest. Shows
        (to_come (work_of job.now) (string_bytes opening.old) bytes.now)
        (to_come (work_of job.now) (string_bytes opening.new) rest.now)
        (W.taken output.old) (W.taken output.new)) }
    ensures rest { IfOk result (λ rest. HasNoLineFeed rest.now × (length rest.now ≤ max_piece)) }
    ensures flushes { W.flushes output.new ≡ W.flushes output.old }
    ensures flags { OnOk result (KeepsFlags (W.failed output.old) (W.failed output.new)
        (W.closed output.old) (W.closed output.new)) }
    ensures stopped { IfErr result (StopsWriting (W.failed output.old) (W.failed output.new)
        (W.closed output.old) (W.closed output.new) (ShowsBeginning
        (to_come (work_of job.now) (string_bytes opening.old) bytes.now)
        (W.taken output.old) (W.taken output.new))) }
{
    let mut rest = bytes;
    while let Some((line, after)) = split_first(rest) {
        let read = &rest[..rest.len() - after.len()];
        write_line(alloc, job, opening, &line, read, output)?;
        rest = after;
    }
    Ok(rest)
}

/// Takes the bytes of a read: writes what each line and piece becomes that is decided now, and
/// passes all on. At most 1 MiB is held after it.
pub fn take_bytes<A: Allocator + Copy, W: Sink>(
    alloc: A,
    job: &SafeJob<'_, A>,
    held: &mut Held<A>,
    bytes: &[u8],
    output: &mut W,
) -> Result<(), Stop>
    ensures done { OnOk result (Shows
        (to_come (work_of job.now) (string_bytes held.old.opening)
        (held.old.rest.items ++ bytes.now))
        (to_come (work_of job.now) (string_bytes held.new.opening) held.new.rest.items)
        (W.taken output.old) (W.taken output.new)) }
    ensures rest { OnOk result
        (HasNoLineFeed held.new.rest.items × (vec_len held.new.rest ≤ max_piece)) }
    ensures flushed { OnOk result (W.flushed output.new ≡ W.taken output.new) }
    ensures flushes { OnOk result (W.flushes output.new ≡ count_after (W.flushes output.old) 1) }
    ensures most_flushes { (W.flushes output.new ≡ W.flushes output.old) ⊎
        (W.flushes output.new ≡ count_after (W.flushes output.old) 1) }
    ensures flags { OnOk result (KeepsFlags (W.failed output.old) (W.failed output.new)
        (W.closed output.old) (W.closed output.new)) }
    ensures stopped { IfErr result (StopsWriting (W.failed output.old) (W.failed output.new)
        (W.closed output.old) (W.closed output.new) (ShowsBeginning
        (to_come (work_of job.now) (string_bytes held.old.opening)
        (held.old.rest.items ++ bytes.now))
        (W.taken output.old) (W.taken output.new))) }
{
    held.rest.extend_from_slice(bytes)?;
    let rest = write_lines(alloc, job, &mut held.opening, held.rest.as_slice(), output)?;
    let rest = Vec::from_slice(alloc, rest)?;
    held.rest = rest;
    output.flush()?;
    Ok(())
}

// Writes what the bytes held become, a line without an end, and passes all on.
fn write_last<A: Allocator + Copy, W: Sink>(
    alloc: A,
    job: &SafeJob<'_, A>,
    held: &mut Held<A>,
    output: &mut W,
) -> Result<(), Stop>
    requires { HasNoLineFeed held.old.rest.items × (vec_len held.old.rest ≤ max_piece) }
    ensures done { OnOk result (W.taken output.new ≡ append_known (W.taken output.old)
        (to_come (work_of job.now) (string_bytes held.old.opening) held.old.rest.items [])) }
    ensures flushed { OnOk result (W.flushed output.new ≡ W.taken output.new) }
    ensures flushes { OnOk result (W.flushes output.new ≡ count_after (W.flushes output.old) 1) }
    ensures most_flushes { (W.flushes output.new ≡ W.flushes output.old) ⊎
        (W.flushes output.new ≡ count_after (W.flushes output.old) 1) }
    ensures flags { OnOk result (KeepsFlags (W.failed output.old) (W.failed output.new)
        (W.closed output.old) (W.closed output.new)) }
    ensures stopped { IfErr result (StopsWriting (W.failed output.old) (W.failed output.new)
        (W.closed output.old) (W.closed output.new) (W.taken output.new ≡ W.taken output.old)) }
{
    let text = held.rest.as_slice();
    if !text.is_empty() {
        let line = Line { text, end: "" };
        write_line(alloc, job, &mut held.opening, &line, text, output)?;
    }
    output.flush()?;
    Ok(())
}

// Writes what the whole input becomes, and passes on what each read decides before the next read.
fn view_all<A: Allocator + Copy, S: Source, W: Sink>(
    alloc: A,
    job: &SafeJob<'_, A>,
    input: &mut S,
    output: &mut W,
) -> Result<(), Stop>
    ensures done { OnOk result (ViewsAll (work_of job.now) (S.left input.old) (W.taken output.old)
        (W.taken output.new)) }
    ensures flushed { OnOk result (W.flushed output.new ≡ W.taken output.new) }
    ensures unfailed { OnOk result (S.failed input.new ≡ S.failed input.old) }
    ensures flags { OnOk result (KeepsFlags (W.failed output.old) (W.failed output.new)
        (W.closed output.old) (W.closed output.new)) }
    ensures read_failed { IsErrOf result Stop.ReadFailed →
        StopsReading (S.failed input.new) (S.reads input.new)
        × ViewsFront (work_of job.now) (S.left input.old) (W.taken output.old) (W.taken output.new)
        × (W.flushed output.new ≡ W.taken output.new)
        × KeepsFlags (W.failed output.old) (W.failed output.new) (W.closed output.old)
        (W.closed output.new) }
    ensures closed { IsErrOf result Stop.Closed →
        (W.failed output.new ≡ true) × (W.closed output.new ≡ true) }
    ensures write_failed { IsErrOf result Stop.WriteFailed →
        (W.failed output.new ≡ true) × (W.closed output.new ≡ W.closed output.old) }
    ensures out_of_memory { IsErrOf result Stop.OutOfMemory →
        ViewsBeginning (work_of job.now) (S.left input.old) (W.taken output.old)
        (W.taken output.new) × KeepsFlags (W.failed output.old) (W.failed output.new)
        (W.closed output.old) (W.closed output.new) }
    ensures most_flushes { MostFlushes (S.reads input.old) (S.reads input.new)
        (W.flushes output.old) (W.flushes output.new) }
{
    let mut held = Held {
        opening: String::new(alloc),
        rest: Vec::new(alloc),
    };
    let mut room = [0u8; ROOM];
    for _turn in 0..u64::MAX {
        match input.read(&mut room) {
            Ok(0) => {
                write_last(alloc, job, &mut held, output)?;
                return Ok(());
            }
            Ok(count) => take_bytes(alloc, job, &mut held, &room[..count], output)?,
            Err(ReadFault::Interrupted) => {}
            Err(ReadFault::Failed) => {
                write_last(alloc, job, &mut held, output)?;
                return Err(Stop::ReadFailed);
            }
        }
    }
    write_last(alloc, job, &mut held, output)?;
    Err(Stop::ReadFailed)
}

// Like `view_all`, with the tails of edits made safe.
fn view_safely<A: Allocator + Copy, S: Source, W: Sink>(
    alloc: A,
    job: &Job<'_, A>,
    input: &mut S,
    output: &mut W,
) -> Result<(), Stop>
    ensures done { OnOk result (ViewsAll (with_safe_tails (jobs.work_of job.now)) (S.left input.old) (W.taken output.old)
        (W.taken output.new)) }
    ensures flushed { OnOk result (W.flushed output.new ≡ W.taken output.new) }
    ensures unfailed { OnOk result (S.failed input.new ≡ S.failed input.old) }
    ensures flags { OnOk result (KeepsFlags (W.failed output.old) (W.failed output.new)
        (W.closed output.old) (W.closed output.new)) }
    ensures read_failed { IsErrOf result Stop.ReadFailed →
        StopsReading (S.failed input.new) (S.reads input.new)
        × ViewsFront (with_safe_tails (jobs.work_of job.now)) (S.left input.old) (W.taken output.old) (W.taken output.new)
        × (W.flushed output.new ≡ W.taken output.new)
        × KeepsFlags (W.failed output.old) (W.failed output.new) (W.closed output.old)
        (W.closed output.new) }
    ensures closed { IsErrOf result Stop.Closed →
        (W.failed output.new ≡ true) × (W.closed output.new ≡ true) }
    ensures write_failed { IsErrOf result Stop.WriteFailed →
        (W.failed output.new ≡ true) × (W.closed output.new ≡ W.closed output.old) }
    ensures out_of_memory { IsErrOf result Stop.OutOfMemory →
        ViewsBeginning (with_safe_tails (jobs.work_of job.now)) (S.left input.old) (W.taken output.old)
        (W.taken output.new) × KeepsFlags (W.failed output.old) (W.failed output.new)
        (W.closed output.old) (W.closed output.new) }
    ensures most_flushes { MostFlushes (S.reads input.old) (S.reads input.new)
        (W.flushes output.old) (W.flushes output.new) }
{
    let tails = safe_tails(alloc, job.view.policy, job.edits.as_slice())?;
    let job = safe_job(alloc, job, tails.as_slice())?;
    view_all(alloc, &job, input, output)
}

/// Makes the input safe, line by line, as the words ask, and returns the status.
///
/// It writes what each read decides, and passes it on, before the next read. What a line becomes
/// is a text that can be looked at alone: it begins with what is open before it and ends what it
/// leaves open. Edits by columns are made of this text in turn, and don't change what is open
/// after it. At most 1 MiB of the input is held, and a longer line is handled in pieces, each
/// edited like a line.
///
/// | status | when | text on the fault writer |
/// |---|---|---|
/// | 0 | done, or nobody reads the output any more | none |
/// | 2 | a bad word; nothing is read | `bad word: WORD: ..\n`, the word made safe |
/// | 3 | a read of the input failed; what was read before it is written | `read failed: CAUSE\n` |
/// | 4 | a write or a flush of the output failed | `write failed: CAUSE\n` |
/// | 5 | out of memory; what is written is a beginning of the whole output | `out of memory\n` |
///
/// The status is the first of these that the run meets. CAUSE is std's text for the kind of the
/// error, such as `is a directory`. An interrupted read is made again. A fault
/// of the fault writer is ignored.
///
/// ```
/// let mut input = FakeDevice::of(alloc, b"\x1b[2Ja\x1b[31mb\nc".to_vec(alloc)?);
/// let mut output = FakeDevice::with_room(alloc, 30)?;
/// let mut faults = FakeDevice::with_room(alloc, 10)?;
/// assert_eq!(run(alloc, &[], &mut input, &mut output, &mut faults), 0);
/// assert_eq!(output.bytes(), b"a\x1b[31mb\x1b[39m\n\x1b[31mc\x1b[39m");
/// ```
pub fn run<A: Allocator, S: Source, W: Sink, V: Sink>(
    alloc: A,
    words: &[String],
    input: &mut S,
    output: &mut W,
    faults: &mut V,
) -> u8
    ensures statuses { (result ≡ 0) ⊎ ((2 ≤ result) × (result ≤ 5)) }

    // All that the words make of the input is written and passed on, if its reader doesn't leave.
    ensures done { result ≡ 0 → W.closed output.new ≡ false → ViewsAll
        (view_asked (words_of words.now)) (S.left input.old) (W.taken output.old)
        (W.taken output.new) }
    ensures flushed { result ≡ 0 → W.closed output.new ≡ false →
        W.flushed output.new ≡ W.taken output.new }

    // A bad word is reported before anything is read or written.
    ensures bad_words { result ≡ 2 → IsSome (bad_word (words_of words.now)) }
    ensures only_bad_words { IsSome (bad_word (words_of words.now)) →
        (result ≡ 2) ⊎ (result ≡ 5) }
    ensures nothing_read { IsSome (bad_word (words_of words.now)) → input.new ≡ input.old }
    ensures nothing_written { IsSome (bad_word (words_of words.now)) → output.new ≡ output.old }

    // If a read fails, what was read before it is written and passed on.
    ensures read_failed { result ≡ 3 → StopsReading (S.failed input.new) (S.reads input.new) }
    ensures front { result ≡ 3 → ViewsFront (view_asked (words_of words.now)) (S.left input.old)
        (W.taken output.old) (W.taken output.new) }
    ensures front_flushed { result ≡ 3 → W.flushed output.new ≡ W.taken output.new }
    ensures only_read_failed { result ≡ 0 → W.closed output.new ≡ false →
        S.failed input.new ≡ S.failed input.old }

    // A failed write or flush is reported, but not if the output is closed.
    ensures write_failed { result ≡ 4 →
        (W.failed output.new ≡ true) × (W.closed output.new ≡ W.closed output.old) }
    ensures only_write_failed { W.failed output.old ≡ false → W.failed output.new ≡ true →
        (result ≡ 4) ⊎ ((result ≡ 0) × (W.closed output.new ≡ true)) }
    ensures closed { W.closed output.old ≡ false → W.closed output.new ≡ true → result ≡ 0 }

    // If memory runs out, a beginning of the output is written.
    ensures out_of_memory { result ≡ 5 → ViewsBeginning (view_asked (words_of words.now))
        (S.left input.old) (W.taken output.old) (W.taken output.new) }

    // At most one flush for each read, and one more.
    ensures most_flushes { MostFlushes (S.reads input.old) (S.reads input.new)
        (W.flushes output.old) (W.flushes output.new) }
    ensures faults_unflushed { V.flushes faults.new ≡ V.flushes faults.old }

    // The reason that ends a run early is reported, and nothing else is.
    ensures quiet { result ≡ 0 → faults.new ≡ faults.old }
    ensures told { 3 ≤ result → V.failed faults.new ≡ false →
        V.taken faults.new ≡ append_known (V.taken faults.old)
        (message_of result (S.last_error input.new) (W.last_error output.new)) }
    ensures told_word { result ≡ 2 → V.failed faults.new ≡ false →
        IfSome (bad_word (words_of words.now)) (λ word.
        V.taken faults.new ≡ append_known (V.taken faults.old) (message_of_word word)) }
{
    match parse(&alloc, words) {
        Ok(Ok(job)) => match view_safely(&alloc, &job, input, output) {
            Ok(()) => 0,
            Err(stop) => stop.tell(input.cause(), output.cause(), faults),
        },
        Ok(Err(word)) => tell_word(&alloc, word, faults),
        Err(AllocError) => Stop::OutOfMemory.tell(input.cause(), output.cause(), faults),
    }
}

// Reports a bad word, made safe, and returns the status.
fn tell_word<A: Allocator, V: Sink>(alloc: A, word: &str, faults: &mut V) -> u8
    ensures statuses { (result ≡ 2) ⊎ (result ≡ 5) }
    ensures told { V.failed faults.new ≡ false → V.taken faults.new
        ≡ append_known (V.taken faults.old)
        (if result == 2 then message_of_word word.now else codes "out of memory\n") }
    ensures flushes { V.flushes faults.new ≡ V.flushes faults.old }
{
    let policy = Policy {
        rest: Rest::Show,
        links: Links::Remove,
    };
    match sanitize(alloc, word, policy) {
        Ok(word) => {
            let _ = write_message("bad word: ", word.as_str(), WHERE_WORDS_ARE, faults);
            2
        }
        Err(AllocError) => {
            let _ = faults.write(OUT_OF_MEMORY);
            5
        }
    }
}
