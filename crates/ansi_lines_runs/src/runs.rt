//! A run of the program, over any devices.
ghost use Rattle.std.specs.Prelude.{◌≡◌, ◌≤◌, ◌+◌, ◌⊎◌, false, true, Err, IfErr, IfOk, IfSome};
ghost use Rattle.std.specs.Prelude.{IsErr, IsErrOf, IsNone, IsOk, IsSome, Ok, OnOk};
ghost use Rattle.std.specs.Io.KnownBytes.{append_known};
ghost use Rattle.ansi_io.specs.Devices.{count_after};
ghost use Rattle.ansi_lines_runs.specs.Lines.{WritesBeginning};
ghost use Rattle.ansi_io.specs.Reading.{max_reads, IsBadInput, IsGivenUp, IsRead, IsUnfit};
ghost use Rattle.ansi_lines_runs.specs.Runs.{AreBadWords, AreGoodWords, IfAnswered, MatchesWords};
ghost use Rattle.ansi_lines_runs.specs.Runs.{output_of, refused_line, message_of_status, words_of};
ghost use Rattle.ansi_io.specs.Stops.{refusal};

use crate::lines::write_lines;
use crate::words::parse;
use ansi_io::devices::{Sink, Source};
use ansi_io::reading::read_text;
use ansi_io::stop::Stop;
use std::alloc::Allocator;
use std::io;

/// Returns the words and the output, if the program has both. If not, it reports why on the fault
/// writer, and `Err` is the status. Doesn't allocate.
///
/// Words that can't be read are bad words (2). If only the output can't be made, the program is out
/// of memory (5). A run reads its input only after this, so then nothing is read.
///
/// ```
/// let mut faults = FakeDevice::with_room(alloc, 20)?;
/// let output = FakeDevice::with_room(alloc, 10)?;
/// let unread = Err(Error::from(ErrorKind::InvalidData));
/// assert_eq!(prepare(unread, Ok(output), &mut faults).err(), Some(2));
/// assert_eq!(faults.bytes(), b"bad words\n");
/// ```
pub fn prepare<W: Drop, V: Sink>(
    words: io::Result<Vec<String>>,
    output: io::Result<W>,
    faults: &mut V,
) -> Result<(Vec<String>, W), u8>
    ensures ready { IfOk words (λ words. IfOk output (λ output. result ≡ Ok (words, output))) }
    ensures unread_words { IsErr words → result ≡ Err 2 }
    ensures no_output { IsOk words → IsErr output → result ≡ Err 5 }
    ensures quiet { IsOk result → faults.new ≡ faults.old }
    ensures told { IfErr result (λ status. V.failed faults.new ≡ false →
        V.taken faults.new ≡ append_known (V.taken faults.old) (message_of_status status)) }
    ensures faults_unflushed { V.flushes faults.new ≡ V.flushes faults.old }
{
    let Ok(words) = words else {
        return Err(Stop::BadWords.tell(faults));
    };
    let Ok(output) = output else {
        return Err(Stop::OutOfMemory.tell(faults));
    };
    Ok((words, output))
}

/// Edits or strips each line of the input, as the words ask, and returns the status.
///
/// It reads the whole input first, and writes nothing before that. Then it handles each line by
/// itself, in order. A line feed ends a line, isn't part of it, and is written after its result. A
/// line that is refused ends the run: the results of the lines before it are written, and nothing
/// of it or after it. The output is flushed once: at the end, or before a refused line is reported.
///
/// | status | when | text on the fault writer |
/// |---|---|---|
/// | 0 | done | none |
/// | 1 | line N, counted from 1, is refused | `line N: refused\n` |
/// | 2 | bad words; nothing is read | `bad words\n` |
/// | 3 | the input is longer than `MAX_BYTES`, isn't UTF-8, or failed; nothing is written | `bad input\n` |
/// | 4 | a write or a flush of the output failed | `write failed\n` |
/// | 5 | out of memory; what is written is a beginning of the whole output | `out of memory\n` |
///
/// The status is the first of these that the run meets. An interrupted read is made again, and an
/// input that takes more than `MAX_READS` reads has failed. A fault of the fault writer is ignored.
/// Memory comes from `alloc`, the program's own allocator or any other.
///
/// ```
/// let mut input = FakeDevice::of(alloc, b"\x1b[31mred\x1b[39m\n".to_vec(alloc)?);
/// let mut output = FakeDevice::with_room(alloc, 10)?;
/// let mut faults = FakeDevice::with_room(alloc, 10)?;
/// assert_eq!(run(alloc, words, &mut input, &mut output, &mut faults), 0); // of the word `strip`
/// assert_eq!(output.bytes(), b"red\n");
/// ```
pub fn run<A: Allocator, S: Source, W: Sink, V: Sink>(
    alloc: A,
    words: &[String],
    input: &mut S,
    output: &mut W,
    faults: &mut V,
) -> u8
    ensures statuses { result ≤ 5 }

    // All that the words make of the input, up to a refused line, is written and passed on.
    ensures done { result ≤ 1 → IfSome (S.left input.old) (λ bytes.
        W.taken output.new
        ≡ append_known (W.taken output.old) (output_of (words_of words.now) bytes)) }
    ensures flushed { result ≤ 1 → W.flushed output.new ≡ W.taken output.new }
    ensures none_refused { result ≡ 0 → IfSome (S.left input.old) (λ bytes.
        IsNone (refused_line (words_of words.now) bytes)) }
    ensures refused { result ≡ 1 → IfSome (S.left input.old) (λ bytes.
        IsSome (refused_line (words_of words.now) bytes)) }

    // Bad words are reported before anything is read or written.
    ensures bad_words { result ≡ 2 → AreBadWords (words_of words.now) }
    ensures only_bad_words { AreBadWords (words_of words.now) → (result ≡ 2) ⊎ (result ≡ 5) }
    ensures nothing_read { AreBadWords (words_of words.now) → input.new ≡ input.old }
    ensures nothing_written { AreBadWords (words_of words.now) → output.new ≡ output.old }

    // A bad input is reported before anything is written.
    ensures bad_input { result ≡ 3 → IsBadInput (S.left input.old) (S.failed input.new)
        (IsGivenUp (S.interrupted input.new) (S.reads input.old) (S.reads input.new)) }
    ensures most_reads { S.reads input.new ≤ S.reads input.old + max_reads }
    ensures good_words { result ≡ 3 → AreGoodWords (words_of words.now) }
    ensures unwritten { result ≡ 3 → output.new ≡ output.old }
    ensures unfit { AreGoodWords (words_of words.now) → IfSome (S.left input.old) (λ bytes.
        IsUnfit bytes → (result ≡ 3) ⊎ (result ≡ 5)) }
    ensures unread { AreGoodWords (words_of words.now) → S.failed input.old ≡ false →
        S.failed input.new ≡ true → (result ≡ 3) ⊎ (result ≡ 5) }
    ensures unwritten_unfit { IfSome (S.left input.old) (λ bytes.
        IsUnfit bytes → output.new ≡ output.old) }
    ensures unwritten_unread { S.failed input.old ≡ false → S.failed input.new ≡ true →
        output.new ≡ output.old }

    // A failed write or flush is reported.
    ensures write_failed { result ≡ 4 → W.failed output.new ≡ true }
    ensures only_write_failed { W.failed output.old ≡ false → W.failed output.new ≡ true →
        result ≡ 4 }

    // If memory runs out, a beginning of the output is written.
    ensures out_of_memory { result ≡ 5 → IfSome (S.left input.old) (λ bytes.
        WritesBeginning (W.taken output.old) (W.taken output.new)
        (output_of (words_of words.now) bytes)) }

    // The output is flushed once, after all is written, and the fault writer never.
    ensures flushed_once { result ≤ 1 →
        W.flushes output.new ≡ count_after (W.flushes output.old) 1 }
    ensures flushed_at_most_once { (W.flushes output.new ≡ W.flushes output.old) ⊎
        (W.flushes output.new ≡ count_after (W.flushes output.old) 1) }
    ensures unflushed { result ≡ 5 → W.flushes output.new ≡ W.flushes output.old }
    ensures faults_unflushed { V.flushes faults.new ≡ V.flushes faults.old }

    // The reason that ends a run early is reported, and nothing else is.
    ensures quiet { result ≡ 0 → faults.new ≡ faults.old }
    ensures told { 2 ≤ result → V.failed faults.new ≡ false →
        V.taken faults.new ≡ append_known (V.taken faults.old) (message_of_status result) }
    ensures told_line { result ≡ 1 → V.failed faults.new ≡ false →
        IfSome (S.left input.old) (λ bytes.
        IfSome (refused_line (words_of words.now) bytes) (λ line.
        V.taken faults.new ≡ append_known (V.taken faults.old) (refusal line))) }
{
    match perform(&alloc, words, input, output) {
        Ok(()) => 0,
        Err(stop) => stop.tell(faults),
    }
}

// Does what the words ask for, and reports nothing.
fn perform<A: Allocator, S: Source, W: Sink>(
    alloc: &A,
    words: &[String],
    input: &mut S,
    output: &mut W,
) -> Result<(), Stop>
    // All that the words make of the input, up to a refused line.
    ensures done { IfAnswered result (λ _. IfSome (S.left input.old) (λ bytes.
        W.taken output.new
        ≡ append_known (W.taken output.old) (output_of (words_of words.now) bytes))) }
    ensures flushed { IfAnswered result (λ _.
        (W.flushed output.new ≡ W.taken output.new)
        × (W.failed output.new ≡ W.failed output.old)
        × (W.flushes output.new ≡ count_after (W.flushes output.old) 1)) }
    ensures refused { IfAnswered result (λ line. IfSome (S.left input.old) (λ bytes.
        line ≡ refused_line (words_of words.now) bytes)) }

    // Bad words.
    ensures good_words { OnOk result (AreGoodWords (words_of words.now)) }
    ensures words { IfErr result (λ stop. MatchesWords stop (words_of words.now)) }
    ensures untouched { AreBadWords (words_of words.now) →
        (input.new ≡ input.old) × (output.new ≡ output.old) }

    // The input.
    ensures read { IfAnswered result (λ _.
        IsRead (S.left input.old) (S.failed input.old) (S.failed input.new)) }
    ensures bad_input { IsErrOf result Stop.BadInput →
        IsBadInput (S.left input.old) (S.failed input.new)
        (IsGivenUp (S.interrupted input.new) (S.reads input.old) (S.reads input.new))
        × (output.new ≡ output.old) }
    ensures most_reads { S.reads input.new ≤ S.reads input.old + max_reads }

    // The output.
    ensures unwritten { (output.new ≡ output.old)
        ⊎ IsRead (S.left input.old) (S.failed input.old) (S.failed input.new) }
    ensures write_failed { IsErrOf result Stop.WriteFailed →
        IsRead (S.left input.old) (S.failed input.old) (S.failed input.new)
        × (W.failed output.new ≡ true) }
    ensures out_of_memory { IsErrOf result Stop.OutOfMemory → IfSome (S.left input.old) (λ bytes.
        WritesBeginning (W.taken output.old) (W.taken output.new)
        (output_of (words_of words.now) bytes)) }
    ensures flushed_at_most_once { (W.flushes output.new ≡ W.flushes output.old) ⊎
        (W.flushes output.new ≡ count_after (W.flushes output.old) 1) }
    ensures unflushed { IsErrOf result Stop.OutOfMemory →
        (W.flushes output.new ≡ W.flushes output.old)
        × (W.failed output.new ≡ W.failed output.old) }
{
    let job = parse(alloc, words)?.ok_or(Stop::BadWords)?;
    let text = read_text(alloc, input)?;
    let refused = write_lines(alloc, &job, text.as_str(), output)?;
    output.flush()?;
    match refused {
        Some(line) => Err(Stop::Refused(line)),
        None => Ok(()),
    }
}
