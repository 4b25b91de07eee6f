//! Callers of `run`, proved by its contract alone: what a caller can conclude from one status.
ghost use Rattle.std.specs.Prelude.{◌≡◌, IsTrue, IfSome, IsNone, IsSome};
ghost use Rattle.std.specs.Io.KnownBytes.{append_known};
ghost use Rattle.ansi_lines_runs.specs.Runs.{output_of, refused_line, words_of};

use ansi_io::devices::{Sink, Source};
use ansi_lines_runs::runs::run;
use std::alloc::Allocator;

/// Whether a run is done. If so, all that the words make of the input is written and passed on,
/// and no line is refused.
pub fn is_done<A: Allocator, S: Source, W: Sink, V: Sink>(
    alloc: A,
    words: &[String],
    input: &mut S,
    output: &mut W,
    faults: &mut V,
) -> bool
    ensures done { IsTrue result → IfSome (S.left input.old) (λ bytes.
        W.taken output.new
        ≡ append_known (W.taken output.old) (output_of (words_of words.now) bytes)) }
    ensures flushed { IsTrue result → W.flushed output.new ≡ W.taken output.new }
    ensures none_refused { IsTrue result → IfSome (S.left input.old) (λ bytes.
        IsNone (refused_line (words_of words.now) bytes)) }
{
    run(alloc, words, input, output, faults) == 0
}

/// Whether a run ends at a line that is refused. If so, the results of the lines before it are
/// written and passed on.
pub fn is_refused<A: Allocator, S: Source, W: Sink, V: Sink>(
    alloc: A,
    words: &[String],
    input: &mut S,
    output: &mut W,
    faults: &mut V,
) -> bool
    ensures done { IsTrue result → IfSome (S.left input.old) (λ bytes.
        W.taken output.new
        ≡ append_known (W.taken output.old) (output_of (words_of words.now) bytes)) }
    ensures flushed { IsTrue result → W.flushed output.new ≡ W.taken output.new }
    ensures refused { IsTrue result → IfSome (S.left input.old) (λ bytes.
        IsSome (refused_line (words_of words.now) bytes)) }
{
    run(alloc, words, input, output, faults) == 1
}
