//! What a style is written to.
ghost use Rattle.std.specs.Prelude.{◌≡◌, ◌++◌, List, ℕ, ⊤, OnOk, string_bytes};
ghost use Rattle.std.specs.Fmt.{HasWritten, IsPlainFormatter};
ghost use Rattle.ansi_style.specs.Writing.{Keeps, BeginsWith};

use arrayvec::ArrayString;
use std::alloc::Allocator;
use std::fmt;

/// What a style is written to: the formatter over a caller's writer, a text, or a count.
pub(crate) trait Sink {
    // The bytes that a write took, if it is `Ok`.
    ghost took: { Self → List ℕ → Self → Type 0 };

    // The text in it begins so, which no write changes, also if it is an `Err`.
    ghost begins: { Self → List ℕ → Type 0 };

    /// Whether a sequence with a number comes in pieces: ESC `[`, each number, and what is between
    /// and after them. A caller's writer may refuse any of them. Otherwise a write takes more.
    const IN_PIECES: bool;

    fn write(&mut self, piece: &str) -> fmt::Result
        ensures took { OnOk result (took self.old piece.now self.new) }
        ensures kept { Keeps begins self.old self.new };
}

impl<W: fmt::Write> Sink for fmt::Formatter<W> {
    ghost took = { λ f bytes g. IsPlainFormatter f → HasWritten W.write_str_gives f bytes g };

    ghost begins = { λ _ _. ⊤ };

    const IN_PIECES: bool = true;

    #[inline(always)]
    fn write(&mut self, piece: &str) -> fmt::Result {
        self.write_str(piece)
    }
}

#[tactic(auto, using(crate::proofs::FrontLemmas::begins_pushed))]
impl<A: Allocator> Sink for String<A> {
    ghost took = { λ s bytes t. string_bytes t ≡ string_bytes s ++ bytes };

    ghost begins = { λ s front. BeginsWith (string_bytes s) front };

    const IN_PIECES: bool = false;

    #[inline(always)]
    fn write(&mut self, piece: &str) -> fmt::Result {
        self.push_str(piece).or(Err(fmt::Error))
    }
}

impl<const N: usize> Sink for ArrayString<N> {
    ghost took = { λ s bytes t. t.bytes ≡ s.bytes ++ bytes };

    ghost begins = { λ _ _. ⊤ };

    const IN_PIECES: bool = false;

    #[inline(always)]
    fn write(&mut self, piece: &str) -> fmt::Result {
        self.try_push_str(piece).or(Err(fmt::Error))
    }
}
