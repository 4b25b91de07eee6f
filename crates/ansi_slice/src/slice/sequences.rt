//! The sequences of a text, without its plain text, and the first run of its text.
ghost use Rattle.std.specs.Prelude.{◌≡◌, ◌++◌, IsTrue, IfOk, OnOk, string_bytes};
ghost use Rattle.ansi_items.specs.Pieces.{pieces_of};
ghost use Rattle.ansi_items.specs.Plain.{plain};
ghost use Rattle.ansi_search.specs.Positions.{no_character_goes_on};
ghost use Rattle.ansi_style.specs.Writing.{KeepsText};
ghost use Rattle.ansi_slice.specs.Stretches.{IsFirstRun, sequences_up_to};
ghost use Rattle.ansi_search.specs.Offsets.{StandsIn};

use ansi_items::ansitok::{Kind, Scanner};
use std::alloc::{AllocError, Allocator};

/// Appends every sequence of a text up to a good position of its plain text. Returns the offset of
/// the position in the text, after these sequences. `Err` means out of memory; what was appended
/// before it stays. (Own.)
#[tactic(auto, using(ansi_style::proofs::FrontLemmas::keeps))]
pub fn push_sequences<A: Allocator>(
    out: &mut String<A>,
    text: &str,
    position: usize,
) -> Result<usize, AllocError>
    requires { IsTrue (no_character_goes_on (plain text.now) position) }
    ensures bytes { OnOk result (string_bytes out.new
        ≡ string_bytes out.old ++ sequences_up_to position (pieces_of text.now)) }
    ensures offset { IfOk result (StandsIn text.now position) }
    ensures kept { KeepsText (string_bytes out.old) (string_bytes out.new) }
{
    let mut remaining = position;
    for item in Scanner::new(text) {
        let piece = &text[item.start..item.end];
        if item.kind == Kind::Text {
            if remaining < piece.len() {
                return Ok(item.start + remaining);
            }
            remaining -= piece.len();
        } else {
            out.push_str(piece)?;
        }
    }
    Ok(text.len())
}

/// The offsets at which the first run of text begins and ends. Without one, both are the length of
/// the text.
pub(super) fn first_run(text: &str) -> (usize, usize)
    ensures { IsFirstRun text.now result.0 result.1 }
{
    for item in Scanner::new(text) {
        if item.kind == Kind::Text {
            return (item.start, item.end);
        }
    }
    (text.len(), text.len())
}
