//! The white space at the front of a plain text.
ghost use Rattle.std.specs.Prelude.{◌≡◌, ◌++◌, IfOk, OnOk, string_bytes};
ghost use Rattle.ansi_items.specs.Pieces.{pieces_of};
ghost use Rattle.ansi_items.specs.Plain.{plain};
ghost use Rattle.ansi_search.specs.Offsets.{StandsIn};
ghost use Rattle.ansi_slice.specs.Kept.{trim_interval};
ghost use Rattle.ansi_slice.specs.Stretches.{sequences_up_to};

use ansi_items::ansitok::{Kind, Scanner};
use std::alloc::{AllocError, Allocator};

/// Appends every sequence before the first character of the plain text that isn't white space, or
/// all if there is no such character. Returns the offset of that character, after these sequences,
/// or of the end. `Err` means out of memory; what was appended before it stays.
pub(super) fn push_before_solid<A: Allocator>(
    out: &mut String<A>,
    text: &str,
) -> Result<usize, AllocError>
    ensures bytes { OnOk result (string_bytes out.new ≡ string_bytes out.old
        ++ sequences_up_to (trim_interval (plain text.now)).0 (pieces_of text.now)) }
    ensures offset { IfOk result (StandsIn text.now (trim_interval (plain text.now)).0) }
{
    for item in Scanner::new(text) {
        let piece = &text[item.start..item.end];
        if item.kind == Kind::Text {
            let rest = piece.trim_start();
            if !rest.is_empty() {
                return Ok(item.end - rest.len());
            }
        } else {
            out.push_str(piece)?;
        }
    }
    Ok(text.len())
}
