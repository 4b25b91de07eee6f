//! A caller of a split that states what the iterator returned.
ghost use Rattle.std.specs.Prelude.{◌≡◌, length, map, IfOk};
ghost use Rattle.std.specs.List.{range_with_len};
ghost use Rattle.ansi_str.specs.Parts.{all_parts, source_len, is_part_borrowed};

use ansi_str::split::{AnsiSplit, split_in};
use std::alloc::{AllocError, Allocator};

/// The number of parts of a text, found by iterating over all of them. An `Err` means out of
/// memory.
pub fn count_parts<'x, A: Allocator + Copy>(
    alloc: A,
    text: &'x str,
    pat: &'x str,
) -> Result<usize, AllocError>
    ensures { IfOk result (λ count. count ≡ length (all_parts text.now pat.now)) }
{
    let mut count = 0;
    for part in split_in(alloc, text, pat) {
        let _part = part?;
        count += 1;
    }
    Ok(count)
}

/// The parts of a text. The contract says by index which parts are borrows, and how many bytes of
/// the text each part has.
pub fn parts_by_index<'x, A: Allocator>(alloc: A, text: &'x str, pat: &'x str) -> AnsiSplit<'x, A>
    ensures borrowed { map (λ p. p.borrowed) result
        ≡ map (is_part_borrowed text.now pat.now) (range_with_len 0 (length result)) }
    ensures shares { map (λ p. p.source_len) result
        ≡ map (source_len text.now pat.now) (range_with_len 0 (length result)) }
{
    split_in(alloc, text, pat)
}
