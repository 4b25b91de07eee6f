//! Callers that use the blocks of a text and their styles.
ghost use Rattle.std.specs.Prelude.{◌≡◌, ◌++◌, codes, length, IfOk, OnOk, string_bytes};
ghost use Rattle.std.specs.Cmp.Lexicographic.{pointwise};
ghost use Rattle.ansi_str.specs.Written.{start, close_if_any};
ghost use Rattle.ansi_str.specs.States.{rendition_of};
ghost use Rattle.ansi_str.specs.Blocks.{blocks};
ghost use Rattle.ansi_str.specs.Same.{are_same};

use ansi_str::{AnsiBlock, AnsiSequenceEnd, Style, get_blocks};
use std::alloc::{AllocError, Global};
use std::fmt::Write;

/// Appends a block as a cell of a table: its text between the start and the close of its style.
pub fn write_cell(out: &mut String, block: &AnsiBlock<'_>) -> Result<(), AllocError>
    ensures { OnOk result (string_bytes out.new
        ≡ string_bytes out.old ++ start block.now.style ++ block.now.text
        ++ close_if_any block.now.style) }
{
    let style = block.style();
    write!(out, "{}{}{}", style.start(), block.text(), style.end())
}

/// Appends a word in a style, and then resets every style.
pub fn write_status(out: &mut String, style: &Style, word: &str) -> Result<(), AllocError>
    ensures { OnOk result (string_bytes out.new
        ≡ string_bytes out.old ++ start (rendition_of style.now) ++ word.now ++ codes "\u{1b}[0m") }
{
    write!(out, "{}{word}{}", style.start(), AnsiSequenceEnd::RESET_ALL)
}

/// The number of blocks of a text.
pub fn count_blocks(alloc: Global, text: &str) -> Result<usize, AllocError>
    ensures { IfOk result (λ n. n ≡ length (blocks text.now)) }
{
    let mut n = 0;
    for block in get_blocks(alloc, text) {
        let _block = block?;
        n += 1;
    }
    Ok(n)
}

/// Whether two texts have the same blocks.
pub fn have_same_blocks(alloc: Global, left: &str, right: &str) -> Result<bool, AllocError>
    ensures { IfOk result (λ same. same ≡ pointwise are_same (blocks left.now) (blocks right.now)) }
{
    let mut others = get_blocks(alloc, right);
    for block in get_blocks(alloc, left) {
        let block = block?;
        let Some(other) = others.next() else {
            return Ok(false);
        };
        let other = other?;
        if block != other {
            return Ok(false);
        }
    }
    Ok(others.next().is_none())
}
