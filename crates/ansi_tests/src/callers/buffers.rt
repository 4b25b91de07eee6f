//! Callers that copy results into a buffer of a fixed size. The contracts say how much room is
//! enough.
ghost use Rattle.std.specs.Prelude.{◌≡◌, ◌≤◌, ◌+◌, length, take, Some, IsTrue, IfOk, IfSome};
ghost use Rattle.ansi_str.specs.Plain.{plain};
ghost use Rattle.ansi_str.specs.Positions.{is_good_range};
ghost use Rattle.ansi_str.specs.Cut.{cut};
ghost use Rattle.ansi_str.specs.Parts.{part};
ghost use Rattle.ansi_str.specs.Written.{longest_close, longest_start_and_close};

use ansi_str::AnsiStr;
use ansi_str::split::part_in;
use std::alloc::{AllocError, Global};

/// Copies the cut of a text to the front of a buffer, and returns its length. A buffer that is
/// `longest_close` bytes longer than the text has room for every cut.
pub fn cut_into(
    alloc: Global,
    text: &str,
    start: usize,
    end: usize,
    buffer: &mut [u8],
) -> Result<usize, AllocError>
    requires good { IsTrue (is_good_range (plain text.now) start (Some end)) }
    requires room { length text.now + longest_close ≤ length buffer.old }
    ensures { IfOk result (λ n. take n buffer.new ≡ cut text.now start (Some end)) }
{
    let cut = text.ansi_cut(alloc, start..end)?;
    buffer[..cut.len()].copy_from_slice(cut.as_bytes());
    Ok(cut.len())
}

/// Copies the part at an index to the front of a buffer, and returns its length, or `None` if the
/// text has too few parts. A buffer that is `longest_start_and_close` bytes longer than the text
/// has room for every part.
pub fn part_into(
    alloc: Global,
    text: &str,
    pat: &str,
    index: usize,
    buffer: &mut [u8],
) -> Result<Option<usize>, AllocError>
    requires { length text.now + longest_start_and_close ≤ length buffer.old }
    ensures { IfOk result (λ o. IfSome o (λ n.
        part text.now pat.now index ≡ Some (take n buffer.new))) }
{
    let Some(part) = part_in(alloc, text, pat, index)? else {
        return Ok(None);
    };
    buffer[..part.len()].copy_from_slice(part.as_bytes());
    Ok(Some(part.len()))
}

/// Copies each part of a text in turn to the front of a buffer, as a caller does who shows one part
/// at a time, and returns the length of the longest. A buffer that is `longest_start_and_close`
/// bytes longer than the text has room for each part.
pub fn show_parts<'x>(
    alloc: Global,
    text: &'x str,
    pat: &'x str,
    buffer: &mut [u8],
) -> Result<usize, AllocError>
    requires { length text.now + longest_start_and_close ≤ length buffer.old }
    ensures { IfOk result (λ n. n ≤ length text.now + longest_start_and_close) }
{
    let mut longest = 0;
    for part in text.ansi_split(alloc, pat) {
        let part = part?;
        buffer[..part.len()].copy_from_slice(part.as_bytes());
        longest = longest.max(part.len());
    }
    Ok(longest)
}
