//! Callers that make a call on the result of another call.
ghost use Rattle.std.specs.Prelude.{◌≡◌, Some, IsTrue, IfOk, nat_eq, string_bytes};
ghost use Rattle.std.specs.List.{starts_with};
ghost use Rattle.ansi_str.specs.Plain.{plain};
ghost use Rattle.ansi_str.specs.Positions.{is_good_range};
ghost use Rattle.ansi_str.specs.Cut.{cut};
ghost use Rattle.ansi_str.specs.Kept.{trimmed};

use ansi_str::AnsiStr;
use std::alloc::{AllocError, Global};

/// The plain text of a cut, as an owned string.
pub fn plain_cut(alloc: Global, text: &str, start: usize, end: usize) -> Result<String, AllocError>
    requires good { IsTrue (is_good_range (plain text.now) start (Some end)) }
    ensures { IfOk result (λ s. string_bytes s ≡ plain (cut text.now start (Some end))) }
{
    String::from_str(
        alloc,
        text.ansi_cut(alloc, start..end)?
            .ansi_strip(alloc)?
            .as_str(),
    )
}

/// Whether the plain text, without the white space at its ends, begins with the pattern.
pub fn trimmed_starts_with(alloc: Global, text: &str, pat: &str) -> Result<bool, AllocError>
    ensures { IfOk result (λ b. b ≡ starts_with nat_eq (plain (trimmed text.now)) pat.now) }
{
    Ok(text.ansi_trim(alloc)?.ansi_starts_with(pat))
}
