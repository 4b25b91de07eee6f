//! A caller whose result lives as long as the text.
ghost use Rattle.std.specs.Prelude.{◌≡◌, ◌+◌, ◌≤◌, ℕ, length, Some, IsNone, IfOk, IfSome};
ghost use Rattle.std.specs.Cow.{cow_str_bytes};
ghost use Rattle.std.specs.Str.Pattern.{HasTextAt, LacksTextAt};
ghost use Rattle.ansi_str.specs.Plain.{plain};
ghost use Rattle.ansi_str.specs.Cut.{cut};

use ansi_str::AnsiStr;
use ansi_str::slice::cut_in;
use std::alloc::{AllocError, Global};
use std::borrow::CowStr;

/// The first match of a pattern, each character in its style, or `None` if it doesn't occur.
pub fn first_match<'t>(
    alloc: Global,
    text: &'t str,
    pat: &str,
) -> Result<Option<CowStr<'t>>, AllocError>
    ensures none { IfOk result (λ o.
        IsNone o → (i : ℕ) → i ≤ length (plain text.now) → LacksTextAt pat.now (plain text.now) i) }
    ensures bytes { IfOk result (λ o. IfSome o (λ c.
        (i : ℕ) × HasTextAt pat.now (plain text.now) i (i + length pat.now)
        × (cow_str_bytes c ≡ cut text.now i (Some (i + length pat.now))))) }
{
    let Some(start) = text.ansi_find(pat) else {
        return Ok(None);
    };
    let end = start + pat.len();
    Ok(Some(cut_in(alloc, text, start, Some(end))?))
}
