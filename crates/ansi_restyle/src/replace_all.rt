//! A text with another text in place of each match of a pattern.
ghost use Rattle.std.specs.Prelude.{◌≡◌, ℕ, ◌+◌, ◌-◌, ◌≤◌, ◌++◌, ◌↔◌, ◌&&◌, [], length, sum_by};
ghost use Rattle.std.specs.Prelude.{IfOk, IsOk, IsTrue, OnOk, string_bytes};
ghost use Rattle.std.specs.Cow.{cow_str_bytes, IsBorrowedStr};
ghost use Rattle.ansi_items.specs.Plain.{plain, is_whole};
ghost use Rattle.ansi_safe.specs.declared.policy.Links.{Links};
ghost use Rattle.ansi_safe.specs.Links.{link_at};
ghost use Rattle.ansi_safe.specs.Safe.{is_safe};
ghost use Rattle.ansi_restyle.specs.Matches.{matches};
ghost use Rattle.ansi_restyle.specs.Ranges.{begin_outside_line_ends};
ghost use Rattle.ansi_restyle.specs.ReplacedAll.{replaced_all, IsReplacedAll};

use crate::matches::{Matches, find_from};
use crate::replace::push_without_front;
use crate::replace_each::Replacing;
use std::alloc::{AllocError, Allocator};
use std::borrow::CowStr;

/// Like `AnsiRestyle::ansi_replace_all`, with a result that lives as long as the text, and with any
/// allocator.
///
/// ```
/// let replaced = replace_all_in(rt.alloc(), "a \x1b[31mred\x1b[39m deed", "ed", "\x1b[1mip");
/// assert!(rt; matches!(&replaced, Ok(replaced) if replaced.as_str() == "a \x1b[31mr\x1b[1mip\x1b[22m\x1b[39m\x1b[31m\x1b[39m de\x1b[1mip\x1b[22m"));
/// ```
pub fn replace_all_in<'t, A: Allocator>(
    alloc: A,
    text: &'t str,
    pat: &str,
    with: &str,
) -> Result<CowStr<'t, A>, AllocError>
    ensures headline { IsTrue (is_whole text.now && is_whole with.now) → IfOk result (λ c.
        IsReplacedAll text.now (matches (plain text.now) pat.now) with.now (cow_str_bytes c)) }
    ensures bytes { IfOk result (λ c.
        cow_str_bytes c ≡ replaced_all text.now pat.now with.now) }
    ensures safe { (links : Links) → IsTrue (is_safe links text.now && is_safe links with.now) →
        IsTrue (begin_outside_line_ends (plain text.now) (matches (plain text.now) pat.now)) →
        IfOk result (λ c. IsTrue (is_safe links (cow_str_bytes c))) }
    ensures borrowed { IfOk result (λ c.
        IsBorrowedStr c ↔ (matches (plain text.now) pat.now ≡ [])) }
    ensures len { IfOk result (λ c. length (cow_str_bytes c) ≤ length text.now
        + sum_by (λ (r : ℕ × ℕ). length with.now + length (link_at text.now (r.0 - 1)) + 258)
        (matches (plain text.now) pat.now)) }
    ensures takes_no_memory { matches (plain text.now) pat.now ≡ [] → IsOk result }
{
    if find_from(text, 0, pat).is_none() {
        return Ok(CowStr::Borrowed(text));
    }
    let mut replaced = String::with_capacity(alloc, text.len())?;
    push_replaced_all(&mut replaced, text, pat, with)?;
    Ok(CowStr::Owned(replaced))
}

/// Appends a text with another text in place of each match of a pattern. `Err` means out of memory;
/// what was appended before it stays.
fn push_replaced_all<A: Allocator>(
    out: &mut String<A>,
    text: &str,
    pat: &str,
    with: &str,
) -> Result<(), AllocError>
    ensures { OnOk result (string_bytes out.new
        ≡ string_bytes out.old ++ replaced_all text.now pat.now with.now) }
{
    let mut replacing = Replacing::begin(out, text)?;
    for range in Matches::new(text, pat) {
        replacing.put(out, range, with)?;
    }
    push_without_front(out, replacing.rest.text, replacing.len)
}
