//! A text without a part.
ghost use Rattle.std.specs.Prelude.{◌≡◌, ◌↔◌, ◌⊎◌, ◌≤◌, ◌∷◌, [], length, IfOk, IfSome, IsFalse, IsNone};
ghost use Rattle.std.specs.Prelude.{IsOk, IsTrue};
ghost use Rattle.std.specs.Cow.{cow_str_bytes, IsBorrowedStr};
ghost use Rattle.ansi_items.specs.Plain.{plain, is_whole};
ghost use Rattle.ansi_safe.specs.declared.policy.Links.{Links};
ghost use Rattle.ansi_safe.specs.Safe.{is_safe};
ghost use Rattle.ansi_restyle.specs.Ranges.{are_in_turn, parts_line_end};
ghost use Rattle.ansi_restyle.specs.Removed.{removed, IsRemoved};

use crate::rest::Rest;
use ansi_search::search;
use ansi_slice::slice::push_sequences;
use std::alloc::{AllocError, Allocator};
use std::borrow::CowStr;

/// Like `AnsiRestyle::ansi_remove`, with a result that lives as long as the text, and with any
/// allocator.
///
/// ```
/// let shorter = remove_in(rt.alloc(), "a \x1b[31mred\x1b[39m b", (1, 4));
/// assert!(rt; matches!(&shorter, Ok(Some(shorter)) if shorter.as_str() == "a\x1b[31md\x1b[39m b"));
/// ```
pub fn remove_in<'t, A: Allocator>(
    alloc: A,
    text: &'t str,
    range: (usize, usize),
) -> Result<Option<CowStr<'t, A>>, AllocError>
    ensures headline { IsTrue (is_whole text.now) → IfOk result (λ o. IfSome o (λ c.
        IsRemoved text.now range.0 range.1 (cow_str_bytes c))) }
    ensures none { IfOk result (λ o.
        IsNone o ↔ IsFalse (are_in_turn (plain text.now) 0 (range ∷ []))) }
    ensures bytes { IfOk result (λ o. IfSome o (λ c.
        cow_str_bytes c ≡ removed text.now range.0 range.1)) }
    ensures safe { (links : Links) → IsTrue (is_safe links text.now) →
        IsFalse (parts_line_end (plain text.now) range.0) → IfOk result (λ o. IfSome o (λ c.
        IsTrue (is_safe links (cow_str_bytes c)))) }
    ensures borrowed { IfOk result (λ o. IfSome o (λ c. IsBorrowedStr c ↔ (range.0 ≡ range.1))) }
    ensures len { IfOk result (λ o. IfSome o (λ c. length (cow_str_bytes c) ≤ length text.now)) }
    ensures takes_no_memory { (range.0 ≡ range.1)
        ⊎ IsFalse (are_in_turn (plain text.now) 0 (range ∷ [])) → IsOk result }
{
    let (start, end) = range;
    if end < start {
        return Ok(None);
    }
    let Some(at_start) = Rest::new(text).divide(start) else {
        return Ok(None);
    };
    let len = end - start;
    let Some(at_end) = at_start.rest.divide(len) else {
        return Ok(None);
    };
    if !search::is_char_boundary(text, end) {
        return Ok(None);
    }
    if start == end {
        return Ok(Some(CowStr::Borrowed(text)));
    }
    let mut shorter = String::with_capacity(alloc, text.len())?;
    shorter.push_str(at_start.front)?;
    push_sequences(&mut shorter, at_end.front, len)?;
    shorter.push_str(at_end.rest.text)?;
    Ok(Some(CowStr::Owned(shorter)))
}
