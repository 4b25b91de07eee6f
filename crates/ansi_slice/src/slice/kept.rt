//! Texts without a prefix, without a suffix, and without the white space at their ends.
ghost use Rattle.std.specs.Prelude.{◌≡◌, ◌≤◌, ◌++◌, ◌↔◌, ◌⊎◌, [], length, take, drop, IsTrue, IsFalse};
ghost use Rattle.std.specs.Prelude.{IsNone, IsOk, IfOk, OnOk, IfSome, nat_eq, string_bytes};
ghost use Rattle.std.specs.Cow.{cow_str_bytes, IsBorrowedStr};
ghost use Rattle.std.specs.List.{starts_with, ends_with};
ghost use Rattle.std.specs.Str.{IsCharBoundary};
ghost use Rattle.ansi_items.specs.Plain.{plain, has_escape};
ghost use Rattle.ansi_slice.specs.Kept.{kept, without_prefix, without_suffix, trimmed};

use crate::slice::has_any;
use crate::slice::sequences::{first_run, push_sequences};
use crate::slice::white_space::push_before_solid;
use ansi_search::search::{self, PAST_THE_END};
use std::alloc::{AllocError, Allocator};
use std::borrow::CowStr;

/// Like `AnsiStr::ansi_strip_prefix`, with a result that lives as long as the text, and with any
/// allocator. (Own.)
///
/// ```
/// let rest = strip_prefix_in(rt.alloc(), "\x1b[1m> red", "> ");
/// assert!(rt; matches!(&rest, Ok(Some(rest)) if rest.as_str() == "\x1b[1mred"));
/// ```
pub fn strip_prefix_in<'t, A: Allocator>(
    alloc: A,
    text: &'t str,
    prefix: &str,
) -> Result<Option<CowStr<'t, A>>, AllocError>
    ensures none { IfOk result (λ o.
        IsNone o ↔ IsFalse (starts_with nat_eq (plain text.now) prefix.now)) }
    ensures bytes { IfOk result (λ o. IfSome o (λ c.
        cow_str_bytes c ≡ without_prefix text.now prefix.now)) }
    ensures borrowed { IfOk result (λ o. IfSome o (λ c.
        IsBorrowedStr c ↔ (IsFalse (has_escape text.now) ⊎ (prefix.now ≡ [])))) }
    ensures takes_no_memory { IsFalse (has_escape text.now) ⊎ (prefix.now ≡ [])
        ⊎ IsFalse (starts_with nat_eq (plain text.now) prefix.now) → IsOk result }
{
    if prefix.is_empty() {
        return Ok(Some(CowStr::Borrowed(text)));
    }
    if !has_any(text) {
        if !text.as_bytes().starts_with(prefix.as_bytes()) {
            return Ok(None);
        }
        return Ok(Some(CowStr::Borrowed(&text[prefix.len()..])));
    }
    let (marks, end) = first_run(text);
    let from = marks + prefix.len();
    if from < end {
        if !text.as_bytes()[marks..end].starts_with(prefix.as_bytes()) {
            return Ok(None);
        }
        let kept = write_without(alloc, text, marks, from)?;
        return Ok(Some(CowStr::Owned(kept)));
    }
    if !search::starts_with(text, prefix) {
        return Ok(None);
    }
    Ok(Some(CowStr::Owned(write_from(alloc, text, prefix.len())?)))
}

/// A text without its bytes from one offset up to another, written.
#[inline(always)]
fn write_without<A: Allocator>(
    alloc: A,
    text: &str,
    from: usize,
    to: usize,
) -> Result<String<A>, AllocError>
    requires ordered { from ≤ to }
    requires from { IsCharBoundary text.now from }
    requires to { IsCharBoundary text.now to }
    ensures { IfOk result (λ s. string_bytes s ≡ take from text.now ++ drop to text.now) }
{
    let mut kept = String::with_capacity(alloc, text.len() - (to - from))?;
    kept.push_str(&text[..from])?;
    kept.push_str(&text[to..])?;
    Ok(kept)
}

/// A text from a position on, written: the sequences up to there, and everything after them.
fn write_from<A: Allocator>(alloc: A, text: &str, start: usize) -> Result<String<A>, AllocError>
    requires { IsCharBoundary (plain text.now) start }
    ensures { IfOk result (λ s. string_bytes s ≡ kept text.now start (length (plain text.now))) }
{
    let mut kept = String::with_capacity(alloc, text.len())?;
    let from = push_sequences(&mut kept, text, start)?;
    kept.push_str(&text[from..])?;
    Ok(kept)
}

/// Like `AnsiStr::ansi_strip_suffix`, with a result that lives as long as the text, and with any
/// allocator. (Own.)
///
/// ```
/// let rest = strip_suffix_in(rt.alloc(), "\x1b[1mred.\x1b[m", ".");
/// assert!(rt; matches!(&rest, Ok(Some(rest)) if rest.as_str() == "\x1b[1mred\x1b[m"));
/// ```
pub fn strip_suffix_in<'t, A: Allocator>(
    alloc: A,
    text: &'t str,
    suffix: &str,
) -> Result<Option<CowStr<'t, A>>, AllocError>
    ensures none { IfOk result (λ o.
        IsNone o ↔ IsFalse (ends_with nat_eq (plain text.now) suffix.now)) }
    ensures bytes { IfOk result (λ o. IfSome o (λ c.
        cow_str_bytes c ≡ without_suffix text.now suffix.now)) }
    ensures borrowed { IfOk result (λ o. IfSome o (λ c.
        IsBorrowedStr c ↔ (IsFalse (has_escape text.now) ⊎ (suffix.now ≡ [])))) }
    ensures takes_no_memory { IsFalse (has_escape text.now) ⊎ (suffix.now ≡ [])
        ⊎ IsFalse (ends_with nat_eq (plain text.now) suffix.now) → IsOk result }
{
    if suffix.is_empty() {
        return Ok(Some(CowStr::Borrowed(text)));
    }
    if !has_any(text) {
        if !text.as_bytes().ends_with(suffix.as_bytes()) {
            return Ok(None);
        }
        return Ok(Some(CowStr::Borrowed(&text[..text.len() - suffix.len()])));
    }
    let (start, end) = search::last_run(text, suffix.len());
    let from = start + suffix.len();
    if from < end {
        if !text.as_bytes()[start..end].ends_with(suffix.as_bytes()) {
            return Ok(None);
        }
        let kept = write_without(alloc, text, end - suffix.len(), end)?;
        return Ok(Some(CowStr::Owned(kept)));
    }
    let Some(end) = search::suffix_offset(text, suffix) else {
        return Ok(None);
    };
    let mut kept = String::with_capacity(alloc, text.len())?;
    push_up_to(&mut kept, text, end)?;
    Ok(Some(CowStr::Owned(kept)))
}

/// Like `AnsiStr::ansi_trim`, with a result that lives as long as the text, and with any allocator.
/// (Own.)
///
/// ```
/// let trimmed = trim_in(rt.alloc(), " \x1b[1mred ")?;
/// assert!(rt; trimmed.as_str() == "\x1b[1mred");
/// ```
pub fn trim_in<'t, A: Allocator>(alloc: A, text: &'t str) -> Result<CowStr<'t, A>, AllocError>
    ensures bytes { IfOk result (λ c. cow_str_bytes c ≡ trimmed text.now) }
    ensures borrowed { IfOk result (λ c. IsBorrowedStr c ↔ IsFalse (has_escape text.now)) }
    ensures takes_no_memory { IsFalse (has_escape text.now) → IsOk result }
{
    if !has_any(text) {
        return Ok(CowStr::Borrowed(text.trim()));
    }
    Ok(CowStr::Owned(write_trimmed(alloc, text)?))
}

/// A text without the white space at its ends, written.
fn write_trimmed<A: Allocator>(alloc: A, text: &str) -> Result<String<A>, AllocError>
    ensures { IfOk result (λ s. string_bytes s ≡ trimmed text.now) }
{
    let mut kept = String::with_capacity(alloc, text.len())?;
    let from = push_before_solid(&mut kept, text)?;
    let rest = &text[from..];
    push_up_to(&mut kept, rest, search::end_before_white_space(rest))?;
    Ok(kept)
}

/// Appends a text up to an offset, and then only its sequences. `Err` means out of memory;
/// what was appended before it stays.
fn push_up_to<A: Allocator>(out: &mut String<A>, text: &str, end: usize) -> Result<(), AllocError>
    requires { IsCharBoundary text.now end }
    ensures { OnOk result (string_bytes out.new
        ≡ string_bytes out.old ++ (take end text.now ++ kept (drop end text.now) 0 0)) }
{
    let (front, rest) = text.split_at(end);
    out.push_str(front)?;
    push_sequences(out, rest, PAST_THE_END)?;
    Ok(())
}
