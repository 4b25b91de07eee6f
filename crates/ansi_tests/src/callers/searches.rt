//! Callers of the searches: what follows from their results alone.
ghost use Rattle.std.specs.Prelude.{◌≡◌, ◌↔◌, ◌+◌, ◌≤◌, ℕ, length, Some, None, IsNone, IfOk};
ghost use Rattle.std.specs.Prelude.{IfSome, true, slice_get};
ghost use Rattle.std.specs.Cow.{cow_str_bytes};
ghost use Rattle.std.specs.Str.{IsCharBoundary};
ghost use Rattle.std.specs.Str.Pattern.{HasTextAt, LacksTextAt};
ghost use Rattle.ansi_str.specs.Plain.{plain};
ghost use Rattle.ansi_str.specs.Cut.{cut};
ghost use Rattle.ansi_str.specs.Sides.{left_side, right_side};
ghost use Rattle.ansi_str.specs.Parts.{parts};

use ansi_str::AnsiStr;
use ansi_str::search::part_interval;
use std::alloc::{AllocError, Global};
use std::borrow::CowStr;

/// The text from the beginning to the end of the first match of the pattern, or `None` if there is
/// no match.
pub fn cut_match<'t, T: AnsiStr>(
    alloc: Global,
    text: &'t T,
    pat: &str,
) -> Result<Option<CowStr<'t>>, AllocError>
    ensures none { IfOk result (λ o. IsNone o → (i : ℕ) → i ≤ length (plain (T.text text.now)) →
        LacksTextAt pat.now (plain (T.text text.now)) i) }
    ensures bytes { IfOk result (λ o. IfSome o (λ c.
        (i : ℕ) × HasTextAt pat.now (plain (T.text text.now)) i (i + length pat.now)
        × (cow_str_bytes c ≡ cut (T.text text.now) i (Some (i + length pat.now))))) }
{
    match text.ansi_find(pat) {
        Some(start) => Ok(Some(text.ansi_cut(alloc, start..start + pat.len())?)),
        None => Ok(None),
    }
}

/// The text before the first match of the pattern, the match, and the text after it, or `None` if
/// there is no match.
pub fn cut_around_match<'t, T: AnsiStr>(
    alloc: Global,
    text: &'t T,
    pat: &str,
) -> Result<Option<(CowStr<'t>, CowStr<'t>, CowStr<'t>)>, AllocError>
    ensures none { IfOk result (λ o. IsNone o → (i : ℕ) → i ≤ length (plain (T.text text.now)) →
        LacksTextAt pat.now (plain (T.text text.now)) i) }
    ensures bytes { IfOk result (λ o. IfSome o (λ c.
        (i : ℕ) × HasTextAt pat.now (plain (T.text text.now)) i (i + length pat.now)
        × (cow_str_bytes c.0 ≡ cut (T.text text.now) 0 (Some i))
        × (cow_str_bytes c.1 ≡ cut (T.text text.now) i (Some (i + length pat.now)))
        × (cow_str_bytes c.2 ≡ cut (T.text text.now) (i + length pat.now) None))) }
{
    let Some(start) = text.ansi_find(pat) else {
        return Ok(None);
    };
    let end = start + pat.len();
    let before = text.ansi_cut(alloc, ..start)?;
    let found = text.ansi_cut(alloc, start..end)?;
    let after = text.ansi_cut(alloc, end..)?;
    Ok(Some((before, found, after)))
}

/// The text before the index, and the text from the index on, or `None` if the index is no
/// character boundary of the plain text.
pub fn cut_at_boundary<'t, T: AnsiStr>(
    alloc: Global,
    text: &'t T,
    index: usize,
) -> Result<Option<(CowStr<'t>, CowStr<'t>)>, AllocError>
    ensures none { IfOk result (λ o.
        IsNone o ↔ (¬ (IsCharBoundary (plain (T.text text.now)) index))) }
    ensures before { IfOk result (λ o. IfSome o (λ c.
        cow_str_bytes c.0 ≡ cut (T.text text.now) 0 (Some index))) }
    ensures after { IfOk result (λ o. IfSome o (λ c.
        cow_str_bytes c.1 ≡ cut (T.text text.now) index None)) }
{
    if !text.ansi_is_char_boundary(index) {
        return Ok(None);
    }
    let before = text.ansi_cut(alloc, ..index)?;
    let after = text.ansi_cut(alloc, index..)?;
    Ok(Some((before, after)))
}

/// The two sides of the text at the index, or `None` if the index is no character boundary of the
/// plain text.
pub fn split_at_boundary<'t, T: AnsiStr>(
    alloc: Global,
    text: &'t T,
    index: usize,
) -> Result<Option<(CowStr<'t>, CowStr<'t>)>, AllocError>
    ensures none { IfOk result (λ o.
        IsNone o ↔ (¬ (IsCharBoundary (plain (T.text text.now)) index))) }
    ensures left { IfOk result (λ o. IfSome o (λ c.
        cow_str_bytes c.0 ≡ left_side (T.text text.now) index)) }
    ensures right { IfOk result (λ o. IfSome o (λ c.
        cow_str_bytes c.1 ≡ right_side (T.text text.now) index)) }
{
    if !text.ansi_is_char_boundary(index) {
        return Ok(None);
    }
    Ok(Some(text.ansi_split_at(alloc, index)?))
}

/// The text before a part, the part, and the text after it, or `None` if there is no part of that
/// index.
pub fn cut_around_part<'t, T: AnsiStr>(
    alloc: Global,
    text: &'t T,
    pat: &str,
    index: usize,
) -> Result<Option<(CowStr<'t>, CowStr<'t>, CowStr<'t>)>, AllocError>
    ensures none { IfOk result (λ o.
        IsNone o ↔ IsNone (slice_get (parts (plain (T.text text.now)) pat.now) index)) }
    ensures bytes { IfOk result (λ o. IfSome o (λ c.
        (i : ℕ × ℕ) × (slice_get (parts (plain (T.text text.now)) pat.now) index ≡ Some i)
        × (cow_str_bytes c.0 ≡ cut (T.text text.now) 0 (Some i.0))
        × (cow_str_bytes c.1 ≡ cut (T.text text.now) i.0 (Some i.1))
        × (cow_str_bytes c.2 ≡ cut (T.text text.now) i.1 None))) }
{
    let Some((start, end)) = part_interval(text.as_text(), pat, index) else {
        return Ok(None);
    };
    let before = text.ansi_cut(alloc, ..start)?;
    let part = text.ansi_cut(alloc, start..end)?;
    let after = text.ansi_cut(alloc, end..)?;
    Ok(Some((before, part, after)))
}

/// Whether the searches agree: a plain text begins with a pattern exactly if the first match is at
/// 0, and a pattern that it ends with is found.
#[tactic(auto, using(crate::proofs::SearchLemmas::finds_at_front, crate::proofs::SearchLemmas::finds_at_end))]
pub fn searches_agree<T: AnsiStr>(text: &T, pat: &str) -> bool
    ensures { result ≡ true }
{
    let found = text.ansi_find(pat);
    text.ansi_starts_with(pat) == (found == Some(0))
        && (!text.ansi_ends_with(pat) || found.is_some())
}
