//! A text with another text in place of each of many ranges.
ghost use Rattle.std.specs.Prelude.{◌≡◌, ◌+◌, ◌-◌, ◌++◌, ◌↔◌, ◌⊎◌, ◌≤◌, ◌&&◌, ◌==◌, ◌∷◌, drop, length, List};
ghost use Rattle.std.specs.Prelude.{IfOk, IfSome, IsFalse, IsNone, IsOk, IsTrue, OnOk, string_bytes, sum_by};
ghost use Rattle.std.specs.Cow.{cow_str_bytes, IsBorrowedStr};
ghost use Rattle.std.specs.Str.{IsUtf8};
ghost use Rattle.ansi_items.specs.Plain.{plain, is_whole};
ghost use Rattle.ansi_safe.specs.declared.policy.Links.{Links};
ghost use Rattle.ansi_safe.specs.Links.{link_at};
ghost use Rattle.ansi_safe.specs.Safe.{is_safe};
ghost use Rattle.ansi_search.specs.Positions.{is_char_boundary, no_character_goes_on};
ghost use Rattle.ansi_restyle.specs.Ranges.{are_in_turn, begin_outside_line_ends};
ghost use Rattle.ansi_restyle.specs.ReplacedEach.{Swap, swaps_of, ranges_of, are_whole, are_safe, swap_nothing};
ghost use Rattle.ansi_restyle.specs.ReplacedEach.{replaced_each, IsReplacedEach};
ghost use Rattle.ansi_restyle.specs.Replacing.{made_of_left, AreUtf8};

use crate::replace::{place_of, push_put, push_without_front};
use crate::rest::Rest;
use ansi_safe::links::{Pen, pen_after_from};
use ansi_search::search;
use std::alloc::{AllocError, Allocator};
use std::borrow::CowStr;

/// A range of a plain text, and the text in its place.
#[derive(Clone, Copy)]
pub struct Replacement<'w> {
    /// Where the range begins and where it ends, in bytes of the plain text.
    pub range: (usize, usize),
    /// The text in its place.
    pub with: &'w str,
}

/// Like `AnsiRestyle::ansi_replace_each`, with a result that lives as long as the text, and with any
/// allocator.
///
/// ```
/// let edits = [
///     Replacement {
///         range: (0, 1),
///         with: "A",
///     },
///     Replacement {
///         range: (3, 5),
///         with: "\x1b[1mip",
///     },
/// ];
/// let replaced = replace_each_in(rt.alloc(), "a \x1b[31mred\x1b[39m", &edits);
/// assert!(rt; matches!(&replaced, Ok(Some(replaced)) if replaced.as_str() == "A \x1b[31mr\x1b[1mip\x1b[22m\x1b[39m\x1b[31m\x1b[39m"));
/// ```
pub fn replace_each_in<'t, A: Allocator>(
    alloc: A,
    text: &'t str,
    edits: &[Replacement<'_>],
) -> Result<Option<CowStr<'t, A>>, AllocError>
    ensures headline { IsTrue (is_whole text.now && are_whole (swaps_of edits.now)) →
        IfOk result (λ o. IfSome o (λ c.
        IsReplacedEach text.now (swaps_of edits.now) (cow_str_bytes c))) }
    ensures none { IfOk result (λ o. IsNone o
        ↔ IsFalse (are_in_turn (plain text.now) 0 (ranges_of (swaps_of edits.now)))) }
    ensures bytes { IfOk result (λ o. IfSome o (λ c.
        cow_str_bytes c ≡ replaced_each text.now (swaps_of edits.now))) }
    ensures safe { (links : Links) →
        IsTrue (is_safe links text.now && are_safe links (swaps_of edits.now)) →
        IsTrue (begin_outside_line_ends (plain text.now) (ranges_of (swaps_of edits.now))) →
        IfOk result (λ o. IfSome o (λ c. IsTrue (is_safe links (cow_str_bytes c)))) }
    ensures borrowed { IfOk result (λ o. IfSome o (λ c.
        IsBorrowedStr c ↔ IsTrue (swap_nothing (swaps_of edits.now)))) }
    ensures len { IfOk result (λ o. IfSome o (λ c. length (cow_str_bytes c)
        ≤ length text.now + sum_by (λ (e : Swap). length e.text
        + length (link_at text.now (e.range.0 - 1)) + 258) (swaps_of edits.now))) }
    ensures takes_no_memory { IsTrue (swap_nothing (swaps_of edits.now))
        ⊎ IsFalse (are_in_turn (plain text.now) 0 (ranges_of (swaps_of edits.now))) →
        IsOk result }
{
    if !edits_in_turn(text, edits) {
        return Ok(None);
    }
    if edit_nothing(edits) {
        return Ok(Some(CowStr::Borrowed(text)));
    }
    let mut replaced = String::with_capacity(alloc, text.len())?;
    push_replaced_each(&mut replaced, text, edits)?;
    Ok(Some(CowStr::Owned(replaced)))
}

/// Whether the ranges are in the plain text and follow one another, from a character to another.
fn edits_in_turn(text: &str, edits: &[Replacement<'_>]) -> bool
    ensures { result ≡ are_in_turn (plain text.now) 0 (ranges_of (swaps_of edits.now)) }
{
    let mut rest = Rest::new(text);
    let mut place = 0;
    for edit in edits {
        let Some(after) = rest.after_range(place, edit.range) else {
            return false;
        };
        rest = after;
        place = edit.range.1;
    }
    search::is_char_boundary(text, place)
}

/// Whether each range is empty, and so is the text in its place.
fn edit_nothing(edits: &[Replacement<'_>]) -> bool
    ensures { result ≡ swap_nothing (swaps_of edits.now) }
{
    for edit in edits {
        if !is_nothing(edit) {
            return false;
        }
    }
    true
}

/// Whether the range is empty, and so is the text in its place.
fn is_nothing(edit: &Replacement<'_>) -> bool
    ensures { result ≡ (edit.now.range.0 == edit.now.range.1 && length edit.now.with.now == 0) }
{
    edit.range.0 == edit.range.1 && edit.with.is_empty()
}

/// Appends a text with another text in place of each of many ranges. `Err` means out of memory; what
/// was appended before it stays.
fn push_replaced_each<A: Allocator>(
    out: &mut String<A>,
    text: &str,
    edits: &[Replacement<'_>],
) -> Result<(), AllocError>
    requires { IsTrue (are_in_turn (plain text.now) 0 (ranges_of (swaps_of edits.now))) }
    ensures bytes { OnOk result (string_bytes out.new
        ≡ string_bytes out.old ++ replaced_each text.now (swaps_of edits.now)) }
    ensures utf8 { OnOk result (AreUtf8 (swaps_of edits.now)) }
{
    let mut replacing = Replacing::begin(out, text)?;
    for edit in edits {
        replacing.put(out, edit.range, edit.with)?;
    }
    push_without_front(out, replacing.rest.text, replacing.len)
}

/// How far the ranges of a text are replaced.
#[derive(Drop)]
pub(crate) struct Replacing<'t> {
    /// The text from the start of the last range on.
    pub(crate) rest: Rest<'t>,
    /// The pen before it.
    pen: Pen<'t>,
    /// Where it begins.
    pub(crate) place: usize,
    /// The length of that range.
    pub(crate) len: usize,
}

impl<'t> Replacing<'t> {
    /// Appends what is before the first character of a text, which is left. `Err` means out of memory.
    pub(crate) fn begin<A: Allocator>(
        out: &mut String<A>,
        text: &'t str,
    ) -> Result<Self, AllocError>
        ensures bytes { (es : List Swap) → IfOk result (λ s.
            string_bytes out.new ++ made_of_left s es
            ≡ string_bytes out.old ++ replaced_each text.now es) }
        ensures left { IfOk result (λ s. plain s.rest.text.now ≡ plain text.now) }
        ensures place { IfOk result (λ s. s.place ≡ 0) }
        ensures len { IfOk result (λ s. s.len ≡ 0) }
    {
        let first = place_of(text, 0);
        let (front, after) = text.split_at(first.offset);
        out.push_str(front)?;
        Ok(Replacing {
            rest: Rest::new(after),
            pen: first.pen,
            place: 0,
            len: 0,
        })
    }

    /// Appends the text up to the next range and another text in its place. What follows is left.
    /// `Err` means out of memory; what was appended before it stays.
    pub(crate) fn put<A: Allocator>(
        &mut self,
        out: &mut String<A>,
        range: (usize, usize),
        with: &str,
    ) -> Result<(), AllocError>
        requires begins { self.old.place + self.old.len ≤ range.0 }
        requires ends { range.0 ≤ range.1 }
        requires good { IsTrue (is_char_boundary (plain self.old.rest.text.now)
            (range.0 - self.old.place)) }
        requires len { IsTrue (no_character_goes_on (plain self.old.rest.text.now) self.old.len) }
        ensures bytes { (es : List Swap) → OnOk result (string_bytes out.new ++ made_of_left self.new es
            ≡ string_bytes out.old
            ++ made_of_left self.old (record { range = range; text = with.now } ∷ es)) }
        ensures left { OnOk result (plain self.new.rest.text.now
            ≡ drop (range.0 - self.old.place) (plain self.old.rest.text.now)) }
        ensures place { OnOk result (self.new.place ≡ range.0) }
        ensures len { OnOk result (self.new.len ≡ range.1 - range.0) }
        ensures utf8 { IsUtf8 with.now }
    {
        let (before, after) = self.rest.split_at_place(range.0 - self.place);
        push_without_front(out, before, self.len)?;
        self.pen = pen_after_from(self.pen, before);
        push_put(out, with, &self.pen)?;
        self.rest = after;
        self.place = range.0;
        self.len = range.1 - range.0;
        Ok(())
    }
}
