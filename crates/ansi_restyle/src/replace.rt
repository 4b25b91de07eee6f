//! A text with another text in place of a range, or put in at a position.
ghost use Rattle.std.specs.Prelude.{◌≡◌, ◌+◌, ◌-◌, ◌++◌, ◌↔◌, ◌⊎◌, ◌≤◌, ◌&&◌, ◌∷◌, [], length, IfOk, IfSome};
ghost use Rattle.std.specs.Prelude.{IsFalse, IsNone, IsOk, IsTrue, OnOk, string_bytes};
ghost use Rattle.std.specs.Cow.{cow_str_bytes, IsBorrowedStr};
ghost use Rattle.std.specs.Str.{IsCharBoundary};
ghost use Rattle.ansi_items.specs.Plain.{plain, is_whole};
ghost use Rattle.ansi_safe.specs.declared.policy.Links.{Links};
ghost use Rattle.ansi_safe.specs.Links.{link_at};
ghost use Rattle.ansi_safe.specs.Safe.{is_safe};
ghost use Rattle.ansi_search.specs.Positions.{is_char_boundary, no_character_goes_on};
ghost use Rattle.ansi_style.specs.States.{rendition_of};
ghost use Rattle.ansi_style.specs.Styled.{style_at};
ghost use Rattle.ansi_restyle.specs.Ranges.{are_in_turn, parts_line_end};
ghost use Rattle.ansi_restyle.specs.Replaced.{place_of, link_back, put, replaced, IsReplaced};
ghost use Rattle.ansi_restyle.specs.ReplacedEach.{without_front};

use crate::rest::Rest;
use crate::restyle::are_in_turn;
use ansi_items::ansitok::{Kind, Scanner};
use ansi_safe::links::{Pen, link_after, pen_after_from};
use ansi_slice::slice::{has_any, push_sequences};
use ansi_style::styles;
use std::alloc::{AllocError, Allocator};
use std::borrow::CowStr;

/// Like `AnsiRestyle::ansi_replace`, with a result that lives as long as the text, and with any
/// allocator.
///
/// ```
/// let replaced = replace_in(rt.alloc(), "a \x1b[31mred\x1b[39m b", (2, 5), "\x1b[1mbig");
/// assert!(rt; matches!(&replaced, Ok(Some(replaced)) if replaced.as_str() == "a \x1b[1mbig\x1b[22m\x1b[31m\x1b[39m b"));
/// ```
pub fn replace_in<'t, A: Allocator>(
    alloc: A,
    text: &'t str,
    range: (usize, usize),
    with: &str,
) -> Result<Option<CowStr<'t, A>>, AllocError>
    ensures headline { IsTrue (is_whole text.now && is_whole with.now) → IfOk result (λ o.
        IfSome o (λ c. IsReplaced text.now range.0 range.1 with.now (cow_str_bytes c))) }
    ensures none { IfOk result (λ o.
        IsNone o ↔ IsFalse (are_in_turn (plain text.now) 0 (range ∷ []))) }
    ensures bytes { IfOk result (λ o. IfSome o (λ c.
        cow_str_bytes c ≡ replaced text.now range.0 range.1 with.now)) }
    ensures safe { (links : Links) → IsTrue (is_safe links text.now && is_safe links with.now) →
        IsFalse (parts_line_end (plain text.now) range.0) → IfOk result (λ o. IfSome o (λ c.
        IsTrue (is_safe links (cow_str_bytes c)))) }
    ensures borrowed { IfOk result (λ o. IfSome o (λ c.
        IsBorrowedStr c ↔ ((range.0 ≡ range.1) × (with.now ≡ [])))) }
    ensures len { IfOk result (λ o. IfSome o (λ c.
        length (cow_str_bytes c) ≤ length text.now + length with.now
        + length (link_at text.now (range.0 - 1)) + 258)) }
    ensures takes_no_memory { ((range.0 ≡ range.1) × (with.now ≡ []))
        ⊎ IsFalse (are_in_turn (plain text.now) 0 (range ∷ [])) → IsOk result }
{
    if !are_in_turn(text, &[range]) {
        return Ok(None);
    }
    let (start, end) = range;
    if start == end && with.is_empty() {
        return Ok(Some(CowStr::Borrowed(text)));
    }
    let place = place_of(text, start);
    let (before, after) = text.split_at(place.offset);
    let mut replaced = String::with_capacity(alloc, text.len().saturating_add(with.len()))?;
    replaced.push_str(before)?;
    push_put(&mut replaced, with, &place.pen)?;
    let len = end - start;
    let mut style = place.pen.style;
    let removed = Rest::new(after).split_at(&mut style, len).unwrap();
    push_sequences(&mut replaced, removed.front, len)?;
    replaced.push_str(removed.rest.text)?;
    Ok(Some(CowStr::Owned(replaced)))
}

/// Like `AnsiRestyle::ansi_insert`, with a result that lives as long as the text, and with any
/// allocator.
///
/// ```
/// let longer = insert_in(rt.alloc(), "a \x1b[31mred\x1b[39m b", 5, "dish");
/// assert!(rt; matches!(&longer, Ok(Some(longer)) if longer.as_str() == "a \x1b[31mreddish\x1b[39m b"));
/// ```
pub fn insert_in<'t, A: Allocator>(
    alloc: A,
    text: &'t str,
    position: usize,
    with: &str,
) -> Result<Option<CowStr<'t, A>>, AllocError>
    ensures headline { IsTrue (is_whole text.now && is_whole with.now) → IfOk result (λ o.
        IfSome o (λ c. IsReplaced text.now position position with.now (cow_str_bytes c))) }
    ensures none { IfOk result (λ o.
        IsNone o ↔ IsFalse (is_char_boundary (plain text.now) position)) }
    ensures bytes { IfOk result (λ o. IfSome o (λ c.
        cow_str_bytes c ≡ replaced text.now position position with.now)) }
    ensures safe { (links : Links) → IsTrue (is_safe links text.now && is_safe links with.now) →
        IsFalse (parts_line_end (plain text.now) position) → IfOk result (λ o. IfSome o (λ c.
        IsTrue (is_safe links (cow_str_bytes c)))) }
    ensures borrowed { IfOk result (λ o. IfSome o (λ c. IsBorrowedStr c ↔ (with.now ≡ []))) }
    ensures len { IfOk result (λ o. IfSome o (λ c.
        length (cow_str_bytes c) ≤ length text.now + length with.now
        + length (link_at text.now (position - 1)) + 258)) }
    ensures takes_no_memory { (with.now ≡ [])
        ⊎ IsFalse (is_char_boundary (plain text.now) position) → IsOk result }
{
    replace_in(alloc, text, (position, position), with)
}

/// Where a text is put in, and the style and the link there.
#[derive(Clone, Copy)]
pub(crate) struct Place<'t> {
    pub(crate) offset: usize,
    pub(crate) pen: Pen<'t>,
}

/// Where a text is put in at a position: right after the character before it, or at the front, right
/// before the first character.
pub(crate) fn place_of(text: &str, position: usize) -> Place<'_>
    requires { IsTrue (is_char_boundary (plain text.now) position) }
    ensures offset { result.offset ≡ place_of position text.now }
    ensures boundary { IsCharBoundary text.now result.offset }
    ensures style { rendition_of result.pen.style ≡ style_at text.now (position - 1) }
    ensures link { result.pen.link.now ≡ link_at text.now (position - 1) }
{
    let mut style = styles::plain_style();
    let mut link = "";
    let mut remaining = position;
    for item in Scanner::new(text) {
        let piece = &text[item.start..item.end];
        if item.kind == Kind::Text {
            if remaining <= piece.len() {
                let offset = item.start + remaining;
                let pen = Pen { style, link };
                return Place { offset, pen };
            }
            remaining -= piece.len();
        } else if item.kind == Kind::Sgr {
            styles::apply(&mut style, piece);
        } else {
            link = link_after(link, piece);
        }
    }
    let offset = text.len();
    let pen = Pen { style, link };
    Place { offset, pen }
}

/// Appends a text that is put where a pen is. After it, if it has an ESC, come what brings the link
/// back, the close of the style then, and the start of the style before. `Err` means out of memory;
/// what was appended before it stays.
pub(crate) fn push_put<A: Allocator>(
    out: &mut String<A>,
    with: &str,
    pen: &Pen<'_>,
) -> Result<(), AllocError>
    ensures { OnOk result (string_bytes out.new
        ≡ string_bytes out.old ++ put (rendition_of pen.now.style) pen.now.link.now with.now) }
{
    out.push_str(with)?;
    if !has_any(with) {
        return Ok(());
    }
    let after = pen_after_from(*pen, with);
    out.push_str(link_back(pen, &after))?;
    styles::write_close(&after.style, out)?;
    styles::write_start(&pen.style, out)?;
    Ok(())
}

/// Appends a text without the front of its plain text, with every sequence. `Err` means out of
/// memory; what was appended before it stays.
pub(crate) fn push_without_front<A: Allocator>(
    out: &mut String<A>,
    text: &str,
    len: usize,
) -> Result<(), AllocError>
    requires { IsTrue (no_character_goes_on (plain text.now) len) }
    ensures { OnOk result (string_bytes out.new
        ≡ string_bytes out.old ++ without_front len text.now) }
{
    let mut style = styles::plain_style();
    let divided = Rest::new(text).split_at(&mut style, len).unwrap();
    push_sequences(out, divided.front, len)?;
    out.push_str(divided.rest.text)?;
    Ok(())
}

/// What brings the link of a pen back where another pen is.
fn link_back<'t>(pen: &Pen<'t>, other: &Pen<'_>) -> &'t str
    ensures { result.now ≡ link_back pen.now.link.now other.now.link.now }
{
    if other.link == pen.link {
        ""
    } else if pen.link.is_empty() {
        other.link_end()
    } else {
        pen.link
    }
}
