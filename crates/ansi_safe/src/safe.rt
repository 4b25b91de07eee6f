//! Safe texts, and what makes any text one.
ghost use Rattle.std.specs.Prelude.{◌≡◌, ◌↔◌, ◌+◌, ◌*◌, ◌≤◌, ◌++◌, [], length, IsTrue, IsOk, IfOk, OnOk};
ghost use Rattle.std.specs.Prelude.{IfSome, is_some, string_bytes};
ghost use Rattle.std.specs.Cow.{cow_str_bytes, IsBorrowedStr};
ghost use Rattle.ansi_items.specs.Pieces.{spelling};
ghost use Rattle.ansi_items.specs.Scans.{kind_of, piece_of_kind};
ghost use Rattle.ansi_items.specs.Plain.{marks};
ghost use Rattle.ansi_style.specs.States.{rendition_of};
ghost use Rattle.ansi_style.specs.Styled.{style_after};
ghost use Rattle.ansi_style.specs.Written.{close, longest_close};
ghost use Rattle.ansi_safe.specs.Links.{link_of, ending, IsClosed, longest_link_end};
ghost use Rattle.ansi_safe.specs.Safe.{is_safe};
ghost use Rattle.ansi_safe.specs.declared.policy.Links.{Links};
ghost use Rattle.ansi_safe.specs.Sanitized.{becomes, cleaned, growth, sanitized};

use crate::allowed::{item_may_stay, may_stay, rest_is_allowed};
use crate::front::split_ordinary;
use crate::links::{Ending, LONGEST_ENDING, Pen, link_after, pen_after, plain_pen};
use crate::policy::{Links, Policy};
use crate::shown::{push_instead_of_all, push_run};
use ansi_items::ansitok::{Kind, Scanner};
use ansi_style::styles::{self, plain_style};
use std::alloc::{AllocError, Allocator};
use std::borrow::CowStr;

/// Like `AnsiSafe::ansi_is_safe`.
///
/// ```
/// assert!(rt; is_safe("\x1b[31mred\x1b[39m", Links::Remove) && !is_safe("\x1b[2J", Links::Keep));
/// ```
pub fn is_safe(text: &str, links: Links) -> bool
    ensures { result ≡ is_safe links text.now }
{
    let rest = after_allowed(text);
    rest.is_empty() || items_may_stay(rest, links)
}

/// A text without the ordinary characters that it begins with: nothing if all of its characters are
/// allowed. What is left is as safe as the text, and leaves the same open.
#[inline(always)]
fn after_allowed(text: &str) -> &str
    ensures safe { (links : Links) → is_safe links text.now ≡ is_safe links result.now }
    ensures style { style_after text.now ≡ style_after result.now }
    ensures link { link_of (marks text.now) ≡ link_of (marks result.now) }
{
    let (_, rest) = split_ordinary(text, true);
    if !rest.starts_with('\x1b') && rest_is_allowed(rest) {
        ""
    } else {
        rest
    }
}

/// Like `is_safe`, item by item.
fn items_may_stay(text: &str, links: Links) -> bool
    ensures { result ≡ is_safe links text.now }
{
    for item in Scanner::new(text) {
        if !item_may_stay(text, &item, links) {
            return false;
        }
    }
    true
}

/// The pen after a text, or `None` if the text isn't safe. Doesn't allocate. (Own.)
///
/// A safe text without sequences is read once, without looking for them.
///
/// ```
/// let pen = pen_if_safe("\x1b[31mred", Links::Remove).ok_or("not safe")?;
/// assert!(rt; !pen.is_plain() && pen_if_safe("\x1b[2J", Links::Remove).is_none());
/// ```
pub fn pen_if_safe(text: &str, links: Links) -> Option<Pen<'_>>
    ensures none { is_some result ≡ is_safe links text.now }
    ensures style { IfSome result (λ pen. rendition_of pen.style ≡ style_after text.now) }
    ensures link { IfSome result (λ pen. pen.link.now ≡ link_of (marks text.now)) }
{
    let rest = after_allowed(text);
    if rest.is_empty() {
        return Some(plain_pen());
    }
    pen_after_items(rest, links)
}

/// Like `pen_if_safe`, item by item.
fn pen_after_items(text: &str, links: Links) -> Option<Pen<'_>>
    ensures none { is_some result ≡ is_safe links text.now }
    ensures style { IfSome result (λ pen. rendition_of pen.style ≡ style_after text.now) }
    ensures link { IfSome result (λ pen. pen.link.now ≡ link_of (marks text.now)) }
{
    let mut style = plain_style();
    let mut link = "";
    for item in Scanner::new(text) {
        if !item_may_stay(text, &item, links) {
            return None;
        }
        let piece = &text[item.start..item.end];
        if item.kind == Kind::Sgr {
            styles::apply(&mut style, piece);
        } else if item.kind == Kind::Other {
            link = link_after(link, piece);
        }
    }
    Some(Pen { style, link })
}

/// What ends what a text leaves open, or `None` if the text isn't safe. Doesn't allocate.
pub fn ending_if_safe(text: &str, links: Links) -> Option<Ending>
    ensures none { is_some result ≡ is_safe links text.now }
    ensures bytes { IfSome result (λ e.
        e.link_end.now ++ close (rendition_of e.style) ≡ ending text.now) }
{
    Some(pen_if_safe(text, links)?.ending())
}

/// Like `AnsiSafe::ansi_sanitize`, with a result that lives as long as the text, and with any
/// allocator.
///
/// ```
/// let policy = Policy { rest: Rest::Drop, links: Links::Keep };
/// let safe = sanitize(rt.alloc(), "\x1b[2J\x1b[31mred", policy)?;
/// assert!(rt; safe.as_str() == "\x1b[31mred\x1b[39m");
/// ```
pub fn sanitize<'t, A: Allocator>(
    alloc: A,
    text: &'t str,
    policy: Policy,
) -> Result<CowStr<'t, A>, AllocError>
    ensures bytes { IfOk result (λ c. cow_str_bytes c ≡ sanitized policy text.now) }
    ensures borrowed { IfOk result (λ c. IsBorrowedStr c
        ↔ (IsTrue (is_safe policy.links text.now) × (ending text.now ≡ []))) }
    ensures len { IfOk result (λ c. length (cow_str_bytes c)
        ≤ growth policy.rest * length text.now + longest_link_end + longest_close) }
    ensures takes_no_memory { IsTrue (is_safe policy.links text.now) × (ending text.now ≡ []) →
        IsOk result }
    ensures safe { IfOk result (λ c. IsTrue (is_safe policy.links (cow_str_bytes c))) }
    ensures closed { IfOk result (λ c. IsClosed (cow_str_bytes c)) }
{
    let Some(ending) = ending_if_safe(text, policy.links) else {
        return Ok(CowStr::Owned(write_sanitized(alloc, text, policy)?));
    };
    if ending.is_empty() {
        return Ok(CowStr::Borrowed(text));
    }
    Ok(CowStr::Owned(write_ended(alloc, text, &ending)?))
}

/// A text and what ends it, written.
fn write_ended<A: Allocator>(alloc: A, text: &str, ending: &Ending) -> Result<String<A>, AllocError>
    ensures { IfOk result (λ s. string_bytes s
        ≡ text.now ++ (ending.now.link_end.now ++ close (rendition_of ending.now.style))) }
{
    let mut out = String::with_capacity(alloc, text.len() + LONGEST_ENDING)?;
    out.push_str(text)?;
    ending.push_to(&mut out)?;
    Ok(out)
}

/// A text made safe, written.
fn write_sanitized<A: Allocator>(
    alloc: A,
    text: &str,
    policy: Policy,
) -> Result<String<A>, AllocError>
    ensures { IfOk result (λ s. string_bytes s ≡ sanitized policy text.now) }
{
    let mut out = String::with_capacity(alloc, text.len() + LONGEST_ENDING)?;
    push_cleaned(&mut out, text, policy)?;
    let ending = pen_after(out.as_str()).ending();
    ending.push_to(&mut out)?;
    Ok(out)
}

/// Appends a text with what each of its items becomes. What the text leaves open isn't ended. `Err`
/// means out of memory; what was appended before it stays.
///
/// ```
/// push_cleaned(&mut out, "\x1b[2J\x1b[31mred", policy)?;
/// assert!(rt; out.as_str() == "\x1b[31mred");
/// ```
pub fn push_cleaned<A: Allocator>(
    out: &mut String<A>,
    text: &str,
    policy: Policy,
) -> Result<(), AllocError>
    ensures { OnOk result (string_bytes out.new
        ≡ string_bytes out.old ++ cleaned policy text.now) }
{
    for item in Scanner::new(text) {
        push_item(out, item.kind, &text[item.start..item.end], policy)?;
    }
    Ok(())
}

/// Appends what an item of this kind becomes. `Err` means out of memory; what was appended before
/// it stays.
fn push_item<A: Allocator>(
    out: &mut String<A>,
    kind: Kind,
    piece: &str,
    policy: Policy,
) -> Result<(), AllocError>
    requires kind { kind ≡ kind_of (piece_of_kind kind piece.now) }
    requires bytes { piece.now ≡ spelling (piece_of_kind kind piece.now) }
    ensures { OnOk result (string_bytes out.new
        ≡ string_bytes out.old ++ becomes policy (piece_of_kind kind piece.now)) }
{
    if may_stay(kind, piece, policy.links) {
        return out.push_str(piece);
    }
    match kind {
        Kind::Text => push_run(out, piece, policy.rest),
        _ => push_instead_of_all(out, piece, policy.rest),
    }
}
