//! The links of a text.
ghost use Rattle.std.specs.Prelude.{◌≡◌, ◌↔◌, ◌≤◌, ◌<◌, ◌+◌, ◌^◌, ◌∷◌, ◌++◌, ◌&&◌, ◌⊎◌, [], length, IfOk, IsFalse, IsOk};
ghost use Rattle.std.specs.Prelude.{IfSome, IsNone, IsTrue, MatchOption, OnOk, nat_lt, string_bytes};
ghost use Rattle.std.specs.Cow.{cow_str_bytes, IsBorrowedStr};
ghost use Rattle.std.specs.List.{list_all};
ghost use Rattle.std.specs.Option.{option_map};
ghost use Rattle.ansi_items.specs.Plain.{plain, is_whole};
ghost use Rattle.ansi_items.specs.Sequences.{IsSequence};
ghost use Rattle.ansi_safe.specs.Links.{address_of, is_link, link_at};
ghost use Rattle.ansi_safe.specs.declared.policy.Links as LinkPolicy;
ghost use Rattle.ansi_safe.specs.declared.policy.Links.TheVariants.{Keep};
ghost use Rattle.ansi_safe.specs.Safe.{is_printable_byte, is_safe};
ghost use Rattle.ansi_restyle.specs.Links.{has_link, without_links, IsWithoutLinks};
ghost use Rattle.ansi_restyle.specs.Links.{linked_range, links, links_of_walk};
ghost use Rattle.ansi_restyle.specs.Links.{is_clean_address, as_link, with_link, IsLinked, IsInThree};
ghost use Rattle.ansi_restyle.specs.Ranges.{are_in_turn, keep_line_ends};

use crate::rest::Rest;
use ansi_items::ansitok::{Kind, Scanner};
use ansi_safe::links::{LONGEST_ADDRESS, address_of, pen_after, pen_after_from, terminator_len};
use ansi_search::search;
use std::alloc::{AllocError, Allocator};
use std::borrow::CowStr;
use std::marker::Model;

/// A link of a text: the range of the plain text that it links, and its address.
#[derive(Debug, Clone, Copy, PartialEq, Eq)]
pub struct Link<'t> {
    /// Where its text begins and ends, in bytes of the plain text.
    pub range: (usize, usize),
    /// Its address, which isn't empty.
    pub address: &'t str,
}

/// The links of a text, in order.
///
/// After the last link `next` always returns `None`.
#[derive(Drop)]
pub struct Links<'t> {
    walk: LinkWalk<'t>,
}

/// A place of a text, and the link that is open there.
#[derive(Clone, Copy)]
struct LinkWalk<'t> {
    /// The text from there on.
    rest: &'t str,
    /// How many bytes of the plain text are before it.
    position: usize,
    /// Where the link begins, if one is open.
    start: usize,
    /// Its address, which is empty if no link is open.
    address: &'t str,
}

impl<'t> Model for Links<'t> {
    ghost use Rattle.std.specs.Prelude.{List, ◌+◌, ◌<◌, ◌^◌, length};
    ghost use Rattle.ansi_items.specs.Plain.{plain};
    ghost use Rattle.ansi_restyle.specs.Links.{LinkedRange, links_of_walk};

    ghost Value = { List LinkedRange };

    ghost view = { λ s. links_of_walk s.walk };

    ghost invariant = { λ s. s.walk.position + length (plain s.walk.rest.now) < 2 ^ 64 };
}

impl<'t> Links<'t> {
    /// Like `AnsiRestyle::ansi_links`.
    ///
    /// ```
    /// let mut links = Links::new("a \x1b]8;;http://x\x1b\\link\x1b]8;;\x1b\\");
    /// assert!(rt; matches!(links.next(), Some(link) if link.range == (2, 6) && link.address == "http://x"));
    /// assert!(rt; links.next().is_none());
    /// ```
    pub fn new(text: &'t str) -> Links<'t>
        ensures { result ≡ links text.now }
    {
        Links {
            walk: LinkWalk {
                rest: text,
                position: 0,
                start: 0,
                address: "",
            },
        }
    }
}

impl<'t> Iterator for Links<'t> {
    ghost use Rattle.std.specs.Iterator.{YieldsFirstBy, item_count};
    ghost use Rattle.ansi_restyle.specs.Links.{linked_range};

    type Item = Link<'t>;

    ghost next_gives = { YieldsFirstBy linked_range (λ s. s) };

    ghost remaining = { item_count (λ s. s) };

    fn next(&mut self) -> Option<Link<'t>> {
        let (link, walk) = first_link(self.walk)?;
        self.walk = walk;
        Some(link)
    }
}

/// The first link that ends after a place, and where it ends.
fn first_link<'t>(walk: LinkWalk<'t>) -> Option<(Link<'t>, LinkWalk<'t>)>
    requires { walk.position + length (plain walk.rest.now) < 2 ^ 64 }
    ensures first { MatchOption result (links_of_walk walk.entry ≡ [])
        (λ (link, after). links_of_walk walk.entry ≡ linked_range link ∷ links_of_walk after) }
    ensures fits { IfSome result (λ (_, after).
        after.position + length (plain after.rest.now) < 2 ^ 64) }
{
    let text = walk.rest;
    let mut position = walk.position;
    let mut start = walk.start;
    let mut address = walk.address;
    for item in Scanner::new(text) {
        let piece = &text[item.start..item.end];
        if item.kind == Kind::Text {
            position += piece.len();
        } else if item.kind == Kind::Other {
            if let Some(next) = address_in(piece) {
                let ended = Link {
                    range: (start, position),
                    address,
                };
                start = position;
                address = next;
                if links_text(&ended) {
                    let after = LinkWalk {
                        rest: &text[item.end..],
                        position,
                        start,
                        address,
                    };
                    return Some((ended, after));
                }
            }
        }
    }
    let last = Link {
        range: (start, position),
        address,
    };
    let after = LinkWalk {
        rest: "",
        position,
        start: position,
        address: "",
    };
    if links_text(&last) {
        Some((last, after))
    } else {
        None
    }
}

/// Whether there is text in the range, and an address.
fn links_text(link: &Link) -> bool
    ensures { result ≡ (nat_lt link.now.range.0 link.now.range.1
        && nat_lt 0 (length link.now.address.now)) }
{
    link.range.0 < link.range.1 && !link.address.is_empty()
}

/// The address of a whole sequence if it is a link sequence.
fn address_in(sequence: &str) -> Option<&str>
    requires { IsSequence sequence.now }
    ensures { option_map (λ a. a.now) result ≡ address_of sequence.now }
{
    let address = address_of(sequence.as_bytes())?;
    let end = sequence.len() - terminator_len(sequence.as_bytes());
    Some(&sequence[end - address.len()..end])
}

/// Like `AnsiRestyle::ansi_unlink`, with a result that lives as long as the text, and with any
/// allocator.
///
/// ```
/// let bare = unlink_in(rt.alloc(), "\x1b]8;;http://x\x1b\\a\x1b[1mb\x1b]8;;\x1b\\");
/// assert!(rt; matches!(&bare, Ok(bare) if bare.as_str() == "a\x1b[1mb"));
/// ```
pub fn unlink_in<'t, A: Allocator>(alloc: A, text: &'t str) -> Result<CowStr<'t, A>, AllocError>
    ensures headline { IsTrue (is_whole text.now) → IfOk result (λ c.
        IsWithoutLinks text.now (cow_str_bytes c)) }
    ensures bytes { IfOk result (λ c. cow_str_bytes c ≡ without_links text.now) }
    ensures safe { (links other : LinkPolicy.Links) → IsTrue (is_safe links text.now) →
        IfOk result (λ c. IsTrue (is_safe other (cow_str_bytes c))) }
    ensures borrowed { IfOk result (λ c. IsBorrowedStr c ↔ IsFalse (has_link text.now)) }
    ensures len { IfOk result (λ c. length (cow_str_bytes c) ≤ length text.now) }
    ensures takes_no_memory { IsFalse (has_link text.now) → IsOk result }
{
    if !has_link(text) {
        return Ok(CowStr::Borrowed(text));
    }
    let mut bare = String::with_capacity(alloc, text.len())?;
    push_without_links(&mut bare, text)?;
    Ok(CowStr::Owned(bare))
}

/// Like `AnsiRestyle::ansi_link`, with a result that lives as long as the text, and with any
/// allocator.
///
/// ```
/// let linked = link_in(rt.alloc(), "see \x1b[1mhere", (4, 8), "http://x");
/// assert!(rt; matches!(&linked, Ok(Some(linked)) if linked.as_str() == "see \x1b[1m\x1b]8;;http://x\x1b\\here\x1b]8;;\x1b\\"));
/// ```
pub fn link_in<'t, A: Allocator>(
    alloc: A,
    text: &'t str,
    range: (usize, usize),
    address: &str,
) -> Result<Option<CowStr<'t, A>>, AllocError>
    ensures headline { IsTrue (is_whole text.now) → IfOk result (λ o. IfSome o (λ c.
        IsLinked text.now range address.now (cow_str_bytes c))) }
    ensures none { IfOk result (λ o. IsNone o ↔ IsFalse
        (is_clean_address address.now && are_in_turn (plain text.now) 0 (range ∷ []))) }
    ensures bytes { IfOk result (λ o. IfSome o (λ c.
        cow_str_bytes c ≡ with_link text.now range address.now)) }
    ensures safe { (links : LinkPolicy.Links) → IsTrue (is_safe links text.now) →
        IsTrue (keep_line_ends (plain text.now) (range ∷ [])) → IfOk result (λ o.
        IfSome o (λ c. IsTrue (is_safe Keep (cow_str_bytes c)))) }
    ensures borrowed { IfOk result (λ o. IfSome o (λ c. IsBorrowedStr c ↔ (range.0 ≡ range.1))) }
    ensures len { IfOk result (λ o. IfSome o (λ c. length (cow_str_bytes c)
        ≤ length text.now + length address.now + length (link_at text.now range.1) + 21)) }
    ensures takes_no_memory { (range.0 ≡ range.1) ⊎ IsFalse
        (is_clean_address address.now && are_in_turn (plain text.now) 0 (range ∷ [])) →
        IsOk result }
{
    let (start, end) = range;
    if !is_clean_address(address) {
        return Ok(None);
    }
    let Some((before, within, after)) = in_three(text, range) else {
        return Ok(None);
    };
    if start == end {
        return Ok(Some(CowStr::Borrowed(text)));
    }
    let at_start = pen_after(before);
    let at_end = pen_after_from(at_start, within);
    let mut linked = String::with_capacity(alloc, text.len())?;
    linked.push_str(before)?;
    linked.push_str(at_start.link_end())?;
    push_link(&mut linked, within, address)?;
    linked.push_str(at_end.link)?;
    linked.push_str(after)?;
    Ok(Some(CowStr::Owned(linked)))
}

/// A text up to where a range begins, up to where it ends, and what follows, or `None` if the range
/// is bad.
fn in_three(text: &str, range: (usize, usize)) -> Option<(&str, &str, &str)>
    ensures { MatchOption result (IsFalse (are_in_turn (plain text.now) 0 (range ∷ [])))
        (λ (before, within, after).
        IsInThree text.now range before.now within.now after.now) }
{
    let (start, end) = range;
    if end < start {
        return None;
    }
    let Some(at_start) = Rest::new(text).divide(start) else {
        return None;
    };
    let Some(at_end) = at_start.rest.divide(end - start) else {
        return None;
    };
    if !search::is_char_boundary(text, end) {
        return None;
    }
    Some((at_start.front, at_end.front, at_end.rest.text))
}

/// Whether the address is clean.
fn is_clean_address(address: &str) -> bool
    ensures { result ≡ is_clean_address address.now }
{
    (1..=LONGEST_ADDRESS).contains(&address.len()) && is_printable(address)
}

/// Whether each byte of the text is printable ASCII.
fn is_printable(text: &str) -> bool
    ensures { result ≡ list_all is_printable_byte text.now }
{
    text.as_bytes()
        .iter()
        .all(|byte| (0x20..=0x7E).contains(byte))
}

/// Appends a text as one link to an address. `Err` means out of memory; what was appended before it
/// stays.
fn push_link<A: Allocator>(out: &mut String<A>, text: &str, address: &str) -> Result<(), AllocError>
    ensures { OnOk result (string_bytes out.new
        ≡ string_bytes out.old ++ as_link address.now text.now) }
{
    out.push_str("\x1b]8;;")?;
    out.push_str(address)?;
    out.push_str("\x1b\\")?;
    push_without_links(out, text)?;
    out.push_str("\x1b]8;;\x1b\\")?;
    Ok(())
}

/// Whether a text has a link sequence.
fn has_link(text: &str) -> bool
    ensures { result ≡ has_link text.now }
{
    for item in Scanner::new(text) {
        if is_link(&text[item.start..item.end]) {
            return true;
        }
    }
    false
}

/// Appends a text without its link sequences. `Err` means out of memory; what was appended before
/// it stays.
fn push_without_links<A: Allocator>(out: &mut String<A>, text: &str) -> Result<(), AllocError>
    ensures { OnOk result (string_bytes out.new ≡ string_bytes out.old ++ without_links text.now) }
{
    for item in Scanner::new(text) {
        let piece = &text[item.start..item.end];
        if !is_link(piece) {
            out.push_str(piece)?;
        }
    }
    Ok(())
}

/// Whether the whole sequence is a link sequence. No run of text and no lone escape is one.
fn is_link(piece: &str) -> bool
    ensures { result ≡ is_link piece.now }
{
    address_of(piece.as_bytes()).is_some()
}
