//! Calls on links: the range and the address of each, a text with a range linked, and a text
//! without its links.
ghost use Rattle.std.specs.Prelude.{◌≡◌, ◌≤◌, ◌++◌, length, drop};
ghost use Rattle.ansi_restyle.specs.Links.{links};
ghost use Rattle.ansi_text_calls.specs.Lists.{AreWritten};
ghost use Rattle.ansi_text_calls.specs.Links.{addresses, link_entries_from, WritesLinks};
ghost use Rattle.ansi_text_calls.specs.Links.{WritesLinked, GivesLinked, Unlinks, GivesUnlinked};

use crate::answers::{Answer, NOT_UTF8, OK, REFUSED, TOO_SMALL, write_found, write_text};
use crate::lists::{ListAnswer, put};
use ansi_restyle::links::{Links, link_in, unlink_in};
use ansi_safe::utf8::from_utf8;
use std::alloc::Allocator;

/// An entry for a link: where its range begins and ends, in bytes of the plain text, and where its
/// address ends in the addresses of all links.
#[repr(C)]
#[derive(Clone, Copy)]
pub struct LinkEntry {
    pub start: usize,
    pub end: usize,
    pub address_end: usize,
}

/// The addresses of all links, concatenated, and an entry for each.
pub fn links(text: &[u8], buffer: &mut [u8], entries: &mut [LinkEntry]) -> ListAnswer
    ensures { WritesLinks text.now result buffer.old buffer.new entries.old entries.new }
{
    match from_utf8(text) {
        Ok(text) => write_links(text, buffer, entries),
        Err(_) => ListAnswer::failed(NOT_UTF8),
    }
}

/// Writes the address of each link and its entry, if there is room for all of them.
fn write_links(text: &str, buffer: &mut [u8], entries: &mut [LinkEntry]) -> ListAnswer
    ensures { AreWritten (addresses (links text.now)) (link_entries_from 0 (links text.now)) result
        buffer.old buffer.new entries.old entries.new }
{
    let (count, len) = copy_links(text, &mut [], &mut []);
    if len > buffer.len() || count > entries.len() {
        return ListAnswer {
            status: TOO_SMALL,
            count,
            len,
        };
    }
    copy_links(text, buffer, entries);
    ListAnswer {
        status: OK,
        count,
        len,
    }
}

/// Writes the address of each link and its entry, as far as there is room. Returns the number of
/// links, and the length of all addresses.
fn copy_links(text: &str, buffer: &mut [u8], entries: &mut [LinkEntry]) -> (usize, usize)
    ensures count { result.0 ≡ length (link_entries_from 0 (links text.now)) }
    ensures len { result.1 ≡ length (addresses (links text.now)) }
    ensures addresses { length (addresses (links text.now)) ≤ length buffer.old →
        buffer.new ≡ addresses (links text.now)
        ++ drop (length (addresses (links text.now))) buffer.old }
    ensures entries { length (link_entries_from 0 (links text.now)) ≤ length entries.old →
        entries.new ≡ link_entries_from 0 (links text.now)
        ++ drop (length (link_entries_from 0 (links text.now))) entries.old }
{
    let mut count = 0;
    let mut len = 0;
    for link in Links::new(text) {
        let (start, end) = link.range;
        len = put(link.address.as_bytes(), len, buffer);
        let entry = LinkEntry {
            start,
            end,
            address_end: len,
        };
        count = put(&[entry], count, entries);
    }
    (count, len)
}

/// The text with its plain bytes from one position up to another linked to an address. The call is
/// refused if that is no range of it, or the address isn't clean.
pub fn link<A: Allocator>(
    alloc: A,
    text: &[u8],
    start: usize,
    end: usize,
    address: &[u8],
    buffer: &mut [u8],
) -> Answer
    ensures { WritesLinked text.now start end address.now result buffer.old buffer.new }
{
    let Ok(text) = from_utf8(text) else {
        return Answer::failed(NOT_UTF8);
    };
    match from_utf8(address) {
        Ok(address) => link_text(alloc, text, start, end, address, buffer),
        Err(_) => Answer::failed(NOT_UTF8),
    }
}

/// The same for texts that are known to be UTF-8.
#[tactic(auto, unfolding(crate::specs::Links::GivesLinked))]
fn link_text<A: Allocator>(
    alloc: A,
    text: &str,
    start: usize,
    end: usize,
    address: &str,
    buffer: &mut [u8],
) -> Answer
    ensures { GivesLinked text.now start end address.now result buffer.old buffer.new }
{
    write_found(link_in(alloc, text, (start, end), address), REFUSED, buffer)
}

/// The text without its links.
pub fn unlink<A: Allocator>(alloc: A, text: &[u8], buffer: &mut [u8]) -> Answer
    ensures { Unlinks text.now result buffer.old buffer.new }
{
    match from_utf8(text) {
        Ok(text) => unlink_text(alloc, text, buffer),
        Err(_) => Answer::failed(NOT_UTF8),
    }
}

/// The same for a text that is known to be UTF-8.
#[tactic(auto, unfolding(crate::specs::Links::GivesUnlinked))]
fn unlink_text<A: Allocator>(alloc: A, text: &str, buffer: &mut [u8]) -> Answer
    ensures { GivesUnlinked text.now result buffer.old buffer.new }
{
    write_text(unlink_in(alloc, text), buffer)
}
