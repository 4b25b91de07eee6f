//! The call that puts another text in place of each of many ranges.
ghost use Rattle.std.specs.Prelude.{◌≡◌, [], IfOk, IsOk, IsTrue};
ghost use Rattle.std.specs.List.{list_all};
ghost use Rattle.std.specs.Str.{is_utf8};
ghost use Rattle.ansi_restyle.specs.ReplacedEach.{swaps_of};
ghost use Rattle.ansi_text_calls.specs.Replacements.{swaps_of_entries, new_texts};
ghost use Rattle.ansi_text_calls.specs.Replacements.{ReplacesEach, GivesReplacedEach};

use crate::answers::{Answer, NOT_UTF8, OUT_OF_MEMORY, REFUSED, write_found};
use ansi_restyle::replace_each::{Replacement, replace_each_in};
use ansi_safe::utf8::from_utf8;
use std::alloc::{AllocError, Allocator};
use std::str::from_utf8_unchecked;

/// A range of a plain text, by where it begins and ends in bytes, and the text in its place.
#[repr(C)]
#[derive(Clone, Copy)]
pub struct ReplacementEntry<'a> {
    pub start: usize,
    pub end: usize,
    pub with: &'a [u8],
}

/// The text with another text in place of each of many ranges. The call is refused if the ranges
/// aren't in turn.
pub fn replace_each<A: Allocator + Copy>(
    alloc: A,
    text: &[u8],
    entries: &[ReplacementEntry<'_>],
    buffer: &mut [u8],
) -> Answer
    ensures { ReplacesEach text.now entries.now result buffer.old buffer.new }
{
    let Ok(text) = from_utf8(text) else {
        return Answer::failed(NOT_UTF8);
    };
    if !are_texts_utf8(entries) {
        return Answer::failed(NOT_UTF8);
    }
    replace_each_text(alloc, text, entries, buffer)
}

/// Whether each of the new texts is UTF-8.
fn are_texts_utf8(entries: &[ReplacementEntry<'_>]) -> bool
    ensures { result ≡ list_all is_utf8 (new_texts entries.now) }
{
    for entry in entries {
        let Ok(_) = from_utf8(entry.with) else {
            return false;
        };
    }
    true
}

/// The same for texts that are known to be UTF-8.
#[tactic(auto, unfolding(crate::specs::Replacements::GivesReplacedEach))]
fn replace_each_text<A: Allocator + Copy>(
    alloc: A,
    text: &str,
    entries: &[ReplacementEntry<'_>],
    buffer: &mut [u8],
) -> Answer
    requires { IsTrue (list_all is_utf8 (new_texts entries.now)) }
    ensures { GivesReplacedEach text.now (swaps_of_entries entries.now) result buffer.old
        buffer.new }
{
    match replacements_of(alloc, entries) {
        Ok(edits) => {
            let replaced = replace_each_in(alloc, text, edits.as_slice());
            write_found(replaced, REFUSED, buffer)
        }
        Err(_) => Answer::failed(OUT_OF_MEMORY),
    }
}

/// The replacements of entries. Doesn't allocate if there is none.
fn replacements_of<'a, A: Allocator>(
    alloc: A,
    entries: &[ReplacementEntry<'a>],
) -> Result<Vec<Replacement<'a>, A>, AllocError>
    requires { IsTrue (list_all is_utf8 (new_texts entries.now)) }
    ensures swaps { IfOk result (λ v. swaps_of v.items ≡ swaps_of_entries entries.now) }
    ensures takes_no_memory { entries.now ≡ [] → IsOk result }
{
    let mut edits = Vec::new(alloc);
    for entry in entries {
        let with = unsafe { from_utf8_unchecked(entry.with) };
        let range = (entry.start, entry.end);
        edits.push(Replacement { range, with })?;
    }
    Ok(edits)
}
