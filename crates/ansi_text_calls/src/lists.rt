//! Calls that return several texts, with an entry for each: all parts, and all blocks.
ghost use Rattle.std.specs.Prelude.{◌≡◌, ◌≤◌, ◌<◌, ◌+◌, ◌^◌, ◌==◌, ◌∷◌, [], ◌++◌, ℕ, List, refl};
ghost use Rattle.std.specs.Prelude.{length, take, drop, map, flat_map, if◌then◌else◌, IsFalse};
ghost use Rattle.std.specs.Prelude.{IfNone, IfSome, Result, IsOk, IfOk, OnOk, MatchResult, All};
ghost use Rattle.std.specs.Prelude.{string_bytes, IsUtf8, IsTrue, true};
ghost use Rattle.std.specs.Mem.{FitsInMemory};
ghost use Rattle.std.specs.Iterator.{IsFinite, Drains, HoldsAlong};
ghost use Rattle.std.specs.declared.alloc.AllocError.{AllocError};
ghost use Rattle.std.specs.declared.borrow.CowStr.{CowStr};
ghost use Rattle.std.proofs.Common.{append-nil};
ghost use Rattle.ansi_str.specs.Plain.{has_escape};
ghost use Rattle.ansi_str.specs.Parts.{all_parts};
ghost use Rattle.ansi_str.specs.Blocks.{Block, blocks};
ghost use Rattle.ansi_str.specs.States.{rendition_of};
ghost use Rattle.ansi_str.specs.Written.{close_if_any};
ghost use Rattle.ansi_text_calls.specs.Answers.{out_of_memory};
ghost use Rattle.ansi_text_calls.specs.Lists.{none, ends_from, AreEntries};
ghost use Rattle.ansi_text_calls.specs.Lists.{IsBlockEntry, styled_text, IsStyledBlockEntry};
ghost use Rattle.ansi_text_calls.specs.Lists.{whole_block, given_bytes, AreCopied};
ghost use Rattle.ansi_text_calls.specs.Lists.{AreWritten, AreCopiedSoFar, Copies, Fit};
ghost use Rattle.ansi_text_calls.specs.Lists.{IsCountWithoutRoom, GivesAll, HaveFailed};
ghost use Rattle.ansi_text_calls.specs.Calls.{Splits, ListsAs, ListsBlocks, ListsStyledBlocks};

use crate::answers::{NOT_UTF8, OK, OUT_OF_MEMORY, TOO_SMALL};
use crate::parts::write_few_parts;
use ansi_safe::utf8::from_utf8;
use ansi_str::split::{PushNext, split_in};
use ansi_str::{AnsiBlock, AnsiStr, get_blocks, laws};
use ansi_style::numbers::StyleNumbers;
use ansi_style::state::Style;
use ansi_style::styles;
use memchr::memchr_iter;
use std::alloc::{AllocError, Allocator};
use std::borrow::CowStr;

/// The result of a call that returns several texts: a status, their number, and their total length
/// in bytes.
#[repr(C)]
#[derive(Clone, Copy)]
pub struct ListAnswer {
    pub status: u32,
    pub count: usize,
    pub len: usize,
}

impl ListAnswer {
    /// The result of a call that wrote nothing.
    pub fn failed(status: u32) -> ListAnswer
        ensures { result ≡ none status }
    {
        ListAnswer {
            status,
            count: 0,
            len: 0,
        }
    }
}

/// An entry for a block: where its text ends in the text of all blocks, and its style.
#[repr(C)]
#[derive(Clone, Copy)]
pub struct BlockEntry {
    pub end: usize,
    pub style: StyleNumbers,
}

/// An entry for a block between the start and the close of its style: where its text begins and
/// ends, where the close ends, and its style.
#[repr(C)]
#[derive(Clone, Copy)]
pub struct StyledBlockEntry {
    pub text_start: usize,
    pub text_end: usize,
    pub end: usize,
    pub style: StyleNumbers,
}

/// An entry for a block of a list, which says what is written of the block.
trait Listed: Copy {
    ghost text: { Block → List ℕ };

    ghost IsEntry: { ℕ → ℕ → Block → Self → Type 0 };

    /// The entry of a block that is a whole text without ESC of this length.
    fn alone(len: usize) -> Self
        ensures { (t : List ℕ) → length t ≡ len → IsEntry 0 len (whole_block t) result };

    /// Appends what is written of a block, and returns its entry.
    fn push<A: Allocator>(
        texts: &mut String<A>,
        block: &AnsiBlock<'_, A>,
    ) -> Result<Self, AllocError>
        ensures bytes { OnOk result
            (string_bytes texts.new ≡ string_bytes texts.old ++ text block.now) }
        ensures entry { IfOk result (λ e. IsEntry (length (string_bytes texts.old))
            (length (string_bytes texts.new)) block.now e) };

    ghost stays: { (t : List ℕ) → text (whole_block t) ≡ t };
}

impl Listed for BlockEntry {
    ghost text = { λ b. b.text };

    ghost IsEntry = { IsBlockEntry };

    ghost stays = { λ t. refl };

    fn alone(len: usize) -> BlockEntry {
        BlockEntry {
            end: len,
            style: StyleNumbers::of(&styles::plain_style()),
        }
    }

    fn push<A: Allocator>(
        texts: &mut String<A>,
        block: &AnsiBlock<'_, A>,
    ) -> Result<BlockEntry, AllocError> {
        let style = StyleNumbers::of(block.style());
        texts.push_str(block.text())?;
        Ok(BlockEntry {
            end: texts.len(),
            style,
        })
    }
}

impl Listed for StyledBlockEntry {
    ghost text = { styled_text };

    ghost IsEntry = { IsStyledBlockEntry };

    ghost stays = { λ t. append-nil t };

    fn alone(len: usize) -> StyledBlockEntry {
        StyledBlockEntry {
            text_start: 0,
            text_end: len,
            end: len,
            style: StyleNumbers::of(&styles::plain_style()),
        }
    }

    fn push<A: Allocator>(
        texts: &mut String<A>,
        block: &AnsiBlock<'_, A>,
    ) -> Result<StyledBlockEntry, AllocError> {
        let style = block.style();
        styles::write_start(style, texts)?;
        let text_start = texts.len();
        texts.push_str(block.text())?;
        let text_end = texts.len();
        push_close(texts, style)?;
        Ok(StyledBlockEntry {
            text_start,
            text_end,
            end: texts.len(),
            style: StyleNumbers::of(style),
        })
    }
}

/// Appends the sequences that reset a style.
pub(crate) fn push_close<A: Allocator>(
    texts: &mut String<A>,
    style: &Style,
) -> Result<(), AllocError>
    ensures { OnOk result (string_bytes texts.new
        ≡ string_bytes texts.old ++ close_if_any (rendition_of style.now)) }
{
    if !styles::has_any(style) {
        return Ok(());
    }
    styles::write_close(style, texts)
}

/// All parts of a text between the matches of a pattern, and where each ends.
pub fn split<A: Allocator + Copy>(
    alloc: A,
    text: &[u8],
    pattern: &[u8],
    buffer: &mut [u8],
    ends: &mut [usize],
) -> ListAnswer
    ensures { Splits text.now pattern.now result buffer.old buffer.new ends.old ends.new }
{
    let Ok(text) = from_utf8(text) else {
        return ListAnswer::failed(NOT_UTF8);
    };
    let Ok(pat) = from_utf8(pattern) else {
        return ListAnswer::failed(NOT_UTF8);
    };
    if !text.ansi_has_any() {
        return write_bare_parts(alloc, text, pat, buffer, ends);
    }
    if let Some(answer) = write_few_parts(alloc, text, pat, buffer, ends) {
        return answer;
    }
    write_texts(alloc, text.len(), split_in(alloc, text, pat), buffer, ends)
}

/// All blocks of a text, and for each where it ends and its style.
pub fn blocks<A: Allocator + Copy>(
    alloc: A,
    text: &[u8],
    buffer: &mut [u8],
    entries: &mut [BlockEntry],
) -> ListAnswer
    ensures { ListsBlocks text.now result buffer.old buffer.new entries.old entries.new }
{
    write_blocks(alloc, text, buffer, entries)
}

/// All blocks of a text, each between the start and the close of its style; and for each where
/// these are and its style.
pub fn styled_blocks<A: Allocator + Copy>(
    alloc: A,
    text: &[u8],
    buffer: &mut [u8],
    entries: &mut [StyledBlockEntry],
) -> ListAnswer
    ensures { ListsStyledBlocks text.now result buffer.old buffer.new entries.old entries.new }
{
    write_blocks(alloc, text, buffer, entries)
}

/// Writes the parts of a text without ESC, and where each ends, if there is room for all of them.
/// Doesn't allocate.
fn write_bare_parts<A: Allocator + Copy>(
    alloc: A,
    text: &str,
    pat: &str,
    buffer: &mut [u8],
    ends: &mut [usize],
) -> ListAnswer
    requires { IsFalse (has_escape text.now) }
    ensures { AreWritten (flat_map (λ p. p) (all_parts text.now pat.now))
        (ends_from 0 (all_parts text.now pat.now)) result buffer.old buffer.new ends.old ends.new }
{
    laws::bare_texts_are_std();
    laws::parts_lie_between_matches();
    let copy = |buffer: &mut [u8], ends: &mut [usize]| copy_bare_parts(
        alloc, text, pat, buffer, ends,
    );
    write_copied(text.len(), text.len() + 2, copy, buffer, ends)
}

/// Writes the texts that a function copies, and where each ends, if there is room for all of them.
/// They are at most `most` texts of `most_bytes` bytes together, and are counted first if these
/// might not fit.
pub fn write_copied<F: Fn(&mut [u8], &mut [usize]) -> (usize, usize)>(
    most_bytes: usize,
    most: usize,
    copy: F,
    buffer: &mut [u8],
    ends: &mut [usize],
) -> ListAnswer
    requires { F.IsAlwaysCallable copy }
    ensures { (texts : List (List ℕ)) → Copies (F.post copy) texts → Fit texts most_bytes most →
        AreWritten (flat_map (λ t. t) texts) (ends_from 0 texts) result buffer.old buffer.new
        ends.old ends.new }
{
    let (bytes, places) = (buffer.len(), ends.len());
    if let Some((count, len)) = count_without_room(most_bytes, most, &copy, bytes, places) {
        return ListAnswer {
            status: TOO_SMALL,
            count,
            len,
        };
    }
    let (count, len) = copy(buffer, ends);
    ListAnswer {
        status: OK,
        count,
        len,
    }
}

/// The number of the texts that a function copies and their total length, if they don't fit into
/// `bytes` bytes or `ends` ends. `None` if they fit. They are counted only if they might not fit.
fn count_without_room<F: Fn(&mut [u8], &mut [usize]) -> (usize, usize)>(
    most_bytes: usize,
    most: usize,
    copy: &F,
    bytes: usize,
    ends: usize,
) -> Option<(usize, usize)>
    requires { F.IsAlwaysCallable copy.now }
    ensures { (texts : List (List ℕ)) → Copies (F.post copy.now) texts → Fit texts most_bytes most →
        IfNone result (Fit texts bytes ends)
        × IfSome result (λ r. IsCountWithoutRoom texts bytes ends r) }
{
    if most_bytes <= bytes && most <= ends {
        return None;
    }
    let (count, len) = copy(&mut [], &mut []);
    if len > bytes || count > ends {
        Some((count, len))
    } else {
        None
    }
}

/// Writes the parts of a text without ESC, and where each ends, as far as there is room. Returns
/// their number and their total length.
fn copy_bare_parts<A: Allocator + Copy>(
    alloc: A,
    text: &str,
    pat: &str,
    buffer: &mut [u8],
    ends: &mut [usize],
) -> (usize, usize)
    requires { IsFalse (has_escape text.now) }
    ensures { AreCopied (all_parts text.now pat.now) result buffer.old buffer.new ends.old
        ends.new }
{
    laws::bare_texts_are_std();
    laws::parts_lie_between_matches();
    if let [byte] = pat.as_bytes() {
        return copy_around_byte(text, *byte, buffer, ends);
    }
    copy_texts(split_in(alloc, text, pat), buffer, ends)
}

/// The same for a pattern of one byte. One iterator finds all of its places, which is quicker
/// than a search for each.
fn copy_around_byte(text: &str, byte: u8, buffer: &mut [u8], ends: &mut [usize]) -> (usize, usize)
    requires bare { IsFalse (has_escape text.now) }
    requires pattern { IsUtf8 (byte ∷ []) }
    ensures { AreCopied (all_parts text.now (byte ∷ [])) result buffer.old buffer.new ends.old
        ends.new }
{
    laws::bare_texts_are_std();
    laws::parts_lie_between_matches();
    let bytes = text.as_bytes();
    let mut copied = (0, 0);
    let mut start = 0;
    for place in memchr_iter(byte, bytes) {
        copied = put_text(&bytes[start..place], copied, buffer, ends);
        start = place + 1;
    }
    put_text(&bytes[start..], copied, buffer, ends)
}

/// Writes the texts of an iterator that doesn't allocate, and where each ends, as far as there is
/// room. Returns their number and their total length.
pub fn copy_texts<'t, A: Allocator, I: Iterator<Item = Result<CowStr<'t, A>, AllocError>> + Drop>(
    given: I,
    buffer: &mut [u8],
    ends: &mut [usize],
) -> (usize, usize)
    requires can { I.can_next given }
    requires ends { IsFinite (I.remaining given) }
    requires fits { HoldsAlong I.next_gives given (λ xs. All IsOk xs
        × (length (flat_map (λ t. t) (map given_bytes xs)) < 2 ^ 64) × (length xs < 2 ^ 64)) }
    ensures { (xs : List (Result (CowStr A) AllocError)) × Drains I.next_gives given xs
        × AreCopied (map given_bytes xs) result buffer.old buffer.new ends.old ends.new }
{
    let mut copied = (0, 0);
    for text in given {
        copied = put_text(text.unwrap().as_bytes(), copied, buffer, ends);
    }
    copied
}

/// Writes one text more after those that are copied, and where it ends, as far as there is room.
/// Returns their number and their total length.
#[inline(always)]
fn put_text(
    text: &[u8],
    copied: (usize, usize),
    buffer: &mut [u8],
    ends: &mut [usize],
) -> (usize, usize)
    requires count { copied.0 + 1 < 2 ^ 64 }
    requires len { copied.1 + length text.now < 2 ^ 64 }
    ensures { (texts : List (List ℕ)) (first : List ℕ) (first_ends : List ℕ) →
        AreCopiedSoFar texts copied first buffer.old first_ends ends.old →
        AreCopiedSoFar (texts ++ text.now ∷ []) result first buffer.new first_ends ends.new }
{
    let (count, len) = copied;
    let len = put(text, len, buffer);
    let count = put(&[len], count, ends);
    (count, len)
}

/// Copies items to a place in a slice, if there is room for them. Returns the place after them.
pub fn put<T: Copy>(items: &[T], place: usize, slots: &mut [T]) -> usize
    requires { place + length items.now < 2 ^ 64 }
    ensures slots { place + length items.now ≤ length slots.old →
        slots.new ≡ take place slots.old ++ items.now ++ drop (place + length items.now) slots.old }
    ensures same_len { length slots.new ≡ length slots.old }
    ensures after { result ≡ place + length items.now }
{
    let after = place + items.len();
    if after <= slots.len() {
        slots[place..after].copy_from_slice(items);
    }
    after
}

/// Writes all blocks of a text, and an entry for each.
fn write_blocks<T: Listed, A: Allocator + Copy>(
    alloc: A,
    text: &[u8],
    buffer: &mut [u8],
    entries: &mut [T],
) -> ListAnswer
    requires { FitsInMemory T.row }
    ensures { ListsAs T.text T.IsEntry text.now result buffer.old buffer.new entries.old
        entries.new }
{
    let Ok(text) = from_utf8(text) else {
        return ListAnswer::failed(NOT_UTF8);
    };
    if !text.ansi_has_any() {
        return write_one_block(text, &[T::alone(text.len())], buffer, entries);
    }
    write_joined(join_blocks(alloc, text), buffer, entries)
}

/// Writes a text without ESC, which is one block, and its entry. An empty text has no block and no
/// entry.
fn write_one_block<T: Copy>(
    text: &str,
    entry: &[T],
    buffer: &mut [u8],
    entries: &mut [T],
) -> ListAnswer
    ensures { AreWritten text.now (if length text.now == 0 then [] else entry.now) result buffer.old
        buffer.new entries.old entries.new }
{
    let entry = if text.is_empty() { &[] } else { entry };
    write_list(text.as_bytes(), entry, buffer, entries)
}

/// Writes the texts that are left, concatenated, and where each ends, or reports out of memory.
/// Reserves `room` bytes at once.
pub fn write_texts<P: PushNext + Drop, A: Allocator + Copy>(
    alloc: A,
    room: usize,
    given: P,
    buffer: &mut [u8],
    ends: &mut [usize],
) -> ListAnswer
    ensures { GivesAll true (flat_map (λ t. t) (map (λ p. p.bytes) (P.left given)))
        (ends_from 0 (map (λ p. p.bytes) (P.left given))) result buffer.old buffer.new ends.old
        ends.new }
{
    write_joined(join_texts(alloc, room, given), buffer, ends)
}

/// The number of ends that have room at first.
const FEW: usize = 16;

/// The texts that are left, concatenated, and where each ends. Reserves `room` bytes at once.
fn join_texts<P: PushNext + Drop, A: Allocator + Copy>(
    alloc: A,
    room: usize,
    given: P,
) -> Result<(String<A>, Vec<usize, A>), AllocError>
    ensures texts { IfOk result (λ joined. string_bytes joined.0
        ≡ flat_map (λ t. t) (map (λ p. p.bytes) (P.left given))) }
    ensures ends { IfOk result (λ joined. joined.1.items
        ≡ ends_from 0 (map (λ p. p.bytes) (P.left given))) }
{
    let texts = String::with_capacity(alloc, room)?;
    let ends = Vec::with_capacity(alloc, FEW)?;
    push_texts(texts, ends, given)
}

/// Appends the texts that are left to others, and where each ends.
pub(crate) fn push_texts<P: PushNext + Drop, A: Allocator + Copy>(
    mut texts: String<A>,
    mut ends: Vec<usize, A>,
    given: P,
) -> Result<(String<A>, Vec<usize, A>), AllocError>
    ensures texts { IfOk result (λ joined. string_bytes joined.0 ≡ string_bytes texts
        ++ flat_map (λ t. t) (map (λ p. p.bytes) (P.left given))) }
    ensures ends { IfOk result (λ joined. joined.1.items ≡ ends.items
        ++ ends_from (length (string_bytes texts)) (map (λ p. p.bytes) (P.left given))) }
{
    let mut left = given;
    'texts: while let Some(pushed) = left.push_next(&mut texts) {
        pushed?;
        ends.push(texts.len())?;
    }
    Ok((texts, ends))
}

/// What is written of the blocks of a text, concatenated, and an entry for each.
fn join_blocks<T: Listed, A: Allocator + Copy>(
    alloc: A,
    text: &str,
) -> Result<(String<A>, Vec<T, A>), AllocError>
    ensures texts { IfOk result (λ joined.
        string_bytes joined.0 ≡ flat_map T.text (blocks text.now)) }
    ensures entries { IfOk result (λ joined.
        AreEntries T.text T.IsEntry 0 (blocks text.now) joined.1.items) }
{
    let mut texts = String::with_capacity(alloc, text.len())?;
    let mut entries = Vec::new(alloc);
    for block in get_blocks(alloc, text) {
        let block = block?;
        let entry = T::push(&mut texts, &block)?;
        entries.push(entry)?;
    }
    Ok((texts, entries))
}

/// Writes concatenated texts and their entries, or reports out of memory.
pub(crate) fn write_joined<T: Copy, A: Allocator>(
    joined: Result<(String<A>, Vec<T, A>), AllocError>,
    buffer: &mut [u8],
    entries: &mut [T],
) -> ListAnswer
    ensures { MatchResult joined
        (λ joined. AreWritten (string_bytes joined.0) joined.1.items result buffer.old buffer.new
        entries.old entries.new)
        (λ e. HaveFailed out_of_memory result buffer.old buffer.new entries.old entries.new) }
{
    match joined {
        Ok((texts, their_entries)) => {
            write_list(texts.as_bytes(), their_entries.as_slice(), buffer, entries)
        }
        Err(_) => ListAnswer::failed(OUT_OF_MEMORY),
    }
}

/// Writes concatenated texts at the front of one buffer and their entries at the front of another,
/// if there is room for both.
pub fn write_list<T: Copy>(
    texts: &[u8],
    their_entries: &[T],
    buffer: &mut [u8],
    entries: &mut [T],
) -> ListAnswer
    ensures { AreWritten texts.now their_entries.now result buffer.old buffer.new entries.old
        entries.new }
{
    let count = their_entries.len();
    let len = texts.len();
    if len > buffer.len() || count > entries.len() {
        return ListAnswer {
            status: TOO_SMALL,
            count,
            len,
        };
    }
    buffer[..len].copy_from_slice(texts);
    entries[..count].copy_from_slice(their_entries);
    ListAnswer {
        status: OK,
        count,
        len,
    }
}
