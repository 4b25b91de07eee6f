//! Letters of two bytes and printable ASCII, which are clusters of one column beside each other, and
//! ideographs and the like.
ghost use Rattle.std.specs.Prelude.{◌≡◌, ◌<◌, ◌≤◌, length, take, IfSome, slice_range};
ghost use Rattle.std.specs.List.{count_by, prefix_len};
ghost use Rattle.ansi_clusters.specs.Letters.{is_letter_byte, is_first_byte, are_wide_bytes, AreLettersBefore};
ghost use Rattle.ansi_clusters.specs.Letters.{IsPlainSingle, IsPlainFront, IsWideFront, ArePlainBefore, AreWideBefore};

use crate::singles::single_columns;
use crate::walks::{Walk, char_width};
use ansi_safe::printable::printable_len;
use std::simd::prelude::*;

/// The least number of bytes of a run, and of columns that are left, for which a stretch of letters is looked for.
const LEAST: usize = 16;

impl Walk {
    ghost use Rattle.std.specs.Prelude.{◌≤◌, slice_range};
    ghost use Rattle.ansi_clusters.specs.declared.views.View.{View};
    ghost use Rattle.ansi_clusters.specs.Letters.{IsPlainFront};
    ghost use Rattle.ansi_clusters.specs.Walks.{IsWalkIn, IsAnyWalk, IsPastClusters};
    ghost use Rattle.ansi_clusters.specs.Words.{ArePastLetters};

    /// The walk after a stretch of letters, or of kana, ideographs and the like, that comes next in the run,
    /// and their columns, at most `most`. Each of them is a cluster by itself. The last one isn't passed.
    /// There may be none.
    #[inline(always)]
    pub(crate) fn past_stretch(self, text: &str, most: usize) -> (Walk, usize)
        requires { IsAnyWalk text.now self }
        ensures past { (view : View) → IsWalkIn view text.now self →
            IsPastClusters view text.now self result.0 result.1 }
        ensures most { result.1 ≤ most }
    {
        let run = &text[self.offset..self.run_end];
        if !begins_stretch(run.as_bytes(), most) {
            return (self, 0);
        }
        let (len, columns) = stretch_before_last(run, most);
        if len == 0 {
            return (self, 0);
        }
        (self.on(len), columns)
    }

    /// The same for kana, ideographs and the like.
    #[inline(always)]
    pub(crate) fn past_wide(self, text: &str, most: usize) -> (Walk, usize)
        requires { IsAnyWalk text.now self }
        ensures past { (view : View) → IsWalkIn view text.now self →
            ArePastLetters view text.now self result.0 result.1 }
        ensures most { result.1 ≤ most }
    {
        let run = &text[self.offset..self.run_end];
        if !begins_wide(run.as_bytes()) {
            return (self, 0);
        }
        let (len, columns) = wide_before_last(run, most);
        if len == 0 {
            return (self, 0);
        }
        (self.on(len), columns)
    }

    /// The walk before the last of the characters that `plain_front` has found in the run, and the columns of
    /// those before it. Each of them is a cluster by itself.
    pub fn past_plain(self, text: &str, len: usize, columns: usize) -> (Walk, usize)
        requires walk { IsAnyWalk text.now self }
        requires front { IsPlainFront (slice_range text.now self.offset self.run_end) len columns }
        ensures { (view : View) → IsWalkIn view text.now self →
            IsPastClusters view text.now self result.0 result.1 }
    {
        let run = &text[self.offset..self.run_end];
        let mut chars = run[..len].chars();
        let Some(last) = chars.next_back() else {
            return (self, 0);
        };
        let front = chars.as_str().len();
        if front == 0 {
            return (self, 0);
        }
        (self.on(front), columns - char_width(last))
    }
}

/// How many bytes of characters that no rule on clusters joins to each other a run begins with, and their
/// columns. Hangul syllables aren't among them.
pub fn plain_front(run: &str) -> (usize, usize)
    ensures { IsPlainFront run.now result.0 result.1 }
{
    let mut at = 0;
    let mut columns = 0;
    'parts: while at < run.len() {
        let (len, more) = plain_part(&run[at..]);
        if len == 0 {
            break;
        }
        at += len;
        columns += more;
    }
    (at, columns)
}

/// The same of one kind: printable ASCII, letters, or other characters up to two of ASCII.
#[inline(always)]
fn plain_part(text: &str) -> (usize, usize)
    ensures { IsPlainFront text.now result.0 result.1 }
{
    match text.as_bytes() {
        [0x20..=0x7E, ..] => {
            let len = printable_len(text.as_bytes());
            (len, len)
        }
        [0xC3..=0xCB | 0xCE..=0xD1, ..] => {
            let len = letters_len(text.as_bytes());
            (len, letter_count(&text[..len]))
        }
        [0xE3..=0xE9, ..] => match wide_front(text, usize::MAX) {
            (0, _) => others_front(text),
            wide => wide,
        },
        _ => others_front(text),
    }
}

/// The same of kana and ideographs, which are known by their bytes, and fit into `most` columns. Each of them
/// has three bytes and two columns.
#[inline(always)]
fn wide_front(text: &str, most: usize) -> (usize, usize)
    ensures plain { IsPlainFront text.now result.0 result.1 }
    ensures before { 0 < result.0 → IsWideFront text.now result.0 result.1 }
    ensures most { result.1 ≤ most }
{
    let bytes = text.as_bytes();
    let mut at = 0;
    let mut columns = 0;
    'characters: while 3 <= bytes.len() - at
        && 2 <= most - columns
        && is_wide(bytes[at], bytes[at + 1], bytes[at + 2])
    {
        at += 3;
        columns += 2;
    }
    (at, columns)
}

/// Whether three bytes are a kana or an ideograph.
#[inline(always)]
fn is_wide(first: u8, second: u8, third: u8) -> bool
    ensures { result ≡ are_wide_bytes first second third }
{
    match (first, second) {
        (0xE4..=0xE9, _) | (0xE3, 0x83 | 0x90..=0xBF) => true,
        (0xE3, 0x80) => matches!(third, 0x81..=0xA9),
        (0xE3, 0x81) => 0x81 <= third,
        (0xE3, 0x82) => third <= 0x96 || 0xA0 <= third,
        _ => false,
    }
}

/// The same of any characters, up to two of ASCII, a kana or an ideograph.
#[inline(always)]
fn others_front(text: &str) -> (usize, usize)
    ensures { IsPlainFront text.now result.0 result.1 }
{
    let mut rest = text;
    let mut columns = 0;
    let mut chars = text.chars();
    'characters: while let Some(c) = chars.next() {
        if c.is_ascii() && matches!(chars.as_str().as_bytes(), [0..=0x7F, ..]) {
            break;
        }
        let Some(width) = plain_columns(c) else {
            break;
        };
        if width == 2 && columns > 0 && matches!(c, '\u{3000}'..='\u{9FFF}') {
            break;
        }
        rest = chars.as_str();
        columns += width;
    }
    (text.len() - rest.len(), columns)
}

/// The columns of a single character that is no Hangul syllable.
#[inline(always)]
fn plain_columns(c: char) -> Option<usize>
    ensures { IfSome result (IsPlainSingle c) }
{
    if matches!(c, '\u{AC00}'..='\u{D7A3}') {
        return None;
    }
    single_columns(c)
}

/// Whether a run seems to begin with a stretch that it pays to look for, if `most` columns are left.
#[inline(always)]
fn begins_stretch(run: &[u8], most: usize) -> bool {
    begins_wide(run) || LEAST <= run.len() && LEAST <= most && begins_letters(run)
}

/// Whether a run begins with two letters.
#[inline(always)]
fn begins_letters(run: &[u8]) -> bool {
    matches!(
        run,
        [0x20..=0x7E, 0xC3..=0xCB | 0xCE..=0xD1, ..]
            | [0xC3..=0xCB | 0xCE..=0xD1, _, 0x20..=0x7E | 0xC3..=0xCB | 0xCE..=0xD1, ..]
    )
}

/// Whether a run seems to begin with four ideographs or the like.
#[inline(always)]
fn begins_wide(run: &[u8]) -> bool {
    12 <= run.len() && matches!(run[0], 0xE3..=0xE9) && matches!(run[9], 0xE3..=0xE9)
}

/// How many bytes of letters, or of kana, ideographs and the like, a text begins with, without the last
/// character, and how many columns those have, at most `most`. (Not inlined, so that loops over other
/// characters keep their registers.)
#[inline(never)]
fn stretch_before_last(text: &str, most: usize) -> (usize, usize)
    ensures stretch { 0 < result.0 →
        ArePlainBefore text.now (take result.0 text.now) result.1 }
    ensures within { result.0 ≤ length text.now }
    ensures most { result.1 ≤ most }
{
    match text.as_bytes() {
        [0xE3..=0xE9, ..] => wide_before_last(text, most),
        _ => letters_before_last(text, most),
    }
}

/// How many bytes of letters a text begins with, without the last letter, and how many letters those are, at
/// most `most`.
#[inline(always)]
fn letters_before_last(text: &str, most: usize) -> (usize, usize)
    ensures letters { 0 < result.0 → AreLettersBefore text.now (take result.0 text.now) }
    ensures count { result.1 ≡ count_by is_first_byte (take result.0 text.now) }
    ensures within { result.0 ≤ length text.now }
    ensures most { result.1 ≤ most }
{
    let near = &text[..text.floor_char_boundary(most)];
    let len = letters_len(near.as_bytes());
    let letters = &near[..len];
    let front = &letters[..letters.floor_char_boundary(len.saturating_sub(1))];
    (front.len(), letter_count(front))
}

/// How many bytes of kana, ideographs and the like a text begins with, without the last character, and how
/// many columns those have, at most `most`.
#[inline(never)]
fn wide_before_last(text: &str, most: usize) -> (usize, usize)
    ensures wide { 0 < result.0 → AreWideBefore text.now (take result.0 text.now) result.1 }
    ensures within { result.0 ≤ length text.now }
    ensures most { result.1 ≤ most }
{
    let (len, columns) = wide_front(text, most.saturating_add(2));
    if len == 0 {
        return (0, 0);
    }
    (len - 3, columns - 2)
}

/// How many bytes of letters are at the front. They are read 16 at a time, and the last 16 may overlap those
/// before.
#[inline(always)]
fn letters_len(bytes: &[u8]) -> usize
    ensures { result ≡ prefix_len is_letter_byte bytes.now }
{
    let len = bytes.len();
    if len < 16 {
        return bytes.iter().take_while(|b| is_letter_byte(**b)).count();
    }
    let mut at = 0;
    while at < len {
        let start = at.min(len - 16);
        let front = letters_len_of_16(&bytes[start..]);
        if front < 16 {
            return start + front;
        }
        at = start + 16;
    }
    len
}

/// Whether the byte is one of a letter.
#[inline(always)]
fn is_letter_byte(b: u8) -> bool
    ensures { result ≡ is_letter_byte b }
{
    matches!(b, 0x20..=0x7E | 0x80..=0xBF | 0xC3..=0xCB | 0xCE..=0xD1)
}

/// How many bytes of letters the first 16 bytes begin with.
#[inline(always)]
fn letters_len_of_16(bytes: &[u8]) -> usize
    requires { 16 ≤ length bytes.now }
    ensures { result ≡ prefix_len is_letter_byte (take 16 bytes.now) }
{
    let block = u8x16::from_slice(bytes);
    let printable = (block - u8x16::splat(0x20)).simd_lt(u8x16::splat(0x5F));
    let further = (block - u8x16::splat(0x80)).simd_lt(u8x16::splat(0x40));
    let latin = (block - u8x16::splat(0xC3)).simd_lt(u8x16::splat(9));
    let greek = (block - u8x16::splat(0xCE)).simd_lt(u8x16::splat(4));
    let others = (!(printable | further | latin | greek)).to_bitmask();
    if others == 0 {
        return 16;
    }
    others.trailing_zeros() as usize
}

/// How many characters letters are. Their bytes are read 16 at a time.
#[inline(always)]
fn letter_count(letters: &str) -> usize
    ensures { result ≡ count_by is_first_byte letters.now }
{
    let bytes = letters.as_bytes();
    let mut count = 0;
    let mut at = 0;
    while 16 <= bytes.len() - at {
        count += firsts_of_16(&bytes[at..]);
        at += 16;
    }
    while at < bytes.len() {
        count += is_first_byte(bytes[at]) as usize;
        at += 1;
    }
    count
}

/// How many of the first 16 bytes are the first of a character.
#[inline(always)]
fn firsts_of_16(bytes: &[u8]) -> usize
    requires { 16 ≤ length bytes.now }
    ensures count { result ≡ count_by is_first_byte (take 16 bytes.now) }
    ensures most { result ≤ 16 }
{
    // The others are 80 to BF, and C0 to FF less C0 is less than C0 too.
    let firsts = (u8x16::from_slice(bytes) - u8x16::splat(0xC0)).simd_lt(u8x16::splat(0xC0));
    firsts.to_bitmask().count_ones() as usize
}

/// Whether the byte is the first of a character.
#[inline(always)]
fn is_first_byte(b: u8) -> bool
    ensures { result ≡ is_first_byte b }
{
    !matches!(b, 0x80..=0xBF)
}
