//! The front of a text up to a byte that isn't in a set. Most texts are made of printable ASCII,
//! which each set has, and they are read 16 or 64 bytes at a time, without decoding.
ghost use Rattle.std.specs.Prelude.{◌≡◌, ◌≤◌, ◌++◌, length, take, chars, IsTrue, true};
ghost use Rattle.std.specs.List.{list_all, prefix_len};
ghost use Rattle.std.specs.Str.{IsUtf8};
ghost use Rattle.ansi_safe.specs.Safe.{is_printable_byte, is_ordinary_byte, is_in};

use std::simd::prelude::*;

/// A set of bytes.
#[derive(Clone, Copy)]
pub(crate) enum ByteSet {
    /// Printable ASCII.
    Printable,
    /// The bytes of ordinary characters. TAB and LF are ordinary if `white` is set.
    Ordinary { white: bool },
}

/// A text as the ordinary characters that it begins with, and what follows. TAB and LF are ordinary
/// if `white` is set.
#[inline(always)]
pub(crate) fn split_ordinary(text: &str, white: bool) -> (&str, &str)
    ensures spelled { text.now ≡ result.0.now ++ result.1.now }
    ensures chars { chars text.now ≡ chars result.0.now ++ chars result.1.now }
    ensures ordinary { IsTrue (list_all (is_ordinary_byte white) result.0.now) }
    ensures utf8 { IsUtf8 result.0.now }
{
    text.split_at(ordinary_len(text.as_bytes(), white))
}

/// How many bytes of ordinary characters are at the front.
#[inline(always)]
fn ordinary_len(bytes: &[u8], white: bool) -> usize
    ensures { result ≡ prefix_len (is_ordinary_byte white) bytes.now }
{
    if white {
        ordinary_len_of_lines(bytes)
    } else {
        front_len(bytes, ByteSet::Ordinary { white: false })
    }
}

/// How many bytes of ordinary characters, TAB and LF are at the front. Lines of printable ASCII are
/// read 64 bytes at a time, after a first block of 16: another character often comes soon.
#[inline(always)]
fn ordinary_len_of_lines(bytes: &[u8]) -> usize
    ensures { result ≡ prefix_len (is_ordinary_byte true) bytes.now }
{
    let set = ByteSet::Ordinary { white: true };
    if bytes.len() < 16 {
        return front_len_by_byte(bytes, set);
    }
    let front = front_len_of_16(bytes, set);
    if front < 16 {
        return front;
    }
    let mut known = 16;
    while 64 <= bytes.len() - known && are_lines(&bytes[known..]) {
        known += 64;
    }
    front_len_from(bytes, known, set)
}

/// Whether the first 64 bytes are printable ASCII and LF.
#[inline(always)]
fn are_lines(bytes: &[u8]) -> bool
    requires { 64 ≤ length bytes.now }
    ensures { result ≡ true → prefix_len (is_ordinary_byte true) (take 64 bytes.now) ≡ 64 }
{
    // Printable ASCII is A1 to FF then, and LF is 8B.
    let block = u8x64::from_slice(bytes) + u8x64::splat(0x81);
    let others = block.simd_lt(u8x64::splat(0xA1)) & block.simd_ne(u8x64::splat(0x8B));
    others.to_bitmask() == 0
}

/// How many bytes at the front are in the set.
#[inline(always)]
pub(crate) fn front_len(bytes: &[u8], set: ByteSet) -> usize
    ensures { result ≡ prefix_len (is_in set) bytes.now }
{
    front_len_from(bytes, 0, set)
}

/// How many bytes at the front are in the set, if the first `known` bytes are. They are read 16 at a
/// time, and the last 16 may overlap those before.
#[inline(always)]
fn front_len_from(bytes: &[u8], known: usize, set: ByteSet) -> usize
    requires { known ≤ prefix_len (is_in set) bytes.now }
    ensures { result ≡ prefix_len (is_in set) bytes.now }
{
    let len = bytes.len();
    if len < 16 {
        return front_len_by_byte(bytes, set);
    }
    let mut at = known;
    while at < len {
        let start = at.min(len - 16);
        let front = front_len_of_16(&bytes[start..], set);
        if front < 16 {
            return start + front;
        }
        at = start + 16;
    }
    len
}

/// How many bytes at the front are in the set, looked at one by one.
#[inline(always)]
fn front_len_by_byte(bytes: &[u8], set: ByteSet) -> usize
    ensures len { result ≡ prefix_len (is_in set) bytes.now }
    ensures bound { result ≤ length bytes.now }
{
    bytes.iter().take_while(|b| is_in(**b, set)).count()
}

/// Whether the byte is in the set.
#[inline(always)]
fn is_in(b: u8, set: ByteSet) -> bool
    ensures { result ≡ is_in set b }
{
    match set {
        ByteSet::Printable => matches!(b, 0x20..=0x7E),
        ByteSet::Ordinary { white } => is_ordinary_byte(b, white),
    }
}

/// Whether the byte is one of an ordinary character.
#[inline(always)]
fn is_ordinary_byte(b: u8, white: bool) -> bool
    ensures { result ≡ is_ordinary_byte white b }
{
    match b {
        0x20..=0x7E => true,
        0x80.. => b != 0xC2 && b != 0xE2,
        _ => white && matches!(b, b'\t' | b'\n'),
    }
}

/// How many bytes of the first 16 are in the set, before any that isn't.
#[inline(always)]
fn front_len_of_16(bytes: &[u8], set: ByteSet) -> usize
    requires { 16 ≤ length bytes.now }
    ensures { result ≡ prefix_len (is_in set) (take 16 bytes.now) }
{
    let printable = printable_len_of_16(bytes);
    match set {
        ByteSet::Ordinary { white } if printable < 16 => ordinary_len_of_16(bytes, white),
        _ => printable,
    }
}

/// How many bytes of printable ASCII the first 16 bytes begin with.
#[inline(always)]
fn printable_len_of_16(bytes: &[u8]) -> usize
    requires { 16 ≤ length bytes.now }
    ensures { result ≡ prefix_len is_printable_byte (take 16 bytes.now) }
{
    let others = (u8x16::from_slice(bytes) - u8x16::splat(0x20))
        .simd_ge(u8x16::splat(0x5F))
        .to_bitmask();
    if others == 0 {
        return 16;
    }
    others.trailing_zeros() as usize
}

/// How many bytes of ordinary characters the first 16 bytes begin with.
#[inline(always)]
fn ordinary_len_of_16(bytes: &[u8], white: bool) -> usize
    requires { 16 ≤ length bytes.now }
    ensures { result ≡ prefix_len (is_ordinary_byte white) (take 16 bytes.now) }
{
    let block = u8x16::from_slice(bytes);
    let printable = (block - u8x16::splat(0x20)).simd_lt(u8x16::splat(0x5F));
    let tab_or_feed = (block - u8x16::splat(b'\t')).simd_lt(u8x16::splat(2 * white as u8));
    let high = block.simd_ge(u8x16::splat(0x80));
    let lead = (block | u8x16::splat(0x20)).simd_eq(u8x16::splat(0xE2));
    let others = (!(printable | tab_or_feed | high) | lead).to_bitmask();
    if others == 0 {
        return 16;
    }
    others.trailing_zeros() as usize
}
