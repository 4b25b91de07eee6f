//! The tests that bytes are UTF-8, or ASCII. Most texts are short and ASCII, and that is tested first.
ghost use Rattle.std.specs.Prelude.{◌≡◌, ◌<◌, ◌≤◌, ◌↔◌, length, take, MatchResult, IsTrue};
ghost use Rattle.std.specs.Str.{IsAscii, IsUtf8};

/// The error of `from_utf8`: the bytes aren't UTF-8. It doesn't say which byte isn't.
pub use simdutf8::basic::Utf8Error;
use std::str::from_utf8_unchecked;

// The high bit of each byte, which ASCII doesn't have.
const HIGH_BITS_OF_4: u32 = 0x8080_8080;

const HIGH_BITS_OF_8: u64 = 0x8080_8080_8080_8080;

const HIGH_BITS_OF_16: u128 = 0x8080_8080_8080_8080_8080_8080_8080_8080;

/// The bytes as a text, a borrow of them, or `Err` if they aren't UTF-8. Doesn't allocate.
///
/// The error doesn't say which byte isn't UTF-8. (std's `from_utf8`, with a quicker test.)
///
/// ```
/// assert!(rt; from_utf8("né".as_bytes()) == Ok("né") && from_utf8(&[b'n', 0xC3]).is_err());
/// ```
#[inline(always)]
pub fn from_utf8(bytes: &[u8]) -> Result<&str, Utf8Error>
    ensures { MatchResult result (λ text. (text.now ≡ bytes.now) × IsUtf8 bytes.now)
        (λ _. ¬ (IsUtf8 bytes.now)) }
{
    if is_utf8(bytes) {
        Ok(unsafe { from_utf8_unchecked(bytes) })
    } else {
        Err(Utf8Error)
    }
}

/// Whether the bytes are UTF-8. `simdutf8` is as quick on ASCII of more than 128 bytes. Most texts of
/// at most 32 bytes are ASCII, which takes one test.
#[inline(never)]
fn is_utf8(bytes: &[u8]) -> bool
    ensures { IsTrue result ↔ IsUtf8 bytes.now }
{
    let len = bytes.len();
    if len > 128 {
        simdutf8::is_utf8(bytes)
    } else if len > 32 {
        is_utf8_by_16(bytes)
    } else if len >= 16 {
        are_ascii_by_16(bytes) || is_utf8_after_16(bytes)
    } else if len >= 8 {
        are_ascii_by_8(bytes) || is_utf8_after_8(bytes)
    } else {
        len >= 4 && are_ascii_by_4(bytes) || is_utf8_by_1(bytes)
    }
}

/// Whether the bytes are UTF-8. ASCII at the front is read byte by byte.
#[inline(always)]
fn is_utf8_by_1(bytes: &[u8]) -> bool
    ensures { IsTrue result ↔ IsUtf8 bytes.now }
{
    let mut at = 0;
    while at < bytes.len() {
        if bytes[at] >= 0x80 {
            return is_short_utf8(&bytes[at..]);
        }
        at += 1;
    }
    true
}

/// The same of at least 8 bytes. The first 8 may be ASCII.
#[inline(always)]
fn is_utf8_after_8(bytes: &[u8]) -> bool
    requires { 8 ≤ length bytes.now }
    ensures { IsTrue result ↔ IsUtf8 bytes.now }
{
    if begins_ascii_8(bytes) {
        is_short_utf8(&bytes[8..])
    } else {
        is_short_utf8(bytes)
    }
}

/// The same of at least 16 bytes. The first 16 may be ASCII.
#[inline(always)]
fn is_utf8_after_16(bytes: &[u8]) -> bool
    requires { 16 ≤ length bytes.now }
    ensures { IsTrue result ↔ IsUtf8 bytes.now }
{
    if begins_ascii_16(bytes) {
        is_short_utf8(&bytes[16..])
    } else {
        is_short_utf8(bytes)
    }
}

/// The same of at least 16 bytes, 16 at a time. The last 16 may overlap those before.
#[inline(always)]
fn is_utf8_by_16(bytes: &[u8]) -> bool
    requires { 16 ≤ length bytes.now }
    ensures { IsTrue result ↔ IsUtf8 bytes.now }
{
    let mut rest = bytes;
    while 16 < rest.len() {
        if !begins_ascii_16(rest) {
            return is_rest_utf8(rest);
        }
        rest = &rest[16..];
    }
    begins_ascii_16(&bytes[bytes.len() - 16..]) || is_short_utf8(rest)
}

/// Whether the bytes are UTF-8, for bytes that don't begin with 16 of ASCII. Of 32 and more, ASCII at
/// the end isn't tested again. `simdutf8` takes as long on few bytes as on 64.
#[inline(always)]
fn is_rest_utf8(rest: &[u8]) -> bool
    ensures { IsTrue result ↔ IsUtf8 rest.now }
{
    if rest.len() < 32 {
        return is_short_utf8(rest);
    }
    let front = before_ascii_16(rest);
    if front.len() < 32 || is_sparse(front) {
        is_short_utf8(front)
    } else {
        simdutf8::is_utf8(front)
    }
}

/// Whether most of the bytes seem to be ASCII, by a look at two places, and they are fewer than a block
/// of `simdutf8`.
#[inline(always)]
fn is_sparse(bytes: &[u8]) -> bool {
    let len = bytes.len();
    len < 64 && begins_ascii_8(&bytes[len / 4..]) && begins_ascii_8(&bytes[len / 2..])
}

/// Whether the bytes are UTF-8, for bytes few of which aren't ASCII. `std` is quicker for these than
/// `simdutf8`.
#[inline(never)]
fn is_short_utf8(bytes: &[u8]) -> bool
    ensures { IsTrue result ↔ IsUtf8 bytes.now }
{
    std::str::from_utf8(bytes).is_ok()
}

/// The bytes without the ASCII at their end, of which 16 bytes at a time are left out.
#[inline(always)]
fn before_ascii_16(bytes: &[u8]) -> &[u8]
    ensures { IsUtf8 result.now ↔ IsUtf8 bytes.now }
{
    let mut end = bytes.len();
    while 16 <= end && begins_ascii_16(&bytes[end - 16..]) {
        end -= 16;
    }
    &bytes[..end]
}

/// Whether the bytes are ASCII, read 16 or 8 at a time. `false` says nothing. Doesn't allocate. (std's
/// `is_ascii`.)
///
/// ```
/// assert!(rt; is_ascii("\x1b[1mdisk".as_bytes()) && !is_ascii("né".as_bytes()));
/// ```
#[inline(always)]
pub fn is_ascii(bytes: &[u8]) -> bool
    ensures { IsTrue result → IsAscii bytes.now }
{
    match bytes.len() {
        0..=7 => is_ascii_by_1(bytes),
        8..=15 => begins_ascii_8(bytes) && begins_ascii_8(&bytes[bytes.len() - 8..]),
        _ => is_ascii_by_16(bytes),
    }
}

/// The same, byte by byte.
#[inline(always)]
fn is_ascii_by_1(bytes: &[u8]) -> bool
    ensures { IsTrue result → IsAscii bytes.now }
{
    let mut at = 0;
    while at < bytes.len() {
        if bytes[at] >= 0x80 {
            return false;
        }
        at += 1;
    }
    true
}

/// The same of at least 16 bytes, 16 at a time. The last 16 may overlap those before.
#[inline(always)]
fn is_ascii_by_16(bytes: &[u8]) -> bool
    requires { 16 ≤ length bytes.now }
    ensures { IsTrue result → IsAscii bytes.now }
{
    let mut rest = bytes;
    while 16 < rest.len() {
        if !begins_ascii_16(rest) {
            return false;
        }
        rest = &rest[16..];
    }
    begins_ascii_16(&bytes[bytes.len() - 16..])
}

/// Whether 4 to 8 bytes are ASCII. The first 4 and the last 4, which may overlap, are all of them.
#[inline(always)]
fn are_ascii_by_4(bytes: &[u8]) -> bool
    requires at_least { 4 ≤ length bytes.now }
    requires at_most { length bytes.now ≤ 8 }
    ensures { IsTrue result → IsUtf8 bytes.now }
{
    begins_ascii_4(bytes) & begins_ascii_4(&bytes[bytes.len() - 4..])
}

/// The same of 8 to 16 bytes.
#[inline(always)]
fn are_ascii_by_8(bytes: &[u8]) -> bool
    requires at_least { 8 ≤ length bytes.now }
    requires at_most { length bytes.now ≤ 16 }
    ensures { IsTrue result → IsUtf8 bytes.now }
{
    begins_ascii_8(bytes) & begins_ascii_8(&bytes[bytes.len() - 8..])
}

/// The same of 16 to 32 bytes.
#[inline(always)]
fn are_ascii_by_16(bytes: &[u8]) -> bool
    requires at_least { 16 ≤ length bytes.now }
    requires at_most { length bytes.now ≤ 32 }
    ensures { IsTrue result → IsUtf8 bytes.now }
{
    begins_ascii_16(bytes) & begins_ascii_16(&bytes[bytes.len() - 16..])
}

/// Whether there are 4 bytes at the front, and they are ASCII.
#[inline(always)]
fn begins_ascii_4(bytes: &[u8]) -> bool
    ensures { IsTrue result → IsAscii (take 4 bytes.now) }
{
    match bytes.first_chunk::<4>() {
        Some(front) => u32::from_le_bytes(*front) & HIGH_BITS_OF_4 == 0,
        None => false,
    }
}

/// Whether there are 8 bytes at the front, and they are ASCII.
#[inline(always)]
fn begins_ascii_8(bytes: &[u8]) -> bool
    ensures { IsTrue result → IsAscii (take 8 bytes.now) }
{
    match bytes.first_chunk::<8>() {
        Some(front) => u64::from_le_bytes(*front) & HIGH_BITS_OF_8 == 0,
        None => false,
    }
}

/// Whether there are 16 bytes at the front, and they are ASCII.
#[inline(always)]
fn begins_ascii_16(bytes: &[u8]) -> bool
    ensures { IsTrue result → IsAscii (take 16 bytes.now) }
{
    match bytes.first_chunk::<16>() {
        Some(front) => u128::from_le_bytes(*front) & HIGH_BITS_OF_16 == 0,
        None => false,
    }
}
