//! The result of a call, and how a call writes into the caller's buffer.
ghost use Rattle.std.specs.Prelude.{◌≡◌, option_map, MatchResult, string_bytes};
ghost use Rattle.std.specs.Cow.{cow_str_bytes};
ghost use Rattle.ansi_text_calls.specs.Answers.{done, failed, told, out_of_memory, HasFailed};
ghost use Rattle.ansi_text_calls.specs.Answers.{IsWritten, IsFound};

use std::alloc::{AllocError, Allocator};
use std::borrow::CowStr;

/// The call succeeded, or its test holds.
pub const OK: u32 = 0;
/// The test doesn't hold, or what was asked for doesn't exist.
pub const NO: u32 = 1;
/// A position is bad, or an edit is refused.
pub const REFUSED: u32 = 2;
/// A text or a pattern isn't UTF-8.
pub const NOT_UTF8: u32 = 3;
/// The buffer is too small.
pub const TOO_SMALL: u32 = 4;
/// Out of memory.
pub const OUT_OF_MEMORY: u32 = 5;

/// The result of a call: a status, and the length in bytes of what was written or found. If the
/// buffer is too small, it is the length needed.
#[repr(C)]
#[derive(Clone, Copy)]
pub struct Answer {
    pub status: u32,
    pub len: usize,
}

impl Answer {
    /// The result of a call that succeeded.
    pub fn done(len: usize) -> Answer
        ensures { result ≡ done len }
    {
        Answer { status: OK, len }
    }

    /// The result of a call that wrote nothing.
    pub fn failed(status: u32) -> Answer
        ensures { result ≡ failed status }
    {
        Answer { status, len: 0 }
    }

    /// The result of a test.
    pub fn told(is_so: bool) -> Answer
        ensures { result ≡ told is_so }
    {
        Answer::failed(if is_so { OK } else { NO })
    }
}

/// Writes a text at the front of a buffer, if there is room for it.
pub fn write(text: &[u8], buffer: &mut [u8]) -> Answer
    ensures { IsWritten text.now result buffer.old buffer.new }
{
    let len = text.len();
    if len > buffer.len() {
        return Answer {
            status: TOO_SMALL,
            len,
        };
    }
    buffer[..len].copy_from_slice(text);
    Answer::done(len)
}

/// Writes a text that was made from the caller's text, or reports out of memory.
pub fn write_text<A: Allocator>(
    text: Result<CowStr<'_, A>, AllocError>,
    buffer: &mut [u8],
) -> Answer
    ensures { MatchResult text.entry
        (λ text. IsWritten (cow_str_bytes text) result buffer.old buffer.new)
        (λ e. HasFailed out_of_memory result buffer.old buffer.new) }
{
    match text {
        Ok(text) => write(text.as_bytes(), buffer),
        Err(_) => Answer::failed(OUT_OF_MEMORY),
    }
}

/// Writes a text that was looked for. Returns the status `absent` if there is none, or reports out
/// of memory.
pub fn write_found<A: Allocator>(
    found: Result<Option<CowStr<'_, A>>, AllocError>,
    absent: u32,
    buffer: &mut [u8],
) -> Answer
    ensures { MatchResult found.entry
        (λ found. IsFound absent (option_map cow_str_bytes found) result buffer.old buffer.new)
        (λ e. HasFailed out_of_memory result buffer.old buffer.new) }
{
    match found {
        Ok(Some(text)) => write(text.as_bytes(), buffer),
        Ok(None) => Answer::failed(absent),
        Err(_) => Answer::failed(OUT_OF_MEMORY),
    }
}

/// Writes a text that was made, or reports out of memory.
pub fn write_made<A: Allocator>(made: Result<String<A>, AllocError>, buffer: &mut [u8]) -> Answer
    ensures { MatchResult made
        (λ made. IsWritten (string_bytes made) result buffer.old buffer.new)
        (λ e. HasFailed out_of_memory result buffer.old buffer.new) }
{
    match made {
        Ok(text) => write(text.as_bytes(), buffer),
        Err(_) => Answer::failed(OUT_OF_MEMORY),
    }
}
