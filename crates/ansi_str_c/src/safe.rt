//! Calls of safe output.
ghost use Rattle.ansi_calls.specs.Safe.{Sanitizes, SanitizesBytes, TestsSafe};

use ansi_calls::answers::Answer;
use ansi_calls::safe::{is_safe, sanitize, sanitize_bytes};
use std::alloc::Global;

/// The text made safe, under the policy with these numbers.
#[unsafe(no_mangle)]
pub extern "C" fn ansi_str_raw_sanitize(
    alloc: Global,
    text: &[u8],
    rest: u32,
    links: u32,
    buffer: &mut [u8],
) -> Answer
    ensures { Sanitizes text.now rest links result buffer.old buffer.new }
{
    sanitize(alloc, text, rest, links, buffer)
}

/// The text of bytes made safe, under the policy with these numbers. What isn't UTF-8 becomes U+FFFD.
#[unsafe(no_mangle)]
pub extern "C" fn ansi_str_raw_sanitize_bytes(
    alloc: Global,
    bytes: &[u8],
    rest: u32,
    links: u32,
    buffer: &mut [u8],
) -> Answer
    ensures { SanitizesBytes bytes.now rest links result buffer.old buffer.new }
{
    sanitize_bytes(alloc, bytes, rest, links, buffer)
}

/// Whether the text is safe.
#[unsafe(no_mangle)]
pub extern "C" fn ansi_str_raw_is_safe(text: &[u8], links: u32) -> Answer
    ensures { TestsSafe text.now links result }
{
    is_safe(text, links)
}
