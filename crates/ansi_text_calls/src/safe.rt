//! Calls of safe output: two make a text safe, and one returns whether it is.
ghost use Rattle.std.specs.Prelude.{◌≡◌, Some};
ghost use Rattle.ansi_text_calls.specs.Safe.{rest_of, links_of, policy_of, GivesSanitized, Sanitizes};
ghost use Rattle.ansi_text_calls.specs.Safe.{GivesSanitizedBytes, SanitizesBytes, TestsSafe};

use crate::answers::{Answer, NOT_UTF8, OUT_OF_MEMORY, REFUSED, write_text};
use ansi_safe::policy::{Links, Policy, Rest};
use ansi_safe::safe;
use ansi_safe::utf8::from_utf8;
use std::alloc::Allocator;

const DROP: u32 = 0;

const SHOW: u32 = 1;

const REMOVE: u32 = 0;

const KEEP: u32 = 1;

/// The text made safe, under the policy with these numbers. The call is refused if there is no such
/// policy.
#[tactic(auto, unfolding(crate::specs::Safe::GivesSanitized))]
pub fn sanitize<A: Allocator>(
    alloc: A,
    text: &[u8],
    rest: u32,
    links: u32,
    buffer: &mut [u8],
) -> Answer
    ensures { Sanitizes text.now rest links result buffer.old buffer.new }
{
    let Ok(text) = from_utf8(text) else {
        return Answer::failed(NOT_UTF8);
    };
    match policy_of(rest, links) {
        Some(policy) => sanitize_text(alloc, text, policy, buffer),
        None => Answer::failed(REFUSED),
    }
}

/// The same for a text that is known to be UTF-8.
#[tactic(auto, unfolding(crate::specs::Safe::GivesSanitized))]
fn sanitize_text<A: Allocator>(alloc: A, text: &str, policy: Policy, buffer: &mut [u8]) -> Answer
    ensures { GivesSanitized text.now (Some policy) result buffer.old buffer.new }
{
    write_text(safe::sanitize(alloc, text, policy), buffer)
}

/// The text of bytes made safe, under the policy with these numbers. First U+FFFD takes the place
/// of each sequence of bytes that isn't UTF-8, as in std's `from_utf8_lossy`. The call is refused
/// if there is no such policy.
#[tactic(auto, unfolding(crate::specs::Safe::GivesSanitizedBytes))]
pub fn sanitize_bytes<A: Allocator + Copy>(
    alloc: A,
    bytes: &[u8],
    rest: u32,
    links: u32,
    buffer: &mut [u8],
) -> Answer
    ensures { SanitizesBytes bytes.now rest links result buffer.old buffer.new }
{
    let Some(policy) = policy_of(rest, links) else {
        return Answer::failed(REFUSED);
    };
    sanitize_decoded(alloc, bytes, policy, buffer)
}

/// The same under a policy. Bytes that are UTF-8 are read where they are.
fn sanitize_decoded<A: Allocator + Copy>(
    alloc: A,
    bytes: &[u8],
    policy: Policy,
    buffer: &mut [u8],
) -> Answer
    ensures { GivesSanitizedBytes bytes.now (Some policy) result buffer.old buffer.new }
{
    if let Ok(text) = from_utf8(bytes) {
        return sanitize_text(alloc, text, policy, buffer);
    }
    match String::from_utf8_lossy(alloc, bytes) {
        Ok(text) => sanitize_text(alloc, text.as_str(), policy, buffer),
        Err(_) => Answer::failed(OUT_OF_MEMORY),
    }
}

/// Whether the text is safe. The call is refused if there is no such choice about links.
pub fn is_safe(text: &[u8], links: u32) -> Answer
    ensures { TestsSafe text.now links result }
{
    let Ok(text) = from_utf8(text) else {
        return Answer::failed(NOT_UTF8);
    };
    match links_of(links) {
        Some(links) => Answer::told(safe::is_safe(text, links)),
        None => Answer::failed(REFUSED),
    }
}

/// The policy with these numbers, or `None` if there is none.
fn policy_of(rest: u32, links: u32) -> Option<Policy>
    ensures { result ≡ policy_of (rest_of rest) (links_of links) }
{
    let rest = rest_of(rest)?;
    let links = links_of(links)?;
    Some(Policy { rest, links })
}

/// What is made of what is unsafe, by its number, or `None` if there is none.
fn rest_of(number: u32) -> Option<Rest>
    ensures { result ≡ rest_of number }
{
    match number {
        DROP => Some(Rest::Drop),
        SHOW => Some(Rest::Show),
        _ => None,
    }
}

/// What is made of links, by its number, or `None` if there is none.
fn links_of(number: u32) -> Option<Links>
    ensures { result ≡ links_of number }
{
    match number {
        REMOVE => Some(Links::Remove),
        KEEP => Some(Links::Keep),
        _ => None,
    }
}
