//! The results of calls of safe output, and of what is open at the end of a text.
use crate::check::Check;
use crate::rows::Row;
use ansi_safe::links::{address_of, pen_after};
use ansi_safe::safe::{is_safe, sanitize};
use ansi_safe::utf8::from_utf8;
use ansi_safe::{AnsiSafe, Links, Policy, Rest};
use ansi_str::AnsiStr;
use std::alloc::Allocator;

#[derive(Clone, Copy)]
pub enum SafeCall {
    Sanitize(Policy),
    IsSafe(Links),
    PenAfter,
}

fn rest_of(word: &str) -> Option<Rest> {
    match word {
        "Drop" => Some(Rest::Drop),
        "Show" => Some(Rest::Show),
        _ => None,
    }
}

fn links_of(word: &str) -> Option<Links> {
    match word {
        "Keep" => Some(Links::Keep),
        "Remove" => Some(Links::Remove),
        _ => None,
    }
}

/// The policy that begins at this argument of a row.
fn policy_at(row: &Row<'_>, place: usize) -> Option<Policy> {
    Some(Policy {
        rest: rest_of(row.argument(place)?)?,
        links: links_of(row.argument(place.saturating_add(1))?)?,
    })
}

impl SafeCall {
    pub fn new(row: &Row<'_>) -> Option<Self> {
        Some(match row.call {
            "sanitize" => SafeCall::Sanitize(policy_at(row, 0)?),
            "is_safe" => SafeCall::IsSafe(links_of(row.argument(0)?)?),
            "pen_after" => SafeCall::PenAfter,
            _ => return None,
        })
    }
}

/// Checks what opens the pen again that is open at the end of a text, the address of its link, and
/// what closes it.
fn check_pen(check: &mut Check<'_>, text: &str) {
    let pen = pen_after(text);
    let link = if is_safe(pen.link, Links::Keep) {
        pen.link
    } else {
        ""
    };
    let start = format!(in check.alloc; "{}{link}", pen.style.start());
    check.written(start);
    let address = address_of(pen.link.as_bytes()).unwrap_or(b"");
    check.text(from_utf8(address).unwrap_or(""));
    let mut end = String::new(check.alloc);
    let written = pen.ending().push_to(&mut end);
    check.written(written.map(|_| end));
}

/// Checks what a call of `AnsiSafe` returns.
pub fn make_safe_call<T: AnsiStr>(check: &mut Check<'_>, text: &T, call: SafeCall) {
    let alloc = check.alloc;
    match call {
        SafeCall::Sanitize(policy) => check.text_or_err(text.ansi_sanitize(alloc, policy)),
        SafeCall::IsSafe(links) => check.test(text.ansi_is_safe(links)),
        SafeCall::PenAfter => check_pen(check, check.row.text),
    }
}

/// Checks what a call returns if it allocates from `heap`. A call without an allocator is made as
/// usual.
pub fn make_safe_call_in<A: Allocator>(check: &mut Check<'_>, heap: A, call: SafeCall) {
    let text = check.row.text;
    match call {
        SafeCall::Sanitize(policy) => check.text_or_err(sanitize(heap, text, policy)),
        SafeCall::IsSafe(_) | SafeCall::PenAfter => make_safe_call(check, &text, call),
    }
}
