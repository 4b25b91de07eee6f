//! What is put in the place of characters that aren't allowed in a safe text.
ghost use Rattle.std.specs.Prelude.{◌≡◌, ◌<◌, ◌≤◌, ◌∷◌, ◌++◌, length, IfOk, OnOk, chars};
ghost use Rattle.std.specs.Prelude.{encode_utf8_all, flat_map, string_bytes};
ghost use Rattle.ansi_safe.specs.declared.policy.Rest.{Rest};
ghost use Rattle.ansi_safe.specs.Sanitized.{hexadecimal, numbered, shown, instead, made_of_run};

use crate::allowed::{is_allowed, is_printing, split_first};
use crate::front::split_ordinary;
use crate::policy::Rest;
use std::alloc::{AllocError, Allocator};

/// Appends what is made of a run. `Err` means out of memory; what was appended before it stays.
pub(crate) fn push_run<A: Allocator>(
    out: &mut String<A>,
    run: &str,
    rest: Rest,
) -> Result<(), AllocError>
    ensures { OnOk result (string_bytes out.new
        ≡ string_bytes out.old ++ encode_utf8_all (made_of_run rest (chars run.now))) }
{
    let mut left = push_ordinary(out, run)?;
    while let Some((c, after)) = split_first(left) {
        push_made(out, c, after, rest)?;
        left = push_ordinary(out, after)?;
    }
    Ok(())
}

/// Appends the ordinary characters that a run begins with, and returns what follows. `Err` means out
/// of memory; what was appended before it stays.
#[inline(always)]
fn push_ordinary<'t, A: Allocator>(out: &mut String<A>, run: &'t str) -> Result<&'t str, AllocError>
    ensures written { IfOk result (λ after. (rest : Rest) →
        string_bytes out.new ++ encode_utf8_all (made_of_run rest (chars after.now))
        ≡ string_bytes out.old ++ encode_utf8_all (made_of_run rest (chars run.entry.now))) }
    ensures shorter { IfOk result (λ after.
        length (chars after.now) ≤ length (chars run.entry.now)) }
{
    let (ordinary, after) = split_ordinary(run, true);
    out.push_str(ordinary)?;
    Ok(after)
}

/// Appends what is made of a character of a run, in front of this text. `Err` means out of memory;
/// what was appended before it stays.
fn push_made<A: Allocator>(
    out: &mut String<A>,
    c: char,
    after: &str,
    rest: Rest,
) -> Result<(), AllocError>
    ensures { OnOk result (
        string_bytes out.new ++ encode_utf8_all (made_of_run rest (chars after.now))
        ≡ string_bytes out.old ++ encode_utf8_all (made_of_run rest (c ∷ chars after.now))) }
{
    if is_allowed(c, after) {
        return out.push(c);
    }
    push_instead(out, c, rest)
}

/// Appends what is put in the place of each character. `Err` means out of memory; what was appended
/// before it stays.
pub(crate) fn push_instead_of_all<A: Allocator>(
    out: &mut String<A>,
    piece: &str,
    rest: Rest,
) -> Result<(), AllocError>
    ensures { OnOk result (string_bytes out.new
        ≡ string_bytes out.old ++ encode_utf8_all (flat_map (instead rest) (chars piece.now))) }
{
    let mut left = piece;
    while let Some((c, after)) = split_first(left) {
        push_instead(out, c, rest)?;
        left = after;
    }
    Ok(())
}

/// Appends what is put in the place of a character. `Err` means out of memory; what was appended
/// before it stays.
fn push_instead<A: Allocator>(out: &mut String<A>, c: char, rest: Rest) -> Result<(), AllocError>
    ensures { OnOk result (string_bytes out.new
        ≡ string_bytes out.old ++ encode_utf8_all (instead rest c)) }
{
    match rest {
        Rest::Drop => Ok(()),
        Rest::Show => push_shown(out, c),
    }
}

/// Appends a character in printing characters. `Err` means out of memory; what was appended before
/// it stays.
fn push_shown<A: Allocator>(out: &mut String<A>, c: char) -> Result<(), AllocError>
    ensures { OnOk result (string_bytes out.new
        ≡ string_bytes out.old ++ encode_utf8_all (shown c)) }
{
    match c {
        '\0'..='\u{1F}' => {
            out.push('^')?;
            out.push((c as u8 + 0x40) as char)
        }
        '\u{7F}' => out.push_str("^?"),
        _ if is_printing(c) => out.push(c),
        _ => push_numbered(out, u32::from(c)),
    }
}

/// Appends a character by its number. `Err` means out of memory; what was appended before it stays.
fn push_numbered<A: Allocator>(out: &mut String<A>, c: u32) -> Result<(), AllocError>
    requires { c < 0x10000 }
    ensures { OnOk result (string_bytes out.new
        ≡ string_bytes out.old ++ encode_utf8_all (numbered c)) }
{
    out.push_str("<U+")?;
    out.push(hexadecimal(c / 0x1000))?;
    out.push(hexadecimal(c / 0x100 % 0x10))?;
    out.push(hexadecimal(c / 0x10 % 0x10))?;
    out.push(hexadecimal(c % 0x10))?;
    out.push('>')
}

/// The hexadecimal digit of this value.
fn hexadecimal(n: u32) -> char
    requires { n < 0x10 }
    ensures { result ≡ hexadecimal n }
{
    b"0123456789ABCDEF"[n as usize] as char
}
