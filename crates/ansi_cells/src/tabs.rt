//! Texts with blanks in place of their TABs.
ghost use Rattle.std.specs.Prelude.{◌≡◌, ◌↔◌, ◌≤◌, ◌+◌, ◌*◌, ◌==◌, ◌∷◌, ◌++◌, length, fold};
ghost use Rattle.std.specs.Prelude.{if◌then◌else◌, MatchOption};
ghost use Rattle.std.specs.Prelude.{IsTrue, IsFalse, IsOk, IfOk, OnOk, string_bytes};
ghost use Rattle.std.specs.Cow.{cow_str_bytes, IsBorrowedStr};
ghost use Rattle.std.specs.List.{list_any};
ghost use Rattle.ansi_items.specs.Scans.{kind_of, piece_of_kind};
ghost use Rattle.ansi_cells.specs.Tabs.{piece_has_tab, has_tab, tabs, is_stop, since_stop, to_next};
ghost use Rattle.ansi_cells.specs.Tabs.{byte_expanded, run_expanded, expanded};

use crate::measures;
use crate::shown::push_blanks;
use ansi_items::ansitok::{Kind, Scanner};
use memchr::{memchr, memchr2};
use std::alloc::{AllocError, Allocator};
use std::borrow::CowStr;

/// Like `AnsiColumns::ansi_expand_tabs`, with any allocator. The result may borrow from the text
/// and lives as long as it.
///
/// ```
/// assert!(rt; expand_tabs(rt.alloc(), "a\tb", 4)?.as_str() == "a   b");
/// ```
pub fn expand_tabs<'t, A: Allocator + Copy>(
    alloc: A,
    text: &'t str,
    stop: usize,
) -> Result<CowStr<'t, A>, AllocError>
    ensures bytes { IfOk result (λ c. cow_str_bytes c ≡ expanded stop text.now) }
    ensures borrowed { IfOk result (λ c. IsBorrowedStr c ↔ IsFalse (has_tab text.now)) }
    ensures len { IfOk result (λ c.
        length (cow_str_bytes c) ≤ length text.now + stop * tabs text.now) }
    ensures takes_no_memory { IsFalse (has_tab text.now) → IsOk result }
{
    if has_tab(text) {
        Ok(CowStr::Owned(write_expanded(alloc, text, stop)?))
    } else {
        Ok(CowStr::Borrowed(text))
    }
}

/// Whether the plain text has a TAB.
fn has_tab(text: &str) -> bool
    ensures { result ≡ has_tab text.now }
{
    for item in Scanner::new(text) {
        if piece_has_tab(item.kind, &text[item.start..item.end]) {
            return true;
        }
    }
    false
}

/// Whether an item of this kind has a TAB in its plain bytes.
fn piece_has_tab(kind: Kind, piece: &str) -> bool
    requires { kind ≡ kind_of (piece_of_kind kind piece.now) }
    ensures { result ≡ piece_has_tab (piece_of_kind kind piece.now) }
{
    match kind {
        Kind::Text => has_byte(b'\t', piece),
        _ => false,
    }
}

/// Whether a run has this byte.
fn has_byte(byte: u8, run: &str) -> bool
    ensures { result ≡ list_any (λ b. b == byte) run.now }
{
    memchr(byte, run.as_bytes()).is_some()
}

/// A text with its TABs expanded, written.
fn write_expanded<A: Allocator + Copy>(
    alloc: A,
    text: &str,
    stop: usize,
) -> Result<String<A>, AllocError>
    ensures { IfOk result (λ s. string_bytes s ≡ expanded stop text.now) }
{
    let mut out = String::with_capacity(alloc, text.len())?;
    // the plain text since the last TAB or line feed
    let mut since = String::new(alloc);
    for item in Scanner::new(text) {
        let piece = &text[item.start..item.end];
        if item.kind == Kind::Text {
            push_run(&mut out, &mut since, piece, stop)?;
        } else {
            out.push_str(piece)?;
        }
    }
    Ok(out)
}

/// Appends a run with its TABs expanded. `since` is the plain text since the last TAB or line feed
/// before the run, and becomes that after it. `Err` means out of memory.
fn push_run<A: Allocator>(
    out: &mut String<A>,
    since: &mut String<A>,
    run: &str,
    stop: usize,
) -> Result<(), AllocError>
    ensures out { OnOk result (string_bytes out.new
        ≡ string_bytes out.old ++ run_expanded stop (string_bytes since.old) run.now) }
    ensures since { OnOk result (string_bytes since.new
        ≡ fold since_stop (string_bytes since.old) run.now) }
{
    let mut left = run;
    'stops: while let Some((front, is_tab, rest)) = split_stop(left) {
        out.push_str(front)?;
        since.push_str(front)?;
        push_stop(out, since.as_str(), is_tab, stop)?;
        since.clear();
        left = rest;
    }
    out.push_str(left)?;
    since.push_str(left)?;
    Ok(())
}

/// Appends a line feed, or what a TAB becomes after `since`, the plain text since the last of both.
/// `Err` means out of memory.
fn push_stop<A: Allocator>(
    out: &mut String<A>,
    since: &str,
    is_tab: bool,
    stop: usize,
) -> Result<(), AllocError>
    ensures { OnOk result (string_bytes out.new ≡ string_bytes out.old
        ++ byte_expanded stop since.now (if is_tab then 0x09 else 0x0A)) }
{
    if !is_tab {
        return out.push('\n');
    }
    push_blanks(out, to_next(stop, measures::width(since)))
}

/// What is before the first TAB or line feed of a run, whether it is a TAB, and what is after it.
fn split_stop(run: &str) -> Option<(&str, bool, &str)>
    ensures { MatchOption result (IsFalse (list_any is_stop run.now)) (λ (front, is_tab, rest).
        IsFalse (list_any is_stop front.now)
        × (run.now ≡ front.now ++ (if is_tab then 0x09 else 0x0A) ∷ rest.now)) }
{
    let at = memchr2(b'\t', b'\n', run.as_bytes())?;
    let is_tab = run.as_bytes()[at] == b'\t';
    Some((&run[..at], is_tab, &run[at + 1..]))
}

/// The columns from a column to the next stop.
fn to_next(stop: usize, column: usize) -> usize
    ensures { result ≡ to_next stop column }
{
    if stop == 0 { 0 } else { stop - column % stop }
}
