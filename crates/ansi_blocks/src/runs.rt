//! The first run of a text, and what waits for it. They have a module of their own, so that
//! `ansi_str::blocks` doesn't pass them on.
ghost use Rattle.std.specs.Prelude.{◌≡◌, ◌≤◌, ◌+◌, ◌∷◌, [], IfNone, IfSome, IfOk, length, string_bytes};
ghost use Rattle.std.specs.Prelude.{slice_range};
ghost use Rattle.std.specs.Str.{IsCharBoundary};
ghost use Rattle.ansi_style.specs.States.{rendition_of};
ghost use Rattle.ansi_blocks.specs.Blocks.{sequences_before, block_after, blocks_from};

use ansi_items::ansitok::{Kind, Scanner};
use ansi_style::state::Style;
use ansi_style::styles;
use std::alloc::{AllocError, Allocator};

/// The first run of a text. (Own.)
#[derive(Clone, Copy)]
pub struct Run<'a> {
    pub text: &'a str,
    /// How many bytes the sequences that wait for it have.
    pub len_before: usize,
    /// These sequences, joined, if there are any and they are a stretch of the text: no SGR follows
    /// one of them.
    pub together: Option<&'a str>,
    /// The text after it.
    pub rest: &'a str,
}

/// The first run of a text. `style` is the style before the text, and becomes that of the run.
/// (Own.)
#[inline(always)]
pub fn first_styled_run<'a>(text: &'a str, style: &mut Style) -> Option<Run<'a>>
    ensures none { IfNone result (blocks_from (rendition_of style.old) text.now ≡ []) }
    ensures first { IfSome result (λ run. blocks_from (rendition_of style.old) text.now
        ≡ block_after (sequences_before text.now 0) run.text.now (rendition_of style.new)
        ∷ blocks_from (rendition_of style.new) run.rest.now) }
    ensures awaited { IfSome result (λ run.
        run.len_before ≡ length (sequences_before text.now 0)) }
    ensures together { IfSome result (λ run.
        IfSome run.together (λ s. s.now ≡ sequences_before text.now 0)) }
{
    let mut len_before = 0;
    // the end of the last SGR
    let mut start = 0;
    for item in Scanner::new(text) {
        let piece = &text[item.start..item.end];
        match item.kind {
            Kind::Text => {
                return Some(Run {
                    text: piece,
                    len_before,
                    together: stretch_of(text, start, item.start, len_before),
                    rest: &text[item.end..],
                });
            }
            Kind::Sgr => {
                styles::apply(style, piece);
                start = item.end;
            }
            Kind::Other | Kind::Lone => len_before += piece.len(),
        }
    }
    None
}

/// What is between two offsets of a text, if that has `len` bytes and isn't empty.
#[inline(always)]
fn stretch_of(text: &str, start: usize, end: usize, len: usize) -> Option<&str>
    requires order { start ≤ end }
    requires start { IsCharBoundary text.now start }
    requires end { IsCharBoundary text.now end }
    ensures stretch { IfSome result (λ s. s.now ≡ slice_range text.now start end) }
    ensures end { IfSome result (λ s. start + length s.now ≡ end) }
    ensures len { IfSome result (λ s. length s.now ≡ len) }
{
    if len == 0 {
        return None;
    }
    let stretch = &text[start..end];
    if stretch.len() != len {
        return None;
    }
    Some(stretch)
}

/// The sequences before the first run of a text that aren't SGRs, joined. Reserves `room` bytes at
/// once. `Err` means out of memory. (Own.)
#[inline(never)]
pub fn sequences_before<A: Allocator>(
    alloc: A,
    text: &str,
    room: usize,
) -> Result<String<A>, AllocError>
    ensures { IfOk result (λ s. string_bytes s ≡ sequences_before text.now 0) }
{
    let mut joined = String::with_capacity(alloc, room)?;
    for item in Scanner::new(text) {
        match item.kind {
            Kind::Text => break,
            Kind::Sgr => {}
            Kind::Other | Kind::Lone => joined.push_str(&text[item.start..item.end])?,
        }
    }
    Ok(joined)
}
