//! How a shown text and a slice are written into the caller's buffer without being joined first.
ghost use Rattle.std.specs.Prelude.{◌≡◌, ◌⊎◌, ◌+◌, ◌^◌, ◌<◌, ◌≤◌, ◌++◌, take, drop, length};
ghost use Rattle.std.specs.Prelude.{IfSome, MatchResult};
ghost use Rattle.std.specs.Option.{MatchOption};
ghost use Rattle.ansi_str.specs.States.{rendition_of};
ghost use Rattle.ansi_str.specs.Written.{start, close};
ghost use Rattle.ansi_clusters.specs.Lines.{blanks};
ghost use Rattle.ansi_cells.specs.Shown.{between_blanks, shown_bytes, IsLent};
ghost use Rattle.ansi_cells.specs.Slices.{stretch_bytes, sliced_bytes, IsLentSlice};
ghost use Rattle.ansi_text_calls.specs.Answers.{out_of_memory, HasFailed, IsWritten};

use ansi_columns::bare::Bare;
use ansi_columns::shown::{Alignment, Shown, join};
use ansi_columns::slices::{Sliced, Stretch};
use ansi_style::state::Style;
use ansi_style::styles;
use ansi_style::styles::SHORT;
use ansi_text_calls::answers::{Answer, OUT_OF_MEMORY, write, write_made, write_text};
use ansi_text_calls::lists::put;
use ansi_text_calls::walks::short_start;
use arrayvec::ArrayString;
use std::alloc::{AllocError, Allocator};

/// Writes a shown text, or reports out of memory. Allocates only if there is no room for all of it, or
/// its close is long.
#[inline(always)]
pub(crate) fn write_shown<A: Allocator + Copy>(
    alloc: A,
    shown: Result<Shown<'_, '_, A>, AllocError>,
    buffer: &mut [u8],
) -> Answer
    ensures { MatchResult shown.entry
        (λ shown. IsWritten (shown_bytes shown) result buffer.old buffer.new
        ⊎ ((¬ (IsLent shown)) × HasFailed out_of_memory result buffer.old buffer.new))
        (λ e. HasFailed out_of_memory result buffer.old buffer.new) }
{
    let Ok(shown) = shown else {
        return Answer::failed(OUT_OF_MEMORY);
    };
    if shown.missing == 0 && shown.tail.is_empty() && shown.ending.is_empty() {
        return write(shown.text.as_bytes(), buffer);
    }
    match write_parts(&shown, buffer) {
        Some(len) => Answer::done(len),
        None => write_text(join(alloc, shown), buffer),
    }
}

/// Writes the parts of a shown text, in order, if there is room for all of them and its close is
/// short. Returns their length. After `None` the buffer is as it was. Doesn't allocate.
#[inline(always)]
fn write_parts<A: Allocator + Copy>(shown: &Shown<'_, '_, A>, buffer: &mut [u8]) -> Option<usize>
    ensures { MatchOption result (buffer.new ≡ buffer.old)
        (λ len. (len ≡ length (shown_bytes shown.now)) × (len ≤ length buffer.old)
        × (buffer.new ≡ shown_bytes shown.now ++ drop len buffer.old)) }
{
    let close = short_close(&shown.ending.style)?;
    let text = shown.text.as_str();
    let link_end = shown.ending.link_end;
    let len = shown
        .missing
        .checked_add(text.len())?
        .checked_add(link_end.len())?
        .checked_add(close.as_str().len())?
        .checked_add(shown.tail.len())?;
    if buffer.len() < len {
        return None;
    }
    let before = shown.alignment.before_text(shown.missing);
    let place = put_blanks(before, 0, buffer);
    let place = put_str(text, place, buffer);
    let place = put_str(link_end, place, buffer);
    let place = put_str(close.as_str(), place, buffer);
    let place = put_str(shown.tail, place, buffer);
    Some(put_blanks(shown.missing - before, place, buffer))
}

/// Writes a bare text and its tail between the missing blanks, if there is room for all of that. After
/// `None` the buffer is as it was. Doesn't allocate.
#[inline(always)]
pub(crate) fn write_bare(
    bare: Bare<'_, '_>,
    alignment: Alignment,
    buffer: &mut [u8],
) -> Option<Answer>
    ensures { MatchOption result (buffer.new ≡ buffer.old) (λ answer. IsWritten
        (between_blanks bare.entry.missing alignment (bare.entry.text.now ++ bare.entry.tail.now))
        answer buffer.old buffer.new) }
{
    let Bare {
        text,
        tail,
        missing,
    } = bare;
    let len = missing.checked_add(text.len())?.checked_add(tail.len())?;
    if buffer.len() < len {
        return None;
    }
    let before = alignment.before_text(missing);
    let text_at = put_blanks(before, 0, buffer);
    let tail_at = put_str(text, text_at, buffer);
    let end = put_str(tail, tail_at, buffer);
    Some(Answer::done(put_blanks(missing - before, end, buffer)))
}

/// Writes a slice, or reports out of memory. Allocates only if there is no room for all of it, or its
/// start or its close is long.
pub(crate) fn write_slice<A: Allocator + Copy>(
    alloc: A,
    slice: Result<Sliced<'_, A>, AllocError>,
    buffer: &mut [u8],
) -> Answer
    ensures { MatchResult slice.entry
        (λ slice. IsWritten (sliced_bytes slice) result buffer.old buffer.new
        ⊎ ((¬ (IsLentSlice slice)) × HasFailed out_of_memory result buffer.old buffer.new))
        (λ e. HasFailed out_of_memory result buffer.old buffer.new) }
{
    match slice {
        Ok(Sliced::Joined(text)) => write(text.as_bytes(), buffer),
        Ok(Sliced::Stretch(stretch)) => match write_stretch(&stretch, buffer) {
            Some(len) => Answer::done(len),
            None => write_made(stretch.join(alloc), buffer),
        },
        Err(_) => Answer::failed(OUT_OF_MEMORY),
    }
}

/// Writes a stretch and what opens and closes it, if there is room for all of it and its start and its
/// close are short. Returns its length. After `None` the buffer is as it was. Doesn't allocate.
#[inline(always)]
fn write_stretch(stretch: &Stretch<'_>, buffer: &mut [u8]) -> Option<usize>
    ensures { MatchOption result (buffer.new ≡ buffer.old)
        (λ len. (len ≡ length (stretch_bytes stretch.now)) × (len ≤ length buffer.old)
        × (buffer.new ≡ stretch_bytes stretch.now ++ drop len buffer.old)) }
{
    let text = stretch.text;
    if buffer.len() < text.len() {
        return None;
    }
    let start = short_start(&stretch.opened.style)?;
    let close = short_close(&stretch.ending.style)?;
    let start = start.as_str();
    let close = close.as_str();
    let link = stretch.opened.link;
    let link_end = stretch.ending.link_end;
    let len = text
        .len()
        .checked_add(start.len())?
        .checked_add(link.len())?
        .checked_add(link_end.len())?
        .checked_add(close.len())?;
    if buffer.len() < len {
        return None;
    }
    let place = put_str(start, 0, buffer);
    let place = put_str(link, place, buffer);
    let place = put_str(text, place, buffer);
    let place = put_str(link_end, place, buffer);
    Some(put_str(close, place, buffer))
}

/// The close of a style, if it is short. `None` says nothing.
#[tactic(auto, using(ansi_style::proofs::UnsetLemmas::unset_styles))]
#[inline(always)]
fn short_close(style: &Style) -> Option<ArrayString<SHORT>>
    ensures { IfSome result (λ s. s.bytes ≡ close (rendition_of style.now)) }
{
    if !styles::has_close(style) {
        return Some(ArrayString::new());
    }
    styles::short_close(style)
}

/// Copies a text, which may be empty, to a place in a buffer, if there is room for it. Returns the
/// place after it.
#[inline(always)]
fn put_str(text: &str, place: usize, buffer: &mut [u8]) -> usize
    requires { place + length text.now < 2 ^ 64 }
    ensures bytes { place + length text.now ≤ length buffer.old →
        buffer.new ≡ take place buffer.old ++ text.now ++ drop (place + length text.now) buffer.old }
    ensures after { result ≡ place + length text.now }
{
    if text.is_empty() {
        return place;
    }
    put(text.as_bytes(), place, buffer)
}

/// Writes blanks at a place in a buffer, which has room for them. Returns the place after them.
#[inline(always)]
fn put_blanks(count: usize, place: usize, buffer: &mut [u8]) -> usize
    requires { place + count ≤ length buffer.old }
    ensures bytes { buffer.new
        ≡ take place buffer.old ++ blanks count ++ drop (place + count) buffer.old }
    ensures after { result ≡ place + count }
{
    let after = place + count;
    if count != 0 {
        buffer[place..after].fill(b' ');
    }
    after
}
