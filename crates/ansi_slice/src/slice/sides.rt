//! The two sides of a text.
ghost use Rattle.std.specs.Prelude.{◌≡◌, ◌≢◌, ◌++◌, ◌↔◌, ◌⊎◌, ◌≤◌, ◌+◌, ◌*◌, length, filter};
ghost use Rattle.std.specs.Prelude.{IsTrue, IsFalse, IsNone, IsOk, IfOk, OnOk, IfSome};
ghost use Rattle.std.specs.Prelude.{string_bytes};
ghost use Rattle.std.specs.Cow.{cow_str_bytes, IsBorrowedStr};
ghost use Rattle.ansi_items.specs.declared.ansitok.Kind.TheVariants.{Sgr};
ghost use Rattle.ansi_items.specs.Pieces.{Sequence, pieces_of};
ghost use Rattle.ansi_items.specs.Plain.{plain, is_text, has_escape, copied};
ghost use Rattle.ansi_items.specs.Sequences.{is_sgr};
ghost use Rattle.ansi_search.specs.Positions.{is_good_position, no_character_goes_on};
ghost use Rattle.ansi_search.specs.Positions.{is_position_in};
ghost use Rattle.ansi_slice.specs.Sides.{dressed, left_side, right_side, side_up_to};
ghost use Rattle.ansi_search.specs.Offsets.{StandsIn};
ghost use Rattle.ansi_style.specs.Reading.{style_within};
ghost use Rattle.ansi_style.specs.Sgr.{apply};
ghost use Rattle.ansi_style.specs.States.{rendition_of};
ghost use Rattle.ansi_style.specs.Written.{longest_start_and_close};

use crate::slice::has_any;
use ansi_items::ansitok::{Kind, Scanner};
use ansi_search::search::{PAST_THE_END, walk_to};
use ansi_style::state::Style;
use ansi_style::styles;
use std::alloc::{AllocError, Allocator};
use std::borrow::CowStr;

/// Like `AnsiStr::ansi_split_at`, with results that live as long as the text, and with any
/// allocator. (Own.)
///
/// ```
/// let (left, right) = split_at_in(rt.alloc(), "\x1b[30mTEXT\x1b[39m", 2)?;
/// assert!(rt; left.as_str() == "\x1b[30mTE\x1b[39m");
/// assert!(rt; right.as_str() == "\x1b[30mXT\x1b[39m");
/// ```
pub fn split_at_in<'t, A: Allocator + Copy>(
    alloc: A,
    text: &'t str,
    mid: usize,
) -> Result<(CowStr<'t, A>, CowStr<'t, A>), AllocError>
    requires { IsTrue (is_position_in text.now mid) }
    ensures left { IfOk result (λ c. cow_str_bytes c.0 ≡ left_side text.now mid) }
    ensures right { IfOk result (λ c. cow_str_bytes c.1 ≡ right_side text.now mid) }
    ensures borrowed { IfOk result (λ c. (IsBorrowedStr c.0 ↔ IsFalse (has_escape text.now))
        × (IsBorrowedStr c.1 ↔ IsFalse (has_escape text.now))) }
    ensures len { IfOk result (λ c.
        length (cow_str_bytes c.0) + length (cow_str_bytes c.1) ≤ length text.now
        + longest_start_and_close * (length (filter is_text (pieces_of text.now)) + 1)) }
    ensures takes_no_memory { IsFalse (has_escape text.now) → IsOk result }
{
    if !has_any(text) {
        let (left, right) = bare_sides(text, mid);
        return Ok((CowStr::Borrowed(left), CowStr::Borrowed(right)));
    }
    let (left, right) = write_sides(alloc, text, mid)?;
    Ok((CowStr::Owned(left), CowStr::Owned(right)))
}

/// Only the left side of `split_at_in`, or `None` if the position isn't good.
pub fn left_in<'t, A: Allocator>(
    alloc: A,
    text: &'t str,
    mid: usize,
) -> Result<Option<CowStr<'t, A>>, AllocError>
    ensures none { IfOk result (λ o. IsNone o ↔ IsFalse (is_good_position (plain text.now) mid)) }
    ensures bytes { IfOk result (λ o. IfSome o (λ c. cow_str_bytes c ≡ left_side text.now mid)) }
    ensures borrowed { IfOk result (λ o. IfSome o (λ c.
        IsBorrowedStr c ↔ IsFalse (has_escape text.now))) }
    ensures len { IfOk result (λ o. IfSome o (λ c. length (cow_str_bytes c) ≤ length text.now
        + longest_start_and_close * (length (filter is_text (pieces_of text.now)) + 1))) }
    ensures takes_no_memory { IsFalse (has_escape text.now)
        ⊎ IsFalse (is_good_position (plain text.now) mid) → IsOk result }
{
    let mut style = styles::plain_style();
    let Some(to) = walk_to(&mut style, text, mid) else {
        return Ok(None);
    };
    if !has_any(text) {
        let (left, _) = bare_sides(text, mid);
        return Ok(Some(CowStr::Borrowed(left)));
    }
    let mut style = styles::plain_style();
    let mut left = String::new(alloc);
    write_side(&mut left, side_room(to), &mut style, text, mid)?;
    Ok(Some(CowStr::Owned(left)))
}

/// Only the right side of `split_at_in`, or `None` if the position isn't good.
pub fn right_in<'t, A: Allocator>(
    alloc: A,
    text: &'t str,
    mid: usize,
) -> Result<Option<CowStr<'t, A>>, AllocError>
    ensures none { IfOk result (λ o. IsNone o ↔ IsFalse (is_good_position (plain text.now) mid)) }
    ensures bytes { IfOk result (λ o. IfSome o (λ c. cow_str_bytes c ≡ right_side text.now mid)) }
    ensures borrowed { IfOk result (λ o. IfSome o (λ c.
        IsBorrowedStr c ↔ IsFalse (has_escape text.now))) }
    ensures len { IfOk result (λ o. IfSome o (λ c. length (cow_str_bytes c) ≤ length text.now
        + longest_start_and_close * (length (filter is_text (pieces_of text.now)) + 1))) }
    ensures takes_no_memory { IsFalse (has_escape text.now)
        ⊎ IsFalse (is_good_position (plain text.now) mid) → IsOk result }
{
    let mut style = styles::plain_style();
    let Some(from) = walk_to(&mut style, text, mid) else {
        return Ok(None);
    };
    if !has_any(text) {
        let (_, right) = bare_sides(text, mid);
        return Ok(Some(CowStr::Borrowed(right)));
    }
    Ok(Some(CowStr::Owned(write_right(alloc, style, &text[from..])?)))
}

/// The two sides of a text without ESC: its bytes before the position, and its bytes from there on.
/// A position past the end counts as the end.
fn bare_sides(text: &str, mid: usize) -> (&str, &str)
    requires bare { IsFalse (has_escape text.now) }
    requires good { IsTrue (no_character_goes_on (plain text.now) mid) }
    ensures left { result.0.now ≡ left_side text.now mid }
    ensures right { result.1.now ≡ right_side text.now mid }
{
    text.split_at(mid.min(text.len()))
}

/// The two sides of a text, written.
fn write_sides<A: Allocator + Copy>(
    alloc: A,
    text: &str,
    mid: usize,
) -> Result<(String<A>, String<A>), AllocError>
    requires { IsTrue (no_character_goes_on (plain text.now) mid) }
    ensures left { IfOk result (λ s. string_bytes s.0 ≡ left_side text.now mid) }
    ensures right { IfOk result (λ s. string_bytes s.1 ≡ right_side text.now mid) }
{
    let mut style = styles::plain_style();
    let mut left = String::new(alloc);
    let room = side_room(mid.min(text.len()));
    let end = write_side(&mut left, room, &mut style, text, mid)?;
    let right = write_right(alloc, style, &text[end..])?;
    Ok((left, right))
}

/// How many bytes are reserved for what a text of this length adds to a side: an eighth more, since
/// the start and the close of a run may be longer than the SGRs around it.
fn side_room(len: usize) -> usize {
    len.saturating_add(len / 8)
}

/// Appends what a text adds to a side before a position: each run of its plain text in the style
/// there, and each sequence but the SGRs, which change the style. Returns the offset of the
/// position in the text. Reserves `room` bytes with the first. `Err` means out of memory; what was
/// appended before it stays.
fn write_side<A: Allocator>(
    out: &mut String<A>,
    room: usize,
    style: &mut Style,
    text: &str,
    position: usize,
) -> Result<usize, AllocError>
    requires { IsTrue (no_character_goes_on (plain text.now) position) }
    ensures bytes { OnOk result (string_bytes out.new ≡ string_bytes out.old
        ++ side_up_to (rendition_of style.old) position (pieces_of text.now)) }
    ensures style { OnOk result
        (rendition_of style.new ≡ style_within (rendition_of style.old) text.now position) }
    ensures offset { IfOk result (StandsIn text.now position) }
{
    let mut remaining = position;
    for item in Scanner::new(text) {
        let piece = &text[item.start..item.end];
        if item.kind == Kind::Text {
            if remaining < piece.len() {
                write_dressed(out, room, style, &piece[..remaining])?;
                return Ok(item.start + remaining);
            }
            write_dressed(out, room, style, piece)?;
            remaining -= piece.len();
        } else {
            write_mark(out, room, style, item.kind, piece)?;
        }
    }
    Ok(text.len())
}

/// Appends a sequence that isn't an SGR, or a lone escape. An SGR changes the style instead. `Err`
/// means out of memory; then nothing is appended.
fn write_mark<A: Allocator>(
    out: &mut String<A>,
    room: usize,
    style: &mut Style,
    kind: Kind,
    mark: &str,
) -> Result<(), AllocError>
    requires sgr { kind ≡ Sgr → IsTrue (is_sgr mark.now) }
    requires no_sgr { kind ≢ Sgr → IsFalse (is_sgr mark.now) }
    ensures bytes { OnOk result
        (string_bytes out.new ≡ string_bytes out.old ++ copied (Sequence mark.now)) }
    ensures style { rendition_of style.new ≡ apply (rendition_of style.old) mark.now }
{
    if kind == Kind::Sgr {
        styles::apply(style, mark);
        return Ok(());
    }
    reserve_first(out, room)?;
    out.push_str(mark)
}

/// Reserves this room if nothing is written yet. So a side that is empty allocates nothing.
fn reserve_first<A: Allocator>(out: &mut String<A>, room: usize) -> Result<(), AllocError>
    ensures { string_bytes out.new ≡ string_bytes out.old }
{
    if out.is_empty() {
        out.reserve(room)?;
    }
    Ok(())
}

/// What a text adds to a side, written. `style` is the style before it.
fn write_right<A: Allocator>(alloc: A, style: Style, text: &str) -> Result<String<A>, AllocError>
    ensures { IfOk result (λ s.
        string_bytes s ≡ side_up_to (rendition_of style) PAST_THE_END (pieces_of text.now)) }
{
    let mut style = style;
    let mut right = String::new(alloc);
    let room = side_room(text.len());
    write_side(&mut right, room, &mut style, text, PAST_THE_END)?;
    Ok(right)
}

/// Appends a piece of text in a style: the start of the style, the piece and the close. An empty
/// piece adds no bytes. `Err` means out of memory; what was appended before it stays.
fn write_dressed<A: Allocator>(
    out: &mut String<A>,
    room: usize,
    style: &Style,
    piece: &str,
) -> Result<(), AllocError>
    ensures { OnOk result (string_bytes out.new
        ≡ string_bytes out.old ++ dressed (rendition_of style.now) piece.now) }
{
    if piece.is_empty() {
        return Ok(());
    }
    reserve_first(out, room)?;
    styles::write_start(style, out)?;
    out.push_str(piece)?;
    styles::write_close(style, out)
}
