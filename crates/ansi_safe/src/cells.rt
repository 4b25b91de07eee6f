//! What shown texts are made of: the text of a cell, on one line, and of a paragraph.
ghost use Rattle.std.specs.Prelude.{◌≡◌, ◌↔◌, ◌≤◌, ◌==◌, ◌∷◌, ◌++◌, length, take, drop, IsTrue, IsOk, IfOk};
ghost use Rattle.std.specs.Prelude.{OnOk, MatchOption, IfSome, is_some, [], chars, encode_utf8_all};
ghost use Rattle.std.specs.Prelude.{string_bytes};
ghost use Rattle.std.specs.Cow.{cow_str_bytes, IsBorrowedStr};
ghost use Rattle.std.specs.List.{list_all};
ghost use Rattle.std.specs.Str.{IsCharBoundary};
ghost use Rattle.ansi_items.specs.Pieces.{spelling};
ghost use Rattle.ansi_items.specs.Plain.{plain, marks};
ghost use Rattle.ansi_items.specs.Scans.{kind_of, piece_of_kind};
ghost use Rattle.ansi_style.specs.declared.state.rendition.Rendition.{Rendition};
ghost use Rattle.ansi_style.specs.Reading.{style_after_from};
ghost use Rattle.ansi_style.specs.States.{rendition_of};
ghost use Rattle.ansi_style.specs.Styled.{style_after};
ghost use Rattle.ansi_safe.specs.declared.cells.Place.{Place};
ghost use Rattle.ansi_safe.specs.declared.cells.Place.TheVariants.{Cell};
ghost use Rattle.ansi_safe.specs.declared.policy.Links.TheVariants.{Keep};
ghost use Rattle.ansi_safe.specs.Safe.{is_safe};
ghost use Rattle.ansi_safe.specs.Cells.{in_place, run_in, piece_in, placed, cell, paragraph};
ghost use Rattle.ansi_safe.specs.Cells.{cell_char, stays_in, run_stays, piece_stays, is_placed};
ghost use Rattle.ansi_safe.specs.Cells.{is_cell, is_dropped, is_left_out};
ghost use Rattle.ansi_safe.specs.Links.{link_of, link_end};

use crate::allowed::{is_allowed, is_printing, may_stay, split_first};
use crate::front::split_ordinary;
use crate::links::{Ending, Pen, link_after, pen_after};
use crate::policy::Links;
use ansi_items::ansitok::{Kind, Scanner};
use ansi_style::state::Style;
use ansi_style::styles::{self, plain_style};
use std::alloc::{AllocError, Allocator};
use std::borrow::CowStr;

/// Where a text is shown.
#[derive(Debug, Clone, Copy, PartialEq, Eq)]
enum Place {
    /// On one line.
    Cell,
    /// With its line ends.
    Paragraph,
}

/// The text of a cell, which is on one line: TAB, LF, and CR LF of one run become one blank each,
/// printing characters, select graphic renditions and clean links stay, and nothing else.
///
/// Returns a borrow, and doesn't allocate, exactly if that is the text itself. Nothing is added at
/// the end, so a style or a link may be left open. `Err` means out of memory. (Own.)
///
/// ```
/// let cell = cell_of(rt.alloc(), "\x1b[1ma\tb\r\n\x07")?;
/// assert!(rt; cell.as_str() == "\x1b[1ma b ");
/// ```
pub fn cell_of<A: Allocator>(alloc: A, text: &str) -> Result<CowStr<'_, A>, AllocError>
    ensures bytes { IfOk result (λ c. cow_str_bytes c ≡ cell text.now) }
    ensures borrowed { IfOk result (λ c. IsBorrowedStr c ↔ (cell text.now ≡ text.now)) }
    ensures len { IfOk result (λ c. length (cow_str_bytes c) ≤ length text.now) }
    ensures takes_no_memory { cell text.now ≡ text.now → IsOk result }
    ensures safe { IfOk result (λ c. IsTrue (is_safe Keep (cow_str_bytes c))) }
    ensures one_line { IfOk result (λ c.
        IsTrue (list_all (stays_in Cell) (chars (plain (cow_str_bytes c))))) }
{
    text_in(alloc, text, Place::Cell)
}

/// Whether a text is its own text of a cell, as [`cell_of`] returns it. Doesn't allocate. (Own.)
///
/// ```
/// assert!(rt; is_cell("\x1b[1ma b") && !is_cell("a\tb"));
/// ```
pub fn is_cell(text: &str) -> bool
    ensures { IsTrue result ↔ (cell text.now ≡ text.now) }
{
    is_placed(text, Place::Cell)
}

/// Whether nothing of a text is left in a cell, so that [`cell_of`] returns an empty text. Doesn't
/// allocate. (Own.)
///
/// ```
/// assert!(rt; is_empty_cell("\x07\x1b[2J") && !is_empty_cell("\t"));
/// ```
pub fn is_empty_cell(text: &str) -> bool
    ensures { result ≡ (length (cell text.now) == 0) }
{
    for item in Scanner::new(text) {
        if !is_left_out(item.kind, &text[item.start..item.end]) {
            return false;
        }
    }
    true
}

/// Whether nothing of an item of this kind is left in a cell.
fn is_left_out(kind: Kind, piece: &str) -> bool
    requires { kind ≡ kind_of (piece_of_kind kind piece.now) }
    ensures { result ≡ is_left_out (piece_of_kind kind piece.now) }
{
    match kind {
        Kind::Text => is_run_left_out(piece),
        _ => !may_stay(kind, piece, Links::Keep),
    }
}

/// Whether nothing of a run is left in a cell: no character of it is printing, or a TAB or LF.
fn is_run_left_out(run: &str) -> bool
    ensures { result ≡ list_all is_dropped (chars run.now) }
{
    run.chars()
        .all(|c| !(is_printing(c) || matches!(c, '\t' | '\n')))
}

/// The text of a cell, as `cell_of` returns it, and what ends the link and the style at its end. A
/// text that stays as it is is read once.
///
/// `Err` means out of memory. (Own.)
///
/// ```
/// let (cell, ending) = cell_and_ending(rt.alloc(), "\x1b[1ma\tb")?;
/// assert!(rt; cell.as_str() == "\x1b[1ma b" && !ending.is_empty());
/// ```
pub fn cell_and_ending<A: Allocator>(
    alloc: A,
    text: &str,
) -> Result<(CowStr<'_, A>, Ending), AllocError>
    ensures bytes { IfOk result (λ r. cow_str_bytes r.0 ≡ cell text.now) }
    ensures link_end { IfOk result (λ r.
        r.1.link_end.now ≡ link_end (link_of (marks (cell text.now)))) }
    ensures style { IfOk result (λ r. rendition_of r.1.style ≡ style_after (cell text.now)) }
    ensures borrowed { IfOk result (λ r. IsBorrowedStr r.0 ↔ (cell text.now ≡ text.now)) }
    ensures len { IfOk result (λ r. length (cow_str_bytes r.0) ≤ length text.now) }
    ensures takes_no_memory { cell text.now ≡ text.now → IsOk result }
{
    if let Some(pen) = pen_if_cell(text, &plain_style()) {
        return Ok((CowStr::Borrowed(text), pen.ending()));
    }
    written_cell(alloc, text)
}

/// The text of a cell, written, and what ends its link and its style.
fn written_cell<'t, A: Allocator>(
    alloc: A,
    text: &str,
) -> Result<(CowStr<'t, A>, Ending), AllocError>
    ensures bytes { IfOk result (λ r. cow_str_bytes r.0 ≡ cell text.now) }
    ensures link_end { IfOk result (λ r.
        r.1.link_end.now ≡ link_end (link_of (marks (cell text.now)))) }
    ensures style { IfOk result (λ r. rendition_of r.1.style ≡ style_after (cell text.now)) }
    ensures owned { IfOk result (λ r. ¬ (IsBorrowedStr r.0)) }
    ensures len { IfOk result (λ r. length (cow_str_bytes r.0) ≤ length text.now) }
{
    let cell = write_placed(alloc, text, Place::Cell)?;
    let ending = pen_after(cell.as_str()).ending();
    Ok((CowStr::Owned(cell), ending))
}

/// The same as [`cell_and_ending`], for a text whose first `known` bytes are known to stay as they are, and
/// to leave this style and no link open. A text that stays as it is is read once, from there on. `Err`
/// means out of memory. (Own.)
pub fn cell_and_ending_after<'t, A: Allocator>(
    alloc: A,
    text: &'t str,
    known: usize,
    style: &Style,
) -> Result<(CowStr<'t, A>, Ending), AllocError>
    requires boundary { IsCharBoundary text.now known }
    requires stays { cell (take known text.now) ≡ take known text.now }
    requires style { rendition_of style.now ≡ style_after (take known text.now) }
    requires link { link_of (marks (take known text.now)) ≡ [] }
    requires rest { cell text.now ≡ text.now → IsTrue (is_cell (drop known text.now)) }
    ensures bytes { IfOk result (λ r. cow_str_bytes r.0 ≡ cell text.now) }
    ensures link_end { IfOk result (λ r.
        r.1.link_end.now ≡ link_end (link_of (marks (cell text.now)))) }
    ensures style { IfOk result (λ r. rendition_of r.1.style ≡ style_after (cell text.now)) }
    ensures borrowed { IfOk result (λ r. IsBorrowedStr r.0 ↔ (cell text.now ≡ text.now)) }
    ensures len { IfOk result (λ r. length (cow_str_bytes r.0) ≤ length text.now) }
    ensures takes_no_memory { cell text.now ≡ text.now → IsOk result }
{
    if let Some(pen) = pen_if_cell(&text[known..], style) {
        return Ok((CowStr::Borrowed(text), pen.ending()));
    }
    written_cell(alloc, text)
}

/// The pen after a text that follows this style, or `None` if the text doesn't stay as it is in a cell.
/// Doesn't allocate.
fn pen_if_cell<'t>(text: &'t str, before: &Style) -> Option<Pen<'t>>
    ensures none { is_some result ≡ is_cell text.now }
    ensures style { IfSome result (λ pen.
        rendition_of pen.style ≡ style_after_from (rendition_of before.now) text.now) }
    ensures link { IfSome result (λ pen. pen.link.now ≡ link_of (marks text.now)) }
{
    let rest = after_staying(text, Place::Cell);
    if rest.is_empty() {
        return Some(Pen {
            style: *before,
            link: "",
        });
    }
    pen_after_items(rest, before)
}

/// Like `pen_if_cell`, item by item.
fn pen_after_items<'t>(text: &'t str, before: &Style) -> Option<Pen<'t>>
    ensures none { is_some result ≡ is_cell text.now }
    ensures style { IfSome result (λ pen.
        rendition_of pen.style ≡ style_after_from (rendition_of before.now) text.now) }
    ensures link { IfSome result (λ pen. pen.link.now ≡ link_of (marks text.now)) }
{
    let mut style = *before;
    let mut link = "";
    for item in Scanner::new(text) {
        let piece = &text[item.start..item.end];
        if !piece_stays(item.kind, piece, Place::Cell) {
            return None;
        }
        if item.kind == Kind::Sgr {
            styles::apply(&mut style, piece);
        } else if item.kind == Kind::Other {
            link = link_after(link, piece);
        }
    }
    Some(Pen { style, link })
}

/// The text of a paragraph: TAB becomes a blank, line ends, printing characters, select graphic
/// renditions and clean links stay, and nothing else.
///
/// Returns a borrow, and doesn't allocate, exactly if that is the text itself. Nothing is added at
/// the end, so a style or a link may be left open. `Err` means out of memory. (Own.)
///
/// ```
/// let paragraph = paragraph_of(rt.alloc(), "a\tb\r\n\x1b[2Jc")?;
/// assert!(rt; paragraph.as_str() == "a b\r\nc");
/// ```
pub fn paragraph_of<A: Allocator>(alloc: A, text: &str) -> Result<CowStr<'_, A>, AllocError>
    ensures bytes { IfOk result (λ c. cow_str_bytes c ≡ paragraph text.now) }
    ensures borrowed { IfOk result (λ c. IsBorrowedStr c ↔ (paragraph text.now ≡ text.now)) }
    ensures len { IfOk result (λ c. length (cow_str_bytes c) ≤ length text.now) }
    ensures takes_no_memory { paragraph text.now ≡ text.now → IsOk result }
    ensures safe { IfOk result (λ c. IsTrue (is_safe Keep (cow_str_bytes c))) }
{
    text_in(alloc, text, Place::Paragraph)
}

/// The paragraph of a text, as [`paragraph_of`] returns it, written even if it is the text itself. `Err`
/// means out of memory. (Own.)
///
/// ```
/// assert!(rt; written_paragraph(rt.alloc(), "a\tb")?.as_str() == "a b");
/// ```
pub fn written_paragraph<A: Allocator>(alloc: A, text: &str) -> Result<String<A>, AllocError>
    ensures bytes { IfOk result (λ s. string_bytes s ≡ paragraph text.now) }
{
    write_placed(alloc, text, Place::Paragraph)
}

/// Whether a text is its own paragraph, as [`paragraph_of`] returns it. Doesn't allocate. (Own.)
///
/// ```
/// assert!(rt; is_paragraph("\x1b[1ma\nb") && !is_paragraph("a\tb"));
/// ```
pub fn is_paragraph(text: &str) -> bool
    ensures { IsTrue result ↔ (paragraph text.now ≡ text.now) }
{
    is_placed(text, Place::Paragraph)
}

/// What a character of a plain text is in the text of a cell: itself if it is printing, a blank if
/// it is TAB or LF, and otherwise nothing, which is `None`.
///
/// A character is printing if it is neither a control nor a bidirectional control. The result has
/// as many bytes as the character. (Own.)
///
/// ```
/// assert!(rt; cell_char('é') == Some('é'));
/// assert!(rt; cell_char('\t') == Some(' '));
/// assert!(rt; cell_char('\r') == None);
/// ```
#[inline]
pub fn cell_char(c: char) -> Option<char>
    ensures { MatchOption result (cell_char c ≡ []) (λ shown. cell_char c ≡ shown ∷ []) }
{
    if is_printing(c) {
        Some(c)
    } else if matches!(c, '\t' | '\n') {
        Some(' ')
    } else {
        None
    }
}

/// A text in a place: a borrow, and nothing is allocated, exactly if it stays as it is.
fn text_in<A: Allocator>(alloc: A, text: &str, place: Place) -> Result<CowStr<'_, A>, AllocError>
    ensures bytes { IfOk result (λ c. cow_str_bytes c ≡ placed place text.now) }
    ensures borrowed { IfOk result (λ c. IsBorrowedStr c ↔ (placed place text.now ≡ text.now)) }
    ensures len { IfOk result (λ c. length (cow_str_bytes c) ≤ length text.now) }
    ensures takes_no_memory { placed place text.now ≡ text.now → IsOk result }
{
    if is_placed(text, place) {
        return Ok(CowStr::Borrowed(text));
    }
    Ok(CowStr::Owned(write_placed(alloc, text, place)?))
}

/// Whether a text stays as it is in a place. Doesn't allocate.
fn is_placed(text: &str, place: Place) -> bool
    ensures { result ≡ is_placed place text.now }
{
    let rest = after_staying(text, place);
    rest.is_empty() || items_stay(rest, place)
}

/// A text without the ordinary characters that it begins with: nothing if it has no sequence and all
/// of its characters stay in a place. What is left stays there if the text does, and leaves the same
/// open.
#[inline(always)]
fn after_staying(text: &str, place: Place) -> &str
    ensures stays { is_placed place text.now ≡ is_placed place result.now }
    ensures style { (s : Rendition) → style_after_from s text.now ≡ style_after_from s result.now }
    ensures link { link_of (marks text.now) ≡ link_of (marks result.now) }
{
    let (_, rest) = split_ordinary(text, false);
    if !rest.starts_with('\x1b') && run_stays(rest, place) {
        ""
    } else {
        rest
    }
}

/// Like `is_placed`, item by item.
fn items_stay(text: &str, place: Place) -> bool
    ensures { result ≡ is_placed place text.now }
{
    for item in Scanner::new(text) {
        if !piece_stays(item.kind, &text[item.start..item.end], place) {
            return false;
        }
    }
    true
}

/// Whether an item of this kind stays as it is in a place.
#[inline(always)]
fn piece_stays(kind: Kind, piece: &str, place: Place) -> bool
    requires { kind ≡ kind_of (piece_of_kind kind piece.now) }
    ensures { result ≡ piece_stays place (piece_of_kind kind piece.now) }
{
    match kind {
        Kind::Text => run_stays(piece, place),
        _ => may_stay(kind, piece, Links::Keep),
    }
}

/// Whether each character of a run is allowed where it is, and stays in a place.
#[inline(always)]
fn run_stays(run: &str, place: Place) -> bool
    ensures { result ≡ run_stays place (chars run.now) }
{
    let mut left = run;
    while let Some((c, after)) = split_first(after_ordinary(left)) {
        if !(is_allowed(c, after) && stays_in(c, place)) {
            return false;
        }
        left = after;
    }
    true
}

/// A run without the ordinary characters that it begins with, which stay in any place.
#[inline(always)]
fn after_ordinary(run: &str) -> &str
    ensures decides { (place : Place) →
        run_stays place (chars run.now) ≡ run_stays place (chars result.now) }
    ensures shorter { length (chars result.now) ≤ length (chars run.now) }
{
    split_ordinary(run, false).1
}

/// Whether a character that is allowed stays as it is in a place.
fn stays_in(c: char, place: Place) -> bool
    ensures { result ≡ stays_in place c }
{
    match place {
        Place::Cell => !matches!(c, '\t' | '\n' | '\r'),
        Place::Paragraph => c != '\t',
    }
}

/// A text in a place, written.
fn write_placed<A: Allocator>(alloc: A, text: &str, place: Place) -> Result<String<A>, AllocError>
    ensures { IfOk result (λ s. string_bytes s ≡ placed place text.now) }
{
    let mut out = String::with_capacity(alloc, text.len())?;
    push_placed(&mut out, text, place)?;
    Ok(out)
}

/// Appends a text in a place. `Err` means out of memory; what was appended before it stays.
fn push_placed<A: Allocator>(
    out: &mut String<A>,
    text: &str,
    place: Place,
) -> Result<(), AllocError>
    ensures { OnOk result (string_bytes out.new
        ≡ string_bytes out.old ++ placed place text.now) }
{
    for item in Scanner::new(text) {
        push_item(out, item.kind, &text[item.start..item.end], place)?;
    }
    Ok(())
}

/// Appends an item of this kind in a place. `Err` means out of memory; what was appended before it
/// stays.
fn push_item<A: Allocator>(
    out: &mut String<A>,
    kind: Kind,
    piece: &str,
    place: Place,
) -> Result<(), AllocError>
    requires kind { kind ≡ kind_of (piece_of_kind kind piece.now) }
    requires bytes { piece.now ≡ spelling (piece_of_kind kind piece.now) }
    ensures { OnOk result (string_bytes out.new
        ≡ string_bytes out.old ++ piece_in place (piece_of_kind kind piece.now)) }
{
    match kind {
        Kind::Text => push_run(out, piece, place),
        _ if may_stay(kind, piece, Links::Keep) => out.push_str(piece),
        _ => Ok(()),
    }
}

/// Appends a run in a place. `Err` means out of memory; what was appended before it stays.
fn push_run<A: Allocator>(out: &mut String<A>, run: &str, place: Place) -> Result<(), AllocError>
    ensures { OnOk result (string_bytes out.new
        ≡ string_bytes out.old ++ encode_utf8_all (run_in place (chars run.now))) }
{
    let mut left = push_ordinary(out, run)?;
    while let Some((c, after)) = split_first(left) {
        push_char(out, c, after, place)?;
        left = push_ordinary(out, after)?;
    }
    Ok(())
}

/// Appends the ordinary characters that a run begins with, and returns what follows. `Err` means
/// out of memory; what was appended before it stays.
#[inline(always)]
fn push_ordinary<'t, A: Allocator>(out: &mut String<A>, run: &'t str) -> Result<&'t str, AllocError>
    ensures written { IfOk result (λ after. (place : Place) →
        string_bytes out.new ++ encode_utf8_all (run_in place (chars after.now))
        ≡ string_bytes out.old ++ encode_utf8_all (run_in place (chars run.entry.now))) }
    ensures shorter { IfOk result (λ after.
        length (chars after.now) ≤ length (chars run.entry.now)) }
{
    let (ordinary, after) = split_ordinary(run, false);
    out.push_str(ordinary)?;
    Ok(after)
}

/// Appends a character of a run, in front of this text, in a place. `Err` means out of memory; what
/// was appended before it stays.
fn push_char<A: Allocator>(
    out: &mut String<A>,
    c: char,
    after: &str,
    place: Place,
) -> Result<(), AllocError>
    ensures { OnOk result (
        string_bytes out.new ++ encode_utf8_all (run_in place (chars after.now))
        ≡ string_bytes out.old ++ encode_utf8_all (run_in place (c ∷ chars after.now))) }
{
    if !is_allowed(c, after) {
        return Ok(());
    }
    push_in_place(out, c, place)
}

/// Appends a character that is allowed, in a place. `Err` means out of memory; what was appended
/// before it stays.
fn push_in_place<A: Allocator>(out: &mut String<A>, c: char, place: Place) -> Result<(), AllocError>
    ensures { OnOk result (string_bytes out.new
        ≡ string_bytes out.old ++ encode_utf8_all (in_place place c)) }
{
    match (place, c) {
        (_, '\t') | (Place::Cell, '\n') => out.push(' '),
        (Place::Cell, '\r') => Ok(()),
        _ => out.push(c),
    }
}
