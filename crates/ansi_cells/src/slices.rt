//! Slices of a text by columns, ready for display. A slice opens the style and the link that are
//! open where it begins, and closes what is open where it ends.
ghost use Rattle.std.specs.Prelude.{◌≡◌, ◌≤◌, ◌<◌, ◌↔◌, ◌+◌, ◌^◌, ◌==◌, ◌&&◌, ◌++◌, length};
ghost use Rattle.std.specs.Prelude.{nat_lt, nat_le};
ghost use Rattle.std.specs.Prelude.{if◌then◌else◌, IsTrue, IsOk, IfOk, IfSome, MatchOption, OnOk};
ghost use Rattle.std.specs.Prelude.{string_bytes};
ghost use Rattle.std.specs.Cow.{cow_str_bytes, IsBorrowedStr};
ghost use Rattle.std.specs.List.{list_all};
ghost use Rattle.std.specs.Str.{IsAscii, IsCharBoundary};
ghost use Rattle.ansi_items.specs.Pieces.{pieces_of};
ghost use Rattle.ansi_items.specs.Scans.{kind_of, piece_of};
ghost use Rattle.ansi_items.specs.Plain.{plain, is_whole};
ghost use Rattle.ansi_style.specs.Written.{longest_start_and_close};
ghost use Rattle.ansi_safe.specs.Cells.{cell};
ghost use Rattle.ansi_safe.specs.Links.{longest_link_end, IsClosed};
ghost use Rattle.ansi_safe.specs.Safe.{is_safe, is_clean_link};
ghost use Rattle.ansi_safe.specs.declared.policy.Links.TheVariants.{Keep};
ghost use Rattle.ansi_cells.specs.OneLine.{is_one_line};
ghost use Rattle.ansi_clusters.specs.Columns.{columns_of};
ghost use Rattle.ansi_cells.specs.Slices.{has_no_column, is_stretch, slice_blanks};
ghost use Rattle.ansi_cells.specs.Slices.{is_sliced_stretch, sliced_blanks, sliced_up_to, sliced};
ghost use Rattle.ansi_cells.specs.Slices.{AreParts, is_ascii_piece, IsAsciiSlice, IsShownCell, IsEdge, closed_at};
ghost use Rattle.ansi_cells.specs.Slices.{sliced_bytes, IsLentSlice};
ghost use Rattle.ansi_cells.specs.Screens.{screen, sliced_screen};
ghost use Rattle.ansi_clusters.specs.Steps.{IsStepOf};
ghost use Rattle.ansi_clusters.specs.Walks.{IsWalk, clusters_from};

use crate::plain_cells::{LONGEST, is_printable};
use crate::shown::push_blanks;
use ansi_clusters::steps::{Step, Steps};
use ansi_clusters::views::View;
use ansi_clusters::walks::{Run, Walk};
use ansi_items::ESC;
use ansi_items::ansitok::Kind;
use ansi_safe::cells::cell_of;
use ansi_safe::links::{
    Ending, Pen, is_short_link, link_after, pen_after, pen_after_from, plain_pen, terminator_len,
};
use ansi_safe::printable::printable_len;
use ansi_safe::utf8::is_ascii;
use ansi_slice::slice::push_sequences;
use ansi_style::styles;
use memchr::memrchr;
use std::alloc::{AllocError, Allocator};
use std::borrow::CowStr;

/// Like `AnsiColumns::ansi_slice`, from the column `start` up to `end`, or to the last one if `end`
/// is `None`, with any allocator. The result may borrow from the text and lives as long as it.
///
/// ```
/// let part = slice(rt.alloc(), "\x1b[31m日本語\x1b[39m", 1, Some(4))?;
/// assert!(rt; part.as_str() == "\x1b[31m 本\x1b[39m");
/// ```
pub fn slice<'t, A: Allocator + Copy>(
    alloc: A,
    text: &'t str,
    start: usize,
    end: Option<usize>,
) -> Result<CowStr<'t, A>, AllocError>
    ensures bytes { IfOk result (λ c. cow_str_bytes c ≡ sliced (cell text.now) start end) }
    ensures safe { IfOk result (λ c. IsTrue (is_safe Keep (cow_str_bytes c))) }
    ensures one_line { IfOk result (λ c. IsTrue (is_one_line (cow_str_bytes c))) }
    ensures closed { IfOk result (λ c. IsClosed (cow_str_bytes c)) }
    ensures screen { IfOk result (λ c.
        screen (cow_str_bytes c) ≡ sliced_screen start end (screen (cell text.now))) }
    ensures whole { IfOk result (λ c. IsTrue (is_whole (cow_str_bytes c))) }
    ensures borrowed { IfOk result (λ c. IsBorrowedStr c ↔ ((cell text.now ≡ text.now)
        × IsTrue (is_sliced_stretch text.now start end))) }
    ensures len { IfOk result (λ c. length (cow_str_bytes c) ≤ length (cell text.now)
        + sliced_blanks (cell text.now) start end + longest_start_and_close + longest_link_end) }
    ensures takes_no_memory { (cell text.now ≡ text.now)
        × IsTrue (is_sliced_stretch text.now start end) → IsOk result }
{
    slice_shown(alloc, text, start, end)?.join(alloc)
}

/// Like [`slice`], not joined yet.
///
/// ```
/// let part = slice_shown(rt.alloc(), "\x1b[31mabc\x1b[39m", 1, Some(2))?;
/// assert!(rt; matches!(&part, Sliced::Stretch(part) if part.text == "b"));
/// assert!(rt; part.join(rt.alloc())?.as_str() == "\x1b[31mb\x1b[39m");
/// ```
#[inline(always)]
pub fn slice_shown<'t, A: Allocator + Copy>(
    alloc: A,
    text: &'t str,
    start: usize,
    end: Option<usize>,
) -> Result<Sliced<'t, A>, AllocError>
    ensures bytes { IfOk result (λ s. sliced_bytes s ≡ sliced (cell text.now) start end) }
    ensures borrowed { IfOk result (λ s. IsLentSlice s ↔ ((cell text.now ≡ text.now)
        × IsTrue (is_sliced_stretch text.now start end))) }
    ensures len { IfOk result (λ s. length (sliced_bytes s) ≤ length (cell text.now)
        + sliced_blanks (cell text.now) start end + longest_start_and_close + longest_link_end) }
    ensures takes_no_memory { (cell text.now ≡ text.now)
        × IsTrue (is_sliced_stretch text.now start end) → IsOk result }
{
    let end = end.unwrap_or(usize::MAX);
    if let Some(slice) = ascii_slice(text, start, end, false) {
        return Ok(slice);
    }
    match cell_of(alloc, text)? {
        CowStr::Borrowed(cell) => Ok(Sliced::Joined(slice_up_to(alloc, cell, start, end)?)),
        CowStr::Owned(cell) => {
            let slice = slice_cell(alloc, cell.as_str(), start, end)?.join(alloc)?;
            Ok(Sliced::Joined(CowStr::Owned(slice.into_owned(alloc)?)))
        }
    }
}

/// A slice that is ready for display, and may be not joined yet. (Own.)
///
/// ```
/// let part = slice_shown(rt.alloc(), "\x1b[31mabc", 0, Some(2))?;
/// assert!(rt; matches!(&part, Sliced::Stretch(part) if part.text == "\x1b[31mab"));
/// ```
#[derive(Drop)]
pub enum Sliced<'t, A: Allocator> {
    /// It is joined, or nothing is written before and after its text.
    Joined(CowStr<'t, A>),
    /// Something is.
    Stretch(Stretch<'t>),
}

/// A stretch of a text of a cell, and what is written before and after it. (Own.)
///
/// ```
/// let part = slice_shown(rt.alloc(), "\x1b[31mabc", 1, Some(2))?;
/// assert!(rt; matches!(&part, Sliced::Stretch(part) if !part.opened.is_plain()));
/// ```
#[derive(Clone, Copy)]
pub struct Stretch<'t> {
    /// The pen that is opened.
    pub opened: Pen<'t>,
    /// The stretch.
    pub text: &'t str,
    /// What ends its pen.
    pub ending: Ending,
}

impl<'t, A: Allocator> Sliced<'t, A> {
    ghost use Rattle.std.specs.Prelude.{◌≡◌, ◌↔◌, IfOk, IsOk};
    ghost use Rattle.std.specs.Cow.{cow_str_bytes, IsBorrowedStr};
    ghost use Rattle.ansi_cells.specs.Slices.{sliced_bytes, IsLentSlice};

    /// The slice, as it is joined. A borrow if nothing is written before and after its text. `Err`
    /// means out of memory.
    ///
    /// ```
    /// let part = slice_shown(rt.alloc(), "\x1b[31mabc", 0, Some(2))?;
    /// assert!(rt; part.join(rt.alloc())?.as_str() == "\x1b[31mab\x1b[39m");
    /// ```
    #[inline(always)]
    pub fn join(self, alloc: A) -> Result<CowStr<'t, A>, AllocError>
        ensures bytes { IfOk result (λ c. cow_str_bytes c ≡ sliced_bytes self.entry) }
        ensures borrowed { IfOk result (λ c. IsBorrowedStr c ↔ IsLentSlice self.entry) }
        ensures takes_no_memory { IsLentSlice self.entry → IsOk result }
    {
        match self {
            Sliced::Joined(text) => Ok(text),
            Sliced::Stretch(stretch) => Ok(CowStr::Owned(stretch.join(alloc)?)),
        }
    }
}

impl<'t> Stretch<'t> {
    ghost use Rattle.std.specs.Prelude.{◌≡◌, IfOk, string_bytes};
    ghost use Rattle.ansi_cells.specs.Slices.{stretch_bytes};

    /// The stretch with what is written before and after it. `Err` means out of memory.
    ///
    /// ```
    /// let part = slice_shown(rt.alloc(), "\x1b[31mabc", 2, None)?;
    /// if let Sliced::Stretch(part) = part {
    ///     assert!(rt; part.join(rt.alloc())?.as_str() == "\x1b[31mc\x1b[39m");
    /// }
    /// ```
    pub fn join<A: Allocator>(&self, alloc: A) -> Result<String<A>, AllocError>
        ensures bytes { IfOk result (λ s. string_bytes s ≡ stretch_bytes self.now) }
    {
        let Stretch {
            opened,
            text,
            ending,
        } = *self;
        let len = text
            .len()
            .saturating_add(opened.link.len())
            .saturating_add(ending.link_end.len());
        let mut out = styles::with_room_to_close(alloc, &opened.style, len, &ending.style)?;
        styles::write_start(&opened.style, &mut out)?;
        out.push_str(opened.link)?;
        out.push_str(text)?;
        ending.push_to(&mut out)?;
        Ok(out)
    }
}

/// The columns of a text of a cell, from `start` up to `end`. It is lent if nothing is written before
/// and after its stretch of the text.
fn slice_cell<'t, A: Allocator>(
    alloc: A,
    text: &'t str,
    start: usize,
    end: usize,
) -> Result<Sliced<'t, A>, AllocError>
    requires { IsShownCell text.now }
    ensures bytes { IfOk result (λ s. sliced_bytes s ≡ sliced_up_to text.now start end) }
    ensures lent { IfOk result (λ s. IsLentSlice s ↔ IsTrue (is_stretch text.now start end)) }
    ensures len { IfOk result (λ s. length (sliced_bytes s) ≤ length text.now
        + slice_blanks (plain text.now) start end + longest_start_and_close + longest_link_end) }
    ensures takes_no_memory { IsTrue (is_stretch text.now start end) → IsOk result }
{
    match ascii_slice(text, start, end, true) {
        Some(slice) => Ok(slice),
        None => Ok(Sliced::Joined(slice_up_to(alloc, text, start, end)?)),
    }
}

/// The same of a text of ASCII that stays as it is in a cell, as it is known to if it `is_cell`. `None` says
/// nothing.
#[inline(always)]
fn ascii_slice<A: Allocator>(
    text: &str,
    start: usize,
    end: usize,
    is_cell: bool,
) -> Option<Sliced<'_, A>>
    requires { IsTrue is_cell → IsShownCell text.now }
    ensures stays { IfSome result (λ _. cell text.now ≡ text.now) }
    ensures bytes { IfSome result (λ s. sliced_bytes s ≡ sliced_up_to text.now start end) }
    ensures lent { IfSome result (λ s. IsLentSlice s ↔ IsTrue (is_stretch text.now start end)) }
    ensures len { IfSome result (λ s. length (sliced_bytes s) ≤ length text.now
        + slice_blanks (plain text.now) start end + longest_start_and_close + longest_link_end) }
{
    if let Some(stretch) = bare_stretch(text, start, end) {
        return Some(Sliced::Joined(CowStr::Borrowed(stretch)));
    }
    if !is_ascii(text.as_bytes()) || !is_cell && !seems_to_stay(text) {
        return None;
    }
    let parts = match ascii_parts(text, start, end, is_cell) {
        AsciiSlice::Unknown => return None,
        AsciiSlice::Nothing => return Some(Sliced::Joined(CowStr::Borrowed(""))),
        AsciiSlice::Parts(parts) => parts,
    };
    if parts.is_middle_alone() {
        return Some(Sliced::Joined(CowStr::Borrowed(parts.text)));
    }
    Some(Sliced::Stretch(Stretch {
        opened: parts.opened,
        text: parts.text,
        ending: parts.closed.ending(),
    }))
}

/// The columns of a text from `start` up to `end`, if the text is printable ASCII alone and not long. `None`
/// says nothing.
#[inline(always)]
fn bare_stretch(text: &str, start: usize, end: usize) -> Option<&str>
    ensures stays { IfSome result (λ _. cell text.now ≡ text.now) }
    ensures bytes { IfSome result (λ s. s.now ≡ sliced_up_to text.now start end) }
    ensures lent { IfSome result (λ _. IsTrue (is_stretch text.now start end)) }
    ensures len { IfSome result (λ s. length s.now ≤ length text.now) }
{
    let len = text.len();
    if LONGEST < len || !ends_printable(text) || !is_printable(text, 0, len) {
        return None;
    }
    if end <= start || len <= start {
        return Some("");
    }
    Some(&text[start..end.min(len)])
}

/// Whether a text ends with printable ASCII. Most texts that aren't bare don't.
#[inline(always)]
fn ends_printable(text: &str) -> bool {
    matches!(text.as_bytes(), [.., 0x20..=0x7E])
}

/// Whether a text of ASCII seems to stay as it is in a cell: its first byte that isn't printable begins a sequence
/// that does, and so does its last ESC. So most texts that don't stay aren't read up to where they don't.
#[inline(always)]
fn seems_to_stay(text: &str) -> bool {
    let bytes = text.as_bytes();
    let front = printable_len(bytes);
    if front == bytes.len() {
        return true;
    }
    if !begins_staying(&bytes[front..]) {
        return false;
    }
    match memrchr(ESC, bytes) {
        Some(last) => begins_staying(&bytes[last..]),
        None => false,
    }
}

/// Whether bytes seem to begin with an SGR, a link, or the end of one.
#[inline(always)]
fn begins_staying(bytes: &[u8]) -> bool {
    match bytes {
        [ESC, b'[', rest @ ..] => {
            let len = rest.iter().take_while(|b| **b < 0x40).count();
            matches!(rest.get(len), Some(b'm'))
        }
        [ESC, b'\\', ..] | [ESC, b']', b'8', ..] => true,
        _ => false,
    }
}

/// The columns of a text as it is, from `start` up to `end`. It is a borrow if nothing is written
/// before and after its stretch of the text.
fn slice_up_to<'t, A: Allocator>(
    alloc: A,
    text: &'t str,
    start: usize,
    end: usize,
) -> Result<CowStr<'t, A>, AllocError>
    ensures bytes { IfOk result (λ c. cow_str_bytes c ≡ sliced_up_to text.now start end) }
    ensures borrowed { IfOk result (λ c.
        IsBorrowedStr c ↔ IsTrue (is_stretch text.now start end)) }
    ensures len { IfOk result (λ c. length (cow_str_bytes c) ≤ length text.now
        + slice_blanks (plain text.now) start end + longest_start_and_close + longest_link_end) }
    ensures takes_no_memory { IsTrue (is_stretch text.now start end) → IsOk result }
{
    match parts_of(text, start, end) {
        Some(parts) => parts.write(alloc),
        None => Ok(CowStr::Borrowed("")),
    }
}

/// Appends the columns of a text as it is, from `start` up to `end`.
pub(crate) fn push_slice<A: Allocator>(
    out: &mut String<A>,
    text: &str,
    start: usize,
    end: usize,
) -> Result<(), AllocError>
    ensures bytes { OnOk result
        (string_bytes out.new ≡ string_bytes out.old ++ sliced_up_to text.now start end) }
    ensures len { OnOk result (length (string_bytes out.new) ≤ length (string_bytes out.old)
        + (length text.now + slice_blanks (plain text.now) start end
        + longest_start_and_close + longest_link_end)) }
{
    match parts_of(text, start, end) {
        Some(parts) => parts.push_to(out),
        None => Ok(()),
    }
}

/// The parts of a slice, in order.
#[derive(Clone, Copy)]
struct Parts<'t> {
    /// The pen that is opened.
    opened: Pen<'t>,
    /// How many blanks replace a cluster that the first edge divides.
    before: usize,
    /// The text from where the pen is opened up to where it is closed.
    text: &'t str,
    /// The number of plain bytes of that cluster, with which the text begins.
    hidden: usize,
    /// How many blanks replace a cluster that the last edge alone divides.
    after: usize,
    /// The pen that is closed.
    closed: Pen<'t>,
}

/// The parts of the slice from the column `start` up to `end`, or `None` if it has no column.
fn parts_of(text: &str, start: usize, end: usize) -> Option<Parts<'_>>
    ensures { MatchOption result (IsTrue (has_no_column (plain text.now) start end))
        (AreParts text.now start end) }
{
    if end <= start {
        return None;
    }
    let columns = end - start;
    let first = edge_after(text, Walk::start(text), start);
    let further = first.before + columns;
    let last = edge_after(text, first.start, further);
    if last.has_none_before(further) {
        return None;
    }
    let from = opened_from(start, first.start);
    let (to, after) = closed_at(text, first.end.position, last);
    let opened = pen_after(&text[..from]);
    let text = &text[from..to];
    Some(Parts {
        opened,
        before: first.after.min(columns),
        text,
        hidden: first.end.position - first.start.position,
        after,
        closed: pen_after_from(opened, text),
    })
}

/// What one pass over a text of ASCII finds.
#[derive(Clone, Copy)]
enum AsciiSlice<'t> {
    /// It says nothing.
    Unknown,
    /// The text stays as it is in a cell, and the slice has no column.
    Nothing,
    /// The text stays as it is in a cell, and these are the parts of the slice.
    Parts(Parts<'t>),
}

/// The parts of the slice of a text of ASCII from the column `start` up to `end`, if the text stays as it is
/// in a cell, as it is known to if it `is_cell`. The text is read once, and each byte of its plain text has one
/// column.
fn ascii_parts(text: &str, start: usize, end: usize, is_cell: bool) -> AsciiSlice<'_>
    requires ascii { IsAscii text.now }
    requires cell { IsTrue is_cell → IsShownCell text.now }
    ensures { IsAsciiSlice text.now start end result }
{
    if end <= start {
        return AsciiSlice::Unknown;
    }
    let mut style = styles::plain_style();
    let mut link = "";
    let mut opened = plain_pen();
    let mut from = 0;
    let mut place = 0;
    for step in Steps::new(text) {
        if !item_stays(text, step) {
            return AsciiSlice::Unknown;
        }
        let piece = &text[step.item.start..step.item.end];
        if step.item.kind == Kind::Text {
            if is_in_run(start, place, piece.len()) {
                from = step.item.start + (start - place);
                opened = Pen { style, link };
            }
            if end - place < piece.len() {
                if !is_cell && !items_stay(&text[step.item.end..]) {
                    return AsciiSlice::Unknown;
                }
                let stretch = &text[from..step.item.start + (end - place)];
                return AsciiSlice::Parts(Parts::stretch(opened, stretch, Pen { style, link }));
            }
            place += piece.len();
        } else if step.item.kind == Kind::Sgr {
            styles::apply(&mut style, piece);
        } else {
            link = link_after(link, piece);
        }
    }
    if place <= start {
        return AsciiSlice::Nothing;
    }
    let stretch = &text[from..text.len()];
    AsciiSlice::Parts(Parts::stretch(opened, stretch, Pen { style, link }))
}

/// Whether each item of a text is printable ASCII, or a sequence that stays as it is in a cell.
fn items_stay(text: &str) -> bool
    ensures { result ≡ list_all is_ascii_piece (pieces_of text.now) }
{
    for step in Steps::new(text) {
        if !item_stays(text, step) {
            return false;
        }
    }
    true
}

/// Whether an item of the text is printable ASCII, or a sequence that stays as it is in a cell.
#[inline(always)]
fn item_stays(text: &str, step: Step) -> bool
    requires step { IsStepOf text.now step }
    requires kind { step.item.kind ≡ kind_of (piece_of text.now step.item) }
    ensures { result ≡ is_ascii_piece (piece_of text.now step.item) }
{
    match step.item.kind {
        Kind::Text => step.is_printable(),
        Kind::Sgr => true,
        Kind::Other => is_clean_link(&text[step.item.start..step.item.end]),
        Kind::Lone => false,
    }
}

/// Whether this is a short link sequence whose bytes are printable ASCII.
fn is_clean_link(sequence: &str) -> bool
    ensures { result ≡ is_clean_link sequence.now }
{
    let bytes = sequence.as_bytes();
    is_short_link(bytes) && is_printable(sequence, 2, bytes.len() - terminator_len(bytes))
}

/// Whether a column after the first one is in a run of ASCII that begins at the position `place`.
fn is_in_run(column: usize, place: usize, len: usize) -> bool
    requires { place + len < 2 ^ 64 }
    ensures { result ≡ (nat_lt 0 column && nat_le place column && nat_lt column (place + len)) }
{
    0 < column && place <= column && column < place + len
}

/// The offset from which on the text of a slice is read, which begins with this column and cluster.
fn opened_from(column: usize, cluster: Walk) -> usize
    ensures { result ≡ (if column == 0 then 0 else cluster.offset) }
{
    if column == 0 { 0 } else { cluster.offset }
}

/// The offset up to which the text of a slice is read, and the number of blanks after it. The first
/// edge of the slice divides no cluster after `from`.
fn closed_at(text: &str, from: usize, last: Edge) -> (usize, usize)
    requires { IsWalk text.now last.start }
    ensures { result ≡ closed_at text.now from last }
{
    if !has_column(text, last.start) {
        (text.len(), 0)
    } else if last.start.position < from {
        (last.start.offset, 0)
    } else {
        (last.start.offset, last.before)
    }
}

/// An edge between two columns.
#[derive(Clone, Copy)]
struct Edge {
    /// Where the first cluster begins that doesn't end before the edge.
    start: Walk,
    /// Where this cluster ends, if the edge divides it; otherwise the same place.
    end: Walk,
    /// How many columns are between `start` and the edge.
    before: usize,
    /// How many columns are between the edge and `end`.
    after: usize,
}

impl Edge {
    ghost use Rattle.std.specs.Prelude.{◌≡◌, ◌==◌, ◌&&◌};

    /// Whether no column is between a walk and this edge, which is `columns` after it. The text has no
    /// column there then.
    fn has_none_before(self, columns: usize) -> bool
        ensures { result ≡ (self.before == columns && self.after == 0) }
    {
        self.before == columns && self.after == 0
    }
}

/// The edge that is this many columns after a walk.
fn edge_after(text: &str, from: Walk, columns: usize) -> Edge
    requires { IsWalk text.now from }
    ensures { IsEdge text.now from.position columns result }
{
    let mut walk = from;
    let mut left = columns;
    'clusters: while left > 0 {
        let (later, more) = walk.past_singles(text, left, View::Given);
        if more > 0 {
            walk = later;
            left -= more;
            continue;
        }
        let Some((next, width)) = walk.read_cluster(text, View::Given) else {
            break;
        };
        if left < width {
            return Edge {
                start: walk,
                end: next,
                before: left,
                after: width - left,
            };
        }
        left -= width;
        walk = next;
    }
    Edge {
        start: walk,
        end: walk,
        before: left,
        after: 0,
    }
}

/// Whether the text has a column after a walk.
fn has_column(text: &str, from: Walk) -> bool
    requires { IsWalk text.now from }
    ensures { result ≡ nat_lt 0 (columns_of (clusters_from text.now from.position)) }
{
    let (_, len, mut run) = from.past_ascii(text, 1);
    if 0 < len {
        return true;
    }
    let mut walk = from;
    'clusters: while let Some((next, width)) = walk.next_cluster_before(text, run, View::Given) {
        if width > 0 {
            return true;
        }
        walk = next;
        run = Run::NONE;
    }
    false
}

impl<'t> Parts<'t> {
    ghost use Rattle.std.specs.Prelude.{◌≡◌, ◌↔◌, ◌++◌, length, nat_eq, IfOk, IsTrue, IsOk};
    ghost use Rattle.std.specs.Prelude.{OnOk, string_bytes};
    ghost use Rattle.std.specs.Cow.{cow_str_bytes, IsBorrowedStr};
    ghost use Rattle.ansi_cells.specs.Slices.{AreWhole, joined_parts, is_middle_alone};

    /// A stretch of a text between two pens, no cluster of which is divided.
    fn stretch(opened: Pen<'t>, text: &'t str, closed: Pen<'t>) -> Parts<'t>
        ensures opened { result.opened ≡ opened.entry }
        ensures text { result.text.now ≡ text.now }
        ensures closed { result.closed ≡ closed.entry }
        ensures whole { (result.before ≡ 0) × (result.hidden ≡ 0) × (result.after ≡ 0) }
    {
        Parts {
            opened,
            before: 0,
            text,
            hidden: 0,
            after: 0,
            closed,
        }
    }

    /// The parts one after another: a borrow if only the text is written.
    fn write<A: Allocator>(&self, alloc: A) -> Result<CowStr<'t, A>, AllocError>
        requires { AreWhole self.now }
        ensures bytes { IfOk result (λ c. cow_str_bytes c ≡ joined_parts self.now) }
        ensures borrowed { IfOk result (λ c.
            IsBorrowedStr c ↔ IsTrue (is_middle_alone self.now)) }
        ensures takes_no_memory { IsTrue (is_middle_alone self.now) → IsOk result }
    {
        if self.is_middle_alone() {
            return Ok(CowStr::Borrowed(self.text));
        }
        let links = self.opened.link.len() + self.closed.link_end().len();
        let shown = self.text.len().saturating_sub(self.hidden);
        let len = shown
            .saturating_add(links)
            .saturating_add(self.before)
            .saturating_add(self.after);
        let mut out = styles::with_room_to_close(
            alloc,
            &self.opened.style,
            len,
            &self.closed.style,
        )?;
        self.push_to(&mut out)?;
        Ok(CowStr::Owned(out))
    }

    /// Whether nothing is written before and after the text.
    fn is_middle_alone(&self) -> bool
        ensures { result ≡ is_middle_alone self.now }
    {
        self.opened.is_plain()
            && self.before == 0
            && self.after == 0
            && self.closed.ending().is_empty()
    }

    /// Appends the parts.
    fn push_to<A: Allocator>(&self, out: &mut String<A>) -> Result<(), AllocError>
        requires { AreWhole self.now }
        ensures { OnOk result (string_bytes out.new
            ≡ string_bytes out.old ++ joined_parts self.now) }
    {
        styles::write_start(&self.opened.style, out)?;
        out.push_str(self.opened.link)?;
        push_blanks(out, self.before)?;
        let shown = push_sequences(out, self.text, self.hidden)?;
        out.push_str(&self.text[shown..])?;
        push_blanks(out, self.after)?;
        self.closed.ending().push_to(out)
    }
}
