//! The texts of cells that are select graphic renditions and characters that are clusters by
//! themselves beside each other, as printable ASCII and most letters are. They stay as they are, and one
//! pass tells their columns and the style at their end, or where they are cut and the style there. A
//! paragraph that fits into one line is such a text too.
ghost use Rattle.std.specs.Prelude.{◌≡◌, ◌+◌, ◌-◌, ◌<◌, ◌≤◌, ℕ, min, IfSome, MatchOption, IsTrue, length, slice_range};
ghost use Rattle.std.specs.List.{list_all, prefix_len};
ghost use Rattle.std.specs.Str.{IsCharBoundary};
ghost use Rattle.ansi_style.specs.Rendition.{plain_style};
ghost use Rattle.ansi_style.specs.States.{rendition_of};
ghost use Rattle.ansi_safe.specs.Safe.{is_printable_byte};
ghost use Rattle.ansi_clusters.specs.declared.walks.Walk.{Walk};
ghost use Rattle.ansi_cells.specs.PlainCells.{IsFront, IsPlainCell, IsPlainBefore, IsPlainCut};
ghost use Rattle.ansi_clusters.specs.declared.views.View.{View};
ghost use Rattle.ansi_clusters.specs.Letters.{IsPlainFront};
ghost use Rattle.ansi_clusters.specs.Steps.{IsStepOf};
ghost use Rattle.ansi_clusters.specs.Walks.{IsAnyWalk, IsPastAscii, IsFitted};

use ansi_clusters::fits::Fitted;
use ansi_clusters::letters;
use ansi_clusters::steps::{Step, Steps};
use ansi_clusters::walks::Walk;
use ansi_items::ESC;
use ansi_items::ansitok::Kind;
use ansi_safe::printable::printable_len;
use ansi_safe::utf8::is_ascii;
use ansi_style::state::Style;
use ansi_style::styles;
use memchr::memchr;

/// The front of a text of a cell, up to the first run that doesn't fit, or has another character. It
/// stays as it is.
#[derive(Clone, Copy)]
pub struct PlainFront {
    /// The columns of the width that the front leaves.
    pub left: usize,
    /// The number of its plain bytes.
    pub len: usize,
    /// The style at its end. No link is open there.
    pub style: Style,
    /// The last byte of its plain text, or 0 if that is empty.
    pub last: u8,
    /// The walk at the run. `None` if the front is the whole text.
    pub run: Option<Walk>,
}

/// How many bytes at the front of a text are searched for sequences. A search for the next one of a longer
/// text could read far past the width.
pub(crate) const LONGEST: usize = 512;

/// How many bytes before the end of that part a run has to end. A sequence after it could be cut.
const LAST: usize = 64;

/// The front of a text of a cell, if that is the whole text, or goes on past the width in printable ASCII.
/// `None` says nothing.
///
/// If such a run doesn't fit, only one byte more is tested than there are columns left.
pub(crate) fn plain_front(text: &str, width: usize) -> Option<PlainFront>
    ensures { IfSome result (λ f. MatchOption f.run
        (IsPlainCell text.now width f.left (rendition_of f.style) f.last)
        (IsPlainBefore text.now width f.left (rendition_of f.style))) }
{
    let front = plain_runs(text, width)?;
    let Some(run) = front.run else {
        return Some(front);
    };
    if goes_past(text, run, front.left) {
        Some(front)
    } else {
        None
    }
}

/// The front of a text of a cell, if that is the whole text. `None` says nothing. A text that is long, or
/// isn't ASCII, isn't looked at.
#[inline(always)]
pub fn plain_cell(text: &str, width: usize) -> Option<PlainFront>
    ensures { IfSome result (λ f.
        IsPlainCell text.now width f.left (rendition_of f.style) f.last) }
{
    if LONGEST < text.len() || !is_ascii(text.as_bytes()) {
        return None;
    }
    if let Some(front) = bare_front(text, width) {
        return Some(front);
    }
    let front = plain_runs(text, width)?;
    match front.run {
        Some(_) => None,
        None => Some(front),
    }
}

/// The same as `plain_runs`, of a text that may be one line of this width. `None` says nothing.
#[inline(always)]
pub fn line_runs(text: &str, width: usize) -> Option<PlainFront>
    ensures { IfSome result (IsFront text.now width) }
{
    if LONGEST < text.len() || begins_otherwise(text) {
        return None;
    }
    if !is_ascii(text.as_bytes()) && !may_be_line(text, width) {
        return None;
    }
    plain_runs(text, width)
}

/// Whether a text that isn't ASCII may be one line, so that its front is looked for. It isn't if it is much
/// longer than the line, ends with a blank, has a link or another control string first, or if a rule on
/// clusters may join its first other character to another one. Without a sequence it isn't either if it has more
/// bytes than the line has columns, and its first other character is a no-break blank or a sign such as `°`.
fn may_be_line(text: &str, width: usize) -> bool {
    let bytes = text.as_bytes();
    if width.saturating_mul(2) < bytes.len() || matches!(bytes, [.., b' ']) {
        return false;
    }
    let escape = memchr(ESC, bytes);
    if let Some(at) = escape
        && !matches!(bytes.get(at + 1), Some(b'['))
    {
        return false;
    }
    let others = &bytes[ascii_len(bytes)..];
    if escape.is_none() && width < bytes.len() && matches!(others, [0xC2, ..]) {
        return false;
    }
    !may_join(others)
}

/// How many bytes of ASCII are at the front, in blocks of 8, and then one by one.
#[inline(always)]
fn ascii_len(bytes: &[u8]) -> usize
    ensures { result ≤ length bytes.now }
{
    let mut at = 0;
    while 8 <= bytes.len() - at && is_ascii(&bytes[at..at + 8]) {
        at += 8;
    }
    while at < bytes.len() && bytes[at] < 0x80 {
        at += 1;
    }
    at
}

/// Whether bytes begin with a character that a rule on clusters may join to another one: an accent, a letter of
/// a script that has marks, a Hangul syllable, a symbol or an emoji. `false` says nothing.
#[inline(always)]
fn may_join(bytes: &[u8]) -> bool {
    matches!(
        bytes,
        [0xCC | 0xCD | 0xE0 | 0xE1 | 0xEA..=0xED | 0xF0..=0xFF, ..] | [0xE2, 0x98..=0xBF, ..]
    )
}

/// The front of a text of a cell, up to the first run that doesn't fit or has a character that a rule on
/// clusters may join to another one. `None` says nothing. Of a long text only the front is looked at.
pub(crate) fn plain_runs(text: &str, width: usize) -> Option<PlainFront>
    ensures { IfSome result (IsFront text.now width) }
{
    if begins_otherwise(text) {
        return None;
    }
    let near = &text[..text.floor_char_boundary(LONGEST)];
    let most = if near.len() < text.len() {
        near.len().saturating_sub(LAST)
    } else {
        near.len()
    };
    let mut style = styles::plain_style();
    let mut left = width;
    let mut last = 0;
    let mut others = Others {
        len: 0,
        left: width,
        spare: 0,
    };
    for step in Steps::new(near) {
        let piece = &near[step.item.start..step.item.end];
        if step.item.kind == Kind::Sgr {
            styles::apply(&mut style, piece);
            continue;
        }
        if step.item.kind != Kind::Text {
            return None;
        }
        if step.is_printable() && piece.len() <= left && step.item.end <= most {
            left -= piece.len();
            last = piece.as_bytes()[piece.len() - 1];
            continue;
        }
        let all = left + others.spare;
        let len = others.len + (others.left - all);
        // Of a long text, only printable ASCII is passed.
        let room = if near.len() < text.len() { 0 } else { all };
        let Some((columns, spare)) = columns_of_others(near, step, room) else {
            let run = Walk::at_run(&step.item, len);
            return Some(PlainFront {
                left: all,
                len,
                style,
                last,
                run: Some(run),
            });
        };
        last = piece.as_bytes()[piece.len() - 1];
        others = Others {
            len: len + piece.len(),
            left: all - columns,
            spare,
        };
        left = all - columns - spare;
    }
    if near.len() < text.len() {
        return None;
    }
    let all = left + others.spare;
    Some(PlainFront {
        left: all,
        len: others.len + (others.left - all),
        style,
        last,
        run: None,
    })
}

/// The front of a text up to its last run so far that isn't all ASCII.
#[derive(Clone, Copy)]
struct Others {
    /// The number of its plain bytes.
    len: usize,
    /// The columns that it leaves.
    left: usize,
    /// How many of them the runs after it don't take, so that they are left for a tail.
    spare: usize,
}

/// The columns of a run, if its characters are clusters by themselves beside each other, and fit into `most`
/// columns, and how many columns to leave for a tail: one if more follows. `None` says nothing: a run that seems
/// too wide or to have other characters isn't looked at.
#[inline(always)]
fn columns_of_others(text: &str, run: Step, most: usize) -> Option<(usize, usize)>
    requires { IsStepOf text.now run }
    ensures run { IfSome result (λ (columns, spare).
        IsPlainFront (slice_range text.now run.item.start run.item.end)
        (run.item.end - run.item.start) columns) }
    ensures most { IfSome result (λ (columns, spare). columns + spare ≤ most) }
{
    let bytes_of_run = &text.as_bytes()[run.item.start..run.item.end];
    // Letters have at most two bytes for a column, and most runs of Japanese three for two.
    let bytes = match bytes_of_run {
        [0..=0x7F, ..] => most,
        [0xC0..=0xDF, ..] => most.saturating_mul(2),
        _ => most.saturating_add(most / 2),
    };
    if bytes < bytes_of_run.len() || may_join(bytes_of_run) {
        return None;
    }
    columns_that_fit(text, run, most)
}

/// The same, of any run.
#[inline(never)]
fn columns_that_fit(text: &str, run: Step, most: usize) -> Option<(usize, usize)>
    requires { IsStepOf text.now run }
    ensures run { IfSome result (λ (columns, spare).
        IsPlainFront (slice_range text.now run.item.start run.item.end)
        (run.item.end - run.item.start) columns) }
    ensures most { IfSome result (λ (columns, spare). columns + spare ≤ most) }
{
    let (len, columns) = plain_part(text, run);
    let spare = if run.item.end < text.len() { 1 } else { 0 };
    if len < run.item.end - run.item.start || most < columns || most - columns < spare {
        return None;
    }
    Some((columns, spare))
}

/// How many bytes of such characters a run begins with, and their columns.
#[inline(always)]
pub(crate) fn plain_part(text: &str, run: Step) -> (usize, usize)
    requires { IsStepOf text.now run }
    ensures { IsPlainFront (slice_range text.now run.item.start run.item.end)
        result.0 result.1 }
{
    let start = run.item.start;
    let end = run.item.end;
    let ascii = run.printable;
    if ascii == end - start || text.as_bytes()[start + ascii] < 0x80 {
        return (ascii, ascii);
    }
    let (len, columns) = letters::plain_front(&text[start + ascii..end]);
    (ascii + len, ascii + columns)
}

/// The front of a text of a cell, if that is a text of printable ASCII alone that fits. `None` says
/// nothing.
#[inline(always)]
pub(crate) fn bare_front(text: &str, width: usize) -> Option<PlainFront>
    ensures cell { IfSome result (λ f.
        IsPlainCell text.now width f.left (rendition_of f.style) f.last) }
    ensures bare { IfSome result (λ f. IsPlainCell text.now width f.left plain_style f.last) }
{
    let len = text.len();
    if len == 0 || width < len || !is_printable(text, 0, len) {
        return None;
    }
    Some(PlainFront {
        left: width - len,
        len,
        style: styles::plain_style(),
        last: text.as_bytes()[len - 1],
        run: None,
    })
}

/// Whether a text begins with an ESC that begins no control sequence, as a link or a title does, or with a
/// character that a rule on clusters may join to another one.
#[inline(always)]
fn begins_otherwise(text: &str) -> bool {
    matches!(text.as_bytes(), [0x1B, 0..=0x5A | 0x5C..=0xFF, ..]) || may_join(text.as_bytes())
}

/// The longest known prefix of a text that fits, after what `plain_runs` returned for `width`.
#[inline(always)]
pub(crate) fn fitted(text: &str, width: usize, front: &Option<PlainFront>) -> Fitted
    requires { IfSome front.now (IsFront text.now width) }
    ensures { IsFitted View.Shown text.now width result }
{
    if let Some(front) = front
        && let Some(walk) = front.run
        && (walk.position == 0 || walk.ends_ascii(text))
    {
        return Fitted {
            walk,
            left: front.left,
        };
    }
    Fitted::start(text, width)
}

/// Whether more than `count` bytes of printable ASCII come next in a run, each of them a cluster by
/// itself. `false` says nothing.
pub(crate) fn goes_past(text: &str, run: Walk, count: usize) -> bool
    requires { IsAnyWalk text.now run }
    ensures { IsTrue result → (n : ℕ) × (count < n)
        × (later : Walk) × IsPastAscii text.now run n later }
{
    if run.run_end - run.offset <= count {
        return false;
    }
    count < run.past_ascii(text, count + 1).1
}

/// Where what fits of a text of a cell ends.
#[derive(Clone, Copy)]
pub(crate) struct PlainCut {
    /// The walk at the place.
    pub(crate) end: Walk,
    /// The style there. No link is open.
    pub(crate) style: Style,
}

/// The end of what fits of a text into `room` columns. `front` is what `plain_front` returned for
/// `width`, and `run` is the walk in it. `None` says nothing.
pub(crate) fn plain_cut(
    text: &str,
    width: usize,
    front: &PlainFront,
    run: Walk,
    room: usize,
) -> Option<PlainCut>
    requires front { IsPlainBefore text.now width front.now.left
        (rendition_of front.now.style) run }
    requires narrower { room ≤ width }
    ensures { IfSome result (λ c. IsPlainCut text.now room (rendition_of c.style) c.end) }
{
    let fewer = width - room;
    if fewer <= front.left {
        return Some(PlainCut {
            end: run.past_printable(text, front.left - fewer),
            style: front.style,
        });
    }
    let front = plain_front(text, room)?;
    let run = front.run?;
    Some(PlainCut {
        end: run.past_printable(text, front.left),
        style: front.style,
    })
}

/// Whether each byte from `start` up to `end` is printable ASCII.
pub(crate) fn is_printable(text: &str, start: usize, end: usize) -> bool
    requires ordered { start ≤ end }
    requires within { end ≤ length text.now }
    ensures { result ≡ list_all is_printable_byte (slice_range text.now start end) }
{
    end - start <= printable_near(text, start, end)
}

/// How many bytes of printable ASCII come next from `start` on. Up to 16 bytes after `end` may be looked at
/// too, and be among them, so that a short run is read 16 bytes at a time as well.
#[inline(always)]
pub(crate) fn printable_near(text: &str, start: usize, end: usize) -> usize
    requires ordered { start ≤ end }
    requires within { end ≤ length text.now }
    ensures { min result (end - start)
        ≡ prefix_len is_printable_byte (slice_range text.now start end) }
{
    let near = text.len().min(end.saturating_add(16));
    printable_len(&text.as_bytes()[start..near])
}
