//! Calls that return the blocks and the parts of a text one by one. The walk is kept in the caller's
//! memory.
ghost use Rattle.std.specs.Prelude.{◌≡◌, not, ◌==◌, ◌≤◌, ◌++◌, length, Some, true, IsUtf8, List, ℕ};
ghost use Rattle.std.specs.Prelude.{IfOk, IfSome, IsTrue, MatchOption, string_bytes};
ghost use Rattle.ansi_str.specs.Blocks.{sequences_before};
ghost use Rattle.ansi_str.specs.States.{rendition_of, rendition_of_numbers};
ghost use Rattle.ansi_str.specs.Written.{start, close, close_if_any};
ghost use Rattle.ansi_split.specs.Spans.{dressed_stretch};
ghost use Rattle.ansi_split.specs.Walks.{renditions_around, IsPartWalk, IsSearchedUpTo};
ghost use Rattle.ansi_style.specs.declared.styles.TheConstants.{SHORT};
ghost use Rattle.ansi_text_calls.specs.Answers.{no, Gives, IsWritten};
ghost use Rattle.ansi_text_calls.specs.Walks.{IsOver, GivesNext, GivesNextPart};
ghost use Rattle.ansi_text_calls.specs.Calls.{BeginsBlocks, BeginsParts, WritesStart, WritesClose};

use crate::answers::{Answer, NO, NOT_UTF8, OK, OUT_OF_MEMORY, TOO_SMALL, write, write_made};
use crate::lists::put;
use ansi_blocks::runs::{Run, first_styled_run, sequences_before};
use ansi_safe::utf8::from_utf8;
use ansi_split::walks::{
    Around, PartWalk, first_run, go_on, is_over, is_styled, next_bare_in, next_in, next_marked_in,
    split_of_walk, walk_in, walk_of_split,
};
use ansi_style::numbers::StyleNumbers;
use ansi_style::state::Style;
use ansi_style::styles;
use ansi_style::styles::SHORT;
use arrayvec::ArrayString;
use std::alloc::{AllocError, Allocator};
use std::borrow::CowStr;
use std::str::from_utf8_unchecked;

/// Room for what sets or resets a style and has more than `SHORT` bytes.
const ROOM: usize = 64;

/// The state of a walk over blocks: the text after the last block, and the style of that block.
#[repr(C)]
#[derive(Clone, Copy)]
pub struct BlockWalk<'a> {
    pub rest: &'a [u8],
    pub style: StyleNumbers,
}

/// A block: its run, which is a stretch of the text, and its style. The sequences before the run
/// are returned separately.
#[repr(C)]
#[derive(Clone, Copy)]
pub struct NextBlock<'a> {
    pub text: &'a [u8],
    pub style: StyleNumbers,
}

/// A part that is a stretch of the text.
#[repr(C)]
#[derive(Clone, Copy)]
pub struct NextPart<'a> {
    pub text: &'a [u8],
}

/// Begins a walk over the blocks of a text.
pub fn blocks_begin<'a>(text: &'a [u8], walk: &mut BlockWalk<'a>) -> Answer
    ensures { BeginsBlocks text.now result walk.old walk.new }
{
    let Ok(text) = from_utf8(text) else {
        return Answer::failed(NOT_UTF8);
    };
    *walk = walk_over(text);
    Answer::done(0)
}

/// A walk at the beginning of a text.
pub fn walk_over(text: &str) -> BlockWalk<'_>
    ensures { IsOver text.now result }
{
    BlockWalk {
        rest: text.as_bytes(),
        style: StyleNumbers::of(&styles::plain_style()),
    }
}

/// Writes the sequences before the first run of a text. Allocates only if an SGR follows one of
/// them.
fn write_waiting<A: Allocator>(alloc: A, text: &str, run: &Run<'_>, buffer: &mut [u8]) -> Answer
    requires len { run.now.len_before ≡ length (sequences_before text.now 0) }
    requires together { IfSome run.now.together (λ s. s.now ≡ sequences_before text.now 0) }
    ensures { Gives no (not (length (sequences_before text.now 0) == 0))
        (Some (sequences_before text.now 0)) result buffer.old buffer.new }
{
    if run.len_before == 0 {
        return Answer::done(0);
    }
    match run.together {
        Some(sequences) => write(sequences.as_bytes(), buffer),
        None => write_made(sequences_before(alloc, text, run.len_before), buffer),
    }
}

/// Takes the next block off a walk.
pub fn blocks_next<'a, A: Allocator>(
    alloc: A,
    walk: &mut BlockWalk<'a>,
    block: &mut NextBlock<'a>,
    buffer: &mut [u8],
) -> Answer
    requires { IsUtf8 walk.old.rest.now }
    ensures utf8 { IsUtf8 walk.new.rest.now }
    ensures next { GivesNext walk.old walk.new block.old block.new result buffer.old buffer.new }
{
    let text = unsafe { from_utf8_unchecked(walk.rest) };
    let mut style = walk.style.style();
    let Some(run) = first_styled_run(text, &mut style) else {
        return Answer::failed(NO);
    };
    let answer = write_waiting(alloc, text, &run, buffer);
    if answer.status == OK {
        let style = StyleNumbers::of(&style);
        *walk = BlockWalk {
            rest: run.rest.as_bytes(),
            style,
        };
        *block = NextBlock {
            text: run.text.as_bytes(),
            style,
        };
    }
    answer
}

/// The sequences that set a style. Allocates only if they have more than `SHORT` bytes.
#[tactic(auto, using(ansi_style::proofs::UnsetLemmas::unset_styles))]
pub fn style_start<A: Allocator>(alloc: A, style: &StyleNumbers, buffer: &mut [u8]) -> Answer
    ensures { WritesStart (rendition_of_numbers style.now) result buffer.old buffer.new }
{
    let style = style.style();
    if !styles::has_any(&style) {
        return Answer::done(0);
    }
    match styles::short_start(&style) {
        Some(start) => write(start.as_str().as_bytes(), buffer),
        None => write_made(start_of(alloc, &style), buffer),
    }
}

/// The sequences that set a style, as a text of its own. `Err` means out of memory.
fn start_of<A: Allocator>(alloc: A, style: &Style) -> Result<String<A>, AllocError>
    ensures { IfOk result (λ s. string_bytes s ≡ start (rendition_of style.now)) }
{
    let mut start = String::with_capacity(alloc, ROOM)?;
    styles::write_start(style, &mut start)?;
    Ok(start)
}

/// The sequences that reset a style. Allocates only if they have more than `SHORT` bytes.
pub fn style_end<A: Allocator>(alloc: A, style: &StyleNumbers, buffer: &mut [u8]) -> Answer
    ensures { WritesClose (rendition_of_numbers style.now) result buffer.old buffer.new }
{
    let style = style.style();
    if !styles::has_any(&style) {
        return Answer::done(0);
    }
    match styles::short_close(&style) {
        Some(end) => write(end.as_str().as_bytes(), buffer),
        None => write_made(close_of(alloc, &style), buffer),
    }
}

/// The sequences that reset a style, as a text of its own. `Err` means out of memory.
fn close_of<A: Allocator>(alloc: A, style: &Style) -> Result<String<A>, AllocError>
    ensures { IfOk result (λ s. string_bytes s ≡ close (rendition_of style.now)) }
{
    let mut end = String::with_capacity(alloc, ROOM)?;
    styles::write_close(style, &mut end)?;
    Ok(end)
}

/// Begins a walk over the parts of a text between the matches of a pattern.
pub fn parts_begin<'a>(text: &'a [u8], pattern: &'a [u8], walk: &mut PartWalk<'a>) -> Answer
    ensures { BeginsParts text.now pattern.now result walk.old walk.new }
{
    let Ok(text) = from_utf8(text) else {
        return Answer::failed(NOT_UTF8);
    };
    let Ok(pat) = from_utf8(pattern) else {
        return Answer::failed(NOT_UTF8);
    };
    *walk = walk_in(text, pat);
    Answer::done(0)
}

/// Takes the next part off a walk.
pub fn parts_next<'a, A: Allocator + Copy>(
    alloc: A,
    walk: &mut PartWalk<'a>,
    part: &mut NextPart<'a>,
    buffer: &mut [u8],
) -> Answer
    requires { IsPartWalk walk.old }
    ensures walk { IsPartWalk walk.new }
    ensures next { GivesNextPart walk.old walk.new part.old part.new result buffer.old buffer.new }
{
    if is_over(walk) {
        return Answer::failed(NO);
    }
    if is_styled(walk) {
        return styled_part(alloc, walk, part, buffer);
    }
    match next_bare_in(walk) {
        Ok(bare) => {
            *part = NextPart {
                text: bare.as_bytes(),
            };
            Answer::done(0)
        }
        Err(later) => marked_part(alloc, walk, later, part, buffer),
    }
}

/// Takes the next part off a walk, also if a style is carried into it.
fn styled_part<'a, A: Allocator + Copy>(
    alloc: A,
    walk: &mut PartWalk<'a>,
    part: &mut NextPart<'a>,
    buffer: &mut [u8],
) -> Answer
    requires { IsPartWalk walk.old }
    ensures walk { IsPartWalk walk.new }
    ensures next { GivesNextPart walk.old walk.new part.old part.new result buffer.old buffer.new }
{
    let (run, after) = match first_run(walk) {
        Ok(first) => first,
        Err(later) => return marked_part(alloc, walk, later, part, buffer),
    };
    let Some(style) = run.style else {
        go_on(walk, after);
        *part = NextPart {
            text: run.text.as_bytes(),
        };
        return Answer::done(0);
    };
    let answer = write_run(alloc, run.text, &style, buffer);
    if answer.status == OK {
        go_on(walk, after);
    }
    answer
}

/// Takes the next part off a walk, if that doesn't end in the stretch that is known to have no ESC. The
/// next match is searched for from `later` on. Allocates only if a sequence is in the match before the
/// part, or if the start or the close that is written has more than `SHORT` bytes. (Not inlined, since
/// most parts need none of its room.)
#[inline(never)]
fn marked_part<'a, A: Allocator + Copy>(
    alloc: A,
    walk: &mut PartWalk<'a>,
    later: usize,
    part: &mut NextPart<'a>,
    buffer: &mut [u8],
) -> Answer
    requires walk { IsPartWalk walk.old }
    requires searched { IsSearchedUpTo walk.old later }
    ensures walk { IsPartWalk walk.new }
    ensures next { GivesNextPart walk.old walk.new part.old part.new result buffer.old buffer.new }
{
    let mut parts = split_of_walk(alloc, walk, later);
    let Some(stretch) = next_marked_in(&mut parts) else {
        return walked_part(alloc, walk, part, buffer);
    };
    let Some(around) = &stretch.around else {
        *walk = walk_of_split(&parts);
        *part = NextPart {
            text: stretch.text.as_bytes(),
        };
        return Answer::done(0);
    };
    let Some(answer) = write_dressed(stretch.text, around, buffer) else {
        return walked_part(alloc, walk, part, buffer);
    };
    if answer.status == OK {
        *walk = walk_of_split(&parts);
    }
    answer
}

/// Writes a stretch with what sets and resets the styles around it, if that is short. After `None` the
/// buffer is as it was.
#[inline(always)]
fn write_dressed(text: &str, around: &Around, buffer: &mut [u8]) -> Option<Answer>
    ensures { MatchOption result (buffer.new ≡ buffer.old) (λ answer. IsWritten
        (dressed_stretch (renditions_around (Some around.now)) text.now) answer buffer.old buffer.new) }
{
    if adds_nothing(around) {
        return Some(write(text.as_bytes(), buffer));
    }
    let start = short_start(&around.before);
    let close = close_if_any(&around.after);
    let (Some(start), Some(close)) = (&start, &close) else {
        return None;
    };
    Some(write_between(start.as_str(), text, close.as_str(), buffer))
}

/// Whether nothing is written before and after a stretch with these styles around it.
#[inline(always)]
pub(crate) fn adds_nothing(around: &Around) -> bool
    ensures { IsTrue result → (x : List ℕ) →
        dressed_stretch (renditions_around (Some around.now)) x ≡ x }
{
    !styles::has_any(&around.before) && !styles::has_any(&around.after)
}

/// The close of a style that has anything to reset, if it is short. `None` says nothing.
pub(crate) fn close_if_any(style: &Style) -> Option<ArrayString<SHORT>>
    ensures { IfSome result (λ s. s.bytes ≡ close_if_any (rendition_of style.now)) }
{
    if !styles::has_any(style) {
        return Some(ArrayString::new());
    }
    styles::short_close(style)
}

/// Takes the next part off a walk. It is written as a text of its own.
fn walked_part<'a, A: Allocator + Copy>(
    alloc: A,
    walk: &mut PartWalk<'a>,
    part: &mut NextPart<'a>,
    buffer: &mut [u8],
) -> Answer
    requires { IsPartWalk walk.old }
    ensures walk { IsPartWalk walk.new }
    ensures next { GivesNextPart walk.old walk.new part.old part.new result buffer.old buffer.new }
{
    let before = *walk;
    let answer = match next_in(alloc, walk) {
        None => Answer::failed(NO),
        Some(Ok(CowStr::Borrowed(text))) => {
            *part = NextPart {
                text: text.as_bytes(),
            };
            return Answer::done(0);
        }
        Some(Ok(CowStr::Owned(text))) => write(text.as_bytes(), buffer),
        Some(Err(_)) => Answer::failed(OUT_OF_MEMORY),
    };
    if answer.status != OK {
        *walk = before;
    }
    answer
}

/// Writes a text between the start and the close of a style. Allocates only if one of them has more
/// than `SHORT` bytes.
fn write_run<A: Allocator>(alloc: A, text: &str, style: &Style, buffer: &mut [u8]) -> Answer
    ensures { Gives no true (Some (start (rendition_of style.now) ++ text.now
        ++ close (rendition_of style.now))) result buffer.old buffer.new }
{
    let start = styles::short_start(style);
    let close = styles::short_close(style);
    let (Some(start), Some(close)) = (&start, &close) else {
        return write_made(styled(alloc, text, style), buffer);
    };
    write_between(start.as_str(), text, close.as_str(), buffer)
}

/// A text between the start and the close of a style. `Err` means out of memory.
fn styled<A: Allocator>(alloc: A, text: &str, style: &Style) -> Result<String<A>, AllocError>
    ensures { IfOk result (λ s. string_bytes s
        ≡ start (rendition_of style.now) ++ text.now ++ close (rendition_of style.now)) }
{
    let mut out = styles::with_room(alloc, style, text.len(), style)?;
    styles::write_start(style, &mut out)?;
    out.push_str(text)?;
    styles::write_close(style, &mut out)?;
    Ok(out)
}

/// Writes a text between two short ones, if there is room for all three.
pub fn write_between(start: &str, text: &str, close: &str, buffer: &mut [u8]) -> Answer
    requires start { length start.now ≤ SHORT }
    requires close { length close.now ≤ SHORT }
    ensures { IsWritten (start.now ++ text.now ++ close.now) result buffer.old buffer.new }
{
    let len = start.len() + text.len() + close.len();
    if len > buffer.len() {
        return Answer {
            status: TOO_SMALL,
            len,
        };
    }
    let place = put(start.as_bytes(), 0, buffer);
    let place = put(text.as_bytes(), place, buffer);
    put(close.as_bytes(), place, buffer);
    Answer::done(len)
}

/// The start of a style, if it is short. `None` says nothing.
#[inline(always)]
pub fn short_start(style: &Style) -> Option<ArrayString<SHORT>>
    ensures { IfSome result (λ s. s.bytes ≡ start (rendition_of style.now)) }
{
    if !styles::has_any(style) {
        return Some(ArrayString::new());
    }
    styles::short_start(style)
}
