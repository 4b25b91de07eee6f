//! Calls that return the blocks, the parts and the lines of a text one by one.
ghost use Rattle.std.specs.Prelude.{IsUtf8};
ghost use Rattle.ansi_str.specs.States.{rendition_of_numbers};
ghost use Rattle.ansi_split.specs.Walks.{IsPartWalk};
ghost use Rattle.ansi_clusters.specs.LineWalks.{IsLineWalk};
ghost use Rattle.ansi_calls.specs.Columns.{BeginsLines, GivesNextLine};
ghost use Rattle.ansi_calls.specs.Walks.{GivesNext, GivesNextPart};
ghost use Rattle.ansi_calls.specs.Calls.{BeginsBlocks, BeginsParts, WritesStart, WritesClose};

use ansi_calls::answers::Answer;
use ansi_calls::lines::{LineEntry, lines_begin, lines_next};
use ansi_calls::walks::{
    BlockWalk, NextBlock, NextPart, blocks_begin, blocks_next, parts_begin, parts_next, style_end,
    style_start,
};
use ansi_columns::line_walks::LineWalk;
use ansi_split::walks::PartWalk;
use ansi_style::numbers::StyleNumbers;
use std::alloc::Global;
use std::mem::{align_of, size_of};

// `include/ansi_str.h` and the bindings give a walk this many bytes, with this alignment.

const _: () = prove!(size_of::<BlockWalk<'static>>() == 40);

const _: () = prove!(align_of::<BlockWalk<'static>>() == 8);

const _: () = prove!(size_of::<PartWalk<'static>>() == 80);

const _: () = prove!(align_of::<PartWalk<'static>>() == 8);

const _: () = prove!(size_of::<LineWalk<'static>>() == 64);

const _: () = prove!(align_of::<LineWalk<'static>>() == 8);

/// Begins a walk over the blocks of a text.
#[unsafe(no_mangle)]
pub extern "C" fn ansi_str_raw_blocks_begin<'a>(text: &'a [u8], walk: &mut BlockWalk<'a>) -> Answer
    ensures { BeginsBlocks text.now result walk.old walk.new }
{
    blocks_begin(text, walk)
}

/// Takes the next block off a walk.
#[unsafe(no_mangle)]
pub extern "C" fn ansi_str_raw_blocks_next<'a>(
    alloc: Global,
    walk: &mut BlockWalk<'a>,
    block: &mut NextBlock<'a>,
    buffer: &mut [u8],
) -> Answer
    requires { IsUtf8 walk.old.rest.now }
    ensures utf8 { IsUtf8 walk.new.rest.now }
    ensures next { GivesNext walk.old walk.new block.old block.new result buffer.old buffer.new }
{
    blocks_next(alloc, walk, block, buffer)
}

/// The sequences that set a style.
#[unsafe(no_mangle)]
pub extern "C" fn ansi_str_raw_style_start(
    alloc: Global,
    style: &StyleNumbers,
    buffer: &mut [u8],
) -> Answer
    ensures { WritesStart (rendition_of_numbers style.now) result buffer.old buffer.new }
{
    style_start(alloc, style, buffer)
}

/// The sequences that reset a style.
#[unsafe(no_mangle)]
pub extern "C" fn ansi_str_raw_style_end(
    alloc: Global,
    style: &StyleNumbers,
    buffer: &mut [u8],
) -> Answer
    ensures { WritesClose (rendition_of_numbers style.now) result buffer.old buffer.new }
{
    style_end(alloc, style, buffer)
}

/// Begins a walk over the parts of a text between the matches of a pattern.
#[unsafe(no_mangle)]
pub extern "C" fn ansi_str_raw_parts_begin<'a>(
    text: &'a [u8],
    pattern: &'a [u8],
    walk: &mut PartWalk<'a>,
) -> Answer
    ensures { BeginsParts text.now pattern.now result walk.old walk.new }
{
    parts_begin(text, pattern, walk)
}

/// Takes the next part off a walk.
#[unsafe(no_mangle)]
pub extern "C" fn ansi_str_raw_parts_next<'a>(
    alloc: Global,
    walk: &mut PartWalk<'a>,
    part: &mut NextPart<'a>,
    buffer: &mut [u8],
) -> Answer
    requires { IsPartWalk walk.old }
    ensures walk { IsPartWalk walk.new }
    ensures next { GivesNextPart walk.old walk.new part.old part.new result buffer.old buffer.new }
{
    parts_next(alloc, walk, part, buffer)
}

/// Begins a walk over the lines of the text wrapped at `width` columns.
#[unsafe(no_mangle)]
pub extern "C" fn ansi_str_raw_lines_begin<'a>(
    text: &'a [u8],
    width: usize,
    walk: &mut LineWalk<'a>,
) -> Answer
    ensures { BeginsLines text.now width result walk.old walk.new }
{
    lines_begin(text, width, walk)
}

/// Takes the next line off a walk: where it begins and ends in the plain text.
#[unsafe(no_mangle)]
pub extern "C" fn ansi_str_raw_lines_next(walk: &mut LineWalk<'_>, line: &mut LineEntry) -> Answer
    requires { IsLineWalk walk.old }
    ensures walk { IsLineWalk walk.new }
    ensures next { GivesNextLine walk.old walk.new line.old line.new result }
{
    lines_next(walk, line)
}
