//! The results of calls that return texts, and of searches and tests.
use crate::blocks::{check_block_at, check_blocks, check_styled_blocks};
use crate::calls::Call;
use crate::check::Check;
use crate::columns::{make_column_call, make_column_call_in};
use crate::items::check_items;
use crate::ranges::is_good_range_of;
use crate::restyles::{make_restyle_call, make_restyle_call_in};
use crate::safe::{make_safe_call, make_safe_call_in};
use ansi_columns::wrap::AnsiWrap;
use ansi_columns::wrap::indents::AnsiWrapWith;
use ansi_str::search::part_interval;
use ansi_str::slice::{
    cut_in, get_in, split_at_in, strip_in, strip_prefix_in, strip_suffix_in, trim_in,
};
use ansi_str::split::{AnsiSplit, part_in, split_in};
use ansi_str::{AnsiStr, ansi_is_whole, edit};
use refusing::Refusing;
use std::alloc::{Allocator, Global};

/// Checks all parts, or their number. After an `Err`, and after the last part, no part follows.
fn check_parts<A: Allocator + Copy>(check: &mut Check<'_>, mut parts: AnsiSplit<'_, A>) {
    let mut count = 0usize;
    for _ in 0..usize::MAX {
        if !check.next_text(parts.next()) {
            break;
        }
        count = count.saturating_add(1);
    }
    for _ in 0..3 {
        check.end_of_texts(parts.next().is_none());
    }
    check.count(count);
}

/// Checks all lines. After an `Err`, and after the last line, no line follows.
pub fn check_lines<A: Allocator + Copy>(check: &mut Check<'_>, mut lines: AnsiWrap<'_, A>) {
    for _ in 0..usize::MAX {
        if !check.next_text(lines.next()) {
            break;
        }
    }
    for _ in 0..3 {
        check.end_of_texts(lines.next().is_none());
    }
}

/// The same for lines with indents.
pub fn check_indented_lines<A: Allocator + Copy>(
    check: &mut Check<'_>,
    mut lines: AnsiWrapWith<'_, '_, A>,
) {
    for _ in 0..usize::MAX {
        if !check.next_text(lines.next()) {
            break;
        }
    }
    for _ in 0..3 {
        check.end_of_texts(lines.next().is_none());
    }
}

fn check_sides<T: AnsiStr>(check: &mut Check<'_>, text: &T, mid: usize) {
    let alloc = check.alloc;
    if is_good_range_of(alloc, text, mid, None) {
        check.sides_or_err(text.ansi_split_at(alloc, mid));
    } else {
        check.none("2");
    }
}

/// Checks what a call of `AnsiStr` returns.
pub fn make_call<T: AnsiStr>(check: &mut Check<'_>, text: &T, call: &Call<'_>) {
    let alloc = check.alloc;
    match *call {
        Call::Strip => check.text_or_err(text.ansi_strip(alloc)),
        Call::Trim => check.text_or_err(text.ansi_trim(alloc)),
        Call::Prefix(prefix) => check.option_or_err(text.ansi_strip_prefix(alloc, prefix), "1"),
        Call::Suffix(suffix) => check.option_or_err(text.ansi_strip_suffix(alloc, suffix), "1"),
        Call::Get(range) => range.make_call(check, text, false),
        Call::Cut(range) => range.make_call(check, text, true),
        Call::SplitAt(mid) => check_sides(check, text, mid),
        Call::Split(pat) => check_parts(check, text.ansi_split(alloc, pat)),
        Call::Find(pat) => check.number_or_none(text.ansi_find(pat)),
        Call::StartsWith(pat) => check.test(text.ansi_starts_with(pat)),
        Call::EndsWith(pat) => check.test(text.ansi_ends_with(pat)),
        Call::IsCharBoundary(index) => check.test(text.ansi_is_char_boundary(index)),
        Call::FloorCharBoundary(index) => check.number_or_none(Some(text.ansi_floor_char_boundary(
            index,
        ))),
        Call::HasAny => check.test(text.ansi_has_any()),
        Call::Columns(call) => make_column_call(check, text, call),
        Call::Safe(call) => make_safe_call(check, text, call),
        Call::Restyles(call) => make_restyle_call(check, text, call),
        _ => {}
    }
}

pub fn check_cut_in<A: Allocator>(
    check: &mut Check<'_>,
    heap: A,
    start: usize,
    end: Option<usize>,
) {
    let text = check.row.text;
    if is_good_range_of(check.alloc, &text, start, end) {
        check.text_or_err(cut_in(heap, text, start, end));
    } else {
        check.none("2");
    }
}

fn check_sides_in<A: Allocator + Copy>(check: &mut Check<'_>, heap: A, mid: usize) {
    let text = check.row.text;
    if is_good_range_of(check.alloc, &text, mid, None) {
        check.sides_or_err(split_at_in(heap, text, mid));
    } else {
        check.none("2");
    }
}

/// Checks what a call returns if it allocates from `heap`. A call without an allocator is made as
/// usual.
pub fn make_call_in(check: &mut Check<'_>, heap: &Refusing<Global>, call: &Call<'_>) {
    let text = check.row.text;
    match *call {
        Call::Strip => check.text_or_err(strip_in(heap, text)),
        Call::Trim => check.text_or_err(trim_in(heap, text)),
        Call::Prefix(prefix) => check.option_or_err(strip_prefix_in(heap, text, prefix), "1"),
        Call::Suffix(suffix) => check.option_or_err(strip_suffix_in(heap, text, suffix), "1"),
        Call::Get(range) => {
            let (start, end) = range.ends();
            check.option_or_err(get_in(heap, text, start, end), "2");
        }
        Call::Cut(range) => {
            let (start, end) = range.ends();
            check_cut_in(check, heap, start, end);
        }
        Call::SplitAt(mid) => check_sides_in(check, heap, mid),
        Call::Split(pat) => check_parts(check, split_in(heap, text, pat)),
        Call::Part(pat, index) => check.option_or_err(part_in(heap, text, pat, index), "1"),
        Call::PartInterval(pat, index) => check.interval(part_interval(text, pat, index)),
        Call::Edit(one) => check.option_or_err(edit(heap, text, &[one]), "2"),
        Call::Edits(edits) => check.option_or_err(edit(heap, text, edits), "2"),
        Call::Blocks => check_blocks(check, heap),
        Call::StyledBlocks => check_styled_blocks(check),
        Call::Block(index, asked) => check_block_at(check, index, asked),
        Call::Items => check_items(check),
        Call::IsWhole => check.test(ansi_is_whole(text)),
        Call::Columns(call) => make_column_call_in(check, heap, call),
        Call::Safe(call) => make_safe_call_in(check, heap, call),
        Call::Restyles(call) => make_restyle_call_in(check, heap, call),
        _ => make_call(check, &text, call),
    }
}
