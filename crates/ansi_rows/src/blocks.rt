//! The results of calls on blocks and their styles.
use crate::calls::BlockCall;
use crate::check::Check;
use ansi_str::{AnsiBlock, AnsiBlockIter, Color, Style, get_blocks};
use refusing::Refusing;
use std::alloc::{AllocError, Global};
use std::cmp::Ordering;

type Heap = Refusing<Global>;

/// A color in the form of the rows: a kind, a number, and red, green and blue.
fn color_text(alloc: Global, color: Option<Color>) -> Result<String, AllocError> {
    let kind = match color {
        None => 0,
        Some(Color::Black) => 1,
        Some(Color::BrightBlack) => 2,
        Some(Color::Red) => 3,
        Some(Color::BrightRed) => 4,
        Some(Color::Green) => 5,
        Some(Color::BrightGreen) => 6,
        Some(Color::Yellow) => 7,
        Some(Color::BrightYellow) => 8,
        Some(Color::Blue) => 9,
        Some(Color::BrightBlue) => 10,
        Some(Color::Purple) => 11,
        Some(Color::BrightPurple) => 12,
        Some(Color::Magenta) => 13,
        Some(Color::BrightMagenta) => 14,
        Some(Color::Cyan) => 15,
        Some(Color::BrightCyan) => 16,
        Some(Color::White) => 17,
        Some(Color::BrightWhite) => 18,
        Some(Color::Fixed(number)) => return format!(in alloc; "19,{number},0,0,0"),
        Some(Color::Rgb(red, green, blue)) => {
            return format!(in alloc; "20,0,{red},{green},{blue}");
        }
    };
    format!(in alloc; "{kind},0,0,0,0")
}

/// The ten attributes that callers can test, one bit each.
fn attributes(style: &Style) -> u32 {
    let are_set = [
        style.is_bold(),
        style.is_faint(),
        style.is_italic(),
        style.is_underline(),
        style.is_slow_blink(),
        style.is_rapid_blink(),
        style.is_inverse(),
        style.is_hide(),
        style.is_crossedout(),
        style.is_fraktur(),
    ];
    let mut attributes = 0;
    for is_set in are_set.iter().rev() {
        attributes = attributes << 1 | u32::from(*is_set);
    }
    attributes
}

fn check_style(check: &mut Check<'_>, style: &Style) {
    let alloc = check.alloc;
    check.written(attributes(style).to_string(alloc));
    check.written(color_text(alloc, style.foreground()));
    check.written(color_text(alloc, style.background()));
}

/// Checks that a clone equals the block, and that it allocates exactly if the block isn't a borrow.
fn check_clone(check: &mut Check<'_>, heap: &Heap, block: &AnsiBlock<'_, &Heap>, is_borrow: bool) {
    let before = heap.requests();
    match block.clone() {
        Err(_) => check.is_err = true,
        Ok(clone) if clone != *block => check.fail("another clone"),
        Ok(_) => {}
    }
    if (heap.requests() == before) != is_borrow {
        check.fail("memory for a clone");
    }
}

/// Checks a block, after an attempt to clone it that may be refused.
fn check_block(check: &mut Check<'_>, heap: &Heap, block: &AnsiBlock<'_, &Heap>, is_borrow: bool) {
    check_clone(check, heap, block, is_borrow);
    check.borrow(is_borrow);
    if !check.row.is_count {
        check.text(block.text());
        check_style(check, block.style());
        check.text(if block.has_ansi() { "1" } else { "0" });
    }
}

/// Checks the next block and its clone. A block that `next` didn't allocate for counts as a borrow.
/// Returns whether there was a block; an `Err` counts as none.
fn check_next(check: &mut Check<'_>, heap: &Heap, blocks: &mut AnsiBlockIter<'_, &Heap>) -> bool {
    let before = heap.requests();
    match blocks.next() {
        None => false,
        Some(Err(_)) => {
            check.is_err = true;
            false
        }
        Some(Ok(block)) => {
            let is_borrow = heap.requests() == before;
            check_block(check, heap, &block, is_borrow);
            true
        }
    }
}

fn expect_end(check: &mut Check<'_>, blocks: &mut AnsiBlockIter<'_, &Heap>) {
    for _ in 0..3 {
        if blocks.next().is_some() {
            check.fail("a block after the end");
        }
    }
}

/// Checks all blocks, or their number. After an `Err`, and after the last block, no block follows.
pub fn check_blocks(check: &mut Check<'_>, heap: &Heap) {
    let mut blocks = get_blocks(heap, check.row.text);
    let mut count = 0usize;
    for _ in 0..usize::MAX {
        if !check_next(check, heap, &mut blocks) {
            break;
        }
        count = count.saturating_add(1);
    }
    expect_end(check, &mut blocks);
    check.count(count);
}

/// Checks each block between the sequences that set its style and those that reset it.
pub fn check_styled_blocks(check: &mut Check<'_>) {
    for block in get_blocks(check.alloc, check.row.text) {
        match block {
            Ok(block) => {
                check_of_block(check, &block, BlockCall::Start);
                check_of_block(check, &block, BlockCall::Text);
                check_of_block(check, &block, BlockCall::End);
            }
            Err(_) => check.is_err = true,
        }
    }
}

/// The result of comparing the style of one block with that of another.
fn order_text(style: &Style, other: &Style) -> &'static str {
    let order = style.cmp(other);
    if style.partial_cmp(other) != Some(order) || (style == other) != (order == Ordering::Equal) {
        return "otherwise";
    }
    match order {
        Ordering::Less => "less",
        Ordering::Equal => "equal",
        Ordering::Greater => "greater",
    }
}

/// Checks the property of a block that the row names.
fn check_of_block(check: &mut Check<'_>, block: &AnsiBlock<'_>, asked: BlockCall<'_>) {
    let alloc = check.alloc;
    match asked {
        BlockCall::Text => check.text(block.text()),
        BlockCall::Start => check.written(block.style().start().to_string(alloc)),
        BlockCall::End => check.written(block.style().end().to_string(alloc)),
        BlockCall::Order(other) => match get_blocks(alloc, other).next() {
            Some(Ok(other)) => check.text(order_text(block.style(), other.style())),
            _ => check.fail("no other block"),
        },
    }
}

/// The same for the block at an index.
pub fn check_block_at(check: &mut Check<'_>, index: usize, asked: BlockCall<'_>) {
    match get_blocks(check.alloc, check.row.text).nth(index) {
        Some(Ok(block)) => check_of_block(check, &block, asked),
        Some(Err(_)) => check.is_err = true,
        None => check.none("1"),
    }
}
