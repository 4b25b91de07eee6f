//! Blocks and constants of styles.
use super::expect;
use ansi_str::{AnsiSequenceEnd, Color, get_blocks};
use std::test::Fail;

#[test]
fn reset_all_is_its_bytes(rt: HostRuntime) {
    let bytes = [0x1B, b'[', b'0', b'm'];
    let is_right = AnsiSequenceEnd::RESET_ALL.as_bytes() == bytes.as_slice();
    expect(&rt, is_right, "the bytes", "RESET_ALL");
}

#[test]
fn blocks_outlive_their_iterator(rt: HostRuntime) -> Result<(), Fail> {
    let text = String::from_str(rt.alloc(), "\x1b[31mred")?;
    let first = {
        let mut blocks = get_blocks(rt.alloc(), text.as_str());
        blocks.next().ok_or("a text has a block")??
    };
    expect(&rt, first.clone()? == first, "its clone", "red");
    expect(&rt, first.text() == "red", "its text", "red");
    expect(&rt, first.has_ansi(), "has_ansi", "red");
    let style = first.style();
    expect(
        &rt,
        style.foreground() == Some(Color::Red),
        "a foreground",
        "red",
    );
    expect(&rt, style.background().is_none(), "a background", "red");
    let start = style.start().to_string(rt.alloc())?;
    expect(&rt, start.as_str() == "\x1b[31m", "the start", "red");
    Ok(())
}
