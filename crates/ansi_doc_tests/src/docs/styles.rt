//! The examples of the docs of styles, in the same words.
use ansi_str::{AnsiSequenceEnd, Color, get_blocks};
use std::fmt::Write;
use std::test::Fail;

#[test]
fn style_example(rt: HostRuntime) {
    let first = get_blocks(rt.alloc(), "\x1b[1;31mred").next();
    assert!(rt;
        matches!(&first, Some(Ok(block)) if block.style().foreground() == Some(Color::Red))
    );
}

#[test]
fn start_example(rt: HostRuntime) -> Result<(), Fail> {
    let block = get_blocks(rt.alloc(), "\x1b[1;33mbar")
        .next()
        .ok_or("no block")??;
    let mut line = String::new(rt.alloc());
    write!(&mut line, "{}42%", block.style().start())?;
    assert!(rt; line.as_str() == "\x1b[1m\x1b[33m42%");
    Ok(())
}

#[test]
fn end_example(rt: HostRuntime) -> Result<(), Fail> {
    let block = get_blocks(rt.alloc(), "\x1b[1;33mbar")
        .next()
        .ok_or("no block")??;
    let mut line = String::new(rt.alloc());
    write!(&mut line, "bar{}", block.style().end())?;
    assert!(rt; line.as_str() == "bar\x1b[22m\x1b[39m");
    Ok(())
}

#[test]
fn ansi_sequence_start_example(rt: HostRuntime) -> Result<(), Fail> {
    let block = get_blocks(rt.alloc(), "\x1b[31;1mred")
        .next()
        .ok_or("no block")??;
    let start = block.style().start().to_string(rt.alloc())?;
    assert!(rt; start.as_str() == "\x1b[1m\x1b[31m");
    Ok(())
}

#[test]
fn ansi_sequence_end_example(rt: HostRuntime) -> Result<(), Fail> {
    let block = get_blocks(rt.alloc(), "\x1b[31;1mred")
        .next()
        .ok_or("no block")??;
    let end = block.style().end().to_string(rt.alloc())?;
    assert!(rt; end.as_str() == "\x1b[22m\x1b[39m");
    Ok(())
}

#[test]
fn reset_all_example(rt: HostRuntime) {
    assert!(rt; AnsiSequenceEnd::RESET_ALL == "\x1b[0m");
}

#[test]
fn is_bold_example(rt: HostRuntime) {
    let first = get_blocks(rt.alloc(), "\x1b[1mx").next();
    assert!(rt; matches!(&first, Some(Ok(block)) if block.style().is_bold()));
}

#[test]
fn is_faint_example(rt: HostRuntime) {
    let first = get_blocks(rt.alloc(), "\x1b[2mx").next();
    assert!(rt; matches!(&first, Some(Ok(block)) if block.style().is_faint()));
}

#[test]
fn is_italic_example(rt: HostRuntime) {
    let first = get_blocks(rt.alloc(), "\x1b[3mx").next();
    assert!(rt; matches!(&first, Some(Ok(block)) if block.style().is_italic()));
}

#[test]
fn is_underline_example(rt: HostRuntime) {
    let first = get_blocks(rt.alloc(), "\x1b[4mx").next();
    assert!(rt; matches!(&first, Some(Ok(block)) if block.style().is_underline()));
}

#[test]
fn is_slow_blink_example(rt: HostRuntime) {
    let first = get_blocks(rt.alloc(), "\x1b[5mx").next();
    assert!(rt; matches!(&first, Some(Ok(block)) if block.style().is_slow_blink()));
}

#[test]
fn is_rapid_blink_example(rt: HostRuntime) {
    let first = get_blocks(rt.alloc(), "\x1b[6mx").next();
    assert!(rt; matches!(&first, Some(Ok(block)) if block.style().is_rapid_blink()));
}

#[test]
fn is_inverse_example(rt: HostRuntime) {
    let first = get_blocks(rt.alloc(), "\x1b[7mx").next();
    assert!(rt; matches!(&first, Some(Ok(block)) if block.style().is_inverse()));
}

#[test]
fn is_hide_example(rt: HostRuntime) {
    let first = get_blocks(rt.alloc(), "\x1b[8mx").next();
    assert!(rt; matches!(&first, Some(Ok(block)) if block.style().is_hide()));
}

#[test]
fn is_crossedout_example(rt: HostRuntime) {
    let first = get_blocks(rt.alloc(), "\x1b[9mx").next();
    assert!(rt; matches!(&first, Some(Ok(block)) if block.style().is_crossedout()));
}

#[test]
fn is_fraktur_example(rt: HostRuntime) {
    let first = get_blocks(rt.alloc(), "\x1b[20mx").next();
    assert!(rt; matches!(&first, Some(Ok(block)) if block.style().is_fraktur()));
}

#[test]
fn foreground_example(rt: HostRuntime) {
    let first = get_blocks(rt.alloc(), "\x1b[35mx").next();
    assert!(rt;
        matches!(&first, Some(Ok(block)) if block.style().foreground() == Some(Color::Magenta))
    );
}

#[test]
fn background_example(rt: HostRuntime) {
    let first = get_blocks(rt.alloc(), "\x1b[45mx").next();
    assert!(rt;
        matches!(&first, Some(Ok(block)) if block.style().background() == Some(Color::Magenta))
    );
}
