//! The examples of the docs of the scanner and its items, in the same words.
use ansi_str::Color;
use ansi_str::ansitok::{AnsiColor, Kind, Scanner};
use std::test::Fail;

#[test]
fn ansi_color_example(rt: HostRuntime) {
    assert!(rt; Color::from(AnsiColor::Bit4(91)) == Color::BrightRed);
    assert!(rt; Color::from(AnsiColor::Bit8(91)) == Color::Fixed(91));
}

#[test]
fn kind_example(rt: HostRuntime) {
    assert!(rt; matches!(Scanner::new("\x1b[31m").next(), Some(item) if item.kind == Kind::Sgr));
    assert!(rt; matches!(Scanner::new("\x1b[31").next(), Some(item) if item.kind == Kind::Lone));
}

#[test]
fn item_example(rt: HostRuntime) -> Result<(), Fail> {
    let text = "\x1b[31mred";
    let item = Scanner::new(text).next().ok_or("no item")?;
    assert!(rt; &text[item.start..item.end] == "\x1b[31m");
    Ok(())
}

#[test]
fn scanner_example(rt: HostRuntime) {
    let mut items = Scanner::new("a\x1b[1m");
    assert!(rt; matches!(items.next(), Some(text) if text.kind == Kind::Text && text.end == 1));
    assert!(rt; matches!(items.next(), Some(bold) if bold.kind == Kind::Sgr && bold.end == 5));
    assert!(rt; items.next().is_none());
}

#[test]
fn new_example(rt: HostRuntime) {
    assert!(rt; Scanner::new("").next().is_none());
}

#[test]
fn reads_example(rt: HostRuntime) {
    let mut items = Scanner::new("\x1b]");
    assert!(rt; items.next().is_some() && items.next().is_some() && items.next().is_none());
    assert!(rt; 2 <= items.reads() && items.reads() <= 8);
}
