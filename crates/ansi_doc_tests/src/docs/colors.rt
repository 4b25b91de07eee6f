//! The examples of the docs of colors, in the same words.
use ansi_str::ansitok::AnsiColor;
use ansi_str::{Color, get_blocks};

#[test]
fn color_example(rt: HostRuntime) {
    let first = get_blocks(rt.alloc(), "\x1b[38;5;200mx").next();
    assert!(rt;
        matches!(&first, Some(Ok(block)) if block.style().foreground() == Some(Color::Fixed(200)))
    );
    assert!(rt; Color::Black < Color::Red);
}

#[test]
fn from_example(rt: HostRuntime) {
    assert!(rt; Color::from(AnsiColor::Bit4(35)) == Color::Magenta);
    assert!(rt; Color::from(AnsiColor::Bit4(38)) == Color::Fixed(38));
}
