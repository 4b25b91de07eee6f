//! The examples of the docs of ranges of positions, in the same words.
use ansi_str::{AnsiRange, AnsiStr};
use std::test::Fail;

#[test]
fn ansi_range_example(rt: HostRuntime) -> Result<(), Fail> {
    let text = "\x1b[30mTEXT\x1b[39m";
    assert!(rt; text.ansi_cut(rt.alloc(), 1..=2)?.as_str() == "\x1b[30mEX\x1b[39m");
    assert!(rt; text.ansi_cut(rt.alloc(), ..)?.as_str() == "\x1b[30mTEXT\x1b[39m");
    Ok(())
}

#[test]
fn start_example(rt: HostRuntime) {
    assert!(rt; AnsiRange::start(&(2..=5)) == 2);
    assert!(rt; AnsiRange::start(&(..5)) == 0);
}

#[test]
fn end_example(rt: HostRuntime) {
    assert!(rt; AnsiRange::end(&(2..=5)) == Some(6));
    assert!(rt; AnsiRange::end(&(2..)).is_none());
}
