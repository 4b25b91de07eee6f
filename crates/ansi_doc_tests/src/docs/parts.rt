//! The examples of the docs of splits, in the same words.
use ansi_str::AnsiStr;
use ansi_str::search::part_interval;
use ansi_str::split::{PushNext, part_in, split_in};
use std::test::Fail;

#[test]
fn ansi_split_example(rt: HostRuntime) -> Result<(), Fail> {
    let text = "\x1b[1mlion,tiger";
    let mut lines = String::new(rt.alloc());
    for part in text.ansi_split(rt.alloc(), ",") {
        lines.push_str(part?.as_str())?;
        lines.push('\n')?;
    }
    assert!(rt; lines.as_str() == "\x1b[1mlion\x1b[22m\n\x1b[1mtiger\x1b[22m\n");
    Ok(())
}

#[test]
fn split_in_example(rt: HostRuntime) {
    let first = split_in(rt.alloc(), "\x1b[1mlion,tiger", ",").next();
    assert!(rt; matches!(&first, Some(Ok(part)) if part.as_str() == "\x1b[1mlion\x1b[22m"));
}

#[test]
fn push_next_example(rt: HostRuntime) {
    let mut parts = split_in(rt.alloc(), "\x1b[1mlion,tiger", ",");
    let mut out = String::new(rt.alloc());
    assert!(rt; matches!(parts.push_next(&mut out), Some(Ok(()))));
    assert!(rt; out.as_str() == "\x1b[1mlion\x1b[22m");
}

#[test]
fn part_in_example(rt: HostRuntime) {
    let part = part_in(rt.alloc(), "\x1b[1mlion,tiger", ",", 1);
    assert!(rt; matches!(&part, Ok(Some(part)) if part.as_str() == "\x1b[1mtiger\x1b[22m"));
    assert!(rt; matches!(&part_in(rt.alloc(), "lion,tiger", ",", 2), Ok(None)));
}

#[test]
fn part_interval_example(rt: HostRuntime) {
    let text = "\x1b[1mlion,\x1b[0mtiger";
    assert!(rt; part_interval(text, ",", 0) == Some((0, 4)));
    assert!(rt; part_interval(text, ",", 1) == Some((5, 10)));
    assert!(rt; part_interval(text, ",", 2).is_none());
}
