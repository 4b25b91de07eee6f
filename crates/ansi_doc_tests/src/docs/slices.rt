//! The examples of the docs of `slice`, in the same words.
use ansi_str::slice::{
    cut_in, get_in, has_any, split_at_in, strip_in, strip_prefix_in, strip_suffix_in, trim_in,
};
use std::test::Fail;

#[test]
fn has_any_example(rt: HostRuntime) {
    assert!(rt; has_any("\x1b[31mred") && !has_any("red"));
}

#[test]
fn strip_in_example(rt: HostRuntime) -> Result<(), Fail> {
    let plain = strip_in(rt.alloc(), "\x1b[31mred\x1b[39m and plain")?;
    assert!(rt; plain.as_str() == "red and plain");
    Ok(())
}

#[test]
fn cut_in_example(rt: HostRuntime) -> Result<(), Fail> {
    let cut = cut_in(rt.alloc(), "\x1b[30mTEXT\x1b[39m", 1, Some(3))?;
    assert!(rt; cut.as_str() == "\x1b[30mEX\x1b[39m");
    Ok(())
}

#[test]
fn get_in_example(rt: HostRuntime) {
    let cut = get_in(rt.alloc(), "\x1b[30mTEXT\x1b[39m", 2, None);
    assert!(rt; matches!(&cut, Ok(Some(cut)) if cut.as_str() == "\x1b[30mXT\x1b[39m"));
    assert!(rt; matches!(&get_in(rt.alloc(), "é", 1, None), Ok(None)));
}

#[test]
fn strip_prefix_in_example(rt: HostRuntime) {
    let rest = strip_prefix_in(rt.alloc(), "\x1b[1m> red", "> ");
    assert!(rt; matches!(&rest, Ok(Some(rest)) if rest.as_str() == "\x1b[1mred"));
}

#[test]
fn strip_suffix_in_example(rt: HostRuntime) {
    let rest = strip_suffix_in(rt.alloc(), "\x1b[1mred.\x1b[m", ".");
    assert!(rt; matches!(&rest, Ok(Some(rest)) if rest.as_str() == "\x1b[1mred\x1b[m"));
}

#[test]
fn trim_in_example(rt: HostRuntime) -> Result<(), Fail> {
    let trimmed = trim_in(rt.alloc(), " \x1b[1mred ")?;
    assert!(rt; trimmed.as_str() == "\x1b[1mred");
    Ok(())
}

#[test]
fn split_at_in_example(rt: HostRuntime) -> Result<(), Fail> {
    let (left, right) = split_at_in(rt.alloc(), "\x1b[30mTEXT\x1b[39m", 2)?;
    assert!(rt; left.as_str() == "\x1b[30mTE\x1b[39m");
    assert!(rt; right.as_str() == "\x1b[30mXT\x1b[39m");
    Ok(())
}
