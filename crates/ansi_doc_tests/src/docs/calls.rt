//! The examples of the docs of the calls of `AnsiStr`, in the same words.
use ansi_str::AnsiStr;
use std::test::Fail;

#[test]
fn ansi_str_example(rt: HostRuntime) -> Result<(), Fail> {
    let borrowed = "\x1b[31mred\x1b[39m";
    let owned = String::from_str(rt.alloc(), borrowed)?;
    let cut = owned.ansi_cut(rt.alloc(), ..2)?;
    assert!(rt; borrowed.ansi_starts_with("red"));
    assert!(rt; owned.ansi_starts_with("red"));
    assert!(rt; cut.ansi_ends_with("re"));
    Ok(())
}

#[test]
fn as_text_example(rt: HostRuntime) {
    assert!(rt; "\x1b[1mbold".as_text() == "\x1b[1mbold");
}

#[test]
fn ansi_get_example(rt: HostRuntime) {
    let text = "\x1b[30mTEXT\x1b[39m";
    let cut = text.ansi_get(rt.alloc(), 1..3);
    assert!(rt; matches!(&cut, Ok(Some(cut)) if cut.as_str() == "\x1b[30mEX\x1b[39m"));
    assert!(rt; matches!(&text.ansi_get(rt.alloc(), 3..1), Ok(None)));
}

#[test]
fn ansi_cut_example(rt: HostRuntime) -> Result<(), Fail> {
    let cut = "\x1b[30mTEXT\x1b[39m".ansi_cut(rt.alloc(), 1..3)?;
    assert!(rt; cut.as_str() == "\x1b[30mEX\x1b[39m");
    Ok(())
}

#[test]
fn ansi_is_char_boundary_example(rt: HostRuntime) {
    assert!(rt; "\x1b[1mé\x1b[0m".ansi_is_char_boundary(2));
    assert!(rt; !"\x1b[1mé\x1b[0m".ansi_is_char_boundary(1));
}

#[test]
fn ansi_floor_char_boundary_example(rt: HostRuntime) -> Result<(), Fail> {
    let text = "\x1b[1mLöwe\x1b[0m";
    assert!(rt; text.ansi_floor_char_boundary(2) == 1);
    let cut = text.ansi_cut(rt.alloc(), ..text.ansi_floor_char_boundary(2))?;
    assert!(rt; cut.as_str() == "\x1b[1mL\x1b[22m");
    Ok(())
}

#[test]
fn ansi_find_example(rt: HostRuntime) {
    assert!(rt; "a\x1b[1mb\x1b[0mc".ansi_find("bc") == Some(1));
    assert!(rt; "a\x1b[1mb\x1b[0mc".ansi_find("cb").is_none());
}

#[test]
fn ansi_strip_prefix_example(rt: HostRuntime) {
    let text = "\x1b[31mred\x1b[39m and plain";
    let rest = text.ansi_strip_prefix(rt.alloc(), "red ");
    assert!(rt; matches!(&rest, Ok(Some(rest)) if rest.as_str() == "\x1b[31m\x1b[39mand plain"));
    assert!(rt; matches!(&text.ansi_strip_prefix(rt.alloc(), "and"), Ok(None)));
}

#[test]
fn ansi_strip_suffix_example(rt: HostRuntime) {
    let text = "plain and \x1b[31mred\x1b[39m";
    let rest = text.ansi_strip_suffix(rt.alloc(), " red");
    assert!(rt; matches!(&rest, Ok(Some(rest)) if rest.as_str() == "plain and\x1b[31m\x1b[39m"));
    assert!(rt; matches!(&text.ansi_strip_suffix(rt.alloc(), "and"), Ok(None)));
}

#[test]
fn ansi_split_example(rt: HostRuntime) -> Result<(), Fail> {
    let mut cells = String::new(rt.alloc());
    for part in "\x1b[31mlion::tiger\x1b[0m".ansi_split(rt.alloc(), "::") {
        cells.push_str(part?.as_str())?;
        cells.push('|')?;
    }
    assert!(rt; cells.as_str() == "\x1b[31mlion\x1b[39m|\x1b[31mtiger\x1b[0m|");
    Ok(())
}

#[test]
fn ansi_split_at_example(rt: HostRuntime) -> Result<(), Fail> {
    let text = "\x1b[30mTEXT\x1b[39m";
    let (left, right) = text.ansi_split_at(rt.alloc(), 2)?;
    assert!(rt; left.as_str() == "\x1b[30mTE\x1b[39m");
    assert!(rt; right.as_str() == "\x1b[30mXT\x1b[39m");
    Ok(())
}

#[test]
fn ansi_starts_with_example(rt: HostRuntime) {
    assert!(rt; "\x1b[31mred\x1b[39m and plain".ansi_starts_with("red and"));
}

#[test]
fn ansi_ends_with_example(rt: HostRuntime) {
    assert!(rt; "plain and \x1b[31mred\x1b[39m".ansi_ends_with("and red"));
}

#[test]
fn ansi_trim_example(rt: HostRuntime) -> Result<(), Fail> {
    let trimmed = " \x1b[31m red \x1b[39m ".ansi_trim(rt.alloc())?;
    assert!(rt; trimmed.as_str() == "\x1b[31mred\x1b[39m");
    Ok(())
}

#[test]
fn ansi_strip_example(rt: HostRuntime) -> Result<(), Fail> {
    let plain = "\x1b[31mred\x1b[39m and plain".ansi_strip(rt.alloc())?;
    assert!(rt; plain.as_str() == "red and plain");
    Ok(())
}

#[test]
fn ansi_has_any_example(rt: HostRuntime) {
    assert!(rt; "\x1b[31mred".ansi_has_any());
    assert!(rt; !"red".ansi_has_any());
}
