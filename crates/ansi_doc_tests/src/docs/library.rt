//! The example at the head of the library's docs, in the same words.
use ansi_str::AnsiStr;
use std::test::Fail;

#[test]
fn library_example(rt: HostRuntime) -> Result<(), Fail> {
    let text = "\x1b[31mred\x1b[39m and plain";
    let plain = text.ansi_strip(rt.alloc())?;
    assert!(rt; plain.as_str() == "red and plain");
    let cut = text.ansi_cut(rt.alloc(), 1..7)?;
    assert!(rt; cut.as_str() == "\x1b[31med\x1b[39m and");
    assert!(rt; text.ansi_find("d and") == Some(2));
    Ok(())
}
