//! The examples of the docs of blocks, in the same words.
use ansi_str::get_blocks;
use std::test::Fail;

#[test]
fn ansi_block_example(rt: HostRuntime) {
    let first = get_blocks(rt.alloc(), "\x1b[1mbold").next();
    assert!(rt;
        matches!(&first, Some(Ok(block)) if block.text() == "bold" && block.style().is_bold())
    );
}

#[test]
fn text_example(rt: HostRuntime) {
    let text = "\x1b]8;;u\x1b\\link\x1b]8;;\x1b\\";
    let first = get_blocks(rt.alloc(), text).next();
    assert!(rt; matches!(&first, Some(Ok(block)) if block.text() == "\x1b]8;;u\x1b\\link"));
}

#[test]
fn has_ansi_example(rt: HostRuntime) {
    let first = get_blocks(rt.alloc(), "\x1b[12mx").next();
    assert!(rt; matches!(&first, Some(Ok(block)) if block.has_ansi()));
}

#[test]
fn style_example(rt: HostRuntime) {
    let first = get_blocks(rt.alloc(), "\x1b[1mx").next();
    assert!(rt;
        matches!(&first, Some(Ok(block)) if block.style().is_bold() && !block.style().is_italic())
    );
}

#[test]
fn clone_example(rt: HostRuntime) -> Result<(), Fail> {
    let block = get_blocks(rt.alloc(), "\x1b[1mx")
        .next()
        .ok_or("no block")??;
    assert!(rt; block.clone()? == block);
    Ok(())
}

#[test]
fn ansi_block_iter_example(rt: HostRuntime) -> Result<(), Fail> {
    let mut texts = String::new(rt.alloc());
    for block in get_blocks(rt.alloc(), "\x1b[31mred\x1b[39m and plain") {
        texts.push_str(block?.text())?;
    }
    assert!(rt; texts.as_str() == "red and plain");
    Ok(())
}

#[test]
fn get_blocks_example(rt: HostRuntime) {
    let mut blocks = get_blocks(rt.alloc(), "\x1b[31mred\x1b[39m and");
    assert!(rt; matches!(&blocks.next(), Some(Ok(red)) if red.text() == "red" && red.has_ansi()));
    assert!(rt; matches!(&blocks.next(), Some(Ok(and)) if and.text() == " and" && !and.has_ansi()));
    assert!(rt; blocks.next().is_none());
}
