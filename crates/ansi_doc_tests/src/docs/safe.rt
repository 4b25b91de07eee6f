//! The examples of the docs of `ansi_safe`, in the same words.
use ansi_safe::cells::{
    cell_and_ending, cell_char, cell_of, is_cell, is_empty_cell, is_paragraph, paragraph_of,
    written_paragraph,
};
use ansi_safe::links::pen_after;
use ansi_safe::safe::{is_safe, pen_if_safe, sanitize};
use ansi_safe::utf8::{from_utf8, is_ascii};
use ansi_safe::{AnsiSafe, Links, Policy, Rest};
use ansi_str::Color;
use std::test::Fail;

#[test]
fn ansi_safe_example(rt: HostRuntime) -> Result<(), Fail> {
    assert!(rt; "\x1b[31mred\x1b[39m".ansi_is_safe(Links::Remove));
    assert!(rt; !String::from_str(rt.alloc(), "\x1b[2J")?.ansi_is_safe(Links::Remove));
    Ok(())
}

#[test]
fn ansi_is_safe_example(rt: HostRuntime) {
    assert!(rt; "a\tb\r\n".ansi_is_safe(Links::Remove));
    assert!(rt; !"over\rwritten".ansi_is_safe(Links::Remove));
}

#[test]
fn ansi_sanitize_example(rt: HostRuntime) -> Result<(), Fail> {
    let policy = Policy {
        rest: Rest::Show,
        links: Links::Keep,
    };
    let safe = "\x1b]0;title\x07\x1b[31mred".ansi_sanitize(rt.alloc(), policy)?;
    assert!(rt; safe.as_str() == "^[]0;title^G\x1b[31mred\x1b[39m");
    Ok(())
}

#[test]
fn links_example(rt: HostRuntime) {
    let text = "\x1b]8;;http://x\x1b\\link\x1b]8;;\x1b\\";
    assert!(rt; text.ansi_is_safe(Links::Keep) && !text.ansi_is_safe(Links::Remove));
}

#[test]
fn rest_example(rt: HostRuntime) -> Result<(), Fail> {
    let policy = Policy {
        rest: Rest::Show,
        links: Links::Remove,
    };
    assert!(rt; "a\x07".ansi_sanitize(rt.alloc(), policy)?.as_str() == "a^G");
    Ok(())
}

#[test]
fn policy_example(rt: HostRuntime) -> Result<(), Fail> {
    let policy = Policy {
        rest: Rest::Drop,
        links: Links::Remove,
    };
    assert!(rt; "\x1b[2Ja".ansi_sanitize(rt.alloc(), policy)?.as_str() == "a");
    Ok(())
}

#[test]
fn pen_after_example(rt: HostRuntime) {
    let pen = pen_after("\x1b[31mred \x1b[1mand \x1b]8;;https://a.org\x07bold");
    assert!(rt; pen.style.is_bold() && pen.style.foreground() == Some(Color::Red));
    assert!(rt; pen.link == "\x1b]8;;https://a.org\x07");
}

#[test]
fn pen_if_safe_example(rt: HostRuntime) -> Result<(), Fail> {
    let pen = pen_if_safe("\x1b[31mred", Links::Remove).ok_or("not safe")?;
    assert!(rt; !pen.is_plain() && pen_if_safe("\x1b[2J", Links::Remove).is_none());
    Ok(())
}

#[test]
fn is_safe_example(rt: HostRuntime) {
    assert!(rt; is_safe("\x1b[31mred\x1b[39m", Links::Remove) && !is_safe("\x1b[2J", Links::Keep));
}

#[test]
fn sanitize_example(rt: HostRuntime) -> Result<(), Fail> {
    let policy = Policy {
        rest: Rest::Drop,
        links: Links::Keep,
    };
    let safe = sanitize(rt.alloc(), "\x1b[2J\x1b[31mred", policy)?;
    assert!(rt; safe.as_str() == "\x1b[31mred\x1b[39m");
    Ok(())
}

#[test]
fn cell_of_example(rt: HostRuntime) -> Result<(), Fail> {
    let cell = cell_of(rt.alloc(), "\x1b[1ma\tb\r\n\x07")?;
    assert!(rt; cell.as_str() == "\x1b[1ma b ");
    Ok(())
}

#[test]
fn is_cell_example(rt: HostRuntime) {
    assert!(rt; is_cell("\x1b[1ma b") && !is_cell("a\tb"));
}

#[test]
fn is_empty_cell_example(rt: HostRuntime) {
    assert!(rt; is_empty_cell("\x07\x1b[2J") && !is_empty_cell("\t"));
}

#[test]
fn cell_and_ending_example(rt: HostRuntime) -> Result<(), Fail> {
    let (cell, ending) = cell_and_ending(rt.alloc(), "\x1b[1ma\tb")?;
    assert!(rt; cell.as_str() == "\x1b[1ma b" && !ending.is_empty());
    Ok(())
}

#[test]
fn cell_char_example(rt: HostRuntime) {
    assert!(rt; cell_char('é') == Some('é'));
    assert!(rt; cell_char('\t') == Some(' '));
    assert!(rt; cell_char('\r') == None);
}

#[test]
fn paragraph_of_example(rt: HostRuntime) -> Result<(), Fail> {
    let paragraph = paragraph_of(rt.alloc(), "a\tb\r\n\x1b[2Jc")?;
    assert!(rt; paragraph.as_str() == "a b\r\nc");
    Ok(())
}

#[test]
fn written_paragraph_example(rt: HostRuntime) -> Result<(), Fail> {
    assert!(rt; written_paragraph(rt.alloc(), "a\tb")?.as_str() == "a b");
    Ok(())
}

#[test]
fn is_paragraph_example(rt: HostRuntime) {
    assert!(rt; is_paragraph("\x1b[1ma\nb") && !is_paragraph("a\tb"));
}

#[test]
fn from_utf8_example(rt: HostRuntime) {
    assert!(rt; from_utf8("né".as_bytes()) == Ok("né") && from_utf8(&[b'n', 0xC3]).is_err());
}

#[test]
fn is_ascii_example(rt: HostRuntime) {
    assert!(rt; is_ascii("\x1b[1mdisk".as_bytes()) && !is_ascii("né".as_bytes()));
}
