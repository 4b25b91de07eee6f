//! The first example of README.md, and one for each kind of caller: a table, a log viewer, a line
//! wrapper and a progress printer.
use crate::callers::searches::cut_match;
use ansi_str::{AnsiStr, Edit, Style, edit, get_blocks};
use std::alloc::{AllocError, Global};
use std::test::Fail;

#[test]
fn the_first_example_is_right(rt: HostRuntime) -> Result<(), Fail> {
    let log = "\x1b[31mred\x1b[39m and plain";
    assert!(rt; log.ansi_strip(rt.alloc())?.as_str() == "red and plain");
    assert!(rt; log.ansi_find("d and") == Some(2));

    // positions count bytes of the plain text, and the color is closed after the cut
    assert!(rt; log.ansi_cut(rt.alloc(), ..2)?.as_str() == "\x1b[31mre\x1b[39m");

    // edits in turn, each of the result before; `None` if one is refused
    let edits = [Edit::Suffix(" plain"), Edit::Part { pat: " ", index: 0 }];
    let edited = edit(rt.alloc(), log, &edits)?.ok_or("refused")?;
    assert!(rt; edited.as_str() == "\x1b[31mred\x1b[39m");
    Ok(())
}

// A result is a text like any other.
#[test]
fn a_cut_is_stripped(rt: HostRuntime) -> Result<(), Fail> {
    let log = "\x1b[31mred\x1b[39m and plain";
    let cut = log.ansi_cut(rt.alloc(), ..5)?;
    let plain = cut.ansi_strip(rt.alloc());
    assert!(rt; matches!(&plain, Ok(plain) if plain.as_str() == "red a"));
    Ok(())
}

// A table cuts a cell to a width in bytes. No style stays open after it.
#[test]
fn a_cell_is_cut_to_a_width(rt: HostRuntime) {
    let edits = [
        Edit::Trim,
        Edit::Cut {
            start: 0,
            end: Some(4),
        },
    ];
    let cell = edit(rt.alloc(), " \x1b[1;32mansi_str\x1b[0m ", &edits);
    assert!(rt;
        matches!(&cell, Ok(Some(cell)) if cell.as_str() == "\x1b[1;32mansi\x1b[22m\x1b[39m")
    );
}

// A log viewer searches a line as if it were plain, and shows each match in its styles.
#[test]
fn a_log_line_is_searched_and_cut(rt: HostRuntime) {
    let line = "12:00 \x1b[31merror\x1b[0m: disk \x1b[1mfull\x1b[0m";
    assert!(rt; line.ansi_find("disk full") == Some(13));
    let found = cut_match(rt.alloc(), &line, "disk full");
    let want = "\x1b[31m\x1b[0mdisk \x1b[1mfull\x1b[0m";
    assert!(rt; matches!(&found, Ok(Some(found)) if found.as_str() == want));
}

// A wrapper breaks a line between its words. Each word keeps its style.
#[test]
fn a_line_is_wrapped_by_parts(rt: HostRuntime) -> Result<(), Fail> {
    let mut wrapped = String::new(rt.alloc());
    let mut column = 0usize;
    for word in "\x1b[34mone two\x1b[0m three".ansi_split(rt.alloc(), " ") {
        let word = word?;
        let width = word.ansi_strip(rt.alloc())?.len();
        if column > 0 && column.saturating_add(width) >= 8 {
            wrapped.push('\n')?;
            column = 0;
        } else if column > 0 {
            wrapped.push(' ')?;
            column = column.saturating_add(1);
        }
        wrapped.push_str(word.as_str())?;
        column = column.saturating_add(width);
    }
    assert!(rt; wrapped.as_str() == "\x1b[34mone\x1b[39m \x1b[34mtwo\x1b[0m\nthree");
    Ok(())
}

/// A progress line in a style.
fn progress_line(alloc: Global, style: &Style) -> Result<String, AllocError> {
    format!(in alloc; "{}42%{}", style.start(), style.end())
}

// A progress printer writes its own words in a style that it received as a text.
#[test]
fn a_progress_line_is_written_in_a_style(rt: HostRuntime) -> Result<(), Fail> {
    let sample = get_blocks(rt.alloc(), "\x1b[1;33mbar").next();
    let block = sample.ok_or("no block")??;
    let line = progress_line(rt.alloc(), block.style())?;
    assert!(rt; line.as_str() == "\x1b[1m\x1b[33m42%\x1b[22m\x1b[39m");
    Ok(())
}
