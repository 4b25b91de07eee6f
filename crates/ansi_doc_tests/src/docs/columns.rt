//! The examples of the docs of `ansi_columns`, in the same words.
use ansi_columns::addresses::link_at;
use ansi_columns::bare::{missing_bare, truncate_bare};
use ansi_columns::edits::{close_cell, edit_and_wrap, edit_column, edit_columns};
use ansi_columns::fit::{fit, fit_shown};
use ansi_columns::lines::Lines;
use ansi_columns::shown::{closed_cell, join, pad, pad_shown, tail_for, truncate, truncate_shown};
use ansi_columns::sides::truncate_with;
use ansi_columns::slices::{Sliced, slice, slice_shown};
use ansi_columns::tabs::expand_tabs;
use ansi_columns::wrap::indents::wrap_with;
use ansi_columns::wrap::{has_next, only_line, wrap};
use ansi_columns::{Alignment, AnsiColumns, ColumnEdit, Side, Truncation, Wrap};
use std::borrow::CowStr;
use std::test::Fail;

#[test]
fn ansi_columns_example(rt: HostRuntime) -> Result<(), Fail> {
    assert!(rt; "\x1b[31m日本\x1b[39m".ansi_width() == 4);
    assert!(rt; String::from_str(rt.alloc(), "日本")?.ansi_width() == 4);
    Ok(())
}

#[test]
fn ansi_width_example(rt: HostRuntime) {
    assert!(rt; "e\x1b[1m\u{301}x\x07\t".ansi_width() == 3);
}

#[test]
fn ansi_fitting_example(rt: HostRuntime) {
    assert!(rt; "a\x1b[1m日\x07本".ansi_fitting(4) == 5);
}

#[test]
fn ansi_column_of_example(rt: HostRuntime) {
    assert!(rt; "a\x1b[1m日\x07本".ansi_column_of(5) == Some(3));
    assert!(rt; "a\x1b[1m日\x07本".ansi_column_of(2).is_none());
}

#[test]
fn ansi_truncate_example(rt: HostRuntime) -> Result<(), Fail> {
    let cut = "\x1b[31m日本\t語\x1b[39m".ansi_truncate(rt.alloc(), 6, "…")?;
    assert!(rt; cut.as_str() == "\x1b[31m日本 \x1b[39m…");
    Ok(())
}

#[test]
fn ansi_pad_example(rt: HostRuntime) -> Result<(), Fail> {
    let padded = "\x1b[41mab".ansi_pad(rt.alloc(), 5, Alignment::Center)?;
    assert!(rt; padded.as_str() == " \x1b[41mab\x1b[49m  ");
    Ok(())
}

#[test]
fn ansi_fit_example(rt: HostRuntime) -> Result<(), Fail> {
    let cell = "\x1b[41mab".ansi_fit(rt.alloc(), 4, Alignment::Left, "…")?;
    assert!(rt; cell.as_str() == "\x1b[41mab\x1b[49m  ");
    let cell = "\x1b[41mabcdef".ansi_fit(rt.alloc(), 4, Alignment::Left, "…")?;
    assert!(rt; cell.as_str() == "\x1b[41mabc\x1b[49m…");
    Ok(())
}

#[test]
fn fit_example(rt: HostRuntime) -> Result<(), Fail> {
    let cell = fit(rt.alloc(), "\x1b[31m日本語\x1b[39m", 4, Alignment::Right, "…")?;
    assert!(rt; cell.as_str() == " \x1b[31m日\x1b[39m…");
    Ok(())
}

#[test]
fn ansi_truncate_with_example(rt: HostRuntime) -> Result<(), Fail> {
    let to = Truncation::to(8).tail("…").side(Side::Middle);
    let cut = "\x1b[31m/usr/local/bin\x1b[39m".ansi_truncate_with(rt.alloc(), &to)?;
    assert!(rt; cut.as_str() == "\x1b[31m/usr\x1b[39m…\x1b[31mbin\x1b[39m");
    Ok(())
}

#[test]
fn truncate_with_example(rt: HostRuntime) -> Result<(), Fail> {
    let to = Truncation::to(5).tail("…").side(Side::Middle);
    let cut = truncate_with(rt.alloc(), "\x1b[31mabcdefgh\x1b[39m", &to)?;
    assert!(rt; cut.as_str() == "\x1b[31mab\x1b[39m…\x1b[31mgh\x1b[39m");
    Ok(())
}

#[test]
fn truncation_example(rt: HostRuntime) -> Result<(), Fail> {
    let to = Truncation::to(6).tail("…").side(Side::Start);
    let cut = "/usr/local/bin".ansi_truncate_with(rt.alloc(), &to)?;
    assert!(rt; cut.as_str() == "…l/bin");
    Ok(())
}

#[test]
fn column_edit_example(rt: HostRuntime) -> Result<(), Fail> {
    let slice = ColumnEdit::Slice {
        start: 2,
        end: None,
    };
    let edits = [ColumnEdit::Expand(4), slice];
    assert!(rt; edit_columns(rt.alloc(), "a\tbc", &edits)?.as_str() == "  bc");
    Ok(())
}

#[test]
fn edit_columns_example(rt: HostRuntime) -> Result<(), Fail> {
    let cut = ColumnEdit::Truncate {
        width: 4,
        tail: "…",
        side: Side::End,
    };
    let pad = ColumnEdit::Pad {
        width: 6,
        alignment: Alignment::Right,
    };
    let cell = edit_columns(rt.alloc(), "\x1b[31m日本語\x1b[39m", &[cut, pad])?;
    assert!(rt; cell.as_str() == "   \x1b[31m日\x1b[39m…");
    Ok(())
}

#[test]
fn close_cell_example(rt: HostRuntime) -> Result<(), Fail> {
    let closed = close_cell(rt.alloc(), CowStr::Borrowed("\x1b[1ma\x07"))?;
    assert!(rt; closed.as_str() == "\x1b[1ma\x1b[22m");
    Ok(())
}

#[test]
fn edit_column_example(rt: HostRuntime) -> Result<(), Fail> {
    let expanded = edit_column(rt.alloc(), &ColumnEdit::Expand(4), CowStr::Borrowed("a\tb"))?;
    assert!(rt; expanded.as_str() == "a   b");
    Ok(())
}

#[test]
fn edit_and_wrap_example(rt: HostRuntime) -> Result<(), Fail> {
    let slice = ColumnEdit::Slice {
        start: 2,
        end: None,
    };
    let mut lines = String::new(rt.alloc());
    for line in edit_and_wrap(rt.alloc(), "> \x1b[1mlion tiger", &[slice], &Wrap::at(5))? {
        lines.push_str(line?.as_str())?;
        lines.push('\n')?;
    }
    assert!(rt; lines.as_str() == "\x1b[1mlion\x1b[22m\n\x1b[1mtiger\x1b[22m\n");
    Ok(())
}

#[test]
fn ansi_expand_tabs_example(rt: HostRuntime) -> Result<(), Fail> {
    let expanded = "a\x1b[4m\tb\n日\tc".ansi_expand_tabs(rt.alloc(), 4)?;
    assert!(rt; expanded.as_str() == "a\x1b[4m   b\n日  c");
    Ok(())
}

#[test]
fn expand_tabs_example(rt: HostRuntime) -> Result<(), Fail> {
    assert!(rt; expand_tabs(rt.alloc(), "a\tb", 4)?.as_str() == "a   b");
    Ok(())
}

#[test]
fn ansi_slice_example(rt: HostRuntime) -> Result<(), Fail> {
    let part = "\x1b[31m日本語\x1b[39m".ansi_slice(rt.alloc(), 1..4)?;
    assert!(rt; part.as_str() == "\x1b[31m 本\x1b[39m");
    Ok(())
}

#[test]
fn ansi_link_at_example(rt: HostRuntime) {
    let text = "a \x1b]8;;http://x\x1b\\link\x1b]8;;\x1b\\.";
    assert!(rt; text.ansi_link_at(2) == Some("http://x"));
    assert!(rt; text.ansi_link_at(6) == None);
}

#[test]
fn alignment_example(rt: HostRuntime) -> Result<(), Fail> {
    assert!(rt; "ab".ansi_pad(rt.alloc(), 5, Alignment::Center)?.as_str() == " ab  ");
    Ok(())
}

#[test]
fn truncate_example(rt: HostRuntime) -> Result<(), Fail> {
    let cut = truncate(rt.alloc(), "\x1b[31m日本語\x1b[39m", 5, "…")?;
    assert!(rt; cut.as_str() == "\x1b[31m日本\x1b[39m…");
    Ok(())
}

#[test]
fn pad_example(rt: HostRuntime) -> Result<(), Fail> {
    let padded = pad(rt.alloc(), "\x1b[31m日本", 6, Alignment::Right)?;
    assert!(rt; padded.as_str() == "  \x1b[31m日本\x1b[39m");
    Ok(())
}

#[test]
fn slice_shown_example(rt: HostRuntime) -> Result<(), Fail> {
    let part = slice_shown(rt.alloc(), "\x1b[31mabc\x1b[39m", 1, Some(2))?;
    assert!(rt; matches!(&part, Sliced::Stretch(part) if part.text == "b"));
    assert!(rt; part.join(rt.alloc())?.as_str() == "\x1b[31mb\x1b[39m");
    Ok(())
}

#[test]
fn sliced_example(rt: HostRuntime) -> Result<(), Fail> {
    let part = slice_shown(rt.alloc(), "\x1b[31mabc", 0, Some(2))?;
    assert!(rt; matches!(&part, Sliced::Stretch(part) if part.text == "\x1b[31mab"));
    Ok(())
}

#[test]
fn stretch_example(rt: HostRuntime) -> Result<(), Fail> {
    let part = slice_shown(rt.alloc(), "\x1b[31mabc", 1, Some(2))?;
    assert!(rt; matches!(&part, Sliced::Stretch(part) if !part.opened.is_plain()));
    Ok(())
}

#[test]
fn sliced_join_example(rt: HostRuntime) -> Result<(), Fail> {
    let part = slice_shown(rt.alloc(), "\x1b[31mabc", 0, Some(2))?;
    assert!(rt; part.join(rt.alloc())?.as_str() == "\x1b[31mab\x1b[39m");
    Ok(())
}

#[test]
fn stretch_join_example(rt: HostRuntime) -> Result<(), Fail> {
    let part = slice_shown(rt.alloc(), "\x1b[31mabc", 2, None)?;
    if let Sliced::Stretch(part) = part {
        assert!(rt; part.join(rt.alloc())?.as_str() == "\x1b[31mc\x1b[39m");
    }
    Ok(())
}

#[test]
fn shown_example(rt: HostRuntime) -> Result<(), Fail> {
    let padded = pad_shown(rt.alloc(), "ab", 4, Alignment::Left)?;
    assert!(rt; padded.text.as_str() == "ab" && padded.missing == 2);
    Ok(())
}

#[test]
fn join_example(rt: HostRuntime) -> Result<(), Fail> {
    let padded = pad_shown(rt.alloc(), "ab", 4, Alignment::Center)?;
    assert!(rt; join(rt.alloc(), padded)?.as_str() == " ab ");
    Ok(())
}

#[test]
fn pad_shown_example(rt: HostRuntime) -> Result<(), Fail> {
    let padded = pad_shown(rt.alloc(), "\x1b[31m日本", 6, Alignment::Right)?;
    assert!(rt; padded.missing == 2);
    assert!(rt; join(rt.alloc(), padded)?.as_str() == "  \x1b[31m日本\x1b[39m");
    Ok(())
}

#[test]
fn truncate_shown_example(rt: HostRuntime) -> Result<(), Fail> {
    let cut = truncate_shown(rt.alloc(), "\x1b[31m日本語\x1b[39m", 5, "…")?;
    assert!(rt; cut.tail == "…");
    assert!(rt; join(rt.alloc(), cut)?.as_str() == "\x1b[31m日本\x1b[39m…");
    Ok(())
}

#[test]
fn fit_shown_example(rt: HostRuntime) -> Result<(), Fail> {
    let cell = fit_shown(rt.alloc(), "\x1b[31m日本語\x1b[39m", 4, Alignment::Right, "…")?;
    assert!(rt; cell.missing == 1 && cell.tail == "…");
    Ok(())
}

#[test]
fn truncate_bare_example(rt: HostRuntime) {
    let cut = truncate_bare("connection", 5, "…");
    assert!(rt; matches!(cut, Some(cut) if cut.text == "conn" && cut.tail == "…"));
    let whole = truncate_bare("disk", 5, "…");
    assert!(rt; matches!(whole, Some(whole) if whole.text == "disk" && whole.missing == 1));
}

#[test]
fn missing_bare_example(rt: HostRuntime) {
    assert!(rt; missing_bare("disk", 6) == Some(2) && missing_bare("disk", 3) == Some(0));
    assert!(rt; missing_bare("\x1b[1mdisk", 6) == None);
}

#[test]
fn closed_cell_example(rt: HostRuntime) -> Result<(), Fail> {
    assert!(rt; closed_cell(rt.alloc(), "\x1b[1m~\x07")?.as_str() == "\x1b[1m~\x1b[22m");
    Ok(())
}

#[test]
fn tail_for_example(rt: HostRuntime) -> Result<(), Fail> {
    assert!(rt; tail_for(rt.alloc(), "connection", 5, "\t~")?.as_str() == " ~");
    assert!(rt; tail_for(rt.alloc(), "disk", 5, "\t~")?.as_str() == "");
    Ok(())
}

#[test]
fn before_text_example(rt: HostRuntime) {
    assert!(rt; Alignment::Center.before_text(5) == 2);
}

#[test]
fn slice_example(rt: HostRuntime) -> Result<(), Fail> {
    let part = slice(rt.alloc(), "\x1b[31m日本語\x1b[39m", 1, Some(4))?;
    assert!(rt; part.as_str() == "\x1b[31m 本\x1b[39m");
    Ok(())
}

#[test]
fn link_at_example(rt: HostRuntime) {
    assert!(rt; link_at("\x1b]8;;http://x\x1b\\ab\x1b]8;;\x1b\\c", 1) == Some("http://x"));
}

#[test]
fn lines_example(rt: HostRuntime) {
    let mut lines = Lines::new("ab \x1b[1mcd  efg", 5);
    assert!(rt; lines.next() == Some((0, 5)));
    assert!(rt; lines.next() == Some((7, 10)));
    assert!(rt; lines.next() == None);
    let mut lines = Lines::new("a\x07b\tc", 2);
    assert!(rt; lines.next() == Some((0, 3)));
    assert!(rt; lines.next() == Some((4, 5)));
    assert!(rt; lines.next() == None);
}

#[test]
fn ansi_wrap_example(rt: HostRuntime) -> Result<(), Fail> {
    let mut lines = "\x1b[31mlion tiger".ansi_wrap(rt.alloc(), 5);
    assert!(rt; matches!(&lines.next(), Some(Ok(line)) if line.as_str() == "\x1b[31mlion\x1b[39m"));
    assert!(rt;
        matches!(&lines.next(), Some(Ok(line)) if line.as_str() == "\x1b[31mtiger\x1b[39m")
    );
    assert!(rt; matches!(&lines.next(), None));
    Ok(())
}

#[test]
fn ansi_wrap_loop_example(rt: HostRuntime) -> Result<(), Fail> {
    let mut lines = String::new(rt.alloc());
    for line in "\x1b[1mlion tiger".ansi_wrap(rt.alloc(), 5) {
        lines.push_str(line?.as_str())?;
        lines.push('\n')?;
    }
    assert!(rt; lines.as_str() == "\x1b[1mlion\x1b[22m\n\x1b[1mtiger\x1b[22m\n");
    Ok(())
}

#[test]
fn wrap_example(rt: HostRuntime) -> Result<(), Fail> {
    let first = wrap(rt.alloc(), "\x1b[1mlion tiger", 5).next();
    assert!(rt; matches!(&first, Some(Ok(line)) if line.as_str() == "\x1b[1mlion\x1b[22m"));
    Ok(())
}

#[test]
fn has_next_example(rt: HostRuntime) -> Result<(), Fail> {
    let mut lines = wrap(rt.alloc(), "lion", 5);
    assert!(rt; has_next(&lines));
    assert!(rt; matches!(&lines.next(), Some(Ok(_))));
    assert!(rt; !has_next(&lines));
    Ok(())
}

#[test]
fn only_line_example(rt: HostRuntime) -> Result<(), Fail> {
    let lines = wrap(rt.alloc(), "\x1b[1mlion", 5);
    assert!(rt;
        matches!(only_line(&lines), Some((text, style)) if text.len() == 8 && style.is_bold())
    );
    Ok(())
}

#[test]
fn ansi_wrap_with_example(rt: HostRuntime) -> Result<(), Fail> {
    let to = Wrap::at(8).first_indent("* ").indent("\x1b[2m|\t");
    let mut lines = "\x1b[31mlion tiger".ansi_wrap_with(rt.alloc(), &to);
    assert!(rt;
        matches!(&lines.next(), Some(Ok(line)) if line.as_str() == "* \x1b[31mlion\x1b[39m")
    );
    assert!(rt;
        matches!(&lines.next(), Some(Ok(line))
        if line.as_str() == "\x1b[2m| \x1b[22m\x1b[31mtiger\x1b[39m")
    );
    assert!(rt; matches!(&lines.next(), None));
    Ok(())
}

#[test]
fn wrap_options_example(rt: HostRuntime) -> Result<(), Fail> {
    let mut lines = String::new(rt.alloc());
    let to = Wrap::at(8).first_indent("* ").indent("  ");
    for line in "lion tiger".ansi_wrap_with(rt.alloc(), &to) {
        lines.push_str(line?.as_str())?;
        lines.push('\n')?;
    }
    assert!(rt; lines.as_str() == "* lion\n  tiger\n");
    Ok(())
}

#[test]
fn wrap_with_example(rt: HostRuntime) -> Result<(), Fail> {
    let to = Wrap::at(8).first_indent("\x1b[1m* ").indent("  ");
    let first = wrap_with(rt.alloc(), "lion tiger", &to).next();
    assert!(rt; matches!(&first, Some(Ok(line)) if line.as_str() == "\x1b[1m* \x1b[22mlion"));
    Ok(())
}
