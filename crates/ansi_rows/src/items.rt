//! The results of a scanner.
use crate::check::Check;
use ansi_str::ansitok::{Item, Kind, Scanner};

/// The kind of an item and its length.
fn check_item(check: &mut Check<'_>, item: &Item) {
    let kind = match item.kind {
        Kind::Text => "text",
        Kind::Sgr => "sgr",
        Kind::Other => "other",
        Kind::Lone => "lone",
    };
    let len = item.end.saturating_sub(item.start);
    check.written(format!(in check.alloc; "{kind} {len}"));
}

/// Checks the items of a text in order, and that no item follows the last one.
pub fn check_items(check: &mut Check<'_>) {
    let text = check.row.text;
    let mut scanner = Scanner::new(text);
    // it has looked for the first ESC, once at each byte
    let len = text.len() as u128;
    if scanner.reads() > len {
        check.fail("a look too early");
    }
    let mut offset = 0;
    for _ in 0..usize::MAX {
        let Some(item) = scanner.next() else {
            break;
        };
        if item.start != offset {
            check.fail("a gap");
        }
        offset = item.end;
        check_item(check, &item);
    }
    if scanner.next().is_some() || scanner.next().is_some() {
        check.fail("an item after the end");
    }
    // at least as many looks as the text has bytes, and at most three times as many
    let looks = scanner.reads();
    if looks < len || looks > 3 * len {
        check.fail("too few or too many looks");
    }
}
