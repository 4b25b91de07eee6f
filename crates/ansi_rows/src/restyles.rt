//! The results of calls on matches, on ranges and on links, and of those that make styles.
use crate::check::Check;
use crate::rows::Row;
use ansi_restyle::AnsiRestyle;
use ansi_restyle::links::{Links, link_in, unlink_in};
use ansi_restyle::matches::Matches;
use ansi_restyle::remove::remove_in;
use ansi_restyle::replace::{insert_in, replace_in};
use ansi_restyle::replace_all::replace_all_in;
use ansi_restyle::replace_each::{Replacement, replace_each_in};
use ansi_restyle::restyle::{mark_in, refused_range, restyle_in};
use ansi_restyle::styles::{difference, style_of, union};
use ansi_str::{AnsiStr, Style};
use refusing::Refusing;
use std::alloc::{Allocator, Global};

#[derive(Clone, Copy)]
pub enum RestyleCall<'r> {
    Matches(&'r str),
    FindFrom(usize, &'r str),
    /// The codes; the ranges are the row's further fields.
    Restyle(&'r str),
    /// The ranges are the row's fields.
    RefusedRange,
    Mark(&'r str, &'r str),
    Remove(usize, usize),
    Replace(usize, usize, &'r str),
    Insert(usize, &'r str),
    ReplaceAll(&'r str, &'r str),
    /// The replacements are the row's fields.
    ReplaceEach,
    Link(usize, usize, &'r str),
    Unlink,
    Links,
    /// The style of the codes that are the row's text.
    StyleOf,
    /// What is set in that style or in another, given by its codes.
    Union(&'r str),
    /// What is set in that style and isn't set so in another.
    Difference(&'r str),
}

impl<'r> RestyleCall<'r> {
    pub fn new(row: &Row<'r>) -> Option<Self> {
        Some(match row.call {
            "matches" => RestyleCall::Matches(row.argument(0)?),
            "find_from" => RestyleCall::FindFrom(row.number(0)?, row.argument(1)?),
            "restyle" => RestyleCall::Restyle(row.argument(0)?),
            "refused_range" => RestyleCall::RefusedRange,
            "mark" => RestyleCall::Mark(row.argument(0)?, row.argument(1)?),
            "remove" => RestyleCall::Remove(row.number(0)?, row.number(1)?),
            "replace" => { RestyleCall::Replace(row.number(0)?, row.number(1)?, row.argument(2)?) }
            "insert" => RestyleCall::Insert(row.number(0)?, row.argument(1)?),
            "replace_all" => RestyleCall::ReplaceAll(row.argument(0)?, row.argument(1)?),
            "replace_each" => RestyleCall::ReplaceEach,
            "link" => RestyleCall::Link(row.number(0)?, row.number(1)?, row.argument(2)?),
            "unlink" => RestyleCall::Unlink,
            "links" => RestyleCall::Links,
            "style_of" => RestyleCall::StyleOf,
            "union" => RestyleCall::Union(row.argument(0)?),
            "difference" => RestyleCall::Difference(row.argument(0)?),
            _ => return None,
        })
    }
}

/// A range: two numbers with a comma between.
fn range_of(field: &str) -> Option<(usize, usize)> {
    let (start, end) = field.split_once(',')?;
    Some((start.parse().ok()?, end.parse().ok()?))
}

/// The ranges of a row, from a field on.
fn ranges_of(alloc: Global, row: &Row<'_>, from: usize) -> Option<Vec<(usize, usize)>> {
    let mut ranges = Vec::new(alloc);
    for field in row.more.get(from..)? {
        ranges.push(range_of(field.as_str())?).ok()?;
    }
    Some(ranges)
}

/// The replacements of a row, each of three fields: where its range begins and ends, and a text.
fn replacements_of<'r>(alloc: Global, row: &Row<'r>) -> Option<Vec<Replacement<'r>>> {
    let mut edits = Vec::new(alloc);
    for at in (0..row.more.len()).step_by(3) {
        let range = (row.number(at)?, row.number(at.saturating_add(1))?);
        let with = row.argument(at.saturating_add(2))?;
        edits.push(Replacement { range, with }).ok()?;
    }
    Some(edits)
}

fn check_matches(check: &mut Check<'_>, matches: Matches<'_, '_>) {
    for range in matches {
        check.interval(Some(range));
    }
}

fn check_links(check: &mut Check<'_>, links: Links<'_>) {
    for link in links {
        check.interval(Some(link.range));
        check.text(link.address);
    }
}

/// Checks what sets a style, and what closes it.
fn check_style(check: &mut Check<'_>, style: &Style) {
    let alloc = check.alloc;
    check.written(format!(in alloc; "{}", style.start()));
    check.written(format!(in alloc; "{}", style.end()));
}

/// Checks the style that codes select.
fn check_style_of<A: Allocator>(check: &mut Check<'_>, alloc: A) {
    match style_of(alloc, check.row.text) {
        Ok(Some(style)) => check_style(check, &style),
        Ok(None) => check.none("2"),
        Err(_) => check.is_err = true,
    }
}

/// The styles of the codes that are the row's text, and of other codes.
fn both_styles(check: &Check<'_>, codes: &str) -> Option<(Style, Style)> {
    let first = style_of(check.alloc, check.row.text).ok()??;
    Some((first, style_of(check.alloc, codes).ok()??))
}

/// Checks what a call of `AnsiRestyle` returns.
pub fn make_restyle_call<T: AnsiStr>(check: &mut Check<'_>, text: &T, call: RestyleCall<'_>) {
    let alloc = check.alloc;
    match call {
        RestyleCall::Matches(pat) => check_matches(check, text.ansi_matches(pat)),
        RestyleCall::FindFrom(position, pat) => {
            check.number_or_none(text.ansi_find_from(position, pat));
        }
        RestyleCall::Restyle(codes) => match ranges_of(alloc, &check.row, 1) {
            Some(ranges) => {
                check.option_or_err(text.ansi_restyle(alloc, ranges.as_slice(), codes), "2");
            }
            None => check.fail("no range"),
        },
        RestyleCall::RefusedRange => match ranges_of(alloc, &check.row, 0) {
            Some(ranges) => {
                check.number_or_none(refused_range(check.row.text, ranges.as_slice()));
            }
            None => check.fail("no range"),
        },
        RestyleCall::Mark(pat, codes) => {
            check.option_or_err(text.ansi_mark(alloc, pat, codes), "2");
        }
        RestyleCall::Remove(start, end) => {
            check.option_or_err(text.ansi_remove(alloc, (start, end)), "2");
        }
        RestyleCall::Replace(start, end, with) => {
            check.option_or_err(text.ansi_replace(alloc, (start, end), with), "2");
        }
        RestyleCall::Insert(position, with) => {
            check.option_or_err(text.ansi_insert(alloc, position, with), "2");
        }
        RestyleCall::ReplaceAll(pat, with) => {
            check.text_or_err(text.ansi_replace_all(alloc, pat, with));
        }
        RestyleCall::ReplaceEach => match replacements_of(alloc, &check.row) {
            Some(edits) => {
                check.option_or_err(text.ansi_replace_each(alloc, edits.as_slice()), "2");
            }
            None => check.fail("no replacement"),
        },
        RestyleCall::Link(start, end, address) => {
            check.option_or_err(text.ansi_link(alloc, (start, end), address), "2");
        }
        RestyleCall::Unlink => check.text_or_err(text.ansi_unlink(alloc)),
        RestyleCall::Links => check_links(check, text.ansi_links()),
        RestyleCall::StyleOf => check_style_of(check, alloc),
        RestyleCall::Union(codes) => match both_styles(check, codes) {
            Some((first, second)) => check_style(check, &union(&first, &second)),
            None => check.fail("no style"),
        },
        RestyleCall::Difference(codes) => match both_styles(check, codes) {
            Some((first, second)) => check_style(check, &difference(&first, &second)),
            None => check.fail("no style"),
        },
    }
}

/// Checks what a call returns if it allocates from `heap`. A call without an allocator is made as
/// usual.
pub fn make_restyle_call_in(check: &mut Check<'_>, heap: &Refusing<Global>, call: RestyleCall<'_>) {
    let text = check.row.text;
    match call {
        RestyleCall::Restyle(codes) => match ranges_of(check.alloc, &check.row, 1) {
            Some(ranges) => {
                check.option_or_err(restyle_in(heap, text, ranges.as_slice(), codes), "2");
            }
            None => check.fail("no range"),
        },
        RestyleCall::Mark(pat, codes) => {
            check.option_or_err(mark_in(heap, text, pat, codes), "2");
        }
        RestyleCall::Remove(start, end) => {
            check.option_or_err(remove_in(heap, text, (start, end)), "2");
        }
        RestyleCall::Replace(start, end, with) => {
            check.option_or_err(replace_in(heap, text, (start, end), with), "2");
        }
        RestyleCall::Insert(position, with) => {
            check.option_or_err(insert_in(heap, text, position, with), "2");
        }
        RestyleCall::ReplaceAll(pat, with) => {
            check.text_or_err(replace_all_in(heap, text, pat, with));
        }
        RestyleCall::ReplaceEach => match replacements_of(check.alloc, &check.row) {
            Some(edits) => {
                check.option_or_err(replace_each_in(heap, text, edits.as_slice()), "2");
            }
            None => check.fail("no replacement"),
        },
        RestyleCall::Link(start, end, address) => {
            check.option_or_err(link_in(heap, text, (start, end), address), "2");
        }
        RestyleCall::Unlink => check.text_or_err(unlink_in(heap, text)),
        RestyleCall::StyleOf => check_style_of(check, heap),
        _ => make_restyle_call(check, &text, call),
    }
}
