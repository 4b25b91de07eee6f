//! Ranges of the six types that calls accept.
ghost use Rattle.std.specs.Prelude.{IsTrue};
ghost use Rattle.ansi_str.specs.Plain.{plain};
ghost use Rattle.ansi_str.specs.Positions.{is_good_range};

use crate::check::Check;
use ansi_str::{AnsiRange, AnsiStr};
use std::alloc::Global;

/// A range of one of the six types.
#[derive(Clone, Copy)]
pub enum AnyRange {
    Range(usize, usize),
    RangeInclusive(usize, usize),
    RangeFrom(usize),
    RangeTo(usize),
    RangeToInclusive(usize),
    RangeFull,
}

use AnyRange::{Range, RangeFrom, RangeFull, RangeInclusive, RangeTo, RangeToInclusive};

/// Every range with this start and end. An end of `usize::MAX` means no end.
pub fn ranges_of(start: usize, end: usize) -> [Option<AnyRange>; 8] {
    let is_from_zero = start == 0;
    let is_endless = end == usize::MAX;
    let has_last = end > 0;
    let last = end.saturating_sub(1);
    [
        Some(Range(start, end)),
        is_from_zero.then_some(RangeTo(end)),
        has_last.then_some(RangeInclusive(start, last)),
        (has_last & is_from_zero).then_some(RangeToInclusive(last)),
        is_endless.then_some(RangeInclusive(start, end)),
        is_endless.then_some(RangeFrom(start)),
        (is_endless & is_from_zero).then_some(RangeToInclusive(end)),
        (is_endless & is_from_zero).then_some(RangeFull),
    ]
}

impl AnyRange {
    /// The start of the range, and its end if it has one.
    pub fn ends(self) -> (usize, Option<usize>) {
        match self {
            Range(start, end) => (start, Some(end)),
            RangeInclusive(start, last) => (start, last.checked_add(1)),
            RangeFrom(start) => (start, None),
            RangeTo(end) => (0, Some(end)),
            RangeToInclusive(last) => (0, last.checked_add(1)),
            RangeFull => (0, None),
        }
    }

    /// Checks what `ansi_get` or `ansi_cut` returns for the range as its own type.
    pub fn make_call<T: AnsiStr>(self, check: &mut Check<'_>, text: &T, is_cut: bool) {
        match self {
            Range(a, b) => check_range(check, text, a..b, is_cut),
            RangeInclusive(a, b) => check_range(check, text, a..=b, is_cut),
            RangeFrom(a) => check_range(check, text, a.., is_cut),
            RangeTo(b) => check_range(check, text, ..b, is_cut),
            RangeToInclusive(b) => check_range(check, text, ..=b, is_cut),
            RangeFull => check_range(check, text, .., is_cut),
        }
    }
}

fn check_range<T: AnsiStr, R: AnsiRange>(check: &mut Check<'_>, text: &T, range: R, is_cut: bool) {
    let alloc = check.alloc;
    if !is_cut {
        check.option_or_err(text.ansi_get(alloc, range), "2");
    } else if is_good_range_of(alloc, text, range.start(), range.end()) {
        check.text_or_err(text.ansi_cut(alloc, range));
    } else {
        check.none("2");
    }
}

/// Whether the text may be cut at both positions.
pub fn is_good_range_of<T: AnsiStr>(
    alloc: Global,
    text: &T,
    start: usize,
    end: Option<usize>,
) -> bool
    ensures { IsTrue result → IsTrue (is_good_range (plain (T.text text.now)) start end) }
{
    match end {
        Some(end) => matches!(text.ansi_get(alloc, start..end), Ok(Some(_))),
        None => matches!(text.ansi_get(alloc, start..), Ok(Some(_))),
    }
}
