//! Ranges of positions of a plain text.
ghost use Rattle.std.specs.Prelude.{◌≡◌, ℕ, Option, Some, None};
ghost use Rattle.std.specs.Range.{range_inclusive_start, range_inclusive_end};
ghost use Rattle.ansi_slice.specs.Ranges.{past_inclusive};

use std::ops::{Range, RangeFrom, RangeFull, RangeInclusive, RangeTo, RangeToInclusive};

/// A range of positions of a plain text, in bytes from its start: `a..b`, `a..=b`, `a..`, `..b`,
/// `..=b` or `..`. Doesn't allocate. (std; as a trait, own.)
///
/// ```
/// let text = "\x1b[30mTEXT\x1b[39m";
/// assert!(rt; text.ansi_cut(rt.alloc(), 1..=2)?.as_str() == "\x1b[30mEX\x1b[39m");
/// assert!(rt; text.ansi_cut(rt.alloc(), ..)?.as_str() == "\x1b[30mTEXT\x1b[39m");
/// ```
pub trait AnsiRange: Drop {
    /// The position that the range begins at.
    ghost start: { Self → ℕ };

    /// The position that the range ends in front of, if it has an end.
    ghost end: { Self → Option ℕ };

    /// The position that the range begins at: 0 if none is written. (std)
    ///
    /// ```
    /// assert!(rt; AnsiRange::start(&(2..=5)) == 2);
    /// assert!(rt; AnsiRange::start(&(..5)) == 0);
    /// ```
    fn start(&self) -> usize
        ensures { result ≡ start self.now };

    /// The position that the range ends in front of, or `None` if it has no end.
    ///
    /// It is `b + 1` for an inclusive end `b`. An inclusive end of `usize::MAX` counts as no end.
    /// (std, but for `usize::MAX`.)
    ///
    /// ```
    /// assert!(rt; AnsiRange::end(&(2..=5)) == Some(6));
    /// assert!(rt; AnsiRange::end(&(2..)).is_none());
    /// ```
    fn end(&self) -> Option<usize>
        ensures { result ≡ end self.now };
}

impl AnsiRange for Range<usize> {
    ghost start = { λ r. r.start };

    ghost end = { λ r. Some r.end };

    fn start(&self) -> usize {
        self.start
    }

    fn end(&self) -> Option<usize> {
        Some(self.end)
    }
}

impl AnsiRange for RangeInclusive<usize> {
    ghost start = { range_inclusive_start };

    ghost end = { λ r. past_inclusive (range_inclusive_end r) };

    fn start(&self) -> usize {
        *self.start()
    }

    fn end(&self) -> Option<usize> {
        self.end().checked_add(1)
    }
}

impl AnsiRange for RangeFrom<usize> {
    ghost start = { λ r. r.start };

    ghost end = { λ _. None };

    fn start(&self) -> usize {
        self.start
    }

    fn end(&self) -> Option<usize> {
        None
    }
}

impl AnsiRange for RangeTo<usize> {
    ghost start = { λ _. 0 };

    ghost end = { λ r. Some r.end };

    fn start(&self) -> usize {
        0
    }

    fn end(&self) -> Option<usize> {
        Some(self.end)
    }
}

impl AnsiRange for RangeToInclusive<usize> {
    ghost start = { λ _. 0 };

    ghost end = { λ r. past_inclusive r.end };

    fn start(&self) -> usize {
        0
    }

    fn end(&self) -> Option<usize> {
        self.end.checked_add(1)
    }
}

impl AnsiRange for RangeFull {
    ghost start = { λ _. 0 };

    ghost end = { λ _. None };

    fn start(&self) -> usize {
        0
    }

    fn end(&self) -> Option<usize> {
        None
    }
}
