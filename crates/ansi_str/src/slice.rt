//! The calls on a text that take it as if its sequences weren't there.
ghost use Rattle.std.specs.Prelude.{◌≡◌, ◌↔◌, ◌⊎◌, ℕ, List, [], IsTrue, IsFalse, IsNone, IsOk};
ghost use Rattle.std.specs.Prelude.{IfOk, IfSome, nat_eq, string_bytes, ◌+◌, ◌*◌, ◌<◌, ◌^◌, length};
ghost use Rattle.std.specs.Prelude.{filter, None, Some, MatchOption, ◌≤◌, map};
ghost use Rattle.std.specs.List.{list_all, sum_by};
ghost use Rattle.std.specs.Cow.{cow_str_bytes, IsBorrowedStr};
ghost use Rattle.std.specs.List.{starts_with, ends_with};
ghost use Rattle.std.specs.Str.{IsCharBoundary};
ghost use Rattle.std.specs.Str.Pattern.{FindsText, MatchBeginsAt};
ghost use Rattle.ansi_items.specs.Pieces.{pieces_of};
ghost use Rattle.ansi_items.specs.Plain.{plain, is_text, has_escape};
ghost use Rattle.ansi_search.specs.Positions.{is_char_boundary, is_good_range, is_position_in};
ghost use Rattle.ansi_search.specs.Positions.{is_range_in};
ghost use Rattle.ansi_slice.specs.Cut.{cut};
ghost use Rattle.ansi_slice.specs.Sides.{left_side, right_side};
ghost use Rattle.ansi_slice.specs.Kept.{without_prefix, without_suffix, trimmed};
ghost use Rattle.ansi_split.specs.Parts.{all_parts};
ghost use Rattle.ansi_style.specs.Written.{longest_close, longest_start_and_close};
ghost use Rattle.ansi_split.specs.Splits.{split_parts};

use crate::split::{AnsiSplit, split_in};
use ansi_search::search;
pub use ansi_slice::slice::{
    AnsiRange, cut_in, get_in, has_any, split_at_in, strip_in, strip_prefix_in, strip_suffix_in,
    trim_in,
};
use std::alloc::{AllocError, Allocator, Global};
use std::borrow::CowStr;

/// A text, taken as if its sequences weren't there.
///
/// `&str`, `String` and `CowStr` implement it, with the same results, so that a call can be made on
/// what another call returned. A result borrows for as long as the reference that the call is made
/// on. If it has to live as long as a `&'t str`, use the functions `.._in` of
/// [`slice`](crate::slice) and [`split`](crate::split). (The calls, the Rust crate.)
///
/// ```
/// let borrowed = "\x1b[31mred\x1b[39m";
/// let owned = String::from_str(rt.alloc(), borrowed)?;
/// let cut = owned.ansi_cut(rt.alloc(), ..2)?;
/// assert!(rt; borrowed.ansi_starts_with("red"));
/// assert!(rt; owned.ansi_starts_with("red"));
/// assert!(rt; cut.ansi_ends_with("re"));
/// ```
pub trait AnsiStr {
    /// The bytes of the text, sequences included.
    ghost text: { Self → List ℕ };

    /// The text itself, sequences included: a borrow, which doesn't allocate. Every other call is a
    /// call on this text and is `final`, so another type has to implement only this one. (The Rust
    /// crate lacks it.)
    ///
    /// ```
    /// assert!(rt; "\x1b[1mbold".as_text() == "\x1b[1mbold");
    /// ```
    fn as_text(&self) -> &str
        ensures { result.now ≡ text self.now };

    /// The text between two positions, as [`ansi_cut`](AnsiStr::ansi_cut) returns it.
    ///
    /// Positions count bytes of the plain text. It is `None` exactly if the range is bad: if a
    /// position is inside a character, or the end is below the start. (std's `get`, on the plain
    /// text; past the end, the Rust crate.)
    ///
    /// It is a borrow if the text has no ESC. A borrow and a `None` don't allocate. Otherwise it is
    /// owned, and at most a close longer than the text, `longest_close`, 88 bytes. `Err` means
    /// out of memory.
    ///
    /// ```
    /// let text = "\x1b[30mTEXT\x1b[39m";
    /// let cut = text.ansi_get(rt.alloc(), 1..3);
    /// assert!(rt; matches!(&cut, Ok(Some(cut)) if cut.as_str() == "\x1b[30mEX\x1b[39m"));
    /// assert!(rt; matches!(&text.ansi_get(rt.alloc(), 3..1), Ok(None)));
    /// ```
    final fn ansi_get<R: AnsiRange>(
        &self,
        alloc: Global,
        range: R,
    ) -> Result<Option<CowStr<'_>>, AllocError>
        ensures none { IfOk result (λ o. IsNone o
            ↔ IsFalse (is_good_range (plain (text self.now)) (R.start range) (R.end range))) }
        ensures bytes { IfOk result (λ o. IfSome o (λ c.
            cow_str_bytes c ≡ cut (text self.now) (R.start range) (R.end range))) }
        ensures borrowed { IfOk result (λ o. IfSome o (λ c.
            IsBorrowedStr c ↔ IsFalse (has_escape (text self.now)))) }
        ensures len { IfOk result (λ o. IfSome o (λ c.
            length (cow_str_bytes c) ≤ length (text self.now) + longest_close)) }
        ensures takes_no_memory { IsFalse (has_escape (text self.now))
            ⊎ IsFalse (is_good_range (plain (text self.now)) (R.start range) (R.end range)) →
            IsOk result }
    {
        get_in(alloc, self.as_text(), range.start(), range.end())
    }

    /// The text between two positions, each character in its style.
    ///
    /// Every sequence up to the end of the range stays, at its place. The plain bytes of the range
    /// stay. After them comes the close of the style, so that nothing is left open. Positions
    /// count bytes of the plain text. Each has to be a character boundary of it, or past its
    /// end, which counts as the end. The end may not be below the start.
    ///
    /// It is a borrow if the text has no ESC. Then the call doesn't allocate. Otherwise it is
    /// owned, and at most a close longer than the text, `longest_close`, 88 bytes. `Err` means
    /// out of memory. (The Rust crate.)
    ///
    /// ```
    /// let cut = "\x1b[30mTEXT\x1b[39m".ansi_cut(rt.alloc(), 1..3)?;
    /// assert!(rt; cut.as_str() == "\x1b[30mEX\x1b[39m");
    /// ```
    final fn ansi_cut<R: AnsiRange>(
        &self,
        alloc: Global,
        range: R,
    ) -> Result<CowStr<'_>, AllocError>
        requires { IsTrue (is_range_in (text self.now) (R.start range) (R.end range)) }
        ensures bytes { IfOk result (λ c.
            cow_str_bytes c ≡ cut (text self.now) (R.start range) (R.end range)) }
        ensures borrowed { IfOk result (λ c.
            IsBorrowedStr c ↔ IsFalse (has_escape (text self.now))) }
        ensures len { IfOk result (λ c.
            length (cow_str_bytes c) ≤ length (text self.now) + longest_close) }
        ensures takes_no_memory { IsFalse (has_escape (text self.now)) → IsOk result }
    {
        cut_in(alloc, self.as_text(), range.start(), range.end())
    }

    /// Whether a character of the plain text begins at the index, or the plain text ends there.
    /// (std, on the plain text.)
    ///
    /// The index counts bytes of the plain text. The result is false past the end. If it is true,
    /// the text can be cut and split there: the index is a good position, and `..index` and
    /// `index..` are good ranges. Doesn't allocate.
    ///
    /// ```
    /// assert!(rt; "\x1b[1mé\x1b[0m".ansi_is_char_boundary(2));
    /// assert!(rt; !"\x1b[1mé\x1b[0m".ansi_is_char_boundary(1));
    /// ```
    final fn ansi_is_char_boundary(&self, index: usize) -> bool
        ensures value { result ≡ is_char_boundary (plain (text self.now)) index }
        ensures boundary { IsTrue result ↔ IsCharBoundary (plain (text self.now)) index }
        ensures good_before { IsTrue result →
            IsTrue (is_good_range (plain (text self.now)) 0 (Some index)) }
        ensures good_after { IsTrue result →
            IsTrue (is_good_range (plain (text self.now)) index None) }
    {
        search::is_char_boundary(self.as_text(), index)
    }

    /// The last character boundary of the plain text that isn't past the index. (std's
    /// `floor_char_boundary`, on the plain text.)
    ///
    /// The index and the result count bytes of the plain text. If the index is past the end, the
    /// result is the end. The result is a good position, and `..result` and `result..` are good
    /// ranges, so a text can be cut to the whole characters that fit in `index` bytes. Doesn't
    /// allocate. (The Rust crate lacks it.)
    ///
    /// ```
    /// let text = "\x1b[1mLöwe\x1b[0m";
    /// assert!(rt; text.ansi_floor_char_boundary(2) == 1);
    /// let cut = text.ansi_cut(rt.alloc(), ..text.ansi_floor_char_boundary(2))?;
    /// assert!(rt; cut.as_str() == "\x1b[1mL\x1b[22m");
    /// ```
    final fn ansi_floor_char_boundary(&self, index: usize) -> usize
        ensures bound { result ≤ index }
        ensures boundary { IsCharBoundary (plain (text self.now)) result }
        ensures nearest { (i : ℕ) → result < i → i ≤ index →
            ¬ (IsCharBoundary (plain (text self.now)) i) }
        ensures good_before { IsTrue (is_good_range (plain (text self.now)) 0 (Some result)) }
        ensures good_after { IsTrue (is_good_range (plain (text self.now)) result None) }
    {
        search::floor_char_boundary(self.as_text(), index)
    }

    /// Where the pattern first occurs in the plain text, in bytes from its start. (std's `find`, on
    /// the plain text.)
    ///
    /// A match may run across sequences. It is `None` if the pattern doesn't occur. An empty
    /// pattern occurs at 0, a pattern with an ESC nowhere. The start and the end of the match
    /// are good positions, so the text can be cut and split there: the match, what is before it and
    /// what is after it are good ranges. Doesn't allocate.
    ///
    /// ```
    /// assert!(rt; "a\x1b[1mb\x1b[0mc".ansi_find("bc") == Some(1));
    /// assert!(rt; "a\x1b[1mb\x1b[0mc".ansi_find("cb").is_none());
    /// ```
    final fn ansi_find(&self, pat: &str) -> Option<usize>
        ensures first { MatchOption result (FindsText pat.now (plain (text self.now)) None)
            (MatchBeginsAt (FindsText pat.now) (plain (text self.now))) }
        ensures good { IfSome result (λ i.
            IsTrue (is_good_range (plain (text self.now)) i (Some (i + length pat.now)))) }
        ensures good_before { IfSome result (λ i.
            IsTrue (is_good_range (plain (text self.now)) 0 (Some i))) }
        ensures good_after { IfSome result (λ i.
            IsTrue (is_good_range (plain (text self.now)) (i + length pat.now) None)) }
        ensures fits { IfSome result (λ i. i + length pat.now < 2 ^ 64) }
    {
        search::find(self.as_text(), pat)
    }

    /// The text without a prefix of its plain text, or `None` if the plain text doesn't begin with
    /// it.
    ///
    /// The prefix is compared across sequences. Every sequence stays, at its place, also one
    /// before the prefix or inside it. No style is opened or closed. An empty prefix removes
    /// nothing, and a prefix with an ESC never matches. (std's `strip_prefix`, on the plain
    /// text; the sequences, the Rust crate.)
    ///
    /// It is a borrow if the text has no ESC, and a borrow of all of the text if the prefix is
    /// empty. A borrow and a `None` don't allocate. Otherwise it is owned. `Err` means
    /// out of memory.
    ///
    /// ```
    /// let text = "\x1b[31mred\x1b[39m and plain";
    /// let rest = text.ansi_strip_prefix(rt.alloc(), "red ");
    /// assert!(rt; matches!(&rest, Ok(Some(rest)) if rest.as_str() == "\x1b[31m\x1b[39mand plain"));
    /// assert!(rt; matches!(&text.ansi_strip_prefix(rt.alloc(), "and"), Ok(None)));
    /// ```
    final fn ansi_strip_prefix(
        &self,
        alloc: Global,
        prefix: &str,
    ) -> Result<Option<CowStr<'_>>, AllocError>
        ensures none { IfOk result (λ o.
            IsNone o ↔ IsFalse (starts_with nat_eq (plain (text self.now)) prefix.now)) }
        ensures bytes { IfOk result (λ o. IfSome o (λ c.
            cow_str_bytes c ≡ without_prefix (text self.now) prefix.now)) }
        ensures borrowed { IfOk result (λ o. IfSome o (λ c.
            IsBorrowedStr c ↔ (IsFalse (has_escape (text self.now)) ⊎ (prefix.now ≡ [])))) }
        ensures takes_no_memory { IsFalse (has_escape (text self.now)) ⊎ (prefix.now ≡ [])
            ⊎ IsFalse (starts_with nat_eq (plain (text self.now)) prefix.now) → IsOk result }
    {
        strip_prefix_in(alloc, self.as_text(), prefix)
    }

    /// The text without a suffix of its plain text, or `None` if the plain text doesn't end with
    /// it.
    ///
    /// The suffix is compared across sequences. Every sequence stays, at its place, also one
    /// inside the suffix or after it. No style is opened or closed. An empty suffix removes
    /// nothing, and a suffix with an ESC never matches. (std's `strip_suffix`, on the plain
    /// text; the sequences, the Rust crate.)
    ///
    /// It is a borrow if the text has no ESC, and a borrow of all of the text if the suffix is
    /// empty. A borrow and a `None` don't allocate. Otherwise it is owned. `Err` means
    /// out of memory.
    ///
    /// ```
    /// let text = "plain and \x1b[31mred\x1b[39m";
    /// let rest = text.ansi_strip_suffix(rt.alloc(), " red");
    /// assert!(rt; matches!(&rest, Ok(Some(rest)) if rest.as_str() == "plain and\x1b[31m\x1b[39m"));
    /// assert!(rt; matches!(&text.ansi_strip_suffix(rt.alloc(), "and"), Ok(None)));
    /// ```
    final fn ansi_strip_suffix(
        &self,
        alloc: Global,
        suffix: &str,
    ) -> Result<Option<CowStr<'_>>, AllocError>
        ensures none { IfOk result (λ o.
            IsNone o ↔ IsFalse (ends_with nat_eq (plain (text self.now)) suffix.now)) }
        ensures bytes { IfOk result (λ o. IfSome o (λ c.
            cow_str_bytes c ≡ without_suffix (text self.now) suffix.now)) }
        ensures borrowed { IfOk result (λ o. IfSome o (λ c.
            IsBorrowedStr c ↔ (IsFalse (has_escape (text self.now)) ⊎ (suffix.now ≡ [])))) }
        ensures takes_no_memory { IsFalse (has_escape (text self.now)) ⊎ (suffix.now ≡ [])
            ⊎ IsFalse (ends_with nat_eq (plain (text self.now)) suffix.now) → IsOk result }
    {
        strip_suffix_in(alloc, self.as_text(), suffix)
    }

    /// The parts of the text between the matches of a pattern, each with its sequences and in its
    /// style: an iterator. To make it doesn't allocate.
    ///
    /// The parts are those of std's `split` of the plain text. So an empty pattern occurs at every
    /// character boundary, and leaves an empty part at both ends. A pattern with an ESC occurs
    /// nowhere. A sequence belongs to the first part whose end isn't before its place. A part
    /// begins with the start of the style that the parts before it leave open, and ends with the
    /// close of its own style, if these have anything. A part without text and sequences stays
    /// empty.
    ///
    /// The iterator has at most two parts more than the plain text has bytes, and a `usize` counts
    /// them. A part with no sequence is a borrow if no style is carried into it or it is empty, so
    /// on a text without ESC every part is a borrow. A borrow doesn't allocate. Any other part is
    /// owned. If memory has run out, the iterator returns an `Err` in its place, and then `None`
    /// for good. (std; the Rust crate splits the text with its sequences; where a sequence goes,
    /// own.)
    ///
    /// A part's source length is the number of bytes that it has of the text: its plain bytes and
    /// its sequences. A part is at most a start and a close longer than its source length,
    /// `longest_start_and_close`, 251 bytes. All shares together are no longer than the text.
    ///
    /// ```
    /// let mut cells = String::new(rt.alloc());
    /// for part in "\x1b[31mlion::tiger\x1b[0m".ansi_split(rt.alloc(), "::") {
    ///     cells.push_str(part?.as_str())?;
    ///     cells.push('|')?;
    /// }
    /// assert!(rt; cells.as_str() == "\x1b[31mlion\x1b[39m|\x1b[31mtiger\x1b[0m|");
    /// ```
    final fn ansi_split<'a>(&'a self, alloc: Global, pat: &'a str) -> AnsiSplit<'a>
        ensures parts { result ≡ split_parts (text self.now) pat.now }
        ensures bytes { map (λ p. p.bytes) result ≡ all_parts (text self.now) pat.now }
        ensures len { length result ≤ length (plain (text self.now)) + 2 }
        ensures fits { length result < 2 ^ 64 }
        ensures within { sum_by (λ p. p.source_len) result ≤ length (text self.now) }
        ensures takes_no_memory { IsFalse (has_escape (text self.now)) →
            IsTrue (list_all (λ p. p.borrowed) result) }
    {
        split_in(alloc, self.as_text(), pat)
    }

    /// The text before a position and the text from there on, each character in its style.
    ///
    /// On each side every run of text is written between the start and the close of its style, so
    /// the SGRs themselves aren't copied and nothing is left open. Any other sequence, and a lone
    /// escape, goes left if it is at or before the position, else right. The position counts bytes
    /// of the plain text. It has to be a character boundary of it, or past its end, which counts as
    /// the end.
    ///
    /// Both sides are borrows if the text has no ESC. Then the call doesn't allocate. Otherwise
    /// both are owned, an empty one too. `Err` means out of memory. (The Rust crate.)
    ///
    /// ```
    /// let text = "\x1b[30mTEXT\x1b[39m";
    /// let (left, right) = text.ansi_split_at(rt.alloc(), 2)?;
    /// assert!(rt; left.as_str() == "\x1b[30mTE\x1b[39m");
    /// assert!(rt; right.as_str() == "\x1b[30mXT\x1b[39m");
    /// ```
    final fn ansi_split_at(
        &self,
        alloc: Global,
        mid: usize,
    ) -> Result<(CowStr<'_>, CowStr<'_>), AllocError>
        requires { IsTrue (is_position_in (text self.now) mid) }
        ensures left { IfOk result (λ c. cow_str_bytes c.0 ≡ left_side (text self.now) mid) }
        ensures right { IfOk result (λ c. cow_str_bytes c.1 ≡ right_side (text self.now) mid) }
        ensures borrowed { IfOk result (λ c.
            (IsBorrowedStr c.0 ↔ IsFalse (has_escape (text self.now)))
            × (IsBorrowedStr c.1 ↔ IsFalse (has_escape (text self.now)))) }
        ensures len { IfOk result (λ c. length (cow_str_bytes c.0) + length (cow_str_bytes c.1)
            ≤ length (text self.now)
            + longest_start_and_close * (length (filter is_text (pieces_of (text self.now))) + 1)) }
        ensures takes_no_memory { IsFalse (has_escape (text self.now)) → IsOk result }
    {
        split_at_in(alloc, self.as_text(), mid)
    }

    /// Whether the plain text begins with the pattern.
    ///
    /// The pattern is compared across sequences. Every plain text begins with an empty pattern, and
    /// none with a pattern that has an ESC. Doesn't allocate. (std, on the plain text.)
    ///
    /// ```
    /// assert!(rt; "\x1b[31mred\x1b[39m and plain".ansi_starts_with("red and"));
    /// ```
    final fn ansi_starts_with(&self, pat: &str) -> bool
        ensures { result ≡ starts_with nat_eq (plain (text self.now)) pat.now }
    {
        search::starts_with(self.as_text(), pat)
    }

    /// Whether the plain text ends with the pattern.
    ///
    /// The pattern is compared across sequences. Every plain text ends with an empty pattern, and
    /// none with a pattern that has an ESC. Doesn't allocate. (std, on the plain text.)
    ///
    /// ```
    /// assert!(rt; "plain and \x1b[31mred\x1b[39m".ansi_ends_with("and red"));
    /// ```
    final fn ansi_ends_with(&self, pat: &str) -> bool
        ensures { result ≡ ends_with nat_eq (plain (text self.now)) pat.now }
    {
        search::ends_with(self.as_text(), pat)
    }

    /// The text without the white space at the ends of its plain text.
    ///
    /// White space is the characters for which `char::is_whitespace` is true, also across
    /// sequences. Every sequence stays, at its place, also one among the white space. No style is
    /// opened or closed. (std's `trim`, on the plain text; the sequences, the Rust crate.)
    ///
    /// It is a borrow if the text has no ESC. Then the call doesn't allocate. Otherwise it is
    /// owned. `Err` means out of memory.
    ///
    /// ```
    /// let trimmed = " \x1b[31m red \x1b[39m ".ansi_trim(rt.alloc())?;
    /// assert!(rt; trimmed.as_str() == "\x1b[31mred\x1b[39m");
    /// ```
    final fn ansi_trim(&self, alloc: Global) -> Result<CowStr<'_>, AllocError>
        ensures bytes { IfOk result (λ c. cow_str_bytes c ≡ trimmed (text self.now)) }
        ensures borrowed { IfOk result (λ c.
            IsBorrowedStr c ↔ IsFalse (has_escape (text self.now))) }
        ensures takes_no_memory { IsFalse (has_escape (text self.now)) → IsOk result }
    {
        trim_in(alloc, self.as_text())
    }

    /// The plain text: the text without its sequences and lone escapes.
    ///
    /// It is a borrow of the whole text if the text has no ESC. Then the call doesn't allocate.
    /// Otherwise it is owned. `Err` means out of memory. (The Rust crate.)
    ///
    /// ```
    /// let plain = "\x1b[31mred\x1b[39m and plain".ansi_strip(rt.alloc())?;
    /// assert!(rt; plain.as_str() == "red and plain");
    /// ```
    final fn ansi_strip(&self, alloc: Global) -> Result<CowStr<'_>, AllocError>
        ensures bytes { IfOk result (λ c. cow_str_bytes c ≡ plain (text self.now)) }
        ensures borrowed { IfOk result (λ c.
            IsBorrowedStr c ↔ IsFalse (has_escape (text self.now))) }
        ensures takes_no_memory { IsFalse (has_escape (text self.now)) → IsOk result }
    {
        strip_in(alloc, self.as_text())
    }

    /// Whether the text has an ESC: a sequence, or a lone escape. Doesn't allocate. (The Rust
    /// crate.)
    ///
    /// ```
    /// assert!(rt; "\x1b[31mred".ansi_has_any());
    /// assert!(rt; !"red".ansi_has_any());
    /// ```
    final fn ansi_has_any(&self) -> bool
        ensures { result ≡ has_escape (text self.now) }
    {
        has_any(self.as_text())
    }
}

impl AnsiStr for &str {
    ghost text = { λ s. s.now };

    fn as_text(&self) -> &str {
        self
    }
}

impl AnsiStr for String {
    ghost text = { string_bytes };

    fn as_text(&self) -> &str {
        self.as_str()
    }
}

impl<A: Allocator> AnsiStr for CowStr<'_, A> {
    ghost text = { cow_str_bytes };

    fn as_text(&self) -> &str {
        self.as_str()
    }
}
