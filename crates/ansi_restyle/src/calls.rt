//! The calls on any text.
ghost use Rattle.std.specs.Prelude.{◌≡◌, ◌≤◌, ◌+◌, ◌-◌, ◌*◌, ◌↔◌, ◌⊎◌, ◌&&◌, ◌∷◌, [], Some, filter};
ghost use Rattle.std.specs.Prelude.{ℕ, length, sum_by, IfOk, IfSome, IsFalse, IsNone, IsOk, IsTrue};
ghost use Rattle.std.specs.Cow.{cow_str_bytes, IsBorrowedStr};
ghost use Rattle.ansi_items.specs.Pieces.{pieces_of};
ghost use Rattle.ansi_items.specs.Plain.{plain, is_text, is_whole};
ghost use Rattle.ansi_safe.specs.declared.policy.Links.{Links};
ghost use Rattle.ansi_safe.specs.declared.policy.Links.TheVariants.{Keep};
ghost use Rattle.ansi_safe.specs.Links.{link_at};
ghost use Rattle.ansi_safe.specs.Safe.{is_safe};
ghost use Rattle.ansi_search.specs.Matches.{first_match_from};
ghost use Rattle.ansi_search.specs.Positions.{is_char_boundary, is_good_range};
ghost use Rattle.ansi_style.specs.Written.{written};
ghost use Rattle.ansi_restyle.specs.Links.{has_link, links, without_links, IsWithoutLinks};
ghost use Rattle.ansi_restyle.specs.Links.{is_clean_address, with_link, IsLinked};
ghost use Rattle.ansi_restyle.specs.Matches.{matches};
ghost use Rattle.ansi_restyle.specs.Ranges.{are_in_turn, are_empty, begin_outside_line_ends};
ghost use Rattle.ansi_restyle.specs.Ranges.{keep_line_ends, parts_line_end};
ghost use Rattle.ansi_restyle.specs.Removed.{removed, IsRemoved};
ghost use Rattle.ansi_restyle.specs.Replaced.{replaced, IsReplaced};
ghost use Rattle.ansi_restyle.specs.ReplacedAll.{replaced_all, IsReplacedAll};
ghost use Rattle.ansi_restyle.specs.ReplacedEach.{Swap, swaps_of, ranges_of, are_whole, are_safe, swap_nothing};
ghost use Rattle.ansi_restyle.specs.ReplacedEach.{replaced_each, IsReplacedEach};
ghost use Rattle.ansi_restyle.specs.Restyled.{is_change, restyled, IsRestyled};

use crate::links::{link_in, unlink_in};
use crate::matches::{Matches, find_from};
use crate::remove::remove_in;
use crate::replace::{insert_in, replace_in};
use crate::replace_all::replace_all_in;
use crate::replace_each::{Replacement, replace_each_in};
use crate::restyle::{mark_in, restyle_in};
use ansi_str::AnsiStr;
use std::alloc::{AllocError, Global};
use std::borrow::CowStr;

/// The matches of a pattern in a text and its links, parts of a text in another style or in a link,
/// and a text without a part, with another text in its place, or without its links.
///
/// Implemented for every type that implements [`AnsiStr`]. The results depend on the text alone,
/// not on its type.
///
/// ```
/// let marked = "one \x1b[32mtwo\x1b[39m".ansi_mark(rt.alloc(), "two", "1");
/// assert!(rt; matches!(&marked, Ok(Some(marked)) if marked.as_str() == "one \x1b[32m\x1b[1mtwo\x1b[22m\x1b[39m\x1b[32m\x1b[39m"));
/// ```
pub trait AnsiRestyle: AnsiStr {
    /// The matches of a pattern, in order: an iterator over pairs of positions, where each match
    /// begins and ends. (std's `match_indices`, on the plain text.)
    ///
    /// A match may run across sequences. Matches don't overlap. An empty pattern matches at each
    /// character boundary, a pattern with an ESC nowhere. Positions count bytes of the plain text.
    /// They are good positions, in order, so that `ansi_restyle` takes the pairs as ranges. Takes
    /// time in proportion to the text and the pattern. Doesn't allocate.
    ///
    /// ```
    /// let mut matches = "a\x1b[1mba\x1b[0mb".ansi_matches("ab");
    /// assert!(rt; matches.next() == Some((0, 2)) && matches.next() == Some((2, 4)));
    /// assert!(rt; matches.next().is_none());
    /// ```
    final fn ansi_matches<'t, 'p>(&'t self, pat: &'p str) -> Matches<'t, 'p>
        ensures matches { result ≡ matches (plain (Self.text self.now)) pat.now }
        ensures in_turn { IsTrue (are_in_turn (plain (Self.text self.now)) 0 result) }
        ensures len { length result ≤ length (plain (Self.text self.now)) + 1 }
    {
        Matches::new(self.as_text(), pat)
    }

    /// The first match of a pattern that doesn't begin before a position, as `ansi_find` returns
    /// it, or `None` if there is none.
    ///
    /// The position and the result count bytes of the plain text. The position may be inside a
    /// character, or past the end. The match is a good range, so it can be cut. Doesn't allocate.
    /// (std's `find`, on the rest of the plain text.)
    ///
    /// ```
    /// assert!(rt; "ab\x1b[1mab".ansi_find_from(1, "ab") == Some(2));
    /// assert!(rt; "ab\x1b[1mab".ansi_find_from(3, "ab").is_none());
    /// ```
    final fn ansi_find_from(&self, position: usize, pat: &str) -> Option<usize>
        ensures first { result ≡ first_match_from (plain (Self.text self.now)) pat.now position }
        ensures good { IfSome result (λ i. IsTrue
            (is_good_range (plain (Self.text self.now)) i (Some (i + length pat.now)))) }
    {
        find_from(self.as_text(), position, pat)
    }

    /// The text with SGR codes applied to each character in the ranges.
    ///
    /// The codes are the parameter bytes of an SGR: digits, `:` and `;` between the codes, such as
    /// `1;31`. In a range, each character has its own style after these codes. So `1` makes it bold
    /// and keeps its color, `22` makes it neither bold nor faint, and `0` makes it plain.
    ///
    /// On a whole text (`ansi_is_whole`) all other characters keep their styles, except for what an
    /// unknown code, such as `4:3` or `38:2::1:2:3`, has set: that ends after the next run of text in
    /// a range. The plain text, links and every other sequence stay.
    ///
    /// A range is a pair of positions, which count bytes of the plain text. The ranges have to be in
    /// order and mustn't overlap. It is `None` exactly if a range isn't between two character
    /// boundaries, or begins before the one before it ends, or if the codes have another byte.
    /// `refused_range` says which range.
    ///
    /// If the text is safe (`ansi_is_safe`), so is the result, unless a range begins or ends between a
    /// carriage return and a line feed.
    ///
    /// It is a borrow if each range is empty. A borrow and a `None` don't allocate. Otherwise it is
    /// owned. For each run of text that a range changes, it is longer by at most 254 bytes and the
    /// length of the codes. `Err` means out of memory. Takes time in proportion to the text and the
    /// ranges. (Own.)
    ///
    /// ```
    /// let marked = "red \x1b[31mred".ansi_restyle(rt.alloc(), &[(0, 2), (5, 6)], "4");
    /// assert!(rt; matches!(&marked, Ok(Some(marked)) if marked.as_str() == "\x1b[4mre\x1b[24md \x1b[31mr\x1b[4me\x1b[24m\x1b[39m\x1b[31md"));
    /// ```
    final fn ansi_restyle(
        &self,
        alloc: Global,
        ranges: &[(usize, usize)],
        codes: &str,
    ) -> Result<Option<CowStr<'_>>, AllocError>
        ensures headline { IsTrue (is_whole (Self.text self.now)) → IfOk result (λ o.
            IfSome o (λ c. IsRestyled (Self.text self.now) (written codes.now) ranges.now
            (cow_str_bytes c))) }
        ensures none { IfOk result (λ o. IsNone o ↔ IsFalse
            (is_change codes.now && are_in_turn (plain (Self.text self.now)) 0 ranges.now)) }
        ensures bytes { IfOk result (λ o. IfSome o (λ c.
            cow_str_bytes c ≡ restyled (Self.text self.now) (written codes.now) ranges.now)) }
        ensures safe { (links : Links) → IsTrue (is_safe links (Self.text self.now)) →
            IsTrue (keep_line_ends (plain (Self.text self.now)) ranges.now) → IfOk result (λ o.
            IfSome o (λ c. IsTrue (is_safe links (cow_str_bytes c)))) }
        ensures borrowed { IfOk result (λ o. IfSome o (λ c.
            IsBorrowedStr c ↔ IsTrue (are_empty ranges.now))) }
        ensures len { IfOk result (λ o. IfSome o (λ c. length (cow_str_bytes c)
            ≤ length (Self.text self.now) + (length codes.now + 254)
            * (length ranges.now + length (filter is_text (pieces_of (Self.text self.now))) - 1))) }
        ensures takes_no_memory { IsTrue (are_empty ranges.now) ⊎ IsFalse
            (is_change codes.now && are_in_turn (plain (Self.text self.now)) 0 ranges.now) →
            IsOk result }
    {
        restyle_in(alloc, self.as_text(), ranges, codes)
    }

    /// The text with SGR codes applied to each match of a pattern, as `ansi_restyle` does it.
    ///
    /// It is `None` exactly if the codes have a byte other than a digit, `:` and `;`. It is a borrow
    /// if nothing matches, or the pattern is empty. A borrow and a `None` don't allocate. `Err` means
    /// out of memory. (Own.)
    ///
    /// ```
    /// let marked = "to do: \x1b[1mdo".ansi_mark(rt.alloc(), "do", "7");
    /// assert!(rt; matches!(&marked, Ok(Some(marked)) if marked.as_str() == "to \x1b[7mdo\x1b[27m: \x1b[1m\x1b[7mdo\x1b[22m\x1b[27m\x1b[1m"));
    /// ```
    final fn ansi_mark(
        &self,
        alloc: Global,
        pat: &str,
        codes: &str,
    ) -> Result<Option<CowStr<'_>>, AllocError>
        ensures headline { IsTrue (is_whole (Self.text self.now)) → IfOk result (λ o.
            IfSome o (λ c. IsRestyled (Self.text self.now) (written codes.now)
            (matches (plain (Self.text self.now)) pat.now) (cow_str_bytes c))) }
        ensures none { IfOk result (λ o. IsNone o ↔ IsFalse (is_change codes.now)) }
        ensures bytes { IfOk result (λ o. IfSome o (λ c.
            cow_str_bytes c ≡ restyled (Self.text self.now) (written codes.now)
            (matches (plain (Self.text self.now)) pat.now))) }
        ensures safe { (links : Links) → IsTrue (is_safe links (Self.text self.now)) →
            IsTrue (keep_line_ends (plain (Self.text self.now))
            (matches (plain (Self.text self.now)) pat.now)) → IfOk result (λ o. IfSome o (λ c.
            IsTrue (is_safe links (cow_str_bytes c)))) }
        ensures borrowed { IfOk result (λ o. IfSome o (λ c. IsBorrowedStr c
            ↔ IsTrue (are_empty (matches (plain (Self.text self.now)) pat.now)))) }
        ensures len { IfOk result (λ o. IfSome o (λ c. length (cow_str_bytes c)
            ≤ length (Self.text self.now) + (length codes.now + 254)
            * (length (matches (plain (Self.text self.now)) pat.now)
            + length (filter is_text (pieces_of (Self.text self.now))) - 1))) }
        ensures takes_no_memory { IsTrue (are_empty (matches (plain (Self.text self.now)) pat.now))
            ⊎ IsFalse (is_change codes.now) → IsOk result }
    {
        mark_in(alloc, self.as_text(), pat, codes)
    }

    /// The text without a range of its plain text.
    ///
    /// Every sequence stays, so on a whole text (`ansi_is_whole`) each character before the range or
    /// after it keeps its style and its link.
    ///
    /// A range is a pair of positions, which count bytes of the plain text. It is `None` exactly if
    /// `ansi_restyle` would refuse the range: if it ends before it begins, or a position of it is
    /// past the end of the plain text or inside a character.
    ///
    /// If the text is safe (`ansi_is_safe`), so is the result, unless the range begins between a
    /// carriage return and a line feed.
    ///
    /// It is a borrow if the range ends where it begins. A borrow and a `None` don't allocate.
    /// Otherwise it is owned, and no longer than the text. `Err` means out of memory. Takes time in
    /// proportion to the text. (Own.)
    ///
    /// ```
    /// let shorter = "one \x1b[1mtwo\x1b[22m three".ansi_remove(rt.alloc(), (2, 5));
    /// assert!(rt; matches!(&shorter, Ok(Some(shorter)) if shorter.as_str() == "on\x1b[1mwo\x1b[22m three"));
    /// assert!(rt; matches!("one".ansi_remove(rt.alloc(), (2, 5)), Ok(None)));
    /// ```
    final fn ansi_remove(
        &self,
        alloc: Global,
        range: (usize, usize),
    ) -> Result<Option<CowStr<'_>>, AllocError>
        ensures headline { IsTrue (is_whole (Self.text self.now)) → IfOk result (λ o. IfSome o (λ c.
            IsRemoved (Self.text self.now) range.0 range.1 (cow_str_bytes c))) }
        ensures none { IfOk result (λ o. IsNone o
            ↔ IsFalse (are_in_turn (plain (Self.text self.now)) 0 (range ∷ []))) }
        ensures bytes { IfOk result (λ o. IfSome o (λ c.
            cow_str_bytes c ≡ removed (Self.text self.now) range.0 range.1)) }
        ensures safe { (links : Links) → IsTrue (is_safe links (Self.text self.now)) →
            IsFalse (parts_line_end (plain (Self.text self.now)) range.0) → IfOk result (λ o.
            IfSome o (λ c. IsTrue (is_safe links (cow_str_bytes c)))) }
        ensures borrowed { IfOk result (λ o. IfSome o (λ c.
            IsBorrowedStr c ↔ (range.0 ≡ range.1))) }
        ensures len { IfOk result (λ o. IfSome o (λ c.
            length (cow_str_bytes c) ≤ length (Self.text self.now))) }
        ensures takes_no_memory { (range.0 ≡ range.1)
            ⊎ IsFalse (are_in_turn (plain (Self.text self.now)) 0 (range ∷ [])) → IsOk result }
    {
        remove_in(alloc, self.as_text(), range)
    }

    /// The text with another text in place of a range of its plain text.
    ///
    /// The new text is in the style and the link of the character before the range; at the front, of
    /// the first character. Its own sequences come on top of that. Where it ends, the style and the
    /// link that it opened end. Every sequence of the text stays; those in the range come right after
    /// the new text.
    ///
    /// If both texts are whole (`ansi_is_whole`), each character before the range or after it keeps its
    /// style and its link, except that what an unknown code, such as `4:3`, has set ends with a new
    /// text that has an ESC.
    ///
    /// A range is a pair of positions, which count bytes of the plain text. It is `None` exactly if
    /// `ansi_restyle` would refuse the range: if it ends before it begins, or a position of it is
    /// past the end of the plain text or inside a character.
    ///
    /// If both texts are safe (`ansi_is_safe`), so is the result, unless the range begins between a
    /// carriage return and a line feed.
    ///
    /// It is a borrow if the range ends where it begins and the new text is empty. A borrow and a
    /// `None` don't allocate. Otherwise it is owned, and longer than both texts by at most 258 bytes
    /// and the sequence that opened the link there. `Err` means out of memory. Takes time in
    /// proportion to both texts. (Own.)
    ///
    /// ```
    /// let replaced = "\x1b[32mgreen\x1b[39m".ansi_replace(rt.alloc(), (1, 3), "\x1b[1mAB");
    /// assert!(rt; matches!(&replaced, Ok(Some(replaced)) if replaced.as_str() == "\x1b[32mg\x1b[1mAB\x1b[22m\x1b[39m\x1b[32men\x1b[39m"));
    /// assert!(rt; matches!("one".ansi_replace(rt.alloc(), (2, 5), "1"), Ok(None)));
    /// ```
    final fn ansi_replace(
        &self,
        alloc: Global,
        range: (usize, usize),
        with: &str,
    ) -> Result<Option<CowStr<'_>>, AllocError>
        ensures headline { IsTrue (is_whole (Self.text self.now) && is_whole with.now) →
            IfOk result (λ o. IfSome o (λ c.
            IsReplaced (Self.text self.now) range.0 range.1 with.now (cow_str_bytes c))) }
        ensures none { IfOk result (λ o. IsNone o
            ↔ IsFalse (are_in_turn (plain (Self.text self.now)) 0 (range ∷ []))) }
        ensures bytes { IfOk result (λ o. IfSome o (λ c.
            cow_str_bytes c ≡ replaced (Self.text self.now) range.0 range.1 with.now)) }
        ensures safe { (links : Links) →
            IsTrue (is_safe links (Self.text self.now) && is_safe links with.now) →
            IsFalse (parts_line_end (plain (Self.text self.now)) range.0) → IfOk result (λ o.
            IfSome o (λ c. IsTrue (is_safe links (cow_str_bytes c)))) }
        ensures borrowed { IfOk result (λ o. IfSome o (λ c.
            IsBorrowedStr c ↔ ((range.0 ≡ range.1) × (with.now ≡ [])))) }
        ensures len { IfOk result (λ o. IfSome o (λ c.
            length (cow_str_bytes c) ≤ length (Self.text self.now) + length with.now
            + length (link_at (Self.text self.now) (range.0 - 1)) + 258)) }
        ensures takes_no_memory { ((range.0 ≡ range.1) × (with.now ≡ []))
            ⊎ IsFalse (are_in_turn (plain (Self.text self.now)) 0 (range ∷ [])) → IsOk result }
    {
        replace_in(alloc, self.as_text(), range, with)
    }

    /// The text with another text put in at a position, as `ansi_replace` does it with an empty
    /// range there.
    ///
    /// The position counts bytes of the plain text. It is `None` exactly if the position is past the
    /// end of the plain text or inside a character.
    ///
    /// If both texts are safe (`ansi_is_safe`), so is the result, unless the position is between a
    /// carriage return and a line feed.
    ///
    /// It is a borrow if the new text is empty. A borrow and a `None` don't allocate. `Err` means out
    /// of memory. (Own.)
    ///
    /// ```
    /// let longer = "\x1b[32mgreen\x1b[39m.".ansi_insert(rt.alloc(), 5, "ish");
    /// assert!(rt; matches!(&longer, Ok(Some(longer)) if longer.as_str() == "\x1b[32mgreenish\x1b[39m."));
    /// assert!(rt; matches!("one".ansi_insert(rt.alloc(), 4, "s"), Ok(None)));
    /// ```
    final fn ansi_insert(
        &self,
        alloc: Global,
        position: usize,
        with: &str,
    ) -> Result<Option<CowStr<'_>>, AllocError>
        ensures headline { IsTrue (is_whole (Self.text self.now) && is_whole with.now) →
            IfOk result (λ o. IfSome o (λ c.
            IsReplaced (Self.text self.now) position position with.now (cow_str_bytes c))) }
        ensures none { IfOk result (λ o. IsNone o
            ↔ IsFalse (is_char_boundary (plain (Self.text self.now)) position)) }
        ensures bytes { IfOk result (λ o. IfSome o (λ c.
            cow_str_bytes c ≡ replaced (Self.text self.now) position position with.now)) }
        ensures safe { (links : Links) →
            IsTrue (is_safe links (Self.text self.now) && is_safe links with.now) →
            IsFalse (parts_line_end (plain (Self.text self.now)) position) → IfOk result (λ o.
            IfSome o (λ c. IsTrue (is_safe links (cow_str_bytes c)))) }
        ensures borrowed { IfOk result (λ o. IfSome o (λ c.
            IsBorrowedStr c ↔ (with.now ≡ []))) }
        ensures len { IfOk result (λ o. IfSome o (λ c.
            length (cow_str_bytes c) ≤ length (Self.text self.now) + length with.now
            + length (link_at (Self.text self.now) (position - 1)) + 258)) }
        ensures takes_no_memory { (with.now ≡ [])
            ⊎ IsFalse (is_char_boundary (plain (Self.text self.now)) position) → IsOk result }
    {
        insert_in(alloc, self.as_text(), position, with)
    }

    /// The text with another text in place of each match of a pattern (std's `replace`, on the plain
    /// text).
    ///
    /// The matches are those of `ansi_matches`. Each is replaced as `ansi_replace` does it: the new
    /// text is in the style and the link that the character before the match has in this text; at the
    /// front, of the first character. Its own sequences come on top of that, and what it opens ends
    /// where it ends. Every other character keeps its style and its link as there.
    ///
    /// If both texts are safe (`ansi_is_safe`), so is the result, unless a match begins between a
    /// carriage return and a line feed. None does if the pattern begins with another character than a
    /// line feed (`laws::matches_begin_outside_line_ends`).
    ///
    /// It is a borrow if nothing matches. A borrow doesn't allocate. Otherwise it is owned. For each
    /// match, it is longer by at most the new text, 258 bytes and the sequence that opened the link
    /// there. `Err` means out of memory. Takes time in proportion to the text, the pattern and the
    /// result. (Own.)
    ///
    /// ```
    /// let replaced = "\x1b[32mone\x1b[39m, one".ansi_replace_all(rt.alloc(), "one", "two");
    /// assert!(rt; matches!(&replaced, Ok(replaced) if replaced.as_str() == "\x1b[32mtwo\x1b[39m, two"));
    /// ```
    final fn ansi_replace_all(
        &self,
        alloc: Global,
        pat: &str,
        with: &str,
    ) -> Result<CowStr<'_>, AllocError>
        ensures headline { IsTrue (is_whole (Self.text self.now) && is_whole with.now) →
            IfOk result (λ c. IsReplacedAll (Self.text self.now)
            (matches (plain (Self.text self.now)) pat.now) with.now (cow_str_bytes c)) }
        ensures bytes { IfOk result (λ c.
            cow_str_bytes c ≡ replaced_all (Self.text self.now) pat.now with.now) }
        ensures safe { (links : Links) →
            IsTrue (is_safe links (Self.text self.now) && is_safe links with.now) →
            IsTrue (begin_outside_line_ends (plain (Self.text self.now))
            (matches (plain (Self.text self.now)) pat.now)) →
            IfOk result (λ c. IsTrue (is_safe links (cow_str_bytes c))) }
        ensures borrowed { IfOk result (λ c.
            IsBorrowedStr c ↔ (matches (plain (Self.text self.now)) pat.now ≡ [])) }
        ensures len { IfOk result (λ c. length (cow_str_bytes c)
            ≤ length (Self.text self.now) + sum_by (λ (r : ℕ × ℕ). length with.now
            + length (link_at (Self.text self.now) (r.0 - 1)) + 258)
            (matches (plain (Self.text self.now)) pat.now)) }
        ensures takes_no_memory { matches (plain (Self.text self.now)) pat.now ≡ [] →
            IsOk result }
    {
        replace_all_in(alloc, self.as_text(), pat, with)
    }

    /// The text with a text of its own in place of each of many ranges.
    ///
    /// Each range is replaced as `ansi_replace` does it: its new text is in the style and the link that
    /// the character before the range has in this text; at the front, of the first character. Its own
    /// sequences come on top of that, and what it opens ends where it ends. Every other character
    /// keeps its style and its link as there.
    ///
    /// A range is a pair of positions, which count bytes of the plain text of this text. The ranges
    /// have to be in order and mustn't overlap. It is `None` exactly if `ansi_restyle` would refuse
    /// them. `refused_range` says which. Texts at the same position come in the order of their ranges.
    ///
    /// If all texts are safe (`ansi_is_safe`), so is the result, unless a range begins between a
    /// carriage return and a line feed.
    ///
    /// It is a borrow if each range is empty, and so is the text in its place. A borrow and a `None`
    /// don't allocate. Otherwise it is owned. For each range, it is longer by at most the new text,
    /// 258 bytes and the sequence that opened the link there. `Err` means out of memory. Takes time in
    /// proportion to the text, the ranges and the result. (Own.)
    ///
    /// ```
    /// let edits = [
    ///     Replacement {
    ///         range: (0, 3),
    ///         with: "1",
    ///     },
    ///     Replacement {
    ///         range: (4, 7),
    ///         with: "2",
    ///     },
    /// ];
    /// let replaced = "\x1b[32mone\x1b[39m two".ansi_replace_each(rt.alloc(), &edits);
    /// assert!(rt; matches!(&replaced, Ok(Some(replaced)) if replaced.as_str() == "\x1b[32m1\x1b[39m 2"));
    /// ```
    final fn ansi_replace_each(
        &self,
        alloc: Global,
        edits: &[Replacement<'_>],
    ) -> Result<Option<CowStr<'_>>, AllocError>
        ensures headline { IsTrue (is_whole (Self.text self.now) && are_whole (swaps_of edits.now)) →
            IfOk result (λ o. IfSome o (λ c.
            IsReplacedEach (Self.text self.now) (swaps_of edits.now) (cow_str_bytes c))) }
        ensures none { IfOk result (λ o. IsNone o ↔ IsFalse
            (are_in_turn (plain (Self.text self.now)) 0 (ranges_of (swaps_of edits.now)))) }
        ensures bytes { IfOk result (λ o. IfSome o (λ c.
            cow_str_bytes c ≡ replaced_each (Self.text self.now) (swaps_of edits.now))) }
        ensures safe { (links : Links) →
            IsTrue (is_safe links (Self.text self.now) && are_safe links (swaps_of edits.now)) →
            IsTrue (begin_outside_line_ends (plain (Self.text self.now))
            (ranges_of (swaps_of edits.now))) → IfOk result (λ o. IfSome o (λ c.
            IsTrue (is_safe links (cow_str_bytes c)))) }
        ensures borrowed { IfOk result (λ o. IfSome o (λ c.
            IsBorrowedStr c ↔ IsTrue (swap_nothing (swaps_of edits.now)))) }
        ensures len { IfOk result (λ o. IfSome o (λ c. length (cow_str_bytes c)
            ≤ length (Self.text self.now) + sum_by (λ (e : Swap). length e.text
            + length (link_at (Self.text self.now) (e.range.0 - 1)) + 258) (swaps_of edits.now))) }
        ensures takes_no_memory { IsTrue (swap_nothing (swaps_of edits.now)) ⊎ IsFalse
            (are_in_turn (plain (Self.text self.now)) 0 (ranges_of (swaps_of edits.now))) →
            IsOk result }
    {
        replace_each_in(alloc, self.as_text(), edits)
    }

    /// The links of the text, in order: an iterator over the range and the address of each.
    ///
    /// A link sequence (OSC 8) with an address opens a link, which goes on up to the next link
    /// sequence or the end of the text. A link without text is left out. The range counts bytes of
    /// the plain text. Takes time in proportion to the text. Doesn't allocate. (Own.)
    ///
    /// ```
    /// let mut links = "a \x1b]8;;http://x\x1b\\l\x1b[1mink\x1b]8;;\x1b\\".ansi_links();
    /// assert!(rt; matches!(links.next(), Some(link) if link.range == (2, 6) && link.address == "http://x"));
    /// assert!(rt; links.next().is_none());
    /// ```
    final fn ansi_links(&self) -> crate::links::Links<'_>
        ensures { result ≡ links (Self.text self.now) }
    {
        crate::links::Links::new(self.as_text())
    }

    /// The text with a range linked to an address.
    ///
    /// Each character in the range gets the link, and loses another one that it had. All other
    /// characters keep their links: one that goes on into the range ends before it, and one that goes
    /// on after it is opened again there. The plain text, the styles and all other sequences stay.
    /// The link is an OSC 8 sequence without parameters.
    ///
    /// A range is a pair of positions, which count bytes of the plain text. It is `None` exactly if
    /// `ansi_restyle` would refuse the range, or if the address is empty, has more than 2,083 bytes, or
    /// has a byte that isn't printable ASCII (20 to 7E). So write other characters of an address as `%`
    /// and two digits.
    ///
    /// If the text is safe (`ansi_is_safe`), the result is safe with `Links::Keep`, unless the range
    /// begins or ends between a carriage return and a line feed.
    ///
    /// It is a borrow if the range ends where it begins. A borrow and a `None` don't allocate.
    /// Otherwise it is owned, and longer than the text by at most 21 bytes, the address, and the
    /// sequence of the link that is open where the range ends. `Err` means out of memory. Takes time
    /// in proportion to the text and the address. (OSC 8; own.)
    ///
    /// ```
    /// let linked = "see \x1b[1mhere".ansi_link(rt.alloc(), (4, 8), "http://x");
    /// assert!(rt; matches!(&linked, Ok(Some(linked)) if linked.as_str() == "see \x1b[1m\x1b]8;;http://x\x1b\\here\x1b]8;;\x1b\\"));
    /// assert!(rt; matches!("here".ansi_link(rt.alloc(), (0, 4), "a\nb"), Ok(None)));
    /// ```
    final fn ansi_link(
        &self,
        alloc: Global,
        range: (usize, usize),
        address: &str,
    ) -> Result<Option<CowStr<'_>>, AllocError>
        ensures headline { IsTrue (is_whole (Self.text self.now)) → IfOk result (λ o. IfSome o (λ c.
            IsLinked (Self.text self.now) range address.now (cow_str_bytes c))) }
        ensures none { IfOk result (λ o. IsNone o ↔ IsFalse (is_clean_address address.now
            && are_in_turn (plain (Self.text self.now)) 0 (range ∷ []))) }
        ensures bytes { IfOk result (λ o. IfSome o (λ c.
            cow_str_bytes c ≡ with_link (Self.text self.now) range address.now)) }
        ensures safe { (links : Links) → IsTrue (is_safe links (Self.text self.now)) →
            IsTrue (keep_line_ends (plain (Self.text self.now)) (range ∷ [])) →
            IfOk result (λ o. IfSome o (λ c. IsTrue (is_safe Keep (cow_str_bytes c)))) }
        ensures borrowed { IfOk result (λ o. IfSome o (λ c.
            IsBorrowedStr c ↔ (range.0 ≡ range.1))) }
        ensures len { IfOk result (λ o. IfSome o (λ c. length (cow_str_bytes c)
            ≤ length (Self.text self.now) + length address.now
            + length (link_at (Self.text self.now) range.1) + 21)) }
        ensures takes_no_memory { (range.0 ≡ range.1) ⊎ IsFalse (is_clean_address address.now
            && are_in_turn (plain (Self.text self.now)) 0 (range ∷ [])) → IsOk result }
    {
        link_in(alloc, self.as_text(), range, address)
    }

    /// The text without its links.
    ///
    /// Its link sequences (OSC 8), which open or close a link, are left out. In a whole text
    /// (`ansi_is_whole`) everything else stays as it is: the plain text, each character's style, and
    /// every other sequence at its place.
    ///
    /// If the text is safe (`ansi_is_safe`), so is the result, also with `Links::Remove`.
    ///
    /// It is a borrow if the text has no link sequence. A borrow doesn't allocate. Otherwise it is
    /// owned, and shorter than the text. `Err` means out of memory. Takes time in proportion to the
    /// text. (Own.)
    ///
    /// ```
    /// let bare = "\x1b]8;;http://x\x1b\\a \x1b[1mlink\x1b[0m\x1b]8;;\x1b\\".ansi_unlink(rt.alloc());
    /// assert!(rt; matches!(&bare, Ok(bare) if bare.as_str() == "a \x1b[1mlink\x1b[0m"));
    /// ```
    final fn ansi_unlink(&self, alloc: Global) -> Result<CowStr<'_>, AllocError>
        ensures headline { IsTrue (is_whole (Self.text self.now)) → IfOk result (λ c.
            IsWithoutLinks (Self.text self.now) (cow_str_bytes c)) }
        ensures bytes { IfOk result (λ c. cow_str_bytes c ≡ without_links (Self.text self.now)) }
        ensures safe { (links other : Links) → IsTrue (is_safe links (Self.text self.now)) →
            IfOk result (λ c. IsTrue (is_safe other (cow_str_bytes c))) }
        ensures borrowed { IfOk result (λ c.
            IsBorrowedStr c ↔ IsFalse (has_link (Self.text self.now))) }
        ensures len { IfOk result (λ c.
            length (cow_str_bytes c) ≤ length (Self.text self.now)) }
        ensures takes_no_memory { IsFalse (has_link (Self.text self.now)) → IsOk result }
    {
        unlink_in(alloc, self.as_text())
    }
}

impl<T: AnsiStr> AnsiRestyle for T {}
