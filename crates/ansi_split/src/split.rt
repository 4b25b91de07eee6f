//! The parts of a text between the matches of a pattern.
ghost use Rattle.std.specs.Prelude.{◌≡◌, ◌↔◌, ◌⊎◌, ◌+◌, ◌≤◌, ◌<◌, ◌^◌, Some, length, map};
ghost use Rattle.std.specs.Prelude.{slice_get, IsTrue, IsFalse, IsNone, IsOk, IfOk, IfSome};
ghost use Rattle.std.specs.List.{list_all, sum_by};
ghost use Rattle.std.specs.Cow.{cow_str_bytes, IsBorrowedStr};
ghost use Rattle.ansi_items.specs.Plain.{plain, has_escape};
ghost use Rattle.ansi_split.specs.Parts.{parts, part, all_parts, source_len, is_part_borrowed};
ghost use Rattle.ansi_style.specs.Written.{longest_start_and_close};
ghost use Rattle.std.specs.Prelude.{List, string_bytes};
ghost use Rattle.ansi_split.specs.Splits.{CarriedPart, PushesPart, split_parts};

pub(crate) mod cursors;
pub(crate) mod intervals;
pub(crate) mod rest;
pub(crate) mod spans;

use crate::split::spans::PartSpans;
use std::alloc::{AllocError, Allocator, Global};
use std::borrow::CowStr;
use std::marker::Model;

/// The parts of a text between the matches of a pattern, in order: the iterator that
/// `AnsiStr::ansi_split` makes.
///
/// A part with no sequence is a borrow if no style is carried into it or it is empty. Any other
/// part is owned. `Err` means out of memory. After it, and after the last part, the iterator
/// returns `None` for good. A part lives as long as the text and the pattern, and may outlive the
/// iterator. (The Rust crate; that an item may be an `Err`, own.)
///
/// ```
/// let text = "\x1b[1mlion,tiger";
/// let mut lines = String::new(rt.alloc());
/// for part in text.ansi_split(rt.alloc(), ",") {
///     lines.push_str(part?.as_str())?;
///     lines.push('\n')?;
/// }
/// assert!(rt; lines.as_str() == "\x1b[1mlion\x1b[22m\n\x1b[1mtiger\x1b[22m\n");
/// ```
#[derive(Drop)]
pub struct AnsiSplit<'a, A: Allocator = Global> {
    pub(crate) alloc: A,
    pub(crate) spans: PartSpans<'a, 'a>,
}

impl<'a, A: Allocator> Model for AnsiSplit<'a, A> {
    ghost use Rattle.std.specs.Prelude.{List};
    ghost use Rattle.ansi_split.specs.Splits.{CarriedPart};

    ghost Value = { List CarriedPart };

    ghost view = { λ s. s.spans };
}

/// Like `AnsiStr::ansi_split`, with parts that live as long as the text and the pattern, and with
/// any allocator. (Own.)
///
/// ```
/// let first = split_in(rt.alloc(), "\x1b[1mlion,tiger", ",").next();
/// assert!(rt; matches!(&first, Some(Ok(part)) if part.as_str() == "\x1b[1mlion\x1b[22m"));
/// ```
pub fn split_in<'a, A: Allocator>(alloc: A, text: &'a str, pat: &'a str) -> AnsiSplit<'a, A>
    ensures parts { result ≡ split_parts text.now pat.now }
    ensures bytes { map (λ p. p.bytes) result ≡ all_parts text.now pat.now }
    ensures len { length result ≤ length (plain text.now) + 2 }
    ensures fits { length result < 2 ^ 64 }
    ensures within { sum_by (λ p. p.source_len) result ≤ length text.now }
    ensures takes_no_memory { IsFalse (has_escape text.now) →
        IsTrue (list_all (λ p. p.borrowed) result) }
{
    let spans = PartSpans::new(text, pat);
    AnsiSplit { alloc, spans }
}

impl<'a, A: Allocator + Copy> Iterator for AnsiSplit<'a, A> {
    ghost use Rattle.std.specs.Iterator.{item_count};
    ghost use Rattle.ansi_split.specs.Splits.{GivesPart};

    type Item = Result<CowStr<'a, A>, AllocError>;

    ghost next_gives = { GivesPart };

    ghost remaining = { item_count (λ s. s) };

    /// The next part, or `None` for good after the last part and after an `Err`.
    #[inline(always)]
    fn next(&mut self) -> Option<Result<CowStr<'a, A>, AllocError>> {
        if let Some(bare) = self.spans.next_bare() {
            return Some(Ok(CowStr::Borrowed(bare)));
        }
        let span = self.spans.next()?;
        match span.write(self.alloc) {
            Ok(part) => Some(Ok(part)),
            Err(e) => {
                self.spans.finish();
                Some(Err(e))
            }
        }
    }
}

/// Texts that are made in turn, each of which can be appended to another text. (Own.)
pub trait PushNext {
    /// The texts that are left.
    ghost left: { Self → List CarriedPart };

    /// Appends the next text to another one. A part or a line isn't made as a text of its own first.
    ///
    /// `None` means that no text is left, and nothing is appended then. `Err` means out of memory.
    /// Then no text is left. What `out` held stays, and some of the text may be appended to it, but
    /// nothing if the text is a borrow.
    ///
    /// ```
    /// let mut parts = split_in(rt.alloc(), "\x1b[1mlion,tiger", ",");
    /// let mut out = String::new(rt.alloc());
    /// assert!(rt; matches!(parts.push_next(&mut out), Some(Ok(()))));
    /// assert!(rt; out.as_str() == "\x1b[1mlion\x1b[22m");
    /// ```
    fn push_next<A: Allocator>(&mut self, out: &mut String<A>) -> Option<Result<(), AllocError>>
        ensures { PushesPart (left self.old) result (left self.new) (string_bytes out.old)
            (string_bytes out.new) };
}

#[tactic(auto, using(ansi_style::proofs::FrontLemmas::begins_itself))]
impl<'a, A: Allocator> PushNext for AnsiSplit<'a, A> {
    ghost left = { λ parts. parts };

    #[inline]
    fn push_next<B: Allocator>(&mut self, out: &mut String<B>) -> Option<Result<(), AllocError>> {
        let pushed = self.spans.next()?.push_to(out);
        if pushed.is_err() {
            self.spans.finish();
        }
        Some(pushed)
    }
}

/// The part of an index, counted from 0, among those that [`split_in`] returns. The result lives
/// as long as the text. The parts before it aren't written.
///
/// It is `None` exactly if there is no part of that index. It is a borrow if the text has no ESC,
/// or if the part is one that `split_in` borrows. A borrow and a `None` don't allocate. Otherwise
/// it is owned. `Err` means out of memory. (Own.)
///
/// ```
/// let part = part_in(rt.alloc(), "\x1b[1mlion,tiger", ",", 1);
/// assert!(rt; matches!(&part, Ok(Some(part)) if part.as_str() == "\x1b[1mtiger\x1b[22m"));
/// assert!(rt; matches!(&part_in(rt.alloc(), "lion,tiger", ",", 2), Ok(None)));
/// ```
pub fn part_in<'t, A: Allocator>(
    alloc: A,
    text: &'t str,
    pat: &str,
    index: usize,
) -> Result<Option<CowStr<'t, A>>, AllocError>
    ensures none { IfOk result (λ o.
        IsNone o ↔ IsNone (slice_get (parts (plain text.now) pat.now) index)) }
    ensures bytes { IfOk result (λ o. IfSome o (λ c.
        part text.now pat.now index ≡ Some (cow_str_bytes c))) }
    ensures borrowed { IfOk result (λ o. IfSome o (λ c. IsBorrowedStr c
        ↔ (IsFalse (has_escape text.now) ⊎ IsTrue (is_part_borrowed text.now pat.now index)))) }
    ensures len { IfOk result (λ o. IfSome o (λ c.
        length (cow_str_bytes c) ≤ source_len text.now pat.now index + longest_start_and_close)) }
    ensures within { source_len text.now pat.now index ≤ length text.now }
    ensures takes_no_memory { IsFalse (has_escape text.now)
        ⊎ IsTrue (is_part_borrowed text.now pat.now index)
        ⊎ IsNone (slice_get (parts (plain text.now) pat.now) index) → IsOk result }
{
    match PartSpans::new(text, pat).nth(index) {
        Some(span) => Ok(Some(span.write(alloc)?)),
        None => Ok(None),
    }
}
