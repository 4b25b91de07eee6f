//! The stretches of a text that its parts are written from.
ghost use Rattle.std.specs.Prelude.{◌≡◌, ◌≤◌, ◌+◌, ◌++◌, [], length, IsTrue, IsFalse, IsOk, IfOk};
ghost use Rattle.std.specs.Prelude.{OnOk, OnErr, IfSome, string_bytes};
ghost use Rattle.std.specs.Option.{MatchOption};
ghost use Rattle.ansi_items.specs.Plain.{plain, marks, has_escape};
ghost use Rattle.ansi_slice.specs.Cut.{interleaved};
ghost use Rattle.ansi_search.specs.Positions.{is_char_boundary};
ghost use Rattle.ansi_style.specs.Rendition.{plain_style};
ghost use Rattle.ansi_style.specs.Writing.{KeepsText};
ghost use Rattle.ansi_style.specs.Written.{longest_start_and_close};
ghost use Rattle.ansi_split.specs.Splits.{IsCarriedPart};
ghost use Rattle.ansi_split.specs.Spans.{parts_left, IsBareFirst, IsStretch};
ghost use Rattle.ansi_split.specs.Walks.{renditions_around};

use crate::split::cursors::Cursor;
use crate::walks::{Around, PartStretch, PartWalk};
use ansi_items::ESC;
use ansi_items::ansitok::{Kind, Scanner};
use ansi_style::numbers::StyleNumbers;
use ansi_style::state::Style;
use ansi_style::styles;
use memchr::memchr;
use std::alloc::{AllocError, Allocator};
use std::borrow::CowStr;
use std::marker::Model;

/// What one part is written from. Contracts see it as that part.
#[derive(Drop)]
pub(crate) struct PartSpan<'t> {
    /// The text from the match before up to after the last sequence at the end of the part.
    text: &'t str,
    /// Whether it has an ESC.
    is_marked: bool,
    /// How many plain bytes of it are in no part: those of the match before.
    skip: usize,
    /// The style that the parts before leave open.
    carried: Style,
    /// The style after the text.
    after: Style,
}

impl<'t> Model for PartSpan<'t> {
    ghost use Rattle.ansi_style.specs.States.{rendition_of};
    ghost use Rattle.ansi_split.specs.Splits.{CarriedPart};
    ghost use Rattle.ansi_split.specs.Spans.{span_part, AreSpanFacts};

    ghost Value = { CarriedPart };

    ghost view = { λ s. span_part (rendition_of s.carried) s.text.now s.skip };

    ghost invariant = { λ s. AreSpanFacts (rendition_of s.carried) s.text.now s.skip s.is_marked
        (rendition_of s.after) };
}

impl<'t> PartSpan<'t> {
    ghost use Rattle.ansi_style.specs.States.{rendition_of};
    ghost use Rattle.ansi_split.specs.Spans.{span_part};

    /// The span that is a text without ESC.
    #[inline(always)]
    pub(crate) fn of_run(text: &'t str, carried: Style) -> Self
        requires { IsFalse (has_escape text.now) }
        ensures { result ≡ span_part (rendition_of carried) text.now 0 }
    {
        PartSpan {
            text,
            is_marked: false,
            skip: 0,
            carried,
            after: carried,
        }
    }

    /// The part: a borrow if it has no sequence and no style has to be written.
    pub(crate) fn write<A: Allocator>(&self, alloc: A) -> Result<CowStr<'t, A>, AllocError>
        ensures part { IfOk result (IsCarriedPart longest_start_and_close self.now) }
        ensures takes_no_memory { IsTrue self.now.borrowed → IsOk result }
    {
        match self.bare() {
            Some(bare) => Ok(CowStr::Borrowed(bare)),
            None => Ok(CowStr::Owned(self.written(alloc)?)),
        }
    }

    /// The part as a slice of the text, if it has no sequence, and it is empty or no style is
    /// carried.
    fn bare(&self) -> Option<&'t str>
        ensures part { MatchOption result (IsFalse self.now.borrowed) (λ bare.
            (bare.now ≡ self.now.bytes) × IsTrue self.now.borrowed) }
        ensures len { length self.now.bytes ≤ self.now.source_len + longest_start_and_close }
    {
        if self.is_marked {
            return None;
        }
        let bare = &self.text[self.skip..];
        if bare.is_empty() || !styles::has_any(&self.carried) {
            return Some(bare);
        }
        None
    }

    /// The part, if it is written from one stretch of the text. `None` means that a sequence is among
    /// the bytes that are left out.
    pub(crate) fn stretch(&self) -> Option<PartStretch<'t>>
        ensures { IfSome result (λ s. IsStretch self.now (renditions_around s.around) s.text.now) }
    {
        if let Some(text) = self.bare() {
            return Some(PartStretch { text, around: None });
        }
        let text = past_plain(self.text, self.is_marked, self.skip)?;
        let around = Around {
            before: self.carried,
            after: self.after,
        };
        Some(PartStretch {
            text,
            around: Some(around),
        })
    }

    /// Appends the part. `Err` means out of memory; what was appended before it stays.
    #[tactic(auto, using(ansi_style::proofs::FrontLemmas::keeps))]
    pub(crate) fn push_to<A: Allocator>(&self, out: &mut String<A>) -> Result<(), AllocError>
        ensures bytes { OnOk result
            (string_bytes out.new ≡ string_bytes out.old ++ self.now.bytes) }
        ensures kept { KeepsText (string_bytes out.old) (string_bytes out.new) }
        ensures unchanged { OnErr result
            (IsTrue self.now.borrowed → string_bytes out.new ≡ string_bytes out.old) }
    {
        match self.bare() {
            Some(bare) => out.push_str(bare),
            None => self.push_styled(out),
        }
    }

    /// The part, written. It is called by reference, so that a part that is borrowed copies no
    /// style.
    #[inline(never)]
    fn written<A: Allocator>(&self, alloc: A) -> Result<String<A>, AllocError>
        requires { IsFalse self.now.borrowed }
        ensures { IfOk result (λ s. string_bytes s ≡ self.now.bytes) }
    {
        let len = self.text.len().saturating_sub(self.skip);
        let mut part = styles::with_room(alloc, &self.carried, len, &self.after)?;
        self.push_styled(&mut part)?;
        Ok(part)
    }

    /// Appends a part that isn't a borrow: the start of the style that is carried, the text with
    /// its sequences, and the close of the style then, if that has anything to end. `Err` means out
    /// of memory; what was appended before it stays.
    #[tactic(auto, using(ansi_style::proofs::FrontLemmas::keeps))]
    fn push_styled<A: Allocator>(&self, out: &mut String<A>) -> Result<(), AllocError>
        requires { IsFalse self.now.borrowed }
        ensures bytes { OnOk result
            (string_bytes out.new ≡ string_bytes out.old ++ self.now.bytes) }
        ensures kept { KeepsText (string_bytes out.old) (string_bytes out.new) }
    {
        styles::write_start(&self.carried, out)?;
        write_text(self.text, self.is_marked, self.skip, out)?;
        if styles::has_any(&self.after) {
            styles::write_close(&self.after, out)?;
        }
        Ok(())
    }
}

/// A text with its sequences, but without its first `skip` plain bytes, if that is a stretch of it.
/// `None` means that a sequence is among the bytes that are left out.
fn past_plain(text: &str, is_marked: bool, skip: usize) -> Option<&str>
    requires marked { is_marked ≡ has_escape text.now }
    requires boundary { IsTrue (is_char_boundary (plain text.now) skip) }
    ensures { IfSome result (λ rest. rest.now
        ≡ interleaved (plain text.now) skip (length (plain text.now)) (marks text.now)) }
{
    if is_marked && has_escape(&text.as_bytes()[..skip]) {
        return None;
    }
    Some(&text[skip..])
}

/// Whether some bytes have an ESC. Most patterns have one byte, which is looked at by itself.
#[inline(always)]
fn has_escape(bytes: &[u8]) -> bool
    ensures { IsFalse result → IsFalse (has_escape bytes.now) }
{
    match bytes {
        [] => false,
        [byte] => *byte == ESC,
        _ => memchr(ESC, bytes).is_some(),
    }
}

/// Appends a text with its sequences, but without its first `skip` plain bytes. `Err` means out of
/// memory; what was appended before it stays.
#[tactic(auto, using(ansi_style::proofs::FrontLemmas::keeps))]
fn write_text<A: Allocator>(
    text: &str,
    is_marked: bool,
    mut skip: usize,
    part: &mut String<A>,
) -> Result<(), AllocError>
    requires marked { is_marked ≡ has_escape text.now }
    requires boundary { IsTrue (is_char_boundary (plain text.now) skip) }
    ensures bytes { OnOk result (string_bytes part.new ≡ string_bytes part.old
        ++ interleaved (plain text.now) skip (length (plain text.now)) (marks text.now)) }
    ensures kept { KeepsText (string_bytes part.old) (string_bytes part.new) }
{
    if let Some(rest) = past_plain(text, is_marked, skip) {
        return part.push_str(rest);
    }
    for item in Scanner::new(text) {
        let piece = &text[item.start..item.end];
        if item.kind == Kind::Text {
            if skip <= piece.len() {
                // What follows is written unchanged.
                part.push_str(&text[item.start + skip..])?;
                return Ok(());
            }
            skip -= piece.len();
        } else {
            part.push_str(piece)?;
        }
    }
    Ok(())
}

/// The spans of a text between the matches of a pattern, in order: an iterator that doesn't
/// allocate.
#[derive(Drop)]
pub(crate) struct PartSpans<'t, 'p> {
    /// What is left of the text.
    at: Cursor<'t>,
    pat: &'p str,
    /// The style that the parts before leave open.
    carried: Style,
}

impl<'t, 'p> Model for PartSpans<'t, 'p> {
    ghost use Rattle.std.specs.Prelude.{List};
    ghost use Rattle.ansi_style.specs.States.{rendition_of};
    ghost use Rattle.ansi_split.specs.Splits.{CarriedPart};
    ghost use Rattle.ansi_split.specs.Cursors.{parts_at};

    ghost Value = { List CarriedPart };

    ghost view = { λ s. parts_at (rendition_of s.carried) s.at s.pat.now };
}

impl<'t, 'p> PartSpans<'t, 'p> {
    /// The spans of all parts of the text.
    pub(crate) fn new(text: &'t str, pat: &'p str) -> Self
        ensures { result ≡ parts_left plain_style text.now pat.now 0 0 }
    {
        PartSpans {
            at: Cursor::new(text),
            pat,
            carried: styles::plain_style(),
        }
    }

    /// The next part, if it is a stretch of the known plain run and no style is carried into it.
    /// After `None` the same parts are left.
    #[inline(always)]
    pub(crate) fn next_bare(&mut self) -> Option<&'t str>
        ensures { MatchOption result (self.new ≡ self.old)
            (λ bare. IsBareFirst self.old bare.now self.new) }
    {
        if styles::has_any(&self.carried) {
            return None;
        }
        self.at.next_in_run(self.pat)
    }

    /// No span is left after it.
    pub(crate) fn finish(&mut self)
        ensures { self.new ≡ [] }
    {
        self.at.finished = true;
    }
}

impl<'t> PartSpans<'t, 't> {
    ghost use Rattle.ansi_split.specs.Walks.{parts_of_walk, IsPartWalk};

    /// The spans that a walk has left.
    pub(crate) fn of(walk: &PartWalk<'t>) -> Self
        requires { IsPartWalk walk.now }
        ensures { result ≡ parts_of_walk walk.now }
    {
        PartSpans {
            at: walk.cursor(),
            pat: walk.pattern(),
            carried: walk.carried.style(),
        }
    }

    /// A walk that has the same parts left.
    pub(crate) fn walk(&self) -> PartWalk<'t>
        ensures walk { IsPartWalk result }
        ensures left { parts_of_walk result ≡ self.now }
    {
        PartWalk {
            rest: self.at.rest.text().as_bytes(),
            pattern: self.pat.as_bytes(),
            run_len: self.at.rest.run_len(),
            skip: self.at.skip,
            from: self.at.from,
            carried: StyleNumbers::of(&self.carried),
            finished: self.at.finished,
            is_styled: styles::has_any(&self.carried),
        }
    }
}

impl<'t, 'p> Iterator for PartSpans<'t, 'p> {
    ghost use Rattle.std.specs.Iterator.{YieldsFirst, item_count};

    type Item = PartSpan<'t>;

    ghost next_gives = { YieldsFirst (λ s. s) };

    ghost remaining = { item_count (λ s. s) };

    #[inline(always)]
    fn next(&mut self) -> Option<PartSpan<'t>> {
        if self.at.finished {
            return None;
        }
        let carried = self.carried;
        let at = &self.at;
        let cut = at.rest.cut_at_match(self.pat, at.from, &mut self.carried);
        let span = PartSpan {
            text: cut.front,
            is_marked: cut.is_marked,
            skip: self.at.skip,
            carried,
            after: self.carried,
        };
        match cut.rest {
            Some(rest) => self.at = Cursor::after_match(rest, self.pat),
            None => self.at.finished = true,
        }
        Some(span)
    }
}
