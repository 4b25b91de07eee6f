//! The parts of a short text, copied to the stack first, so that most texts allocate nothing.
ghost use Rattle.std.specs.Prelude.{◌≡◌, ◌≤◌, ◌∷◌, [], ◌++◌, true, length, map, flat_map};
ghost use Rattle.std.specs.Prelude.{IfNone, IfSome, IfOk, OnOk, IsTrue, IsFalse, string_bytes};
ghost use Rattle.ansi_str.specs.Parts.{all_parts};
ghost use Rattle.ansi_style.specs.declared.styles.TheConstants.{SHORT};
ghost use Rattle.ansi_text_calls.specs.Lists.{ends_from, GivesAll};
ghost use Rattle.ansi_text_calls.specs.Parts.{stretch_bytes, AddsPart, AreAllWith};

use crate::lists::{ListAnswer, push_close, push_texts, write_joined, write_list};
use crate::walks::{adds_nothing, close_if_any, short_start};
use ansi_split::split::{AnsiSplit, split_in};
use ansi_split::walks::{PartStretch, next_stretch_in};
use ansi_style::styles;
use ansi_style::styles::SHORT;
use arrayvec::{ArrayString, ArrayVec};
use std::alloc::{AllocError, Allocator};

/// The most bytes of a text whose parts are copied there.
const SHORT_TEXT: usize = 256;

/// The room there: for the bytes of the parts, and for their ends.
const FEW_BYTES: usize = 512;

const FEW_ENDS: usize = 64;

/// Parts that are copied to the stack, one after the other, and where each ends.
#[derive(Drop)]
pub(crate) struct FewParts {
    texts: ArrayString<FEW_BYTES>,
    ends: ArrayVec<usize, FEW_ENDS>,
}

/// Writes the parts of a short text, and where each ends. They are copied to the stack up to one that
/// has no room there, or whose start or close isn't short; it and those after it are joined with the
/// others on the heap. `None` means that the text isn't short, or that a sequence is inside a match.
/// Then nothing is written.
pub(crate) fn write_few_parts<A: Allocator + Copy>(
    alloc: A,
    text: &str,
    pat: &str,
    buffer: &mut [u8],
    ends: &mut [usize],
) -> Option<ListAnswer>
    ensures none { IfNone result ((buffer.new ≡ buffer.old) × (ends.new ≡ ends.old)) }
    ensures written { IfSome result (λ answer. GivesAll true
        (flat_map (λ p. p) (all_parts text.now pat.now))
        (ends_from 0 (all_parts text.now pat.now)) answer buffer.old buffer.new ends.old ends.new) }
{
    if SHORT_TEXT < text.len() {
        return None;
    }
    let mut few = FewParts {
        texts: ArrayString::new(),
        ends: ArrayVec::new(),
    };
    let mut left = split_in(alloc, text, pat);
    let Some(next) = few.copy(&mut left) else {
        let texts = few.texts.as_str().as_bytes();
        return Some(write_list(texts, few.ends.as_slice(), buffer, ends));
    };
    let joined = few.join(alloc, &next?, left);
    Some(write_joined(joined, buffer, ends))
}

impl FewParts {
    /// Copies the parts that a split has left, up to one that has no room, or isn't written from a
    /// stretch of the text between a short start and a short close. Returns that part, which the split
    /// has passed, as `next_stretch_in` does.
    fn copy<'a, A: Allocator + Copy>(
        &mut self,
        left: &mut AnsiSplit<'a, A>,
    ) -> Option<Option<PartStretch<'a>>>
        ensures all { IfNone result (AreAllWith self.old (map (λ p. p.bytes) left.old)
            self.new []) }
        ensures front { IfSome result (λ next. IfSome next (λ stretch.
            AreAllWith self.old (map (λ p. p.bytes) left.old)
            self.new (stretch_bytes stretch ∷ map (λ p. p.bytes) left.new))) }
    {
        'parts: while let Some(next) = next_stretch_in(left) {
            let Some(stretch) = next else {
                return Some(None);
            };
            if !self.put_stretch(&stretch) {
                return Some(Some(stretch));
            }
        }
        None
    }

    /// Copies a part, and where it ends. Returns whether it has room and its start and its close are
    /// short; otherwise nothing changes.
    #[inline(always)]
    fn put_stretch(&mut self, stretch: &PartStretch<'_>) -> bool
        ensures put { IsTrue result → AddsPart (stretch_bytes stretch.now) self.old self.new }
        ensures unchanged { IsFalse result → self.new ≡ self.old }
    {
        let Some(around) = &stretch.around else {
            return self.put("", stretch.text, "");
        };
        if adds_nothing(around) {
            return self.put("", stretch.text, "");
        }
        let start = short_start(&around.before);
        let close = close_if_any(&around.after);
        let (Some(start), Some(close)) = (&start, &close) else {
            return false;
        };
        self.put(start.as_str(), stretch.text, close.as_str())
    }

    /// Copies a text between two short ones, and where it ends. Returns whether there is room for that;
    /// otherwise nothing changes.
    #[inline(always)]
    fn put(&mut self, start: &str, text: &str, close: &str) -> bool
        requires start { length start.now ≤ SHORT }
        requires close { length close.now ≤ SHORT }
        ensures put { IsTrue result → AddsPart (start.now ++ text.now ++ close.now) self.old self.new }
        ensures unchanged { IsFalse result → self.new ≡ self.old }
    {
        let len = start.len() + text.len() + close.len();
        if self.ends.is_full() || self.texts.remaining_capacity() < len {
            return false;
        }
        self.texts.push_str(start);
        self.texts.push_str(text);
        self.texts.push_str(close);
        self.ends.push(self.texts.len());
        true
    }

    /// These parts, a part more, and those that a split has left, as a text of their own, and where
    /// each ends. `Err` means out of memory.
    fn join<A: Allocator + Copy>(
        &self,
        alloc: A,
        next: &PartStretch<'_>,
        left: AnsiSplit<'_, A>,
    ) -> Result<(String<A>, Vec<usize, A>), AllocError>
        ensures texts { IfOk result (λ joined. string_bytes joined.0 ≡ self.now.texts.bytes
            ++ flat_map (λ p. p) (stretch_bytes next.now ∷ map (λ p. p.bytes) left.entry)) }
        ensures ends { IfOk result (λ joined. joined.1.items ≡ self.now.ends.items
            ++ ends_from (length self.now.texts.bytes)
            (stretch_bytes next.now ∷ map (λ p. p.bytes) left.entry)) }
    {
        let mut texts = String::with_capacity(alloc, SHORT_TEXT + FEW_BYTES)?;
        texts.push_str(self.texts.as_str())?;
        push_stretch(next, &mut texts)?;
        let mut ends = Vec::with_capacity(alloc, FEW_ENDS + FEW_ENDS)?;
        ends.extend_from_slice(self.ends.as_slice())?;
        ends.push(texts.len())?;
        push_texts(texts, ends, left)
    }
}

/// Appends a stretch with what sets and resets the styles around it.
fn push_stretch<A: Allocator>(
    stretch: &PartStretch<'_>,
    texts: &mut String<A>,
) -> Result<(), AllocError>
    ensures { OnOk result
        (string_bytes texts.new ≡ string_bytes texts.old ++ stretch_bytes stretch.now) }
{
    let Some(around) = &stretch.around else {
        return texts.push_str(stretch.text);
    };
    styles::write_start(&around.before, texts)?;
    texts.push_str(stretch.text)?;
    push_close(texts, &around.after)
}
