//! The blocks of a text: its runs of one style.
ghost use Rattle.std.specs.Prelude.{◌≡◌, ◌++◌, ◌≤◌, IsTrue, IsFalse, IsNone, IsOk, IfOk, ◌==◌};
ghost use Rattle.std.specs.Prelude.{length, IfSome, string_bytes};
ghost use Rattle.std.specs.List.{list_all};
ghost use Rattle.std.specs.Cow.{cow_str_bytes};
ghost use Rattle.ansi_items.specs.Plain.{has_escape};
ghost use Rattle.ansi_style.specs.Rendition.{has_any};
ghost use Rattle.ansi_style.specs.States.{rendition_of};
ghost use Rattle.ansi_blocks.specs.Blocks.{sequences_before, blocks, runs, is_borrow};

use crate::runs::{Run, first_styled_run, sequences_before};
use ansi_style::state::{Rendition, Style};
use ansi_style::styles;
use std::alloc::{AllocError, Allocator, Global};
use std::borrow::CowStr;
use std::marker::Model;

/// A run of text in one style, after the sequences before it that aren't SGRs.
///
/// It lives as long as the text that it is a block of. Two blocks are equal if their texts and
/// their styles are equal. (The Rust crate.)
///
/// ```
/// let first = get_blocks(rt.alloc(), "\x1b[1mbold").next();
/// assert!(rt; matches!(&first, Some(Ok(block)) if block.text() == "bold" && block.style().is_bold()));
/// ```
#[derive(Debug, Drop)]
pub struct AnsiBlock<'a, A: Allocator = Global> {
    text: CowStr<'a, A>,
    style: Style,
}

impl<'a, A: Allocator> Model for AnsiBlock<'a, A> {
    ghost use Rattle.std.specs.Cow.{cow_str_bytes};
    ghost use Rattle.ansi_style.specs.States.{rendition_of};
    ghost use Rattle.ansi_blocks.specs.Blocks.{Block, is_borrow};

    ghost Value = { Block };

    ghost view = { λ b. record {
      text = cow_str_bytes b.text;
      style = rendition_of b.style;
      is_borrow = is_borrow b.text;
    } };
}

impl<'a, A: Allocator> AnsiBlock<'a, A> {
    /// The sequences before the run that aren't SGRs, joined, and then the run itself. Doesn't
    /// allocate. (The Rust crate.)
    ///
    /// ```
    /// let text = "\x1b]8;;u\x1b\\link\x1b]8;;\x1b\\";
    /// let first = get_blocks(rt.alloc(), text).next();
    /// assert!(rt; matches!(&first, Some(Ok(block)) if block.text() == "\x1b]8;;u\x1b\\link"));
    /// ```
    pub fn text(&self) -> &str
        ensures { result.now ≡ self.now.text }
    {
        self.text.as_str()
    }

    /// Whether the style has something to end: a font is enough, an unknown code alone isn't.
    /// Doesn't allocate. (The Rust crate, which doesn't count the font.)
    ///
    /// ```
    /// let first = get_blocks(rt.alloc(), "\x1b[12mx").next();
    /// assert!(rt; matches!(&first, Some(Ok(block)) if block.has_ansi()));
    /// ```
    pub fn has_ansi(&self) -> bool
        ensures { result ≡ has_any self.now.style }
    {
        styles::has_any(&self.style)
    }

    /// The style of the run, with everything that the text before it left open. Doesn't allocate.
    /// (The Rust crate.)
    ///
    /// ```
    /// let first = get_blocks(rt.alloc(), "\x1b[1mx").next();
    /// assert!(rt; matches!(&first, Some(Ok(block)) if block.style().is_bold() && !block.style().is_italic()));
    /// ```
    pub fn style(&self) -> &Style
        ensures { rendition_of result.now ≡ self.now.style }
    {
        &self.style
    }
}

impl<'a, A: Allocator + Clone> AnsiBlock<'a, A> {
    /// A copy of the block.
    ///
    /// Its text is a borrow if this block's is. Then the call doesn't allocate. `Err` means
    /// out of memory. (The Rust crate.)
    ///
    /// ```
    /// let block = get_blocks(rt.alloc(), "\x1b[1mx").next().ok_or("no block")??;
    /// assert!(rt; block.clone()? == block);
    /// ```
    pub fn clone(&self) -> Result<AnsiBlock<'a, A>, AllocError>
        ensures same { IfOk result (λ block. block ≡ self.now) }
        ensures takes_no_memory { IsTrue self.now.is_borrow → IsOk result }
    {
        let text = match &self.text {
            CowStr::Borrowed(text) => CowStr::Borrowed(text),
            CowStr::Owned(text) => CowStr::Owned(text.clone()?),
        };
        let style = self.style;
        Ok(AnsiBlock { text, style })
    }
}

impl<'a, A: Allocator> PartialEq for AnsiBlock<'a, A> {
    ghost use Rattle.std.specs.Prelude.{nat_eq};
    ghost use Rattle.std.specs.Ordering.{on, eq_of_both};
    ghost use Rattle.std.specs.Cmp.{and_per, on_per, partial_equiv_from_equiv};
    ghost use Rattle.std.specs.Cmp.Lexicographic.{pointwise, nat_list_eq_equiv};
    ghost use Rattle.ansi_style.specs.contracts.state.rendition.RenditionPartialEq.TheImpl.Laws.{laws-law};

    ghost eq = { eq_of_both (on (λ b. b.text) (pointwise nat_eq))
        (on (λ b. b.style) ⟦<Rendition as PartialEq>⟧.eq) };

    ghost laws = { and_per (on_per (λ b. b.text) (partial_equiv_from_equiv nat_list_eq_equiv))
        (on_per (λ b. b.style) laws-law) };

    fn eq(&self, other: &AnsiBlock<'a, A>) -> bool {
        self.text() == other.text() && self.style == other.style
    }
}

impl<'a, A: Allocator> Eq for AnsiBlock<'a, A> {
    ghost use Rattle.std.specs.Cmp.{and_equiv, on_equiv};
    ghost use Rattle.std.specs.Cmp.Lexicographic.{nat_list_eq_equiv};
    ghost use Rattle.ansi_style.specs.contracts.state.rendition.RenditionEq.TheImpl.Laws.{laws-law};

    ghost laws = { and_equiv (on_equiv (λ b. b.text) nat_list_eq_equiv)
        (on_equiv (λ b. b.style) laws-law) };
}

/// The blocks of a text, in order: an iterator. Each item may be an `Err`.
///
/// `Err` means out of memory. After it, and after the last block, the iterator returns `None`
/// for good. (The Rust crate; that an item may be an `Err`, own.)
///
/// ```
/// let mut texts = String::new(rt.alloc());
/// for block in get_blocks(rt.alloc(), "\x1b[31mred\x1b[39m and plain") {
///     texts.push_str(block?.text())?;
/// }
/// assert!(rt; texts.as_str() == "red and plain");
/// ```
#[derive(Drop)]
pub struct AnsiBlockIter<'a, A: Allocator = Global> {
    alloc: A,
    /// What is left of the text after the last block.
    rest: &'a str,
    /// The style there.
    style: Style,
}

impl<'a, A: Allocator> Model for AnsiBlockIter<'a, A> {
    ghost use Rattle.std.specs.Prelude.{List};
    ghost use Rattle.ansi_style.specs.States.{rendition_of};
    ghost use Rattle.ansi_blocks.specs.Blocks.{Block, blocks_from};

    ghost Value = { List Block };

    ghost view = { λ i. blocks_from (rendition_of i.style) i.rest.now };
}

/// The blocks of a text, in order.
///
/// There is one block for each run of text between sequences. A block's text is the sequences
/// before the run that aren't SGRs, joined, and then the run. If there are no such sequences, it is
/// a borrow and doesn't allocate, so on a text without ESC every block is one. Sequences after the
/// last run are in no block. An item is an `Err` if memory has run out, and it is the last item.
/// Takes any allocator. (The Rust crate.)
///
/// ```
/// let mut blocks = get_blocks(rt.alloc(), "\x1b[31mred\x1b[39m and");
/// assert!(rt; matches!(&blocks.next(), Some(Ok(red)) if red.text() == "red" && red.has_ansi()));
/// assert!(rt; matches!(&blocks.next(), Some(Ok(and)) if and.text() == " and" && !and.has_ansi()));
/// assert!(rt; blocks.next().is_none());
/// ```
pub fn get_blocks<A: Allocator>(alloc: A, text: &str) -> AnsiBlockIter<'_, A>
    ensures blocks { result ≡ blocks text.now }
    ensures runs { length result ≡ length (runs text.now) }
    ensures len { length result ≤ length text.now }
    ensures takes_no_memory { IsFalse (has_escape text.now) →
        IsTrue (list_all (λ b. b.is_borrow) result) }
{
    AnsiBlockIter {
        alloc,
        rest: text,
        style: styles::plain_style(),
    }
}

impl<'a, A: Allocator + Copy> Iterator for AnsiBlockIter<'a, A> {
    ghost use Rattle.std.specs.Iterator.{item_count};
    ghost use Rattle.ansi_blocks.specs.Blocks.{GivesBlock};

    type Item = Result<AnsiBlock<'a, A>, AllocError>;

    ghost next_gives = { GivesBlock };

    ghost remaining = { item_count (λ blocks. blocks) };

    /// The next block, an `Err` if memory has run out, or `None` if no block is left.
    #[inline(always)]
    fn next(&mut self) -> Option<Result<AnsiBlock<'a, A>, AllocError>> {
        let text = self.rest;
        // Nothing is left unless a block is made.
        self.rest = "";
        let run = first_styled_run(text, &mut self.style)?;
        match block_text(self.alloc, text, &run) {
            Ok(text) => {
                self.rest = run.rest;
                let style = self.style;
                Some(Ok(AnsiBlock { text, style }))
            }
            Err(e) => Some(Err(e)),
        }
    }
}

/// The text of the block of the first run in a text.
#[inline(always)]
fn block_text<'a, A: Allocator>(
    alloc: A,
    text: &str,
    run: &Run<'a>,
) -> Result<CowStr<'a, A>, AllocError>
    requires len { run.now.len_before ≡ length (sequences_before text.now 0) }
    requires together { IfSome run.now.together (λ s. s.now ≡ sequences_before text.now 0) }
    ensures bytes { IfOk result (λ c.
        cow_str_bytes c ≡ sequences_before text.now 0 ++ run.now.text.now) }
    ensures borrowed { IfOk result (λ c.
        is_borrow c ≡ (length (sequences_before text.now 0) == 0)) }
    ensures takes_no_memory { run.now.len_before ≡ 0 → IsOk result }
{
    if run.len_before == 0 {
        return Ok(CowStr::Borrowed(run.text));
    }
    let room = run.len_before.saturating_add(run.text.len());
    let mut joined = waiting_sequences(alloc, text, run, room)?;
    joined.push_str(run.text)?;
    Ok(CowStr::Owned(joined))
}

/// The sequences that wait for the first run of a text, joined. Reserves `room` bytes at once.
#[inline(always)]
fn waiting_sequences<A: Allocator>(
    alloc: A,
    text: &str,
    run: &Run<'_>,
    room: usize,
) -> Result<String<A>, AllocError>
    requires { IfSome run.now.together (λ s. s.now ≡ sequences_before text.now 0) }
    ensures { IfOk result (λ s. string_bytes s ≡ sequences_before text.now 0) }
{
    let Some(sequences) = run.together else {
        return sequences_before(alloc, text, room);
    };
    let mut joined = String::with_capacity(alloc, room)?;
    joined.push_str(sequences)?;
    Ok(joined)
}
