//! The stretches of a text from which the lines of a wrap are written.
ghost use Rattle.std.specs.Prelude.{◌≡◌, ◌+◌, ◌++◌, ◌≤◌, ℕ, List, [], length, IsTrue, IsFalse, IsOk};
ghost use Rattle.std.specs.Prelude.{◌↔◌, IfOk, IfSome, IfNone, OnOk, OnErr, ◌∷◌, string_bytes, map};
ghost use Rattle.std.specs.Iterator.{YieldsFirst};
ghost use Rattle.std.specs.Option.{MatchOption};
ghost use Rattle.ansi_style.specs.States.{rendition_of};
ghost use Rattle.ansi_style.specs.Writing.{KeepsText};
ghost use Rattle.ansi_style.specs.Written.{close, longest_start_and_close};
ghost use Rattle.ansi_safe.specs.Cells.{paragraph};
ghost use Rattle.ansi_safe.specs.Links.{longest_link_end};
ghost use Rattle.ansi_split.specs.Splits.{IsCarriedPart};
ghost use Rattle.ansi_cells.specs.Wrapped.{IsTaken, lines_of};
ghost use Rattle.ansi_wraps.specs.WrapStates.{span_lines, lines_after, HasNext};
ghost use Rattle.ansi_cells.specs.PlainCells.{IsFront};
ghost use Rattle.ansi_wraps.specs.WrapStates.{AreNew, AreSpans, IsCharRange, IsOnlyLine};
ghost use Rattle.ansi_wraps.specs.declared.wrap.spans.Next.TheVariants.{At};

use crate::wrap::pens::PenAt;
use ansi_cells::plain_cells::{PlainFront, line_runs};
use ansi_clusters::lines::first_line;
use ansi_clusters::views::View;
use ansi_clusters::walks::Walk;
use ansi_safe::cells::is_paragraph;
use ansi_safe::links::{Pen, plain_pen};
use ansi_search::search::PAST_THE_END;
use ansi_slice::slice::{has_any, push_sequences};
use ansi_style::state::Style;
use ansi_style::styles;
use std::alloc::{AllocError, Allocator};
use std::borrow::CowStr;
use std::marker::Model;

/// The data of one line. Contracts see it as that line.
#[derive(Drop)]
pub(crate) struct Span<'t> {
    /// The text after the last sequence of the previous line, up to the last sequence of this line.
    text: &'t str,
    /// Whether the text has an ESC.
    is_marked: bool,
    /// The number of plain bytes of the text before the line.
    start: usize,
    /// The number of plain bytes of the text before the end of the line.
    end: usize,
    /// The offset in the text at which the line ends, after the sequences there.
    end_offset: usize,
    /// The style and link that the lines before leave open.
    carried: Pen<'t>,
    /// The style and link that are open after the text.
    after: Pen<'t>,
}

impl<'t> Model for Span<'t> {
    ghost use Rattle.ansi_items.specs.Plain.{plain, marks};
    ghost use Rattle.ansi_style.specs.States.{rendition_of};
    ghost use Rattle.ansi_cells.specs.Wrapped.{CarriedPart, line_over, IsLineSpan};

    ghost Value = { CarriedPart };

    ghost view = { λ s. line_over (rendition_of s.carried.style) s.carried.link.now
        (plain s.text.now) (marks s.text.now) (s.start, s.end) };

    ghost invariant = { λ s. IsLineSpan (rendition_of s.carried.style) s.carried.link.now s.text.now
        s.start s.end s.end_offset s.is_marked (rendition_of s.after.style) s.after.link.now };
}

impl<'t> Span<'t> {
    /// The line. It is a borrow if it has no sequence, and either is empty or has nothing carried
    /// into it.
    pub(crate) fn write<A: Allocator>(&self, alloc: A) -> Result<CowStr<'t, A>, AllocError>
        ensures line { IfOk result
            (IsCarriedPart (longest_start_and_close + longest_link_end) self.now) }
        ensures takes_no_memory { IsTrue self.now.borrowed → IsOk result }
    {
        match self.bare() {
            Some(bare) => Ok(CowStr::Borrowed(bare)),
            None => Ok(CowStr::Owned(self.written(alloc)?)),
        }
    }

    /// The line, always written.
    pub(crate) fn write_owned<A: Allocator + Copy>(&self, alloc: A) -> Result<String<A>, AllocError>
        ensures bytes { IfOk result (λ s. string_bytes s ≡ self.now.bytes) }
        ensures len { IfOk result (λ s. length (string_bytes s)
            ≤ self.now.source_len + longest_start_and_close + longest_link_end) }
    {
        self.write(alloc)?.into_owned(alloc)
    }

    /// The stretch of the text that is the line, or `None` if the line isn't a borrow.
    fn bare(&self) -> Option<&'t str>
        ensures line { MatchOption result (IsFalse self.now.borrowed) (λ bare.
            (bare.now ≡ self.now.bytes) × IsTrue self.now.borrowed) }
        ensures len { length self.now.bytes
            ≤ self.now.source_len + longest_start_and_close + longest_link_end }
    {
        if self.is_marked {
            return None;
        }
        if self.start != self.end && !self.carried.ending().is_empty() {
            return None;
        }
        Some(&self.text[self.start..self.end])
    }

    /// Appends the line. `Err` means out of memory; what was appended before it stays.
    #[tactic(auto, using(ansi_style::proofs::FrontLemmas::keeps))]
    pub(crate) fn push_to<A: Allocator>(&self, out: &mut String<A>) -> Result<(), AllocError>
        ensures bytes { OnOk result
            (string_bytes out.new ≡ string_bytes out.old ++ self.now.bytes) }
        ensures kept { KeepsText (string_bytes out.old) (string_bytes out.new) }
        ensures unchanged { OnErr result
            (IsTrue self.now.borrowed → string_bytes out.new ≡ string_bytes out.old) }
    {
        match self.bare() {
            Some(bare) => out.push_str(bare),
            None => self.push_styled(out),
        }
    }

    /// The owned line, as a text of its own.
    fn written<A: Allocator>(&self, alloc: A) -> Result<String<A>, AllocError>
        requires { IsFalse self.now.borrowed }
        ensures { IfOk result (λ s. string_bytes s ≡ self.now.bytes) }
    {
        let links = self.carried.link.len() + self.after.link_end().len();
        let len = self.text.len().saturating_sub(self.start);
        let len = len.saturating_add(links);
        let mut line = styles::with_room_to_close(
            alloc,
            &self.carried.style,
            len,
            &self.after.style,
        )?;
        self.push_styled(&mut line)?;
        Ok(line)
    }

    /// Appends the owned line: the style and link carried into it, its text with its sequences, and
    /// what ends both. `Err` means out of memory; what was appended before it stays.
    #[tactic(auto, using(ansi_style::proofs::FrontLemmas::keeps))]
    fn push_styled<A: Allocator>(&self, out: &mut String<A>) -> Result<(), AllocError>
        requires { IsFalse self.now.borrowed }
        ensures bytes { OnOk result
            (string_bytes out.new ≡ string_bytes out.old ++ self.now.bytes) }
        ensures kept { KeepsText (string_bytes out.old) (string_bytes out.new) }
    {
        styles::write_start(&self.carried.style, out)?;
        out.push_str(self.carried.link)?;
        let start = push_sequences(out, self.text, self.start)?;
        out.push_str(&self.text[start..self.end_offset])?;
        push_sequences(out, &self.text[self.end_offset..], PAST_THE_END)?;
        self.after.ending().push_to(out)
    }
}

/// What is left of the lines of a text, without a borrow of the text.
#[derive(Clone, Copy)]
pub(crate) struct Spans {
    /// The greatest width of a line, in columns. A line of one wider cluster may exceed it.
    width: usize,
    next: Next,
    /// The offset at which the previous lines end.
    taken: usize,
    /// The number of plain bytes before that offset.
    before: usize,
    /// The style and link that the lines before leave open.
    pen: PenAt,
}

/// The next line.
#[derive(Clone, Copy)]
enum Next {
    /// The only line.
    Only(OnlyLine),
    /// The line that begins at a walk.
    At(Walk),
    /// No line is left.
    Nothing,
}

/// A line that is all of a text, which is select graphic renditions and characters that are clusters by
/// themselves alone.
#[derive(Clone, Copy)]
pub(crate) struct OnlyLine {
    /// The number of its plain bytes.
    len: usize,
    /// The style at its end. No link is open there.
    style: Style,
}

impl OnlyLine {
    ghost use Rattle.std.specs.Prelude.{◌≡◌, ◌∷◌, [], ℕ};
    ghost use Rattle.ansi_style.specs.Rendition.{plain_style};
    ghost use Rattle.ansi_items.specs.Plain.{plain, marks};
    ghost use Rattle.ansi_clusters.specs.Columns.{clusters};
    ghost use Rattle.ansi_clusters.specs.Lines.{lines_from};
    ghost use Rattle.ansi_cells.specs.Wrapped.{lines_over};
    ghost use Rattle.ansi_wraps.specs.WrapStates.{IsOnlyLine};

    /// The span of the line.
    fn span<'t>(self, text: &'t str) -> Span<'t>
        requires { (width : ℕ) × IsOnlyLine text.now width self }
        ensures { (width : ℕ) → IsOnlyLine text.now width self →
            lines_over plain_style [] (plain text.now) (marks text.now)
            (lines_from width 0 0 0 0 (clusters (plain text.now))) ≡ result ∷ [] }
    {
        Span {
            text,
            is_marked: self.len != text.len(),
            start: 0,
            end: self.len,
            end_offset: text.len(),
            carried: plain_pen(),
            after: Pen {
                style: self.style,
                link: "",
            },
        }
    }
}

impl Spans {
    /// The spans of all lines of a text.
    pub(crate) fn new(text: &str, width: usize) -> Self
        ensures spans { AreSpans text.now result }
        ensures lines { span_lines text.now result ≡ lines_of text.now width }
    {
        let width = width.max(1);
        if let Some(front) = line_runs(text, width)
            && let Some(line) = line_of_front(&front)
        {
            return Spans::begin(width, Next::Only(line));
        }
        Spans::begin(width, Next::At(Walk::start(text)))
    }

    /// The same, or `None` if the text isn't its own paragraph.
    ///
    /// The front of the text that one pass finds to stay isn't tested again.
    #[inline(never)]
    pub(crate) fn of(text: &str, width: usize) -> Option<Self>
        ensures spans { IfSome result (AreSpans text.now) }
        ensures lines { IfSome result (λ s. span_lines text.now s ≡ lines_of text.now width) }
        ensures paragraph { IfSome result (λ _. paragraph text.now ≡ text.now) }
        ensures none { IfNone result (¬ (paragraph text.now ≡ text.now)) }
    {
        let width = width.max(1);
        let front = line_runs(text, width);
        if let Some(front) = &front
            && let Some(line) = line_of_front(front)
        {
            return Some(Spans::begin(width, Next::Only(line)));
        }
        if !stays(text, width, &front) {
            return None;
        }
        Some(Spans::begin(width, Next::At(Walk::start(text))))
    }

    /// The same as `new`, without a look at the text. They give the lines of any text, also of a
    /// paragraph that there is no memory for.
    pub(crate) fn unread(text: &str, width: usize) -> Self
        ensures spans { AreSpans text.now result }
        ensures some { HasNext result.next }
        ensures lines { (t : List ℕ) → span_lines t result ≡ lines_of t width }
    {
        Spans::begin(width.max(1), Next::At(Walk::start(text)))
    }

    /// Spans of which none is taken.
    #[inline(always)]
    fn begin(width: usize, next: Next) -> Self
        ensures width { result.width ≡ width }
        ensures next { result.next ≡ next }
        ensures new { AreNew result }
    {
        Spans {
            width,
            next,
            taken: 0,
            before: 0,
            pen: PenAt::plain(),
        }
    }

    /// The style at the end of the text, if the next line is known to be all of it.
    pub(crate) fn only_style(&self) -> Option<Style>
        ensures { (t : List ℕ) → AreSpans t self.now → IfSome result (λ style.
            map (λ l. l.bytes) (span_lines t self.now) ≡ (t ++ close (rendition_of style)) ∷ []) }
    {
        match &self.next {
            Next::Only(line) => Some(line.style),
            _ => None,
        }
    }

    /// Leaves no lines.
    pub(crate) fn finish(&mut self)
        ensures lines { (t : List ℕ) → span_lines t self.new ≡ [] }
        ensures spans { (t : List ℕ) → AreSpans t self.new }
    {
        self.next = Next::Nothing;
    }

    /// Whether a line is left.
    pub(crate) fn has_next(&self) -> bool
        ensures some { IsTrue result → HasNext self.now.next }
        ensures none { IsFalse result → (t : List ℕ) → span_lines t self.now ≡ [] }
    {
        !matches!(self.next, Next::Nothing)
    }

    /// The span of the next line of the text. Doesn't allocate.
    pub(crate) fn next<'t>(&mut self, text: &'t str) -> Option<Span<'t>>
        requires { AreSpans text.now self.old }
        ensures spans { AreSpans text.now self.new }
        ensures lines { YieldsFirst (span_lines text.now) self.old result self.new }
    {
        match self.next {
            Next::Nothing => None,
            Next::At(from) => Some(self.line_at(text, from)),
            Next::Only(line) => {
                self.finish();
                Some(line.span(text))
            }
        }
    }

    /// The span of the line that begins at a walk.
    #[inline(always)]
    fn line_at<'t>(&mut self, text: &'t str, from: Walk) -> Span<'t>
        requires walk { IsTaken text.now self.old.before self.old.taken from }
        requires link { IsCharRange text.now self.old.pen.link_start self.old.pen.link_end }
        ensures spans { AreSpans text.now self.new }
        ensures lines { lines_after text.now self.old (At from)
            ≡ result ∷ span_lines text.now self.new }
    {
        let (start, end, later) = first_line(text, from, self.width, View::Given);
        // The last line takes all that is left.
        let (taken, next) = match later {
            Some(walk) => (end.offset, Next::At(walk)),
            None => (text.len(), Next::Nothing),
        };
        let part = &text[self.taken..taken];
        let is_marked = has_any(part);
        let after = if is_marked {
            self.pen.after(text, self.taken, taken)
        } else {
            self.pen
        };
        let span = Span {
            text: part,
            is_marked,
            start: start.position - self.before,
            end: end.position - self.before,
            end_offset: end.offset - self.taken,
            carried: self.pen.pen(text),
            after: after.pen(text),
        };
        self.next = next;
        self.taken = taken;
        self.before = end.position;
        self.pen = after;
        span
    }
}

/// The only line of a text, if this front is all of it and doesn't end with a blank. `None` says nothing.
#[inline(always)]
fn line_of_front(front: &PlainFront) -> Option<OnlyLine>
    ensures { (text : List ℕ) (width : ℕ) → IsFront text width front.now →
        IfSome result (IsOnlyLine text width) }
{
    if front.run.is_some() || front.last == b' ' {
        return None;
    }
    Some(OnlyLine {
        len: front.len,
        style: front.style,
    })
}

/// Whether a text is its own paragraph, after what `line_runs` returned for `width`.
#[inline(always)]
fn stays(text: &str, width: usize, front: &Option<PlainFront>) -> bool
    requires { IfSome front.now (IsFront text.now width) }
    ensures { IsTrue result ↔ (paragraph text.now ≡ text.now) }
{
    let Some(front) = front else {
        return is_paragraph(text);
    };
    match front.run {
        Some(run) => is_paragraph(&text[run.offset..]),
        None => true,
    }
}
