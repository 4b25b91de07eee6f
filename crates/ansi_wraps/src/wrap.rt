//! The lines of a wrapped text, ready for display. Each line opens the style and link carried into
//! it, and closes them.
ghost use Rattle.std.specs.Prelude.{◌≡◌, ◌↔◌, [], ◌∷◌, ◌++◌, true, false, map, All, IsTrue, IsFalse};
ghost use Rattle.std.specs.Prelude.{IfOk, IfSome, IfNone, string_bytes};
ghost use Rattle.std.specs.Cow.{cow_str_bytes};
ghost use Rattle.std.specs.List.{list_all};
ghost use Rattle.std.specs.Str.{IsUtf8};
ghost use Rattle.ansi_items.specs.Plain.{has_escape};
ghost use Rattle.ansi_style.specs.States.{rendition_of};
ghost use Rattle.ansi_style.specs.Written.{close};
ghost use Rattle.ansi_safe.specs.Cells.{paragraph};
ghost use Rattle.ansi_safe.specs.Links.{IsClosed};
ghost use Rattle.ansi_safe.specs.Safe.{is_safe};
ghost use Rattle.ansi_safe.specs.declared.policy.Links.TheVariants.{Keep};
ghost use Rattle.ansi_cells.specs.OneLine.{is_one_line};
ghost use Rattle.ansi_cells.specs.Rows.{line_screens};
ghost use Rattle.ansi_cells.specs.Screens.{screen};
ghost use Rattle.ansi_cells.specs.Wrapped.{lent_lines, wrapped, IsWrapped, GivesLine};
ghost use Rattle.ansi_wraps.specs.WrapStates.{lends, span_lines, AreSpans};

pub mod indents;
pub(crate) mod pens;
pub(crate) mod spans;

use crate::wrap::spans::Spans;
use ansi_safe::cells::{paragraph_of, written_paragraph};
pub use ansi_split::split::PushNext;
use ansi_style::state::Style;
use std::alloc::{AllocError, Allocator, Global};
use std::borrow::CowStr;
use std::marker::Model;

/// The lines of a wrapped text, in order: the iterator that `AnsiColumns::ansi_wrap` returns.
///
/// If the text is its own paragraph (`ansi_safe::cells::paragraph_of`), a line with no sequence is
/// a borrow if it is empty or nothing is carried into it. Any other line is owned. `Err` means out
/// of memory. After an `Err`, as after the last line, `next` always returns `None`. A line lives as
/// long as the text and may outlive the iterator. (Own.)
///
/// ```
/// let mut lines = String::new(rt.alloc());
/// for line in "\x1b[1mlion tiger".ansi_wrap(rt.alloc(), 5) {
///     lines.push_str(line?.as_str())?;
///     lines.push('\n')?;
/// }
/// assert!(rt; lines.as_str() == "\x1b[1mlion\x1b[22m\n\x1b[1mtiger\x1b[22m\n");
/// ```
#[derive(Drop)]
pub struct AnsiWrap<'t, A: Allocator = Global> {
    alloc: A,
    /// The text that is wrapped: the caller's, or its paragraph if that is another text.
    text: CowStr<'t, A>,
    /// Why the paragraph couldn't be made. Then the text is the caller's.
    failure: Option<AllocError>,
    spans: Spans,
}

impl<'t, A: Allocator> Model for AnsiWrap<'t, A> {
    ghost use Rattle.std.specs.Prelude.{List};
    ghost use Rattle.ansi_cells.specs.Wrapped.{CarriedPart, lent_lines};
    ghost use Rattle.ansi_wraps.specs.WrapStates.{span_lines, shown_text, is_lent, AreLeft};

    ghost Value = { List CarriedPart };

    ghost view = { λ s. lent_lines (is_lent s.text s.failure)
        (span_lines (shown_text s.text s.failure) s.spans) };

    ghost invariant = { λ s. AreLeft s.text s.failure s.spans };
}

/// Like `AnsiColumns::ansi_wrap`, with any allocator. The lines may borrow from the text and live
/// as long as it.
///
/// ```
/// let first = wrap(rt.alloc(), "\x1b[1mlion tiger", 5).next();
/// assert!(rt; matches!(&first, Some(Ok(line)) if line.as_str() == "\x1b[1mlion\x1b[22m"));
/// ```
pub fn wrap<'t, A: Allocator + Copy>(alloc: A, text: &'t str, width: usize) -> AnsiWrap<'t, A>
    ensures first_fit { IsWrapped text.now width result }
    ensures lines { result ≡ wrapped text.now width }
    ensures safe { All (λ l. IsTrue (is_safe Keep l.bytes)) result }
    ensures one_line { All (λ l. IsTrue (is_one_line l.bytes)) result }
    ensures closed { All (λ l. IsClosed l.bytes) result }
    ensures screen { map (λ l. screen l.bytes) result ≡ line_screens text.now width }
    ensures takes_no_memory { paragraph text.now ≡ text.now → IsFalse (has_escape text.now) →
        IsTrue (list_all (λ l. l.borrowed) result) }
{
    wrapped_lines(alloc, text, width)
}

/// The lines of a text.
fn wrapped_lines<'t, A: Allocator + Copy>(alloc: A, text: &'t str, width: usize) -> AnsiWrap<'t, A>
    ensures { result ≡ wrapped text.now width }
{
    if let Some(spans) = Spans::of(text, width) {
        return AnsiWrap::lent(alloc, text, spans);
    }
    match written_paragraph(alloc, text) {
        Ok(paragraph) => AnsiWrap::over(alloc, CowStr::Owned(paragraph), None, width),
        Err(e) => AnsiWrap::over(alloc, CowStr::Borrowed(text), Some(e), width),
    }
}

/// Like [`wrap`], of a text that may be owned. Then no line borrows.
pub(crate) fn wrap_cow<'t, A: Allocator + Copy>(
    alloc: A,
    text: CowStr<'t, A>,
    width: usize,
) -> AnsiWrap<'t, A>
    ensures lines { result
        ≡ lent_lines (lends text.entry) (wrapped (cow_str_bytes text.entry) width) }
    ensures utf8 { IsUtf8 (cow_str_bytes text.entry) }
{
    match text {
        CowStr::Borrowed(text) => wrap(alloc, text, width),
        CowStr::Owned(text) => wrap_owned(alloc, text, width),
    }
}

/// The lines of an owned text. None of them borrows.
#[tactic(auto, using(crate::proofs::EditWrapLemmas::owned_wrapped))]
fn wrap_owned<'t, A: Allocator + Copy>(alloc: A, text: String<A>, width: usize) -> AnsiWrap<'t, A>
    ensures lines { result ≡ lent_lines false (wrapped (string_bytes text) width) }
    ensures utf8 { IsUtf8 (string_bytes text) }
{
    match own_paragraph(alloc, text.as_str()) {
        Ok(Some(paragraph)) => AnsiWrap::over(alloc, CowStr::Owned(paragraph), None, width),
        Ok(None) => AnsiWrap::over(alloc, CowStr::Owned(text), None, width),
        Err(e) => AnsiWrap::over(alloc, CowStr::Owned(text), Some(e), width),
    }
}

/// The paragraph of a text, or `None` if the text is its own.
fn own_paragraph<A: Allocator>(alloc: A, text: &str) -> Result<Option<String<A>>, AllocError>
    ensures made { IfOk result (λ o. IfSome o (λ s. string_bytes s ≡ paragraph text.now)) }
    ensures itself { IfOk result (λ o. IfNone o (paragraph text.now ≡ text.now)) }
    ensures utf8 { IsUtf8 text.now }
{
    match paragraph_of(alloc, text)? {
        CowStr::Borrowed(_) => Ok(None),
        CowStr::Owned(paragraph) => Ok(Some(paragraph)),
    }
}

impl<'t, A: Allocator + Copy> AnsiWrap<'t, A> {
    ghost use Rattle.std.specs.Prelude.{◌≡◌, []};
    ghost use Rattle.ansi_cells.specs.Wrapped.{lent_lines, lines_of};
    ghost use Rattle.ansi_wraps.specs.WrapStates.{shown_text, is_lent};

    /// The lines of this text. If `failure` is why it has no paragraph, there is only that `Err`.
    fn over(alloc: A, text: CowStr<'t, A>, failure: Option<AllocError>, width: usize) -> Self
        ensures { result ≡ lent_lines (is_lent text.entry failure)
            (lines_of (shown_text text.entry failure) width) }
    {
        let spans = match &failure {
            None => Spans::new(text.as_str(), width),
            Some(_) => Spans::unread(text.as_str(), width),
        };
        AnsiWrap {
            alloc,
            text,
            failure,
            spans,
        }
    }

    /// The lines of the caller's text that these spans have left.
    fn lent(alloc: A, text: &'t str, spans: Spans) -> Self
        requires { AreSpans text.now spans }
        ensures { result ≡ lent_lines true (span_lines text.now spans) }
    {
        AnsiWrap {
            alloc,
            text: CowStr::Borrowed(text),
            failure: None,
            spans,
        }
    }

    /// Leaves no lines.
    fn finish(&mut self)
        ensures { self.new ≡ [] }
    {
        self.failure = None;
        self.spans.finish();
    }
}

impl<'t, A: Allocator + Copy> Iterator for AnsiWrap<'t, A> {
    ghost use Rattle.std.specs.Iterator.{item_count};
    ghost use Rattle.ansi_cells.specs.Wrapped.{GivesLine};

    type Item = Result<CowStr<'t, A>, AllocError>;

    ghost next_gives = { GivesLine };

    ghost remaining = { item_count (λ s. s) };

    /// The next line. `None` after the last line and after an `Err`, then and ever after.
    fn next(&mut self) -> Option<Result<CowStr<'t, A>, AllocError>> {
        if let Some(e) = self.failure.take() {
            self.spans.finish();
            return Some(Err(e));
        }
        match &self.text {
            CowStr::Borrowed(text) => given_line(self.alloc, *text, &mut self.spans),
            CowStr::Owned(text) => cleaned_line(self.alloc, text.as_str(), &mut self.spans),
        }
    }
}

#[tactic(auto, using(ansi_style::proofs::FrontLemmas::begins_itself))]
impl<'t, A: Allocator> PushNext for AnsiWrap<'t, A> {
    ghost left = { λ lines. lines };

    fn push_next<B: Allocator>(&mut self, out: &mut String<B>) -> Option<Result<(), AllocError>> {
        if let Some(e) = self.failure.take() {
            self.spans.finish();
            return Some(Err(e));
        }
        match self.spans.next(self.text.as_str())?.push_to(out) {
            Ok(()) => Some(Ok(())),
            Err(e) => {
                self.spans.finish();
                Some(Err(e))
            }
        }
    }
}

/// Whether a line is left, or an `Err`. Doesn't allocate. (Own.)
///
/// ```
/// let mut lines = wrap(rt.alloc(), "lion", 5);
/// assert!(rt; has_next(&lines));
/// assert!(rt; matches!(&lines.next(), Some(Ok(_))));
/// assert!(rt; !has_next(&lines));
/// ```
pub fn has_next<A: Allocator>(lines: &AnsiWrap<'_, A>) -> bool
    ensures { IsFalse result ↔ (lines.now ≡ []) }
{
    // Until its failure is returned, it has spans left.
    lines.spans.has_next()
}

/// The paragraph that is wrapped and the style at its end, if the only line that is left is known to be
/// all of it, which needs nothing but that style's close. `None` says nothing. Doesn't allocate. (Own.)
///
/// ```
/// let lines = wrap(rt.alloc(), "\x1b[1mlion", 5);
/// assert!(rt; matches!(only_line(&lines), Some((text, style)) if text.len() == 8 && style.is_bold()));
/// ```
pub fn only_line<'a, A: Allocator>(lines: &'a AnsiWrap<'_, A>) -> Option<(&'a str, Style)>
    ensures { IfSome result (λ (text, style). map (λ l. l.bytes) lines.now
        ≡ (text.now ++ close (rendition_of style)) ∷ []) }
{
    let None = &lines.failure else {
        return None;
    };
    Some((lines.text.as_str(), lines.spans.only_style()?))
}

/// The next line of the caller's text.
fn given_line<'t, A: Allocator>(
    alloc: A,
    text: &'t str,
    spans: &mut Spans,
) -> Option<Result<CowStr<'t, A>, AllocError>>
    requires { AreSpans text.now spans.old }
    ensures spans { AreSpans text.now spans.new }
    ensures line { GivesLine (span_lines text.now spans.old) result (span_lines text.now spans.new) }
{
    match spans.next(text)?.write(alloc) {
        Ok(line) => Some(Ok(line)),
        Err(e) => {
            spans.finish();
            Some(Err(e))
        }
    }
}

/// The next line of a text that isn't the caller's. It is always owned.
fn cleaned_line<'t, A: Allocator + Copy>(
    alloc: A,
    text: &str,
    spans: &mut Spans,
) -> Option<Result<CowStr<'t, A>, AllocError>>
    requires { AreSpans text.now spans.old }
    ensures spans { AreSpans text.now spans.new }
    ensures line { GivesLine (lent_lines false (span_lines text.now spans.old)) result
        (lent_lines false (span_lines text.now spans.new)) }
{
    match spans.next(text)?.write_owned(alloc) {
        Ok(line) => Some(Ok(CowStr::Owned(line))),
        Err(e) => {
            spans.finish();
            Some(Err(e))
        }
    }
}
