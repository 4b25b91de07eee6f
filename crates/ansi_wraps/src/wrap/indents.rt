//! Wrapped lines with an indent before each.
ghost use Rattle.std.specs.Prelude.{◌≡◌, ◌↔◌, ◌+◌, ◌++◌, [], map, All, IsTrue, IsFalse};
ghost use Rattle.std.specs.Prelude.{IsOk, IfOk, OnOk, OnErr, string_bytes};
ghost use Rattle.std.specs.Cow.{cow_str_bytes};
ghost use Rattle.std.specs.List.{list_all};
ghost use Rattle.std.specs.Str.{IsUtf8};
ghost use Rattle.ansi_items.specs.Plain.{plain, has_escape};
ghost use Rattle.ansi_style.specs.Written.{longest_start_and_close};
ghost use Rattle.ansi_safe.specs.Cells.{cell, paragraph};
ghost use Rattle.ansi_safe.specs.Links.{longest_link_end, IsClosed};
ghost use Rattle.ansi_safe.specs.Safe.{is_safe};
ghost use Rattle.ansi_safe.specs.declared.policy.Links.TheVariants.{Keep};
ghost use Rattle.ansi_cells.specs.OneLine.{is_one_line};
ghost use Rattle.ansi_split.specs.Splits.{CarriedPart, IsCarriedPart};
ghost use Rattle.ansi_clusters.specs.Columns.{columns};
ghost use Rattle.ansi_cells.specs.Indents.{shown_indent, after_indent, wrapped_with, IsWrappedWith};
ghost use Rattle.ansi_cells.specs.Rows.{indented_screens};
ghost use Rattle.ansi_cells.specs.Screens.{screen};
ghost use Rattle.ansi_cells.specs.Wrapped.{lent_lines};
ghost use Rattle.ansi_wraps.specs.WrapStates.{lends};

use crate::wrap::{AnsiWrap, PushNext, has_next, wrap, wrap_cow};
use ansi_cells::shown::closed_cell;
use ansi_cells::widths;
use ansi_clusters::views::View;
use std::alloc::{AllocError, Allocator, Global};
use std::borrow::CowStr;
use std::marker::Model;

/// How a text is wrapped: at how many columns, and with what before its lines.
///
/// ```
/// let mut lines = String::new(rt.alloc());
/// let to = Wrap::at(8).first_indent("* ").indent("  ");
/// for line in "lion tiger".ansi_wrap_with(rt.alloc(), &to) {
///     lines.push_str(line?.as_str())?;
///     lines.push('\n')?;
/// }
/// assert!(rt; lines.as_str() == "* lion\n  tiger\n");
/// ```
#[derive(Clone, Copy)]
pub struct Wrap<'a> {
    /// The greatest width of a line with its indent, in columns.
    pub width: usize,
    /// What is written before the first line.
    pub first_indent: &'a str,
    /// What is written before each later line.
    pub indent: &'a str,
}

impl<'a> Wrap<'a> {
    ghost use Rattle.std.specs.Prelude.{◌≡◌, []};
    ghost use Rattle.std.specs.Str.{IsUtf8};
    ghost use Rattle.ansi_cells.specs.Indents.{text_width};

    /// Wrapping at `width` columns, without an indent.
    pub fn at(width: usize) -> Self
        ensures width { result.width ≡ width }
        ensures first_indent { result.first_indent.now ≡ [] }
        ensures indent { result.indent.now ≡ [] }
    {
        Wrap {
            width,
            first_indent: "",
            indent: "",
        }
    }

    /// The same with this indent before the first line.
    pub fn first_indent(self, indent: &'a str) -> Self
        ensures { result ≡ record self.entry { first_indent = indent.entry } }
    {
        Wrap {
            first_indent: indent,
            ..self
        }
    }

    /// The same with this indent before each later line.
    pub fn indent(self, indent: &'a str) -> Self
        ensures { result ≡ record self.entry { indent = indent.entry } }
    {
        Wrap { indent, ..self }
    }

    /// The columns that the wider of both indents leaves.
    fn text_width(&self) -> usize
        ensures width { result
            ≡ text_width self.now.width self.now.first_indent.now self.now.indent.now }
        ensures first { IsUtf8 self.now.first_indent.now }
        ensures later { IsUtf8 self.now.indent.now }
    {
        let first = indent_width(self.first_indent);
        let later = indent_width(self.indent);
        self.width.saturating_sub(first.max(later))
    }
}

/// The columns of an indent, which is a text.
fn indent_width(indent: &str) -> usize
    ensures columns { result ≡ columns (plain (cell indent.now)) }
    ensures utf8 { IsUtf8 indent.now }
{
    if indent.is_empty() {
        return 0;
    }
    widths::width(indent, View::Shown)
}

/// The lines of a wrapped text with their indents, in order: the iterator that
/// `AnsiColumns::ansi_wrap_with` returns.
///
/// A line without an indent is that of `AnsiWrap`, and any other is owned. `Err` means out of
/// memory. After an `Err`, as after the last line, `next` always returns `None`. A line lives as
/// long as the text and may outlive the iterator and the indents. (Own.)
#[derive(Drop)]
pub struct AnsiWrapWith<'t, 'a, A: Allocator = Global> {
    alloc: A,
    lines: AnsiWrap<'t, A>,
    /// What is written before the next line.
    next_indent: &'a str,
    /// What is written before each line after it.
    indent: &'a str,
}

impl<'t, 'a, A: Allocator> Model for AnsiWrapWith<'t, 'a, A> {
    ghost use Rattle.std.specs.Prelude.{List};
    ghost use Rattle.ansi_cells.specs.Wrapped.{CarriedPart};
    ghost use Rattle.ansi_cells.specs.Indents.{indented};

    ghost Value = { List CarriedPart };

    ghost view = { λ s. indented s.next_indent.now s.indent.now s.lines };
}

/// Like `AnsiColumns::ansi_wrap_with`, with any allocator. The lines may borrow from the text and
/// live as long as it.
///
/// ```
/// let to = Wrap::at(8).first_indent("\x1b[1m* ").indent("  ");
/// let first = wrap_with(rt.alloc(), "lion tiger", &to).next();
/// assert!(rt; matches!(&first, Some(Ok(line)) if line.as_str() == "\x1b[1m* \x1b[22mlion"));
/// ```
pub fn wrap_with<'t, 'a, A: Allocator + Copy>(
    alloc: A,
    text: &'t str,
    to: &Wrap<'a>,
) -> AnsiWrapWith<'t, 'a, A>
    ensures first_fit { IsWrappedWith text.now to.now.width to.now.first_indent.now
        to.now.indent.now result }
    ensures lines { result ≡ wrapped_with text.now to.now.width to.now.first_indent.now
        to.now.indent.now }
    ensures safe { All (λ l. IsTrue (is_safe Keep l.bytes)) result }
    ensures one_line { All (λ l. IsTrue (is_one_line l.bytes)) result }
    ensures closed { All (λ l. IsClosed l.bytes) result }
    ensures screen { map (λ l. screen l.bytes) result ≡ indented_screens text.now to.now.width
        to.now.first_indent.now to.now.indent.now }
    ensures takes_no_memory { paragraph text.now ≡ text.now → IsFalse (has_escape text.now) →
        to.now.first_indent.now ≡ [] → to.now.indent.now ≡ [] →
        IsTrue (list_all (λ l. l.borrowed) result) }
{
    AnsiWrapWith {
        alloc,
        lines: wrap(alloc, text, to.text_width()),
        next_indent: to.first_indent,
        indent: to.indent,
    }
}

/// Like `wrap_with`, of a text that may be owned. Then no line borrows.
pub fn wrap_edited<'t, 'a, A: Allocator + Copy>(
    alloc: A,
    text: CowStr<'t, A>,
    to: &Wrap<'a>,
) -> AnsiWrapWith<'t, 'a, A>
    ensures lines { result ≡ lent_lines (lends text.entry) (wrapped_with (cow_str_bytes text.entry)
        to.now.width to.now.first_indent.now to.now.indent.now) }
    ensures utf8 { IsUtf8 (cow_str_bytes text.entry) }
    ensures first { IsUtf8 to.now.first_indent.now }
    ensures later { IsUtf8 to.now.indent.now }
{
    AnsiWrapWith {
        alloc,
        lines: wrap_cow(alloc, text, to.text_width()),
        next_indent: to.first_indent,
        indent: to.indent,
    }
}

/// Like [`has_next`], of lines with indents. (Own.)
pub fn has_next_with<A: Allocator>(lines: &AnsiWrapWith<'_, '_, A>) -> bool
    ensures { IsFalse result ↔ (lines.now ≡ []) }
{
    has_next(&lines.lines)
}

impl<'t, 'a, A: Allocator + Copy> Iterator for AnsiWrapWith<'t, 'a, A> {
    ghost use Rattle.std.specs.Iterator.{item_count};
    ghost use Rattle.ansi_cells.specs.Wrapped.{GivesLine};

    type Item = Result<CowStr<'t, A>, AllocError>;

    ghost next_gives = { GivesLine };

    ghost remaining = { item_count (λ s. s) };

    /// The next line. `None` after the last line and after an `Err`, then and ever after.
    fn next(&mut self) -> Option<Result<CowStr<'t, A>, AllocError>> {
        let line = match self.lines.next()? {
            Ok(line) => line,
            Err(e) => return Some(Err(e)),
        };
        let indent = self.next_indent;
        self.next_indent = self.indent;
        match after_indent(self.alloc, indent, line) {
            Ok(line) => Some(Ok(line)),
            Err(e) => {
                self.lines.finish();
                Some(Err(e))
            }
        }
    }
}

impl<'t, 'a, A: Allocator + Copy> PushNext for AnsiWrapWith<'t, 'a, A> {
    ghost left = { λ lines. lines };

    fn push_next<B: Allocator>(&mut self, out: &mut String<B>) -> Option<Result<(), AllocError>> {
        if !has_next(&self.lines) {
            return None;
        }
        let (indent, later) = (self.next_indent, self.indent);
        self.next_indent = later;
        if let Err(e) = push_indent(self.alloc, indent, out) {
            self.lines.finish();
            return Some(Err(e));
        }
        self.lines.push_next(out)
    }
}

/// Appends an indent, which is shown as a text of its own. `Err` means out of memory, and then
/// nothing is appended.
fn push_indent<A: Allocator + Copy, B: Allocator>(
    alloc: A,
    indent: &str,
    out: &mut String<B>,
) -> Result<(), AllocError>
    ensures bytes { OnOk result
        (string_bytes out.new ≡ string_bytes out.old ++ shown_indent indent.now) }
    ensures kept { OnErr result (string_bytes out.new ≡ string_bytes out.old) }
{
    if indent.is_empty() {
        return Ok(());
    }
    // An indent that has to be changed or closed is made with the allocator of the lines.
    let shown = closed_cell(alloc, indent)?;
    out.push_str(shown.as_str())
}

/// A line after an indent, which is shown as a text of its own. It is the line itself if there is
/// no indent.
fn after_indent<'t, A: Allocator + Copy>(
    alloc: A,
    indent: &str,
    line: CowStr<'t, A>,
) -> Result<CowStr<'t, A>, AllocError>
    ensures line { (l : CarriedPart) →
        IsCarriedPart (longest_start_and_close + longest_link_end) l line.entry →
        IfOk result (IsCarriedPart (longest_start_and_close + longest_link_end)
        (after_indent indent.now l)) }
    ensures takes_no_memory { indent.now ≡ [] → IsOk result }
{
    if indent.is_empty() {
        return Ok(line);
    }
    let indent = closed_cell(alloc, indent)?;
    let mut out = String::with_capacity(alloc, indent.len().saturating_add(line.len()))?;
    out.push_str(indent.as_str())?;
    out.push_str(line.as_str())?;
    Ok(CowStr::Owned(out))
}
