//! The words that the program is given.
ghost use Rattle.std.specs.Prelude.{◌≡◌, IfOk, MatchResult, None, Some};
ghost use Rattle.std.specs.Option.{option_map};
ghost use Rattle.ansi_lines_runs.specs.Runs.{words_of};
ghost use Rattle.ansi_view_runs.specs.Edits.{change_of};
ghost use Rattle.ansi_view_runs.specs.Jobs.{work_of};
ghost use Rattle.ansi_view_runs.specs.Words.{bad_word, change_asked, change_named, slice_of};
ghost use Rattle.ansi_view_runs.specs.Words.{padded_to, truncate_of, work_named};

use crate::edits::LineEdit;
use crate::view::{Job, View};
use ansi_columns::{Alignment, ColumnEdit, Side};
use ansi_lines_runs::words::{parse_end, parse_number};
use ansi_safe::policy::{Links, Policy, Rest};
use std::alloc::{AllocError, Allocator};

/// What the words name: the tails of edits are as they are given. The inner `Err` is the first bad word, the outer `Err` means that memory
/// has run out.
///
/// ```
/// let quiet = parse(alloc, &[])?;
/// assert!(quiet.is_ok());
/// ```
pub fn parse<'w, A: Allocator>(
    alloc: A,
    words: &'w [String],
) -> Result<Result<Job<'w, A>, &'w str>, AllocError>
    ensures { IfOk result (λ parsed. MatchResult parsed
        (λ job. (bad_word (words_of words.now) ≡ None)
        × (work_of job ≡ work_named (words_of words.now)))
        (λ word. bad_word (words_of words.now) ≡ Some word.now)) }
{
    let mut policy = Policy {
        rest: Rest::Drop,
        links: Links::Remove,
    };
    let mut plain = false;
    let mut edits = Vec::new(alloc);
    for word in words {
        match word.as_str() {
            "show" => policy.rest = Rest::Show,
            "links" => policy.links = Links::Keep,
            "plain" => plain = true,
            word => match parse_edit(word) {
                Some(edit) => edits.push(edit)?,
                None => return Ok(Err(word)),
            },
        }
    }
    let view = View { policy, plain };
    Ok(Ok(Job { view, edits }))
}

// The edit that a word asks for.
fn parse_edit(word: &str) -> Option<LineEdit<'_>>
    ensures { option_map change_of result ≡ change_asked word.now }
{
    let (name, field) = word.split_once(':')?;
    parse_named(name, field)
}

// The edit of this name. The field is the text after the name's colon.
fn parse_named<'w>(name: &str, field: &'w str) -> Option<LineEdit<'w>>
    ensures { option_map change_of result ≡ change_named name.now field.now }
{
    match name {
        "expand" => Some(LineEdit::Columns(ColumnEdit::Expand(parse_number(field)?))),
        "slice" => parse_slice(field),
        "truncate" => parse_truncate(field),
        "pad" => Some(left_pad(parse_number(field)?)),
        "wrap" => Some(LineEdit::Wrap(parse_number(field)?)),
        _ => None,
    }
}

// The slice with this start and this end: `A:B`.
fn parse_slice(fields: &str) -> Option<LineEdit<'_>>
    ensures { option_map change_of result ≡ slice_of fields.now }
{
    let (start, end) = fields.split_once(':')?;
    let start = parse_number(start)?;
    let end = parse_end(end)?;
    Some(LineEdit::Columns(ColumnEdit::Slice { start, end }))
}

// The truncation to this width, with this tail: `N`, or `N:TAIL`. The tail may contain colons.
fn parse_truncate(fields: &str) -> Option<LineEdit<'_>>
    ensures { option_map change_of result ≡ truncate_of fields.now }
{
    let (width, tail) = fields.split_once(':').unwrap_or((fields, ""));
    let width = parse_number(width)?;
    let cut = ColumnEdit::Truncate {
        width,
        tail,
        side: Side::End,
    };
    Some(LineEdit::Columns(cut))
}

// The padding to this width: blanks follow the text.
fn left_pad<'w>(width: usize) -> LineEdit<'w>
    ensures { change_of result ≡ padded_to width }
{
    LineEdit::Columns(ColumnEdit::Pad {
        width,
        alignment: Alignment::Left,
    })
}
