//! The words that the program is given.
ghost use Rattle.std.specs.Prelude.{◌≡◌, IfOk};
ghost use Rattle.std.specs.Option.{option_map};
ghost use Rattle.ansi_str.specs.Edits.{change_of};
ghost use Rattle.ansi_lines_runs.specs.Jobs.{work_of};
ghost use Rattle.ansi_lines_runs.specs.Runs.{words_of};
ghost use Rattle.ansi_lines_runs.specs.Words.{Changed, change_asked, change_named, changes_asked};
ghost use Rattle.ansi_lines_runs.specs.Words.{cut_of, end_of, field_number, part_of, work_asked};

use ansi_str::Edit;
use std::alloc::{AllocError, Allocator};

/// What a run does to each line.
#[derive(Drop)]
pub enum Job<'w, A: Allocator> {
    /// The line is written without its sequences.
    Strip,
    /// The line is edited. Each edit takes the result of the one before. The patterns are borrowed
    /// from the words.
    Edits(Vec<Edit<'w>, A>),
}

/// What the words ask for, or `None` if they are bad.
///
/// It allocates the list of edits. `Err` means that memory has run out.
///
/// ```
/// assert!(parse(alloc, &[])?.is_none());
/// ```
#[tactic(auto, unfolding(crate::specs::Words::work_asked))]
pub fn parse<'w, A: Allocator>(
    alloc: A,
    words: &'w [String],
) -> Result<Option<Job<'w, A>>, AllocError>
    ensures { IfOk result (λ job. option_map work_of job ≡ work_asked (words_of words.now)) }
{
    match words {
        [] => Ok(None),
        [word] if word.as_str() == "strip" => Ok(Some(Job::Strip)),
        _ => parse_edits(alloc, words),
    }
}

// The edits that the words ask for, in order, or `None` if a word asks for none.
fn parse_edits<'w, A: Allocator>(
    alloc: A,
    words: &'w [String],
) -> Result<Option<Job<'w, A>>, AllocError>
    ensures { IfOk result (λ job.
        option_map work_of job ≡ option_map Changed (changes_asked (words_of words.now))) }
{
    let mut edits = Vec::new(alloc);
    for word in words {
        let Some(edit) = parse_edit(word.as_str()) else {
            return Ok(None);
        };
        edits.push(edit)?;
    }
    Ok(Some(Job::Edits(edits)))
}

// The edit that a word asks for.
fn parse_edit(word: &str) -> Option<Edit<'_>>
    ensures { option_map change_of result ≡ change_asked word.now }
{
    if word == "trim" {
        return Some(Edit::Trim);
    }
    let (name, field) = word.split_once(':')?;
    parse_named(name, field)
}

// The edit of this name. The field is the text after the name's colon.
fn parse_named<'w>(name: &str, field: &'w str) -> Option<Edit<'w>>
    ensures { option_map change_of result ≡ change_named name.now field.now }
{
    match name {
        "cut" => parse_cut(field),
        "left" => Some(Edit::Left(parse_number(field)?)),
        "right" => Some(Edit::Right(parse_number(field)?)),
        "part" => parse_part(field),
        "prefix" => Some(Edit::Prefix(field)),
        "suffix" => Some(Edit::Suffix(field)),
        _ => None,
    }
}

// The cut with this start and this end: `START:END`.
fn parse_cut(fields: &str) -> Option<Edit<'_>>
    ensures { option_map change_of result ≡ cut_of fields.now }
{
    let (start, end) = fields.split_once(':')?;
    let start = parse_number(start)?;
    let end = parse_end(end)?;
    Some(Edit::Cut { start, end })
}

// The part with this index and this pattern: `INDEX:PATTERN`. The pattern may contain colons.
fn parse_part(fields: &str) -> Option<Edit<'_>>
    ensures { option_map change_of result ≡ part_of fields.now }
{
    let (index, pat) = fields.split_once(':')?;
    let index = parse_number(index)?;
    Some(Edit::Part { pat, index })
}

/// The end of a range, as a field writes it: `Some(None)` for an empty field, which is no end, and
/// `None` if it is neither empty nor a number. Doesn't allocate. (Own.)
///
/// ```
/// assert!(parse_end("") == Some(None));
/// ```
pub fn parse_end(field: &str) -> Option<Option<usize>>
    ensures { result ≡ end_of field.now }
{
    if field.is_empty() {
        return Some(None);
    }
    Some(Some(parse_number(field)?))
}

/// The number that a field writes in digits, or `None` if it has another byte or none, or the number
/// doesn't fit `usize`. std also accepts a plus in front, which isn't allowed here. Doesn't
/// allocate. (Own.)
///
/// ```
/// assert!(parse_number("007") == Some(7) && parse_number("+7").is_none());
/// ```
pub fn parse_number(field: &str) -> Option<usize>
    ensures { result ≡ field_number field.now }
{
    if field.starts_with('+') {
        return None;
    }
    field.parse().ok()
}
