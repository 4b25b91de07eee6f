//! The call for lists of edits by columns, each made on the result of the one before.
ghost use Rattle.std.specs.Prelude.{◌≡◌, option_map, IsTrue, IfOk};
ghost use Rattle.std.specs.List.{list_all};
ghost use Rattle.std.specs.Str.{is_utf8};
ghost use Rattle.ansi_columns.specs.Edits.{change_of, changes_of};
ghost use Rattle.ansi_calls.specs.ColumnSteps.{change_of_step, changes_of_steps, tails_of};
ghost use Rattle.ansi_calls.specs.ColumnSteps.{EditsColumns, GivesColumnsEdited};

use crate::columns::{alignment_of, side_of};
use ansi_columns::edits::ColumnEdit;
use ansi_safe::utf8::from_utf8;
use ansi_text_calls::answers::{Answer, NOT_UTF8, OUT_OF_MEMORY, REFUSED, write_text};
use std::alloc::{AllocError, Allocator};
use std::str::from_utf8_unchecked;

const EXPAND: u32 = 0;

const SLICE: u32 = 1;

const TRUNCATE: u32 = 2;

const PAD: u32 = 3;

const FIT: u32 = 4;

/// One edit by columns: its kind, an alignment or a side, two numbers and a tail. The kind says
/// which of these it uses.
#[repr(C)]
#[derive(Clone, Copy)]
pub struct ColumnStep<'a> {
    pub kind: u32,
    pub place: u32,
    pub first: usize,
    pub second: usize,
    pub tail: &'a [u8],
}

/// The text after all steps, each made on the result of the one before. The call is refused if there
/// is no such kind, alignment or side.
pub fn edit_columns<A: Allocator + Copy>(
    alloc: A,
    text: &[u8],
    steps: &[ColumnStep<'_>],
    buffer: &mut [u8],
) -> Answer
    ensures { EditsColumns text.now steps.now result buffer.old buffer.new }
{
    let Ok(text) = from_utf8(text) else {
        return Answer::failed(NOT_UTF8);
    };
    if !are_tails_utf8(steps) {
        return Answer::failed(NOT_UTF8);
    }
    edit_text(alloc, text, steps, buffer)
}

/// Whether the tail of each step is UTF-8.
fn are_tails_utf8(steps: &[ColumnStep<'_>]) -> bool
    ensures { result ≡ list_all is_utf8 (tails_of steps.now) }
{
    for step in steps {
        let Ok(_) = from_utf8(step.tail) else {
            return false;
        };
    }
    true
}

/// The same for texts that are known to be UTF-8.
#[tactic(auto, unfolding(crate::specs::ColumnSteps::GivesColumnsEdited))]
fn edit_text<A: Allocator + Copy>(
    alloc: A,
    text: &str,
    steps: &[ColumnStep<'_>],
    buffer: &mut [u8],
) -> Answer
    requires { IsTrue (list_all is_utf8 (tails_of steps.now)) }
    ensures { GivesColumnsEdited text.now steps.now result buffer.old buffer.new }
{
    match edits_of(alloc, steps) {
        Ok(Some(edits)) => {
            let edited = ansi_columns::edits::edit_columns(alloc, text, edits.as_slice());
            write_text(edited, buffer)
        }
        Ok(None) => Answer::failed(REFUSED),
        Err(_) => Answer::failed(OUT_OF_MEMORY),
    }
}

/// The edits of steps. `None` if a step is none.
fn edits_of<'a, A: Allocator>(
    alloc: A,
    steps: &[ColumnStep<'a>],
) -> Result<Option<Vec<ColumnEdit<'a>, A>>, AllocError>
    requires { IsTrue (list_all is_utf8 (tails_of steps.now)) }
    ensures { IfOk result (λ o.
        option_map (λ v. changes_of v.items) o ≡ changes_of_steps steps.now) }
{
    let mut edits = Vec::new(alloc);
    for step in steps {
        let tail = unsafe { from_utf8_unchecked(step.tail) };
        match edit_of(step, tail) {
            Some(edit) => edits.push(edit)?,
            None => return Ok(None),
        }
    }
    Ok(Some(edits))
}

/// The edit of a step with this tail. `None` if there is no such kind, alignment or side.
fn edit_of<'a>(step: &ColumnStep<'_>, tail: &'a str) -> Option<ColumnEdit<'a>>
    requires { tail.now ≡ step.now.tail.now }
    ensures { option_map change_of result ≡ change_of_step step.now }
{
    let width = step.first;
    match step.kind {
        EXPAND => Some(ColumnEdit::Expand(width)),
        SLICE => Some(ColumnEdit::Slice {
            start: step.first,
            end: Some(step.second),
        }),
        TRUNCATE => {
            let side = side_of(step.place)?;
            Some(ColumnEdit::Truncate { width, tail, side })
        }
        PAD => {
            let alignment = alignment_of(step.place)?;
            Some(ColumnEdit::Pad { width, alignment })
        }
        FIT => {
            let alignment = alignment_of(step.place)?;
            Some(ColumnEdit::Fit {
                width,
                alignment,
                tail,
            })
        }
        _ => None,
    }
}
