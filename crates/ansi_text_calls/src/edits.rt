//! The call for lists of edits, each applied to the result of the one before.
ghost use Rattle.std.specs.Prelude.{◌≡◌, map, option_map, IsTrue, IsOk, IfOk};
ghost use Rattle.std.specs.List.{list_all};
ghost use Rattle.std.specs.Str.{is_utf8};
ghost use Rattle.std.specs.Cow.{cow_str_bytes};
ghost use Rattle.ansi_str.specs.Edited.{edited, stay_borrowed};
ghost use Rattle.ansi_str.specs.Edits.{change_of};
ghost use Rattle.ansi_text_calls.specs.Steps.{change_of_step, patterns_of};
ghost use Rattle.ansi_text_calls.specs.Calls.{Edits};

use crate::answers::{Answer, NOT_UTF8, REFUSED, write_found};
use ansi_safe::utf8::from_utf8;
use ansi_str::Edit;
use ansi_str::edits::edit_once;
use std::alloc::{AllocError, Allocator};
use std::borrow::CowStr;
use std::str::from_utf8_unchecked;

const CUT: u32 = 0;

const LEFT: u32 = 1;

const RIGHT: u32 = 2;

const PART: u32 = 3;

const PREFIX: u32 = 4;

const SUFFIX: u32 = 5;

const TRIM: u32 = 6;

/// One edit of a text: its kind, two numbers and a pattern. The kind says which of these it uses.
#[repr(C)]
#[derive(Clone, Copy)]
pub struct EditStep<'a> {
    pub kind: u32,
    pub first: usize,
    pub second: usize,
    pub pattern: &'a [u8],
}

/// The text after all steps, each applied to the result of the one before.
pub fn edit_text<A: Allocator + Copy>(
    alloc: A,
    text: &[u8],
    steps: &[EditStep<'_>],
    buffer: &mut [u8],
) -> Answer
    ensures { Edits text.now steps.now result buffer.old buffer.new }
{
    let Ok(text) = from_utf8(text) else {
        return Answer::failed(NOT_UTF8);
    };
    if !are_patterns_utf8(steps) {
        return Answer::failed(NOT_UTF8);
    }
    write_found(edit_in_turn(alloc, text, steps), REFUSED, buffer)
}

/// Whether the pattern of each step is UTF-8.
fn are_patterns_utf8(steps: &[EditStep<'_>]) -> bool
    ensures { result ≡ list_all is_utf8 (patterns_of steps.now) }
{
    for step in steps {
        let Ok(_) = from_utf8(step.pattern) else {
            return false;
        };
    }
    true
}

/// The text after all steps, each applied to the result of the one before. `None` if a step is
/// refused.
fn edit_in_turn<'t, A: Allocator + Copy>(
    alloc: A,
    text: &'t str,
    steps: &[EditStep<'_>],
) -> Result<Option<CowStr<'t, A>>, AllocError>
    requires { IsTrue (list_all is_utf8 (patterns_of steps.now)) }
    ensures bytes { IfOk result (λ o.
        option_map cow_str_bytes o ≡ edited (map change_of_step steps.now) text.now) }
    ensures takes_no_memory { IsTrue (stay_borrowed (map change_of_step steps.now) text.now) →
        IsOk result }
{
    let mut edited = CowStr::Borrowed(text);
    for step in steps {
        let pat = unsafe { from_utf8_unchecked(step.pattern) };
        match edit_once(alloc, edited, edit_of(step, pat))? {
            Some(next) => edited = next,
            None => return Ok(None),
        }
    }
    Ok(Some(edited))
}

/// The edit of a step. A step of an unknown kind becomes a range that every text refuses.
fn edit_of<'a>(step: &EditStep<'_>, pat: &'a str) -> Edit<'a>
    requires { pat.now ≡ step.now.pattern.now }
    ensures { change_of result ≡ change_of_step step.now }
{
    match step.kind {
        CUT => Edit::Cut {
            start: step.first,
            end: Some(step.second),
        },
        LEFT => Edit::Left(step.first),
        RIGHT => Edit::Right(step.first),
        PART => Edit::Part {
            pat,
            index: step.first,
        },
        PREFIX => Edit::Prefix(pat),
        SUFFIX => Edit::Suffix(pat),
        TRIM => Edit::Trim,
        _ => Edit::Cut {
            start: 1,
            end: Some(0),
        },
    }
}
