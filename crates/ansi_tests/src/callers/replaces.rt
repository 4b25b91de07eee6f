//! Callers of `ansi_restyle`: a text with another in place of a part, or put in.
ghost use Rattle.std.specs.Prelude.{◌&&◌, IfOk, IfSome, IsTrue};
ghost use Rattle.std.specs.Cow.{cow_str_bytes};
ghost use Rattle.ansi_str.specs.Plain.{is_whole};
ghost use Rattle.ansi_restyle.specs.Replaced.{IsReplaced};

use ansi_restyle::replace::{insert_in, replace_in};
use std::alloc::{AllocError, Global};
use std::borrow::CowStr;

/// A line with a range of it written otherwise.
pub fn corrected<'t>(
    alloc: Global,
    line: &'t str,
    range: (usize, usize),
    right: &str,
) -> Result<Option<CowStr<'t>>, AllocError>
    ensures { IsTrue (is_whole line.now && is_whole right.now) → IfOk result (λ o.
        IfSome o (λ c. IsReplaced line.now range.0 range.1 right.now (cow_str_bytes c))) }
{
    replace_in(alloc, line, range, right)
}

/// A line with a word more.
pub fn completed<'t>(
    alloc: Global,
    line: &'t str,
    position: usize,
    word: &str,
) -> Result<Option<CowStr<'t>>, AllocError>
    ensures { IsTrue (is_whole line.now && is_whole word.now) → IfOk result (λ o.
        IfSome o (λ c. IsReplaced line.now position position word.now (cow_str_bytes c))) }
{
    insert_in(alloc, line, position, word)
}
