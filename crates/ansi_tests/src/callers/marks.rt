//! A caller of `ansi_restyle`: a line with each match of a word marked.
ghost use Rattle.std.specs.Prelude.{IfOk, IfSome, IsTrue};
ghost use Rattle.std.specs.Cow.{cow_str_bytes};
ghost use Rattle.ansi_str.specs.Plain.{plain, is_whole};
ghost use Rattle.ansi_str.specs.Written.{written};
ghost use Rattle.ansi_restyle.specs.Matches.{matches};
ghost use Rattle.ansi_restyle.specs.Restyled.{IsRestyled};

use ansi_restyle::restyle::mark_in;
use std::alloc::{AllocError, Global};
use std::borrow::CowStr;

/// A line with each match of a word in inverse.
pub fn marked<'t>(
    alloc: Global,
    line: &'t str,
    word: &str,
    codes: &str,
) -> Result<Option<CowStr<'t>>, AllocError>
    ensures { IsTrue (is_whole line.now) → IfOk result (λ o. IfSome o (λ c.
        IsRestyled line.now (written codes.now) (matches (plain line.now) word.now) (cow_str_bytes c))) }
{
    mark_in(alloc, line, word, codes)
}
