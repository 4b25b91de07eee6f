//! A caller of a law: what is known of a result that is read as a text again.
ghost use Rattle.std.specs.Prelude.{◌≡◌, IsTrue, IfOk, IfSome};
ghost use Rattle.std.specs.Cow.{cow_str_bytes};
ghost use Rattle.ansi_str.specs.Plain.{is_whole};
ghost use Rattle.ansi_str.specs.Rendition.{plain_style};
ghost use Rattle.ansi_str.specs.Styled.{residue};

use ansi_str::laws;
use ansi_str::slice::get_in;
use std::alloc::{AllocError, Global};
use std::borrow::CowStr;

/// The front of a text up to a position, or `None` if the position lies inside a character. If the
/// text is whole, its front is whole and leaves no known style open.
pub fn closed_front<'t>(
    alloc: Global,
    text: &'t str,
    end: usize,
) -> Result<Option<CowStr<'t>>, AllocError>
    ensures whole { IsTrue (is_whole text.now) → IfOk result (λ o. IfSome o (λ c.
        IsTrue (is_whole (cow_str_bytes c)))) }
    ensures closed { IsTrue (is_whole text.now) → IfOk result (λ o. IfSome o (λ c.
        residue (cow_str_bytes c) ≡ plain_style)) }
{
    laws::join();
    get_in(alloc, text, 0, Some(end))
}
