//! A caller of `edit` on a whole text: the main promise of the library, one fact per clause.
ghost use Rattle.std.specs.Prelude.{◌≡◌, IsTrue, IfOk, IfSome, option_map};
ghost use Rattle.std.specs.List.{list_any};
ghost use Rattle.std.specs.Cow.{cow_str_bytes};
ghost use Rattle.ansi_str.specs.Plain.{is_whole};
ghost use Rattle.ansi_str.specs.Rendition.{plain_style};
ghost use Rattle.ansi_str.specs.Styled.{styled, residue};
ghost use Rattle.ansi_str.specs.Edited.{meaning, closes};
ghost use Rattle.ansi_str.specs.Edits.{changes_of};

use ansi_str::{Edit, edit};
use std::alloc::{AllocError, Global};
use std::borrow::CowStr;

/// The result of edits on a whole text: the slice that the edits select, as a whole text. If an
/// edit is a cut, a side or a part, no known style is open at its end.
pub fn edit_whole<'t>(
    alloc: Global,
    text: &'t str,
    edits: &[Edit<'_>],
) -> Result<Option<CowStr<'t>>, AllocError>
    requires { IsTrue (is_whole text.now) }
    ensures slice { IfOk result (λ o. meaning (changes_of edits.now) (styled text.now)
        ≡ option_map styled (option_map cow_str_bytes o)) }
    ensures whole { IfOk result (λ o. IfSome (option_map cow_str_bytes o) (λ u.
        IsTrue (is_whole u))) }
    ensures closed { IfOk result (λ o. IfSome (option_map cow_str_bytes o) (λ u.
        IsTrue (list_any closes (changes_of edits.now)) → residue u ≡ plain_style)) }
{
    edit(alloc, text, edits)
}
