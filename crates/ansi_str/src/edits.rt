//! Edits of a text.
ghost use Rattle.std.specs.Prelude.{◌≡◌, ◌↔◌, ◌⊎◌, IsTrue, IsNone, IsOk, IfOk, IfSome, option_map};
ghost use Rattle.std.specs.Prelude.{string_bytes};
ghost use Rattle.std.specs.Cow.{cow_str_bytes, IsBorrowedStr};
ghost use Rattle.ansi_items.specs.Plain.{is_whole};
ghost use Rattle.ansi_str.specs.Edited.{edited_by, edited, gives_borrow, stay_borrowed};
ghost use Rattle.ansi_str.specs.Edited.{IsSliceNamed};
ghost use Rattle.ansi_str.specs.Edits.{change_of, changes_of};

mod kinds;

use crate::ansitok::{Kind, Scanner};
use crate::slice::{get_in, strip_prefix_in, strip_suffix_in, trim_in};
use crate::split::part_in;
use ansi_slice::slice::{left_in, right_in};
pub use kinds::Edit;
use std::alloc::{AllocError, Allocator};
use std::borrow::CowStr;

/// Whether the text is whole: whether it has no lone escape, which is an ESC that begins no whole
/// sequence.
///
/// If a text has a lone escape, cutting away the text after it can make a whole sequence of it:
/// `\x1bé[m` cut from 2 on is `\x1b[m`. Doesn't allocate. (The Rust crate lacks it.)
///
/// ```
/// assert!(rt; ansi_is_whole("\x1b[31mred\x1b[m"));
/// assert!(rt; !ansi_is_whole("\x1b[31"));
/// ```
pub fn ansi_is_whole(text: &str) -> bool
    ensures { result ≡ is_whole text.now }
{
    for item in Scanner::new(text) {
        if item.kind == Kind::Lone {
            return false;
        }
    }
    true
}

/// The text that edits make, each applied to the result of the one before.
///
/// It is `None` exactly if an edit is refused at its turn: if it has bad positions, if the
/// prefix or suffix is absent, or if there is no such part. Each edit is tested at its turn, on the
/// text that the edits before it left, and before it allocates.
///
/// For a whole text the result is whole, its plain bytes with their known styles are the slice of
/// the text's that the edits name, and after a cut, a side or a part no known style is open at its
/// end. On every text, whole or not, the bytes are those that the edits make in turn.
///
/// It is a borrow of the text until an edit makes an owned text, and owned from then on. While it
/// stays a borrow the call doesn't allocate and returns no `Err`: for no edits, on a text without
/// ESC, and if the first edit is refused. Otherwise `Err` means out of memory. Takes any allocator.
/// (The Rust crate lacks it.)
///
/// ```
/// let edits = [Edit::Prefix("> "), Edit::Left(2)];
/// let edited = edit(rt.alloc(), "> \x1b[31mred", &edits);
/// assert!(rt; matches!(&edited, Ok(Some(text)) if text.as_str() == "\x1b[31mre\x1b[39m"));
/// assert!(rt; matches!(&edit(rt.alloc(), "red", &edits), Ok(None)));
/// ```
pub fn edit<'t, A: Allocator + Copy>(
    alloc: A,
    text: &'t str,
    edits: &[Edit<'_>],
) -> Result<Option<CowStr<'t, A>>, AllocError>
    ensures headline { IsTrue (is_whole text.now) → IfOk result (λ o.
        IsSliceNamed (changes_of edits.now) text.now (option_map cow_str_bytes o)) }
    ensures none { IfOk result (λ o. IsNone o ↔ IsNone (edited (changes_of edits.now) text.now)) }
    ensures bytes { IfOk result (λ o.
        option_map cow_str_bytes o ≡ edited (changes_of edits.now) text.now) }
    ensures borrowed { IfOk result (λ o. IfSome o (λ c.
        IsBorrowedStr c ↔ IsTrue (stay_borrowed (changes_of edits.now) text.now))) }
    ensures takes_no_memory { IsTrue (stay_borrowed (changes_of edits.now) text.now) → IsOk result }
{
    let mut edited = CowStr::Borrowed(text);
    for edit in edits {
        match edit_once(alloc, edited, *edit)? {
            Some(next) => edited = next,
            None => return Ok(None),
        }
    }
    Ok(Some(edited))
}

/// The text that one edit makes of the result of those before it.
///
/// [`edit`] and the calls for other languages make each edit by it. It is `None` if the edit is
/// refused, which doesn't allocate, whatever that result is. An owned text stays owned, and is
/// passed on if the edit keeps all of it. A borrow stays a borrow, without an allocation, if the
/// edit's result on it is one. Otherwise `Err` means out of memory. (The Rust crate lacks it.)
///
/// ```
/// let given = CowStr::Borrowed("\x1b[31mred");
/// let edited = edit_once(rt.alloc(), given, Edit::Left(2));
/// assert!(rt; matches!(&edited, Ok(Some(text)) if text.as_str() == "\x1b[31mre\x1b[39m"));
/// ```
pub fn edit_once<'t, A: Allocator + Copy>(
    alloc: A,
    given: CowStr<'t, A>,
    edit: Edit<'_>,
) -> Result<Option<CowStr<'t, A>>, AllocError>
    ensures bytes { IfOk result (λ o.
        option_map cow_str_bytes o ≡ edited_by (change_of edit.entry) (cow_str_bytes given.entry)) }
    ensures borrowed { IfOk result (λ o. IfSome o (λ c. IsBorrowedStr c ↔ (IsBorrowedStr given.entry
        × IsTrue (gives_borrow (change_of edit.entry) (cow_str_bytes given.entry))))) }
    ensures takes_no_memory { IsNone (edited_by (change_of edit.entry) (cow_str_bytes given.entry))
        ⊎ (IsBorrowedStr given.entry
        × IsTrue (gives_borrow (change_of edit.entry) (cow_str_bytes given.entry))) → IsOk result }
{
    match given {
        CowStr::Borrowed(text) => edit_str(alloc, text, edit),
        CowStr::Owned(text) => match edit_owned(alloc, text, edit)? {
            Some(edited) => Ok(Some(CowStr::Owned(edited))),
            None => Ok(None),
        },
    }
}

/// The text that one edit makes, or `None` if it is refused, which doesn't allocate.
fn edit_str<'t, A: Allocator + Copy>(
    alloc: A,
    text: &'t str,
    edit: Edit<'_>,
) -> Result<Option<CowStr<'t, A>>, AllocError>
    ensures bytes { IfOk result (λ o.
        option_map cow_str_bytes o ≡ edited_by (change_of edit.entry) text.now) }
    ensures borrowed { IfOk result (λ o. IfSome o (λ c.
        IsBorrowedStr c ↔ IsTrue (gives_borrow (change_of edit.entry) text.now))) }
    ensures takes_no_memory { IsNone (edited_by (change_of edit.entry) text.now)
        ⊎ IsTrue (gives_borrow (change_of edit.entry) text.now) → IsOk result }
{
    match edit {
        Edit::Cut { start, end } => get_in(alloc, text, start, end),
        Edit::Left(mid) => left_in(alloc, text, mid),
        Edit::Right(mid) => right_in(alloc, text, mid),
        Edit::Part { pat, index } => part_in(alloc, text, pat, index),
        Edit::Prefix(prefix) => strip_prefix_in(alloc, text, prefix),
        Edit::Suffix(suffix) => strip_suffix_in(alloc, text, suffix),
        Edit::Trim => Ok(Some(trim_in(alloc, text)?)),
    }
}

/// The text that one edit makes of an owned text, which is passed on if the edit keeps all of it.
fn edit_owned<A: Allocator + Copy>(
    alloc: A,
    text: String<A>,
    edit: Edit<'_>,
) -> Result<Option<String<A>>, AllocError>
    ensures bytes { IfOk result (λ o. option_map string_bytes o
        ≡ edited_by (change_of edit.entry) (string_bytes text)) }
    ensures takes_no_memory { IsNone (edited_by (change_of edit.entry) (string_bytes text)) →
        IsOk result }
{
    let edited = match edit_str(alloc, text.as_str(), edit)? {
        None => return Ok(None),
        Some(CowStr::Borrowed(kept)) if kept == text.as_str() => None,
        Some(edited) => Some(edited.into_owned(alloc)?),
    };
    Ok(Some(edited.unwrap_or(text)))
}
