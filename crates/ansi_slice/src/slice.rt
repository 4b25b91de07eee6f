//! The slices of a text, with every sequence at its place: the functions that the calls of
//! `AnsiStr` are built on.
ghost use Rattle.std.specs.Prelude.{◌≡◌, ◌++◌, ◌↔◌, IsFalse, IsOk, IfOk, OnOk, string_bytes};
ghost use Rattle.std.specs.Cow.{cow_str_bytes, IsBorrowedStr};
ghost use Rattle.ansi_items.specs.Plain.{plain, has_escape};

mod cuts;
mod kept;
mod range;
mod sequences;
mod sides;
mod white_space;

use ansi_items::ESC;
use ansi_items::ansitok::{Kind, Scanner};
pub use cuts::{cut_in, get_in};
pub use kept::{strip_prefix_in, strip_suffix_in, trim_in};
pub use range::AnsiRange;
pub use sequences::push_sequences;
pub use sides::{left_in, right_in, split_at_in};
use std::alloc::{AllocError, Allocator};
use std::borrow::CowStr;

/// Whether the text has an ESC, like `AnsiStr::ansi_has_any`. Doesn't allocate. (The Rust
/// crate.)
///
/// ```
/// assert!(rt; has_any("\x1b[31mred") && !has_any("red"));
/// ```
pub fn has_any(text: &str) -> bool
    ensures { result ≡ has_escape text.now }
{
    match text.as_bytes() {
        // most texts that have one begin with one
        [ESC, ..] => true,
        bytes => bytes.contains(&ESC),
    }
}

/// Like `AnsiStr::ansi_strip`, with a result that lives as long as the text, and with any
/// allocator. (Own.)
///
/// ```
/// let plain = strip_in(rt.alloc(), "\x1b[31mred\x1b[39m and plain")?;
/// assert!(rt; plain.as_str() == "red and plain");
/// ```
pub fn strip_in<'t, A: Allocator>(alloc: A, text: &'t str) -> Result<CowStr<'t, A>, AllocError>
    ensures bytes { IfOk result (λ c. cow_str_bytes c ≡ plain text.now) }
    ensures borrowed { IfOk result (λ c. IsBorrowedStr c ↔ IsFalse (has_escape text.now)) }
    ensures takes_no_memory { IsFalse (has_escape text.now) → IsOk result }
{
    if !has_any(text) {
        return Ok(CowStr::Borrowed(text));
    }
    let mut plain = String::with_capacity(alloc, text.len())?;
    push_plain(&mut plain, text)?;
    Ok(CowStr::Owned(plain))
}

/// Appends the plain text of a text. `Err` means out of memory; what was appended before it
/// stays.
fn push_plain<A: Allocator>(out: &mut String<A>, text: &str) -> Result<(), AllocError>
    ensures { OnOk result (string_bytes out.new ≡ string_bytes out.old ++ plain text.now) }
{
    for item in Scanner::new(text) {
        if item.kind == Kind::Text {
            out.push_str(&text[item.start..item.end])?;
        }
    }
    Ok(())
}
