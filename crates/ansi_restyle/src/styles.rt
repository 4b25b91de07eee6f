//! Styles that a caller makes.
ghost use Rattle.std.specs.Prelude.{◌≡◌, ◌↔◌, IfOk, IfSome, IsFalse, IsNone, IsOk, IsTrue};
ghost use Rattle.std.specs.Prelude.{string_bytes};
ghost use Rattle.ansi_style.specs.Rendition.{known};
ghost use Rattle.ansi_style.specs.States.{rendition_of};
ghost use Rattle.ansi_restyle.specs.Restyled.{is_change};
ghost use Rattle.ansi_restyle.specs.Styles.{codes_of, selected};

use crate::restyle;
use ansi_style::state::Style;
use ansi_style::styles;
pub use ansi_style::styles::{difference, union};
use std::alloc::{AllocError, Allocator};

/// The style that SGR codes such as `"1;31"` select (ECMA-48, section 8.3.117), or `None` if they
/// have anything but digits, `;` and `:`. `Err` means out of memory.
///
/// ```
/// let style = style_of(rt.alloc(), "1;31");
/// assert!(rt; matches!(&style, Ok(Some(style)) if style.is_bold() && style.foreground() == Some(Color::Red)));
/// ```
pub fn style_of<A: Allocator>(alloc: A, codes: &str) -> Result<Option<Style>, AllocError>
    ensures style { IfOk result (λ o. IfSome o (λ s. rendition_of s ≡ selected codes.now)) }
    ensures none { IfOk result (λ o. IsNone o ↔ IsFalse (is_change codes.now)) }
    ensures takes_no_memory { IsFalse (is_change codes.now) → IsOk result }
{
    if !restyle::is_change(codes) {
        return Ok(None);
    }
    let sequence = restyle::sequence_of(alloc, codes)?;
    let mut style = styles::plain_style();
    styles::apply(&mut style, sequence.as_str());
    Ok(Some(style))
}

/// The SGR codes that select a style, as a text of its own: a code for each attribute, color and font
/// that is set, in the order of `Style::start`, with `;` between. An extended color is a code such as
/// `38;5;208` or `38;2;255;135;0`. The plain style has no code. `style_of` of the codes returns the
/// style again, but for `reset` and `unknown`, which change nothing that is shown. `Err` means out of
/// memory. (Own.)
///
/// ```
/// let orange = style_of(rt.alloc(), "38;5;208;1")?.ok_or("no codes")?;
/// let codes = codes_of(rt.alloc(), &orange)?;
/// assert!(rt; codes.as_str() == "1;38;5;208");
/// ```
pub fn codes_of<A: Allocator + Copy>(alloc: A, style: &Style) -> Result<String<A>, AllocError>
    ensures codes { IfOk result (λ s. string_bytes s ≡ codes_of (rendition_of style.now)) }
    ensures selected { IfOk result (λ s.
        known (selected (string_bytes s)) ≡ known (rendition_of style.now)) }
    ensures change { IfOk result (λ s. IsTrue (is_change (string_bytes s))) }
{
    let mut start = String::new(alloc);
    styles::write_start(style, &mut start)?;
    let mut codes = String::new(alloc);
    // a start has a sequence for each code: `ESC [`, the code and `m`
    let mut separator = "";
    let mut rest = start.as_str();
    while let Some((sequence, more)) = rest.split_once('m') {
        codes.push_str(separator)?;
        codes.push_str(&sequence[2..])?;
        separator = ";";
        rest = more;
    }
    Ok(codes)
}
