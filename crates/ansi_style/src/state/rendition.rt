//! The parts of a style.
use ansi_items::ansitok::AnsiColor;

/// The parts of a style: three colors, a font and 24 attributes.
///
/// Styles compare by the fields in this order. An attribute that isn't set is less than one that
/// is, and a missing color or font is less than any. (The Rust crate.)
#[derive(Clone, Copy, PartialEq, Eq, PartialOrd, Ord, Hash)]
pub struct Rendition {
    pub foreground: Option<AnsiColor>,
    pub background: Option<AnsiColor>,
    pub underline_color: Option<AnsiColor>,
    pub bold: bool,
    pub faint: bool,
    pub italic: bool,
    pub underline: bool,
    pub double_underline: bool,
    pub slow_blink: bool,
    pub rapid_blink: bool,
    pub inverse: bool,
    pub hide: bool,
    pub crossed_out: bool,
    pub reset: bool,
    pub framed: bool,
    pub encircled: bool,
    pub font: Option<u8>,
    pub fraktur: bool,
    pub proportional_spacing: bool,
    pub overlined: bool,
    pub ideogram_underline: bool,
    pub ideogram_double_underline: bool,
    pub ideogram_overline: bool,
    pub ideogram_double_overline: bool,
    pub ideogram_stress_marking: bool,
    pub superscript: bool,
    pub subscript: bool,
    pub unknown: bool,
}
