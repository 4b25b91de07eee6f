//! Laws of styles and of colors. `ansi_str` includes them among its own, except the law of styles as
//! numbers.
//!
//! Each function states one law as its contract. It does nothing and returns nothing.
ghost use Rattle.std.specs.Prelude.{◌≡◌, codes};
ghost use Rattle.ansi_items.specs.AnsiColors.{compared, ansi_color_key};
ghost use Rattle.ansi_style.specs.Rendition.{Rendition, IsStyle, plain_style, known};
ghost use Rattle.ansi_style.specs.Reading.{style_after_from};
ghost use Rattle.ansi_style.specs.Orders.{compared_in_turn, parts_in_order, color_key};
ghost use Rattle.ansi_style.specs.States.{rendition_of, rendition_of_numbers};
ghost use Rattle.ansi_style.specs.States.{AreExact, HaveSameBytes};

use crate::numbers::StyleNumbers;
use crate::state::{AnsiSequenceEnd, Style};
use crate::style::Color;
use ansi_items::ansitok::AnsiColor;

/// The colors and the font of every style that a program holds are in their ranges. So its start
/// sets it, and has at most the greatest length.
pub fn styles_are_in_range()
    ensures { (s : Style) → IsStyle (rendition_of s) }
{}

/// `AnsiSequenceEnd::RESET_ALL` is `\e[0m`, which resets everything that is known of any style.
pub fn reset_all_clears()
    ensures bytes { AnsiSequenceEnd.RESET_ALL.now ≡ codes "\u{1b}[0m" }
    ensures cleared { (s : Rendition) →
        known (style_after_from s AnsiSequenceEnd.RESET_ALL.now) ≡ plain_style }
{}

/// Styles compare by their 28 parts in turn, colors by their rank and then by their numbers. An
/// attribute that isn't set is less than one that is, and a missing color or font is less than any.
pub fn orders_go_by_parts()
    ensures style { (a b : Style) → ⟦<Style as Ord>⟧.cmp a b
        ≡ compared_in_turn (parts_in_order (rendition_of a)) (parts_in_order (rendition_of b)) }
    ensures color { (a b : Color) →
        ⟦<Color as Ord>⟧.cmp a b ≡ compared (color_key a) (color_key b) }
    ensures ansi_color { (a b : AnsiColor) →
        ⟦<AnsiColor as Ord>⟧.cmp a b ≡ compared (ansi_color_key a) (ansi_color_key b) }
{}

/// Exact numbers of one style have the same bytes.
pub fn exact_numbers_are_determined()
    ensures { (n m : StyleNumbers) → AreExact n → AreExact m →
        rendition_of_numbers n ≡ rendition_of_numbers m → HaveSameBytes n m }
{}
