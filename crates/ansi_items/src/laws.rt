//! A law of colors, on which the law of all orders in the crates above is built.
ghost use Rattle.std.specs.Prelude.{◌≡◌};
ghost use Rattle.ansi_items.specs.AnsiColors.{compared, ansi_color_key};

use crate::ansitok::AnsiColor;

/// Colors as SGR codes write them compare by their kind, and then by their numbers.
pub fn ansi_colors_go_by_kind()
    ensures { (a b : AnsiColor) →
        ⟦<AnsiColor as Ord>⟧.cmp a b ≡ compared (ansi_color_key a) (ansi_color_key b) }
{}
