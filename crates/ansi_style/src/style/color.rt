//! Colors by name.
ghost use Rattle.std.specs.Prelude.{◌≡◌};
ghost use Rattle.ansi_style.specs.Colors.{color_of, color_of_code};

use ansi_items::ansitok::AnsiColor;

/// A color by name, by its number in the 256-color palette, or by its red, green and blue.
///
/// Colors compare in the order of this list. No sequence selects `Purple` or `BrightPurple`. (The
/// Rust crate; the codes, ECMA-48, section 8.3.117, and 90 to 97 and 100 to 107, which terminals
/// share.)
///
/// ```
/// let first = get_blocks(rt.alloc(), "\x1b[38;5;200mx").next();
/// assert!(rt; matches!(&first, Some(Ok(block)) if block.style().foreground() == Some(Color::Fixed(200))));
/// assert!(rt; Color::Black < Color::Red);
/// ```
#[derive(Debug, Clone, Copy, PartialEq, Eq, PartialOrd, Ord, Hash)]
pub enum Color {
    /// Code 30, or 40 for a background.
    Black,
    /// Code 90, or 100 for a background.
    BrightBlack,
    /// Code 31, or 41 for a background.
    Red,
    /// Code 91, or 101 for a background.
    BrightRed,
    /// Code 32, or 42 for a background.
    Green,
    /// Code 92, or 102 for a background.
    BrightGreen,
    /// Code 33, or 43 for a background.
    Yellow,
    /// Code 93, or 103 for a background.
    BrightYellow,
    /// Code 34, or 44 for a background.
    Blue,
    /// Code 94, or 104 for a background.
    BrightBlue,
    /// No code sets it.
    Purple,
    /// No code sets it.
    BrightPurple,
    /// Code 35, or 45 for a background.
    Magenta,
    /// Code 95, or 105 for a background.
    BrightMagenta,
    /// Code 36, or 46 for a background.
    Cyan,
    /// Code 96, or 106 for a background.
    BrightCyan,
    /// Code 37, or 47 for a background.
    White,
    /// Code 97, or 107 for a background.
    BrightWhite,
    /// A color by its number in the 256-color palette: `38;5` and the number, `48;5` for a
    /// background.
    Fixed(u8),
    /// A color by its red, green and blue: `38;2` and the three numbers, `48;2` for a background.
    Rgb(u8, u8, u8),
}

impl From<AnsiColor> for Color {
    ghost from_gives = { λ color named. named ≡ color_of color };

    /// The color by name. A number of `Bit4` that is no code of one of the sixteen stays a number.
    /// Doesn't allocate. (The Rust crate.)
    ///
    /// ```
    /// assert!(rt; Color::from(AnsiColor::Bit4(35)) == Color::Magenta);
    /// assert!(rt; Color::from(AnsiColor::Bit4(38)) == Color::Fixed(38));
    /// ```
    fn from(color: AnsiColor) -> Color {
        match color {
            AnsiColor::Bit4(code) => color_of_code(code),
            AnsiColor::Bit8(number) => Color::Fixed(number),
            AnsiColor::Bit24 { r, g, b } => Color::Rgb(r, g, b),
        }
    }
}

/// The one of the sixteen colors that a code selects, as a foreground or as a background.
fn color_of_code(code: u8) -> Color
    ensures { result ≡ color_of_code code }
{
    match code {
        30 | 40 => Color::Black,
        31 | 41 => Color::Red,
        32 | 42 => Color::Green,
        33 | 43 => Color::Yellow,
        34 | 44 => Color::Blue,
        35 | 45 => Color::Magenta,
        36 | 46 => Color::Cyan,
        37 | 47 => Color::White,
        90 | 100 => Color::BrightBlack,
        91 | 101 => Color::BrightRed,
        92 | 102 => Color::BrightGreen,
        93 | 103 => Color::BrightYellow,
        94 | 104 => Color::BrightBlue,
        95 | 105 => Color::BrightMagenta,
        96 | 106 => Color::BrightCyan,
        97 | 107 => Color::BrightWhite,
        number => Color::Fixed(number),
    }
}
