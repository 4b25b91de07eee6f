//! Colors, fonts and styles as numbers. A style keeps its colors so, and memory that Rattle doesn't
//! manage keeps a style so.
ghost use Rattle.std.specs.Prelude.{◌≡◌, IsTrue, Some, is_some};
ghost use Rattle.std.specs.Option.{ForSome, option_or};
ghost use Rattle.std.specs.Int.{is_in_range};
ghost use Rattle.ansi_style.specs.Rendition.{is_foreground, is_background, is_extended_color};
ghost use Rattle.ansi_style.specs.Numbers.{color_of_numbers, numbers_of_color};
ghost use Rattle.ansi_style.specs.Numbers.{font_of_numbers, numbers_of_font};
ghost use Rattle.ansi_items.specs.declared.ansitok.AnsiColor.TheVariants.{Bit4};

use crate::state::Style;
use crate::state::attributes::Attributes;
use ansi_items::ansitok::AnsiColor;
use bitflags::Flags;
use std::fmt;

/// An optional color as numbers: its kind, and the numbers of that kind.
#[repr(C)]
#[derive(Clone, Copy)]
pub struct ColorNumbers {
    kind: u8,
    first: u8,
    second: u8,
    third: u8,
}

impl ColorNumbers {
    #[inline(always)]
    pub(crate) fn of(color: Option<AnsiColor>) -> ColorNumbers
        ensures color { color_of_numbers result ≡ color }
        ensures exact { result ≡ numbers_of_color color }
    {
        let (kind, first, second, third) = match color {
            None => (0, 0, 0, 0),
            Some(AnsiColor::Bit4(code)) => (1, code, 0, 0),
            Some(AnsiColor::Bit8(number)) => (2, number, 0, 0),
            Some(AnsiColor::Bit24 { r, g, b }) => (3, r, g, b),
        };
        ColorNumbers {
            kind,
            first,
            second,
            third,
        }
    }

    #[inline(always)]
    pub(crate) fn color(self) -> Option<AnsiColor>
        ensures { result ≡ color_of_numbers self }
    {
        match self.kind {
            0 => None,
            1 => Some(AnsiColor::Bit4(self.first)),
            2 => Some(AnsiColor::Bit8(self.first)),
            _ => Some(AnsiColor::Bit24 {
                r: self.first,
                g: self.second,
                b: self.third,
            }),
        }
    }

    /// The color that a code selects, one of the sixteen.
    #[inline(always)]
    pub(crate) fn of_code(code: u8) -> ColorNumbers
        ensures { color_of_numbers result ≡ Some (Bit4 code) }
    {
        ColorNumbers::of(Some(AnsiColor::Bit4(code)))
    }

    /// Whether there is a color.
    #[inline(always)]
    pub(crate) fn is_some(self) -> bool
        ensures { result ≡ is_some (color_of_numbers self) }
    {
        self.kind != 0
    }

    /// This color, or the other if there is none.
    #[inline(always)]
    pub(crate) fn or(self, other: ColorNumbers) -> ColorNumbers
        ensures { color_of_numbers result
            ≡ option_or (color_of_numbers self) (color_of_numbers other) }
    {
        if self.is_some() { self } else { other }
    }

    /// The same color, with 0 in each byte that its kind doesn't use.
    #[inline(always)]
    fn exact(self) -> ColorNumbers
        ensures color { color_of_numbers result ≡ color_of_numbers self }
        ensures exact { result ≡ numbers_of_color (color_of_numbers self) }
    {
        ColorNumbers::of(self.color())
    }
}

impl fmt::Debug for ColorNumbers {
    /// Prints the color.
    fn fmt<W: fmt::Write>(&self, f: &mut fmt::Formatter<W>) -> fmt::Result {
        self.color().fmt(f)
    }
}

/// An optional font as numbers.
#[repr(C)]
#[derive(Clone, Copy)]
pub struct FontNumbers {
    is_set: bool,
    number: u8,
}

impl FontNumbers {
    #[inline(always)]
    pub(crate) fn of(font: Option<u8>) -> FontNumbers
        ensures font { font_of_numbers result ≡ font }
        ensures exact { result ≡ numbers_of_font font }
    {
        match font {
            None => FontNumbers {
                is_set: false,
                number: 0,
            },
            Some(number) => FontNumbers {
                is_set: true,
                number,
            },
        }
    }

    #[inline(always)]
    pub(crate) fn font(self) -> Option<u8>
        ensures { result ≡ font_of_numbers self }
    {
        if self.is_set { Some(self.number) } else { None }
    }
}

/// A style as numbers, for a caller that can't keep a `Style`. Contracts see it as a `Rendition`,
/// by `rendition_of_numbers`. (Own.)
#[repr(C)]
#[derive(Clone, Copy)]
pub struct StyleNumbers {
    attributes: u32,
    foreground: ColorNumbers,
    background: ColorNumbers,
    underline_color: ColorNumbers,
    font: FontNumbers,
    ghost foreground_in_range: { ForSome (color_of_numbers foreground) (λ c.
        IsTrue (is_foreground c)) },
    ghost background_in_range: { ForSome (color_of_numbers background) (λ c.
        IsTrue (is_background c)) },
    ghost underline_color_in_range: { ForSome (color_of_numbers underline_color) (λ c.
        IsTrue (is_extended_color c)) },
    ghost font_in_range: { ForSome (font_of_numbers font) (λ n. IsTrue (is_in_range 11 19 n)) },
}

impl StyleNumbers {
    ghost use Rattle.ansi_style.specs.States.{rendition_of, rendition_of_numbers, AreExact};

    /// The bits of the 24 attributes.
    const ATTRIBUTES: u32 = 0xff_ffff;

    /// The numbers of a style.
    #[inline]
    #[tactic(auto, unfolding(crate::specs::States::rendition_of))]
    pub fn of(style: &Style) -> StyleNumbers
        ensures rendition { rendition_of_numbers result ≡ rendition_of style.now }
        ensures exact { AreExact result }
    {
        StyleNumbers {
            attributes: style.attributes.bits() & Self::ATTRIBUTES,
            foreground: style.foreground.exact(),
            background: style.background.exact(),
            underline_color: style.underline_color.exact(),
            font: FontNumbers::of(style.attributes.font()),
        }
    }

    /// The style of these numbers.
    #[inline(always)]
    #[tactic(auto, unfolding(crate::specs::States::rendition_of))]
    pub fn style(&self) -> Style
        ensures { rendition_of result ≡ rendition_of_numbers self.now }
    {
        Style {
            attributes: Attributes::from_bits_retain(self.attributes).with_font(self.font.font()),
            foreground: self.foreground,
            background: self.background,
            underline_color: self.underline_color,
        }
    }
}
