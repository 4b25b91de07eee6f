//! The attributes and the font of a style in one word. Only the methods of `Flags`, `font` and
//! `with_font` read and change its bits.
ghost use Rattle.std.specs.Prelude.{⊤, ◌≡◌, ◌≢◌, ◌<◌, ℕ, Some, is_some};
ghost use Rattle.ansi_style.specs.Numbers.{font_of_word};
ghost use Rattle.ansi_style.specs.States.{has};

use bitflags::{Flag, Flags};

/// A set of attributes, and a font: each attribute is one of the lower 24 bits, and the upper 8 are
/// the code of the font, or 0 if none is set.
#[derive(Debug, Clone, Copy)]
pub(crate) struct Attributes(u32);

/// No flag has a name, because attributes are neither parsed nor printed by name.
impl Flags for Attributes {
    type Bits = u32;

    ghost exact = { ⊤ };

    ghost set_of = { λ a. a.0 };

    fn flags<'a>() -> &'a [Flag<Attributes>] {
        &[]
    }

    fn bits(&self) -> u32 {
        self.0
    }

    fn from_bits_retain(bits: u32) -> Attributes {
        Attributes(bits)
    }
}

impl Attributes {
    /// The font.
    #[inline(always)]
    pub(crate) fn font(self) -> Option<u8>
        ensures { result ≡ font_of_word self.0 }
    {
        match (self.0 >> 24) as u8 {
            0 => None,
            code => Some(code),
        }
    }

    /// Whether a font is set.
    #[inline(always)]
    pub(crate) fn has_font(self) -> bool
        ensures { result ≡ is_some (font_of_word self.0) }
    {
        self.font().is_some()
    }

    /// These attributes with another font.
    #[inline(always)]
    pub(crate) fn with_font(self, font: Option<u8>) -> Attributes
        requires { font ≢ Some 0 }
        ensures font { font_of_word result.0 ≡ font }
        ensures attributes { (place : ℕ) → place < 24 → has result.0 place ≡ has self.0 place }
    {
        Attributes(u32::from(font.unwrap_or(0)) << 24 | self.0 & Self::ALL.0)
    }

    /// All 24 attributes.
    pub(crate) const ALL: Attributes = Attributes(0xff_ffff);

    pub(crate) const BOLD: Attributes = Attributes(0x1);

    pub(crate) const FAINT: Attributes = Attributes(0x2);

    pub(crate) const ITALIC: Attributes = Attributes(0x4);

    pub(crate) const UNDERLINE: Attributes = Attributes(0x8);

    pub(crate) const DOUBLE_UNDERLINE: Attributes = Attributes(0x10);

    pub(crate) const SLOW_BLINK: Attributes = Attributes(0x20);

    pub(crate) const RAPID_BLINK: Attributes = Attributes(0x40);

    pub(crate) const INVERSE: Attributes = Attributes(0x80);

    pub(crate) const HIDE: Attributes = Attributes(0x100);

    pub(crate) const CROSSED_OUT: Attributes = Attributes(0x200);

    pub(crate) const FRAMED: Attributes = Attributes(0x400);

    pub(crate) const ENCIRCLED: Attributes = Attributes(0x800);

    pub(crate) const FRAKTUR: Attributes = Attributes(0x1000);

    pub(crate) const PROPORTIONAL_SPACING: Attributes = Attributes(0x2000);

    pub(crate) const OVERLINED: Attributes = Attributes(0x4000);

    pub(crate) const IDEOGRAM_UNDERLINE: Attributes = Attributes(0x8000);

    pub(crate) const IDEOGRAM_DOUBLE_UNDERLINE: Attributes = Attributes(0x10000);

    pub(crate) const IDEOGRAM_OVERLINE: Attributes = Attributes(0x20000);

    pub(crate) const IDEOGRAM_DOUBLE_OVERLINE: Attributes = Attributes(0x40000);

    pub(crate) const IDEOGRAM_STRESS_MARKING: Attributes = Attributes(0x80000);

    pub(crate) const SUPERSCRIPT: Attributes = Attributes(0x100000);

    pub(crate) const SUBSCRIPT: Attributes = Attributes(0x200000);

    pub(crate) const RESET: Attributes = Attributes(0x400000);

    pub(crate) const UNKNOWN: Attributes = Attributes(0x800000);

    /// All but `RESET` and `UNKNOWN`: the attributes that a terminal can show.
    pub(crate) const KNOWN: Attributes = Attributes(0x3fffff);

    /// The attributes that code 22 resets.
    pub(crate) const INTENSITY: Attributes = Attributes(Self::BOLD.0 | Self::FAINT.0);

    /// The attributes that code 23 resets.
    pub(crate) const ITALIC_OR_FRAKTUR: Attributes = Attributes(Self::ITALIC.0 | Self::FRAKTUR.0);

    /// The attributes that code 24 resets.
    pub(crate) const UNDERLINES: Attributes = Attributes(
        Self::UNDERLINE.0 | Self::DOUBLE_UNDERLINE.0,
    );

    /// The attributes that code 25 resets.
    pub(crate) const BLINK: Attributes = Attributes(Self::SLOW_BLINK.0 | Self::RAPID_BLINK.0);

    /// The attributes that code 54 resets.
    pub(crate) const FRAMED_OR_ENCIRCLED: Attributes = Attributes(
        Self::FRAMED.0 | Self::ENCIRCLED.0,
    );

    /// The attributes that code 65 resets.
    pub(crate) const IDEOGRAM: Attributes = Attributes(
        Self::IDEOGRAM_UNDERLINE.0
            | Self::IDEOGRAM_DOUBLE_UNDERLINE.0
            | Self::IDEOGRAM_OVERLINE.0
            | Self::IDEOGRAM_DOUBLE_OVERLINE.0
            | Self::IDEOGRAM_STRESS_MARKING.0,
    );

    /// The attributes that code 75 resets.
    pub(crate) const SCRIPT: Attributes = Attributes(Self::SUPERSCRIPT.0 | Self::SUBSCRIPT.0);

    /// The attributes that codes 3 to 9 set, and that codes 23 to 29 reset.
    pub(crate) const LETTERS: Attributes = Attributes(
        Self::ITALIC_OR_FRAKTUR.0
            | Self::UNDERLINES.0
            | Self::BLINK.0
            | Self::INVERSE.0
            | Self::HIDE.0
            | Self::CROSSED_OUT.0,
    );

    /// The attributes that codes 20 to 26 set.
    pub(crate) const SHAPES: Attributes = Attributes(
        Self::FRAKTUR.0 | Self::DOUBLE_UNDERLINE.0 | Self::PROPORTIONAL_SPACING.0,
    );

    /// The attributes that codes 51 to 74 set, and that codes 50 to 65 reset.
    pub(crate) const FRAMES: Attributes = Attributes(
        Self::FRAMED_OR_ENCIRCLED.0
            | Self::PROPORTIONAL_SPACING.0
            | Self::OVERLINED.0
            | Self::IDEOGRAM.0
            | Self::SCRIPT.0,
    );

    /// All but `INTENSITY`, `RESET` and `UNKNOWN`: few texts have them.
    pub(crate) const RARE: Attributes = Attributes(
        Self::LETTERS.0 | Self::SHAPES.0 | Self::FRAMES.0,
    );

    /// The attributes that a close resets last.
    pub(crate) const ENDS: Attributes = Attributes(Self::SCRIPT.0 | Self::UNKNOWN.0);
}
