//! The style: how SGRs change it, and the sequences that set and reset it.
pub(crate) mod attributes;
mod compare;
pub(crate) mod fields;
pub mod rendition;
pub(crate) mod sink;
pub(crate) mod table;
pub(crate) mod written;

ghost use Rattle.std.specs.Prelude.{IsTrue};
ghost use Rattle.std.specs.Option.{ForSome};
ghost use Rattle.std.specs.Int.{is_in_range};
ghost use Rattle.ansi_style.specs.Rendition.{is_foreground, is_background, is_extended_color};
ghost use Rattle.ansi_style.specs.Numbers.{color_of_numbers, font_of_word};

use crate::numbers::ColorNumbers;
use crate::state::attributes::Attributes;
use crate::state::fields::{Field, Fields};
pub use crate::state::rendition::Rendition;
use crate::state::table::reads_color;
pub use crate::state::written::{AnsiSequenceEnd, AnsiSequenceStart};
use bitflags::Flags;
use std::fmt;
use std::mem::size_of;

/// A style: what the SGRs before a character of a text have selected (ECMA-48, section 8.3.117).
///
/// It has three colors, a font and 24 attributes. Styles compare by these, part by part, in the
/// order of the fields of `Rendition`. A block has one, see `get_blocks`. (The Rust crate.)
///
/// ```
/// let first = get_blocks(rt.alloc(), "\x1b[1;31mred").next();
/// assert!(rt; matches!(&first, Some(Ok(block)) if block.style().foreground() == Some(Color::Red)));
/// ```
///
/// Its colors and its font are always ones that SGR codes can select, as the ghost fields say.
/// Contracts see it as a `Rendition`, by `rendition_of`.
///
/// It has 16 bytes, which are copied at once.
#[repr(C)]
#[derive(Clone, Copy)]
pub struct Style {
    pub(crate) attributes: Attributes,
    pub(crate) foreground: ColorNumbers,
    pub(crate) background: ColorNumbers,
    pub(crate) underline_color: ColorNumbers,
    ghost foreground_in_range: { ForSome (color_of_numbers foreground) (λ c.
        IsTrue (is_foreground c)) },
    ghost background_in_range: { ForSome (color_of_numbers background) (λ c.
        IsTrue (is_background c)) },
    ghost underline_color_in_range: { ForSome (color_of_numbers underline_color) (λ c.
        IsTrue (is_extended_color c)) },
    ghost font_in_range: { ForSome (font_of_word attributes.0) (λ n.
        IsTrue (is_in_range 11 19 n)) },
}

const _: () = prove!(size_of::<Style>() == 16);

impl Style {
    ghost use Rattle.std.specs.Prelude.{◌≡◌, ◌&&◌, ◌||◌, ◌<◌, ◌^◌, not};
    ghost use Rattle.ansi_style.specs.Rendition.{has_known};
    ghost use Rattle.std.specs.Option.{option_map_or};
    ghost use Rattle.ansi_style.specs.Sgr.{effect_of_code, unknown_code, perform};
    ghost use Rattle.ansi_style.specs.States.{has, rendition_of, with_attributes, with_font};

    /// Applies one field as an SGR code. A field that is no code counts as an unknown code. A code
    /// that reads a color takes its fields from `rest`.
    #[inline(always)]
    #[tactic(auto, unfolding(crate::specs::States::rendition_of))]
    pub(crate) fn step(&mut self, field: Field, rest: &mut Fields<'_>)
        ensures { (rendition_of self.new, rest.new)
            ≡ perform (option_map_or effect_of_code field.code unknown_code) (rendition_of self.old)
            rest.old }
    {
        let Some(code) = field.code else {
            self.set(Attributes::UNKNOWN);
            return;
        };
        if reads_color(code) {
            self.set_color(code, rest);
        } else {
            self.change(code);
        }
    }

    /// Sets attributes.
    #[tactic(auto, unfolding(crate::specs::States::rendition_of))]
    fn set(&mut self, attributes: Attributes)
        requires { attributes.0 < 2 ^ 24 }
        ensures { rendition_of self.new
            ≡ with_attributes (λ place. has attributes.0 place || has self.old.attributes.0 place)
            (rendition_of self.old) }
    {
        self.attributes.insert(attributes);
    }

    /// Clears attributes.
    #[tactic(auto, unfolding(crate::specs::States::rendition_of))]
    fn clear(&mut self, attributes: Attributes)
        requires { attributes.0 < 2 ^ 24 }
        ensures { rendition_of self.new
            ≡ with_attributes (λ place. not (has attributes.0 place)
            && has self.old.attributes.0 place) (rendition_of self.old) }
    {
        self.attributes.remove(attributes);
    }

    /// Sets the font, or takes it away.
    #[tactic(auto, unfolding(crate::specs::States::rendition_of))]
    fn set_font(&mut self, font: Option<u8>)
        requires { ForSome font (λ n. IsTrue (is_in_range 11 19 n)) }
        ensures { rendition_of self.new ≡ with_font font (rendition_of self.old) }
    {
        self.attributes = self.attributes.with_font(font);
    }

    /// The rendition of the style.
    #[tactic(auto, unfolding(crate::specs::States::rendition_of))]
    pub(crate) fn rendition(&self) -> Rendition
        ensures { result ≡ rendition_of self.now }
    {
        Rendition {
            foreground: self.foreground.color(),
            background: self.background.color(),
            underline_color: self.underline_color.color(),
            bold: self.attributes.contains(Attributes::BOLD),
            faint: self.attributes.contains(Attributes::FAINT),
            italic: self.attributes.contains(Attributes::ITALIC),
            underline: self.attributes.contains(Attributes::UNDERLINE),
            double_underline: self.attributes.contains(Attributes::DOUBLE_UNDERLINE),
            slow_blink: self.attributes.contains(Attributes::SLOW_BLINK),
            rapid_blink: self.attributes.contains(Attributes::RAPID_BLINK),
            inverse: self.attributes.contains(Attributes::INVERSE),
            hide: self.attributes.contains(Attributes::HIDE),
            crossed_out: self.attributes.contains(Attributes::CROSSED_OUT),
            reset: self.attributes.contains(Attributes::RESET),
            framed: self.attributes.contains(Attributes::FRAMED),
            encircled: self.attributes.contains(Attributes::ENCIRCLED),
            font: self.attributes.font(),
            fraktur: self.attributes.contains(Attributes::FRAKTUR),
            proportional_spacing: self.attributes.contains(Attributes::PROPORTIONAL_SPACING),
            overlined: self.attributes.contains(Attributes::OVERLINED),
            ideogram_underline: self.attributes.contains(Attributes::IDEOGRAM_UNDERLINE),
            ideogram_double_underline: self
                .attributes
                .contains(Attributes::IDEOGRAM_DOUBLE_UNDERLINE),
            ideogram_overline: self.attributes.contains(Attributes::IDEOGRAM_OVERLINE),
            ideogram_double_overline: self
                .attributes
                .contains(Attributes::IDEOGRAM_DOUBLE_OVERLINE),
            ideogram_stress_marking: self
                .attributes
                .contains(Attributes::IDEOGRAM_STRESS_MARKING),
            superscript: self.attributes.contains(Attributes::SUPERSCRIPT),
            subscript: self.attributes.contains(Attributes::SUBSCRIPT),
            unknown: self.attributes.contains(Attributes::UNKNOWN),
        }
    }

    /// Whether a color, the font or an attribute other than `reset` and `unknown` is set.
    #[tactic(auto, unfolding(crate::specs::States::rendition_of))]
    pub(crate) fn has_known(&self) -> bool
        ensures { result ≡ has_known (rendition_of self.now) }
    {
        // `|` evaluates all five without a branch for each
        self.foreground.is_some()
            | self.background.is_some()
            | self.underline_color.is_some()
            | self.attributes.has_font()
            | self.attributes.intersects(Attributes::KNOWN)
    }

    /// The start of the style, for printing: the sequences that set it. Doesn't allocate. (The Rust
    /// crate.)
    ///
    /// ```
    /// let block = get_blocks(rt.alloc(), "\x1b[1;33mbar").next().ok_or("no block")??;
    /// let mut line = String::new(rt.alloc());
    /// write!(&mut line, "{}42%", block.style().start())?;
    /// assert!(rt; line.as_str() == "\x1b[1m\x1b[33m42%");
    /// ```
    pub fn start(&self) -> AnsiSequenceStart<'_>
        ensures { result ≡ rendition_of self.now }
    {
        AnsiSequenceStart(self)
    }

    /// The close of the style, for printing: the sequences that reset what it sets, or nothing if
    /// there is nothing to reset. Doesn't allocate. (The Rust crate.)
    ///
    /// ```
    /// let block = get_blocks(rt.alloc(), "\x1b[1;33mbar").next().ok_or("no block")??;
    /// let mut line = String::new(rt.alloc());
    /// write!(&mut line, "bar{}", block.style().end())?;
    /// assert!(rt; line.as_str() == "bar\x1b[22m\x1b[39m");
    /// ```
    pub fn end(&self) -> AnsiSequenceEnd<'_>
        ensures { result ≡ rendition_of self.now }
    {
        AnsiSequenceEnd(self)
    }
}

impl fmt::Debug for Style {
    /// Prints each part.
    fn fmt<W: fmt::Write>(&self, f: &mut fmt::Formatter<W>) -> fmt::Result {
        f.debug_struct("Style")
            .field("attributes", &self.attributes.intersection(Attributes::ALL))
            .field("foreground", &self.foreground)
            .field("background", &self.background)
            .field("underline_color", &self.underline_color)
            .field("font", &self.attributes.font())
            .finish()
    }
}
