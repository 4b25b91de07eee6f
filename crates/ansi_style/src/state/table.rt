//! The table of SGR codes (ECMA-48, section 8.3.117, and further codes in use).
ghost use Rattle.std.specs.Prelude.{◌≡◌, IfSome, IsTrue, IsFalse, List, ℕ, Some, []};
ghost use Rattle.ansi_style.specs.Rendition.{Rendition, is_extended_color};
ghost use Rattle.ansi_style.specs.Sgr.{effect_of_code, perform, read_color, color_by_parts};
ghost use Rattle.ansi_style.specs.Sgr.{color_by_number, fields_of, code_of};
ghost use Rattle.ansi_style.specs.Fields.{changed, first_field, ReadsColor};
ghost use Rattle.ansi_style.specs.States.{rendition_of};

use crate::numbers::ColorNumbers;
use crate::state::Style;
use crate::state::attributes::Attributes;
use crate::state::fields::{Fields, lone_code, short_field};
use crate::styles::plain_style;
use ansi_items::ansitok::AnsiColor;
use bitflags::Flags;

impl Style {
    /// Applies the code. A code that reads a color changes nothing, as if no field followed.
    #[tactic(auto, unfolding(crate::specs::States::rendition_of))]
    pub(crate) fn change(&mut self, code: u8)
        ensures { rendition_of self.new ≡ changed (effect_of_code code) (rendition_of self.old) }
    {
        match code {
            0 => {
                *self = plain_style();
                self.set(Attributes::RESET);
            }
            1 => self.set(Attributes::BOLD),
            2 => self.set(Attributes::FAINT),
            3 => self.set(Attributes::ITALIC),
            4 => self.set(Attributes::UNDERLINE),
            5 => self.set(Attributes::SLOW_BLINK),
            6 => self.set(Attributes::RAPID_BLINK),
            7 => self.set(Attributes::INVERSE),
            8 => self.set(Attributes::HIDE),
            9 => self.set(Attributes::CROSSED_OUT),
            10 => self.set_font(None),
            11..=19 => self.set_font(Some(code)),
            20 => self.set(Attributes::FRAKTUR),
            21 => self.set(Attributes::DOUBLE_UNDERLINE),
            22 => self.clear(Attributes::INTENSITY),
            23 => self.clear(Attributes::ITALIC_OR_FRAKTUR),
            24 => self.clear(Attributes::UNDERLINES),
            25 => self.clear(Attributes::BLINK),
            26 => self.set(Attributes::PROPORTIONAL_SPACING),
            27 => self.clear(Attributes::INVERSE),
            28 => self.clear(Attributes::HIDE),
            29 => self.clear(Attributes::CROSSED_OUT),
            30..=37 | 90..=97 => self.foreground = ColorNumbers::of_code(code),
            38 | 48 | 58 => {}
            39 => self.foreground = ColorNumbers::of(None),
            40..=47 | 100..=107 => self.background = ColorNumbers::of_code(code),
            49 => self.background = ColorNumbers::of(None),
            50 => self.clear(Attributes::PROPORTIONAL_SPACING),
            51 => self.set(Attributes::FRAMED),
            52 => self.set(Attributes::ENCIRCLED),
            53 => self.set(Attributes::OVERLINED),
            54 => self.clear(Attributes::FRAMED_OR_ENCIRCLED),
            55 => self.clear(Attributes::OVERLINED),
            59 => self.underline_color = ColorNumbers::of(None),
            60 => self.set(Attributes::IDEOGRAM_UNDERLINE),
            61 => self.set(Attributes::IDEOGRAM_DOUBLE_UNDERLINE),
            62 => self.set(Attributes::IDEOGRAM_OVERLINE),
            63 => self.set(Attributes::IDEOGRAM_DOUBLE_OVERLINE),
            64 => self.set(Attributes::IDEOGRAM_STRESS_MARKING),
            65 => self.clear(Attributes::IDEOGRAM),
            73 => self.set(Attributes::SUPERSCRIPT),
            74 => self.set(Attributes::SUBSCRIPT),
            75 => self.clear(Attributes::SCRIPT),
            _ => self.set(Attributes::UNKNOWN),
        }
    }

    /// Sets the color that the code selects to the color that the fields begin with, if they begin
    /// with one.
    #[inline(always)]
    #[tactic(auto, unfolding(crate::specs::States::rendition_of))]
    pub(crate) fn set_color(&mut self, code: u8, fields: &mut Fields<'_>)
        requires { ReadsColor code }
        ensures { (rendition_of self.new, fields.new)
            ≡ perform (effect_of_code code) (rendition_of self.old) fields.old }
    {
        if let Some(color) = read_color(fields) {
            self.put_color(code, color);
        }
    }

    /// Sets the color that the code selects.
    #[inline(always)]
    #[tactic(auto, unfolding(crate::specs::States::rendition_of))]
    pub(crate) fn put_color(&mut self, code: u8, color: AnsiColor)
        requires code { ReadsColor code }
        requires extended { IsTrue (is_extended_color color) }
        ensures { (fields rest : List (List ℕ)) → read_color fields ≡ (Some color, rest) →
            (rendition_of self.new, rest)
            ≡ perform (effect_of_code code) (rendition_of self.old) fields }
    {
        let color = ColorNumbers::of(Some(color));
        match code {
            38 => self.foreground = color,
            48 => self.background = color,
            _ => self.underline_color = color,
        }
    }
}

/// Whether a code reads a color from the fields after it. Another code leaves them.
#[inline(always)]
pub(crate) fn reads_color(code: u8) -> bool
    ensures reads { IsTrue result → ReadsColor code }
    ensures leaves { IsFalse result → (s : Rendition) → (fields : List (List ℕ)) →
        perform (effect_of_code code) s fields ≡ (changed (effect_of_code code) s, fields) }
{
    matches!(code, 38 | 48 | 58)
}

/// The color that the fields begin with, or `None` if they don't begin with one. The fields read
/// are used up in both cases.
#[inline(always)]
fn read_color(fields: &mut Fields<'_>) -> Option<AnsiColor>
    ensures read { (result, fields.new) ≡ read_color fields.old }
    ensures extended { IfSome result (λ c. IsTrue (is_extended_color c)) }
{
    match fields.next_field()?.code {
        Some(2) => color_by_parts(fields),
        Some(5) => color_by_number(fields),
        _ => None,
    }
}

/// The color whose red, green and blue the fields begin with.
#[inline(always)]
fn color_by_parts(fields: &mut Fields<'_>) -> Option<AnsiColor>
    ensures read { (result, fields.new) ≡ color_by_parts fields.old }
    ensures extended { IfSome result (λ c. IsTrue (is_extended_color c)) }
{
    let r = fields.next_number()?;
    let g = fields.next_number()?;
    let b = fields.next_number()?;
    Some(AnsiColor::Bit24 { r, g, b })
}

/// The color of the 256-color palette whose number is the first field.
#[inline(always)]
fn color_by_number(fields: &mut Fields<'_>) -> Option<AnsiColor>
    ensures read { (result, fields.new) ≡ color_by_number fields.old }
    ensures extended { IfSome result (λ c. IsTrue (is_extended_color c)) }
{
    let number = fields.next_number()?;
    Some(AnsiColor::Bit8(number))
}

/// A fast path: a code that reads a color and the parameter bytes after it, if they begin with one.
#[inline(always)]
pub(crate) fn color_code(parameters: &[u8]) -> Option<(u8, &[u8])>
    ensures code { IfSome result (λ first. ReadsColor first.0) }
    ensures first { IfSome result (λ first.
        (Some (Some first.0), fields_of first.1.now) ≡ first_field code_of (fields_of parameters.now)) }
{
    match parameters {
        [b'3', b'8', b';', rest @ ..] => Some((38, rest)),
        [b'4', b'8', b';', rest @ ..] => Some((48, rest)),
        _ => None,
    }
}

/// A fast path: the color that the parameter bytes are, if they are those of one color, of 256 or by its
/// parts. `None` says nothing.
#[inline(always)]
pub(crate) fn lone_color(parameters: &[u8]) -> Option<AnsiColor>
    ensures read { IfSome result (λ c. read_color (fields_of parameters.now) ≡ (Some c, [])) }
    ensures extended { IfSome result (λ c. IsTrue (is_extended_color c)) }
{
    match parameters {
        [b'5', b';', number @ ..] => Some(AnsiColor::Bit8(lone_code(number)?)),
        [b'2', b';', parts @ ..] => {
            let (r, rest) = short_field(parts)?;
            let (g, rest) = short_field(rest)?;
            let b = lone_code(rest)?;
            Some(AnsiColor::Bit24 { r, g, b })
        }
        _ => None,
    }
}
