//! What the crates above do with a style. These are free functions, so that `Style` has only the
//! public methods that callers of `ansi_str` need.
ghost use Rattle.std.specs.Prelude.{◌≡◌, ◌||◌, ◌+◌, ◌++◌, [], length, IsTrue, IfSome, IfOk, OnOk};
ghost use Rattle.std.specs.Prelude.{IsOk, OnErr, ⊤, nat_eq, take, string_bytes, string_capacity};
ghost use Rattle.std.specs.Str.{IsCharBoundary};
ghost use Rattle.ansi_items.specs.Sequences.{is_sgr};
ghost use Rattle.ansi_style.specs.Rendition.{plain_style, has_known, has_any};
ghost use Rattle.ansi_style.specs.Sgr.{apply, apply_parameters};
ghost use Rattle.ansi_style.specs.Written.{start, close, close_if_any};
ghost use Rattle.ansi_style.specs.Numbers.{color_of_numbers};
ghost use Rattle.ansi_style.specs.States.{rendition_of};
ghost use Rattle.ansi_style.specs.Sets.{union, difference, unless_same, is_same_color};

use crate::numbers::ColorNumbers;
use crate::state::attributes::Attributes;
use crate::state::fields::{Fields, lone_code, parameters};
use crate::state::sink::Sink;
use crate::state::table::{color_code, lone_color};
use crate::state::{Style, written};
use arrayvec::ArrayString;
use bitflags::Flags;
use std::alloc::{AllocError, Allocator};
use std::fmt;

/// The plain style, in which nothing is set.
#[tactic(auto, unfolding(crate::specs::States::rendition_of))]
pub fn plain_style() -> Style
    ensures { rendition_of result ≡ plain_style }
{
    Style {
        attributes: Attributes::empty(),
        foreground: ColorNumbers::of(None),
        background: ColorNumbers::of(None),
        underline_color: ColorNumbers::of(None),
    }
}

/// Applies the codes of an SGR, a whole sequence, one after another.
#[inline(always)]
pub fn apply(style: &mut Style, sequence: &str)
    requires { IsTrue (is_sgr sequence.now) }
    ensures { rendition_of style.new ≡ apply (rendition_of style.old) sequence.now }
{
    let parameters = parameters(sequence);
    match lone_code(parameters) {
        Some(code) => style.change(code),
        None => apply_fields(style, parameters),
    }
}

/// Applies the codes of the parameter bytes, one after another. It is a function of its own because
/// most SGRs take the fast path for one short field.
#[inline(never)]
fn apply_fields(style: &mut Style, parameters: &[u8])
    ensures { rendition_of style.new ≡ apply_parameters (rendition_of style.old) parameters.now }
{
    if let Some((code, rest)) = color_code(parameters)
        && let Some(color) = lone_color(rest)
    {
        style.put_color(code, color);
        return;
    }
    let mut fields = Fields::new(parameters);
    while let Some(field) = fields.next_field() {
        style.step(field, &mut fields);
    }
}

/// What is set in either of two styles. A color or a font of `over` is taken before that of `under`,
/// and `reset` and `unknown`, which change nothing that is shown, are those of `under`. Doesn't
/// allocate. (Own.)
///
/// ```
/// let bold_red = style_of(rt.alloc(), "1;31")?.ok_or("no codes")?;
/// let blue = style_of(rt.alloc(), "34")?.ok_or("no codes")?;
/// let both = union(&bold_red, &blue);
/// assert!(rt; both.is_bold() && both.foreground() == Some(Color::Blue));
/// ```
#[tactic(auto, unfolding(crate::specs::States::rendition_of))]
pub fn union(under: &Style, over: &Style) -> Style
    ensures { rendition_of result ≡ union (rendition_of under.now) (rendition_of over.now) }
{
    let shown = over.attributes.intersection(Attributes::KNOWN);
    let font = over.attributes.font().or(under.attributes.font());
    Style {
        attributes: under.attributes.union(shown).with_font(font),
        foreground: over.foreground.or(under.foreground),
        background: over.background.or(under.background),
        underline_color: over.underline_color.or(under.underline_color),
    }
}

/// What is set in `style` and isn't set so in `other`: no attribute, color or font that both have.
/// `reset` and `unknown`, which change nothing that is shown, are those of `style`. Doesn't
/// allocate. (Own.)
///
/// ```
/// let bold_red = style_of(rt.alloc(), "1;31")?.ok_or("no codes")?;
/// let red = style_of(rt.alloc(), "31")?.ok_or("no codes")?;
/// let left = difference(&bold_red, &red);
/// assert!(rt; left.is_bold() && left.foreground().is_none());
/// ```
#[tactic(auto, unfolding(crate::specs::States::rendition_of))]
pub fn difference(style: &Style, other: &Style) -> Style
    ensures { rendition_of result ≡ difference (rendition_of style.now) (rendition_of other.now) }
{
    let shown = other.attributes.intersection(Attributes::KNOWN);
    let font = font_unless_same(style.attributes.font(), other.attributes.font());
    Style {
        attributes: style.attributes.difference(shown).with_font(font),
        foreground: color_unless_same(style.foreground, other.foreground),
        background: color_unless_same(style.background, other.background),
        underline_color: color_unless_same(style.underline_color, other.underline_color),
    }
}

/// The color, or none if the other is the same.
fn color_unless_same(color: ColorNumbers, other: ColorNumbers) -> ColorNumbers
    ensures { color_of_numbers result
        ≡ unless_same is_same_color (color_of_numbers color) (color_of_numbers other) }
{
    let (color, other) = (color.color(), other.color());
    ColorNumbers::of(if color == other { None } else { color })
}

/// The font, or none if the other is the same.
fn font_unless_same(font: Option<u8>, other: Option<u8>) -> Option<u8>
    ensures { result ≡ unless_same nat_eq font other }
{
    if font == other { None } else { font }
}

/// Whether the style has something to reset: a known attribute, a color or a font is set, or
/// `reset` and `unknown` are both set.
#[tactic(auto, unfolding(crate::specs::States::rendition_of))]
pub fn has_any(style: &Style) -> bool
    ensures { result ≡ has_any (rendition_of style.now) }
{
    style.has_known()
        || style.attributes.contains(Attributes::RESET)
            && style.attributes.contains(Attributes::UNKNOWN)
}

/// Whether the close of the style writes something: a known attribute, a color or a font is set, or
/// `unknown` is set.
#[tactic(auto, unfolding(crate::specs::States::rendition_of))]
pub fn has_close(style: &Style) -> bool
    ensures { result ≡ (has_known (rendition_of style.now) || (rendition_of style.now).unknown) }
{
    // `|` for the same reason as in `has_known`
    style.has_known() | style.attributes.contains(Attributes::UNKNOWN)
}

/// Appends the start of the style. `Err` means out of memory, and then nothing is appended.
#[tactic(auto, using(crate::proofs::UnsetLemmas::unset_styles))]
pub fn write_start<A: Allocator>(style: &Style, out: &mut String<A>) -> Result<(), AllocError>
    ensures bytes { OnOk result
        (string_bytes out.new ≡ string_bytes out.old ++ start (rendition_of style.now)) }
    ensures kept { OnErr result (string_bytes out.new ≡ string_bytes out.old) }
{
    if !style.has_known() {
        return Ok(());
    }
    let len = out.len();
    let written = written::write_start(out, style);
    keep_if_written(out, len, written)
}

/// Appends the close of the style. `Err` means out of memory, and then nothing is appended.
#[tactic(auto, using(crate::proofs::UnsetLemmas::unset_styles))]
pub fn write_close<A: Allocator>(style: &Style, out: &mut String<A>) -> Result<(), AllocError>
    ensures bytes { OnOk result
        (string_bytes out.new ≡ string_bytes out.old ++ close (rendition_of style.now)) }
    ensures kept { OnErr result (string_bytes out.new ≡ string_bytes out.old) }
{
    if !has_close(style) {
        return Ok(());
    }
    let len = out.len();
    let written = written::write_close(out, style);
    keep_if_written(out, len, written)
}

/// The most bytes of a start or a close that is made without allocating. Most have fewer.
pub const SHORT: usize = 32;

/// The start of the style, if it has at most `SHORT` bytes. `None` says nothing. Doesn't allocate.
/// (Own.)
pub fn short_start(style: &Style) -> Option<ArrayString<SHORT>>
    ensures { IfSome result (λ s. s.bytes ≡ start (rendition_of style.now)) }
{
    let mut start = ArrayString::new();
    match written::write_start(&mut start, style) {
        Ok(()) => Some(start),
        Err(_) => None,
    }
}

/// The close of the style, if it has at most `SHORT` bytes. `None` says nothing. Doesn't allocate.
/// (Own.)
pub fn short_close(style: &Style) -> Option<ArrayString<SHORT>>
    ensures { IfSome result (λ s. s.bytes ≡ close (rendition_of style.now)) }
{
    let mut close = ArrayString::new();
    match written::write_close(&mut close, style) {
        Ok(()) => Some(close),
        Err(_) => None,
    }
}

/// Takes back what was written after the first `len` bytes, if not all was. `Err` means that.
fn keep_if_written<A: Allocator>(
    out: &mut String<A>,
    len: usize,
    written: fmt::Result,
) -> Result<(), AllocError>
    requires { IsCharBoundary (string_bytes out.old) len }
    ensures written { OnOk result (IsOk written × (out.new ≡ out.old)) }
    ensures kept { OnErr result (string_bytes out.new ≡ take len (string_bytes out.old)) }
{
    if written.is_ok() {
        return Ok(());
    }
    out.truncate(len);
    Err(AllocError)
}

/// An empty text with room for exactly the start of a style, `len` bytes, and the close of a style
/// if that has something to reset. `Err` means out of memory.
pub fn with_room<A: Allocator>(
    alloc: A,
    before: &Style,
    len: usize,
    after: &Style,
) -> Result<String<A>, AllocError>
    ensures bytes { IfOk result (λ s. string_bytes s ≡ []) }
    ensures room { IfOk result (λ s. string_capacity s
        ≡ length (start (rendition_of before.now)) + len
        + length (close_if_any (rendition_of after.now))) }
{
    let mut room = ByteCount(len);
    room.add_start(before)?;
    if has_any(after) {
        room.add_close(after)?;
    }
    String::with_capacity(alloc, room.0)
}

/// The same with room for the close of any style, also of one in which an unknown code alone is
/// open.
pub fn with_room_to_close<A: Allocator>(
    alloc: A,
    before: &Style,
    len: usize,
    after: &Style,
) -> Result<String<A>, AllocError>
    ensures bytes { IfOk result (λ s. string_bytes s ≡ []) }
    ensures room { IfOk result (λ s. string_capacity s
        ≡ length (start (rendition_of before.now)) + len + length (close (rendition_of after.now))) }
{
    let mut count = ByteCount(len);
    count.add_start(before)?;
    count.add_close(after)?;
    String::with_capacity(alloc, count.0)
}

/// A writer that only counts bytes. Its error means that no text can be that long.
#[derive(Drop)]
struct ByteCount(usize);

impl ByteCount {
    /// Adds the length of the start of a style.
    #[tactic(auto, using(crate::proofs::UnsetLemmas::unset_styles))]
    #[inline(always)]
    fn add_start(&mut self, style: &Style) -> Result<(), AllocError>
        ensures { OnOk result
            (self.new.0 ≡ self.old.0 + length (start (rendition_of style.now))) }
    {
        if !style.has_known() {
            return Ok(());
        }
        written::write_start(self, style).or(Err(AllocError))
    }

    /// Adds the length of the close of a style.
    #[tactic(auto, using(crate::proofs::UnsetLemmas::unset_styles))]
    #[inline(always)]
    fn add_close(&mut self, style: &Style) -> Result<(), AllocError>
        ensures { OnOk result
            (self.new.0 ≡ self.old.0 + length (close (rendition_of style.now))) }
    {
        if !has_close(style) {
            return Ok(());
        }
        written::write_close(self, style).or(Err(AllocError))
    }
}

impl Sink for ByteCount {
    ghost took = { λ old bytes new. new.0 ≡ old.0 + length bytes };

    ghost begins = { λ _ _. ⊤ };

    const IN_PIECES: bool = false;

    fn write(&mut self, piece: &str) -> fmt::Result {
        self.0 = self.0.checked_add(piece.len()).ok_or(fmt::Error)?;
        Ok(())
    }
}
