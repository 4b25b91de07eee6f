//! The start and the close of a style, for printing. Each code has a sequence of its own.
ghost use Rattle.std.specs.Prelude.{◌<◌, ◌++◌, ◌∷◌, [], Some, codes, decimal, flat_map, length};
ghost use Rattle.std.specs.Prelude.{if◌then◌else◌, ◌≡◌, ◌&&◌, IsAscii};
ghost use Rattle.ansi_style.specs.Writing.{WroteOnOk, Keeps, color_front, color_sequence};
ghost use Rattle.ansi_style.specs.Writing.{color_sequence_if_set};
ghost use Rattle.ansi_style.specs.States.{has, has_one, rendition_of};
ghost use Rattle.ansi_style.specs.Written.{written, written_all, color_codes};
ghost use Rattle.ansi_style.specs.Written.{font_codes, start, close, close_if_any};
ghost use Rattle.ansi_items.specs.declared.ansitok.AnsiColor.TheVariants.{Bit8, Bit24};

use crate::state::Style;
use crate::state::attributes::Attributes;
use crate::state::sink::Sink;
use crate::styles::has_any;
use ansi_items::ESC;
use ansi_items::ansitok::AnsiColor;
use bitflags::Flags;
use std::fmt;
use std::marker::Model;
use std::str::from_utf8_unchecked;

/// Prints the start of a style: the sequences that set it, one for each code. The output has at
/// most `longest_start` bytes, 163. Printing doesn't allocate, and an `Err` is the writer's. (The
/// Rust crate.)
///
/// ```
/// let block = get_blocks(rt.alloc(), "\x1b[31;1mred").next().ok_or("no block")??;
/// let start = block.style().start().to_string(rt.alloc())?;
/// assert!(rt; start.as_str() == "\x1b[1m\x1b[31m");
/// ```
#[derive(Drop)]
pub struct AnsiSequenceStart<'a>(pub(super) &'a Style);

/// Prints the close of a style: the sequences that reset what it sets, or nothing if there is
/// nothing to reset. The output has at most `longest_close` bytes, 88. Printing doesn't allocate,
/// and an `Err` is the writer's. (The Rust crate, the font counted.)
///
/// ```
/// let block = get_blocks(rt.alloc(), "\x1b[31;1mred").next().ok_or("no block")??;
/// let end = block.style().end().to_string(rt.alloc())?;
/// assert!(rt; end.as_str() == "\x1b[22m\x1b[39m");
/// ```
#[derive(Drop)]
pub struct AnsiSequenceEnd<'a>(pub(super) &'a Style);

impl<'a> Model for AnsiSequenceStart<'a> {
    ghost use Rattle.ansi_style.specs.Rendition.{Rendition};
    ghost use Rattle.ansi_style.specs.States.{rendition_of};

    ghost Value = { Rendition };

    ghost view = { λ s. rendition_of s.0.now };
}

impl<'a> Model for AnsiSequenceEnd<'a> {
    ghost use Rattle.ansi_style.specs.Rendition.{Rendition};
    ghost use Rattle.ansi_style.specs.States.{rendition_of};

    ghost Value = { Rendition };

    ghost view = { λ s. rendition_of s.0.now };
}

impl AnsiSequenceEnd<'_> {
    /// The sequence that resets every style. (The Rust crate; ECMA-48, section 8.3.117.)
    ///
    /// ```
    /// assert!(rt; AnsiSequenceEnd::RESET_ALL == "\x1b[0m");
    /// ```
    pub const RESET_ALL: &'static str = "\u{1b}[0m";
}

impl fmt::Display for AnsiSequenceStart<'_> {
    ghost output = { λ s. Some (start s) };

    fn fmt<W: fmt::Write>(&self, f: &mut fmt::Formatter<W>) -> fmt::Result {
        write_start(f, self.0)
    }
}

impl fmt::Display for AnsiSequenceEnd<'_> {
    ghost output = { λ s. Some (close_if_any s) };

    fn fmt<W: fmt::Write>(&self, f: &mut fmt::Formatter<W>) -> fmt::Result {
        if !has_any(self.0) {
            return Ok(());
        }
        write_close(f, self.0)
    }
}

/// Sequences, each with the attributes that require it. One set attribute is enough.
type Rows = &'static [(Attributes, &'static str)];

const START_INTENSITY: Rows = &[
    (Attributes::BOLD, "\u{1b}[1m"),
    (Attributes::FAINT, "\u{1b}[2m"),
];

const START_LETTERS: Rows = &[
    (Attributes::ITALIC, "\u{1b}[3m"),
    (Attributes::UNDERLINE, "\u{1b}[4m"),
    (Attributes::SLOW_BLINK, "\u{1b}[5m"),
    (Attributes::RAPID_BLINK, "\u{1b}[6m"),
    (Attributes::INVERSE, "\u{1b}[7m"),
    (Attributes::HIDE, "\u{1b}[8m"),
    (Attributes::CROSSED_OUT, "\u{1b}[9m"),
];

const START_SHAPES: Rows = &[
    (Attributes::FRAKTUR, "\u{1b}[20m"),
    (Attributes::DOUBLE_UNDERLINE, "\u{1b}[21m"),
    (Attributes::PROPORTIONAL_SPACING, "\u{1b}[26m"),
];

const START_FRAMES: Rows = &[
    (Attributes::FRAMED, "\u{1b}[51m"),
    (Attributes::ENCIRCLED, "\u{1b}[52m"),
    (Attributes::OVERLINED, "\u{1b}[53m"),
    (Attributes::IDEOGRAM_UNDERLINE, "\u{1b}[60m"),
    (Attributes::IDEOGRAM_DOUBLE_UNDERLINE, "\u{1b}[61m"),
    (Attributes::IDEOGRAM_OVERLINE, "\u{1b}[62m"),
    (Attributes::IDEOGRAM_DOUBLE_OVERLINE, "\u{1b}[63m"),
    (Attributes::IDEOGRAM_STRESS_MARKING, "\u{1b}[64m"),
    (Attributes::SUPERSCRIPT, "\u{1b}[73m"),
    (Attributes::SUBSCRIPT, "\u{1b}[74m"),
];

const CLOSE_LETTERS: Rows = &[
    (Attributes::ITALIC_OR_FRAKTUR, "\u{1b}[23m"),
    (Attributes::UNDERLINES, "\u{1b}[24m"),
    (Attributes::BLINK, "\u{1b}[25m"),
    (Attributes::INVERSE, "\u{1b}[27m"),
    (Attributes::HIDE, "\u{1b}[28m"),
    (Attributes::CROSSED_OUT, "\u{1b}[29m"),
];

const CLOSE_FRAMES: Rows = &[
    (Attributes::PROPORTIONAL_SPACING, "\u{1b}[50m"),
    (Attributes::FRAMED_OR_ENCIRCLED, "\u{1b}[54m"),
    (Attributes::OVERLINED, "\u{1b}[55m"),
    (Attributes::IDEOGRAM, "\u{1b}[65m"),
];

const CLOSE_ENDS: Rows = &[
    (Attributes::SCRIPT, "\u{1b}[75m"),
    (Attributes::UNKNOWN, "\u{1b}[0m"),
];

/// Writes the start of a style. Most styles have a color or are bold, and nothing else.
pub(crate) fn write_start<W: Sink>(out: &mut W, style: &Style) -> fmt::Result
    ensures wrote { WroteOnOk W.took out.old result (start (rendition_of style.now))
        out.new }
    ensures kept { Keeps W.begins out.old out.new }
{
    let set = style.attributes;
    if set.has_font() | set.intersects(Attributes::RARE) {
        return write_rare_start(out, *style);
    }
    write_rows(
        out,
        set.intersection(Attributes::INTENSITY),
        START_INTENSITY,
    )?;
    write_colors(out, style)
}

/// The same for any style. It is taken by value, so that a style that isn't rare stays in registers.
#[inline(never)]
fn write_rare_start<W: Sink>(out: &mut W, style: Style) -> fmt::Result
    ensures wrote { WroteOnOk W.took out.old result (start (rendition_of style)) out.new }
    ensures kept { Keeps W.begins out.old out.new }
{
    let set = style.attributes;
    write_rows(
        out,
        set.intersection(Attributes::INTENSITY),
        START_INTENSITY,
    )?;
    write_rows(out, set.intersection(Attributes::LETTERS), START_LETTERS)?;
    write_font(out, set.font())?;
    write_rows(out, set.intersection(Attributes::SHAPES), START_SHAPES)?;
    write_colors(out, &style)?;
    write_rows(out, set.intersection(Attributes::FRAMES), START_FRAMES)
}

/// Writes the close of a style. Most styles have a color or are bold, and nothing else.
pub(crate) fn write_close<W: Sink>(out: &mut W, style: &Style) -> fmt::Result
    ensures wrote { WroteOnOk W.took out.old result (close (rendition_of style.now))
        out.new }
    ensures kept { Keeps W.begins out.old out.new }
{
    let set = style.attributes;
    if set.has_font() | set.intersects(Attributes::RARE) {
        return write_rare_close(out, *style);
    }
    write_when(out, is_unknown_after_reset(set), "\u{1b}[0m")?;
    write_when(out, set.intersects(Attributes::INTENSITY), "\u{1b}[22m")?;
    write_when(out, style.foreground.is_some(), "\u{1b}[39m")?;
    write_when(out, style.background.is_some(), "\u{1b}[49m")?;
    write_when(out, style.underline_color.is_some(), "\u{1b}[59m")?;
    write_rows(out, set.intersection(Attributes::ENDS), CLOSE_ENDS)
}

/// The same for any style. It is taken by value, so that a style that isn't rare stays in registers.
#[inline(never)]
fn write_rare_close<W: Sink>(out: &mut W, style: Style) -> fmt::Result
    ensures wrote { WroteOnOk W.took out.old result (close (rendition_of style)) out.new }
    ensures kept { Keeps W.begins out.old out.new }
{
    let set = style.attributes;
    write_when(out, is_unknown_after_reset(set), "\u{1b}[0m")?;
    write_when(out, set.has_font(), "\u{1b}[10m")?;
    write_when(out, set.intersects(Attributes::INTENSITY), "\u{1b}[22m")?;
    write_rows(out, set.intersection(Attributes::LETTERS), CLOSE_LETTERS)?;
    write_when(out, style.foreground.is_some(), "\u{1b}[39m")?;
    write_when(out, style.background.is_some(), "\u{1b}[49m")?;
    write_rows(out, set.intersection(Attributes::FRAMES), CLOSE_FRAMES)?;
    write_when(out, style.underline_color.is_some(), "\u{1b}[59m")?;
    write_rows(out, set.intersection(Attributes::ENDS), CLOSE_ENDS)
}

/// Whether an unknown code was read after a reset. A close resets every style first then.
#[inline(always)]
fn is_unknown_after_reset(set: Attributes) -> bool
    ensures { result ≡ (has set.0 23 && has set.0 22) }
{
    set.contains(Attributes::UNKNOWN) & set.contains(Attributes::RESET)
}

/// Writes the sequence of each row of which at least one attribute is in the set.
#[inline(always)]
fn write_rows<W: Sink>(out: &mut W, set: Attributes, rows: &[(Attributes, &str)]) -> fmt::Result
    ensures wrote { WroteOnOk W.took out.old result
        (flat_map (λ row. if has_one set.0 row.0.0 then row.1.now else []) rows.now) out.new }
    ensures kept { Keeps W.begins out.old out.new }
{
    if set.is_empty() {
        return Ok(());
    }
    write_each_row(out, set, rows)
}

/// The same, row by row.
fn write_each_row<W: Sink>(out: &mut W, set: Attributes, rows: &[(Attributes, &str)]) -> fmt::Result
    ensures wrote { WroteOnOk W.took out.old result
        (flat_map (λ row. if has_one set.0 row.0.0 then row.1.now else []) rows.now) out.new }
    ensures kept { Keeps W.begins out.old out.new }
{
    for (attributes, sequence) in rows {
        write_when(out, set.intersects(*attributes), sequence)?;
    }
    Ok(())
}

/// Writes a sequence if the condition holds.
#[tactic(auto, using(crate::proofs::WritingLemmas::wrote_nothing, crate::proofs::WritingLemmas::wrote_once))]
#[inline(always)]
fn write_when<W: Sink>(out: &mut W, is_set: bool, sequence: &str) -> fmt::Result
    ensures wrote { WroteOnOk W.took out.old result (if is_set then sequence.now else [])
        out.new }
    ensures kept { Keeps W.begins out.old out.new }
{
    if is_set { out.write(sequence) } else { Ok(()) }
}

/// Writes the codes of the colors that are set.
#[tactic(auto, unfolding(crate::specs::States::rendition_of))]
#[inline(always)]
fn write_colors<W: Sink>(out: &mut W, style: &Style) -> fmt::Result
    ensures wrote { WroteOnOk W.took out.old result
        (written_all (color_codes (codes "38") (rendition_of style.now).foreground
        ++ color_codes (codes "48") (rendition_of style.now).background
        ++ color_codes (codes "58") (rendition_of style.now).underline_color)) out.new }
    ensures kept { Keeps W.begins out.old out.new }
{
    write_color(out, b'3', style.foreground.color())?;
    write_color(out, b'4', style.background.color())?;
    write_color(out, b'5', style.underline_color.color())
}

/// Writes the code of a font, if one is set.
fn write_font<W: Sink>(out: &mut W, font: Option<u8>) -> fmt::Result
    ensures wrote { WroteOnOk W.took out.old result
        (written_all (font_codes font)) out.new }
    ensures kept { Keeps W.begins out.old out.new }
{
    match font {
        None => Ok(()),
        Some(number) => write_code(out, number),
    }
}

/// Writes the sequence of a color, if one is set. The code 38, 48 or 58, of which `tens` is the
/// first digit, begins that of a color beyond the sixteen.
#[tactic(auto, using(crate::proofs::WritingLemmas::wrote_nothing, crate::proofs::WritingLemmas::wrote_once))]
#[inline(always)]
fn write_color<W: Sink>(out: &mut W, tens: u8, color: Option<AnsiColor>) -> fmt::Result
    requires { tens < 128 }
    ensures wrote { WroteOnOk W.took out.old result
        (color_sequence_if_set (tens ∷ codes "8") color) out.new }
    ensures kept { Keeps W.begins out.old out.new }
{
    match color {
        None => Ok(()),
        Some(AnsiColor::Bit4(code)) => write_code(out, code),
        Some(AnsiColor::Bit8(number)) => write_color_of_256(out, tens, number),
        Some(AnsiColor::Bit24 { r, g, b }) => write_true_color(out, tens, r, g, b),
    }
}

/// Writes the sequence of one of 256 colors.
#[inline(never)]
fn write_color_of_256<W: Sink>(out: &mut W, tens: u8, number: u8) -> fmt::Result
    requires { tens < 128 }
    ensures wrote { WroteOnOk W.took out.old result
        (color_sequence (tens ∷ codes "8") (Bit8 number)) out.new }
    ensures kept { Keeps W.begins out.old out.new }
{
    write_color_front(out, tens, b'5')?;
    write_number(out, number, b'm')
}

/// Writes the sequence of a color by its red, green and blue.
#[inline(never)]
fn write_true_color<W: Sink>(out: &mut W, tens: u8, r: u8, g: u8, b: u8) -> fmt::Result
    requires { tens < 128 }
    ensures wrote { WroteOnOk W.took out.old result
        (color_sequence (tens ∷ codes "8") (Bit24 r g b)) out.new }
    ensures kept { Keeps W.begins out.old out.new }
{
    write_color_front(out, tens, b'2')?;
    write_number(out, r, b';')?;
    write_number(out, g, b';')?;
    write_number(out, b, b'm')
}

/// Writes what begins the sequence of a color beyond the sixteen.
#[inline(always)]
fn write_color_front<W: Sink>(out: &mut W, tens: u8, kind: u8) -> fmt::Result
    requires tens { tens < 128 }
    requires kind { kind < 128 }
    ensures wrote { WroteOnOk W.took out.old result (color_front (tens ∷ codes "8") (kind ∷ []))
        out.new }
    ensures kept { Keeps W.begins out.old out.new }
{
    if W::IN_PIECES {
        out.write("\u{1b}[")?;
        write_ascii(out, &[tens, b'8'])?;
        return write_ascii(out, &[b';', kind, b';']);
    }
    write_ascii(out, &[ESC, b'[', tens, b'8', b';', kind, b';'])
}

/// Writes the sequence of a code. Most codes of colors and fonts have two digits, and then it is
/// written at once.
#[inline(never)]
fn write_code<W: Sink>(out: &mut W, code: u8) -> fmt::Result
    ensures wrote { WroteOnOk W.took out.old result (written (decimal code)) out.new }
    ensures kept { Keeps W.begins out.old out.new }
{
    if code < 10 || 100 <= code {
        out.write("\u{1b}[")?;
        return write_number(out, code, b'm');
    }
    let (tens, ones) = (b'0' + code / 10, b'0' + code % 10);
    if W::IN_PIECES {
        out.write("\u{1b}[")?;
        return write_ended(out, &[tens, ones, b'm']);
    }
    write_ascii(out, &[ESC, b'[', tens, ones, b'm'])
}

/// Writes a number in decimal, and an ASCII byte after it. A copy of a known length is quicker, so
/// each number of digits has an array of its own.
fn write_number<W: Sink>(out: &mut W, number: u8, after: u8) -> fmt::Result
    requires { after < 128 }
    ensures wrote { WroteOnOk W.took out.old result (decimal number ++ after ∷ []) out.new }
    ensures kept { Keeps W.begins out.old out.new }
{
    let ones = b'0' + number % 10;
    if number < 10 {
        write_ended(out, &[ones, after])
    } else if number < 100 {
        write_ended(out, &[b'0' + number / 10, ones, after])
    } else {
        let tens = number / 10 % 10;
        write_ended(out, &[b'0' + number / 100, b'0' + tens, ones, after])
    }
}

/// Writes ASCII bytes, of which the last is a piece of its own.
#[inline(always)]
fn write_ended<W: Sink>(out: &mut W, bytes: &[u8]) -> fmt::Result
    requires ascii { IsAscii bytes.now }
    requires some { 0 < length bytes.now }
    ensures wrote { WroteOnOk W.took out.old result bytes.now out.new }
    ensures kept { Keeps W.begins out.old out.new }
{
    if W::IN_PIECES {
        let (digits, last) = bytes.split_at(bytes.len() - 1);
        write_ascii(out, digits)?;
        return write_ascii(out, last);
    }
    write_ascii(out, bytes)
}

/// Writes ASCII bytes.
#[inline(always)]
fn write_ascii<W: Sink>(out: &mut W, bytes: &[u8]) -> fmt::Result
    requires { IsAscii bytes.now }
    ensures wrote { WroteOnOk W.took out.old result bytes.now out.new }
    ensures kept { Keeps W.begins out.old out.new }
{
    out.write(unsafe { from_utf8_unchecked(bytes) })
}
