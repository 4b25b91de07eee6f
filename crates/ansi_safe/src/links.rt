//! The link and the style open at the end of a text, and what closes both.
ghost use Rattle.std.specs.Prelude.{◌≡◌, ◌++◌, Option, length, OnOk, IsTrue, IsFalse, ◌↔◌, []};
ghost use Rattle.std.specs.Prelude.{string_bytes, IfSome};
ghost use Rattle.std.specs.Option.{option_map};
ghost use Rattle.ansi_items.specs.Plain.{marks};
ghost use Rattle.ansi_style.specs.States.{rendition_of};
ghost use Rattle.ansi_style.specs.Rendition.{plain_style};
ghost use Rattle.ansi_style.specs.Styled.{style_after};
ghost use Rattle.ansi_style.specs.Reading.{style_after_from};
ghost use Rattle.ansi_safe.specs.Links.{terminator_len, address_of, link_of, link_after};
ghost use Rattle.ansi_safe.specs.Links.{link_after_all, parameters_len, is_short_link};

use ansi_items::ansitok::{Kind, Scanner};
use ansi_style::state::Style;
use ansi_style::styles;
use memchr::memchr;
use std::alloc::{AllocError, Allocator};

/// The sequence that closes a link (OSC 8).
const LINK_END: &str = "\u{1b}]8;;\u{1b}\\";

/// The greatest length of what ends a link and a style, in bytes: `longest_link_end` and
/// `longest_close`.
pub const LONGEST_ENDING: usize = 95;

/// The greatest length of a link's address in a safe text, in bytes (what Internet Explorer and VTE
/// take).
pub const LONGEST_ADDRESS: usize = 2083;

/// The greatest length of its parameters, in bytes: `id=` and 250 bytes (VTE).
const LONGEST_PARAMETERS: usize = 253;

/// The style open at a place of a text, and the sequence that opened its link, which is empty if no
/// link is open.
#[derive(Clone, Copy)]
pub struct Pen<'t> {
    pub style: Style,
    pub link: &'t str,
}

impl<'t> Pen<'t> {
    ghost use Rattle.std.specs.Prelude.{◌≡◌, ◌==◌, not, ◌&&◌, length};
    ghost use Rattle.ansi_style.specs.States.{rendition_of};
    ghost use Rattle.ansi_style.specs.Rendition.{has_any};
    ghost use Rattle.ansi_safe.specs.Links.{link_end};

    /// Whether no style and no link is open.
    pub fn is_plain(&self) -> bool
        ensures { result
            ≡ (not (has_any (rendition_of self.now.style)) && length self.now.link.now == 0) }
    {
        !styles::has_any(&self.style) && self.link.is_empty()
    }

    /// What closes the link, if one is open.
    pub fn link_end(&self) -> &'static str
        ensures { result.now ≡ link_end self.now.link.now }
    {
        if self.link.is_empty() { "" } else { LINK_END }
    }

    /// What ends the link and the style.
    pub fn ending(&self) -> Ending
        ensures link_end { result.link_end.now ≡ link_end self.now.link.now }
        ensures style { result.style ≡ self.now.style }
    {
        Ending {
            link_end: self.link_end(),
            style: self.style,
        }
    }
}

/// The pen before a text: no style and no link is open.
pub fn plain_pen() -> Pen<'static>
    ensures style { rendition_of result.style ≡ plain_style }
    ensures link { result.link.now ≡ [] }
{
    Pen {
        style: styles::plain_style(),
        link: "",
    }
}

/// The pen after a text: the style and the link that it leaves open. `pen.style.start()` and
/// `pen.link` open them again before another text. The link is a borrow of the text. Doesn't
/// allocate. (Own.)
///
/// ```
/// let pen = pen_after("\x1b[31mred \x1b[1mand \x1b]8;;https://a.org\x07bold");
/// assert!(rt; pen.style.is_bold() && pen.style.foreground() == Some(Color::Red));
/// assert!(rt; pen.link == "\x1b]8;;https://a.org\x07");
/// ```
pub fn pen_after(text: &str) -> Pen<'_>
    ensures style { rendition_of result.style ≡ style_after text.now }
    ensures link { result.link.now ≡ link_of (marks text.now) }
{
    pen_after_from(plain_pen(), text)
}

/// The pen after a text, if `before` is the pen before it. Doesn't allocate.
pub fn pen_after_from<'t>(before: Pen<'t>, text: &'t str) -> Pen<'t>
    ensures style { rendition_of result.style
        ≡ style_after_from (rendition_of before.entry.style) text.now }
    ensures link { result.link.now ≡ link_after_all before.entry.link.now (marks text.now) }
{
    let mut style = before.style;
    let mut link = before.link;
    for item in Scanner::new(text) {
        let piece = &text[item.start..item.end];
        if item.kind == Kind::Sgr {
            styles::apply(&mut style, piece);
        } else if item.kind == Kind::Other {
            link = link_after(link, piece);
        }
    }
    Pen { style, link }
}

/// The link after a whole sequence, if `link` is open before it.
pub fn link_after<'t>(link: &'t str, sequence: &'t str) -> &'t str
    ensures { result.now ≡ link_after link.now sequence.now }
{
    match address_of(sequence.as_bytes()) {
        None => link,
        Some(address) if address.is_empty() => "",
        Some(_) => sequence,
    }
}

/// The address of a whole sequence, or `None` if it is no link sequence (OSC 8).
pub fn address_of(sequence: &[u8]) -> Option<&[u8]>
    ensures { option_map (λ a. a.now) result ≡ address_of sequence.now }
{
    let (_, address) = fields_of(sequence)?;
    Some(address)
}

/// Whether a whole sequence is a link sequence (OSC 8) that a safe text may have: its parameters and
/// its address aren't too long.
pub fn is_short_link(sequence: &[u8]) -> bool
    ensures { result ≡ is_short_link sequence.now }
{
    let Some((parameters, address)) = fields_of(sequence) else {
        return false;
    };
    parameters.len() <= LONGEST_PARAMETERS && address.len() <= LONGEST_ADDRESS
}

/// The parameters and the address of a whole sequence, or `None` if it is no link sequence (OSC 8).
fn fields_of(sequence: &[u8]) -> Option<(&[u8], &[u8])>
    ensures parameters { IfSome result (λ f.
        length f.0.now ≡ parameters_len sequence.now) }
    ensures address { option_map (λ f. f.1.now) result ≡ address_of sequence.now }
{
    if !sequence.starts_with(b"\x1b]8;") {
        return None;
    }
    let end = sequence.len() - terminator_len(sequence);
    let fields = sequence.get(4..end)?;
    let parameters = memchr(b';', fields)?;
    Some((&fields[..parameters], &fields[parameters + 1..]))
}

/// The length of the terminator of an operating system command, in bytes.
pub fn terminator_len(sequence: &[u8]) -> usize
    ensures { result ≡ terminator_len sequence.now }
{
    if sequence.ends_with(b"\x07") { 1 } else { 2 }
}

/// What ends the link and the style of a pen.
#[derive(Clone, Copy)]
pub struct Ending {
    pub link_end: &'static str,
    pub style: Style,
}

impl Ending {
    ghost use Rattle.std.specs.Prelude.{◌≡◌, ◌==◌, ◌++◌, length, OnOk, string_bytes};
    ghost use Rattle.ansi_style.specs.States.{rendition_of};
    ghost use Rattle.ansi_style.specs.Written.{close};
    ghost use Rattle.ansi_style.specs.Writing.{KeepsText};

    /// Whether nothing is open.
    pub fn is_empty(&self) -> bool
        ensures { result ≡ (length (self.now.link_end.now
            ++ close (rendition_of self.now.style)) == 0) }
    {
        self.link_end.is_empty() && !styles::has_close(&self.style)
    }

    /// Appends it. `Err` means out of memory; what was appended before it stays.
    #[tactic(auto, using(ansi_style::proofs::FrontLemmas::keeps))]
    pub fn push_to<A: Allocator>(&self, out: &mut String<A>) -> Result<(), AllocError>
        ensures bytes { OnOk result (string_bytes out.new ≡ string_bytes out.old
            ++ (self.now.link_end.now ++ close (rendition_of self.now.style))) }
        ensures kept { KeepsText (string_bytes out.old) (string_bytes out.new) }
    {
        out.push_str(self.link_end)?;
        styles::write_close(&self.style, out)
    }
}
