//! The style and the link that are open at a place of a text, without a borrow of the text.
ghost use Rattle.std.specs.Prelude.{◌≡◌, slice_range};
ghost use Rattle.ansi_items.specs.Plain.{marks};
ghost use Rattle.ansi_style.specs.Rendition.{plain_style};
ghost use Rattle.ansi_style.specs.Reading.{style_after_from};
ghost use Rattle.ansi_style.specs.States.{rendition_of};
ghost use Rattle.ansi_safe.specs.Links.{link_after, link_after_all};
ghost use Rattle.ansi_wraps.specs.WrapStates.{open_link, IsCharRange};

use ansi_items::ansitok::{Kind, Scanner};
use ansi_safe::links::{Pen, address_of};
use ansi_style::state::Style;
use ansi_style::styles;

/// The style open at a place of a text, and where in the text the sequence is that opened its link.
/// If no link is open, its two ends are the same.
#[derive(Clone, Copy)]
pub(crate) struct PenAt {
    style: Style,
    link_start: usize,
    link_end: usize,
}

impl PenAt {
    /// The pen before a text: no style and no link is open.
    pub(crate) fn plain() -> PenAt
        ensures style { rendition_of result.style ≡ plain_style }
        ensures start { result.link_start ≡ 0 }
        ensures end { result.link_end ≡ 0 }
    {
        PenAt {
            style: styles::plain_style(),
            link_start: 0,
            link_end: 0,
        }
    }

    /// The pen with its link.
    pub(crate) fn pen<'t>(&self, text: &'t str) -> Pen<'t>
        requires { IsCharRange text.now self.now.link_start self.now.link_end }
        ensures style { result.style ≡ self.now.style }
        ensures link { result.link.now ≡ open_link text.now self.now }
    {
        Pen {
            style: self.style,
            link: &text[self.link_start..self.link_end],
        }
    }

    /// The pen after the stretch of the text from `start` up to `end`, if this is the pen before
    /// it. Doesn't allocate.
    pub(crate) fn after(self, text: &str, start: usize, end: usize) -> PenAt
        requires link { IsCharRange text.now self.link_start self.link_end }
        requires range { IsCharRange text.now start end }
        ensures style { rendition_of result.style
            ≡ style_after_from (rendition_of self.style) (slice_range text.now start end) }
        ensures link { open_link text.now result
            ≡ link_after_all (open_link text.now self) (marks (slice_range text.now start end)) }
        ensures range { IsCharRange text.now result.link_start result.link_end }
    {
        let mut style = self.style;
        let mut link = (self.link_start, self.link_end);
        let part = &text[start..end];
        for item in Scanner::new(part) {
            if item.kind == Kind::Sgr {
                styles::apply(&mut style, &part[item.start..item.end]);
            } else if item.kind == Kind::Other {
                link = link_after(text, link, start + item.start, start + item.end);
            }
        }
        PenAt {
            style,
            link_start: link.0,
            link_end: link.1,
        }
    }
}

/// Where the link is after the whole sequence from `start` up to `end`, if `link` is open before
/// it.
fn link_after(text: &str, link: (usize, usize), start: usize, end: usize) -> (usize, usize)
    requires link { IsCharRange text.now link.0 link.1 }
    requires sequence { IsCharRange text.now start end }
    ensures link { slice_range text.now result.0 result.1
        ≡ link_after (slice_range text.now link.0 link.1) (slice_range text.now start end) }
    ensures range { IsCharRange text.now result.0 result.1 }
{
    match address_of(text[start..end].as_bytes()) {
        None => link,
        Some(address) if address.is_empty() => (0, 0),
        Some(_) => (start, end),
    }
}
