//! Where positions of a plain text are in its text.
ghost use Rattle.std.specs.Prelude.{◌≡◌, MatchOption, IfSome, IsFalse};
ghost use Rattle.ansi_items.specs.Plain.{plain};
ghost use Rattle.ansi_style.specs.Reading.{style_within};
ghost use Rattle.ansi_style.specs.States.{rendition_of};
ghost use Rattle.ansi_search.specs.Positions.{is_good_position};
ghost use Rattle.ansi_search.specs.Offsets.{StandsIn};

use ansi_items::ansitok::{Kind, Scanner};
use ansi_style::state::Style;
use ansi_style::styles;

/// The offset of a position in the text, after every sequence up to there, or `None` if the
/// position isn't good. A position past the end counts as the end. Every SGR up to there changes
/// the style.
#[inline(always)]
pub fn walk_to(style: &mut Style, text: &str, position: usize) -> Option<usize>
    ensures offset { MatchOption result (IsFalse (is_good_position (plain text.now) position))
        (StandsIn text.now position) }
    ensures style { IfSome result (λ _.
        rendition_of style.new ≡ style_within (rendition_of style.old) text.now position) }
{
    let mut remaining = position;
    for item in Scanner::new(text) {
        let piece = &text[item.start..item.end];
        if item.kind == Kind::Text {
            if remaining < piece.len() {
                let offset = item.start + remaining;
                if !text.is_char_boundary(offset) {
                    return None;
                }
                return Some(offset);
            }
            remaining -= piece.len();
        } else if item.kind == Kind::Sgr {
            styles::apply(style, piece);
        }
    }
    Some(text.len())
}

/// The same, without a style.
pub fn offset_at(text: &str, position: usize) -> Option<usize>
    ensures { MatchOption result (IsFalse (is_good_position (plain text.now) position))
        (StandsIn text.now position) }
{
    let mut remaining = position;
    for item in Scanner::new(text) {
        let piece = &text[item.start..item.end];
        if item.kind == Kind::Text {
            if remaining < piece.len() {
                let offset = item.start + remaining;
                if !text.is_char_boundary(offset) {
                    return None;
                }
                return Some(offset);
            }
            remaining -= piece.len();
        }
    }
    Some(text.len())
}
