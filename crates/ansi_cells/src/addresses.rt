//! The address of the hyperlink at a position.
ghost use Rattle.std.specs.Prelude.{◌≡◌, ◌↔◌, ◌≤◌, ◌⊎◌, [], length, IsNone};
ghost use Rattle.std.specs.Option.{option_map};
ghost use Rattle.ansi_items.specs.Plain.{plain};
ghost use Rattle.ansi_items.specs.Sequences.{IsSequence};
ghost use Rattle.ansi_safe.specs.Links.{address_of, link_at};
ghost use Rattle.ansi_cells.specs.Addresses.{address_at};

use ansi_items::ansitok::{Kind, Scanner};
use ansi_safe::links::{address_of, link_after, terminator_len};

/// Like `AnsiColumns::ansi_link_at`; the address it returns lives as long as the text.
///
/// ```
/// assert!(rt; link_at("\x1b]8;;http://x\x1b\\ab\x1b]8;;\x1b\\c", 1) == Some("http://x"));
/// ```
pub fn link_at(text: &str, index: usize) -> Option<&str>
    ensures none { IsNone result
        ↔ ((length (plain text.now) ≤ index) ⊎ (link_at text.now index ≡ [])) }
    ensures bytes { option_map (λ a. a.now) result ≡ address_at text.now index }
{
    let mut remaining = index;
    let mut link = "";
    for item in Scanner::new(text) {
        let piece = &text[item.start..item.end];
        if item.kind == Kind::Text {
            if remaining < piece.len() {
                return address(link);
            }
            remaining -= piece.len();
        } else if item.kind == Kind::Other {
            link = link_after(link, piece);
        }
    }
    None
}

/// The address of a whole sequence if it is a link sequence. `None` for any other sequence, and for
/// an empty `sequence`.
fn address(sequence: &str) -> Option<&str>
    requires { (sequence.now ≡ []) ⊎ IsSequence sequence.now }
    ensures { option_map (λ a. a.now) result ≡ address_of sequence.now }
{
    let address = address_of(sequence.as_bytes())?;
    let end = sequence.len() - terminator_len(sequence.as_bytes());
    Some(&sequence[end - address.len()..end])
}
