//! The calls on safe texts, for every type that implements `AnsiStr`.
ghost use Rattle.std.specs.Prelude.{◌≡◌, ◌↔◌, ◌+◌, ◌*◌, ◌≤◌, [], length, IsTrue, IsOk, IfOk};
ghost use Rattle.std.specs.Cow.{cow_str_bytes, IsBorrowedStr};
ghost use Rattle.ansi_style.specs.Written.{longest_close};
ghost use Rattle.ansi_safe.specs.Links.{ending, IsClosed, longest_link_end};
ghost use Rattle.ansi_safe.specs.Safe.{is_safe};
ghost use Rattle.ansi_safe.specs.Sanitized.{growth, sanitized};

use crate::policy::{Links, Policy};
use crate::safe::{is_safe, sanitize};
use ansi_str::AnsiStr;
use std::alloc::{AllocError, Global};
use std::borrow::CowStr;

/// Safe output: what a stranger's text may do to a terminal that it is written to.
///
/// Implemented for every type that implements [`AnsiStr`]. The results depend on the text alone,
/// not on its type.
///
/// ```
/// assert!(rt; "\x1b[31mred\x1b[39m".ansi_is_safe(Links::Remove));
/// assert!(rt; !String::from_str(rt.alloc(), "\x1b[2J")?.ansi_is_safe(Links::Remove));
/// ```
pub trait AnsiSafe: AnsiStr {
    /// Whether the text is safe: whether it has nothing but printing characters, TAB, line ends,
    /// select graphic renditions and, if links are kept, clean link sequences.
    ///
    /// A carriage return is allowed directly before a line feed of the same run alone. A link
    /// sequence (OSC 8) is clean if its address has at most 2,083 bytes and its parameters have at most
    /// 253, and each byte between its `ESC ]` and its terminator is one of 20 to 7E. So there is no
    /// other sequence, no lone escape, no other control (U+0000 to U+001F and
    /// U+007F to U+009F), and no bidirectional embedding, override or isolate (U+202A to U+202E and
    /// U+2066 to U+2069). A safe text may leave a style or a link open. Doesn't allocate. (Own.)
    ///
    /// ```
    /// assert!(rt; "a\tb\r\n".ansi_is_safe(Links::Remove));
    /// assert!(rt; !"over\rwritten".ansi_is_safe(Links::Remove));
    /// ```
    final fn ansi_is_safe(&self, links: Links) -> bool
        ensures { result ≡ is_safe links (Self.text self.now) }
    {
        is_safe(self.as_text(), links)
    }

    /// The text made safe, whatever is in it: what isn't allowed in a safe text is dropped or shown,
    /// and what is open at its end is ended.
    ///
    /// What stays is copied unchanged. Shown, an ESC is `^[`, U+0000 to U+001F are `^@` to `^_`,
    /// U+007F is `^?`, and U+0080 to U+009F and the bidirectional controls are as `<U+009B>`. Of a
    /// sequence that isn't allowed, every character is dropped, or every control in it is shown so
    /// and the other characters as they are. At the end the open link and then the open style are
    /// closed, as `ansi_cut` closes a style. The result leaves nothing open, and made safe again it
    /// is the same, a borrow.
    ///
    /// Returns a borrow, and doesn't allocate, exactly if the text is safe and leaves nothing open.
    /// Otherwise the result has at most 7 bytes for the link and 88 for the style more than the
    /// text, or if the rest is shown than four times the text. `Err` means out of memory. Takes
    /// linear time. (Own.)
    ///
    /// ```
    /// let policy = Policy { rest: Rest::Show, links: Links::Keep };
    /// let safe = "\x1b]0;title\x07\x1b[31mred".ansi_sanitize(rt.alloc(), policy)?;
    /// assert!(rt; safe.as_str() == "^[]0;title^G\x1b[31mred\x1b[39m");
    /// ```
    final fn ansi_sanitize(&self, alloc: Global, policy: Policy) -> Result<CowStr<'_>, AllocError>
        ensures bytes { IfOk result (λ c. cow_str_bytes c ≡ sanitized policy (Self.text self.now)) }
        ensures borrowed { IfOk result (λ c. IsBorrowedStr c
            ↔ (IsTrue (is_safe policy.links (Self.text self.now))
            × (ending (Self.text self.now) ≡ []))) }
        ensures len { IfOk result (λ c. length (cow_str_bytes c)
            ≤ growth policy.rest * length (Self.text self.now) + longest_link_end + longest_close) }
        ensures takes_no_memory { IsTrue (is_safe policy.links (Self.text self.now))
            × (ending (Self.text self.now) ≡ []) → IsOk result }
        ensures safe { IfOk result (λ c. IsTrue (is_safe policy.links (cow_str_bytes c))) }
        ensures closed { IfOk result (λ c. IsClosed (cow_str_bytes c)) }
    {
        sanitize(alloc, self.as_text(), policy)
    }
}

impl<T: AnsiStr> AnsiSafe for T {}
