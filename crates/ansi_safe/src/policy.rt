//! What is made of the links of a text, and of what isn't allowed in a safe text.

/// What is made of the links of a text. (OSC 8; own.)
///
/// ```
/// let text = "\x1b]8;;http://x\x1b\\link\x1b]8;;\x1b\\";
/// assert!(rt; text.ansi_is_safe(Links::Keep) && !text.ansi_is_safe(Links::Remove));
/// ```
#[derive(Debug, Clone, Copy, PartialEq, Eq)]
pub enum Links {
    /// A link sequence stays if its address has at most 2,083 bytes and its parameters have at most 253,
    /// and each byte between its `ESC ]` and its terminator is printable ASCII.
    Keep,
    /// A link sequence is like any other sequence that isn't allowed in a safe text.
    Remove,
}

/// What is made of what isn't allowed in a safe text. (Own.)
///
/// ```
/// let policy = Policy { rest: Rest::Show, links: Links::Remove };
/// assert!(rt; "a\x07".ansi_sanitize(rt.alloc(), policy)?.as_str() == "a^G");
/// ```
#[derive(Debug, Clone, Copy, PartialEq, Eq)]
pub enum Rest {
    /// It is left out.
    Drop,
    /// It is shown in printing characters: `^[` for ESC, `<U+009B>` for U+009B.
    Show,
}

/// What is made of what isn't allowed in a safe text, and of its links. (Own.)
///
/// ```
/// let policy = Policy { rest: Rest::Drop, links: Links::Remove };
/// assert!(rt; "\x1b[2Ja".ansi_sanitize(rt.alloc(), policy)?.as_str() == "a");
/// ```
#[derive(Debug, Clone, Copy, PartialEq, Eq)]
pub struct Policy {
    pub rest: Rest,
    pub links: Links,
}
