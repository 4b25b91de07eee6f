//! The kinds of edits.

/// One edit of a text, taken as if its sequences weren't there. (The Rust crate lacks it.)
///
/// Positions count bytes of the plain text. If one edit is refused, the result of the whole list is
/// `None`.
///
/// ```
/// let part = Edit::Part { pat: " ", index: 1 };
/// let edits = [part, Edit::Right(1), Edit::Suffix("!"), Edit::Trim];
/// let edited = edit(rt.alloc(), "\x1b[1mlion tiger!", &edits);
/// assert!(rt; matches!(&edited, Ok(Some(text)) if text.as_str() == "\x1b[1miger\x1b[22m"));
/// ```
#[derive(Debug, Clone, Copy, PartialEq, Eq)]
pub enum Edit<'p> {
    /// The text between two positions, or from a start on: [`ansi_cut`](crate::AnsiStr::ansi_cut).
    /// It is refused if a position is inside a character, or the end is below the start.
    Cut { start: usize, end: Option<usize> },
    /// The text before a position: the left side of
    /// [`ansi_split_at`](crate::AnsiStr::ansi_split_at). It is refused if the position is inside a
    /// character.
    Left(usize),
    /// The text from a position on: the right side of
    /// [`ansi_split_at`](crate::AnsiStr::ansi_split_at). It is refused if the position is inside a
    /// character.
    Right(usize),
    /// The part of this index, counted from 0, between the matches of a pattern:
    /// [`ansi_split`](crate::AnsiStr::ansi_split). It is refused if there is no part of that
    /// index.
    Part { pat: &'p str, index: usize },
    /// The text without this prefix: [`ansi_strip_prefix`](crate::AnsiStr::ansi_strip_prefix). It
    /// is refused if the plain text doesn't begin with it.
    Prefix(&'p str),
    /// The text without this suffix: [`ansi_strip_suffix`](crate::AnsiStr::ansi_strip_suffix). It
    /// is refused if the plain text doesn't end with it.
    Suffix(&'p str),
    /// The text without the white space at its ends: [`ansi_trim`](crate::AnsiStr::ansi_trim). It
    /// is never refused.
    Trim,
}
