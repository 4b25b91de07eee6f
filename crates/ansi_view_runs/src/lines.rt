//! The lines of an input, and the pieces of long ones.
ghost use Rattle.std.specs.Prelude.{◌≡◌, ◌≤◌, ◌<◌, length, IfNone, IfSome};
ghost use Rattle.ansi_view_runs.specs.Lines.{max_piece, may_begin, piece_len, split_end};
ghost use Rattle.ansi_view_runs.specs.Lines.{HasNoLineFeed};
ghost use Rattle.ansi_view_runs.specs.LineViews.{line_of, BeginsWithLine};

use memchr::memchr;

/// The most bytes of a piece of a line, 1 MiB.
pub const MAX_PIECE: usize = 1_048_576;

/// A line, or a piece of a long one.
#[derive(Clone, Copy)]
pub struct Line<'t> {
    /// Its bytes without its end.
    pub text: &'t [u8],
    /// Its end, which is empty if it has none.
    pub end: &'static str,
}

/// The first line or piece of an input that begins with these bytes, and the bytes after it.
///
/// `None` means that the bytes don't decide it: they have no line feed, and are at most as many as
/// a piece may have.
pub fn split_first(bytes: &[u8]) -> Option<(Line<'_>, &[u8])>
    ensures none { IfNone result (HasNoLineFeed bytes.now × (length bytes.now ≤ max_piece)) }
    ensures first { IfSome result (λ first. BeginsWithLine bytes.now (line_of first.0) first.1.now) }
    ensures shorter { IfSome result (λ first. length first.1.now < length bytes.now) }
{
    let end = memchr(b'\n', bytes).unwrap_or(bytes.len());
    if end > MAX_PIECE {
        let (text, rest) = bytes.split_at(piece_len(bytes));
        return Some((Line { text, end: "" }, rest));
    }
    if end < bytes.len() {
        return Some(split_ended(bytes, end));
    }
    None
}

// The line whose line feed is at `end`, and the bytes after it.
fn split_ended(bytes: &[u8], end: usize) -> (Line<'_>, &[u8])
    requires { end < length bytes.now }
    ensures { (line_of result.0, result.1.now) ≡ split_end end bytes.now }
{
    let rest = &bytes[end + 1..];
    if end > 0 && bytes[end - 1] == b'\r' {
        let text = &bytes[..end - 1];
        return (Line { text, end: "\r\n" }, rest);
    }
    let text = &bytes[..end];
    (Line { text, end: "\n" }, rest)
}

// The length of the first piece of a line that is longer than a piece may be.
fn piece_len(bytes: &[u8]) -> usize
    requires { max_piece < length bytes.now }
    ensures { result ≡ piece_len bytes.now }
{
    if may_begin(bytes[MAX_PIECE]) {
        MAX_PIECE
    } else if may_begin(bytes[MAX_PIECE - 1]) {
        MAX_PIECE - 1
    } else if may_begin(bytes[MAX_PIECE - 2]) {
        MAX_PIECE - 2
    } else if may_begin(bytes[MAX_PIECE - 3]) {
        MAX_PIECE - 3
    } else {
        MAX_PIECE
    }
}

// Whether a character may begin with the byte.
fn may_begin(byte: u8) -> bool
    ensures { result ≡ may_begin byte }
{
    !matches!(byte, 0x80..=0xBF)
}
