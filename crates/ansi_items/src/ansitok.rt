//! The items of a text: texts, whole sequences and lone escapes.
pub(crate) mod grammar;

use grammar::Looks;
use std::marker::Model;

/// A color, as SGR codes write it. (ECMA-48, section 8.3.117, and the codes 90 to 97 and 100 to
/// 107, which terminals share; the type, the Rust crate.)
///
/// ```
/// assert!(rt; Color::from(AnsiColor::Bit4(91)) == Color::BrightRed);
/// assert!(rt; Color::from(AnsiColor::Bit8(91)) == Color::Fixed(91));
/// ```
#[derive(Debug, Clone, Copy, PartialEq, Eq, PartialOrd, Ord, Hash)]
pub enum AnsiColor {
    /// One of sixteen colors, by the code that sets it: 30 to 37 or 90 to 97 for a foreground, 40
    /// to 47 or 100 to 107 for a background.
    Bit4(u8),
    /// One of 256 colors.
    Bit8(u8),
    /// A color by its red, green and blue.
    Bit24 { r: u8, g: u8, b: u8 },
}

/// What an item is. (`Sgr` and `Other`, ECMA-48 and ECMA-35; `Text` and `Lone`, own.)
///
/// ```
/// assert!(rt; matches!(Scanner::new("\x1b[31m").next(), Some(item) if item.kind == Kind::Sgr));
/// assert!(rt; matches!(Scanner::new("\x1b[31").next(), Some(item) if item.kind == Kind::Lone));
/// ```
#[derive(Debug, Clone, Copy, PartialEq, Eq)]
pub enum Kind {
    /// A run of plain text up to the next ESC or the end of the text.
    Text,
    /// Select graphic rendition: a control sequence with no intermediate byte, the final byte `m`,
    /// and parameter bytes that aren't for private use, so the first of them, if there is one, is
    /// none of 3C to 3F (ECMA-48, sections 5.4.2 and 8.3.117).
    Sgr,
    /// Any other control sequence, control string or escape sequence (ECMA-48, ECMA-35).
    Other,
    /// An ESC that begins no whole sequence.
    Lone,
}

/// An item of a text: its kind, and the range of the text's bytes that it has, from `start` up to
/// `end`. (Own.)
///
/// Both count bytes of the text with its sequences, not of the plain text. Both are character
/// boundaries.
///
/// ```
/// let text = "\x1b[31mred";
/// let item = Scanner::new(text).next().ok_or("no item")?;
/// assert!(rt; &text[item.start..item.end] == "\x1b[31m");
/// ```
#[derive(Debug, Clone, Copy, PartialEq, Eq)]
pub struct Item {
    pub kind: Kind,
    pub start: usize,
    pub end: usize,
}

/// An iterator over the items of a text, in order. It doesn't allocate.
///
/// Each byte of the text is in one item, and each text has one list of items. An unfinished
/// sequence is no error: its ESC is an item of its own, and what follows is read again. (What a
/// sequence is, ECMA-48 and ECMA-35; of unfinished ones, own.)
///
/// ```
/// let mut items = Scanner::new("a\x1b[1m");
/// assert!(rt; matches!(items.next(), Some(text) if text.kind == Kind::Text && text.end == 1));
/// assert!(rt; matches!(items.next(), Some(bold) if bold.kind == Kind::Sgr && bold.end == 5));
/// assert!(rt; items.next().is_none());
/// ```
#[derive(Drop)]
pub struct Scanner<'a> {
    text: &'a str,
    offset: usize,
    /// Where the next ESC is, at the offset or after it, or the text's length.
    escape: usize,
    reads: u128,
}

impl<'a> Model for Scanner<'a> {
    ghost use Rattle.ansi_items.specs.Scans.{Scan};
    ghost use Rattle.ansi_items.specs.Counts.{IsScanning};

    ghost Value = { Scan };

    ghost view = { λ s. record { text = s.text.now; offset = s.offset } };

    ghost invariant = { λ s. IsScanning s.text.now s.offset s.escape s.reads };
}

impl<'a> Scanner<'a> {
    ghost use Rattle.std.specs.Prelude.{◌≡◌, ◌↔◌, ◌+◌, ◌*◌, ◌≤◌, length, drop, min, List};
    ghost use Rattle.ansi_items.specs.Pieces.{Piece, ArePieces};
    ghost use Rattle.ansi_items.specs.Scans.{pieces_left};
    ghost use Rattle.ansi_items.specs.Counts.{before_escape};

    /// Returns a scanner at the front of the text. It doesn't allocate. (Own.)
    ///
    /// ```
    /// assert!(rt; Scanner::new("").next().is_none());
    /// ```
    pub fn new(text: &'a str) -> Self
        ensures start { result ≡ record { text = text.entry.now; offset = 0 } }

        // What it has left are the pieces of the text, and no others.
        ensures pieces { (ps : List Piece) →
            ArePieces text.entry.now ps ↔ (ps ≡ pieces_left result) }
    {
        let mut looks = Looks { count: 0 };
        let escape = looks.next_escape(text.as_bytes(), 0);
        Scanner {
            text,
            offset: 0,
            escape,
            reads: looks.count,
        }
    }

    /// Returns how many looks at bytes of the text the scanner has taken so far.
    ///
    /// A look at one byte counts 1, and a search counts each byte that it passed over and the one
    /// that it found. A byte that is looked at twice counts twice. So the time of a scan is linear
    /// in the length of the text, whatever the text holds: also if sequences are unfinished, so
    /// that what follows their ESC is read again. It doesn't allocate. (Own.)
    ///
    /// ```
    /// let mut items = Scanner::new("\x1b]");
    /// assert!(rt; items.next().is_some() && items.next().is_some() && items.next().is_none());
    /// assert!(rt; 2 <= items.reads() && items.reads() <= 8);
    /// ```
    pub fn reads(&self) -> u128
        // At every moment there are at most four looks for each byte of the text, and in fact
        // three.
        ensures at_most { result ≤ 4 * length self.now.text }
        ensures at_most_three { result ≤ 3 * length self.now.text }

        // Each byte of the items so far was looked at, and each one up to the next ESC.
        ensures at_least { self.now.offset ≤ result }
        ensures up_to_escape { min (self.now.offset
            + before_escape (drop self.now.offset self.now.text) + 1) (length self.now.text)
            ≤ result }
    {
        self.reads
    }
}

impl<'a> Iterator for Scanner<'a> {
    ghost use Rattle.std.specs.Iterator.{item_count};
    ghost use Rattle.ansi_items.specs.Scans.{Scans, pieces_left};

    type Item = Item;

    ghost next_gives = { Scans };

    ghost remaining = { item_count pieces_left };

    /// Returns the next item, or `None` at the end of the text and ever after.
    #[inline(always)]
    fn next(&mut self) -> Option<Item> {
        let bytes = self.text.as_bytes();
        let start = self.offset;
        if start < self.escape {
            self.offset = self.escape;
            return Some(Item {
                kind: Kind::Text,
                start,
                end: self.escape,
            });
        }
        if start == bytes.len() {
            return None;
        }
        let mut looks = Looks { count: 0 };
        let (front, escape) = looks.mark(bytes, start);
        self.offset += front.len;
        self.escape = escape;
        self.reads += looks.count;
        Some(Item {
            kind: front.kind,
            start,
            end: self.offset,
        })
    }
}
