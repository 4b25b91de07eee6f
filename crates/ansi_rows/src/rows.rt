//! The fields of a row. `rows/README.md` describes the rows and the lines that this program reads.
use std::alloc::Global;

/// The contents of a line.
#[derive(Drop)]
pub enum Line {
    Fields(Vec<String>),
    /// A text isn't UTF-8.
    NotUtf8,
    /// A field is malformed, or the program is out of memory.
    Unread,
}

/// The bytes of hexadecimal digits.
fn bytes_of(alloc: Global, digits: &str) -> Option<Vec<u8>> {
    let mut bytes = Vec::new(alloc);
    for place in (0..digits.len()).step_by(2) {
        let pair = digits.get(place..place.saturating_add(2))?;
        bytes.push(u8::from_str_radix(pair, 16).ok()?).ok()?;
    }
    Some(bytes)
}

/// The bytes of a text: pieces with a `+` between them, of which `N*HEX` is HEX repeated N times.
fn text_of(alloc: Global, pieces: &str) -> Option<Vec<u8>> {
    let mut bytes = Vec::new(alloc);
    for piece in pieces.split('+') {
        let (count, digits) = piece.split_once('*').unwrap_or(("1", piece));
        let once = bytes_of(alloc, digits)?;
        for _ in 0..count.parse::<u32>().ok()? {
            bytes.extend_from_slice(once.as_slice()).ok()?;
        }
    }
    Some(bytes)
}

/// A text, which begins with `x`, or another field as it is.
fn field_of(alloc: Global, field: &str) -> Option<Vec<u8>> {
    match field.strip_prefix('x') {
        Some(pieces) => text_of(alloc, pieces),
        None => Vec::from_slice(alloc, field.as_bytes()).ok(),
    }
}

impl Line {
    pub fn new(alloc: Global, line: &str) -> Self {
        let mut fields = Vec::new(alloc);
        for field in line.split(' ') {
            let Some(bytes) = field_of(alloc, field) else {
                return Line::Unread;
            };
            let Ok(text) = String::from_utf8(bytes) else {
                return Line::NotUtf8;
            };
            if fields.push(text).is_err() {
                return Line::Unread;
            }
        }
        Line::Fields(fields)
    }
}

/// A row by its fields.
#[derive(Clone, Copy)]
pub struct Row<'r> {
    /// Whether the call allocates, if the row says it.
    pub takes_memory: Option<bool>,
    /// A `b` or an `o` for each text that the call returns.
    pub borrows: &'r str,
    pub call: &'r str,
    /// Whether the result is the number of texts, and the row doesn't list them.
    pub is_count: bool,
    pub status: &'r str,
    pub text: &'r str,
    /// The arguments of the call after the text, and the fields after those.
    pub more: &'r [String],
    /// The results of the call.
    pub gives: &'r [String],
}

impl<'r> Row<'r> {
    /// The row with these fields, or `None` if they don't form a row.
    pub fn new(fields: &'r [String]) -> Option<Self> {
        let [memory, borrows, call, status, result, text, more @ ..] = fields else {
            return None;
        };
        let gives = match call.as_str() {
            "split" | "split_at" | "lines" | "wrap" | "matches" | "union" | "difference" => {
                more.get(1..)?
            }
            "wrap_with" => more.get(3..)?,
            "blocks" | "styled_blocks" | "items" | "links" | "pen_after" | "style_of" => more,
            _ if status.as_str() == "0" => std::slice::from_ref(result),
            _ => &[],
        };
        Some(Row {
            takes_memory: (memory.as_str() != "?").then_some(memory.as_str() == "+"),
            borrows: borrows.as_str(),
            call: call.as_str(),
            is_count: call.starts_with("count_"),
            status: status.as_str(),
            text: text.as_str(),
            more,
            gives,
        })
    }

    /// The argument after the text at this index.
    pub fn argument(&self, place: usize) -> Option<&'r str> {
        Some(self.more.get(place)?.as_str())
    }

    /// The same argument as a number, if it is one.
    pub fn number(&self, place: usize) -> Option<usize> {
        self.argument(place)?.parse().ok()
    }
}
