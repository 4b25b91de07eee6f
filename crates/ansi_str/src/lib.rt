//! Text with ANSI control sequences, taken as if the sequences weren't there.
//!
//! ```
//! let text = "\x1b[31mred\x1b[39m and plain";
//! let plain = text.ansi_strip(rt.alloc())?;
//! assert!(rt; plain.as_str() == "red and plain");
//! let cut = text.ansi_cut(rt.alloc(), 1..7)?;
//! assert!(rt; cut.as_str() == "\x1b[31med\x1b[39m and");
//! assert!(rt; text.ansi_find("d and") == Some(2));
//! ```
//!
//! Positions count the bytes of the plain text: the text without its sequences.
//!
//! `CALLING.md` beside this folder says how a crate depends on this one and calls it, and quotes
//! the contracts. Each example of these docs is a test of `ansi_doc_tests`.
#![tactic(auto)]

pub mod edits;
pub mod laws;
pub mod search;
pub mod slice;
pub mod style;

pub use ansi_blocks::blocks;
pub use ansi_items::ansitok;
pub use ansi_split::split;
pub use blocks::{AnsiBlock, AnsiBlockIter, get_blocks};
pub use edits::{Edit, ansi_is_whole, edit};
pub use slice::{AnsiRange, AnsiStr};
pub use split::AnsiSplit;
pub use style::{AnsiSequenceEnd, AnsiSequenceStart, Color, Style};
