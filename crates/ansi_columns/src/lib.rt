//! Display width of text with ANSI control sequences, taken as if the sequences weren't there: the
//! width of a text, the longest prefix that fits, truncation, padding and wrapping, and the address
//! of the hyperlink at a position.
//!
//! The width of a text is that of the extended grapheme clusters of its plain text. Positions count
//! bytes of the plain text, as in `ansi_str`. `CALLING.md` beside this folder says how a crate
//! depends on this one and calls it.
#![tactic(auto)]

pub mod columns;
pub mod edits;
pub mod laws;

pub use ansi_cells::shown::Alignment;
pub use ansi_cells::sides::{Side, Truncation};
pub use ansi_cells::{addresses, bare, fit, shown, sides, slices, tabs};
pub use ansi_clusters::{line_walks, lines};
pub use ansi_wraps::wrap;
pub use ansi_wraps::wrap::indents::Wrap;
pub use columns::AnsiColumns;
pub use edits::ColumnEdit;
