//! Styles, their colors, and the sequences that set and end a style.
pub use ansi_style::Color;
pub use ansi_style::state::{AnsiSequenceEnd, AnsiSequenceStart, Style};
