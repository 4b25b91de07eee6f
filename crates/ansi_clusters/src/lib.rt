//! The extended grapheme clusters of what a text shows, one after another: where they end, how wide
//! they are, what fits, and the lines that first fit makes of them.
//!
//! No style is read here. `ansi_cells` and `ansi_wraps` are built on it.
#![tactic(auto)]

pub mod break_state;
mod extended;
pub mod fits;
mod from_end;
pub mod letters;
pub mod line_walks;
pub mod lines;
mod singles;
pub mod steps;
pub mod views;
pub mod walks;
