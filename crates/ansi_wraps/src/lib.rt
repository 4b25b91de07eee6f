//! The lines of wrapped paragraphs, ready for display.
//!
//! `ansi_columns` passes its module on.
#![tactic(auto)]

pub mod wrap;
