//! The items of a text with ANSI control sequences, and the scanner that gives them: the lowest
//! layer of `ansi_str`.
#![tactic(auto)]

pub mod ansitok;
pub mod laws;

pub use ansitok::grammar::{ESC, mark_at};
