//! The calls for other languages: what each returns, and how its result is written into the
//! caller's memory. Those that count no columns are of `ansi_text_calls`, which it passes on.
//!
//! A call takes bytes, checks that they are UTF-8, and allocates with the allocator that it takes.
//! `ansi_str_c` and `ansi_str_wasm` export these calls.
#![tactic(auto)]

pub mod column_edits;
pub mod columns;
pub mod lines;
mod shown;

pub use ansi_text_calls::{
    answers, blocks, edits, links, lists, pens, replacements, restyles, safe, searches, styles,
    texts, walks,
};
