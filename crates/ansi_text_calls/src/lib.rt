//! The calls for other languages, but for those by columns: what each returns, and how its result is
//! written into the caller's memory.
//!
//! A call takes bytes, checks that they are UTF-8, and allocates with the allocator that it takes.
//! `ansi_calls` passes its modules on.
#![tactic(auto)]

pub mod answers;
pub mod blocks;
pub mod edits;
pub mod links;
pub mod lists;
mod parts;
pub mod pens;
pub mod replacements;
pub mod restyles;
pub mod safe;
pub mod searches;
pub mod styles;
pub mod texts;
pub mod walks;
