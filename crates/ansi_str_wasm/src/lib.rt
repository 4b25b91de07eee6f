//! The library for JavaScript, as a module of WebAssembly.
//!
//! Each call is one of `ansi_calls`. It takes texts as bytes of the module's memory, and writes its
//! result into a buffer there. It allocates its working memory from the block that is passed to it.
#![tactic(auto)]

pub mod columns;
pub mod links;
pub mod lists;
mod memory;
pub mod pens;
pub mod restyles;
pub mod safe;
pub mod searches;
pub mod texts;
pub mod walks;
