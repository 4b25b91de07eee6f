//! The library for C. `include/ansi_str.h` declares it, and says what each call does.
//!
//! Each call is one of `ansi_calls`, which allocates with `malloc`.
#![tactic(auto)]

pub mod blocks;
pub mod columns;
pub mod links;
pub mod lists;
pub mod pens;
pub mod restyles;
pub mod safe;
pub mod searches;
pub mod styles;
pub mod texts;
pub mod unchecked;
pub mod walks;
