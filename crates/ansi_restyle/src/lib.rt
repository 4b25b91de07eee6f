//! The matches of a pattern in a text, taken as if its sequences weren't there, its links, parts of a
//! text in another style or in a link, and a text without a part, with another text in its place, or
//! without its links. Also styles that a caller makes.
//!
//! Positions count the bytes of the plain text, as in `ansi_str`. `CALLING.md` beside this folder
//! says how a crate depends on this one and calls it.
#![tactic(auto)]

pub mod calls;
pub mod laws;
pub mod links;
pub mod matches;
pub mod remove;
pub mod replace;
pub mod replace_all;
pub mod replace_each;
mod rest;
pub mod restyle;
pub mod styles;
mod unmarked;

pub use calls::AnsiRestyle;
