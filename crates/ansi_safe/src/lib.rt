//! Safe output: a stranger's text can't drive the terminal.
//!
//! A safe text has printing characters, TAB, line ends, select graphic renditions and, if they are
//! asked for, links. It has no other sequence, no control and no bidirectional control.
//! `CALLING.md` beside this folder says how a crate depends on this one and calls it.
#![tactic(auto)]

mod allowed;
pub mod calls;
pub mod cells;
mod front;
pub mod laws;
pub mod links;
pub mod policy;
pub mod printable;
pub mod safe;
mod shown;
pub mod utf8;

pub use calls::AnsiSafe;
pub use policy::{Links, Policy, Rest};
