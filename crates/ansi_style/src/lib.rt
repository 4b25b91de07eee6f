//! The style of a text: how SGRs change it, the sequences that set and reset it, and the calls for
//! users.
#![tactic(auto)]

pub mod laws;
pub mod numbers;
pub mod state;
mod style;
pub mod styles;

pub use style::Color;
