//! The blocks of a text: its runs of one style.
#![tactic(auto)]

pub mod blocks;
pub mod runs;
