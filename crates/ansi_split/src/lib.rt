//! The parts of a text between the matches of a pattern.
#![tactic(auto)]

pub mod split;
pub mod walks;

pub use split::intervals::part_interval;
