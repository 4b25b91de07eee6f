//! The program `ansi_lines`: its words, the result of each line, and a run over any devices.
#![tactic(auto)]

pub mod lines;
pub mod runs;
pub mod words;
