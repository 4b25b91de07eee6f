//! The program `ansi_view`: its words, what each line becomes, and a run over any devices.
#![tactic(auto)]

pub mod causes;
pub mod edits;
mod ended;
pub mod laws;
pub mod lines;
mod plain_lines;
pub mod runs;
pub mod stop;
mod tails;
pub mod view;
pub mod words;
