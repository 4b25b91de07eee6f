//! What the programs read from and write to, and why a run of `ansi_lines` ends early.
#![tactic(auto)]

pub mod devices;
pub mod fake_device;
pub mod host;
pub mod reading;
pub mod stop;
