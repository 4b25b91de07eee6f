//! Tests of the program: runs of it, also over devices and memory that fail.
#![tactic(auto)]

#[cfg(test)]
mod runs;
