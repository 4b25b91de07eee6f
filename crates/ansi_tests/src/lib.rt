//! Tests: callers of `ansi_str` that are proved from its contracts alone, the first example of
//! README.md and one for each kind of caller, and what no row of `ansi_rows` can test.
#![tactic(auto)]

#[cfg(test)]
mod callers;
#[cfg(test)]
mod clones;
#[cfg(test)]
mod examples;
#[cfg(test)]
mod tests;
