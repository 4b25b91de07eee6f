//! The examples of the docs of `ansi_str`, `ansi_safe` and `ansi_columns`, as tests.
#![tactic(auto)]

#[cfg(test)]
mod docs;
