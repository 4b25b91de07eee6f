//! The slices of a text taken as if its sequences weren't there.
//!
//! Positions count the bytes of the plain text: the text without its sequences.
#![tactic(auto)]

pub mod slice;
