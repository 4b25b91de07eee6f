//! Callers of the library, proved from its contracts alone: what follows from the results of the
//! calls.
pub mod blocks;
pub mod buffers;
pub mod chains;
pub mod edits;
pub mod laws;
pub mod marks;
pub mod matches;
pub mod modules;
pub mod parts;
pub mod positions;
pub mod replaces;
pub mod scans;
pub mod searches;
pub mod styles;
pub mod tables;
