//! Searches in the plain text of a text, and positions there, as functions of a `&str`. They don't
//! allocate.
pub use ansi_search::search::{
    ends_with, find, floor_char_boundary, is_char_boundary, starts_with,
};
pub use ansi_split::part_interval;
