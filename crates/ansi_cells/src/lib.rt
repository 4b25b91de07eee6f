//! The texts of cells: how wide they are, and what they are truncated, padded, fitted, sliced and
//! expanded to.
//!
//! `ansi_columns` passes its modules on.
#![tactic(auto)]

pub mod addresses;
pub mod bare;
pub mod fit;
pub mod measures;
pub mod plain_cells;
pub mod shown;
pub mod sides;
pub mod slices;
pub mod tabs;
pub mod widths;
