//! A caller of a law of `ansi_columns`: how wide the cell of a table is.
ghost use Rattle.std.specs.Prelude.{◌≡◌, IsTrue, IfOk};
ghost use Rattle.std.specs.Cow.{cow_str_bytes};
ghost use Rattle.std.specs.Int.{is_in_range};
ghost use Rattle.std.specs.List.{list_all};
ghost use Rattle.ansi_str.specs.Plain.{plain};
ghost use Rattle.ansi_safe.specs.Cells.{cell};
ghost use Rattle.ansi_clusters.specs.Columns.{columns};

use ansi_columns::fit::fit;
use ansi_columns::{Alignment, laws};
use std::alloc::{AllocError, Global};
use std::borrow::CowStr;

/// A cell that is aligned to the right. If what it shows is printable ASCII, it has exactly the
/// columns that are asked for.
pub fn right_cell(alloc: Global, text: &str, width: usize) -> Result<CowStr<'_>, AllocError>
    ensures { IsTrue (list_all (is_in_range 0x20 0x7E) (plain (cell text.now))) →
        IfOk result (λ c. columns (plain (cow_str_bytes c)) ≡ width) }
{
    laws::fitted_is_as_wide();
    laws::printable_tails_stay();
    fit(alloc, text, width, Alignment::Right, "...")
}
