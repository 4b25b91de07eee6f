//! The width of a text of a cell, the longest prefix of it that fits, and the columns before a position.
ghost use Rattle.std.specs.Prelude.{◌≡◌, Some, None, IsTrue};
ghost use Rattle.std.specs.Str.{IsCharBoundary};
ghost use Rattle.ansi_items.specs.Plain.{plain};
ghost use Rattle.ansi_search.specs.Positions.{is_good_range};
ghost use Rattle.ansi_clusters.specs.Columns.{columns, column_of, ShowsUpTo};
ghost use Rattle.ansi_safe.specs.Cells.{cell};

use crate::widths;
use ansi_clusters::fits::fitting_end;
use ansi_clusters::views::View;
use ansi_search::search::walk_to;
use ansi_style::styles;

/// Like `AnsiColumns::ansi_width` of `ansi_columns`, of a `&str`.
pub fn width(text: &str) -> usize
    ensures { result ≡ columns (plain (cell text.now)) }
{
    widths::width(text, View::Shown)
}

/// Like `AnsiColumns::ansi_fitting` of `ansi_columns`, of a `&str`.
pub fn fitting(text: &str, width: usize) -> usize
    ensures fits { ShowsUpTo text.now width result }
    ensures boundary { IsCharBoundary (plain text.now) result }
    ensures good_before { IsTrue (is_good_range (plain text.now) 0 (Some result)) }
    ensures good_after { IsTrue (is_good_range (plain text.now) result None) }
{
    fitting_end(text, width, View::Shown).position
}

/// Like `AnsiColumns::ansi_column_of` of `ansi_columns`, of a `&str`.
pub fn column_of(text: &str, position: usize) -> Option<usize>
    ensures { result ≡ column_of text.now position }
{
    let end = walk_to(&mut styles::plain_style(), text, position)?;
    Some(widths::width(&text[..end], View::Shown))
}
