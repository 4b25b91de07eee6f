//! Laws of the definitions that the contracts cite.
//!
//! Each function states one law as its contract. It does nothing and returns nothing. A body that
//! needs the law calls it. (Own.)
ghost use Rattle.std.specs.Prelude.{◌≡◌, ◌<◌, ◌≤◌, ◌+◌, ◌-◌, ◌++◌, ℕ, min, max, List, [], length};
ghost use Rattle.std.specs.Prelude.{map, take, drop, replicate, slice_range};
ghost use Rattle.std.specs.Prelude.{if◌then◌else◌, IsTrue, All};
ghost use Rattle.std.specs.List.{list_all};
ghost use Rattle.std.specs.Int.{is_in_range};
ghost use Rattle.std.specs.Str.{IsUtf8, IsCharBoundary};
ghost use Rattle.ansi_items.specs.Plain.{plain, marks, is_whole};
ghost use Rattle.ansi_style.specs.Rendition.{plain_style};
ghost use Rattle.ansi_style.specs.Styled.{styled, residue};
ghost use Rattle.ansi_cells.specs.declared.shown.Alignment.{Alignment};
ghost use Rattle.ansi_cells.specs.declared.sides.Side.{Side};
ghost use Rattle.ansi_cells.specs.Addresses.{linked, without_link};
ghost use Rattle.ansi_clusters.specs.Columns.{clusters, columns, FitsUpTo, IsClusterBoundary};
ghost use Rattle.ansi_clusters.specs.Columns.{shown, ShowsUpTo};
ghost use Rattle.ansi_clusters.specs.FirstFit.{IsFirstFit, AreShownLines};
ghost use Rattle.ansi_cells.specs.Fitted.{fitted};
ghost use Rattle.ansi_clusters.specs.Lines.{lines, AreLinesFrom, BeginWithBlanks, reassembled};
ghost use Rattle.ansi_clusters.specs.Lines.{shown_lines};
ghost use Rattle.ansi_columns.specs.ShownLines.{AreShownLinesFrom, BeginWithShownBlanks};
ghost use Rattle.ansi_safe.specs.Cells.{cell, paragraph};
ghost use Rattle.ansi_safe.specs.Links.{link_of, IsClosed};
ghost use Rattle.ansi_cells.specs.Shown.{has_tail, truncated_end, truncated, KeptStays, missing};
ghost use Rattle.ansi_cells.specs.Shown.{before_text, padded, without_style, closed_cell};
ghost use Rattle.ansi_clusters.specs.Lines.{blanks};
ghost use Rattle.ansi_cells.specs.Screens.{screen, screen_slice, plain_blank};
ghost use Rattle.ansi_cells.specs.Rows.{Row, row, row_bytes, row_width, row_screen, joined};
ghost use Rattle.ansi_cells.specs.Rows.{blank_row, fitting_row, row_columns};
ghost use Rattle.ansi_cells.specs.Sides.{truncated_at};
ghost use Rattle.ansi_cells.specs.Slices.{sliced_up_to};
ghost use Rattle.ansi_cells.specs.Indents.{wrapped_with};
ghost use Rattle.ansi_cells.specs.Wrapped.{wrapped};

/// Printable ASCII is as wide as it is long.
pub fn printable_is_as_wide_as_long()
    ensures { (x : List ℕ) → IsTrue (list_all (is_in_range 0x20 0x7E) x) → columns x ≡ length x }
{}

/// The longest prefix that fits has at most `width` columns. Every longer prefix that ends between
/// two clusters has more. So has what is shown of a prefix, and of a longer one. What is shown of a
/// text is that of a prefix and then that of the rest.
pub fn what_fits_is_the_longest()
    ensures within { (x : List ℕ) (width end : ℕ) → IsUtf8 x → FitsUpTo x width end →
        columns (take end x) ≤ width }
    ensures greatest { (x : List ℕ) (width end later : ℕ) → IsUtf8 x → FitsUpTo x width end →
        IsClusterBoundary x later → end < later → width < columns (take later x) }
    ensures shown_within { (t : List ℕ) (width end : ℕ) → IsUtf8 t → IsCharBoundary (plain t) end →
        ShowsUpTo t width end → columns (shown (take end (plain t))) ≤ width }
    ensures shown_greatest { (t : List ℕ) (width end later : ℕ) → IsUtf8 t →
        IsCharBoundary (plain t) later → ShowsUpTo t width end → end < later →
        IsClusterBoundary (plain (cell t)) (length (shown (take later (plain t)))) →
        width < columns (shown (take later (plain t))) }
    ensures shown_front { (t : List ℕ) (end : ℕ) → IsUtf8 t → IsCharBoundary (plain t) end →
        plain (cell t) ≡ shown (take end (plain t)) ++ shown (drop end (plain t)) }
{}

/// If a cluster of a concatenation ends where its first text ends, the clusters of the whole are
/// those of the first text and then those of the second, and its width is the sum of both widths.
pub fn columns_add_up()
    ensures clusters { (x y : List ℕ) → IsUtf8 x → IsUtf8 y →
        IsClusterBoundary (x ++ y) (length x) → clusters (x ++ y) ≡ clusters x ++ clusters y }
    ensures columns { (x y : List ℕ) → IsUtf8 x → IsUtf8 y → IsClusterBoundary (x ++ y) (length x) →
        columns (x ++ y) ≡ columns x + columns y }
{}

/// First fit has exactly one solution: for a text, `lines`.
pub fn first_fit_has_one_solution()
    ensures lines { (x : List ℕ) (width : ℕ) → IsFirstFit width (clusters x) (lines width x) }
    ensures unique { (width : ℕ) (cs : List (List ℕ)) (ls ls' : List (ℕ × ℕ)) →
        IsFirstFit width cs ls → IsFirstFit width cs ls' → ls ≡ ls' }
{}

/// The lines of a text are stretches of it, in order. The text left out between two lines is blanks
/// with at most one line end among them. The text left out before the first line and after the last
/// is blanks alone. The lines together with what was left out are the text.
pub fn lines_lose_blanks_and_line_ends()
    ensures begin { (x : List ℕ) (width : ℕ) → IsUtf8 x → BeginWithBlanks x (lines width x) }
    ensures left_out { (x : List ℕ) (width : ℕ) → IsUtf8 x → AreLinesFrom x 0 (lines width x) }
    ensures text { (x : List ℕ) (width : ℕ) → IsUtf8 x → reassembled x 0 (lines width x) ≡ x }
{}

/// The lines of what is shown of a text (`Lines`) are stretches of its plain text, in order. What is
/// shown of the text left out between two lines is blanks with at most one line end among them. What
/// is shown of the text left out before the first line and after the last is blanks alone. The lines
/// together with what was left out are the plain text. First fit has no other such lines.
pub fn shown_lines_lose_blanks_and_line_ends()
    ensures begin { (x : List ℕ) (width : ℕ) → IsUtf8 x →
        BeginWithShownBlanks x (shown_lines width x) }
    ensures left_out { (x : List ℕ) (width : ℕ) → IsUtf8 x →
        AreShownLinesFrom x 0 (shown_lines width x) }
    ensures text { (x : List ℕ) (width : ℕ) → IsUtf8 x →
        reassembled x 0 (shown_lines width x) ≡ x }
    ensures unique { (x : List ℕ) (width : ℕ) (ls : List (ℕ × ℕ)) → AreShownLines width x ls →
        ls ≡ shown_lines width x }
{}

/// A truncated text is whole if its tail is. Its plain text is the prefix of the cell's plain text
/// up to the cut, and then the plain tail if the tail is written. If both are printable ASCII, it
/// has as many columns as the cell, or `width` if the cell has more. Any truncated text has at most
/// `width` columns if a cluster ends before the tail.
pub fn truncated_fits()
    ensures whole { (t : List ℕ) (width : ℕ) (tail : List ℕ) → IsUtf8 t →
        IsTrue (is_whole tail) → IsTrue (is_whole (truncated (cell t) width tail)) }
    ensures plain { (t : List ℕ) (width : ℕ) (tail : List ℕ) → IsUtf8 t →
        IsTrue (is_whole tail) → plain (truncated (cell t) width tail)
        ≡ take (truncated_end (cell t) width tail) (plain (cell t))
        ++ (if has_tail (cell t) width tail then plain tail else []) }
    ensures columns { (t : List ℕ) (width : ℕ) (tail : List ℕ) → IsUtf8 t →
        IsTrue (list_all (is_in_range 0x20 0x7E) (plain (cell t))) →
        IsTrue (list_all (is_in_range 0x20 0x7E) (plain tail)) → IsTrue (is_whole tail) →
        columns (plain (truncated (cell t) width tail)) ≡ min (columns (plain (cell t))) width }
    ensures within { (t : List ℕ) (width : ℕ) (tail : List ℕ) → IsUtf8 t → IsUtf8 tail →
        IsTrue (is_whole tail) → IsClusterBoundary (plain (truncated (cell t) width tail))
        (truncated_end (cell t) width tail) →
        columns (plain (truncated (cell t) width tail)) ≤ width }
{}

/// If a text is its own cell, the part of it that a truncation keeps is one too.
pub fn cells_are_kept()
    ensures { (t : List ℕ) (width : ℕ) (tail : List ℕ) → IsUtf8 t → cell t ≡ t →
        KeptStays t width tail }
{}

/// A padded text is whole. Its plain text is that of the cell, with blanks before and after it. It
/// has as many columns as the cell, or `width` if the cell has fewer, provided that it is printable
/// ASCII or that a cluster ends on both sides of the cell.
pub fn padded_fills()
    ensures whole { (t : List ℕ) (width : ℕ) (alignment : Alignment) → IsUtf8 t →
        IsTrue (is_whole (padded (cell t) width alignment)) }
    ensures plain { (t : List ℕ) (width : ℕ) (alignment : Alignment) → IsUtf8 t →
        plain (padded (cell t) width alignment)
        ≡ blanks (before_text alignment (missing (cell t) width)) ++ plain (cell t)
        ++ blanks (missing (cell t) width - before_text alignment (missing (cell t) width)) }
    ensures columns { (t : List ℕ) (width : ℕ) (alignment : Alignment) → IsUtf8 t →
        IsTrue (list_all (is_in_range 0x20 0x7E) (plain (cell t))) →
        columns (plain (padded (cell t) width alignment))
        ≡ max (columns (plain (cell t))) width }
    ensures fills { (t : List ℕ) (width : ℕ) (alignment : Alignment) → IsUtf8 t →
        IsClusterBoundary (plain (padded (cell t) width alignment))
        (before_text alignment (missing (cell t) width)) →
        IsClusterBoundary (plain (padded (cell t) width alignment))
        (before_text alignment (missing (cell t) width) + length (plain (cell t))) →
        columns (plain (padded (cell t) width alignment))
        ≡ max (columns (plain (cell t))) width }
{}

/// A fitted text has exactly `width` columns, provided that the cell and the tail are printable
/// ASCII, or that a cluster ends before the tail and on both sides of the text between the blanks.
pub fn fitted_is_as_wide()
    ensures columns { (t : List ℕ) (width : ℕ) (alignment : Alignment) (tail : List ℕ) →
        IsUtf8 t → IsTrue (list_all (is_in_range 0x20 0x7E) (plain (cell t))) →
        IsTrue (list_all (is_in_range 0x20 0x7E) (plain tail)) → IsTrue (is_whole tail) →
        columns (plain (fitted (cell t) width alignment tail)) ≡ width }
    ensures fills { (t : List ℕ) (width : ℕ) (alignment : Alignment) (tail : List ℕ) →
        IsUtf8 t → IsUtf8 tail → IsTrue (is_whole tail) →
        IsClusterBoundary (plain (truncated (cell t) width tail))
        (truncated_end (cell t) width tail) →
        IsClusterBoundary (plain (fitted (cell t) width alignment tail))
        (before_text alignment (missing (truncated (cell t) width tail) width)) →
        IsClusterBoundary (plain (fitted (cell t) width alignment tail))
        (before_text alignment (missing (truncated (cell t) width tail) width)
        + length (plain (truncated (cell t) width tail))) →
        columns (plain (fitted (cell t) width alignment tail)) ≡ width }
{}

/// A text truncated at a side has at most `width` columns, if its cell and the tail are printable
/// ASCII.
pub fn truncated_at_fits()
    ensures { (side : Side) (t : List ℕ) (width : ℕ) (tail : List ℕ) → IsUtf8 t →
        IsTrue (list_all (is_in_range 0x20 0x7E) (plain (cell t))) →
        IsTrue (list_all (is_in_range 0x20 0x7E) (plain tail)) → IsTrue (is_whole tail) →
        columns (plain (truncated_at side (cell t) width tail)) ≤ width }
{}

/// A tail or an indent that is printable ASCII is shown as it is.
pub fn printable_tails_stay()
    ensures { (x : List ℕ) → IsTrue (list_all (is_in_range 0x20 0x7E) x) → closed_cell x ≡ x }
{}

/// Each line of a wrapped text is whole, whatever the text is, and leaves no known style open.
pub fn wrapped_lines_are_whole()
    ensures whole { (t : List ℕ) (width : ℕ) → IsUtf8 t →
        All (λ l. IsTrue (is_whole l.bytes)) (wrapped t width) }
    ensures closed { (t : List ℕ) (width : ℕ) → IsUtf8 t →
        All (λ l. residue l.bytes ≡ plain_style) (wrapped t width) }
{
    ansi_safe::laws::cells_are_safe();
}

/// The styled bytes of each line of a wrapped text are the slice of the styled bytes of the text's
/// paragraph over the interval of the line.
pub fn wrapped_lines_keep_styles()
    ensures { (t : List ℕ) (width : ℕ) → IsUtf8 t →
        map (λ l. styled l.bytes) (wrapped t width)
        ≡ map (λ (i : ℕ × ℕ). slice_range (styled (paragraph t)) i.0 i.1)
        (lines width (plain (paragraph t))) }
{
    ansi_safe::laws::cells_are_safe();
}

/// The same holds of its linked bytes, and no link is open at its end.
pub fn wrapped_lines_keep_links()
    ensures linked { (t : List ℕ) (width : ℕ) → IsUtf8 t →
        map (λ l. linked l.bytes) (wrapped t width)
        ≡ map (λ (i : ℕ × ℕ). slice_range (linked (paragraph t)) i.0 i.1)
        (lines width (plain (paragraph t))) }
    ensures left_open { (t : List ℕ) (width : ℕ) → IsUtf8 t →
        All (λ l. link_of (marks l.bytes) ≡ []) (wrapped t width) }
{
    ansi_safe::laws::cells_are_safe();
}

/// Each line of a text wrapped with indents is whole, whatever the text and the indents are, and
/// leaves no known style and no link open.
pub fn indented_lines_are_closed()
    ensures whole { (t first later : List ℕ) (width : ℕ) → IsUtf8 t → IsUtf8 first →
        IsUtf8 later → All (λ l. IsTrue (is_whole l.bytes)) (wrapped_with t width first later) }
    ensures closed { (t first later : List ℕ) (width : ℕ) → IsUtf8 t → IsUtf8 first →
        IsUtf8 later → All (λ l. IsClosed l.bytes) (wrapped_with t width first later) }
{
    ansi_safe::laws::cells_are_safe();
}

/// A truncated text keeps its styles: its styled bytes are those of the cell up to the cut, and then
/// those of the tail if it is written. No known style of the cell is open at its end.
pub fn truncated_keeps_styles()
    ensures styled { (t : List ℕ) (width : ℕ) (tail : List ℕ) → IsUtf8 t →
        IsTrue (is_whole tail) → styled (truncated (cell t) width tail)
        ≡ take (truncated_end (cell t) width tail) (styled (cell t))
        ++ (if has_tail (cell t) width tail then styled tail else []) }
    ensures residue { (t : List ℕ) (width : ℕ) (tail : List ℕ) → IsUtf8 t →
        IsTrue (is_whole tail) → residue (truncated (cell t) width tail)
        ≡ (if has_tail (cell t) width tail then residue tail else plain_style) }
{}

/// A padded text keeps its styles: its styled bytes are those of the cell, with blanks before and
/// after it that are in the plain style. No known style is open at its end.
pub fn padded_keeps_styles()
    ensures styled { (t : List ℕ) (width : ℕ) (alignment : Alignment) → IsUtf8 t →
        styled (padded (cell t) width alignment)
        ≡ without_style (blanks (before_text alignment (missing (cell t) width)))
        ++ styled (cell t) ++ without_style (blanks
        (missing (cell t) width - before_text alignment (missing (cell t) width))) }
    ensures residue { (t : List ℕ) (width : ℕ) (alignment : Alignment) → IsUtf8 t →
        residue (padded (cell t) width alignment) ≡ plain_style }
{}

/// The linked bytes of a truncated text are those of the cell up to the cut, and then those of the
/// tail if it is written. No link of the cell is open at its end.
pub fn truncated_ends_links()
    ensures linked { (t : List ℕ) (width : ℕ) (tail : List ℕ) → IsUtf8 t →
        IsTrue (is_whole tail) → linked (truncated (cell t) width tail)
        ≡ take (truncated_end (cell t) width tail) (linked (cell t))
        ++ (if has_tail (cell t) width tail then linked tail else []) }
    ensures left_open { (t : List ℕ) (width : ℕ) (tail : List ℕ) → IsUtf8 t →
        IsTrue (is_whole tail) → link_of (marks (truncated (cell t) width tail))
        ≡ (if has_tail (cell t) width tail then link_of (marks tail) else []) }
{}

/// The linked bytes of a padded text are those of the cell, with blanks before and after it that
/// are in no link. No link is open at its end.
pub fn padded_ends_links()
    ensures linked { (t : List ℕ) (width : ℕ) (alignment : Alignment) → IsUtf8 t →
        linked (padded (cell t) width alignment)
        ≡ without_link (blanks (before_text alignment (missing (cell t) width)))
        ++ linked (cell t) ++ without_link (blanks
        (missing (cell t) width - before_text alignment (missing (cell t) width))) }
    ensures left_open { (t : List ℕ) (width : ℕ) (alignment : Alignment) → IsUtf8 t →
        link_of (marks (padded (cell t) width alignment)) ≡ [] }
{}

/// A text has a column for each of its columns.
pub fn screens_are_as_wide()
    ensures { (t : List ℕ) → length (screen t) ≡ columns (plain t) }
{}

/// A slice of a whole text is whole, and leaves no known style and no link open.
pub fn slices_are_closed()
    ensures whole { (t : List ℕ) (start end : ℕ) → IsUtf8 t → IsTrue (is_whole t) →
        IsTrue (is_whole (sliced_up_to t start end)) }
    ensures closed { (t : List ℕ) (start end : ℕ) → IsUtf8 t → IsTrue (is_whole t) →
        IsClosed (sliced_up_to t start end) }
{}

/// The screen of a slice of a whole text is the slice of its screen.
pub fn slices_show_their_columns()
    ensures { (t : List ℕ) (start end : ℕ) → IsUtf8 t → IsTrue (is_whole t) →
        screen (sliced_up_to t start end) ≡ screen_slice start end (screen t) }
{}

/// A row shows its clusters, and a text what its row shows. If a cluster ends where two rows meet,
/// they show the columns of the first and then those of the second. The front of a row that fits
/// shows the front of its columns, columns of it what a slice shows, and blanks show blanks.
pub fn rows_show_their_columns()
    ensures text { (t : List ℕ) → screen t ≡ row_screen (row t) }
    ensures joined { (r s : Row) → length r.linked ≡ length r.styled → IsUtf8 (row_bytes r) →
        IsUtf8 (row_bytes s) → IsClusterBoundary (row_bytes (joined r s)) (length (row_bytes r)) →
        row_screen (joined r s) ≡ row_screen r ++ row_screen s }
    ensures fitting { (t : List ℕ) (width : ℕ) → IsUtf8 t → row_screen (fitting_row width (row t))
        ≡ take (row_width (fitting_row width (row t))) (screen t) }
    ensures columns { (t : List ℕ) (start end : ℕ) → IsUtf8 t → IsTrue (is_whole t) →
        row_screen (row_columns start end (row t)) ≡ screen_slice start end (screen t) }
    ensures blanks { (n : ℕ) → row_screen (blank_row n) ≡ replicate n plain_blank }
{}
