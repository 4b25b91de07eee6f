//! The calls on display width: for any text, and for `&str`.
ghost use Rattle.std.specs.Prelude.{◌≡◌, ◌↔◌, ◌+◌, ◌*◌, ◌≤◌, ◌⊎◌, Some, None, [], length, IsTrue};
ghost use Rattle.std.specs.Prelude.{map, All, IsFalse, IsNone, IsOk, IfOk};
ghost use Rattle.std.specs.List.{list_all};
ghost use Rattle.std.specs.Option.{option_map};
ghost use Rattle.std.specs.Cow.{cow_str_bytes, IsBorrowedStr};
ghost use Rattle.std.specs.Str.{IsCharBoundary};
ghost use Rattle.ansi_items.specs.Plain.{plain, has_escape, is_whole};
ghost use Rattle.ansi_search.specs.Positions.{is_good_range};
ghost use Rattle.ansi_style.specs.Written.{longest_close, longest_start_and_close};
ghost use Rattle.ansi_cells.specs.Addresses.{address_at};
ghost use Rattle.ansi_clusters.specs.Columns.{columns, column_of, ShowsUpTo};
ghost use Rattle.ansi_safe.specs.Cells.{cell, paragraph};
ghost use Rattle.ansi_safe.specs.Links.{link_at, longest_link_end, IsClosed};
ghost use Rattle.ansi_safe.specs.Safe.{is_safe};
ghost use Rattle.ansi_safe.specs.declared.policy.Links.TheVariants.{Keep};
ghost use Rattle.ansi_cells.specs.OneLine.{is_one_line};
ghost use Rattle.ansi_cells.specs.Shown.{truncated_ending, truncated, KeptStays, missing, closing, padded};
ghost use Rattle.ansi_cells.specs.Shown.{closed_cell};
ghost use Rattle.ansi_cells.specs.Fitted.{fitted};
ghost use Rattle.ansi_cells.specs.Sides.{is_cut_at_end, truncated_at};
ghost use Rattle.ansi_cells.specs.Slices.{is_sliced_stretch, sliced_blanks, sliced};
ghost use Rattle.ansi_cells.specs.Rows.{cell_row, row_screen, truncated_row, truncated_row_at};
ghost use Rattle.ansi_cells.specs.Rows.{padded_row, fitted_row, line_screens, indented_screens};
ghost use Rattle.ansi_cells.specs.Screens.{screen, sliced_screen};
ghost use Rattle.ansi_cells.specs.Tabs.{has_tab, tabs, expanded};
ghost use Rattle.ansi_cells.specs.Indents.{wrapped_with, IsWrappedWith};
ghost use Rattle.ansi_cells.specs.Wrapped.{wrapped, IsWrapped};

use ansi_cells::addresses::link_at;
use ansi_cells::fit::fit;
pub use ansi_cells::measures::{column_of, fitting, width};
use ansi_cells::shown::{Alignment, pad, truncate};
use ansi_cells::sides::{Truncation, truncate_with};
use ansi_cells::slices::slice;
use ansi_cells::tabs::expand_tabs;
use ansi_str::{AnsiRange, AnsiStr};
use ansi_wraps::wrap::indents::{AnsiWrapWith, Wrap, wrap_with};
use ansi_wraps::wrap::{AnsiWrap, wrap};
use std::alloc::{AllocError, Global};
use std::borrow::CowStr;

/// The display width of a text, which is measured as if its sequences weren't there.
///
/// Implemented for every type that implements [`AnsiStr`]. The results depend on the text alone,
/// not on its type.
///
/// ```
/// assert!(rt; "\x1b[31m日本\x1b[39m".ansi_width() == 4);
/// assert!(rt; String::from_str(rt.alloc(), "日本")?.ansi_width() == 4);
/// ```
pub trait AnsiColumns: AnsiStr {
    /// The display width of the text, in columns: the sum over the extended grapheme clusters of
    /// what a terminal shows.
    ///
    /// That is the plain text of a cell, as `ansi_safe::cells::cell_of` makes it: TAB and line feed
    /// are one blank each, and other controls and bidirectional controls have no columns. A cluster
    /// may span sequences and such controls. Doesn't allocate. (UAX #29; the width of a cluster,
    /// UAX #11 as `unicode_width` reads it; controls, own.)
    ///
    /// ```
    /// assert!(rt; "e\x1b[1m\u{301}x\x07\t".ansi_width() == 3);
    /// ```
    final fn ansi_width(&self) -> usize
        ensures { result ≡ columns (plain (cell (Self.text self.now))) }
    {
        width(self.as_text())
    }

    /// The end of the longest prefix of the plain text that fits into `width` columns, as a
    /// position.
    ///
    /// The position is the greatest boundary between clusters such that what is shown before it has
    /// at most `width` columns, as `ansi_width` counts. Clusters of no columns that follow belong to
    /// the prefix, and so do controls that aren't shown. The position counts bytes of the plain
    /// text, and is a good position, so the text can be cut and split there. Reads at most one
    /// cluster past the prefix, the sequences and controls after that cluster, and the plain bytes
    /// up to the next sequence. Doesn't allocate. (Own.)
    ///
    /// ```
    /// assert!(rt; "a\x1b[1m日\x07本".ansi_fitting(4) == 5);
    /// ```
    final fn ansi_fitting(&self, width: usize) -> usize
        ensures fits { ShowsUpTo (Self.text self.now) width result }
        ensures boundary { IsCharBoundary (plain (Self.text self.now)) result }
        ensures good_before { IsTrue (is_good_range (plain (Self.text self.now)) 0 (Some result)) }
        ensures good_after { IsTrue (is_good_range (plain (Self.text self.now)) result None) }
    {
        fitting(self.as_text(), width)
    }

    /// The column of a position: how many columns what is shown before it has.
    ///
    /// `None` if the position is inside a character. A position past the end counts as the end. A
    /// position counts bytes of the plain text. Inside a cluster, the part of it that precedes the
    /// position counts as a cluster. `ansi_fitting` gives the position of a column. Reads no further
    /// than the position. Doesn't allocate. (Own.)
    ///
    /// ```
    /// assert!(rt; "a\x1b[1m日\x07本".ansi_column_of(5) == Some(3));
    /// assert!(rt; "a\x1b[1m日\x07本".ansi_column_of(2).is_none());
    /// ```
    final fn ansi_column_of(&self, position: usize) -> Option<usize>
        ensures { result ≡ column_of (Self.text self.now) position }
    {
        column_of(self.as_text(), position)
    }

    /// The text truncated to `width` columns for display. If the text is cut, a tail such as `…`
    /// follows the cut.
    ///
    /// What is shown is the text of a cell, as `ansi_safe::cells::cell_of` makes it: it is on one
    /// line and safe. A text that fits isn't cut. Any other text is cut, as `ansi_cut` does it, at
    /// the end of the longest prefix that leaves room for the tail, and the tail is appended. A tail
    /// wider than `width` is left out. In each case the link and then the style still open at the
    /// end of the text are closed, before the tail. The tail is shown as the text of a cell too, and
    /// what it leaves open is closed after it: `\x1b[2J~` is the tail `~`.
    ///
    /// Reads what `ansi_fitting` reads. Returns a borrow, and doesn't allocate, if nothing of the
    /// part that stays has to be changed, and nothing has to be written after it. Otherwise the
    /// result is at most as long as the text and the shown tail together, plus 7 bytes for the link
    /// and 88 for the style. `Err` means out of memory. (`truncate_str` of `console`; the text of a
    /// cell, and closing links and styles, own.)
    ///
    /// ```
    /// let cut = "\x1b[31m日本\t語\x1b[39m".ansi_truncate(rt.alloc(), 6, "…")?;
    /// assert!(rt; cut.as_str() == "\x1b[31m日本 \x1b[39m…");
    /// ```
    final fn ansi_truncate(
        &self,
        alloc: Global,
        width: usize,
        tail: &str,
    ) -> Result<CowStr<'_>, AllocError>
        ensures bytes { IfOk result (λ c.
            cow_str_bytes c ≡ truncated (cell (Self.text self.now)) width (closed_cell tail.now)) }
        ensures safe { IfOk result (λ c. IsTrue (is_safe Keep (cow_str_bytes c))) }
        ensures one_line { IfOk result (λ c. IsTrue (is_one_line (cow_str_bytes c))) }
        ensures closed { IfOk result (λ c. IsClosed (cow_str_bytes c)) }
        ensures screen { IfOk result (λ c. screen (cow_str_bytes c) ≡ row_screen
            (truncated_row width (cell_row tail.now) (cell_row (Self.text self.now)))) }
        ensures borrowed { IfOk result (λ c. IsBorrowedStr c
            ↔ (KeptStays (Self.text self.now) width (closed_cell tail.now)
            × (truncated_ending (cell (Self.text self.now)) width (closed_cell tail.now) ≡ []))) }
        ensures len { IfOk result (λ c. length (cow_str_bytes c)
            ≤ length (Self.text self.now) + length (closed_cell tail.now)
            + longest_link_end + longest_close) }
        ensures takes_no_memory { KeptStays (Self.text self.now) width (closed_cell tail.now)
            × (truncated_ending (cell (Self.text self.now)) width (closed_cell tail.now) ≡ []) →
            IsOk result }
    {
        truncate(alloc, self.as_text(), width, tail)
    }

    /// The text padded with blanks to `width` columns for display.
    ///
    /// What is shown is the text of a cell, as for `ansi_truncate`: the result is on one line and
    /// safe. The link and then the style still open at the end of the text are closed before the
    /// blanks. A text of `width` or more columns gets no blanks.
    ///
    /// Returns a borrow, and doesn't allocate, if nothing of the text has to be changed, no blank
    /// is needed and nothing is open. Otherwise the result is at most as long as the text, plus one
    /// byte for each missing column, 7 for the link and 88 for the style. `Err` means out of memory.
    /// (`pad_str` of `console`; the text of a cell, and closing links and styles, own.)
    ///
    /// ```
    /// let padded = "\x1b[41mab".ansi_pad(rt.alloc(), 5, Alignment::Center)?;
    /// assert!(rt; padded.as_str() == " \x1b[41mab\x1b[49m  ");
    /// ```
    final fn ansi_pad(
        &self,
        alloc: Global,
        width: usize,
        alignment: Alignment,
    ) -> Result<CowStr<'_>, AllocError>
        ensures bytes { IfOk result (λ c.
            cow_str_bytes c ≡ padded (cell (Self.text self.now)) width alignment) }
        ensures safe { IfOk result (λ c. IsTrue (is_safe Keep (cow_str_bytes c))) }
        ensures one_line { IfOk result (λ c. IsTrue (is_one_line (cow_str_bytes c))) }
        ensures closed { IfOk result (λ c. IsClosed (cow_str_bytes c)) }
        ensures screen { IfOk result (λ c. screen (cow_str_bytes c)
            ≡ row_screen (padded_row width alignment (cell_row (Self.text self.now)))) }
        ensures borrowed { IfOk result (λ c. IsBorrowedStr c
            ↔ ((cell (Self.text self.now) ≡ Self.text self.now)
            × (missing (cell (Self.text self.now)) width ≡ 0)
            × (closing (cell (Self.text self.now)) ≡ []))) }
        ensures len { IfOk result (λ c. length (cow_str_bytes c) ≤ length (Self.text self.now)
            + missing (cell (Self.text self.now)) width + longest_link_end + longest_close) }
        ensures takes_no_memory { (cell (Self.text self.now) ≡ Self.text self.now)
            × (missing (cell (Self.text self.now)) width ≡ 0)
            × (closing (cell (Self.text self.now)) ≡ []) → IsOk result }
    {
        pad(alloc, self.as_text(), width, alignment)
    }

    /// The text of a table's cell: truncated to `width` columns, as `ansi_truncate` does it, and then
    /// padded to them, as `ansi_pad` does it.
    ///
    /// Returns a borrow, and doesn't allocate, if nothing of the part that stays has to be changed,
    /// no tail and no blank is needed, and nothing is open. Otherwise the result is at most as long
    /// as the text and the shown tail together, plus one byte for each missing column, 14 for links
    /// and 176 for styles. `Err` means out of memory. (Own.)
    ///
    /// ```
    /// let cell = "\x1b[41mab".ansi_fit(rt.alloc(), 4, Alignment::Left, "…")?;
    /// assert!(rt; cell.as_str() == "\x1b[41mab\x1b[49m  ");
    /// let cell = "\x1b[41mabcdef".ansi_fit(rt.alloc(), 4, Alignment::Left, "…")?;
    /// assert!(rt; cell.as_str() == "\x1b[41mabc\x1b[49m…");
    /// ```
    final fn ansi_fit(
        &self,
        alloc: Global,
        width: usize,
        alignment: Alignment,
        tail: &str,
    ) -> Result<CowStr<'_>, AllocError>
        ensures bytes { IfOk result (λ c. cow_str_bytes c
            ≡ fitted (cell (Self.text self.now)) width alignment (closed_cell tail.now)) }
        ensures safe { IfOk result (λ c. IsTrue (is_safe Keep (cow_str_bytes c))) }
        ensures one_line { IfOk result (λ c. IsTrue (is_one_line (cow_str_bytes c))) }
        ensures closed { IfOk result (λ c. IsClosed (cow_str_bytes c)) }
        ensures screen { IfOk result (λ c. screen (cow_str_bytes c) ≡ row_screen
            (fitted_row width alignment (cell_row tail.now) (cell_row (Self.text self.now)))) }
        ensures borrowed { IfOk result (λ c. IsBorrowedStr c
            ↔ (KeptStays (Self.text self.now) width (closed_cell tail.now)
            × (truncated_ending (cell (Self.text self.now)) width (closed_cell tail.now) ≡ [])
            × (missing (truncated (cell (Self.text self.now)) width (closed_cell tail.now)) width ≡ 0)
            × (closing (truncated (cell (Self.text self.now)) width (closed_cell tail.now)) ≡ []))) }
        ensures len { IfOk result (λ c. length (cow_str_bytes c)
            ≤ length (Self.text self.now) + length (closed_cell tail.now)
            + missing (truncated (cell (Self.text self.now)) width (closed_cell tail.now)) width
            + 2 * (longest_link_end + longest_close)) }
        ensures takes_no_memory { KeptStays (Self.text self.now) width (closed_cell tail.now)
            × (truncated_ending (cell (Self.text self.now)) width (closed_cell tail.now) ≡ [])
            × (missing (truncated (cell (Self.text self.now)) width (closed_cell tail.now)) width ≡ 0)
            × (closing (truncated (cell (Self.text self.now)) width (closed_cell tail.now)) ≡ []) →
            IsOk result }
    {
        fit(alloc, self.as_text(), width, alignment, tail)
    }

    /// The text truncated for display at its end, at its start or in its middle.
    ///
    /// At its end it is truncated as `ansi_truncate` does it, and so is a text that fits. Otherwise
    /// its first and last columns stay, as `ansi_slice` takes them, with the tail between them: as
    /// many as the tail leaves of the width. A tail wider than the width is left out.
    ///
    /// Returns a borrow, and doesn't allocate, if the text isn't cut at its start or in its middle,
    /// nothing of the part that stays has to be changed, and nothing has to be written after it.
    /// Otherwise the result is at most twice as long as the text, plus the length of the shown tail,
    /// one byte for each column of the width, 502 for styles and 14 for links. `Err` means out of
    /// memory. (`cli-truncate`; the text of a cell, and opening and closing, own.)
    ///
    /// ```
    /// let to = Truncation::to(8).tail("…").side(Side::Middle);
    /// let cut = "\x1b[31m/usr/local/bin\x1b[39m".ansi_truncate_with(rt.alloc(), &to)?;
    /// assert!(rt; cut.as_str() == "\x1b[31m/usr\x1b[39m…\x1b[31mbin\x1b[39m");
    /// ```
    final fn ansi_truncate_with(
        &self,
        alloc: Global,
        to: &Truncation<'_>,
    ) -> Result<CowStr<'_>, AllocError>
        ensures bytes { IfOk result (λ c. cow_str_bytes c ≡ truncated_at to.now.side
            (cell (Self.text self.now)) to.now.width (closed_cell to.now.tail.now)) }
        ensures safe { IfOk result (λ c. IsTrue (is_safe Keep (cow_str_bytes c))) }
        ensures one_line { IfOk result (λ c. IsTrue (is_one_line (cow_str_bytes c))) }
        ensures closed { IfOk result (λ c. IsClosed (cow_str_bytes c)) }
        ensures screen { IfOk result (λ c. screen (cow_str_bytes c) ≡ row_screen
            (truncated_row_at to.now.side to.now.width
            (cell_row to.now.tail.now) (cell_row (Self.text self.now)))) }
        ensures borrowed { IfOk result (λ c. IsBorrowedStr c
            ↔ (KeptStays (Self.text self.now) to.now.width (closed_cell to.now.tail.now)
            × IsTrue (is_cut_at_end to.now.side (cell (Self.text self.now)) to.now.width)
            × (truncated_ending (cell (Self.text self.now)) to.now.width
            (closed_cell to.now.tail.now) ≡ []))) }
        ensures len { IfOk result (λ c. length (cow_str_bytes c)
            ≤ 2 * length (Self.text self.now) + length (closed_cell to.now.tail.now) + to.now.width
            + 2 * (longest_start_and_close + longest_link_end)) }
        ensures takes_no_memory { KeptStays (Self.text self.now) to.now.width (closed_cell to.now.tail.now)
            × IsTrue (is_cut_at_end to.now.side (cell (Self.text self.now)) to.now.width)
            × (truncated_ending (cell (Self.text self.now)) to.now.width
            (closed_cell to.now.tail.now) ≡ []) → IsOk result }
    {
        truncate_with(alloc, self.as_text(), to)
    }

    /// The text with each TAB expanded: it becomes blanks up to the next multiple of `stop` columns
    /// from the beginning of its line.
    ///
    /// Lines end at a line feed. Sequences and controls have no columns: those before a TAB are the
    /// columns of the text of a cell. The blanks are in the style and the link of the TAB. All else
    /// stays as it is. If `stop` is 0, a TAB becomes nothing. The result is at most as long as the
    /// text, plus `stop` bytes for each TAB. Returns a borrow, and doesn't allocate, exactly if the
    /// plain text has no TAB. `Err` means out of memory. (`expandtabs` of Python; sequences, own.)
    ///
    /// ```
    /// let expanded = "a\x1b[4m\tb\n日\tc".ansi_expand_tabs(rt.alloc(), 4)?;
    /// assert!(rt; expanded.as_str() == "a\x1b[4m   b\n日  c");
    /// ```
    final fn ansi_expand_tabs(&self, alloc: Global, stop: usize) -> Result<CowStr<'_>, AllocError>
        ensures bytes { IfOk result (λ c.
            cow_str_bytes c ≡ expanded stop (Self.text self.now)) }
        ensures borrowed { IfOk result (λ c.
            IsBorrowedStr c ↔ IsFalse (has_tab (Self.text self.now))) }
        ensures len { IfOk result (λ c. length (cow_str_bytes c)
            ≤ length (Self.text self.now) + stop * tabs (Self.text self.now)) }
        ensures takes_no_memory { IsFalse (has_tab (Self.text self.now)) → IsOk result }
    {
        expand_tabs(alloc, self.as_text(), stop)
    }

    /// The columns of the text in a range, ready for display. The first column is 0.
    ///
    /// The text is taken as `ansi_safe::cells::cell_of` makes it: on one line, and of printing
    /// characters, select graphic renditions and links alone. A slice that doesn't begin at the
    /// column 0 begins with the start of the style that is open there and the sequence that opened
    /// the link. Text and sequences follow, and then what closes the link and the style still open.
    ///
    /// If a cluster is only partly in the range, each of its columns in the range is a blank, in
    /// the style and the link of its first byte. A cluster of no columns belongs to the column
    /// after it, or to the last one. A slice without a column is empty: an end at or before the
    /// start, or a start past the last column.
    ///
    /// Returns a borrow, and doesn't allocate, exactly if the text is the text of a cell and nothing
    /// is opened, closed or replaced by blanks. The result is at most as long as the text, plus one
    /// byte for each blank, 251 for the styles and 7 for the link. `Err` means out of memory. (Own.)
    ///
    /// ```
    /// let part = "\x1b[31m日本語\x1b[39m".ansi_slice(rt.alloc(), 1..4)?;
    /// assert!(rt; part.as_str() == "\x1b[31m 本\x1b[39m");
    /// ```
    final fn ansi_slice<R: AnsiRange>(
        &self,
        alloc: Global,
        columns: R,
    ) -> Result<CowStr<'_>, AllocError>
        ensures bytes { IfOk result (λ c. cow_str_bytes c
            ≡ sliced (cell (Self.text self.now)) (R.start columns) (R.end columns)) }
        ensures safe { IfOk result (λ c. IsTrue (is_safe Keep (cow_str_bytes c))) }
        ensures one_line { IfOk result (λ c. IsTrue (is_one_line (cow_str_bytes c))) }
        ensures closed { IfOk result (λ c. IsClosed (cow_str_bytes c)) }
        ensures screen { IfOk result (λ c. screen (cow_str_bytes c) ≡ sliced_screen
            (R.start columns) (R.end columns) (screen (cell (Self.text self.now)))) }
        ensures whole { IfOk result (λ c. IsTrue (is_whole (cow_str_bytes c))) }
        ensures borrowed { IfOk result (λ c. IsBorrowedStr c
            ↔ ((cell (Self.text self.now) ≡ Self.text self.now) × IsTrue
            (is_sliced_stretch (Self.text self.now) (R.start columns) (R.end columns)))) }
        ensures len { IfOk result (λ c. length (cow_str_bytes c)
            ≤ length (cell (Self.text self.now))
            + sliced_blanks (cell (Self.text self.now)) (R.start columns) (R.end columns)
            + longest_start_and_close + longest_link_end) }
        ensures takes_no_memory { (cell (Self.text self.now) ≡ Self.text self.now) × IsTrue
            (is_sliced_stretch (Self.text self.now) (R.start columns) (R.end columns)) →
            IsOk result }
    {
        slice(alloc, self.as_text(), columns.start(), columns.end())
    }

    /// The lines of the text's paragraph wrapped at `width` columns, in order, ready for display.
    ///
    /// In the paragraph a TAB is a blank, line ends, printing characters, select graphic renditions
    /// and clean links stay, and all else is left out (`ansi_safe::cells::paragraph_of`). So each
    /// line is on one line and safe. If that changes the text, the call allocates, and each line is
    /// owned. If there is no memory for that, the first line is an `Err`.
    ///
    /// `Lines::new` says where lines begin and end. At the end of a line the link and then the
    /// style still open are closed, as at the end of a cut. They are opened again at the beginning
    /// of the next line: first the start of the style, then the sequence that opened the link. A
    /// code that isn't known is closed at the end of each line up to a reset, and isn't opened
    /// again. A sequence belongs to the first line that doesn't end before it. A sequence after the
    /// end of the last line belongs to the last line. On a line without text and sequences nothing
    /// is opened and closed: it is empty. (Own.)
    ///
    /// ```
    /// let mut lines = "\x1b[31mlion tiger".ansi_wrap(rt.alloc(), 5);
    /// assert!(rt; matches!(&lines.next(), Some(Ok(line)) if line.as_str() == "\x1b[31mlion\x1b[39m"));
    /// assert!(rt; matches!(&lines.next(), Some(Ok(line)) if line.as_str() == "\x1b[31mtiger\x1b[39m"));
    /// assert!(rt; matches!(&lines.next(), None));
    /// ```
    final fn ansi_wrap(&self, alloc: Global, width: usize) -> AnsiWrap<'_>
        ensures first_fit { IsWrapped (Self.text self.now) width result }
        ensures lines { result ≡ wrapped (Self.text self.now) width }
        ensures safe { All (λ l. IsTrue (is_safe Keep l.bytes)) result }
        ensures one_line { All (λ l. IsTrue (is_one_line l.bytes)) result }
        ensures closed { All (λ l. IsClosed l.bytes) result }
        ensures screen { map (λ l. screen l.bytes) result ≡ line_screens (Self.text self.now) width }
        ensures takes_no_memory { paragraph (Self.text self.now) ≡ Self.text self.now →
            IsFalse (has_escape (Self.text self.now)) →
            IsTrue (list_all (λ l. l.borrowed) result) }
    {
        wrap(alloc, self.as_text(), width)
    }

    /// The lines of the text's paragraph wrapped with an indent before each, ready for display.
    ///
    /// The first line has one indent, and each later line the other. An indent is shown as a text of
    /// its own: as the text of a cell (`ansi_safe::cells::cell_of`), so it is on one line and safe,
    /// and then the link and the style still open are closed. After it comes the line as
    /// `ansi_wrap` returns it, wrapped at the columns that the wider of both indents leaves of the
    /// width. If no column is left, that is one column, as for a width of 0.
    ///
    /// A line without an indent is that of `ansi_wrap`, and any other is owned. `Err` means out of
    /// memory. (`textwrap` of Python, if both indents are as wide; the text of a cell, and closing
    /// links and styles, own.)
    ///
    /// ```
    /// let to = Wrap::at(8).first_indent("* ").indent("\x1b[2m|\t");
    /// let mut lines = "\x1b[31mlion tiger".ansi_wrap_with(rt.alloc(), &to);
    /// assert!(rt; matches!(&lines.next(), Some(Ok(line)) if line.as_str() == "* \x1b[31mlion\x1b[39m"));
    /// assert!(rt; matches!(&lines.next(), Some(Ok(line))
    ///     if line.as_str() == "\x1b[2m| \x1b[22m\x1b[31mtiger\x1b[39m"));
    /// assert!(rt; matches!(&lines.next(), None));
    /// ```
    final fn ansi_wrap_with<'a>(&self, alloc: Global, to: &Wrap<'a>) -> AnsiWrapWith<'_, 'a>
        ensures first_fit { IsWrappedWith (Self.text self.now) to.now.width
            to.now.first_indent.now to.now.indent.now result }
        ensures lines { result ≡ wrapped_with (Self.text self.now) to.now.width
            to.now.first_indent.now to.now.indent.now }
        ensures safe { All (λ l. IsTrue (is_safe Keep l.bytes)) result }
        ensures one_line { All (λ l. IsTrue (is_one_line l.bytes)) result }
        ensures closed { All (λ l. IsClosed l.bytes) result }
        ensures screen { map (λ l. screen l.bytes) result ≡ indented_screens (Self.text self.now)
            to.now.width to.now.first_indent.now to.now.indent.now }
        ensures takes_no_memory { paragraph (Self.text self.now) ≡ Self.text self.now →
            IsFalse (has_escape (Self.text self.now)) → to.now.first_indent.now ≡ [] →
            to.now.indent.now ≡ [] → IsTrue (list_all (λ l. l.borrowed) result) }
    {
        wrap_with(alloc, self.as_text(), to)
    }

    /// The address of the hyperlink at a position, or `None` if no link is open there.
    ///
    /// The address is that of the link around the plain byte at the position, so sequences directly
    /// before that byte count. A position counts bytes of the plain text, and may lie inside a
    /// character. At and after the end of the plain text there is no link. An address is never
    /// empty. Returns a borrow. Reads no further than the position. Doesn't allocate. (OSC 8; the
    /// positions, own.)
    ///
    /// ```
    /// let text = "a \x1b]8;;http://x\x1b\\link\x1b]8;;\x1b\\.";
    /// assert!(rt; text.ansi_link_at(2) == Some("http://x"));
    /// assert!(rt; text.ansi_link_at(6) == None);
    /// ```
    final fn ansi_link_at(&self, index: usize) -> Option<&str>
        ensures none { IsNone result ↔ ((length (plain (Self.text self.now)) ≤ index)
            ⊎ (link_at (Self.text self.now) index ≡ [])) }
        ensures bytes { option_map (λ a. a.now) result ≡ address_at (Self.text self.now) index }
    {
        link_at(self.as_text(), index)
    }
}

impl<T: AnsiStr> AnsiColumns for T {}
