//! The beginning and the end of each line of a wrapped text.
ghost use Rattle.std.specs.Prelude.{◌≡◌, ◌+◌, ◌<◌, ◌≤◌, [], ◌∷◌, Some, IfSome, MatchResult, All};
ghost use Rattle.std.specs.Prelude.{slice_range, bytes_eq};
ghost use Rattle.ansi_items.specs.Plain.{plain};
ghost use Rattle.ansi_clusters.specs.Columns.{cluster_width};
ghost use Rattle.ansi_clusters.specs.Lines.{seen_lines_left, is_line_end, is_blank};
ghost use Rattle.ansi_clusters.specs.Lines.{IsPastLine, IsPastIndent, IsGoodLine};
ghost use Rattle.ansi_clusters.specs.FirstFit.{AreShownLines};
ghost use Rattle.ansi_clusters.specs.Walks.{IsWalkIn, IsWalk, IsAnyWalk, IsTightWalk, AreTightWalks};
ghost use Rattle.ansi_clusters.specs.Walks.{IsPrintable, IsPastAscii, cluster, seen_cluster};
ghost use Rattle.ansi_clusters.specs.declared.views.View.{View};
ghost use Rattle.ansi_clusters.specs.Words.{end_after, words_after};

use crate::views::View;
use crate::walks::Walk;
use memchr::memrchr;
use std::marker::Model;

/// The lines of a wrapped text, in order, as pairs of positions: the beginning and the end of each
/// line, in bytes of the plain text.
///
/// After the last line `next` always returns `None`.
#[derive(Drop)]
pub struct Lines<'t> {
    text: &'t str,
    /// The greatest width of a line, in columns. A line of one wider cluster may exceed it.
    width: usize,
    /// The beginning of the next line.
    next: Option<Walk>,
}

impl<'t> Model for Lines<'t> {
    ghost use Rattle.std.specs.Prelude.{ℕ, List, IfSome};
    ghost use Rattle.ansi_clusters.specs.Lines.{seen_lines_left};
    ghost use Rattle.ansi_clusters.specs.Walks.{IsTightWalk};
    ghost use Rattle.ansi_clusters.specs.declared.views.View.{View};

    ghost Value = { List (ℕ × ℕ) };

    ghost view = { λ s. seen_lines_left View.Lined s.text.now s.width s.next };

    ghost invariant = { λ s. IfSome s.next (IsTightWalk View.Lined s.text.now) };
}

impl<'t> Lines<'t> {
    /// The lines of a text wrapped at `width` columns, in order, as pairs of positions.
    ///
    /// - A line ends at a line end, which is a cluster `\n` or `\r\n` and is left out, and before a
    ///   word that doesn't fit.
    /// - A word is a run of clusters other than line ends and U+0020. Blanks at the end of a line
    ///   are left out.
    /// - Blanks at the beginning of the text or after a line end stay if the first word fits after
    ///   them. Otherwise they are left out, and the word begins the line. (wrap-ansi, textwrap.)
    /// - A word wider than `width` begins a line and is broken into the longest pieces that fit,
    ///   each of at least one cluster. Further words may follow its last piece on the same line.
    /// - A text that ends with a line end has an empty last line.
    /// - Width 0 is treated as 1.
    ///
    /// These are the lines of what is shown: a TAB is a blank, and every other control but `\n` is left
    /// out, `\r` too.
    ///
    /// Positions count bytes of the plain text. Each is the least before which as much is shown, so a
    /// line doesn't include what is left out at its end. They are good positions, so each line can be
    /// cut from the text. Doesn't allocate. (First fit, `specs/FirstFit.antt`; own.)
    ///
    /// ```
    /// let mut lines = Lines::new("ab \x1b[1mcd  efg", 5);
    /// assert!(rt; lines.next() == Some((0, 5)));
    /// assert!(rt; lines.next() == Some((7, 10)));
    /// assert!(rt; lines.next() == None);
    /// let mut lines = Lines::new("a\x07b\tc", 2);
    /// assert!(rt; lines.next() == Some((0, 3)));
    /// assert!(rt; lines.next() == Some((4, 5)));
    /// assert!(rt; lines.next() == None);
    /// ```
    pub fn new(text: &'t str, width: usize) -> Lines<'t>
        ensures first_fit { AreShownLines width (plain text.now) result }
        ensures good { All (IsGoodLine (plain text.now)) result }
    {
        Lines {
            text,
            width: width.max(1),
            next: Some(Walk::start(text)),
        }
    }
}

impl<'t> Iterator for Lines<'t> {
    ghost use Rattle.std.specs.Iterator.{YieldsFirst, item_count};

    type Item = (usize, usize);

    ghost next_gives = { YieldsFirst (λ s. s) };

    ghost remaining = { item_count (λ s. s) };

    fn next(&mut self) -> Option<(usize, usize)> {
        let from = self.next?;
        let (start, end, next) = first_line(self.text, from, self.width, View::Lined);
        self.next = next;
        Some((start.position, end.position))
    }
}

/// The beginning and the end of the first line after a walk, and the beginning of the next line.
///
/// Reads the text up to the first cluster that doesn't fit. If an indent is left out, it reads the
/// word after it again.
#[inline(always)]
pub fn first_line(text: &str, start: Walk, width: usize, view: View) -> (Walk, Walk, Option<Walk>)
    requires { IsTightWalk view text.now start }
    ensures start { IsWalkIn view text.now result.0 }
    ensures end { IsWalkIn view text.now result.1 }
    ensures start_ordered { start.position ≤ result.0.position }
    ensures ordered { result.0.position ≤ result.1.position }
    ensures next { IfSome result.2 (IsWalkIn view text.now) }
    ensures next_tight { IfSome result.2 (IsTightWalk view text.now) }
    ensures next_ordered { IfSome result.2 (λ next. result.1.position ≤ next.position) }
    ensures lines { seen_lines_left view text.now width (Some start)
        ≡ (result.0.position, result.1.position) ∷ seen_lines_left view text.now width result.2 }
{
    let mut from = start;
    'indents: loop {
        match line_or_word(text, from, width, view) {
            Ok((end, next)) => return (from, end, next),
            Err(word) => from = word,
        }
    }
}

/// The end of the line that begins at a walk, and the beginning of the next line. `Err` if an indent
/// at the walk leaves no room for its word. It is that word, which begins the line instead.
#[inline(always)]
fn line_or_word(
    text: &str,
    start: Walk,
    width: usize,
    view: View,
) -> Result<(Walk, Option<Walk>), Walk>
    requires { IsTightWalk view text.now start }
    ensures { MatchResult result
        (λ (end, next). IsPastLine view text.now width start end next)
        (IsPastIndent view text.now width start) }
{
    let mut here = start;
    // The beginning of the current word, and the end of the words before it.
    let mut word = start;
    let mut end_before = start;
    // The end of the words read so far.
    let mut end = start;
    let mut columns = 0;
    'clusters: loop {
        let (after, len, next_run) = here.past_ascii(text, width.saturating_sub(columns));
        (end_before, word, end) = words_after(text, here, len, after, end_before, word, end);
        columns += len;
        let is_at_next_run = here.run_end < after.run_end;
        here = after;
        if is_at_next_run {
            // Its printable ASCII may be passed at once too.
            continue;
        }
        if next_run.end == 0 {
            let (later, more) = here.past_word(text, width.saturating_sub(columns));
            if 0 < more {
                columns += more;
                here = later;
                end = later;
                continue;
            }
        }
        let Some((next, more)) = here.next_cluster_before(text, next_run, view) else {
            return Ok((end, None));
        };
        let (ends_line, is_gap) = ends_or_parts(text, &here, &next, more, view);
        if ends_line {
            return Ok((end, Some(next)));
        }
        if is_gap {
            end_before = end;
            word = next;
        } else if here.position == start.position || columns + more <= width {
            end = next;
        } else if word.position == start.position {
            return Ok((end, Some(here)));
        } else if end_before.position == start.position {
            return Err(word);
        } else {
            return Ok((end_before, Some(word)));
        }
        columns += more;
        here = next;
    }
}

/// The end of the words before the last word, the beginning of that word and the end of all words,
/// after `len` more bytes of printable ASCII, which end at `after`.
fn words_after(
    text: &str,
    here: Walk,
    len: usize,
    after: Walk,
    end_before: Walk,
    word: Walk,
    end: Walk,
) -> (Walk, Walk, Walk)
    requires here { IsAnyWalk text.now here }
    requires after { IsPastAscii text.now here len after }
    ensures walks { (view : View) → IsTightWalk view text.now here →
        AreTightWalks view text.now end_before word end →
        AreTightWalks view text.now result.0 result.1 result.2 }
    ensures positions { (result.0.position, result.1.position, result.2.position) ≡ words_after
        (slice_range text.now here.offset (here.offset + len)) here.position end_before.position
        word.position end.position }
{
    if len == 0 {
        return (end_before, word, end);
    }
    let bytes = &text.as_bytes()[here.offset..here.offset + len];
    if len == 1 && bytes[0] == b' ' {
        return (end, after, end);
    }
    let Some(blank) = memrchr(b' ', bytes) else {
        return (end_before, word, after);
    };
    let before = end_after(text, here, blank, end);
    if blank + 1 == len {
        return (before, after, before);
    }
    (before, here.past_printable(text, blank + 1), after)
}

/// The end of the words in the `len` bytes of printable ASCII that come next, or `end` if those are
/// all blanks.
fn end_after(text: &str, here: Walk, len: usize, end: Walk) -> Walk
    requires here { IsAnyWalk text.now here }
    requires ahead { 0 < len → IsPrintable text.now here len }
    ensures walk { (view : View) → IsTightWalk view text.now here →
        IsTightWalk view text.now end → IsTightWalk view text.now result }
    ensures position { result.position ≡ end_after
        (slice_range text.now here.offset (here.offset + len)) here.position end.position }
{
    let bytes = &text.as_bytes()[here.offset..here.offset + len];
    let mut count = len;
    'blanks: while 0 < count && bytes[count - 1] == b' ' {
        count -= 1;
    }
    if count == 0 {
        end
    } else {
        here.past_printable(text, count)
    }
}

/// Whether what is seen between two walks, which is a cluster of `width` columns, is the end of a
/// line, and whether it is a blank.
#[inline(always)]
fn ends_or_parts(text: &str, here: &Walk, next: &Walk, width: usize, view: View) -> (bool, bool)
    requires here { IsWalkIn view text.now here.now }
    requires next { IsTightWalk view text.now next.now }
    requires ordered { here.now.position < next.now.position }
    requires width { width
        ≡ cluster_width (seen_cluster view text.now here.now.position next.now.position) }
    ensures line_end { result.0
        ≡ is_line_end (seen_cluster view text.now here.now.position next.now.position) }
    ensures blank { result.1
        ≡ is_blank (seen_cluster view text.now here.now.position next.now.position) }
{
    if 1 < width {
        return (false, false);
    }
    if view.is_given() {
        return (is_line_end(text, here, next), is_blank(text, here, next));
    }
    is_alone(text, here, next, view)
}

/// Whether `\n` is all that is seen between two walks, and whether U+0020 is.
#[inline(always)]
fn is_alone(text: &str, here: &Walk, next: &Walk, view: View) -> (bool, bool)
    requires here { IsWalkIn view text.now here.now }
    requires next { IsTightWalk view text.now next.now }
    requires ordered { here.now.position < next.now.position }
    ensures feed { result.0
        ≡ bytes_eq (seen_cluster view text.now here.now.position next.now.position) (10 ∷ []) }
    ensures blank { result.1
        ≡ bytes_eq (seen_cluster view text.now here.now.position next.now.position) (32 ∷ []) }
{
    let len = next.position - here.position;
    if len <= here.run_end - here.offset && b' ' < text.as_bytes()[here.offset + len - 1] {
        // This saves decoding most characters.
        return (false, false);
    }
    let (start, first) = here.next_seen(text, view);
    let Some(first) = first else {
        return (false, false);
    };
    if start.position + 1 != next.position {
        return (false, false);
    }
    (first == '\n', first == ' ')
}

/// Whether the cluster between two walks is the end of a line.
fn is_line_end(text: &str, here: &Walk, next: &Walk) -> bool
    requires here { IsWalk text.now here.now }
    requires next { IsWalk text.now next.now }
    requires ordered { here.now.position < next.now.position }
    ensures { result ≡ is_line_end (cluster text.now here.now.position next.now.position) }
{
    let len = next.position - here.position;
    if 2 < len {
        // This saves decoding most characters that aren't ASCII.
        return false;
    }
    match here.next_char(text) {
        Some('\n') => len == 1,
        Some('\r') if len == 2 => matches!(here.past(text, '\r').next_char(text), Some('\n')),
        _ => false,
    }
}

/// Whether the cluster between two walks is a blank.
fn is_blank(text: &str, here: &Walk, next: &Walk) -> bool
    requires here { IsWalk text.now here.now }
    requires next { IsWalk text.now next.now }
    requires ordered { here.now.position < next.now.position }
    ensures { result ≡ is_blank (cluster text.now here.now.position next.now.position) }
{
    next.position - here.position == 1 && matches!(here.next_char(text), Some(' '))
}
