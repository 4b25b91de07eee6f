//! A walk over the clusters of a plain text, and the width of each cluster.
ghost use Rattle.std.specs.Prelude.{◌≡◌, ◌+◌, ◌*◌, ◌-◌, ◌^◌, ◌<◌, ◌≤◌, [], ◌∷◌, length, encode_utf8};
ghost use Rattle.std.specs.Prelude.{ℕ, ◌⊎◌, take, slice_index, slice_range, MatchOption, IfSome, IsSomeAnd, IsTrue, IsFalse};
ghost use Rattle.std.specs.List.{list_all};
ghost use Rattle.std.specs.Str.{IsCharBoundary};
ghost use Rattle.ansi_items.specs.Bytes.{escape, is_plain_byte};
ghost use Rattle.ansi_search.specs.Offsets.{offset_of};
ghost use Rattle.ansi_safe.specs.Safe.{is_printable_byte};
ghost use Rattle.ansi_clusters.specs.declared.views.View.{View};
ghost use Rattle.ansi_clusters.specs.BreakStates.{break_state_of, IsShownSingle};
ghost use Rattle.ansi_clusters.specs.Columns.{cluster_width};
ghost use Rattle.ansi_clusters.specs.Views.{seen_len, IsTight};
ghost use Rattle.ansi_clusters.specs.Walks.{before, after, seen_before, seen_after, seen_cluster};
ghost use Rattle.ansi_clusters.specs.Words.{ArePastLetters};
ghost use Rattle.ansi_clusters.specs.Walks.{IsRun, IsWalkIn, IsWalk, IsAnyWalk, IsTightWalk, IsNext, IsPastCluster, IsPastClusters};
ghost use Rattle.ansi_clusters.specs.Walks.{IsSeenNext, IsPrintable, IsPrintableFront, AreClustersIn, IsPastAscii, is_seen_ascii};
ghost use Rattle.ansi_clusters.specs.Walks.{IsPastFirst, IsPastLast, IsNextRun, EndsAscii, BreaksAfterAscii, walk_at, walk_at_run, walk_on};

use crate::break_state::BreakState;
use crate::extended::with_added;
use crate::from_end;
use crate::singles::{is_single, single_columns};
use crate::views::View;
use ansi_items::ansitok::Item;
use ansi_items::{ESC, mark_at};
use ansi_safe::printable::printable_len;
use memchr::memchr;
use unicode_width::UnicodeWidthChar;

/// The state of a walk over the characters of a plain text.
#[derive(Clone, Copy)]
pub struct Walk {
    /// The number of plain bytes before the next character.
    pub position: usize,
    /// The offset of the next character in the text, or the length of the text.
    pub offset: usize,
    /// An offset up to which only plain bytes follow. The run may go on after it.
    pub run_end: usize,
    pub break_state: BreakState,
}

/// Where a run begins and ends, as offsets of the text. `end` is 0 if there is none.
#[derive(Clone, Copy)]
pub struct Run {
    pub start: usize,
    pub end: usize,
}

impl Run {
    pub const NONE: Run = Run { start: 0, end: 0 };
}

impl Walk {
    /// The walk before the first character.
    pub fn start(text: &str) -> Walk
        ensures walk { IsWalk text.now result }
        ensures seen { (view : View) → IsWalkIn view text.now result }
        ensures lined { IsTightWalk View.Lined text.now result }
        ensures position { result.position ≡ 0 }
    {
        let (offset, run_end) = first_run(text);
        Walk {
            position: 0,
            offset,
            run_end,
            break_state: BreakState::start(),
        }
    }

    /// The walk at a run before which there is only printable ASCII, with `position` bytes.
    #[inline(always)]
    pub fn at_run(run: &Item, position: usize) -> Walk
        ensures { result ≡ walk_at_run position run.now.start run.now.end }
    {
        Walk {
            position,
            offset: run.start,
            run_end: run.end,
            break_state: BreakState::start(),
        }
    }

    /// The walk after the next cluster that is seen, and the columns of that cluster. `None` if
    /// nothing more is seen.
    #[inline(always)]
    pub fn read_cluster(self, text: &str, view: View) -> Option<(Walk, usize)>
        requires { IsWalkIn view text.now self }
        ensures { MatchOption result (seen_after view text.now self.position ≡ []) (λ (walk, width).
            IsPastCluster view text.now self walk width) }
    {
        let (start, first) = self.next_seen(text, view);
        let first = first?;
        self.cluster_from(text, first, start.past(text, first), view)
    }

    /// The same. If `next` is a run, the cluster begins with a byte of printable ASCII, and the run is
    /// the next one after that byte.
    #[inline(always)]
    pub fn next_cluster_before(self, text: &str, next: Run, view: View) -> Option<(Walk, usize)>
        requires walk { IsWalkIn view text.now self }
        requires next { IsNextRun view text.now self next }
        ensures { MatchOption result (seen_after view text.now self.position ≡ []) (λ (walk, width).
            IsPastCluster view text.now self walk width) }
    {
        if next.end == 0 {
            return self.read_cluster(text, view);
        }
        self.cluster_over_runs(text, next, view)
    }

    /// The same if `next` is a run. (Not inlined: it is rare, and callers would grow too large to
    /// be inlined themselves.)
    #[inline(never)]
    fn cluster_over_runs(self, text: &str, next: Run, view: View) -> Option<(Walk, usize)>
        requires walk { IsWalkIn view text.now self }
        requires some { 0 < next.end }
        requires next { IsNextRun view text.now self next }
        ensures { IsSomeAnd result (λ (walk, width).
            IsPastCluster view text.now self walk width) }
    {
        let first = char::from(text.as_bytes()[self.offset]);
        self.cluster_from(text, first, self.at(next), view)
    }

    /// The walk after a byte of printable ASCII, at the next run.
    #[inline(always)]
    fn at(self, next: Run) -> Walk
        requires { self.position + 1 < 2 ^ 64 }
        ensures { result ≡ walk_at self next }
    {
        Walk {
            position: self.position + 1,
            offset: next.start,
            run_end: next.end,
            break_state: BreakState::start(),
        }
    }

    /// The walk after the next cluster that is seen, and its columns. `after_first` is the walk after
    /// the first character of it. It is never `None`.
    #[inline(always)]
    fn cluster_from(
        self,
        text: &str,
        first: char,
        after_first: Walk,
        view: View,
    ) -> Option<(Walk, usize)>
        requires walk { IsWalkIn view text.now self }
        requires first { IsPastFirst view text.now self first after_first }
        requires tight { IsTight view text.now after_first.position }
        ensures { IsSomeAnd result (λ (walk, width).
            IsPastCluster view text.now self walk width) }
    {
        let mut walk = after_first;
        let mut columns = Some(char_width(first));
        'cluster: while let (here, Some(next)) = walk.next_seen(text, view) {
            if here.break_state.ends_before(next) {
                break;
            }
            walk = here.past(text, next);
            columns = with_added(columns, next);
        }
        let width = match columns {
            Some(columns) => columns,
            None => self.width_up_to(text, &walk, view),
        };
        Some((walk, width))
    }

    /// The walk after clusters that come next, and their columns, at most `most`. Most of them are one
    /// character, which is single. There may be none.
    #[inline(always)]
    pub fn past_singles(self, text: &str, most: usize, view: View) -> (Walk, usize)
        requires { IsWalkIn view text.now self }
        ensures past { IsPastClusters view text.now self result.0 result.1 }
        ensures most { result.1 ≤ most }
    {
        let run = &text.as_bytes()[self.offset..self.run_end];
        match run {
            [0x20..=0x7E] | [0x20..=0x7E, 0..=0x7F, ..] => {
                let (later, len, _) = self.past_ascii(text, most);
                return (later, len);
            }
            [0x20..=0x7E | 0xC2..=0xEF, ..] => {}
            _ => return (self, 0),
        }
        let (later, columns) = self.past_stretch(text, most);
        if columns > 0 {
            return (later, columns);
        }
        self.past_letters(text, most, true)
    }

    /// The walk after the clusters of a word that come next in the run, and their columns, at most `most`.
    /// Printable ASCII that more of it follows isn't passed.
    #[inline(always)]
    pub(crate) fn past_word(self, text: &str, most: usize) -> (Walk, usize)
        requires { IsAnyWalk text.now self }
        ensures past { (view : View) → IsWalkIn view text.now self →
            ArePastLetters view text.now self result.0 result.1 }
        ensures most { result.1 ≤ most }
    {
        match &text.as_bytes()[self.offset..self.run_end] {
            [0x21..=0x7E, 0xC2..=0xCB | 0xCE..=0xEF, ..] | [0xC2..=0xEF, ..] => {
                self.past_word_letters(text, most)
            }
            _ => (self, 0),
        }
    }

    /// The same, without the test for a beginning that may be passed. (Not inlined, so that lines of
    /// ASCII keep their registers.)
    #[inline(never)]
    fn past_word_letters(self, text: &str, most: usize) -> (Walk, usize)
        requires { IsAnyWalk text.now self }
        ensures past { (view : View) → IsWalkIn view text.now self →
            ArePastLetters view text.now self result.0 result.1 }
        ensures most { result.1 ≤ most }
    {
        let (later, columns) = self.past_wide(text, most);
        if columns > 0 {
            return (later, columns);
        }
        let (later, columns) = self.past_letters(text, most, false);
        if columns > 0 {
            return (later, columns);
        }
        self.past_extended(text, most)
    }

    /// The walk after the single characters that come next in the run, and their columns, at most
    /// `most`. Each of them is a cluster by itself. One before a character that isn't single isn't passed.
    ///
    /// If no `blanks` are passed, printable ASCII that more of it follows isn't passed either.
    #[inline(always)]
    fn past_letters(self, text: &str, most: usize, blanks: bool) -> (Walk, usize)
        requires { IsAnyWalk text.now self }
        ensures past { (view : View) → IsWalkIn view text.now self →
            IsPastClusters view text.now self result.0 result.1 }
        ensures most { result.1 ≤ most }
        ensures word { IsFalse blanks → (view : View) → IsWalkIn view text.now self →
            ArePastLetters view text.now self result.0 result.1 }
    {
        let mut walk = self;
        let mut columns = 0;
        let mut chars = text[self.offset..self.run_end].chars();
        let Some(mut c) = chars.next() else {
            return (self, 0);
        };
        let Some(mut width) = single_columns(c) else {
            return (self, 0);
        };
        'characters: while width <= most - columns {
            if !blanks && c == ' ' {
                break;
            }
            let Some(next) = chars.next() else {
                return match walk.past_last(text, c, width) {
                    Some(later) => (later, columns + width),
                    None => (walk, columns),
                };
            };
            let Some(next_width) = single_columns(next) else {
                break;
            };
            let len = c.len_utf8();
            walk = Walk {
                position: walk.position + len,
                offset: walk.offset + len,
                run_end: walk.run_end,
                break_state: BreakState::after_single(c),
            };
            columns += width;
            c = next;
            width = next_width;
            if next.is_ascii() && matches!(chars.as_str().as_bytes(), [0..=0x7F, ..]) {
                if !blanks {
                    break;
                }
                let front = walk.printable_front(text, most - columns);
                let (later, more) = walk.past_front(text, front);
                walk = later;
                columns += more;
                chars = text[walk.offset..walk.run_end].chars();
                let Some(last) = chars.next() else {
                    break;
                };
                let Some(last_width) = single_columns(last) else {
                    break;
                };
                c = last;
                width = last_width;
            }
        }
        (walk, columns)
    }

    /// The walk some bytes on in the run, in the state after printable ASCII.
    #[inline(always)]
    pub(crate) fn on(self, len: usize) -> Walk
        requires position { self.position + len < 2 ^ 64 }
        requires offset { self.offset + len < 2 ^ 64 }
        ensures { result ≡ walk_on self len }
    {
        Walk {
            position: self.position + len,
            offset: self.offset + len,
            run_end: self.run_end,
            break_state: BreakState::start(),
        }
    }

    /// The walk after the last character of the run, which is single and has `width` columns, if it is a
    /// cluster by itself. `None` says nothing.
    #[inline(always)]
    fn past_last(self, text: &str, c: char, width: usize) -> Option<Walk>
        requires walk { IsAnyWalk text.now self }
        requires next { IsNext text.now self c }
        requires shown { IsShownSingle c width }
        ensures past { IfSome result (λ later. (view : View) → IsWalkIn view text.now self →
            IsPastCluster view text.now self later width) }
        ensures position { IfSome result (λ later.
            later.position ≡ self.position + length (encode_utf8 c)) }
    {
        let later = self.moved(text, c.len_utf8(), BreakState::after_single(c));
        match later.next_char(text) {
            Some(next) if is_single(next) => Some(later),
            Some(_) => None,
            None => Some(later),
        }
    }

    /// The walk before the next character that is seen, and as what it is seen. At the end of the
    /// text there is none.
    #[inline(always)]
    pub fn next_seen(self, text: &str, view: View) -> (Walk, Option<char>)
        requires { IsWalkIn view text.now self }
        ensures walk { IsWalkIn view text.now result.0 }
        ensures ordered { self.position ≤ result.0.position }
        ensures left_out { seen_cluster view text.now self.position result.0.position ≡ [] }
        ensures next { MatchOption result.1 (after text.now result.0.position ≡ [])
            (IsSeenNext view text.now result.0) }
    {
        let mut walk = self;
        'left_out: while let Some(c) = walk.next_char(text) {
            if let Some(seen) = view.see(c) {
                return (walk, Some(seen));
            }
            walk = walk.moved(text, c.len_utf8(), walk.break_state);
        }
        (walk, None)
    }

    /// The walk after the printable ASCII that comes next in the run, at most `most` bytes of it,
    /// and how many bytes those are. Each of them is a cluster of one column.
    ///
    /// A byte before a character that may join its cluster isn't among them. If sequences precede that
    /// character, the third result is the run that it begins. If all of the run is passed, the first
    /// result is the walk at the next run.
    #[inline(always)]
    pub fn past_ascii(self, text: &str, most: usize) -> (Walk, usize, Run)
        requires { IsAnyWalk text.now self }
        ensures past { IsPastAscii text.now self result.1 result.0 }
        ensures most { result.1 ≤ most }
        ensures none { result.1 ≡ 0 → result.0 ≡ self }
        ensures next { (view : View) → IsWalkIn view text.now self →
            IsNextRun view text.now result.0 result.2 }
    {
        if !matches!(text.as_bytes().get(self.offset), Some(0x20..=0x7E)) {
            return (self, 0, Run::NONE);
        }
        let len = self.printable_front(text, most);
        if 0 < len && len == self.run_end - self.offset {
            return self.past_run(text);
        }
        let (walk, len) = self.past_front(text, len);
        (walk, len, Run::NONE)
    }

    /// The walk after the next `len` bytes, which are printable ASCII, and how many bytes were passed:
    /// all, or all but the last if no ASCII that is seen follows.
    #[inline(always)]
    fn past_front(self, text: &str, len: usize) -> (Walk, usize)
        requires walk { IsAnyWalk text.now self }
        requires front { IsPrintableFront text.now self len }
        ensures past { IsPastAscii text.now self result.1 result.0 }
        ensures most { result.1 ≤ len }
        ensures none { result.1 ≡ 0 → result.0 ≡ self }
    {
        let len = self.before_ascii(text, len);
        (self.past_printable(text, len), len)
    }

    /// The same for a run that is printable ASCII.
    #[inline(always)]
    fn past_run(self, text: &str) -> (Walk, usize, Run)
        requires walk { IsAnyWalk text.now self }
        requires some { self.offset < self.run_end }
        requires bytes { IsTrue (list_all is_printable_byte
            (slice_range text.now self.offset self.run_end)) }
        ensures past { IsPastAscii text.now self result.1 result.0 }
        ensures most { result.1 ≤ self.run_end - self.offset }
        ensures none { result.1 ≡ 0 → result.0 ≡ self }
        ensures less { 0 < result.2.end → result.1 < self.run_end - self.offset }
        ensures next { (view : View) → IsWalkIn view text.now self →
            IsNextRun view text.now result.0 result.2 }
    {
        let len = self.run_end - self.offset;
        let next = self.next_run(text);
        if next.ends_ascii(text) {
            return (next, len, Run::NONE);
        }
        let run = Run {
            start: next.offset,
            end: next.run_end,
        };
        (self.past_printable(text, len - 1), len - 1, run)
    }

    /// The walk after the run, which is printable ASCII.
    #[inline(always)]
    fn next_run(self, text: &str) -> Walk
        requires walk { IsAnyWalk text.now self }
        requires some { self.offset < self.run_end }
        requires bytes { IsTrue (list_all is_printable_byte
            (slice_range text.now self.offset self.run_end)) }
        ensures walk { (view : View) → IsWalkIn view text.now self →
            IsWalkIn view text.now result }
        ensures past { EndsAscii text.now result →
            IsPastAscii text.now self (self.run_end - self.offset) result }
        ensures last { (view : View) → IsWalkIn view text.now self →
            IsPastLast view text.now self result }
        ensures position { result.position ≡ self.position + (self.run_end - self.offset) }
        ensures break_state { result.break_state ≡ break_state_of [] }
    {
        let (start, end) = first_run(&text[self.run_end..]);
        Walk {
            position: self.position + (self.run_end - self.offset),
            offset: self.run_end + start,
            run_end: self.run_end + end,
            break_state: BreakState::start(),
        }
    }

    /// Whether a cluster that ends in printable ASCII ends at the walk, whatever came before. `false`
    /// says nothing.
    #[inline(always)]
    pub fn ends_ascii(self, text: &str) -> bool
        requires { IsAnyWalk text.now self }
        ensures { IsTrue result → EndsAscii text.now self }
    {
        if text.len() <= self.offset {
            return true;
        }
        if is_seen_ascii(text.as_bytes()[self.offset]) {
            return true;
        }
        self.is_before_break(text)
    }

    /// Whether a cluster that ends in printable ASCII ends before the next character, and that is seen
    /// as it is.
    #[inline(always)]
    fn is_before_break(self, text: &str) -> bool
        requires { IsAnyWalk text.now self }
        ensures { IsTrue result → EndsAscii text.now self }
    {
        let Some(next) = self.next_char(text) else {
            return false;
        };
        if is_single(next) {
            return true;
        }
        breaks_after_ascii(next)
    }

    /// How many bytes of printable ASCII come next in the run, at most `most`.
    #[inline]
    fn printable_front(self, text: &str, most: usize) -> usize
        requires { IsAnyWalk text.now self }
        ensures most { result ≤ most }
        ensures front { IsPrintableFront text.now self result }
    {
        let run = &text.as_bytes()[self.offset..self.run_end];
        printable_len(&run[..run.len().min(most)])
    }

    /// How many of the next `len` bytes, which are printable ASCII, come before another byte of
    /// ASCII of the run that is seen: all of them, or all but the last.
    #[inline]
    fn before_ascii(self, text: &str, len: usize) -> usize
        requires walk { IsAnyWalk text.now self }
        requires front { IsPrintableFront text.now self len }
        ensures most { result ≤ len }
        ensures ahead { 0 < result → IsPrintable text.now self result }
    {
        let run = &text.as_bytes()[self.offset..self.run_end];
        if len < run.len() && is_seen_ascii(run[len]) {
            len
        } else {
            len.saturating_sub(1)
        }
    }

    /// The walk after `len` bytes of printable ASCII, which another byte of ASCII follows that is
    /// seen. Each of them is a cluster of one column.
    #[inline]
    pub fn past_printable(self, text: &str, len: usize) -> Walk
        requires walk { IsAnyWalk text.now self }
        requires ahead { 0 < len → IsPrintable text.now self len }
        ensures walk { (view : View) → IsWalkIn view text.now self →
            IsWalkIn view text.now result }
        ensures position { result.position ≡ self.position + len }
        ensures offset { result.offset ≡ self.offset + len }
        ensures clusters { (view : View) → AreClustersIn view text.now self.position
            (slice_range text.now self.offset (self.offset + len)) }
        ensures seen { (view : View) → seen_len view text.now result.position
            ≡ seen_len view text.now self.position + len }
        ensures none { len ≡ 0 → result ≡ self }
    {
        if len == 0 {
            return self;
        }
        Walk {
            position: self.position + len,
            offset: self.offset + len,
            run_end: self.run_end,
            break_state: BreakState::start(),
        }
    }

    /// The columns of the characters that are seen between this walk and a later one, taken as one
    /// cluster.
    fn width_up_to(self, text: &str, walk: &Walk, view: View) -> usize
        requires here { IsWalkIn view text.now self }
        requires later { IsWalkIn view text.now walk.now }
        requires ordered { self.position ≤ walk.now.position }
        ensures value { result
            ≡ cluster_width (seen_cluster view text.now self.position walk.now.position) }
        ensures bound { result ≤ 2 * (walk.now.position - self.position) }
    {
        let len = walk.position - self.position;
        if len <= self.run_end - self.offset {
            from_end::run_width(&text[self.offset..self.offset + len], view)
        } else {
            from_end::width(&text[self.offset..walk.offset], view)
        }
    }

    /// The next character.
    #[inline(always)]
    pub(crate) fn next_char(self, text: &str) -> Option<char>
        requires { IsAnyWalk text.now self }
        ensures { MatchOption result (after text.now self.position ≡ []) (IsNext text.now self) }
    {
        text[self.offset..self.run_end].chars().next()
    }

    /// The walk after the next character, which is seen as `seen` and has as many bytes.
    #[inline(always)]
    pub(crate) fn past(self, text: &str, seen: char) -> Walk
        requires walk { IsAnyWalk text.now self }
        requires next { (c : ℕ) × IsNext text.now self c
            × (length (encode_utf8 seen) ≡ length (encode_utf8 c)) }
        ensures walk { (view : View) → IsWalkIn view text.now self →
            IsSeenNext view text.now self seen → IsWalkIn view text.now result }
        ensures position { result.position ≡ self.position + length (encode_utf8 seen) }
    {
        self.moved(text, seen.len_utf8(), self.break_state.after(seen))
    }

    /// The walk after the next character, which has `len` bytes, with another break state.
    #[inline(always)]
    fn moved(self, text: &str, len: usize, break_state: BreakState) -> Walk
        requires walk { IsAnyWalk text.now self }
        requires next { (c : ℕ) × IsNext text.now self c × (len ≡ length (encode_utf8 c)) }
        ensures walk { (view : View) →
            break_state ≡ break_state_of (seen_before view text.now result.position) →
            IsWalkIn view text.now result }
        ensures position { result.position ≡ self.position + len }
    {
        let mut offset = self.offset + len;
        let mut run_end = self.run_end;
        if offset == run_end {
            let (start, end) = first_run(&text[offset..]);
            run_end = offset + end;
            offset += start;
        }
        Walk {
            position: self.position + len,
            offset,
            run_end,
            break_state,
        }
    }
}

/// Whether a byte is a character of ASCII that is seen in any view.
#[inline(always)]
fn is_seen_ascii(byte: u8) -> bool
    ensures { result ≡ is_seen_ascii byte }
{
    matches!(byte, 0x20..=0x7E | b'\t' | b'\n')
}

/// Whether a cluster that ends in printable ASCII ends before a character, and that is seen as it is in
/// any view.
#[inline(never)]
fn breaks_after_ascii(c: char) -> bool
    ensures { IsTrue result → BreaksAfterAscii c }
{
    let Some(seen) = View::Shown.see(c) else {
        return false;
    };
    if seen != c {
        return false;
    }
    BreakState::start().ends_before(c)
}

/// The columns of a cluster of one character.
#[inline]
pub(crate) fn char_width(c: char) -> usize
    ensures value { result ≡ cluster_width (c ∷ []) }
    ensures bound { result ≤ 2 * length (encode_utf8 c) }
{
    match single_columns(c) {
        Some(width) => width,
        None => c.width().unwrap_or(1),
    }
}

/// How many bytes of a run are searched for its end, so that one that is much longer than a width isn't read
/// for it.
const NEAR: usize = 512;

/// The start and the end of the first run of a text, or of a part of that run. Both are the length
/// of the text if it has no run.
pub fn first_run(text: &str) -> (usize, usize)
    ensures start { result.0 ≡ offset_of text.now 0 }
    ensures run { IsRun text.now result.0 result.1 }
    ensures none { result.0 ≡ result.1 → result.0 ≡ length text.now }
{
    let bytes = text.as_bytes();
    let mut start = 0;
    'marks: while start < bytes.len() && bytes[start] == ESC {
        start = mark_at(text, start).end;
    }
    (start, start + near_run_len(&text[start..]))
}

/// How many bytes of plain text come first, at most `NEAR`.
#[inline(always)]
fn near_run_len(text: &str) -> usize
    ensures boundary { IsCharBoundary text.now result }
    ensures bytes { IsTrue (list_all is_plain_byte (take result text.now)) }
    ensures none { result ≡ 0 → (text.now ≡ []) ⊎ (slice_index text.now 0 ≡ escape) }
{
    let near = &text[..text.ceil_char_boundary(NEAR)];
    memchr(ESC, near.as_bytes()).unwrap_or(near.len())
}
