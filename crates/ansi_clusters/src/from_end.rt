//! The width of a cluster that spans sequences. Its characters are read from its end.
ghost use Rattle.std.specs.Prelude.{◌≡◌, ◌+◌, ◌*◌, ◌<◌, ◌≤◌, List, [], ◌∷◌, ◌++◌, length, chars};
ghost use Rattle.std.specs.Prelude.{IfSome, MatchOption};
ghost use Rattle.std.specs.Str.{IsCharBoundary, IsUtf8};
ghost use Rattle.ansi_items.specs.Pieces.{Piece, pieces_of, spelling};
ghost use Rattle.ansi_items.specs.Plain.{plain};
ghost use Rattle.ansi_clusters.specs.Columns.{cluster_width};
ghost use Rattle.ansi_clusters.specs.Reverse.{IsLastMark};
ghost use Rattle.ansi_clusters.specs.Views.{seen};

use crate::views::View;
use crate::walks::first_run;
use ansi_items::ESC;
use ansi_items::ansitok::Scanner;
use memchr::memrchr;
use unicode_width::char_iter_width;

/// The columns of what is seen of the plain text, taken as one cluster.
///
/// Takes time linear in the length of the text, and doesn't allocate.
pub(crate) fn width(text: &str, view: View) -> usize
    ensures value { result ≡ cluster_width (seen view (chars (plain text.now))) }
    ensures bound { result ≤ 2 * length (plain text.now) }
{
    char_iter_width(SeenChars {
        rest: text,
        run: "",
        view,
    })
}

/// The columns of what is seen of a run, taken as one cluster.
pub(crate) fn run_width(run: &str, view: View) -> usize
    ensures value { result ≡ cluster_width (seen view (chars run.now)) }
    ensures bound { result ≤ 2 * length run.now }
{
    char_iter_width(SeenChars {
        rest: "",
        run,
        view,
    })
}

/// The characters that are seen of a plain text, from either end.
#[derive(Drop)]
struct SeenChars<'t> {
    /// The text before the run that isn't read yet.
    rest: &'t str,
    /// The run at the end that isn't read yet.
    run: &'t str,
    view: View,
}

impl<'t> Iterator for SeenChars<'t> {
    ghost use Rattle.std.specs.Prelude.{◌+◌, length};
    ghost use Rattle.std.specs.Iterator.{at_most};

    type Item = char;

    ghost remaining = { λ s. at_most (length s.rest.now + length s.run.now) };

    fn next(&mut self) -> Option<char> {
        let (first, rest, run) = split_first_seen(self.rest, self.run, self.view)?;
        self.rest = rest;
        self.run = run;
        Some(first)
    }
}

impl<'t> DoubleEndedIterator for SeenChars<'t> {
    ghost use Rattle.std.specs.Prelude.{◌++◌, chars};
    ghost use Rattle.std.specs.Iterator.{YieldsLast};
    ghost use Rattle.ansi_items.specs.Plain.{plain};
    ghost use Rattle.ansi_clusters.specs.Views.{seen};

    ghost next_back_gives = { YieldsLast (λ s.
        seen s.view (chars (plain s.rest.now ++ s.run.now))) };

    fn next_back(&mut self) -> Option<char> {
        let (last, rest, run) = split_last_seen(self.rest, self.run, self.view)?;
        self.rest = rest;
        self.run = run;
        Some(last)
    }
}

/// The first character that is seen of the plain text of `text` and of the run `end` after it, and
/// the remainder of both.
fn split_first_seen<'t>(text: &'t str, end: &'t str, view: View) -> Option<(char, &'t str, &'t str)>
    ensures shorter { IfSome result (λ (first, rest, run).
        length rest.now + length run.now < length text.entry.now + length end.entry.now) }
{
    let mut rest = text;
    let mut run = end;
    'left_out: while let Some((first, after, left)) = split_first_char(rest, run) {
        rest = after;
        run = left;
        if let Some(seen) = view.see(first) {
            return Some((seen, rest, run));
        }
    }
    None
}

/// The last character that is seen of the plain text of `text` and of the run `end` after it, and
/// the remainder of both.
fn split_last_seen<'t>(text: &'t str, end: &'t str, view: View) -> Option<(char, &'t str, &'t str)>
    ensures chars { MatchOption result
        (seen view (chars (plain text.entry.now ++ end.entry.now)) ≡ [])
        (λ (last, rest, run). seen view (chars (plain text.entry.now ++ end.entry.now))
        ≡ seen view (chars (plain rest.now ++ run.now)) ++ last ∷ []) }
    ensures shorter { IfSome result (λ (last, rest, run).
        length rest.now + length run.now < length text.entry.now + length end.entry.now) }
{
    let mut rest = text;
    let mut run = end;
    'left_out: while let Some((last, before, front)) = split_last_char(rest, run) {
        rest = before;
        run = front;
        if let Some(seen) = view.see(last) {
            return Some((seen, rest, run));
        }
    }
    None
}

/// The first character of the plain text of `text` and of the run `end` after it, and the remainder
/// of both.
fn split_first_char<'t>(text: &'t str, end: &'t str) -> Option<(char, &'t str, &'t str)>
    ensures { IfSome result (λ (first, rest, run).
        length rest.now + length run.now < length text.entry.now + length end.entry.now) }
{
    let (start, run_end) = first_run(text);
    if let Some(first) = text[start..run_end].chars().next() {
        return Some((first, &text[start + first.len_utf8()..], end));
    }
    let mut chars = end.chars();
    let first = chars.next()?;
    Some((first, "", chars.as_str()))
}

/// The last plain character of a text and the run after it, and the remainder of both.
fn split_last_char<'t>(text: &'t str, end: &'t str) -> Option<(char, &'t str, &'t str)>
    ensures chars { MatchOption result (chars (plain text.entry.now ++ end.entry.now) ≡ [])
        (λ (last, rest, run). chars (plain text.entry.now ++ end.entry.now)
        ≡ chars (plain rest.now ++ run.now) ++ last ∷ []) }
    ensures shorter { IfSome result (λ (last, rest, run).
        length rest.now + length run.now < length text.entry.now + length end.entry.now) }
{
    let mut rest = text;
    let mut run = end;
    'runs: while run.is_empty() && !rest.is_empty() {
        (rest, run) = split_last_run(rest);
    }
    let mut chars = run.chars();
    let last = chars.next_back()?;
    Some((last, rest, chars.as_str()))
}

/// The text before the last mark, which is a sequence or a lone escape, and the run after that
/// mark.
fn split_last_run(text: &str) -> (&str, &str)
    ensures plain { plain text.now ≡ plain result.0.now ++ result.1.now }
    ensures shorter { 0 < length text.now → length result.0.now < length text.now }
    ensures within { length result.0.now + length result.1.now ≤ length text.now }
    ensures front_utf8 { IsUtf8 result.0.now }
    ensures run_utf8 { IsUtf8 result.1.now }
{
    match last_mark(text) {
        Some((start, end)) => (&text[..start], &text[end..]),
        None => ("", text),
    }
}

/// The start and the end of the last mark of a text.
///
/// An ESC inside a sequence terminates a control string. The sequence then begins at the ESC before
/// it.
fn last_mark(text: &str) -> Option<(usize, usize)>
    ensures { MatchOption result (plain text.now ≡ text.now) (λ (start, end).
        IsLastMark text.now start end) }
{
    let bytes = text.as_bytes();
    let last = memrchr(ESC, bytes)?;
    let start = match memrchr(ESC, &bytes[..last]) {
        Some(opening) if last < opening + first_len(&text[opening..]) => opening,
        _ => last,
    };
    Some((start, start + first_len(&text[start..])))
}

/// The length of the first item of a text.
fn first_len(text: &str) -> usize
    requires { 0 < length text.now }
    ensures first { (p : Piece) × (ps : List Piece) × (pieces_of text.now ≡ p ∷ ps)
        × (result ≡ length (spelling p)) }
    ensures some { 0 < result }
    ensures boundary { IsCharBoundary text.now result }
{
    match Scanner::new(text).next() {
        Some(item) => item.end,
        None => 0,
    }
}
