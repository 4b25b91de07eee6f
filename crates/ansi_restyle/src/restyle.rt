//! Parts of a text in another style.
ghost use Rattle.std.specs.Prelude.{◌≡◌, ◌↔◌, ◌⊎◌, ◌++◌, ◌&&◌, ◌<◌, ◌≤◌, ◌+◌, ◌-◌, ◌*◌, ◌^◌, []};
ghost use Rattle.std.specs.Prelude.{List, ℕ, None, filter, length, take, IfOk, IfSome, IsFalse};
ghost use Rattle.std.specs.Prelude.{IsNone, IsOk, IsTrue, OnOk, string_bytes};
ghost use Rattle.std.specs.Option.{MatchOption};
ghost use Rattle.std.specs.Str.{IsUtf8};
ghost use Rattle.std.specs.Cow.{cow_str_bytes, IsBorrowedStr};
ghost use Rattle.ansi_items.specs.Pieces.{pieces_of};
ghost use Rattle.ansi_items.specs.Plain.{plain, is_text, is_whole};
ghost use Rattle.ansi_items.specs.Sequences.{is_sgr};
ghost use Rattle.ansi_search.specs.Matches.{first_match_from};
ghost use Rattle.ansi_search.specs.Positions.{no_character_goes_on};
ghost use Rattle.ansi_style.specs.Reading.{style_within};
ghost use Rattle.ansi_style.specs.States.{rendition_of};
ghost use Rattle.ansi_style.specs.Written.{written};
ghost use Rattle.ansi_restyle.specs.Matches.{matches};
ghost use Rattle.ansi_safe.specs.declared.policy.Links.{Links};
ghost use Rattle.ansi_safe.specs.Safe.{is_safe};
ghost use Rattle.ansi_restyle.specs.Ranges.{are_in_turn, are_empty, keep_line_ends};
ghost use Rattle.ansi_style.specs.Rendition.{plain_style};
ghost use Rattle.ansi_restyle.specs.Rests.{IsAtMatch};
ghost use Rattle.ansi_restyle.specs.Restyled.{is_change, changed_run, changed_pieces, front, rest, restyled, IsRestyled};

use crate::rest::Rest;
use crate::unmarked::{AtMatch, Unmarked};
use ansi_items::ansitok::{Kind, Scanner};
use ansi_search::search;
use ansi_style::state::Style;
use ansi_style::styles;
use memchr::memmem::Finder;
use std::alloc::{AllocError, Allocator};
use std::borrow::CowStr;
use std::mem;

/// Like `AnsiRestyle::ansi_restyle`, with a result that lives as long as the text, and with any
/// allocator.
///
/// ```
/// let marked = restyle_in(rt.alloc(), "a \x1b[31mred\x1b[39m b", &[(0, 3)], "7");
/// assert!(rt; matches!(&marked, Ok(Some(marked)) if marked.as_str() == "\x1b[7ma \x1b[27m\x1b[31m\x1b[7mr\x1b[27m\x1b[39m\x1b[31med\x1b[39m b"));
/// ```
pub fn restyle_in<'t, A: Allocator + Copy>(
    alloc: A,
    text: &'t str,
    ranges: &[(usize, usize)],
    codes: &str,
) -> Result<Option<CowStr<'t, A>>, AllocError>
    ensures headline { IsTrue (is_whole text.now) → IfOk result (λ o. IfSome o (λ c.
        IsRestyled text.now (written codes.now) ranges.now (cow_str_bytes c))) }
    ensures none { IfOk result (λ o. IsNone o
        ↔ IsFalse (is_change codes.now && are_in_turn (plain text.now) 0 ranges.now)) }
    ensures bytes { IfOk result (λ o. IfSome o (λ c.
        cow_str_bytes c ≡ restyled text.now (written codes.now) ranges.now)) }
    ensures safe { (links : Links) → IsTrue (is_safe links text.now) →
        IsTrue (keep_line_ends (plain text.now) ranges.now) → IfOk result (λ o.
        IfSome o (λ c. IsTrue (is_safe links (cow_str_bytes c)))) }
    ensures borrowed { IfOk result (λ o. IfSome o (λ c.
        IsBorrowedStr c ↔ IsTrue (are_empty ranges.now))) }
    ensures len { IfOk result (λ o. IfSome o (λ c. length (cow_str_bytes c) ≤ length text.now
        + (length codes.now + 254)
        * (length ranges.now + length (filter is_text (pieces_of text.now)) - 1))) }
    ensures takes_no_memory { IsTrue (are_empty ranges.now)
        ⊎ IsFalse (is_change codes.now && are_in_turn (plain text.now) 0 ranges.now) →
        IsOk result }
{
    if !is_change(codes) || !are_in_turn(text, ranges) {
        return Ok(None);
    }
    if are_empty(ranges) {
        return Ok(Some(CowStr::Borrowed(text)));
    }
    let change = sequence_of(alloc, codes)?;
    let mut restyled = String::with_capacity(alloc, text.len())?;
    push_restyled(&mut restyled, text, ranges, change.as_str())?;
    Ok(Some(CowStr::Owned(restyled)))
}

/// Like `AnsiRestyle::ansi_mark`, with a result that lives as long as the text, and with any
/// allocator.
///
/// ```
/// let marked = mark_in(rt.alloc(), "a \x1b[1mmat\x1b[0mch", "match", "7");
/// assert!(rt; matches!(&marked, Ok(Some(marked)) if marked.as_str() == "a \x1b[1m\x1b[7mmat\x1b[22m\x1b[27m\x1b[1m\x1b[0m\x1b[7mch\x1b[27m"));
/// ```
pub fn mark_in<'t, A: Allocator + Copy>(
    alloc: A,
    text: &'t str,
    pat: &str,
    codes: &str,
) -> Result<Option<CowStr<'t, A>>, AllocError>
    ensures headline { IsTrue (is_whole text.now) → IfOk result (λ o. IfSome o (λ c. IsRestyled
        text.now (written codes.now) (matches (plain text.now) pat.now) (cow_str_bytes c))) }
    ensures none { IfOk result (λ o. IsNone o ↔ IsFalse (is_change codes.now)) }
    ensures bytes { IfOk result (λ o. IfSome o (λ c. cow_str_bytes c
        ≡ restyled text.now (written codes.now) (matches (plain text.now) pat.now))) }
    ensures safe { (links : Links) → IsTrue (is_safe links text.now) →
        IsTrue (keep_line_ends (plain text.now) (matches (plain text.now) pat.now)) →
        IfOk result (λ o. IfSome o (λ c. IsTrue (is_safe links (cow_str_bytes c)))) }
    ensures borrowed { IfOk result (λ o. IfSome o (λ c.
        IsBorrowedStr c ↔ IsTrue (are_empty (matches (plain text.now) pat.now)))) }
    ensures len { IfOk result (λ o. IfSome o (λ c. length (cow_str_bytes c) ≤ length text.now
        + (length codes.now + 254) * (length (matches (plain text.now) pat.now)
        + length (filter is_text (pieces_of text.now)) - 1))) }
    ensures takes_no_memory { IsTrue (are_empty (matches (plain text.now) pat.now))
        ⊎ IsFalse (is_change codes.now) → IsOk result }
{
    if !is_change(codes) {
        return Ok(None);
    }
    if pat.is_empty() {
        return Ok(Some(CowStr::Borrowed(text)));
    }
    let mut style = styles::plain_style();
    let Some(first) = first_match(text, pat, &mut style) else {
        return Ok(Some(CowStr::Borrowed(text)));
    };
    let change = sequence_of(alloc, codes)?;
    let marked = marked_text(alloc, text, first, style, change.as_str())?;
    Ok(Some(CowStr::Owned(marked)))
}

/// Whether the text is a list of SGR codes.
pub(crate) fn is_change(codes: &str) -> bool
    ensures { result ≡ is_change codes.now }
{
    codes
        .as_bytes()
        .iter()
        .all(|byte| (0x30..=0x3B).contains(byte))
}

/// Whether each range is empty.
fn are_empty(ranges: &[(usize, usize)]) -> bool
    ensures { result ≡ are_empty ranges.now }
{
    ranges.iter().all(|range| range.0 == range.1)
}

/// Whether the ranges are in the plain text and follow one another, from a character to another.
pub(crate) fn are_in_turn(text: &str, ranges: &[(usize, usize)]) -> bool
    ensures { result ≡ are_in_turn (plain text.now) 0 ranges.now }
{
    let mut rest = Rest::new(text);
    let mut place = 0;
    for &range in ranges {
        let Some(after) = rest.after_range(place, range) else {
            return false;
        };
        rest = after;
        place = range.1;
    }
    search::is_char_boundary(text, place)
}

/// The index of the first range that `ansi_restyle` and `ansi_replace_each` refuse, or `None` if they
/// refuse none.
///
/// A range counts bytes of the plain text. It is refused if it begins or ends past the end or inside
/// a character, ends before it begins, or begins before the range before it ends. Takes time in
/// proportion to the text and the ranges. Doesn't allocate. (Own.)
///
/// ```
/// assert!(rt; refused_range("\x1b[31mred", &[(0, 1), (1, 3)]).is_none());
/// assert!(rt; refused_range("\x1b[31mred", &[(0, 2), (1, 3)]) == Some(1));
/// assert!(rt; refused_range("\x1b[31mred", &[(0, 4), (5, 6)]) == Some(0));
/// ```
pub fn refused_range(text: &str, ranges: &[(usize, usize)]) -> Option<usize>
    ensures none { IsNone result ↔ IsTrue (are_in_turn (plain text.now) 0 ranges.now) }
    ensures first { IfSome result (λ n. n < length ranges.now
        × (IsTrue (are_in_turn (plain text.now) 0 (take n ranges.now))
        × IsFalse (are_in_turn (plain text.now) 0 (take (n + 1) ranges.now)))) }
{
    let mut rest = Rest::new(text);
    let mut place = 0;
    for (index, &range) in ranges.iter().enumerate() {
        let Some(after) = rest.after_range(place, range) else {
            return Some(index);
        };
        if !search::is_char_boundary(rest.text, range.1 - place) {
            return Some(index);
        }
        rest = after;
        place = range.1;
    }
    None
}

/// The SGR with these codes.
pub(crate) fn sequence_of<A: Allocator>(alloc: A, codes: &str) -> Result<String<A>, AllocError>
    ensures { IfOk result (λ s. string_bytes s ≡ written codes.now) }
{
    let mut sequence = String::new(alloc);
    sequence.push_str("\x1b[")?;
    sequence.push_str(codes)?;
    sequence.push_str("m")?;
    Ok(sequence)
}

/// Appends a text with a change in ranges. `Err` means out of memory; what was appended before it
/// stays.
fn push_restyled<A: Allocator>(
    out: &mut String<A>,
    text: &str,
    ranges: &[(usize, usize)],
    change: &str,
) -> Result<(), AllocError>
    requires change { IsTrue (is_sgr change.now) }
    requires ranges { IsTrue (are_in_turn (plain text.now) 0 ranges.now) }
    ensures { OnOk result (string_bytes out.new
        ≡ string_bytes out.old ++ restyled text.now change.now ranges.now) }
{
    let mut style = styles::plain_style();
    let mut rest = Rest::new(text);
    let mut place = 0;
    for &(start, end) in ranges {
        rest = push_range(out, &rest, &mut style, start - place, end - start, change)?;
        place = end;
    }
    out.push_str(rest.text)?;
    Ok(())
}

/// The text in two at the first match of a pattern that isn't empty, or `None` if there is none.
/// Every SGR up to the match changes the style.
fn first_match<'t, 'p>(text: &'t str, pat: &'p str, style: &mut Style) -> Option<AtMatch<'t, 'p>>
    requires { 0 < length pat.now }
    ensures { MatchOption result (first_match_from (plain text.now) pat.now 0 ≡ None) (λ at.
        (at.rest.pat.now ≡ pat.now) × IsAtMatch text.now pat.now at.front.now
        at.rest.rest.text.now (rendition_of style.old) (rendition_of style.new)) }
{
    // most texts that are searched have no match, and a finder is dear for a short one
    let place = search::find_from(text, pat, 0)?;
    let at = Rest::new(text).split_at(style, place).unwrap();
    let rest = Unmarked::new(at.rest, pat);
    let front = at.front;
    Some(AtMatch { front, rest })
}

/// A text with a change in each match of a pattern that isn't empty. `first` is the text in two at
/// the first match, and `style` the style there.
fn marked_text<A: Allocator>(
    alloc: A,
    text: &str,
    first: AtMatch<'_, '_>,
    style: Style,
    change: &str,
) -> Result<String<A>, AllocError>
    requires change { IsTrue (is_sgr change.now) }
    requires pat { 0 < length first.rest.pat.now }
    requires first { IsAtMatch text.now first.rest.pat.now first.front.now first.rest.rest.text.now
        plain_style (rendition_of style) }
    ensures { IfOk result (λ s. string_bytes s
        ≡ restyled text.now change.now (matches (plain text.now) first.entry.rest.pat.now)) }
{
    let mut out = String::with_capacity(alloc, text.len())?;
    let finder = Finder::new(first.rest.pat.as_bytes());
    let pushed = push_marked(&mut out, text, first, &finder, style, change);
    // (it owns nothing; a drop would need `Global`, which a module of WebAssembly lacks)
    mem::forget(finder);
    pushed?;
    Ok(out)
}

/// Appends a text with a change in each match of the finder's pattern. `Err` means out of memory;
/// what was appended before it stays.
fn push_marked<A: Allocator>(
    out: &mut String<A>,
    text: &str,
    first: AtMatch<'_, '_>,
    finder: &Finder<'_>,
    style: Style,
    change: &str,
) -> Result<(), AllocError>
    requires change { IsTrue (is_sgr change.now) }
    requires pat { 0 < length first.rest.pat.now }
    requires finder { finder.now ≡ first.rest.pat.now }
    requires utf8 { IsUtf8 first.rest.pat.now }
    requires first { IsAtMatch text.now first.rest.pat.now first.front.now first.rest.rest.text.now
        plain_style (rendition_of style) }
    ensures { OnOk result (string_bytes out.new ≡ string_bytes out.old
        ++ restyled text.now change.now (matches (plain text.now) first.entry.rest.pat.now)) }
{
    let mut style = style;
    out.push_str(first.front)?;
    let mut left = push_match(out, first.rest, &mut style, change)?;
    'matches: while let Some(at) = left.cut(finder, &mut style) {
        out.push_str(at.front)?;
        left = push_match(out, at.rest, &mut style, change)?;
    }
    out.push_str(left.rest.text)?;
    Ok(())
}

/// Appends the match at which a text begins with a change in it, and returns what follows it.
/// `style` is the style before the match, and then that at its end. `Err` means out of memory; what
/// was appended before it stays.
fn push_match<'t, 'p, A: Allocator>(
    out: &mut String<A>,
    at: Unmarked<'t, 'p>,
    style: &mut Style,
    change: &str,
) -> Result<Unmarked<'t, 'p>, AllocError>
    requires change { IsTrue (is_sgr change.now) }
    requires end { IsTrue (no_character_goes_on (plain at.rest.text.now) (length at.pat.now)) }
    ensures bytes { OnOk result (string_bytes out.new ≡ string_bytes out.old
        ++ changed_pieces change.now (rendition_of style.old)
        (pieces_of (front (length at.entry.pat.now) at.entry.rest.text.now))) }
    ensures left { IfOk result (λ left. (left.pat.now ≡ at.entry.pat.now)
        × (left.rest.text.now ≡ rest (length at.entry.pat.now) at.entry.rest.text.now)) }
    ensures style { OnOk result (rendition_of style.new ≡ style_within (rendition_of style.old)
        at.entry.rest.text.now (length at.entry.pat.now)) }
{
    let style_before = *style;
    let ended = at.rest.split_at(style, at.pat.len()).unwrap();
    push_changed(out, ended.front, style_before, change)?;
    Ok(at.after(ended.front.len(), ended.rest))
}

/// Appends what is left of a text up to the end of a range, with a change in the range, and returns
/// what follows it. The range begins at the position `start` and is `len` bytes long. `style` is the
/// style before the text, and then that at the end of the range. `Err` means out of memory; what was
/// appended before it stays.
#[inline(always)]
fn push_range<'t, A: Allocator>(
    out: &mut String<A>,
    left: &Rest<'t>,
    style: &mut Style,
    start: usize,
    len: usize,
    change: &str,
) -> Result<Rest<'t>, AllocError>
    requires change { IsTrue (is_sgr change.now) }
    requires start { IsTrue (no_character_goes_on (plain left.now.text.now) start) }
    requires end { IsTrue (no_character_goes_on (plain (rest start left.now.text.now)) len) }
    ensures bytes { OnOk result (string_bytes out.new ≡ string_bytes out.old
        ++ (front start left.now.text.now
        ++ changed_pieces change.now (style_within (rendition_of style.old) left.now.text.now start)
        (pieces_of (front len (rest start left.now.text.now))))) }
    ensures left { IfOk result (λ r. r.text.now ≡ rest len (rest start left.now.text.now)) }
    ensures style { OnOk result (rendition_of style.new
        ≡ style_within (style_within (rendition_of style.old) left.now.text.now start)
        (rest start left.now.text.now) len) }
{
    let at_start = left.split_at(style, start).unwrap();
    out.push_str(at_start.front)?;
    let style_at_start = *style;
    let at_end = at_start.rest.split_at(style, len).unwrap();
    push_changed(out, at_end.front, style_at_start, change)?;
    Ok(at_end.rest)
}

/// Appends a text with a change in each of its runs. `style` is the style before it. `Err` means out
/// of memory; what was appended before it stays.
fn push_changed<A: Allocator>(
    out: &mut String<A>,
    text: &str,
    style: Style,
    change: &str,
) -> Result<(), AllocError>
    requires { IsTrue (is_sgr change.now) }
    ensures { OnOk result (string_bytes out.new ≡ string_bytes out.old
        ++ changed_pieces change.now (rendition_of style) (pieces_of text.now)) }
{
    let mut style = style;
    for item in Scanner::new(text) {
        let piece = &text[item.start..item.end];
        if item.kind == Kind::Text {
            push_changed_run(out, piece, &style, change)?;
        } else if item.kind == Kind::Sgr {
            styles::apply(&mut style, piece);
            out.push_str(piece)?;
        } else {
            out.push_str(piece)?;
        }
    }
    Ok(())
}

/// Appends a run with a change: the change, the run, the close of the style then, and the start of
/// the style before. `Err` means out of memory; what was appended before it stays.
fn push_changed_run<A: Allocator>(
    out: &mut String<A>,
    run: &str,
    style: &Style,
    change: &str,
) -> Result<(), AllocError>
    requires { IsTrue (is_sgr change.now) }
    ensures { OnOk result (string_bytes out.new
        ≡ string_bytes out.old ++ changed_run change.now (rendition_of style.now) run.now) }
{
    let mut changed = *style;
    styles::apply(&mut changed, change);
    out.push_str(change)?;
    out.push_str(run)?;
    styles::write_close(&changed, out)?;
    styles::write_start(style, out)?;
    Ok(())
}
