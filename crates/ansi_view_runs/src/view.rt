//! What a line becomes.
ghost use Rattle.std.specs.Prelude.{◌≡◌, ◌==◌, ◌++◌, [], IfOk, IfSome, IsTrue, OnOk, length, string_bytes};
ghost use Rattle.std.specs.Prelude.{◌&&◌, true, if◌then◌else◌};
ghost use Rattle.std.specs.Cow.{cow_str_bytes};
ghost use Rattle.std.specs.Str.{IsUtf8};
ghost use Rattle.std.specs.Str.Lossy.{utf8_lossy};
ghost use Rattle.ansi_items.specs.Plain.{plain};
ghost use Rattle.ansi_style.specs.States.{rendition_of};
ghost use Rattle.ansi_style.specs.Written.{start};
ghost use Rattle.ansi_safe.specs.Links.{ending};
ghost use Rattle.ansi_safe.specs.Safe.{is_safe};
ghost use Rattle.ansi_view_runs.specs.SafeJobs.{work_of};
ghost use Rattle.ansi_view_runs.specs.LineViews.{line_of};
ghost use Rattle.ansi_view_runs.specs.Views.{decoded, opening_of, opening_after, viewed};
ghost use Rattle.ansi_view_runs.specs.Views.{shown};
ghost use Rattle.ansi_safe.specs.Sanitized.{cleaned, sanitized};

use crate::edits::{LineEdit, Stage};
use crate::ended::edit_line;
use crate::lines::Line;
use ansi_columns::ColumnEdit;
use ansi_safe::links::{LONGEST_ENDING, Pen, pen_after};
use ansi_safe::policy::{Links, Policy};
use ansi_safe::safe::{ending_if_safe, pen_if_safe, push_cleaned};
use ansi_safe::utf8::Utf8Error;
use ansi_slice::slice::strip_in;
use ansi_style::styles;
use std::alloc::{AllocError, Allocator};
use std::borrow::CowStr;
use std::str;

/// How a run makes its input safe.
#[derive(Clone, Copy, Debug, PartialEq, Eq)]
pub struct View {
    /// What is made of what isn't allowed in a safe text, and of links.
    pub policy: Policy,
    /// Whether each line's sequences are stripped first.
    pub plain: bool,
}

/// What a run makes of its input, line by line.
#[derive(Drop)]
pub struct Job<'w, A: Allocator> {
    /// How each line is made safe.
    pub view: View,
    /// What is made of it then. The tails are borrowed from the words.
    pub edits: Vec<LineEdit<'w>, A>,
}

/// A job with safe tails, whose edits by columns are in lists between its wraps.
#[derive(Drop)]
pub struct SafeJob<'t, A: Allocator> {
    /// How each line is made safe.
    pub view: View,
    /// What is made of it then, up to each wrap.
    pub stages: Vec<Stage<'t, A>, A>,
    /// What is made of each text after the last wrap.
    pub last: Vec<ColumnEdit<'t>, A>,
}

/// The bytes that a line becomes, with its end. A line may become several. `text` is what its text
/// is decoded to.
///
/// `opening` is what is open before the line, and then what is open after it. `Err` means out of
/// memory; `opening` may then be anything.
pub(crate) fn view_decoded<A: Allocator + Copy>(
    alloc: A,
    job: &SafeJob<'_, A>,
    opening: &mut String<A>,
    line: &Line<'_>,
    text: &str,
) -> Result<String<A>, AllocError>
    requires { text.now ≡ decoded job.now.view line.now.text.now }
    ensures bytes { IfOk result (λ s.
        string_bytes s ≡ viewed (work_of job.now) (string_bytes opening.old) (line_of line.now)) }
    ensures opening { OnOk result (string_bytes opening.new
        ≡ opening_after job.now.view (string_bytes opening.old) (line_of line.now)) }
{
    let mut text = show_line(alloc, job.view, opening, line, text)?;
    if edits_nothing(job) {
        text.push_str(line.end)?;
        return Ok(text);
    }
    edit_line(alloc, job, CowStr::Owned(text), line.end)
}

// The text of a line whose bytes are decoded, made safe. `opening` is as for `view_decoded`.
fn show_line<A: Allocator + Copy>(
    alloc: A,
    view: View,
    opening: &mut String<A>,
    line: &Line<'_>,
    text: &str,
) -> Result<String<A>, AllocError>
    requires { text.now ≡ decoded view line.now.text.now }
    ensures bytes { IfOk result (λ s.
        string_bytes s ≡ shown view (string_bytes opening.old) (line_of line.now)) }
    ensures opening { OnOk result (string_bytes opening.new
        ≡ opening_after view (string_bytes opening.old) (line_of line.now)) }
{
    if line.text.is_empty() {
        return Ok(String::new(alloc));
    }
    make_safe(alloc, view.policy, opening, text)
}

/// Whether the text of a line whose bytes are decoded is shown as it is, and leaves open what is
/// open before it. `false` says nothing. Doesn't allocate.
pub(crate) fn stays(view: View, opening: &str, line: &Line<'_>, text: &str) -> bool
    requires { text.now ≡ decoded view line.now.text.now }
    ensures bytes { result ≡ true → shown view opening.now (line_of line.now) ≡ text.now }
    ensures opening { result ≡ true →
        opening_after view opening.now (line_of line.now) ≡ opening.now }
{
    line.text.is_empty() || (opening.is_empty() && is_safe_and_closed(text, view.policy.links))
}

/// Whether a job has no edits.
pub(crate) fn edits_nothing<A: Allocator>(job: &SafeJob<'_, A>) -> bool
    ensures { result ≡ true → (work_of job.now).changes ≡ [] }
{
    job.stages.is_empty() && job.last.is_empty()
}

// Whether a text is safe and leaves nothing open.
fn is_safe_and_closed(text: &str, links: Links) -> bool
    ensures { result ≡ (is_safe links text.now && length (ending text.now) == 0) }
{
    match ending_if_safe(text, links) {
        Some(ending) => ending.is_empty(),
        None => false,
    }
}

// What a text becomes: a safe text that ends what it leaves open. If something is open before it, what
// opens that and the text are joined. If that is safe, the result is that with what ends it.
fn make_safe<A: Allocator + Copy>(
    alloc: A,
    policy: Policy,
    opening: &mut String<A>,
    text: &str,
) -> Result<String<A>, AllocError>
    ensures bytes { IfOk result (λ s.
        string_bytes s ≡ sanitized policy (string_bytes opening.old ++ text.now)) }
    ensures opening { OnOk result (string_bytes opening.new
        ≡ opening_of (cleaned policy (string_bytes opening.old ++ text.now))) }
{
    if opening.is_empty() {
        return end_clean(alloc, policy, opening, text);
    }
    let mut body = join(alloc, opening.as_str(), text)?;
    match pen_if_safe(body.as_str(), policy.links) {
        Some(left_open) => {
            *opening = opening_of(alloc, &left_open)?;
            let ending = left_open.ending();
            ending.push_to(&mut body)?;
            Ok(body)
        }
        None => end_clean(alloc, policy, opening, body.as_str()),
    }
}

// What opens what is open before a text, and the text, with room for what ends it.
fn join<A: Allocator>(alloc: A, opening: &str, text: &str) -> Result<String<A>, AllocError>
    ensures { IfOk result (λ s. string_bytes s ≡ opening.now ++ text.now) }
{
    let room = (opening.len() + text.len()).saturating_add(LONGEST_ENDING);
    let mut body = String::with_capacity(alloc, room)?;
    body.push_str(opening)?;
    body.push_str(text)?;
    Ok(body)
}

// A text made safe, with what ends it. `opening` becomes what it leaves open.
fn end_clean<A: Allocator + Copy>(
    alloc: A,
    policy: Policy,
    opening: &mut String<A>,
    text: &str,
) -> Result<String<A>, AllocError>
    ensures bytes { IfOk result (λ s. string_bytes s ≡ sanitized policy text.now) }
    ensures opening { OnOk result (string_bytes opening.new
        ≡ opening_of (cleaned policy text.now)) }
{
    let mut made = clean(alloc, policy, text)?;
    let pen = pen_after(made.as_str());
    *opening = opening_of(alloc, &pen)?;
    let ending = pen.ending();
    ending.push_to(&mut made)?;
    Ok(made)
}

// A text made safe. What is open at the end isn't ended.
fn clean<A: Allocator>(alloc: A, policy: Policy, text: &str) -> Result<String<A>, AllocError>
    ensures { IfOk result (λ s. string_bytes s ≡ cleaned policy text.now) }
{
    let mut made = String::with_capacity(alloc, text.len() + LONGEST_ENDING)?;
    push_cleaned(&mut made, text, policy)?;
    Ok(made)
}

/// The text of bytes that `from_utf8` has tested, with what it returned, if decoding leaves these
/// bytes: they are UTF-8, and the view isn't plain. `None` says nothing. `write_line` calls it before
/// `decode_tested`, which returns a `CowStr`, since most lines can be borrowed.
pub(crate) fn as_decoded<'t>(
    view: View,
    bytes: &[u8],
    tested: Result<&'t str, Utf8Error>,
) -> Option<&'t str>
    requires { IfOk tested (λ text. (text.now ≡ bytes.now) × IsUtf8 bytes.now) }
    ensures { IfSome result (λ text. text.now ≡ decoded view bytes.now) }
{
    if view.plain {
        return None;
    }
    match tested {
        Ok(text) => Some(text),
        Err(_) => None,
    }
}

/// The text of bytes that `from_utf8` has tested, with what it returned. Bytes that aren't UTF-8
/// become U+FFFD, and a plain view strips the sequences. It borrows from bytes that are UTF-8 if
/// nothing is stripped. `Err` means out of memory.
pub(crate) fn decode_tested<'t, A: Allocator + Copy>(
    alloc: A,
    view: View,
    bytes: &'t [u8],
    tested: Result<&'t str, Utf8Error>,
) -> Result<CowStr<'t, A>, AllocError>
    requires { IfOk tested (λ text. (text.now ≡ bytes.now) × IsUtf8 bytes.now) }
    ensures { IfOk result (λ c. cow_str_bytes c ≡ decoded view bytes.now) }
{
    match tested {
        Ok(text) => strip_if_plain(alloc, view, CowStr::Borrowed(text)),
        Err(_) => {
            let text = replace_invalid(alloc, bytes)?;
            strip_if_plain(alloc, view, CowStr::Owned(text))
        }
    }
}

// The text of bytes, with U+FFFD for each invalid sequence. std's `from_utf8_lossy` tests first
// whether the bytes are UTF-8.
fn replace_invalid<A: Allocator>(alloc: A, bytes: &[u8]) -> Result<String<A>, AllocError>
    ensures { IfOk result (λ s. string_bytes s ≡ utf8_lossy bytes.now) }
{
    let mut text = String::new(alloc);
    let mut rest = bytes;
    'pieces: loop {
        let error = match str::from_utf8(rest) {
            Ok(valid) => {
                text.push_str(valid)?;
                return Ok(text);
            }
            Err(error) => error,
        };
        let valid = error.valid_up_to();
        let invalid = error.error_len().unwrap_or(rest.len() - valid);
        text.push_str(unsafe { str::from_utf8_unchecked(&rest[..valid]) })?;
        text.push_str("\u{FFFD}")?;
        rest = &rest[valid + invalid..];
    }
}

// A text, without its sequences if the view is plain.
fn strip_if_plain<'t, A: Allocator + Copy>(
    alloc: A,
    view: View,
    text: CowStr<'t, A>,
) -> Result<CowStr<'t, A>, AllocError>
    ensures { IfOk result (λ c. cow_str_bytes c
        ≡ (if view.plain then plain (cow_str_bytes text.entry) else cow_str_bytes text.entry)) }
{
    if !view.plain {
        return Ok(text);
    }
    match text {
        CowStr::Borrowed(text) => strip_in(alloc, text),
        CowStr::Owned(text) => Ok(CowStr::Owned(strip_owned(alloc, text)?)),
    }
}

// A text without its sequences. A text without any is passed on.
fn strip_owned<A: Allocator + Copy>(alloc: A, text: String<A>) -> Result<String<A>, AllocError>
    ensures { IfOk result (λ s. string_bytes s ≡ plain (string_bytes text)) }
{
    let stripped = match strip_in(alloc, text.as_str())? {
        CowStr::Borrowed(bare) if bare == text.as_str() => None,
        stripped => Some(stripped.into_owned(alloc)?),
    };
    Ok(stripped.unwrap_or(text))
}

// What opens the style and the link of a pen.
fn opening_of<A: Allocator>(alloc: A, pen: &Pen<'_>) -> Result<String<A>, AllocError>
    ensures { IfOk result (λ s. string_bytes s
        ≡ start (rendition_of pen.now.style) ++ pen.now.link.now) }
{
    let mut opening = String::new(alloc);
    styles::write_start(&pen.style, &mut opening)?;
    opening.push_str(pen.link)?;
    Ok(opening)
}
