//! What an ESC begins, by ECMA-48 and ECMA-35 in this profile, and how many looks at the bytes of a
//! text that takes.
//!
//! `memchr` finds the next ESC after each mark, and an attempt at a sequence never passes it. So a
//! scan takes at most three looks for each byte.
ghost use Rattle.std.specs.Prelude.{◌≡◌, ◌≢◌, ◌+◌, ◌≤◌, ◌<◌, length, take, drop, slice_index};
ghost use Rattle.std.specs.List.{prefix_len};
ghost use Rattle.ansi_items.specs.Bytes.{escape, is_parameter_byte};
ghost use Rattle.ansi_items.specs.Fronts.{front_at};
ghost use Rattle.ansi_items.specs.Scans.{GivesItem};

use crate::ansitok::{Item, Kind};
use memchr::memchr;
use std::simd::prelude::*;

/// The byte that begins every sequence.
pub const ESC: u8 = 0x1B;

/// The byte that may end an operating system command.
const BEL: u8 = 0x07;

/// The item at the front of some bytes: its kind, and how many bytes it has.
#[derive(Clone, Copy)]
pub(crate) struct Front {
    pub(crate) kind: Kind,
    pub(crate) len: usize,
}

/// An ESC that begins no whole sequence.
const LONE: Front = Front {
    kind: Kind::Lone,
    len: 1,
};

/// Returns the item that the ESC at an offset of a text begins: a whole sequence, or a lone escape.
///
/// It is the one that a scanner returns there. The next ESC isn't looked for unless it may end that
/// item. It doesn't allocate. (Own.)
#[inline(always)]
pub fn mark_at(text: &str, start: usize) -> Item
    requires inside { start < length text.now }
    requires escape { slice_index text.now start ≡ escape }
    ensures { GivesItem (record { text = text.now; offset = start }) result
        (record { text = text.now; offset = result.end }) }
{
    let front = front_of_mark(text.as_bytes(), start);
    Item {
        kind: front.kind,
        start,
        end: start + front.len,
    }
}

/// The mark that the ESC at `start` begins.
#[inline(always)]
fn front_of_mark(text: &[u8], start: usize) -> Front
    requires inside { start < length text.now }
    requires escape { slice_index text.now start ≡ escape }
    ensures { result ≡ front_at (drop start text.now) }
{
    let mut looks = Looks { count: 0 };
    match looks.byte(text, start + 1) {
        Some(b'[') => looks.control_sequence(&text[start + 2..]).unwrap_or(LONE),
        _ => front_of_other(text, start),
    }
}

/// The same, if the ESC begins no control sequence.
#[inline(never)]
fn front_of_other(text: &[u8], start: usize) -> Front
    requires inside { start < length text.now }
    requires escape { slice_index text.now start ≡ escape }
    requires other { slice_index text.now (start + 1) ≢ 0x5B }
    ensures { result ≡ front_at (drop start text.now) }
{
    let mut looks = Looks { count: 0 };
    match looks.byte(text, start + 1) {
        Some(opener @ (b']' | b'P' | b'X' | b'^' | b'_')) => {
            looks.string_front(text, start, opener).0.unwrap_or(LONE)
        }
        Some(0x20..=0x7E) => looks.escape_sequence(&text[start + 1..]).unwrap_or(LONE),
        Some(_) | None => LONE,
    }
}

/// A count of looks at the bytes of a text, each byte as often as it is looked at.
#[derive(Drop)]
pub(crate) struct Looks {
    pub(crate) count: u128,
}

impl Looks {
    ghost use Rattle.std.specs.Prelude.{◌≡◌, ◌+◌, ◌*◌, ◌^◌, ◌<◌, ◌≤◌, ◌∷◌, ◌++◌, length, take};
    ghost use Rattle.std.specs.Prelude.{drop, slice_index, min, IfSome, IfNone, unwrap_or};
    ghost use Rattle.std.specs.Prelude.{if◌then◌else◌};
    ghost use Rattle.std.specs.Prelude.{IsTrue};
    ghost use Rattle.std.specs.List.{prefix_len};
    ghost use Rattle.ansi_items.specs.Bytes.{escape, bell, is_parameter_byte, is_intermediate_byte};
    ghost use Rattle.ansi_items.specs.Bytes.{opens_control_string, is_body_byte};
    ghost use Rattle.ansi_items.specs.Sequences.{are_private};
    ghost use Rattle.ansi_items.specs.declared.ansitok.Kind.TheVariants.{Sgr, Other, Lone};
    ghost use Rattle.ansi_items.specs.Fronts.{control_at, escape_at, string_at, sequence_at};
    ghost use Rattle.ansi_items.specs.Fronts.{front_at, front_of};
    ghost use Rattle.ansi_items.specs.Counts.{before_escape, before_bell};

    /// The mark that the ESC at `start` begins, a whole sequence or the lone escape, and the place
    /// of the next ESC after it, or the length of the text if there is none.
    #[inline(always)]
    pub(crate) fn mark(&mut self, text: &[u8], start: usize) -> (Front, usize)
        requires inside { start < length text.now }
        requires escape { slice_index text.now start ≡ escape }
        requires room { self.old.count + 4 * length text.now + 8 < 2 ^ 128 }
        ensures front { result.0 ≡ front_at (drop start text.now) }
        ensures next { result.1
            ≡ start + result.0.len + before_escape (drop (start + result.0.len) text.now) }
        ensures bound { result.1 ≤ length text.now }
        ensures each { self.old.count + min (result.1 + 1) (length text.now)
            ≤ self.new.count + start + 1 }
        ensures few { self.new.count + 3 * start + 1
            ≤ self.old.count + 2 * result.1 + min (result.1 + 1) (length text.now) }
    {
        match self.byte(text, start + 1) {
            Some(b'[') => {
                let sequence = self.control_sequence(&text[start + 2..]);
                self.ended(text, start, sequence)
            }
            Some(opener @ (b']' | b'P' | b'X' | b'^' | b'_')) => self.string(text, start, opener),
            Some(0x20..=0x7E) => {
                let sequence = self.escape_sequence(&text[start + 1..]);
                self.ended(text, start, sequence)
            }
            Some(_) | None => self.ended(text, start, None),
        }
    }

    /// The mark at `start`, if this is the sequence that the ESC there begins, and the place of the
    /// next ESC after it.
    #[inline(always)]
    fn ended(&mut self, text: &[u8], start: usize, sequence: Option<Front>) -> (Front, usize)
        requires inside { start < length text.now }
        requires sequence { IfSome sequence (λ f. start + f.len ≤ length text.now) }
        requires room { self.old.count + length text.now + 1 < 2 ^ 128 }
        ensures front { result.0 ≡ unwrap_or sequence (front_of Lone 1) }
        ensures next { result.1
            ≡ start + result.0.len + before_escape (drop (start + result.0.len) text.now) }
        ensures bound { result.1 ≤ length text.now }
        ensures looks { self.new.count + start + result.0.len
            ≡ self.old.count + min (result.1 + 1) (length text.now) }
    {
        let front = sequence.unwrap_or(LONE);
        (front, self.next_escape(text, start + front.len))
    }

    /// The mark at `start` and the place of the next ESC after it, if the ESC and this opener begin
    /// a control string, whole or not.
    #[inline(always)]
    fn string(&mut self, text: &[u8], start: usize, opener: u8) -> (Front, usize)
        requires inside { start + 1 < length text.now }
        requires escape { slice_index text.now start ≡ escape }
        requires opener { opener ≡ slice_index text.now (start + 1) }
        requires opens { IsTrue (opens_control_string opener) }
        requires room { self.old.count + 4 * length text.now + 4 < 2 ^ 128 }
        ensures front { result.0 ≡ front_at (drop start text.now) }
        ensures next { result.1
            ≡ start + result.0.len + before_escape (drop (start + result.0.len) text.now) }
        ensures bound { result.1 ≤ length text.now }
        ensures each { self.old.count + min (result.1 + 1) (length text.now)
            ≤ self.new.count + start + 2 }
        ensures few { self.new.count + 3 * start + 2
            ≤ self.old.count + 2 * result.1 + min (result.1 + 1) (length text.now) }
    {
        match self.string_front(text, start, opener) {
            (None, escape) => (LONE, escape),
            (Some(string), escape) => {
                let end = start + string.len;
                (string, self.escape_after(text, escape, end))
            }
        }
    }

    /// The control string that the ESC at `start` and this opener begin, if it is whole, and the
    /// place of the next ESC after the opener.
    #[inline(always)]
    fn string_front(&mut self, text: &[u8], start: usize, opener: u8) -> (Option<Front>, usize)
        requires inside { start + 1 < length text.now }
        requires escape { slice_index text.now start ≡ escape }
        requires opener { opener ≡ slice_index text.now (start + 1) }
        requires opens { IsTrue (opens_control_string opener) }
        requires room { self.old.count + 4 * length text.now + 4 < 2 ^ 128 }
        ensures front { unwrap_or result.0 (front_of Lone 1) ≡ front_at (drop start text.now) }
        ensures place { result.1 ≡ start + 2 + before_escape (drop (start + 2) text.now) }
        ensures bound { result.1 ≤ length text.now }
        ensures end { IfSome result.0 (λ f. (1 ≤ f.len) × (start + f.len ≤ result.1 + 2)
            × (start + f.len ≤ length text.now)) }
        ensures found { IfSome result.0 (λ _.
            self.old.count + min (result.1 + 1) (length text.now) + 1 ≤ self.new.count + start + 2) }
        ensures each { self.old.count + min (result.1 + 1) (length text.now)
            ≤ self.new.count + start + 2 }
        ensures few { self.new.count + 2 * start + 3
            ≤ self.old.count + result.1 + min (result.1 + 1) (length text.now) }
    {
        let escape = self.next_escape(text, start + 2);
        let body = &text[start + 2..escape];
        let after = &text[escape..];
        (self.whole_string(opener, body, after), escape)
    }

    /// The control string whose bytes up to the next ESC, after its opener, are `body`.
    #[inline(always)]
    fn whole_string(&mut self, opener: u8, body: &[u8], after: &[u8]) -> Option<Front>
        requires opens { IsTrue (opens_control_string opener) }
        requires between { before_escape body.now ≡ length body.now }
        requires after { before_escape after.now ≡ 0 }
        requires room { self.old.count + length body.now + 2 < 2 ^ 128 }
        ensures front { result ≡ string_at (body.now ++ after.now)
            (prefix_len (is_body_byte opener) (body.now ++ after.now)) }
        ensures end { IfSome result (λ f. (1 ≤ f.len) × (f.len ≤ length body.now + 4)
            × (f.len ≤ length body.now + 2 + length after.now)) }
        ensures found { IfSome result (λ _. self.old.count + 1 ≤ self.new.count) }
        ensures more { self.old.count ≤ self.new.count }
        ensures few { self.new.count ≤ self.old.count + length body.now + 1 }
    {
        match opener {
            b']' => self.command(body, after),
            _ => self.control_string(body, after),
        }
    }

    /// The control sequence of which the bytes follow ESC `[`.
    #[inline(always)]
    #[tactic(auto, using(crate::proofs::BetweenLemmas::parameters_within), unfolding(crate::specs::Fronts::control_at))]
    fn control_sequence(&mut self, bytes: &[u8]) -> Option<Front>
        requires room { self.old.count + 2 * length bytes.now + 3 < 2 ^ 128 }
        ensures front { result ≡ control_at bytes.now }
        ensures found { IfSome result (λ f. (f.len ≤ length bytes.now + 2) × (3 ≤ f.len)
            × (self.old.count + f.len ≤ self.new.count + 1)
            × (self.new.count ≤ self.old.count + f.len)) }
        ensures more { self.old.count ≤ self.new.count }
        ensures few { IfNone result (
            self.new.count ≤ self.old.count + before_escape bytes.now + 3) }
        ensures bound { self.new.count ≤ self.old.count + length bytes.now + 3 }
    {
        let parameters = self.parameters_len(bytes);
        match self.byte(bytes, parameters)? {
            b'm' => Some(Front {
                kind: self.kind_before_m(bytes),
                len: parameters + 3,
            }),
            0x40..=0x7E => Some(Front {
                kind: Kind::Other,
                len: parameters + 3,
            }),
            0x20..=0x2F => self.sequence_with_intermediates(bytes, parameters),
            _ => None,
        }
    }

    /// The control sequence of which the bytes follow ESC `[`, if it has this many parameter bytes
    /// and then an intermediate byte.
    #[inline(always)]
    #[tactic(auto, unfolding(crate::specs::Fronts::control_at))]
    fn sequence_with_intermediates(&mut self, bytes: &[u8], parameters: usize) -> Option<Front>
        requires parameters { parameters ≡ prefix_len is_parameter_byte bytes.now }
        requires inside { parameters < length bytes.now }
        requires intermediate { IsTrue (is_intermediate_byte (slice_index bytes.now parameters)) }
        requires room { self.old.count + length bytes.now + 1 < 2 ^ 128 }
        ensures front { result ≡ control_at bytes.now }
        ensures bound { IfSome result (λ f. f.len ≤ length bytes.now + 2) }
        ensures found { IfSome result (λ f.
            self.new.count + parameters + 2 ≡ self.old.count + f.len) }
        ensures more { self.old.count ≤ self.new.count }
        ensures few { IfNone result (
            self.new.count + parameters ≤ self.old.count + before_escape bytes.now + 1) }
        ensures looks { self.new.count + parameters ≤ self.old.count + length bytes.now + 1 }
    {
        let intermediates = 1 + self.intermediates_len(&bytes[parameters + 1..]);
        match self.byte(bytes, parameters + intermediates)? {
            0x40..=0x7E => Some(Front {
                kind: Kind::Other,
                len: parameters + intermediates + 3,
            }),
            _ => None,
        }
    }

    /// The operating system command of which the bytes follow ESC `]`, up to the next ESC.
    #[inline(always)]
    fn command(&mut self, bytes: &[u8], after: &[u8]) -> Option<Front>
        requires between { before_escape bytes.now ≡ length bytes.now }
        requires after { before_escape after.now ≡ 0 }
        requires room { self.old.count + length bytes.now + 2 < 2 ^ 128 }
        ensures front { result ≡ string_at (bytes.now ++ after.now) (before_bell bytes.now) }
        ensures end { IfSome result (λ f. (1 ≤ f.len) × (f.len ≤ length bytes.now + 4)
            × (f.len ≤ length bytes.now + 2 + length after.now)) }
        ensures more { self.old.count ≤ self.new.count }
        ensures found { IfSome result (λ _. self.old.count + 1 ≤ self.new.count) }
        ensures few { self.new.count ≤ self.old.count + length bytes.now + 1 }
    {
        let body = self.body_len(bytes);
        if body < bytes.len() {
            return Some(Front {
                kind: Kind::Other,
                len: body + 3,
            });
        }
        self.control_string(bytes, after)
    }

    /// The control string whose body these bytes are, if the next ESC ends it.
    #[inline(always)]
    fn control_string(&mut self, body: &[u8], after: &[u8]) -> Option<Front>
        requires after { before_escape after.now ≡ 0 }
        requires room { self.old.count + 1 < 2 ^ 128 }
        ensures front { result ≡ string_at (body.now ++ after.now) (length body.now) }
        ensures end { IfSome result (λ f. (1 ≤ f.len) × (f.len ≤ length body.now + 4)
            × (f.len ≤ length body.now + 2 + length after.now)) }
        ensures more { self.old.count ≤ self.new.count }
        ensures found { IfSome result (λ _. self.old.count + 1 ≤ self.new.count) }
        ensures few { self.new.count ≤ self.old.count + 1 }
    {
        match self.byte(after, 1)? {
            b'\\' => Some(Front {
                kind: Kind::Other,
                len: body.len() + 4,
            }),
            _ => None,
        }
    }

    /// The escape sequence of which the bytes follow ESC.
    #[inline(always)]
    #[tactic(auto, using(crate::proofs::BetweenLemmas::intermediates_within), unfolding(crate::specs::Fronts::escape_at))]
    fn escape_sequence(&mut self, bytes: &[u8]) -> Option<Front>
        requires room { self.old.count + length bytes.now + 3 < 2 ^ 128 }
        ensures front { result ≡ escape_at bytes.now }
        ensures found { IfSome result (λ f. (f.len ≤ length bytes.now + 1) × (2 ≤ f.len)
            × (self.new.count ≡ self.old.count + f.len)) }
        ensures more { self.old.count ≤ self.new.count }
        ensures few { IfNone result (
            self.new.count ≤ self.old.count + before_escape bytes.now + 2) }
        ensures bound { self.new.count ≤ self.old.count + length bytes.now + 2 }
    {
        let intermediates = self.intermediates_len(bytes);
        match self.byte(bytes, intermediates)? {
            0x30..=0x7E => Some(Front {
                kind: Kind::Other,
                len: intermediates + 2,
            }),
            _ => None,
        }
    }

    // All looks at the text are made below, and counted.

    /// The place of the next ESC, from `from` on, or the length of the text if there is none. A
    /// sequence often comes right after another, so the first byte is looked at by itself.
    #[inline(always)]
    pub(crate) fn next_escape(&mut self, text: &[u8], from: usize) -> usize
        requires inside { from ≤ length text.now }
        requires room { self.old.count + length text.now + 1 < 2 ^ 128 }
        ensures place { result ≡ from + before_escape (drop from text.now) }
        ensures bound { result ≤ length text.now }
        ensures looks { self.new.count + from
            ≡ self.old.count + min (result + 1) (length text.now) }
    {
        match self.byte(text, from) {
            None | Some(ESC) => from,
            Some(_) => self.escape_in_text(text, from + 1),
        }
    }

    /// The same, by a search.
    #[inline(always)]
    fn escape_in_text(&mut self, text: &[u8], from: usize) -> usize
        requires inside { from ≤ length text.now }
        requires room { self.old.count + length text.now < 2 ^ 128 }
        ensures place { result ≡ from + before_escape (drop from text.now) }
        ensures bound { result ≤ length text.now }
        ensures looks { self.new.count + from
            ≡ self.old.count + min (result + 1) (length text.now) }
    {
        let rest = &text[from..];
        let len = memchr(ESC, rest).unwrap_or(rest.len());
        self.passed(rest, len);
        from + len
    }

    /// The place of the next ESC after an item that ends at `end`, if it was at `escape` before:
    /// that place, or the one after it if the item includes that ESC.
    #[inline(always)]
    fn escape_after(&mut self, text: &[u8], escape: usize, end: usize) -> usize
        requires inside { (escape ≤ length text.now) × (end ≤ length text.now) }
        requires room { self.old.count + length text.now + 1 < 2 ^ 128 }
        ensures bound { result ≤ length text.now }
        ensures same { end ≤ escape → (result ≡ escape) × (self.new.count ≡ self.old.count) }
        ensures next { escape < end → (result ≡ end + before_escape (drop end text.now))
            × (self.new.count + end ≡ self.old.count + min (result + 1) (length text.now)) }
    {
        if end <= escape {
            return escape;
        }
        self.next_escape(text, end)
    }

    /// The byte at this place.
    #[inline(always)]
    fn byte(&mut self, bytes: &[u8], at: usize) -> Option<u8>
        requires { self.old.count + 1 < 2 ^ 128 }
        ensures some { IfSome result (λ b. (b ≡ slice_index bytes.now at) × (at < length bytes.now)
            × (self.new.count ≡ self.old.count + 1)) }
        ensures none { IfNone result ((slice_index bytes.now at ≡ 0) × (length bytes.now ≤ at)
            × (self.new.count ≡ self.old.count)) }
    {
        let byte = *bytes.get(at)?;
        self.count += 1;
        Some(byte)
    }

    /// The kind of a control sequence of which the bytes follow ESC `[`: parameter bytes and then
    /// `m`. It is an SGR if they aren't for private use, as the first of them tells.
    #[inline(always)]
    fn kind_before_m(&mut self, bytes: &[u8]) -> Kind
        requires { self.old.count + 1 < 2 ^ 128 }
        ensures kind { result ≡ (if are_private bytes.now then Other else Sgr) }
        ensures looks { self.new.count ≡ self.old.count + min 1 (length bytes.now) }
    {
        match self.byte(bytes, 0) {
            Some(0x3C..=0x3F) => Kind::Other,
            _ => Kind::Sgr,
        }
    }

    /// How many parameter bytes are at the front. The first 16 bytes are looked at together.
    #[inline(always)]
    fn parameters_len(&mut self, bytes: &[u8]) -> usize
        requires { self.old.count + length bytes.now < 2 ^ 128 }
        ensures len { result ≡ prefix_len is_parameter_byte bytes.now }
        ensures bound { result ≤ length bytes.now }
        ensures looks { self.new.count ≡ self.old.count + min (result + 1) (length bytes.now) }
    {
        if bytes.len() < 16 {
            return self.parameters_len_by_byte(bytes);
        }
        let first = self.parameters_len_of_16(bytes);
        if first < 16 {
            return first;
        }
        16 + self.parameters_len_by_byte(&bytes[16..])
    }

    /// How many parameter bytes the first 16 bytes begin with.
    #[inline(always)]
    fn parameters_len_of_16(&mut self, bytes: &[u8]) -> usize
        requires long { 16 ≤ length bytes.now }
        requires room { self.old.count + 16 < 2 ^ 128 }
        ensures len { result ≡ prefix_len is_parameter_byte (take 16 bytes.now) }
        ensures looks { self.new.count ≡ self.old.count + min (result + 1) 16 }
    {
        let others = (u8x16::from_slice(bytes) - u8x16::splat(0x30))
            .simd_ge(u8x16::splat(0x10))
            .to_bitmask();
        let len = if others == 0 {
            16
        } else {
            others.trailing_zeros() as usize
        };
        self.passed(&bytes[..16], len);
        len
    }

    /// How many parameter bytes are at the front, looked at one by one.
    #[inline(always)]
    fn parameters_len_by_byte(&mut self, bytes: &[u8]) -> usize
        requires { self.old.count + length bytes.now < 2 ^ 128 }
        ensures len { result ≡ prefix_len is_parameter_byte bytes.now }
        ensures bound { result ≤ length bytes.now }
        ensures looks { self.new.count ≡ self.old.count + min (result + 1) (length bytes.now) }
    {
        let len = bytes
            .iter()
            .take_while(|b| matches!(**b, 0x30..=0x3F))
            .count();
        self.passed(bytes, len);
        len
    }

    /// How many intermediate bytes are at the front.
    #[inline(always)]
    fn intermediates_len(&mut self, bytes: &[u8]) -> usize
        requires { self.old.count + length bytes.now < 2 ^ 128 }
        ensures len { result ≡ prefix_len is_intermediate_byte bytes.now }
        ensures bound { result ≤ length bytes.now }
        ensures looks { self.new.count ≡ self.old.count + min (result + 1) (length bytes.now) }
    {
        let len = bytes
            .iter()
            .take_while(|b| matches!(**b, 0x20..=0x2F))
            .count();
        self.passed(bytes, len);
        len
    }

    /// How many bytes are before the first BEL, if there is no ESC.
    #[inline(always)]
    fn body_len(&mut self, bytes: &[u8]) -> usize
        requires between { before_escape bytes.now ≡ length bytes.now }
        requires room { self.old.count + length bytes.now < 2 ^ 128 }
        ensures len { result ≡ before_bell bytes.now }
        ensures bound { result ≤ length bytes.now }
        ensures looks { self.new.count ≡ self.old.count + min (result + 1) (length bytes.now) }
    {
        let len = memchr(BEL, bytes).unwrap_or(bytes.len());
        self.passed(bytes, len);
        len
    }

    /// Counts a search that passed over the first `len` bytes: a look at each, and one at the byte
    /// that stopped it, if one did.
    #[inline(always)]
    fn passed(&mut self, bytes: &[u8], len: usize)
        requires inside { len ≤ length bytes.now }
        requires room { self.old.count + length bytes.now < 2 ^ 128 }
        ensures { self.new.count ≡ self.old.count + min (len + 1) (length bytes.now) }
    {
        self.count += len as u128;
        if len < bytes.len() {
            self.count += 1;
        }
    }
}
