//! The fields of an SGR's parameter bytes, and their numbers.
ghost use Rattle.std.specs.Prelude.{◌≡◌, [], ◌∷◌, Some, None, IsTrue, IfSome, option_map, nat_le};
ghost use Rattle.std.specs.Prelude.{if◌then◌else◌, List, ℕ};
ghost use Rattle.std.specs.Option.{option_map_or};
ghost use Rattle.std.specs.Str.{byte};
ghost use Rattle.ansi_items.specs.Sequences.{is_sgr, sgr_parameters};
ghost use Rattle.ansi_style.specs.Sgr.{fields_of, code_of, color_number};
ghost use Rattle.ansi_style.specs.Fields.{first_field, with_digit};

use std::marker::Model;

/// One field of the parameter bytes.
#[derive(Clone, Copy)]
pub(crate) struct Field {
    /// The field as a code, or `None` if it isn't a number of at most 255. An empty field is 0, and
    /// leading zeros don't count.
    pub(crate) code: Option<u8>,
}

/// The remaining fields of the parameter bytes.
#[derive(Drop)]
pub(crate) struct Fields<'a> {
    /// The parameter bytes from the next field on. `None` after the last field.
    rest: Option<&'a [u8]>,
}

impl<'a> Model for Fields<'a> {
    ghost use Rattle.std.specs.Prelude.{ℕ, List, []};
    ghost use Rattle.std.specs.Option.{option_map_or};
    ghost use Rattle.ansi_style.specs.Sgr.{fields_of};

    ghost Value = { List (List ℕ) };

    ghost view = { λ f. option_map_or (λ rest. fields_of rest.now) f.rest [] };
}

impl<'a> Fields<'a> {
    /// All fields of the parameter bytes.
    pub(crate) fn new(parameters: &'a [u8]) -> Self
        ensures { result ≡ fields_of parameters.now }
    {
        Fields {
            rest: Some(parameters),
        }
    }

    /// The next field, or `None` after the last one.
    #[inline(always)]
    pub(crate) fn next_field(&mut self) -> Option<Field>
        ensures { (option_map (λ field. field.code) result, self.new)
            ≡ first_field code_of self.old }
    {
        let bytes = self.rest?;
        if let Some((code, rest)) = short_field(bytes) {
            self.rest = Some(rest);
            return Some(Field { code: Some(code) });
        }
        if let Some(code) = lone_code(bytes) {
            self.rest = None;
            return Some(Field { code: Some(code) });
        }
        let (field, rest) = any_field(bytes);
        self.rest = rest;
        Some(field)
    }

    /// The next field as a number of a color, which is 0 if the field isn't a number. `None` after
    /// the last field.
    #[inline(always)]
    #[tactic(auto, using(crate::proofs::FieldLemmas::number_is_first))]
    pub(crate) fn next_number(&mut self) -> Option<u8>
        ensures { (result, self.new) ≡ first_field color_number self.old }
    {
        let field = self.next_field()?;
        Some(field.code.unwrap_or(0))
    }
}

/// The first field of the parameter bytes, and the bytes after it, if more follow. They aren't taken by
/// reference, so that those of `Fields` stay in registers.
#[inline(never)]
fn any_field(parameters: &[u8]) -> (Field, Option<&[u8]>)
    ensures { (Some result.0.code, option_map_or (λ rest. fields_of rest.now) result.1 [])
        ≡ first_field code_of (fields_of parameters.now) }
{
    let mut number = Number::ZERO;
    for (i, byte) in parameters.iter().enumerate() {
        if *byte == b';' {
            return (number.field(), Some(&parameters[i + 1..]));
        }
        number = number.with_digit(*byte);
    }
    (number.field(), None)
}

/// A fast path: the code, if the parameter bytes are one field of at most three digits, as most
/// are. Otherwise, and if it is more than 255, `None`.
#[inline(always)]
pub(crate) fn lone_code(parameters: &[u8]) -> Option<u8>
    ensures field { IfSome result (λ _. fields_of parameters.now ≡ parameters.now ∷ []) }
    ensures code { IfSome result (λ code. code_of parameters.now ≡ Some code) }
{
    match parameters {
        [] => Some(0),
        [digit] if digit.is_ascii_digit() => Some(digit - b'0'),
        [tens, digit] => two_digits(*tens, *digit),
        [hundreds, tens, digit] => three_digits(*hundreds, *tens, *digit),
        _ => None,
    }
}

/// A fast path: the first field as a code and the parameter bytes after it, if the field has one to
/// three digits and a `;` after it. Otherwise, and if it is more than 255, `None`.
#[inline(always)]
pub(crate) fn short_field(parameters: &[u8]) -> Option<(u8, &[u8])>
    ensures { IfSome result (λ first.
        (Some (Some first.0), fields_of first.1.now) ≡ first_field code_of (fields_of parameters.now)) }
{
    match parameters {
        [digit, b';', rest @ ..] if digit.is_ascii_digit() => Some((digit - b'0', rest)),
        [tens, digit, b';', rest @ ..] => Some((two_digits(*tens, *digit)?, rest)),
        [hundreds, tens, digit, b';', rest @ ..] => {
            Some((three_digits(*hundreds, *tens, *digit)?, rest))
        }
        _ => None,
    }
}

/// The number of two digits, or `None` if they aren't digits.
#[inline(always)]
fn two_digits(tens: u8, digit: u8) -> Option<u8>
    ensures field { IfSome result (λ _. fields_of (tens ∷ digit ∷ [])
        ≡ (tens ∷ digit ∷ []) ∷ []) }
    ensures first { IfSome result (λ _. (rest : List ℕ) →
        fields_of (tens ∷ digit ∷ byte ";" ∷ rest) ≡ (tens ∷ digit ∷ []) ∷ fields_of rest) }
    ensures code { IfSome result (λ code. code_of (tens ∷ digit ∷ []) ≡ Some code) }
{
    if !tens.is_ascii_digit() || !digit.is_ascii_digit() {
        return None;
    }
    Some((tens - b'0') * 10 + (digit - b'0'))
}

/// The number of three digits, or `None` if they aren't digits or it is more than 255.
#[inline(always)]
fn three_digits(hundreds: u8, tens: u8, digit: u8) -> Option<u8>
    ensures field { IfSome result (λ _. fields_of (hundreds ∷ tens ∷ digit ∷ [])
        ≡ (hundreds ∷ tens ∷ digit ∷ []) ∷ []) }
    ensures first { IfSome result (λ _. (rest : List ℕ) →
        fields_of (hundreds ∷ tens ∷ digit ∷ byte ";" ∷ rest)
        ≡ (hundreds ∷ tens ∷ digit ∷ []) ∷ fields_of rest) }
    ensures code { IfSome result (λ code. code_of (hundreds ∷ tens ∷ digit ∷ []) ≡ Some code) }
{
    if !hundreds.is_ascii_digit() || !tens.is_ascii_digit() || !digit.is_ascii_digit() {
        return None;
    }
    let number = u32::from(hundreds - b'0') * 100
        + u32::from(tens - b'0') * 10
        + u32::from(digit - b'0');
    u8::try_from(number).ok()
}

/// The number that the bytes so far spell.
#[derive(Clone, Copy)]
struct Number(u32);

impl Number {
    /// The number of an empty field.
    const ZERO: Number = Number(0);

    /// Not a number of at most 255, whatever follows.
    const NONE: Number = Number(256);

    /// The number with one more digit. `NONE` if the byte isn't a digit.
    #[inline(always)]
    fn with_digit(self, byte: u8) -> Number
        ensures { result.0 ≡ with_digit self.0 byte }
    {
        if byte.is_ascii_digit() && self.0 <= 255 {
            Number(self.0 * 10 + u32::from(byte - b'0'))
        } else {
            Number::NONE
        }
    }

    /// The field with this number.
    #[inline(always)]
    fn field(self) -> Field
        ensures { result.code ≡ if nat_le self.0 255 then Some self.0 else None }
    {
        Field {
            code: u8::try_from(self.0).ok(),
        }
    }
}

/// The parameter bytes of an SGR: the bytes between ESC `[` and the final byte.
pub(crate) fn parameters(sequence: &str) -> &[u8]
    requires { IsTrue (is_sgr sequence.now) }
    ensures { sgr_parameters sequence.now ≡ Some result.now }
{
    &sequence.as_bytes()[2..sequence.len() - 1]
}
