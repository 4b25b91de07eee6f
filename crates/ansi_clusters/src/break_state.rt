//! Whether a cluster ends between two characters (UAX #29). The test uses a summary of the
//! characters before.
ghost use Rattle.std.specs.Prelude.{◌≡◌, ◌≢◌, ℕ, List, true, [], ◌∷◌, Some};
ghost use Rattle.std.specs.Int.{is_in_range};
ghost use Rattle.unicode_segmentation.specs.Grapheme.{is_grapheme_break, break_by_pair, is_extend};
ghost use Rattle.unicode_segmentation.specs.Grapheme.{is_zwj, is_regional, is_consonant};
ghost use Rattle.ucd_derived.specs.IndicConjunctBreak.{indic_conjunct_break};
ghost use Rattle.ucd_breaks.specs.GraphemeClusterBreak.{grapheme_cluster_break};
ghost use Rattle.ucd_emoji.specs.Binary.{is_extended_pictographic};
ghost use Rattle.ansi_clusters.specs.BreakStates.{break_state_of, is_other, links, IsSingle, state_of, added_columns};

use crate::singles::is_single;
use ucd_breaks::GraphemeClusterBreak;
use ucd_breaks::GraphemeClusterBreak::*;
use ucd_derived::IndicConjunctBreak;
use ucd_emoji::is_extended_pictographic;

/// A summary of the characters before a place, as much as the rules look back at.
#[derive(Clone, Copy)]
pub struct BreakState {
    /// The value of the last character.
    pub last: GraphemeClusterBreak,
    /// Whether they end in a linker that joins a following consonant (GB9c).
    pub is_linked: bool,
    /// Whether they end in a pictograph and the characters that extend it.
    pub is_pictograph: bool,
    /// Whether they end in a pictograph, the characters that extend it, and a joiner (GB11).
    pub is_joined: bool,
    /// Whether they end in an odd number of regional indicators (GB12 and GB13).
    pub is_half_flag: bool,
}

impl BreakState {
    /// The summary of no characters.
    pub fn start() -> BreakState
        ensures { result ≡ break_state_of [] }
    {
        BreakState::of(Other)
    }

    /// The summary if only the value of the last character is looked back at.
    #[inline(always)]
    fn of(last: GraphemeClusterBreak) -> BreakState
        ensures { result ≡ state_of last }
    {
        BreakState {
            last,
            is_linked: false,
            is_pictograph: false,
            is_joined: false,
            is_half_flag: false,
        }
    }

    /// The summary after one more character.
    #[inline(always)]
    pub(crate) fn after(self, c: char) -> BreakState
        ensures { (before : List ℕ) → self ≡ break_state_of before →
            result ≡ break_state_of (c ∷ before) }
    {
        if is_single(c) {
            return BreakState::after_single(c);
        }
        if c == '\n' {
            return BreakState::of(Lf);
        }
        let value = GraphemeClusterBreak::for_char(c);
        BreakState {
            last: value,
            is_linked: links(c, self.is_linked),
            is_pictograph: is_pictograph(c, value) || (is_extend(value) && self.is_pictograph),
            is_joined: is_zwj(value) && self.is_pictograph,
            is_half_flag: is_regional(value) && !self.is_half_flag,
        }
    }

    /// The summary after a single character.
    #[inline(always)]
    pub(crate) fn after_single(c: char) -> BreakState
        requires { IsSingle c }
        ensures { (before : List ℕ) → result ≡ break_state_of (c ∷ before) }
    {
        BreakState::of(single_value(c))
    }

    /// The summary after a character that `added_columns` knows, which extends a single one.
    #[inline(always)]
    pub(crate) fn after_added(c: char) -> BreakState
        requires { (k : ℕ) × (added_columns c ≡ Some k) }
        ensures { result ≡ state_of (grapheme_cluster_break c) }
    {
        if c == '\u{E33}' {
            BreakState::of(SpacingMark)
        } else {
            BreakState::of(Extend)
        }
    }

    /// Whether a cluster ends before the next character. There has to be a character before it.
    #[inline(always)]
    pub fn ends_before(self, next: char) -> bool
        ensures { (before after : List ℕ) → before ≢ [] → self ≡ break_state_of before →
            result ≡ is_grapheme_break true before (next ∷ after) }
    {
        if matches!(next, ' '..='~') {
            return break_by_pair(self.last, Other).unwrap_or(true);
        }
        let value = GraphemeClusterBreak::for_char(next);
        if let Some(is_break) = break_by_pair(self.last, value) {
            return is_break;
        }
        let joins_conjunct = self.is_linked && is_consonant(next);
        let joins_emoji = self.is_joined && is_extended_pictographic(next);
        let joins_flag = self.is_half_flag && is_regional(value);
        !(joins_conjunct || joins_emoji || joins_flag)
    }
}

/// The value of a single character.
#[inline(always)]
fn single_value(c: char) -> GraphemeClusterBreak
    requires { IsSingle c }
    ensures { result ≡ grapheme_cluster_break c }
{
    if is_syllable(c) {
        GraphemeClusterBreak::for_char(c)
    } else {
        Other
    }
}

/// Whether the character is a Hangul syllable.
#[inline(always)]
fn is_syllable(c: char) -> bool
    ensures { result ≡ is_in_range 0xAC00 0xD7A3 c }
{
    matches!(c, '\u{AC00}'..='\u{D7A3}')
}

/// Whether the values of two neighbors alone require or forbid a break, or `None` if they don't
/// decide (GB3 to GB9b).
#[inline(always)]
fn break_by_pair(left: GraphemeClusterBreak, right: GraphemeClusterBreak) -> Option<bool>
    ensures { result ≡ break_by_pair true left right }
{
    match (left, right) {
        (Cr, Lf) => Some(false),
        (Control | Cr | Lf, _) | (_, Control | Cr | Lf) => Some(true),
        (L, L | V | Lv | Lvt) | (Lv | V, V | T) | (Lvt | T, T) => Some(false),
        (_, Extend | Zwj | SpacingMark) | (Prepend, _) => Some(false),
        _ => None,
    }
}

/// Whether a character with this value is a pictograph. No rule on values names one.
#[inline]
fn is_pictograph(c: char, value: GraphemeClusterBreak) -> bool
    ensures { value ≡ grapheme_cluster_break c → result ≡ is_extended_pictographic c }
{
    is_other(value) && is_extended_pictographic(c)
}

#[inline]
fn is_other(value: GraphemeClusterBreak) -> bool
    ensures { result ≡ is_other value }
{
    matches!(value, Other)
}

/// Whether a linker and the characters that extend it end with this character.
#[inline]
fn links(c: char, is_linked: bool) -> bool
    ensures { result ≡ links (indic_conjunct_break c) is_linked }
{
    match IndicConjunctBreak::for_char(c) {
        IndicConjunctBreak::Linker => true,
        IndicConjunctBreak::Extend => is_linked,
        _ => false,
    }
}

#[inline]
fn is_consonant(c: char) -> bool
    ensures { result ≡ is_consonant (indic_conjunct_break c) }
{
    IndicConjunctBreak::for_char(c) == IndicConjunctBreak::Consonant
}

#[inline]
fn is_extend(value: GraphemeClusterBreak) -> bool
    ensures { result ≡ is_extend value }
{
    matches!(value, Extend)
}

#[inline]
fn is_zwj(value: GraphemeClusterBreak) -> bool
    ensures { result ≡ is_zwj value }
{
    matches!(value, Zwj)
}

#[inline]
fn is_regional(value: GraphemeClusterBreak) -> bool
    ensures { result ≡ is_regional value }
{
    matches!(value, RegionalIndicator)
}
