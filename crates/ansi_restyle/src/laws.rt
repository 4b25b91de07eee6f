//! Laws of the definitions that the contracts cite.
//!
//! Each function has one law as its contract, does nothing and returns nothing. A body that needs
//! the law calls it, as `laws::other_marks_stay();`. (Own.)
ghost use Rattle.std.specs.Prelude.{◌≡◌, ◌<◌, ◌≤◌, ◌-◌, ◌++◌, ℕ, List, [], IsTrue, length};
ghost use Rattle.std.specs.Prelude.{◌==◌, ◌∷◌, IsFalse, map, slice_range};
ghost use Rattle.std.specs.List.{list_any};
ghost use Rattle.std.specs.Str.{IsUtf8, byte};
ghost use Rattle.ansi_items.specs.Plain.{plain, is_whole};
ghost use Rattle.ansi_style.specs.Rendition.{known};
ghost use Rattle.ansi_style.specs.Reading.{style_after_from, styled_from};
ghost use Rattle.ansi_style.specs.Styled.{StyledByte, styled, style_at};
ghost use Rattle.ansi_style.specs.Written.{written};
ghost use Rattle.ansi_restyle.specs.Linked.{links_in};
ghost use Rattle.ansi_restyle.specs.Links.{LinkedRange, links};
ghost use Rattle.ansi_restyle.specs.Matches.{matches};
ghost use Rattle.ansi_restyle.specs.Ranges.{are_empty, are_in_turn, begin_outside_line_ends};
ghost use Rattle.ansi_restyle.specs.Ranges.{keep_line_ends, parts_line_end};
ghost use Rattle.ansi_restyle.specs.Removed.{IsRemoved};
ghost use Rattle.ansi_restyle.specs.Replaced.{IsReplaced};
ghost use Rattle.ansi_restyle.specs.ReplacedEach.{IsReplacedEach};
ghost use Rattle.ansi_restyle.specs.Restyled.{is_change, changed_byte, changed_within};
ghost use Rattle.ansi_restyle.specs.Restyled.{restyled, IsRestyled, other_marks};

/// In a whole text that is restyled, every link, title and other sequence that isn't an SGR stays
/// at its place in the plain text.
pub fn other_marks_stay()
    ensures { (t w : List ℕ) (rs : List (ℕ × ℕ)) (u : List ℕ) → IsTrue (is_whole t) →
        IsRestyled t w rs u → other_marks u ≡ other_marks t }
{}

/// No range, and any number of empty ones, leave the text as it is.
pub fn empty_ranges_change_nothing()
    ensures no_range { (t w : List ℕ) → restyled t w [] ≡ t }
    ensures empty_ranges { (t w : List ℕ) (rs : List (ℕ × ℕ)) → IsTrue (are_empty rs) →
        restyled t w rs ≡ t }
{}

/// If two changes are made one after another in the same ranges, each byte there has its style
/// after both of their SGRs in a row.
pub fn changes_add_up()
    ensures in_turn { (t v w : List ℕ) (rs : List (ℕ × ℕ)) (u x : List ℕ) → IsRestyled t v rs u →
        IsRestyled u w rs x →
        styled x ≡ changed_within w rs 0 (changed_within v rs 0 (styled t)) }
    ensures concatenated { (first second : List ℕ) (b : StyledByte) → IsTrue (is_change first) →
        IsTrue (is_change second) →
        changed_byte (written second) (changed_byte (written first) b) ≡ record b {
          style = known (style_after_from b.style (written first ++ written second));
        } }
{}

/// A text that shows what the range shows changes nothing that is shown. It is read in the style of
/// the place.
pub fn alike_replacements_change_nothing()
    ensures { (t w u : List ℕ) (a b : ℕ) → a ≤ b → IsReplaced t a b w u →
        styled_from (style_at t (a - 1)) w ≡ slice_range (styled t) a b → styled u ≡ styled t }
{}

/// An empty text in place of a range removes the range.
pub fn empty_replacements_remove()
    ensures styled { (t u v : List ℕ) (a b : ℕ) → IsReplaced t a b [] u → IsRemoved t a b v →
        styled u ≡ styled v }
    ensures plain { (t u v : List ℕ) (a b : ℕ) → IsReplaced t a b [] u → IsRemoved t a b v →
        plain u ≡ plain v }
{}

/// A text that is put in where a range was removed shows what it shows in place of the range,
/// except at the front, where it is in the style of what is then the first character.
pub fn insertions_replace_what_was_removed()
    ensures { (t w u v x : List ℕ) (a b : ℕ) → 0 < a → a ≤ length (plain t) → IsRemoved t a b u →
        IsReplaced u a a w v → IsReplaced t a b w x → styled v ≡ styled x }
{}

/// Where one range alone is replaced, both calls show the same.
pub fn single_replacements_replace()
    ensures styled { (t w u v : List ℕ) (a b : ℕ) →
        IsReplacedEach t (record { range = (a, b); text = w } ∷ []) u → IsReplaced t a b w v →
        styled u ≡ styled v }
    ensures plain { (t w u v : List ℕ) (a b : ℕ) →
        IsReplacedEach t (record { range = (a, b); text = w } ∷ []) u → IsReplaced t a b w v →
        plain u ≡ plain v }
    ensures links { (t w u v : List ℕ) (a b : ℕ) →
        IsReplacedEach t (record { range = (a, b); text = w } ∷ []) u → IsReplaced t a b w v →
        links_in u ≡ links_in v }
{}

/// The ranges of the links of a text are in turn, so `ansi_restyle` takes them.
pub fn links_are_in_turn()
    ensures { (t : List ℕ) → IsUtf8 t →
        IsTrue (are_in_turn (plain t) 0 (map (λ (l : LinkedRange). l.range) (links t))) }
{}

/// No position is inside a line end of a text without a carriage return. So its ranges may begin and
/// end anywhere.
pub fn texts_without_returns_keep_line_ends()
    ensures parts { (x : List ℕ) (n : ℕ) → IsFalse (list_any (λ b. b == byte "\r") x) →
        IsFalse (parts_line_end x n) }
    ensures keep { (x : List ℕ) (rs : List (ℕ × ℕ)) → IsFalse (list_any (λ b. b == byte "\r") x) →
        IsTrue (keep_line_ends x rs) }
    ensures begin { (x : List ℕ) (rs : List (ℕ × ℕ)) →
        IsFalse (list_any (λ b. b == byte "\r") x) → IsTrue (begin_outside_line_ends x rs) }
{}

/// No match begins between a carriage return and a line feed if the pattern begins with another
/// byte than a line feed.
pub fn matches_begin_outside_line_ends()
    ensures { (x p : List ℕ) (b : ℕ) → IsFalse (b == byte "\n") →
        IsTrue (begin_outside_line_ends x (matches x (b ∷ p))) }
{}
