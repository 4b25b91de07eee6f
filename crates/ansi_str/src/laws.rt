//! Laws of the definitions that the contracts cite.
//!
//! Each function has one law as its contract, does nothing and returns nothing. A body that needs
//! the law calls it, as `laws::join();`. (Own.)
ghost use Rattle.std.specs.Prelude.{◌⊎◌, ◌≡◌, ◌↔◌, ◌≤◌, ◌+◌, ◌*◌, ◌++◌, ℕ, List, [], length, filter};
ghost use Rattle.std.specs.Prelude.{take, drop, slice_range, nat_eq, min, slice_get, Option, Some};
ghost use Rattle.std.specs.Prelude.{None, option_map, unwrap_or, if◌then◌else◌, IsTrue, IsFalse};
ghost use Rattle.std.specs.Prelude.{◌≢◌, ◌∷◌, map, flat_map};
ghost use Rattle.std.specs.List.{list_any, starts_with, ends_with};
ghost use Rattle.std.specs.Str.{IsUtf8, IsCharBoundary, trim, chars};
ghost use Rattle.std.specs.Char.{encode_utf8};
ghost use Rattle.std.specs.Str.Pattern.{FindsTextPrefix, FindsTextSuffix, StripsPrefix};
ghost use Rattle.std.specs.Str.Pattern.{StripsSuffix};
ghost use Rattle.ansi_items.specs.Sequences.{IsSequence};
ghost use Rattle.ansi_items.specs.Pieces.{Piece, ArePieces, pieces_of, merged};
ghost use Rattle.ansi_items.specs.Plain.{plain, marks, marks_up_to, joined, is_text, is_whole};
ghost use Rattle.ansi_items.specs.Plain.{other_sequences, has_escape};
ghost use Rattle.ansi_style.specs.declared.state.rendition.Rendition.{Rendition};
ghost use Rattle.ansi_style.specs.Rendition.{IsStyle, plain_style, known, has_any};
ghost use Rattle.ansi_style.specs.Sgr.{apply};
ghost use Rattle.ansi_style.specs.Styled.{style_at, style_after, styled, unstyled, residue};
ghost use Rattle.ansi_style.specs.Reading.{style_after_from, styled_from};
ghost use Rattle.ansi_style.specs.Written.{start, close, close_if_any, longest_start};
ghost use Rattle.ansi_style.specs.Written.{longest_close, longest_start_and_close};
ghost use Rattle.ansi_search.specs.Positions.{is_good_position, is_char_boundary, is_good_range};
ghost use Rattle.ansi_search.specs.Positions.{is_position_in, is_range_in};
ghost use Rattle.ansi_slice.specs.Cut.{cut};
ghost use Rattle.ansi_slice.specs.Sides.{left_side, right_side};
ghost use Rattle.ansi_slice.specs.Kept.{kept, IsKept, without_prefix, without_suffix};
ghost use Rattle.ansi_slice.specs.Kept.{trim_interval, trimmed};
ghost use Rattle.ansi_split.specs.Parts.{parts, part, marks_past, part_over, all_parts};
ghost use Rattle.ansi_str.specs.Changes.{Change, CutRange, LeftOf, RightOf, PartOf, WithoutPrefix};
ghost use Rattle.ansi_str.specs.Changes.{WithoutSuffix, Trimmed, interval_of, slice_of};
ghost use Rattle.ansi_str.specs.Edited.{meaning, edited_by, edited, closes, stay_borrowed};
ghost use Rattle.ansi_str.specs.Edited.{IsSliceNamed};
ghost use Rattle.ansi_blocks.specs.Blocks.{sequences_before, runs, without_sgrs, blocks};
ghost use Rattle.ansi_split.specs.StdSplit.{AreSplit, AreBetween, AreInTurn, slices_over};

pub use ansi_style::laws::{orders_go_by_parts, reset_all_clears, styles_are_in_range};

/// A text is read in one way: no whole sequence is the beginning of a longer one, and each text has
/// exactly one list of pieces.
pub fn one_reading()
    ensures apart { (w more : List ℕ) → IsSequence w → IsSequence (w ++ more) → more ≡ [] }
    ensures pieces { (t : List ℕ) (ps : List Piece) → ArePieces t ps ↔ (ps ≡ pieces_of t) }
{}

/// A plain text has no ESC, is its own plain text, is whole, and is UTF-8 if its text is.
pub fn plain_is_plain()
    ensures no_escape { (t : List ℕ) → IsFalse (has_escape (plain t)) }
    ensures same { (t : List ℕ) → plain (plain t) ≡ plain t }
    ensures whole { (t : List ℕ) → IsTrue (is_whole (plain t)) }
    ensures utf8 { (t : List ℕ) → IsUtf8 t → IsUtf8 (plain t) }
{}

/// The known style after a sequence depends only on the sequence and on the known style before it.
pub fn known_evolves()
    ensures { (s : Rendition) (w : List ℕ) → known (apply s w) ≡ known (apply (known s) w) }
{}

/// A sequence makes a style of a style, so each style in a text is one.
pub fn texts_have_styles()
    ensures plain { IsStyle plain_style }
    ensures known { (s : Rendition) → IsStyle s → IsStyle (known s) }
    ensures sequence { (s : Rendition) (w : List ℕ) → IsStyle s → IsStyle (apply s w) }
    ensures after_from { (s : Rendition) (t : List ℕ) → IsStyle s → IsStyle (style_after_from s t) }
    ensures at { (t : List ℕ) (i : ℕ) → IsStyle (style_at t i) }
    ensures after { (t : List ℕ) → IsStyle (style_after t) }
{}

/// The start of a style, read in the plain style, sets the known part of the style. Read in the
/// style itself it changes nothing. Read in a style whose known part is plain or the same, it
/// leaves that known part.
pub fn start_sets()
    ensures from_plain { (s : Rendition) → IsStyle s →
        style_after_from plain_style (start s) ≡ known s }
    ensures from_itself { (s : Rendition) → IsStyle s → style_after_from s (start s) ≡ s }
    ensures from_cleared { (p s : Rendition) → IsStyle s → known p ≡ plain_style →
        known (style_after_from p (start s)) ≡ known s }
    ensures from_known { (p s : Rendition) → IsStyle s → known p ≡ known s →
        known (style_after_from p (start s)) ≡ known s }
{}

/// The close of a style, read in that style or in one with the same known part, leaves no known
/// style open.
pub fn close_clears()
    ensures from_itself { (s : Rendition) → known (style_after_from s (close s)) ≡ plain_style }
    ensures from_known { (p s : Rendition) → known p ≡ known s →
        known (style_after_from p (close s)) ≡ plain_style }
{}

/// A style in which nothing is set that a reader could see has a plain known style, and its start
/// is empty. So a close that is only written if something is set clears every style.
pub fn unset_styles_need_nothing()
    ensures known { (s : Rendition) → IsFalse (has_any s) → known s ≡ plain_style }
    ensures start { (s : Rendition) → IsFalse (has_any s) → start s ≡ [] }
    ensures close { (s : Rendition) → IsFalse (has_any s) → close_if_any s ≡ [] }
    ensures cleared { (p s : Rendition) → known p ≡ known s →
        known (style_after_from p (close_if_any s)) ≡ plain_style }
{}

/// Two whole texts in a row have the pieces of both, with texts that touch joined, and are whole. A
/// cut, the two sides and each part of a whole text are whole, and leave no known style open. A
/// whole text without a prefix, a suffix or the white space at its ends is whole, and leaves the
/// same style open.
pub fn join()
    ensures pieces { (u v : List ℕ) → IsTrue (is_whole u) → IsTrue (is_whole v) →
        pieces_of (u ++ v) ≡ merged (pieces_of u ++ pieces_of v) }
    ensures whole { (u v : List ℕ) → IsTrue (is_whole u) → IsTrue (is_whole v) →
        IsTrue (is_whole (u ++ v)) }
    ensures whole_cut { (t : List ℕ) (s : ℕ) (e : Option ℕ) → IsTrue (is_whole t) →
        IsTrue (is_whole (cut t s e)) }
    ensures whole_sides { (t : List ℕ) (mid : ℕ) → IsTrue (is_whole t) →
        IsTrue (is_whole (left_side t mid)) × IsTrue (is_whole (right_side t mid)) }
    ensures whole_part { (t p : List ℕ) (k : ℕ) (u : List ℕ) → IsTrue (is_whole t) →
        part t p k ≡ Some u → IsTrue (is_whole u) }
    ensures whole_kept { (t : List ℕ) (a b : ℕ) → IsTrue (is_whole t) →
        IsTrue (is_whole (kept t a b)) }
    ensures closed_cut { (t : List ℕ) (s : ℕ) (e : Option ℕ) → IsTrue (is_whole t) →
        residue (cut t s e) ≡ plain_style }
    ensures closed_sides { (t : List ℕ) (mid : ℕ) → IsTrue (is_whole t) →
        (residue (left_side t mid) ≡ plain_style) × (residue (right_side t mid) ≡ plain_style) }
    ensures closed_part { (t p : List ℕ) (k : ℕ) (u : List ℕ) → IsTrue (is_whole t) →
        part t p k ≡ Some u → residue u ≡ plain_style }
    ensures residue_kept { (t : List ℕ) (a b : ℕ) → IsTrue (is_whole t) →
        residue (kept t a b) ≡ residue t }
{}

/// If two whole texts are in a row, the second is read in the style after the first. What is read
/// depends only on the known style before it.
pub fn read_in_turn()
    ensures styled { (s : Rendition) (u v : List ℕ) → IsTrue (is_whole u) → IsTrue (is_whole v) →
        styled_from s (u ++ v) ≡ styled_from s u ++ styled_from (style_after_from s u) v }
    ensures after_from { (s : Rendition) (u v : List ℕ) → IsTrue (is_whole u) →
        IsTrue (is_whole v) →
        style_after_from s (u ++ v) ≡ style_after_from (style_after_from s u) v }
    ensures styled_alike { (p q : Rendition) (t : List ℕ) → known p ≡ known q →
        styled_from p t ≡ styled_from q t }
    ensures after_alike { (p q : Rendition) (t : List ℕ) → known p ≡ known q →
        known (style_after_from p t) ≡ known (style_after_from q t) }
{}

/// A cut of a whole text has the slice of its styled bytes that the range names, each side the
/// slice that the position names, and the part of an index the slice between the matches of the
/// pattern, if there is such a part. If a range or a position isn't good, so that it names no
/// slice, the slice is the same. A text without a prefix or a suffix that it has, or without the
/// white space at its ends, has the slice that this change names. What is kept over any interval
/// has the slice over it.
pub fn slices()
    ensures cut { (t : List ℕ) (s : ℕ) (e : Option ℕ) → IsTrue (is_whole t) →
        IsTrue (is_good_range (plain t) s e) →
        slice_of (CutRange s e) (styled t) ≡ Some (styled (cut t s e)) }
    ensures left { (t : List ℕ) (mid : ℕ) → IsTrue (is_whole t) →
        IsTrue (is_good_position (plain t) mid) →
        slice_of (LeftOf mid) (styled t) ≡ Some (styled (left_side t mid)) }
    ensures right { (t : List ℕ) (mid : ℕ) → IsTrue (is_whole t) →
        IsTrue (is_good_position (plain t) mid) →
        slice_of (RightOf mid) (styled t) ≡ Some (styled (right_side t mid)) }
    ensures part { (t p : List ℕ) (k : ℕ) → IsTrue (is_whole t) →
        slice_of (PartOf p k) (styled t) ≡ option_map styled (part t p k) }
    ensures prefix { (t p : List ℕ) → IsTrue (is_whole t) →
        IsTrue (starts_with nat_eq (plain t) p) →
        slice_of (WithoutPrefix p) (styled t) ≡ Some (styled (without_prefix t p)) }
    ensures suffix { (t p : List ℕ) → IsTrue (is_whole t) → IsTrue (ends_with nat_eq (plain t) p) →
        slice_of (WithoutSuffix p) (styled t) ≡ Some (styled (without_suffix t p)) }
    ensures trim { (t : List ℕ) → IsTrue (is_whole t) →
        slice_of Trimmed (styled t) ≡ Some (styled (trimmed t)) }
    ensures any_cut { (t : List ℕ) (s : ℕ) (e : Option ℕ) → IsTrue (is_whole t) →
        styled (cut t s e) ≡ slice_range (styled t) s (unwrap_or e (length (plain t))) }
    ensures any_left { (t : List ℕ) (mid : ℕ) → IsTrue (is_whole t) →
        styled (left_side t mid) ≡ take mid (styled t) }
    ensures any_right { (t : List ℕ) (mid : ℕ) → IsTrue (is_whole t) →
        styled (right_side t mid) ≡ drop mid (styled t) }
    ensures any_kept { (t : List ℕ) (a b : ℕ) → IsTrue (is_whole t) →
        styled (kept t a b) ≡ slice_range (styled t) a b }
{}

/// The two sides of a whole text, joined, have its styled bytes.
pub fn sides_join()
    ensures { (t : List ℕ) (mid : ℕ) → IsTrue (is_whole t) →
        styled (left_side t mid ++ right_side t mid) ≡ styled t }
{}

/// Changes in turn, each of the result of the one before, make None of a whole text exactly if one
/// of them is refused at its turn. Otherwise they make a whole text. Its styled bytes are the slice
/// of the text's that the changes name, and after a cut, a side or a part no known style is open at
/// its end. Without any of these the same style is open as at the end of the text.
pub fn edits_are_slices()
    ensures one { (e : Change) (t : List ℕ) → IsTrue (is_whole t) →
        slice_of e (styled t) ≡ option_map styled (edited_by e t) }
    ensures plain { (e : Change) (t : List ℕ) → IsTrue (is_whole t) →
        option_map plain (edited_by e t)
        ≡ option_map (λ (i : ℕ × ℕ). slice_range (plain t) i.0 i.1) (interval_of e (plain t)) }
    ensures in_turn { (es : List Change) (t : List ℕ) → IsTrue (is_whole t) →
        IsSliceNamed es t (edited es t) }
    ensures residue { (es : List Change) (t u : List ℕ) → IsTrue (is_whole t) →
        edited es t ≡ Some u → residue u ≡ (if list_any closes es then plain_style else residue t) }
{}

/// Trimming is std's `trim` on the plain text, and removing a prefix or a suffix is std's
/// `strip_prefix` or `strip_suffix`. The interval of a trim is what std's `trim` leaves, between
/// two character boundaries. All of these keep every sequence and lone escape of the text. Removing
/// an empty prefix or suffix leaves the text as it is.
pub fn trim_is_std()
    ensures trim { (t : List ℕ) → IsUtf8 t → IsTrue (is_whole t) →
        plain (trimmed t) ≡ trim (plain t) }
    ensures prefix { (t p : List ℕ) → IsUtf8 t → IsUtf8 p → IsTrue (is_whole t) →
        IsTrue (starts_with nat_eq (plain t) p) →
        StripsPrefix (FindsTextPrefix p) (plain t) (plain (without_prefix t p)) }
    ensures suffix { (t p : List ℕ) → IsUtf8 p → IsTrue (is_whole t) →
        IsTrue (ends_with nat_eq (plain t) p) →
        StripsSuffix (FindsTextSuffix p) (plain t) (plain (without_suffix t p)) }
    ensures interval { (x : List ℕ) → IsUtf8 x →
        slice_range x (trim_interval x).0 (trim_interval x).1 ≡ trim x }
    ensures boundaries { (x : List ℕ) → IsUtf8 x →
        IsCharBoundary x (trim_interval x).0 × IsCharBoundary x (trim_interval x).1 }
    ensures kept { (t : List ℕ) (a b : ℕ) → IsKept t a b (kept t a b) }
    ensures empty_prefix { (t : List ℕ) → without_prefix t [] ≡ t }
    ensures empty_suffix { (t : List ℕ) → without_suffix t [] ≡ t }
{}

/// A text has one block for each run of its text. The texts of the blocks, joined, followed by the
/// sequences that wait at the text's end, are the text without its SGRs. A block's style is the
/// style at the place of its run.
pub fn blocks_are_runs()
    ensures runs { (t : List ℕ) → length (blocks t) ≡ length (runs t) }
    ensures texts { (t : List ℕ) → flat_map (λ b. b.text) (blocks t)
        ++ sequences_before t (length (plain t)) ≡ without_sgrs t }
    ensures styles { (t : List ℕ) →
        map (λ b. b.style) (blocks t) ≡ map (λ p. style_at t p.place) (runs t) }
{}

/// The intervals of the parts are those between the first matches of the pattern, in std's words.
/// They follow one another in the text, each from one of std's character boundaries to another. The
/// slices over them are what std's `split` returns. For the empty pattern, of which std's clause
/// says nothing, the slices are the characters between two empty texts.
pub fn parts_lie_between_matches()
    ensures between { (x p : List ℕ) → IsUtf8 x → IsUtf8 p → p ≢ [] → AreBetween x p 0 (parts x p) }
    ensures in_turn { (x p : List ℕ) → IsUtf8 x → IsUtf8 p → AreInTurn x 0 (parts x p) }
    ensures split { (x p : List ℕ) → IsUtf8 x → IsUtf8 p → p ≢ [] →
        AreSplit p x (slices_over x (parts x p)) }
    ensures characters { (x : List ℕ) → IsUtf8 x →
        slices_over x (parts x []) ≡ [] ∷ (map encode_utf8 (chars x) ++ [] ∷ []) }
    ensures few { (x p : List ℕ) → length (parts x p) ≤ length x + 2 }
{}

/// Each sequence of a whole text that isn't an SGR is in exactly one of its parts, and they stay in
/// order.
pub fn parts_keep_sequences()
    ensures { (t p : List ℕ) → IsTrue (is_whole t) →
        flat_map other_sequences (all_parts t p) ≡ other_sequences t }
{}

/// The plain texts of the parts of a whole text are what std's `split` of its plain text returns,
/// which is one list of texts. For the empty pattern they are the characters between two empty
/// texts. There are at most two more parts than plain bytes.
pub fn parts_are_std()
    ensures split { (t p : List ℕ) → IsUtf8 t → IsUtf8 p → IsTrue (is_whole t) → p ≢ [] →
        AreSplit p (plain t) (map plain (all_parts t p)) }
    ensures one { (p x : List ℕ) (ys zs : List (List ℕ)) → p ≢ [] → AreSplit p x ys →
        AreSplit p x zs → ys ≡ zs }
    ensures characters { (t : List ℕ) → IsUtf8 t → IsTrue (is_whole t) →
        map plain (all_parts t []) ≡ [] ∷ (map encode_utf8 (chars (plain t)) ++ [] ∷ []) }
    ensures slices { (t p : List ℕ) → IsTrue (is_whole t) →
        map plain (all_parts t p) ≡ slices_over (plain t) (parts (plain t) p) }
    ensures few { (t p : List ℕ) → length (all_parts t p) ≤ length (plain t) + 2 }
{}

/// A start has at most `longest_start` bytes, a close `longest_close`, and a cut no more than its
/// text and a close. A text without a prefix, a suffix or the white space at its ends is no longer
/// than it was. A part is no longer than the text of its interval, its sequences, and
/// `longest_start_and_close`. The two sides are no longer than their text, and that number for each
/// text piece and for the one that is divided.
pub fn written_texts_are_short()
    ensures start { (s : Rendition) → IsStyle s → length (start s) ≤ longest_start }
    ensures close { (s : Rendition) → length (close s) ≤ longest_close }
    ensures cut { (t : List ℕ) (s : ℕ) (e : Option ℕ) →
        length (cut t s e) ≤ length t + longest_close }
    ensures kept { (t : List ℕ) (a b : ℕ) → length (kept t a b) ≤ length t }
    ensures part_over { (t : List ℕ) (before : Option ℕ) (i : ℕ × ℕ) →
        length (part_over t before i) ≤ length (slice_range (plain t) i.0 i.1) + length
        (joined (marks_past before (marks_up_to i.1 (marks t)))) + longest_start_and_close }
    ensures part { (t p : List ℕ) (k : ℕ) (u : List ℕ) → part t p k ≡ Some u →
        length u ≤ length t + longest_start_and_close }
    ensures sides { (t : List ℕ) (mid : ℕ) → length (left_side t mid) + length (right_side t mid)
        ≤ length t + longest_start_and_close * (length (filter is_text (pieces_of t)) + 1) }
{}

/// Character boundaries are std's. A good position is 0, or a character boundary, or past the end,
/// which counts as the end. A range is good if its ends are good and in order. A text can be divided
/// and cut exactly at the good positions and ranges of its plain text.
pub fn positions_are_std()
    ensures boundary { (x : List ℕ) (n : ℕ) → IsTrue (is_char_boundary x n) ↔ IsCharBoundary x n }
    ensures position { (x : List ℕ) (n : ℕ) → IsTrue (is_good_position x n)
        ↔ ((n ≡ 0) ⊎ IsCharBoundary x (min n (length x))) }
    ensures range { (x : List ℕ) (s e : ℕ) → IsTrue (is_good_range x s (Some e)) ↔ ((s ≤ e)
        × ((s ≡ 0) ⊎ IsCharBoundary x (min s (length x)))
        × ((e ≡ 0) ⊎ IsCharBoundary x (min e (length x)))) }
    ensures open_range { (x : List ℕ) (s : ℕ) → IsTrue (is_good_range x s None)
        ↔ ((s ≡ 0) ⊎ IsCharBoundary x (min s (length x))) }
    ensures position_in { (t : List ℕ) (n : ℕ) → IsUtf8 t →
        is_position_in t n ≡ is_good_position (plain t) n }
    ensures range_in { (t : List ℕ) (s : ℕ) (e : Option ℕ) → IsUtf8 t →
        is_range_in t s e ≡ is_good_range (plain t) s e }
{}

/// On a text without ESC, each call that std has too returns what std's does, and a position past
/// the end counts as the end. Each change of it makes the slice that it keeps, or is refused, and
/// all results are borrows.
pub fn bare_texts_are_std()
    ensures strip { (t : List ℕ) → IsFalse (has_escape t) → plain t ≡ t }
    ensures whole { (t : List ℕ) → IsFalse (has_escape t) → IsTrue (is_whole t) }
    ensures cut { (t : List ℕ) (s : ℕ) (e : Option ℕ) → IsFalse (has_escape t) →
        cut t s e ≡ slice_range t (min s (length t)) (min (unwrap_or e (length t)) (length t)) }
    ensures left { (t : List ℕ) (mid : ℕ) → IsFalse (has_escape t) →
        left_side t mid ≡ take (min mid (length t)) t }
    ensures right { (t : List ℕ) (mid : ℕ) → IsFalse (has_escape t) →
        right_side t mid ≡ drop (min mid (length t)) t }
    ensures part { (t p : List ℕ) (k : ℕ) → IsFalse (has_escape t) →
        part t p k ≡ option_map (λ (i : ℕ × ℕ). slice_range t i.0 i.1) (slice_get (parts t p) k) }
    ensures parts { (t p : List ℕ) → IsFalse (has_escape t) →
        all_parts t p ≡ slices_over t (parts t p) }
    ensures split { (t p : List ℕ) → IsUtf8 t → IsUtf8 p → IsFalse (has_escape t) → p ≢ [] →
        AreSplit p t (all_parts t p) }
    ensures characters { (t : List ℕ) → IsUtf8 t → IsFalse (has_escape t) →
        all_parts t [] ≡ [] ∷ (map encode_utf8 (chars t) ++ [] ∷ []) }
    ensures prefix { (t p : List ℕ) → IsUtf8 t → IsUtf8 p → IsFalse (has_escape t) →
        IsTrue (starts_with nat_eq t p) → StripsPrefix (FindsTextPrefix p) t (without_prefix t p) }
    ensures suffix { (t p : List ℕ) → IsUtf8 p → IsFalse (has_escape t) →
        IsTrue (ends_with nat_eq t p) → StripsSuffix (FindsTextSuffix p) t (without_suffix t p) }
    ensures trim { (t : List ℕ) → IsUtf8 t → IsFalse (has_escape t) → trimmed t ≡ trim t }
    ensures change { (e : Change) (t : List ℕ) → IsFalse (has_escape t) →
        edited_by e t ≡ option_map (λ (i : ℕ × ℕ). slice_range t i.0 i.1) (interval_of e t) }
    ensures in_turn { (es : List Change) (t : List ℕ) → IsFalse (has_escape t) →
        edited es t ≡ option_map unstyled (meaning es (styled t)) }
    ensures borrowed { (es : List Change) (t : List ℕ) → IsFalse (has_escape t) →
        IsTrue (stay_borrowed es t) }
{}
