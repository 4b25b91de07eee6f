//! Laws of safe texts.
//!
//! Each function has one law as its contract, does nothing and returns nothing. A body that needs
//! the law calls it. (Own.)
ghost use Rattle.std.specs.Prelude.{◌≡◌, ◌≤◌, ◌+◌, ◌++◌, ℕ, List, [], length, IsTrue, flat_map, chars};
ghost use Rattle.std.specs.Prelude.{encode_utf8_all};
ghost use Rattle.std.specs.Str.{IsUtf8};
ghost use Rattle.ansi_items.specs.Pieces.{pieces_of};
ghost use Rattle.ansi_items.specs.Plain.{plain_bytes, plain, marks, is_whole};
ghost use Rattle.ansi_style.specs.Styled.{styled};
ghost use Rattle.ansi_style.specs.Written.{longest_close};
ghost use Rattle.ansi_safe.specs.declared.cells.Place.TheVariants.{Paragraph};
ghost use Rattle.ansi_safe.specs.declared.links.TheConstants.{LONGEST_ENDING};
ghost use Rattle.ansi_safe.specs.declared.policy.Links.{Links};
ghost use Rattle.ansi_safe.specs.declared.policy.Links.TheVariants.{Keep};
ghost use Rattle.ansi_safe.specs.declared.policy.Policy.{Policy};
ghost use Rattle.ansi_safe.specs.declared.policy.Rest.TheVariants.{Drop};
ghost use Rattle.ansi_safe.specs.Links.{ending, link_at, link_of, longest_link, longest_link_end, IsClosed};
ghost use Rattle.ansi_safe.specs.Safe.{is_safe};
ghost use Rattle.ansi_safe.specs.Sanitized.{sanitized, allowed, marked};
ghost use Rattle.ansi_safe.specs.Cells.{run_in, cell, paragraph, cell_char};

/// A safe text is whole.
pub fn safe_is_whole()
    ensures { (links : Links) (t : List ℕ) → IsTrue (is_safe links t) → IsTrue (is_whole t) }
{}

/// What is made of a text is safe, whatever the text is, and leaves no known style and no link
/// open. Made safe again, it stays as it is.
pub fn sanitized_is_safe()
    ensures safe { (policy : Policy) (t : List ℕ) → IsUtf8 t →
        IsTrue (is_safe policy.links (sanitized policy t)) }
    ensures closed { (policy : Policy) (t : List ℕ) → IsUtf8 t → IsClosed (sanitized policy t) }
    ensures ended { (policy : Policy) (t : List ℕ) → IsUtf8 t → ending (sanitized policy t) ≡ [] }
    ensures again { (policy : Policy) (t : List ℕ) → IsUtf8 t →
        sanitized policy (sanitized policy t) ≡ sanitized policy t }
{}

/// A safe text stays as it is, with what ends it.
pub fn safe_is_unchanged()
    ensures { (policy : Policy) (t : List ℕ) → IsTrue (is_safe policy.links t) →
        sanitized policy t ≡ t ++ ending t }
{}

/// If what isn't allowed is dropped, the plain bytes that stay, each with its known style, are
/// those of the characters that are allowed where they are. Nothing else is lost.
pub fn characters_stay()
    ensures { (links : Links) (t : List ℕ) → IsUtf8 t →
        styled (sanitized (record { rest = Drop; links = links }) t)
        ≡ marked (allowed t) (styled t) }
{}

/// The text of a cell and that of a paragraph are safe, whatever the text is.
pub fn cells_are_safe()
    ensures cell { (t : List ℕ) → IsUtf8 t → IsTrue (is_safe Keep (cell t)) }
    ensures paragraph { (t : List ℕ) → IsUtf8 t → IsTrue (is_safe Keep (paragraph t)) }
{}

/// The plain text of a cell is what the characters of the plain text become, one by one.
pub fn cell_is_by_character()
    ensures { (t : List ℕ) → IsUtf8 t →
        plain (cell t) ≡ encode_utf8_all (flat_map cell_char (chars (plain t))) }
{}

/// The plain text of a paragraph is what its runs become, one by one.
pub fn paragraph_is_by_run()
    ensures { (t : List ℕ) → IsUtf8 t → plain (paragraph t)
        ≡ encode_utf8_all (flat_map (λ p. run_in Paragraph (chars (plain_bytes p))) (pieces_of t)) }
{}

/// What opened the link at a place of a safe text, or at its end, has at most `longest_link` bytes.
pub fn links_are_short()
    ensures at { (links : Links) (t : List ℕ) (i : ℕ) → IsTrue (is_safe links t) →
        length (link_at t i) ≤ longest_link }
    ensures end { (links : Links) (t : List ℕ) → IsTrue (is_safe links t) →
        length (link_of (marks t)) ≤ longest_link }
{}

/// What ends a text has at most `LONGEST_ENDING` bytes.
pub fn endings_are_short()
    ensures sum { LONGEST_ENDING ≡ longest_link_end + longest_close }
    ensures len { (t : List ℕ) → length (ending t) ≤ LONGEST_ENDING }
{}
