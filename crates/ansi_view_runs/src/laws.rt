//! Laws of what is written.
//!
//! Each function has its laws as its contract, does nothing and returns nothing. (Own.)
ghost use Rattle.std.specs.Prelude.{◌≡◌, ℕ, List, [], false, All, IsTrue};
ghost use Rattle.std.specs.Str.{IsUtf8};
ghost use Rattle.ansi_safe.specs.Links.{IsClosed};
ghost use Rattle.ansi_safe.specs.Safe.{is_safe};
ghost use Rattle.ansi_cells.specs.OneLine.{is_one_line};
ghost use Rattle.ansi_view_runs.specs.declared.view.View.{View};
ghost use Rattle.ansi_view_runs.specs.Edits.{Change, HasTailBy, HasUtf8Tail, is_expansion};
ghost use Rattle.ansi_view_runs.specs.Edits.{changed, changed_in_turn};
ghost use Rattle.ansi_view_runs.specs.Lines.{Line};
ghost use Rattle.ansi_view_runs.specs.Promise.{IsViewed};
ghost use Rattle.ansi_view_runs.specs.SafeTexts.{IsSafeText};
ghost use Rattle.ansi_view_runs.specs.Views.{Work, shown, view_of};
ghost use Rattle.ansi_view_runs.specs.Words.{view_asked};

/// Whatever the words ask for and whatever bytes come in, what goes out is UTF-8 and safe, each line
/// closed and on one line, and it shows what the words ask for of what the line shows.
pub fn view_keeps_its_promise()
    ensures asked { (words : List (List ℕ)) (input : List ℕ) → All IsUtf8 words →
        IsViewed (view_asked words) input (view_of (view_asked words) input) }
    ensures of_work { (work : Work) (input : List ℕ) → All HasUtf8Tail work.changes →
        All (HasTailBy work.view.policy.links) work.changes →
        IsViewed work input (view_of work input) }
{}

/// What the input becomes is UTF-8 and safe, and no style and no link is open at its end, for all
/// words, and for any edits whose tails are UTF-8. The policy holds too if it allows what the tails
/// show, as it does those that words ask for.
pub fn view_is_safe()
    ensures asked { (words : List (List ℕ)) (input : List ℕ) → All IsUtf8 words →
        IsSafeText (view_of (view_asked words) input) }
    ensures safe { (work : Work) (input : List ℕ) → All HasUtf8Tail work.changes →
        IsSafeText (view_of work input) }
    ensures policy { (work : Work) (input : List ℕ) → All HasUtf8Tail work.changes →
        All (HasTailBy work.view.policy.links) work.changes →
        IsTrue (is_safe work.view.policy.links (view_of work input)) }
{}

/// What any line becomes is safe and leaves nothing open, whatever its bytes are and whatever is open
/// before it. So is each text that edits by columns make of that.
pub fn shown_lines_are_safe()
    ensures safe { (view : View) (opening : List ℕ) (line : Line) → IsUtf8 opening →
        IsTrue (is_safe view.policy.links (shown view opening line)) }
    ensures closed { (view : View) (opening : List ℕ) (line : Line) → IsUtf8 opening →
        IsClosed (shown view opening line) }
    ensures edited { (work : Work) (opening : List ℕ) (line : Line) →
        All HasUtf8Tail work.changes → IsUtf8 opening →
        All IsSafeText (changed_in_turn work.changes (shown work.view opening line)) }
{}

/// Each text that an edit makes of a safe text is safe, whatever its numbers and its tail are. It is
/// on one line, unless the edit expands TABs: that leaves line ends as they are.
pub fn edits_are_safe()
    ensures safe { (change : Change) (t : List ℕ) → HasUtf8Tail change → IsSafeText t →
        All IsSafeText (changed change t) }
    ensures one_line { (change : Change) (t : List ℕ) → HasUtf8Tail change → IsUtf8 t →
        is_expansion change ≡ false → All (λ u. IsTrue (is_one_line u)) (changed change t) }
    ensures in_turn { (changes : List Change) (t : List ℕ) → All HasUtf8Tail changes →
        IsSafeText t → All IsSafeText (changed_in_turn changes t) }
{}
