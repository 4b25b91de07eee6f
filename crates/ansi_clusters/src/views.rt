//! Which characters of a plain text are counted.
ghost use Rattle.std.specs.Prelude.{◌≡◌, ◌⊎◌, ◌∷◌, [], IsTrue, IsFalse, MatchOption};
ghost use Rattle.ansi_clusters.specs.Views.{seen_char};
ghost use Rattle.ansi_clusters.specs.declared.views.View.{View};

use ansi_safe::cells::cell_char;

/// How the characters of a plain text are seen.
#[derive(Clone, Copy)]
pub enum View {
    /// Each as it is.
    Given,
    /// As a terminal shows them, which is as in a cell.
    Shown,
    /// As a terminal shows them, but LF as it is. It ends a line.
    Lined,
}

impl View {
    /// Whether each character is seen as it is.
    #[inline(always)]
    pub(crate) fn is_given(self) -> bool
        ensures given { IsTrue result → self ≡ View.Given }
        ensures other { IsFalse result → (self ≡ View.Shown) ⊎ (self ≡ View.Lined) }
    {
        match self {
            View::Given => true,
            View::Shown => false,
            View::Lined => false,
        }
    }

    /// What is seen of a character.
    #[inline(always)]
    pub fn see(self, c: char) -> Option<char>
        ensures { MatchOption result (seen_char self c ≡ []) (λ seen. seen_char self c ≡ seen ∷ []) }
    {
        if matches!(c, ' '..='~' | '\u{A0}'..='\u{2029}' | '\u{206A}'..) {
            // In each view it is seen as it is.
            return Some(c);
        }
        match self {
            View::Given => Some(c),
            View::Lined if c == '\n' => Some(c),
            View::Shown | View::Lined => cell_char(c),
        }
    }
}
