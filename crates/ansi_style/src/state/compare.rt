//! The order and the hash of styles. Both are those of their renditions, part by part.
ghost use Rattle.std.specs.Ordering.{on};
ghost use Rattle.std.specs.Cmp.{on_total, on_equiv, on_per, on_po};
ghost use Rattle.ansi_style.specs.States.{rendition_of};
ghost use Rattle.ansi_style.specs.contracts.state.rendition.RenditionPartialEq.TheImpl.Laws.{laws-law as per};
ghost use Rattle.ansi_style.specs.contracts.state.rendition.RenditionEq.TheImpl.Laws.{laws-law as equivalence};
ghost use Rattle.ansi_style.specs.contracts.state.rendition.RenditionPartialOrd.TheImpl.Laws.{laws-law as order};
ghost use Rattle.ansi_style.specs.contracts.state.rendition.RenditionOrd.TheImpl.Laws.{total-law};
ghost use Rattle.ansi_style.specs.contracts.state.rendition.RenditionOrd.TheImpl.Laws.{matches_partial_cmp-law};
ghost use Rattle.ansi_style.specs.contracts.state.rendition.RenditionOrd.TheImpl.Laws.{matches_eq-law};
ghost use Rattle.ansi_style.specs.contracts.state.rendition.RenditionHash.TheImpl.Laws.{respects_eq-law};

use crate::state::{Rendition, Style};
use std::cmp::Ordering;
use std::hash::{Hash, Hasher};

impl PartialEq for Style {
    ghost eq = { on rendition_of ⟦<Rendition as PartialEq>⟧.eq };

    ghost laws = { on_per rendition_of per };

    fn eq(&self, other: &Style) -> bool {
        self.rendition() == other.rendition()
    }
}

impl Eq for Style {
    ghost laws = { on_equiv rendition_of equivalence };
}

impl PartialOrd for Style {
    ghost partial_cmp = { on rendition_of ⟦<Rendition as PartialOrd>⟧.partial_cmp };

    ghost laws = { on_po rendition_of order };

    fn partial_cmp(&self, other: &Style) -> Option<Ordering> {
        self.rendition().partial_cmp(&other.rendition())
    }
}

impl Ord for Style {
    ghost cmp = { on rendition_of ⟦<Rendition as Ord>⟧.cmp };

    ghost total = { on_total rendition_of total-law };

    ghost matches_partial_cmp = { λ x y.
        matches_partial_cmp-law (rendition_of x) (rendition_of y) };

    ghost matches_eq = { λ x y. matches_eq-law (rendition_of x) (rendition_of y) };

    fn cmp(&self, other: &Style) -> Ordering {
        self.rendition().cmp(&other.rendition())
    }
}

impl Hash for Style {
    ghost hash_input = { λ s. ⟦<Rendition as Hash>⟧.hash_input (rendition_of s) };

    ghost respects_eq = { λ x y. respects_eq-law (rendition_of x) (rendition_of y) };

    fn hash<H: Hasher>(&self, state: &mut H) {
        self.rendition().hash(state);
    }
}
