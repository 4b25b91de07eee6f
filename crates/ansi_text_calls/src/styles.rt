//! Calls on two styles, as numbers.
ghost use Rattle.ansi_text_calls.specs.Styles.{IsUnion, IsDifference};

use ansi_style::numbers::StyleNumbers;
use ansi_style::styles;

/// What is set in either of two styles. A color or a font of `second` is taken before that of
/// `first`. Doesn't allocate.
pub fn style_union(first: &StyleNumbers, second: &StyleNumbers) -> StyleNumbers
    ensures { IsUnion first.now second.now result }
{
    StyleNumbers::of(&styles::union(&first.style(), &second.style()))
}

/// What is set in `first` and isn't set so in `second`. Doesn't allocate.
pub fn style_difference(first: &StyleNumbers, second: &StyleNumbers) -> StyleNumbers
    ensures { IsDifference first.now second.now result }
{
    StyleNumbers::of(&styles::difference(&first.style(), &second.style()))
}
