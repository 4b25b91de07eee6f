//! Calls on two styles.
ghost use Rattle.ansi_calls.specs.Styles.{IsUnion, IsDifference};

use ansi_calls::styles::{style_difference, style_union};
use ansi_style::numbers::StyleNumbers;

/// What is set in either of two styles.
#[unsafe(no_mangle)]
pub extern "C" fn ansi_str_raw_style_union(
    first: &StyleNumbers,
    second: &StyleNumbers,
) -> StyleNumbers
    ensures { IsUnion first.now second.now result }
{
    style_union(first, second)
}

/// What is set in the first of two styles and isn't set so in the second.
#[unsafe(no_mangle)]
pub extern "C" fn ansi_str_raw_style_difference(
    first: &StyleNumbers,
    second: &StyleNumbers,
) -> StyleNumbers
    ensures { IsDifference first.now second.now result }
{
    style_difference(first, second)
}
