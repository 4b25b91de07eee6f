//! Walks over the lines of a wrapped text that are paused, in memory that isn't Rattle's.
ghost use Rattle.std.specs.Prelude.{◌≡◌};
ghost use Rattle.std.specs.Iterator.{YieldsFirst};
ghost use Rattle.ansi_items.specs.Plain.{plain};
ghost use Rattle.ansi_clusters.specs.Lines.{shown_lines};
ghost use Rattle.ucd_breaks.specs.GraphemeClusterBreak.{grapheme_cluster_break_from_number};
ghost use Rattle.ansi_clusters.specs.LineWalks.{break_state_of_numbers, walk_of, lines_of_walk};
ghost use Rattle.ansi_clusters.specs.LineWalks.{IsLineWalk};

use crate::break_state::BreakState;
use crate::lines::first_line;
use crate::views::View;
use crate::walks::Walk;
use std::str::from_utf8_unchecked;
use ucd_breaks::GraphemeClusterBreak;

/// The state of a walk between two characters, as numbers.
#[repr(C)]
#[derive(Clone, Copy)]
pub(crate) struct BreakNumbers {
    last: u32,
    is_linked: bool,
    is_pictograph: bool,
    is_joined: bool,
    is_half_flag: bool,
}

impl BreakNumbers {
    fn of(state: BreakState) -> BreakNumbers
        ensures { break_state_of_numbers result ≡ state }
    {
        BreakNumbers {
            last: state.last.number(),
            is_linked: state.is_linked,
            is_pictograph: state.is_pictograph,
            is_joined: state.is_joined,
            is_half_flag: state.is_half_flag,
        }
    }

    fn break_state(self) -> BreakState
        ensures { result ≡ break_state_of_numbers self }
    {
        BreakState {
            last: value_of(self.last),
            is_linked: self.is_linked,
            is_pictograph: self.is_pictograph,
            is_joined: self.is_joined,
            is_half_flag: self.is_half_flag,
        }
    }
}

/// The value with a number.
fn value_of(number: u32) -> GraphemeClusterBreak
    ensures { result ≡ grapheme_cluster_break_from_number number }
{
    match number {
        0 => GraphemeClusterBreak::Control,
        1 => GraphemeClusterBreak::Cr,
        2 => GraphemeClusterBreak::Extend,
        3 => GraphemeClusterBreak::L,
        4 => GraphemeClusterBreak::Lf,
        5 => GraphemeClusterBreak::Lv,
        6 => GraphemeClusterBreak::Lvt,
        7 => GraphemeClusterBreak::Prepend,
        8 => GraphemeClusterBreak::RegionalIndicator,
        9 => GraphemeClusterBreak::SpacingMark,
        10 => GraphemeClusterBreak::T,
        11 => GraphemeClusterBreak::V,
        13 => GraphemeClusterBreak::Zwj,
        _ => GraphemeClusterBreak::Other,
    }
}

/// What is left of the lines of a wrapped text, as plain data. In contracts it is the list of the
/// lines left, by `lines_of_walk`. (Own.)
#[repr(C)]
#[derive(Clone, Copy)]
pub struct LineWalk<'a> {
    pub(crate) text: &'a [u8],
    pub(crate) width: usize,
    /// The beginning of the next line, if there is one.
    pub(crate) position: usize,
    pub(crate) offset: usize,
    pub(crate) run_end: usize,
    pub(crate) break_state: BreakNumbers,
    pub(crate) has_next: bool,
}

impl<'a> LineWalk<'a> {
    /// The walk whose next line begins at a place, or that has no line left.
    fn of(text: &'a str, width: usize, next: Option<Walk>) -> LineWalk<'a>
        ensures text { result.text.now ≡ text.now }
        ensures width { result.width ≡ width }
        ensures next { walk_of result ≡ next }
    {
        let has_next = next.is_some();
        let next = next.unwrap_or(Walk {
            position: 0,
            offset: 0,
            run_end: 0,
            break_state: BreakState::start(),
        });
        LineWalk {
            text: text.as_bytes(),
            width,
            position: next.position,
            offset: next.offset,
            run_end: next.run_end,
            break_state: BreakNumbers::of(next.break_state),
            has_next,
        }
    }

    /// The beginning of the next line.
    fn next(&self) -> Option<Walk>
        ensures { result ≡ walk_of self.now }
    {
        if !self.has_next {
            return None;
        }
        Some(Walk {
            position: self.position,
            offset: self.offset,
            run_end: self.run_end,
            break_state: self.break_state.break_state(),
        })
    }
}

/// A walk that has all lines left. (Own.)
pub fn walk_lines(text: &str, width: usize) -> LineWalk<'_>
    ensures walk { IsLineWalk result }
    ensures lines { lines_of_walk result ≡ shown_lines width (plain text.now) }
{
    LineWalk::of(text, width.max(1), Some(Walk::start(text)))
}

/// The next line, as [`Lines`](crate::lines::Lines) returns it. (Own.)
pub fn next_line(walk: &mut LineWalk<'_>) -> Option<(usize, usize)>
    requires { IsLineWalk walk.old }
    ensures walk { IsLineWalk walk.new }
    ensures next { YieldsFirst lines_of_walk walk.old result walk.new }
{
    let text = unsafe { from_utf8_unchecked(walk.text) };
    let from = walk.next()?;
    let (start, end, next) = first_line(text, from, walk.width, View::Lined);
    *walk = LineWalk::of(text, walk.width, next);
    Some((start.position, end.position))
}
