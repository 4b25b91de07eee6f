//! The calls that rows name.
use crate::columns::ColumnCall;
use crate::ranges::AnyRange;
use crate::restyles::RestyleCall;
use crate::rows::Row;
use crate::safe::SafeCall;
use ansi_str::Edit;

/// The property of the block at an index that a row names.
#[derive(Clone, Copy)]
pub enum BlockCall<'r> {
    Text,
    Start,
    End,
    /// The comparison of its style with that of the first block of another text.
    Order(&'r str),
}

#[derive(Clone, Copy)]
pub enum Call<'r> {
    Strip,
    Trim,
    Prefix(&'r str),
    Suffix(&'r str),
    Get(AnyRange),
    Cut(AnyRange),
    SplitAt(usize),
    /// All parts, or their number.
    Split(&'r str),
    Find(&'r str),
    StartsWith(&'r str),
    EndsWith(&'r str),
    IsCharBoundary(usize),
    FloorCharBoundary(usize),
    HasAny,
    Part(&'r str, usize),
    PartInterval(&'r str, usize),
    Edit(Edit<'r>),
    Edits(&'r [Edit<'r>]),
    /// All blocks, or their number.
    Blocks,
    StyledBlocks,
    Block(usize, BlockCall<'r>),
    Items,
    IsWhole,
    Columns(ColumnCall<'r>),
    Safe(SafeCall),
    Restyles(RestyleCall<'r>),
}

impl<'r> Call<'r> {
    /// Whether the call is a method of `AnsiStr`.
    pub fn is_of_trait(&self) -> bool {
        !matches!(
            self,
            Call::Part(..)
                | Call::PartInterval(..)
                | Call::Edit(_)
                | Call::Edits(_)
                | Call::Blocks
                | Call::StyledBlocks
                | Call::Block(..)
                | Call::Items
                | Call::IsWhole
        )
    }

    /// The call of a row, except `cut` and `edit`.
    pub fn new(row: &Row<'r>) -> Option<Self> {
        Some(match row.call {
            "strip" => Call::Strip,
            "trim" => Call::Trim,
            "strip_prefix" => Call::Prefix(row.argument(0)?),
            "strip_suffix" => Call::Suffix(row.argument(0)?),
            "split_at" => Call::SplitAt(row.number(0)?),
            "split" | "count_parts" => Call::Split(row.argument(0)?),
            "part" => Call::Part(row.argument(0)?, row.number(1)?),
            "left" => Call::Edit(Edit::Left(row.number(0)?)),
            "right" => Call::Edit(Edit::Right(row.number(0)?)),
            _ => Call::of_blocks(row)?,
        })
    }

    fn of_blocks(row: &Row<'r>) -> Option<Self> {
        Some(match row.call {
            "blocks" | "count_blocks" => Call::Blocks,
            "styled_blocks" => Call::StyledBlocks,
            "block" => Call::Block(row.number(0)?, BlockCall::Text),
            "block_start" => Call::Block(row.number(0)?, BlockCall::Start),
            "block_end" => Call::Block(row.number(0)?, BlockCall::End),
            "block_order" => Call::Block(row.number(0)?, BlockCall::Order(row.argument(1)?)),
            _ => Call::that_tells(row)?,
        })
    }

    fn that_tells(row: &Row<'r>) -> Option<Self> {
        Some(match row.call {
            "items" => Call::Items,
            "is_whole" => Call::IsWhole,
            "has_any" => Call::HasAny,
            "find" => Call::Find(row.argument(0)?),
            "part_interval" => Call::PartInterval(row.argument(0)?, row.number(1)?),
            "starts_with" => Call::StartsWith(row.argument(0)?),
            "ends_with" => Call::EndsWith(row.argument(0)?),
            "is_char_boundary" => Call::IsCharBoundary(row.number(0)?),
            "floor_char_boundary" => Call::FloorCharBoundary(row.number(0)?),
            "sanitize" | "is_safe" | "pen_after" => Call::Safe(SafeCall::new(row)?),
            "matches" | "find_from" | "restyle" | "mark" | "remove" | "replace" | "insert" => {
                Call::Restyles(RestyleCall::new(row)?)
            }
            "refused_range" | "replace_all" | "replace_each" | "link" | "unlink" | "links" => {
                Call::Restyles(RestyleCall::new(row)?)
            }
            "style_of" | "union" | "difference" => Call::Restyles(RestyleCall::new(row)?),
            _ => Call::Columns(ColumnCall::new(row)?),
        })
    }
}
