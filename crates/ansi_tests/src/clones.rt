//! Clones of the library's small values: a clone equals the value, and is never an `Err`.
ghost use Rattle.std.specs.Prelude.{◌≡◌, Ok};

use ansi_str::ansitok::{AnsiColor, Item, Kind};
use ansi_str::{Color, Edit, Style};
use std::alloc::AllocError;

pub fn clone_style(style: &Style) -> Result<Style, AllocError>
    ensures { result ≡ Ok style.now }
{
    style.clone()
}

pub fn clone_color(color: &Color) -> Result<Color, AllocError>
    ensures { result ≡ Ok color.now }
{
    color.clone()
}

pub fn clone_written_color(color: &AnsiColor) -> Result<AnsiColor, AllocError>
    ensures { result ≡ Ok color.now }
{
    color.clone()
}

pub fn clone_kind(kind: &Kind) -> Result<Kind, AllocError>
    ensures { result ≡ Ok kind.now }
{
    kind.clone()
}

pub fn clone_item(item: &Item) -> Result<Item, AllocError>
    ensures { result ≡ Ok item.now }
{
    item.clone()
}

pub fn clone_edit<'p>(edit: &Edit<'p>) -> Result<Edit<'p>, AllocError>
    ensures { result ≡ Ok edit.now }
{
    edit.clone()
}
