//! The reader of a text by steps. A run of printable ASCII is looked at once: where it ends, the next
//! sequence begins, or a byte that has to be looked at by itself.
ghost use Rattle.std.specs.Prelude.{◌≡◌, ◌≤◌, length};
ghost use Rattle.std.specs.List.{prefix_len};
ghost use Rattle.ansi_items.specs.Counts.{before_escape};
ghost use Rattle.ansi_safe.specs.Safe.{is_printable_byte};

use ansi_items::ansitok::{Item, Kind};
use ansi_items::{ESC, mark_at};
use ansi_safe::printable::printable_len;
use memchr::memchr;
use std::marker::Model;

/// An item of a text, and how many bytes of printable ASCII it begins with.
#[derive(Clone, Copy)]
pub struct Step {
    pub item: Item,
    pub printable: usize,
}

impl Step {
    ghost use Rattle.std.specs.Prelude.{◌≡◌, ◌≤◌, ℕ, List, slice_range};
    ghost use Rattle.std.specs.List.{list_all};
    ghost use Rattle.ansi_safe.specs.Safe.{is_printable_byte};
    ghost use Rattle.ansi_clusters.specs.Steps.{IsStepOf};

    /// Whether each byte of the item is printable ASCII.
    #[inline(always)]
    pub fn is_printable(self) -> bool
        requires { self.item.start ≤ self.item.end }
        ensures { (t : List ℕ) → IsStepOf t self → result
            ≡ list_all is_printable_byte (slice_range t self.item.start self.item.end) }
    {
        self.item.end - self.item.start <= self.printable
    }
}

/// An iterator over the items of a text, in order, like `Scanner`. It doesn't allocate.
#[derive(Drop)]
pub struct Steps<'a> {
    text: &'a str,
    offset: usize,
}

impl<'a> Model for Steps<'a> {
    ghost use Rattle.std.specs.Str.{IsCharBoundary};
    ghost use Rattle.ansi_items.specs.Scans.{Scan};

    ghost Value = { Scan };

    ghost view = { λ s. record { text = s.text.now; offset = s.offset } };

    ghost invariant = { λ s. IsCharBoundary s.text.now s.offset };
}

impl<'a> Steps<'a> {
    /// A reader at the front of the text.
    pub fn new(text: &'a str) -> Self
        ensures { result ≡ record { text = text.entry.now; offset = 0 } }
    {
        Steps { text, offset: 0 }
    }
}

impl<'a> Iterator for Steps<'a> {
    ghost use Rattle.std.specs.Iterator.{item_count};
    ghost use Rattle.ansi_items.specs.Scans.{pieces_left};
    ghost use Rattle.ansi_clusters.specs.Steps.{Reads};

    type Item = Step;

    ghost next_gives = { Reads };

    ghost remaining = { item_count pieces_left };

    /// The next item, or `None` at the end of the text and ever after.
    #[inline(always)]
    fn next(&mut self) -> Option<Step> {
        let bytes = self.text.as_bytes();
        let start = self.offset;
        if start == bytes.len() {
            return None;
        }
        if bytes[start] == ESC {
            let mark = mark_at(self.text, start);
            self.offset = mark.end;
            return Some(Step {
                item: Item {
                    kind: mark.kind,
                    start,
                    end: mark.end,
                },
                printable: 0,
            });
        }
        let rest = &bytes[start..];
        let printable = printable_len(rest);
        self.offset = start + run_len(rest, printable);
        Some(Step {
            item: Item {
                kind: Kind::Text,
                start,
                end: self.offset,
            },
            printable,
        })
    }
}

/// How many bytes are before the first ESC, if the first `printable` are the printable ASCII at the front.
#[inline(always)]
fn run_len(bytes: &[u8], printable: usize) -> usize
    requires inside { printable ≤ length bytes.now }
    requires printable { printable ≡ prefix_len is_printable_byte bytes.now }
    ensures { result ≡ before_escape bytes.now }
{
    let others = &bytes[printable..];
    if others.is_empty() || others[0] == ESC {
        return printable;
    }
    printable + memchr(ESC, others).unwrap_or(others.len())
}
