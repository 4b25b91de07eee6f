//! A caller of the scanner: what follows from its contracts for a full scan.
ghost use Rattle.std.specs.Prelude.{◌*◌, ◌≤◌, length};

use ansi_str::ansitok::Scanner;

/// How often a full scan looks at a byte of the text: at least as often as the text has bytes, and
/// at most four times as often.
pub fn full_scan_reads(text: &str) -> u128
    ensures at_least { length text.now ≤ result }
    ensures at_most { result ≤ 4 * length text.now }
{
    let mut scanner = Scanner::new(text);
    while scanner.next().is_some() {}
    scanner.reads()
}
