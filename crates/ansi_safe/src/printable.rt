//! The printable ASCII at the front of a text.
ghost use Rattle.std.specs.Prelude.{◌≡◌};
ghost use Rattle.std.specs.List.{prefix_len};
ghost use Rattle.ansi_safe.specs.Safe.{is_printable_byte};

use crate::front::{ByteSet, front_len};

/// How many bytes of printable ASCII are at the front. Doesn't allocate. (Own.)
///
/// ```
/// assert!(rt; printable_len("ab\tc".as_bytes()) == 2);
/// ```
#[inline(always)]
pub fn printable_len(bytes: &[u8]) -> usize
    ensures { result ≡ prefix_len is_printable_byte bytes.now }
{
    front_len(bytes, ByteSet::Printable)
}
