//! Where a long pattern is cut before it is searched for. (Crochemore and Perrin, Two-way
//! string-matching, 1991.)
ghost use Rattle.std.specs.Prelude.{◌≢◌, ◌<◌, length, slice_index, IsTrue, IsFalse};
ghost use Rattle.memchr.specs.Critical.{IsSuffixAt, IsCutPlace};
ghost use Rattle.ansi_search.specs.Searches.{IsCut, Precedes};

/// A place at which a pattern is cut: what the pattern repeats there is a period of the whole.
///
/// A number `n` is a period if each byte is the same as the byte `n` places further on.
#[derive(Clone, Copy)]
pub(super) struct CriticalCut {
    pub(super) at: usize,
    /// No period is smaller.
    pub(super) shift: usize,
    /// Whether `shift` is a period. Then it is greater than `at`.
    pub(super) repeats: bool,
}

/// The greatest suffix of a pattern by an order: where it begins, and its least period.
#[derive(Clone, Copy)]
struct Suffix {
    start: usize,
    period: usize,
}

/// The cut of a pattern that isn't empty: at the later of two suffixes, the greatest by the order
/// of bytes and the greatest by the opposite order.
pub(super) fn critical_cut(bytes: &[u8]) -> CriticalCut
    requires { 0 < length bytes.now }
    ensures { IsCut bytes.now result }
{
    let rising = greatest_suffix(bytes, true);
    let falling = greatest_suffix(bytes, false);
    if rising.start < falling.start {
        cut_at(bytes, falling)
    } else {
        cut_at(bytes, rising)
    }
}

/// The cut at the start of a suffix.
fn cut_at(bytes: &[u8], suffix: Suffix) -> CriticalCut
    requires { IsCutPlace (slice_index bytes.now) (length bytes.now) suffix.start suffix.period }
    ensures { IsCut bytes.now result }
{
    let at = suffix.start;
    let rest = bytes.len() - at;
    if at < rest && bytes[suffix.period..].starts_with(&bytes[..at]) {
        return CriticalCut {
            at,
            shift: suffix.period,
            repeats: true,
        };
    }
    CriticalCut {
        at,
        shift: at.max(rest),
        repeats: false,
    }
}

/// The greatest suffix by the order of bytes, or by the opposite one. A suffix is less than one
/// that begins with it.
fn greatest_suffix(bytes: &[u8], is_rising: bool) -> Suffix
    requires { 0 < length bytes.now }
    ensures { IsSuffixAt (Precedes is_rising) (slice_index bytes.now) (length bytes.now)
        result.start result.period }
{
    let (mut start, mut period) = (0, 1);
    let (mut candidate, mut offset) = (1, 0);
    while candidate + offset < bytes.len() {
        let current = bytes[start + offset];
        let other = bytes[candidate + offset];
        if current == other {
            if offset + 1 == period {
                candidate += period;
                offset = 0;
            } else {
                offset += 1;
            }
        } else if precedes(current, other, is_rising) {
            start = candidate;
            period = 1;
            candidate += 1;
            offset = 0;
        } else {
            candidate += offset + 1;
            offset = 0;
            period = candidate - start;
        }
    }
    Suffix { start, period }
}

/// Whether the first of two bytes that differ comes before the other.
#[inline(always)]
fn precedes(byte: u8, other: u8, is_rising: bool) -> bool
    requires { byte ≢ other }
    ensures yes { IsTrue result → Precedes is_rising byte other }
    ensures no { IsFalse result → Precedes is_rising other byte }
{
    if is_rising {
        byte < other
    } else {
        other < byte
    }
}
