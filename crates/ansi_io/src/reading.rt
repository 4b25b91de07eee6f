//! Reads the whole input.
ghost use Rattle.std.specs.Prelude.{◌≡◌, ◌≤◌, ◌<◌, ◌+◌, ◌⊎◌, true, length, take, OnOk, IfOk};
ghost use Rattle.std.specs.Prelude.{IfNone, IfSome, IfErr, string_bytes, string_len, vec_len};
ghost use Rattle.std.specs.Io.KnownBytes.{prepend_known, IsAtEnd};
ghost use Rattle.ansi_io.specs.Devices.{count_after};
ghost use Rattle.ansi_io.specs.Reading.{max_bytes, max_reads, IsGivenUp, StopsReading};

use crate::devices::{ReadFault, Source};
use crate::stop::Stop;
use simdutf8::is_utf8;
use std::alloc::Allocator;

/// The most bytes that an input may have, which is 1 MiB.
pub const MAX_BYTES: usize = 1_048_576;

/// The most reads of an input, 2 * (`MAX_BYTES` + 1): for each byte and for the end, one read that
/// is interrupted and one that isn't.
pub const MAX_READS: usize = 2_097_154;

// The most bytes that a read may give.
const ROOM: usize = 65_536;

/// Reads the rest of the input, and returns it if it is UTF-8 of at most `MAX_BYTES` bytes.
///
/// An interrupted read is made again, up to `MAX_READS` reads in all. `Err` is `BadInput` if the
/// input is longer, isn't UTF-8, takes more reads, or fails. It is `OutOfMemory` if memory has run
/// out.
pub fn read_text<A: Allocator, S: Source>(alloc: A, input: &mut S) -> Result<String<A>, Stop>
    ensures all { IfOk result (λ text. IfSome (S.left input.old) (λ bytes.
        string_bytes text ≡ bytes)) }
    ensures short { IfOk result (λ text. string_len text ≤ max_bytes) }
    ensures most_reads { S.reads input.new ≤ S.reads input.old + max_reads }
    ensures unfailed { OnOk result (S.failed input.new ≡ S.failed input.old) }
    ensures stopped { IfErr result (StopsReading (S.left input.old) (S.failed input.new)
        (IsGivenUp (S.interrupted input.new) (S.reads input.old) (S.reads input.new))) }
{
    let bytes = read_bytes(alloc, input)?;
    if !is_utf8(bytes.as_slice()) {
        return Err(Stop::BadInput);
    }
    Ok(unsafe { String::from_utf8_unchecked(bytes) })
}

// Reads the rest of the input, if it isn't too long.
fn read_bytes<A: Allocator, S: Source>(alloc: A, input: &mut S) -> Result<Vec<u8, A>, Stop>
    ensures read { IfOk result (λ read.
        IfSome (S.left input.old) (λ bytes. read.items ≡ bytes)
        × (vec_len read ≤ max_bytes)
        × (S.failed input.new ≡ S.failed input.old)) }
    ensures most_reads { S.reads input.new ≤ S.reads input.old + max_reads }
    ensures stopped { IfErr result (StopsReading (S.left input.old) (S.failed input.new)
        (IsGivenUp (S.interrupted input.new) (S.reads input.old) (S.reads input.new))) }
{
    let mut read = Vec::new(alloc);
    let mut room = [0u8; ROOM];
    for _turn in 0..MAX_READS {
        let Some(count) = read_once(input, &mut room)? else {
            return Ok(read);
        };
        read.extend_from_slice(&room[..count])?;
        if read.len() > MAX_BYTES {
            return Err(Stop::BadInput);
        }
    }
    Err(Stop::BadInput)
}

// Reads once, and returns the number of bytes: 0 if the read is interrupted, and `None` at the end.
fn read_once<S: Source>(input: &mut S, room: &mut [u8]) -> Result<Option<usize>, Stop>
    requires { 0 < length room.old }
    ensures end { IfOk result (λ given. IfNone given (IsAtEnd (S.left input.old))) }
    ensures given { IfOk result (λ given. IfSome given (λ count.
        (count ≤ length room.new)
        × (S.left input.old ≡ prepend_known (take count room.new) (S.left input.new))
        × ((0 < count) ⊎ (S.interrupted input.new ≡ true)))) }
    ensures reads { S.reads input.new ≡ count_after (S.reads input.old) 1 }
    ensures interrupted { S.interrupted input.old ≡ true → S.interrupted input.new ≡ true }
    ensures unfailed { OnOk result (S.failed input.new ≡ S.failed input.old) }
    ensures failed { IfErr result (λ stop. (stop ≡ Stop.BadInput) × (S.failed input.new ≡ true)) }
{
    match input.read(room) {
        Ok(0) => Ok(None),
        Ok(count) => Ok(Some(count)),
        Err(ReadFault::Interrupted) => Ok(Some(0)),
        Err(ReadFault::Failed) => Err(Stop::BadInput),
    }
}
