//! What a program reads from and writes to.
ghost use Rattle.std.specs.Prelude.{◌≡◌, ◌≤◌, ◌||◌, Bool, ℕ, List, Option, length, is_err, IfOk};
ghost use Rattle.std.specs.Prelude.{OnOk};
ghost use Rattle.std.specs.Io.KnownBytes.{append_known};
ghost use Rattle.std.specs.declared.io.ErrorKind.{ErrorKind};
ghost use Rattle.ansi_io.specs.Devices.{Reads, count_after, fault_of, was_interrupted};
ghost use Rattle.ansi_io.specs.Devices.{was_failed, was_closed, write_fault_of};

use std::io::ErrorKind;

/// Why a read gave nothing.
#[derive(Clone, Copy, Debug, PartialEq, Eq)]
pub enum ReadFault {
    /// The read may be made again.
    Interrupted,
    /// The device failed.
    Failed,
}

/// The fault for an error of this kind from a reader of std. `ErrorKind::Interrupted` is an
/// interruption, and any other kind is a failure.
impl From<ErrorKind> for ReadFault {
    ghost from_gives = { λ kind fault. fault ≡ fault_of kind };

    fn from(kind: ErrorKind) -> Self {
        match kind {
            ErrorKind::Interrupted => ReadFault::Interrupted,
            _ => ReadFault::Failed,
        }
    }
}

/// Why a write or a flush wasn't done.
#[derive(Clone, Copy, Debug, PartialEq, Eq)]
pub enum WriteFault {
    /// Nobody reads what the device passes on any more.
    Closed,
    /// The device failed.
    Failed,
}

/// The fault for an error of this kind from a writer of std. `ErrorKind::BrokenPipe` is a closed
/// device, and any other kind is a failure.
impl From<ErrorKind> for WriteFault {
    ghost from_gives = { λ kind fault. fault ≡ write_fault_of kind };

    fn from(kind: ErrorKind) -> Self {
        match kind {
            ErrorKind::BrokenPipe => WriteFault::Closed,
            _ => WriteFault::Failed,
        }
    }
}

/// A device that bytes are read from.
pub trait Source {
    /// The bytes that it has left, if it reports them.
    ghost left: { Self → Option (List ℕ) };

    /// How often `read` was called, counted up to `u32::MAX`.
    ghost reads: { Self → ℕ };

    /// Whether a read has been interrupted.
    ghost interrupted: { Self → Bool };

    /// Whether a read has failed.
    ghost failed: { Self → Bool };

    /// The kind of the last error of a read.
    ghost last_error: { Self → ErrorKind };

    /// Copies the next bytes to the start of `room`, and returns their number.
    ///
    /// It returns 0 only at the end, or if `room` is empty. An interrupted read takes no bytes. How
    /// many bytes a failed read takes is unspecified.
    fn read(&mut self, room: &mut [u8]) -> Result<usize, ReadFault>
        ensures within { IfOk result (λ count. count ≤ length room.new) }
        ensures bytes { Reads (left self.old) (left self.new) result room.new }
        ensures reads { reads self.new ≡ count_after (reads self.old) 1 }
        ensures interrupted { interrupted self.new
            ≡ (interrupted self.old || was_interrupted result) }
        ensures failed { failed self.new ≡ (failed self.old || was_failed result) };

    /// The kind of the last error of a read, and `ErrorKind::Other` before any.
    fn cause(&self) -> ErrorKind
        ensures { result ≡ last_error self.now };
}

/// A device that takes bytes, and passes them on.
pub trait Sink {
    /// The bytes that it has taken, if it reports them.
    ghost taken: { Self → Option (List ℕ) };

    /// The bytes that it has passed on, if it reports them.
    ghost flushed: { Self → Option (List ℕ) };

    /// How often `flush` was called, counted up to `u32::MAX`.
    ghost flushes: { Self → ℕ };

    /// Whether a write or a flush has failed.
    ghost failed: { Self → Bool };

    /// Whether a write or a flush has found the device closed.
    ghost closed: { Self → Bool };

    /// The kind of the last error of a write or a flush.
    ghost last_error: { Self → ErrorKind };

    /// Takes all of the bytes. It may pass them on or keep them.
    ///
    /// How many bytes a failed write takes is unspecified.
    fn write(&mut self, bytes: &[u8]) -> Result<(), WriteFault>
        ensures taken { OnOk result (taken self.new ≡ append_known (taken self.old) bytes.now) }
        ensures flushes { flushes self.new ≡ flushes self.old }
        ensures failed { failed self.new ≡ (failed self.old || is_err result) }
        ensures closed { closed self.new ≡ (closed self.old || was_closed result) };

    /// Passes on all that it has taken.
    fn flush(&mut self) -> Result<(), WriteFault>
        ensures taken { OnOk result (taken self.new ≡ taken self.old) }
        ensures flushed { OnOk result (flushed self.new ≡ taken self.new) }
        ensures flushes { flushes self.new ≡ count_after (flushes self.old) 1 }
        ensures failed { failed self.new ≡ (failed self.old || is_err result) }
        ensures closed { closed self.new ≡ (closed self.old || was_closed result) };

    /// The kind of the last error of a write or a flush, and `ErrorKind::Other` before any.
    fn cause(&self) -> ErrorKind
        ensures { result ≡ last_error self.now };
}
