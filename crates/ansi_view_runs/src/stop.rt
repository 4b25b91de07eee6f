//! Why a run ends early.
ghost use Rattle.std.specs.Prelude.{◌≡◌, ◌++◌, OnErr, OnOk, false, true};
ghost use Rattle.std.specs.Io.KnownBytes.{append_known};
ghost use Rattle.ansi_view_runs.specs.declared.stop.Stop.TheVariants.{OutOfMemory};
ghost use Rattle.ansi_view_runs.specs.Stops.{stop_after, status_of, message_of};

use crate::causes::text_of;
use ansi_io::devices::{Sink, WriteFault};
use std::alloc::AllocError;
use std::io::ErrorKind;

/// The text of a run that runs out of memory.
pub(crate) const OUT_OF_MEMORY: &[u8] = b"out of memory\n";

/// Why a run ends before it is done.
#[derive(Clone, Copy, Debug, PartialEq, Eq)]
pub enum Stop {
    /// Nobody reads the output any more. This is no failure.
    Closed,
    /// A read of the input failed.
    ReadFailed,
    /// A write or a flush of the output failed.
    WriteFailed,
    /// Memory has run out.
    OutOfMemory,
}

impl Stop {
    /// The status that a run ends with.
    pub fn status(self) -> u8
        ensures { result ≡ status_of self }
    {
        match self {
            Stop::Closed => 0,
            Stop::ReadFailed => 3,
            Stop::WriteFailed => 4,
            Stop::OutOfMemory => 5,
        }
    }

    /// Reports it on the fault writer, if it is a failure, and returns its status. `read` and
    /// `written` are the causes of a failed read and of a failed write. A fault of the writer is
    /// ignored. Doesn't allocate.
    pub fn tell<V: Sink>(self, read: ErrorKind, written: ErrorKind, faults: &mut V) -> u8
        ensures status { result ≡ status_of self }
        ensures quiet { result ≡ 0 → faults.new ≡ faults.old }
        ensures told { V.failed faults.new ≡ false → V.taken faults.new
            ≡ append_known (V.taken faults.old) (message_of (status_of self) read written) }
        ensures flushes { V.flushes faults.new ≡ V.flushes faults.old }
    {
        if self != Stop::Closed {
            let _ = self.write_text(read, written, faults);
        }
        self.status()
    }

    // Writes its text, which is one line, and none if it is no failure.
    fn write_text<V: Sink>(
        self,
        read: ErrorKind,
        written: ErrorKind,
        faults: &mut V,
    ) -> Result<(), WriteFault>
        ensures told { OnOk result (V.taken faults.new
            ≡ append_known (V.taken faults.old) (message_of (status_of self) read written)) }
        ensures flushes { V.flushes faults.new ≡ V.flushes faults.old }
        ensures failed { OnErr result (V.failed faults.new ≡ true) }
    {
        match self {
            Stop::Closed => Ok(()),
            Stop::ReadFailed => write_message("read failed: ", text_of(read), "\n", faults),
            Stop::WriteFailed => write_message("write failed: ", text_of(written), "\n", faults),
            Stop::OutOfMemory => faults.write(OUT_OF_MEMORY),
        }
    }
}

// Writes a text, after what is in front of it, and then the end of the line.
pub(crate) fn write_message<V: Sink>(
    front: &str,
    text: &str,
    end: &str,
    faults: &mut V,
) -> Result<(), WriteFault>
    ensures told { OnOk result (V.taken faults.new ≡ append_known (V.taken faults.old)
        (front.now ++ text.now ++ end.now)) }
    ensures flushes { V.flushes faults.new ≡ V.flushes faults.old }
    ensures failed { OnErr result (V.failed faults.new ≡ true) }
{
    faults.write(front.as_bytes())?;
    faults.write(text.as_bytes())?;
    faults.write(end.as_bytes())
}

impl From<AllocError> for Stop {
    ghost from_gives = { λ _ stop. stop ≡ OutOfMemory };

    fn from(_: AllocError) -> Self {
        Stop::OutOfMemory
    }
}

impl From<WriteFault> for Stop {
    ghost from_gives = { λ fault stop. stop ≡ stop_after fault };

    fn from(fault: WriteFault) -> Self {
        match fault {
            WriteFault::Closed => Stop::Closed,
            WriteFault::Failed => Stop::WriteFailed,
        }
    }
}
