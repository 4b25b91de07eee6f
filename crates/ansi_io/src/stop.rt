//! Why a run ends early.
ghost use Rattle.std.specs.Prelude.{◌≡◌, ◌||◌, true, false, OnErr, OnOk};
ghost use Rattle.std.specs.Io.KnownBytes.{append_known};
ghost use Rattle.ansi_io.specs.declared.stop.Stop.TheVariants.{OutOfMemory, WriteFailed};
ghost use Rattle.ansi_io.specs.Stops.{status_of, message_of_stop};

use crate::devices::{Sink, WriteFault};
use itoa::Buffer;
use std::alloc::AllocError;

/// Why a run ends before it is done.
#[derive(Clone, Copy, Debug, PartialEq, Eq)]
pub enum Stop {
    /// The line of this number, counted from 1, is refused.
    Refused(usize),
    /// The words ask for nothing that the program does.
    BadWords,
    /// The input is too long, isn't UTF-8, takes too many reads, or fails.
    BadInput,
    /// A write or a flush of the output failed.
    WriteFailed,
    /// Memory has run out.
    OutOfMemory,
}

impl Stop {
    /// The status that a run ends with.
    pub fn status(self) -> u8
        ensures { result ≡ status_of self }
    {
        match self {
            Stop::Refused(_) => 1,
            Stop::BadWords => 2,
            Stop::BadInput => 3,
            Stop::WriteFailed => 4,
            Stop::OutOfMemory => 5,
        }
    }

    /// Reports it on the fault writer, and returns its status. A fault of the writer is ignored.
    /// Doesn't allocate.
    pub fn tell<V: Sink>(self, faults: &mut V) -> u8
        ensures status { result ≡ status_of self }
        ensures told { V.failed faults.new ≡ false →
            V.taken faults.new ≡ append_known (V.taken faults.old) (message_of_stop self) }
        ensures flushes { V.flushes faults.new ≡ V.flushes faults.old }
    {
        let _ = self.write_line(faults);
        self.status()
    }

    // Writes its text, which is one line.
    fn write_line<V: Sink>(self, faults: &mut V) -> Result<(), WriteFault>
        ensures told { OnOk result
            (V.taken faults.new ≡ append_known (V.taken faults.old) (message_of_stop self)) }
        ensures flushes { V.flushes faults.new ≡ V.flushes faults.old }
        ensures failed { OnErr result (V.failed faults.new ≡ true) }
    {
        match self {
            Stop::Refused(line) => {
                faults.write(b"line ")?;
                faults.write(Buffer::new().format(line).as_bytes())?;
                faults.write(b": refused\n")
            }
            Stop::BadWords => faults.write(b"bad words\n"),
            Stop::BadInput => faults.write(b"bad input\n"),
            Stop::WriteFailed => faults.write(b"write failed\n"),
            Stop::OutOfMemory => faults.write(b"out of memory\n"),
        }
    }
}

impl From<AllocError> for Stop {
    ghost from_gives = { λ _ stop. stop ≡ OutOfMemory };

    fn from(_: AllocError) -> Self {
        Stop::OutOfMemory
    }
}

impl From<WriteFault> for Stop {
    ghost from_gives = { λ _ stop. stop ≡ WriteFailed };

    fn from(_: WriteFault) -> Self {
        Stop::WriteFailed
    }
}
