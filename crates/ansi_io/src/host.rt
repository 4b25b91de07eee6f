//! Devices over std's readers and writers. A sink reports the bytes that its writer reports. A
//! source reports none.
ghost use Rattle.std.specs.Prelude.{◌≡◌, ◌≤◌, ◌||◌, None, length, is_err, is_some, refl, IfOk};
ghost use Rattle.std.specs.Prelude.{OnErr, OnOk};
ghost use Rattle.std.specs.Io.KnownBytes.{append_known, Appends, Keeps, ReadConsumes};
ghost use Rattle.std.specs.declared.io.ErrorKind.{ErrorKind};
ghost use Rattle.ansi_io.specs.Devices.{Reads, cause_after, count_after, read_result, was_interrupted};
ghost use Rattle.ansi_io.specs.Devices.{was_failed, was_closed, write_result};
ghost use Rattle.ansi_io.specs.Hosts.{reader_of, writer_of, flushed_by, IsFreshSource};
ghost use Rattle.ansi_io.specs.Hosts.{IsFreshSink};
ghost use Rattle.ansi_io.specs.Writers.{buffered_tell_alike};

use crate::devices::{ReadFault, Sink, Source, WriteFault};
use std::alloc::Allocator;
use std::io::{self, BufWriter, ErrorKind, Read, Stderr, Stdout, Write};

/// A source over a reader of std.
#[derive(Drop)]
pub struct HostIn<R> {
    reader: R,
    reads: u32,
    interrupted: bool,
    failed: bool,
    cause: ErrorKind,
}

impl<R: Read> HostIn<R> {
    /// A source over this reader. Doesn't allocate.
    pub fn new(reader: R) -> Self
        ensures { IsFreshSource reader result }
    {
        HostIn {
            reader,
            reads: 0,
            interrupted: false,
            failed: false,
            cause: ErrorKind::Other,
        }
    }

    // The result of a read, from the reader's. It keeps whether the read was interrupted or failed,
    // and the kind of its error.
    fn report(&mut self, read: io::Result<usize>) -> Result<usize, ReadFault>
        ensures result { result ≡ read_result read }
        ensures device { self.new ≡ record self.old {
          interrupted = self.old.interrupted || was_interrupted result;
          failed = self.old.failed || was_failed result;
          cause = cause_after self.old.cause read;
        } }
    {
        self.cause = match read {
            Ok(count) => return Ok(count),
            Err(error) => error.kind(),
        };
        let fault = ReadFault::from(self.cause);
        self.interrupted |= fault == ReadFault::Interrupted;
        self.failed |= fault == ReadFault::Failed;
        Err(fault)
    }
}

impl<R: Read> Source for HostIn<R> {
    ghost left = { λ _. None };

    ghost reads = { λ device. device.reads };

    ghost interrupted = { λ device. device.interrupted };

    ghost failed = { λ device. device.failed };

    ghost last_error = { λ device. device.cause };

    // The last clause is about the reader's bytes, since the device doesn't report them.
    fn read(&mut self, room: &mut [u8]) -> Result<usize, ReadFault>
        ensures within { IfOk result (λ count. count ≤ length room.new) }
        ensures bytes { Reads None None result room.new }
        ensures reads { self.new.reads ≡ count_after self.old.reads 1 }
        ensures interrupted { self.new.interrupted
            ≡ (self.old.interrupted || was_interrupted result) }
        ensures failed { self.new.failed ≡ (self.old.failed || was_failed result) }
        ensures reader { ReadConsumes (R.remaining (reader_of self.old))
            (R.remaining (reader_of self.new)) result room.new }
    {
        self.reads = self.reads.saturating_add(1);
        let read = self.reader.read(room);
        self.report(read)
    }

    fn cause(&self) -> ErrorKind
        ensures { result ≡ self.now.cause }
    {
        self.cause
    }
}

/// A writer of std that reports its bytes either always or never. So a sink over it can report
/// them.
pub trait SteadyWrite: Write {
    /// If one writer of this type reports its bytes, each does.
    ghost tell_alike: { (one other : Self) →
        is_some (Self.contents one) ≡ is_some (Self.contents other) };
}

impl SteadyWrite for Stdout {
    ghost tell_alike = { λ _ _. refl };
}

impl SteadyWrite for Stderr {
    ghost tell_alike = { λ _ _. refl };
}

impl<A: Allocator> SteadyWrite for Vec<u8, A> {
    ghost tell_alike = { λ _ _. refl };
}

impl<W: SteadyWrite> SteadyWrite for &mut W {
    ghost tell_alike = { λ one other. W.tell_alike one.now other.now };
}

impl<W: SteadyWrite + Drop, A: Allocator> SteadyWrite for BufWriter<W, A> {
    ghost tell_alike = { λ one other. buffered_tell_alike W.contents W.tell_alike one other };
}

/// A sink over a writer of std.
#[derive(Drop)]
pub struct HostOut<W> {
    writer: W,
    flushes: u32,
    // Whether the writer has passed on all that it has taken.
    flushed: bool,
    failed: bool,
    closed: bool,
    cause: ErrorKind,
}

impl<W: Write> HostOut<W> {
    /// A sink over this writer. Doesn't allocate.
    pub fn new(writer: W) -> Self
        ensures { IsFreshSink writer result }
    {
        HostOut {
            writer,
            flushes: 0,
            flushed: false,
            failed: false,
            closed: false,
            cause: ErrorKind::Other,
        }
    }

    // The result of a write or a flush, from the writer's. It keeps whether the call failed,
    // whether it found the writer closed, and the kind of its error.
    fn report(&mut self, done: io::Result<()>) -> Result<(), WriteFault>
        ensures result { result ≡ write_result done }
        ensures device { self.new ≡ record self.old {
          failed = self.old.failed || is_err result;
          closed = self.old.closed || was_closed result;
          cause = cause_after self.old.cause done;
        } }
    {
        self.cause = match done {
            Ok(()) => return Ok(()),
            Err(error) => error.kind(),
        };
        let fault = WriteFault::from(self.cause);
        self.failed = true;
        self.closed |= fault == WriteFault::Closed;
        Err(fault)
    }
}

// The clauses `writer` say, in std's words, what the writer did. The clauses `untold` say when a
// sink doesn't report what it has passed on.
impl<W: SteadyWrite> Sink for HostOut<W> {
    ghost taken = { λ device. W.contents (writer_of device) };

    ghost flushed = { λ device. flushed_by W.contents device };

    ghost flushes = { λ device. device.flushes };

    ghost failed = { λ device. device.failed };

    ghost closed = { λ device. device.closed };

    ghost last_error = { λ device. device.cause };

    fn write(&mut self, bytes: &[u8]) -> Result<(), WriteFault>
        ensures taken { OnOk result (W.contents (writer_of self.new)
            ≡ append_known (W.contents (writer_of self.old)) bytes.now) }
        ensures flushes { self.new.flushes ≡ self.old.flushes }
        ensures failed { self.new.failed ≡ (self.old.failed || is_err result) }
        ensures closed { self.new.closed ≡ (self.old.closed || was_closed result) }
        ensures untold { flushed_by W.contents self.new ≡ None }
        ensures writer { OnOk result (Appends (W.contents (writer_of self.old))
            (W.contents (writer_of self.new)) bytes.now) }
    {
        self.flushed = false;
        let written = self.writer.write_all(bytes);
        self.report(written)
    }

    fn flush(&mut self) -> Result<(), WriteFault>
        ensures taken { OnOk result
            (W.contents (writer_of self.new) ≡ W.contents (writer_of self.old)) }
        ensures flushed { OnOk result
            (flushed_by W.contents self.new ≡ W.contents (writer_of self.new)) }
        ensures flushes { self.new.flushes ≡ count_after self.old.flushes 1 }
        ensures failed { self.new.failed ≡ (self.old.failed || is_err result) }
        ensures closed { self.new.closed ≡ (self.old.closed || was_closed result) }
        ensures untold { OnErr result (flushed_by W.contents self.new ≡ None) }
        ensures writer { Keeps (W.contents (writer_of self.old)) (W.contents (writer_of self.new)) }
    {
        self.flushes = self.flushes.saturating_add(1);
        let flushed = self.writer.flush();
        self.flushed = flushed.is_ok();
        self.report(flushed)
    }

    fn cause(&self) -> ErrorKind
        ensures { result ≡ self.now.cause }
    {
        self.cause
    }
}
