//! The devices over readers and writers of std that fail. No clause can say what they do then,
//! since std's clauses say nothing of an error.
use super::expect;
use ansi_io::devices::{ReadFault, Sink, Source};
use ansi_io::host::{HostIn, HostOut, SteadyWrite};
use ansi_io::reading::{MAX_BYTES, read_text};
use std::io::{self, Error, ErrorKind, Read, Write};
use std::process::Abort;

// The kinds of the errors that a reader's reads return in turn, and the fault for each. Each kind
// of std is among them.
static FAULTS: [(ErrorKind, ReadFault); 44] = [
    (ErrorKind::Interrupted, ReadFault::Interrupted),
    (ErrorKind::Interrupted, ReadFault::Interrupted),
    (ErrorKind::WouldBlock, ReadFault::Failed),
    (ErrorKind::Interrupted, ReadFault::Interrupted),
    (ErrorKind::NotFound, ReadFault::Failed),
    (ErrorKind::PermissionDenied, ReadFault::Failed),
    (ErrorKind::ConnectionRefused, ReadFault::Failed),
    (ErrorKind::ConnectionReset, ReadFault::Failed),
    (ErrorKind::HostUnreachable, ReadFault::Failed),
    (ErrorKind::NetworkUnreachable, ReadFault::Failed),
    (ErrorKind::ConnectionAborted, ReadFault::Failed),
    (ErrorKind::NotConnected, ReadFault::Failed),
    (ErrorKind::AddrInUse, ReadFault::Failed),
    (ErrorKind::AddrNotAvailable, ReadFault::Failed),
    (ErrorKind::NetworkDown, ReadFault::Failed),
    (ErrorKind::BrokenPipe, ReadFault::Failed),
    (ErrorKind::AlreadyExists, ReadFault::Failed),
    (ErrorKind::NotADirectory, ReadFault::Failed),
    (ErrorKind::IsADirectory, ReadFault::Failed),
    (ErrorKind::DirectoryNotEmpty, ReadFault::Failed),
    (ErrorKind::ReadOnlyFilesystem, ReadFault::Failed),
    (ErrorKind::FilesystemLoop, ReadFault::Failed),
    (ErrorKind::StaleNetworkFileHandle, ReadFault::Failed),
    (ErrorKind::InvalidInput, ReadFault::Failed),
    (ErrorKind::InvalidData, ReadFault::Failed),
    (ErrorKind::TimedOut, ReadFault::Failed),
    (ErrorKind::WriteZero, ReadFault::Failed),
    (ErrorKind::StorageFull, ReadFault::Failed),
    (ErrorKind::NotSeekable, ReadFault::Failed),
    (ErrorKind::QuotaExceeded, ReadFault::Failed),
    (ErrorKind::FileTooLarge, ReadFault::Failed),
    (ErrorKind::ResourceBusy, ReadFault::Failed),
    (ErrorKind::ExecutableFileBusy, ReadFault::Failed),
    (ErrorKind::Deadlock, ReadFault::Failed),
    (ErrorKind::CrossesDevices, ReadFault::Failed),
    (ErrorKind::TooManyLinks, ReadFault::Failed),
    (ErrorKind::InvalidFilename, ReadFault::Failed),
    (ErrorKind::ArgumentListTooLong, ReadFault::Failed),
    (ErrorKind::Unsupported, ReadFault::Failed),
    (ErrorKind::UnexpectedEof, ReadFault::Failed),
    (ErrorKind::OutOfMemory, ReadFault::Failed),
    (ErrorKind::InProgress, ReadFault::Failed),
    (ErrorKind::Other, ReadFault::Failed),
    (ErrorKind::Uncategorized, ReadFault::Failed),
];

// A reader whose reads fail with these kinds, and which is then at its end.
#[derive(Drop)]
struct Failing {
    reads: usize,
}

impl Read for Failing {
    fn read(&mut self, _: &mut [u8]) -> io::Result<usize> {
        let failure = FAULTS.get(self.reads);
        self.reads = self.reads.saturating_add(1);
        match failure {
            Some((kind, _)) => Err(Error::from(*kind)),
            None => Ok(0),
        }
    }
}

fn expect_fault(rt: &impl Abort, device: &mut HostIn<Failing>, row: &(ErrorKind, ReadFault)) {
    let (kind, fault) = *row;
    let read = device.read(&mut [0]);
    expect(rt, read == Err(fault), "the fault of a read", kind);
}

#[test]
fn a_reader_of_std_fails_by_the_kind_of_its_error(rt: HostRuntime) {
    let mut device = HostIn::new(Failing { reads: 0 });
    for row in &FAULTS {
        expect_fault(&rt, &mut device, row);
    }
    let read = device.read(&mut [0]);
    expect(&rt, read == Ok(0), "a read at the end", FAULTS.len());
}

// A reader with `left` bytes. A read gives one, and each comes after a read that is interrupted.
#[derive(Drop)]
struct Slow {
    left: usize,
    is_interrupted: bool,
}

impl Read for Slow {
    fn read(&mut self, room: &mut [u8]) -> io::Result<usize> {
        self.is_interrupted = !self.is_interrupted;
        if self.is_interrupted {
            return Err(Error::from(ErrorKind::Interrupted));
        }
        let Some(first) = room.first_mut() else {
            return Ok(0);
        };
        if self.left == 0 {
            return Ok(0);
        }
        self.left -= 1;
        *first = b'a';
        Ok(1)
    }
}

#[test]
fn a_reader_of_std_is_asked_up_to_the_last_read(rt: HostRuntime) {
    let mut device = HostIn::new(Slow {
        left: MAX_BYTES,
        is_interrupted: false,
    });
    let text = read_text(rt.alloc(), &mut device);
    let is_whole = text.is_ok_and(|text| text.len() == MAX_BYTES);
    expect(&rt, is_whole, "the longest input", "a byte a read");
}

// A writer whose first calls work or fail, as `works` says.
#[derive(Drop)]
struct Told {
    works: [bool; 3],
    calls: usize,
}

impl Told {
    fn end_call(&mut self) -> io::Result<()> {
        let works = self.works.get(self.calls).copied();
        self.calls = self.calls.saturating_add(1);
        if works == Some(false) {
            return Err(Error::from(ErrorKind::StorageFull));
        }
        Ok(())
    }
}

impl Write for Told {
    fn write(&mut self, bytes: &[u8]) -> io::Result<usize> {
        self.end_call()?;
        Ok(bytes.len())
    }

    fn flush(&mut self) -> io::Result<()> {
        self.end_call()
    }
}

impl SteadyWrite for Told {
    ghost use Rattle.std.specs.Prelude.{refl};

    ghost tell_alike = { λ _ _. refl };
}

// Whether a write works, and then two flushes.
static WORKS: [[bool; 3]; 8] = [
    [true, true, true],
    [true, true, false],
    [true, false, true],
    [true, false, false],
    [false, true, true],
    [false, true, false],
    [false, false, true],
    [false, false, false],
];

fn expect_calls(rt: &impl Abort, works: [bool; 3]) {
    let mut writer = Told { works, calls: 0 };
    let mut device = HostOut::new(&mut writer);
    let written = device.write(b"a").is_ok();
    let flushed = device.flush().is_ok();
    let flushed_again = device.flush().is_ok();
    let ended = [written, flushed, flushed_again];
    expect(rt, ended == works, "the calls of the device", works);
    expect(rt, writer.calls == 3, "the calls of the writer", works);
}

#[test]
fn a_writer_of_std_is_asked_once_a_call(rt: HostRuntime) {
    for works in &WORKS {
        expect_calls(&rt, *works);
    }
}

#[test]
fn nothing_is_written_without_a_fault(rt: HostRuntime) {
    let mut device = HostOut::new(Told {
        works: [false; 3],
        calls: 0,
    });
    let written = device.write(b"");
    expect(
        &rt,
        written.is_ok(),
        "a write of no bytes",
        "a writer that fails",
    );
}
