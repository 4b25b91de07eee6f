//! A device for tests: bytes in memory, and a schedule that decides how calls end.
ghost use Rattle.std.specs.Prelude.{◌≡◌, ◌≤◌, ◌+◌, ◌||◌, [], ◌++◌, IfOk, OnOk, Some, length, drop};
ghost use Rattle.std.specs.Prelude.{take, true, is_err, vec_len, Err};
ghost use Rattle.std.specs.Io.KnownBytes.{append_known};
ghost use Rattle.std.specs.declared.io.ErrorKind.{ErrorKind};
ghost use Rattle.ansi_io.specs.Devices.{Reads, count_after, was_interrupted, was_failed};
ghost use Rattle.ansi_io.specs.Devices.{was_closed};
ghost use Rattle.ansi_io.specs.FakeDevices.{fresh_device, next_outcome, bytes_left};
ghost use Rattle.ansi_io.specs.FakeDevices.{count_given};
ghost use Rattle.ansi_io.specs.FakeDevices.{read_comes_to, write_comes_to, flush_comes_to};
ghost use Rattle.ansi_io.specs.FakeDevices.{device_after_read, device_after_write};
ghost use Rattle.ansi_io.specs.FakeDevices.{device_after_flush, fault_after};

use crate::devices::{ReadFault, Sink, Source, WriteFault};
use std::alloc::{AllocError, Global};
use std::collections::VecDeque;
use std::io::ErrorKind;
use std::marker::Model;

/// How a call ends.
#[derive(Clone, Copy, Debug, PartialEq, Eq)]
pub enum Outcome {
    /// The call does what it is asked for.
    Works,
    /// A read is interrupted. A write or a flush fails.
    Interrupted,
    /// The call fails.
    Failed,
    /// A read fails. A write or a flush finds the device closed.
    Closed,
}

/// A device for tests: bytes in memory. Reads start at the first byte, and writes append.
///
/// Each call, of any kind, takes the first outcome off the schedule and ends with it. After the
/// schedule's end every call works. A device allocates its room when it is made. A write doesn't
/// allocate, and fails if the room is too small.
///
/// ```
/// let schedule = vec![in alloc; Outcome::Failed; 1]?;
/// let mut device = FakeDevice::with_room(alloc, 3)?.with_schedule(schedule);
/// assert!(device.write(b"abc").is_err());
/// assert!(device.write(b"abc").is_ok());
/// assert!(device.write(b"d").is_err());
/// ```
#[derive(Drop)]
pub struct FakeDevice {
    bytes: Vec<u8>,
    read: usize,
    flushed: usize,
    reads: u32,
    flushes: u32,
    room: usize,
    chunk: usize,
    schedule: VecDeque<Outcome>,
    interrupted: bool,
    failed: bool,
    closed: bool,
}

impl Model for FakeDevice {
    ghost use Rattle.std.specs.Prelude.{vec_len, vec_capacity};
    ghost use Rattle.ansi_io.specs.FakeDeviceStates.{FakeDeviceState, IsWithinRoom};

    ghost Value = { FakeDeviceState };

    ghost view = { λ device. record {
      bytes = device.bytes.items;
      read = device.read;
      flushed = device.flushed;
      reads = device.reads;
      flushes = device.flushes;
      room = device.room;
      chunk = device.chunk;
      schedule = device.schedule.items;
      interrupted = device.interrupted;
      failed = device.failed;
      closed = device.closed;
    } };

    ghost invariant = { λ device.
        IsWithinRoom device.read (vec_len device.bytes) device.room (vec_capacity device.bytes) };
}

impl FakeDevice {
    /// A device with bytes to read and no room for more. Doesn't allocate.
    pub fn of(alloc: Global, bytes: Vec<u8>) -> Self
        ensures { result ≡ fresh_device bytes.items (vec_len bytes) }
    {
        let room = bytes.len();
        FakeDevice {
            bytes,
            read: 0,
            flushed: 0,
            reads: 0,
            flushes: 0,
            room,
            chunk: room,
            schedule: VecDeque::new(alloc),
            interrupted: false,
            failed: false,
            closed: false,
        }
    }

    /// An empty device with room for `room` bytes. `Err` means that memory has run out.
    pub fn with_room(alloc: Global, room: usize) -> Result<Self, AllocError>
        ensures { IfOk result (λ device. device ≡ fresh_device [] room) }
    {
        Ok(FakeDevice {
            bytes: Vec::with_capacity(alloc, room)?,
            read: 0,
            flushed: 0,
            reads: 0,
            flushes: 0,
            room,
            chunk: room,
            schedule: VecDeque::new(alloc),
            interrupted: false,
            failed: false,
            closed: false,
        })
    }

    /// The device with a schedule: the outcomes of its next calls.
    pub fn with_schedule(mut self, schedule: Vec<Outcome>) -> Self
        ensures { result ≡ record self { schedule = schedule.items } }
    {
        self.schedule = VecDeque::from_vec(schedule);
        self
    }

    /// The device with a limit: a read gives at most `chunk` bytes, or one if `chunk` is 0.
    pub fn in_chunks(mut self, chunk: usize) -> Self
        ensures { result ≡ record self { chunk = chunk } }
    {
        self.chunk = chunk;
        self
    }

    /// All its bytes, including those already read.
    pub fn bytes(&self) -> &[u8]
        ensures { result.now ≡ self.now.bytes }
    {
        self.bytes.as_slice()
    }

    /// How many of its bytes a flush has passed on.
    pub fn flushed(&self) -> usize
        ensures { result ≡ self.now.flushed }
    {
        self.flushed
    }

    /// How many outcomes are left on the schedule.
    pub fn outcomes_left(&self) -> usize
        ensures { result ≡ length self.now.schedule }
    {
        self.schedule.len()
    }

    // Takes the next outcome off the schedule.
    fn take_outcome(&mut self) -> Outcome
        ensures outcome { result ≡ next_outcome self.old }
        ensures device { self.new ≡ record self.old { schedule = drop 1 self.old.schedule } }
    {
        self.schedule.pop_front().unwrap_or(Outcome::Works)
    }

    // Counts a read, and takes its outcome off the schedule.
    fn start_read(&mut self) -> Outcome
        ensures outcome { result ≡ next_outcome self.old }
        ensures device { self.new ≡ record self.old {
          reads = count_after self.old.reads 1;
          schedule = drop 1 self.old.schedule;
        } }
    {
        self.reads = self.reads.saturating_add(1);
        self.take_outcome()
    }

    // The fault of a write or a flush that ends with this outcome.
    fn fail(&mut self, outcome: Outcome) -> WriteFault
        ensures fault { result ≡ fault_after outcome }
        ensures device { self.new ≡ record self.old {
          failed = true;
          closed = self.old.closed || was_closed (Err result);
        } }
    {
        self.failed = true;
        if outcome == Outcome::Closed {
            self.closed = true;
            return WriteFault::Closed;
        }
        WriteFault::Failed
    }

    // Copies the next bytes to the start of `room`, and returns their number.
    fn give(&mut self, room: &mut [u8]) -> usize
        ensures count { result ≡ count_given self.old (length room.old) }
        ensures bytes { room.new ≡ take result (bytes_left self.old) ++ drop result room.old }
        ensures device { self.new ≡ record self.old { read = self.old.read + result } }
    {
        let rest = &self.bytes[self.read..];
        let count = rest.len().min(room.len()).min(self.chunk.max(1));
        room[..count].copy_from_slice(&rest[..count]);
        self.read += count;
        count
    }
}

impl Source for FakeDevice {
    ghost use Rattle.ansi_io.specs.FakeDevices.{bytes_left};

    ghost left = { λ device. Some (bytes_left device) };

    ghost reads = { λ device. device.reads };

    ghost interrupted = { λ device. device.interrupted };

    ghost failed = { λ device. device.failed };

    ghost last_error = { λ _. ErrorKind.Other };

    fn read(&mut self, room: &mut [u8]) -> Result<usize, ReadFault>
        ensures within { IfOk result (λ count. count ≤ length room.new) }
        ensures bytes { Reads (Some (bytes_left self.old)) (Some (bytes_left self.new)) result
            room.new }
        ensures reads { self.new.reads ≡ count_after self.old.reads 1 }
        ensures interrupted { self.new.interrupted
            ≡ (self.old.interrupted || was_interrupted result) }
        ensures failed { self.new.failed ≡ (self.old.failed || was_failed result) }
        ensures outcome { result
            ≡ read_comes_to (next_outcome self.old) (count_given self.old (length room.old)) }
        ensures device { self.new ≡ device_after_read self.old result }
    {
        match self.start_read() {
            Outcome::Works => Ok(self.give(room)),
            Outcome::Interrupted => {
                self.interrupted = true;
                Err(ReadFault::Interrupted)
            }
            Outcome::Failed | Outcome::Closed => {
                self.failed = true;
                Err(ReadFault::Failed)
            }
        }
    }

    fn cause(&self) -> ErrorKind
        ensures { result ≡ ErrorKind.Other }
    {
        ErrorKind::Other
    }
}

impl Sink for FakeDevice {
    ghost use Rattle.std.specs.Prelude.{take};

    ghost taken = { λ device. Some device.bytes };

    ghost flushed = { λ device. Some (take device.flushed device.bytes) };

    ghost flushes = { λ device. device.flushes };

    ghost failed = { λ device. device.failed };

    ghost closed = { λ device. device.closed };

    ghost last_error = { λ _. ErrorKind.Other };

    fn write(&mut self, bytes: &[u8]) -> Result<(), WriteFault>
        ensures taken { OnOk result
            (Some self.new.bytes ≡ append_known (Some self.old.bytes) bytes.now) }
        ensures flushes { self.new.flushes ≡ self.old.flushes }
        ensures failed { self.new.failed ≡ (self.old.failed || is_err result) }
        ensures closed { self.new.closed ≡ (self.old.closed || was_closed result) }
        ensures outcome { result ≡ write_comes_to (next_outcome self.old) (length self.old.bytes
            + length bytes.now) self.old.room }
        ensures device { self.new ≡ device_after_write self.old bytes.now result }
    {
        let outcome = self.take_outcome();
        let has_room = bytes.len() <= self.room - self.bytes.len();
        if outcome == Outcome::Works && has_room && self.bytes.extend_from_slice(bytes).is_ok() {
            return Ok(());
        }
        Err(self.fail(outcome))
    }

    fn flush(&mut self) -> Result<(), WriteFault>
        ensures taken { OnOk result (Some self.new.bytes ≡ Some self.old.bytes) }
        ensures flushed { OnOk result
            (Some (take self.new.flushed self.new.bytes) ≡ Some self.new.bytes) }
        ensures flushes { self.new.flushes ≡ count_after self.old.flushes 1 }
        ensures failed { self.new.failed ≡ (self.old.failed || is_err result) }
        ensures closed { self.new.closed ≡ (self.old.closed || was_closed result) }
        ensures outcome { result ≡ flush_comes_to (next_outcome self.old) }
        ensures device { self.new ≡ device_after_flush self.old result }
    {
        self.flushes = self.flushes.saturating_add(1);
        let outcome = self.take_outcome();
        if outcome == Outcome::Works {
            self.flushed = self.bytes.len();
            return Ok(());
        }
        Err(self.fail(outcome))
    }

    fn cause(&self) -> ErrorKind
        ensures { result ≡ ErrorKind.Other }
    {
        ErrorKind::Other
    }
}
