//! A sink for messages, which writes the program's name before the first.
ghost use Rattle.std.specs.Prelude.{◌≡◌, ◌||◌, None, is_err};
ghost use Rattle.ansi_io.specs.Devices.{count_after, was_closed};

use ansi_io::devices::{Sink, WriteFault};
use std::io::ErrorKind;

const NAME: &[u8] = b"ansi_view: ";

/// A sink that passes on what it takes, after the program's name. A run writes at most one message.
/// It doesn't report its bytes.
#[derive(Drop)]
pub struct Named<V> {
    sink: V,
    named: bool,
}

impl<V: Sink> Named<V> {
    /// A sink over this one.
    pub fn new(sink: V) -> Self {
        Named { sink, named: false }
    }

    // Writes the name, if nothing is written yet.
    fn write_name(&mut self) -> Result<(), WriteFault>
        ensures flushes { V.flushes self.new.sink ≡ V.flushes self.old.sink }
        ensures failed { V.failed self.new.sink ≡ (V.failed self.old.sink || is_err result) }
        ensures closed { V.closed self.new.sink ≡ (V.closed self.old.sink || was_closed result) }
    {
        if self.named {
            return Ok(());
        }
        self.named = true;
        self.sink.write(NAME)
    }
}

impl<V: Sink> Sink for Named<V> {
    ghost taken = { λ _. None };

    ghost flushed = { λ _. None };

    ghost flushes = { λ device. V.flushes device.sink };

    ghost failed = { λ device. V.failed device.sink };

    ghost closed = { λ device. V.closed device.sink };

    ghost last_error = { λ device. V.last_error device.sink };

    fn write(&mut self, bytes: &[u8]) -> Result<(), WriteFault> {
        self.write_name()?;
        self.sink.write(bytes)
    }

    fn flush(&mut self) -> Result<(), WriteFault> {
        self.sink.flush()
    }

    fn cause(&self) -> ErrorKind {
        self.sink.cause()
    }
}
