//! The texts of the causes of failures.
ghost use Rattle.std.specs.Prelude.{◌≡◌};
ghost use Rattle.ansi_view_runs.specs.Causes.{text_of_cause};

use std::io::ErrorKind;

/// The text of a kind of error, as std prints it. (std's `ErrorKind`.)
pub fn text_of(cause: ErrorKind) -> &'static str
    ensures { result.now ≡ text_of_cause cause }
{
    match cause {
        ErrorKind::NotFound => "entity not found",
        ErrorKind::PermissionDenied => "permission denied",
        ErrorKind::ConnectionRefused => "connection refused",
        ErrorKind::ConnectionReset => "connection reset",
        ErrorKind::HostUnreachable => "host unreachable",
        ErrorKind::NetworkUnreachable => "network unreachable",
        ErrorKind::ConnectionAborted => "connection aborted",
        ErrorKind::NotConnected => "not connected",
        ErrorKind::AddrInUse => "address in use",
        ErrorKind::AddrNotAvailable => "address not available",
        ErrorKind::NetworkDown => "network down",
        ErrorKind::BrokenPipe => "broken pipe",
        ErrorKind::AlreadyExists => "entity already exists",
        ErrorKind::WouldBlock => "operation would block",
        ErrorKind::NotADirectory => "not a directory",
        ErrorKind::IsADirectory => "is a directory",
        ErrorKind::DirectoryNotEmpty => "directory not empty",
        ErrorKind::ReadOnlyFilesystem => "read-only filesystem or storage medium",
        ErrorKind::FilesystemLoop => "filesystem loop or indirection limit (e.g. symlink loop)",
        ErrorKind::StaleNetworkFileHandle => "stale network file handle",
        ErrorKind::InvalidInput => "invalid input parameter",
        ErrorKind::InvalidData => "invalid data",
        ErrorKind::TimedOut => "timed out",
        ErrorKind::WriteZero => "write zero",
        ErrorKind::StorageFull => "no storage space",
        ErrorKind::NotSeekable => "seek on unseekable file",
        ErrorKind::QuotaExceeded => "quota exceeded",
        ErrorKind::FileTooLarge => "file too large",
        ErrorKind::ResourceBusy => "resource busy",
        ErrorKind::ExecutableFileBusy => "executable file busy",
        ErrorKind::Deadlock => "deadlock",
        ErrorKind::CrossesDevices => "cross-device link or rename",
        ErrorKind::TooManyLinks => "too many links",
        ErrorKind::InvalidFilename => "invalid filename",
        ErrorKind::ArgumentListTooLong => "argument list too long",
        ErrorKind::Interrupted => "operation interrupted",
        ErrorKind::Unsupported => "unsupported",
        ErrorKind::UnexpectedEof => "unexpected end of file",
        ErrorKind::OutOfMemory => "out of memory",
        ErrorKind::InProgress => "in progress",
        ErrorKind::Other => "other error",
        ErrorKind::Uncategorized => "uncategorized error",
    }
}
