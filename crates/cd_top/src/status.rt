//! How a run ends.

ghost use Rattle.std.specs.Prelude.{◌≡◌, Some};
ghost use Rattle.cd_top.specs.Reports.{status_text};
ghost use Rattle.cd_top.specs.Statuses.{status_of, code_of};

use crate::reason::{CaptureReason, FileReason};
use cd_engine::Ended;
use cd_file::BadFile;
use cd_packet::BadCapture;
use std::fmt;

/// How a run ended. At `Done`, `BadCapture`, `BadFile`, `ReadFault` and `TooLong` the output and the report are whole; at
/// `Usage` nothing is written but the report; at `WriteFault` and `NoMemory` a prefix of what was to be written stands
/// there.
#[derive(Clone, Copy, Debug, PartialEq, Eq)]
pub enum Status {
    /// The input was read to its end.
    Done,
    /// The words are no command line.
    Usage,
    /// The capture has a refused place; what is written is of the bytes before it.
    BadCapture(BadCapture),
    /// The C-DNS file has a refused place; what is written is of the blocks before it.
    BadFile(BadFile),
    /// The source failed; what is written is of the bytes taken before.
    ReadFault,
    /// The output or the report failed.
    WriteFault,
    /// No memory was found.
    NoMemory,
    /// The input has more than `max_input` bytes; what is written is of the first `max_input`.
    TooLong,
}

/// Writes the status in lower case, with a dash between words, and the place and the reason of a refusal.
impl fmt::Display for Status {
    ghost output = { λ status. Some (status_text status) };

    fn fmt<W: fmt::Write>(&self, f: &mut fmt::Formatter<W>) -> fmt::Result {
        match *self {
            Status::Done => f.write_str("done"),
            Status::Usage => f.write_str("usage"),
            Status::BadCapture(BadCapture { at, why }) => {
                write!(f, "bad-capture {at} {}", CaptureReason(why))
            }
            Status::BadFile(BadFile { block, why }) => {
                write!(f, "bad-file {block} {}", FileReason(why))
            }
            Status::ReadFault => f.write_str("read-fault"),
            Status::WriteFault => f.write_str("write-fault"),
            Status::NoMemory => f.write_str("no-memory"),
            Status::TooLong => f.write_str("too-long"),
        }
    }
}

/// The exit status of the program: 0 for `Done`, 1 for `Usage`, 2 for `BadCapture`, 3 for `BadFile`, 4 for `ReadFault`,
/// 5 for `WriteFault`, 6 for `NoMemory` and 7 for `TooLong`.
pub fn exit_code(status: &Status) -> u8
    ensures { result ≡ code_of status.now }
{
    match status {
        Status::Done => 0,
        Status::Usage => 1,
        Status::BadCapture(_) => 2,
        Status::BadFile(_) => 3,
        Status::ReadFault => 4,
        Status::WriteFault => 5,
        Status::NoMemory => 6,
        Status::TooLong => 7,
    }
}

// The status of a run that ended so.
pub(crate) fn status_of(ended: Ended) -> Status
    ensures { result ≡ status_of ended }
{
    match ended {
        Ended::Done => Status::Done,
        Ended::BadCapture(bad) => Status::BadCapture(bad),
        Ended::BadFile(bad) => Status::BadFile(bad),
        Ended::ReadFault => Status::ReadFault,
        Ended::WriteFault => Status::WriteFault,
        Ended::NoMemory => Status::NoMemory,
        Ended::TooLong => Status::TooLong,
    }
}
