//! How a compaction, a check or an inspection ends.

use cd_file::BadFile;
use cd_packet::BadCapture;

/// How a compaction, a check or an inspection ended. At all but `WriteFault` and `NoMemory` the output of a compaction holds
/// a whole file, and that of an inspection a whole capture; these leave a prefix of it.
#[derive(Clone, Copy, Debug, PartialEq, Eq)]
pub enum Ended {
    /// The whole capture is in the file, or the whole file was read.
    Done,
    /// The capture has a refused place; the file is that of the bytes before it.
    BadCapture(BadCapture),
    /// The file that is read has a refused place; the counts, and the capture of an inspection, are those of the blocks before it.
    BadFile(BadFile),
    /// The source failed; the file, the capture or the counts are those of the bytes taken before.
    ReadFault,
    /// The output failed.
    WriteFault,
    /// No memory was found.
    NoMemory,
    /// The input has more than `max_input` bytes; the file, the capture or the counts are those of the first `max_input`.
    TooLong,
}
