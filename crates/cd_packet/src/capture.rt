//! How a capture ends, and what can be wrong with it.

/// What is wrong at a refused place of a capture.
#[derive(Clone, Copy, Debug, PartialEq, Eq)]
pub enum CaptureWhy {
    /// The first four bytes are those of no capture format that is read.
    Magic,
    /// The major version of a pcap capture is not 2.
    Version,
    /// The captured length of a packet is above 262,144 bytes, or does not fit its block.
    Record,
    /// The major version of a pcapng section is not 1.
    Section,
    /// The byte-order word of a pcapng section is in neither order.
    Order,
    /// A pcapng block has a length that no such block can have.
    BlockLength,
    /// A pcapng block does not end with its length.
    TrailerMismatch,
    /// A pcapng interface is not declared, or is one too many.
    Interface,
    /// The time resolution of a pcapng interface is out of range.
    Resolution,
}

/// A refused place of a capture: the offset of the header, record or block, and what is wrong there.
#[derive(Clone, Copy, Debug, PartialEq, Eq)]
pub struct BadCapture {
    /// Bytes from the start of the capture: 0 for its header.
    pub at: u64,
    /// What is wrong there.
    pub why: CaptureWhy,
}

/// How a capture ends.
#[derive(Clone, Copy, Debug, PartialEq, Eq)]
pub enum EndState {
    /// Between two records.
    Whole,
    /// Within the header or a record, which is no fault.
    Cut,
    /// At a refused place, after which nothing is read.
    Bad(BadCapture),
}

/// Why a reader of a capture did not take a chunk.
#[derive(Clone, Copy, Debug, PartialEq, Eq)]
pub enum FeedFault {
    /// The bytes fed so far hold a refused place.
    Bad(BadCapture),
    /// No memory was found, and nothing changed.
    NoMemory,
}
