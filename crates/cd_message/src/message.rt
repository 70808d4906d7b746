use cd_name::{Blob, List, Name};
use thiserror::Error;

/// The type of OPT records (RFC 6891 6.1.1).
pub const OPT: u16 = 41;

/// The first rule that a payload breaks, where it is read from left to right.
#[derive(Clone, Copy, Debug, PartialEq, Eq, Error)]
pub enum MsgWhy {
    /// Bytes are missing.
    #[error("bytes are missing")]
    Short,
    /// A length byte of a name is 64 to 191 (RFC 1035 4.1.4).
    #[error("a label has a length byte of 64 to 191")]
    Label,
    /// A pointer of a name leads to the start of its run of labels or past it.
    #[error("a pointer does not lead back")]
    Pointer,
    /// A name has more than 255 bytes (RFC 1035 3.1).
    #[error("a name has more than 255 bytes")]
    LongName,
    /// RDATA is not filled by what its type says that it holds.
    #[error("RDATA does not have the shape of its type")]
    Shape,
    /// An OPT record stands outside the additional section, is a second one, or has an owner other than the root (RFC
    /// 6891 6.1.1, 6.1.2).
    #[error("an OPT record is out of place")]
    Opt,
}

/// Why a payload was not read.
#[derive(Clone, Copy, Debug, PartialEq, Eq, Error)]
pub enum ParseFault {
    #[error("the message is malformed: {0}")]
    Malformed(MsgWhy),
    #[error("out of memory")]
    NoMemory,
}

/// A question (RFC 1035 4.1.2).
#[derive(Debug, Drop)]
pub struct Question {
    pub name: Name,
    pub rtype: u16,
    pub rclass: u16,
}

/// A resource record (RFC 1035 4.1.3), with the TTL in seconds.
#[derive(Debug, Drop)]
pub struct Rr {
    pub owner: Name,
    pub rtype: u16,
    pub rclass: u16,
    pub ttl: u32,
    /// In a valid message at most 65,535 bytes, with the names of a type that holds names uncompressed.
    pub rdata: Blob,
}

/// A message (RFC 1035 4.1). `bits` is the second word of its header: QR, opcode, AA, TC, RD, RA, Z,
/// AD, CD (RFC 4035 3.1.6) and RCODE.
#[derive(Debug, Drop)]
pub struct Message {
    pub id: u16,
    pub bits: u16,
    pub questions: List<Question>,
    pub answers: List<Rr>,
    pub authority: List<Rr>,
    pub additional: List<Rr>,
}

/// A message and the number of bytes of the payload that it takes. No section goes on after them, but a run of labels
/// that a pointer leads to may reach into the bytes after them.
#[derive(Debug, Drop)]
pub struct Parsed {
    pub message: Message,
    pub used: usize,
}
