//! The storage and the collection parameters of a file.

use crate::hints::Hints;
use cd_name::List;

/// Storage parameters (RFC 8618 7.3.1.1.1), and of the collection parameters the two timeouts (7.3.1.1.2).
#[derive(Debug, Drop)]
pub struct Params {
    /// Ticks in a second.
    pub ticks: u64,
    /// The most items of a block, of each kind.
    pub max_items: u64,
    pub hints: Hints,
    /// The opcodes that are kept: bit n stands for opcode n.
    pub opcodes: u16,
    /// The types of the records that are kept.
    pub rr_types: List<u16>,
    /// Storage flags, as in `flags::STORAGE_ANONYMIZED`; an absent key is 0.
    pub flags: u64,
    /// The bits that are kept of an address: of a client's of IPv4 and IPv6, and of a server's of IPv4 and IPv6. An absent one
    /// is the full width.
    pub prefixes: [Option<u8>; 4],
    /// The query timeout, in milliseconds.
    pub query_ms: Option<u64>,
    /// The skew timeout, in microseconds.
    pub skew_us: Option<u64>,
}
