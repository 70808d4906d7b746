//! What a block is rebuilt to.

use cd_name::{Blob, List};

/// A packet of IP, with no link header.
#[derive(Debug, Drop)]
pub struct Raw {
    /// Nanoseconds since 1970, below 2^32 seconds.
    pub time: u64,
    pub bytes: Blob,
}

/// The packets of a block, and how much of it has none.
#[derive(Debug, Drop)]
pub struct RebuiltBlock {
    /// In the order of their times; those of one time in the order of their items, the query before the response, and malformed
    /// messages last.
    pub packets: List<Raw>,
    /// Items and malformed messages of which too little is kept.
    pub bare: u64,
    /// Those of another transport than UDP.
    pub not_udp: u64,
    /// Messages that fit no packet.
    pub too_long: u64,
}
