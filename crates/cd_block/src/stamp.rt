//! The earliest time of a block.

/// A time since 1970, as a block's earliest time is stored (RFC 8618 7.3.2.1).
#[derive(Clone, Copy, Debug, PartialEq, Eq)]
pub struct Stamp {
    pub seconds: u64,
    /// Ticks within the second, of which the storage parameters say how many a second has.
    pub ticks: u64,
}
