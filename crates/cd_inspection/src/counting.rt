//! Counts the blocks of a file and what they hold, and writes nothing.

ghost use Rattle.std.specs.Prelude.{◌≡◌};
ghost use Rattle.cd_inspection.specs.ReadCounting.{counts_with_block};

use crate::inspector::Inspector;
use cd_block::{KeptBlock, Params};
use cd_bytes::Out;
use std::alloc::{AllocError, Global};

/// What is counted in a C-DNS file that is read. A count stands still at 2^64 - 1.
#[derive(Clone, Copy, Debug, PartialEq, Eq)]
pub struct ReadCounts {
    /// Blocks that were read whole, each of whose values is there.
    pub blocks: u64,
    /// Query-response items in them.
    pub items: u64,
    /// Malformed messages in them.
    pub malformed: u64,
    /// Packets that were rebuilt of them.
    pub packets: u64,
    /// Items and malformed messages that do not say enough to rebuild a packet.
    pub bare: u64,
    /// Those of another transport than UDP.
    pub not_udp: u64,
    /// Messages and payloads that are too long for a datagram.
    pub too_long: u64,
}

pub(crate) const NO_READ_COUNTS: ReadCounts = ReadCounts {
    blocks: 0,
    items: 0,
    malformed: 0,
    packets: 0,
    bare: 0,
    not_udp: 0,
    too_long: 0,
};

// The counts with one block more.
pub(crate) fn counts_with(counts: ReadCounts, kept: &KeptBlock) -> ReadCounts
    ensures { result ≡ counts_with_block kept.now counts }
{
    let mut counts = counts;
    counts.blocks = counts.blocks.saturating_add(1);
    counts.items = counts
        .items
        .saturating_add(kept.items.as_slice().len() as u64);
    counts.malformed = counts
        .malformed
        .saturating_add(kept.malformed.as_slice().len() as u64);
    counts
}

/// Counts blocks, and writes nothing.
pub struct BlockCounting;

impl Inspector for BlockCounting {
    ghost use Rattle.cd_inspection.specs.ReadCounting.{counting};

    type Counts = ReadCounts;

    ghost rendering = { counting };

    fn begin(_out: &mut Out) -> Result<(), AllocError> {
        Ok(())
    }

    fn no_counts() -> ReadCounts {
        NO_READ_COUNTS
    }

    fn inspect(
        _alloc: Global,
        kept: &KeptBlock,
        _params: &Params,
        counts: ReadCounts,
        _out: &mut Out,
    ) -> Result<ReadCounts, AllocError> {
        Ok(counts_with(counts, kept))
    }
}
