//! What an inspection does with each block.

ghost use Rattle.std.specs.Prelude.{◌≡◌, ◌<◌, ◌≤◌, ◌++◌, OnOk, IfOk};

use cd_block::{KeptBlock, Params};
use cd_bytes::Out;
use std::alloc::{AllocError, Global};

/// Writes and counts the blocks of a file, one by one, each with the block parameters that it names. An `Err` of any call
/// says that no memory was found.
pub trait Inspector {
    ghost use Rattle.cd_inspection.specs.Inspecting.{Rendering};

    /// What is counted of blocks.
    type Counts: Copy;

    ghost rendering: { Rendering Self.Counts };

    /// Writes what stands before the first block.
    fn begin(out: &mut Out) -> Result<(), AllocError>
        ensures { OnOk result (out.new ≡ out.old ++ rendering.begins) };

    /// The counts of no block.
    fn no_counts() -> Self::Counts
        ensures { result ≡ rendering.no_counts };

    /// Writes a block, and gives the counts with it. A second has 1 to 1,000,000,000 ticks by these parameters (RFC 8618
    /// 7.3.1.1.1).
    fn inspect(
        alloc: Global,
        kept: &KeptBlock,
        params: &Params,
        counts: Self::Counts,
        out: &mut Out,
    ) -> Result<Self::Counts, AllocError>
        requires least { 0 < params.now.ticks }
        requires most { params.now.ticks ≤ 1000000000 }
        ensures bytes { OnOk result (out.new ≡ out.old ++ rendering.bytes_of params.now kept.now) }
        ensures counts { IfOk result (λ c. c ≡ rendering.counts_with params.now kept.now counts) };
}
