//! What an inspection that counts, and one that rebuilds, make of bytes. A law is the contract of a function that does nothing.

ghost use Rattle.cd_inspection.specs.ReadCounting.{CountsAreOfBlocks};
ghost use Rattle.cd_inspection.specs.Rebuilding.{CapturesAreRebuilt, RebuiltCountsAreTold};

/// The counts of a file of fewer than 2^64 bytes are how many blocks it holds up to the first refusal, and how many items and
/// malformed messages they have; nothing else is counted.
pub fn counts_are_those_of_the_blocks()
    ensures { CountsAreOfBlocks }
{}

/// What is written of a file is a capture of the packets of its blocks up to the first refusal: its header, and the record of
/// each packet, block by block.
pub fn captures_are_rebuilt()
    ensures { CapturesAreRebuilt }
{}

/// The counts of a file of fewer than 2^62 bytes that is rebuilt are those of its blocks up to the first refusal: how many
/// they are and what they have, how many packets are rebuilt of them, and what has none.
pub fn rebuilt_counts_are_told()
    ensures { RebuiltCountsAreTold }
{}
