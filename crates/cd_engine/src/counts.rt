//! What is counted of a capture.

ghost use Rattle.std.specs.Prelude.{◌≡◌};
ghost use Rattle.cd_engine.specs.Counting.{counts_of, no_counts};

/// What is counted of a capture: its packets, each once, and its records and blocks.
#[derive(Clone, Copy, Debug, PartialEq, Eq)]
pub struct Counts {
    /// All packets: those below, together.
    pub packets: u64,
    /// Packets that are queries whose opcode is listed.
    pub queries: u64,
    /// Packets that are responses whose opcode is listed.
    pub responses: u64,
    /// Packets whose payload is no message.
    pub malformed: u64,
    /// Packets whose message has an opcode that is not listed.
    pub discarded: u64,
    /// Packets in which no datagram from or to the port of DNS was found, by the reasons of `cd_packet::Reason` in
    /// their order.
    pub skipped: [u64; 9],
    /// Resource records that were left out since their type is not listed.
    pub dropped: u64,
    /// Blocks of the file.
    pub blocks: u64,
    /// Items of the blocks: pairs, and queries and responses that stand alone.
    pub items: u64,
    /// Items that are a query with its response.
    pub pairs: u64,
    /// Whether the bytes end within a header, a record or a block of the capture.
    pub cut: bool,
}

// What is counted of packets.
#[derive(Clone, Copy, Debug)]
pub(crate) struct PacketCounts {
    pub(crate) packets: u64,
    pub(crate) queries: u64,
    pub(crate) responses: u64,
    pub(crate) malformed: u64,
    pub(crate) discarded: u64,
    pub(crate) skipped: [u64; 9],
}

// What is counted of records.
#[derive(Clone, Copy, Debug)]
pub(crate) struct RecordCounts {
    pub(crate) items: u64,
    pub(crate) pairs: u64,
    pub(crate) dropped: u64,
}

pub(crate) const NO_PACKET_COUNTS: PacketCounts = PacketCounts {
    packets: 0,
    queries: 0,
    responses: 0,
    malformed: 0,
    discarded: 0,
    skipped: [0; 9],
};

pub(crate) const NO_RECORD_COUNTS: RecordCounts = RecordCounts {
    items: 0,
    pairs: 0,
    dropped: 0,
};

// The counts of the whole: of its packets, of its records, and of its blocks.
pub(crate) fn counts_of(
    packets: PacketCounts,
    records: RecordCounts,
    blocks: u64,
    cut: bool,
) -> Counts
    ensures { result ≡ counts_of packets records blocks cut }
{
    let skipped = packets.skipped;
    Counts {
        packets: packets.packets,
        queries: packets.queries,
        responses: packets.responses,
        malformed: packets.malformed,
        discarded: packets.discarded,
        skipped,
        dropped: records.dropped,
        blocks,
        items: records.items,
        pairs: records.pairs,
        cut,
    }
}

/// All counts are 0, and nothing is cut off.
pub(crate) fn no_counts() -> Counts
    ensures { result ≡ no_counts }
{
    counts_of(NO_PACKET_COUNTS, NO_RECORD_COUNTS, 0, false)
}
