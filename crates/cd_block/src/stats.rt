//! What a block counts.

/// Block statistics (RFC 8618 7.3.2.2).
#[derive(Clone, Copy, Debug, PartialEq, Eq)]
pub struct Stats {
    /// Well-formed messages that were processed.
    pub processed: u64,
    /// Query-response items of the block.
    pub items: u64,
    /// Items that are a query with no response: unmatched queries.
    pub unmatched_queries: u64,
    /// Items that are a response with no query: unmatched responses.
    pub unmatched_responses: u64,
    /// Messages that were not kept because of their opcode.
    pub discarded: u64,
    /// Malformed messages.
    pub malformed: u64,
}
