use cd_block::{Stamp, Stats};
use cd_hints::Rec;
use cd_name::List;

/// The records of a block, with what they count and their earliest time.
#[derive(Debug, Drop)]
pub struct BlockRecords {
    /// In the order in which they were pushed.
    pub recs: List<Rec>,
    /// The statistics of the records (RFC 8618 7.3.2.2).
    pub stats: Stats,
    /// The least time of pairs, queries, responses and malformed records, kept or not, or none (RFC 8618 7.3.2.1). A pair has
    /// the time of its query. As seconds and ticks within the second, of
    /// the settings' ticks.
    pub earliest: Option<Stamp>,
}
