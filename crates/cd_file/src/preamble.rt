//! The preamble of a file as it is read.

use cd_block::Params;
use cd_name::List;

/// What is kept of a file preamble (RFC 8618 7.3.1).
#[derive(Debug, Drop)]
pub struct Preamble {
    pub major: u64,
    /// The block parameters, which a block names by their index.
    pub entries: List<Params>,
}
