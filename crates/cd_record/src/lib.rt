//! Runs of records: what stands in one block of a C-DNS file (RFC 8618 7.3.2).
//!
//! - A *record* is a query with its response, or an event that stands alone.
//! - A *run* is the records of one block, within the limits of items, of malformed records and of weight.
//! - A *cutter* cuts a list of records into runs from the left, each as long as it can be, and counts each.
//! - The *kept block* of a run holds what is kept of its records, with each value where it belongs.
//!
//! Example: where a block has two items at most, three queries are two runs, of two records and of one.
#![tactic(auto)]

mod block_making;
mod block_records;
mod cutter;
pub mod laws;
mod run;
mod tally;

pub use block_making::kept_block;
pub use block_records::BlockRecords;
pub use cutter::{CutFault, Cutter};
