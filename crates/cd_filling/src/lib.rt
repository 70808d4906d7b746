//! The block of a run, filled record by record (RFC 8618 7.3.2).
//!
//! - What is kept of a record is put into the tables of its block where it lies: looked up by borrowed bytes, copied only
//!   where it is new there. Then the record is dropped.
//! - The order is that of the traversal of a block: the items, each with its signature and its lists, and then the malformed
//!   messages. A malformed record is laid aside until all items are put.
//! - The block that comes is the one that `build` of `cd_table` makes of `kept_block` of `cd_record`, whose `KeptBlock` is
//!   never made.
//!
//! An example: the run of one query for example.org without a response gives a block of one item, one address for its
//! client, one name, and one signature with its server.
#![tactic(auto)]

mod block;
mod items;
mod lists;
mod malformed;

pub use block::filled_block;
