//! The block of a kept block (RFC 8618 7.3.2): each value once, in a table, and its index wherever it is used.
//!
//! - A *kept block* has each value where it belongs, a *block* has its index in one of nine *tables* (`cd_block`).
//! - The *traversal* of a kept block goes through the values that stand in tables, item by item, and then malformed message
//!   by malformed message. The first use of a value decides its place in its table.
//! - A value is *put* into a table: it gets the index that it has there, or it goes last (`value_table`, `slice_table`).
//! - The *parts* of a value are put before it. So a signature, a question or a resource record is put with the indexes of its
//!   parts in place, and a list with the indexes of its elements.
//!
//! Values are found by hash, with `indexmap` and its default hasher, whose seed is fixed.
//!
//! The way of the data: items with their signatures (`items`), their lists of questions and records (`records`), malformed
//! messages (`malformed`), into the tables as they grow (`tables`), and these into the block (`building`).
//!
//! Example: two items ask for example.org and example.com, and both have the client 192.0.2.1. The table of addresses has one
//! entry, the table of names has example.org and then example.com, and the items have 0 and 1 as their `query_name`.
#![tactic(auto)]

mod building;
mod items;
pub mod laws;
mod lent_bytes;
mod malformed;
mod records;
mod slice_table;
mod tables;
mod value_table;

pub use building::build;
pub use malformed::put_malformed;
pub use tables::Tables;
