//! What a kept block of a C-DNS file is rebuilt to (RFC 8618 7.3.2): the packets of its messages.
//!
//! - A *half* of an item is its query or its response. Its *message* is rendered from what is kept of it.
//! - What is *sent* is a message with its time, from the client to the server or back, in one packet of UDP over IP. It
//!   has no packet where the message or the payload is too long.
//! - An item is *bare* where what is kept of it does not tell its transport or which halves it has. A malformed message is bare
//!   where its transport or its payload is not kept. Nothing is sent of what is bare, or of another transport than UDP.
//! - Packets stand in the order of their times; those of one time in that of the items, the query before the response,
//!   and malformed messages last.
//!
//! Example: an item with a query for www.example.com from 192.0.2.77 to 192.0.2.53, that is answered after 20 ms, is
//! rebuilt to two packets, the second 20 ms after the first, from 192.0.2.53 to 192.0.2.77.
#![tactic(auto)]

mod addresses;
mod counts;
mod datagrams;
mod ends;
mod flags;
mod header;
pub mod laws;
mod messages;
mod questions;
mod rebuilding;
mod rebuilt_block;
mod records;
mod sending;
mod sendings;
mod times;

pub use rebuilding::packets;
pub use rebuilt_block::{Raw, RebuiltBlock};
