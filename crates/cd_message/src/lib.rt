//! DNS messages, read from the bytes of a payload and written into such bytes (RFC 1035 section 4, RFC 6891 section 6).
//!
//! - A *question* is a name, a type and a class. A *record* is an owner, a type, a class, a TTL and RDATA.
//! - A *section* is the records of one part of a message: answers, authority or additional.
//! - RDATA of some types has a *shape*: bytes, names and bytes. It is kept with its names uncompressed.
//! - An *OPT* record carries the fields of EDNS; it stands in the additional section alone, once at most.
//! - A message is *valid* where its names are names, its sections and RDATA are small enough, its RDATA keeps the
//!   shapes of its types, and an OPT record stands in the additional section alone, once at most, and is the root's.
//!
//! The 35 bytes `0 7 129 128 0 1 0 1 0 0 0 0`, a header with the ID 7 that tells of one question and one answer,
//! `1 a 0 0 1 0 1`, a question for `a.` of type A, and `192 12 0 1 0 1 0 0 0 5 0 4 192 0 2 80`, an answer whose owner
//! points to offset 12, are one message. `parse` gives it with 35 bytes used and the owner `1 a 0`, `weight` weighs
//! it 378, and `write` gives back its bytes.
//!
//! Offsets and lengths are bytes.
#![tactic(auto)]

mod field;
pub mod laws;
mod message;
mod message_reading;
mod message_writing;
mod rdata;
mod rdata_writing;
mod record;
mod shape;
mod weighing;
mod writing;

pub use message::{Message, MsgWhy, OPT, ParseFault, Parsed, Question, Rr};
pub use message_reading::parse;
pub use message_writing::write;
pub use weighing::weight;
