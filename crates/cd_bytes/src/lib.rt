//! Numbers in bytes, and the Internet checksum.
//!
//! An `Order` says which byte of a number comes first. A `Cursor` reads bytes and numbers from the front of a slice, and is
//! `Short` where fewer bytes are left than a call needs. `be16`, `be32`, `le16` and `le32` read a number at an offset of a
//! slice that is known to hold it. An `Out` is bytes that are written at their end. A `checksum` is that of the Internet
//! protocols (RFC 1071).
//!
//! An example: the four bytes 12 34 56 78 hold, in big-endian order, the two numbers 0x1234 and 0x5678. A cursor over them
//! gives the first by `number16(Order::Big)`, has then two bytes left, is short of a `number32`, and gives the second number
//! all the same. An `Out` to which the two numbers are pushed holds those four bytes.
#![tactic(auto)]

mod cursor;
mod internet_checksum;
pub mod laws;
mod number_reading;
mod order;
mod out;

pub use cursor::{Cursor, Short};
pub use internet_checksum::checksum;
pub use number_reading::{be16, be32, le16, le32};
pub use order::Order;
pub use out::Out;
