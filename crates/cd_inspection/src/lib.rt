//! One machine over the blocks of a C-DNS file, for each command that reads such files (RFC 8618 7.3).
//!
//! - An *inspection* is fed a file in chunks. It reads each block (`cd_file`), puts each value in the place of its index
//!   (`cd_block`), and hands the *kept block*, with the block parameters that it names, to an *inspector*.
//! - An `Inspector` says what is written and counted of a block. `BlockCounting` writes nothing, and counts blocks, items and
//!   malformed messages. `PacketRebuilding` writes a capture of the packets that a block is rebuilt to (`cd_rebuild`,
//!   `cd_pcap`), and counts these too, and what has none.
//! - An `Inspection` is a `Machine` of `cd_drive`: what it makes of bytes is a function of all bytes fed (`specs/Inspecting`).
//!   It refuses them for the first fault of the file, that an index leads nowhere among them, and then reads nothing more.
//!
//! An example: a file of two blocks, of which the second has an index past its table, is fed byte by byte to an inspection
//! that counts. One block is counted, and the file is refused with the number 2 and `Index`.
#![tactic(auto)]

mod counting;
mod inspection;
mod inspector;
pub mod laws;
mod rebuilding;

pub use counting::{BlockCounting, ReadCounts};
pub use inspection::Inspection;
pub use inspector::Inspector;
pub use rebuilding::PacketRebuilding;
