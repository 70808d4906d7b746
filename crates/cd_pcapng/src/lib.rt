//! Reads pcapng captures that come in chunks.
//!
//! - A *capture* is a list of *blocks*. `specs/Pcapng.antt` says what any bytes hold (the pcapng draft, 3 and 4).
//! - A *section header* begins a *section*: it tells the order of the numbers, and no *interface* is declared after it.
//! - An *interface* block declares one, with the link type of its packets and the resolution and offset of its clock.
//! - An *enhanced packet* names its interface, and a *simple packet* is of the first one and tells no time.
//! - A `PcapngReader` is *fed* the bytes of a capture, cut into any chunks, and gives the packets that came whole. As
//!   bytes are fed, each block is read once, as soon as it is whole.
//! - A *refused place* is a block that no capture can have. Nothing is read after it.
//!
//! An example: a reader is fed a section header of 28 bytes, an interface block of 20, and the first 12 bytes of an
//! enhanced packet block. It gives no packet, and the bytes fed end `Cut`. It is fed the rest of the block, gives its
//! packet, at offset 48, and then no other, and the bytes fed end `Whole`.
//!
//! Offsets are bytes from the start of the capture.
#![tactic(auto)]

mod block;
mod clock;
mod found;
mod front;
mod interface;
mod interface_options;
mod kind;
pub mod laws;
mod ordered;
mod packet_place;
mod pcapng_reader;

pub use pcapng_reader::PcapngReader;
