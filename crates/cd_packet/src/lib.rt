//! Packets of a capture, and the datagrams in their layers.
//!
//! - A *capture* is a list of packets and an end. Each format says in a crate of its own what its bytes hold.
//! - A `Packet` is one record of it: an offset, a time, a link type, the original length and the captured bytes.
//! - `layers` reads the link, network and transport layer of a packet: a `Dgram`, or the `Reason` why there is none.
//! - `build` writes the IP packet that holds a `Dgram`.
//!
//! An example: a packet of Ethernet holds an IPv4 packet of 29 bytes from 192.0.2.77 to 192.0.2.53, and in it UDP from
//! port 40000 to port 53 with one byte. For port 53 `layers` gives a `Dgram` with that byte as its payload, and for
//! port 54 it gives `Skip(Port)`.
//!
//! Offsets are bytes from the start of the capture. Times are nanoseconds since 1970, below 2^32 seconds.
#![tactic(auto)]

mod address;
mod capture;
mod datagram;
mod ip_packet;
mod ip_reading;
pub mod laws;
mod layer_reading;
mod link_reading;
mod magic;
mod packet;
mod packet_building;

pub use address::Addr;
pub use capture::{BadCapture, CaptureWhy, EndState, FeedFault};
pub use datagram::{Dgram, Layer, Reason};
pub use layer_reading::{is_ethernet_ipv4, layers};
pub use magic::has_magic;
pub use packet::{Packet, When};
pub use packet_building::build;
