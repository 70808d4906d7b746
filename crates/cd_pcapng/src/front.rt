//! What stands at the front of some bytes of a section (the pcapng draft, 3.1 and 4).

use crate::interface::Interface;
use crate::packet_place::PacketPlace;
use cd_bytes::Order;
use cd_packet::CaptureWhy;

/// What a whole block holds.
#[derive(Clone, Copy)]
pub enum Content {
    /// A section of this order begins.
    Section(Order),
    /// One more interface.
    Interface(Interface),
    /// A packet.
    Packet(PacketPlace),
    /// Nothing that is read.
    Other,
}

/// What stands at the front of some bytes.
#[derive(Clone, Copy)]
pub enum Front {
    /// Neither a whole block nor a refused place.
    Cut,
    /// A refused place.
    Refused(CaptureWhy),
    /// A whole block: its length and what it holds.
    Block(usize, Content),
}

/// The whole blocks at the front of some bytes.
#[derive(Clone, Copy)]
pub struct WholeBlocks {
    /// How many bytes they have.
    pub size: usize,
    /// Why the block after them is refused, where it is.
    pub refused: Option<CaptureWhy>,
}
