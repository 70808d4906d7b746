//! What the headers of IP say.

ghost use Rattle.std.specs.Prelude.{◌≡◌};

use crate::Addr;

// What the headers of IP in a packet say of what they carry.
#[derive(Clone, Copy)]
pub(crate) struct IpPacket {
    // The protocol of what is carried.
    pub(crate) protocol: u8,
    pub(crate) src: Addr,
    pub(crate) dst: Addr,
    // The time to live of IPv4 or the hop limit of IPv6.
    pub(crate) hop: u8,
    // The offset in the packet's bytes of what is carried, which may lie past the captured ones.
    pub(crate) start: usize,
    // The offset at which the IP packet ends, which may lie past the captured ones.
    pub(crate) end: usize,
    pub(crate) ghost one_version: { src.v6 ≡ dst.v6 },
}
