//! Reads the link header of a packet.

ghost use Rattle.std.specs.Prelude.{◌≡◌, ◌+◌, ◌≤◌, length, IfOk};
ghost use Rattle.cd_bytes.specs.Numbers.{be16};
ghost use Rattle.cd_packet.specs.Links.{network_packet, is_tag, after_tags, framed_packet, raw_packet, ip_packet_of};

use crate::ip_packet::IpPacket;
use crate::ip_reading::{ipv4_packet, ipv6_packet, needs};
use crate::{Packet, Reason};
use cd_bytes::be16;

/// The link type of Ethernet.
pub(crate) const LINK_ETHERNET: u16 = 1;

// The link type of IP with no link header.
const LINK_RAW: u16 = 101;

// The link types of captures on any device of Linux, in two versions.
const LINK_LINUX_SLL: u16 = 113;

const LINK_LINUX_SLL2: u16 = 276;

/// The bytes of a header of Ethernet.
pub(crate) const ETHERNET_HEADER: usize = 14;

const LINUX_SLL_HEADER: usize = 16;

const LINUX_SLL2_HEADER: usize = 20;

/// The protocol of IPv4 over Ethernet.
pub(crate) const PROTOCOL_IPV4: u16 = 0x0800;

const PROTOCOL_IPV6: u16 = 0x86dd;

// The protocols of tags: IEEE 802.1Q and 802.1ad.
const PROTOCOL_TAG: u16 = 0x8100;

const PROTOCOL_SERVICE_TAG: u16 = 0x88a8;

const MOST_TAGS: usize = 2;

// The headers of IP at an offset, by the protocol that was told.
fn network_packet(packet: &Packet, protocol: u16, at: usize) -> Result<IpPacket, Reason>
    requires { at ≤ length packet.now.bytes }
    ensures exact { result ≡ network_packet protocol at packet.now }
    ensures near { IfOk result (λ ip. ip.start ≤ length packet.now.bytes + 40) }
{
    match protocol {
        PROTOCOL_IPV4 => ipv4_packet(packet, at),
        PROTOCOL_IPV6 => ipv6_packet(packet, at),
        _ => Err(Reason::NotIp),
    }
}

// Whether this protocol is a tag.
fn is_tag(protocol: u16) -> bool
    ensures { result ≡ is_tag protocol }
{
    protocol == PROTOCOL_TAG || protocol == PROTOCOL_SERVICE_TAG
}

// The headers of IP after up to two tags, which begin at an offset.
fn after_tags(packet: &Packet, first: u16, header: usize) -> Result<IpPacket, Reason>
    requires { header ≤ length packet.now.bytes }
    ensures exact { result ≡ after_tags 2 first header packet.now }
    ensures near { IfOk result (λ ip. ip.start ≤ length packet.now.bytes + 40) }
{
    let mut protocol = first;
    let mut at = header;
    let mut left = MOST_TAGS;
    let bytes = packet.bytes.as_slice();
    'tags: while left > 0 && is_tag(protocol) {
        needs(packet, at + 4)?;
        protocol = be16(bytes, at + 2);
        at += 4;
        left -= 1;
    }
    network_packet(packet, protocol, at)
}

// The headers of IP after a link header of so many bytes, with the protocol at an offset in it.
fn framed_packet(packet: &Packet, header: usize, protocol: usize) -> Result<IpPacket, Reason>
    requires { protocol + 2 ≤ header }
    ensures exact { result ≡ framed_packet header protocol packet.now }
    ensures near { IfOk result (λ ip. ip.start ≤ length packet.now.bytes + 40) }
{
    needs(packet, header)?;
    let bytes = packet.bytes.as_slice();
    after_tags(packet, be16(bytes, protocol), header)
}

// The headers of IP where no link header stands before them.
fn raw_packet(packet: &Packet) -> Result<IpPacket, Reason>
    ensures exact { result ≡ raw_packet packet.now }
    ensures near { IfOk result (λ ip. ip.start ≤ length packet.now.bytes + 40) }
{
    needs(packet, 1)?;
    let bytes = packet.bytes.as_slice();
    match bytes[0] / 16 {
        4 => ipv4_packet(packet, 0),
        6 => ipv6_packet(packet, 0),
        _ => Err(Reason::NotIp),
    }
}

// What the headers of IP in a packet say.
pub(crate) fn ip_packet(packet: &Packet) -> Result<IpPacket, Reason>
    ensures exact { result ≡ ip_packet_of packet.now }
    ensures near { IfOk result (λ ip. ip.start ≤ length packet.now.bytes + 40) }
{
    match packet.link {
        LINK_ETHERNET => framed_packet(packet, ETHERNET_HEADER, 12),
        LINK_RAW => raw_packet(packet),
        LINK_LINUX_SLL => framed_packet(packet, LINUX_SLL_HEADER, 14),
        LINK_LINUX_SLL2 => framed_packet(packet, LINUX_SLL2_HEADER, 0),
        _ => Err(Reason::Link),
    }
}
