//! Reads the layers of a packet.

ghost use Rattle.std.specs.Prelude.{◌≡◌, ◌+◌, ◌<◌, ◌≤◌, ◌↔◌, IsTrue, length, IfOk};
ghost use Rattle.cd_bytes.specs.Numbers.{be16};
ghost use Rattle.cd_packet.specs.Layers.{HasOneVersion, HasShortPayload, IsEthernetIpv4, found_in, layer_of};
ghost use Rattle.cd_packet.specs.Layers.{time_of, reading_seen, udp_datagram, datagram_of};
ghost use Rattle.cd_packet.specs.Time.{end_of_time};

use crate::ip_packet::IpPacket;
use crate::ip_reading::needs;
use crate::link_reading::{ETHERNET_HEADER, LINK_ETHERNET, PROTOCOL_IPV4, ip_packet};
use crate::{Dgram, Layer, Packet, Reason, When};
use cd_bytes::be16;

pub(crate) const PROTOCOL_UDP: u8 = 17;

pub(crate) const UDP_HEADER: usize = 8;

// The time of a packet.
fn time_of(packet: &Packet) -> Result<u64, Reason>
    ensures exact { result ≡ time_of packet.now.when }
    ensures timely { IfOk result (λ time. time < end_of_time) }
{
    match packet.when {
        When::At(time) => Ok(time),
        When::Outside => Err(Reason::Time),
        When::Missing => Err(Reason::NoTime),
    }
}

// The datagram of UDP in an IP packet (RFC 768).
fn udp_datagram<'a>(
    packet: &'a Packet,
    port: u16,
    time: u64,
    ip: IpPacket,
) -> Result<Dgram<'a>, Reason>
    requires timely { time < end_of_time }
    requires near { ip.start ≤ length packet.now.bytes + 40 }
    ensures exact { reading_seen result ≡ udp_datagram port time ip packet.now }
    ensures one_version { IfOk result (λ d. d.src.v6 ≡ d.dst.v6) }
    ensures short_payload { IfOk result (λ d. length d.payload.now ≤ 65535) }
{
    let bytes = packet.bytes.as_slice();
    if ip.protocol != PROTOCOL_UDP {
        return Err(Reason::NotUdp);
    }
    if ip.end < ip.start + UDP_HEADER {
        return Err(Reason::Length);
    }
    needs(packet, ip.start + UDP_HEADER)?;
    let sport = be16(bytes, ip.start);
    let dport = be16(bytes, ip.start + 2);
    if sport != port && dport != port {
        return Err(Reason::Port);
    }
    let size = usize::from(be16(bytes, ip.start + 4));
    if size < UDP_HEADER || ip.end < ip.start + size {
        return Err(Reason::Length);
    }
    needs(packet, ip.start + size)?;
    Ok(Dgram {
        time,
        src: ip.src,
        dst: ip.dst,
        sport,
        dport,
        hop: ip.hop,
        payload: &bytes[ip.start + UDP_HEADER..ip.start + size],
    })
}

// The datagram in a packet.
fn datagram<'a>(packet: &'a Packet, port: u16) -> Result<Dgram<'a>, Reason>
    ensures exact { reading_seen result ≡ datagram_of port packet.now }
    ensures one_version { IfOk result (λ d. d.src.v6 ≡ d.dst.v6) }
    ensures short_payload { IfOk result (λ d. length d.payload.now ≤ 65535) }
{
    let time = time_of(packet)?;
    let ip = ip_packet(packet)?;
    udp_datagram(packet, port, time, ip)
}

/// The datagram in the layers of a packet, or why there is none for this port of DNS. The first rule that applies
/// decides. The payload stays where it lies in the packet.
///
/// - The time of the packet is known, or it is `NoTime` or `Time`.
/// - The link type is Ethernet (1), IP alone (101), or one of the two cooked headers of Linux (113 and 276), or it is
///   `Link`. Up to two tags of IEEE 802.1Q or 802.1ad may follow, and then IPv4 (RFC 791 3.1) or IPv6 (RFC 8200 3), or
///   it is `NotIp`.
/// - Extension headers of IPv6 with options or routing are passed over (RFC 8200 4). Any fragment is `Fragment`, and
///   another protocol than UDP (RFC 768) is `NotUdp`.
/// - One of the two ports is this port, or it is `Port`.
/// - Each header, and what the header of UDP says is there, lies within the length that the header around it tells, or
///   it is `Length`. Bytes that are needed and missing are `Cut` where fewer were captured than the packet had, else
///   `Length`.
#[tactic(auto, unfolding(crate::specs::Layers::layer_of))]
pub fn layers<'a>(packet: &'a Packet, port: u16) -> Layer<'a>
    ensures found { found_in result ≡ layer_of port packet.now }
    ensures one_version { HasOneVersion result }
    ensures short_payload { HasShortPayload result }
{
    match datagram(packet, port) {
        Ok(dgram) => Layer::Dgram(dgram),
        Err(reason) => Layer::Skip(reason),
    }
}

/// Whether the time is known, and the packet is of Ethernet with the protocol of IPv4.
pub fn is_ethernet_ipv4(packet: &Packet) -> bool
    ensures { IsTrue result ↔ IsEthernetIpv4 packet.now }
{
    let bytes = packet.bytes.as_slice();
    matches!(packet.when, When::At(_))
        && packet.link == LINK_ETHERNET
        && bytes.len() >= ETHERNET_HEADER
        && be16(bytes, 12) == PROTOCOL_IPV4
}
