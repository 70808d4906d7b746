//! Reads the headers of IPv4 (RFC 791 3.1) and IPv6 (RFC 8200 3 and 4).

ghost use Rattle.std.specs.Prelude.{◌≡◌, ◌+◌, ◌≤◌, length, take, drop, IfOk};
ghost use Rattle.cd_bytes.specs.Numbers.{be16};
ghost use Rattle.cd_packet.specs.IpPackets.{ipv4_at, ipv6_at, ipv4_header, ipv4_packet, ipv6_header};
ghost use Rattle.cd_packet.specs.IpPackets.{ipv6_packet, is_extension, walked};
ghost use Rattle.cd_packet.specs.IpPackets.{extension_passed};
ghost use Rattle.cd_packet.specs.Readings.{needs, missing_why};

use crate::ip_packet::IpPacket;
use crate::{Addr, Packet, Reason};
use cd_bytes::be16;

pub(crate) const IPV4_HEADER: usize = 20;

pub(crate) const IPV6_HEADER: usize = 40;

// The protocols of the extension headers of IPv6 that are walked (RFC 8200 4.3, 4.4, 4.6).
const HOP_BY_HOP: u8 = 0;

const ROUTING: u8 = 43;

const DESTINATION_OPTIONS: u8 = 60;

const FRAGMENT: u8 = 44;

// Why bytes that are needed are not there.
fn missing_why(packet: &Packet) -> Reason
    ensures { result ≡ missing_why packet.now }
{
    if packet.bytes.as_slice().len() < packet.original as usize {
        Reason::Cut
    } else {
        Reason::Length
    }
}

// The captured bytes up to an offset are needed.
pub(crate) fn needs(packet: &Packet, end: usize) -> Result<(), Reason>
    ensures exact { result ≡ needs end packet.now }
    ensures there { IfOk result (λ _. end ≤ length packet.now.bytes) }
{
    if packet.bytes.as_slice().len() < end {
        return Err(missing_why(packet));
    }
    Ok(())
}

// The IPv4 address at an offset.
fn ipv4_address(bytes: &[u8], at: usize) -> Addr
    requires { at + 4 ≤ length bytes.now }
    ensures { result ≡ ipv4_at at bytes.now }
{
    Addr {
        v6: false,
        octets: [
            bytes[at],
            bytes[at + 1],
            bytes[at + 2],
            bytes[at + 3],
            0,
            0,
            0,
            0,
            0,
            0,
            0,
            0,
            0,
            0,
            0,
            0,
        ],
    }
}

// The sixteen bytes at an offset.
fn octets_at(bytes: &[u8], at: usize) -> [u8; 16]
    requires { at + 16 ≤ length bytes.now }
    ensures { result ≡ take 16 (drop at bytes.now) }
{
    *bytes[at..].first_chunk::<16>().unwrap()
}

// The IPv6 address at an offset.
fn ipv6_address(bytes: &[u8], at: usize) -> Addr
    requires { at + 16 ≤ length bytes.now }
    ensures { result ≡ ipv6_at at bytes.now }
{
    Addr {
        v6: true,
        octets: octets_at(bytes, at),
    }
}

// What the IPv4 header at an offset says.
fn ipv4_header(bytes: &[u8], at: usize) -> IpPacket
    requires { at + 20 ≤ length bytes.now }
    ensures exact { result ≡ ipv4_header at bytes.now }
    ensures near { result.start ≤ length bytes.now + 40 }
{
    IpPacket {
        protocol: bytes[at + 9],
        src: ipv4_address(bytes, at + 12),
        dst: ipv4_address(bytes, at + 16),
        hop: bytes[at + 8],
        start: at + usize::from(bytes[at] % 16) * 4,
        end: at + usize::from(be16(bytes, at + 2)),
    }
}

// The headers of the IPv4 packet at an offset.
pub(crate) fn ipv4_packet(packet: &Packet, at: usize) -> Result<IpPacket, Reason>
    requires { at ≤ length packet.now.bytes }
    ensures exact { result ≡ ipv4_packet at packet.now }
    ensures near { IfOk result (λ ip. ip.start ≤ length packet.now.bytes + 40) }
{
    let bytes = packet.bytes.as_slice();
    needs(packet, at + IPV4_HEADER)?;
    if bytes[at] / 16 != 4 {
        return Err(Reason::NotIp);
    }
    let header = usize::from(bytes[at] % 16) * 4;
    let total = usize::from(be16(bytes, at + 2));
    if header < IPV4_HEADER || total < header {
        return Err(Reason::Length);
    }
    if be16(bytes, at + 6) % 0x4000 != 0 {
        return Err(Reason::Fragment);
    }
    Ok(ipv4_header(bytes, at))
}

// Whether this is an extension header of IPv6 that is walked.
fn is_extension(protocol: u8) -> bool
    ensures { result ≡ is_extension protocol }
{
    protocol == HOP_BY_HOP || protocol == ROUTING || protocol == DESTINATION_OPTIONS
}

// The offset after the extension header at an offset, which lies in a payload that ends at another (RFC 8200 4).
fn extension_end(packet: &Packet, start: usize, end: usize) -> Result<usize, Reason>
    requires { start ≤ length packet.now.bytes }
    ensures exact { result ≡ extension_passed start end packet.now }
    ensures there { IfOk result (λ next. next ≤ length packet.now.bytes) }
    ensures within { IfOk result (λ next. next ≤ end) }
{
    let bytes = packet.bytes.as_slice();
    if end < start + 2 {
        return Err(Reason::Length);
    }
    needs(packet, start + 2)?;
    let next = start + 8 + 8 * usize::from(bytes[start + 1]);
    if end < next {
        return Err(Reason::Length);
    }
    needs(packet, next)?;
    Ok(next)
}

// Walks over the extension headers of an IPv6 packet, whose fixed header was read.
fn after_extensions(packet: &Packet, header: IpPacket) -> Result<IpPacket, Reason>
    requires { header.start ≤ length packet.now.bytes }
    ensures exact { result ≡ walked packet.now header }
    ensures near { IfOk result (λ ip. ip.start ≤ length packet.now.bytes) }
{
    let bytes = packet.bytes.as_slice();
    let mut protocol = header.protocol;
    let mut start = header.start;
    'extensions: while is_extension(protocol) {
        let next = match extension_end(packet, start, header.end) {
            Ok(next) => next,
            Err(reason) => return Err(reason),
        };
        protocol = bytes[start];
        start = next;
    }
    if protocol == FRAGMENT {
        return Err(Reason::Fragment);
    }
    Ok(IpPacket {
        protocol,
        src: header.src,
        dst: header.dst,
        hop: header.hop,
        start,
        end: header.end,
    })
}

// What the fixed header of IPv6 at an offset says.
fn ipv6_header(bytes: &[u8], at: usize) -> IpPacket
    requires { at + 40 ≤ length bytes.now }
    ensures exact { result ≡ ipv6_header at bytes.now }
    ensures near { result.start ≤ length bytes.now }
{
    let start = at + IPV6_HEADER;
    IpPacket {
        protocol: bytes[at + 6],
        src: ipv6_address(bytes, at + 8),
        dst: ipv6_address(bytes, at + 24),
        hop: bytes[at + 7],
        start,
        end: start + usize::from(be16(bytes, at + 4)),
    }
}

// The headers of the IPv6 packet at an offset.
pub(crate) fn ipv6_packet(packet: &Packet, at: usize) -> Result<IpPacket, Reason>
    requires { at ≤ length packet.now.bytes }
    ensures exact { result ≡ ipv6_packet at packet.now }
    ensures near { IfOk result (λ ip. ip.start ≤ length packet.now.bytes) }
{
    let bytes = packet.bytes.as_slice();
    needs(packet, at + IPV6_HEADER)?;
    if bytes[at] / 16 != 6 {
        return Err(Reason::NotIp);
    }
    after_extensions(packet, ipv6_header(bytes, at))
}
