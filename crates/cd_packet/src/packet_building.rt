//! Builds the IP packet of a datagram (RFC 791 3.1, RFC 8200 3, RFC 768).

ghost use Rattle.std.specs.Prelude.{◌≡◌, ◌≤◌, true, false, [], ◌++◌, length, OnOk, IfOk};
ghost use Rattle.cd_packet.specs.Building.{address_size, address_bytes, udp_header, pseudo_end, udp_check};
ghost use Rattle.cd_packet.specs.Building.{ipv4_front, ipv6_front, ip_header, spelled, built};
ghost use Rattle.cd_packet.specs.Layers.{datagram_seen};

use crate::ip_reading::{IPV4_HEADER, IPV6_HEADER};
use crate::layer_reading::{PROTOCOL_UDP, UDP_HEADER};
use crate::{Addr, Dgram};
use cd_bytes::checksum;
use cd_name::Blob;
use std::alloc::{AllocError, Global};

// The greatest payloads over IPv4 and over IPv6: the lengths that the headers tell have 16 bits.
const MOST_PAYLOAD_OF_IPV4: usize = 65_507;

const MOST_PAYLOAD_OF_IPV6: usize = 65_527;

// The octets of an address: four of IPv4, sixteen of IPv6.
fn address_bytes(addr: &Addr) -> &[u8]
    ensures exact { result.now ≡ address_bytes addr.now }
    ensures size { length result.now ≡ address_size addr.now.v6 }
{
    let size = if addr.v6 { 16 } else { 4 };
    &addr.octets[..size]
}

// Appends the two addresses of a datagram.
fn push_addresses(bytes: &mut Vec<u8>, dgram: &Dgram) -> Result<(), AllocError>
    requires { dgram.now.src.v6 ≡ dgram.now.dst.v6 }
    ensures exact { OnOk result (bytes.new.items ≡ bytes.old.items
        ++ address_bytes dgram.now.src ++ address_bytes dgram.now.dst) }
{
    bytes.extend_from_slice(address_bytes(&dgram.src))?;
    bytes.extend_from_slice(address_bytes(&dgram.dst))?;
    Ok(())
}

// The header of UDP with a checksum.
fn udp_header(dgram: &Dgram, check: u16) -> [u8; 8]
    requires { length dgram.now.payload.now ≤ 65527 }
    ensures { result ≡ udp_header (datagram_seen dgram.now) check }
{
    let size = (dgram.payload.len() + UDP_HEADER) as u16;
    let [sport_high, sport_low] = dgram.sport.to_be_bytes();
    let [dport_high, dport_low] = dgram.dport.to_be_bytes();
    let [size_high, size_low] = size.to_be_bytes();
    let [check_high, check_low] = check.to_be_bytes();
    [
        sport_high, sport_low, dport_high, dport_low, size_high, size_low, check_high, check_low,
    ]
}

// Appends what stands after the addresses in the pseudo header of UDP (RFC 768, RFC 8200 8.1).
fn push_pseudo_end(bytes: &mut Vec<u8>, v6: bool, size: u16) -> Result<(), AllocError>
    ensures exact { OnOk result (bytes.new.items ≡ bytes.old.items ++ pseudo_end v6 size) }
{
    let [high, low] = size.to_be_bytes();
    if v6 {
        bytes.extend_from_slice(&[0, 0, high, low, 0, 0, 0, PROTOCOL_UDP])
    } else {
        bytes.extend_from_slice(&[0, PROTOCOL_UDP, high, low])
    }
}

// The checksum of UDP, as it is sent. What it is made of stands in the room of the packet for that long.
fn udp_check(room: &mut Vec<u8>, dgram: &Dgram) -> Result<u16, AllocError>
    requires empty { room.old.items ≡ [] }
    requires one_version { dgram.now.src.v6 ≡ dgram.now.dst.v6 }
    requires short { length dgram.now.payload.now ≤ 65527 }
    ensures exact { IfOk result (λ check. check ≡ udp_check (datagram_seen dgram.now)) }
    ensures empty { OnOk result (room.new.items ≡ []) }
{
    let size = (dgram.payload.len() + UDP_HEADER) as u16;
    push_addresses(room, dgram)?;
    push_pseudo_end(room, dgram.src.v6, size)?;
    room.extend_from_slice(&udp_header(dgram, 0))?;
    let check = checksum(room.as_slice(), dgram.payload);
    room.clear();
    Ok(if check == 0 { 0xffff } else { check })
}

// The header of IPv4 up to its addresses, with a checksum.
fn ipv4_front(total: u16, hop: u8, check: u16) -> [u8; 12]
    ensures { result ≡ ipv4_front total hop check }
{
    let [total_high, total_low] = total.to_be_bytes();
    let [check_high, check_low] = check.to_be_bytes();
    [
        0x45,
        0,
        total_high,
        total_low,
        0,
        0,
        0,
        0,
        hop,
        PROTOCOL_UDP,
        check_high,
        check_low,
    ]
}

// The header of IPv6 up to its addresses.
fn ipv6_front(size: u16, hop: u8) -> [u8; 8]
    ensures { result ≡ ipv6_front size hop }
{
    let [size_high, size_low] = size.to_be_bytes();
    [0x60, 0, 0, 0, size_high, size_low, PROTOCOL_UDP, hop]
}

// Appends the header of IPv4, where nothing stands yet.
fn push_ipv4_header(bytes: &mut Vec<u8>, dgram: &Dgram) -> Result<(), AllocError>
    requires empty { bytes.old.items ≡ [] }
    requires one_version { dgram.now.src.v6 ≡ dgram.now.dst.v6 }
    requires version { dgram.now.src.v6 ≡ false }
    requires short { length dgram.now.payload.now ≤ 65507 }
    ensures { OnOk result (bytes.new.items ≡ ip_header (datagram_seen dgram.now)) }
{
    let total = (dgram.payload.len() + UDP_HEADER + IPV4_HEADER) as u16;
    bytes.extend_from_slice(&ipv4_front(total, dgram.hop, 0))?;
    push_addresses(bytes, dgram)?;
    let check = checksum(b"", bytes.as_slice());
    bytes.clear();
    bytes.extend_from_slice(&ipv4_front(total, dgram.hop, check))?;
    push_addresses(bytes, dgram)
}

// Appends the header of IPv6, where nothing stands yet.
fn push_ipv6_header(bytes: &mut Vec<u8>, dgram: &Dgram) -> Result<(), AllocError>
    requires empty { bytes.old.items ≡ [] }
    requires one_version { dgram.now.src.v6 ≡ dgram.now.dst.v6 }
    requires version { dgram.now.src.v6 ≡ true }
    requires short { length dgram.now.payload.now ≤ 65527 }
    ensures { OnOk result (bytes.new.items ≡ ip_header (datagram_seen dgram.now)) }
{
    let size = (dgram.payload.len() + UDP_HEADER) as u16;
    bytes.extend_from_slice(&ipv6_front(size, dgram.hop))?;
    push_addresses(bytes, dgram)
}

// The IP packet of a datagram over IPv4.
fn build_ipv4(alloc: Global, dgram: &Dgram) -> Result<Blob, AllocError>
    requires one_version { dgram.now.src.v6 ≡ dgram.now.dst.v6 }
    requires version { dgram.now.src.v6 ≡ false }
    requires short { length dgram.now.payload.now ≤ 65507 }
    ensures { IfOk result (λ packet. packet ≡ spelled (datagram_seen dgram.now)) }
{
    let size = IPV4_HEADER + UDP_HEADER + dgram.payload.len();
    let mut bytes = Vec::with_capacity(alloc, size)?;
    let check = udp_check(&mut bytes, dgram)?;
    push_ipv4_header(&mut bytes, dgram)?;
    bytes.extend_from_slice(&udp_header(dgram, check))?;
    bytes.extend_from_slice(dgram.payload)?;
    Ok(Blob::from_vec(bytes))
}

// The IP packet of a datagram over IPv6.
fn build_ipv6(alloc: Global, dgram: &Dgram) -> Result<Blob, AllocError>
    requires one_version { dgram.now.src.v6 ≡ dgram.now.dst.v6 }
    requires version { dgram.now.src.v6 ≡ true }
    requires short { length dgram.now.payload.now ≤ 65527 }
    ensures { IfOk result (λ packet. packet ≡ spelled (datagram_seen dgram.now)) }
{
    let size = IPV6_HEADER + UDP_HEADER + dgram.payload.len();
    let mut bytes = Vec::with_capacity(alloc, size)?;
    let check = udp_check(&mut bytes, dgram)?;
    push_ipv6_header(&mut bytes, dgram)?;
    bytes.extend_from_slice(&udp_header(dgram, check))?;
    bytes.extend_from_slice(dgram.payload)?;
    Ok(Blob::from_vec(bytes))
}

/// The IP packet that holds a datagram, with no link header. IPv4 has a header of 20 bytes, ID 0 and no flags
/// (RFC 791 3.1), and IPv6 no extension header and no flow label (RFC 8200 3). The checksum of UDP is there, over either.
///
/// It is `None` exactly where the payload has more than 65,507 bytes over IPv4, or 65,527 over IPv6. An `Err` is for
/// want of memory.
#[tactic(auto, unfolding(crate::specs::Building::built))]
pub fn build(alloc: Global, dgram: &Dgram) -> Result<Option<Blob>, AllocError>
    requires { dgram.now.src.v6 ≡ dgram.now.dst.v6 }
    ensures { IfOk result (λ packet. packet ≡ built (datagram_seen dgram.now)) }
{
    if dgram.src.v6 {
        if dgram.payload.len() > MOST_PAYLOAD_OF_IPV6 {
            return Ok(None);
        }
        let packet = build_ipv6(alloc, dgram)?;
        return Ok(Some(packet));
    }
    if dgram.payload.len() > MOST_PAYLOAD_OF_IPV4 {
        return Ok(None);
    }
    let packet = build_ipv4(alloc, dgram)?;
    Ok(Some(packet))
}
