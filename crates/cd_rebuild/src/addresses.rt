//! The addresses and ports between which a message is rebuilt.

ghost use Rattle.std.specs.Prelude.{◌≡◌, [], slice_index, unwrap_or};
ghost use Rattle.cd_rebuild.specs.Ends as ends;

use crate::ends::Ends;
use crate::flags::is_ipv6;
use cd_block::{KeptData, KeptItem, KeptMalformed, KeptSig};
use cd_name::Blob;
use cd_packet::Addr;

// The port of a server of which none is kept (RFC 1035 4.2).
const DNS_PORT: u16 = 53;

// A byte of an address, or 0 where it is not kept.
fn octet(bytes: &[u8], at: usize) -> u8
    ensures { result ≡ slice_index bytes.now at }
{
    match bytes.get(at) {
        Some(byte) => *byte,
        None => 0,
    }
}

// The octets of an address of IPv4.
fn ipv4_octets(bytes: &[u8]) -> [u8; 16]
    ensures { result ≡ ends.ipv4_octets bytes.now }
{
    [
        octet(bytes, 0),
        octet(bytes, 1),
        octet(bytes, 2),
        octet(bytes, 3),
        0,
        0,
        0,
        0,
        0,
        0,
        0,
        0,
        0,
        0,
        0,
        0,
    ]
}

// The octets of an address of IPv6.
fn ipv6_octets(bytes: &[u8]) -> [u8; 16]
    ensures { result ≡ ends.ipv6_octets bytes.now }
{
    [
        octet(bytes, 0),
        octet(bytes, 1),
        octet(bytes, 2),
        octet(bytes, 3),
        octet(bytes, 4),
        octet(bytes, 5),
        octet(bytes, 6),
        octet(bytes, 7),
        octet(bytes, 8),
        octet(bytes, 9),
        octet(bytes, 10),
        octet(bytes, 11),
        octet(bytes, 12),
        octet(bytes, 13),
        octet(bytes, 14),
        octet(bytes, 15),
    ]
}

// The octets of an address.
fn octets_of(v6: bool, bytes: &[u8]) -> [u8; 16]
    ensures { result ≡ ends.octets_of v6 bytes.now }
{
    if v6 {
        ipv6_octets(bytes)
    } else {
        ipv4_octets(bytes)
    }
}

// The bytes that are kept of an address.
fn kept_bytes(address: &Option<Blob>) -> &[u8]
    ensures { result.now ≡ unwrap_or address.now [] }
{
    match address {
        Some(bytes) => bytes.as_slice(),
        None => &[],
    }
}

// The address of which these bytes are kept.
fn address_of(v6: bool, address: &Option<Blob>) -> Addr
    ensures { result ≡ ends.address_of v6 address.now }
{
    let octets = octets_of(v6, kept_bytes(address));
    Addr { v6, octets }
}

// The ends of an item with this signature.
pub(crate) fn item_ends(item: &KeptItem, signature: &KeptSig) -> Ends
    ensures { result ≡ ends.item_ends item.now signature.now }
{
    let v6 = is_ipv6(signature.transport_flags);
    Ends {
        client: address_of(v6, &item.client_address),
        client_port: item.client_port.unwrap_or(0),
        server: address_of(v6, &signature.server_address),
        server_port: signature.server_port.unwrap_or(DNS_PORT),
    }
}

// The ends of a malformed message with these data.
pub(crate) fn malformed_ends(message: &KeptMalformed, details: &KeptData) -> Ends
    ensures { result ≡ ends.malformed_ends message.now details.now }
{
    let v6 = is_ipv6(details.transport_flags);
    Ends {
        client: address_of(v6, &message.client_address),
        client_port: message.client_port.unwrap_or(0),
        server: address_of(v6, &details.server_address),
        server_port: details.server_port.unwrap_or(DNS_PORT),
    }
}
