//! Packets that are built of datagrams.

ghost use Rattle.std.specs.Prelude.{◌≡◌};

use cd_name::Blob;
use cd_packet::{Addr, Dgram, build};
use std::alloc::{AllocError, Global};

const CLIENT: Addr = Addr {
    v6: false,
    octets: [192, 0, 2, 77, 0, 0, 0, 0, 0, 0, 0, 0, 0, 0, 0, 0],
};

const SERVER: Addr = Addr {
    v6: false,
    octets: [192, 0, 2, 53, 0, 0, 0, 0, 0, 0, 0, 0, 0, 0, 0, 0],
};

const CLIENT_OF_IPV6: Addr = Addr {
    v6: true,
    octets: [
        0x20, 0x01, 0x0d, 0xb8, 0, 0, 0, 0, 0, 0, 0, 0, 0, 0, 0, 0x4d,
    ],
};

const SERVER_OF_IPV6: Addr = Addr {
    v6: true,
    octets: [
        0x20, 0x01, 0x0d, 0xb8, 0, 0, 0, 0, 0, 0, 0, 0, 0, 0, 0, 0x35,
    ],
};

// The packet of a datagram with this payload.
fn built(alloc: Global, src: Addr, dst: Addr, payload: &[u8]) -> Result<Option<Blob>, AllocError>
    requires { src.v6 ≡ dst.v6 }
{
    let dgram = Dgram {
        time: 7_000,
        src,
        dst,
        sport: 40_000,
        dport: 53,
        hop: 64,
        payload,
    };
    build(alloc, &dgram)
}

// Whether a packet was built of just these bytes.
fn holds(packet: &Option<Blob>, bytes: &[u8]) -> bool {
    match packet {
        Some(packet) => packet.as_slice() == bytes,
        None => false,
    }
}

#[test]
fn a_datagram_is_built_over_ipv4(rt: HostRuntime) -> Result<(), AllocError> {
    let packet = built(rt.alloc(), CLIENT, SERVER, b"\x1a\x2b\x01")?;
    let bytes =
        b"\x45\0\0\x1f\0\0\0\0\x40\x11\xf6\x4b\xc0\0\x02\x4d\xc0\0\x02\x35\x9c\x40\0\x35\0\x0b\xc3\xb4\x1a\x2b\x01";
    assert!(rt; holds(&packet, bytes));
    Ok(())
}

#[test]
fn a_datagram_is_built_over_ipv6(rt: HostRuntime) -> Result<(), AllocError> {
    let packet = built(rt.alloc(), CLIENT_OF_IPV6, SERVER_OF_IPV6, b"\x1a\x2b\x01")?;
    let bytes = [
        0x60, 0, 0, 0, 0, 0x0b, 0x11, 0x40, 0x20, 0x01, 0x0d, 0xb8, 0, 0, 0, 0, 0, 0, 0, 0, 0, 0,
        0, 0x4d, 0x20, 0x01, 0x0d, 0xb8, 0, 0, 0, 0, 0, 0, 0, 0, 0, 0, 0, 0x35, 0x9c, 0x40, 0,
        0x35, 0, 0x0b, 0xec, 0x43, 0x1a, 0x2b, 0x01,
    ];
    assert!(rt; holds(&packet, &bytes));
    Ok(())
}

// How many bytes the packet of a payload of so many bytes 0 has, where it is built.
fn size_built(alloc: Global, src: Addr, dst: Addr, size: usize) -> Result<Option<usize>, AllocError>
    requires { src.v6 ≡ dst.v6 }
{
    let payload = vec![in alloc; 0u8; size.min(65_535)]?;
    match built(alloc, src, dst, payload.as_slice())? {
        Some(packet) => Ok(Some(packet.as_slice().len())),
        None => Ok(None),
    }
}

#[test]
fn a_payload_may_be_too_long(rt: HostRuntime) -> Result<(), AllocError> {
    let alloc = rt.alloc();
    assert!(rt; size_built(alloc, CLIENT, SERVER, 65_507)? == Some(65_535));
    assert!(rt; size_built(alloc, CLIENT, SERVER, 65_508)?.is_none());
    assert!(rt; size_built(alloc, CLIENT_OF_IPV6, SERVER_OF_IPV6, 65_527)? == Some(65_575));
    assert!(rt; size_built(alloc, CLIENT_OF_IPV6, SERVER_OF_IPV6, 65_528)?.is_none());
    Ok(())
}
