//! A query for www.example.com with its response, kept whole, is rebuilt to two packets.

ghost use Rattle.std.specs.Prelude.{◌≡◌, All};
ghost use Rattle.cd_rebuild.specs.Rebuilding.{FitsCapture};

use cd_block::{
    Hints, KeptBlock, KeptItem, KeptLists, KeptMalformed, KeptRr, KeptSig, Params, Stamp,
};
use cd_bytes::Out;
use cd_name::{Blob, List, Name, read_name};
use cd_pcap::{write_header, write_packet};
use cd_rebuild::{Raw, packets};
use std::alloc::{AllocError, Global};

// The capture of the two packets: a header, and two records, of which the second comes 20 ms later.
const CAPTURE: &[u8] = b"\x4d\x3c\xb2\xa1\x02\0\x04\0\0\0\0\0\0\0\0\0\0\0\x04\0\x65\0\0\0\
\x00\xf1\x53\x65\x00\xe1\xf5\x05\x48\0\0\0\x48\0\0\0\
\x45\x00\x00\x48\0\0\0\0\x40\x11\xf6\x22\xc0\x00\x02\x4d\xc0\x00\x02\x35\
\x9c\x40\x00\x35\x00\x34\x74\xec\
\x1a\x2b\x01\x20\x00\x01\x00\x00\x00\x00\x00\x01\x03www\x07example\x03com\0\0\x01\0\x01\
\0\0\x29\x04\xd0\0\0\0\0\0\0\
\x00\xf1\x53\x65\x00\x0e\x27\x07\x58\0\0\0\x58\0\0\0\
\x45\x00\x00\x58\0\0\0\0\x40\x11\xf6\x12\xc0\x00\x02\x35\xc0\x00\x02\x4d\
\x00\x35\x9c\x40\x00\x44\x64\xe7\
\x1a\x2b\x81\x80\x00\x01\x00\x01\x00\x00\x00\x01\x03www\x07example\x03com\0\0\x01\0\x01\
\xc0\x0c\0\x01\0\x01\0\0\x01\x2c\0\x04\xc0\x00\x02\x50\
\0\0\x29\x04\xd0\0\0\0\0\0\0";

// A list with no items.
fn none<T>(alloc: Global) -> List<T> {
    List::from_vec(Vec::new(alloc))
}

// A list with one item.
fn one<T: Drop>(alloc: Global, item: T) -> Result<List<T>, AllocError> {
    let mut items = Vec::new(alloc);
    items.push(item)?;
    Ok(List::from_vec(items))
}

// The name that some bytes are.
fn name(alloc: Global, bytes: &[u8]) -> Result<Name, AllocError> {
    match read_name(alloc, bytes, 0) {
        Ok((name, _next)) => Ok(name),
        Err(_) => Err(AllocError),
    }
}

// A resource record.
fn record(
    alloc: Global,
    owner: &[u8],
    numbers: (u16, u16, u64),
    rdata: &[u8],
) -> Result<KeptRr, AllocError> {
    let (rtype, rclass, ttl) = numbers;
    let name = name(alloc, owner)?;
    let rdata = Blob::from_slice(alloc, rdata)?;
    Ok(KeptRr {
        name,
        rtype,
        rclass,
        ttl: Some(ttl),
        rdata: Some(rdata),
    })
}

// No lists.
fn no_lists(alloc: Global) -> KeptLists {
    KeptLists {
        question: none(alloc),
        answer: none(alloc),
        authority: none(alloc),
        additional: none(alloc),
    }
}

// The lists of the response: an address, and an OPT record.
fn response_lists(alloc: Global) -> Result<KeptLists, AllocError> {
    let answer = record(
        alloc,
        b"\x03www\x07example\x03com\0",
        (1, 1, 300),
        b"\xc0\0\x02\x50",
    )?;
    let answer = one(alloc, answer)?;
    let opt = record(alloc, b"\0", (41, 1232, 0), b"")?;
    let additional = one(alloc, opt)?;
    Ok(KeptLists {
        question: none(alloc),
        answer,
        authority: none(alloc),
        additional,
    })
}

// The signature, with these transport flags.
fn signature(alloc: Global, transport_flags: Option<u8>) -> Result<KeptSig, AllocError> {
    let server_address = Blob::from_slice(alloc, b"\xc0\0\x02\x35")?;
    let opt_rdata = Blob::from_slice(alloc, b"")?;
    Ok(KeptSig {
        server_address: Some(server_address),
        server_port: Some(53),
        transport_flags,
        sig_flags: Some(0x0f),
        opcode: Some(0),
        dns_flags: Some(0x1812),
        query_rcode: Some(0),
        classtype: Some((1, 1)),
        qd: Some(1),
        an: Some(0),
        ns: Some(0),
        ar: Some(1),
        edns_version: Some(0),
        udp_size: Some(1232),
        opt_rdata: Some(opt_rdata),
        response_rcode: Some(0),
    })
}

// The item, with these transport flags.
fn item(alloc: Global, transport_flags: Option<u8>) -> Result<KeptItem, AllocError> {
    let client_address = Blob::from_slice(alloc, b"\xc0\0\x02\x4d")?;
    let signature = signature(alloc, transport_flags)?;
    let query_name = name(alloc, b"\x03www\x07example\x03com\0")?;
    let response_extended = response_lists(alloc)?;
    Ok(KeptItem {
        time_offset: Some(0),
        client_address: Some(client_address),
        client_port: Some(40_000),
        transaction_id: Some(0x1a2b),
        signature: Some(signature),
        client_hoplimit: Some(64),
        response_delay: Some(20_000),
        query_name: Some(query_name),
        query_size: Some(44),
        response_size: Some(60),
        query_extended: no_lists(alloc),
        response_extended,
    })
}

// A block with this item and a malformed message of which nothing is kept.
fn block(alloc: Global, item: KeptItem) -> Result<KeptBlock, AllocError> {
    let items = one(alloc, item)?;
    let empty = KeptMalformed {
        time_offset: None,
        client_address: None,
        client_port: None,
        message_data: None,
    };
    let malformed = one(alloc, empty)?;
    Ok(KeptBlock {
        earliest: Some(Stamp {
            seconds: 0x6553_f100,
            ticks: 100_000,
        }),
        params: 0,
        stats: None,
        items,
        malformed,
    })
}

// Parameters with a tick of a microsecond.
fn microseconds(alloc: Global) -> Params
    ensures { result.ticks ≡ 1000000 }
{
    Params {
        ticks: 1_000_000,
        max_items: 5_000,
        hints: Hints {
            qr: 0,
            sig: 0,
            rr: 0,
            other: 0,
        },
        opcodes: 0,
        rr_types: none(alloc),
        flags: 0,
        prefixes: [None, None, None, None],
        query_ms: None,
        skew_us: None,
    }
}

// The capture of these packets.
fn capture(alloc: Global, packets: &[Raw]) -> Result<Out, AllocError>
    requires { All FitsCapture packets.now }
{
    let mut out = Out::new(alloc);
    write_header(&mut out)?;
    'packets: for packet in packets {
        write_packet(alloc, &mut out, packet.time, packet.bytes.as_slice())?;
    }
    Ok(out)
}

#[test]
fn a_pair_is_two_packets(rt: HostRuntime) -> Result<(), AllocError> {
    let alloc = rt.alloc();
    let kept = block(alloc, item(alloc, Some(0))?)?;
    let rebuilt = packets(alloc, &kept, &microseconds(alloc))?;
    assert_eq!(rt; rebuilt.bare, 1);
    assert_eq!(rt; rebuilt.not_udp, 0);
    assert_eq!(rt; rebuilt.too_long, 0);
    let out = capture(alloc, rebuilt.packets.as_slice())?;
    assert!(rt; out.bytes() == CAPTURE);
    Ok(())
}

#[test]
fn a_pair_over_tcp_is_none(rt: HostRuntime) -> Result<(), AllocError> {
    let alloc = rt.alloc();
    let kept = block(alloc, item(alloc, Some(2))?)?;
    let rebuilt = packets(alloc, &kept, &microseconds(alloc))?;
    assert_eq!(rt; rebuilt.packets.as_slice().len(), 0);
    assert_eq!(rt; rebuilt.not_udp, 1);
    Ok(())
}
