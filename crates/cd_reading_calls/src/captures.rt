ghost use Rattle.std.specs.Prelude.{◌≡◌, ◌+◌, ◌≤◌, ◌^◌, length, OnOk};

use cd_capture::CaptureReader;
use cd_packet::{BadCapture, CaptureWhy, EndState, FeedFault, Packet, When};
use cd_pcap::PcapReader;
use cd_pcapng::PcapngReader;
use std::alloc::{AllocError, Global};

// Little-endian, microseconds, version 2.4, Ethernet.
const HEADER: [u8; 24] = [
    0xd4, 0xc3, 0xb2, 0xa1, 2, 0, 4, 0, 0, 0, 0, 0, 0, 0, 0, 0, 0, 0, 4, 0, 1, 0, 0, 0,
];

// At 1 s and 2 us: three bytes of five.
const FIRST: [u8; 19] = [1, 0, 0, 0, 2, 0, 0, 0, 3, 0, 0, 0, 5, 0, 0, 0, 7, 8, 9];

// A section of pcapng with one interface of Ethernet.
const SECTION: [u8; 48] = [
    0x0a, 0x0d, 0x0d, 0x0a, 28, 0, 0, 0, 0x4d, 0x3c, 0x2b, 0x1a, 1, 0, 0, 0, 255, 255, 255, 255,
    255, 255, 255, 255, 28, 0, 0, 0, 1, 0, 0, 0, 20, 0, 0, 0, 1, 0, 0, 0, 0, 0, 0, 0, 20, 0, 0, 0,
];

// The same packet as a block of pcapng.
const ENHANCED: [u8; 36] = [
    6, 0, 0, 0, 36, 0, 0, 0, 0, 0, 0, 0, 0, 0, 0, 0, 0x42, 0x42, 0x0f, 0, 3, 0, 0, 0, 5, 0, 0, 0,
    7, 8, 9, 0, 36, 0, 0, 0,
];

// 262,145 captured bytes.
const TOO_LONG: [u8; 16] = [0, 0, 0, 0, 0, 0, 0, 0, 1, 0, 4, 0, 0, 0, 0, 0];

// Whether this is the packet of both formats, at this offset.
fn is_first(packet: &Option<Packet>, at: u64) -> bool {
    match packet {
        Some(packet) => {
            packet.at == at
                && packet.when == When::At(1_000_002_000)
                && packet.link == 1
                && packet.original == 5
                && packet.bytes.as_slice() == [7, 8, 9].as_slice()
        }
        None => false,
    }
}

// Feeds a chunk, and gives the refused place where there is one.
fn feed(reader: &mut PcapReader, chunk: &[u8]) -> Result<Option<BadCapture>, AllocError>
    requires { reader.old.fed_count + length chunk.now ≤ 2 ^ 48 }
    ensures { OnOk result (reader.new.fed_count ≡ reader.old.fed_count + length chunk.now) }
{
    match reader.feed(chunk) {
        Ok(()) => Ok(None),
        Err(FeedFault::Bad(bad)) => Ok(Some(bad)),
        Err(FeedFault::NoMemory) => Err(AllocError),
    }
}

// The same with a reader of pcapng.
fn feed_pcapng(reader: &mut PcapngReader, chunk: &[u8]) -> Result<Option<BadCapture>, AllocError>
    requires { reader.old.fed_count + length chunk.now ≤ 2 ^ 48 }
    ensures { OnOk result (reader.new.fed_count ≡ reader.old.fed_count + length chunk.now) }
{
    match reader.feed(chunk) {
        Ok(()) => Ok(None),
        Err(FeedFault::Bad(bad)) => Ok(Some(bad)),
        Err(FeedFault::NoMemory) => Err(AllocError),
    }
}

// The same with a reader of either format.
fn feed_any(reader: &mut CaptureReader, chunk: &[u8]) -> Result<Option<BadCapture>, AllocError>
    requires { reader.old.fed_count + length chunk.now ≤ 2 ^ 48 }
    ensures { OnOk result (reader.new.fed_count ≡ reader.old.fed_count + length chunk.now) }
{
    match reader.feed(chunk) {
        Ok(()) => Ok(None),
        Err(FeedFault::Bad(bad)) => Ok(Some(bad)),
        Err(FeedFault::NoMemory) => Err(AllocError),
    }
}

#[test]
fn a_capture_comes_in_chunks(rt: HostRuntime) -> Result<(), AllocError> {
    let mut reader = PcapReader::new(rt.alloc());
    assert!(rt; feed(&mut reader, &HEADER)? == None);
    assert!(rt; feed(&mut reader, &FIRST[..7])? == None);
    assert!(rt; reader.end() == EndState::Cut);
    assert!(rt; feed(&mut reader, &FIRST[7..])? == None);
    assert!(rt; is_first(&reader.next()?, 24));
    assert!(rt; reader.next()?.is_none());
    assert!(rt; reader.end() == EndState::Whole);
    Ok(())
}

#[test]
fn a_refused_place_stays(rt: HostRuntime) -> Result<(), AllocError> {
    let place = BadCapture {
        at: 24,
        why: CaptureWhy::Record,
    };
    let mut reader = PcapReader::new(rt.alloc());
    assert!(rt; feed(&mut reader, &HEADER)? == None);
    assert!(rt; feed(&mut reader, &TOO_LONG)? == Some(place));
    assert!(rt; feed(&mut reader, &FIRST)? == Some(place));
    assert!(rt; reader.next()?.is_none());
    assert!(rt; reader.end() == EndState::Bad(place));
    Ok(())
}

#[test]
fn read_bytes_are_let_go(rt: HostRuntime) -> Result<(), AllocError> {
    let mut reader = PcapReader::new(rt.alloc());
    assert!(rt; feed(&mut reader, &HEADER)? == None);
    for index in 0..10_000u64 {
        assert!(rt; feed(&mut reader, &FIRST[..7])? == None);
        assert!(rt; feed(&mut reader, &FIRST[7..])? == None);
        let Some(packet) = reader.next()? else {
            return Err(AllocError);
        };
        assert!(rt; packet.at == 24 + 19 * index);
    }
    Ok(())
}

#[test]
fn a_pcapng_capture_comes_in_chunks(rt: HostRuntime) -> Result<(), AllocError> {
    let mut reader = PcapngReader::new(rt.alloc());
    assert!(rt; feed_pcapng(&mut reader, &SECTION)? == None);
    assert!(rt; feed_pcapng(&mut reader, &ENHANCED[..7])? == None);
    assert!(rt; reader.end() == EndState::Cut);
    assert!(rt; feed_pcapng(&mut reader, &ENHANCED[7..])? == None);
    assert!(rt; is_first(&reader.next()?, 48));
    assert!(rt; reader.next()?.is_none());
    assert!(rt; reader.end() == EndState::Whole);
    Ok(())
}

// The packets before a refused place are given after it is told.
#[test]
fn a_packet_stands_before_a_refused_place(rt: HostRuntime) -> Result<(), AllocError> {
    let place = BadCapture {
        at: 84,
        why: CaptureWhy::BlockLength,
    };
    let mut reader = PcapngReader::new(rt.alloc());
    assert!(rt; feed_pcapng(&mut reader, &SECTION)? == None);
    assert!(rt; feed_pcapng(&mut reader, &ENHANCED)? == None);
    assert!(rt; feed_pcapng(&mut reader, &[0; 8])? == Some(place));
    assert!(rt; feed_pcapng(&mut reader, &SECTION)? == Some(place));
    assert!(rt; is_first(&reader.next()?, 48));
    assert!(rt; reader.next()?.is_none());
    assert!(rt; reader.end() == EndState::Bad(place));
    Ok(())
}

#[test]
fn the_fourth_byte_tells_the_format(rt: HostRuntime) -> Result<(), AllocError> {
    let none = BadCapture {
        at: 0,
        why: CaptureWhy::Magic,
    };
    let mut reader = CaptureReader::new(rt.alloc());
    assert!(rt; feed_any(&mut reader, &HEADER[..3])? == None);
    assert!(rt; reader.end() == EndState::Bad(none));
    assert!(rt; feed_any(&mut reader, &HEADER[3..])? == None);
    assert!(rt; feed_any(&mut reader, &FIRST)? == None);
    assert!(rt; is_first(&reader.next()?, 24));
    let mut other = CaptureReader::new(rt.alloc());
    assert!(rt; feed_any(&mut other, &SECTION[..3])? == None);
    assert!(rt; feed_any(&mut other, &SECTION[3..])? == None);
    assert!(rt; feed_any(&mut other, &ENHANCED)? == None);
    assert!(rt; is_first(&other.next()?, 48));
    assert!(rt; other.next()?.is_none());
    assert!(rt; other.end() == EndState::Whole);
    Ok(())
}
