//! What the tests share: captures of queries and their responses, sinks and words.

use cd_name::{Blob, List};
use cd_ports::{MemSink, Source, SureSource};
use cd_top::{Status, run_plain};
use std::alloc::{AllocError, Global};

// Little-endian pcap of microseconds, version 2.4, Ethernet.
const HEADER: [u8; 24] = [
    0xd4, 0xc3, 0xb2, 0xa1, 2, 0, 4, 0, 0, 0, 0, 0, 0, 0, 0, 0, 0, 0, 4, 0, 1, 0, 0, 0,
];

// The parts of a record of 70 bytes: a query with id 0x1a2b and the flag RD, from port 40000 of a client to 192.0.2.53, port
// 53. Before the front stands the time, and between front and back the client's address.
const QUERY_FRONT: &[u8] = &[
    54, 0, 0, 0, 54, 0, 0, 0, 0x02, 0, 0, 0, 0, 0x01, 0x02, 0, 0, 0, 0, 0x02, 0x08, 0x00, 0x45, 0,
    0, 40, 0, 0, 0, 0, 64, 17, 0, 0,
];

const QUERY_BACK: &[u8] = &[
    192, 0, 2, 53, 0x9c, 0x40, 0, 53, 0, 20, 0, 0, 0x1a, 0x2b, 0x01, 0x00, 0, 0, 0, 0, 0, 0, 0, 0,
];

// The parts of the record of its response, with the flags QR, RD and RA.
const RESPONSE_FRONT: &[u8] = &[
    54, 0, 0, 0, 54, 0, 0, 0, 0x02, 0, 0, 0, 0, 0x02, 0x02, 0, 0, 0, 0, 0x01, 0x08, 0x00, 0x45, 0,
    0, 40, 0, 0, 0, 0, 64, 17, 0, 0, 192, 0, 2, 53,
];

const RESPONSE_BACK: &[u8] = &[
    0, 53, 0x9c, 0x40, 0, 20, 0, 0, 0x1a, 0x2b, 0x81, 0x80, 0, 0, 0, 0, 0, 0, 0, 0,
];

// Appends so many records that differ in their time and in their client: each 100 microseconds after the one before, the first
// 100 ms after a second of the year 2023, and from the next client 10.x.y.z.
fn push_records(
    bytes: &mut Vec<u8>,
    second: u32,
    front: &[u8],
    back: &[u8],
    count: u32,
) -> Result<(), AllocError> {
    for number in 0..count {
        let seconds = second.to_le_bytes();
        let micros = number
            .saturating_mul(100)
            .saturating_add(100_000)
            .to_le_bytes();
        let [_, high, middle, low] = number.to_be_bytes();
        let client = [10, high, middle, low];
        for piece in [
            seconds.as_slice(),
            micros.as_slice(),
            front,
            client.as_slice(),
            back,
        ] {
            bytes.extend_from_slice(piece)?;
        }
    }
    Ok(())
}

/// A capture of so many queries, and then their responses in the same order.
pub fn capture(alloc: Global, count: u32) -> Result<Vec<u8>, AllocError> {
    let mut bytes = Vec::from_slice(alloc, &HEADER)?;
    push_records(&mut bytes, 1_700_000_000, QUERY_FRONT, QUERY_BACK, count)?;
    push_records(
        &mut bytes,
        1_700_000_001,
        RESPONSE_FRONT,
        RESPONSE_BACK,
        count,
    )?;
    Ok(bytes)
}

/// A sink that never fails.
pub fn sound_sink(alloc: Global) -> MemSink {
    MemSink::new(alloc, List::from_vec(Vec::new(alloc)), 0)
}

/// A list of one number of a call.
pub fn only(alloc: Global, call: u64) -> Result<List<u64>, AllocError> {
    Ok(List::from_vec(vec![in alloc; call]?))
}

/// Words of a command line.
pub fn words_of(alloc: Global, words: &[&[u8]]) -> Result<Vec<Blob>, AllocError> {
    let mut blobs = Vec::new(alloc);
    for word in words {
        blobs.push(Blob::from_vec(Vec::from_slice(alloc, word)?))?;
    }
    Ok(blobs)
}

/// Compacts the capture of a source. The report stays empty where the output fails, and only there.
pub fn compacted<S: Source>(
    alloc: Global,
    src: &mut S,
    out: &mut MemSink,
) -> Result<Status, AllocError> {
    let words = words_of(
        alloc,
        &[b"compact", b"--opcodes", b"0", b"--rr-types", b"1"],
    )?;
    let mut report = sound_sink(alloc);
    let status = run_plain(alloc, &words, src, out, &mut report);
    if report.contents().is_empty() == (status == Status::WriteFault) {
        Ok(status)
    } else {
        Err(AllocError)
    }
}

/// The file of a capture whose run is `Done`, with devices that never fail.
pub fn file_of(alloc: Global, capture: Vec<u8>) -> Result<Vec<u8>, AllocError> {
    let mut src = SureSource::new(Blob::from_vec(capture));
    let mut out = sound_sink(alloc);
    if compacted(alloc, &mut src, &mut out)? != Status::Done {
        return Err(AllocError);
    }
    Vec::from_slice(alloc, out.contents())
}
