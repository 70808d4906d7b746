//! Writes a capture: its header, and the record of a packet (the pcap draft, 4 and 5).

ghost use Rattle.std.specs.Prelude.{◌≡◌, ◌<◌, ◌≤◌, ◌/◌, ◌%◌, ◌++◌, length, IfOk, OnOk, OnErr};
ghost use Rattle.cd_packet.specs.Time.{end_of_time};
ghost use Rattle.cd_pcap.specs.Spelled.{record_header, spelling_of};
ghost use Rattle.cd_pcap.specs.Writing.{written_form, written_header, written_record};

use cd_bytes::Out;
use std::alloc::{AllocError, Global};

// A second in nanoseconds.
const SECOND: u64 = 1_000_000_000;

// The header of a capture of IP packets, with times in nanoseconds: magic, version 2.4, time zone and accuracy 0, the
// greatest captured length 262,144 and the link type 101, each in little-endian order.
const HEADER: [u8; 24] = [
    0x4d, 0x3c, 0xb2, 0xa1, 2, 0, 4, 0, 0, 0, 0, 0, 0, 0, 0, 0, 0, 0, 4, 0, 101, 0, 0, 0,
];

/// Writes the header of a capture of IP packets with no link header (link type 101), whose times are in nanoseconds. For
/// want of memory nothing is written.
pub fn write_header(out: &mut Out) -> Result<(), AllocError>
    ensures ok { OnOk result (out.new ≡ out.old ++ written_header) }
    ensures err { OnErr result (out.new ≡ out.old) }
{
    out.push_slice(&HEADER)
}

// The bytes of a record before the captured ones: seconds, nanoseconds, captured length and original length.
fn packet_record_header(time: u64, count: u32) -> [u8; 16]
    requires { time < end_of_time }
    ensures { result ≡ record_header written_form (time / 1000000000) (time % 1000000000) count count }
{
    let [s0, s1, s2, s3] = ((time / SECOND) as u32).to_le_bytes();
    let [n0, n1, n2, n3] = ((time % SECOND) as u32).to_le_bytes();
    let [c0, c1, c2, c3] = count.to_le_bytes();
    [
        s0, s1, s2, s3, n0, n1, n2, n3, c0, c1, c2, c3, c0, c1, c2, c3,
    ]
}

// The bytes of a record. An `Err` is for want of memory.
fn record_bytes(alloc: Global, time: u64, bytes: &[u8]) -> Result<Vec<u8>, AllocError>
    requires time { time < end_of_time }
    requires few { length bytes.now ≤ 262144 }
    ensures { IfOk result (λ whole. whole.items ≡ spelling_of written_form (written_record time bytes.now)) }
{
    let mut whole = Vec::with_capacity(alloc, bytes.len() + 16)?;
    whole.extend_from_slice(&packet_record_header(time, bytes.len() as u32))?;
    whole.extend_from_slice(bytes)?;
    Ok(whole)
}

/// Writes the record of a packet of IP, all of it captured, after the header and the records before it. Its time is below
/// 2^32 seconds, in nanoseconds since 1970. For want of memory nothing is written.
pub fn write_packet(alloc: Global, out: &mut Out, time: u64, bytes: &[u8]) -> Result<(), AllocError>
    requires time { time < end_of_time }
    requires few { length bytes.now ≤ 262144 }
    ensures ok { OnOk result (out.new ≡ out.old ++ spelling_of written_form (written_record time bytes.now)) }
    ensures err { OnErr result (out.new ≡ out.old) }
{
    let whole = record_bytes(alloc, time, bytes)?;
    out.push_slice(whole.as_slice())
}
