//! The reader of the format that the first bytes of a capture tell.

ghost use Rattle.std.specs.Prelude.{◌≡◌, ℕ, ◌+◌, ◌<◌, ◌≤◌, ◌^◌, [], ◌++◌, List, length, IfOk, OnOk};
ghost use Rattle.cd_packet.specs.declared.packet.Packet.{Packet};
ghost use Rattle.cd_pcap.specs.Reading as pcap_reader;
ghost use Rattle.cd_pcapng.specs.Blocks.{is_section_header};
ghost use Rattle.cd_pcapng.specs.Giving as pcapng_giving;
ghost use Rattle.cd_pcapng.specs.Laws.{least_block_length};
ghost use Rattle.cd_pcapng.specs.Reading as pcapng_reader;
ghost use Rattle.std.specs.List.{sum_by};

use arrayvec::ArrayVec;
use cd_packet::{FeedFault, has_magic};
use cd_pcap::PcapReader;
use cd_pcapng::PcapngReader;
use std::alloc::{AllocError, Global};

/// How many bytes tell the format of a capture.
pub const MAGIC_SIZE: usize = 4;

// The first four bytes of a pcapng capture: the type of a section header.
const SECTION_HEADER: u32 = 0x0a0d_0d0a;

/// Whether a section header is in front of a capture, of which these first bytes came, and then these others.
pub fn begins_section(first: &[u8], piece: &[u8]) -> bool
    requires few { length first.now < 4 }
    requires many { 4 ≤ length first.now + length piece.now }
    ensures { result ≡ is_section_header (first.now ++ piece.now) }
{
    let missing = MAGIC_SIZE - first.len();
    let mut magic: ArrayVec<u8, MAGIC_SIZE> = ArrayVec::new();
    let _ = magic.try_extend_from_slice(first);
    let _ = magic.try_extend_from_slice(&piece[..missing]);
    has_magic(&magic, SECTION_HEADER)
}

// Feeds a piece to a reader of pcap. A refused place in it is told by the reader's end.
fn feed_pcap(reader: &mut PcapReader, piece: &[u8]) -> Result<(), AllocError>
    requires { reader.old.fed_count + length piece.now ≤ 2 ^ 48 }
    ensures history { OnOk result ((fed : List ℕ) (given : List Packet) → pcap_reader.StandsFor reader.old fed given →
        pcap_reader.StandsFor reader.new (fed ++ piece.now) given) }
    ensures count { OnOk result (reader.new.fed_count ≡ reader.old.fed_count + length piece.now) }
{
    match reader.feed(piece) {
        Ok(()) => Ok(()),
        Err(FeedFault::Bad(_)) => Ok(()),
        Err(FeedFault::NoMemory) => Err(AllocError),
    }
}

// Feeds a piece to a reader of pcapng. A refused place in it is told by the reader's end.
fn feed_pcapng(reader: &mut PcapngReader, piece: &[u8]) -> Result<(), AllocError>
    requires { reader.old.fed_count + length piece.now ≤ 2 ^ 48 }
    ensures history { OnOk result ((fed : List ℕ) (given : List Packet) →
        pcapng_reader.StandsFor reader.old fed given → pcapng_reader.StandsFor reader.new (fed ++ piece.now) given) }
    ensures count { OnOk result (reader.new.fed_count ≡ reader.old.fed_count + length piece.now) }
    ensures place { OnOk result (pcapng_giving.HasRoom reader.old reader.new) }
{
    match reader.feed(piece) {
        Ok(()) => Ok(()),
        Err(FeedFault::Bad(_)) => Ok(()),
        Err(FeedFault::NoMemory) => Err(AllocError),
    }
}

/// A reader of pcap that was fed these first bytes, and then these others.
pub fn pcap_begun(alloc: Global, first: &[u8], piece: &[u8]) -> Result<PcapReader, AllocError>
    requires { length first.now + length piece.now ≤ 2 ^ 48 }
    ensures history { IfOk result (λ r. pcap_reader.StandsFor r (first.now ++ piece.now) []) }
    ensures count { IfOk result (λ r. r.fed_count ≡ length first.now + length piece.now) }
{
    let mut reader = PcapReader::new(alloc);
    feed_pcap(&mut reader, first)?;
    feed_pcap(&mut reader, piece)?;
    Ok(reader)
}

/// A reader of pcapng that was fed these first bytes, and then these others.
pub fn pcapng_begun(alloc: Global, first: &[u8], piece: &[u8]) -> Result<PcapngReader, AllocError>
    requires { length first.now + length piece.now ≤ 2 ^ 48 }
    ensures history { IfOk result (λ r. pcapng_reader.StandsFor r (first.now ++ piece.now) []) }
    ensures count { IfOk result (λ r. r.fed_count ≡ length first.now + length piece.now) }
    ensures room { IfOk result (λ r. (sum_by least_block_length r.ready ≤ r.at) × (r.at ≤ 2 ^ 48)) }
{
    let mut reader = PcapngReader::new(alloc);
    feed_pcapng(&mut reader, first)?;
    feed_pcapng(&mut reader, piece)?;
    Ok(reader)
}
