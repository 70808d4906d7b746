//! Writes a capture of the packets that the blocks of a file are rebuilt to, and counts them (RFC 8618 7.3.2).

ghost use Rattle.std.specs.Prelude.{◌≡◌, ◌+◌, ◌++◌, All, length, OnOk};
ghost use Rattle.std.specs.List.{flat_map};
ghost use Rattle.cd_inspection.specs.ReadCounting.{held_in_64};
ghost use Rattle.cd_inspection.specs.Rebuilding.{packet_record};
ghost use Rattle.cd_rebuild.specs.Rebuilding.{FitsCapture};

use crate::counting::{NO_READ_COUNTS, ReadCounts, counts_with};
use crate::inspector::Inspector;
use cd_block::{KeptBlock, Params};
use cd_bytes::Out;
use cd_pcap::{write_header, write_packet};
use cd_rebuild::{Raw, RebuiltBlock, packets};
use std::alloc::{AllocError, Global};

// Writes the records of packets in their order. An `Err` is for want of memory.
fn write_packets(alloc: Global, packets: &[Raw], out: &mut Out) -> Result<(), AllocError>
    requires { All FitsCapture packets.now }
    ensures { OnOk result (out.new ≡ out.old ++ flat_map packet_record packets.now) }
{
    'packets: for packet in packets {
        write_packet(alloc, out, packet.time, packet.bytes.as_slice())?;
    }
    Ok(())
}

// The counts with what a block was rebuilt to.
fn with_rebuilt(counts: ReadCounts, rebuilt: &RebuiltBlock) -> ReadCounts
    ensures { result ≡ record counts {
      packets = held_in_64 (counts.packets + length rebuilt.now.packets);
      bare = held_in_64 (counts.bare + rebuilt.now.bare);
      not_udp = held_in_64 (counts.not_udp + rebuilt.now.not_udp);
      too_long = held_in_64 (counts.too_long + rebuilt.now.too_long);
    } }
{
    let mut counts = counts;
    counts.packets = counts
        .packets
        .saturating_add(rebuilt.packets.as_slice().len() as u64);
    counts.bare = counts.bare.saturating_add(rebuilt.bare);
    counts.not_udp = counts.not_udp.saturating_add(rebuilt.not_udp);
    counts.too_long = counts.too_long.saturating_add(rebuilt.too_long);
    counts
}

/// Writes a capture of IP packets, of each block those that it is rebuilt to, and counts them with the blocks.
pub struct PacketRebuilding;

impl Inspector for PacketRebuilding {
    ghost use Rattle.cd_inspection.specs.Rebuilding.{rebuilding};

    type Counts = ReadCounts;

    ghost rendering = { rebuilding };

    fn begin(out: &mut Out) -> Result<(), AllocError> {
        write_header(out)
    }

    fn no_counts() -> ReadCounts {
        NO_READ_COUNTS
    }

    fn inspect(
        alloc: Global,
        kept: &KeptBlock,
        params: &Params,
        counts: ReadCounts,
        out: &mut Out,
    ) -> Result<ReadCounts, AllocError> {
        let rebuilt = packets(alloc, kept, params)?;
        write_packets(alloc, rebuilt.packets.as_slice(), out)?;
        Ok(with_rebuilt(counts_with(counts, kept), &rebuilt))
    }
}
