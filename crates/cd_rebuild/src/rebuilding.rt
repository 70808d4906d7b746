//! What a block is rebuilt to.

ghost use Rattle.std.specs.Prelude.{◌≡◌, ◌<◌, ◌≤◌, ◌++◌, IfOk, OnOk, All};
ghost use Rattle.std.specs.List.{flat_map, filter_map};
ghost use Rattle.cd_rebuild.specs.Datagrams.{item_sendings, malformed_sendings};
ghost use Rattle.cd_rebuild.specs.Order.{by_time};
ghost use Rattle.cd_rebuild.specs.Rebuilding;
ghost use Rattle.cd_rebuild.specs.Rebuilding.{FitsCapture};

use crate::counts::{bare_count, not_udp_count, too_long_count};
use crate::rebuilt_block::{Raw, RebuiltBlock};
use crate::sending::Sending;
use crate::sendings::{put_item, put_malformed};
use cd_block::{KeptBlock, KeptItem, KeptMalformed, Params, Stamp};
use cd_name::List;
use std::alloc::{AllocError, Global};

// What is sent of some items. An `Err` is for want of memory.
#[tactic(auto, using(crate::proofs::Flattening::flat_map_next))]
fn sendings_of_items(
    alloc: Global,
    ticks: u64,
    earliest: Option<Stamp>,
    items: &[KeptItem],
) -> Result<Vec<Sending>, AllocError>
    requires least { 0 < ticks }
    requires most { ticks ≤ 1000000000 }
    ensures { IfOk result (λ sendings. sendings.items ≡ flat_map (item_sendings ticks earliest) items.now) }
{
    let mut sendings = Vec::new(alloc);
    'items: for item in items {
        put_item(&mut sendings, ticks, earliest, item)?;
    }
    Ok(sendings)
}

// Puts what is sent of some malformed messages after what is sent before it. An `Err` is for want of memory.
#[tactic(auto, using(crate::proofs::Flattening::flat_map_next))]
fn put_malformed_ones(
    sendings: &mut Vec<Sending>,
    ticks: u64,
    earliest: Option<Stamp>,
    malformed: &[KeptMalformed],
) -> Result<(), AllocError>
    requires least { 0 < ticks }
    requires most { ticks ≤ 1000000000 }
    ensures { OnOk result (sendings.new.items ≡
        sendings.old.items ++ flat_map (malformed_sendings ticks earliest) malformed.now) }
{
    'malformed: for message in malformed {
        put_malformed(sendings, ticks, earliest, message)?;
    }
    Ok(())
}

// What is sent of a block. An `Err` is for want of memory.
fn block_sendings(alloc: Global, ticks: u64, kept: &KeptBlock) -> Result<Vec<Sending>, AllocError>
    requires least { 0 < ticks }
    requires most { ticks ≤ 1000000000 }
    ensures { IfOk result (λ sendings. sendings.items ≡ Rebuilding.block_sendings ticks kept.now) }
{
    let earliest = kept.earliest;
    let mut sendings = sendings_of_items(alloc, ticks, earliest, kept.items.as_slice())?;
    put_malformed_ones(&mut sendings, ticks, earliest, kept.malformed.as_slice())?;
    Ok(sendings)
}

// The packets of what is sent. An `Err` is for want of memory.
fn packets_of(alloc: Global, sendings: Vec<Sending>) -> Result<Vec<Raw>, AllocError>
    ensures { IfOk result (λ packets. packets.items ≡ filter_map Rebuilding.packet_of sendings.items) }
{
    let mut packets = Vec::with_capacity(alloc, sendings.len())?;
    'sendings: for sending in sendings {
        let Sending { time, packet } = sending;
        match packet {
            Some(bytes) => {
                packets.push(Raw { time, bytes })?;
            }
            None => {}
        }
    }
    Ok(packets)
}

// Packets in the order of their times. An `Err` is for want of memory.
fn in_order(mut packets: Vec<Raw>) -> Result<List<Raw>, AllocError>
    ensures { IfOk result (λ ordered. ordered ≡ by_time packets.items) }
{
    packets.sort_by_key(|packet| packet.time)?;
    Ok(List::from_vec(packets))
}

/// The packets that a kept block is rebuilt to, in the order of their times, and how much of the block has none (RFC 8618
/// 7.3.2). Each packet fits a record of a capture. A second has 1 to 1,000,000,000 ticks by these parameters. An `Err` is for want of memory.
#[tactic(auto, using(crate::proofs::Fitting::packets_fit))]
pub fn packets(alloc: Global, kept: &KeptBlock, params: &Params) -> Result<RebuiltBlock, AllocError>
    requires least { 0 < params.now.ticks }
    requires most { params.now.ticks ≤ 1000000000 }
    ensures fit { IfOk result (λ block. All FitsCapture block.packets) }
    ensures packets { IfOk result (λ block. block.packets ≡ Rebuilding.block_packets params.now.ticks kept.now) }
    ensures bare { IfOk result (λ block. block.bare ≡ Rebuilding.bare_count kept.now) }
    ensures not_udp { IfOk result (λ block. block.not_udp ≡ Rebuilding.not_udp_count kept.now) }
    ensures too_long { IfOk result (λ block. block.too_long ≡ Rebuilding.too_long_count params.now.ticks kept.now) }
{
    let bare = bare_count(kept);
    let not_udp = not_udp_count(kept);
    let sendings = block_sendings(alloc, params.ticks, kept)?;
    let too_long = too_long_count(sendings.as_slice());
    let packets = in_order(packets_of(alloc, sendings)?)?;
    Ok(RebuiltBlock {
        packets,
        bare,
        not_udp,
        too_long,
    })
}
