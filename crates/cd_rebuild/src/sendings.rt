//! What is sent of items and of malformed messages.

ghost use Rattle.std.specs.Prelude.{◌≡◌, ◌<◌, ◌≤◌, [], ◌∷◌, ◌++◌, IfOk, OnOk, if◌then◌else◌, unwrap_or};
ghost use Rattle.cd_rebuild.specs.Datagrams;
ghost use Rattle.cd_rebuild.specs.Flags.{has_query, has_response};

use crate::addresses::{item_ends, malformed_ends};
use crate::datagrams::{DEFAULT_HOP, query_packet, response_packet, to_server};
use crate::flags::{has_query, has_response, is_data_sent, is_signature_sent};
use crate::messages::{query_of, response_of};
use crate::sending::Sending;
use crate::times::{nanoseconds, offset_tick, response_tick};
use cd_block::{KeptData, KeptItem, KeptMalformed, KeptSig, Stamp};
use std::alloc::{AllocError, Global};

// The query of an item, as it is sent. An `Err` is for want of memory.
fn query_sending(
    alloc: Global,
    ticks: u64,
    earliest: Option<Stamp>,
    item: &KeptItem,
    signature: &KeptSig,
) -> Result<Sending, AllocError>
    requires least { 0 < ticks }
    requires most { ticks ≤ 1000000000 }
    ensures { IfOk result (λ sending. sending ≡ Datagrams.query_sending ticks earliest item.now signature.now) }
{
    let time = nanoseconds(ticks, offset_tick(ticks, earliest, item.time_offset));
    let hop = item.client_hoplimit.unwrap_or(DEFAULT_HOP);
    let ends = item_ends(item, signature);
    let query = query_of(alloc, item, signature)?;
    let packet = query_packet(alloc, &ends, time, hop, &query)?;
    Ok(Sending { time, packet })
}

// The response of an item, as it is sent. An `Err` is for want of memory.
fn response_sending(
    alloc: Global,
    ticks: u64,
    earliest: Option<Stamp>,
    item: &KeptItem,
    signature: &KeptSig,
) -> Result<Sending, AllocError>
    requires least { 0 < ticks }
    requires most { ticks ≤ 1000000000 }
    ensures { IfOk result (λ sending. sending ≡ Datagrams.response_sending ticks earliest item.now signature.now) }
{
    let tick = offset_tick(ticks, earliest, item.time_offset);
    let tick_of_response = response_tick(has_query(signature), item.response_delay, tick);
    let time = nanoseconds(ticks, tick_of_response);
    let ends = item_ends(item, signature);
    let response = response_of(alloc, item, signature)?;
    let packet = response_packet(alloc, &ends, time, &response)?;
    Ok(Sending { time, packet })
}

// Puts the query of an item after what is sent before it, where it has one. An `Err` is for want of memory.
fn put_query(
    sendings: &mut Vec<Sending>,
    ticks: u64,
    earliest: Option<Stamp>,
    item: &KeptItem,
    signature: &KeptSig,
) -> Result<(), AllocError>
    requires least { 0 < ticks }
    requires most { ticks ≤ 1000000000 }
    ensures { OnOk result (sendings.new.items ≡ sendings.old.items ++ (if has_query signature.now
        then Datagrams.query_sending ticks earliest item.now signature.now ∷ [] else [])) }
{
    if !has_query(signature) {
        return Ok(());
    }
    let alloc = *sendings.allocator();
    let sending = query_sending(alloc, ticks, earliest, item, signature)?;
    sendings.push(sending)?;
    Ok(())
}

// Puts the response of an item after what is sent before it, where it has one. An `Err` is for want of memory.
fn put_response(
    sendings: &mut Vec<Sending>,
    ticks: u64,
    earliest: Option<Stamp>,
    item: &KeptItem,
    signature: &KeptSig,
) -> Result<(), AllocError>
    requires least { 0 < ticks }
    requires most { ticks ≤ 1000000000 }
    ensures { OnOk result (sendings.new.items ≡ sendings.old.items ++ (if has_response signature.now
        then Datagrams.response_sending ticks earliest item.now signature.now ∷ [] else [])) }
{
    if !has_response(signature) {
        return Ok(());
    }
    let alloc = *sendings.allocator();
    let sending = response_sending(alloc, ticks, earliest, item, signature)?;
    sendings.push(sending)?;
    Ok(())
}

// Puts what is sent of an item with this signature after what is sent before it. An `Err` is for want of memory.
fn put_signed(
    sendings: &mut Vec<Sending>,
    ticks: u64,
    earliest: Option<Stamp>,
    item: &KeptItem,
    signature: &KeptSig,
) -> Result<(), AllocError>
    requires least { 0 < ticks }
    requires most { ticks ≤ 1000000000 }
    ensures { OnOk result (sendings.new.items ≡
        sendings.old.items ++ Datagrams.signed_sendings ticks earliest item.now signature.now) }
{
    put_query(sendings, ticks, earliest, item, signature)?;
    put_response(sendings, ticks, earliest, item, signature)?;
    Ok(())
}

// Puts what is sent of an item after what is sent before it. An `Err` is for want of memory.
pub(crate) fn put_item(
    sendings: &mut Vec<Sending>,
    ticks: u64,
    earliest: Option<Stamp>,
    item: &KeptItem,
) -> Result<(), AllocError>
    requires least { 0 < ticks }
    requires most { ticks ≤ 1000000000 }
    ensures { OnOk result (sendings.new.items ≡
        sendings.old.items ++ Datagrams.item_sendings ticks earliest item.now) }
{
    match &item.signature {
        Some(signature) => {
            if !is_signature_sent(signature) {
                return Ok(());
            }
            put_signed(sendings, ticks, earliest, item, signature)?;
            Ok(())
        }
        None => Ok(()),
    }
}

// The payload of a malformed message.
fn payload_of(details: &KeptData) -> &[u8]
    ensures { result.now ≡ unwrap_or details.now.payload [] }
{
    match &details.payload {
        Some(payload) => payload.as_slice(),
        None => &[],
    }
}

// A malformed message with these data, as it is sent. An `Err` is for want of memory.
fn malformed_sending(
    alloc: Global,
    ticks: u64,
    earliest: Option<Stamp>,
    message: &KeptMalformed,
    details: &KeptData,
) -> Result<Sending, AllocError>
    requires least { 0 < ticks }
    requires most { ticks ≤ 1000000000 }
    ensures { IfOk result (λ sending. sending ≡
        Datagrams.malformed_sending ticks earliest message.now details.now (unwrap_or details.now.payload [])) }
{
    let time = nanoseconds(ticks, offset_tick(ticks, earliest, message.time_offset));
    let ends = malformed_ends(message, details);
    let packet = to_server(alloc, &ends, time, DEFAULT_HOP, payload_of(details))?;
    Ok(Sending { time, packet })
}

// Puts what is sent of a malformed message after what is sent before it. An `Err` is for want of memory.
pub(crate) fn put_malformed(
    sendings: &mut Vec<Sending>,
    ticks: u64,
    earliest: Option<Stamp>,
    message: &KeptMalformed,
) -> Result<(), AllocError>
    requires least { 0 < ticks }
    requires most { ticks ≤ 1000000000 }
    ensures { OnOk result (sendings.new.items ≡
        sendings.old.items ++ Datagrams.malformed_sendings ticks earliest message.now) }
{
    match &message.message_data {
        Some(details) => {
            if !is_data_sent(details) {
                return Ok(());
            }
            let alloc = *sendings.allocator();
            let sending = malformed_sending(alloc, ticks, earliest, message, details)?;
            sendings.push(sending)?;
            Ok(())
        }
        None => Ok(()),
    }
}
