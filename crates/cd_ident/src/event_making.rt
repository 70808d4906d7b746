//! The event of a datagram.

ghost use Rattle.std.specs.Prelude.{◌≡◌, ◌≤◌, length, IfOk};
ghost use Rattle.cd_message.specs.Valid.{Valid};
ghost use Rattle.cd_pairing.specs.declared.keyed.TheConstants.{LEAST_WEIGHT as least_weight};
ghost use Rattle.cd_ident.specs.Bodies.{HasBody};
ghost use Rattle.cd_ident.specs.Datagrams.{datagram_of};
ghost use Rattle.cd_ident.specs.Events.{event_parts, malformed_parts, message_parts, parts_of_payload};
ghost use Rattle.cd_ident.specs.Identifiers.{transport_of};
ghost use Rattle.cd_ident.specs.Identifiers;
ghost use Rattle.cd_ident.specs.KeptEnds.{kept_ends};
ghost use Rattle.cd_ident.specs.Keys.{parts_of};

use crate::ends::{Ends, ends_of};
use crate::header::{is_query, opcode_of};
use crate::primary::primary_of;
use crate::secondary::secondary_of;
use crate::{Body, Event, EventRules, Ids, Kind};
use cd_message::{ParseFault, Parsed, parse, weight};
use cd_name::Blob;
use cd_packet::Dgram;
use cd_pairing::LEAST_WEIGHT;
use std::alloc::{AllocError, Global};

/// No event of a datagram whose payload has at most 65,535 bytes weighs more. None weighs less than `LEAST_WEIGHT` of
/// cd_pairing.
pub const GREATEST_WEIGHT: u64 = 3_400_000;

// The identifiers of what is no message, or is not listed.
fn bare_ids(ends: &Ends) -> Ids
    ensures exact { result ≡ Identifiers.bare_ids (kept_ends ends.now) }
    ensures transport { transport_of result ≤ 15 }
{
    Ids {
        primary: primary_of(ends, 0, 0),
        secondary: None,
    }
}

// The event of a datagram between these ends, whose payload is this.
fn event_between(
    dgram: &Dgram,
    ends: Ends,
    kind: Kind,
    trailing: bool,
    ids: Ids,
    weight: u64,
    body: Body,
) -> Event
    requires one_version { ends.client.v6 ≡ ends.server.v6 }
    requires fits { length dgram.now.payload.now ≤ 65535 }
    requires small_transport { transport_of ids ≤ 15 }
    requires heavy { least_weight ≤ weight }
    requires has_body { HasBody kind body }
    ensures { parts_of result ≡
        parts_of_payload (datagram_of dgram.now) (kept_ends ends) kind trailing ids weight body }
{
    Event {
        time: dgram.time,
        kind,
        client: ends.client,
        server: ends.server,
        client_port: ends.client_port,
        server_port: ends.server_port,
        hop: dgram.hop,
        size: dgram.payload.len() as u32,
        trailing,
        ids,
        weight,
        body,
    }
}

// The event of a payload that is no message.
fn malformed_event(alloc: Global, dgram: &Dgram, rules: &EventRules) -> Result<Event, AllocError>
    requires one_version { dgram.now.src.v6 ≡ dgram.now.dst.v6 }
    requires fits { length dgram.now.payload.now ≤ 65535 }
    ensures { IfOk result (λ e. parts_of e ≡ malformed_parts rules.now (datagram_of dgram.now)) }
{
    let ends = ends_of(dgram.dport == rules.port, dgram);
    let payload = Vec::from_slice(alloc, dgram.payload)?;
    let weight = LEAST_WEIGHT + payload.len() as u64;
    let body = Body::Payload(Blob::from_vec(payload));
    let ids = bare_ids(&ends);
    Ok(event_between(dgram, ends, Kind::Malformed, false, ids, weight, body))
}

// The event of a message, kept or discarded by its opcode.
fn message_event(
    alloc: Global,
    dgram: &Dgram,
    rules: &EventRules,
    parsed: Parsed,
) -> Result<Event, AllocError>
    requires one_version { dgram.now.src.v6 ≡ dgram.now.dst.v6 }
    requires fits { length dgram.now.payload.now ≤ 65535 }
    requires valid { Valid parsed.message }
    ensures { IfOk result (λ e. parts_of e ≡
        message_parts rules.now (datagram_of dgram.now) parsed.message parsed.used) }
{
    let Parsed { message, used } = parsed;
    let trailing = used < dgram.payload.len();
    let is_query = is_query(message.bits);
    let opcode = opcode_of(message.bits);
    let ends = ends_of(is_query, dgram);
    if !rules.lists(opcode) {
        let ids = bare_ids(&ends);
        return Ok(event_between(
            dgram,
            ends,
            Kind::Discarded,
            trailing,
            ids,
            LEAST_WEIGHT,
            Body::Nothing,
        ));
    }
    let kind = if is_query {
        Kind::Query
    } else {
        Kind::Response
    };
    let ids = Ids {
        primary: primary_of(&ends, message.id, opcode),
        secondary: secondary_of(alloc, message.questions.as_slice())?,
    };
    let weight = weight(&message);
    Ok(event_between(
        dgram,
        ends,
        kind,
        trailing,
        ids,
        weight,
        Body::Message(message),
    ))
}

/// The event of a datagram, whose addresses have one version, and whose payload has at most 65,535 bytes. An `Err` is
/// for want of memory.
///
/// - A payload that is no message is `Malformed`. Its client is the source where the destination port is that of DNS,
///   else the destination.
/// - A message with QR 0 goes from client to server, one with QR 1 from server to client. It is a `Query` or a
///   `Response` where its opcode is listed, and else `Discarded`.
#[tactic(auto, unfolding(crate::specs::Events::event_parts))]
pub fn event_of(alloc: Global, dgram: &Dgram, rules: &EventRules) -> Result<Event, AllocError>
    requires one_version { dgram.now.src.v6 ≡ dgram.now.dst.v6 }
    requires fits { length dgram.now.payload.now ≤ 65535 }
    ensures exact { IfOk result (λ e. parts_of e ≡ event_parts rules.now (datagram_of dgram.now)) }
{
    match parse(alloc, dgram.payload) {
        Ok(parsed) => message_event(alloc, dgram, rules, parsed),
        Err(ParseFault::Malformed(_why)) => malformed_event(alloc, dgram, rules),
        Err(ParseFault::NoMemory) => Err(AllocError),
    }
}
