//! The packets of a lookup.

ghost use Rattle.std.specs.Prelude.{◌≡◌, ◌<◌, ◌≤◌, length, false, Some, IfOk};
ghost use Rattle.cd_message.specs.Written.{written_if_fits, written_message};
ghost use Rattle.cd_packet.specs.Building.{built, spelled};
ghost use Rattle.cd_packet.specs.Layers.{datagram_seen};
ghost use Rattle.cd_workload.specs.Workload;

use crate::ends::{DNS_PORT, client, client_port, server};
use crate::lookup::Lookup;
use crate::messages::{query_of, response_of};
use cd_message::{Message, write};
use cd_name::Blob;
use cd_packet::{Dgram, build};
use std::alloc::{AllocError, Global};

// When the first query is sent, in nanoseconds since 1970; and the time from a query to the next one, and to its response.
const START: u64 = 1_700_000_000_000_000_000;

const QUERY_INTERVAL: u64 = 250_000;

const RESPONSE_DELAY: u64 = 100_000;

// The hop limit of each packet.
const HOP: u8 = 64;

// The bytes of a message that fits. An `Err` is for want of memory.
fn payload_of(alloc: Global, message: &Message) -> Result<Blob, AllocError>
    requires { written_if_fits message.now ≡ Some (written_message message.now) }
    ensures { IfOk result (λ payload. payload ≡ written_message message.now) }
{
    match write(alloc, message)? {
        Some(payload) => Ok(payload),
        None => unreachable!(),
    }
}

// The packet of a datagram that is not too long. An `Err` is for want of memory.
fn packet_of(alloc: Global, dgram: &Dgram) -> Result<Blob, AllocError>
    requires one_version { dgram.now.src.v6 ≡ dgram.now.dst.v6 }
    requires fits { built (datagram_seen dgram.now) ≡ Some (spelled (datagram_seen dgram.now)) }
    ensures { IfOk result (λ packet. packet ≡ spelled (datagram_seen dgram.now)) }
{
    match build(alloc, dgram)? {
        Some(packet) => Ok(packet),
        None => unreachable!(),
    }
}

// When the query is sent.
pub(crate) fn query_time(lookup: Lookup) -> u64
    requires { lookup.number < 200000 }
    ensures { result ≡ Workload.query_time lookup }
{
    START + lookup.number * QUERY_INTERVAL
}

// When the response is sent.
pub(crate) fn response_time(lookup: Lookup) -> u64
    requires { lookup.number < 200000 }
    ensures { result ≡ Workload.response_time lookup }
{
    query_time(lookup) + RESPONSE_DELAY
}

// The packet of the query. An `Err` is for want of memory.
pub(crate) fn query_packet(alloc: Global, lookup: Lookup) -> Result<Blob, AllocError>
    requires { lookup.number < 200000 }
    ensures { IfOk result (λ packet. packet ≡ Workload.query_packet lookup) }
{
    let query = query_of(alloc, lookup)?;
    let payload = payload_of(alloc, &query)?;
    let dgram = Dgram {
        time: query_time(lookup),
        src: client(lookup.drawn),
        dst: server(),
        sport: client_port(lookup.drawn),
        dport: DNS_PORT,
        hop: HOP,
        payload: payload.as_slice(),
    };
    packet_of(alloc, &dgram)
}

// The packet of the response. An `Err` is for want of memory.
pub(crate) fn response_packet(alloc: Global, lookup: Lookup) -> Result<Blob, AllocError>
    requires { lookup.number < 200000 }
    ensures { IfOk result (λ packet. packet ≡ Workload.response_packet lookup) }
{
    let response = response_of(alloc, lookup)?;
    let payload = payload_of(alloc, &response)?;
    let dgram = Dgram {
        time: response_time(lookup),
        src: server(),
        dst: client(lookup.drawn),
        sport: DNS_PORT,
        dport: client_port(lookup.drawn),
        hop: HOP,
        payload: payload.as_slice(),
    };
    packet_of(alloc, &dgram)
}
