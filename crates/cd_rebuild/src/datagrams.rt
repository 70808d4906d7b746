//! The packets of messages.

ghost use Rattle.std.specs.Prelude.{◌≡◌, ◌<◌, IfOk};
ghost use Rattle.cd_packet.specs.Building.{built};
ghost use Rattle.cd_packet.specs.Time.{end_of_time};
ghost use Rattle.cd_rebuild.specs.Datagrams;

use crate::ends::Ends;
use cd_message::{Message, write};
use cd_name::Blob;
use cd_packet::{Dgram, build};
use std::alloc::{AllocError, Global};

// The time to live or hop limit of a packet of which none is kept.
pub(crate) const DEFAULT_HOP: u8 = 64;

// The packet of a payload from the client to the server; none where the payload is too long. An `Err` is for want of memory.
pub(crate) fn to_server(
    alloc: Global,
    ends: &Ends,
    time: u64,
    hop: u8,
    payload: &[u8],
) -> Result<Option<Blob>, AllocError>
    requires { time < end_of_time }
    ensures { IfOk result (λ packet. packet ≡ built (Datagrams.to_server ends.now time hop payload.now)) }
{
    let dgram = Dgram {
        time,
        src: ends.client,
        dst: ends.server,
        sport: ends.client_port,
        dport: ends.server_port,
        hop,
        payload,
    };
    build(alloc, &dgram)
}

// The packet of a payload from the server to the client; none where the payload is too long. An `Err` is for want of memory.
fn to_client(
    alloc: Global,
    ends: &Ends,
    time: u64,
    hop: u8,
    payload: &[u8],
) -> Result<Option<Blob>, AllocError>
    requires { time < end_of_time }
    ensures { IfOk result (λ packet. packet ≡ built (Datagrams.to_client ends.now time hop payload.now)) }
{
    let dgram = Dgram {
        time,
        src: ends.server,
        dst: ends.client,
        sport: ends.server_port,
        dport: ends.client_port,
        hop,
        payload,
    };
    build(alloc, &dgram)
}

// The packet of a query; none where its message or its payload is too long. An `Err` is for want of memory.
pub(crate) fn query_packet(
    alloc: Global,
    ends: &Ends,
    time: u64,
    hop: u8,
    query: &Message,
) -> Result<Option<Blob>, AllocError>
    requires { time < end_of_time }
    ensures { IfOk result (λ packet. packet ≡ Datagrams.query_packet ends.now time hop query.now) }
{
    let written = write(alloc, query)?;
    match written {
        Some(payload) => to_server(alloc, ends, time, hop, payload.as_slice()),
        None => Ok(None),
    }
}

// The packet of a response; none where its message or its payload is too long. An `Err` is for want of memory.
pub(crate) fn response_packet(
    alloc: Global,
    ends: &Ends,
    time: u64,
    response: &Message,
) -> Result<Option<Blob>, AllocError>
    requires { time < end_of_time }
    ensures { IfOk result (λ packet. packet ≡ Datagrams.response_packet ends.now time response.now) }
{
    let written = write(alloc, response)?;
    match written {
        Some(payload) => to_client(alloc, ends, time, DEFAULT_HOP, payload.as_slice()),
        None => Ok(None),
    }
}
