//! What is kept of a malformed message.

ghost use Rattle.std.specs.Prelude.{◌≡◌, IfOk};
ghost use Rattle.cd_ident.specs.Keys.{parts_of};
ghost use Rattle.cd_hints.specs.Items;
ghost use Rattle.cd_hints.specs.Records.{record_parts, main_event, payload_in, HasKinds, IsMalformed};
ghost use Rattle.cd_hints.specs.Ticks.{IsAtOrBefore};
ghost use Rattle.cd_hints.specs.Validity.{AreValidParams, IsValid};

use crate::keeping::copies::{copy_address, copy_blob};
use crate::keeping::flags::transport_flags;
use crate::keeping::stored_address::{client_prefix, server_prefix, stored_address};
use crate::keeping::ticks::ticks_since;
use crate::record::Rec;
use crate::settings::Settings;
use cd_block::{KeptData, KeptMalformed, Params, Stamp};
use cd_ident::{Body, Event};
use cd_name::Blob;
use std::alloc::{AllocError, Global};

// A copy of the payload of a malformed message.
fn copy_payload(alloc: Global, body: &Body) -> Result<Option<Blob>, AllocError>
    ensures { IfOk result (λ payload. payload ≡ payload_in body.now) }
{
    match body {
        Body::Payload(payload) => {
            let copy = copy_blob(alloc, payload.as_slice())?;
            Ok(Some(copy))
        }
        Body::Message(_) => Ok(None),
        Body::Nothing => Ok(None),
    }
}

// The data of a malformed message, whole.
fn kept_data(alloc: Global, params: &Params, event: &Event) -> Result<KeptData, AllocError>
    requires { AreValidParams params.now }
    ensures { IfOk result (λ kept. kept ≡ Items.kept_data params.now (parts_of event.now)) }
{
    let bits = server_prefix(&params.prefixes, event.server.v6);
    let address = copy_address(alloc, &stored_address(bits, &event.server))?;
    let payload = copy_payload(alloc, &event.body)?;
    Ok(KeptData {
        server_address: Some(address),
        server_port: Some(event.server_port),
        transport_flags: Some(transport_flags(event, false)),
        payload,
    })
}

/// A malformed message, whole, in a block with this earliest time, which is at or before the record's (RFC 8618
/// 7.3.2.6). The settings must be valid, and the record must be a malformed message. An `Err` is for want of memory.
pub fn kept_malformed(
    alloc: Global,
    settings: &Settings,
    rec: &Rec,
    earliest: Stamp,
) -> Result<KeptMalformed, AllocError>
    requires valid { IsValid settings.now }
    requires malformed { IsMalformed (record_parts rec.now) }
    requires kinds { HasKinds (record_parts rec.now) }
    requires earliest { IsAtOrBefore settings.now.params.ticks earliest (main_event (record_parts rec.now)).time }
    ensures { IfOk result (λ item. item ≡ Items.kept_malformed settings.now.params earliest (record_parts rec.now)) }
{
    let params = &settings.params;
    let event = rec.main_event();
    let offset = ticks_since(params.ticks, earliest, event.time);
    let bits = client_prefix(&params.prefixes, event.client.v6);
    let address = copy_address(alloc, &stored_address(bits, &event.client))?;
    let data = kept_data(alloc, params, event)?;
    Ok(KeptMalformed {
        time_offset: Some(offset),
        client_address: Some(address),
        client_port: Some(event.client_port),
        message_data: Some(data),
    })
}
