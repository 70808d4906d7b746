//! Resolves malformed messages.

ghost use Rattle.std.specs.Prelude.{◌≡◌, Ok};
ghost use Rattle.cd_block.specs.Giving.{Gives};
ghost use Rattle.cd_block.specs.Resolving.{if_present, resolved_data, resolved_malformed};

use super::entries::{address, entry};
use super::fault::ResolveFault;
use crate::block::{Block, BlockMalformed};
use crate::kept::{KeptData, KeptMalformed};
use crate::keys;
use cd_name::Blob;
use std::alloc::Global;

// A copy of the bytes of a message, if they are there.
fn payload(alloc: Global, payload: &Option<Blob>) -> Result<Option<Blob>, ResolveFault>
    ensures { Gives (λ copy. copy) result (Ok payload.now) }
{
    match payload {
        None => Ok(None),
        Some(bytes) => {
            let copy = Blob::from_slice(alloc, bytes.as_slice())?;
            Ok(Some(copy))
        }
    }
}

// The data of a malformed message at an index.
#[tactic(auto, unfolding(crate::specs::Resolving::resolved_data))]
fn data_at(alloc: Global, block: &Block, index: u64) -> Result<KeptData, ResolveFault>
    ensures { Gives (λ d. d) result (resolved_data block.now index) }
{
    let table = block.malformed_message_data.as_slice();
    let stored = entry(keys::TABLES_MALFORMED_MESSAGE_DATA, table, index)?;
    let server_address = address(alloc, block, stored.server_address)?;
    let payload = payload(alloc, &stored.payload)?;
    Ok(KeptData {
        server_address,
        server_port: stored.server_port,
        transport_flags: stored.transport_flags,
        payload,
    })
}

// The data of a malformed message at an index, if there is an index.
fn message_data(
    alloc: Global,
    block: &Block,
    index: Option<u64>,
) -> Result<Option<KeptData>, ResolveFault>
    ensures { Gives (λ d. d) result (if_present (resolved_data block.now) index) }
{
    match index {
        None => Ok(None),
        Some(index) => {
            let stored = data_at(alloc, block, index)?;
            Ok(Some(stored))
        }
    }
}

// A malformed message with each value in its place.
#[tactic(auto, unfolding(crate::specs::Resolving::resolved_malformed))]
pub(super) fn malformed_message(
    alloc: Global,
    block: &Block,
    message: &BlockMalformed,
) -> Result<KeptMalformed, ResolveFault>
    ensures { Gives (λ m. m) result (resolved_malformed block.now message.now) }
{
    let client_address = address(alloc, block, message.client_address)?;
    let message_data = message_data(alloc, block, message.message_data)?;
    Ok(KeptMalformed {
        time_offset: message.time_offset,
        client_address,
        client_port: message.client_port,
        message_data,
    })
}
