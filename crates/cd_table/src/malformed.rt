//! Malformed messages and their data (RFC 8618 7.3.2.6, 7.3.2.3.5).

ghost use Rattle.std.specs.Prelude.{◌≡◌, OnOk, IfOk};
ghost use Rattle.cd_table.specs.Growing.{each, if_present, put_data, put_malformed, data_at};

use crate::lent_bytes::bytes_of;
use crate::tables::Tables;
use cd_block::{BlockData, BlockMalformed, KeptData, KeptMalformed};
use cd_name::Blob;
use std::alloc::{AllocError, Global};

// A copy of bytes, where there are any.
fn copy_of(alloc: Global, bytes: &Option<Blob>) -> Result<Option<Blob>, AllocError>
    ensures { IfOk result (λ copy. copy ≡ bytes.now) }
{
    match bytes {
        Some(bytes) => {
            let copy = Vec::from_slice(alloc, bytes.as_slice())?;
            Ok(Some(Blob::from_vec(copy)))
        }
        None => Ok(None),
    }
}

// The data of a malformed message whose server's address has this index.
fn data_at(
    alloc: Global,
    kept: &KeptData,
    server_address: Option<u64>,
) -> Result<BlockData, AllocError>
    ensures { IfOk result (λ placed. placed ≡ data_at kept.now server_address) }
{
    let payload = copy_of(alloc, &kept.payload)?;
    Ok(BlockData {
        server_address,
        server_port: kept.server_port,
        transport_flags: kept.transport_flags,
        payload,
    })
}

// Puts the data of a malformed message and its part, and gives its index. The payload is copied before it is looked up.
#[tactic(auto, unfolding(crate::specs::Growing::put_data))]
fn put_data(tables: &mut Tables, alloc: Global, kept: &KeptData) -> Result<u64, AllocError>
    ensures tables { OnOk result (tables.new ≡ (put_data kept.now tables.old).tables) }
    ensures index { IfOk result (λ index. index ≡ (put_data kept.now tables.old).value) }
{
    let server_address = tables.put_optional_address(bytes_of(&kept.server_address))?;
    let placed = data_at(alloc, kept, server_address)?;
    tables.put_block_data(placed)
}

// Puts the data of a malformed message, where there is any, and gives its index.
fn put_message_data(
    tables: &mut Tables,
    alloc: Global,
    kept: &Option<KeptData>,
) -> Result<Option<u64>, AllocError>
    ensures tables { OnOk result (tables.new ≡ (if_present put_data kept.now tables.old).tables) }
    ensures index { IfOk result (λ index. index ≡ (if_present put_data kept.now tables.old).value) }
{
    match kept {
        Some(kept) => Ok(Some(put_data(tables, alloc, kept)?)),
        None => Ok(None),
    }
}

/// Puts the values of a malformed message, and gives the message with their indexes. An `Err` is for want of memory.
#[tactic(auto, unfolding(crate::specs::Growing::put_malformed))]
pub fn put_malformed(
    tables: &mut Tables,
    alloc: Global,
    kept: &KeptMalformed,
) -> Result<BlockMalformed, AllocError>
    ensures tables { OnOk result (tables.new ≡ (put_malformed kept.now tables.old).tables) }
    ensures placed { IfOk result (λ placed. placed ≡ (put_malformed kept.now tables.old).value) }
{
    let client_address = tables.put_optional_address(bytes_of(&kept.client_address))?;
    let message_data = put_message_data(tables, alloc, &kept.message_data)?;
    Ok(BlockMalformed {
        time_offset: kept.time_offset,
        client_address,
        client_port: kept.client_port,
        message_data,
    })
}

/// Puts the values of malformed messages, and gives the messages with their indexes.
pub(crate) fn put_each_malformed(
    tables: &mut Tables,
    alloc: Global,
    malformed: &[KeptMalformed],
) -> Result<Vec<BlockMalformed>, AllocError>
    ensures tables { OnOk result (tables.new ≡ (each put_malformed malformed.now tables.old).tables) }
    ensures placed { IfOk result (λ v. v.items ≡ (each put_malformed malformed.now tables.old).value) }
{
    let mut placed = Vec::with_capacity(alloc, malformed.len())?;
    'malformed: for kept in malformed {
        let message = put_malformed(tables, alloc, kept)?;
        placed.push(message)?;
    }
    Ok(placed)
}
