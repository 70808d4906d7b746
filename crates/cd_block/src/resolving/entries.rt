//! The entries of the tables.

ghost use Rattle.std.specs.Prelude.{◌≡◌, ◌<◌, [], Ok};
ghost use Rattle.cd_block.specs.Giving.{Gives};
ghost use Rattle.cd_block.specs.Resolving;
ghost use Rattle.cd_block.specs.Resolving.{if_present, resolved_address, resolved_bytes, resolved_classtype, resolved_name};

use super::fault::ResolveFault;
use crate::block::Block;
use crate::keys;
use cd_name::{Blob, Name, is_name};
use std::alloc::{AllocError, Global};

// The entry of a table at an index, where the table has this key.
pub(super) fn entry<T>(key: u64, table: &[T], index: u64) -> Result<&T, ResolveFault>
    requires { key < 256 }
    ensures { Gives (λ entry. entry.now) result (Resolving.entry key table.now index) }
{
    match table.get(index as usize) {
        Some(entry) => Ok(entry),
        None => Err(ResolveFault::Index(key as u8)),
    }
}

// An empty list with room for so many items.
pub(super) fn room_for<T>(alloc: Global, count: usize) -> Result<Vec<T>, ResolveFault>
    ensures { Gives (λ items. items.items) result (Ok []) }
{
    match Vec::with_capacity(alloc, count) {
        Ok(items) => Ok(items),
        Err(AllocError) => Err(ResolveFault::NoMemory),
    }
}

// The address at an index, if there is an index.
pub(super) fn address(
    alloc: Global,
    block: &Block,
    index: Option<u64>,
) -> Result<Option<Blob>, ResolveFault>
    ensures { Gives (λ bytes. bytes) result (if_present (resolved_address block.now) index) }
{
    match index {
        None => Ok(None),
        Some(index) => {
            let bytes = entry(keys::TABLES_IP_ADDRESS, block.ip_address.as_slice(), index)?;
            let copy = Blob::from_slice(alloc, bytes.as_slice())?;
            Ok(Some(copy))
        }
    }
}

// The bytes at an index, if there is an index.
pub(super) fn bytes(
    alloc: Global,
    block: &Block,
    index: Option<u64>,
) -> Result<Option<Blob>, ResolveFault>
    ensures { Gives (λ bytes. bytes) result (if_present (resolved_bytes block.now) index) }
{
    match index {
        None => Ok(None),
        Some(index) => {
            let bytes = entry(keys::TABLES_NAME_RDATA, block.name_rdata.as_slice(), index)?;
            let copy = Blob::from_slice(alloc, bytes.as_slice())?;
            Ok(Some(copy))
        }
    }
}

// The type and the class at an index.
pub(super) fn classtype(block: &Block, index: u64) -> Result<(u16, u16), ResolveFault>
    ensures { Gives (λ c. c) result (resolved_classtype block.now index) }
{
    let classtype = entry(keys::TABLES_CLASSTYPE, block.classtype.as_slice(), index)?;
    Ok(*classtype)
}

// The name at an index.
#[tactic(auto, unfolding(crate::specs::Resolving::resolved_name))]
pub(super) fn name(alloc: Global, block: &Block, index: u64) -> Result<Name, ResolveFault>
    ensures { Gives (λ name. name) result (resolved_name block.now index) }
{
    let bytes = entry(keys::TABLES_NAME_RDATA, block.name_rdata.as_slice(), index)?.as_slice();
    if !is_name(bytes) {
        return Err(ResolveFault::Name);
    }
    let name = Name::from_slice(alloc, bytes)?;
    Ok(name)
}
