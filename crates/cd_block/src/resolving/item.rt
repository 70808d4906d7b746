//! Resolves items.

ghost use Rattle.std.specs.Prelude.{◌≡◌};
ghost use Rattle.cd_block.specs.Giving.{Gives};
ghost use Rattle.cd_block.specs.Resolving.{if_present, resolved_name, resolved_item};

use super::entries::{address, name};
use super::fault::ResolveFault;
use super::lists::lists;
use super::signature::signature;
use crate::block::{Block, BlockItem};
use crate::kept::KeptItem;
use cd_name::Name;
use std::alloc::Global;

// The name at an index, if there is an index.
fn lead_name(alloc: Global, block: &Block, index: Option<u64>) -> Result<Option<Name>, ResolveFault>
    ensures { Gives (λ name. name) result (if_present (resolved_name block.now) index) }
{
    match index {
        None => Ok(None),
        Some(index) => {
            let name = name(alloc, block, index)?;
            Ok(Some(name))
        }
    }
}

// An item with each value in its place.
#[tactic(auto, unfolding(crate::specs::Resolving::resolved_item))]
pub(super) fn item(alloc: Global, block: &Block, item: &BlockItem) -> Result<KeptItem, ResolveFault>
    ensures { Gives (λ i. i) result (resolved_item block.now item.now) }
{
    let client_address = address(alloc, block, item.client_address)?;
    let signature = signature(alloc, block, item.signature)?;
    let query_name = lead_name(alloc, block, item.query_name)?;
    let query_extended = lists(alloc, block, &item.query_extended)?;
    let response_extended = lists(alloc, block, &item.response_extended)?;
    Ok(KeptItem {
        time_offset: item.time_offset,
        client_address,
        client_port: item.client_port,
        transaction_id: item.transaction_id,
        signature,
        client_hoplimit: item.client_hoplimit,
        response_delay: item.response_delay,
        query_name,
        query_size: item.query_size,
        response_size: item.response_size,
        query_extended,
        response_extended,
    })
}
