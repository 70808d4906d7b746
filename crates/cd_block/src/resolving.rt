//! Puts each value of a block in the place of its index.

ghost use Rattle.std.specs.Prelude.{◌≡◌};
ghost use Rattle.cd_block.specs.Giving.{Gives};
ghost use Rattle.cd_block.specs.Resolving.{each, resolved, resolved_item, resolved_malformed};

mod entries;
mod fault;
mod item;
mod lists;
mod malformed;
mod signature;

use crate::block::{Block, BlockItem, BlockMalformed};
use crate::kept::{KeptBlock, KeptItem, KeptMalformed};
use cd_name::List;
use entries::room_for;
pub use fault::ResolveFault;
use item::item;
use malformed::malformed_message;
use std::alloc::Global;

// Each item with its values in their places.
fn each_item(
    alloc: Global,
    block: &Block,
    stored: &[BlockItem],
) -> Result<List<KeptItem>, ResolveFault>
    ensures { Gives (λ items. items) result (each (resolved_item block.now) stored.now) }
{
    let mut items = room_for(alloc, stored.len())?;
    'each: for one in stored {
        match item(alloc, block, one) {
            Err(fault) => return Err(fault),
            Ok(kept) => match items.push(kept) {
                Ok(()) => {}
                Err(_refused) => return Err(ResolveFault::NoMemory),
            },
        }
    }
    Ok(List::from_vec(items))
}

// Each malformed message with its values in their places.
fn each_malformed(
    alloc: Global,
    block: &Block,
    stored: &[BlockMalformed],
) -> Result<List<KeptMalformed>, ResolveFault>
    ensures { Gives (λ messages. messages) result
        (each (resolved_malformed block.now) stored.now) }
{
    let mut messages = room_for(alloc, stored.len())?;
    'each: for one in stored {
        match malformed_message(alloc, block, one) {
            Err(fault) => return Err(fault),
            Ok(kept) => match messages.push(kept) {
                Ok(()) => {}
                Err(_refused) => return Err(ResolveFault::NoMemory),
            },
        }
    }
    Ok(List::from_vec(messages))
}

/// The kept block of a block: each value in the place of its index, and no tables (RFC 8618 7.3.2). What no index leads
/// to is left out, and an empty list is the same as an absent one. Each value is copied once.
///
/// It answers for any block. Indexes are looked up in this order, and the first one that is at or past the length of
/// its table, or is used as a name and gives bytes that are no name (RFC 1035 3.1), is the fault:
/// - for each item: the client's address; the signature, its server's address, its type and class, its OPT record's
///   options; the name; then of the query's and of the response's extended part the questions, answers, authority
///   records and additional records: the list, and for each element the element, its name, its type and class, its
///   RDATA;
/// - then for each malformed message: the client's address; its data, and the server's address in it.
///
/// Want of memory is `NoMemory`, and may come before a fault is found.
#[tactic(auto, unfolding(crate::specs::Resolving::resolved))]
pub fn resolve(alloc: Global, block: &Block) -> Result<KeptBlock, ResolveFault>
    ensures { Gives (λ kept. kept) result (resolved block.now) }
{
    let items = each_item(alloc, block, block.items.as_slice())?;
    let malformed = each_malformed(alloc, block, block.malformed.as_slice())?;
    Ok(KeptBlock {
        earliest: block.earliest,
        params: block.params,
        stats: block.stats,
        items,
        malformed,
    })
}
