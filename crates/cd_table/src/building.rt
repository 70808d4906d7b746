//! The block of a kept block.

ghost use Rattle.std.specs.Prelude.{◌≡◌, IfOk, Ok};
ghost use Rattle.cd_block.specs.Resolving.{resolved};
ghost use Rattle.cd_table.specs.Growing.{built};
ghost use Rattle.cd_block.specs.Tables.{indexed};

use crate::items::put_each_item;
use crate::malformed::put_each_malformed;
use crate::tables::Tables;
use cd_block::laws::what_is_indexed_resolves;
use cd_block::{Block, KeptBlock};
use std::alloc::{AllocError, Global};

// The block whose tables grow item by item.
#[tactic(auto, unfolding(crate::specs::Growing::built))]
fn build_in_order(alloc: Global, kept: &KeptBlock) -> Result<Block, AllocError>
    ensures { IfOk result (λ b. b ≡ built kept.now) }
{
    let mut tables = Tables::new(alloc);
    let items = put_each_item(&mut tables, alloc, kept.items.as_slice())?;
    let malformed = put_each_malformed(&mut tables, alloc, kept.malformed.as_slice())?;
    tables.into_block(alloc, kept, items, malformed)
}

/// The block of a kept block: each value that stands in a table once, in the order of first use, and its index in its place
/// wherever it is used (RFC 8618 7.3.2.3). Values are compared as they are: letters of a name that differ in case differ. An
/// `Err` is for want of memory.
pub fn build(alloc: Global, kept: &KeptBlock) -> Result<Block, AllocError>
    ensures indexed { IfOk result (λ b. b ≡ indexed kept.now) }
    ensures resolves { IfOk result (λ b. resolved b ≡ Ok kept.now) }
{
    what_is_indexed_resolves(kept);
    build_in_order(alloc, kept)
}
