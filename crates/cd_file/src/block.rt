//! A block (RFC 8618 7.3.2).

ghost use Rattle.std.specs.Prelude.{◌≡◌, ◌++◌, Some, OnOk};
ghost use Rattle.cd_file.specs.Maps.{entry_spelling};
ghost use Rattle.cd_file.specs.Blocks.{stamp_item, block_preamble_item, statistics_item};
ghost use Rattle.cd_file.specs.Files.{block_spelling};

use crate::entries::push_map;
use crate::spelled::{Spelled, array_count, push_optional, push_optional_array, value_count};
use crate::tables::{push_tables, tables_count};
use cd_block::{Block, Stamp, Stats, keys};
use cd_bytes::Out;
use cd_cbor::{push_array_head, push_map_head, push_unsigned};
use std::alloc::AllocError;

impl Spelled for Stamp {
    ghost item = { λ s. stamp_item s };

    fn push(&self, out: &mut Out) -> Result<(), AllocError> {
        push_array_head(out, 2)?;
        push_unsigned(out, self.seconds)?;
        push_unsigned(out, self.ticks)?;
        Ok(())
    }
}

impl Spelled for Stats {
    ghost item = { λ s. statistics_item s };

    fn push(&self, out: &mut Out) -> Result<(), AllocError> {
        push_map(
            out,
            &[
                (keys::STATISTICS_PROCESSED, Some(self.processed)),
                (keys::STATISTICS_ITEMS, Some(self.items)),
                (
                    keys::STATISTICS_UNMATCHED_QUERIES,
                    Some(self.unmatched_queries),
                ),
                (
                    keys::STATISTICS_UNMATCHED_RESPONSES,
                    Some(self.unmatched_responses),
                ),
                (keys::STATISTICS_DISCARDED, Some(self.discarded)),
                (keys::STATISTICS_MALFORMED, Some(self.malformed)),
            ],
        )
    }
}

// Writes a key and the preamble of a block.
fn push_preamble(out: &mut Out, key: u64, earliest: &Option<Stamp>) -> Result<(), AllocError>
    ensures { OnOk result (out.new ≡ out.old ++ entry_spelling key (Some (block_preamble_item earliest.now))) }
{
    push_unsigned(out, key)?;
    push_map_head(out, value_count(earliest))?;
    push_optional(out, keys::BLOCK_PREAMBLE_EARLIEST_TIME, earliest)?;
    Ok(())
}

/// Writes a block (RFC 8618 7.3.2). An `Err` is for want of memory, and may write a front of it.
pub fn block_bytes(block: &Block, out: &mut Out) -> Result<(), AllocError>
    ensures { OnOk result (out.new ≡ out.old ++ block_spelling block.now) }
{
    let count = 1
        + value_count(&block.stats)
        + tables_count(block)
        + array_count(&block.items)
        + array_count(&block.malformed);
    push_map_head(out, count)?;
    push_preamble(out, keys::BLOCK_PREAMBLE, &block.earliest)?;
    push_optional(out, keys::BLOCK_STATISTICS, &block.stats)?;
    push_tables(out, keys::BLOCK_TABLES, block)?;
    push_optional_array(out, keys::BLOCK_ITEMS, &block.items)?;
    push_optional_array(out, keys::BLOCK_MALFORMED, &block.malformed)?;
    Ok(())
}
