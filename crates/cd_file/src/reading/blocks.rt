//! Reads blocks (RFC 8618 7.3.2).

ghost use Rattle.std.specs.Prelude.{◌≤◌};
ghost use Rattle.cd_cbor.specs.Spells.{most_depth};
ghost use Rattle.cd_file.specs.ReadBlock as blocks;
ghost use Rattle.cd_file.specs.ItemReading.{ReadsItem};

use super::arrays::array_of;
use super::block_tables::BlockTables;
use super::fault::ItemFault;
use super::items::Items;
use super::kinds::unsigned;
use super::malformed::MalformedMessages;
use super::maps::{Maps, Table, WholeMap, map_of, outer_map, read_entries};
use super::putting::{passed_over, put, put_some};
use super::statistics::Statistics;
use super::time::stamp;
use crate::refusal::FileWhy;
use cd_block::{Block, keys};
use cd_name::List;
use std::alloc::Global;

/// The preambles of blocks, which are read into them (RFC 8618 7.3.2.1).
pub struct BlockPreambles;

impl Table for BlockPreambles {
    type Fields = Block;

    ghost table = { blocks.block_preamble_table };

    fn required_keys() -> &'static [u64] {
        &[]
    }

    fn read_value(
        alloc: Global,
        bytes: &[u8],
        depth: usize,
        at: usize,
        key: u64,
        block: &mut Block,
    ) -> Result<usize, ItemFault> {
        match key {
            keys::BLOCK_PREAMBLE_EARLIEST_TIME => {
                put_some(stamp(alloc, bytes, depth, at, key), &mut block.earliest)
            }
            keys::BLOCK_PREAMBLE_PARAMETERS_INDEX => {
                put(unsigned(bytes, at, key), &mut block.params)
            }
            _ => passed_over(bytes, depth, at),
        }
    }
}

/// Blocks.
pub struct Blocks;

impl Table for Blocks {
    type Fields = Block;

    ghost table = { blocks.block_table };

    fn required_keys() -> &'static [u64] {
        &[keys::BLOCK_PREAMBLE]
    }

    fn read_value(
        alloc: Global,
        bytes: &[u8],
        depth: usize,
        at: usize,
        key: u64,
        block: &mut Block,
    ) -> Result<usize, ItemFault> {
        match key {
            keys::BLOCK_PREAMBLE => {
                read_entries::<BlockPreambles>(alloc, bytes, depth, at, key, block)
            }
            keys::BLOCK_STATISTICS => {
                put_some(
                    map_of::<Statistics>(alloc, bytes, depth, at, key),
                    &mut block.stats,
                )
            }
            keys::BLOCK_TABLES => read_entries::<BlockTables>(alloc, bytes, depth, at, key, block),
            keys::BLOCK_ITEMS => {
                put(
                    array_of::<Maps<Items>>(alloc, bytes, depth, at, key),
                    &mut block.items,
                )
            }
            keys::BLOCK_MALFORMED => put(
                array_of::<Maps<MalformedMessages>>(alloc, bytes, depth, at, key),
                &mut block.malformed,
            ),
            _ => passed_over(bytes, depth, at),
        }
    }
}

impl WholeMap for Blocks {
    ghost initial = { blocks.no_block };

    fn initial(alloc: Global) -> Block {
        Block {
            earliest: None,
            params: 0,
            stats: None,
            items: List::from_vec(Vec::new(alloc)),
            malformed: List::from_vec(Vec::new(alloc)),
            ip_address: List::from_vec(Vec::new(alloc)),
            classtype: List::from_vec(Vec::new(alloc)),
            name_rdata: List::from_vec(Vec::new(alloc)),
            qr_sig: List::from_vec(Vec::new(alloc)),
            qlist: List::from_vec(Vec::new(alloc)),
            qrr: List::from_vec(Vec::new(alloc)),
            rrlist: List::from_vec(Vec::new(alloc)),
            rr: List::from_vec(Vec::new(alloc)),
            malformed_message_data: List::from_vec(Vec::new(alloc)),
        }
    }
}

/// The block at an offset, and the offset behind it. So many arrays, maps and tags may be open in it, 16 at most.
#[tactic(auto, unfolding(crate::specs::ReadBlock::read_block))]
pub fn block_of(
    alloc: Global,
    bytes: &[u8],
    depth: usize,
    at: usize,
) -> Result<(Block, usize), ItemFault>
    requires { depth ≤ most_depth }
    ensures { ReadsItem (λ block. block) result depth bytes.now at blocks.read_block }
{
    outer_map::<Blocks>(alloc, bytes, depth, at, FileWhy::NotMap)
}
