//! Reads the items of a block (RFC 8618 7.3.2.4).

ghost use Rattle.cd_file.specs.ReadBlock as blocks;

use super::fault::ItemFault;
use super::kinds::{byte_or_none, signed, unsigned, word_or_none};
use super::maps::{Table, WholeMap, map_of};
use super::putting::{passed_over, put, put_some};
use cd_block::{BlockItem, BlockLists, keys};
use std::alloc::Global;

/// The extended parts of queries and responses (RFC 8618 7.3.2.4.2).
pub struct ExtendedParts;

impl Table for ExtendedParts {
    type Fields = BlockLists;

    ghost table = { blocks.extended_table };

    fn required_keys() -> &'static [u64] {
        &[]
    }

    fn read_value(
        _alloc: Global,
        bytes: &[u8],
        depth: usize,
        at: usize,
        key: u64,
        lists: &mut BlockLists,
    ) -> Result<usize, ItemFault> {
        match key {
            keys::EXTENDED_QUESTION => put_some(unsigned(bytes, at, key), &mut lists.question),
            keys::EXTENDED_ANSWER => put_some(unsigned(bytes, at, key), &mut lists.answer),
            keys::EXTENDED_AUTHORITY => put_some(unsigned(bytes, at, key), &mut lists.authority),
            keys::EXTENDED_ADDITIONAL => put_some(unsigned(bytes, at, key), &mut lists.additional),
            _ => passed_over(bytes, depth, at),
        }
    }
}

impl WholeMap for ExtendedParts {
    ghost initial = { blocks.no_lists };

    fn initial(_alloc: Global) -> BlockLists {
        BlockLists {
            question: None,
            answer: None,
            authority: None,
            additional: None,
        }
    }
}

/// Query-response items.
pub struct Items;

impl Table for Items {
    type Fields = BlockItem;

    ghost table = { blocks.item_table };

    fn required_keys() -> &'static [u64] {
        &[]
    }

    fn read_value(
        alloc: Global,
        bytes: &[u8],
        depth: usize,
        at: usize,
        key: u64,
        item: &mut BlockItem,
    ) -> Result<usize, ItemFault> {
        match key {
            keys::ITEM_TIME_OFFSET => put_some(unsigned(bytes, at, key), &mut item.time_offset),
            keys::ITEM_CLIENT_ADDRESS => put_some(
                unsigned(bytes, at, key),
                &mut item.client_address,
            ),
            keys::ITEM_CLIENT_PORT => put(word_or_none(bytes, at, key), &mut item.client_port),
            keys::ITEM_TRANSACTION_ID => put(
                word_or_none(bytes, at, key),
                &mut item.transaction_id,
            ),
            keys::ITEM_SIGNATURE => put_some(unsigned(bytes, at, key), &mut item.signature),
            keys::ITEM_CLIENT_HOPLIMIT => put(
                byte_or_none(bytes, at, key),
                &mut item.client_hoplimit,
            ),
            keys::ITEM_RESPONSE_DELAY => put_some(signed(bytes, at, key), &mut item.response_delay),
            keys::ITEM_QUERY_NAME => put_some(unsigned(bytes, at, key), &mut item.query_name),
            keys::ITEM_QUERY_SIZE => put_some(unsigned(bytes, at, key), &mut item.query_size),
            keys::ITEM_RESPONSE_SIZE => put_some(unsigned(bytes, at, key), &mut item.response_size),
            keys::ITEM_QUERY_EXTENDED => {
                put(
                    map_of::<ExtendedParts>(alloc, bytes, depth, at, key),
                    &mut item.query_extended,
                )
            }
            keys::ITEM_RESPONSE_EXTENDED => {
                put(
                    map_of::<ExtendedParts>(alloc, bytes, depth, at, key),
                    &mut item.response_extended,
                )
            }
            _ => passed_over(bytes, depth, at),
        }
    }
}

impl WholeMap for Items {
    ghost initial = { blocks.no_item };

    fn initial(alloc: Global) -> BlockItem {
        BlockItem {
            time_offset: None,
            client_address: None,
            client_port: None,
            transaction_id: None,
            signature: None,
            client_hoplimit: None,
            response_delay: None,
            query_name: None,
            query_size: None,
            response_size: None,
            query_extended: ExtendedParts::initial(alloc),
            response_extended: ExtendedParts::initial(alloc),
        }
    }
}
