//! Reads malformed messages and their data (RFC 8618 7.3.2.6, 7.3.2.3.5).

ghost use Rattle.cd_file.specs.ReadBlock as blocks;
ghost use Rattle.cd_file.specs.ReadTables as tables;

use super::fault::ItemFault;
use super::kinds::{byte_or_none, unsigned, word_or_none};
use super::maps::{Table, WholeMap};
use super::putting::{passed_over, put, put_some};
use super::strings::byte_string;
use cd_block::{BlockData, BlockMalformed, keys};
use std::alloc::Global;

/// The data of malformed messages.
pub struct MalformedData;

impl Table for MalformedData {
    type Fields = BlockData;

    ghost table = { tables.malformed_data_table };

    fn required_keys() -> &'static [u64] {
        &[]
    }

    fn read_value(
        alloc: Global,
        bytes: &[u8],
        depth: usize,
        at: usize,
        key: u64,
        message: &mut BlockData,
    ) -> Result<usize, ItemFault> {
        match key {
            keys::MALFORMED_DATA_SERVER_ADDRESS => {
                put_some(unsigned(bytes, at, key), &mut message.server_address)
            }
            keys::MALFORMED_DATA_SERVER_PORT => put(
                word_or_none(bytes, at, key),
                &mut message.server_port,
            ),
            keys::MALFORMED_DATA_TRANSPORT_FLAGS => put(
                byte_or_none(bytes, at, key),
                &mut message.transport_flags,
            ),
            keys::MALFORMED_DATA_PAYLOAD => {
                put_some(byte_string(alloc, bytes, at, key), &mut message.payload)
            }
            _ => passed_over(bytes, depth, at),
        }
    }
}

impl WholeMap for MalformedData {
    ghost initial = { tables.no_data };

    fn initial(_alloc: Global) -> BlockData {
        BlockData {
            server_address: None,
            server_port: None,
            transport_flags: None,
            payload: None,
        }
    }
}

/// Malformed messages.
pub struct MalformedMessages;

impl Table for MalformedMessages {
    type Fields = BlockMalformed;

    ghost table = { blocks.malformed_table };

    fn required_keys() -> &'static [u64] {
        &[]
    }

    fn read_value(
        _alloc: Global,
        bytes: &[u8],
        depth: usize,
        at: usize,
        key: u64,
        message: &mut BlockMalformed,
    ) -> Result<usize, ItemFault> {
        match key {
            keys::MALFORMED_TIME_OFFSET => put_some(
                unsigned(bytes, at, key),
                &mut message.time_offset,
            ),
            keys::MALFORMED_CLIENT_ADDRESS => {
                put_some(unsigned(bytes, at, key), &mut message.client_address)
            }
            keys::MALFORMED_CLIENT_PORT => put(
                word_or_none(bytes, at, key),
                &mut message.client_port,
            ),
            keys::MALFORMED_MESSAGE_DATA => put_some(
                unsigned(bytes, at, key),
                &mut message.message_data,
            ),
            _ => passed_over(bytes, depth, at),
        }
    }
}

impl WholeMap for MalformedMessages {
    ghost initial = { blocks.no_malformed };

    fn initial(_alloc: Global) -> BlockMalformed {
        BlockMalformed {
            time_offset: None,
            client_address: None,
            client_port: None,
            message_data: None,
        }
    }
}
