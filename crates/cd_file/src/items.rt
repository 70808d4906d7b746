//! The items of a block (RFC 8618 7.3.2.4, 7.3.2.6).

ghost use Rattle.std.specs.Prelude.{◌≡◌, ◌≤◌, ◌++◌, map, OnOk};
ghost use Rattle.cd_file.specs.Maps.{number_entry, there, entry_spelling};
ghost use Rattle.cd_file.specs.Blocks.{extended_entries, extended_item, query_response_item, malformed_item};

use crate::entries::{
    Entry, byte, map_count, present_count, push_entries, push_map, push_optional_map, word,
};
use crate::spelled::{Spelled, push_optional, value_count};
use cd_block::{BlockItem, BlockLists, BlockMalformed, keys};
use cd_bytes::Out;
use cd_cbor::push_map_head;
use std::alloc::AllocError;

// The lists of an extended part, each by its key.
fn list_entries(lists: &BlockLists) -> [Entry; 4]
    ensures { map number_entry result ≡ extended_entries lists.now }
{
    [
        (keys::EXTENDED_QUESTION, lists.question),
        (keys::EXTENDED_ANSWER, lists.answer),
        (keys::EXTENDED_AUTHORITY, lists.authority),
        (keys::EXTENDED_ADDITIONAL, lists.additional),
    ]
}

// 1 where the extended part has a list, else 0.
fn extended_count(lists: &BlockLists) -> u64
    ensures exact { result ≡ there (extended_item lists.now) }
    ensures few { result ≤ 1 }
{
    map_count(&list_entries(lists))
}

// Writes a key and the extended part, where it has a list.
fn push_extended(out: &mut Out, key: u64, lists: &BlockLists) -> Result<(), AllocError>
    ensures { OnOk result (out.new ≡ out.old ++ entry_spelling key (extended_item lists.now)) }
{
    push_optional_map(out, key, &list_entries(lists))
}

impl Spelled for BlockItem {
    ghost item = { λ i. query_response_item i };

    fn push(&self, out: &mut Out) -> Result<(), AllocError> {
        let front = [
            (keys::ITEM_TIME_OFFSET, self.time_offset),
            (keys::ITEM_CLIENT_ADDRESS, self.client_address),
            (keys::ITEM_CLIENT_PORT, word(self.client_port)),
            (keys::ITEM_TRANSACTION_ID, word(self.transaction_id)),
            (keys::ITEM_SIGNATURE, self.signature),
            (keys::ITEM_CLIENT_HOPLIMIT, byte(self.client_hoplimit)),
        ];
        let back = [
            (keys::ITEM_QUERY_NAME, self.query_name),
            (keys::ITEM_QUERY_SIZE, self.query_size),
            (keys::ITEM_RESPONSE_SIZE, self.response_size),
        ];
        let count = present_count(&front)
            + value_count(&self.response_delay)
            + present_count(&back)
            + extended_count(&self.query_extended)
            + extended_count(&self.response_extended);
        push_map_head(out, count)?;
        push_entries(out, &front)?;
        push_optional(out, keys::ITEM_RESPONSE_DELAY, &self.response_delay)?;
        push_entries(out, &back)?;
        push_extended(out, keys::ITEM_QUERY_EXTENDED, &self.query_extended)?;
        push_extended(out, keys::ITEM_RESPONSE_EXTENDED, &self.response_extended)?;
        Ok(())
    }
}

impl Spelled for BlockMalformed {
    ghost item = { λ m. malformed_item m };

    fn push(&self, out: &mut Out) -> Result<(), AllocError> {
        push_map(
            out,
            &[
                (keys::MALFORMED_TIME_OFFSET, self.time_offset),
                (keys::MALFORMED_CLIENT_ADDRESS, self.client_address),
                (keys::MALFORMED_CLIENT_PORT, word(self.client_port)),
                (keys::MALFORMED_MESSAGE_DATA, self.message_data),
            ],
        )
    }
}
