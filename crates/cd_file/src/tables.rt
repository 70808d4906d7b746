//! The tables of a block (RFC 8618 7.3.2.3).

ghost use Rattle.std.specs.Prelude.{◌≡◌, ◌≤◌, ◌++◌, OnOk};
ghost use Rattle.cd_file.specs.Maps.{there, entries_count, entry_spelling, entries_spelling};
ghost use Rattle.cd_file.specs.Tables.{classtype_item, signature_item, question_item, rr_item, malformed_data_item, table_entries, tables_item};

use crate::entries::{byte, present_count, push_entries, push_map, word};
use crate::spelled::{Spelled, array_count, push_optional, push_optional_array, value_count};
use cd_block::{Block, BlockData, BlockQuestion, BlockRr, BlockSig, keys};
use cd_bytes::Out;
use cd_cbor::{push_map_head, push_unsigned};
use std::alloc::AllocError;

// A type and a class (RFC 8618 7.3.2.3.1).
impl Spelled for (u16, u16) {
    ghost item = { λ c. classtype_item c };

    fn push(&self, out: &mut Out) -> Result<(), AllocError> {
        push_map(
            out,
            &[
                (keys::CLASSTYPE_TYPE, Some(self.0 as u64)),
                (keys::CLASSTYPE_CLASS, Some(self.1 as u64)),
            ],
        )
    }
}

impl Spelled for BlockSig {
    ghost item = { λ s. signature_item s };

    fn push(&self, out: &mut Out) -> Result<(), AllocError> {
        push_map(
            out,
            &[
                (keys::SIG_SERVER_ADDRESS, self.server_address),
                (keys::SIG_SERVER_PORT, word(self.server_port)),
                (keys::SIG_TRANSPORT_FLAGS, byte(self.transport_flags)),
                (keys::SIG_SIG_FLAGS, byte(self.sig_flags)),
                (keys::SIG_OPCODE, byte(self.opcode)),
                (keys::SIG_DNS_FLAGS, word(self.dns_flags)),
                (keys::SIG_QUERY_RCODE, word(self.query_rcode)),
                (keys::SIG_CLASSTYPE, self.classtype),
                (keys::SIG_QDCOUNT, word(self.qd)),
                (keys::SIG_ANCOUNT, word(self.an)),
                (keys::SIG_NSCOUNT, word(self.ns)),
                (keys::SIG_ARCOUNT, word(self.ar)),
                (keys::SIG_EDNS_VERSION, byte(self.edns_version)),
                (keys::SIG_UDP_SIZE, word(self.udp_size)),
                (keys::SIG_OPT_RDATA, self.opt_rdata),
                (keys::SIG_RESPONSE_RCODE, word(self.response_rcode)),
            ],
        )
    }
}

impl Spelled for BlockQuestion {
    ghost item = { λ q. question_item q };

    fn push(&self, out: &mut Out) -> Result<(), AllocError> {
        push_map(
            out,
            &[
                (keys::QUESTION_NAME, Some(self.name)),
                (keys::QUESTION_CLASSTYPE, Some(self.classtype)),
            ],
        )
    }
}

impl Spelled for BlockRr {
    ghost item = { λ r. rr_item r };

    fn push(&self, out: &mut Out) -> Result<(), AllocError> {
        push_map(
            out,
            &[
                (keys::RR_NAME, Some(self.name)),
                (keys::RR_CLASSTYPE, Some(self.classtype)),
                (keys::RR_TTL, self.ttl),
                (keys::RR_RDATA, self.rdata),
            ],
        )
    }
}

impl Spelled for BlockData {
    ghost item = { λ d. malformed_data_item d };

    fn push(&self, out: &mut Out) -> Result<(), AllocError> {
        let entries = [
            (keys::MALFORMED_DATA_SERVER_ADDRESS, self.server_address),
            (keys::MALFORMED_DATA_SERVER_PORT, word(self.server_port)),
            (
                keys::MALFORMED_DATA_TRANSPORT_FLAGS,
                byte(self.transport_flags),
            ),
        ];
        push_map_head(out, present_count(&entries) + value_count(&self.payload))?;
        push_entries(out, &entries)?;
        push_optional(out, keys::MALFORMED_DATA_PAYLOAD, &self.payload)?;
        Ok(())
    }
}

// How many tables have a value.
fn table_count(block: &Block) -> u64
    ensures exact { result ≡ entries_count (table_entries block.now) }
    ensures few { result ≤ 9 }
{
    array_count(&block.ip_address)
        + array_count(&block.classtype)
        + array_count(&block.name_rdata)
        + array_count(&block.qr_sig)
        + array_count(&block.qlist)
        + array_count(&block.qrr)
        + array_count(&block.rrlist)
        + array_count(&block.rr)
        + array_count(&block.malformed_message_data)
}

fn push_table_entries(out: &mut Out, block: &Block) -> Result<(), AllocError>
    ensures { OnOk result (out.new ≡ out.old ++ entries_spelling (table_entries block.now)) }
{
    push_optional_array(out, keys::TABLES_IP_ADDRESS, &block.ip_address)?;
    push_optional_array(out, keys::TABLES_CLASSTYPE, &block.classtype)?;
    push_optional_array(out, keys::TABLES_NAME_RDATA, &block.name_rdata)?;
    push_optional_array(out, keys::TABLES_QR_SIG, &block.qr_sig)?;
    push_optional_array(out, keys::TABLES_QLIST, &block.qlist)?;
    push_optional_array(out, keys::TABLES_QRR, &block.qrr)?;
    push_optional_array(out, keys::TABLES_RRLIST, &block.rrlist)?;
    push_optional_array(out, keys::TABLES_RR, &block.rr)?;
    push_optional_array(
        out,
        keys::TABLES_MALFORMED_MESSAGE_DATA,
        &block.malformed_message_data,
    )?;
    Ok(())
}

/// 1 where a table has a value, else 0.
pub fn tables_count(block: &Block) -> u64
    ensures exact { result ≡ there (tables_item block.now) }
    ensures few { result ≤ 1 }
{
    if table_count(block) == 0 { 0 } else { 1 }
}

/// Writes a key and the map of the tables that have a value, where there are any.
pub fn push_tables(out: &mut Out, key: u64, block: &Block) -> Result<(), AllocError>
    ensures { OnOk result (out.new ≡ out.old ++ entry_spelling key (tables_item block.now)) }
{
    let count = table_count(block);
    if count == 0 {
        return Ok(());
    }
    push_unsigned(out, key)?;
    push_map_head(out, count)?;
    push_table_entries(out, block)?;
    Ok(())
}
