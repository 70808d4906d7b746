//! Kept blocks, field by field, by the names of RFC 8618 7.3.2.

use crate::names::{put_name, put_name_field};
use crate::text::{put_bytes, put_field, put_hex, put_optional};
use cd_block::{KeptBlock, KeptData, KeptItem, KeptLists, KeptMalformed, KeptRr, KeptSig, Stats};
use cd_name::{Blob, Name};
use std::alloc::AllocError;
use std::fmt::Write;

// A line of a name and bytes where they are kept.
fn put_kept_bytes(text: &mut String, name: &str, bytes: &Option<Blob>) -> Result<(), AllocError> {
    match bytes {
        Some(bytes) => put_bytes(text, name, bytes.as_slice()),
        None => Ok(()),
    }
}

fn put_server(text: &mut String, sig: &KeptSig) -> Result<(), AllocError> {
    put_kept_bytes(text, "    server-address", &sig.server_address)?;
    put_optional(text, "    server-port", &sig.server_port)?;
    put_optional(text, "    qr-transport-flags", &sig.transport_flags)?;
    put_optional(text, "    qr-sig-flags", &sig.sig_flags)?;
    put_optional(text, "    query-opcode", &sig.opcode)?;
    put_optional(text, "    qr-dns-flags", &sig.dns_flags)
}

fn put_query_counts(text: &mut String, sig: &KeptSig) -> Result<(), AllocError> {
    put_optional(text, "    query-qdcount", &sig.qd)?;
    put_optional(text, "    query-ancount", &sig.an)?;
    put_optional(text, "    query-nscount", &sig.ns)?;
    put_optional(text, "    query-arcount", &sig.ar)?;
    put_optional(text, "    query-edns-version", &sig.edns_version)?;
    put_optional(text, "    query-udp-size", &sig.udp_size)
}

// A query-response signature (7.3.2.3.2).
fn put_signature(text: &mut String, sig: &KeptSig) -> Result<(), AllocError> {
    text.push_str("  qr-signature\n")?;
    put_server(text, sig)?;
    put_optional(text, "    query-rcode", &sig.query_rcode)?;
    if let Some((rtype, rclass)) = sig.classtype {
        writeln!(text, "    query-classtype type {rtype} class {rclass}")?;
    }
    put_query_counts(text, sig)?;
    put_kept_bytes(text, "    query-opt-rdata", &sig.opt_rdata)?;
    put_optional(text, "    response-rcode", &sig.response_rcode)
}

// A resource record (7.3.2.3.4).
fn put_record(text: &mut String, list: &str, rr: &KeptRr) -> Result<(), AllocError> {
    write!(text, "    {list} ")?;
    put_name(text, rr.name.as_slice())?;
    write!(text, " type {} class {}", rr.rtype, rr.rclass)?;
    if let Some(ttl) = rr.ttl {
        write!(text, " ttl {ttl}")?;
    }
    if let Some(rdata) = &rr.rdata {
        text.push_str(" rdata ")?;
        put_hex(text, rdata.as_slice())?;
    }
    text.push('\n')
}

fn put_records(text: &mut String, list: &str, records: &[KeptRr]) -> Result<(), AllocError> {
    for rr in records {
        put_record(text, list, rr)?;
    }
    Ok(())
}

fn has_list(lists: &KeptLists) -> bool {
    !(lists.question.as_slice().is_empty()
        && lists.answer.as_slice().is_empty()
        && lists.authority.as_slice().is_empty()
        && lists.additional.as_slice().is_empty())
}

// The extended part of a query or a response (7.3.2.4.2), where there is one.
fn put_extended(text: &mut String, name: &str, lists: &KeptLists) -> Result<(), AllocError> {
    if !has_list(lists) {
        return Ok(());
    }
    writeln!(text, "  {name}")?;
    for question in lists.question.as_slice() {
        text.push_str("    question ")?;
        put_name(text, question.name.as_slice())?;
        writeln!(text, " type {} class {}", question.rtype, question.rclass)?;
    }
    put_records(text, "answer", lists.answer.as_slice())?;
    put_records(text, "authority", lists.authority.as_slice())?;
    put_records(text, "additional", lists.additional.as_slice())
}

fn put_item_client(text: &mut String, item: &KeptItem) -> Result<(), AllocError> {
    put_optional(text, "  time-offset", &item.time_offset)?;
    put_kept_bytes(text, "  client-address", &item.client_address)?;
    put_optional(text, "  client-port", &item.client_port)?;
    put_optional(text, "  transaction-id", &item.transaction_id)
}

fn put_item_signature(text: &mut String, sig: &Option<KeptSig>) -> Result<(), AllocError> {
    match sig {
        Some(sig) => put_signature(text, sig),
        None => Ok(()),
    }
}

fn put_item_name(text: &mut String, name: &Option<Name>) -> Result<(), AllocError> {
    match name {
        Some(name) => put_name_field(text, "  query-name", name.as_slice()),
        None => Ok(()),
    }
}

fn put_item_sizes(text: &mut String, item: &KeptItem) -> Result<(), AllocError> {
    put_optional(text, "  query-size", &item.query_size)?;
    put_optional(text, "  response-size", &item.response_size)
}

// A query-response item (7.3.2.4).
fn put_item(text: &mut String, item: &KeptItem) -> Result<(), AllocError> {
    text.push_str("item\n")?;
    put_item_client(text, item)?;
    put_item_signature(text, &item.signature)?;
    put_optional(text, "  client-hoplimit", &item.client_hoplimit)?;
    put_optional(text, "  response-delay", &item.response_delay)?;
    put_item_name(text, &item.query_name)?;
    put_item_sizes(text, item)?;
    put_extended(text, "query-extended", &item.query_extended)?;
    put_extended(text, "response-extended", &item.response_extended)
}

// The data of a malformed message (7.3.2.3.5).
fn put_data(text: &mut String, data: &KeptData) -> Result<(), AllocError> {
    text.push_str("  message-data\n")?;
    put_kept_bytes(text, "    server-address", &data.server_address)?;
    put_optional(text, "    server-port", &data.server_port)?;
    put_optional(text, "    mm-transport-flags", &data.transport_flags)?;
    put_kept_bytes(text, "    mm-payload", &data.payload)
}

// A malformed message (7.3.2.6).
fn put_malformed(text: &mut String, item: &KeptMalformed) -> Result<(), AllocError> {
    text.push_str("malformed-message\n")?;
    put_optional(text, "  time-offset", &item.time_offset)?;
    put_kept_bytes(text, "  client-address", &item.client_address)?;
    put_optional(text, "  client-port", &item.client_port)?;
    match &item.message_data {
        Some(data) => put_data(text, data),
        None => Ok(()),
    }
}

// Block statistics (7.3.2.2).
fn put_statistics(text: &mut String, stats: Stats) -> Result<(), AllocError> {
    put_field(text, "processed-messages", &stats.processed)?;
    put_field(text, "qr-data-items", &stats.items)?;
    put_field(text, "unmatched-queries", &stats.unmatched_queries)?;
    put_field(text, "unmatched-responses", &stats.unmatched_responses)?;
    put_field(text, "discarded-opcode", &stats.discarded)?;
    put_field(text, "malformed-items", &stats.malformed)
}

/// A block, with each value where it belongs (7.3.2).
pub fn put_block(text: &mut String, block: &KeptBlock) -> Result<(), AllocError> {
    text.push_str("block\n")?;
    if let Some(stamp) = block.earliest {
        writeln!(
            text,
            "earliest-time seconds {} ticks {}",
            stamp.seconds, stamp.ticks
        )?;
    }
    put_field(text, "block-parameters-index", &block.params)?;
    if let Some(stats) = block.stats {
        put_statistics(text, stats)?;
    }
    for item in block.items.as_slice() {
        put_item(text, item)?;
    }
    for item in block.malformed.as_slice() {
        put_malformed(text, item)?;
    }
    Ok(())
}
