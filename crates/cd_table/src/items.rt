//! Items and their signatures (RFC 8618 7.3.2.4, 7.3.2.3.2).

ghost use Rattle.std.specs.Prelude.{◌≡◌, OnOk, IfOk};
ghost use Rattle.cd_table.specs.Growing.{each, if_present, put_signature, put_item, signature_at, item_at};

use crate::lent_bytes::{bytes_of, name_bytes};
use crate::records::put_lists;
use crate::tables::Tables;
use cd_block::{BlockItem, BlockLists, BlockSig, KeptItem, KeptSig};
use std::alloc::{AllocError, Global};

// A signature whose parts have these indexes.
fn signature_at(
    kept: &KeptSig,
    server_address: Option<u64>,
    classtype: Option<u64>,
    opt_rdata: Option<u64>,
) -> BlockSig
    ensures { result ≡ signature_at kept.now server_address classtype opt_rdata }
{
    BlockSig {
        server_address,
        server_port: kept.server_port,
        transport_flags: kept.transport_flags,
        sig_flags: kept.sig_flags,
        opcode: kept.opcode,
        dns_flags: kept.dns_flags,
        query_rcode: kept.query_rcode,
        classtype,
        qd: kept.qd,
        an: kept.an,
        ns: kept.ns,
        ar: kept.ar,
        edns_version: kept.edns_version,
        udp_size: kept.udp_size,
        opt_rdata,
        response_rcode: kept.response_rcode,
    }
}

// Puts a signature and its parts, and gives its index.
#[tactic(auto, unfolding(crate::specs::Growing::put_signature))]
fn put_signature(tables: &mut Tables, kept: &KeptSig) -> Result<u64, AllocError>
    ensures tables { OnOk result (tables.new ≡ (put_signature kept.now tables.old).tables) }
    ensures index { IfOk result (λ index. index ≡ (put_signature kept.now tables.old).value) }
{
    let server_address = tables.put_optional_address(bytes_of(&kept.server_address))?;
    let classtype = tables.put_optional_classtype(kept.classtype)?;
    let opt_rdata = tables.put_optional_bytes(bytes_of(&kept.opt_rdata))?;
    tables.put_block_signature(signature_at(kept, server_address, classtype, opt_rdata))
}

// Puts a signature and its parts, where there is one, and gives its index.
fn put_item_signature(
    tables: &mut Tables,
    kept: &Option<KeptSig>,
) -> Result<Option<u64>, AllocError>
    ensures tables { OnOk result (tables.new ≡ (if_present put_signature kept.now tables.old).tables) }
    ensures index { IfOk result (λ index. index ≡ (if_present put_signature kept.now tables.old).value) }
{
    match kept {
        Some(kept) => Ok(Some(put_signature(tables, kept)?)),
        None => Ok(None),
    }
}

// An item whose parts have these indexes.
fn item_at(
    kept: &KeptItem,
    client_address: Option<u64>,
    signature: Option<u64>,
    query_name: Option<u64>,
    query_extended: BlockLists,
    response_extended: BlockLists,
) -> BlockItem
    ensures { result ≡ item_at kept.now client_address signature query_name query_extended response_extended }
{
    BlockItem {
        time_offset: kept.time_offset,
        client_address,
        client_port: kept.client_port,
        transaction_id: kept.transaction_id,
        signature,
        client_hoplimit: kept.client_hoplimit,
        response_delay: kept.response_delay,
        query_name,
        query_size: kept.query_size,
        response_size: kept.response_size,
        query_extended,
        response_extended,
    }
}

// Puts the values of an item, and gives the item with their indexes.
#[tactic(auto, unfolding(crate::specs::Growing::put_item))]
fn put_item(tables: &mut Tables, alloc: Global, kept: &KeptItem) -> Result<BlockItem, AllocError>
    ensures tables { OnOk result (tables.new ≡ (put_item kept.now tables.old).tables) }
    ensures placed { IfOk result (λ placed. placed ≡ (put_item kept.now tables.old).value) }
{
    let client_address = tables.put_optional_address(bytes_of(&kept.client_address))?;
    let signature = put_item_signature(tables, &kept.signature)?;
    let query_name = tables.put_optional_bytes(name_bytes(&kept.query_name))?;
    let query_extended = put_lists(tables, alloc, &kept.query_extended)?;
    let response_extended = put_lists(tables, alloc, &kept.response_extended)?;
    Ok(item_at(
        kept,
        client_address,
        signature,
        query_name,
        query_extended,
        response_extended,
    ))
}

/// Puts the values of items, and gives the items with their indexes.
pub(crate) fn put_each_item(
    tables: &mut Tables,
    alloc: Global,
    items: &[KeptItem],
) -> Result<Vec<BlockItem>, AllocError>
    ensures tables { OnOk result (tables.new ≡ (each put_item items.now tables.old).tables) }
    ensures placed { IfOk result (λ v. v.items ≡ (each put_item items.now tables.old).value) }
{
    let mut placed = Vec::with_capacity(alloc, items.len())?;
    'items: for kept in items {
        let item = put_item(tables, alloc, kept)?;
        placed.push(item)?;
    }
    Ok(placed)
}
