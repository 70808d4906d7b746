//! Items, put into the tables of a block (RFC 8618 7.3.2.4, 7.3.2.3.2).

ghost use Rattle.std.specs.Prelude.{◌≡◌, OnOk, IfOk, Some};
ghost use Rattle.std.specs.Option.{option_copied, option_map_or};
ghost use Rattle.cd_block.specs.declared.hints.TheConstants as hint;
ghost use Rattle.cd_hints.specs.Hinted;
ghost use Rattle.cd_hints.specs.Items;
ghost use Rattle.cd_hints.specs.Lists;
ghost use Rattle.cd_hints.specs.Records.{record_parts, main_event, query_message, response_message};
ghost use Rattle.cd_hints.specs.Ticks.{IsAtOrBefore};
ghost use Rattle.cd_hints.specs.Validity.{AreValidParams};
ghost use Rattle.cd_table.specs.Growing.{if_present, put_address, put_bytes, put_item, put_lists, put_signature, signature_at, item_at};

use crate::lists::{NO_LISTS, put_query_lists, put_response_lists};
use cd_block::{BlockItem, BlockLists, BlockSig, Params, Stamp};
use cd_hints::{
    Keeper, Rec, StoredAddress, bare_item, bare_signature, keeps_signatures, kept_classtype,
    kept_client_address, kept_options, kept_query_name, kept_server_address, lead_question,
};
use cd_name::Name;
use cd_table::Tables;
use std::alloc::AllocError;

// Puts an address, where there is one, and gives its index.
fn put_address(
    tables: &mut Tables,
    address: Option<StoredAddress>,
) -> Result<Option<u64>, AllocError>
    ensures tables { OnOk result (tables.new ≡ (if_present put_address address tables.old).tables) }
    ensures index { IfOk result (λ index. index ≡ (if_present put_address address tables.old).value) }
{
    match address {
        Some(address) => Ok(Some(tables.put_address(address.as_slice())?)),
        None => Ok(None),
    }
}

// Puts a name, where there is one, and gives its index.
fn put_name(tables: &mut Tables, name: Option<&Name>) -> Result<Option<u64>, AllocError>
    ensures tables { OnOk result (
        tables.new ≡ (if_present put_bytes (option_copied name.entry) tables.old).tables) }
    ensures index { IfOk result (λ index.
        index ≡ (if_present put_bytes (option_copied name.entry) tables.old).value) }
{
    match name {
        Some(name) => Ok(Some(tables.put_bytes(name.as_slice())?)),
        None => Ok(None),
    }
}

// The signature of a record whose parts have these indexes.
fn signature_at(
    params: &Params,
    rec: &Rec,
    server_address: Option<u64>,
    classtype: Option<u64>,
    opt_rdata: Option<u64>,
) -> BlockSig
    ensures { result ≡ signature_at (Items.kept_signature params.now (record_parts rec.now))
        server_address classtype opt_rdata }
{
    BlockSig {
        server_address,
        classtype,
        opt_rdata,
        ..bare_signature(params, rec)
    }
}

// Puts the signature of a record, and gives its index.
#[tactic(auto, unfolding(cd_table::specs::Growing::put_signature))]
fn put_signature(tables: &mut Tables, params: &Params, rec: &Rec) -> Result<u64, AllocError>
    requires { AreValidParams params.now }
    ensures tables { OnOk result (tables.new ≡
        (put_signature (Items.kept_signature params.now (record_parts rec.now)) tables.old).tables) }
    ensures index { IfOk result (λ index. index ≡
        (put_signature (Items.kept_signature params.now (record_parts rec.now)) tables.old).value) }
{
    let lead = lead_question(rec);
    let server_address = put_address(tables, kept_server_address(params, rec))?;
    let classtype = tables.put_optional_classtype(kept_classtype(params, lead))?;
    let opt_rdata = tables.put_optional_bytes(kept_options(params, rec))?;
    let signature = signature_at(params, rec, server_address, classtype, opt_rdata);
    let index = tables.put_block_signature(signature)?;
    Ok(index)
}

// Puts the signature of a record, where its hint is set, and gives its index.
fn put_item_signature(
    tables: &mut Tables,
    params: &Params,
    rec: &Rec,
) -> Result<Option<u64>, AllocError>
    requires { AreValidParams params.now }
    ensures tables { OnOk result (tables.new ≡ (if_present put_signature
        (Hinted.kept params.now.hints.qr hint.QR_SIGNATURE (Some (Items.kept_signature params.now (record_parts rec.now))))
        tables.old).tables) }
    ensures index { IfOk result (λ index. index ≡ (if_present put_signature
        (Hinted.kept params.now.hints.qr hint.QR_SIGNATURE (Some (Items.kept_signature params.now (record_parts rec.now))))
        tables.old).value) }
{
    if !keeps_signatures(params) {
        return Ok(None);
    }
    let index = put_signature(tables, params, rec)?;
    Ok(Some(index))
}

// Puts the lists of the query of a record, where there is one.
#[tactic(auto, unfolding(cd_table::specs::Growing::put_lists, cd_table::specs::Growing::put_questions, cd_table::specs::Growing::put_records))]
fn put_query_extended(
    tables: &mut Tables,
    indexes: &mut Vec<u64>,
    keeper: &Keeper,
    rec: &Rec,
) -> Result<BlockLists, AllocError>
    ensures tables { OnOk result (tables.new ≡ (put_lists (option_map_or (Lists.query_lists keeper.now)
        (query_message (record_parts rec.now)) Lists.no_lists) tables.old).tables) }
    ensures placed { IfOk result (λ placed. placed ≡ (put_lists (option_map_or (Lists.query_lists keeper.now)
        (query_message (record_parts rec.now)) Lists.no_lists) tables.old).value) }
{
    match rec.query_message() {
        Some(query) => put_query_lists(tables, indexes, keeper, query),
        None => Ok(NO_LISTS),
    }
}

// Puts the lists of the response of a record, where there is one.
#[tactic(auto, unfolding(cd_table::specs::Growing::put_lists, cd_table::specs::Growing::put_questions, cd_table::specs::Growing::put_records))]
fn put_response_extended(
    tables: &mut Tables,
    indexes: &mut Vec<u64>,
    keeper: &Keeper,
    rec: &Rec,
) -> Result<BlockLists, AllocError>
    ensures tables { OnOk result (tables.new ≡ (put_lists (option_map_or (Lists.response_lists keeper.now)
        (response_message (record_parts rec.now)) Lists.no_lists) tables.old).tables) }
    ensures placed { IfOk result (λ placed. placed ≡ (put_lists (option_map_or (Lists.response_lists keeper.now)
        (response_message (record_parts rec.now)) Lists.no_lists) tables.old).value) }
{
    match rec.response_message() {
        Some(response) => put_response_lists(tables, indexes, keeper, response),
        None => Ok(NO_LISTS),
    }
}

// An item with these indexes in place of its own.
fn item_with(
    bare: BlockItem,
    client_address: Option<u64>,
    signature: Option<u64>,
    query_name: Option<u64>,
    query_extended: BlockLists,
    response_extended: BlockLists,
) -> BlockItem
    ensures { result ≡ record bare {
      client_address = client_address;
      signature = signature;
      query_name = query_name;
      query_extended = query_extended;
      response_extended = response_extended;
    } }
{
    BlockItem {
        client_address,
        signature,
        query_name,
        query_extended,
        response_extended,
        ..bare
    }
}

/// Puts the values of an item, in a block with this earliest time, which is at or before the record's, and gives the item
/// with their indexes. `indexes` is room for those of a list.
#[tactic(auto, unfolding(cd_table::specs::Growing::put_item))]
pub(crate) fn put_item(
    tables: &mut Tables,
    indexes: &mut Vec<u64>,
    params: &Params,
    rec: &Rec,
    earliest: Stamp,
) -> Result<BlockItem, AllocError>
    requires valid { AreValidParams params.now }
    requires earliest { IsAtOrBefore params.now.ticks earliest (main_event (record_parts rec.now)).time }
    ensures tables { OnOk result (tables.new ≡
        (put_item (Items.kept_item params.now earliest (record_parts rec.now)) tables.old).tables) }
    ensures placed { IfOk result (λ placed. placed ≡
        (put_item (Items.kept_item params.now earliest (record_parts rec.now)) tables.old).value) }
{
    let keeper = Keeper::of_ascending(params);
    let lead = lead_question(rec);
    let bare = bare_item(params, rec, earliest);
    let client_address = put_address(tables, kept_client_address(params, rec))?;
    let signature = put_item_signature(tables, params, rec)?;
    let query_name = put_name(tables, kept_query_name(params, lead))?;
    let query_extended = put_query_extended(tables, indexes, &keeper, rec)?;
    let response_extended = put_response_extended(tables, indexes, &keeper, rec)?;
    Ok(item_with(
        bare,
        client_address,
        signature,
        query_name,
        query_extended,
        response_extended,
    ))
}
