//! What is kept of a record.

ghost use Rattle.std.specs.Prelude.{◌≡◌, IfOk, option_and_then, Some};
ghost use Rattle.std.specs.Option.{option_copied, option_map, option_map_or};
ghost use Rattle.cd_ident.specs.Keys.{parts_of};
ghost use Rattle.cd_hints.specs.Bare.{bare_item};
ghost use Rattle.cd_hints.specs.Hinted;
ghost use Rattle.cd_hints.specs.Items;
ghost use Rattle.cd_hints.specs.Lists;
ghost use Rattle.cd_hints.specs.Records.{record_parts, main_event, query_message, response_message, HasKinds, IsItem};
ghost use Rattle.cd_hints.specs.Ticks.{IsAtOrBefore};
ghost use Rattle.cd_hints.specs.Validity.{AreValidParams, IsValid};

use crate::keeping::copies::{copy_optional_address, copy_optional_name};
use crate::keeping::hint::{is_hinted, kept};
use crate::keeping::keeper::Keeper;
use crate::keeping::lists::{no_lists, query_lists, response_lists};
use crate::keeping::signature::kept_signature;
use crate::keeping::stored_address::kept_client_address;
use crate::keeping::ticks::{ticks_between, ticks_since};
use crate::record::Rec;
use crate::settings::Settings;
use cd_block::hints::{
    QR_CLIENT_HOPLIMIT, QR_CLIENT_PORT, QR_QUERY_NAME, QR_QUERY_SIZE, QR_RESPONSE_DELAY,
    QR_RESPONSE_SIZE, QR_SIGNATURE, QR_TIME_OFFSET, QR_TRANSACTION_ID,
};
use cd_block::{BlockItem, BlockLists, KeptItem, KeptLists, KeptSig, Params, Stamp};
use cd_ident::Event;
use cd_message::{Message, Question};
use cd_name::Name;
use std::alloc::{AllocError, Global};

// The first question of a message, where there is a message and it has one.
fn first_question(message: Option<&Message>) -> Option<&Question>
    ensures { option_copied result ≡ option_and_then Items.first_question (option_copied message.entry) }
{
    message.and_then(|message| message.questions.as_slice().first())
}

/// The lead question of a record: the query's first one, or the response's first one where there is no query or it has
/// none.
pub fn lead_question(rec: &Rec) -> Option<&Question>
    ensures { option_copied result ≡ Items.lead_question (record_parts rec.now) }
{
    match first_question(rec.query_message()) {
        Some(question) => Some(question),
        None => first_question(rec.response_message()),
    }
}

// The ID of a message.
fn transaction_id(message: Option<&Message>) -> Option<u16>
    ensures { result ≡ option_map (λ m. m.id) (option_copied message.entry) }
{
    message.map(|message| message.id)
}

// The time to live or hop limit of an event's packet.
fn hop_limit(event: Option<&Event>) -> Option<u8>
    ensures { result ≡ option_map (λ e. e.hop) (option_map (λ e. parts_of e.now) event.entry) }
{
    event.map(|event| event.hop)
}

// The bytes of an event's payload.
fn payload_size(event: Option<&Event>) -> Option<u64>
    ensures { result ≡ option_map (λ e. e.size) (option_map (λ e. parts_of e.now) event.entry) }
{
    event.map(|event| u64::from(event.size))
}

// Ticks from the query to the response of a pair.
fn response_delay(params: &Params, rec: &Rec) -> Option<i64>
    requires { AreValidParams params.now }
    ensures { result ≡ Items.response_delay params.now (record_parts rec.now) }
{
    match rec {
        Rec::Pair { query, response } => {
            Some(ticks_between(params.ticks, query.time, response.time))
        }
        Rec::Query(_) => None,
        Rec::Response(_) => None,
        Rec::Malformed(_) => None,
        Rec::Discarded(_) => None,
    }
}

/// What is kept of the name of the lead question.
pub fn kept_query_name<'a>(params: &Params, lead: Option<&'a Question>) -> Option<&'a Name>
    ensures { option_copied result ≡ Hinted.kept params.now.hints.qr QR_QUERY_NAME
        (option_map (λ q. q.name) (option_copied lead.entry)) }
{
    if !is_hinted(params.hints.qr, QR_QUERY_NAME) {
        return None;
    }
    match lead {
        Some(question) => Some(&question.name),
        None => None,
    }
}

/// Whether signatures are kept.
pub fn keeps_signatures(params: &Params) -> bool
    ensures { result ≡ Hinted.is_hinted params.now.hints.qr QR_SIGNATURE }
{
    is_hinted(params.hints.qr, QR_SIGNATURE)
}

// The signature of a record with this lead question, where its hint is set.
fn hinted_signature(
    alloc: Global,
    params: &Params,
    rec: &Rec,
    lead: Option<&Question>,
) -> Result<Option<KeptSig>, AllocError>
    requires valid { AreValidParams params.now }
    requires lead { option_copied lead ≡ Items.lead_question (record_parts rec.now) }
    ensures { IfOk result (λ signature. signature ≡
        Hinted.kept params.now.hints.qr QR_SIGNATURE (Some (Items.kept_signature params.now (record_parts rec.now)))) }
{
    if !keeps_signatures(params) {
        return Ok(None);
    }
    let signature = kept_signature(alloc, params, rec, lead)?;
    Ok(Some(signature))
}

// The lists of the query, where there is one.
fn query_extended(alloc: Global, keeper: &Keeper, rec: &Rec) -> Result<KeptLists, AllocError>
    ensures { IfOk result (λ lists. lists ≡
        option_map_or (Lists.query_lists keeper.now) (query_message (record_parts rec.now)) Lists.no_lists) }
{
    match rec.query_message() {
        Some(query) => query_lists(alloc, keeper, query),
        None => Ok(no_lists(alloc)),
    }
}

// The lists of the response, where there is one.
fn response_extended(alloc: Global, keeper: &Keeper, rec: &Rec) -> Result<KeptLists, AllocError>
    ensures { IfOk result (λ lists. lists ≡
        option_map_or (Lists.response_lists keeper.now) (response_message (record_parts rec.now)) Lists.no_lists) }
{
    match rec.response_message() {
        Some(response) => response_lists(alloc, keeper, response),
        None => Ok(no_lists(alloc)),
    }
}

// No list of a block.
const BARE_LISTS: BlockLists = BlockLists {
    question: None,
    answer: None,
    authority: None,
    additional: None,
};

/// What is kept of a record in its item, without what stands in tables, in a block with this earliest time, which is at or
/// before the record's. The parameters must be valid.
pub fn bare_item(params: &Params, rec: &Rec, earliest: Stamp) -> BlockItem
    requires valid { AreValidParams params.now }
    requires earliest { IsAtOrBefore params.now.ticks earliest (main_event (record_parts rec.now)).time }
    ensures { result ≡ bare_item (Items.kept_item params.now earliest (record_parts rec.now)) }
{
    let hints = params.hints.qr;
    let event = rec.main_event();
    let offset = ticks_since(params.ticks, earliest, event.time);
    BlockItem {
        time_offset: kept(hints, QR_TIME_OFFSET, Some(offset)),
        client_address: None,
        client_port: kept(hints, QR_CLIENT_PORT, Some(event.client_port)),
        transaction_id: kept(hints, QR_TRANSACTION_ID, transaction_id(rec.main_message())),
        signature: None,
        client_hoplimit: kept(hints, QR_CLIENT_HOPLIMIT, hop_limit(rec.query())),
        response_delay: kept(hints, QR_RESPONSE_DELAY, response_delay(params, rec)),
        query_name: None,
        query_size: kept(hints, QR_QUERY_SIZE, payload_size(rec.query())),
        response_size: kept(hints, QR_RESPONSE_SIZE, payload_size(rec.response())),
        query_extended: BARE_LISTS,
        response_extended: BARE_LISTS,
    }
}

/// The item of a pair, a query or a response, in a block with this earliest time, which is at or before the record's
/// (RFC 8618 7.3.2.4). The settings must be valid. A field is there exactly where its hint is set and it has a value.
/// An `Err` is for want of memory.
pub fn kept_item(
    alloc: Global,
    settings: &Settings,
    rec: &Rec,
    earliest: Stamp,
) -> Result<KeptItem, AllocError>
    requires valid { IsValid settings.now }
    requires item { IsItem (record_parts rec.now) }
    requires kinds { HasKinds (record_parts rec.now) }
    requires earliest { IsAtOrBefore settings.now.params.ticks earliest (main_event (record_parts rec.now)).time }
    ensures { IfOk result (λ item. item ≡ Items.kept_item settings.now.params earliest (record_parts rec.now)) }
{
    let params = &settings.params;
    let keeper = Keeper::of_ascending(params);
    let bare = bare_item(params, rec, earliest);
    let lead = lead_question(rec);
    Ok(KeptItem {
        time_offset: bare.time_offset,
        client_address: copy_optional_address(alloc, kept_client_address(params, rec))?,
        client_port: bare.client_port,
        transaction_id: bare.transaction_id,
        signature: hinted_signature(alloc, params, rec, lead)?,
        client_hoplimit: bare.client_hoplimit,
        response_delay: bare.response_delay,
        query_name: copy_optional_name(alloc, kept_query_name(params, lead))?,
        query_size: bare.query_size,
        response_size: bare.response_size,
        query_extended: query_extended(alloc, &keeper, rec)?,
        response_extended: response_extended(alloc, &keeper, rec)?,
    })
}
