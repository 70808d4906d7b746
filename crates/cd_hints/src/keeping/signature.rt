//! The signature that is kept of a record (RFC 8618 7.3.2.3.2).

ghost use Rattle.std.specs.Prelude.{◌≡◌, length, IfOk, option_and_then};
ghost use Rattle.std.specs.Option.{option_copied, option_map, option_map_or, ForSome};
ghost use Rattle.cd_edns.specs.Opts.{opt_seen, opt_of_message, full_rcode_of};
ghost use Rattle.cd_ident.specs.Headers;
ghost use Rattle.cd_message.specs.Valid.{Valid};
ghost use Rattle.cd_hints.specs.Bare.{bare_signature};
ghost use Rattle.cd_hints.specs.Hinted;
ghost use Rattle.cd_hints.specs.Items;
ghost use Rattle.cd_hints.specs.Records.{record_parts};
ghost use Rattle.cd_hints.specs.Validity.{AreValidParams};

use crate::keeping::copies::{copy_optional_address, copy_optional_blob};
use crate::keeping::flags::{dns_flags, signature_flags, transport_flags};
use crate::keeping::hint::{is_hinted, kept};
use crate::keeping::stored_address::kept_server_address;
use crate::record::Rec;
use cd_block::hints::{
    SIG_ANCOUNT, SIG_ARCOUNT, SIG_CLASSTYPE, SIG_DNS_FLAGS, SIG_EDNS_VERSION, SIG_NSCOUNT,
    SIG_OPCODE, SIG_OPT_RDATA, SIG_QDCOUNT, SIG_QUERY_RCODE, SIG_RESPONSE_RCODE, SIG_SERVER_PORT,
    SIG_SIG_FLAGS, SIG_TRANSPORT_FLAGS, SIG_UDP_SIZE,
};
use cd_block::{BlockSig, KeptSig, Params};
use cd_edns::{OptRef, opt_ref};
use cd_ident::opcode_of;
use cd_message::{Message, Question};
use std::alloc::{AllocError, Global};

// The OPT record of a message, where there is a message and it has one.
fn opt_in(message: Option<&Message>) -> Option<OptRef<'_>>
    ensures { option_map opt_seen result ≡ option_and_then opt_of_message (option_copied message.entry) }
{
    message.and_then(|message| opt_ref(message))
}

// The version of EDNS (RFC 6891 6.1.3).
fn edns_version(opt: Option<OptRef>) -> Option<u8>
    ensures { result ≡ option_map (λ o. o.version) (option_map opt_seen opt.entry) }
{
    opt.map(|opt| opt.version)
}

// The bytes of the largest UDP payload that the sender takes.
fn udp_size(opt: Option<OptRef>) -> Option<u16>
    ensures { result ≡ option_map (λ o. o.udp_size) (option_map opt_seen opt.entry) }
{
    opt.map(|opt| opt.udp_size)
}

// The opcode of a message.
fn opcode(message: Option<&Message>) -> Option<u8>
    ensures { result ≡ option_map (λ m. Headers.opcode_of m.bits) (option_copied message.entry) }
{
    message.map(|message| opcode_of(message.bits))
}

// The high eight bits of an RCODE, which stand in the OPT record, if there is one.
fn ext_rcode(opt: Option<OptRef>) -> u8
    ensures { result ≡ option_map_or (λ o. o.ext_rcode) (option_map opt_seen opt.entry) 0 }
{
    opt.map_or(0, |opt| opt.ext_rcode)
}

// The RCODE of twelve bits of a message with this OPT record (RFC 6891 6.1.3).
fn full_rcode(message: &Message, opt: Option<OptRef>) -> u16
    requires { option_map opt_seen opt ≡ opt_of_message message.now }
    ensures { result ≡ full_rcode_of message.now }
{
    message.bits % 16 + 16 * u16::from(ext_rcode(opt))
}

// The same, where there is a message.
fn rcode(message: Option<&Message>, opt: Option<OptRef>) -> Option<u16>
    requires { option_map opt_seen opt ≡ option_and_then opt_of_message (option_copied message) }
    ensures { result ≡ option_map full_rcode_of (option_copied message.entry) }
{
    match message {
        Some(message) => Some(full_rcode(message, opt)),
        None => None,
    }
}

// How many questions a message has.
fn question_count(message: Option<&Message>) -> Option<u16>
    requires { ForSome message (λ m. Valid m.now) }
    ensures { result ≡ option_map (λ m. length m.questions) (option_copied message.entry) }
{
    match message {
        Some(message) => Some(message.questions.as_slice().len() as u16),
        None => None,
    }
}

// How many records each section of a message has.
#[derive(Clone, Copy)]
struct RecordCounts {
    answers: Option<u16>,
    authority: Option<u16>,
    additional: Option<u16>,
}

// These numbers of a message, where there is one.
fn record_counts(message: Option<&Message>) -> RecordCounts
    requires { ForSome message (λ m. Valid m.now) }
    ensures answers { result.answers ≡ option_map (λ m. length m.answers) (option_copied message.entry) }
    ensures authority { result.authority ≡ option_map (λ m. length m.authority) (option_copied message.entry) }
    ensures additional { result.additional ≡ option_map (λ m. length m.additional) (option_copied message.entry) }
{
    match message {
        Some(message) => RecordCounts {
            answers: Some(message.answers.as_slice().len() as u16),
            authority: Some(message.authority.as_slice().len() as u16),
            additional: Some(message.additional.as_slice().len() as u16),
        },
        None => RecordCounts {
            answers: None,
            authority: None,
            additional: None,
        },
    }
}

/// What is kept of the type and the class of the lead question.
pub fn kept_classtype(params: &Params, lead: Option<&Question>) -> Option<(u16, u16)>
    ensures { result ≡ Hinted.kept params.now.hints.sig SIG_CLASSTYPE
        (option_map (λ q. (q.rtype, q.rclass)) (option_copied lead.entry)) }
{
    if !is_hinted(params.hints.sig, SIG_CLASSTYPE) {
        return None;
    }
    lead.map(|question| (question.rtype, question.rclass))
}

// What is kept of the options of an OPT record, where there is one.
fn hinted_options(hints: u32, opt: Option<OptRef<'_>>) -> Option<&[u8]>
    ensures { option_map (λ b. b.now) result ≡
        Hinted.kept hints SIG_OPT_RDATA (option_map (λ o. o.rdata) (option_map opt_seen opt.entry)) }
{
    if !is_hinted(hints, SIG_OPT_RDATA) {
        return None;
    }
    match opt {
        Some(opt) => Some(opt.rdata),
        None => None,
    }
}

/// What is kept of the options of the query's OPT record.
pub fn kept_options<'a>(params: &Params, rec: &'a Rec) -> Option<&'a [u8]>
    ensures { option_map (λ b. b.now) result ≡ Hinted.kept params.now.hints.sig SIG_OPT_RDATA
        (option_map (λ o. o.rdata) (Items.query_opt (record_parts rec.now))) }
{
    hinted_options(params.hints.sig, opt_in(rec.query_message()))
}

// Whether bytes stand after the query's message.
fn is_query_trailing(rec: &Rec) -> bool
    ensures { result ≡ Items.is_query_trailing (record_parts rec.now) }
{
    match rec.query() {
        Some(query) => query.trailing,
        None => false,
    }
}

/// What is kept of a record in its signature, without what stands in tables.
pub fn bare_signature(params: &Params, rec: &Rec) -> BlockSig
    ensures { result ≡ bare_signature (Items.kept_signature params.now (record_parts rec.now)) }
{
    let hints = params.hints.sig;
    let event = rec.main_event();
    let message = rec.main_message();
    let query = rec.query_message();
    let response = rec.response_message();
    let query_opt = opt_in(query);
    let response_opt = opt_in(response);
    let counts = record_counts(query);
    let transport = transport_flags(event, is_query_trailing(rec));
    let flags = signature_flags(query, query_opt, response, response_opt);
    BlockSig {
        server_address: None,
        server_port: kept(hints, SIG_SERVER_PORT, Some(event.server_port)),
        transport_flags: kept(hints, SIG_TRANSPORT_FLAGS, Some(transport)),
        sig_flags: kept(hints, SIG_SIG_FLAGS, Some(flags)),
        opcode: kept(hints, SIG_OPCODE, opcode(message)),
        dns_flags: kept(
            hints,
            SIG_DNS_FLAGS,
            Some(dns_flags(query, query_opt, response)),
        ),
        query_rcode: kept(hints, SIG_QUERY_RCODE, rcode(query, query_opt)),
        classtype: None,
        qd: kept(hints, SIG_QDCOUNT, question_count(message)),
        an: kept(hints, SIG_ANCOUNT, counts.answers),
        ns: kept(hints, SIG_NSCOUNT, counts.authority),
        ar: kept(hints, SIG_ARCOUNT, counts.additional),
        edns_version: kept(hints, SIG_EDNS_VERSION, edns_version(query_opt)),
        udp_size: kept(hints, SIG_UDP_SIZE, udp_size(query_opt)),
        opt_rdata: None,
        response_rcode: kept(hints, SIG_RESPONSE_RCODE, rcode(response, response_opt)),
    }
}

// The signature of a record with this lead question. An `Err` is for want of memory.
pub(crate) fn kept_signature(
    alloc: Global,
    params: &Params,
    rec: &Rec,
    lead: Option<&Question>,
) -> Result<KeptSig, AllocError>
    requires valid { AreValidParams params.now }
    requires lead { option_copied lead ≡ Items.lead_question (record_parts rec.now) }
    ensures { IfOk result (λ signature. signature ≡ Items.kept_signature params.now (record_parts rec.now)) }
{
    let bare = bare_signature(params, rec);
    Ok(KeptSig {
        server_address: copy_optional_address(alloc, kept_server_address(params, rec))?,
        server_port: bare.server_port,
        transport_flags: bare.transport_flags,
        sig_flags: bare.sig_flags,
        opcode: bare.opcode,
        dns_flags: bare.dns_flags,
        query_rcode: bare.query_rcode,
        classtype: kept_classtype(params, lead),
        qd: bare.qd,
        an: bare.an,
        ns: bare.ns,
        ar: bare.ar,
        edns_version: bare.edns_version,
        udp_size: bare.udp_size,
        opt_rdata: copy_optional_blob(alloc, kept_options(params, rec))?,
        response_rcode: bare.response_rcode,
    })
}
