//! The messages of an item (RFC 1035 4.1, RFC 6891 6.1).

ghost use Rattle.std.specs.Prelude.{◌≡◌, IfOk};
ghost use Rattle.cd_rebuild.specs.Messages;

use crate::flags::has_flag;
use crate::header::{query_bits, response_bits};
use crate::questions::questions;
use crate::records::{bytes_or_none, records_of};
use cd_block::flags::{
    DNS_QUERY_DO, SIG_QUERY_HAS_NO_QUESTION, SIG_QUERY_HAS_OPT, SIG_RESPONSE_HAS_NO_QUESTION,
};
use cd_block::{KeptItem, KeptSig};
use cd_edns::{Opt, put_opt};
use cd_message::Message;
use std::alloc::{AllocError, Global};

// Whether the query has an OPT record.
fn has_opt(signature: &KeptSig) -> bool
    ensures { result ≡ Messages.has_opt signature.now }
{
    has_flag(signature, SIG_QUERY_HAS_OPT)
}

// A query without its OPT record. An `Err` is for want of memory.
fn plain_query(alloc: Global, item: &KeptItem, signature: &KeptSig) -> Result<Message, AllocError>
    ensures { IfOk result (λ message. message ≡ Messages.plain_query item.now signature.now) }
{
    let id = item.transaction_id.unwrap_or(0);
    let bits = query_bits(signature);
    let lists = &item.query_extended;
    let further = lists.question.as_slice();
    Ok(Message {
        id,
        bits,
        questions: questions(alloc, SIG_QUERY_HAS_NO_QUESTION, item, signature, further)?,
        answers: records_of(alloc, false, lists.answer.as_slice())?,
        authority: records_of(alloc, false, lists.authority.as_slice())?,
        additional: records_of(alloc, has_opt(signature), lists.additional.as_slice())?,
    })
}

// What the OPT record of a query means. An `Err` is for want of memory.
fn query_opt(alloc: Global, signature: &KeptSig) -> Result<Opt, AllocError>
    ensures { IfOk result (λ opt. opt ≡ Messages.query_opt signature.now) }
{
    let udp_size = signature.udp_size.unwrap_or(512);
    let ext_rcode = (signature.query_rcode.unwrap_or(0) / 16 % 256) as u8;
    let version = signature.edns_version.unwrap_or(0);
    let dnssec_ok = signature.dns_flags.unwrap_or(0) & DNS_QUERY_DO != 0;
    let rdata = bytes_or_none(alloc, &signature.opt_rdata)?;
    Ok(Opt {
        udp_size,
        ext_rcode,
        version,
        dnssec_ok,
        rdata,
    })
}

// The query of an item with this signature. An `Err` is for want of memory.
pub(crate) fn query_of(
    alloc: Global,
    item: &KeptItem,
    signature: &KeptSig,
) -> Result<Message, AllocError>
    ensures { IfOk result (λ message. message ≡ Messages.query_of item.now signature.now) }
{
    let mut message = plain_query(alloc, item, signature)?;
    if !has_opt(signature) {
        return Ok(message);
    }
    let opt = query_opt(alloc, signature)?;
    put_opt(&mut message, opt)?;
    Ok(message)
}

// The response of an item with this signature. An `Err` is for want of memory.
pub(crate) fn response_of(
    alloc: Global,
    item: &KeptItem,
    signature: &KeptSig,
) -> Result<Message, AllocError>
    ensures { IfOk result (λ message. message ≡ Messages.response_of item.now signature.now) }
{
    let id = item.transaction_id.unwrap_or(0);
    let bits = response_bits(signature);
    let lists = &item.response_extended;
    let further = lists.question.as_slice();
    Ok(Message {
        id,
        bits,
        questions: questions(
            alloc,
            SIG_RESPONSE_HAS_NO_QUESTION,
            item,
            signature,
            further,
        )?,
        answers: records_of(alloc, false, lists.answer.as_slice())?,
        authority: records_of(alloc, false, lists.authority.as_slice())?,
        additional: records_of(alloc, false, lists.additional.as_slice())?,
    })
}
