//! The flags of a signature (RFC 8618 7.3.2.3.2).

ghost use Rattle.std.specs.Prelude.{◌≡◌, ◌≤◌, ◌<◌, ◌/◌, ◌%◌, option_and_then};
ghost use Rattle.std.specs.Option.{option_copied, option_map};
ghost use Rattle.cd_edns.specs.Opts.{opt_seen, opt_of_message};
ghost use Rattle.cd_ident.specs.Keys.{parts_of};
ghost use Rattle.cd_hints.specs.Flags;

use cd_block::flags::{
    DNS_QUERY_DO, SIG_HAS_QUERY, SIG_HAS_RESPONSE, SIG_QUERY_HAS_NO_QUESTION, SIG_QUERY_HAS_OPT,
    SIG_RESPONSE_HAS_NO_QUESTION, SIG_RESPONSE_HAS_OPT, TRANSPORT_IPV6, TRANSPORT_TRAILING_BYTES,
};
use cd_edns::OptRef;
use cd_ident::Event;
use cd_message::Message;

// A flag that is set where the test holds.
fn flag_where(test: bool, flag: u8) -> u8
    ensures flag { result ≡ Flags.flag_where test flag }
    ensures bound { result ≤ flag }
{
    if test { flag } else { 0 }
}

// The transport flags of an event. `trailing` tells whether bytes stand after the query.
pub(crate) fn transport_flags(event: &Event, trailing: bool) -> u8
    ensures { result ≡ Flags.transport_flags (parts_of event.now) trailing }
{
    flag_where(event.client.v6, TRANSPORT_IPV6)
        + 2 * event.ids.transport()
        + flag_where(trailing, TRANSPORT_TRAILING_BYTES)
}

// Whether a message has no question.
fn has_no_question(message: &Message) -> bool
    ensures { result ≡ Flags.has_no_question message.now }
{
    message.questions.as_slice().is_empty()
}

// What the signature flags say of a query with this OPT record.
fn query_signature_flags(query: &Message, opt: Option<OptRef>) -> u8
    requires { option_map opt_seen opt ≡ opt_of_message query.now }
    ensures flags { result ≡ Flags.query_signature_flags query.now }
    ensures bound { result < 64 }
{
    SIG_HAS_QUERY
        + flag_where(opt.is_some(), SIG_QUERY_HAS_OPT)
        + flag_where(has_no_question(query), SIG_QUERY_HAS_NO_QUESTION)
}

// What they say of a response with this OPT record.
fn response_signature_flags(response: &Message, opt: Option<OptRef>) -> u8
    requires { option_map opt_seen opt ≡ opt_of_message response.now }
    ensures flags { result ≡ Flags.response_signature_flags response.now }
    ensures bound { result < 64 }
{
    SIG_HAS_RESPONSE
        + flag_where(opt.is_some(), SIG_RESPONSE_HAS_OPT)
        + flag_where(has_no_question(response), SIG_RESPONSE_HAS_NO_QUESTION)
}

// The signature flags of a query and a response, of which one may be absent, with their OPT records.
pub(crate) fn signature_flags(
    query: Option<&Message>,
    query_opt: Option<OptRef>,
    response: Option<&Message>,
    response_opt: Option<OptRef>,
) -> u8
    requires query { option_map opt_seen query_opt ≡ option_and_then opt_of_message (option_copied query) }
    requires response { option_map opt_seen response_opt ≡ option_and_then opt_of_message (option_copied response) }
    ensures { result ≡ Flags.signature_flags (option_copied query.entry) (option_copied response.entry) }
{
    let of_query = match query {
        Some(query) => query_signature_flags(query, query_opt),
        None => 0,
    };
    let of_response = match response {
        Some(response) => response_signature_flags(response, response_opt),
        None => 0,
    };
    of_query + of_response
}

// CD, AD, Z, RA, RD, TC and AA, the bits 4 to 10 of the header's second word, as the bits 0 to 6.
fn header_flags(message: &Message) -> u16
    ensures { result ≡ message.now.bits / 16 % 128 }
{
    message.bits / 16 % 128
}

// Whether the sender of a query with this OPT record takes DNSSEC records.
fn is_dnssec_ok(query: &Message, opt: Option<OptRef>) -> bool
    requires { option_map opt_seen opt ≡ opt_of_message query.now }
    ensures { result ≡ Flags.is_dnssec_ok query.now }
{
    opt.is_some_and(|opt| opt.dnssec_ok)
}

// The DNS flags of a query with this OPT record.
#[tactic(auto, using(crate::proofs::HeaderFlags::query_flags_of))]
fn query_dns_flags(query: &Message, opt: Option<OptRef>) -> u16
    requires { option_map opt_seen opt ≡ opt_of_message query.now }
    ensures flags { result ≡ Flags.query_dns_flags query.now }
    ensures bound { result < 256 }
{
    let dnssec_ok = if is_dnssec_ok(query, opt) {
        DNS_QUERY_DO
    } else {
        0
    };
    header_flags(query) + dnssec_ok
}

// The DNS flags of a response.
#[tactic(auto, using(crate::proofs::HeaderFlags::response_flags_of))]
fn response_dns_flags(response: &Message) -> u16
    ensures flags { result ≡ Flags.response_dns_flags response.now }
    ensures bound { result < 32768 }
{
    256 * header_flags(response)
}

// The DNS flags of a query with this OPT record and a response, of which one may be absent.
pub(crate) fn dns_flags(
    query: Option<&Message>,
    query_opt: Option<OptRef>,
    response: Option<&Message>,
) -> u16
    requires { option_map opt_seen query_opt ≡ option_and_then opt_of_message (option_copied query) }
    ensures { result ≡ Flags.dns_flags (option_copied query.entry) (option_copied response.entry) }
{
    let of_query = match query {
        Some(query) => query_dns_flags(query, query_opt),
        None => 0,
    };
    let of_response = match response {
        Some(response) => response_dns_flags(response),
        None => 0,
    };
    of_query + of_response
}
