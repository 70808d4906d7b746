//! What the flags of a signature say (RFC 8618 7.3.2.3.2).

ghost use Rattle.std.specs.Prelude.{◌≡◌, ◌&&◌, not};
ghost use Rattle.cd_rebuild.specs.Flags;

use cd_block::flags::{SIG_HAS_QUERY, SIG_HAS_RESPONSE, TRANSPORT_IPV6};
use cd_block::{KeptData, KeptItem, KeptMalformed, KeptSig};

// Whether a flag of a signature's flags is set.
pub(crate) fn has_flag(signature: &KeptSig, flag: u8) -> bool
    ensures { result ≡ Flags.has_flag signature.now flag }
{
    signature.sig_flags.unwrap_or(0) & flag != 0
}

// Whether the item has a query.
pub(crate) fn has_query(signature: &KeptSig) -> bool
    ensures { result ≡ Flags.has_query signature.now }
{
    has_flag(signature, SIG_HAS_QUERY)
}

// Whether the item has a response.
pub(crate) fn has_response(signature: &KeptSig) -> bool
    ensures { result ≡ Flags.has_response signature.now }
{
    has_flag(signature, SIG_HAS_RESPONSE)
}

// Whether transport flags tell IPv6.
pub(crate) fn is_ipv6(flags: Option<u8>) -> bool
    ensures { result ≡ Flags.is_ipv6 flags }
{
    flags.unwrap_or(0) & TRANSPORT_IPV6 != 0
}

// Whether transport flags tell UDP.
fn is_udp(flags: Option<u8>) -> bool
    ensures { result ≡ Flags.is_udp flags }
{
    flags.unwrap_or(0) / 2 % 16 == 0
}

// Whether a signature says too little of its item.
fn is_bare_signature(signature: &KeptSig) -> bool
    ensures { result ≡ Flags.is_bare_signature signature.now }
{
    signature.transport_flags.is_none() || !(has_query(signature) || has_response(signature))
}

// Whether an item is bare.
pub(crate) fn is_bare(item: &KeptItem) -> bool
    ensures { result ≡ Flags.is_bare item.now }
{
    match &item.signature {
        Some(signature) => is_bare_signature(signature),
        None => true,
    }
}

// Whether an item is not bare, and of another transport than UDP.
pub(crate) fn is_not_udp(item: &KeptItem) -> bool
    ensures { result ≡ Flags.is_not_udp item.now }
{
    match &item.signature {
        Some(signature) => !is_bare_signature(signature) && !is_udp(signature.transport_flags),
        None => false,
    }
}

// Whether something is sent of an item with this signature.
pub(crate) fn is_signature_sent(signature: &KeptSig) -> bool
    ensures { result ≡ (not (Flags.is_bare_signature signature.now) && Flags.is_udp signature.now.transport_flags) }
{
    !is_bare_signature(signature) && is_udp(signature.transport_flags)
}

// Whether the data of a malformed message say too little of it.
fn is_bare_data(details: &KeptData) -> bool
    ensures { result ≡ Flags.is_bare_data details.now }
{
    details.transport_flags.is_none() || details.payload.is_none()
}

// Whether a malformed message is bare.
pub(crate) fn is_bare_malformed(message: &KeptMalformed) -> bool
    ensures { result ≡ Flags.is_bare_malformed message.now }
{
    match &message.message_data {
        Some(details) => is_bare_data(details),
        None => true,
    }
}

// Whether a malformed message is not bare, and of another transport than UDP.
pub(crate) fn is_not_udp_malformed(message: &KeptMalformed) -> bool
    ensures { result ≡ Flags.is_not_udp_malformed message.now }
{
    match &message.message_data {
        Some(details) => !is_bare_data(details) && !is_udp(details.transport_flags),
        None => false,
    }
}

// Whether a malformed message with these data is sent.
pub(crate) fn is_data_sent(details: &KeptData) -> bool
    ensures { result ≡ (not (Flags.is_bare_data details.now) && Flags.is_udp details.now.transport_flags) }
{
    !is_bare_data(details) && is_udp(details.transport_flags)
}
