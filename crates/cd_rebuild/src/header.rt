//! The second word of a message's header (RFC 1035 4.1.1, RFC 4035 3.1.6).

ghost use Rattle.std.specs.Prelude.{◌≡◌, ◌≤◌};
ghost use Rattle.cd_rebuild.specs.Messages;

use cd_block::KeptSig;

// A message is a response.
const QR: u16 = 0x8000;

// CD, AD, Z, RA, RD, TC and AA of a query, which are the bits 0 to 6 of a signature's flags, as the bits 4 to 10.
#[tactic(auto, using(crate::proofs::HeaderFlags::query_flags_together))]
fn query_flags(flags: u16) -> u16
    ensures flags { result ≡ Messages.query_flags flags }
    ensures bound { result ≤ 0x07f0 }
{
    flags % 128 * 16
}

// The same of a response, which are the bits 8 to 14.
#[tactic(auto, using(crate::proofs::HeaderFlags::response_flags_together))]
fn response_flags(flags: u16) -> u16
    ensures flags { result ≡ Messages.response_flags flags }
    ensures bound { result ≤ 0x07f0 }
{
    flags / 256 % 128 * 16
}

// The opcode in its place.
fn opcode_bits(signature: &KeptSig) -> u16
    ensures bits { result ≡ Messages.opcode_bits signature.now }
    ensures bound { result ≤ 0x7800 }
{
    u16::from(signature.opcode.unwrap_or(0) % 16) * 0x0800
}

// The second word of the header of a query.
pub(crate) fn query_bits(signature: &KeptSig) -> u16
    ensures { result ≡ Messages.query_bits signature.now }
{
    let flags = signature.dns_flags.unwrap_or(0);
    let rcode = signature.query_rcode.unwrap_or(0);
    opcode_bits(signature) + query_flags(flags) + rcode % 16
}

// The second word of the header of a response.
pub(crate) fn response_bits(signature: &KeptSig) -> u16
    ensures { result ≡ Messages.response_bits signature.now }
{
    let flags = signature.dns_flags.unwrap_or(0);
    let rcode = signature.response_rcode.unwrap_or(0);
    QR + opcode_bits(signature) + response_flags(flags) + rcode % 16
}
