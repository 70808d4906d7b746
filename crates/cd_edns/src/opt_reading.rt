//! Reads the OPT record of a message.

ghost use Rattle.std.specs.Prelude.{◌≡◌, ◌↔◌, IfOk, IsNone, find};
ghost use Rattle.std.specs.Option.{option_copied, option_map};
ghost use Rattle.cd_message.specs.Valid.{Valid, is_opt};
ghost use Rattle.cd_edns.specs.Opts.{HasNoOpt, opt_of_message, opt_of_record, opt_seen, ext_rcode_of, full_rcode_of};

use crate::opt_record::{Opt, OptRef};
use cd_message::{Message, OPT, Rr};
use std::alloc::{AllocError, Global};

// The first OPT record of some records.
fn opt_record(records: &[Rr]) -> Option<&Rr>
    ensures { option_copied result ≡ find is_opt records.now }
{
    records.iter().find(|record| record.rtype == OPT)
}

// The high eight bits of the full RCODE, in an OPT record.
fn ext_rcode_of(opt: &Rr) -> u8
    ensures { result ≡ ext_rcode_of opt.now }
{
    (opt.ttl / 16777216) as u8
}

// What an OPT record means.
fn opt_ref_of_record(opt: &Rr) -> OptRef<'_>
    ensures { opt_seen result ≡ opt_of_record opt.now }
{
    OptRef {
        udp_size: opt.rclass,
        ext_rcode: ext_rcode_of(opt),
        version: (opt.ttl / 65536 % 256) as u8,
        dnssec_ok: opt.ttl % 65536 >= 32768,
        rdata: opt.rdata.as_slice(),
    }
}

/// What a message's OPT record means, if it has one, the options borrowed from the message (RFC 6891 6.1.2, 6.1.3).
pub fn opt_ref(message: &Message) -> Option<OptRef<'_>>
    ensures exact { option_map opt_seen result ≡ opt_of_message message.now }
    ensures none { IsNone result ↔ HasNoOpt message.now }
{
    match opt_record(message.additional.as_slice()) {
        Some(record) => Some(opt_ref_of_record(record)),
        None => None,
    }
}

/// What a message's OPT record means, if it has one (RFC 6891 6.1.2, 6.1.3). The only error is want of memory.
pub fn opt_of(alloc: Global, message: &Message) -> Result<Option<Opt>, AllocError>
    requires { Valid message.now }
    ensures exact { IfOk result (λ opt. opt ≡ opt_of_message message.now) }
    ensures none { IfOk result (λ opt. IsNone opt ↔ HasNoOpt message.now) }
{
    match opt_ref(message) {
        Some(found) => {
            let opt = found.to_opt(alloc)?;
            Ok(Some(opt))
        }
        None => Ok(None),
    }
}

/// The RCODE of a message, 0 to 4095: the low four bits of `bits` and, above them, the eight bits of the OPT record,
/// if there is one (RFC 6891 6.1.3).
pub fn full_rcode(message: &Message) -> u16
    requires { Valid message.now }
    ensures { result ≡ full_rcode_of message.now }
{
    let high = match opt_record(message.additional.as_slice()) {
        Some(record) => u16::from(ext_rcode_of(record)),
        None => 0,
    };
    message.bits % 16 + 16 * high
}
