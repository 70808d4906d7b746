//! Puts an OPT record into a message.

ghost use Rattle.std.specs.Prelude.{◌≡◌, ◌<◌, ◌≤◌, ◌++◌, ◌∷◌, [], length, IfOk, OnOk, OnErr};
ghost use Rattle.cd_message.specs.Valid.{Valid};
ghost use Rattle.cd_edns.specs.Opts.{HasNoOpt, record_of_opt, ttl_of_opt, with_opt};

use crate::opt_record::Opt;
use cd_message::{Message, OPT, Rr};
use cd_name::{Blob, Name};
use std::alloc::AllocError;

// The TTL that holds the flags of an OPT record.
fn ttl_of_opt(ext_rcode: u8, version: u8, dnssec_ok: bool) -> u32
    ensures { result ≡ ttl_of_opt ext_rcode version dnssec_ok }
{
    let flags = if dnssec_ok { 32768 } else { 0 };
    u32::from(ext_rcode) * 16777216 + u32::from(version) * 65536 + flags
}

// The OPT record with these fields.
#[tactic(auto, using(crate::proofs::OptRecords::root_is_name))]
fn record_of_opt(opt: Opt) -> Result<Rr, AllocError>
    ensures { IfOk result (λ r. r ≡ record_of_opt opt) }
{
    let ttl = ttl_of_opt(opt.ext_rcode, opt.version, opt.dnssec_ok);
    let rdata = opt.rdata.into_vec();
    let owner = Name::from_slice(*rdata.allocator(), &[0])?;
    Ok(Rr {
        owner,
        rtype: OPT,
        rclass: opt.udp_size,
        ttl,
        rdata: Blob::from_vec(rdata),
    })
}

/// Adds an OPT record with these fields after the additional records (RFC 6891 6.1.2, 6.1.3). For want of memory the
/// message stays as it was. The record is made with the allocator of the options. A valid message stays valid if it
/// has room for one more record and the options have at most 65,535 bytes.
pub fn put_opt(message: &mut Message, opt: Opt) -> Result<(), AllocError>
    requires { HasNoOpt message.old }
    ensures ok { OnOk result (message.new ≡ with_opt message.old opt) }
    ensures err { OnErr result (message.new ≡ message.old) }
    ensures valid { Valid message.old → length message.old.additional < 65535 →
        length opt.rdata ≤ 65535 → Valid message.new }
{
    let record = record_of_opt(opt)?;
    match message.additional.push(record) {
        Ok(()) => Ok(()),
        Err(_refused) => Err(AllocError),
    }
}
