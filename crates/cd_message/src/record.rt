//! Reads a record of a message.

ghost use Rattle.std.specs.Prelude.{◌≡◌, ◌≤◌, length};
ghost use Rattle.cd_message.specs.Messages;
ghost use Rattle.cd_message.specs.Messages.{breaks_opt_rule};
ghost use Rattle.cd_message.specs.Readings.{Gives};

use crate::field::name_in;
use crate::message::{MsgWhy, OPT, ParseFault, Rr};
use crate::rdata::rdata_at;
use cd_bytes::{be16, be32};
use cd_name::{Name, NameReader};
use std::alloc::Global;

// Whether a record of a type and an owner is an OPT record where none is allowed, or not the root's.
fn breaks_opt_rule(opt_allowed: bool, rtype: u16, owner: &Name) -> bool
    ensures { result ≡ breaks_opt_rule opt_allowed rtype owner.now }
{
    rtype == OPT && (!opt_allowed || owner.as_slice().len() > 1)
}

// The record whose owner ends at an offset, and the offset after it.
#[tactic(auto, unfolding(crate::specs::Messages::record_after_owner))]
fn record_after_owner(
    alloc: Global,
    reader: &mut NameReader<'_>,
    opt_allowed: bool,
    owner: Name,
    at: usize,
) -> Result<(Rr, usize), ParseFault>
    requires { at ≤ length reader.old }
    ensures read { Gives (λ x. (x.0, x.1)) result
        (Messages.record_after_owner reader.old opt_allowed owner at) }
    ensures same { reader.new ≡ reader.old }
{
    let payload = reader.payload();
    if payload.len() - at < 10 {
        return Err(ParseFault::Malformed(MsgWhy::Short));
    }
    let rtype = be16(payload, at);
    if breaks_opt_rule(opt_allowed, rtype, &owner) {
        return Err(ParseFault::Malformed(MsgWhy::Opt));
    }
    let rclass = be16(payload, at + 2);
    let ttl = be32(payload, at + 4);
    let start = at + 10;
    let size = usize::from(be16(payload, at + 8));
    if payload.len() - start < size {
        return Err(ParseFault::Malformed(MsgWhy::Short));
    }
    let end = start + size;
    let rdata = rdata_at(alloc, reader, rtype, start, end)?;
    let record = Rr {
        owner,
        rtype,
        rclass,
        ttl,
        rdata,
    };
    Ok((record, end))
}

// The record at an offset, where an OPT record is allowed or not, and the offset after it.
#[tactic(auto, unfolding(crate::specs::Messages::record_at))]
pub(crate) fn record_at(
    alloc: Global,
    reader: &mut NameReader<'_>,
    opt_allowed: bool,
    at: usize,
) -> Result<(Rr, usize), ParseFault>
    ensures read { Gives (λ x. (x.0, x.1)) result (Messages.record_at reader.old opt_allowed at) }
    ensures same { reader.new ≡ reader.old }
{
    let (owner, next) = name_in(reader, at)?;
    record_after_owner(alloc, reader, opt_allowed, owner, next)
}

// Whether an OPT record is allowed after a record: after an OPT record no second one is (RFC 6891 6.1.1).
pub(crate) fn opt_allowed_after(opt_allowed: bool, last: &Rr) -> bool
    ensures { result ≡ Messages.opt_allowed_after opt_allowed last.now }
{
    opt_allowed && last.rtype != OPT
}
