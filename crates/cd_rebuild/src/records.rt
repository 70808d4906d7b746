//! The resource records of a message (RFC 1035 4.1.3).

ghost use Rattle.std.specs.Prelude.{◌≡◌, ◌%◌, ◌^◌, [], IfOk, unwrap_or};
ghost use Rattle.cd_rebuild.specs.Messages;

use crate::questions::copy_name;
use cd_block::KeptRr;
use cd_message::{OPT, Rr};
use cd_name::{Blob, List};
use std::alloc::{AllocError, Global};

// A copy of some bytes, and none where there are none. An `Err` is for want of memory.
pub(crate) fn bytes_or_none(alloc: Global, bytes: &Option<Blob>) -> Result<Blob, AllocError>
    ensures { IfOk result (λ copy. copy ≡ unwrap_or bytes.now []) }
{
    match bytes {
        Some(bytes) => Blob::from_slice(alloc, bytes.as_slice()),
        None => Ok(Blob::from_vec(Vec::new(alloc))),
    }
}

// The low 32 bits of a TTL.
fn low_bits(ttl: u64) -> u32
    ensures { result ≡ ttl % 2 ^ 32 }
{
    (ttl % 4_294_967_296) as u32
}

// A resource record. An `Err` is for want of memory.
fn record_of(alloc: Global, kept: &KeptRr) -> Result<Rr, AllocError>
    ensures { IfOk result (λ copy. copy ≡ Messages.record_of kept.now) }
{
    let rtype = kept.rtype;
    let rclass = kept.rclass;
    let ttl = low_bits(kept.ttl.unwrap_or(0));
    let owner = copy_name(alloc, &kept.name)?;
    let rdata = bytes_or_none(alloc, &kept.rdata)?;
    Ok(Rr {
        owner,
        rtype,
        rclass,
        ttl,
        rdata,
    })
}

// Whether a resource record stands in the message: it is no OPT record, or that is not told apart.
fn is_rendered(opt_apart: bool, kept: &KeptRr) -> bool
    ensures { result ≡ Messages.is_rendered opt_apart kept.now }
{
    !(opt_apart && kept.rtype == OPT)
}

// The resource records of a list that stand in the message. An `Err` is for want of memory.
pub(crate) fn records_of(
    alloc: Global,
    opt_apart: bool,
    records: &[KeptRr],
) -> Result<List<Rr>, AllocError>
    ensures { IfOk result (λ list. list ≡ Messages.records_of opt_apart records.now) }
{
    let mut list = Vec::new(alloc);
    'records: for kept in records {
        if is_rendered(opt_apart, kept) {
            list.push(record_of(alloc, kept)?)?;
        }
    }
    Ok(List::from_vec(list))
}
