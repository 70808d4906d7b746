//! Reads RDATA.

ghost use Rattle.std.specs.Prelude.{◌≡◌, ◌+◌, ◌-◌, ◌≤◌, ◌++◌, length, Some, Ok};
ghost use Rattle.cd_message.specs.Messages;
ghost use Rattle.cd_message.specs.Readings.{Gives, Appends, with_front};

use crate::field::{room_for, why_of};
use crate::message::{MsgWhy, ParseFault};
use crate::shape::{Shape, shape_of};
use cd_name::{Blob, NameFault, NameReader, NameWhy, append_name, run_is_cut};
use std::alloc::{AllocError, Global};

// A rule of names, as a rule of messages, where the bytes end with the RDATA.
fn rdata_why_of(why: NameWhy) -> MsgWhy
    ensures { result ≡ Messages.rdata_why_of why }
{
    match why {
        NameWhy::Short => MsgWhy::Shape,
        NameWhy::Label => MsgWhy::Label,
        NameWhy::Pointer => MsgWhy::Pointer,
        NameWhy::LongName => MsgWhy::LongName,
    }
}

// Appends the name at an offset in RDATA that ends at `end` to some bytes, without pointers, and gives the offset
// after it. A run that would go on after the RDATA is read from the bytes before its end alone: it has no pointer.
#[tactic(auto, unfolding(crate::specs::Messages::rdata_name, crate::specs::Messages::name_in))]
fn append_rdata_name(
    bytes: &mut Vec<u8>,
    reader: &mut NameReader<'_>,
    end: usize,
    at: usize,
) -> Result<usize, ParseFault>
    requires { end ≤ length reader.old }
    ensures read { Appends bytes.old.items bytes.new.items result
        (Messages.rdata_name reader.old end at) }
    ensures same { reader.new ≡ reader.old }
{
    let front = &reader.payload()[..end];
    if run_is_cut(front, at) {
        return match append_name(bytes, front, at) {
            Ok(next) => Ok(next),
            Err(NameFault::Bad(why)) => Err(ParseFault::Malformed(rdata_why_of(why))),
            Err(NameFault::NoMemory) => Err(ParseFault::NoMemory),
        };
    }
    match reader.append(bytes, at) {
        Ok(next) => Ok(next),
        Err(NameFault::Bad(why)) => Err(ParseFault::Malformed(why_of(why))),
        Err(NameFault::NoMemory) => Err(ParseFault::NoMemory),
    }
}

// Appends so many names to some bytes, without pointers, and gives the offset after them.
fn append_names(
    bytes: &mut Vec<u8>,
    reader: &mut NameReader<'_>,
    end: usize,
    count: usize,
    at: usize,
) -> Result<usize, ParseFault>
    requires { end ≤ length reader.old }
    ensures read { Gives (λ next. (bytes.new.items, next)) result
        (with_front bytes.old.items (Messages.rdata_names reader.old end count at)) }
    ensures same { reader.new ≡ reader.old }
{
    let mut here = at;
    'names: for _ in 0..count {
        match append_rdata_name(bytes, reader, end, here) {
            Err(fault) => return Err(fault),
            Ok(next) => here = next,
        }
    }
    Ok(here)
}

// Appends some bytes to others.
fn append_bytes(bytes: &mut Vec<u8>, more: &[u8]) -> Result<(), ParseFault>
    ensures { Gives (λ _. bytes.new.items) result (Ok (bytes.old.items ++ more.now)) }
{
    match bytes.extend_from_slice(more) {
        Ok(()) => Ok(()),
        Err(AllocError) => Err(ParseFault::NoMemory),
    }
}

// A copy of some bytes.
fn copy_of(alloc: Global, bytes: &[u8]) -> Result<Blob, ParseFault>
    ensures { Gives (λ copy. copy) result (Ok bytes.now) }
{
    match Vec::from_slice(alloc, bytes) {
        Ok(copy) => Ok(Blob::from_vec(copy)),
        Err(AllocError) => Err(ParseFault::NoMemory),
    }
}

// The RDATA of a shape between two offsets, its names without pointers. Most RDATA has no pointers, and then its
// bytes are copied into room for exactly as many.
#[tactic(auto, unfolding(crate::specs::Messages::rdata_of_shape))]
fn rdata_of_shape(
    alloc: Global,
    reader: &mut NameReader<'_>,
    shape: Shape,
    at: usize,
    end: usize,
) -> Result<Blob, ParseFault>
    requires order { at ≤ end }
    requires within { end ≤ length reader.old }
    ensures read { Gives (λ x. x) result (Messages.rdata_of_shape (Some shape) reader.old at end) }
    ensures same { reader.new ≡ reader.old }
{
    if shape.before > end - at {
        return Err(ParseFault::Malformed(MsgWhy::Shape));
    }
    let payload = reader.payload();
    let first = at + shape.before;
    let mut bytes = room_for(alloc, end - at)?;
    append_bytes(&mut bytes, &payload[at..first])?;
    let next = append_names(&mut bytes, reader, end, shape.names, first)?;
    if next > end || end - next != shape.after {
        return Err(ParseFault::Malformed(MsgWhy::Shape));
    }
    append_bytes(&mut bytes, &payload[next..end])?;
    Ok(Blob::from_vec(bytes))
}

// The RDATA of a type between two offsets.
#[tactic(auto, unfolding(crate::specs::Messages::rdata_at, crate::specs::Messages::rdata_of_shape))]
pub(crate) fn rdata_at(
    alloc: Global,
    reader: &mut NameReader<'_>,
    rtype: u16,
    at: usize,
    end: usize,
) -> Result<Blob, ParseFault>
    requires order { at ≤ end }
    requires within { end ≤ length reader.old }
    ensures read { Gives (λ x. x) result (Messages.rdata_at rtype reader.old at end) }
    ensures same { reader.new ≡ reader.old }
{
    if at == end {
        return Ok(Blob::from_vec(Vec::new(alloc)));
    }
    match shape_of(rtype) {
        Some(shape) => rdata_of_shape(alloc, reader, shape, at, end),
        None => copy_of(alloc, &reader.payload()[at..end]),
    }
}
