//! Reads heads.

ghost use Rattle.std.specs.Prelude.{◌≡◌, ◌+◌, ◌/◌, ◌<◌, ◌≤◌, length, IfOk, IfErr};
ghost use Rattle.cd_cbor.specs.Heads as heads;
ghost use Rattle.cd_cbor.specs.Reading as reading;
ghost use Rattle.cd_cbor.specs.Readings as readings;
ghost use Rattle.cd_cbor.specs.Readings.{Gives, LiesWithin};
ghost use Rattle.cd_cbor.specs.declared.fault.CborFault.TheVariants as fault;

use crate::fault::{CborFault, Why};
use crate::major_type::MajorType;

// The additional information from which on a head tells no argument; 31 alone is used of it (RFC 8949 3).
pub(crate) const NO_ARGUMENT: u8 = 28;

// The additional information of an indefinite length, and of a break.
pub(crate) const INDEFINITE: u8 = 31;

// A fault at an offset.
pub(crate) fn bad(at: usize, why: Why) -> CborFault
    ensures { result ≡ fault.Bad at why }
{
    CborFault::Bad { at: at as u64, why }
}

/// The byte at an offset, in bytes from their start. `Err` is an end, at the number of bytes, where they are too few.
#[tactic(auto, unfolding(crate::specs::Readings::byte_at))]
pub fn byte_at(bytes: &[u8], at: usize) -> Result<u8, CborFault>
    ensures read { Gives (λ byte. byte) result (readings.byte_at at bytes.now) }
    ensures within { IfOk result (λ _. at < length bytes.now) }
    ensures fault { IfErr result (λ e. LiesWithin bytes.now e) }
{
    if at < bytes.len() {
        Ok(bytes[at])
    } else {
        Err(bad(bytes.len(), Why::End))
    }
}

/// The major type of the head with this first byte (RFC 8949 3).
#[tactic(auto, unfolding(crate::specs::Heads::major_type))]
pub fn major_type(first: u8) -> MajorType
    ensures { result ≡ heads.major_type (first / 32) }
{
    match first / 32 {
        0 => MajorType::Unsigned,
        1 => MajorType::Negative,
        2 => MajorType::Bytes,
        3 => MajorType::Text,
        4 => MajorType::Array,
        5 => MajorType::Map,
        6 => MajorType::Tag,
        _ => MajorType::Simple,
    }
}

// How many bytes of a head with this additional information stand after its first.
#[tactic(auto, unfolding(crate::specs::Heads::argument_size))]
fn argument_size(info: u8) -> usize
    ensures value { result ≡ heads.argument_size info }
    ensures most { result ≤ 8 }
{
    if info < 24 {
        0
    } else if info < 25 {
        1
    } else if info < 26 {
        2
    } else if info < 27 {
        4
    } else {
        8
    }
}

// The argument of a head with this additional information and these bytes after its first.
#[tactic(auto, unfolding(crate::specs::Heads::argument_size, crate::specs::Heads::argument_of))]
fn argument_of(info: u8, after: &[u8]) -> u64
    requires { heads.argument_size info ≤ length after.now }
    ensures value { result ≡ heads.argument_of info after.now }
    ensures small { info < 25 → result < 256 }
{
    if info < 24 {
        info as u64
    } else if info < 25 {
        after[0] as u64
    } else if info < 26 {
        u16::from_be_bytes([after[0], after[1]]) as u64
    } else if info < 27 {
        u32::from_be_bytes([after[0], after[1], after[2], after[3]]) as u64
    } else {
        u64::from_be_bytes([
            after[0], after[1], after[2], after[3], after[4], after[5], after[6], after[7],
        ])
    }
}

/// The argument of the head at an offset, of which the first byte is there, and the offset behind the head. The additional
/// information is that of its first byte, below 28 (RFC 8949 3). `Err` is an end, at the number of bytes, where they are
/// too few.
#[tactic(auto, unfolding(crate::specs::Reading::argument_at))]
pub fn argument_at(bytes: &[u8], info: u8, at: usize) -> Result<(u64, usize), CborFault>
    requires { at < length bytes.now }
    ensures read { Gives (λ x. (x.0, x.1)) result (reading.argument_at info at bytes.now) }
    ensures within { IfOk result (λ x. (at < x.1) × (x.1 ≤ length bytes.now)) }
    ensures small { IfOk result (λ x. info < 25 → x.0 < 256) }
    ensures fault { IfErr result (λ e. LiesWithin bytes.now e) }
{
    let size = argument_size(info);
    let start = at + 1;
    if bytes.len() < start + size {
        return Err(bad(bytes.len(), Why::End));
    }
    let argument = argument_of(info, &bytes[start..start + size]);
    Ok((argument, start + size))
}
