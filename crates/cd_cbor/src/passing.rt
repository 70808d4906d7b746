//! Passes over items: where each ends, or its first fault. Nothing of them is kept.

ghost use Rattle.std.specs.Prelude.{◌≡◌, ◌+◌, ◌-◌, ◌<◌, ◌≤◌, length, IfOk};
ghost use Rattle.cd_cbor.specs.Reading as reading;
ghost use Rattle.cd_cbor.specs.Readings.{Gives, times, until_break};
ghost use Rattle.cd_cbor.specs.Ends.{end_of};
ghost use Rattle.cd_cbor.specs.declared.fault.Why.TheVariants as why;

use crate::fault::{CborFault, Why};
use crate::head_reading::{INDEFINITE, NO_ARGUMENT, argument_at, bad, byte_at, major_type};
use crate::major_type::MajorType;
use crate::string_reading::{BREAK, chunk_at, string_at};

// The string of definite length with its head at an offset.
#[tactic(auto, unfolding(crate::specs::Reading::definite_string_at))]
fn pass_string(bytes: &[u8], is_text: bool, info: u8, at: usize) -> Result<usize, CborFault>
    requires { at < length bytes.now }
    ensures read { Gives (λ n. n) result (end_of (reading.definite_string_at is_text info at bytes.now)) }
    ensures within { IfOk result (λ n. (at < n) × (n ≤ length bytes.now)) }
{
    let (_content, next) = string_at(bytes, is_text, 0, info, at)?;
    Ok(next)
}

// The string in chunks with its head at an offset.
fn pass_chunks(bytes: &[u8], is_text: bool, at: usize) -> Result<usize, CborFault>
    requires { at < length bytes.now }
    ensures read { Gives (λ n. n) result (end_of (reading.chunked_string_at is_text at bytes.now)) }
    ensures within { IfOk result (λ n. (at < n) × (n ≤ length bytes.now)) }
{
    let mut before = 0u64;
    let mut here = at + 1;
    'chunks: for _ in 0..bytes.len() {
        let first = match byte_at(bytes, here) {
            Ok(first) => first,
            Err(fault) => return Err(fault),
        };
        if first == BREAK {
            return Ok(here + 1);
        }
        match chunk_at(bytes, is_text, before, here) {
            Err(fault) => return Err(fault),
            Ok((chunk, next)) => {
                before += chunk.len() as u64;
                here = next;
            }
        }
    }
    Err(bad(bytes.len(), Why::End))
}

// The simple value or the float with its head at an offset.
#[tactic(auto, unfolding(crate::specs::Reading::simple_at))]
fn pass_simple(bytes: &[u8], info: u8, at: usize) -> Result<usize, CborFault>
    requires { at < length bytes.now }
    ensures read { Gives (λ n. n) result (end_of (reading.simple_at info at bytes.now)) }
    ensures within { IfOk result (λ n. (at < n) × (n ≤ length bytes.now)) }
{
    let (value, end) = argument_at(bytes, info, at)?;
    if info == 24 && value < 32 {
        return Err(bad(at, Why::Head));
    }
    Ok(end)
}

// A key, and a value, at which a break is this fault. So many arrays, maps and tags may be open in each.
#[cycle(pass)]
fn pass_entry(bytes: &[u8], depth: usize, broken: Why, at: usize) -> Result<usize, CborFault>
    ensures read { Gives (λ n. n) result
        (end_of (reading.entry_at (reading.item_at depth bytes.now) broken at)) }
    ensures within { IfOk result (λ n. (at < n) × (n ≤ length bytes.now)) }
{
    let next = match pass_item(bytes, depth, Why::Break, at) {
        Ok(next) => next,
        Err(fault) => return Err(fault),
    };
    pass_item(bytes, depth, broken, next)
}

// So many items from an offset on.
#[cycle(pass)]
fn pass_items(bytes: &[u8], depth: usize, count: u64, at: usize) -> Result<usize, CborFault>
    requires { at ≤ length bytes.now }
    ensures read { Gives (λ n. n) result
        (end_of (times count (reading.item_at depth bytes.now why.Break) at)) }
    ensures within { IfOk result (λ n. (at ≤ n) × (n ≤ length bytes.now)) }
{
    let mut here = at;
    'items: for _ in 0..count {
        match pass_item(bytes, depth, Why::Break, here) {
            Err(fault) => return Err(fault),
            Ok(end) => here = end,
        }
    }
    Ok(here)
}

// So many pairs from an offset on.
#[cycle(pass)]
fn pass_pairs(bytes: &[u8], depth: usize, count: u64, at: usize) -> Result<usize, CborFault>
    requires { at ≤ length bytes.now }
    ensures read { Gives (λ n. n) result
        (end_of (times count (reading.entry_at (reading.item_at depth bytes.now) why.Break) at)) }
    ensures within { IfOk result (λ n. (at ≤ n) × (n ≤ length bytes.now)) }
{
    let mut here = at;
    'pairs: for _ in 0..count {
        match pass_entry(bytes, depth, Why::Break, here) {
            Err(fault) => return Err(fault),
            Ok(end) => here = end,
        }
    }
    Ok(here)
}

// The items up to a break, from an offset on.
#[cycle(pass)]
fn pass_items_to_break(bytes: &[u8], depth: usize, at: usize) -> Result<usize, CborFault>
    ensures read { Gives (λ n. n) result
        (end_of (until_break (λ place. place) bytes.now (length bytes.now)
        (reading.item_at depth bytes.now why.Break) at)) }
    ensures within { IfOk result (λ n. (at < n) × (n ≤ length bytes.now)) }
{
    let mut here = at;
    'items: for _ in 0..bytes.len() {
        let first = match byte_at(bytes, here) {
            Ok(first) => first,
            Err(fault) => return Err(fault),
        };
        if first == BREAK {
            return Ok(here + 1);
        }
        match pass_item(bytes, depth, Why::Break, here) {
            Err(fault) => return Err(fault),
            Ok(end) => here = end,
        }
    }
    Err(bad(bytes.len(), Why::End))
}

// The pairs up to a break, from an offset on.
#[cycle(pass)]
fn pass_pairs_to_break(bytes: &[u8], depth: usize, at: usize) -> Result<usize, CborFault>
    ensures read { Gives (λ n. n) result
        (end_of (until_break (λ place. place) bytes.now (length bytes.now)
        (reading.entry_at (reading.item_at depth bytes.now) why.Odd) at)) }
    ensures within { IfOk result (λ n. (at < n) × (n ≤ length bytes.now)) }
{
    let mut here = at;
    'pairs: for _ in 0..bytes.len() {
        let first = match byte_at(bytes, here) {
            Ok(first) => first,
            Err(fault) => return Err(fault),
        };
        if first == BREAK {
            return Ok(here + 1);
        }
        match pass_entry(bytes, depth, Why::Odd, here) {
            Err(fault) => return Err(fault),
            Ok(end) => here = end,
        }
    }
    Err(bad(bytes.len(), Why::End))
}

// The array of definite length with its head at an offset.
#[cycle(pass)]
#[tactic(auto, unfolding(crate::specs::Reading::array_at))]
fn pass_array(bytes: &[u8], depth: usize, info: u8, at: usize) -> Result<usize, CborFault>
    requires { at < length bytes.now }
    ensures read { Gives (λ n. n) result
        (end_of (reading.array_at depth (reading.item_at (depth - 1) bytes.now) info at bytes.now)) }
    ensures within { IfOk result (λ n. (at < n) × (n ≤ length bytes.now)) }
{
    if depth == 0 {
        return Err(bad(at, Why::Depth));
    }
    let (count, next) = argument_at(bytes, info, at)?;
    pass_items(bytes, depth - 1, count, next)
}

// The map of definite length with its head at an offset.
#[cycle(pass)]
#[tactic(auto, unfolding(crate::specs::Reading::map_at))]
fn pass_map(bytes: &[u8], depth: usize, info: u8, at: usize) -> Result<usize, CborFault>
    requires { at < length bytes.now }
    ensures read { Gives (λ n. n) result
        (end_of (reading.map_at depth (reading.item_at (depth - 1) bytes.now) info at bytes.now)) }
    ensures within { IfOk result (λ n. (at < n) × (n ≤ length bytes.now)) }
{
    if depth == 0 {
        return Err(bad(at, Why::Depth));
    }
    let (count, next) = argument_at(bytes, info, at)?;
    pass_pairs(bytes, depth - 1, count, next)
}

// The tagged value with its head at an offset.
#[cycle(pass)]
#[tactic(auto, unfolding(crate::specs::Reading::tagged_at))]
fn pass_tagged(bytes: &[u8], depth: usize, info: u8, at: usize) -> Result<usize, CborFault>
    requires { at < length bytes.now }
    ensures read { Gives (λ n. n) result
        (end_of (reading.tagged_at depth (reading.item_at (depth - 1) bytes.now) info at bytes.now)) }
    ensures within { IfOk result (λ n. (at < n) × (n ≤ length bytes.now)) }
{
    if depth == 0 {
        return Err(bad(at, Why::Depth));
    }
    let (_tag, next) = argument_at(bytes, info, at)?;
    pass_item(bytes, depth - 1, Why::Break, next)
}

// The array up to a break with its head at an offset.
#[cycle(pass)]
#[tactic(auto, unfolding(crate::specs::Reading::open_array_at))]
fn pass_open_array(bytes: &[u8], depth: usize, at: usize) -> Result<usize, CborFault>
    requires { at < length bytes.now }
    ensures read { Gives (λ n. n) result
        (end_of (reading.open_array_at depth (reading.item_at (depth - 1) bytes.now) at bytes.now)) }
    ensures within { IfOk result (λ n. (at < n) × (n ≤ length bytes.now)) }
{
    if depth == 0 {
        return Err(bad(at, Why::Depth));
    }
    pass_items_to_break(bytes, depth - 1, at + 1)
}

// The map up to a break with its head at an offset.
#[cycle(pass)]
#[tactic(auto, unfolding(crate::specs::Reading::open_map_at))]
fn pass_open_map(bytes: &[u8], depth: usize, at: usize) -> Result<usize, CborFault>
    requires { at < length bytes.now }
    ensures read { Gives (λ n. n) result
        (end_of (reading.open_map_at depth (reading.item_at (depth - 1) bytes.now) at bytes.now)) }
    ensures within { IfOk result (λ n. (at < n) × (n ≤ length bytes.now)) }
{
    if depth == 0 {
        return Err(bad(at, Why::Depth));
    }
    pass_pairs_to_break(bytes, depth - 1, at + 1)
}

// The item of a head with an argument.
#[cycle(pass)]
#[tactic(auto, unfolding(crate::specs::Reading::definite_at))]
fn pass_definite(
    bytes: &[u8],
    depth: usize,
    kind: MajorType,
    info: u8,
    at: usize,
) -> Result<usize, CborFault>
    requires { at < length bytes.now }
    ensures read { Gives (λ n. n) result
        (end_of (reading.definite_at depth (reading.item_at (depth - 1) bytes.now) kind info at bytes.now)) }
    ensures within { IfOk result (λ n. (at < n) × (n ≤ length bytes.now)) }
{
    match kind {
        MajorType::Unsigned => {
            let (_n, next) = argument_at(bytes, info, at)?;
            Ok(next)
        }
        MajorType::Negative => {
            let (_n, next) = argument_at(bytes, info, at)?;
            Ok(next)
        }
        MajorType::Bytes => pass_string(bytes, false, info, at),
        MajorType::Text => pass_string(bytes, true, info, at),
        MajorType::Array => pass_array(bytes, depth, info, at),
        MajorType::Map => pass_map(bytes, depth, info, at),
        MajorType::Tag => pass_tagged(bytes, depth, info, at),
        MajorType::Simple => pass_simple(bytes, info, at),
    }
}

// The item of a head of one byte that tells no length, or a break, which is no item.
#[cycle(pass)]
#[tactic(auto, unfolding(crate::specs::Reading::indefinite_at))]
fn pass_indefinite(
    bytes: &[u8],
    depth: usize,
    broken: Why,
    kind: MajorType,
    at: usize,
) -> Result<usize, CborFault>
    requires { at < length bytes.now }
    ensures read { Gives (λ n. n) result
        (end_of (reading.indefinite_at depth (reading.item_at (depth - 1) bytes.now) broken kind at bytes.now)) }
    ensures within { IfOk result (λ n. (at < n) × (n ≤ length bytes.now)) }
{
    match kind {
        MajorType::Unsigned => Err(bad(at, Why::Head)),
        MajorType::Negative => Err(bad(at, Why::Head)),
        MajorType::Bytes => pass_chunks(bytes, false, at),
        MajorType::Text => pass_chunks(bytes, true, at),
        MajorType::Array => pass_open_array(bytes, depth, at),
        MajorType::Map => pass_open_map(bytes, depth, at),
        MajorType::Tag => Err(bad(at, Why::Head)),
        MajorType::Simple => Err(bad(at, broken)),
    }
}

// The item at an offset, in which so many arrays, maps and tags may be open. A break there is this fault.
#[cycle(pass)]
#[tactic(auto, unfolding(crate::specs::Reading::item_by), using(crate::proofs::Depths::item_at_is))]
pub(crate) fn pass_item(
    bytes: &[u8],
    depth: usize,
    broken: Why,
    at: usize,
) -> Result<usize, CborFault>
    ensures read { Gives (λ n. n) result (end_of (reading.item_at depth bytes.now broken at)) }
    ensures within { IfOk result (λ n. (at < n) × (n ≤ length bytes.now)) }
{
    let first = byte_at(bytes, at)?;
    let kind = major_type(first);
    let info = first % 32;
    if info < NO_ARGUMENT {
        pass_definite(bytes, depth, kind, info, at)
    } else if info < INDEFINITE {
        Err(bad(at, Why::Head))
    } else {
        pass_indefinite(bytes, depth, broken, kind, at)
    }
}
