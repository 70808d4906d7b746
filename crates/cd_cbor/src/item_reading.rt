//! Reads items.

ghost use Rattle.std.specs.Prelude.{◌≡◌, ◌-◌, ◌+◌, ◌<◌, ◌≤◌, [], length, take, Ok, IfOk};
ghost use Rattle.cd_cbor.specs.Spells.{Cbor, string_item, other};
ghost use Rattle.cd_cbor.specs.Reading as reading;
ghost use Rattle.cd_cbor.specs.Readings.{Gives, piece};
ghost use Rattle.cd_cbor.specs.declared.fault.Why.TheVariants as why;

use crate::fault::{CborFault, Why};
use crate::head_reading::{INDEFINITE, NO_ARGUMENT, argument_at, bad, byte_at, major_type};
use crate::item::Item;
use crate::major_type::MajorType;
use crate::passing::pass_item;
use crate::string_reading::{BREAK, chunks_at, string_at};
use cd_name::{Blob, List};
use std::alloc::Global;

/// How many arrays, maps and tags may be open at a time.
pub const MOST_DEPTH: usize = 16;

// A copy of some bytes.
pub(crate) fn copied(alloc: Global, bytes: &[u8]) -> Result<Blob, CborFault>
    ensures { Gives (λ blob. blob) result (Ok bytes.now) }
{
    match Blob::from_slice(alloc, bytes) {
        Ok(blob) => Ok(blob),
        Err(_refused) => Err(CborFault::NoMemory),
    }
}

// Memory is taken for at most so many values of an array or a map before they are read.
const MOST_FORESEEN: u64 = 16;

// An empty list with room for the values of an array or a map of so many, if they are few.
fn room_for<T>(alloc: Global, count: u64) -> Result<Vec<T>, CborFault>
    ensures { Gives (λ values. values.items) result (Ok []) }
{
    match Vec::with_capacity(alloc, count.min(MOST_FORESEEN) as usize) {
        Ok(values) => Ok(values),
        Err(_refused) => Err(CborFault::NoMemory),
    }
}

// The text or the string of bytes with this content.
#[tactic(auto, unfolding(crate::specs::Items::bytes, crate::specs::Items::text))]
fn string_item(is_text: bool, content: Blob) -> Item
    ensures { result ≡ string_item is_text content }
{
    if is_text {
        Item::Text(content)
    } else {
        Item::Bytes(content)
    }
}

// The string of definite length with its head at an offset.
#[inline(never)]
#[tactic(auto, unfolding(crate::specs::Reading::definite_string_at))]
fn definite_string_at(
    alloc: Global,
    bytes: &[u8],
    is_text: bool,
    info: u8,
    at: usize,
) -> Result<(Item, usize), CborFault>
    requires { at < length bytes.now }
    ensures read { Gives (λ x. (x.0, x.1)) result
        (reading.definite_string_at is_text info at bytes.now) }
    ensures within { IfOk result (λ x. (at < x.1) × (x.1 ≤ length bytes.now)) }
{
    let (content, next) = string_at(bytes, is_text, 0, info, at)?;
    let content = copied(alloc, content)?;
    Ok((string_item(is_text, content), next))
}

// The string in chunks with its head at an offset.
#[inline(never)]
#[tactic(auto, unfolding(crate::specs::Reading::chunked_string_at))]
fn chunked_string_at(
    alloc: Global,
    bytes: &[u8],
    is_text: bool,
    at: usize,
) -> Result<(Item, usize), CborFault>
    requires { at < length bytes.now }
    ensures read { Gives (λ x. (x.0, x.1)) result
        (reading.chunked_string_at is_text at bytes.now) }
    ensures within { IfOk result (λ x. (at < x.1) × (x.1 ≤ length bytes.now)) }
{
    let (content, next) = chunks_at(alloc, bytes, is_text, at + 1)?;
    Ok((string_item(is_text, content), next))
}

// The bytes between two offsets as a value of their own.
#[tactic(auto, unfolding(crate::specs::Spells::other))]
fn other(alloc: Global, bytes: &[u8], at: usize, end: usize) -> Result<Item, CborFault>
    requires ordered { at ≤ end }
    requires within { end ≤ length bytes.now }
    ensures { Gives (λ item. item) result (Ok (other (piece at (end - at) bytes.now))) }
{
    let content = copied(alloc, &bytes[at..end])?;
    Ok(Item::Other(content))
}

// The simple value or the float with its head at an offset.
#[inline(never)]
#[tactic(auto, unfolding(crate::specs::Reading::simple_at))]
fn simple_at(alloc: Global, bytes: &[u8], info: u8, at: usize) -> Result<(Item, usize), CborFault>
    requires { at < length bytes.now }
    ensures read { Gives (λ x. (x.0, x.1)) result (reading.simple_at info at bytes.now) }
    ensures within { IfOk result (λ x. (at < x.1) × (x.1 ≤ length bytes.now)) }
{
    let (value, end) = argument_at(bytes, info, at)?;
    if info == 24 && value < 32 {
        return Err(bad(at, Why::Head));
    }
    let item = other(alloc, bytes, at, end)?;
    Ok((item, end))
}

// A key, and a value, at which a break is this fault. So many arrays, maps and tags may be open in each.
#[cycle(item)]
#[tactic(auto, unfolding(crate::specs::Reading::entry_at))]
fn entry_at(
    alloc: Global,
    bytes: &[u8],
    depth: usize,
    broken: Why,
    at: usize,
) -> Result<((Item, Item), usize), CborFault>
    ensures read { Gives (λ x. (x.0, x.1)) result
        (reading.entry_at (reading.item_at depth bytes.now) broken at) }
    ensures within { IfOk result (λ x. (at < x.1) × (x.1 ≤ length bytes.now)) }
{
    let (key, next) = item_at(alloc, bytes, depth, Why::Break, at)?;
    let (value, end) = item_at(alloc, bytes, depth, broken, next)?;
    Ok(((key, value), end))
}

// The array of definite length with its head at an offset.
#[cycle(item)]
#[inline(never)]
#[tactic(auto, unfolding(crate::specs::Reading::array_at))]
fn array_at(
    alloc: Global,
    bytes: &[u8],
    depth: usize,
    info: u8,
    at: usize,
) -> Result<(Item, usize), CborFault>
    requires { at < length bytes.now }
    ensures read { Gives (λ x. (x.0, x.1)) result
        (reading.array_at depth (reading.item_at (depth - 1) bytes.now) info at bytes.now) }
    ensures within { IfOk result (λ x. (at < x.1) × (x.1 ≤ length bytes.now)) }
{
    if depth == 0 {
        return Err(bad(at, Why::Depth));
    }
    let (count, next) = argument_at(bytes, info, at)?;
    let mut items = room_for(alloc, count)?;
    let mut here = next;
    'items: for _ in 0..count {
        match item_at(alloc, bytes, depth - 1, Why::Break, here) {
            Err(fault) => return Err(fault),
            Ok((item, end)) => match items.push(item) {
                Ok(()) => here = end,
                Err(_refused) => return Err(CborFault::NoMemory),
            },
        }
    }
    Ok((Item::Array(List::from_vec(items)), here))
}

// The map of definite length with its head at an offset.
#[cycle(item)]
#[inline(never)]
#[tactic(auto, unfolding(crate::specs::Reading::map_at))]
fn map_at(
    alloc: Global,
    bytes: &[u8],
    depth: usize,
    info: u8,
    at: usize,
) -> Result<(Item, usize), CborFault>
    requires { at < length bytes.now }
    ensures read { Gives (λ x. (x.0, x.1)) result
        (reading.map_at depth (reading.item_at (depth - 1) bytes.now) info at bytes.now) }
    ensures within { IfOk result (λ x. (at < x.1) × (x.1 ≤ length bytes.now)) }
{
    if depth == 0 {
        return Err(bad(at, Why::Depth));
    }
    let (count, next) = argument_at(bytes, info, at)?;
    let mut pairs = room_for(alloc, count)?;
    let mut here = next;
    'pairs: for _ in 0..count {
        match entry_at(alloc, bytes, depth - 1, Why::Break, here) {
            Err(fault) => return Err(fault),
            Ok((pair, end)) => match pairs.push(pair) {
                Ok(()) => here = end,
                Err(_refused) => return Err(CborFault::NoMemory),
            },
        }
    }
    Ok((Item::Map(List::from_vec(pairs)), here))
}

// The tagged value with its head at an offset. What is in it is passed over, and copied once with it.
#[inline(never)]
#[tactic(auto, unfolding(crate::specs::Reading::tagged_at))]
fn tagged_at(
    alloc: Global,
    bytes: &[u8],
    depth: usize,
    info: u8,
    at: usize,
) -> Result<(Item, usize), CborFault>
    requires { at < length bytes.now }
    ensures read { Gives (λ x. (x.0, x.1)) result
        (reading.tagged_at depth (reading.item_at (depth - 1) bytes.now) info at bytes.now) }
    ensures within { IfOk result (λ x. (at < x.1) × (x.1 ≤ length bytes.now)) }
{
    if depth == 0 {
        return Err(bad(at, Why::Depth));
    }
    let (_tag, next) = argument_at(bytes, info, at)?;
    let end = match pass_item(bytes, depth - 1, Why::Break, next) {
        Ok(end) => end,
        Err(fault) => return Err(fault),
    };
    let item = other(alloc, bytes, at, end)?;
    Ok((item, end))
}

// The array up to a break with its head at an offset.
#[cycle(item)]
#[inline(never)]
#[tactic(auto, unfolding(crate::specs::Reading::open_array_at))]
fn open_array_at(
    alloc: Global,
    bytes: &[u8],
    depth: usize,
    at: usize,
) -> Result<(Item, usize), CborFault>
    requires { at < length bytes.now }
    ensures read { Gives (λ x. (x.0, x.1)) result
        (reading.open_array_at depth (reading.item_at (depth - 1) bytes.now) at bytes.now) }
    ensures within { IfOk result (λ x. (at < x.1) × (x.1 ≤ length bytes.now)) }
{
    if depth == 0 {
        return Err(bad(at, Why::Depth));
    }
    let mut items = Vec::new(alloc);
    let mut here = at + 1;
    'items: for _ in 0..bytes.len() {
        let first = match byte_at(bytes, here) {
            Ok(first) => first,
            Err(fault) => return Err(fault),
        };
        if first == BREAK {
            return Ok((Item::Array(List::from_vec(items)), here + 1));
        }
        match item_at(alloc, bytes, depth - 1, Why::Break, here) {
            Err(fault) => return Err(fault),
            Ok((item, end)) => match items.push(item) {
                Ok(()) => here = end,
                Err(_refused) => return Err(CborFault::NoMemory),
            },
        }
    }
    Err(bad(bytes.len(), Why::End))
}

// The map up to a break with its head at an offset.
#[cycle(item)]
#[inline(never)]
#[tactic(auto, unfolding(crate::specs::Reading::open_map_at))]
fn open_map_at(
    alloc: Global,
    bytes: &[u8],
    depth: usize,
    at: usize,
) -> Result<(Item, usize), CborFault>
    requires { at < length bytes.now }
    ensures read { Gives (λ x. (x.0, x.1)) result
        (reading.open_map_at depth (reading.item_at (depth - 1) bytes.now) at bytes.now) }
    ensures within { IfOk result (λ x. (at < x.1) × (x.1 ≤ length bytes.now)) }
{
    if depth == 0 {
        return Err(bad(at, Why::Depth));
    }
    let mut pairs = Vec::new(alloc);
    let mut here = at + 1;
    'pairs: for _ in 0..bytes.len() {
        let first = match byte_at(bytes, here) {
            Ok(first) => first,
            Err(fault) => return Err(fault),
        };
        if first == BREAK {
            return Ok((Item::Map(List::from_vec(pairs)), here + 1));
        }
        match entry_at(alloc, bytes, depth - 1, Why::Odd, here) {
            Err(fault) => return Err(fault),
            Ok((pair, end)) => match pairs.push(pair) {
                Ok(()) => here = end,
                Err(_refused) => return Err(CborFault::NoMemory),
            },
        }
    }
    Err(bad(bytes.len(), Why::End))
}

// The item of a head with an argument.
#[cycle(item)]
#[tactic(auto, unfolding(crate::specs::Reading::definite_at, crate::specs::Items::unsigned, crate::specs::Items::negative))]
fn definite_at(
    alloc: Global,
    bytes: &[u8],
    depth: usize,
    kind: MajorType,
    info: u8,
    at: usize,
) -> Result<(Item, usize), CborFault>
    requires { at < length bytes.now }
    ensures read { Gives (λ x. (x.0, x.1)) result
        (reading.definite_at depth (reading.item_at (depth - 1) bytes.now) kind info at bytes.now) }
    ensures within { IfOk result (λ x. (at < x.1) × (x.1 ≤ length bytes.now)) }
{
    match kind {
        MajorType::Unsigned => {
            let (n, next) = argument_at(bytes, info, at)?;
            Ok((Item::Uint(n), next))
        }
        MajorType::Negative => {
            let (n, next) = argument_at(bytes, info, at)?;
            Ok((Item::Nint(n), next))
        }
        MajorType::Bytes => definite_string_at(alloc, bytes, false, info, at),
        MajorType::Text => definite_string_at(alloc, bytes, true, info, at),
        MajorType::Array => array_at(alloc, bytes, depth, info, at),
        MajorType::Map => map_at(alloc, bytes, depth, info, at),
        MajorType::Tag => tagged_at(alloc, bytes, depth, info, at),
        MajorType::Simple => simple_at(alloc, bytes, info, at),
    }
}

// The item of a head of one byte that tells no length, or a break, which is no item.
#[cycle(item)]
#[tactic(auto, unfolding(crate::specs::Reading::indefinite_at))]
fn indefinite_at(
    alloc: Global,
    bytes: &[u8],
    depth: usize,
    broken: Why,
    kind: MajorType,
    at: usize,
) -> Result<(Item, usize), CborFault>
    requires { at < length bytes.now }
    ensures read { Gives (λ x. (x.0, x.1)) result
        (reading.indefinite_at depth (reading.item_at (depth - 1) bytes.now) broken kind at bytes.now) }
    ensures within { IfOk result (λ x. (at < x.1) × (x.1 ≤ length bytes.now)) }
{
    match kind {
        MajorType::Unsigned => Err(bad(at, Why::Head)),
        MajorType::Negative => Err(bad(at, Why::Head)),
        MajorType::Bytes => chunked_string_at(alloc, bytes, false, at),
        MajorType::Text => chunked_string_at(alloc, bytes, true, at),
        MajorType::Array => open_array_at(alloc, bytes, depth, at),
        MajorType::Map => open_map_at(alloc, bytes, depth, at),
        MajorType::Tag => Err(bad(at, Why::Head)),
        MajorType::Simple => Err(bad(at, broken)),
    }
}

// The item at an offset, in which so many arrays, maps and tags may be open. A break there is this fault.
#[cycle(item)]
#[tactic(auto, unfolding(crate::specs::Reading::item_by), using(crate::proofs::Depths::item_at_is))]
fn item_at(
    alloc: Global,
    bytes: &[u8],
    depth: usize,
    broken: Why,
    at: usize,
) -> Result<(Item, usize), CborFault>
    ensures read { Gives (λ x. (x.0, x.1)) result (reading.item_at depth bytes.now broken at) }
    ensures within { IfOk result (λ x. (at < x.1) × (x.1 ≤ length bytes.now)) }
{
    let first = byte_at(bytes, at)?;
    let kind = major_type(first);
    let info = first % 32;
    if info < NO_ARGUMENT {
        definite_at(alloc, bytes, depth, kind, info, at)
    } else if info < INDEFINITE {
        Err(bad(at, Why::Head))
    } else {
        indefinite_at(alloc, bytes, depth, broken, kind, at)
    }
}

/// Reads the item at the front of some bytes, in any well-formed spelling (RFC 8949 3), and says how many bytes it has:
/// what stands after it is not looked at. Heads may have every size, and strings, arrays and maps may have no length of
/// their own. A tagged value, a simple value or a float is kept as its bytes.
///
/// Reading goes from left to right, and the first fault is the answer, with the offset of the head that shows it:
/// - what the first byte of a head shows: `Head`, `Break` or `Odd` for a break, and `Depth` for the head that would
///   open an array, a map or a tag within 16 others;
/// - once its argument is there: `Head` for a simple value of two bytes below 32, and `Length` for a string of more
///   than 134,217,728 bytes; in chunks they are counted together, at the chunk that passes it;
/// - once it is whole: `Utf8` for a text, or for a chunk of one, that is not UTF-8 by itself.
///
/// Where the bytes end before the item and hold no such fault it is `End`, at the number of bytes. `NoMemory` is for
/// want of memory, and may come before a fault is found.
pub fn decode_one(alloc: Global, bytes: &[u8]) -> Result<(Item, usize), CborFault>
    ensures exact { Gives (λ x. (x.0, x.1)) result (reading.cbor bytes.now) }
    ensures spelled { IfOk result (λ x. (x.1 ≤ length bytes.now) × Cbor x.0 (take x.1 bytes.now)) }
{
    let decoded = item_at(alloc, bytes, MOST_DEPTH, Why::Break, 0)?;
    Ok(decoded)
}
