//! Reads strings of bytes.

ghost use Rattle.std.specs.Prelude.{◌≡◌, ℕ, ◌+◌, ◌≤◌, false, length, List, pos, Ok};
ghost use Rattle.cd_cbor.specs.Readings.{piece};
ghost use Rattle.cd_cbor.specs.Reading as cbor;
ghost use Rattle.cd_file.specs.Kinds as kinds;
ghost use Rattle.cd_file.specs.ItemReading.{ReadsItem, Reads};
ghost use Rattle.cd_file.specs.StringReading.{StringOf, is_longer};

use super::arrays::Kind;
use super::fault::ItemFault;
use super::heads::{Begun, head_at};
use super::kinds::shape;
use cd_cbor::{CborFault, MajorType, chunks_at};
use cd_name::Blob;
use std::alloc::Global;

// A copy of so many bytes from an offset on, and the offset behind them; of none where they are too few.
fn copied(alloc: Global, bytes: &[u8], size: u64, at: usize) -> Result<(Blob, usize), ItemFault>
    ensures { at + size ≤ length bytes.now
        → Reads (λ content. content) result (Ok (piece at size bytes.now)) (at + size) }
{
    if size > bytes.len() as u64 || at > bytes.len() - size as usize {
        return Ok((Blob::from_vec(Vec::new(alloc)), at));
    }
    let end = at + size as usize;
    match Blob::from_slice(alloc, &bytes[at..end]) {
        Ok(content) => Ok((content, end)),
        Err(_refused) => Err(ItemFault::NoMemory),
    }
}

// A copy of the string in chunks of which the first is at an offset, and the offset behind its break.
fn joined(alloc: Global, bytes: &[u8], at: usize, key: u64) -> Result<(Blob, usize), ItemFault>
    ensures { (content : List ℕ) (end : ℕ) → cbor.chunks_at false at bytes.now ≡ Ok (content, end)
        → Reads (λ content. content) result (Ok content) end }
{
    match chunks_at(alloc, bytes, false, at) {
        Ok(read) => Ok(read),
        Err(CborFault::NoMemory) => Err(ItemFault::NoMemory),
        Err(_none) => Err(shape(key)),
    }
}

// The string of bytes of a head, and the offset behind it.
fn string_of(alloc: Global, bytes: &[u8], head: Begun, key: u64) -> Result<(Blob, usize), ItemFault>
    ensures { StringOf head.kind head.argument head.next bytes.now (pos key) result }
{
    match (head.kind, head.argument) {
        (MajorType::Bytes, Some(size)) => copied(alloc, bytes, size, head.next),
        (MajorType::Bytes, None) => joined(alloc, bytes, head.next, key),
        _ => Err(shape(key)),
    }
}

/// A string of bytes.
pub fn byte_string(
    alloc: Global,
    bytes: &[u8],
    at: usize,
    key: u64,
) -> Result<(Blob, usize), ItemFault>
    ensures { (depth : ℕ) → ReadsItem (λ content. content) result depth bytes.now at (kinds.byte_string (pos key)) }
{
    let head = head_at(bytes, at);
    string_of(alloc, bytes, head, key)
}

// A head tells that what it begins is longer than this.
fn is_longer(head: Begun, most: u64) -> bool
    ensures { result ≡ is_longer head.argument most }
{
    match head.argument {
        Some(size) => size > most,
        None => false,
    }
}

/// A string of at most so many bytes. One that tells its length is not copied before it is refused.
pub fn short_byte_string(
    alloc: Global,
    bytes: &[u8],
    at: usize,
    key: u64,
    most: u64,
) -> Result<(Blob, usize), ItemFault>
    ensures { (depth : ℕ)
        → ReadsItem (λ content. content) result depth bytes.now at (kinds.short_byte_string most (pos key)) }
{
    let head = head_at(bytes, at);
    if is_longer(head, most) {
        return Err(shape(key));
    }
    let (content, next) = match string_of(alloc, bytes, head, key) {
        Ok(read) => read,
        Err(fault) => return Err(fault),
    };
    if content.as_slice().len() as u64 > most {
        return Err(shape(key));
    }
    Ok((content, next))
}

/// Strings of bytes.
pub struct ByteStrings;

impl Kind for ByteStrings {
    type Value = Blob;

    ghost kind = { kinds.byte_string };

    fn read(
        alloc: Global,
        bytes: &[u8],
        _depth: usize,
        at: usize,
        key: u64,
    ) -> Result<(Blob, usize), ItemFault> {
        byte_string(alloc, bytes, at, key)
    }
}

// The longest address, in bytes (RFC 8200 3).
const LONGEST_ADDRESS: u64 = 16;

/// Addresses, each cut to its prefix.
pub struct Addresses;

impl Kind for Addresses {
    type Value = Blob;

    ghost kind = { kinds.short_byte_string 16 };

    fn read(
        alloc: Global,
        bytes: &[u8],
        _depth: usize,
        at: usize,
        key: u64,
    ) -> Result<(Blob, usize), ItemFault> {
        short_byte_string(alloc, bytes, at, key, LONGEST_ADDRESS)
    }
}
