//! Reads strings.

ghost use Rattle.std.specs.Prelude.{◌≡◌, ◌+◌, ◌<◌, ◌≤◌, length, IfOk, IfErr};
ghost use Rattle.cd_cbor.specs.Heads as heads;
ghost use Rattle.cd_cbor.specs.Spells.{most_string, is_content};
ghost use Rattle.cd_cbor.specs.Reading as reading;
ghost use Rattle.cd_cbor.specs.Readings.{Gives, LiesWithin};

use crate::fault::{CborFault, Why};
use crate::head_reading::{NO_ARGUMENT, argument_at, bad, byte_at};
use crate::major_type::MajorType;
use cd_name::Blob;
use std::alloc::Global;

/// The longest string that is read, in bytes; the chunks of one are counted together.
pub const MOST_STRING: u64 = 134_217_728;

// The break that ends what has no definite length.
pub(crate) const BREAK: u8 = 0xff;

// These bytes may be the content of a text, or of a string of bytes.
fn is_content(is_text: bool, content: &[u8]) -> bool
    ensures { result ≡ is_content is_text content.now }
{
    if is_text {
        simdutf8::is_utf8(content)
    } else {
        true
    }
}

/// The content of a string, once it is whole: so many bytes from an offset on, of a head at an offset before. `Err` is an
/// end, at the number of bytes, where they are too few, or at the head that the content is no UTF-8.
#[tactic(auto, unfolding(crate::specs::Reading::content_at))]
pub fn content_at(
    bytes: &[u8],
    is_text: bool,
    head: usize,
    size: usize,
    at: usize,
) -> Result<(&[u8], usize), CborFault>
    requires before { head ≤ at }
    requires within { at ≤ length bytes.now }
    requires short { size ≤ most_string }
    ensures read { Gives (λ x. (x.0.now, x.1)) result
        (reading.content_at is_text head size at bytes.now) }
    ensures within { IfOk result (λ x. (at ≤ x.1) × (x.1 ≤ length bytes.now)) }
    ensures short { IfOk result (λ x. length x.0.now ≡ size) }
    ensures fault { IfErr result (λ e. LiesWithin bytes.now e) }
{
    if bytes.len() < at + size {
        return Err(bad(bytes.len(), Why::End));
    }
    let content = &bytes[at..at + size];
    if is_content(is_text, content) {
        Ok((content, at + size))
    } else {
        Err(bad(head, Why::Utf8))
    }
}

// The string of the head at an offset, in which so many bytes were there before, in chunks.
#[tactic(auto, unfolding(crate::specs::Reading::string_at))]
pub(crate) fn string_at(
    bytes: &[u8],
    is_text: bool,
    before: u64,
    info: u8,
    at: usize,
) -> Result<(&[u8], usize), CborFault>
    requires within { at < length bytes.now }
    requires short { before ≤ most_string }
    ensures read { Gives (λ x. (x.0.now, x.1)) result
        (reading.string_at is_text before info at bytes.now) }
    ensures within { IfOk result (λ x. (at < x.1) × (x.1 ≤ length bytes.now)) }
    ensures short { IfOk result (λ x. before + length x.0.now ≤ most_string) }
    ensures fault { IfErr result (λ e. LiesWithin bytes.now e) }
{
    let (size, next) = argument_at(bytes, info, at)?;
    if size > MOST_STRING - before {
        return Err(bad(at, Why::Length));
    }
    content_at(bytes, is_text, at, size as usize, next)
}

// This is the first byte of a string of definite length.
fn is_chunk(is_text: bool, first: u8) -> bool
    ensures { result ≡ reading.is_chunk is_text first }
{
    let kind = if is_text {
        MajorType::Text
    } else {
        MajorType::Bytes
    };
    first / 32 == kind.number() && first % 32 < NO_ARGUMENT
}

// A chunk of a string in which so many bytes of chunks were there before, and the offset after it.
#[tactic(auto, unfolding(crate::specs::Reading::chunk_at))]
pub(crate) fn chunk_at(
    bytes: &[u8],
    is_text: bool,
    before: u64,
    at: usize,
) -> Result<(&[u8], usize), CborFault>
    requires { before ≤ most_string }
    ensures read { Gives (λ x. (x.0.now, (before + length x.0.now, x.1))) result
        (reading.chunk_at is_text bytes.now (before, at)) }
    ensures within { IfOk result (λ x. (at < x.1) × (x.1 ≤ length bytes.now)) }
    ensures short { IfOk result (λ x. before + length x.0.now ≤ most_string) }
    ensures fault { IfErr result (λ e. LiesWithin bytes.now e) }
{
    let first = byte_at(bytes, at)?;
    if !is_chunk(is_text, first) {
        return Err(bad(at, Why::Head));
    }
    string_at(bytes, is_text, before, first % 32, at)
}

/// A copy of the content of the string in chunks of which the first begins at an offset, and the offset behind its break.
/// `Err` is the first fault, at the chunk that shows it, or for want of memory.
pub fn chunks_at(
    alloc: Global,
    bytes: &[u8],
    is_text: bool,
    at: usize,
) -> Result<(Blob, usize), CborFault>
    ensures read { Gives (λ x. (x.0, x.1)) result (reading.chunks_at is_text at bytes.now) }
    ensures within { IfOk result (λ x. (at < x.1) × (x.1 ≤ length bytes.now)) }
{
    let mut content = Vec::new(alloc);
    let mut here = at;
    'chunks: for _ in 0..bytes.len() {
        let first = match byte_at(bytes, here) {
            Ok(first) => first,
            Err(fault) => return Err(fault),
        };
        if first == BREAK {
            return Ok((Blob::from_vec(content), here + 1));
        }
        let before = content.len() as u64;
        match chunk_at(bytes, is_text, before, here) {
            Err(fault) => return Err(fault),
            Ok((chunk, next)) => match content.extend_from_slice(chunk) {
                Ok(()) => here = next,
                Err(_refused) => return Err(CborFault::NoMemory),
            },
        }
    }
    Err(bad(bytes.len(), Why::End))
}
