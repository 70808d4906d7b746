//! The standard input, as it is or in lines.

ghost use Rattle.std.specs.Prelude.{◌≡◌, length, IfOk};

use crate::Ended;
use cd_name::Blob;
use cd_ports::{Failed, Source};
use std::alloc::{AllocError, Global};

const BUFFER: usize = 65_536;

// A buffer of some bytes.
fn buffer_of(alloc: Global, size: usize) -> Result<Vec<u8>, AllocError>
    ensures { IfOk result (λ v. length v.items ≡ size) }
{
    vec![in alloc; 0u8; size]
}

// Appends what one read gives, and tells whether it was the last.
fn read_more<S: Source>(
    src: &mut S,
    buffer: &mut [u8],
    bytes: &mut Vec<u8>,
) -> Result<bool, Ended> {
    match src.read(buffer) {
        Err(Failed) => Err(Ended::ReadFault),
        Ok(count) => {
            bytes.extend_from_slice(&buffer[..count])?;
            Ok(count == 0)
        }
    }
}

/// All bytes of a source.
pub fn read_all<S: Source>(alloc: Global, src: &mut S) -> Result<Vec<u8>, Ended> {
    let mut bytes = Vec::new(alloc);
    let mut buffer = buffer_of(alloc, BUFFER)?;
    for _ in 0..u64::MAX {
        if read_more(src, buffer.as_mut_slice(), &mut bytes)? {
            return Ok(bytes);
        }
    }
    Ok(bytes)
}

fn digit_of(byte: u8) -> Option<u8> {
    match byte {
        b'0'..=b'9' => Some(byte - b'0'),
        b'a'..=b'f' => Some(byte - b'a' + 10),
        b'A'..=b'F' => Some(byte - b'A' + 10),
        _ => None,
    }
}

/// The bytes that a line says in hexadecimal. Spaces say nothing, nor does what follows a `#`. None for any other line.
pub fn bytes_of_hex(alloc: Global, line: &[u8]) -> Result<Option<Vec<u8>>, AllocError> {
    let mut bytes = Vec::new(alloc);
    let mut high: Option<u8> = None;
    for byte in line {
        match *byte {
            b'#' => break,
            b' ' | b'\r' => {}
            byte => {
                let Some(digit) = digit_of(byte) else {
                    return Ok(None);
                };
                match high {
                    Some(first) => {
                        bytes.push(first << 4 | digit)?;
                        high = None;
                    }
                    None => high = Some(digit),
                }
            }
        }
    }
    match high {
        Some(_) => Ok(None),
        None => Ok(Some(bytes)),
    }
}

/// The words of a line, with spaces between them.
pub fn words_of_line(alloc: Global, line: &[u8]) -> Result<Vec<Blob>, AllocError> {
    let mut words = Vec::new(alloc);
    for word in line.split(|byte| *byte == b' ') {
        if !word.is_empty() {
            words.push(Blob::from_vec(Vec::from_slice(alloc, word)?))?;
        }
    }
    Ok(words)
}
