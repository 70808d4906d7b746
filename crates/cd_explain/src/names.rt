//! Names in presentation form, and the small layers: a name, a prefix, a checksum, numbers.

use crate::text::{put_bytes, put_hex, yes_or_no};
use cd_bytes::{Cursor, Order, checksum};
use cd_hints::prefix;
use cd_name::{NameFault, NameWhy, fold, is_name, name_size, read_name, run_is_cut};
use cd_packet::Addr;
use std::alloc::{AllocError, Global};
use std::fmt::Write;

// A byte of a label (RFC 1035 5.1): a letter, digit or mark as itself, a dot or backslash after a backslash, another
// byte as three digits after a backslash.
fn put_label_byte(text: &mut String, byte: u8) -> Result<(), AllocError> {
    match byte {
        b'.' => text.push_str("\\."),
        b'\\' => text.push_str("\\\\"),
        0x21..=0x7e => text.push(char::from(byte)),
        _ => write!(text, "\\{byte:03}"),
    }
}

/// A name without pointers in presentation form, from which its bytes can be had again (RFC 1035 5.1).
pub fn put_name(text: &mut String, name: &[u8]) -> Result<(), AllocError> {
    if name.len() <= 1 {
        return text.push('.');
    }
    let mut left = 0u8;
    for (index, byte) in name.iter().enumerate() {
        if left > 0 {
            left -= 1;
            put_label_byte(text, *byte)?;
        } else {
            if index > 0 {
                text.push('.')?;
            }
            left = *byte;
        }
    }
    Ok(())
}

/// A line of a field's name and a name.
pub fn put_name_field(text: &mut String, field: &str, name: &[u8]) -> Result<(), AllocError> {
    write!(text, "{field} ")?;
    put_name(text, name)?;
    text.push('\n')
}

fn rule_of_names(why: NameWhy) -> &'static str {
    match why {
        NameWhy::Short => "short",
        NameWhy::Label => "label",
        NameWhy::Pointer => "pointer",
        NameWhy::LongName => "long-name",
    }
}

// The name at an offset, or the rule that it breaks.
fn put_name_read(
    alloc: Global,
    text: &mut String,
    payload: &[u8],
    at: usize,
) -> Result<(), AllocError> {
    match read_name(alloc, payload, at) {
        Ok((name, next)) => {
            put_name_field(text, "name", name.as_slice())?;
            put_bytes(text, "bytes", name.as_slice())?;
            writeln!(text, "next-offset {next}")?;
            let folded = fold(alloc, &name)?;
            put_name_field(text, "lower-case", folded.as_slice())
        }
        Err(NameFault::Bad(why)) => writeln!(text, "malformed {}: {why}", rule_of_names(why)),
        Err(NameFault::NoMemory) => Err(AllocError),
    }
}

/// What the bytes at an offset of a payload are as a name: with pointers, and without.
pub fn explain_name(
    alloc: Global,
    text: &mut String,
    payload: &[u8],
    at: usize,
) -> Result<(), AllocError> {
    writeln!(text, "offset {at}")?;
    put_name_read(alloc, text, payload, at)?;
    writeln!(text, "run-is-cut {}", yes_or_no(run_is_cut(payload, at)))?;
    let rest = payload.get(at..).unwrap_or(&[]);
    if let Some(size) = name_size(rest) {
        writeln!(text, "plain-size {size}")?;
    }
    writeln!(text, "plain {}", yes_or_no(is_name(rest)))
}

// The address of four or sixteen octets.
fn address_of(octets: &[u8]) -> Option<Addr> {
    match octets {
        [a, b, c, d] => Some(Addr {
            v6: false,
            octets: [*a, *b, *c, *d, 0, 0, 0, 0, 0, 0, 0, 0, 0, 0, 0, 0],
        }),
        _ => match <[u8; 16]>::try_from(octets) {
            Ok(octets) => Some(Addr { v6: true, octets }),
            Err(_) => None,
        },
    }
}

/// What is stored of an address of which so many bits are kept. False where the bytes are no address of so many bits.
pub fn explain_prefix(text: &mut String, octets: &[u8], bits: usize) -> Result<bool, AllocError> {
    let (Some(addr), Ok(kept)) = (address_of(octets), u8::try_from(bits)) else {
        return Ok(false);
    };
    if kept > if addr.v6 { 128 } else { 32 } {
        return Ok(false);
    }
    let (octets, size) = prefix(&addr, Some(kept));
    write!(text, "bits {kept} size {size} octets ")?;
    put_hex(text, &octets)?;
    text.push('\n')?;
    Ok(true)
}

/// The Internet checksum of bytes in two pieces. False where the first is not there or has an odd length.
pub fn explain_checksum(text: &mut String, bytes: &[u8], first: usize) -> Result<bool, AllocError> {
    if first > bytes.len() || first % 2 != 0 {
        return Ok(false);
    }
    let (front, back) = bytes.split_at(first);
    writeln!(text, "checksum {:04x}", checksum(front, back))?;
    Ok(true)
}

// The numbers that some bytes begin with, in one order.
fn put_numbers(text: &mut String, order: Order, bytes: &[u8]) -> Result<(), AllocError> {
    if let Ok(number) = Cursor::new(bytes).number16(order) {
        write!(text, " {number:04x}")?;
    }
    if let Ok(number) = Cursor::new(bytes).number32(order) {
        write!(text, " {number:08x}")?;
    }
    if let Ok(number) = Cursor::new(bytes).number64(order) {
        write!(text, " {number:016x}")?;
    }
    text.push('\n')
}

/// The numbers at an offset in hexadecimal, of two, four and eight bytes as far as they are there, in both byte orders.
pub fn explain_numbers(text: &mut String, bytes: &[u8], at: usize) -> Result<(), AllocError> {
    let rest = bytes.get(at..).unwrap_or(&[]);
    write!(text, "offset {at}\nbig-endian")?;
    put_numbers(text, Order::Big, rest)?;
    text.push_str("little-endian")?;
    put_numbers(text, Order::Little, rest)
}
