//! Lines of text: a field a line, its name and then its value.

use std::alloc::AllocError;
use std::fmt::{Display, Write};

const DIGITS: [char; 16] = [
    '0', '1', '2', '3', '4', '5', '6', '7', '8', '9', 'a', 'b', 'c', 'd', 'e', 'f',
];

/// A line of a name and a value.
pub fn put_field<V: Display>(text: &mut String, name: &str, value: &V) -> Result<(), AllocError> {
    writeln!(text, "{name} {value}")
}

/// The same where there is a value, and nothing where there is none.
pub fn put_optional<V: Display>(
    text: &mut String,
    name: &str,
    value: &Option<V>,
) -> Result<(), AllocError> {
    match value {
        Some(value) => put_field(text, name, value),
        None => Ok(()),
    }
}

/// Bytes in hexadecimal.
pub fn put_digits(text: &mut String, bytes: &[u8]) -> Result<(), AllocError> {
    for byte in bytes {
        text.push(DIGITS[usize::from(*byte / 16)])?;
        text.push(DIGITS[usize::from(*byte % 16)])?;
    }
    Ok(())
}

/// Bytes in hexadecimal, and a dash for none.
pub fn put_hex(text: &mut String, bytes: &[u8]) -> Result<(), AllocError> {
    if bytes.is_empty() {
        return text.push('-');
    }
    put_digits(text, bytes)
}

/// A line of a name and bytes in hexadecimal.
pub fn put_bytes(text: &mut String, name: &str, bytes: &[u8]) -> Result<(), AllocError> {
    write!(text, "{name} ")?;
    put_hex(text, bytes)?;
    text.push('\n')
}

/// A time of nanoseconds since 1970, as seconds with nine digits after the point.
pub fn put_time(text: &mut String, time: u64) -> Result<(), AllocError> {
    let seconds = time / 1_000_000_000;
    let nanoseconds = time % 1_000_000_000;
    write!(text, "{seconds}.{nanoseconds:09}")
}

/// A truth, as a word.
pub fn yes_or_no(truth: bool) -> &'static str {
    if truth { "yes" } else { "no" }
}
