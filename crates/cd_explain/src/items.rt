//! Items of CBOR: one that is read whole, and the events of items whose bytes come in chunks.

ghost use Rattle.std.specs.Prelude.{◌≡◌, ◌<◌};

use crate::text::put_digits;
use cd_cbor::{CborFault, Event, Item, Reader, Step, Why, decode_one};
use std::alloc::{AllocError, Global};
use std::fmt::Write;

// The most bytes that a reader is fed.
const MOST_FED: u64 = 281_474_976_710_656;

fn fault_of_items(why: Why) -> &'static str {
    match why {
        Why::Head => "head",
        Why::Break => "break",
        Why::Depth => "depth",
        Why::Utf8 => "utf8",
        Why::Length => "length",
        Why::Odd => "odd",
        Why::End => "end",
    }
}

fn put_fault(text: &mut String, why: Why, at: u64) -> Result<(), AllocError> {
    writeln!(text, "fault {} at {at}", fault_of_items(why))
}

// The number -1 - n.
fn put_negative(text: &mut String, n: u64) -> Result<(), AllocError> {
    match n.checked_add(1) {
        Some(size) => write!(text, "-{size}"),
        None => text.push_str("-18446744073709551616"),
    }
}

// Bytes in hexadecimal, in quotes after a word.
fn put_quoted(text: &mut String, word: &str, bytes: &[u8]) -> Result<(), AllocError> {
    write!(text, "{word}'")?;
    put_digits(text, bytes)?;
    text.push('\'')
}

// A byte of a text: a quote or backslash after a backslash, another printable byte of ASCII as itself, and each other
// byte as three digits after a backslash.
fn put_text_byte(text: &mut String, byte: u8) -> Result<(), AllocError> {
    match byte {
        b'"' => text.push_str("\\\""),
        b'\\' => text.push_str("\\\\"),
        0x20..=0x7e => text.push(char::from(byte)),
        _ => write!(text, "\\{byte:03}"),
    }
}

// A text, in quotes.
fn put_text(text: &mut String, bytes: &[u8]) -> Result<(), AllocError> {
    text.push('"')?;
    for byte in bytes {
        put_text_byte(text, *byte)?;
    }
    text.push('"')
}

// What stands before an item in a row: nothing before the first.
fn put_comma(text: &mut String, first: bool) -> Result<(), AllocError> {
    if first { Ok(()) } else { text.push_str(", ") }
}

// An item in diagnostic notation (RFC 8949 8), on one line. A tagged value, a simple value or a float is shown by its
// bytes.
fn put_item(text: &mut String, item: &Item) -> Result<(), AllocError> {
    match item {
        Item::Uint(n) => write!(text, "{n}"),
        Item::Nint(n) => put_negative(text, *n),
        Item::Bytes(content) => put_quoted(text, "h", content.as_slice()),
        Item::Text(content) => put_text(text, content.as_slice()),
        Item::Array(items) => {
            let items = items.as_slice();
            text.push('[')?;
            let mut first = true;
            'items: for inner in items {
                put_comma(text, first)?;
                put_item(text, inner)?;
                first = false;
            }
            text.push(']')
        }
        Item::Map(pairs) => {
            let pairs = pairs.as_slice();
            text.push('{')?;
            let mut first = true;
            'pairs: for pair in pairs {
                put_comma(text, first)?;
                put_item(text, &pair.0)?;
                text.push_str(": ")?;
                put_item(text, &pair.1)?;
                first = false;
            }
            text.push('}')
        }
        Item::Other(content) => put_quoted(text, "other", content.as_slice()),
    }
}

// The item at the front of some bytes and its length, or the first fault.
fn explain_item(alloc: Global, text: &mut String, bytes: &[u8]) -> Result<(), AllocError> {
    match decode_one(alloc, bytes) {
        Ok((item, length)) => {
            text.push_str("item ")?;
            put_item(text, &item)?;
            writeln!(text, "\nlength {length}")
        }
        Err(CborFault::Bad { at, why }) => put_fault(text, why, at),
        Err(CborFault::NoMemory) => Err(AllocError),
    }
}

// How many items or pairs come, where the head tells it.
fn put_count(text: &mut String, word: &str, count: Option<u64>) -> Result<(), AllocError> {
    match count {
        Some(count) => writeln!(text, "{word} {count}"),
        None => writeln!(text, "{word} up to a break"),
    }
}

// A line with an event.
fn put_event(text: &mut String, event: &Event) -> Result<(), AllocError> {
    match event {
        Event::Uint(n) => writeln!(text, "number {n}"),
        Event::Nint(n) => {
            text.push_str("number ")?;
            put_negative(text, *n)?;
            text.push('\n')
        }
        Event::Bytes(content) => {
            put_quoted(text, "bytes h", content.as_slice())?;
            text.push('\n')
        }
        Event::Text(content) => {
            text.push_str("text ")?;
            put_text(text, content.as_slice())?;
            text.push('\n')
        }
        Event::Array(count) => put_count(text, "array", *count),
        Event::Map(count) => put_count(text, "map", *count),
        Event::Close => text.push_str("close\n"),
        Event::Tag(tag) => writeln!(text, "tag {tag}"),
        Event::Simple(value) => writeln!(text, "simple {value}"),
        Event::Float => text.push_str("float\n"),
    }
}

// A reader, and how many bytes it was fed.
#[derive(Drop)]
struct Feeder {
    reader: Reader,
    fed: u64,
    ghost counted: { reader.fed_count ≡ fed },
}

impl Feeder {
    // A reader that was fed nothing.
    fn new(alloc: Global) -> Feeder {
        Feeder {
            reader: Reader::new(alloc),
            fed: 0,
        }
    }

    // The next event.
    fn next(&mut self) -> Result<Step, CborFault> {
        self.reader.next()
    }

    // Feeds a chunk. More bytes than memory holds are want of memory.
    fn feed(&mut self, chunk: &[u8]) -> Result<(), AllocError> {
        let Some(fed) = self.fed.checked_add(chunk.len() as u64) else {
            return Err(AllocError);
        };
        if fed > MOST_FED {
            return Err(AllocError);
        }
        self.reader.feed(chunk)?;
        self.fed = fed;
        Ok(())
    }
}

// A line for each event that is there, and one for what comes after them: that bytes are wanted, or a fault. False at a
// fault.
fn put_events(text: &mut String, feeder: &mut Feeder) -> Result<bool, AllocError> {
    for _ in 0..u64::MAX {
        match feeder.next() {
            Ok(Step::Event(event)) => put_event(text, &event)?,
            Ok(Step::More) => {
                text.push_str("more\n")?;
                return Ok(true);
            }
            Err(CborFault::Bad { at, why }) => {
                put_fault(text, why, at)?;
                return Ok(false);
            }
            Err(CborFault::NoMemory) => return Err(AllocError),
        }
    }
    Ok(true)
}

// The events after each chunk of so many bytes, up to a fault, and how many bytes they have.
fn explain_chunks(
    alloc: Global,
    text: &mut String,
    bytes: &[u8],
    size: usize,
) -> Result<(), AllocError>
    requires { 0 < size }
{
    let mut feeder = Feeder::new(alloc);
    for chunk in bytes.chunks(size) {
        feeder.feed(chunk)?;
        if !put_events(text, &mut feeder)? {
            break;
        }
    }
    writeln!(text, "position {}", feeder.reader.position())
}

/// What some bytes are in CBOR: the item at their front; or, where they are fed in chunks of so many bytes and not at
/// once with 0, the events of all of them.
pub fn explain_cbor(
    alloc: Global,
    text: &mut String,
    bytes: &[u8],
    chunk: usize,
) -> Result<(), AllocError> {
    if chunk == 0 {
        explain_item(alloc, text, bytes)
    } else {
        explain_chunks(alloc, text, bytes, chunk)
    }
}
