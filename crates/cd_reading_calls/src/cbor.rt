ghost use Rattle.std.specs.Prelude.{◌+◌, ◌≤◌, ◌^◌, length};

use cd_bytes::Out;
use cd_cbor::{
    CborFault, Event, Item, MajorType, Reader, Step, Why, decode_one, encode, push_array_head,
    push_bytes, push_head, push_map_head, push_negative, push_text, push_unsigned,
};
use cd_name::{Blob, List};
use std::alloc::{AllocError, Global};

const MAJOR_TYPES: [MajorType; 8] = [
    MajorType::Unsigned,
    MajorType::Negative,
    MajorType::Bytes,
    MajorType::Text,
    MajorType::Array,
    MajorType::Map,
    MajorType::Tag,
    MajorType::Simple,
];

// Whether the head of each major type and this argument has so many bytes, and its major type in the first three bits.
fn heads_have_size(alloc: Global, argument: u64, size: usize) -> Result<bool, AllocError> {
    let mut index = 0u8;
    for major in MAJOR_TYPES {
        let mut out = Out::new(alloc);
        push_head(&mut out, major, argument)?;
        let first = out.bytes().first().copied().unwrap_or(0);
        if out.bytes().len() != size || first / 32 != index {
            return Ok(false);
        }
        index = index.saturating_add(1);
    }
    Ok(true)
}

// A head has 1, 2, 3, 5 or 9 bytes.
#[test]
fn heads_are_the_shortest(rt: HostRuntime) -> Result<(), AllocError> {
    assert!(rt; heads_have_size(rt.alloc(), 23, 1)?);
    assert!(rt; heads_have_size(rt.alloc(), 24, 2)?);
    assert!(rt; heads_have_size(rt.alloc(), 255, 2)?);
    assert!(rt; heads_have_size(rt.alloc(), 256, 3)?);
    assert!(rt; heads_have_size(rt.alloc(), 65_535, 3)?);
    assert!(rt; heads_have_size(rt.alloc(), 65_536, 5)?);
    assert!(rt; heads_have_size(rt.alloc(), 4_294_967_295, 5)?);
    assert!(rt; heads_have_size(rt.alloc(), 4_294_967_296, 9)?);
    Ok(())
}

fn blob(alloc: Global, bytes: &[u8]) -> Result<Blob, AllocError> {
    Ok(Blob::from_vec(Vec::from_slice(alloc, bytes)?))
}

// Adds an item. The answer is whether there was memory.
fn add(items: &mut List<Item>, item: Item) -> Result<(), AllocError> {
    match items.push(item) {
        Ok(()) => Ok(()),
        Err(_) => Err(AllocError),
    }
}

// Four items: h'6162', "C-DNS", -8 and null.
fn add_items(alloc: Global, items: &mut List<Item>) -> Result<(), AllocError> {
    add(items, Item::Bytes(blob(alloc, b"ab")?))?;
    add(items, Item::Text(blob(alloc, b"C-DNS")?))?;
    add(items, Item::Nint(7))?;
    add(items, Item::Other(blob(alloc, b"\xf6")?))
}

// A map of one pair.
fn map_of(alloc: Global, key: Item, value: Item) -> Result<Item, AllocError> {
    let mut pairs = List::from_vec(Vec::new(alloc));
    match pairs.push((key, value)) {
        Ok(()) => Ok(Item::Map(pairs)),
        Err(_) => Err(AllocError),
    }
}

// {1: [h'6162', "C-DNS", -8, null]}
#[test]
fn an_item_is_spelled(rt: HostRuntime) -> Result<(), AllocError> {
    let mut items = List::from_vec(Vec::new(rt.alloc()));
    add_items(rt.alloc(), &mut items)?;
    let map = map_of(rt.alloc(), Item::Uint(1), Item::Array(items))?;
    let mut out = Out::new(rt.alloc());
    encode(&map, &mut out)?;
    assert!(rt; out.bytes() == b"\xa1\x01\x84\x42ab\x65C-DNS\x27\xf6".as_slice());
    Ok(())
}

// The item at the front of some bytes as it is written, and its length.
fn written_again(alloc: Global, bytes: &[u8]) -> Result<(Out, usize), CborFault> {
    let (item, length) = decode_one(alloc, bytes)?;
    let mut out = Out::new(alloc);
    match encode(&item, &mut out) {
        Ok(()) => Ok((out, length)),
        Err(_refused) => Err(CborFault::NoMemory),
    }
}

// {1: [h'6162', "C-DNS", -8, null]}, with a long head, chunks and breaks, and a byte after it.
#[test]
fn an_item_is_read(rt: HostRuntime) {
    let spelled = b"\xbf\x18\x01\x9f\x5f\x41a\x41b\xff\x65C-DNS\x27\xf6\xff\xff\x00".as_slice();
    match written_again(rt.alloc(), spelled) {
        Ok((out, length)) => {
            assert!(rt; out.bytes() == b"\xa1\x01\x84\x42ab\x65C-DNS\x27\xf6".as_slice());
            assert!(rt; length == 20);
        }
        Err(_) => assert!(rt; false),
    }
    let odd = CborFault::Bad {
        at: 2,
        why: Why::Odd,
    };
    match decode_one(rt.alloc(), b"\xbf\x00\xff".as_slice()) {
        Ok(_) => assert!(rt; false),
        Err(fault) => assert!(rt; fault == odd),
    }
}

// Writes an event: its shortest head, with the content of its string.
fn push_event(out: &mut Out, event: &Event) -> Result<(), AllocError> {
    match event {
        Event::Uint(n) => push_unsigned(out, *n),
        Event::Nint(n) => push_negative(out, *n),
        Event::Bytes(content) => push_bytes(out, content.as_slice()),
        Event::Text(content) => push_text(out, content.as_slice()),
        Event::Array(Some(count)) => push_array_head(out, *count),
        Event::Array(None) => out.push_slice(&[0x9f]),
        Event::Map(Some(count)) => push_map_head(out, *count),
        Event::Map(None) => out.push_slice(&[0xbf]),
        Event::Close => out.push_slice(&[0xff]),
        Event::Tag(tag) => push_head(out, MajorType::Tag, *tag),
        Event::Simple(value) => push_head(out, MajorType::Simple, u64::from(*value)),
        Event::Float => out.push_slice(b"float"),
    }
}

// The same where there is an event.
fn push_step(out: &mut Out, step: &Step) -> Result<(), CborFault> {
    match step {
        Step::More => Ok(()),
        Step::Event(event) => match push_event(out, event) {
            Ok(()) => Ok(()),
            Err(_refused) => Err(CborFault::NoMemory),
        },
    }
}

// Feeds bytes one by one, and writes the event that each of them ends.
fn push_events(reader: &mut Reader, bytes: &[u8], out: &mut Out) -> Result<(), CborFault>
    requires { reader.old.fed_count + length bytes.now ≤ 2 ^ 48 }
{
    'bytes: for byte in bytes {
        match reader.feed(&[*byte]) {
            Ok(()) => {}
            Err(_refused) => return Err(CborFault::NoMemory),
        }
        let step = reader.next()?;
        push_step(out, &step)?;
    }
    Ok(())
}

// 256, and {1(h'6162'): 0.0, -8: ["c", null]} with chunks and a break.
#[test]
fn events_come_byte_by_byte(rt: HostRuntime) {
    let spelled =
        b"\x19\x01\x00\xbf\xc1\x5f\x41a\x41b\xff\xf9\x00\x00\x27\x82\x61c\xf6\xff".as_slice();
    let mut reader = Reader::new(rt.alloc());
    let mut out = Out::new(rt.alloc());
    let fed = push_events(&mut reader, spelled, &mut out);
    assert!(rt; fed.is_ok());
    assert!(rt; out.bytes() == b"\x19\x01\x00\xbf\xc1\x42abfloat\x27\x82\x61c\xf6\xff".as_slice());
    assert!(rt; reader.position() == 20);
    let misplaced = CborFault::Bad {
        at: 2,
        why: Why::Break,
    };
    let mut other = Reader::new(rt.alloc());
    let fed = push_events(&mut other, b"\x82\x01\xff".as_slice(), &mut out);
    assert!(rt; fed == Err(misplaced));
}
