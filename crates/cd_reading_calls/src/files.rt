//! Files of another producer that come in pieces.

ghost use Rattle.std.specs.Prelude.{◌≡◌};

use cd_block::{Block, KeptBlock, resolve};
use cd_file::{BadFile, FileFault, FileReader, FileWhy, Next};
use std::alloc::{AllocError, Global};

// A head with one set of block parameters, and a block with one item and one address.
const FILE: [u8; 63] = [
    0x83, 0x65, 0x43, 0x2d, 0x44, 0x4e, 0x53, 0xa3, 0x01, 0x00, 0x00, 0x01, 0x03, 0x81, 0xa1, 0x00,
    0xa5, 0x00, 0x1a, 0x00, 0x0f, 0x42, 0x40, 0x01, 0x01, 0x02, 0xa4, 0x00, 0x00, 0x01, 0x00, 0x02,
    0x00, 0x03, 0x00, 0x03, 0x81, 0x00, 0x04, 0x81, 0x01, 0x81, 0xbf, 0x03, 0x81, 0xa1, 0x01, 0x18,
    0x00, 0x02, 0xa1, 0x00, 0x81, 0x44, 0xc0, 0x00, 0x02, 0x4d, 0x20, 0xf6, 0x00, 0xa0, 0xff,
];

// What the next call for a block gives, as a word.
fn next_word(reader: &mut FileReader) -> Result<&'static str, FileFault>
    ensures { reader.new.fed_count ≡ reader.old.fed_count }
{
    match reader.next_block() {
        Ok(Next::Block(_)) => Ok("block"),
        Ok(Next::More) => Ok("more"),
        Ok(Next::End) => Ok("end"),
        Err(fault) => Err(fault),
    }
}

// The ticks of a second in the parameters with this number, where there are such.
fn ticks(reader: &FileReader, number: u64) -> Option<u64> {
    match reader.params(number) {
        Some(params) => Some(params.ticks),
        None => None,
    }
}

#[test]
fn a_file_comes_in_pieces(rt: HostRuntime) -> Result<(), AllocError> {
    let mut reader = FileReader::new(rt.alloc());
    reader.feed(&FILE[..41])?;
    assert!(rt; next_word(&mut reader) == Ok("more"));
    assert!(rt; !reader.has_head());
    assert!(rt; ticks(&reader, 0).is_none());
    reader.feed(&FILE[41..50])?;
    assert!(rt; next_word(&mut reader) == Ok("more"));
    assert!(rt; reader.has_head());
    assert!(rt; ticks(&reader, 0) == Some(1_000_000));
    assert!(rt; ticks(&reader, 1).is_none());
    reader.feed(&FILE[50..])?;
    assert!(rt; next_word(&mut reader) == Ok("block"));
    assert!(rt; next_word(&mut reader) == Ok("end"));
    assert!(rt; next_word(&mut reader) == Ok("end"));
    assert!(rt; reader.end() == Ok(()));
    assert!(rt; ticks(&reader, 0) == Some(1_000_000));
    assert!(rt; reader.fed_count() == 63);
    Ok(())
}

#[test]
fn a_refusal_stays(rt: HostRuntime) -> Result<(), AllocError> {
    let trailing = FileFault::Bad(BadFile {
        block: 2,
        why: FileWhy::Trailing,
    });
    let mut reader = FileReader::new(rt.alloc());
    reader.feed(&FILE)?;
    reader.feed(&FILE[..1])?;
    assert!(rt; next_word(&mut reader) == Ok("block"));
    assert!(rt; next_word(&mut reader) == Err(trailing));
    reader.feed(&FILE)?;
    assert!(rt; next_word(&mut reader) == Err(trailing));
    assert!(rt; reader.end() == Err(trailing));
    assert!(rt; reader.end() == Err(trailing));
    Ok(())
}

// An end is refused until the last byte is fed, and gives no block.
#[test]
fn an_end_looks_ahead(rt: HostRuntime) -> Result<(), AllocError> {
    let early = FileFault::Bad(BadFile {
        block: 1,
        why: FileWhy::Cbor(62),
    });
    let mut reader = FileReader::new(rt.alloc());
    reader.feed(&FILE[..62])?;
    assert!(rt; reader.end() == Err(early));
    assert!(rt; reader.end() == Err(early));
    reader.feed(&FILE[62..])?;
    assert!(rt; reader.end() == Ok(()));
    assert!(rt; next_word(&mut reader) == Ok("block"));
    assert!(rt; reader.end() == Ok(()));
    Ok(())
}

// The first block of a file.
fn first_block(alloc: Global, bytes: &[u8]) -> Result<Option<Block>, AllocError> {
    let mut reader = FileReader::new(alloc);
    reader.feed(&bytes[..bytes.len().min(1_000)])?;
    match reader.next_block() {
        Ok(Next::Block(block)) => Ok(Some(block)),
        _ => Ok(None),
    }
}

// The same with each value in its place.
fn first_resolved(alloc: Global, bytes: &[u8]) -> Result<Option<KeptBlock>, AllocError> {
    match first_block(alloc, bytes)? {
        Some(block) => match resolve(alloc, &block) {
            Ok(kept) => Ok(Some(kept)),
            Err(_) => Ok(None),
        },
        None => Ok(None),
    }
}

// Whether a block has one item, which has this client and nothing else that is asked here.
fn has_client(kept: &KeptBlock, client: &[u8]) -> bool {
    match kept.items.as_slice() {
        [item] => match &item.client_address {
            Some(address) => address.as_slice() == client,
            None => false,
        },
        _ => false,
    }
}

#[test]
fn what_is_read_resolves(rt: HostRuntime) -> Result<(), AllocError> {
    match first_resolved(rt.alloc(), &FILE)? {
        Some(kept) => assert!(rt; has_client(&kept, &[192, 0, 2, 77])),
        None => assert!(rt; false),
    }
    Ok(())
}
