//! Files of C-DNS that are read (RFC 8618 7.3): their block parameters, their blocks, and how they end.

ghost use Rattle.std.specs.Prelude.{◌<◌};

use crate::kept::put_block;
use crate::settings::put_params;
use cd_block::{Block, ResolveFault, resolve};
use cd_file::{BadFile, FileFault, FileReader, FileWhy, Next};
use std::alloc::{AllocError, Global};
use std::fmt::Write;

// The most bytes that a reader is fed.
const MOST_FED: u64 = 281_474_976_710_656;

// What stands next in a file.
#[derive(Clone, Copy, PartialEq, Eq)]
enum Found {
    Block,
    Nothing,
    Refused,
}

// A reader, how many blocks it gave, and whether the block parameters are file.
#[derive(Drop)]
struct ShownFile {
    reader: FileReader,
    blocks: u64,
    has_params: bool,
}

impl ShownFile {
    // A reader that was fed nothing.
    fn new(alloc: Global) -> ShownFile {
        ShownFile {
            reader: FileReader::new(alloc),
            blocks: 0,
            has_params: false,
        }
    }

    // Feeds a piece. More bytes than a reader takes are want of memory.
    fn feed(&mut self, piece: &[u8]) -> Result<(), AllocError> {
        match self.reader.fed_count().checked_add(piece.len() as u64) {
            Some(fed) if fed <= MOST_FED => self.reader.feed(piece),
            _ => Err(AllocError),
        }
    }

    // The next block, which is counted.
    fn next(&mut self) -> Result<Next, FileFault> {
        let found = self.reader.next_block();
        if matches!(&found, Ok(Next::Block(_))) {
            self.blocks = self.blocks.saturating_add(1);
        }
        found
    }
}

fn put_why(text: &mut String, why: FileWhy) -> Result<(), AllocError> {
    match why {
        FileWhy::Cbor(at) => writeln!(text, "cbor {at}"),
        FileWhy::NotCdns => text.push_str("not-cdns\n"),
        FileWhy::Version => text.push_str("version\n"),
        FileWhy::NotMap => text.push_str("not-map\n"),
        FileWhy::Shape(key) => writeln!(text, "shape {key}"),
        FileWhy::Repeated(key) => writeln!(text, "repeated {key}"),
        FileWhy::Missing(key) => writeln!(text, "missing {key}"),
        FileWhy::Index(table) => writeln!(text, "index {table}"),
        FileWhy::Name => text.push_str("name\n"),
        FileWhy::ParamIndex => text.push_str("param-index\n"),
        FileWhy::TimeRange => text.push_str("time-range\n"),
        FileWhy::TooLarge => text.push_str("too-large\n"),
        FileWhy::Trailing => text.push_str("trailing\n"),
    }
}

// A line with a refusal and the number of its block.
fn put_bad(text: &mut String, bad: BadFile) -> Result<(), AllocError> {
    write!(text, "refused {} ", bad.block)?;
    put_why(text, bad.why)
}

fn put_refused(text: &mut String, block: u64, why: FileWhy) -> Result<Found, AllocError> {
    put_bad(text, BadFile { block, why })?;
    Ok(Found::Refused)
}

// What the block with this number resolves to, or its first index that leads nowhere.
fn put_resolved(
    alloc: Global,
    text: &mut String,
    number: u64,
    block: &Block,
) -> Result<Found, AllocError> {
    match resolve(alloc, block) {
        Ok(kept) => {
            put_block(text, &kept)?;
            Ok(Found::Block)
        }
        Err(ResolveFault::Index(table)) => put_refused(text, number, FileWhy::Index(table)),
        Err(ResolveFault::Name) => put_refused(text, number, FileWhy::Name),
        Err(ResolveFault::NoMemory) => Err(AllocError),
    }
}

// What a call for the block with this number gave.
fn put_found(
    alloc: Global,
    text: &mut String,
    number: u64,
    found: Result<Next, FileFault>,
) -> Result<Found, AllocError> {
    match found {
        Ok(Next::Block(block)) => put_resolved(alloc, text, number, &block),
        Ok(Next::More | Next::End) => Ok(Found::Nothing),
        Err(FileFault::Bad(bad)) => put_refused(text, bad.block, bad.why),
        Err(FileFault::NoMemory) => Err(AllocError),
    }
}

// Each entry of block parameters.
fn put_entries(text: &mut String, reader: &FileReader) -> Result<(), AllocError> {
    for number in 0..u64::MAX {
        let Some(params) = reader.params(number) else {
            return Ok(());
        };
        writeln!(text, "block-parameters {number}")?;
        put_params(text, params)?;
    }
    Ok(())
}

// The block parameters, once, as soon as a call for a block came past the head.
fn put_front(text: &mut String, file: &mut ShownFile) -> Result<(), AllocError> {
    if file.has_params || !file.reader.has_head() {
        return Ok(());
    }
    file.has_params = true;
    put_entries(text, &file.reader)
}

// The next block, and the block parameters before it if they are not shown yet.
fn put_next(alloc: Global, text: &mut String, file: &mut ShownFile) -> Result<Found, AllocError> {
    let found = file.next();
    put_front(text, file)?;
    put_found(alloc, text, file.blocks, found)
}

// The blocks that are whole. False at a refusal.
fn put_blocks(alloc: Global, text: &mut String, file: &mut ShownFile) -> Result<bool, AllocError> {
    for _ in 0..u64::MAX {
        match put_next(alloc, text, file)? {
            Found::Block => {}
            Found::Nothing => return Ok(true),
            Found::Refused => return Ok(false),
        }
    }
    Ok(true)
}

// A line with how a file of no more bytes ends.
fn put_ending(text: &mut String, reader: &mut FileReader) -> Result<(), AllocError> {
    match reader.end() {
        Ok(()) => text.push_str("whole\n"),
        Err(FileFault::Bad(bad)) => put_bad(text, bad),
        Err(FileFault::NoMemory) => Err(AllocError),
    }
}

// A file that is fed in pieces of so many bytes.
fn explain_pieces(
    alloc: Global,
    text: &mut String,
    bytes: &[u8],
    size: usize,
) -> Result<(), AllocError>
    requires { 0 < size }
{
    let mut file = ShownFile::new(alloc);
    for piece in bytes.chunks(size) {
        file.feed(piece)?;
        if !put_blocks(alloc, text, &mut file)? {
            return Ok(());
        }
    }
    put_ending(text, &mut file.reader)
}

/// The block parameters of a file (RFC 8618 7.3), its blocks with each value where it belongs, and `whole` or its first
/// refusal with the number of the block. The file is fed in pieces of so many bytes, or at once with 0.
pub fn explain_file(
    alloc: Global,
    text: &mut String,
    bytes: &[u8],
    size: usize,
) -> Result<(), AllocError> {
    if size == 0 {
        explain_pieces(alloc, text, bytes, usize::MAX)
    } else {
        explain_pieces(alloc, text, bytes, size)
    }
}
