//! Blocks as they stand in a file (RFC 8618 7.3).

use crate::kept::put_block;
use crate::text::put_bytes;
use cd_block::{Block, KeptBlock, Params, ResolveFault, resolve};
use cd_bytes::Out;
use cd_file::{block_bytes, end_bytes, head_bytes};
use cd_table::build;
use std::alloc::{AllocError, Global};
use std::fmt::Write;

/// A line with what stands before the blocks of a file.
pub fn put_head(alloc: Global, text: &mut String, params: &Params) -> Result<(), AllocError> {
    let mut out = Out::new(alloc);
    head_bytes(params, &mut out)?;
    put_bytes(text, "head", out.bytes())
}

/// A line with what stands after the blocks of a file.
pub fn put_end(alloc: Global, text: &mut String) -> Result<(), AllocError> {
    let mut out = Out::new(alloc);
    end_bytes(&mut out)?;
    put_bytes(text, "end", out.bytes())
}

// What a block resolves to, or its first index that leads nowhere.
fn put_resolved(alloc: Global, text: &mut String, block: &Block) -> Result<(), AllocError> {
    match resolve(alloc, block) {
        Ok(kept) => put_block(text, &kept),
        Err(ResolveFault::Index(table)) => writeln!(text, "index {table}"),
        Err(ResolveFault::Name) => text.push_str("name\n"),
        Err(ResolveFault::NoMemory) => Err(AllocError),
    }
}

/// A line with a block as it is spelled with its tables, and what the tables resolve to.
pub fn put_spelled(alloc: Global, text: &mut String, kept: &KeptBlock) -> Result<(), AllocError> {
    let block = build(alloc, kept)?;
    let mut out = Out::new(alloc);
    block_bytes(&block, &mut out)?;
    put_bytes(text, "spelled", out.bytes())?;
    put_resolved(alloc, text, &block)
}
