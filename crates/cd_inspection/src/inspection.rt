//! The machine that reads a C-DNS file in chunks and inspects each block.

ghost use Rattle.std.specs.Prelude.{◌≡◌, ℕ, ◌+◌, ◌<◌, ◌≤◌, ◌^◌, false, true, [], ◌++◌, List, length, None, IfOk, OnOk, option_map};
ghost use Rattle.std.specs.Option.{IfSome};
ghost use Rattle.cd_block.specs.declared.block.Block.{Block};
ghost use Rattle.cd_inspection.specs.Inspecting.{Inspected, with_block};
ghost use Rattle.cd_inspection.specs.Standing.{InspectionStands, Course, HasTaken, TakesBlock, refusal_for, told_refusal};

use crate::inspector::Inspector;
use cd_block::{Block, KeptBlock, Params, ResolveFault, resolve};
use cd_bytes::Out;
use cd_drive::{Finished, Machine};
use cd_file::{BadFile, FileFault, FileReader, FileWhy, Next};
use cd_name::Blob;
use std::alloc::{AllocError, Global};
use std::marker::Model;

/// Inspects the blocks of a C-DNS file that comes in chunks. Where a call finds no memory it is spent.
#[derive(Drop)]
pub struct Inspection<I: Inspector> {
    alloc: Global,
    reader: FileReader,
    // What the bytes fed are refused for. From there on nothing is read.
    refused: Option<BadFile>,
    // Whether the bytes fed are a whole file.
    is_whole: bool,
    block_count: u64,
    counts: I::Counts,
    output: Out,
    spent: bool,
}

impl<I: Inspector> Model for Inspection<I> {
    ghost use Rattle.cd_inspection.specs.Standing.{InspectionSeen};
    ghost use Rattle.std.specs.Prelude.{◌≤◌, ◌^◌};

    ghost Value = { InspectionSeen I.Counts };

    ghost view = { λ m. record {
      reader = m.reader;
      refused = m.refused;
      is_whole = m.is_whole;
      block_count = m.block_count;
      counts = m.counts;
      output = m.output;
      spent = m.spent;
    } };

    ghost invariant = { λ m. record {
      small : m.reader.fed_count ≤ 2 ^ 48;
      few : m.block_count ≤ m.reader.at;
      within : m.reader.at ≤ m.reader.fed_count;
    } };
}

// Why a file is refused whose block does not resolve, if not for want of memory.
fn refusal_for(fault: ResolveFault) -> Option<FileWhy>
    ensures { result ≡ refusal_for fault }
{
    match fault {
        ResolveFault::Index(table) => Some(FileWhy::Index(table)),
        ResolveFault::Name => Some(FileWhy::Name),
        ResolveFault::NoMemory => None,
    }
}

// Writes a block of a file with these block parameters, and gives the counts with it.
fn inspect_with<I: Inspector>(
    alloc: Global,
    params: Option<&Params>,
    kept: &KeptBlock,
    counts: I::Counts,
    out: &mut Out,
) -> Result<I::Counts, AllocError>
    requires least { IfSome params (λ p. 0 < p.now.ticks) }
    requires most { IfSome params (λ p. p.now.ticks ≤ 1000000000) }
    ensures { IfOk result (λ c. ◌≡◌ {A = Inspected I.Counts} (record { bytes = out.new; counts = c })
        (with_block I.rendering kept.now (record { bytes = out.old; counts = counts }) (option_map (λ p. p.now) params.entry))) }
{
    match params {
        Some(params) => I::inspect(alloc, kept, params, counts, out),
        None => Ok(counts),
    }
}

impl<I: Inspector> Inspection<I> {
    /// An inspection that was fed nothing.
    pub fn new(alloc: Global) -> Result<Inspection<I>, AllocError>
        ensures stands { IfOk result (λ m. InspectionStands I.rendering m [] []) }
        ensures count { IfOk result (λ m. m.reader.fed_count ≡ 0) }
    {
        let mut output = Out::new(alloc);
        I::begin(&mut output)?;
        let reader = FileReader::new(alloc);
        let counts = I::no_counts();
        Ok(Inspection {
            alloc,
            reader,
            refused: None,
            is_whole: false,
            block_count: 0,
            counts,
            output,
            spent: false,
        })
    }

    // Takes the next block, which the reader gave last, or answers what the file is refused for where it does not resolve.
    fn take_block(&mut self, block: &Block) -> Result<Option<BadFile>, AllocError>
        requires { self.old.block_count < self.old.reader.at }
        ensures takes { IfOk result (TakesBlock I.rendering self.old self.new block.now) }
    {
        let kept = match resolve(self.alloc, block) {
            Ok(kept) => kept,
            Err(fault) => return match refusal_for(fault) {
                Some(why) => Ok(Some(BadFile {
                    block: self.block_count + 1,
                    why,
                })),
                None => Err(AllocError),
            },
        };
        let params = self.reader.params(kept.params);
        let counts = inspect_with::<I>(self.alloc, params, &kept, self.counts, &mut self.output)?;
        self.counts = counts;
        self.block_count += 1;
        Ok(None)
    }

    // Takes the blocks that are there whole, up to the first refusal, and answers it.
    fn take_blocks(&mut self) -> Result<Option<BadFile>, AllocError>
        ensures history { IfOk result (λ refused. (fed cleared : List ℕ) → Course I.rendering self.old fed cleared →
            HasTaken I.rendering self.new fed cleared refused) }
        ensures count { OnOk result (self.new.reader.fed_count ≡ self.old.reader.fed_count) }
        ensures fresh { OnOk result (self.new.spent ≡ self.old.spent) }
    {
        'given: loop {
            match self.reader.next_block() {
                Ok(Next::Block(block)) => match self.take_block(&block)? {
                    Some(bad) => return Ok(Some(bad)),
                    None => {}
                },
                Ok(Next::More) => {
                    self.is_whole = false;
                    return Ok(None);
                }
                Ok(Next::End) => {
                    self.is_whole = true;
                    return Ok(None);
                }
                Err(FileFault::Bad(bad)) => return Ok(Some(bad)),
                Err(FileFault::NoMemory) => return Err(AllocError),
            }
        }
    }

    // Takes a chunk of bytes that are not refused so far.
    fn take_chunk(&mut self, chunk: &[u8]) -> Result<(), AllocError>
        requires going { self.old.refused ≡ None }
        requires space { self.old.reader.fed_count + length chunk.now ≤ 2 ^ 48 }
        ensures history { OnOk result ((fed cleared : List ℕ) → InspectionStands I.rendering self.old fed cleared →
            InspectionStands I.rendering self.new (fed ++ chunk.now) cleared) }
        ensures count { OnOk result (self.new.reader.fed_count ≡ self.old.reader.fed_count + length chunk.now) }
    {
        self.reader.feed(chunk)?;
        let refused = self.take_blocks()?;
        self.refused = refused;
        Ok(())
    }
}

// What a file is refused for that goes on or is whole, and has no byte after so many: one that goes on ends too early.
fn told_refusal(is_whole: bool, has_head: bool, block_count: u64, fed_count: u64) -> Option<BadFile>
    requires { block_count ≤ 2 ^ 48 }
    ensures { result ≡ told_refusal is_whole has_head block_count fed_count }
{
    if is_whole {
        return None;
    }
    let block = if has_head { block_count + 1 } else { 0 };
    Some(BadFile {
        block,
        why: FileWhy::Cbor(fed_count),
    })
}

impl<I: Inspector> Machine for Inspection<I> {
    ghost use Rattle.std.specs.Prelude.{◌-◌, ◌^◌};
    ghost use Rattle.cd_file.proofs.FileGrows.{files_grow};
    ghost use Rattle.cd_inspection.specs.Inspecting.{inspecting};
    ghost use Rattle.cd_inspection.specs.Lawful.{inspecting_lawful};
    ghost use Rattle.cd_inspection.specs.Standing.{InspectionStands};

    type Refusal = BadFile;

    type Counts = I::Counts;

    ghost means = { λ m. inspecting I.rendering };

    ghost stands = { λ m. InspectionStands I.rendering m };

    ghost space = { λ m. 2 ^ 48 - m.reader.fed_count };

    fn feed(&mut self, chunk: &[u8]) -> Result<Option<BadFile>, AllocError> {
        if self.spent {
            return Err(AllocError);
        }
        if self.refused.is_some() {
            return Ok(self.refused);
        }
        match self.take_chunk(chunk) {
            Ok(()) => Ok(self.refused),
            Err(AllocError) => {
                self.spent = true;
                Err(AllocError)
            }
        }
    }

    fn at_end(&self) -> Option<BadFile> {
        told_refusal(
            self.is_whole,
            self.reader.has_head(),
            self.block_count,
            self.reader.fed_count(),
        )
    }

    fn output(&self) -> &[u8] {
        self.output.bytes()
    }

    fn clear_output(&mut self) {
        self.output = Out::new(self.alloc);
    }

    fn finish(self) -> Result<Finished<I::Counts>, AllocError> {
        if self.spent {
            return Err(AllocError);
        }
        Ok(Finished {
            output: Blob::from_slice(self.alloc, self.output.bytes())?,
            counts: self.counts,
        })
    }

    ghost lawful = { λ m. inspecting_lawful I.rendering files_grow };
}
