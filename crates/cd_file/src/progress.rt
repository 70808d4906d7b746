//! What is known of a file so far, and what the next part of it changes.

ghost use Rattle.std.specs.Prelude.{◌≡◌, ℕ, true, false, ◌+◌, ◌<◌, ◌^◌, List, [], Option, Some, None, length, IfOk, OnOk, OnErr, ◌++◌};
ghost use Rattle.cd_block.specs.declared.params.Params.{Params};
ghost use Rattle.cd_file.specs.ReadFile as files;
ghost use Rattle.cd_file.specs.Fronts.{ending_of};
ghost use Rattle.cd_file.specs.Passing.{IsPlaced, IsScanned, Passes, end_of_blocks};
ghost use Rattle.cd_file.specs.declared.stage.Stage.TheVariants as stage;
ghost use Rattle.std.specs.Option.{option_map};

use crate::block_parameters::BlockParameters;
use crate::fronts::{
    BLOCK_DEPTH, Ending, ItemScan, PREAMBLE_DEPTH, Unread, block_front, chunk_front, closing,
    count_front, is_title, outer_front, preamble_front, title_front, title_head,
};
use crate::refusal::FileWhy;
use crate::stage::Stage;
use cd_block::Block;
use std::alloc::{AllocError, Global};
use std::marker::Model;

// The break that ends what has no definite length (RFC 8949 3.2.1).
const BREAK: u8 = 0xff;

/// What a part of a file is.
#[derive(Debug, Drop)]
pub enum Found {
    /// A part of the head, or the head of the array of blocks.
    Nothing,
    /// The preamble, with its block parameters.
    Entries(BlockParameters),
    /// A block.
    Block(Block),
}

/// What is known of a file but for its block parameters.
#[derive(Drop)]
pub struct Progress {
    stage: Stage,
    // Whether the outer array is open.
    is_open: bool,
    // The chunks of the title so far.
    title: Vec<u8>,
    // What the scan of the preamble or of a block keeps, where one is due.
    scan: ItemScan,
}

impl Model for Progress {
    ghost use Rattle.std.specs.Prelude.{◌≤◌, length};
    ghost use Rattle.cd_file.specs.Passing.{Progressed};

    ghost Value = { Progressed };

    ghost view = { λ p. record { stage = p.stage; is_open = p.is_open; title = p.title.items; mark = p.scan } };

    ghost invariant = { λ p. length p.title.items ≤ 5 };
}

// The first byte is a break.
fn is_break(held: &[u8]) -> bool
    ensures { result ≡ files.begins_with_break held.now }
{
    !held.is_empty() && held[0] == BREAK
}

// How many blocks are still to come after one more, where their number is known.
fn one_less(left: Option<u64>) -> Option<u64>
    ensures { result ≡ files.one_less left }
{
    match left {
        Some(n) => Some(n.saturating_sub(1)),
        None => None,
    }
}

// How the file ends where no further block is due: none is to come, or the array of blocks ends here.
#[tactic(auto, unfolding(crate::specs::Passing::end_of_blocks))]
fn end_of_blocks(held: &[u8], left: Option<u64>, is_open: bool) -> Option<Ending>
    ensures { option_map ending_of result ≡ end_of_blocks is_open left held.now }
{
    match left {
        Some(n) => {
            if n == 0 {
                Some(closing(held, is_open))
            } else {
                None
            }
        }
        None => {
            if is_break(held) {
                Some(closing(&held[1..], is_open))
            } else {
                None
            }
        }
    }
}

// Puts a chunk after the others. For want of memory nothing changes.
fn push_chunk(title: &mut Vec<u8>, chunk: &[u8]) -> Result<(), AllocError>
    ensures ok { OnOk result (title.new.items ≡ title.old.items ++ chunk.now) }
    ensures err { OnErr result (title.new.items ≡ title.old.items) }
{
    title.extend_from_slice(chunk)
}

// A scan of what is due, with no byte so far.
fn scan_of(stage: Stage) -> ItemScan
    ensures { (held : List ℕ) → IsScanned stage result held }
{
    match stage {
        Stage::Block(_left) => ItemScan::new(BLOCK_DEPTH),
        Stage::Outer => ItemScan::new(PREAMBLE_DEPTH),
        Stage::Title => ItemScan::new(PREAMBLE_DEPTH),
        Stage::Chunk => ItemScan::new(PREAMBLE_DEPTH),
        Stage::Preamble => ItemScan::new(PREAMBLE_DEPTH),
        Stage::Array => ItemScan::new(PREAMBLE_DEPTH),
    }
}

impl Progress {
    /// What is known of a file before its first byte.
    pub fn new(alloc: Global) -> Progress
        ensures stage { result.stage ≡ stage.Outer }
        ensures is_open { result.is_open ≡ false }
        ensures title { result.title ≡ [] }
    {
        Progress {
            stage: Stage::Outer,
            is_open: false,
            title: Vec::new(alloc),
            scan: ItemScan::new(PREAMBLE_DEPTH),
        }
    }

    /// What is due.
    pub fn stage(&self) -> Stage
        ensures { result ≡ self.now.stage }
    {
        self.stage
    }

    /// The same again, with a scan that begins anew. An `Err` says that no memory was found.
    pub fn again(&self, alloc: Global) -> Result<Progress, AllocError>
        ensures stage { IfOk result (λ p. p.stage ≡ self.now.stage) }
        ensures is_open { IfOk result (λ p. p.is_open ≡ self.now.is_open) }
        ensures title { IfOk result (λ p. p.title ≡ self.now.title) }
        ensures scanned { IfOk result (λ p. (held : List ℕ) → IsScanned p.stage p.mark held) }
    {
        Ok(Progress {
            stage: self.stage,
            is_open: self.is_open,
            title: Vec::from_slice(alloc, &self.title)?,
            scan: scan_of(self.stage),
        })
    }

    // The outer array.
    fn pass_outer(&mut self, held: &[u8]) -> Result<(Found, usize), Unread>
        requires stage { self.old.stage ≡ stage.Outer }
        ensures { (entries : List Params) → Passes self.old self.new entries 0 held.now result }
    {
        match outer_front(held) {
            Ok((is_open, size)) => {
                self.is_open = is_open;
                self.stage = Stage::Title;
                Ok((Found::Nothing, size))
            }
            Err(ending) => Err(Unread::Ended(ending)),
        }
    }

    // The title, or the head of a title in chunks.
    fn pass_title(&mut self, held: &[u8], at: u64) -> Result<(Found, usize), Unread>
        requires stage { self.old.stage ≡ stage.Title }
        requires few { at + length held.now < 2 ^ 64 }
        ensures { (entries : List Params) → Passes self.old self.new entries at held.now result }
    {
        let (is_chunked, head_size) = match title_head(held, self.is_open, at) {
            Ok(head) => head,
            Err(ending) => return Err(Unread::Ended(ending)),
        };
        if is_chunked {
            self.title.clear();
            self.stage = Stage::Chunk;
            return Ok((Found::Nothing, head_size));
        }
        match title_front(held, head_size, at) {
            Ok((_title, size)) => {
                self.scan = ItemScan::new(PREAMBLE_DEPTH);
                self.stage = Stage::Preamble;
                Ok((Found::Nothing, size))
            }
            Err(ending) => Err(Unread::Ended(ending)),
        }
    }

    // The break after the chunks of the title.
    fn pass_break(&mut self, held: &[u8]) -> Result<(Found, usize), Unread>
        requires stage { self.old.stage ≡ stage.Chunk }
        requires there { files.begins_with_break held.now ≡ true }
        ensures { (at : ℕ) (entries : List Params) → Passes self.old self.new entries at held.now result }
    {
        if !is_title(&self.title) {
            return Err(Unread::Ended(Ending::Refused(FileWhy::NotCdns)));
        }
        self.scan = ItemScan::new(PREAMBLE_DEPTH);
        self.stage = Stage::Preamble;
        Ok((Found::Nothing, 1))
    }

    // A chunk of the title, or the break after the last one.
    fn pass_chunk(&mut self, held: &[u8], at: u64) -> Result<(Found, usize), Unread>
        requires stage { self.old.stage ≡ stage.Chunk }
        requires few { at + length held.now < 2 ^ 64 }
        ensures { (entries : List Params) → Passes self.old self.new entries at held.now result }
    {
        if is_break(held) {
            return self.pass_break(held);
        }
        let (chunk, size) = match chunk_front(&self.title, held, at) {
            Ok(chunk) => chunk,
            Err(ending) => return Err(Unread::Ended(ending)),
        };
        match push_chunk(&mut self.title, chunk) {
            Ok(()) => Ok((Found::Nothing, size)),
            Err(AllocError) => Err(Unread::NoMemory),
        }
    }

    // The preamble.
    fn pass_preamble(
        &mut self,
        alloc: Global,
        held: &[u8],
        at: u64,
    ) -> Result<(Found, usize), Unread>
        requires stage { self.old.stage ≡ stage.Preamble }
        requires scanned { IsScanned self.old.stage self.old.mark held.now }
        requires few { at + length held.now < 2 ^ 64 }
        ensures { (entries : List Params) → Passes self.old self.new entries at held.now result }
    {
        match preamble_front(alloc, &mut self.scan, held, self.is_open, at) {
            Ok((entries, size)) => {
                self.stage = Stage::Array;
                Ok((Found::Entries(entries), size))
            }
            Err(Unread::Ended(ending)) => Err(Unread::Ended(ending)),
            Err(Unread::NoMemory) => Err(Unread::NoMemory),
        }
    }

    // The head of the array of blocks.
    fn pass_array(&mut self, held: &[u8], at: u64) -> Result<(Found, usize), Unread>
        requires stage { self.old.stage ≡ stage.Array }
        requires few { at + length held.now < 2 ^ 64 }
        ensures { (entries : List Params) → Passes self.old self.new entries at held.now result }
    {
        match count_front(held, self.is_open, at) {
            Ok((count, size)) => {
                self.scan = ItemScan::new(BLOCK_DEPTH);
                self.stage = Stage::Block(count);
                Ok((Found::Nothing, size))
            }
            Err(ending) => Err(Unread::Ended(ending)),
        }
    }

    // A block, where the array of blocks does not end.
    fn pass_next(
        &mut self,
        alloc: Global,
        entry_count: usize,
        left: Option<u64>,
        held: &[u8],
        at: u64,
    ) -> Result<(Found, usize), Unread>
        requires stage { self.old.stage ≡ stage.Block left }
        requires goes { end_of_blocks self.old.is_open left held.now ≡ None }
        requires scanned { IsScanned self.old.stage self.old.mark held.now }
        requires few { at + length held.now < 2 ^ 64 }
        ensures { (entries : List Params) → length entries ≡ entry_count
            → Passes self.old self.new entries at held.now result }
    {
        match block_front(alloc, &mut self.scan, held, entry_count, at) {
            Ok((block, size)) => {
                self.scan = ItemScan::new(BLOCK_DEPTH);
                self.stage = Stage::Block(one_less(left));
                Ok((Found::Block(block), size))
            }
            Err(Unread::Ended(ending)) => Err(Unread::Ended(ending)),
            Err(Unread::NoMemory) => Err(Unread::NoMemory),
        }
    }

    // A block, or how the file ends where none is due.
    fn pass_block(
        &mut self,
        alloc: Global,
        entry_count: usize,
        left: Option<u64>,
        held: &[u8],
        at: u64,
    ) -> Result<(Found, usize), Unread>
        requires stage { self.old.stage ≡ stage.Block left }
        requires scanned { IsScanned self.old.stage self.old.mark held.now }
        requires few { at + length held.now < 2 ^ 64 }
        ensures { (entries : List Params) → length entries ≡ entry_count
            → Passes self.old self.new entries at held.now result }
    {
        match end_of_blocks(held, left, self.is_open) {
            Some(last) => Err(Unread::Ended(last)),
            None => self.pass_next(alloc, entry_count, left, held, at),
        }
    }

    /// Reads the part at the front of the bytes held, which stand at an offset of the file: what it is, and its size.
    /// The file has so many block parameters, once its preamble is read.
    pub fn pass(
        &mut self,
        alloc: Global,
        entry_count: usize,
        held: &[u8],
        at: u64,
    ) -> Result<(Found, usize), Unread>
        requires placed { IsPlaced self.old.stage at }
        requires scanned { IsScanned self.old.stage self.old.mark held.now }
        requires few { at + length held.now < 2 ^ 64 }
        ensures { (entries : List Params) → length entries ≡ entry_count
            → Passes self.old self.new entries at held.now result }
    {
        match self.stage {
            Stage::Outer => self.pass_outer(held),
            Stage::Title => self.pass_title(held, at),
            Stage::Chunk => self.pass_chunk(held, at),
            Stage::Preamble => self.pass_preamble(alloc, held, at),
            Stage::Array => self.pass_array(held, at),
            Stage::Block(left) => self.pass_block(alloc, entry_count, left, held, at),
        }
    }
}
