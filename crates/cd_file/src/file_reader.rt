//! A reader of a file that comes in pieces.

ghost use Rattle.std.specs.Prelude.{◌≡◌, ℕ, ◌+◌, ◌≤◌, ◌<◌, ◌^◌, [], ◌∷◌, ◌++◌, List, length, drop, Option, Some, None, OnOk, OnErr, IsErr, Ok, Err, is_some, option_map, IfSome};
ghost use Rattle.std.specs.Prelude.{false, true};
ghost use Rattle.cd_block.specs.declared.block.Block.{Block as BlockRead};
ghost use Rattle.cd_block.specs.declared.params.Params.{Params as ParamsRead};
ghost use Rattle.cd_file.specs.FileReading.{told_params};
ghost use Rattle.cd_file.specs.Passing.{told_at};
ghost use Rattle.cd_file.specs.ReadFile as files;
ghost use Rattle.cd_file.specs.declared.refusal.FileFault.TheVariants as fault;

use crate::block_parameters::BlockParameters;
use crate::fronts::{Ending, Unread};
use crate::progress::{Found, Progress};
use crate::refusal::{BadFile, FileFault, FileWhy};
use crate::stage::Stage;
use cd_block::{Block, Params};
use std::alloc::{AllocError, Global};
use std::marker::Model;

// As many read bytes may stay in memory.
const MOST_READ: usize = 65_536;

/// What a reader gives.
#[derive(Debug, Drop)]
pub enum Next {
    /// The next block.
    Block(Block),
    /// The bytes fed end before the head or the next block is whole, or before the end of the file.
    More,
    /// Every block was given, the file is whole, and nothing follows it.
    End,
}

// The bytes from a place on.
fn rest(bytes: &Vec<u8>, start: usize) -> &[u8]
    requires { start ≤ length bytes.now.items }
    ensures { result.now ≡ drop start bytes.now.items }
{
    &bytes.as_slice()[start..]
}

// The number of what is due after so many blocks.
fn number_after(stage: Stage, count: u64) -> u64
    requires { count < 2 ^ 63 }
    ensures { (entries : List ParamsRead) → result ≡ files.number_after (told_at stage entries) count }
{
    match stage {
        Stage::Block(_left) => count + 1,
        _ => 0,
    }
}

/// Reads a file (RFC 8618 7.3) that comes in pieces: its block parameters and its blocks. However the bytes are cut,
/// they are the same, and so is the refusal of a file that is none.
#[derive(Drop)]
pub struct FileReader {
    alloc: Global,
    fed_count: u64,
    // Bytes that were fed, of which those before `start` are read.
    bytes: Vec<u8>,
    start: usize,
    // The offset of the first byte that is not read.
    at: u64,
    progress: Progress,
    // The block parameters, once the preamble is read.
    entries: BlockParameters,
    given_count: u64,
    // The refusal that a call for a block gave, and the one that the last call for the end gave.
    refused: Option<BadFile>,
    ended: Option<BadFile>,
    // A call found no memory and left nothing to go on with.
    is_spent: bool,
}

impl Model for FileReader {
    ghost use Rattle.std.specs.Prelude.{◌+◌, ◌-◌, ◌≤◌, ◌^◌, drop, length};
    ghost use Rattle.cd_file.specs.FileReading.{Kept};
    ghost use Rattle.cd_file.specs.Passing.{due_of, told_at, IsPlaced, IsScanned};

    ghost Value = { Kept };

    ghost view = { λ r. record {
      fed_count = r.fed_count;
      held = drop r.start r.bytes.items;
      at = r.at;
      due = due_of r.progress r.entries;
      given_count = r.given_count;
      params = told_at r.progress.stage r.entries;
      refused = r.refused;
      ended = r.ended;
      is_spent = r.is_spent;
    } };

    ghost invariant = { λ r. record {
      within : r.start ≤ length r.bytes.items;
      counted : r.at + (length r.bytes.items - r.start) ≤ r.fed_count;
      few : r.fed_count ≤ 2 ^ 48;
      given : r.given_count ≤ r.at;
      placed : IsPlaced r.progress.stage r.at;
      scanned : IsScanned r.progress.stage r.progress.mark (drop r.start r.bytes.items);
    } };
}

impl FileReader {
    ghost use Rattle.cd_file.specs.FileReading.{StandsFor, Feeds, Nexts, NextKeeps, Tells, Ends, EndKeeps, RefusesAgain, StaysSpent};
    ghost use Rattle.cd_file.specs.Steps.{Steps, MovesOn, LooksAhead};

    /// A reader that was fed nothing.
    pub fn new(alloc: Global) -> FileReader
        ensures history { StandsFor result [] [] }
        ensures count { result.fed_count ≡ 0 }
        ensures at { result.at ≡ 0 }
        ensures unrefused { result.refused ≡ None }
        ensures params { result.params ≡ None }
    {
        FileReader {
            alloc,
            fed_count: 0,
            bytes: Vec::new(alloc),
            start: 0,
            at: 0,
            progress: Progress::new(alloc),
            entries: BlockParameters::none(alloc),
            given_count: 0,
            refused: None,
            ended: None,
            is_spent: false,
        }
    }

    // Lets the bytes go that are read, once they are many and more than the others.
    fn drop_read(&mut self)
        ensures { self.new ≡ self.old }
    {
        if self.start > MOST_READ && self.start > self.bytes.len() / 2 {
            let left = self.bytes.len() - self.start;
            self.bytes.copy_within(self.start.., 0);
            self.bytes.truncate(left);
            self.start = 0;
        }
    }

    // Holds a piece after the other bytes. For want of memory nothing changes.
    fn hold(&mut self, piece: &[u8]) -> Result<(), AllocError>
        requires { self.old.fed_count + length piece.now ≤ 2 ^ 48 }
        ensures ok { OnOk result (self.new ≡ record self.old {
          fed_count = self.old.fed_count + length piece.now;
          held = self.old.held ++ piece.now;
          ended = None;
        }) }
        ensures err { OnErr result (self.new ≡ self.old) }
    {
        self.drop_read();
        self.bytes.extend_from_slice(piece)?;
        self.fed_count += piece.len() as u64;
        self.ended = None;
        Ok(())
    }

    /// Takes the next piece of the file, of which all pieces have at most 2^48 bytes. What `end` said is not said of
    /// more bytes. An `Err` says that no memory was found, and changes nothing.
    pub fn feed(&mut self, piece: &[u8]) -> Result<(), AllocError>
        requires { self.old.fed_count + length piece.now ≤ 2 ^ 48 }
        ensures history { (fed : List ℕ) (given : List BlockRead) → StandsFor self.old fed given
            → Feeds self.old self.new (fed ++ piece.now) given result }
        ensures count { OnOk result (self.new.fed_count ≡ self.old.fed_count + length piece.now) }
        ensures place { OnOk result (self.new.at ≡ self.old.at) }
        ensures err { OnErr result (self.new ≡ self.old) }
        ensures spent { self.old.is_spent ≡ true → IsErr result }
    {
        if self.is_spent {
            return Err(AllocError);
        }
        match self.refused {
            Some(_bad) => {
                self.fed_count += piece.len() as u64;
                self.ended = None;
                return Ok(());
            }
            None => {}
        }
        self.hold(piece)?;
        Ok(())
    }

    // Reads the part at the front of the bytes held.
    fn step(&mut self) -> Result<Option<Block>, Unread>
        ensures { Steps self.old self.new result }
    {
        let count = self.entries.len();
        let held = rest(&self.bytes, self.start);
        let (found, size) = match self.progress.pass(self.alloc, count, held, self.at) {
            Ok(passed) => passed,
            Err(Unread::Ended(ending)) => return Err(Unread::Ended(ending)),
            Err(Unread::NoMemory) => return Err(Unread::NoMemory),
        };
        self.start += size;
        self.at += size as u64;
        match found {
            Found::Nothing => Ok(None),
            Found::Entries(entries) => {
                self.entries = entries;
                Ok(None)
            }
            Found::Block(block) => {
                self.given_count += 1;
                Ok(Some(block))
            }
        }
    }

    // Leaves nothing to go on with.
    fn spend(&mut self)
        ensures { self.new ≡ record self.old { is_spent = true } }
    {
        self.is_spent = true;
    }

    // Keeps the refusal of what is due, and says it.
    fn refuse(&mut self, why: FileWhy) -> BadFile
        ensures bad { result ≡ record { block = files.number_after self.old.params self.old.given_count; why = why } }
        ensures kept { self.new ≡ record self.old { refused = Some result } }
    {
        let block = number_after(self.progress.stage(), self.given_count);
        let bad = BadFile { block, why };
        self.refused = Some(bad);
        bad
    }

    /// The next block, as long as there is one that is whole and stands before the first refusal. `More` says that the
    /// bytes fed end before that, and hold no refusal; `End` that the file is whole. `Bad` is the first refusal; each
    /// later call says it again, whatever is fed. After `NoMemory` the reader is spent: each call finds no memory.
    pub fn next_block(&mut self) -> Result<Next, FileFault>
        ensures history { (fed : List ℕ) (given : List BlockRead) → StandsFor self.old fed given
            → Nexts self.new fed given result }
        ensures tells { (fed : List ℕ) (given : List BlockRead) → StandsFor self.old fed given
            → Tells self.new fed result }
        ensures keeps { NextKeeps self.old self.new result }
        ensures again { RefusesAgain self.old self.old.refused result }
        ensures spent { StaysSpent fault.NoMemory self.old self.new result }
        ensures count { self.new.fed_count ≡ self.old.fed_count }
        ensures moves { MovesOn self.old self.new result }
        ensures within { self.new.at ≤ self.new.fed_count }
    {
        if self.is_spent {
            return Err(FileFault::NoMemory);
        }
        match self.refused {
            Some(bad) => return Err(FileFault::Bad(bad)),
            None => {}
        }
        'parts: loop {
            match self.step() {
                Ok(None) => {}
                Ok(Some(block)) => return Ok(Next::Block(block)),
                Err(Unread::NoMemory) => {
                    self.spend();
                    return Err(FileFault::NoMemory);
                }
                Err(Unread::Ended(Ending::Open)) => return Ok(Next::More),
                Err(Unread::Ended(Ending::Whole)) => return Ok(Next::End),
                Err(Unread::Ended(Ending::Refused(why))) => {
                    return Err(FileFault::Bad(self.refuse(why)));
                }
            }
        }
    }

    // How the bytes held end, and the number of what stands there.
    fn look_ahead(&self) -> Result<(Ending, u64), AllocError>
        ensures { LooksAhead self.now result }
    {
        let mut progress = self.progress.again(self.alloc)?;
        let mut known = self.entries.len();
        let mut start = self.start;
        let mut at = self.at;
        let mut count = self.given_count;
        'parts: loop {
            let held = rest(&self.bytes, start);
            let (found, size) = match progress.pass(self.alloc, known, held, at) {
                Ok(passed) => passed,
                Err(Unread::NoMemory) => return Err(AllocError),
                Err(Unread::Ended(ending)) => {
                    return Ok((ending, number_after(progress.stage(), count)));
                }
            };
            start += size;
            at += size as u64;
            match found {
                Found::Nothing => {}
                Found::Entries(entries) => known = entries.len(),
                Found::Block(_block) => count += 1,
            }
        }
    }

    // Keeps a refusal that the end is.
    fn refuse_end(&mut self, bad: BadFile) -> Result<(), FileFault>
        ensures kept { self.new ≡ record self.old { ended = Some bad } }
        ensures answer { result ≡ Err (fault.Bad bad) }
    {
        self.ended = Some(bad);
        Err(FileFault::Bad(bad))
    }

    /// Says that no byte comes after those fed, and tells whether the file is whole. `Bad` is the first refusal of the
    /// file of just these bytes, which an end that comes too early is too, at the number of bytes; each later call says
    /// it again, until more is fed. It gives no block. After `NoMemory` the reader is spent.
    pub fn end(&mut self) -> Result<(), FileFault>
        ensures history { (fed : List ℕ) (given : List BlockRead) → StandsFor self.old fed given
            → Ends self.new fed given result }
        ensures keeps { EndKeeps self.old self.new result }
        ensures again { RefusesAgain self.old self.old.ended result }
        ensures spent { StaysSpent fault.NoMemory self.old self.new result }
        ensures count { self.new.fed_count ≡ self.old.fed_count }
    {
        if self.is_spent {
            return Err(FileFault::NoMemory);
        }
        match self.ended {
            Some(bad) => return Err(FileFault::Bad(bad)),
            None => {}
        }
        match self.refused {
            Some(bad) => return self.refuse_end(bad),
            None => {}
        }
        match self.look_ahead() {
            Err(AllocError) => {
                self.spend();
                Err(FileFault::NoMemory)
            }
            Ok((Ending::Whole, _block)) => Ok(()),
            Ok((Ending::Open, block)) => {
                let why = FileWhy::Cbor(self.fed_count);
                self.refuse_end(BadFile { block, why })
            }
            Ok((Ending::Refused(why), block)) => self.refuse_end(BadFile { block, why }),
        }
    }

    /// Whether a call of `next_block` came past the head of the array of blocks, the third item of the file.
    pub fn has_head(&self) -> bool
        ensures { result ≡ is_some self.now.params }
    {
        match self.progress.stage() {
            Stage::Block(_left) => true,
            _ => false,
        }
    }

    /// How many bytes were fed.
    pub fn fed_count(&self) -> u64
        ensures { result ≡ self.now.fed_count }
    {
        self.fed_count
    }

    /// The block parameters with this number, once a call of `next_block` came past the head of the array of blocks, the
    /// third item of the file. A reader that is spent tells none.
    pub fn params(&self, number: u64) -> Option<&Params>
        ensures told { option_map (λ p. p.now) result ≡ told_params self.now number }
        ensures least { IfSome result (λ p. 0 < p.now.ticks) }
        ensures most { IfSome result (λ p. p.now.ticks ≤ 1000000000) }
    {
        if self.is_spent {
            return None;
        }
        match self.progress.stage() {
            Stage::Block(_left) => self.entries.get(number),
            _ => None,
        }
    }
}
