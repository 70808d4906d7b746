//! A scan of an item whose bytes come in pieces.

ghost use Rattle.std.specs.Prelude.{◌≡◌, ℕ, ◌-◌, ◌≤◌, [], ◌++◌, List, length, drop, Ok, IfOk, IfErr, OnErr};
ghost use Rattle.cd_cbor.specs.Spells.{most_depth, most_string};
ghost use Rattle.cd_cbor.specs.Reading as reading;
ghost use Rattle.cd_cbor.specs.Readings.{Gives, LiesWithin};
ghost use Rattle.cd_cbor.specs.Scanning.{due_after, due_front, IsShort, LiesBefore, TellsFault};
ghost use Rattle.cd_cbor.specs.declared.item.Item.{Item};
ghost use Rattle.cd_cbor.specs.declared.scan.Due.TheVariants as due;
ghost use Rattle.cd_cbor.specs.declared.fault.Why.TheVariants as why;

use crate::fault::{CborFault, Why};
use crate::head_passing::{Done, head_done};
use crate::head_reading::byte_at;
use crate::item_reading::MOST_DEPTH;
use crate::nest::Nest;
use crate::string_reading::{BREAK, chunk_at};
use std::marker::Model;

/// What a scan says of the bytes of an item so far.
#[derive(Clone, Copy, Debug, PartialEq, Eq)]
pub enum Judged {
    /// The item is whole, and ends at this offset. More bytes may stand behind it.
    Whole(usize),
    /// The first fault, which is no end, and the offset of the head that shows it.
    Bad(usize, Why),
    /// The bytes end before the item does, and hold no fault.
    More,
}

/// What is due after the bytes that a scan passed.
#[derive(Clone, Copy, Debug, PartialEq, Eq)]
pub enum Due {
    /// An item, or the break of what is open.
    Head,
    /// A chunk of a text, or of a string of bytes, with so many bytes in the chunks before, or the break after the
    /// last.
    Chunk(bool, u64),
    /// Nothing: the item is whole.
    Nothing,
}

/// Judges one item whose bytes come in pieces, and keeps them nowhere: each call is given all bytes of the item so far.
/// A head is passed once, and so is a string, once it is whole, or a chunk of one. It takes no memory of its own but for
/// the arrays, maps and tags that are open.
#[derive(Drop)]
pub struct Scan {
    // So many arrays, maps and tags may be open at a time.
    depth: usize,
    // All bytes before this offset are passed.
    at: usize,
    nest: Nest,
    due: Due,
}

impl Model for Scan {
    ghost use Rattle.cd_cbor.specs.Scanning.{Mark, IsShort};
    ghost use Rattle.std.specs.Prelude.{◌≤◌};

    ghost Value = { Mark };

    ghost view = { λ s. record { depth = s.depth; at = s.at; wants = s.nest; due = s.due } };

    ghost invariant = { λ s. record {
      deep : s.depth ≤ 16;
      short : IsShort s.due;
    } };
}

// The bytes from an offset on.
fn rest(bytes: &[u8], at: usize) -> &[u8]
    requires { at ≤ length bytes.now }
    ensures { result.now ≡ drop at bytes.now }
{
    &bytes[at..]
}

// What is due after an item, where this is open.
fn due_after(nest: &Nest) -> Due
    ensures { result ≡ due_after nest.now }
{
    match nest.innermost() {
        None => Due::Nothing,
        Some(_top) => Due::Head,
    }
}

// How many more may be opened, of so many.
fn room_within(depth: usize, nest: &Nest) -> usize
    requires { depth ≤ most_depth }
    ensures { result ≡ depth - length nest.now }
{
    nest.room().saturating_sub(MOST_DEPTH - depth)
}

// Passes the head at the front of some bytes, and says what is due after it.
#[tactic(auto, unfolding(crate::specs::Scanning::due_front))]
fn pass_head(depth: usize, nest: &mut Nest, bytes: &[u8]) -> Result<(Due, usize), CborFault>
    requires { depth ≤ most_depth }
    ensures passed { Gives (λ x. ((nest.new, x.0), x.1)) result
        (due_front depth nest.old due.Head bytes.now) }
    ensures err { OnErr result (nest.new ≡ nest.old) }
    ensures within { IfOk result (λ x. (1 ≤ x.1) × (x.1 ≤ length bytes.now)) }
    ensures short { IfOk result (λ x. IsShort x.0) }
    ensures fault { IfErr result (λ e. LiesWithin bytes.now e) }
{
    let room = room_within(depth, nest);
    let top = nest.innermost();
    let (done, size) = match head_done(room, top, bytes) {
        Ok(found) => found,
        Err(fault) => return Err(fault),
    };
    match done {
        Done::Act(act) => {
            nest.act(act);
            Ok((due_after(nest), size))
        }
        Done::Chunks(is_text) => Ok((Due::Chunk(is_text, 0), size)),
    }
}

// Passes the chunk at the front of some bytes, or the break after the last, and says what is due after it.
#[tactic(auto, unfolding(crate::specs::Scanning::due_front))]
fn pass_chunk(
    nest: &mut Nest,
    is_text: bool,
    before: u64,
    bytes: &[u8],
) -> Result<(Due, usize), CborFault>
    requires { before ≤ most_string }
    ensures passed { (depth : ℕ) → Gives (λ x. ((nest.new, x.0), x.1)) result
        (due_front depth nest.old (due.Chunk is_text before) bytes.now) }
    ensures err { OnErr result (nest.new ≡ nest.old) }
    ensures within { IfOk result (λ x. (1 ≤ x.1) × (x.1 ≤ length bytes.now)) }
    ensures short { IfOk result (λ x. IsShort x.0) }
    ensures fault { IfErr result (λ e. LiesWithin bytes.now e) }
{
    let first = match byte_at(bytes, 0) {
        Ok(first) => first,
        Err(fault) => return Err(fault),
    };
    if first == BREAK {
        nest.pass();
        return Ok((due_after(nest), 1));
    }
    match chunk_at(bytes, is_text, before, 0) {
        Err(fault) => Err(fault),
        Ok((chunk, size)) => Ok((Due::Chunk(is_text, before + chunk.len() as u64), size)),
    }
}

// Passes what is due at the front of some bytes, and says what is due after it.
fn pass_due(
    depth: usize,
    nest: &mut Nest,
    now: Due,
    bytes: &[u8],
) -> Result<(Due, usize), CborFault>
    requires depth { depth ≤ most_depth }
    requires short { IsShort now }
    requires due { now ≡ due.Nothing → ⊥ }
    ensures passed { Gives (λ x. ((nest.new, x.0), x.1)) result
        (due_front depth nest.old now bytes.now) }
    ensures err { OnErr result (nest.new ≡ nest.old) }
    ensures within { IfOk result (λ x. (1 ≤ x.1) × (x.1 ≤ length bytes.now)) }
    ensures short { IfOk result (λ x. IsShort x.0) }
    ensures fault { IfErr result (λ e. LiesWithin bytes.now e) }
{
    match now {
        Due::Head => pass_head(depth, nest, bytes),
        Due::Chunk(is_text, before) => pass_chunk(nest, is_text, before, bytes),
        Due::Nothing => unreachable!(),
    }
}

// What is said at a fault at the front of the bytes from an offset on, of so many.
fn fault_judged(count: usize, at: usize, fault: CborFault) -> Judged
    requires { LiesBefore count at fault }
    ensures { TellsFault fault at result }
{
    match fault {
        CborFault::NoMemory => unreachable!(),
        CborFault::Bad { at: place, why } => {
            if why == Why::End {
                Judged::More
            } else {
                Judged::Bad(at + place as usize, why)
            }
        }
    }
}

impl Scan {
    ghost use Rattle.cd_cbor.specs.Scanning.{IsMarked, Judges, Passes};

    /// A scan of an item with no byte so far, in which at most so many arrays, maps and tags may be open at a time: 16,
    /// and fewer for an item that stands within others.
    pub fn new(depth: usize) -> Scan
        requires { depth ≤ most_depth }
        ensures history { IsMarked 0 result [] }
        ensures depth { result.depth ≡ depth }
    {
        Scan {
            depth,
            at: 0,
            nest: Nest::new(),
            due: Due::Head,
        }
    }

    // A scan of an item that begins at an offset.
    fn from(depth: usize, at: usize) -> Scan
        requires { depth ≤ most_depth }
        ensures history { (bytes : List ℕ) → at ≤ length bytes → IsMarked at result bytes }
        ensures depth { result.depth ≡ depth }
    {
        Scan {
            depth,
            at,
            nest: Nest::new(),
            due: Due::Head,
        }
    }

    // Passes what is due, or says that nothing is.
    fn pass(&mut self, item: &[u8]) -> Result<bool, CborFault>
        requires { self.old.at ≤ length item.now }
        ensures { Passes self.old self.new item.now result }
    {
        if self.due == Due::Nothing {
            return Ok(true);
        }
        let held = rest(item, self.at);
        let (due, size) = match pass_due(self.depth, &mut self.nest, self.due, held) {
            Ok(passed) => passed,
            Err(fault) => return Err(fault),
        };
        self.due = due;
        self.at += size;
        Ok(false)
    }

    /// Judges all bytes of the item so far, which begin with those of the calls before. After `Whole` and `Bad` each
    /// later call says the same again.
    pub fn judge(&mut self, item: &[u8]) -> Judged
        ensures history { (start : ℕ) (before more : List ℕ) → item.now ≡ before ++ more
            → IsMarked start self.old before → IsMarked start self.new item.now
            × Judges result (reading.item_at self.old.depth item.now why.Break start) }
        ensures depth { self.new.depth ≡ self.old.depth }
    {
        if item.len() < self.at {
            return Judged::More;
        }
        'heads: loop {
            match self.pass(item) {
                Ok(whole) => {
                    if whole {
                        return Judged::Whole(self.at);
                    }
                }
                Err(fault) => return fault_judged(item.len(), self.at, fault),
            }
        }
    }
}

/// Where the item at an offset ends, in which at most so many arrays, maps and tags may be open, 16 at most: for bytes
/// that are known to hold an item there. Where they hold none it is that offset.
pub fn item_end(depth: usize, bytes: &[u8], at: usize) -> usize
    requires { depth ≤ most_depth }
    ensures { (item : Item) (end : ℕ) → reading.item_at depth bytes.now why.Break at ≡ Ok (item, end)
        → result ≡ end }
{
    match Scan::from(depth, at).judge(bytes) {
        Judged::Whole(end) => end,
        Judged::Bad(_place, _why) => at,
        Judged::More => at,
    }
}
