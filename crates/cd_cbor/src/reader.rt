//! A reader of events of items whose bytes come in pieces.

ghost use Rattle.std.specs.Prelude.{◌≡◌, ℕ, ◌+◌, ◌≤◌, ◌^◌, [], ◌++◌, List, length, drop, OnOk, OnErr, IfOk};
ghost use Rattle.cd_cbor.specs.Spells.{most_string};
ghost use Rattle.cd_cbor.specs.Following.{Chunks};

use crate::event::{Event, Step, Told};
use crate::event_reading::{head_front, string_event};
use crate::fault::{CborFault, Why};
use crate::head_reading::byte_at;
use crate::nest::Nest;
use crate::string_reading::{BREAK, chunk_at};
use cd_name::Blob;
use std::alloc::{AllocError, Global};
use std::marker::Model;
use std::mem;

// As many read bytes may stay in memory.
const MOST_READ: usize = 65_536;

// The bytes from a place on.
fn rest(bytes: &Vec<u8>, start: usize) -> &[u8]
    requires { start ≤ length bytes.now.items }
    ensures { result.now ≡ drop start bytes.now.items }
{
    &bytes.as_slice()[start..]
}

// A chunk of a string with this content before, or the break that ends it.
#[tactic(auto, unfolding(crate::specs::Events::chunk_front))]
fn chunk_front(
    alloc: Global,
    is_text: bool,
    content: &mut Vec<u8>,
    bytes: &[u8],
) -> Result<(Option<Event>, usize), CborFault>
    requires { length content.old.items ≤ most_string }
    ensures told { Chunks is_text content.old.items content.new.items bytes.now result }
    ensures within { IfOk result (λ x. (1 ≤ x.1) × (x.1 ≤ length bytes.now)) }
    ensures short { length content.new.items ≤ most_string }
{
    let first = match byte_at(bytes, 0) {
        Ok(first) => first,
        Err(fault) => return Err(fault),
    };
    if first == BREAK {
        let whole = mem::replace(content, Vec::new(alloc));
        return Ok((Some(string_event(is_text, Blob::from_vec(whole))), 1));
    }
    let before = content.as_slice().len() as u64;
    match chunk_at(bytes, is_text, before, 0) {
        Err(fault) => Err(fault),
        Ok((chunk, size)) => match content.extend_from_slice(chunk) {
            Ok(()) => Ok((None, size)),
            Err(_refused) => Err(CborFault::NoMemory),
        },
    }
}

/// Reads items, one after the other, whose bytes come in pieces, and gives their events: an event for each head, with
/// the whole content of its string. However the bytes are cut, the events are the same.
#[derive(Drop)]
pub struct Reader {
    alloc: Global,
    fed_count: u64,
    // Bytes that were fed, of which those before `start` are read.
    bytes: Vec<u8>,
    start: usize,
    // The offset of the first byte that is not read.
    at: u64,
    // How many bytes the events given have.
    position: u64,
    nest: Nest,
    // The content of a text, or of a string of bytes, of which some chunks came.
    chunks: Option<bool>,
    content: Vec<u8>,
}

impl Model for Reader {
    ghost use Rattle.cd_cbor.specs.Following.{Kept};
    ghost use Rattle.cd_cbor.specs.Spells.{most_string};
    ghost use Rattle.std.specs.Prelude.{◌+◌, ◌-◌, ◌≤◌, ◌^◌, drop, length, option_map};

    ghost Value = { Kept };

    ghost view = { λ r. record {
      fed_count = r.fed_count;
      held = drop r.start r.bytes.items;
      at = r.at;
      position = r.position;
      open_now = record {
        wants = r.nest;
        chunks = option_map (λ is_text. (is_text, r.content.items)) r.chunks;
      };
    } };

    ghost invariant = { λ r. record {
      within : r.start ≤ length r.bytes.items;
      counted : r.at + (length r.bytes.items - r.start) ≤ r.fed_count;
      few : r.fed_count ≤ 2 ^ 48;
      short : length r.content.items ≤ most_string;
    } };
}

impl Reader {
    ghost use Rattle.std.specs.Prelude.{Some, None, option_map};
    ghost use Rattle.cd_cbor.specs.declared.event.Event.{Event};
    ghost use Rattle.cd_cbor.specs.declared.fault.Why.{Why as Reason};
    ghost use Rattle.cd_cbor.specs.declared.fault.Why.TheVariants.{End};
    ghost use Rattle.cd_cbor.specs.Following.{StandsFor, Stops, Steps, Nexts};
    ghost use Rattle.cd_cbor.specs.OnePath.{SaysAgain};

    /// A reader that was fed nothing.
    pub fn new(alloc: Global) -> Reader
        ensures history { StandsFor result [] [] }
        ensures count { result.fed_count ≡ 0 }
    {
        Reader {
            alloc,
            fed_count: 0,
            bytes: Vec::new(alloc),
            start: 0,
            at: 0,
            position: 0,
            nest: Nest::new(),
            chunks: None,
            content: Vec::new(alloc),
        }
    }

    // Lets the bytes go that are read, once they are many and more than the others.
    fn drop_read(&mut self)
        ensures { self.new ≡ self.old }
    {
        if self.start > MOST_READ && self.start > self.bytes.len() / 2 {
            let left = self.bytes.len() - self.start;
            self.bytes.copy_within(self.start.., 0);
            self.bytes.truncate(left);
            self.start = 0;
        }
    }

    /// Takes the next piece of the bytes, of which all have at most 2^48. An `Err` says that no memory was found, and
    /// changes nothing.
    pub fn feed(&mut self, piece: &[u8]) -> Result<(), AllocError>
        requires { self.old.fed_count + length piece.now ≤ 2 ^ 48 }
        ensures history { OnOk result ((fed : List ℕ) (given : List Event) → StandsFor self.old fed given
            → StandsFor self.new (fed ++ piece.now) given) }
        ensures count { OnOk result (self.new.fed_count ≡ self.old.fed_count + length piece.now) }
        ensures err { OnErr result (self.new ≡ self.old) }
    {
        self.drop_read();
        self.bytes.extend_from_slice(piece)?;
        self.fed_count += piece.len() as u64;
        Ok(())
    }

    // A head at the front of the bytes held, and the event that it is.
    fn step_head(&mut self) -> Result<Option<Event>, CborFault>
        requires { self.old.open_now.chunks ≡ None }
        ensures { Steps self.old self.new result }
    {
        let room = self.nest.room();
        let top = self.nest.innermost();
        let held = rest(&self.bytes, self.start);
        let (told, size) = match head_front(self.alloc, room, top, held) {
            Ok(found) => found,
            Err(fault) => return Err(fault),
        };
        match told {
            Told::Event(event, done) => {
                self.nest.act(done);
                self.start += size;
                self.at += size as u64;
                self.position = self.at;
                Ok(Some(event))
            }
            Told::Chunks(is_text) => {
                self.chunks = Some(is_text);
                self.content.clear();
                self.start += size;
                self.at += size as u64;
                Ok(None)
            }
        }
    }

    // A chunk at the front of the bytes held, or the break after the last one, with the event of their string.
    fn step_chunk(&mut self, is_text: bool) -> Result<Option<Event>, CborFault>
        requires { option_map (λ string. string.0) self.old.open_now.chunks ≡ Some is_text }
        ensures { Steps self.old self.new result }
    {
        let held = rest(&self.bytes, self.start);
        let (found, size) = match chunk_front(self.alloc, is_text, &mut self.content, held) {
            Ok(found) => found,
            Err(fault) => return Err(fault),
        };
        self.start += size;
        self.at += size as u64;
        match found {
            None => Ok(None),
            Some(event) => {
                self.chunks = None;
                self.nest.pass();
                self.position = self.at;
                Ok(Some(event))
            }
        }
    }

    // A head or a chunk at the front of the bytes held, and the event that it ends.
    fn step(&mut self) -> Result<Option<Event>, CborFault>
        ensures { Steps self.old self.new result }
    {
        match self.chunks {
            None => self.step_head(),
            Some(is_text) => self.step_chunk(is_text),
        }
    }

    /// The next event of the bytes fed. `More` says that they end before it is whole, and hold no fault. `Bad` is the
    /// first fault, at the head that shows it; each later call says it again, whatever is fed. Such a call judges the
    /// head again, and looks at its text again where that is not UTF-8. After `NoMemory` the call can be made again.
    pub fn next(&mut self) -> Result<Step, CborFault>
        ensures history { (fed : List ℕ) (given : List Event) → StandsFor self.old fed given
            → Nexts self.new fed given result }
        ensures again { (fed more : List ℕ) (given : List Event) (at : ℕ) (reason : Reason)
            → Stops fed given at reason → (reason ≡ End → ⊥) → StandsFor self.old (fed ++ more) given
            → SaysAgain at reason result }
        ensures count { self.new.fed_count ≡ self.old.fed_count }
    {
        'steps: loop {
            match self.step() {
                Ok(None) => {}
                Ok(Some(event)) => return Ok(Step::Event(event)),
                Err(CborFault::NoMemory) => return Err(CborFault::NoMemory),
                Err(
                    CborFault::Bad {
                        at: _,
                        why: Why::End,
                    },
                ) => return Ok(Step::More),
                Err(CborFault::Bad { at: _, why }) => {
                    return Err(CborFault::Bad { at: self.at, why });
                }
            }
        }
    }

    /// How many bytes the events given so far have.
    pub fn position(&self) -> u64
        ensures { result ≡ self.now.position }
    {
        self.position
    }
}
