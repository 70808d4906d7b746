//! A reader of a pcapng capture that comes in chunks.

ghost use Rattle.std.specs.Prelude.{◌≡◌, ℕ, ◌+◌, ◌<◌, ◌≤◌, ◌^◌, [], ◌++◌, ◌-◌, List, length, take, Some, None};
ghost use Rattle.std.specs.Prelude.{Option, is_some, OnOk, OnErr, IfOk};
ghost use Rattle.cd_pcapng.specs.Fronts.{packet_in, ArePlaced};
ghost use Rattle.cd_pcapng.specs.Reading.{open_end};
ghost use Rattle.cd_pcapng.specs.Sections.{Section};

use crate::found::Found;
use crate::packet_place::PacketPlace;
use cd_name::Blob;
use cd_packet::{BadCapture, CaptureWhy, EndState, FeedFault, Packet};
use std::alloc::{AllocError, Global};
use std::marker::Model;

// As many bytes that are not wanted may stay in memory.
const MOST_READ: usize = 65_536;

// As many bytes tell whether a capture is a pcapng capture.
const MAGIC_SIZE: usize = 4;

/// Reads a pcapng capture that comes in chunks (the pcapng draft, 3 and 4).
#[derive(Drop)]
pub struct PcapngReader {
    alloc: Global,
    fed_count: u64,
    // Bytes that were fed: those of the packets that are not given, and from `start` on those after the last whole
    // block.
    bytes: Vec<u8>,
    start: usize,
    // The offset in the capture of the first of these bytes.
    base: u64,
    // What was found in the whole blocks.
    found: Found,
    // The refused place, once it came. From there on no byte is kept.
    refused: Option<BadCapture>,
}

impl Model for PcapngReader {
    ghost use Rattle.cd_pcapng.specs.Fronts.{packet_in, ArePlaced};
    ghost use Rattle.cd_pcapng.specs.Founds.{section_in};
    ghost use Rattle.cd_pcapng.specs.Reading.{Kept};
    ghost use Rattle.std.specs.Prelude.{◌≡◌, ◌+◌, ◌≤◌, ◌^◌, None, drop, length, map};

    ghost Value = { Kept };

    ghost view = { λ r. record {
      fed_count = r.fed_count;
      ready = map (packet_in r.base r.bytes.items) r.found.ready;
      held = drop r.start r.bytes.items;
      at = r.base + r.start;
      section = section_in r.found;
      refused = r.refused;
    } };

    ghost invariant = { λ r. record {
      within : r.start ≤ length r.bytes.items;
      counted : r.base + length r.bytes.items ≤ r.fed_count;
      few : r.fed_count ≤ 2 ^ 48;
      placed : ArePlaced r.base r.found.ready (r.base + r.start);
      first : r.found.order ≡ None → r.base + r.start ≡ 0;
    } };
}

// The packet at a place, among these bytes at this offset.
fn packet_in(
    alloc: Global,
    base: u64,
    bytes: &[u8],
    place: PacketPlace,
) -> Result<Packet, AllocError>
    requires from { base ≤ place.captured_at }
    requires to { place.captured_at + place.captured ≤ base + length bytes.now }
    requires few { base + length bytes.now ≤ 2 ^ 48 }
    ensures { IfOk result (λ p. p ≡ packet_in base bytes.now place) }
{
    let from = (place.captured_at - base) as usize;
    let captured = &bytes[from..from + place.captured];
    Ok(Packet {
        at: place.at,
        when: place.when,
        link: place.link,
        original: place.original,
        bytes: Blob::from_vec(Vec::from_slice(alloc, captured)?),
    })
}

// The offset of the first byte that is still wanted, where the bytes after the last whole block begin at this one.
fn first_wanted(found: &Found, at: u64) -> u64
    ensures { (base : ℕ) → ArePlaced base found.now.ready at
        → (base ≤ result) × (result ≤ at) × ArePlaced result found.now.ready at }
{
    match found.first_ready() {
        Some(place) => place.captured_at,
        None => at,
    }
}

impl PcapngReader {
    ghost use Rattle.cd_pcapng.specs.Pcapng.{pcapng};
    ghost use Rattle.cd_packet.specs.declared.packet.Packet.{Packet};
    ghost use Rattle.cd_pcapng.specs.Reading.{Kept, HasRead, StandsFor};
    ghost use Rattle.cd_pcapng.specs.Giving.{Feeds, RefusesAgain, Counts, HasRoom, Gives, GivesFirst};

    /// A reader that was fed nothing.
    pub fn new(alloc: Global) -> PcapngReader
        ensures history { StandsFor result [] [] }
        ensures count { result.fed_count ≡ 0 }
    {
        PcapngReader {
            alloc,
            fed_count: 0,
            bytes: Vec::new(alloc),
            start: 0,
            base: 0,
            found: Found::new(alloc),
            refused: None,
        }
    }

    // Lets the bytes go that are no longer wanted, once they are many and more than the others.
    fn drop_unwanted(&mut self)
        ensures { self.new ≡ self.old }
    {
        self.found.forget_sections();
        let wanted = first_wanted(&self.found, self.base + self.start as u64);
        let unwanted = (wanted - self.base) as usize;
        if unwanted > MOST_READ && unwanted > self.bytes.len() / 2 {
            let left = self.bytes.len() - unwanted;
            self.bytes.copy_within(unwanted.., 0);
            self.bytes.truncate(left);
            self.start -= unwanted;
            self.base += unwanted as u64;
        }
    }

    // Reads the whole blocks that are held, up to a refused place. For want of memory nothing changes.
    fn read_blocks(&mut self) -> Result<(), AllocError>
        requires { self.old.refused ≡ None }
        ensures history { OnOk result ((fed : List ℕ) (given : List Packet) → HasRead self.old fed [] given →
            StandsFor self.new fed given) }
        ensures unchanged { OnErr result (self.new ≡ self.old) }
        ensures count { self.new.fed_count ≡ self.old.fed_count }
        ensures place { OnOk result (HasRoom self.old self.new) }
    {
        let at = self.base + self.start as u64;
        let whole = self.found.read(at, &self.bytes[self.start..])?;
        self.start += whole.size;
        if let Some(why) = whole.refused {
            self.bytes.truncate(self.start);
            self.refused = Some(BadCapture {
                at: at + whole.size as u64,
                why,
            });
        }
        Ok(())
    }

    // Holds a chunk after the other bytes. For want of memory nothing changes.
    fn hold(&mut self, chunk: &[u8]) -> Result<(), AllocError>
        requires { self.old.fed_count + length chunk.now ≤ 2 ^ 48 }
        ensures ok { OnOk result (self.new ≡ record self.old {
          fed_count = self.old.fed_count + length chunk.now;
          held = self.old.held ++ chunk.now;
        }) }
        ensures err { OnErr result (self.new ≡ self.old) }
    {
        self.drop_unwanted();
        self.bytes.extend_from_slice(chunk)?;
        self.fed_count += chunk.len() as u64;
        Ok(())
    }

    // Takes back the last bytes that are held.
    fn take_back(&mut self, count: usize)
        requires held { count ≤ length self.old.held }
        ensures { self.new ≡ record self.old {
          fed_count = self.old.fed_count - count;
          held = take (length self.old.held - count) self.old.held;
        } }
    {
        let left = self.bytes.len() - count;
        self.bytes.truncate(left);
        self.fed_count -= count as u64;
    }

    // Holds a chunk and reads the blocks that are whole then. For want of memory nothing changes.
    fn take_chunk(&mut self, chunk: &[u8]) -> Result<(), AllocError>
        requires few { self.old.fed_count + length chunk.now ≤ 2 ^ 48 }
        requires sound { self.old.refused ≡ None }
        ensures history { OnOk result ((fed : List ℕ) (given : List Packet) → StandsFor self.old fed given →
            StandsFor self.new (fed ++ chunk.now) given) }
        ensures count { OnOk result (self.new.fed_count ≡ self.old.fed_count + length chunk.now) }
        ensures place { OnOk result (HasRoom self.old self.new) }
        ensures unchanged { OnErr result (self.new ≡ self.old) }
    {
        self.hold(chunk)?;
        match self.read_blocks() {
            Ok(()) => Ok(()),
            Err(AllocError) => {
                self.take_back(chunk.len());
                Err(AllocError)
            }
        }
    }

    /// Takes the next chunk of the capture, of which all chunks have at most 2^48 bytes. `Bad` says that the bytes fed
    /// hold this refused place: each later call says so again, and `next` still gives the packets before it. `NoMemory`
    /// says that nothing changed, and the call can be made again.
    pub fn feed(&mut self, chunk: &[u8]) -> Result<(), FeedFault>
        requires { self.old.fed_count + length chunk.now ≤ 2 ^ 48 }
        ensures history { (fed : List ℕ) (given : List Packet) → StandsFor self.old fed given
            → Feeds self.new (fed ++ chunk.now) given result }
        ensures again { RefusesAgain self.old result }
        ensures count { Counts self.old self.new (length chunk.now) result }
        ensures place { HasRoom self.old self.new }
    {
        if let Some(bad) = self.refused {
            self.fed_count += chunk.len() as u64;
            return Err(FeedFault::Bad(bad));
        }
        match self.take_chunk(chunk) {
            Err(AllocError) => return Err(FeedFault::NoMemory),
            Ok(()) => {}
        }
        match self.refused {
            None => Ok(()),
            Some(bad) => Err(FeedFault::Bad(bad)),
        }
    }

    /// The next packet, where the bytes fed hold one more before a refused place. For want of memory nothing changes,
    /// and the call can be made again.
    pub fn next(&mut self) -> Result<Option<Packet>, AllocError>
        ensures first { GivesFirst self.old self.new result }
        ensures history { (fed : List ℕ) (given : List Packet) → StandsFor self.old fed given
            → Gives self.new fed given result }
    {
        let place = match self.found.first_ready() {
            None => return Ok(None),
            Some(place) => place,
        };
        let packet = packet_in(self.alloc, self.base, &self.bytes, place)?;
        self.found.give();
        Ok(Some(packet))
    }

    /// How the bytes fed end. Fewer than four are no capture.
    pub fn end(&self) -> EndState
        ensures { (fed : List ℕ) (given : List Packet) → StandsFor self.now fed given
            → result ≡ (pcapng fed).end }
    {
        if let Some(bad) = self.refused {
            return EndState::Bad(bad);
        }
        open_end(self.found.has_section(), self.bytes.len() - self.start)
    }
}

// How the bytes after the last whole block end, where they are so many and hold no refused place.
fn open_end(has_section: bool, count: usize) -> EndState
    ensures { (section : Option Section) (held : List ℕ) → has_section ≡ is_some section → count ≡ length held
        → result ≡ open_end section held }
{
    if has_section {
        if count == 0 {
            EndState::Whole
        } else {
            EndState::Cut
        }
    } else if count < MAGIC_SIZE {
        EndState::Bad(BadCapture {
            at: 0,
            why: CaptureWhy::Magic,
        })
    } else {
        EndState::Cut
    }
}
