//! A reader of a pcap capture that comes in chunks.

ghost use Rattle.std.specs.Prelude.{◌≡◌, ℕ, ◌+◌, ◌≤◌, ◌^◌, [], ◌++◌, List, length, take, drop, Some, None, IsSome};
ghost use Rattle.std.specs.Prelude.{OnOk, OnErr};

use crate::form::Form;
use crate::record::{HEADER, Header, header_of, open_end, packet_of, record_size, whole_records};
use cd_bytes::Order;
use cd_packet::{BadCapture, EndState, FeedFault, Packet};
use std::alloc::{AllocError, Global};
use std::marker::Model;

// As many read bytes may stay in memory.
const MOST_READ: usize = 65_536;

/// Reads a pcap capture that comes in chunks, in the form that its magic tells (the pcap draft, 4 and 5).
#[derive(Drop)]
pub struct PcapReader {
    alloc: Global,
    fed_count: u64,
    // Bytes that were fed, of which those before `start` are read.
    bytes: Vec<u8>,
    start: usize,
    // The offset in the capture of the first byte that is not read.
    at: u64,
    // So many bytes from `start` on are whole records.
    whole: usize,
    // The form, once the header is read. Before that it is used for nothing.
    form: Form,
    // The link type, once the header is read.
    link: Option<u16>,
    // The refused place, once it came. From there on no byte is kept.
    refused: Option<BadCapture>,
}

impl Model for PcapReader {
    ghost use Rattle.cd_pcap.specs.Reading.{Kept, AreWhole};
    ghost use Rattle.std.specs.Prelude.{◌+◌, ◌-◌, ◌≤◌, ◌^◌, take, drop, length};

    ghost Value = { Kept };

    ghost view = { λ r. record {
      form = r.form;
      fed_count = r.fed_count;
      held = drop r.start r.bytes.items;
      at = r.at;
      whole = r.whole;
      link = r.link;
      refused = r.refused;
    } };

    ghost invariant = { λ r. record {
      within : r.start + r.whole ≤ length r.bytes.items;
      counted : r.at + (length r.bytes.items - r.start) ≤ r.fed_count;
      few : r.fed_count ≤ 2 ^ 48;
      marked : AreWhole r.form r.link r.at (take r.whole (drop r.start r.bytes.items));
    } };
}

impl PcapReader {
    ghost use Rattle.cd_pcap.specs.Pcap.{pcap};
    ghost use Rattle.cd_packet.specs.declared.packet.Packet.{Packet};
    ghost use Rattle.cd_pcap.specs.Reading.{Kept, HasRead, StandsFor};
    ghost use Rattle.cd_pcap.specs.Giving.{Feeds, RefusesAgain, Counts, Gives, Shrinks, Moves};

    /// A reader that was fed nothing.
    pub fn new(alloc: Global) -> PcapReader
        ensures history { StandsFor result [] [] }
        ensures count { result.fed_count ≡ 0 }
    {
        PcapReader {
            alloc,
            fed_count: 0,
            bytes: Vec::new(alloc),
            start: 0,
            at: 0,
            whole: 0,
            form: Form {
                order: Order::Little,
                unit: 1000,
            },
            link: None,
            refused: None,
        }
    }

    // Lets the bytes go that are read, once they are many and more than the others.
    fn drop_read(&mut self)
        ensures { self.new ≡ self.old }
    {
        if self.start > MOST_READ && self.start > self.bytes.len() / 2 {
            let left = self.bytes.len() - self.start;
            self.bytes.copy_within(self.start.., 0);
            self.bytes.truncate(left);
            self.start = 0;
        }
    }

    // Holds a chunk after the other bytes. An `Err` says that no memory was found.
    fn hold(&mut self, chunk: &[u8]) -> Result<(), AllocError>
        requires { self.old.fed_count + length chunk.now ≤ 2 ^ 48 }
        ensures ok { OnOk result (self.new ≡ record self.old {
          fed_count = self.old.fed_count + length chunk.now;
          held = self.old.held ++ chunk.now;
        }) }
        ensures err { OnErr result (self.new ≡ self.old) }
    {
        self.drop_read();
        self.bytes.extend_from_slice(chunk)?;
        self.fed_count += chunk.len() as u64;
        Ok(())
    }

    // Remembers a refused place at the mark, and lets the bytes go from there on.
    fn refuse(&mut self, bad: BadCapture)
        ensures { self.new ≡ record self.old { held = take self.old.whole self.old.held; refused = Some bad } }
    {
        self.bytes.truncate(self.start + self.whole);
        self.refused = Some(bad);
    }

    // Reads the header that is held, in this form and of this link type.
    fn pass_header(&mut self, form: Form, link: u16)
        requires none { self.old.link ≡ None }
        requires long { 24 ≤ length self.old.held }
        ensures { self.new ≡ record self.old {
          form = form;
          held = drop 24 self.old.held;
          at = 24;
          link = Some link;
        } }
    {
        self.start += HEADER;
        self.at += HEADER as u64;
        self.form = form;
        self.link = Some(link);
    }

    // Moves the mark after the whole records that are held after the header, up to a refused place.
    fn mark_records(&mut self)
        requires header { IsSome self.old.link }
        requires sound { self.old.refused ≡ None }
        ensures history { (fed : List ℕ) (given : List Packet) → HasRead self.old fed [] given →
            StandsFor self.new fed given }
        ensures count { self.new.fed_count ≡ self.old.fed_count }
        ensures place { self.new.at ≡ self.old.at }
    {
        let mark = self.start + self.whole;
        let records = whole_records(self.form, self.at + self.whole as u64, &self.bytes[mark..]);
        self.whole += records.size;
        match records.refused {
            None => {}
            Some(bad) => self.refuse(bad),
        }
    }

    // Moves the mark over all that is held: the header, and whole records, up to a refused place.
    fn move_mark(&mut self)
        requires { self.old.refused ≡ None }
        ensures history { (fed : List ℕ) (given : List Packet) → HasRead self.old fed [] given →
            StandsFor self.new fed given }
        ensures count { self.new.fed_count ≡ self.old.fed_count }
        ensures place { self.old.at ≤ self.new.at }
    {
        match self.link {
            Some(_) => self.mark_records(),
            None => match header_of(&self.bytes[self.start..]) {
                Header::Open => {}
                Header::Refused(bad) => self.refuse(bad),
                Header::Read(form, link) => {
                    self.pass_header(form, link);
                    self.mark_records();
                }
            },
        }
    }

    /// Takes the next chunk of the capture, of which all chunks have at most 2^48 bytes. `Bad` says that the bytes fed
    /// hold this refused place: each later call says so again, and `next` still gives the packets before it. `NoMemory`
    /// says that nothing changed, and the call can be made again.
    pub fn feed(&mut self, chunk: &[u8]) -> Result<(), FeedFault>
        requires { self.old.fed_count + length chunk.now ≤ 2 ^ 48 }
        ensures history { (fed : List ℕ) (given : List Packet) → StandsFor self.old fed given
            → Feeds self.new (fed ++ chunk.now) given result }
        ensures again { RefusesAgain self.old result }
        ensures count { Counts self.old self.new (length chunk.now) result }
        ensures place { self.old.at ≤ self.new.at }
    {
        if let Some(bad) = self.refused {
            self.fed_count += chunk.len() as u64;
            return Err(FeedFault::Bad(bad));
        }
        match self.hold(chunk) {
            Err(AllocError) => return Err(FeedFault::NoMemory),
            Ok(()) => {}
        }
        self.move_mark();
        match self.refused {
            None => Ok(()),
            Some(bad) => Err(FeedFault::Bad(bad)),
        }
    }

    /// The next packet, where the bytes fed hold one more before a refused place. For want of memory nothing changes,
    /// and the call can be made again.
    pub fn next(&mut self) -> Result<Option<Packet>, AllocError>
        ensures history { (fed : List ℕ) (given : List Packet) → StandsFor self.old fed given
            → Gives self.new fed given result }
        ensures unchanged { OnErr result (self.new ≡ self.old) }
        ensures count { self.new.fed_count ≡ self.old.fed_count }
        ensures shrinks { Shrinks self.old self.new result }
        ensures moves { Moves self.old self.new result }
    {
        let link = match self.link {
            None => return Ok(None),
            Some(link) => link,
        };
        if self.whole == 0 {
            return Ok(None);
        }
        let held = &self.bytes[self.start..];
        let packet = packet_of(self.alloc, self.form, link, self.at, held)?;
        let size = record_size(self.form, held);
        self.start += size;
        self.at += size as u64;
        self.whole -= size;
        Ok(Some(packet))
    }

    /// How the bytes fed end. Fewer than four are no capture.
    pub fn end(&self) -> EndState
        ensures { (fed : List ℕ) (given : List Packet) → StandsFor self.now fed given
            → result ≡ (pcap fed).end }
    {
        match self.refused {
            Some(bad) => EndState::Bad(bad),
            None => open_end(self.link, &self.bytes[self.start + self.whole..]),
        }
    }
}
