//! What is found in the whole blocks of a capture.

ghost use Rattle.std.specs.Prelude.{◌≡◌, ℕ, ◌+◌, ◌-◌, ◌≤◌, ◌^◌, [], ◌∷◌, ◌++◌, length, take, drop, Some, None, is_some};
ghost use Rattle.std.specs.Prelude.{OnOk, OnErr, IfOk, MatchOption};

use crate::block::front_of;
use crate::front::{Content, Front, WholeBlocks};
use crate::interface::Interface;
use crate::packet_place::PacketPlace;
use cd_bytes::Order;
use cd_packet::{CaptureWhy, has_magic};
use std::alloc::{AllocError, Global};
use std::collections::VecDeque;
use std::marker::Model;

// As many bytes tell whether a capture is a pcapng capture.
const MAGIC_SIZE: usize = 4;

// The first four bytes of a capture: the type of a section header.
const MAGIC: u32 = 0x0a0d_0d0a;

/// What was found in the whole blocks of a capture, and is still wanted.
#[derive(Drop)]
pub struct Found {
    // The packets that are not given.
    ready: VecDeque<PacketPlace>,
    // The interfaces of the sections, of which those from `first` on are of the present one.
    interfaces: Vec<Interface>,
    first: usize,
    // The order of the present section, once one began.
    order: Option<Order>,
}

impl Model for Found {
    ghost use Rattle.std.specs.Prelude.{◌≤◌, length};
    ghost use Rattle.cd_pcapng.specs.Founds.{FoundSeen};

    ghost Value = { FoundSeen };

    ghost view = { λ f. record {
      ready = f.ready.items;
      interfaces = f.interfaces.items;
      first = f.first;
      order = f.order;
    } };

    ghost invariant = { λ f. f.first ≤ length f.interfaces.items };
}

// How much was found at some time.
#[derive(Clone, Copy)]
struct Amount {
    ready: usize,
    interfaces: usize,
    first: usize,
    order: Option<Order>,
}

impl Found {
    ghost use Rattle.cd_pcapng.specs.Founds.{FoundSeen, BeginsWith, added, FindsAll, Keeps};

    /// Nothing was found yet.
    pub fn new(alloc: Global) -> Found
        ensures { result ≡ record { ready = []; interfaces = []; first = 0; order = None } }
    {
        Found {
            ready: VecDeque::new(alloc),
            interfaces: Vec::new(alloc),
            first: 0,
            order: None,
        }
    }

    /// Whether a section began.
    pub fn has_section(&self) -> bool
        ensures { result ≡ is_some self.now.order }
    {
        self.order.is_some()
    }

    /// The first packet that is not given.
    pub fn first_ready(&self) -> Option<PacketPlace>
        ensures { MatchOption result (self.now.ready ≡ []) (λ p. self.now.ready ≡ p ∷ drop 1 self.now.ready) }
    {
        self.ready.front().copied()
    }

    /// The first packet is given.
    pub fn give(&mut self)
        ensures { self.new ≡ record self.old { ready = drop 1 self.old.ready } }
    {
        let _ = self.ready.pop_front();
    }

    /// Lets the interfaces of earlier sections go.
    pub fn forget_sections(&mut self)
        ensures { self.new ≡ record self.old { interfaces = drop self.old.first self.old.interfaces; first = 0 } }
    {
        if self.first > 0 {
            let left = self.interfaces.len() - self.first;
            self.interfaces.copy_within(self.first.., 0);
            self.interfaces.truncate(left);
            self.first = 0;
        }
    }

    // How much is found.
    fn amount(&self) -> Amount
        ensures seen { result ≡ record {
          ready = length self.now.ready;
          interfaces = length self.now.interfaces;
          first = self.now.first;
          order = self.now.order;
        } }
        ensures sound { result.first ≤ result.interfaces }
    {
        Amount {
            ready: self.ready.len(),
            interfaces: self.interfaces.len(),
            first: self.first,
            order: self.order,
        }
    }

    // Goes back to what was found before.
    fn go_back(&mut self, amount: Amount)
        requires ready { amount.ready ≤ length self.old.ready }
        requires interfaces { amount.interfaces ≤ length self.old.interfaces }
        requires first { amount.first ≤ amount.interfaces }
        ensures { self.new ≡ record {
          ready = take amount.ready self.old.ready;
          interfaces = take amount.interfaces self.old.interfaces;
          first = amount.first;
          order = amount.order;
        } }
    {
        self.ready.truncate(amount.ready);
        self.interfaces.truncate(amount.interfaces);
        self.first = amount.first;
        self.order = amount.order;
    }

    // What stands at the front of these bytes, which stand at this offset. A capture begins with a section header.
    fn front(&self, at: u64, bytes: &[u8]) -> Front
        requires few { at + length bytes.now ≤ 2 ^ 48 }
        requires start { self.now.order ≡ None → at ≡ 0 }
        ensures { BeginsWith self.now at bytes.now result }
    {
        match self.order {
            Some(order) => front_of(order, &self.interfaces[self.first..], at, bytes),
            None => {
                if bytes.len() < MAGIC_SIZE {
                    return Front::Cut;
                }
                if !has_magic(bytes, MAGIC) {
                    return Front::Refused(CaptureWhy::Magic);
                }
                front_of(Order::Little, &[], at, bytes)
            }
        }
    }

    // Adds what a block holds.
    fn add(&mut self, content: Content) -> Result<(), AllocError>
        ensures ok { OnOk result (self.new ≡ added self.old content) }
        ensures err { OnErr result (self.new ≡ self.old) }
    {
        match content {
            Content::Section(order) => {
                self.order = Some(order);
                self.first = self.interfaces.len();
                Ok(())
            }
            Content::Interface(interface) => {
                self.interfaces.push(interface)?;
                Ok(())
            }
            Content::Packet(place) => {
                self.ready.push_back(place)?;
                Ok(())
            }
            Content::Other => Ok(()),
        }
    }

    // Reads all whole blocks of these bytes, which stand at this offset.
    fn read_whole(&mut self, at: u64, bytes: &[u8]) -> Result<WholeBlocks, AllocError>
        requires few { at + length bytes.now ≤ 2 ^ 48 }
        requires start { self.old.order ≡ None → at ≡ 0 }
        ensures ok { IfOk result (λ b. FindsAll self.old self.new at bytes.now b) }
        ensures kept { Keeps self.old self.new }
    {
        let mut size = 0;
        'reading: loop {
            match self.front(at + size as u64, &bytes[size..]) {
                Front::Cut => return Ok(WholeBlocks {
                    size,
                    refused: None,
                }),
                Front::Refused(why) => return Ok(WholeBlocks {
                    size,
                    refused: Some(why),
                }),
                Front::Block(more, content) => {
                    self.add(content)?;
                    size += more;
                }
            }
        }
    }

    /// Reads all whole blocks of these bytes, which stand at this offset. For want of memory nothing changes.
    pub fn read(&mut self, at: u64, bytes: &[u8]) -> Result<WholeBlocks, AllocError>
        requires few { at + length bytes.now ≤ 2 ^ 48 }
        requires start { self.old.order ≡ None → at ≡ 0 }
        ensures ok { IfOk result (λ b. FindsAll self.old self.new at bytes.now b) }
        ensures err { OnErr result (self.new ≡ self.old) }
    {
        let before = self.amount();
        match self.read_whole(at, bytes) {
            Ok(blocks) => Ok(blocks),
            Err(AllocError) => {
                self.go_back(before);
                Err(AllocError)
            }
        }
    }
}
