//! The machine that makes a C-DNS file of a capture.

ghost use Rattle.std.specs.Prelude.{◌≡◌, ℕ, ◌+◌, ◌*◌, ◌<◌, ◌≤◌, ◌^◌, false, [], ◌∷◌, ◌++◌, List, length, take, None, IfOk, OnOk};
ghost use Rattle.std.specs.Prelude.{OnErr};
ghost use Rattle.cd_hints.specs.Validity.{IsValid};
ghost use Rattle.cd_ident.specs.Events.{EventParts};
ghost use Rattle.cd_ident.specs.Keys.{parts_of};
ghost use Rattle.cd_ident.specs.declared.event_making.TheConstants.{GREATEST_WEIGHT};
ghost use Rattle.cd_packet.specs.declared.packet.Packet.{Packet};
ghost use Rattle.cd_capture.specs.Laws.{record_size};
ghost use Rattle.cd_capture.specs.Reading.{StandsFor, refusal_in, refusal_of};
ghost use Rattle.cd_engine.specs.Blocks.{BlocksStand};
ghost use Rattle.cd_engine.specs.Counting.{is_cut, reason_index, packet_counts_with, packet_counts_without};
ghost use Rattle.cd_engine.specs.Events.{rules_of};
ghost use Rattle.cd_engine.specs.Standing.{CompactorStands, HasCompacted, ReadsOn};

use crate::blocks::Blocks;
use crate::counts::{Counts, NO_PACKET_COUNTS, PacketCounts, counts_of};
use crate::event_making::{Held, held_in};
use crate::settings_copy::copy_of;
use cd_capture::CaptureReader;
use cd_drive::{Finished, Machine};
use cd_hints::Settings;
use cd_ident::{Event, EventRules, Kind};
use cd_packet::{BadCapture, EndState, FeedFault, Packet, Reason};
use std::alloc::{AllocError, Global};
use std::marker::Model;

/// Makes the C-DNS file of a capture that comes in chunks. Where a call finds no memory it is spent.
#[derive(Drop)]
pub(crate) struct Compactor {
    alloc: Global,
    rules: EventRules,
    reader: CaptureReader,
    packets: PacketCounts,
    blocks: Blocks,
}

impl Model for Compactor {
    ghost use Rattle.std.specs.Prelude.{◌≡◌, ◌*◌, ◌≤◌, ◌^◌, false};
    ghost use Rattle.cd_engine.specs.Events.{rules_of};
    ghost use Rattle.cd_engine.specs.Standing.{CompactorSeen};
    ghost use Rattle.cd_ident.specs.contracts.event.Event as event;
    ghost use Rattle.std.specs.Coded.{codes};

    ghost Value = { CompactorSeen };

    ghost coded = { Prim.hlevel (codes, event.the_row.coded) };

    ghost view = { λ c. record {
      reader = c.reader;
      packets = c.packets;
      blocks = c.blocks;
    } };

    // What was pushed weighs no more than the bytes that were read allow. What is spent keeps nothing but its bounds.
    ghost invariant = { λ c. record {
      rules : c.blocks.spent ≡ false → c.rules ≡ rules_of c.blocks.filing.settings;
      light : c.blocks.spent ≡ false → 16 * c.blocks.window.weight_sum ≤ 829 * c.reader.passed;
      few : c.reader.fed_count ≤ 2 ^ 48;
    } };
}

// The counts with one packet more, which holds an event of this kind.
fn packet_counts_with(counts: PacketCounts, kind: Kind) -> PacketCounts
    ensures { result ≡ packet_counts_with counts kind }
{
    let mut counts = counts;
    counts.packets = counts.packets.saturating_add(1);
    match kind {
        Kind::Query => counts.queries = counts.queries.saturating_add(1),
        Kind::Response => counts.responses = counts.responses.saturating_add(1),
        Kind::Malformed => counts.malformed = counts.malformed.saturating_add(1),
        Kind::Discarded => counts.discarded = counts.discarded.saturating_add(1),
    }
    counts
}

// The counts with one packet more, which is skipped for this reason.
fn packet_counts_without(counts: PacketCounts, reason: Reason) -> PacketCounts
    ensures { result ≡ packet_counts_without counts reason }
{
    let mut counts = counts;
    counts.packets = counts.packets.saturating_add(1);
    let at = reason_index(reason);
    counts.skipped[at] = counts.skipped[at].saturating_add(1);
    counts
}

// The number of a reason, in the order of the report.
fn reason_index(reason: Reason) -> usize
    ensures value { result ≡ reason_index reason }
    ensures few { result < 9 }
{
    match reason {
        Reason::Link => 0,
        Reason::Length => 1,
        Reason::NotIp => 2,
        Reason::Fragment => 3,
        Reason::NotUdp => 4,
        Reason::Port => 5,
        Reason::Cut => 6,
        Reason::Time => 7,
        Reason::NoTime => 8,
    }
}

// Whether bytes that end so end within a header, a record or a block.
fn is_cut(end: EndState) -> bool
    ensures { result ≡ is_cut end }
{
    matches!(end, EndState::Cut)
}

// The refused place of an end.
fn refusal_in(end: EndState) -> Option<BadCapture>
    ensures { result ≡ refusal_in end }
{
    match end {
        EndState::Whole => None,
        EndState::Cut => None,
        EndState::Bad(bad) => Some(bad),
    }
}

// Feeds a chunk, and gives the refused place of all bytes fed, where they have one.
fn feed_reader(reader: &mut CaptureReader, chunk: &[u8]) -> Result<Option<BadCapture>, AllocError>
    requires { reader.old.fed_count + length chunk.now ≤ 2 ^ 48 }
    ensures history { IfOk result (λ bad. (fed : List ℕ) (given : List Packet) → StandsFor reader.old fed given →
        StandsFor reader.new (fed ++ chunk.now) given × (refusal_of (fed ++ chunk.now) ≡ bad)) }
    ensures count { OnOk result (reader.new.fed_count ≡ reader.old.fed_count + length chunk.now) }
    ensures place { reader.old.passed ≤ reader.new.passed }
    ensures unchanged { OnErr result (reader.new ≡ reader.old) }
{
    match reader.feed(chunk) {
        Ok(()) => Ok(None),
        Err(FeedFault::Bad(bad)) => Ok(Some(bad)),
        Err(FeedFault::NoMemory) => Err(AllocError),
    }
}

impl Compactor {
    /// A compactor that was fed nothing, under valid settings, which are copied.
    pub(crate) fn new(alloc: Global, settings: &Settings) -> Result<Compactor, AllocError>
        requires { IsValid settings.now }
        ensures stands { IfOk result (λ c. CompactorStands c [] []) }
        ensures settings { IfOk result (λ c. c.blocks.filing.settings ≡ settings.now) }
        ensures count { IfOk result (λ c. c.reader.fed_count ≡ 0) }
    {
        let blocks = Blocks::new(alloc, copy_of(alloc, settings)?)?;
        Ok(Compactor {
            alloc,
            rules: EventRules {
                port: settings.port,
                opcodes: settings.params.opcodes,
            },
            reader: CaptureReader::new(alloc),
            packets: NO_PACKET_COUNTS,
            blocks,
        })
    }

    // Takes the event of the next packet, which weighs no more than the bytes that were read allow.
    fn take_event(&mut self, event: Event) -> Result<(), AllocError>
        requires fresh { self.old.blocks.spent ≡ false }
        requires weight { event.weight ≤ GREATEST_WEIGHT }
        requires light { 16 * (self.old.blocks.window.weight_sum + event.weight) ≤ 829 * self.old.reader.passed }
        requires few { self.old.reader.passed ≤ 2 ^ 48 }
        ensures history { OnOk result ((events : List EventParts) (cleared : List ℕ) →
            BlocksStand self.old.blocks events cleared →
            BlocksStand self.new.blocks (events ++ parts_of event ∷ []) cleared) }
        ensures packets { OnOk result (self.new.packets ≡ packet_counts_with self.old.packets event.kind) }
        ensures fresh { OnOk result (self.new.blocks.spent ≡ false) }
        ensures settings { OnOk result (self.new.blocks.filing.settings ≡ self.old.blocks.filing.settings) }
        ensures reader { OnOk result (self.new.reader ≡ self.old.reader) }
    {
        self.packets = packet_counts_with(self.packets, event.kind);
        self.blocks.push(event)
    }

    // Takes the next packet, which takes no more of the bytes than were passed.
    fn take_packet(&mut self, packet: &Packet) -> Result<(), AllocError>
        requires fresh { self.old.blocks.spent ≡ false }
        requires light { 16 * self.old.blocks.window.weight_sum + 829 * record_size packet.now
            ≤ 829 * self.old.reader.passed }
        requires few { self.old.reader.passed ≤ 2 ^ 48 }
        ensures compacts { OnOk result ((given : List Packet) (cleared : List ℕ) →
            HasCompacted (rules_of self.old.blocks.filing.settings) self.old given cleared →
            HasCompacted (rules_of self.old.blocks.filing.settings) self.new (given ++ packet.now ∷ []) cleared) }
        ensures fresh { OnOk result (self.new.blocks.spent ≡ false) }
        ensures settings { OnOk result (self.new.blocks.filing.settings ≡ self.old.blocks.filing.settings) }
        ensures reader { OnOk result (self.new.reader ≡ self.old.reader) }
    {
        let held = held_in(self.alloc, packet, &self.rules)?;
        match held {
            Held::Event(event) => {
                self.take_event(event)?;
                Ok(())
            }
            Held::Skipped(reason) => {
                self.packets = packet_counts_without(self.packets, reason);
                Ok(())
            }
        }
    }

    // Takes all packets that are there whole.
    fn take_packets(&mut self) -> Result<(), AllocError>
        requires fresh { self.old.blocks.spent ≡ false }
        ensures history { OnOk result ((fed cleared : List ℕ) →
            ReadsOn (rules_of self.old.blocks.filing.settings) self.old fed cleared →
            CompactorStands self.new fed cleared) }
        ensures settings { OnOk result (self.new.blocks.filing.settings ≡ self.old.blocks.filing.settings) }
        ensures fresh { OnOk result (self.new.blocks.spent ≡ false) }
        ensures count { OnOk result (self.new.reader.fed_count ≡ self.old.reader.fed_count) }
    {
        'packets: loop {
            let next = self.reader.next()?;
            match next {
                None => return Ok(()),
                Some(packet) => self.take_packet(&packet)?,
            }
        }
    }

    // Takes a chunk, and answers the refused place of the bytes fed.
    fn take_chunk(&mut self, chunk: &[u8]) -> Result<Option<BadCapture>, AllocError>
        requires fresh { self.old.blocks.spent ≡ false }
        requires space { self.old.reader.fed_count + length chunk.now ≤ 2 ^ 48 }
        ensures history { OnOk result ((fed cleared : List ℕ) → CompactorStands self.old fed cleared →
            CompactorStands self.new (fed ++ chunk.now) cleared) }
        ensures refusal { IfOk result (λ bad. (fed cleared : List ℕ) → CompactorStands self.old fed cleared →
            bad ≡ refusal_of (fed ++ chunk.now)) }
        ensures settings { OnOk result (self.new.blocks.filing.settings ≡ self.old.blocks.filing.settings) }
        ensures count { OnOk result (self.new.reader.fed_count ≡ self.old.reader.fed_count + length chunk.now) }
    {
        let bad = feed_reader(&mut self.reader, chunk)?;
        self.take_packets()?;
        Ok(bad)
    }
}

impl Machine for Compactor {
    ghost use Rattle.std.specs.Prelude.{◌-◌, ◌^◌};
    ghost use Rattle.cd_engine.specs.Behaving.{compacting};
    ghost use Rattle.cd_engine.specs.Lawful.{compacting_lawful};
    ghost use Rattle.cd_engine.specs.Standing.{CompactorStands};

    type Refusal = BadCapture;

    type Counts = Counts;

    ghost means = { λ c. compacting c.blocks.filing.settings };

    ghost stands = { CompactorStands };

    ghost space = { λ c. 2 ^ 48 - c.reader.fed_count };

    fn feed(&mut self, chunk: &[u8]) -> Result<Option<BadCapture>, AllocError> {
        if self.blocks.is_spent() {
            return Err(AllocError);
        }
        match self.take_chunk(chunk) {
            Ok(bad) => Ok(bad),
            Err(AllocError) => {
                self.blocks.spend();
                Err(AllocError)
            }
        }
    }

    fn at_end(&self) -> Option<BadCapture> {
        refusal_in(self.reader.end())
    }

    fn output(&self) -> &[u8] {
        if self.blocks.is_spent() {
            return &[];
        }
        self.blocks.output()
    }

    fn clear_output(&mut self) {
        if self.blocks.is_spent() {
            return;
        }
        self.blocks.clear_output();
    }

    fn finish(self) -> Result<Finished<Counts>, AllocError> {
        if self.blocks.is_spent() {
            return Err(AllocError);
        }
        let cut = is_cut(self.reader.end());
        let filed = self.blocks.finish()?;
        Ok(Finished {
            output: filed.output,
            counts: counts_of(self.packets, filed.counts, filed.blocks, cut),
        })
    }

    ghost lawful = { λ c. compacting_lawful c.blocks.filing.settings };
}
