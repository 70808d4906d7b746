//! What is known of the format of a capture, and the reader of it.

ghost use Rattle.std.specs.Prelude.{◌≡◌, ℕ, ◌+◌, ◌<◌, ◌≤◌, ◌^◌, [], ◌++◌, List, length, IfOk, OnErr};
ghost use Rattle.cd_packet.specs.declared.packet.Packet.{Packet};
ghost use Rattle.cd_capture.specs.Formats.{capture};
ghost use Rattle.cd_capture.specs.Giving.{Feeds, RefusesAgain, Counts, Gives, Moves, AnswersFor};
ghost use Rattle.cd_capture.specs.Reading.{kept_at, fed_count_of, passed_of, HasRoom, StageStands};

use crate::beginning::{begins_section, pcap_begun, pcapng_begun};
use arrayvec::ArrayVec;
use cd_packet::{BadCapture, CaptureWhy, EndState, FeedFault, Packet};
use cd_pcap::PcapReader;
use cd_pcapng::PcapngReader;
use std::alloc::{AllocError, Global};

/// What is known of the format of a capture, and the reader of it.
#[derive(Drop)]
pub enum Stage {
    /// Fewer than four bytes came: these.
    Undecided(ArrayVec<u8, 3>),
    /// All bytes are fed to this reader, as they begin with no section header.
    Pcap(PcapReader),
    /// All bytes are fed to this reader, as they begin with a section header.
    Pcapng(PcapngReader),
}

// The reader of the format of these first bytes and then these others, which it was fed.
fn begun(alloc: Global, first: &[u8], piece: &[u8]) -> Result<Stage, AllocError>
    requires few { length first.now < 4 }
    requires many { 4 ≤ length first.now + length piece.now }
    requires space { length first.now + length piece.now ≤ 2 ^ 48 }
    ensures history { IfOk result (λ s. StageStands s (first.now ++ piece.now) []) }
    ensures count { IfOk result (λ s. fed_count_of s ≡ length first.now + length piece.now) }
    ensures room { IfOk result HasRoom }
{
    if begins_section(first, piece) {
        Ok(Stage::Pcapng(pcapng_begun(alloc, first, piece)?))
    } else {
        Ok(Stage::Pcap(pcap_begun(alloc, first, piece)?))
    }
}

// What `feed` answers where the bytes fed end so.
fn answer_for(end: EndState) -> Result<(), FeedFault>
    ensures { AnswersFor end result }
{
    match end {
        EndState::Whole => Ok(()),
        EndState::Cut => Ok(()),
        EndState::Bad(bad) => Err(FeedFault::Bad(bad)),
    }
}

impl Stage {
    /// Takes the next chunk, as `CaptureReader::feed` does.
    pub fn feed(&mut self, alloc: Global, chunk: &[u8]) -> Result<(), FeedFault>
        requires few { fed_count_of self.old + length chunk.now ≤ 2 ^ 48 }
        requires room { HasRoom self.old }
        ensures history { (fed : List ℕ) (given : List Packet) → StageStands self.old fed given
            → Feeds (kept_at self.new) (fed ++ chunk.now) given result }
        ensures again { RefusesAgain (kept_at self.old) result }
        ensures count { Counts (kept_at self.old) (kept_at self.new) (length chunk.now) result }
        ensures place { passed_of self.old ≤ passed_of self.new }
        ensures room { HasRoom self.new }
    {
        match self {
            Stage::Pcap(reader) => reader.feed(chunk),
            Stage::Pcapng(reader) => reader.feed(chunk),
            Stage::Undecided(first) => {
                match first.try_extend_from_slice(chunk) {
                    Ok(()) => return Ok(()),
                    Err(_full) => {}
                }
                match begun(alloc, first, chunk) {
                    Err(AllocError) => Err(FeedFault::NoMemory),
                    Ok(stage) => {
                        let answer = answer_for(stage.end());
                        *self = stage;
                        answer
                    }
                }
            }
        }
    }

    /// The next packet, as `CaptureReader::next` gives it.
    pub fn next(&mut self) -> Result<Option<Packet>, AllocError>
        requires { HasRoom self.old }
        ensures history { (fed : List ℕ) (given : List Packet) → StageStands self.old fed given
            → Gives (kept_at self.new) fed given result }
        ensures unchanged { OnErr result (self.new ≡ self.old) }
        ensures count { fed_count_of self.new ≡ fed_count_of self.old }
        ensures moves { Moves (kept_at self.old) (kept_at self.new) result }
        ensures room { HasRoom self.new }
    {
        match self {
            Stage::Undecided(_) => Ok(None),
            Stage::Pcap(reader) => reader.next(),
            Stage::Pcapng(reader) => reader.next(),
        }
    }

    /// How the bytes fed end. Fewer than four are no capture.
    pub fn end(&self) -> EndState
        ensures { (fed : List ℕ) (given : List Packet) → StageStands self.now fed given
            → result ≡ (capture fed).end }
    {
        match self {
            Stage::Undecided(_) => EndState::Bad(BadCapture {
                at: 0,
                why: CaptureWhy::Magic,
            }),
            Stage::Pcap(reader) => reader.end(),
            Stage::Pcapng(reader) => reader.end(),
        }
    }
}
