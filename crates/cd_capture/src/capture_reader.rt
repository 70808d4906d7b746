//! A reader of a capture of either format that comes in chunks.

ghost use Rattle.std.specs.Prelude.{◌≡◌, ℕ, ◌+◌, ◌≤◌, ◌^◌, [], ◌++◌, List, length, OnErr};

use crate::stage::Stage;
use arrayvec::ArrayVec;
use cd_packet::{EndState, FeedFault, Packet};
use std::alloc::{AllocError, Global};
use std::marker::Model;

/// Reads a capture that comes in chunks, of the format that its first four bytes tell: pcap or pcapng.
#[derive(Drop)]
pub struct CaptureReader {
    alloc: Global,
    stage: Stage,
}

impl Model for CaptureReader {
    ghost use Rattle.cd_capture.specs.Reading.{Kept, kept_at, HasRoom};

    ghost Value = { Kept };

    ghost view = { λ r. kept_at r.stage };

    ghost invariant = { λ r. HasRoom r.stage };
}

impl CaptureReader {
    ghost use Rattle.cd_packet.specs.declared.packet.Packet.{Packet};
    ghost use Rattle.cd_capture.specs.Formats.{capture};
    ghost use Rattle.cd_capture.specs.Giving.{Feeds, RefusesAgain, Counts, Gives, Moves};
    ghost use Rattle.cd_capture.specs.Reading.{StandsFor};

    /// A reader that was fed nothing.
    pub fn new(alloc: Global) -> CaptureReader
        ensures history { StandsFor result [] [] }
        ensures count { result.fed_count ≡ 0 }
        ensures place { result.passed ≡ 0 }
    {
        CaptureReader {
            alloc,
            stage: Stage::Undecided(ArrayVec::new()),
        }
    }

    /// Takes the next chunk of the capture, of which all chunks have at most 2^48 bytes. `Bad` says that the bytes fed
    /// hold this refused place: each later call says so again, and `next` still gives the packets before it. `NoMemory`
    /// says that nothing changed, and the call can be made again. Of fewer than four bytes in all, `end` alone says
    /// that they are no capture.
    pub fn feed(&mut self, chunk: &[u8]) -> Result<(), FeedFault>
        requires { self.old.fed_count + length chunk.now ≤ 2 ^ 48 }
        ensures history { (fed : List ℕ) (given : List Packet) → StandsFor self.old fed given
            → Feeds self.new (fed ++ chunk.now) given result }
        ensures again { RefusesAgain self.old result }
        ensures count { Counts self.old self.new (length chunk.now) result }
        ensures place { self.old.passed ≤ self.new.passed }
    {
        self.stage.feed(self.alloc, chunk)
    }

    /// The next packet, where the bytes fed hold one more before a refused place. For want of memory nothing changes,
    /// and the call can be made again.
    pub fn next(&mut self) -> Result<Option<Packet>, AllocError>
        ensures history { (fed : List ℕ) (given : List Packet) → StandsFor self.old fed given
            → Gives self.new fed given result }
        ensures unchanged { OnErr result (self.new ≡ self.old) }
        ensures count { self.new.fed_count ≡ self.old.fed_count }
        ensures moves { Moves self.old self.new result }
    {
        self.stage.next()
    }

    /// How the bytes fed end. Fewer than four are no capture.
    pub fn end(&self) -> EndState
        ensures { (fed : List ℕ) (given : List Packet) → StandsFor self.now fed given
            → result ≡ (capture fed).end }
    {
        self.stage.end()
    }
}
