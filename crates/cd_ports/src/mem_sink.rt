ghost use Rattle.std.specs.Prelude.{◌≡◌, ◌||◌, ◌++◌, take, is_err};
ghost use Rattle.cd_ports.specs.Counter.{next_count};

use crate::{Sink, SinkFault};
use cd_name::List;
use std::alloc::Global;

/// A sink in memory. The calls of `write` whose numbers, from 0, stand in a list fail. Any call may find no memory, and then
/// appends nothing.
#[derive(Drop)]
pub struct MemSink {
    held: Vec<u8>,
    fails: List<u64>,
    keep: usize,
    calls: u64,
    faults: u64,
    failed: bool,
    refused: bool,
}

impl MemSink {
    ghost use Rattle.cd_ports.specs.Memory.{mem_sink, fresh_sink, mem_sink_held, mem_sink_calls, mem_sink_fails, mem_sink_keep};

    /// A sink that holds nothing. A call that fails appends the first `keep` bytes of its piece, or all of a shorter one.
    pub fn new(alloc: Global, fails: List<u64>, keep: usize) -> MemSink
        ensures meaning { mem_sink result ≡ fresh_sink }
        ensures calls { mem_sink_calls result ≡ 0 }
        ensures fails { mem_sink_fails result ≡ fails }
        ensures keep { mem_sink_keep result ≡ keep }
    {
        MemSink {
            held: Vec::new(alloc),
            fails,
            keep,
            calls: 0,
            faults: 0,
            failed: false,
            refused: false,
        }
    }

    /// What it holds.
    pub fn contents(&self) -> &[u8]
        ensures { result.now ≡ mem_sink_held self.now }
    {
        self.held.as_slice()
    }
}

impl Sink for MemSink {
    ghost use Rattle.cd_ports.specs.Memory.{mem_sink, mem_sink_calls, mem_sink_fails, mem_sink_keep, WritesAsListed};
    ghost use Rattle.cd_ports.specs.Writing.{WriteStep};

    ghost means = { mem_sink };

    fn write(&mut self, piece: &[u8]) -> Result<(), SinkFault>
        ensures step { WriteStep (mem_sink self.old) (mem_sink self.new) result piece.now }
        ensures listed { WritesAsListed self.old self.new piece.now result }
        ensures calls { mem_sink_calls self.new ≡ next_count (mem_sink_calls self.old) }
        ensures list { mem_sink_fails self.new ≡ mem_sink_fails self.old }
        ensures keep { mem_sink_keep self.new ≡ mem_sink_keep self.old }
    {
        let call = self.calls;
        self.calls = call.saturating_add(1);
        let fails = self.fails.as_slice().contains(&call);
        let count = if fails {
            self.keep.min(piece.len())
        } else {
            piece.len()
        };
        if self.held.extend_from_slice(&piece[..count]).is_err() {
            self.refused = true;
            return Err(SinkFault::NoMemory);
        }
        if fails {
            self.faults = self.faults.saturating_add(1);
            self.failed = true;
            self.refused = true;
            return Err(SinkFault::Failed);
        }
        Ok(())
    }
}
