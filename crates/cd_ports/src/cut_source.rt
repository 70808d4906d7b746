ghost use Rattle.std.specs.Prelude.{◌≡◌, ◌≤◌, ◌==◌, ◌&&◌, ◌||◌, Bool, true, false, Some, take, drop, ◌++◌, length, min, is_err, IfOk, List};
ghost use Rattle.std.specs.Io.{ReadsAtMost};
ghost use Rattle.std.specs.Io.KnownBytes.{ReadConsumes};
ghost use Rattle.cd_ports.specs.Counter.{next_count};
ghost use Rattle.cd_ports.specs.Reading.{SourceMeaning, HasCause, tells_end, gives_byte};

use crate::copying::give_front;
use crate::{Failed, Source};
use cd_name::{Blob, List};

/// Bytes in memory that come in chunks of listed sizes, and never fail to come.
///
/// Call `k`, from 0, gives at most `sizes[k]` bytes, where a size of 0 stands for 1. After the list only the buffer limits.
#[derive(Drop)]
pub struct CutSource {
    bytes: Blob,
    sizes: List<usize>,
    at: usize,
    calls: u64,
    ended: bool,
    ghost within: { at ≤ length bytes },
}

impl CutSource {
    ghost use Rattle.cd_ports.specs.Memory.{cut_source, cut_source_sizes, cut_room, fresh_source};

    /// A source of these bytes, in chunks of these sizes.
    pub fn new(bytes: Blob, sizes: List<usize>) -> CutSource
        ensures meaning { cut_source result ≡ fresh_source bytes }
        ensures sizes { cut_source_sizes result ≡ sizes }
    {
        CutSource {
            bytes,
            sizes,
            at: 0,
            calls: 0,
            ended: false,
        }
    }

    // How many bytes the next call gives at most, for a buffer of this length.
    fn room(&self, buffer: usize) -> usize
        ensures { result ≡ cut_room self.now buffer }
    {
        match self.sizes.as_slice().get(self.calls as usize) {
            None => buffer,
            Some(&size) => size.max(1),
        }
    }
}

impl Source for CutSource {
    ghost use Rattle.cd_ports.specs.Memory.{cut_source, cut_source_sizes, GivesChunk};

    ghost means = { cut_source };

    #[tactic(auto, using(crate::proofs::Giving::gave))]
    fn read(&mut self, buf: &mut [u8]) -> Result<usize, Failed>
        ensures bound { ReadsAtMost result buf.new }
        ensures bytes { ReadConsumes (cut_source self.old).left (cut_source self.new).left result buf.new }
        ensures cause { HasCause (cut_source self.old).faults (cut_source self.new).faults result }
        ensures ended { (cut_source self.new).ended ≡ tells_end result buf.new }
        ensures failed { (cut_source self.new).failed ≡ ((cut_source self.old).failed || is_err result) }
        ensures calls { (cut_source self.new).calls ≡ next_count (cut_source self.old).calls }
        ensures late { (cut_source self.new).late
            ≡ ((cut_source self.old).late || ((cut_source self.old).failed && gives_byte result)) }
        ensures chunk { GivesChunk self.old result buf.new }
        ensures sizes { cut_source_sizes self.new ≡ cut_source_sizes self.old }
    {
        let room = self.room(buf.len());
        let count = give_front(&self.bytes.as_slice()[self.at..], room, buf);
        self.calls = self.calls.saturating_add(1);
        self.at += count;
        self.ended = count == 0 && 0 < buf.len();
        Ok(count)
    }
}
