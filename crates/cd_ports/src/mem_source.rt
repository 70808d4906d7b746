ghost use Rattle.std.specs.Prelude.{◌≡◌, ◌≤◌, ◌==◌, ◌&&◌, ◌||◌, Bool, true, false, Some, take, drop, ◌++◌, length, min, is_err, IfOk, List};
ghost use Rattle.std.specs.Io.{ReadsAtMost};
ghost use Rattle.std.specs.Io.KnownBytes.{ReadConsumes};
ghost use Rattle.cd_ports.specs.Counter.{next_count};
ghost use Rattle.cd_ports.specs.Reading.{SourceMeaning, HasCause, tells_end, gives_byte};

use crate::copying::give_front;
use crate::{Failed, Source};
use cd_name::{Blob, List};

/// Bytes in memory. The calls of `read` whose numbers, from 0, stand in a list fail, and no other. A call that fails gives
/// nothing, and the next one goes on where the last one ended.
#[derive(Drop)]
pub struct MemSource {
    bytes: Blob,
    fails: List<u64>,
    at: usize,
    calls: u64,
    faults: u64,
    ended: bool,
    failed: bool,
    late: bool,
    ghost within: { at ≤ length bytes },
}

impl MemSource {
    ghost use Rattle.cd_ports.specs.Memory.{mem_source, mem_source_fails, fresh_source};

    /// A source of these bytes, whose calls of these numbers fail.
    pub fn new(bytes: Blob, fails: List<u64>) -> MemSource
        ensures meaning { mem_source result ≡ fresh_source bytes }
        ensures fails { mem_source_fails result ≡ fails }
    {
        MemSource {
            bytes,
            fails,
            at: 0,
            calls: 0,
            faults: 0,
            ended: false,
            failed: false,
            late: false,
        }
    }
}

impl Source for MemSource {
    ghost use Rattle.cd_ports.specs.Memory.{mem_source, mem_source_fails, FailsAsListed, CountsFaults, GivesAsManyAsFit};

    ghost means = { mem_source };

    #[tactic(auto, using(crate::proofs::Giving::gave))]
    fn read(&mut self, buf: &mut [u8]) -> Result<usize, Failed>
        ensures bound { ReadsAtMost result buf.new }
        ensures bytes { ReadConsumes (mem_source self.old).left (mem_source self.new).left result buf.new }
        ensures cause { HasCause (mem_source self.old).faults (mem_source self.new).faults result }
        ensures ended { (mem_source self.new).ended ≡ tells_end result buf.new }
        ensures failed { (mem_source self.new).failed ≡ ((mem_source self.old).failed || is_err result) }
        ensures calls { (mem_source self.new).calls ≡ next_count (mem_source self.old).calls }
        ensures late { (mem_source self.new).late
            ≡ ((mem_source self.old).late || ((mem_source self.old).failed && gives_byte result)) }
        ensures listed { FailsAsListed self.old result }
        ensures counted { CountsFaults self.old self.new result }
        ensures much { GivesAsManyAsFit self.old result buf.new }
        ensures list { mem_source_fails self.new ≡ mem_source_fails self.old }
    {
        let call = self.calls;
        self.calls = call.saturating_add(1);
        if self.fails.as_slice().contains(&call) {
            self.faults = self.faults.saturating_add(1);
            self.failed = true;
            self.ended = false;
            return Err(Failed);
        }
        let count = give_front(&self.bytes.as_slice()[self.at..], buf.len(), buf);
        self.at += count;
        self.ended = count == 0 && 0 < buf.len();
        self.late = self.late || (self.failed && 0 < count);
        Ok(count)
    }
}
