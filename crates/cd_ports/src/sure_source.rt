ghost use Rattle.std.specs.Prelude.{◌≡◌, ◌≤◌, ◌==◌, ◌&&◌, ◌||◌, Bool, true, false, Some, take, drop, ◌++◌, length, min, is_err, IfOk, List};
ghost use Rattle.std.specs.Io.{ReadsAtMost};
ghost use Rattle.std.specs.Io.KnownBytes.{ReadConsumes};
ghost use Rattle.cd_ports.specs.Counter.{next_count};
ghost use Rattle.cd_ports.specs.Reading.{SourceMeaning, HasCause, tells_end, gives_byte};

use crate::copying::give_front;
use crate::{Failed, Source};
use cd_name::Blob;

/// Bytes in memory that never fail to come.
#[derive(Drop)]
pub struct SureSource {
    bytes: Blob,
    at: usize,
    calls: u64,
    ended: bool,
    ghost within: { at ≤ length bytes },
}

impl SureSource {
    ghost use Rattle.cd_ports.specs.Memory.{sure_source, fresh_source};

    /// A source of these bytes.
    pub fn new(bytes: Blob) -> SureSource
        ensures { sure_source result ≡ fresh_source bytes }
    {
        SureSource {
            bytes,
            at: 0,
            calls: 0,
            ended: false,
        }
    }
}

impl Source for SureSource {
    ghost use Rattle.cd_ports.specs.Memory.{sure_source, SureGivesAsManyAsFit};

    ghost means = { sure_source };

    #[tactic(auto, using(crate::proofs::Giving::gave))]
    fn read(&mut self, buf: &mut [u8]) -> Result<usize, Failed>
        ensures bound { ReadsAtMost result buf.new }
        ensures bytes { ReadConsumes (sure_source self.old).left (sure_source self.new).left result buf.new }
        ensures cause { HasCause (sure_source self.old).faults (sure_source self.new).faults result }
        ensures ended { (sure_source self.new).ended ≡ tells_end result buf.new }
        ensures failed { (sure_source self.new).failed ≡ ((sure_source self.old).failed || is_err result) }
        ensures calls { (sure_source self.new).calls ≡ next_count (sure_source self.old).calls }
        ensures late { (sure_source self.new).late
            ≡ ((sure_source self.old).late || ((sure_source self.old).failed && gives_byte result)) }
        ensures much { SureGivesAsManyAsFit self.old result buf.new }
    {
        let count = give_front(&self.bytes.as_slice()[self.at..], buf.len(), buf);
        self.calls = self.calls.saturating_add(1);
        self.at += count;
        self.ended = count == 0 && 0 < buf.len();
        Ok(count)
    }
}
