//! The adapters of std's readers and writers, where the program meets the outside.

ghost use Rattle.std.specs.Io.{ReadsAtMost};
ghost use Rattle.std.specs.Io.KnownBytes.{Appends, ReadConsumes};
ghost use Rattle.std.specs.Prelude.{OnOk, IsOkUnless, is_err, ◌≡◌, ◌&&◌, ◌||◌, None, false, length, ◌≤◌};
ghost use Rattle.cd_ports.specs.Counter.{next_count};
ghost use Rattle.cd_ports.specs.Reading.{HasCause, tells_end, gives_byte};

use crate::{Failed, Sink, SinkFault, Source};
use std::io::{Read, Write};

/// A reader of std as a source. It doesn't tell what is left.
#[derive(Drop)]
pub struct StdSource<R> {
    inner: R,
    faults: u64,
    calls: u64,
    ended: bool,
    failed: bool,
    late: bool,
}

impl<R> StdSource<R> {
    ghost use Rattle.cd_ports.specs.Outside.{std_source, std_source_reader, silent_source};

    /// A source over this reader. Each call of `read` is one call of the reader's.
    pub fn new(inner: R) -> StdSource<R>
        ensures meaning { std_source result ≡ silent_source }
        ensures reader { std_source_reader result ≡ inner }
    {
        StdSource {
            inner,
            faults: 0,
            calls: 0,
            ended: false,
            failed: false,
            late: false,
        }
    }
}

impl<R: Read> Source for StdSource<R> {
    ghost use Rattle.cd_ports.specs.Outside.{std_source, std_source_reader};

    ghost means = { std_source };

    fn read(&mut self, buf: &mut [u8]) -> Result<usize, Failed>
        ensures bound { ReadsAtMost result buf.new }
        ensures bytes { ReadConsumes (std_source self.old).left (std_source self.new).left result buf.new }
        ensures cause { HasCause (std_source self.old).faults (std_source self.new).faults result }
        ensures ended { (std_source self.new).ended ≡ tells_end result buf.new }
        ensures failed { (std_source self.new).failed ≡ ((std_source self.old).failed || is_err result) }
        ensures calls { (std_source self.new).calls ≡ next_count (std_source self.old).calls }
        ensures late { (std_source self.new).late
            ≡ ((std_source self.old).late || ((std_source self.old).failed && gives_byte result)) }
        // Where the reader tells what it has left, what it gave is in the buffer.
        ensures through { ReadConsumes (R.remaining (std_source_reader self.old)) (R.remaining (std_source_reader self.new)) result buf.new }
    {
        self.calls = self.calls.saturating_add(1);
        match self.inner.read(buf) {
            Ok(count) => {
                self.ended = count == 0 && 0 < buf.len();
                self.late = self.late || (self.failed && 0 < count);
                Ok(count)
            }
            Err(_) => {
                self.faults = self.faults.saturating_add(1);
                self.failed = true;
                self.ended = false;
                Err(Failed)
            }
        }
    }
}

/// A writer of std as a sink, which is flushed after each piece. It doesn't tell what it holds.
#[derive(Drop)]
pub struct StdSink<W> {
    inner: W,
    faults: u64,
    failed: bool,
}

impl<W> StdSink<W> {
    ghost use Rattle.cd_ports.specs.Outside.{std_sink, std_sink_writer, silent_sink};

    /// A sink over this writer.
    pub fn new(inner: W) -> StdSink<W>
        ensures meaning { std_sink result ≡ silent_sink }
        ensures writer { std_sink_writer result ≡ inner }
    {
        StdSink {
            inner,
            faults: 0,
            failed: false,
        }
    }
}

// Writes the whole piece and flushes, or answers that the writer failed.
#[tactic(auto, using(crate::proofs::Steps::sent))]
fn write_through<W: Write>(writer: &mut W, piece: &[u8]) -> Result<(), Failed>
    ensures { OnOk result (Appends (W.contents writer.old) (W.contents writer.new) piece.now) }
{
    let mut done = 0;
    'parts: while done < piece.len() {
        match writer.write(&piece[done..]) {
            Ok(0) => return Err(Failed),
            Ok(count) => done += count,
            Err(_) => return Err(Failed),
        }
    }
    match writer.flush() {
        Ok(()) => Ok(()),
        Err(_) => Err(Failed),
    }
}

impl<W: Write> Sink for StdSink<W> {
    ghost use Rattle.cd_ports.specs.Outside.{std_sink, std_sink_writer};
    ghost use Rattle.cd_ports.specs.Writing.{WriteStep};

    ghost means = { std_sink };

    fn write(&mut self, piece: &[u8]) -> Result<(), SinkFault>
        ensures step { WriteStep (std_sink self.old) (std_sink self.new) result piece.now }
        // It finds no memory wanting.
        ensures only_failure { IsOkUnless result SinkFault.Failed }
        // Where the writer tells what it holds, the whole piece is there.
        ensures through { OnOk result (Appends (W.contents (std_sink_writer self.old)) (W.contents (std_sink_writer self.new)) piece.now) }
    {
        match write_through(&mut self.inner, piece) {
            Ok(()) => Ok(()),
            Err(Failed) => {
                self.faults = self.faults.saturating_add(1);
                self.failed = true;
                Err(SinkFault::Failed)
            }
        }
    }
}
