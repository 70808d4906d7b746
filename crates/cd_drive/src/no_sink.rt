//! A sink for a machine without output.

ghost use Rattle.std.specs.Prelude.{◌≡◌, IsOk};

use cd_ports::{Sink, SinkFault};

/// Drops the bytes that it takes. It tells no bytes, and never fails.
#[derive(Drop)]
pub struct NoSink;

impl Sink for NoSink {
    ghost use Rattle.cd_drive.specs.Nowhere.{no_sink};
    ghost use Rattle.cd_ports.specs.Writing.{WriteStep};

    ghost means = { no_sink };

    fn write(&mut self, chunk: &[u8]) -> Result<(), SinkFault>
        ensures step { WriteStep (no_sink self.old) (no_sink self.new) result chunk.now }
        ensures ok { IsOk result }
    {
        Ok(())
    }
}
