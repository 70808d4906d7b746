ghost use Rattle.std.specs.Prelude.{◌≡◌, true};
ghost use Rattle.cd_ports.specs.Counter.{Rose};
ghost use Rattle.cd_ports.specs.Outside.{std_sink};

use cd_ports::{Sink, SinkFault, StdSink};
use std::alloc::AllocError;
use std::io::{self, Write};

// A writer that takes each byte, and whose every flush fails.
#[derive(Drop)]
struct Unflushed;

impl Write for Unflushed {
    fn write(&mut self, buf: &[u8]) -> io::Result<usize> {
        Ok(buf.len())
    }

    fn flush(&mut self) -> io::Result<()> {
        Err(io::Error::from(AllocError))
    }
}

// Whether the device failed as a piece was written. Where it did, the count of faults rose.
fn fails(out: &mut StdSink<Unflushed>, piece: &[u8]) -> bool
    ensures { result ≡ true → Rose (std_sink out.old).faults (std_sink out.new).faults }
{
    match out.write(piece) {
        Err(SinkFault::Failed) => true,
        _ => false,
    }
}

#[test]
fn a_flush_that_fails_is_a_fault(rt: HostRuntime) {
    let mut out = StdSink::new(Unflushed);
    assert!(rt; fails(&mut out, b"abc"));
    assert!(rt; fails(&mut out, b"d"));
}
