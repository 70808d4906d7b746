ghost use Rattle.std.specs.Prelude.{◌≡◌, ◌^◌, [], false};
ghost use Rattle.cd_calls.specs.Copying.{has_zero};

use cd_drive::{Finished, Machine, NoSink, Stop, drive};
use cd_name::{Blob, List};
use cd_ports::{CutSource, MemSink, MemSource, SinkFault, Source};
use std::alloc::{AllocError, Global};

// Copies its bytes, and refuses them where one is 0.
#[derive(Drop)]
struct Copier {
    held: Vec<u8>,
    zero: bool,
}

fn new_copier(alloc: Global) -> Copier
    ensures held { result.held.items ≡ [] }
    ensures zero { result.zero ≡ false }
{
    Copier {
        held: Vec::new(alloc),
        zero: false,
    }
}

fn holds_zero(bytes: &[u8]) -> bool
    ensures { result ≡ has_zero bytes.now }
{
    bytes.iter().any(|byte| *byte == 0)
}

impl Machine for Copier {
    ghost use Rattle.cd_calls.specs.Copying.{copying, copying_lawful, Copied};

    type Refusal = ();

    type Counts = u64;

    ghost means = { λ m. copying };

    ghost stands = { λ m. Copied m.held.items m.zero };

    ghost space = { λ m. 2 ^ 64 };

    fn feed(&mut self, chunk: &[u8]) -> Result<Option<()>, AllocError> {
        self.held.extend_from_slice(chunk)?;
        if holds_zero(chunk) {
            self.zero = true;
        }
        if self.zero { Ok(Some(())) } else { Ok(None) }
    }

    fn at_end(&self) -> Option<()> {
        None
    }

    fn output(&self) -> &[u8] {
        self.held.as_slice()
    }

    fn clear_output(&mut self) {
        self.held.clear();
    }

    fn finish(self) -> Result<Finished<u64>, AllocError> {
        Ok(Finished {
            output: Blob::from_vec(self.held),
            counts: 0,
        })
    }

    ghost lawful = { λ m. copying_lawful };
}

// How a drive stopped, as a word.
fn word_of(stop: &Stop<()>) -> &'static str {
    match stop {
        Stop::Done => "done",
        Stop::Refused(_) => "refused",
        Stop::ReadFault => "read fault",
        Stop::TooLong => "too long",
    }
}

// Copies a source to a sink, and says how that ended. At most 1,000,000 bytes are wanted.
fn copied<S: Source>(
    alloc: Global,
    max_input: u64,
    src: &mut S,
    out: &mut MemSink,
) -> &'static str {
    match drive(alloc, max_input.min(1_000_000), src, out, new_copier(alloc)) {
        Ok(driven) => word_of(&driven.stop),
        Err(SinkFault::Failed) => "write fault",
        Err(SinkFault::NoMemory) => "no memory",
    }
}

// A sink that fails at these calls, and keeps one byte of each piece then.
fn sink_of(alloc: Global, fails: &[u64]) -> Result<MemSink, AllocError> {
    Ok(MemSink::new(alloc, List::from_vec(Vec::from_slice(alloc, fails)?), 1))
}

// One byte a call.
fn by_bytes(alloc: Global, bytes: &[u8]) -> Result<CutSource, AllocError> {
    let sizes = List::from_vec(vec![in alloc; 1usize; bytes.len()]?);
    Ok(CutSource::new(Blob::from_vec(Vec::from_slice(alloc, bytes)?), sizes))
}

// Whether a copy of these bytes, one a call, ends so and writes this, where the sink fails at these calls.
fn ends_so(
    alloc: Global,
    bytes: &[u8],
    most: u64,
    fails: &[u64],
    word: &str,
    written: &[u8],
) -> Result<bool, AllocError> {
    let mut out = sink_of(alloc, fails)?;
    let mut src = by_bytes(alloc, bytes)?;
    let ended = copied(alloc, most, &mut src, &mut out);
    Ok(ended == word && out.contents() == written)
}

#[test]
fn a_drive_ends_as_its_bytes_say(rt: HostRuntime) -> Result<(), AllocError> {
    let alloc = rt.alloc();
    assert!(rt; ends_so(alloc, b"abc", 3, &[], "done", b"abc")?);
    assert!(rt; ends_so(alloc, b"", 0, &[], "done", b"")?);
    assert!(rt; ends_so(alloc, b"abc", 2, &[], "too long", b"ab")?);
    assert!(rt; ends_so(alloc, b"ab\0c", 9, &[], "refused", b"ab\0")?);
    assert!(rt; ends_so(alloc, b"ab\0", 2, &[], "too long", b"ab")?);
    assert!(rt; ends_so(alloc, b"a\0bc", 2, &[], "refused", b"a\0")?);
    assert!(rt; ends_so(alloc, b"abc", 9, &[1], "write fault", b"ab")?);
    Ok(())
}

// A source of some bytes whose second call fails.
fn failing_source(alloc: Global, bytes: &[u8]) -> Result<MemSource, AllocError> {
    let bytes = Blob::from_vec(Vec::from_slice(alloc, bytes)?);
    Ok(MemSource::new(bytes, List::from_vec(vec![in alloc; 1u64]?)))
}

#[test]
fn a_failed_read_ends_a_drive(rt: HostRuntime) -> Result<(), AllocError> {
    let mut src = failing_source(rt.alloc(), b"abc")?;
    let mut out = sink_of(rt.alloc(), &[])?;
    let ended = copied(rt.alloc(), 9, &mut src, &mut out);
    assert!(rt; ended == "read fault");
    assert!(rt; out.contents() == b"abc".as_slice());
    Ok(())
}

#[test]
fn a_drive_without_output_ends_alike(rt: HostRuntime) -> Result<(), AllocError> {
    let alloc = rt.alloc();
    let mut src = by_bytes(alloc, b"abc")?;
    let driven = drive(alloc, 9, &mut src, &mut NoSink, new_copier(alloc));
    assert!(rt; matches!(driven, Ok(_)));
    Ok(())
}
