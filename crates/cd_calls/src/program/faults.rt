//! Reads and writes that fail.

use super::sample::{capture, compacted, file_of, only, sound_sink};
use cd_name::Blob;
use cd_ports::{MemSink, MemSource, SureSource};
use cd_top::Status;
use std::alloc::{AllocError, Global};

#[test]
fn a_read_that_fails_ends_the_run(rt: HostRuntime) -> Result<(), AllocError> {
    let alloc = rt.alloc();
    // What is read before the fault is in the file: the first read gives all bytes.
    for (call, count) in [(0, 0), (1, 1)] {
        let mut src = MemSource::new(Blob::from_vec(capture(alloc, 1)?), only(alloc, call)?);
        let mut out = sound_sink(alloc);
        let status = compacted(alloc, &mut src, &mut out)?;
        let wanted = file_of(alloc, capture(alloc, count)?)?;
        assert!(rt; status == Status::ReadFault);
        assert!(rt; out.contents() == wanted.as_slice());
    }
    Ok(())
}

// What a sink holds that fails at one call, where that ends the run.
fn held_at_fault(alloc: Global, call: u64, keep: usize) -> Result<MemSink, AllocError> {
    let mut src = SureSource::new(Blob::from_vec(capture(alloc, 1)?));
    let mut out = MemSink::new(alloc, only(alloc, call)?, keep);
    match compacted(alloc, &mut src, &mut out)? {
        Status::WriteFault => Ok(out),
        _ => Err(AllocError),
    }
}

#[test]
fn a_write_that_fails_leaves_a_prefix(rt: HostRuntime) -> Result<(), AllocError> {
    let wanted = file_of(rt.alloc(), capture(rt.alloc(), 1)?)?;
    // The file is written in two pieces: 60 bytes before the first read, and the block with the end of the file.
    for (call, keep, held) in [(0, 5, 5), (1, 0, 60), (1, 5, 65)] {
        let out = held_at_fault(rt.alloc(), call, keep)?;
        assert!(rt; out.contents().len() == held);
        assert!(rt; wanted.starts_with(out.contents()));
    }
    Ok(())
}

#[test]
fn a_write_fault_outranks_a_read_fault(rt: HostRuntime) -> Result<(), AllocError> {
    let alloc = rt.alloc();
    let mut src = MemSource::new(Blob::from_vec(capture(alloc, 1)?), only(alloc, 1)?);
    let mut out = MemSink::new(alloc, only(alloc, 1)?, 0);
    let status = compacted(alloc, &mut src, &mut out)?;
    assert!(rt; status == Status::WriteFault);
    Ok(())
}
