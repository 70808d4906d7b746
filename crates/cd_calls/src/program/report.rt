//! What a report holds where a device fails.

use super::sample::{capture, file_of, only, sound_sink, words_of};
use cd_name::Blob;
use cd_ports::{MemSink, MemSource, SureSource};
use cd_top::{Status, run_plain};
use std::alloc::{AllocError, Global};

// What a report holds that takes five bytes, of a run of this word over no input, where that is a write fault.
fn front_of_report(alloc: Global, word: &[u8]) -> Result<MemSink, AllocError> {
    let words = words_of(alloc, &[word])?;
    let mut src = SureSource::new(Blob::from_vec(Vec::new(alloc)));
    let mut out = sound_sink(alloc);
    let mut report = MemSink::new(alloc, only(alloc, 0)?, 5);
    match run_plain(alloc, &words, &mut src, &mut out, &mut report) {
        Status::WriteFault => Ok(report),
        _ => Err(AllocError),
    }
}

#[test]
fn a_report_that_fails_is_a_write_fault(rt: HostRuntime) -> Result<(), AllocError> {
    let usage = front_of_report(rt.alloc(), b"compress")?;
    assert!(rt; usage.contents() == b"usage".as_slice());
    let counts = front_of_report(rt.alloc(), b"check")?;
    assert!(rt; counts.contents() == b"block".as_slice());
    Ok(())
}

#[test]
fn a_report_on_a_capture_that_fails_is_a_write_fault(rt: HostRuntime) -> Result<(), AllocError> {
    let alloc = rt.alloc();
    let words = words_of(
        alloc,
        &[b"compact", b"--opcodes", b"0", b"--rr-types", b"1"],
    )?;
    let wanted = file_of(alloc, capture(alloc, 1)?)?;
    let mut src = SureSource::new(Blob::from_vec(capture(alloc, 1)?));
    let mut out = sound_sink(alloc);
    let mut report = MemSink::new(alloc, only(alloc, 0)?, 9);
    let status = run_plain(alloc, &words, &mut src, &mut out, &mut report);
    assert!(rt; status == Status::WriteFault);
    assert!(rt; report.contents() == b"packets 2".as_slice());
    assert!(rt; out.contents() == wanted.as_slice());
    Ok(())
}

#[test]
fn a_read_that_fails_is_reported(rt: HostRuntime) -> Result<(), AllocError> {
    let alloc = rt.alloc();
    let words = words_of(alloc, &[b"check"])?;
    let mut src = MemSource::new(Blob::from_vec(Vec::new(alloc)), only(alloc, 0)?);
    let mut out = sound_sink(alloc);
    let mut report = sound_sink(alloc);
    let status = run_plain(alloc, &words, &mut src, &mut out, &mut report);
    assert!(rt; status == Status::ReadFault);
    assert!(rt;
        report
            .contents()
            .ends_with(b"status read-fault\n".as_slice())
    );
    Ok(())
}
