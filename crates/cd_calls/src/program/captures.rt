//! A capture that comes in chunks.

use super::sample::{capture, compacted, file_of, sound_sink};
use cd_name::{Blob, List};
use cd_ports::CutSource;
use cd_top::Status;
use std::alloc::AllocError;

#[test]
fn a_capture_gives_its_file_however_it_is_cut(rt: HostRuntime) -> Result<(), AllocError> {
    let alloc = rt.alloc();
    let wanted = file_of(alloc, capture(alloc, 2)?)?;
    let bytes = capture(alloc, 2)?;
    let sizes = List::from_vec(vec![in alloc; 1usize; bytes.len()]?);
    let mut src = CutSource::new(Blob::from_vec(bytes), sizes);
    let mut out = sound_sink(alloc);
    let status = compacted(alloc, &mut src, &mut out)?;
    assert!(rt; status == Status::Done);
    assert!(rt; out.contents() == wanted.as_slice());
    Ok(())
}
