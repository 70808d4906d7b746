//! The capture of one lookup, byte by byte, and the sum of that of three.

use cd_workload::{file_sum, workload};
use std::alloc::AllocError;

// The capture of one lookup from seed 0 on: a header, and two records, of which the second comes 100 µs later.
const CAPTURE: &[u8] = b"\x4d\x3c\xb2\xa1\x02\0\x04\0\0\0\0\0\0\0\0\0\0\0\x04\0\x65\0\0\0\
\x00\xf1\x53\x65\x00\x00\x00\x00\x3a\0\0\0\x3a\0\0\0\
\x45\x00\x00\x3a\0\0\0\0\x40\x11\xf0\xbe\x0a\x00\xbd\xbf\xc0\x00\x02\x35\
\x32\x1f\x00\x35\x00\x26\x32\x64\
\x00\x00\x01\x00\x00\x01\x00\x00\x00\x00\x00\x00\x04h807\x07example\0\0\x01\0\x01\
\x00\xf1\x53\x65\xa0\x86\x01\x00\x4a\0\0\0\x4a\0\0\0\
\x45\x00\x00\x4a\0\0\0\0\x40\x11\xf0\xae\xc0\x00\x02\x35\x0a\x00\xbd\xbf\
\x00\x35\x32\x1f\x00\x36\xc5\x90\
\x00\x00\x81\x80\x00\x01\x00\x01\x00\x00\x00\x00\x04h807\x07example\0\0\x01\0\x01\
\xc0\x0c\0\x01\0\x01\0\0\x01\x2c\0\x04\xc6\x33\x64\xbf";

#[test]
fn one_lookup_is_two_packets(rt: HostRuntime) -> Result<(), AllocError> {
    let capture = workload(rt.alloc(), 1, 0)?;
    assert!(rt; capture.as_slice() == CAPTURE);
    Ok(())
}

#[test]
fn three_lookups_have_their_sum(rt: HostRuntime) -> Result<(), AllocError> {
    let capture = workload(rt.alloc(), 3, 7)?;
    assert_eq!(rt; capture.as_slice().len(), 516);
    assert_eq!(rt; file_sum(capture.as_slice()), 23_069);
    Ok(())
}
