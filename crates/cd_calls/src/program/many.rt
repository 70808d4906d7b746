//! As many packets as fit one block, whose pairs overlap and cross.

use super::sample::{capture, file_of};
use std::alloc::AllocError;

#[test]
fn five_thousand_pairs_may_cross(rt: HostRuntime) -> Result<(), AllocError> {
    let file = file_of(rt.alloc(), capture(rt.alloc(), 5_000)?)?;
    // Addresses have 5 bytes; an item has 26 beside its offset (1 to 5) and its client (1 to 3).
    assert!(rt; file.len() == 193_546);
    Ok(())
}
