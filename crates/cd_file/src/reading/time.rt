//! Reads times (RFC 8618 7.3.2.1).

ghost use Rattle.std.specs.Prelude.{◌≡◌, pos, ◌≤◌};
ghost use Rattle.cd_cbor.specs.Spells.{most_depth};
ghost use Rattle.cd_file.specs.Kinds as kinds;
ghost use Rattle.cd_file.specs.ItemReading.{ReadsItem};

use super::arrays::{Numbers, array_of};
use super::fault::ItemFault;
use super::kinds::shape;
use cd_block::Stamp;
use std::alloc::Global;

// The time of two numbers.
fn stamp_of(numbers: &[u64]) -> Option<Stamp>
    ensures { result ≡ kinds.stamp_in numbers.now }
{
    match numbers {
        [seconds, ticks] => Some(Stamp {
            seconds: *seconds,
            ticks: *ticks,
        }),
        _ => None,
    }
}

/// A time: an array of seconds and ticks.
#[tactic(auto, unfolding(crate::specs::Kinds::stamp))]
pub fn stamp(
    alloc: Global,
    bytes: &[u8],
    depth: usize,
    at: usize,
    key: u64,
) -> Result<(Stamp, usize), ItemFault>
    requires { depth ≤ most_depth }
    ensures { ReadsItem (λ s. s) result depth bytes.now at (kinds.stamp (pos key)) }
{
    let (numbers, next) = match array_of::<Numbers>(alloc, bytes, depth, at, key) {
        Ok(read) => read,
        Err(fault) => return Err(fault),
    };
    match stamp_of(numbers.as_slice()) {
        Some(time) => Ok((time, next)),
        None => Err(shape(key)),
    }
}
