//! How much of a block has no packet.

ghost use Rattle.std.specs.Prelude.{◌≡◌};
ghost use Rattle.std.specs.List.{count_by};
ghost use Rattle.cd_rebuild.specs.Rebuilding;

use crate::flags::{is_bare, is_bare_malformed, is_not_udp, is_not_udp_malformed};
use crate::sending::Sending;
use cd_block::KeptBlock;

// How many items and malformed messages of a block are bare.
pub(crate) fn bare_count(kept: &KeptBlock) -> u64
    ensures { result ≡ Rebuilding.bare_count kept.now }
{
    let items = kept
        .items
        .as_slice()
        .iter()
        .filter(|item| is_bare(item))
        .count();
    let malformed = kept
        .malformed
        .as_slice()
        .iter()
        .filter(|message| is_bare_malformed(message))
        .count();
    items as u64 + malformed as u64
}

// How many of them have another transport than UDP.
pub(crate) fn not_udp_count(kept: &KeptBlock) -> u64
    ensures { result ≡ Rebuilding.not_udp_count kept.now }
{
    let items = kept
        .items
        .as_slice()
        .iter()
        .filter(|item| is_not_udp(item))
        .count();
    let malformed = kept
        .malformed
        .as_slice()
        .iter()
        .filter(|message| is_not_udp_malformed(message))
        .count();
    items as u64 + malformed as u64
}

// How many of these have no packet.
pub(crate) fn too_long_count(sendings: &[Sending]) -> u64
    ensures { result ≡ count_by Rebuilding.is_too_long sendings.now }
{
    sendings
        .iter()
        .filter(|sending| sending.packet.is_none())
        .count() as u64
}
