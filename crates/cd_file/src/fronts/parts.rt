//! The preamble and the blocks of a file, once they are whole.

ghost use Rattle.std.specs.Prelude.{◌≡◌, ℕ, ◌+◌, ◌<◌, ◌≤◌, ◌^◌, List, length, IfOk};
ghost use Rattle.cd_file.specs.ReadFile as files;
ghost use Rattle.cd_file.specs.Fronts.{GivesPart, StandsForItem};

use super::ending::{Ending, Unread};
use super::heads::element_head;
use super::item::ItemScan;
use crate::block_parameters::BlockParameters;
use crate::reading::{ItemFault, block_of, params_of};
use crate::refusal::FileWhy;
use cd_block::Block;
use cd_cbor::MajorType;
use std::alloc::Global;

/// So many arrays, maps and tags may be open in the preamble, which stands in the outer array.
pub const PREAMBLE_DEPTH: usize = 15;

/// So many arrays, maps and tags may be open in a block, which stands in the array of blocks.
pub const BLOCK_DEPTH: usize = 14;

// This is the major type of a map.
fn is_map(kind: MajorType) -> bool
    ensures { result ≡ files.is_map kind }
{
    match kind {
        MajorType::Map => true,
        _ => false,
    }
}

/// The block parameters of the preamble at the front of the bytes held, which stand at an offset of the file, and the
/// size of the preamble. The scan is that of the preamble.
#[tactic(auto, unfolding(crate::specs::ReadFile::preamble_front))]
pub fn preamble_front(
    alloc: Global,
    scan: &mut ItemScan,
    held: &[u8],
    is_open: bool,
    at: u64,
) -> Result<(BlockParameters, usize), Unread>
    requires stands { StandsForItem 15 scan.old held.now }
    requires at { at + length held.now < 2 ^ 64 }
    ensures stands { StandsForItem 15 scan.new held.now }
    ensures front { GivesPart (λ x. (x.0, x.1)) result (files.preamble_front is_open at held.now) }
    ensures within { IfOk result (λ x. (0 < x.1) × (x.1 ≤ length held.now)) }
{
    let (head, _size) = match element_head(held, is_open, at) {
        Ok(found) => found,
        Err(ending) => return Err(Unread::Ended(ending)),
    };
    if !is_map(head.kind) {
        return Err(Unread::Ended(Ending::Refused(FileWhy::NotCdns)));
    }
    let size = match scan.judge(held, at) {
        Ok(size) => size,
        Err(ending) => return Err(Unread::Ended(ending)),
    };
    match params_of(alloc, held, PREAMBLE_DEPTH, 0) {
        Ok((entries, _end)) => Ok((entries, size)),
        Err(ItemFault::Refused(why)) => Err(Unread::Ended(Ending::Refused(why))),
        Err(ItemFault::NoMemory) => Err(Unread::NoMemory),
    }
}

/// The block at the front of the bytes held, which stand at an offset of the file, and its size. The scan is that of the
/// block, and the file has so many block parameters.
#[tactic(auto, unfolding(crate::specs::ReadFile::block_front))]
pub fn block_front(
    alloc: Global,
    scan: &mut ItemScan,
    held: &[u8],
    entry_count: usize,
    at: u64,
) -> Result<(Block, usize), Unread>
    requires stands { StandsForItem 14 scan.old held.now }
    requires at { at + length held.now < 2 ^ 64 }
    ensures stands { StandsForItem 14 scan.new held.now }
    ensures front { GivesPart (λ x. (x.0, x.1)) result (files.block_front entry_count at held.now) }
    ensures within { IfOk result (λ x. (0 < x.1) × (x.1 ≤ length held.now)) }
{
    let size = match scan.judge(held, at) {
        Ok(size) => size,
        Err(ending) => return Err(Unread::Ended(ending)),
    };
    let block = match block_of(alloc, held, BLOCK_DEPTH, 0) {
        Ok((block, _end)) => block,
        Err(ItemFault::Refused(why)) => return Err(Unread::Ended(Ending::Refused(why))),
        Err(ItemFault::NoMemory) => return Err(Unread::NoMemory),
    };
    if block.params < entry_count as u64 {
        Ok((block, size))
    } else {
        Err(Unread::Ended(Ending::Refused(FileWhy::ParamIndex)))
    }
}
