//! One chunk of the input: read, fed, and judged.

ghost use Rattle.std.specs.Prelude.{◌≡◌, ℕ, ◌+◌, ◌≤◌, ◌<◌, ◌||◌, List, length, None, IfOk, OnOk, true, false};
ghost use Rattle.std.specs.Io.KnownBytes.{IsAtEnd};
ghost use Rattle.cd_ports.specs.Counter.{Rose, next_count};
ghost use Rattle.cd_drive.specs.Driving.{Took, refused_or};
ghost use Rattle.cd_drive.specs.Steps.{TakesChunk, is_fault, is_read_fault};

use crate::driving::Stop;
use crate::machine::Machine;
use crate::reading::read_front;
use cd_ports::{Failed, Source};
use std::alloc::{AllocError, Global};

// Bytes of the buffer that the source is asked to fill.
const CHUNK: usize = 65_536;

/// The buffer of each read.
pub(crate) fn chunk_buffer(alloc: Global) -> Result<Vec<u8>, AllocError>
    ensures { IfOk result (λ v. length v.items ≡ 65536) }
{
    buffer_of(alloc, CHUNK)
}

// A buffer of some bytes.
fn buffer_of(alloc: Global, size: usize) -> Result<Vec<u8>, AllocError>
    ensures { IfOk result (λ v. length v.items ≡ size) }
{
    vec![in alloc; 0u8; size]
}

// What ended the input where the source told its end.
fn stop_at_end<M: Machine>(machine: &M) -> Stop<M::Refusal>
    ensures stop { (fed cleared : List ℕ) → M.stands machine.now fed cleared →
        (M.means machine.now).refusal fed ≡ None → result ≡ refused_or ((M.means machine.now).at_end fed) Stop.Done }
    ensures no_fault { is_fault result ≡ false }
{
    match machine.at_end() {
        None => Stop::Done,
        Some(refusal) => Stop::Refused(refusal),
    }
}

/// Takes one chunk, at most as many bytes as there is room for, and answers what ends the input, where something
/// does. The last byte that there is room for is one too many: the machine is not fed it.
pub(crate) fn take_chunk<S: Source, M: Machine>(
    src: &mut S,
    chunk: &mut Vec<u8>,
    room: &mut u64,
    machine: &mut M,
) -> Result<Option<Stop<M::Refusal>>, AllocError>
    requires some { 0 < room.old }
    requires buffer { length chunk.old.items ≡ 65536 }
    requires space { room.old ≤ M.space machine.old + 1 }
    ensures buffer { length chunk.new.items ≡ 65536 }
    ensures step { Took (S.means src.old) (S.means src.new) (TakesChunk (M.means machine.old)
        (M.stands machine.old) (M.stands machine.new) (S.means src.new).ended room.old room.new result) }
    ensures same { OnOk result (M.means machine.new ≡ M.means machine.old) }
    ensures space { OnOk result (room.new ≤ M.space machine.new + 1) }
    ensures later { (S.means src.old).faults ≤ (S.means src.new).faults }
    ensures rose { is_read_fault result ≡ true → Rose (S.means src.old).faults (S.means src.new).faults }
    ensures failed { (S.means src.new).failed ≡ ((S.means src.old).failed || is_read_fault result) }
    ensures late { (S.means src.old).failed ≡ false → (S.means src.new).late ≡ (S.means src.old).late }
    ensures calls { (S.means src.new).calls ≡ next_count (S.means src.old).calls }
    ensures at_end { OnOk result ((S.means src.new).ended ≡ true → IsAtEnd (S.means src.new).left) }
{
    let count = match read_front(src, chunk, *room) {
        Err(Failed) => return Ok(Some(Stop::ReadFault)),
        Ok(count) => count,
    };
    if count == 0 {
        return Ok(Some(stop_at_end(machine)));
    }
    let used = (count as u64).min(*room - 1) as usize;
    *room -= count as u64;
    let said = machine.feed(&chunk[..used])?;
    match said {
        Some(refusal) => Ok(Some(Stop::Refused(refusal))),
        None => {
            if *room == 0 {
                Ok(Some(Stop::TooLong))
            } else {
                Ok(None)
            }
        }
    }
}
