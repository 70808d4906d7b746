//! The way from the source of a C-DNS file to the sink of a capture.

ghost use Rattle.std.specs.Prelude.{◌≡◌, ◌⊎◌, ℕ, ◌+◌, ◌≤◌, ◌^◌, List, Some, true, false};
ghost use Rattle.std.specs.Io.KnownBytes.{IsAtEnd};
ghost use Rattle.cd_ports.specs.Counter.{Rose};
ghost use Rattle.cd_engine.specs.Checking.{IsWholeFile};
ghost use Rattle.cd_engine.specs.Compacting.{WriteOutranks};
ghost use Rattle.cd_engine.specs.Endings.{IsStopped, EndsAs};
ghost use Rattle.cd_engine.specs.Inspecting.{Inspects, InspectsTold};

use crate::checking::ended_of;
use crate::ended::Ended;
use cd_drive::{Driven, drive};
use cd_inspection::laws::{captures_are_rebuilt, rebuilt_counts_are_told};
use cd_inspection::{Inspection, Inspector, PacketRebuilding, ReadCounts};
use cd_ports::{Sink, SinkFault, Source};
use std::alloc::Global;

/// Reads a C-DNS file from `src`, and writes a capture of the packets that its blocks are rebuilt to, to `out`. It answers how
/// that ended, and the counts of the blocks that are whole in the bytes used, up to the first refusal, and of what is rebuilt
/// of them; at `WriteFault` and `NoMemory` all counts are 0. All packets of the blocks that are whole are written before the
/// source is asked again. Of the input at most `max_input` bytes are used, and of the blocks one at a time is held.
///
/// What is said of bytes holds where the source and the sink tell their bytes; all else holds for each source and sink.
pub fn inspect<S: Source, K: Sink>(
    alloc: Global,
    max_input: u64,
    src: &mut S,
    out: &mut K,
) -> (Ended, ReadCounts)
    requires { max_input ≤ 2 ^ 48 }
    // The answer, the counts and the capture are those of the bytes taken.
    ensures inspects { Inspects max_input (S.means src.old) (S.means src.new) (K.means out.old) (K.means out.new)
        result }
    // The same of the bytes that a source which tells has lost.
    ensures told { InspectsTold max_input (S.means src.old) (S.means src.new) (K.means out.old) (K.means out.new)
        result }

    // Done comes only where the source told its end, and nothing is left then.
    ensures done { result.0 ≡ Ended.Done → (S.means src.new).ended ≡ true }
    ensures at_end { ¬ IsStopped result.0 → (S.means src.new).ended ≡ true → IsAtEnd (S.means src.new).left }

    // Each fault comes only where its count rose. One that comes is told, and a write fault outranks all but NoMemory.
    ensures read_fault { result.0 ≡ Ended.ReadFault → Rose (S.means src.old).faults (S.means src.new).faults }
    ensures read_fault_told { (S.means src.old).failed ≡ false → (S.means src.new).failed ≡ true →
        EndsAs result.0 Ended.ReadFault }
    ensures write_fault { result.0 ≡ Ended.WriteFault → Rose (K.means out.old).faults (K.means out.new).faults }
    ensures outranks { WriteOutranks (K.means out.old) (K.means out.new) result.0 }

    // No byte is taken after a failed read, and the source is not asked too often.
    ensures late { (S.means src.old).failed ≡ false → (S.means src.new).late ≡ (S.means src.old).late }
    ensures calls { (S.means src.new).calls ≤ (S.means src.old).calls + max_input + 1 }

    // A whole file is done, unless memory runs out, where no count of faults rises.
    ensures complete { (bytes : List ℕ) → (S.means src.old).left ≡ Some bytes → IsWholeFile max_input bytes →
        ¬ Rose (S.means src.old).faults (S.means src.new).faults →
        ¬ Rose (K.means out.old).faults (K.means out.new).faults →
        (result.0 ≡ Ended.Done) ⊎ (result.0 ≡ Ended.NoMemory) }
{
    captures_are_rebuilt();
    rebuilt_counts_are_told();
    let machine = match Inspection::<PacketRebuilding>::new(alloc) {
        Ok(machine) => machine,
        Err(_) => return (Ended::NoMemory, PacketRebuilding::no_counts()),
    };
    match drive(alloc, max_input, src, out, machine) {
        Ok(Driven { stop, counts }) => (ended_of(stop), counts),
        Err(SinkFault::Failed) => (Ended::WriteFault, PacketRebuilding::no_counts()),
        Err(SinkFault::NoMemory) => (Ended::NoMemory, PacketRebuilding::no_counts()),
    }
}
