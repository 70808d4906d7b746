//! The way from a source to a sink.

ghost use Rattle.std.specs.Prelude.{◌≡◌, ◌⊎◌, ℕ, ◌+◌, ◌≤◌, List, Some, true, false};
ghost use Rattle.std.specs.Io.KnownBytes.{IsAtEnd};
ghost use Rattle.cd_hints.specs.Validity.{IsValid};
ghost use Rattle.cd_ports.specs.Counter.{Rose};
ghost use Rattle.cd_engine.specs.Compacting.{Compacts, CompactsTold, WriteOutranks, IsServedCapture};
ghost use Rattle.cd_engine.specs.Endings.{judging_captures, ended_of, IsStopped, EndsAs};
ghost use Rattle.cd_engine.specs.HalvesComeBack.{PlainHalvesComeBack};

use crate::compactor::Compactor;
use crate::counts::{Counts, no_counts};
use crate::ended::Ended;
use crate::laws::plain_halves_come_back;
use cd_drive::{Driven, Stop, drive};
use cd_hints::Settings;
use cd_packet::BadCapture;
use cd_ports::{Sink, SinkFault, Source};
use std::alloc::Global;

// How a compaction ends by what ended the input.
fn ended_of(stop: Stop<BadCapture>) -> Ended
    ensures { result ≡ ended_of judging_captures.ended_for stop }
{
    match stop {
        Stop::Done => Ended::Done,
        Stop::Refused(bad) => Ended::BadCapture(bad),
        Stop::TooLong => Ended::TooLong,
        Stop::ReadFault => Ended::ReadFault,
    }
}

/// Reads a capture from `src` and writes its C-DNS file to `out`, under valid settings. It answers how the compaction
/// ended, and the counts of the bytes used; at `WriteFault` and `NoMemory` all counts are 0. Blocks that are closed are
/// written before the source is asked again. `settings.workers` is not used.
///
/// What is said of bytes holds where the source and the sink tell their bytes; all else holds for each source and sink.
pub fn compact_plain<S: Source, K: Sink>(
    alloc: Global,
    settings: &Settings,
    src: &mut S,
    out: &mut K,
) -> (Ended, Counts)
    requires { IsValid settings.now }
    // The answer, the counts and the file are those of the bytes taken.
    ensures compacts { Compacts settings.now (S.means src.old) (S.means src.new) (K.means out.old) (K.means out.new)
        result }
    // The same of the bytes that a source which tells has lost.
    ensures told { CompactsTold settings.now (S.means src.old) (S.means src.new) (K.means out.old) (K.means out.new)
        result }

    // Each plain half of a record comes back from the file, where every supported hint is set.
    ensures plain { PlainHalvesComeBack settings.now }

    // Done comes only where the source told its end, and nothing is left then.
    ensures done { result.0 ≡ Ended.Done → (S.means src.new).ended ≡ true }
    ensures at_end { ¬ IsStopped result.0 → (S.means src.new).ended ≡ true → IsAtEnd (S.means src.new).left }

    // Each fault comes only where its count rose. One that comes is told, and a write fault outranks all but NoMemory.
    ensures read_fault { result.0 ≡ Ended.ReadFault → Rose (S.means src.old).faults (S.means src.new).faults }
    ensures read_fault_told { (S.means src.old).failed ≡ false → (S.means src.new).failed ≡ true →
        EndsAs result.0 Ended.ReadFault }
    ensures write_fault { result.0 ≡ Ended.WriteFault → Rose (K.means out.old).faults (K.means out.new).faults }
    ensures outranks { WriteOutranks (K.means out.old) (K.means out.new) result.0 }

    // No byte is taken after a failed read, and the source is not asked too often.
    ensures late { (S.means src.old).failed ≡ false → (S.means src.new).late ≡ (S.means src.old).late }
    ensures calls { (S.means src.new).calls ≤ (S.means src.old).calls + settings.now.max_input + 1 }

    // A capture that can be compacted is, unless memory runs out, where no count of faults rises.
    ensures complete { (bytes : List ℕ) → (S.means src.old).left ≡ Some bytes → IsServedCapture settings.now bytes →
        ¬ Rose (S.means src.old).faults (S.means src.new).faults →
        ¬ Rose (K.means out.old).faults (K.means out.new).faults →
        (result.0 ≡ Ended.Done) ⊎ (result.0 ≡ Ended.NoMemory) }
{
    plain_halves_come_back();
    let machine = match Compactor::new(alloc, settings) {
        Ok(machine) => machine,
        Err(_) => return (Ended::NoMemory, no_counts()),
    };
    match drive(alloc, settings.max_input, src, out, machine) {
        Ok(Driven { stop, counts }) => (ended_of(stop), counts),
        Err(SinkFault::Failed) => (Ended::WriteFault, no_counts()),
        Err(SinkFault::NoMemory) => (Ended::NoMemory, no_counts()),
    }
}
