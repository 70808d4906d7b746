//! The way from a source to what a C-DNS file holds.

ghost use Rattle.std.specs.Prelude.{◌≡◌, ◌⊎◌, ℕ, ◌+◌, ◌≤◌, ◌^◌, List, Some, true, false};
ghost use Rattle.std.specs.Io.KnownBytes.{IsAtEnd};
ghost use Rattle.cd_ports.specs.Counter.{Rose};
ghost use Rattle.cd_engine.specs.Checking.{Checks, ChecksTold, IsWholeFile, judging_files};
ghost use Rattle.cd_engine.specs.Endings.{ended_of, IsStopped, EndsAs};

use crate::ended::Ended;
use cd_drive::{Driven, NoSink, Stop, drive};
use cd_file::BadFile;
use cd_inspection::laws::counts_are_those_of_the_blocks;
use cd_inspection::{BlockCounting, Inspection, Inspector, ReadCounts};
use cd_ports::Source;
use std::alloc::Global;

/// How a check or an inspection ends by what ended the input.
pub(crate) fn ended_of(stop: Stop<BadFile>) -> Ended
    ensures { result ≡ ended_of judging_files.ended_for stop }
{
    match stop {
        Stop::Done => Ended::Done,
        Stop::Refused(bad) => Ended::BadFile(bad),
        Stop::TooLong => Ended::TooLong,
        Stop::ReadFault => Ended::ReadFault,
    }
}

/// Reads a C-DNS file from `src`, and writes nothing. It answers how that ended, and the counts of the blocks that are
/// whole in the bytes used, up to the first refusal; at `NoMemory` all counts are 0. Of the input at most `max_input`
/// bytes are used, and of the blocks one at a time is held.
///
/// What is said of bytes holds where the source tells its bytes; all else holds for each source.
pub fn check<S: Source>(alloc: Global, max_input: u64, src: &mut S) -> (Ended, ReadCounts)
    requires { max_input ≤ 2 ^ 48 }
    // The answer and the counts are those of the bytes taken.
    ensures checks { Checks max_input (S.means src.old) (S.means src.new) result }
    // The same of the bytes that a source which tells has lost.
    ensures told { ChecksTold max_input (S.means src.old) (S.means src.new) result }

    // No answer but NoMemory is free: nothing is written that could fail.
    ensures no_write_fault { ¬ (result.0 ≡ Ended.WriteFault) }

    // Done comes only where the source told its end, and nothing is left then.
    ensures done { result.0 ≡ Ended.Done → (S.means src.new).ended ≡ true }
    ensures at_end { ¬ IsStopped result.0 → (S.means src.new).ended ≡ true → IsAtEnd (S.means src.new).left }

    // A read fault comes only where the count of faults rose, and one that comes is told.
    ensures read_fault { result.0 ≡ Ended.ReadFault → Rose (S.means src.old).faults (S.means src.new).faults }
    ensures read_fault_told { (S.means src.old).failed ≡ false → (S.means src.new).failed ≡ true →
        EndsAs result.0 Ended.ReadFault }

    // No byte is taken after a failed read, and the source is not asked too often.
    ensures late { (S.means src.old).failed ≡ false → (S.means src.new).late ≡ (S.means src.old).late }
    ensures calls { (S.means src.new).calls ≤ (S.means src.old).calls + max_input + 1 }

    // A whole file is done, unless memory runs out, where the count of faults does not rise.
    ensures complete { (bytes : List ℕ) → (S.means src.old).left ≡ Some bytes → IsWholeFile max_input bytes →
        ¬ Rose (S.means src.old).faults (S.means src.new).faults →
        (result.0 ≡ Ended.Done) ⊎ (result.0 ≡ Ended.NoMemory) }
{
    counts_are_those_of_the_blocks();
    let machine = match Inspection::<BlockCounting>::new(alloc) {
        Ok(machine) => machine,
        Err(_) => return (Ended::NoMemory, BlockCounting::no_counts()),
    };
    let mut nowhere = NoSink;
    match drive(alloc, max_input, src, &mut nowhere, machine) {
        Ok(Driven { stop, counts }) => (ended_of(stop), counts),
        // No write fails, so memory ran out.
        Err(_) => (Ended::NoMemory, BlockCounting::no_counts()),
    }
}
