//! The loop over reads.

ghost use Rattle.std.specs.Prelude.{◌≡◌, ℕ, ◌+◌, ◌-◌, ◌≤◌, ◌<◌, ◌^◌, List, [], length, IfOk, OnOk, Some, true, false};
ghost use Rattle.std.specs.Io.KnownBytes.{IsAtEnd};
ghost use Rattle.cd_ports.specs.Counter.{Rose};
ghost use Rattle.cd_drive.specs.Driving.{Drives, DrivesTold, IsAccepted, IsDone};
ghost use Rattle.cd_drive.specs.Steps.{Reads};

use crate::chunk::{chunk_buffer, take_chunk};
use crate::machine::Machine;
use crate::output::{write_ready, write_some};
use cd_ports::{Sink, SinkFault, Source};
use std::alloc::Global;

/// What ended an input.
#[derive(Clone, Copy)]
pub enum Stop<R> {
    /// The source told its end, and the bytes are not refused.
    Done,
    /// The bytes are refused; of more than `max_input` the first `max_input` are.
    Refused(R),
    /// The source failed, before anything else ended the input.
    ReadFault,
    /// There are more than `max_input` bytes, and the first `max_input` are not refused.
    TooLong,
}

/// How a drive ended that wrote all output.
#[derive(Drop)]
pub struct Driven<R, C> {
    /// What ended the input.
    pub stop: Stop<R>,
    /// What is counted in the bytes that the machine was fed.
    pub counts: C,
}

// Feeds the machine until something ends the input, and writes what is ready before it reads again.
fn read_all<S: Source, K: Sink, M: Machine>(
    alloc: Global,
    max_input: u64,
    src: &mut S,
    out: &mut K,
    machine: &mut M,
) -> Result<Stop<M::Refusal>, SinkFault>
    requires small { max_input < 2 ^ 64 - 1 }
    requires space { max_input ≤ M.space machine.old }
    requires fresh { M.stands machine.old [] [] }
    ensures reads { Reads (M.means machine.old) max_input (M.stands machine.new)
        (S.means src.old) (S.means src.new) (K.means out.old) (K.means out.new) result }
    ensures same { OnOk result (M.means machine.new ≡ M.means machine.old) }
    ensures read_fault { IfOk result (λ s. s ≡ Stop.ReadFault →
        Rose (S.means src.old).faults (S.means src.new).faults) }
    ensures failed { IfOk result (λ s. (S.means src.old).failed ≡ false → (S.means src.new).failed ≡ true →
        s ≡ Stop.ReadFault) }
    ensures late { (S.means src.old).failed ≡ false → (S.means src.new).late ≡ (S.means src.old).late }
    ensures calls { (S.means src.new).calls ≤ (S.means src.old).calls + max_input + 1 }
    ensures at_end { OnOk result ((S.means src.new).ended ≡ true → IsAtEnd (S.means src.new).left) }
{
    let mut chunk = match chunk_buffer(alloc) {
        Ok(chunk) => chunk,
        Err(_) => return Err(SinkFault::NoMemory),
    };
    match write_ready(machine, out) {
        Ok(()) => {}
        Err(fault) => return Err(fault),
    }
    let mut room = max_input + 1;
    'reads: loop {
        let taken = match take_chunk(src, &mut chunk, &mut room, machine) {
            Ok(taken) => taken,
            Err(_) => return Err(SinkFault::NoMemory),
        };
        match taken {
            Some(stop) => return Ok(stop),
            None => {}
        }
        match write_ready(machine, out) {
            Ok(()) => {}
            Err(fault) => return Err(fault),
        }
    }
}

/// Reads a source, and writes what a machine makes of its bytes: what is ready before each next read, and the rest once
/// something ended the input. A buffer of 65,536 bytes, or of what is missing to `max_input + 1` where that is less, is
/// offered to each read. At most `max_input + 1` bytes are taken, and the machine is fed the first `max_input` of them.
///
/// An `Err` says that the sink failed or that no memory was found; then a front of the output is written, and
/// nothing more.
pub fn drive<S: Source, K: Sink, M: Machine + Drop>(
    alloc: Global,
    max_input: u64,
    src: &mut S,
    out: &mut K,
    machine: M,
) -> Result<Driven<M::Refusal, M::Counts>, SinkFault>
    requires small { max_input < 2 ^ 64 - 1 }
    requires space { max_input ≤ M.space machine }
    requires fresh { M.stands machine [] [] }
    // The answer, the counts and the output are those of the bytes taken, what is ready before a read is written
    // before it, and a fault of the sink outranks all but want of memory.
    ensures drives { Drives (M.means machine) max_input
        (S.means src.old) (S.means src.new) (K.means out.old) (K.means out.new) result }
    // The same of the bytes that a source which tells has lost.
    ensures told { DrivesTold (M.means machine) max_input
        (S.means src.old) (S.means src.new) (K.means out.old) (K.means out.new) result }

    // Done comes only where the source told its end, and nothing is left then.
    ensures done { IfOk result (λ driven. driven.stop ≡ Stop.Done → (S.means src.new).ended ≡ true) }
    ensures at_end { OnOk result ((S.means src.new).ended ≡ true → IsAtEnd (S.means src.new).left) }

    // A read fault comes only where the count of the source rose, and one that comes is told.
    ensures read_fault { IfOk result (λ driven. driven.stop ≡ Stop.ReadFault →
        Rose (S.means src.old).faults (S.means src.new).faults) }
    ensures failed { IfOk result (λ driven. (S.means src.old).failed ≡ false → (S.means src.new).failed ≡ true →
        driven.stop ≡ Stop.ReadFault) }

    // No byte is taken after a failed read, and the source is not asked too often.
    ensures late { (S.means src.old).failed ≡ false → (S.means src.new).late ≡ (S.means src.old).late }
    ensures calls { (S.means src.new).calls ≤ (S.means src.old).calls + max_input + 1 }

    // Bytes that are wanted and not refused are done, unless memory runs out, where no count of faults rises.
    ensures complete { (bytes : List ℕ) → (S.means src.old).left ≡ Some bytes →
        IsAccepted (M.means machine) max_input bytes →
        ¬ Rose (S.means src.old).faults (S.means src.new).faults →
        ¬ Rose (K.means out.old).faults (K.means out.new).faults → IsDone result }
{
    let mut machine = machine;
    let stop = match read_all(alloc, max_input, src, out, &mut machine) {
        Ok(stop) => stop,
        Err(fault) => return Err(fault),
    };
    let finished = match machine.finish() {
        Ok(finished) => finished,
        Err(_) => return Err(SinkFault::NoMemory),
    };
    match write_some(out, finished.output.as_slice()) {
        Ok(()) => Ok(Driven {
            stop,
            counts: finished.counts,
        }),
        Err(fault) => Err(fault),
    }
}
