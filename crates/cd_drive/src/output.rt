//! The output of a machine, written.

ghost use Rattle.std.specs.Prelude.{◌≡◌, ℕ, ◌≤◌, List, ◌++◌, OnOk};
ghost use Rattle.cd_ports.specs.Writing.{OutputStep};

use crate::machine::Machine;
use cd_ports::{Sink, SinkFault};

/// Writes bytes, where there are any.
pub(crate) fn write_some<K: Sink>(out: &mut K, bytes: &[u8]) -> Result<(), SinkFault>
    ensures { OutputStep (K.means out.old) (K.means out.new) result bytes.now }
{
    if bytes.is_empty() {
        return Ok(());
    }
    out.write(bytes)
}

/// Writes what is ready, and clears it.
pub(crate) fn write_ready<K: Sink, M: Machine>(
    machine: &mut M,
    out: &mut K,
) -> Result<(), SinkFault>
    ensures step { (fed cleared : List ℕ) → M.stands machine.old fed cleared →
        (bytes : List ℕ) × (cleared ++ bytes ≡ (M.means machine.old).ready fed)
        × OutputStep (K.means out.old) (K.means out.new) result bytes }
    ensures history { OnOk result ((fed cleared : List ℕ) → M.stands machine.old fed cleared →
        M.stands machine.new fed ((M.means machine.old).ready fed)) }
    ensures same { OnOk result (M.means machine.new ≡ M.means machine.old) }
    ensures space { OnOk result (M.space machine.old ≤ M.space machine.new) }
{
    match write_some(out, machine.output()) {
        Ok(()) => {
            machine.clear_output();
            Ok(())
        }
        Err(fault) => Err(fault),
    }
}
