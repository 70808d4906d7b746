//! The opcodes that are kept, as an array.

ghost use Rattle.std.specs.Prelude.{◌≡◌, ◌≤◌, ◌<◌, ◌++◌, length, map, Some, OnOk};
ghost use Rattle.cd_cbor.specs.Items.{unsigned};
ghost use Rattle.cd_cbor.specs.Spelling.{spelling_all};
ghost use Rattle.cd_file.specs.Maps.{numbers, entry_spelling};
ghost use Rattle.cd_file.specs.Head.{has_opcode, listed_opcode, opcodes_below};

use cd_bytes::Out;
use cd_cbor::{push_array_head, push_unsigned};
use std::alloc::AllocError;

// The opcodes are 0 to 15 (RFC 1035 4.1.1).
const OPCODES: u16 = 16;

/// Whether the bit of an opcode is set.
pub fn is_listed(opcodes: u16, opcode: u16) -> bool
    requires { opcode < 16 }
    ensures { result ≡ has_opcode opcodes opcode }
{
    (opcodes >> opcode) % 2 == 1
}

fn listed_count(opcodes: u16, opcode: u16) -> u64
    requires { opcode < 16 }
    ensures exact { result ≡ length (listed_opcode opcodes opcode) }
    ensures few { result ≤ 1 }
{
    if is_listed(opcodes, opcode) { 1 } else { 0 }
}

fn opcode_count(opcodes: u16) -> u64
    ensures { result ≡ length (opcodes_below 16 opcodes) }
{
    let mut count = 0;
    'opcodes: for opcode in 0..OPCODES {
        count += listed_count(opcodes, opcode);
    }
    count
}

fn push_listed(out: &mut Out, opcodes: u16, opcode: u16) -> Result<(), AllocError>
    requires { opcode < 16 }
    ensures { OnOk result (out.new ≡ out.old ++ spelling_all (map unsigned (listed_opcode opcodes opcode))) }
{
    if is_listed(opcodes, opcode) {
        push_unsigned(out, opcode as u64)?;
    }
    Ok(())
}

fn push_each_opcode(out: &mut Out, opcodes: u16) -> Result<(), AllocError>
    ensures { OnOk result (out.new ≡ out.old ++ spelling_all (map unsigned (opcodes_below 16 opcodes))) }
{
    'opcodes: for opcode in 0..OPCODES {
        push_listed(out, opcodes, opcode)?;
    }
    Ok(())
}

/// Writes a key and the opcodes whose bit is set, ascending.
pub fn push_opcodes(out: &mut Out, key: u64, opcodes: u16) -> Result<(), AllocError>
    ensures { OnOk result (out.new ≡ out.old ++ entry_spelling key (Some (numbers (opcodes_below 16 opcodes)))) }
{
    push_unsigned(out, key)?;
    push_array_head(out, opcode_count(opcodes))?;
    push_each_opcode(out, opcodes)?;
    Ok(())
}
