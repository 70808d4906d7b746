//! Lists of numbers that are written as their parts.

ghost use Rattle.std.specs.Prelude.{◌≡◌, ◌≤◌, ◌^◌, IfOk, replicate};
ghost use Rattle.cd_hints.specs.Listing.{is_listed, listed_below, listed_types, listed_opcodes};
ghost use Rattle.cd_hints.specs.Reaches.{AreReaches};

use crate::settings::interval::Interval;
use cd_name::List;
use std::alloc::{AllocError, Global};

// As many zeros.
fn zeros(alloc: Global, count: usize) -> Result<Vec<u32>, AllocError>
    ensures { IfOk result (λ v. v.items ≡ replicate count 0) }
{
    vec![in alloc; 0u32; count]
}

// For each number below a limit, one more than the greatest number below the limit of the parts that begin there, or 0
// where none does.
fn reaches(alloc: Global, limit: u32, parts: &[Interval]) -> Result<Vec<u32>, AllocError>
    ensures { IfOk result (λ v. AreReaches limit parts.now v.items) }
{
    let mut reaches = zeros(alloc, limit as usize)?;
    for part in parts {
        if part.least < u64::from(limit) {
            let least = part.least as usize;
            let most = part.most.min(u64::from(limit) - 1) as u32;
            reaches[least] = reaches[least].max(most + 1);
        }
    }
    Ok(reaches)
}

// The numbers below a limit that the parts hold, ascending and each once. It takes as many steps as there are parts and
// numbers.
fn numbers_below(alloc: Global, limit: u32, parts: &[Interval]) -> Result<Vec<u16>, AllocError>
    requires { limit ≤ 2 ^ 16 }
    ensures { IfOk result (λ v. v.items ≡ listed_below limit parts.now) }
{
    let reaches = reaches(alloc, limit, parts)?;
    let mut numbers = Vec::new(alloc);
    let mut reach: u32 = 0;
    for number in 0..limit {
        reach = reach.max(reaches[number as usize]);
        if number < reach {
            numbers.push(number as u16)?;
        }
    }
    Ok(numbers)
}

/// The types of records that the parts hold, ascending and each once. The parts may stand in any order and overlap; a
/// number above 65,535 is no type. It takes as many steps as there are parts and types. An `Err` is for want of memory.
pub fn types_of(alloc: Global, parts: &[Interval]) -> Result<List<u16>, AllocError>
    ensures { IfOk result (λ types. types ≡ listed_types parts.now) }
{
    Ok(List::from_vec(numbers_below(alloc, 65_536, parts)?))
}

// Whether one of the parts holds a number.
fn is_listed(parts: &[Interval], number: u64) -> bool
    ensures { result ≡ is_listed parts.now number }
{
    parts.iter().any(|part| part.holds(number))
}

/// The opcodes that the parts hold: bit n stands for opcode n. A number above 15 is no opcode.
#[tactic(auto, using(crate::proofs::Listed::listed_below_none))]
pub fn opcodes_of(parts: &[Interval]) -> u16
    ensures { result ≡ listed_opcodes parts.now }
{
    let mut bits = 0;
    for opcode in 0..16u32 {
        if is_listed(parts, u64::from(opcode)) {
            bits += 1 << opcode;
        }
    }
    bits
}
