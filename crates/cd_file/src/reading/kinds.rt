//! Reads the values of each kind.

ghost use Rattle.std.specs.Prelude.{◌≡◌, ℕ, ◌≤◌, pos};
ghost use Rattle.cd_file.specs.Kinds as kinds;
ghost use Rattle.cd_file.specs.ItemReading.{ReadsItem};
ghost use Rattle.cd_file.specs.declared.refusal.FileWhy.TheVariants as why;
ghost use Rattle.cd_file.specs.declared.reading.fault.ItemFault.TheVariants as fault;

use super::fault::ItemFault;
use super::heads::{number_at, signed_of, unsigned_at};
use crate::refusal::FileWhy;

// How many numbers of 8 bits there are.
const BYTES: u64 = 0x100;

// How many numbers of 16 bits there are.
const WORDS: u64 = 0x1_0000;

// The refusal of a value of another kind or beyond its range.
pub fn shape(key: u64) -> ItemFault
    ensures { result ≡ fault.Refused (why.Shape (pos key)) }
{
    ItemFault::Refused(FileWhy::Shape(key as i128))
}

/// A number from 0, of 64 bits.
#[tactic(auto, unfolding(crate::specs::Kinds::unsigned))]
pub fn unsigned(bytes: &[u8], at: usize, key: u64) -> Result<(u64, usize), ItemFault>
    ensures { (depth : ℕ) → ReadsItem (λ n. n) result depth bytes.now at (kinds.unsigned (pos key)) }
{
    match unsigned_at(bytes, at) {
        Some(read) => Ok(read),
        None => Err(shape(key)),
    }
}

/// A number from 0, of 16 bits.
#[tactic(auto, unfolding(crate::specs::Kinds::unsigned, crate::specs::Kinds::unsigned_below))]
pub fn word(bytes: &[u8], at: usize, key: u64) -> Result<(u16, usize), ItemFault>
    ensures { (depth : ℕ) → ReadsItem (λ n. n) result depth bytes.now at (kinds.unsigned_below 0x1_0000 (pos key)) }
{
    let (n, next) = match unsigned_at(bytes, at) {
        Some(read) => read,
        None => return Err(shape(key)),
    };
    if n < 0x1_0000 {
        Ok((n as u16, next))
    } else {
        Err(shape(key))
    }
}

/// A number from 0, of 8 bits.
#[tactic(auto, unfolding(crate::specs::Kinds::unsigned, crate::specs::Kinds::unsigned_below))]
pub fn byte(bytes: &[u8], at: usize, key: u64) -> Result<(u8, usize), ItemFault>
    ensures { (depth : ℕ) → ReadsItem (λ n. n) result depth bytes.now at (kinds.unsigned_below 0x100 (pos key)) }
{
    let (n, next) = match unsigned_at(bytes, at) {
        Some(read) => read,
        None => return Err(shape(key)),
    };
    if n < 0x100 {
        Ok((n as u8, next))
    } else {
        Err(shape(key))
    }
}

/// A number from 0, which is absent unless it is below a bound of 16 bits.
#[tactic(auto, unfolding(crate::specs::Kinds::unsigned, crate::specs::Kinds::unsigned_if_below))]
pub fn word_if_below(
    bytes: &[u8],
    at: usize,
    key: u64,
    bound: u64,
) -> Result<(Option<u16>, usize), ItemFault>
    requires { bound ≤ 0x1_0000 }
    ensures { (depth : ℕ) → ReadsItem (λ n. n) result depth bytes.now at (kinds.unsigned_if_below bound (pos key)) }
{
    let (n, next) = match unsigned_at(bytes, at) {
        Some(read) => read,
        None => return Err(shape(key)),
    };
    if n < bound {
        Ok((Some(n as u16), next))
    } else {
        Ok((None, next))
    }
}

/// A number from 0, which is absent unless it is below a bound of 8 bits.
#[tactic(auto, unfolding(crate::specs::Kinds::unsigned, crate::specs::Kinds::unsigned_if_below))]
pub fn byte_if_below(
    bytes: &[u8],
    at: usize,
    key: u64,
    bound: u64,
) -> Result<(Option<u8>, usize), ItemFault>
    requires { bound ≤ 0x100 }
    ensures { (depth : ℕ) → ReadsItem (λ n. n) result depth bytes.now at (kinds.unsigned_if_below bound (pos key)) }
{
    let (n, next) = match unsigned_at(bytes, at) {
        Some(read) => read,
        None => return Err(shape(key)),
    };
    if n < bound {
        Ok((Some(n as u8), next))
    } else {
        Ok((None, next))
    }
}

/// A number from 0, which is absent unless it has 16 bits at most.
pub fn word_or_none(bytes: &[u8], at: usize, key: u64) -> Result<(Option<u16>, usize), ItemFault>
    ensures { (depth : ℕ)
        → ReadsItem (λ n. n) result depth bytes.now at (kinds.unsigned_if_below 0x1_0000 (pos key)) }
{
    word_if_below(bytes, at, key, WORDS)
}

/// A number from 0, which is absent unless it has 8 bits at most.
pub fn byte_or_none(bytes: &[u8], at: usize, key: u64) -> Result<(Option<u8>, usize), ItemFault>
    ensures { (depth : ℕ) → ReadsItem (λ n. n) result depth bytes.now at (kinds.unsigned_if_below 0x100 (pos key)) }
{
    byte_if_below(bytes, at, key, BYTES)
}

/// A signed number, of 64 bits.
#[tactic(auto, unfolding(crate::specs::Kinds::signed))]
pub fn signed(bytes: &[u8], at: usize, key: u64) -> Result<(i64, usize), ItemFault>
    ensures { (depth : ℕ) → ReadsItem (λ z. z) result depth bytes.now at (kinds.signed (pos key)) }
{
    let (n, next) = match number_at(bytes, at) {
        Some(read) => read,
        None => return Err(shape(key)),
    };
    match signed_of(n) {
        Some(z) => Ok((z, next)),
        None => Err(shape(key)),
    }
}
