//! Maps of numbers that may be absent.

ghost use Rattle.std.specs.Prelude.{◌≡◌, ◌≤◌, ◌++◌, length, map, OnOk};
ghost use Rattle.cd_cbor.specs.Spelling.{spelling};
ghost use Rattle.cd_file.specs.Maps.{map_of, optional_map, number, number_entry, there, entries_count, entry_spelling, entries_spelling};

use cd_bytes::Out;
use cd_cbor::{push_map_head, push_unsigned};
use std::alloc::AllocError;

/// A key and its number, where it is there.
pub type Entry = (u64, Option<u64>);

/// A byte, where it is there.
pub fn byte(n: Option<u8>) -> Option<u64>
    ensures { result ≡ n }
{
    match n {
        Some(n) => Some(n as u64),
        None => None,
    }
}

/// A number of two bytes, where it is there.
pub fn word(n: Option<u16>) -> Option<u64>
    ensures { result ≡ n }
{
    match n {
        Some(n) => Some(n as u64),
        None => None,
    }
}

fn entry_count(value: Option<u64>) -> usize
    ensures exact { result ≡ there (number value) }
    ensures few { result ≤ 1 }
{
    match value {
        Some(_) => 1,
        None => 0,
    }
}

/// How many numbers are there.
pub fn present_count(entries: &[Entry]) -> u64
    ensures exact { result ≡ entries_count (map number_entry entries.now) }
    ensures few { result ≤ length entries.now }
{
    let mut count: usize = 0;
    'entries: for entry in entries {
        count += entry_count(entry.1);
    }
    count as u64
}

/// Writes a key and its number, where it is there.
#[tactic(auto, using(std::proofs::lemmas::List::append_assoc), unfolding(crate::specs::Maps::entry_spelling))]
pub fn push_entry(out: &mut Out, key: u64, value: Option<u64>) -> Result<(), AllocError>
    ensures { OnOk result (out.new ≡ out.old ++ entry_spelling key (number value)) }
{
    match value {
        Some(n) => {
            push_unsigned(out, key)?;
            push_unsigned(out, n)
        }
        None => Ok(()),
    }
}

/// Writes the keys whose numbers are there, and these.
pub fn push_entries(out: &mut Out, entries: &[Entry]) -> Result<(), AllocError>
    ensures { OnOk result (out.new ≡ out.old ++ entries_spelling (map number_entry entries.now)) }
{
    'entries: for entry in entries {
        push_entry(out, entry.0, entry.1)?;
    }
    Ok(())
}

/// Writes a map of the numbers that are there.
pub fn push_map(out: &mut Out, entries: &[Entry]) -> Result<(), AllocError>
    ensures { OnOk result (out.new ≡ out.old ++ spelling (map_of (map number_entry entries.now))) }
{
    push_map_head(out, present_count(entries))?;
    push_entries(out, entries)?;
    Ok(())
}

/// 1 where a number is there, else 0.
pub fn map_count(entries: &[Entry]) -> u64
    ensures exact { result ≡ there (optional_map (map number_entry entries.now)) }
    ensures few { result ≤ 1 }
{
    if present_count(entries) == 0 { 0 } else { 1 }
}

/// Writes a key and a map of the numbers that are there, where there are any.
pub fn push_optional_map(out: &mut Out, key: u64, entries: &[Entry]) -> Result<(), AllocError>
    ensures { OnOk result (out.new ≡ out.old ++ entry_spelling key (optional_map (map number_entry entries.now))) }
{
    if present_count(entries) == 0 {
        return Ok(());
    }
    push_unsigned(out, key)?;
    push_map(out, entries)?;
    Ok(())
}
