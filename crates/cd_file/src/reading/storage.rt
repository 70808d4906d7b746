//! Reads the storage parameters of a file.

ghost use Rattle.std.specs.Prelude.{◌≡◌, ℕ, ◌+◌, ◌%◌, ◌<◌, ◌≤◌, ◌^◌, pos, length, All};
ghost use Rattle.cd_cbor.specs.Spells.{most_depth};
ghost use Rattle.cd_file.specs.Kinds as kinds;
ghost use Rattle.cd_file.specs.ItemReading.{ReadsItem};
ghost use Rattle.cd_file.specs.Putting.{Places};
ghost use Rattle.cd_file.specs.ReadHead as head;

use super::arrays::{Kind, array_of};
use super::fault::ItemFault;
use super::heads::unsigned_at;
use super::kinds::{byte, shape, unsigned, word};
use super::maps::{Table, WholeMap, map_of};
use super::putting::{passed_over, put, put_some};
use crate::opcodes::is_listed;
use cd_block::{Hints, Params, keys};
use cd_name::List;
use std::alloc::Global;

// The opcodes are 0 to 15 (RFC 1035 4.1.1).
const OPCODES: u64 = 16;

// Puts the low bits of a number that was read, those below a bound, and gives the offset behind it.
fn put_bits(
    read: Result<(u64, usize), ItemFault>,
    bound: u32,
    place: &mut u32,
) -> Result<usize, ItemFault>
    requires { 0 < bound }
    ensures { Places (λ n. place.new ≡ n % bound) read result }
{
    match read {
        Ok((n, next)) => {
            *place = (n % bound as u64) as u32;
            Ok(next)
        }
        Err(fault) => Err(fault),
    }
}

// Puts the two low bits of a number that was read, and gives the offset behind it.
fn put_two_bits(read: Result<(u64, usize), ItemFault>, place: &mut u8) -> Result<usize, ItemFault>
    ensures { Places (λ n. place.new ≡ n % 4) read result }
{
    match read {
        Ok((n, next)) => {
            *place = (n % 4) as u8;
            Ok(next)
        }
        Err(fault) => Err(fault),
    }
}

/// Storage hints (RFC 8618 7.3.1.1.1.1).
pub struct HintsMap;

impl Table for HintsMap {
    type Fields = Hints;

    ghost table = { head.hints_table };

    fn required_keys() -> &'static [u64] {
        &[
            keys::HINTS_QUERY_RESPONSE,
            keys::HINTS_SIGNATURE,
            keys::HINTS_RR,
            keys::HINTS_OTHER_DATA,
        ]
    }

    fn read_value(
        _alloc: Global,
        bytes: &[u8],
        depth: usize,
        at: usize,
        key: u64,
        fields: &mut Hints,
    ) -> Result<usize, ItemFault> {
        match key {
            keys::HINTS_QUERY_RESPONSE => put_bits(
                unsigned(bytes, at, key),
                1 << 18,
                &mut fields.qr,
            ),
            keys::HINTS_SIGNATURE => put_bits(unsigned(bytes, at, key), 1 << 17, &mut fields.sig),
            keys::HINTS_RR => put_two_bits(unsigned(bytes, at, key), &mut fields.rr),
            keys::HINTS_OTHER_DATA => put_two_bits(unsigned(bytes, at, key), &mut fields.other),
            _ => passed_over(bytes, depth, at),
        }
    }
}

impl WholeMap for HintsMap {
    ghost initial = { head.no_hints };

    fn initial(_alloc: Global) -> Hints {
        Hints {
            qr: 0,
            sig: 0,
            rr: 0,
            other: 0,
        }
    }
}

// Opcodes.
struct Opcodes;

impl Kind for Opcodes {
    type Value = u8;

    ghost kind = { kinds.unsigned_below 16 };

    #[tactic(auto, unfolding(crate::specs::Kinds::unsigned, crate::specs::Kinds::unsigned_below))]
    fn read(
        _alloc: Global,
        bytes: &[u8],
        _depth: usize,
        at: usize,
        key: u64,
    ) -> Result<(u8, usize), ItemFault> {
        let (n, next) = match unsigned_at(bytes, at) {
            Some(read) => read,
            None => return Err(shape(key)),
        };
        if n < OPCODES {
            Ok((n as u8, next))
        } else {
            Err(shape(key))
        }
    }
}

// Types of records.
struct RrTypes;

impl Kind for RrTypes {
    type Value = u16;

    ghost kind = { kinds.unsigned_below 0x1_0000 };

    fn read(
        _alloc: Global,
        bytes: &[u8],
        _depth: usize,
        at: usize,
        key: u64,
    ) -> Result<(u16, usize), ItemFault> {
        word(bytes, at, key)
    }
}

// The bits of some opcodes, and of one more.
fn with_opcode(opcodes: u16, opcode: u8) -> u16
    ensures { opcode < 16 → result ≡ head.with_opcode opcodes opcode }
{
    if opcode as u64 >= OPCODES {
        return opcodes;
    }
    if is_listed(opcodes, opcode as u16) {
        opcodes
    } else {
        opcodes + (1 << opcode)
    }
}

// The bits of opcodes.
fn opcode_bits(listed: &[u8]) -> u16
    ensures { All (λ n. n < 16) listed.now → result ≡ head.opcode_bits 0 listed.now }
{
    let mut opcodes = 0;
    'listed: for opcode in listed {
        opcodes = with_opcode(opcodes, *opcode);
    }
    opcodes
}

// Puts the bits of opcodes that were read, and gives the offset behind them.
fn put_opcodes(
    read: Result<(List<u8>, usize), ItemFault>,
    place: &mut u16,
) -> Result<usize, ItemFault>
    ensures { Places (λ ns. All (λ n. n < 16) ns → place.new ≡ head.opcode_bits 0 ns) read result }
{
    match read {
        Ok((listed, next)) => {
            *place = opcode_bits(listed.as_slice());
            Ok(next)
        }
        Err(fault) => Err(fault),
    }
}

/// Storage parameters (RFC 8618 7.3.1.1.1).
pub struct StorageMap;

impl Table for StorageMap {
    type Fields = Params;

    ghost table = { head.storage_table };

    fn required_keys() -> &'static [u64] {
        &[
            keys::STORAGE_TICKS_PER_SECOND,
            keys::STORAGE_MAX_BLOCK_ITEMS,
            keys::STORAGE_HINTS,
            keys::STORAGE_OPCODES,
            keys::STORAGE_RR_TYPES,
        ]
    }

    fn read_value(
        alloc: Global,
        bytes: &[u8],
        depth: usize,
        at: usize,
        key: u64,
        fields: &mut Params,
    ) -> Result<usize, ItemFault> {
        match key {
            keys::STORAGE_TICKS_PER_SECOND => put(unsigned(bytes, at, key), &mut fields.ticks),
            keys::STORAGE_MAX_BLOCK_ITEMS => put(unsigned(bytes, at, key), &mut fields.max_items),
            keys::STORAGE_HINTS => put(
                map_of::<HintsMap>(alloc, bytes, depth, at, key),
                &mut fields.hints,
            ),
            keys::STORAGE_OPCODES => {
                put_opcodes(
                    array_of::<Opcodes>(alloc, bytes, depth, at, key),
                    &mut fields.opcodes,
                )
            }
            keys::STORAGE_RR_TYPES => put(
                array_of::<RrTypes>(alloc, bytes, depth, at, key),
                &mut fields.rr_types,
            ),
            keys::STORAGE_CLIENT_PREFIX_IPV4 => put_some(
                byte(bytes, at, key),
                &mut fields.prefixes[0],
            ),
            keys::STORAGE_CLIENT_PREFIX_IPV6 => put_some(
                byte(bytes, at, key),
                &mut fields.prefixes[1],
            ),
            keys::STORAGE_SERVER_PREFIX_IPV4 => put_some(
                byte(bytes, at, key),
                &mut fields.prefixes[2],
            ),
            keys::STORAGE_SERVER_PREFIX_IPV6 => put_some(
                byte(bytes, at, key),
                &mut fields.prefixes[3],
            ),
            _ => passed_over(bytes, depth, at),
        }
    }
}
