//! Reads the block parameters of a file.

ghost use Rattle.std.specs.Prelude.{◌≡◌, ◌≤◌};
ghost use Rattle.std.specs.List.{list_all};
ghost use Rattle.cd_cbor.specs.Spells.{most_depth};
ghost use Rattle.cd_file.specs.ItemReading.{ReadsItem};
ghost use Rattle.cd_file.specs.ReadHead as head;

use super::arrays::filled_array_of;
use super::fault::ItemFault;
use super::kinds::unsigned;
use super::maps::{Maps, Table, WholeMap, outer_map, read_entries};
use super::putting::{leave_out, passed_over, put, put_some};
use super::storage::{HintsMap, StorageMap};
use crate::block_parameters::BlockParameters;
use crate::preamble::Preamble;
use crate::refusal::FileWhy;
use cd_block::{Params, keys};
use cd_name::List;
use std::alloc::Global;

// The most ticks of a second.
const MOST_TICKS: u64 = 1_000_000_000;

/// Collection parameters (RFC 8618 7.3.1.1.2).
pub struct CollectionMap;

impl Table for CollectionMap {
    type Fields = Params;

    ghost table = { head.collection_table };

    fn required_keys() -> &'static [u64] {
        &[]
    }

    fn read_value(
        _alloc: Global,
        bytes: &[u8],
        depth: usize,
        at: usize,
        key: u64,
        fields: &mut Params,
    ) -> Result<usize, ItemFault> {
        match key {
            keys::COLLECTION_QUERY_TIMEOUT => put_some(
                unsigned(bytes, at, key),
                &mut fields.query_ms,
            ),
            keys::COLLECTION_SKEW_TIMEOUT => put_some(
                unsigned(bytes, at, key),
                &mut fields.skew_us,
            ),
            _ => passed_over(bytes, depth, at),
        }
    }
}

/// Block parameters (RFC 8618 7.3.1.1).
pub struct ParametersMap;

impl Table for ParametersMap {
    type Fields = Params;

    ghost table = { head.parameters_table };

    fn required_keys() -> &'static [u64] {
        &[keys::BLOCK_PARAMETERS_STORAGE]
    }

    fn read_value(
        alloc: Global,
        bytes: &[u8],
        depth: usize,
        at: usize,
        key: u64,
        fields: &mut Params,
    ) -> Result<usize, ItemFault> {
        match key {
            keys::BLOCK_PARAMETERS_STORAGE => read_entries::<StorageMap>(
                alloc, bytes, depth, at, key, fields,
            ),
            keys::BLOCK_PARAMETERS_COLLECTION => read_entries::<CollectionMap>(
                alloc, bytes, depth, at, key, fields,
            ),
            _ => passed_over(bytes, depth, at),
        }
    }
}

impl WholeMap for ParametersMap {
    ghost initial = { head.no_params };

    fn initial(alloc: Global) -> Params {
        Params {
            ticks: 0,
            max_items: 0,
            hints: HintsMap::initial(alloc),
            opcodes: 0,
            rr_types: List::from_vec(Vec::new(alloc)),
            flags: 0,
            prefixes: [None; 4],
            query_ms: None,
            skew_us: None,
        }
    }
}

/// The file preamble (RFC 8618 7.3.1).
pub struct PreambleMap;

impl Table for PreambleMap {
    type Fields = Preamble;

    ghost table = { head.preamble_table };

    fn required_keys() -> &'static [u64] {
        &[
            keys::PREAMBLE_MAJOR_VERSION,
            keys::PREAMBLE_MINOR_VERSION,
            keys::PREAMBLE_BLOCK_PARAMETERS,
        ]
    }

    fn read_value(
        alloc: Global,
        bytes: &[u8],
        depth: usize,
        at: usize,
        key: u64,
        fields: &mut Preamble,
    ) -> Result<usize, ItemFault> {
        match key {
            keys::PREAMBLE_MAJOR_VERSION => put(unsigned(bytes, at, key), &mut fields.major),
            keys::PREAMBLE_MINOR_VERSION => leave_out(unsigned(bytes, at, key)),
            keys::PREAMBLE_PRIVATE_VERSION => leave_out(unsigned(bytes, at, key)),
            keys::PREAMBLE_BLOCK_PARAMETERS => put(
                filled_array_of::<Maps<ParametersMap>>(alloc, bytes, depth, at, key),
                &mut fields.entries,
            ),
            _ => passed_over(bytes, depth, at),
        }
    }
}

impl WholeMap for PreambleMap {
    ghost initial = { head.no_preamble };

    fn initial(alloc: Global) -> Preamble {
        Preamble {
            major: 0,
            entries: List::from_vec(Vec::new(alloc)),
        }
    }
}

// Whether a second has ticks in their range.
fn has_ticks(params: &Params) -> bool
    ensures { result ≡ head.has_ticks params.now }
{
    let ticks = params.ticks;
    1 <= ticks && ticks <= MOST_TICKS
}

// Whether it has by all parameters.
fn have_ticks(entries: &[Params]) -> bool
    ensures { result ≡ list_all head.has_ticks entries.now }
{
    entries.iter().all(|params| has_ticks(params))
}

// The block parameters of a preamble, if its version is known and the ticks are in their range.
#[tactic(auto, using(crate::proofs::ParamsJudged::ticks_of_all))]
fn judged(preamble: Preamble) -> Result<BlockParameters, FileWhy>
    ensures { result ≡ head.judged_preamble preamble }
{
    let Preamble { major, entries } = preamble;
    if major != 1 {
        return Err(FileWhy::Version);
    }
    if have_ticks(entries.as_slice()) {
        Ok(BlockParameters::new(entries))
    } else {
        Err(FileWhy::TimeRange)
    }
}

/// The block parameters of the preamble at an offset, in which so many arrays, maps and tags may be open, 16 at most,
/// and the offset behind it (RFC 8618 7.3.1).
pub fn params_of(
    alloc: Global,
    bytes: &[u8],
    depth: usize,
    at: usize,
) -> Result<(BlockParameters, usize), ItemFault>
    requires { depth ≤ most_depth }
    ensures { ReadsItem (λ entries. entries) result depth bytes.now at head.read_params }
{
    let (preamble, next) = match outer_map::<PreambleMap>(
        alloc,
        bytes,
        depth,
        at,
        FileWhy::NotCdns,
    ) {
        Ok(read) => read,
        Err(fault) => return Err(fault),
    };
    match judged(preamble) {
        Ok(entries) => Ok((entries, next)),
        Err(why) => Err(ItemFault::Refused(why)),
    }
}
