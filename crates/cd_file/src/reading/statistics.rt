//! Reads block statistics (RFC 8618 7.3.2.2).

ghost use Rattle.cd_file.specs.ReadBlock as blocks;

use super::fault::ItemFault;
use super::kinds::unsigned;
use super::maps::{Table, WholeMap};
use super::putting::{passed_over, put};
use cd_block::{Stats, keys};
use std::alloc::Global;

/// Block statistics.
pub struct Statistics;

impl Table for Statistics {
    type Fields = Stats;

    ghost table = { blocks.statistics_table };

    fn required_keys() -> &'static [u64] {
        &[]
    }

    fn read_value(
        _alloc: Global,
        bytes: &[u8],
        depth: usize,
        at: usize,
        key: u64,
        stats: &mut Stats,
    ) -> Result<usize, ItemFault> {
        match key {
            keys::STATISTICS_PROCESSED => put(unsigned(bytes, at, key), &mut stats.processed),
            keys::STATISTICS_ITEMS => put(unsigned(bytes, at, key), &mut stats.items),
            keys::STATISTICS_UNMATCHED_QUERIES => {
                put(unsigned(bytes, at, key), &mut stats.unmatched_queries)
            }
            keys::STATISTICS_UNMATCHED_RESPONSES => {
                put(unsigned(bytes, at, key), &mut stats.unmatched_responses)
            }
            keys::STATISTICS_DISCARDED => put(unsigned(bytes, at, key), &mut stats.discarded),
            keys::STATISTICS_MALFORMED => put(unsigned(bytes, at, key), &mut stats.malformed),
            _ => passed_over(bytes, depth, at),
        }
    }
}

impl WholeMap for Statistics {
    ghost initial = { blocks.no_statistics };

    fn initial(_alloc: Global) -> Stats {
        Stats {
            processed: 0,
            items: 0,
            unmatched_queries: 0,
            unmatched_responses: 0,
            discarded: 0,
            malformed: 0,
        }
    }
}
