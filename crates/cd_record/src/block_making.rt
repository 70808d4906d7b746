//! The block of a run.

ghost use Rattle.std.specs.Prelude.{◌≡◌, map, IfOk};
ghost use Rattle.cd_hints.specs.Records.{record_parts};
ghost use Rattle.cd_hints.specs.Validity.{IsValid};
ghost use Rattle.cd_record.specs.Blocks.{run_parts, IsCounted, HaveKinds};
ghost use Rattle.cd_record.specs.Blocks;
ghost use Rattle.cd_record.specs.Earliest.{IsEarlyForEach};

use crate::block_records::BlockRecords;
use cd_block::hints::OTHER_MALFORMED;
use cd_block::{KeptBlock, KeptItem, KeptMalformed, Stamp};
use cd_hints::{Rec, Settings, kept_item, kept_malformed};
use cd_name::List;
use std::alloc::{AllocError, Global};

// The items of the pairs, queries and responses, in a block with this earliest time.
fn items_of(
    alloc: Global,
    settings: &Settings,
    recs: &[Rec],
    earliest: Stamp,
) -> Result<List<KeptItem>, AllocError>
    requires valid { IsValid settings.now }
    requires kinds { HaveKinds (map record_parts recs.now) }
    requires early { IsEarlyForEach settings.now.params.ticks earliest (map record_parts recs.now) }
    ensures { IfOk result (λ items. items ≡ Blocks.kept_items settings.now.params (map record_parts recs.now) earliest) }
{
    let mut items = Vec::new(alloc);
    for rec in recs {
        match rec {
            Rec::Pair { .. } | Rec::Query(_) | Rec::Response(_) => {
                let item = kept_item(alloc, settings, rec, earliest)?;
                items.push(item)?;
            }
            Rec::Malformed(_) | Rec::Discarded(_) => {}
        }
    }
    Ok(List::from_vec(items))
}

// The malformed records, in a block with this earliest time. None is kept where their hint is not set.
fn malformed_of(
    alloc: Global,
    settings: &Settings,
    recs: &[Rec],
    earliest: Stamp,
) -> Result<List<KeptMalformed>, AllocError>
    requires valid { IsValid settings.now }
    requires kinds { HaveKinds (map record_parts recs.now) }
    requires early { IsEarlyForEach settings.now.params.ticks earliest (map record_parts recs.now) }
    ensures { IfOk result (λ items. items ≡
        Blocks.kept_malformed_items settings.now.params (map record_parts recs.now) earliest) }
{
    if settings.params.hints.other & OTHER_MALFORMED == 0 {
        return Ok(List::from_vec(Vec::new(alloc)));
    }
    let mut items = Vec::new(alloc);
    for rec in recs {
        if let Rec::Malformed(_) = rec {
            let item = kept_malformed(alloc, settings, rec, earliest)?;
            items.push(item)?;
        }
    }
    Ok(List::from_vec(items))
}

/// What is kept of the records of a block (RFC 8618 7.3.2): the items of its pairs, queries and responses, and its malformed
/// messages where their hint is set, each in the order of the records. Its block parameters are the first of the file. The settings
/// must be valid, and the statistics and the earliest time must be those of the records. An `Err` is for want of memory.
#[tactic(auto, using(crate::proofs::Keeping::earliest_is_early))]
pub fn kept_block(
    alloc: Global,
    settings: &Settings,
    records: &BlockRecords,
) -> Result<KeptBlock, AllocError>
    requires valid { IsValid settings.now }
    requires kinds { HaveKinds (run_parts records.now).records }
    requires counted { IsCounted settings.now.params.ticks (run_parts records.now) }
    ensures { IfOk result (λ block. block ≡ Blocks.kept_block settings.now.params (run_parts records.now).records) }
{
    let recs = records.recs.as_slice();
    let (items, malformed) = match records.earliest {
        None => (
            List::from_vec(Vec::new(alloc)),
            List::from_vec(Vec::new(alloc)),
        ),
        Some(earliest) => (
            items_of(alloc, settings, recs, earliest)?,
            malformed_of(alloc, settings, recs, earliest)?,
        ),
    };
    Ok(KeptBlock {
        earliest: records.earliest,
        params: 0,
        stats: Some(records.stats),
        items,
        malformed,
    })
}
