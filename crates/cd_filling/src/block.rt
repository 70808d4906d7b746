//! The block of a run (RFC 8618 7.3.2).

ghost use Rattle.std.specs.Prelude.{◌≡◌, [], ◌∷◌, ◌++◌, map, filter, OnOk, IfOk, if◌then◌else◌};
ghost use Rattle.std.specs.Option.{option_map_or};
ghost use Rattle.cd_block.specs.Tables.{indexed};
ghost use Rattle.cd_hints.specs.Records as records;
ghost use Rattle.cd_hints.specs.Records.{record_parts, main_event};
ghost use Rattle.cd_hints.specs.Ticks.{IsAtOrBefore};
ghost use Rattle.cd_hints.specs.Items.{kept_item};
ghost use Rattle.cd_hints.specs.Validity.{AreValidParams, IsValid};
ghost use Rattle.cd_record.specs.Blocks.{run_parts, kept_items, kept_malformed_items, kept_block, IsCounted, HaveKinds};
ghost use Rattle.cd_filling.specs.Filling.{empty_block};
ghost use Rattle.cd_record.specs.Earliest.{earliest_time, IsEarly, IsEarlyForEach};
ghost use Rattle.cd_table.specs.Growing.{each, put_item, put_malformed};

use crate::items::put_item;
use crate::malformed::put_hinted_malformed;
use cd_block::{Block, BlockItem, BlockMalformed, KeptBlock, Params, Stamp, Stats};
use cd_hints::{Rec, Settings};
use cd_name::List;
use cd_record::BlockRecords;
use cd_table::Tables;
use std::alloc::{AllocError, Global};

// Whether a record is an item of a block.
fn is_item(rec: &Rec) -> bool
    ensures { result ≡ records.is_item (record_parts rec.now) }
{
    match rec {
        Rec::Pair { .. } | Rec::Query(_) | Rec::Response(_) => true,
        Rec::Malformed(_) | Rec::Discarded(_) => false,
    }
}

// Whether a record is a malformed message.
fn is_malformed(rec: &Rec) -> bool
    ensures { result ≡ records.is_malformed (record_parts rec.now) }
{
    match rec {
        Rec::Malformed(_) => true,
        Rec::Pair { .. } | Rec::Query(_) | Rec::Response(_) | Rec::Discarded(_) => false,
    }
}

// Puts the record of an item, and the item after those that are there.
fn push_item(
    tables: &mut Tables,
    indexes: &mut Vec<u64>,
    params: &Params,
    rec: &Rec,
    earliest: Stamp,
    items: &mut Vec<BlockItem>,
) -> Result<(), AllocError>
    requires valid { AreValidParams params.now }
    requires earliest { IsAtOrBefore params.now.ticks earliest (main_event (record_parts rec.now)).time }
    ensures tables { OnOk result (tables.new ≡
        (put_item (kept_item params.now earliest (record_parts rec.now)) tables.old).tables) }
    ensures items { OnOk result (items.new.items ≡ items.old.items
        ++ (put_item (kept_item params.now earliest (record_parts rec.now)) tables.old).value ∷ []) }
{
    let item = put_item(tables, indexes, params, rec, earliest)?;
    items.push(item)?;
    Ok(())
}

// A malformed record goes aside, and any other one is dropped.
fn put_aside(rec: Rec, malformed: &mut Vec<Rec>) -> Result<(), AllocError>
    ensures { OnOk result (malformed.new.items ≡ (if records.is_malformed (record_parts rec)
        then malformed.old.items ++ rec ∷ [] else malformed.old.items)) }
{
    if is_malformed(&rec) {
        malformed.push(rec)?;
    }
    Ok(())
}

// Puts the record of an item, lays a malformed record aside, and drops any other one.
fn put_rec(
    tables: &mut Tables,
    indexes: &mut Vec<u64>,
    params: &Params,
    rec: Rec,
    earliest: Stamp,
    items: &mut Vec<BlockItem>,
    malformed: &mut Vec<Rec>,
) -> Result<(), AllocError>
    requires valid { AreValidParams params.now }
    requires early { IsEarly params.now.ticks earliest (record_parts rec) }
    ensures tables { OnOk result (tables.new ≡ (if records.is_item (record_parts rec)
        then (put_item (kept_item params.now earliest (record_parts rec)) tables.old).tables else tables.old)) }
    ensures items { OnOk result (items.new.items ≡ (if records.is_item (record_parts rec)
        then items.old.items ++ (put_item (kept_item params.now earliest (record_parts rec)) tables.old).value ∷ []
        else items.old.items)) }
    ensures malformed { OnOk result (malformed.new.items ≡ (if records.is_malformed (record_parts rec)
        then malformed.old.items ++ rec ∷ [] else malformed.old.items)) }
{
    if is_item(&rec) {
        push_item(tables, indexes, params, &rec, earliest, items)
    } else {
        put_aside(rec, malformed)
    }
}

// The items of a run, and its malformed records, which are put after all items.
#[derive(Drop)]
struct PutItems {
    items: Vec<BlockItem>,
    malformed: Vec<Rec>,
}

// Puts the items of a run, in a block with this earliest time, and drops each record that is none and no malformed one.
fn put_items(
    tables: &mut Tables,
    alloc: Global,
    settings: &Settings,
    recs: Vec<Rec>,
    earliest: Stamp,
) -> Result<PutItems, AllocError>
    requires valid { IsValid settings.now }
    requires early { IsEarlyForEach settings.now.params.ticks earliest (map record_parts recs.items) }
    ensures tables { OnOk result (tables.new ≡
        (each put_item (kept_items settings.now.params (map record_parts recs.items) earliest) tables.old).tables) }
    ensures items { IfOk result (λ put. put.items.items ≡
        (each put_item (kept_items settings.now.params (map record_parts recs.items) earliest) tables.old).value) }
    ensures malformed { IfOk result (λ put.
        map record_parts put.malformed.items ≡ filter records.is_malformed (map record_parts recs.items)) }
{
    let mut items = Vec::with_capacity(alloc, recs.len())?;
    let mut malformed = Vec::new(alloc);
    let mut indexes = Vec::new(alloc);
    'records: for rec in recs {
        put_rec(
            tables,
            &mut indexes,
            &settings.params,
            rec,
            earliest,
            &mut items,
            &mut malformed,
        )?;
    }
    Ok(PutItems { items, malformed })
}

// What stands in a block beside its tables.
#[derive(Drop)]
struct Placed {
    items: Vec<BlockItem>,
    malformed: Vec<BlockMalformed>,
}

// Puts the items and then the malformed messages of a run, in a block with this earliest time.
fn put_timed(
    tables: &mut Tables,
    alloc: Global,
    settings: &Settings,
    recs: Vec<Rec>,
    earliest: Stamp,
) -> Result<Placed, AllocError>
    requires valid { IsValid settings.now }
    requires kinds { HaveKinds (map record_parts recs.items) }
    requires early { IsEarlyForEach settings.now.params.ticks earliest (map record_parts recs.items) }
    ensures tables { OnOk result (tables.new ≡
        (each put_malformed (kept_malformed_items settings.now.params (map record_parts recs.items) earliest)
        (each put_item (kept_items settings.now.params (map record_parts recs.items) earliest) tables.old).tables).tables) }
    ensures items { IfOk result (λ placed. placed.items.items ≡
        (each put_item (kept_items settings.now.params (map record_parts recs.items) earliest) tables.old).value) }
    ensures malformed { IfOk result (λ placed. placed.malformed.items ≡
        (each put_malformed (kept_malformed_items settings.now.params (map record_parts recs.items) earliest)
        (each put_item (kept_items settings.now.params (map record_parts recs.items) earliest) tables.old).tables).value) }
{
    let put = put_items(tables, alloc, settings, recs, earliest)?;
    let malformed = put_hinted_malformed(
        tables,
        alloc,
        settings,
        put.malformed.as_slice(),
        earliest,
    )?;
    Ok(Placed {
        items: put.items,
        malformed,
    })
}

// The same of a run with its earliest time. Where it has none, none of its records is kept.
#[tactic(auto, unfolding(cd_table::specs::Growing::each))]
fn put_run(
    tables: &mut Tables,
    alloc: Global,
    settings: &Settings,
    recs: Vec<Rec>,
    earliest: Option<Stamp>,
) -> Result<Placed, AllocError>
    requires valid { IsValid settings.now }
    requires kinds { HaveKinds (map record_parts recs.items) }
    requires earliest { earliest ≡ earliest_time settings.now.params.ticks (map record_parts recs.items) }
    ensures tables { OnOk result (tables.new ≡
        (each put_malformed (option_map_or (kept_malformed_items settings.now.params (map record_parts recs.items)) earliest [])
        (each put_item (option_map_or (kept_items settings.now.params (map record_parts recs.items)) earliest [])
        tables.old).tables).tables) }
    ensures items { IfOk result (λ placed. placed.items.items ≡
        (each put_item (option_map_or (kept_items settings.now.params (map record_parts recs.items)) earliest [])
        tables.old).value) }
    ensures malformed { IfOk result (λ placed. placed.malformed.items ≡
        (each put_malformed (option_map_or (kept_malformed_items settings.now.params (map record_parts recs.items)) earliest [])
        (each put_item (option_map_or (kept_items settings.now.params (map record_parts recs.items)) earliest [])
        tables.old).tables).value) }
{
    match earliest {
        Some(earliest) => put_timed(tables, alloc, settings, recs, earliest),
        None => Ok(Placed {
            items: Vec::new(alloc),
            malformed: Vec::new(alloc),
        }),
    }
}

// A block with this earliest time and these statistics, and nothing in it.
fn empty_block(alloc: Global, earliest: Option<Stamp>, stats: Stats) -> KeptBlock
    ensures { result ≡ empty_block earliest stats }
{
    KeptBlock {
        earliest,
        params: 0,
        stats: Some(stats),
        items: List::from_vec(Vec::new(alloc)),
        malformed: List::from_vec(Vec::new(alloc)),
    }
}

/// The block of a run with its own statistics and its own earliest time. The settings must be valid. An `Err` is for want
/// of memory.
pub fn filled_block(
    alloc: Global,
    settings: &Settings,
    run: BlockRecords,
) -> Result<Block, AllocError>
    requires valid { IsValid settings.now }
    requires kinds { HaveKinds (run_parts run).records }
    requires counted { IsCounted settings.now.params.ticks (run_parts run) }
    ensures { IfOk result (λ block. block ≡ indexed (kept_block settings.now.params (run_parts run).records)) }
{
    let BlockRecords {
        recs,
        stats,
        earliest,
    } = run;
    let frame = empty_block(alloc, earliest, stats);
    let mut tables = Tables::new(alloc);
    let placed = put_run(&mut tables, alloc, settings, recs.into_vec(), earliest)?;
    let block = tables.into_block(alloc, &frame, placed.items, placed.malformed)?;
    Ok(block)
}
