//! Malformed messages, put into the tables of a block (RFC 8618 7.3.2.6).

ghost use Rattle.std.specs.Prelude.{◌≡◌, [], map, OnOk, IfOk, if◌then◌else◌};
ghost use Rattle.std.specs.List.{All};
ghost use Rattle.cd_hints.specs.Hinted.{is_hinted};
ghost use Rattle.cd_hints.specs.Items.{kept_malformed};
ghost use Rattle.cd_hints.specs.Records.{record_parts, IsMalformed};
ghost use Rattle.cd_hints.specs.Validity.{IsValid};
ghost use Rattle.cd_record.specs.Blocks.{HaveKinds};
ghost use Rattle.cd_record.specs.Earliest.{IsEarlyForEach};
ghost use Rattle.cd_table.specs.Growing.{each, put_malformed};

use cd_block::hints::OTHER_MALFORMED;
use cd_block::{BlockMalformed, Stamp};
use cd_hints::{Rec, Settings, kept_malformed};
use cd_table::{Tables, put_malformed};
use std::alloc::{AllocError, Global};

// Puts malformed messages, whole, in a block with this earliest time.
fn put_each_malformed(
    tables: &mut Tables,
    alloc: Global,
    settings: &Settings,
    recs: &[Rec],
    earliest: Stamp,
) -> Result<Vec<BlockMalformed>, AllocError>
    requires valid { IsValid settings.now }
    requires malformed { All IsMalformed (map record_parts recs.now) }
    requires kinds { HaveKinds (map record_parts recs.now) }
    requires early { IsEarlyForEach settings.now.params.ticks earliest (map record_parts recs.now) }
    ensures tables { OnOk result (tables.new ≡ (each put_malformed
        (map (kept_malformed settings.now.params earliest) (map record_parts recs.now)) tables.old).tables) }
    ensures placed { IfOk result (λ placed. placed.items ≡ (each put_malformed
        (map (kept_malformed settings.now.params earliest) (map record_parts recs.now)) tables.old).value) }
{
    let mut placed = Vec::with_capacity(alloc, recs.len())?;
    'malformed: for rec in recs {
        let kept = kept_malformed(alloc, settings, rec, earliest)?;
        let message = put_malformed(tables, alloc, &kept)?;
        placed.push(message)?;
    }
    Ok(placed)
}

/// Puts malformed messages, whole, in a block with this earliest time, or none where their hint is not set.
#[tactic(auto, unfolding(cd_table::specs::Growing::each))]
pub(crate) fn put_hinted_malformed(
    tables: &mut Tables,
    alloc: Global,
    settings: &Settings,
    recs: &[Rec],
    earliest: Stamp,
) -> Result<Vec<BlockMalformed>, AllocError>
    requires valid { IsValid settings.now }
    requires malformed { All IsMalformed (map record_parts recs.now) }
    requires kinds { HaveKinds (map record_parts recs.now) }
    requires early { IsEarlyForEach settings.now.params.ticks earliest (map record_parts recs.now) }
    ensures tables { OnOk result (tables.new ≡ (each put_malformed
        (if is_hinted settings.now.params.hints.other OTHER_MALFORMED
        then map (kept_malformed settings.now.params earliest) (map record_parts recs.now) else [])
        tables.old).tables) }
    ensures placed { IfOk result (λ placed. placed.items ≡ (each put_malformed
        (if is_hinted settings.now.params.hints.other OTHER_MALFORMED
        then map (kept_malformed settings.now.params earliest) (map record_parts recs.now) else [])
        tables.old).value) }
{
    if settings.params.hints.other & OTHER_MALFORMED == 0 {
        return Ok(Vec::new(alloc));
    }
    put_each_malformed(tables, alloc, settings, recs, earliest)
}
