//! The records of one block, with what they count.

ghost use Rattle.std.specs.Prelude.{◌≡◌, ℕ, ◌<◌, ◌^◌, [], ◌∷◌, ◌++◌, map, OnOk, OnErr, IfOk, IfErr};
ghost use Rattle.std.specs.Option.{option_map};
ghost use Rattle.cd_hints.specs.Records.{record_parts};
ghost use Rattle.cd_record.specs.Blocks.{run_parts};
ghost use Rattle.cd_hints.specs.Options.{Admits};
ghost use Rattle.cd_hints.specs.declared.settings.options.NumberOption.TheVariants.{Ticks};
ghost use Rattle.cd_record.specs.Earliest;
ghost use Rattle.cd_record.specs.Runs.{record_weight};
ghost use Rattle.cd_record.specs.Tallies.{tally_of};

use crate::block_records::BlockRecords;
use crate::tally::Tally;
use cd_block::Stamp;
use cd_hints::Rec;
use cd_name::List;
use std::alloc::Global;

// The records of one block, with their tally.
#[derive(Debug, Drop)]
pub(crate) struct Run {
    pub(crate) recs: Vec<Rec>,
    pub(crate) tally: Tally,
}

// A tick as seconds and ticks within the second, of which a second has so many.
fn stamp_of(ticks: u64, tick: u64) -> Stamp
    requires { 0 < ticks }
    ensures { result ≡ Earliest.stamp_of ticks tick }
{
    Stamp {
        seconds: tick / ticks,
        ticks: tick % ticks,
    }
}

impl Run {
    // A run with no record.
    pub(crate) fn new(alloc: Global) -> Run
        ensures recs { result.recs.items ≡ [] }
        ensures tally { (ticks : ℕ) → result.tally ≡ tally_of ticks [] }
    {
        Run {
            recs: Vec::new(alloc),
            tally: Tally::none(),
        }
    }

    // Takes one more record, with which the run has this tally. For want of memory it hands the record back and changes nothing.
    pub(crate) fn add(&mut self, rec: Rec, tally: Tally) -> Result<(), Rec>
        ensures ok { OnOk result ((self.new.recs.items ≡ self.old.recs.items ++ rec ∷ []) × (self.new.tally ≡ tally)) }
        ensures err { OnErr result ((self.new.recs.items ≡ self.old.recs.items) × (self.new.tally ≡ self.old.tally)) }
        ensures handed_back { IfErr result (λ back. back ≡ rec) }
    {
        match self.recs.push(rec) {
            Ok(()) => {
                self.tally = tally;
                Ok(())
            }
            Err(refused) => Err(refused.value),
        }
    }

    // A run with one record. For want of memory it hands the record back. A second has so many ticks.
    pub(crate) fn of(alloc: Global, ticks: u64, rec: Rec) -> Result<Run, Rec>
        requires ticks { Admits Ticks ticks }
        requires light { record_weight (record_parts rec) < 2 ^ 64 }
        ensures recs { IfOk result (λ run. run.recs.items ≡ rec ∷ []) }
        ensures tally { IfOk result (λ run. run.tally ≡ tally_of ticks (record_parts rec ∷ [])) }
        ensures handed_back { IfErr result (λ back. back ≡ rec) }
    {
        let mut run = Run::new(alloc);
        let tally = run.tally.with(ticks, &rec);
        match run.add(rec, tally) {
            Ok(()) => Ok(run),
            Err(rec) => Err(rec),
        }
    }

    // The records of the block, of which a second has so many ticks.
    pub(crate) fn into_block(self, ticks: u64) -> BlockRecords
        requires { 0 < ticks }
        ensures { run_parts result ≡
            record {
              records = map record_parts self.recs.items;
              stats = self.tally.stats;
              earliest = option_map (Earliest.stamp_of ticks) self.tally.earliest;
            } }
    {
        let Run { recs, tally } = self;
        BlockRecords {
            recs: List::from_vec(recs),
            stats: tally.stats,
            earliest: tally.earliest.map(|tick| stamp_of(ticks, tick)),
        }
    }
}
