//! Cuts a list of records into runs.

ghost use Rattle.std.specs.Prelude.{◌≡◌, ◌↔◌, List, [], ◌∷◌, ◌++◌, length, IfOk, IfErr, OnErr, IfSome, IsNone};
ghost use Rattle.cd_hints.specs.Records.{RecordParts, record_parts, HasKinds};
ghost use Rattle.cd_hints.specs.Validity.{IsValid};
ghost use Rattle.cd_record.specs.Blocks.{RunParts, run_parts, counted_run, HaveKinds};
ghost use Rattle.cd_record.specs.Runs.{limits_of, run_weight, IsAdmissible};

use crate::block_records::BlockRecords;
use crate::run::Run;
use cd_hints::{Rec, Settings};
use std::alloc::Global;
use std::marker::Model;
use std::mem;

/// Why a record was not taken.
#[derive(Debug, Drop)]
pub enum CutFault {
    /// For want of memory. The record is handed back.
    NoMemory(Rec),
}

/// Cuts a list of records into runs, record by record.
#[derive(Debug, Drop)]
pub struct Cutter {
    alloc: Global,
    max_items: u64,
    max_weight: u64,
    ticks: u64,
    run: Run,
}

impl Model for Cutter {
    ghost use Rattle.std.specs.Prelude.{map};
    ghost use Rattle.cd_hints.specs.Records.{record_parts};
    ghost use Rattle.cd_record.specs.Cutting.{Present};
    ghost use Rattle.cd_record.specs.Tallies.{IsSound};

    ghost Value = { Present };

    ghost view = { λ c. record { limits = record { items = c.max_items; weight = c.max_weight }; ticks = c.ticks; run = map record_parts c.run.recs.items } };

    ghost invariant = { λ c. IsSound (record { items = c.max_items; weight = c.max_weight }) c.ticks (map record_parts c.run.recs.items) c.run.tally };
}

impl Cutter {
    ghost use Rattle.cd_record.specs.Cutting.{StandsFor, Pushes, AreCountedRuns, given_runs};

    /// A cutter with no record. The settings must be valid; of them it keeps the limits of a block and the ticks of a second.
    pub fn new(alloc: Global, settings: &Settings) -> Cutter
        requires { IsValid settings.now }
        ensures limits { result.limits ≡ limits_of settings.now }
        ensures ticks { result.ticks ≡ settings.now.params.ticks }
        ensures empty { result.run ≡ [] }
        ensures history { StandsFor result [] [] }
    {
        Cutter {
            alloc,
            max_items: settings.params.max_items,
            max_weight: settings.block_bytes,
            ticks: settings.params.ticks,
            run: Run::new(alloc),
        }
    }

    /// Takes one more record, which must be one that may stand in a block alone. `None` says that it has joined the present run,
    /// which it does exactly where that may stand in one block with it. Else the present run is given, and the record begins the
    /// next. An `Err` is for want of memory, hands the record back and changes nothing.
    pub fn push(&mut self, rec: Rec) -> Result<Option<BlockRecords>, CutFault>
        requires kinds { HasKinds (record_parts rec) }
        requires alone { IsAdmissible self.old.limits (record_parts rec ∷ []) }
        ensures pushes { IfOk result (λ given. Pushes self.old (record_parts rec) given self.new) }
        ensures kinds { IfOk result (λ given. IfSome given (λ b. HaveKinds (run_parts b).records)) }
        ensures unchanged { OnErr result (self.new ≡ self.old) }
        ensures handed_back { IfErr result (λ fault. fault ≡ CutFault.NoMemory rec) }
        ensures history { IfOk result (λ given. (pushed : List RecordParts) (runs : List RunParts) →
            StandsFor self.old pushed runs → StandsFor self.new (pushed ++ record_parts rec ∷ []) (runs ++ given_runs given)) }
    {
        let tally = self.run.tally.with(self.ticks, &rec);
        if tally.is_within(self.max_items, self.max_weight) {
            if let Err(rec) = self.run.add(rec, tally) {
                return Err(CutFault::NoMemory(rec));
            }
            return Ok(None);
        }
        match Run::of(self.alloc, self.ticks, rec) {
            Ok(next) => {
                let run = mem::replace(&mut self.run, next);
                Ok(Some(run.into_block(self.ticks)))
            }
            Err(rec) => Err(CutFault::NoMemory(rec)),
        }
    }

    /// Ends the list: gives the present run, or `None` exactly where it is empty. The cutter is then as a new one.
    pub fn finish(&mut self) -> Option<BlockRecords>
        ensures none { IsNone result ↔ (self.old.run ≡ []) }
        ensures given { IfSome result (λ b. run_parts b ≡ counted_run self.old.ticks self.old.run) }
        ensures kinds { IfSome result (λ b. HaveKinds (run_parts b).records) }
        ensures empty { self.new ≡ record self.old { run = [] } }
        ensures whole { (pushed : List RecordParts) (runs : List RunParts) → StandsFor self.old pushed runs →
            AreCountedRuns self.old.limits self.old.ticks pushed (runs ++ given_runs result) }
        ensures history { StandsFor self.new [] [] }
    {
        if self.run.recs.is_empty() {
            return None;
        }
        let run = mem::replace(&mut self.run, Run::new(self.alloc));
        Some(run.into_block(self.ticks))
    }

    /// The number of records in the present run.
    pub fn pending(&self) -> u64
        ensures { result ≡ length self.now.run }
    {
        self.run.recs.len() as u64
    }

    /// The weight of the present run.
    pub fn pending_weight(&self) -> u64
        ensures { result ≡ run_weight self.now.run }
    {
        self.run.tally.weight
    }
}
