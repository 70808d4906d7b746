//! Records, filed one by one: what stands in the file of them grows.

ghost use Rattle.std.specs.Prelude.{◌≡◌, [], ◌++◌, IfOk, OnOk};
ghost use Rattle.std.specs.List.{All};
ghost use Rattle.cd_hints.specs.Records.{record_parts, HasKinds, is_item};
ghost use Rattle.cd_hints.specs.Validity.{IsValid};
ghost use Rattle.cd_record.specs.Blocks.{run_parts, IsCounted, HaveKinds};
ghost use Rattle.cd_record.specs.Laws.{IsLight, events_of};
ghost use Rattle.cd_engine.specs.Counting.{is_pair};
ghost use Rattle.cd_engine.specs.Filing.{one_if, counts_with, nothing_filed, with_block, with_last, filed_more};
ghost use Rattle.cd_engine.specs.Filing.{ending_of, blocks_at_end};

use crate::counts::{NO_RECORD_COUNTS, RecordCounts};
use cd_bytes::Out;
use cd_file::{block_bytes, end_bytes, head_bytes};
use cd_filling::filled_block;
use cd_hints::{Keeper, Rec, Settings, dropped_by};
use cd_name::Blob;
use cd_record::laws::one_record_is_admissible;
use cd_record::{BlockRecords, Cutter};
use std::alloc::{AllocError, Global};
use std::marker::Model;

/// Records that are filed one by one. The output is the front of their file that is closed: the head, and each block
/// that no later record changes. An `Err` of any call is for want of memory, and the value is of no more use then.
#[derive(Drop)]
pub(crate) struct Filing {
    alloc: Global,
    settings: Settings,
    cutter: Cutter,
    output: Out,
    blocks: u64,
    counts: RecordCounts,
}

impl Model for Filing {
    ghost use Rattle.std.specs.Prelude.{◌≡◌};
    ghost use Rattle.cd_engine.specs.Filing.{Filed};
    ghost use Rattle.cd_hints.specs.Validity.{IsValid};
    ghost use Rattle.cd_record.specs.Runs.{limits_of};

    ghost Value = { Filed };

    ghost view = { λ f. record {
      settings = f.settings;
      present = f.cutter.run;
      output = f.output;
      blocks = f.blocks;
      counts = f.counts;
    } };

    ghost invariant = { λ f. record {
      valid : IsValid f.settings;
      limits : f.cutter.limits ≡ limits_of f.settings;
      ticks : f.cutter.ticks ≡ f.settings.params.ticks;
    } };
}

/// What is left of a filing at its end.
#[derive(Drop)]
pub(crate) struct FiledRecords {
    /// All output that was not cleared.
    pub(crate) output: Blob,
    pub(crate) blocks: u64,
    pub(crate) counts: RecordCounts,
}

// One where a record is an item, and one where it is a pair.
fn items_and_pairs(rec: &Rec) -> (u64, u64)
    ensures items { result.0 ≡ one_if (is_item (record_parts rec.now)) }
    ensures pairs { result.1 ≡ one_if (is_pair (record_parts rec.now)) }
{
    match rec {
        Rec::Pair { .. } => (1, 1),
        Rec::Query(_) | Rec::Response(_) => (1, 0),
        Rec::Malformed(_) | Rec::Discarded(_) => (0, 0),
    }
}

// The counts with one record more.
fn counts_with(settings: &Settings, counts: RecordCounts, rec: &Rec) -> RecordCounts
    requires { IsValid settings.now }
    ensures { result ≡ counts_with settings.now.params.rr_types counts (record_parts rec.now) }
{
    let keeper = Keeper::of_ascending(&settings.params);
    let (items, pairs) = items_and_pairs(rec);
    RecordCounts {
        items: counts.items.saturating_add(items),
        pairs: counts.pairs.saturating_add(pairs),
        dropped: counts.dropped.saturating_add(dropped_by(&keeper, rec)),
    }
}

impl Filing {
    /// No record, under valid settings. The head is ready.
    pub(crate) fn new(alloc: Global, settings: Settings) -> Result<Filing, AllocError>
        requires { IsValid settings }
        ensures { IfOk result (λ f. f ≡ nothing_filed settings) }
    {
        let mut output = Out::new(alloc);
        head_bytes(&settings.params, &mut output)?;
        Ok(Filing {
            alloc,
            cutter: Cutter::new(alloc, &settings),
            settings,
            output,
            blocks: 0,
            counts: NO_RECORD_COUNTS,
        })
    }

    // Puts the block of a run at the end of the output.
    fn put_block(&mut self, run: BlockRecords) -> Result<(), AllocError>
        requires kinds { HaveKinds (run_parts run).records }
        requires counted { IsCounted self.old.settings.params.ticks (run_parts run) }
        ensures { OnOk result (self.new ≡ with_block self.old (run_parts run).records) }
    {
        let block = filled_block(self.alloc, &self.settings, run)?;
        block_bytes(&block, &mut self.output)?;
        self.blocks = self.blocks.saturating_add(1);
        Ok(())
    }

    /// Files one record more. Its events have the kinds that it names, and weigh no more than those of datagrams.
    pub(crate) fn push(&mut self, rec: Rec) -> Result<(), AllocError>
        requires kinds { HasKinds (record_parts rec) }
        requires light { All IsLight (events_of (record_parts rec)) }
        ensures { OnOk result (self.new ≡ filed_more self.old (record_parts rec)) }
    {
        one_record_is_admissible();
        self.counts = counts_with(&self.settings, self.counts, &rec);
        match self.cutter.push(rec) {
            Ok(None) => Ok(()),
            Ok(Some(run)) => self.put_block(run),
            Err(_) => Err(AllocError),
        }
    }

    // Puts the block of the present run, where it has a record, at the end of the output.
    fn put_last(&mut self) -> Result<(), AllocError>
        ensures { OnOk result (self.new ≡ with_last self.old) }
    {
        match self.cutter.finish() {
            None => Ok(()),
            Some(run) => self.put_block(run),
        }
    }

    /// The output that was not cleared.
    pub(crate) fn output(&self) -> &[u8]
        ensures { result.now ≡ self.now.output }
    {
        self.output.bytes()
    }

    /// Clears the output.
    pub(crate) fn clear_output(&mut self)
        ensures { self.new ≡ record self.old { output = [] } }
    {
        self.output = Out::new(self.alloc);
    }

    /// Ends the file.
    pub(crate) fn finish(self) -> Result<FiledRecords, AllocError>
        ensures output { IfOk result (λ f. f.output ≡ self.output ++ ending_of self) }
        ensures blocks { IfOk result (λ f. f.blocks ≡ blocks_at_end self) }
        ensures counts { IfOk result (λ f. f.counts ≡ self.counts) }
    {
        let mut filing = self;
        filing.put_last()?;
        end_bytes(&mut filing.output)?;
        Ok(FiledRecords {
            output: Blob::from_slice(filing.alloc, filing.output.bytes())?,
            blocks: filing.blocks,
            counts: filing.counts,
        })
    }
}
