//! Records of a capture, cut into blocks.

ghost use Rattle.std.specs.Prelude.{◌≡◌, IfSome, IfOk};
ghost use Rattle.std.specs.List.{All};
ghost use Rattle.cd_hints.specs.Records.{record_parts, HasKinds};
ghost use Rattle.cd_hints.specs.Validity.{IsValid};
ghost use Rattle.cd_record.specs.Blocks.{run_parts, HaveKinds, IsCounted};
ghost use Rattle.cd_record.specs.Laws.{IsLight, events_of};
ghost use Rattle.cd_record.specs.Runs.{limits_of};

use crate::events::Events;
use crate::files::put_spelled;
use crate::kept::put_block;
use crate::records::record_at;
use cd_hints::{Rec, Settings, dropped};
use cd_record::laws::one_record_is_admissible;
use cd_record::{BlockRecords, Cutter, kept_block};
use std::alloc::{AllocError, Global};
use std::fmt::Write;

// Pushes a record, and gives the run that it ends.
fn push(
    settings: &Settings,
    cutter: &mut Cutter,
    rec: Rec,
) -> Result<Option<BlockRecords>, AllocError>
    requires valid { IsValid settings.now }
    requires kinds { HasKinds (record_parts rec) }
    requires light { All IsLight (events_of (record_parts rec)) }
    requires limits { cutter.old.limits ≡ limits_of settings.now }
    requires ticks { cutter.old.ticks ≡ settings.now.params.ticks }
    ensures limits { cutter.new.limits ≡ limits_of settings.now }
    ensures ticks { cutter.new.ticks ≡ settings.now.params.ticks }
    ensures kinds { IfOk result (λ given. IfSome given (λ b. HaveKinds (run_parts b).records)) }
    ensures counted { IfOk result (λ given. IfSome given (λ b. IsCounted settings.now.params.ticks (run_parts b))) }
{
    one_record_is_admissible();
    match cutter.push(rec) {
        Ok(given) => Ok(given),
        Err(_) => Err(AllocError),
    }
}

fn word_of(rec: &Rec) -> &'static str {
    match rec {
        Rec::Pair { .. } => "query-response",
        Rec::Query(_) => "unmatched-query",
        Rec::Response(_) => "unmatched-response",
        Rec::Malformed(_) => "malformed",
        Rec::Discarded(_) => "discarded",
    }
}

/// How the blocks of a capture are shown.
#[derive(Clone, Copy, Debug, PartialEq, Eq)]
pub enum Shown {
    /// Each record, what is dropped of it and what waits with it, and each block with its values where they belong.
    Kept,
    /// Each block as it is spelled.
    Spelled,
}

// What is kept of a run.
fn put_run(
    alloc: Global,
    text: &mut String,
    settings: &Settings,
    shown: Shown,
    run: &BlockRecords,
) -> Result<(), AllocError>
    requires valid { IsValid settings.now }
    requires kinds { HaveKinds (run_parts run.now).records }
    requires counted { IsCounted settings.now.params.ticks (run_parts run.now) }
{
    let block = kept_block(alloc, settings, run)?;
    match shown {
        Shown::Kept => put_block(text, &block),
        Shown::Spelled => put_spelled(alloc, text, &block),
    }
}

// A record, and how many resource records are dropped of it.
fn put_record(text: &mut String, settings: &Settings, rec: &Rec) -> Result<(), AllocError> {
    let dropped = dropped(settings, rec);
    write!(text, "record {} dropped {dropped}", word_of(rec))
}

// What waits for the end of a block.
fn put_pending(text: &mut String, cutter: &Cutter) -> Result<(), AllocError> {
    write!(text, " pending {}", cutter.pending())?;
    writeln!(text, " pending-weight {}", cutter.pending_weight())
}

/// The blocks of events with their partners, each where it ends.
pub fn put_runs(
    alloc: Global,
    text: &mut String,
    settings: &Settings,
    shown: Shown,
    events: Events,
    partners: &[Option<usize>],
) -> Result<(), AllocError>
    requires { IsValid settings.now }
{
    let mut slots = events.into_slots()?;
    let mut cutter = Cutter::new(alloc, settings);
    'partners: for (index, partner) in partners.iter().enumerate() {
        // A record stands where the first of its events does.
        if partner.unwrap_or(usize::MAX) < index {
            continue;
        }
        if let Some(rec) = record_at(&mut slots, index, *partner) {
            if shown == Shown::Kept {
                put_record(text, settings, &rec)?;
            }
            let given = push(settings, &mut cutter, rec)?;
            if shown == Shown::Kept {
                put_pending(text, &cutter)?;
            }
            if let Some(run) = given {
                put_run(alloc, text, settings, shown, &run)?;
            }
        }
    }
    let last = cutter.finish();
    match last {
        Some(run) => put_run(alloc, text, settings, shown, &run),
        None => Ok(()),
    }
}
