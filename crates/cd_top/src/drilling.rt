//! A drill: a workload that is made, compacted and inspected, and what that prints.

ghost use Rattle.std.specs.Prelude.{◌≡◌, ◌⊎◌, ℕ, ◌≤◌, List, true, false, IfOk};
ghost use Rattle.cd_engine.specs.Compactions.{IsFileOf};
ghost use Rattle.cd_engine.specs.Counting.{AreCountsOf};
ghost use Rattle.cd_hints.specs.Settings.{default_settings};
ghost use Rattle.cd_inspection.specs.Rebuilding.{AreRebuiltCountsOf};
ghost use Rattle.cd_ports.specs.Counter.{Rose};
ghost use Rattle.cd_ports.specs.Memory.{mem_sink_held};
ghost use Rattle.cd_top.specs.Drilling;
ghost use Rattle.cd_top.specs.Drilling.{IsSummary};
ghost use Rattle.cd_top.specs.Reports.{ReportsDrill};
ghost use Rattle.cd_top.specs.Statuses.{Writes, WriteOutranks};

use crate::report::{put_count, tell_drill};
use crate::status::Status;
use cd_drive::NoSink;
use cd_engine::laws::each_capture_has_one_file;
use cd_engine::{Counts, Ended, ReadCounts, compact_plain, inspect};
use cd_hints::default_settings;
use cd_name::{Blob, List};
use cd_ports::{MemSink, Sink, SinkFault, SureSource};
use cd_words::DrillSettings;
use cd_workload::{file_sum, workload};
use std::alloc::{AllocError, Global};

// More bytes than the file of any workload has.
const MOST_BYTES: u64 = 1 << 48;

// The file of a capture, in memory, and what is counted of it.
#[derive(Drop)]
struct CompactedFile {
    file: MemSink,
    counts: Counts,
}

// A capture in memory, compacted with the default settings. Nothing but memory can fail, and an `Err` is for want of it.
fn compacted(alloc: Global, capture: Blob) -> Result<CompactedFile, AllocError>
    ensures file { IfOk result (λ made. IsFileOf default_settings capture (mem_sink_held made.file)) }
    ensures counts { IfOk result (λ made. AreCountsOf default_settings capture made.counts) }
{
    each_capture_has_one_file();
    let settings = default_settings(alloc)?;
    let mut src = SureSource::new(capture);
    let mut file = MemSink::new(alloc, List::from_vec(Vec::new(alloc)), 0);
    let (ended, counts) = compact_plain(alloc, &settings, &mut src, &mut file);
    match ended {
        Ended::Done => Ok(CompactedFile { file, counts }),
        _ => Err(AllocError),
    }
}

// What is counted of a file in memory, and of what is rebuilt of it. An `Err` is for want of memory.
fn counts_of(alloc: Global, file: &[u8]) -> Result<ReadCounts, AllocError>
    ensures { IfOk result (AreRebuiltCountsOf file.now) }
{
    let mut src = SureSource::new(Blob::from_slice(alloc, file)?);
    let mut nowhere = NoSink;
    let (ended, counts) = inspect(alloc, MOST_BYTES, &mut src, &mut nowhere);
    match ended {
        Ended::Done => Ok(counts),
        _ => Err(AllocError),
    }
}

// What is printed of a drill of so many lookups. An `Err` is for want of memory.
fn summary(
    alloc: Global,
    lookups: u64,
    counts: &Counts,
    file: &[u8],
    rebuilt: &ReadCounts,
) -> Result<String, AllocError>
    ensures { IfOk result (λ text. text.bytes.items ≡ Drilling.summary lookups counts.now file.now rebuilt.now) }
{
    let mut text = String::new(alloc);
    put_count(&mut text, "lookups", lookups)?;
    put_count(&mut text, "items", counts.items)?;
    put_count(&mut text, "pairs", counts.pairs)?;
    put_count(&mut text, "blocks", counts.blocks)?;
    put_count(&mut text, "file-bytes", file.len() as u64)?;
    put_count(&mut text, "file-sum", u64::from(file_sum(file)))?;
    put_count(&mut text, "packets", rebuilt.packets)?;
    Ok(text)
}

// What a drill prints under these settings. An `Err` is for want of memory.
fn summary_of(alloc: Global, settings: &DrillSettings) -> Result<String, AllocError>
    requires { settings.now.count ≤ 200000 }
    ensures { IfOk result (λ text. IsSummary settings.now text.bytes.items) }
{
    let capture = workload(alloc, settings.count, settings.seed)?;
    let made = compacted(alloc, capture)?;
    let file = made.file.contents();
    let rebuilt = counts_of(alloc, file)?;
    summary(alloc, settings.count, &made.counts, file, &rebuilt)
}

/// Drills: makes a workload, compacts it with the default settings, inspects the file, and writes the summary to `out`.
/// Where that is written, `report` says that the drill is done. The number of workers is not used.
pub(crate) fn drill<K: Sink, E: Sink>(
    alloc: Global,
    settings: &DrillSettings,
    out: &mut K,
    report: &mut E,
) -> Status
    requires { settings.now.count ≤ 200000 }
    ensures summary { (text : List ℕ) → IsSummary settings.now text →
        Writes (K.means out.old) (K.means out.new) result text }
    ensures tells { ReportsDrill (E.means report.old) (E.means report.new) result }
    ensures unwritten { (K.means out.old).refused ≡ false → (K.means out.new).refused ≡ true →
        E.means report.new ≡ E.means report.old }
    ensures write_fault { result ≡ Status.WriteFault →
        Rose (K.means out.old).faults (K.means out.new).faults
        ⊎ Rose (E.means report.old).faults (E.means report.new).faults }
    ensures outranks_out { WriteOutranks (K.means out.old) (K.means out.new) result }
    ensures outranks_report { WriteOutranks (E.means report.old) (E.means report.new) result }
{
    let text = match summary_of(alloc, settings) {
        Ok(text) => text,
        Err(AllocError) => return Status::NoMemory,
    };
    match out.write(text.as_bytes()) {
        Ok(()) => tell_drill(alloc, report),
        Err(SinkFault::Failed) => Status::WriteFault,
        Err(SinkFault::NoMemory) => Status::NoMemory,
    }
}
