//! What the report says.

ghost use Rattle.std.specs.Prelude.{◌≡◌, ◌⊎◌, ◌<◌, ◌++◌, slice_index, IfOk, OnOk};
ghost use Rattle.std.specs.Bool.{MatchBool};
ghost use Rattle.cd_engine.specs.Endings.{IsStopped as has_stopped};
ghost use Rattle.cd_engine.specs.Filing.{one_if};
ghost use Rattle.cd_ports.specs.Counter.{Rose};
ghost use Rattle.cd_top.specs.Refusing.{Refuses};
ghost use Rattle.cd_top.specs.Reports.{count_line, status_line, check_report, compact_report, inspect_report};
ghost use Rattle.cd_top.specs.Reports.{TellsReport, TellsCheck, TellsCompact, TellsInspect, ReportsDrill};
ghost use Rattle.cd_top.specs.Reports.{packet_lines, layer_skip_lines, other_skip_lines, file_lines};
ghost use Rattle.cd_top.specs.Statuses.{status_of, IsStopped, WriteOutranks};

use crate::status::{Status, status_of};
use cd_engine::{Counts, Ended, ReadCounts};
use cd_ports::{Sink, SinkFault};
use std::alloc::{AllocError, Global};

// Appends the line of a count.
#[tactic(auto, unfolding(crate::specs::Reports::count_line))]
pub(crate) fn put_count(text: &mut String, name: &str, count: u64) -> Result<(), AllocError>
    ensures { OnOk result (text.new.bytes.items ≡ text.old.bytes.items ++ count_line name.now count) }
{
    write!(text, "{name} {count}\n")
}

// Appends the last line: how the run ended.
fn put_status(text: &mut String, status: Status) -> Result<(), AllocError>
    ensures { OnOk result (text.new.bytes.items ≡ text.old.bytes.items ++ status_line status) }
{
    write!(text, "status {status}\n")
}

// The report of `check`: what is counted in the file, and how the run ended.
fn check_report(alloc: Global, counts: &ReadCounts, status: Status) -> Result<String, AllocError>
    ensures { IfOk result (λ text. text.bytes.items ≡ check_report counts.now status) }
{
    let mut text = String::new(alloc);
    put_count(&mut text, "blocks", counts.blocks)?;
    put_count(&mut text, "items", counts.items)?;
    put_count(&mut text, "malformed", counts.malformed)?;
    put_status(&mut text, status)?;
    Ok(text)
}

// The report of `inspect`: what is counted in the file and rebuilt of it, and how the run ended.
fn inspect_report(alloc: Global, counts: &ReadCounts, status: Status) -> Result<String, AllocError>
    ensures { IfOk result (λ text. text.bytes.items ≡ inspect_report counts.now status) }
{
    let mut lines = String::new(alloc);
    put_count(&mut lines, "blocks", counts.blocks)?;
    put_count(&mut lines, "items", counts.items)?;
    put_count(&mut lines, "malformed", counts.malformed)?;
    put_count(&mut lines, "packets", counts.packets)?;
    put_count(&mut lines, "bare", counts.bare)?;
    put_count(&mut lines, "not-udp", counts.not_udp)?;
    put_count(&mut lines, "too-long", counts.too_long)?;
    put_status(&mut lines, status)?;
    Ok(lines)
}

// The report of `drill`.
fn drill_report(alloc: Global) -> Result<String, AllocError>
    ensures { IfOk result (λ text. text.bytes.items ≡ status_line Status.Done) }
{
    let mut text = String::new(alloc);
    put_status(&mut text, Status::Done)?;
    Ok(text)
}

// Appends the lines of all packets, and of those with an event.
#[tactic(auto, unfolding(crate::specs::Reports::packet_lines))]
fn put_packets(text: &mut String, counts: &Counts) -> Result<(), AllocError>
    ensures { OnOk result (text.new.bytes.items ≡ text.old.bytes.items ++ packet_lines counts.now) }
{
    put_count(text, "packets", counts.packets)?;
    put_count(text, "queries", counts.queries)?;
    put_count(text, "responses", counts.responses)?;
    put_count(text, "malformed", counts.malformed)?;
    put_count(text, "discarded", counts.discarded)?;
    Ok(())
}

// Appends the line of the packets that are skipped for the reason with this number.
fn put_skipped(
    text: &mut String,
    name: &str,
    counts: &Counts,
    index: usize,
) -> Result<(), AllocError>
    requires { index < 9 }
    ensures { OnOk result (text.new.bytes.items
        ≡ text.old.bytes.items ++ count_line name.now (slice_index counts.now.skipped index)) }
{
    put_count(text, name, counts.skipped[index])?;
    Ok(())
}

// Appends the lines of the packets that are skipped since their layers hold no datagram of UDP.
#[tactic(auto, unfolding(crate::specs::Reports::layer_skip_lines))]
fn put_layer_skips(text: &mut String, counts: &Counts) -> Result<(), AllocError>
    ensures { OnOk result (text.new.bytes.items ≡ text.old.bytes.items ++ layer_skip_lines counts.now) }
{
    put_skipped(text, "skipped-link", counts, 0)?;
    put_skipped(text, "skipped-length", counts, 1)?;
    put_skipped(text, "skipped-not-ip", counts, 2)?;
    put_skipped(text, "skipped-fragment", counts, 3)?;
    put_skipped(text, "skipped-not-udp", counts, 4)?;
    Ok(())
}

// Appends the lines of the packets that are skipped for their port, for bytes that were not captured, or for their time.
#[tactic(auto, unfolding(crate::specs::Reports::other_skip_lines))]
fn put_other_skips(text: &mut String, counts: &Counts) -> Result<(), AllocError>
    ensures { OnOk result (text.new.bytes.items ≡ text.old.bytes.items ++ other_skip_lines counts.now) }
{
    put_skipped(text, "skipped-port", counts, 5)?;
    put_skipped(text, "skipped-cut", counts, 6)?;
    put_skipped(text, "skipped-time", counts, 7)?;
    put_skipped(text, "skipped-no-time", counts, 8)?;
    Ok(())
}

// Appends the line of what holds, 1, or does not, 0.
fn put_flag(text: &mut String, name: &str, holds: bool) -> Result<(), AllocError>
    ensures { OnOk result (text.new.bytes.items ≡ text.old.bytes.items ++ count_line name.now (one_if holds)) }
{
    put_count(text, name, u64::from(holds))?;
    Ok(())
}

// Appends the lines of what the file holds, and whether the capture is cut off.
#[tactic(auto, unfolding(crate::specs::Reports::file_lines))]
fn put_file(text: &mut String, counts: &Counts) -> Result<(), AllocError>
    ensures { OnOk result (text.new.bytes.items ≡ text.old.bytes.items ++ file_lines counts.now) }
{
    put_count(text, "dropped-records", counts.dropped)?;
    put_count(text, "blocks", counts.blocks)?;
    put_count(text, "items", counts.items)?;
    put_count(text, "pairs", counts.pairs)?;
    put_flag(text, "cut", counts.cut)?;
    Ok(())
}

// The report of `compact`: what is counted of the capture and its file, and how the run ended.
fn compact_report(alloc: Global, counts: &Counts, status: Status) -> Result<String, AllocError>
    ensures { IfOk result (λ text. text.bytes.items ≡ compact_report counts.now status) }
{
    let mut text = String::new(alloc);
    put_packets(&mut text, counts)?;
    put_layer_skips(&mut text, counts)?;
    put_other_skips(&mut text, counts)?;
    put_file(&mut text, counts)?;
    put_status(&mut text, status)?;
    Ok(text)
}

// Writes the report of a run that ends so, and answers how it ends with it.
fn tell<E: Sink>(report: &mut E, text: &str, status: Status) -> Status
    requires { ¬ IsStopped status }
    ensures tells { TellsReport (E.means report.old) (E.means report.new) result status text.now }
    ensures write_fault { result ≡ Status.WriteFault → Rose (E.means report.old).faults (E.means report.new).faults }
    ensures outranks { WriteOutranks (E.means report.old) (E.means report.new) result }
{
    match report.write(text.as_bytes()) {
        Ok(()) => status,
        Err(SinkFault::Failed) => Status::WriteFault,
        Err(SinkFault::NoMemory) => Status::NoMemory,
    }
}

/// Tells the place where the words break a rule.
pub(crate) fn refuse<E: Sink>(alloc: Global, place: u64, report: &mut E) -> Status
    ensures refuses { Refuses place (E.means report.old) (E.means report.new) result }
    ensures write_fault { result ≡ Status.WriteFault → Rose (E.means report.old).faults (E.means report.new).faults }
    ensures outranks { WriteOutranks (E.means report.old) (E.means report.new) result }
{
    match format!(in alloc; "usage {place}\n") {
        Ok(text) => tell(report, text.as_str(), Status::Usage),
        Err(AllocError) => Status::NoMemory,
    }
}

// Whether a write failed or memory ran out.
fn has_stopped(ended: Ended) -> bool
    ensures { MatchBool result (has_stopped ended) (¬ (has_stopped ended)) }
{
    match ended {
        Ended::WriteFault | Ended::NoMemory => true,
        _ => false,
    }
}

/// Reports on a compaction that ended so, with what it counted. Where a write failed or it found no memory nothing is
/// reported.
pub(crate) fn tell_compact<E: Sink>(
    alloc: Global,
    ended: Ended,
    counts: &Counts,
    report: &mut E,
) -> Status
    ensures tells { TellsCompact (E.means report.old) (E.means report.new) result ended counts.now }
    ensures write_fault { result ≡ Status.WriteFault →
        (ended ≡ Ended.WriteFault) ⊎ Rose (E.means report.old).faults (E.means report.new).faults }
    ensures outranks { WriteOutranks (E.means report.old) (E.means report.new) result }
{
    let status = status_of(ended);
    if has_stopped(ended) {
        return status;
    }
    match compact_report(alloc, counts, status) {
        Ok(text) => tell(report, text.as_str(), status),
        Err(AllocError) => Status::NoMemory,
    }
}

/// Reports on a check that ended so, with what it counted. Where it found no memory nothing is reported.
pub(crate) fn tell_check<E: Sink>(
    alloc: Global,
    ended: Ended,
    counts: &ReadCounts,
    report: &mut E,
) -> Status
    requires { ¬ (ended ≡ Ended.WriteFault) }
    ensures tells { TellsCheck (E.means report.old) (E.means report.new) result ended counts.now }
    ensures write_fault { result ≡ Status.WriteFault → Rose (E.means report.old).faults (E.means report.new).faults }
    ensures outranks { WriteOutranks (E.means report.old) (E.means report.new) result }
{
    let status = status_of(ended);
    if has_stopped(ended) {
        return status;
    }
    match check_report(alloc, counts, status) {
        Ok(text) => tell(report, text.as_str(), status),
        Err(AllocError) => Status::NoMemory,
    }
}

/// Reports on an inspection that ended so, with what it counted. Where a write failed or it found no memory nothing is
/// reported.
pub(crate) fn tell_inspect<E: Sink>(
    alloc: Global,
    ended: Ended,
    counts: &ReadCounts,
    report: &mut E,
) -> Status
    ensures tells { TellsInspect (E.means report.old) (E.means report.new) result ended counts.now }
    ensures write_fault { result ≡ Status.WriteFault →
        (ended ≡ Ended.WriteFault) ⊎ Rose (E.means report.old).faults (E.means report.new).faults }
    ensures outranks { WriteOutranks (E.means report.old) (E.means report.new) result }
{
    let status = status_of(ended);
    if has_stopped(ended) {
        return status;
    }
    match inspect_report(alloc, counts, status) {
        Ok(text) => tell(report, text.as_str(), status),
        Err(AllocError) => Status::NoMemory,
    }
}

/// Reports on a drill whose summary is written.
pub(crate) fn tell_drill<E: Sink>(alloc: Global, report: &mut E) -> Status
    ensures tells { ReportsDrill (E.means report.old) (E.means report.new) result }
    ensures write_fault { result ≡ Status.WriteFault → Rose (E.means report.old).faults (E.means report.new).faults }
    ensures outranks { WriteOutranks (E.means report.old) (E.means report.new) result }
{
    match drill_report(alloc) {
        Ok(text) => tell(report, text.as_str(), Status::Done),
        Err(AllocError) => Status::NoMemory,
    }
}
