//! The top call.

ghost use Rattle.std.specs.Prelude.{◌≡◌, ◌⊎◌, ℕ, ◌+◌, ◌-◌, ◌<◌, ◌≤◌, List, length, take, Some, true, false};
ghost use Rattle.std.specs.Io.KnownBytes.{IsAtEnd};
ghost use Rattle.cd_drive.specs.Driving.{IsTaken, AppendsMore};
ghost use Rattle.cd_engine.specs.Checking.{IsWholeFile, AreReadCountsOf};
ghost use Rattle.cd_engine.specs.Compacting.{IsServedCapture};
ghost use Rattle.cd_engine.specs.Compactions.{IsFileOf, IsClosedPartOf};
ghost use Rattle.cd_engine.specs.Counting.{AreCountsOf};
ghost use Rattle.cd_engine.specs.declared.counts.Counts.{Counts};
ghost use Rattle.cd_engine.specs.declared.ended.Ended.TheVariants as ended;
ghost use Rattle.cd_file.specs.declared.refusal.BadFile.{BadFile};
ghost use Rattle.cd_engine.specs.Projecting.{capture_of_runs};
ghost use Rattle.cd_engine.specs.ReadBack.{ParamsInRange};
ghost use Rattle.cd_hints.specs.declared.settings.Settings.{Settings};
ghost use Rattle.cd_inspection.specs.Rebuilding.{AreRebuiltCountsOf, rebuilt_capture};
ghost use Rattle.cd_inspection.specs.declared.counting.ReadCounts.{ReadCounts};
ghost use Rattle.cd_message.specs.MessageLaws.{AreBytes};
ghost use Rattle.cd_packet.specs.declared.capture.BadCapture.{BadCapture};
ghost use Rattle.cd_ports.specs.Counter.{Rose};
ghost use Rattle.cd_words.specs.Commands.{SaysCommand, IsLine, BreaksRuleAt};
ghost use Rattle.cd_words.specs.declared.drill.DrillSettings.{DrillSettings};
ghost use Rattle.cd_top.specs.Drilling.{IsSummary};
ghost use Rattle.cd_top.specs.Refusing.{RefusesWords};
ghost use Rattle.cd_top.specs.Reports.{ReportsCheck, ReportsCompact, ReportsInspect, ReportsDrill};
ghost use Rattle.cd_top.specs.Run.{RunsOver, ReadsInput, IsUnended, IsTooLong, StopsReading, max_input_of, used_bytes};
ghost use Rattle.cd_top.specs.Run.{refusal_used, ended_by};
ghost use Rattle.cd_top.specs.Statuses.{status_of, EndsAs, ComesExactly, Writes, WriteOutranks, ReadFaultIsTold};

use crate::Status;
use crate::drilling::drill;
use crate::report::{refuse, tell_check, tell_compact, tell_inspect};
use cd_engine::laws::what_is_kept_is_rebuilt;
use cd_engine::{check, compact_plain, inspect};
use cd_name::Blob;
use cd_ports::{Sink, Source};
use cd_words::laws::{
    commands_have_valid_settings, words_are_a_line_or_break_a_rule, words_say_at_most_one_command,
};
use cd_words::{Command, WordsFault, read_words};
use std::alloc::Global;

/// All that the program does. By `compact` it compacts the capture that it reads from `src`, a pcap or a pcapng, and
/// writes the C-DNS file to `out` (RFC 8618). By `check` it reads a C-DNS file from `src`, and by `inspect` it writes a
/// capture of the packets that are rebuilt of it to `out`. Each writes to `report` what it counted and how that ended. By
/// `drill` it reads nothing: it makes a workload, compacts it and inspects the file, and writes a summary to `out`.
///
/// The words are the command line without the program's name: a command and its options, by the language of
/// `docs/FORMATS.md`. Words that are no command line are refused with `Usage`, and `report` gets `usage PLACE`, where
/// `PLACE` is the number, from 0, of the first word that breaks a rule, or the number of words where one is missing.
/// At most one byte more than `max-input` is taken. The number of workers is not used.
///
/// With the clauses `file` and `projection`, `inspect` of the file that `compact` wrote writes exactly the packets that the
/// settings keep of the capture.
///
/// What is said of bytes holds where the source and the sinks tell their bytes; all else holds for every source and
/// sink.
pub fn run_plain<S: Source, K: Sink, E: Sink>(
    alloc: Global,
    words: &[Blob],
    src: &mut S,
    out: &mut K,
    report: &mut E,
) -> Status
    // Usage comes exactly where the words are no command line. Nothing is read then, and the report says the place.
    ensures usage { ComesExactly result Status.Usage (¬ (IsLine words.now)) }
    ensures refuses { (place : ℕ) → BreaksRuleAt words.now place →
        RefusesWords place (S.means src.old) (S.means src.new) (K.means out.old) (K.means out.new)
        (E.means report.old) (E.means report.new) result }

    // BadCapture and BadFile come exactly where the bytes used are refused so, and TooLong exactly where there is a byte
    // too many and those used are not refused.
    ensures bad_capture { (c : Command) (taken : List ℕ) →
        RunsOver words.now (S.means src.old) (S.means src.new) c taken → (b : BadCapture) →
        ComesExactly result (Status.BadCapture b)
        (refusal_used c taken (S.means src.new).ended ≡ Some (ended.BadCapture b)) }
    ensures bad_file { (c : Command) (taken : List ℕ) →
        RunsOver words.now (S.means src.old) (S.means src.new) c taken → (b : BadFile) →
        ComesExactly result (Status.BadFile b)
        (refusal_used c taken (S.means src.new).ended ≡ Some (ended.BadFile b)) }
    ensures too_long { (c : Command) (taken : List ℕ) →
        RunsOver words.now (S.means src.old) (S.means src.new) c taken →
        ComesExactly result Status.TooLong (IsTooLong c taken) }

    // Done comes only where the source told its end, and nothing is left, unless the command reads nothing.
    ensures done { (c : Command) → SaysCommand words.now c → ReadsInput c → result ≡ Status.Done →
        (S.means src.new).ended ≡ true }
    ensures done_whole { (c : Command) → SaysCommand words.now c → ReadsInput c → result ≡ Status.Done →
        IsAtEnd (S.means src.new).left }

    // Each fault comes only where its count rose. One that comes is told, and a write fault outranks all but NoMemory.
    ensures read_fault { result ≡ Status.ReadFault → Rose (S.means src.old).faults (S.means src.new).faults }
    ensures read_fault_told { ReadFaultIsTold (S.means src.old) (S.means src.new) result }
    ensures write_fault { result ≡ Status.WriteFault →
        Rose (K.means out.old).faults (K.means out.new).faults
        ⊎ Rose (E.means report.old).faults (E.means report.new).faults }
    ensures outranks_out { WriteOutranks (K.means out.old) (K.means out.new) result }
    ensures outranks_report { WriteOutranks (E.means report.old) (E.means report.new) result }

    // In one: the run ends as the bytes taken say, else by the end of the source, else by a fault.
    ensures ending { (c : Command) (taken : List ℕ) →
        RunsOver words.now (S.means src.old) (S.means src.new) c taken →
        EndsAs result (status_of (ended_by c taken (S.means src.new).ended)) }

    // By `compact` the file of the bytes used, or of those before the place that is refused, is written. What was closed
    // before the last 65,536 bytes is written in any case.
    ensures file { (s : Settings) (taken : List ℕ) →
        RunsOver words.now (S.means src.old) (S.means src.new) (Command.Compact s) taken →
        (file : List ℕ) → IsFileOf s (used_bytes (Command.Compact s) taken) file →
        Writes (K.means out.old) (K.means out.new) result file }
    ensures early { (s : Settings) (taken : List ℕ) →
        RunsOver words.now (S.means src.old) (S.means src.new) (Command.Compact s) taken →
        65536 < length taken →
        (front : List ℕ) → IsClosedPartOf s (take (length taken - 65536) taken) front →
        AppendsMore (K.means out.old).contents (K.means out.new).contents front }

    // Of that file is rebuilt exactly what the settings keep of the capture: of each run the packets of its kept block.
    ensures projection { (s : Settings) (taken file : List ℕ) →
        RunsOver words.now (S.means src.old) (S.means src.new) (Command.Compact s) taken →
        ParamsInRange s.params → AreBytes taken →
        (is : IsFileOf s (used_bytes (Command.Compact s) taken) file) →
        rebuilt_capture file ≡ capture_of_runs s.params is.compaction.runs }

    // By `inspect` the capture that is rebuilt of the bytes used, or of the blocks before the one that is refused, is
    // written. What is rebuilt of the blocks that were whole before the last 65,536 bytes is written in any case.
    ensures capture { (max_input : ℕ) (taken : List ℕ) →
        RunsOver words.now (S.means src.old) (S.means src.new) (Command.Inspect max_input) taken →
        Writes (K.means out.old) (K.means out.new) result
        (rebuilt_capture (used_bytes (Command.Inspect max_input) taken)) }
    ensures early_capture { (max_input : ℕ) (taken : List ℕ) →
        RunsOver words.now (S.means src.old) (S.means src.new) (Command.Inspect max_input) taken →
        65536 < length taken →
        AppendsMore (K.means out.old).contents (K.means out.new).contents
        (rebuilt_capture (take (length taken - 65536) taken)) }

    // By `drill` nothing is read, the summary of the workload is written, and the report says that it is done.
    ensures unread { (settings : DrillSettings) → SaysCommand words.now (Command.Drill settings) →
        S.means src.new ≡ S.means src.old }
    ensures summary { (settings : DrillSettings) → SaysCommand words.now (Command.Drill settings) →
        (text : List ℕ) → IsSummary settings text → Writes (K.means out.old) (K.means out.new) result text }
    ensures drill_report { (settings : DrillSettings) → SaysCommand words.now (Command.Drill settings) →
        ReportsDrill (E.means report.old) (E.means report.new) result }

    // The report on the bytes used is written, with the status that ended the input, unless nothing did, or a write of the
    // file failed or found no memory. By `check` nothing else is written.
    ensures compact_report { (s : Settings) (taken : List ℕ) →
        RunsOver words.now (S.means src.old) (S.means src.new) (Command.Compact s) taken →
        (counts : Counts) → AreCountsOf s (used_bytes (Command.Compact s) taken) counts →
        ReportsCompact (E.means report.old) (E.means report.new) result counts
        (status_of (ended_by (Command.Compact s) taken (S.means src.new).ended)) }
    ensures report { (max_input : ℕ) (taken : List ℕ) →
        RunsOver words.now (S.means src.old) (S.means src.new) (Command.Check max_input) taken →
        (counts : ReadCounts) → AreReadCountsOf (used_bytes (Command.Check max_input) taken) counts →
        ReportsCheck (E.means report.old) (E.means report.new) result counts
        (status_of (ended_by (Command.Check max_input) taken (S.means src.new).ended)) }
    ensures inspect_report { (max_input : ℕ) (taken : List ℕ) →
        RunsOver words.now (S.means src.old) (S.means src.new) (Command.Inspect max_input) taken →
        (counts : ReadCounts) → AreRebuiltCountsOf (used_bytes (Command.Inspect max_input) taken) counts →
        ReportsInspect (E.means report.old) (E.means report.new) result counts
        (status_of (ended_by (Command.Inspect max_input) taken (S.means src.new).ended)) }
    ensures unended { (c : Command) (taken : List ℕ) →
        RunsOver words.now (S.means src.old) (S.means src.new) c taken →
        IsUnended c (S.means src.old) (S.means src.new) taken → E.means report.new ≡ E.means report.old }
    ensures unwritten { (c : Command) → SaysCommand words.now c →
        (K.means out.old).refused ≡ false → (K.means out.new).refused ≡ true → E.means report.new ≡ E.means report.old }
    ensures no_output { (max_input : ℕ) → SaysCommand words.now (Command.Check max_input) →
        K.means out.new ≡ K.means out.old }

    // Reading stops in time, within its bounds, and takes no byte after a failed read.
    ensures taken { (c : Command) → SaysCommand words.now c → ReadsInput c →
        (bytes : List ℕ) → (S.means src.old).left ≡ Some bytes →
        (taken : List ℕ) × IsTaken (S.means src.old) (S.means src.new) taken
        × StopsReading c (S.means src.old) (S.means src.new) taken }
    ensures calls { (c : Command) → SaysCommand words.now c →
        (S.means src.new).calls ≤ (S.means src.old).calls + max_input_of c + 1 }
    ensures late { (S.means src.old).failed ≡ false → (S.means src.new).late ≡ (S.means src.old).late }

    // A capture that can be compacted is, a file that is whole is found to be and is rebuilt, and a drill is done, unless
    // memory runs out, where no count of faults rises.
    ensures complete { (s : Settings) → SaysCommand words.now (Command.Compact s) →
        (bytes : List ℕ) → (S.means src.old).left ≡ Some bytes → IsServedCapture s bytes →
        ¬ Rose (S.means src.old).faults (S.means src.new).faults →
        ¬ Rose (K.means out.old).faults (K.means out.new).faults →
        ¬ Rose (E.means report.old).faults (E.means report.new).faults →
        (result ≡ Status.Done) ⊎ (result ≡ Status.NoMemory) }
    ensures complete_check { (max_input : ℕ) → SaysCommand words.now (Command.Check max_input) →
        (bytes : List ℕ) → (S.means src.old).left ≡ Some bytes → IsWholeFile max_input bytes →
        ¬ Rose (S.means src.old).faults (S.means src.new).faults →
        ¬ Rose (E.means report.old).faults (E.means report.new).faults →
        (result ≡ Status.Done) ⊎ (result ≡ Status.NoMemory) }
    ensures complete_inspect { (max_input : ℕ) → SaysCommand words.now (Command.Inspect max_input) →
        (bytes : List ℕ) → (S.means src.old).left ≡ Some bytes → IsWholeFile max_input bytes →
        ¬ Rose (S.means src.old).faults (S.means src.new).faults →
        ¬ Rose (K.means out.old).faults (K.means out.new).faults →
        ¬ Rose (E.means report.old).faults (E.means report.new).faults →
        (result ≡ Status.Done) ⊎ (result ≡ Status.NoMemory) }
    ensures complete_drill { (settings : DrillSettings) → SaysCommand words.now (Command.Drill settings) →
        ¬ Rose (K.means out.old).faults (K.means out.new).faults →
        ¬ Rose (E.means report.old).faults (E.means report.new).faults →
        (result ≡ Status.Done) ⊎ (result ≡ Status.NoMemory) }
{
    words_are_a_line_or_break_a_rule();
    words_say_at_most_one_command();
    commands_have_valid_settings();
    what_is_kept_is_rebuilt();
    match read_words(alloc, words) {
        Ok(Command::Compact(settings)) => {
            let (ended, counts) = compact_plain(alloc, &settings, src, out);
            tell_compact(alloc, ended, &counts, report)
        }
        Ok(Command::Check { max_input }) => {
            let (ended, counts) = check(alloc, max_input, src);
            tell_check(alloc, ended, &counts, report)
        }
        Ok(Command::Inspect { max_input }) => {
            let (ended, counts) = inspect(alloc, max_input, src, out);
            tell_inspect(alloc, ended, &counts, report)
        }
        Ok(Command::Drill(settings)) => drill(alloc, &settings, out, report),
        Err(WordsFault::Usage { place }) => refuse(alloc, place, report),
        Err(WordsFault::NoMemory) => Status::NoMemory,
    }
}
