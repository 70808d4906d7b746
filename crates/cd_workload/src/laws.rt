//! Laws of workloads, each the contract of a function that does nothing.

ghost use Rattle.cd_workload.specs.Laws.{LookupsAreSent, WorkloadsAreWhole, WorkloadsAreShort};

/// The messages of each lookup fit, and so do its packets.
pub fn lookups_are_sent()
    ensures { LookupsAreSent }
{}

/// The capture of at most 200,000 lookups is read to its end, and holds the packets of its records (the pcap draft, 4
/// and 5).
pub fn workloads_are_whole()
    ensures { WorkloadsAreWhole }
{}

/// The capture of at most 200,000 lookups has fewer than 2^26 bytes.
pub fn workloads_are_short()
    ensures { WorkloadsAreShort }
{}
