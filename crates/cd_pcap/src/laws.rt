//! Laws on the definitions, each the contract of a function that does nothing.

ghost use Rattle.cd_pcap.specs.Laws.{ReadIsSpelled, SpelledIsRead, RecordsAreRead, CapturesGrow, GivenAreFirst};
ghost use Rattle.cd_pcap.specs.Laws.{RefusalsStay};
ghost use Rattle.cd_pcap.specs.Laws.{PacketsAreWithin, PacketsStandBefore};

/// What is read of some bytes is what they spell: a header, records and what stands after them (the pcap draft, 4 and
/// 5).
pub fn what_is_read_is_spelled()
    ensures { ReadIsSpelled }
{}

/// What some bytes spell is what is read of them, so that they spell one capture (the pcap draft, 4 and 5).
pub fn what_is_spelled_is_read()
    ensures { SpelledIsRead }
{}

/// Any record that fits, spelled in any form, and then any bytes, is read as the packet that it means, and then what
/// those bytes hold (the pcap draft, 5).
pub fn spelled_records_are_read()
    ensures { RecordsAreRead }
{}

/// The packets of a capture stay as its bytes go on. Fewer than four bytes hold none, and from four bytes on nothing
/// comes after a refused place.
pub fn captures_grow()
    ensures { CapturesGrow }
{}

/// The packets that a reader has given are the first of those in the bytes that it was fed.
pub fn given_packets_are_first()
    ensures { GivenAreFirst }
{}

/// A refused place stays as more bytes are fed.
pub fn refusals_stay()
    ensures { RefusalsStay }
{}

/// The records of all packets of a capture, each of 16 bytes and the captured ones, together take no more bytes than
/// the capture has (the pcap draft, 5).
pub fn packets_are_within_the_capture()
    ensures { PacketsAreWithin }
{}

/// The bytes before a refused place have all packets of the capture.
pub fn packets_stand_before_refusals()
    ensures { PacketsStandBefore }
{}
