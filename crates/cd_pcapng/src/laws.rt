//! Laws on the definitions, each the contract of a function that does nothing.

ghost use Rattle.cd_pcapng.specs.Laws.{CapturesGrow, GivenAreFirst, RefusalsStay, PacketsAreWithin, PacketsStandBefore};
ghost use Rattle.cd_pcapng.specs.Laws.{PacketsStandInOrder};

/// The packets of a capture stay as its bytes go on. Fewer than four bytes hold none, and from four bytes on nothing
/// comes after a refused place.
pub fn captures_grow()
    ensures { CapturesGrow }
{}

/// The packets that a reader has given are the first of those in the bytes that it was fed.
pub fn given_packets_are_first()
    ensures { GivenAreFirst }
{}

/// A refused place stays as more bytes are fed.
pub fn refusals_stay()
    ensures { RefusalsStay }
{}

/// The blocks of all packets of a capture, each of 16 bytes and the captured ones at least, together take no more bytes
/// than the capture has (the pcapng draft, 4.3 and 4.4).
pub fn packets_are_within_the_capture()
    ensures { PacketsAreWithin }
{}

/// The bytes before a refused place have all packets of the capture.
pub fn packets_stand_before_refusals()
    ensures { PacketsStandBefore }
{}

/// The bytes before a packet's offset hold the packets before it.
pub fn packets_stand_in_order()
    ensures { PacketsStandInOrder }
{}
