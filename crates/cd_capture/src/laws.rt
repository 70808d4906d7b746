//! Laws on the definitions, each the contract of a function that does nothing.

ghost use Rattle.cd_capture.specs.Laws.{FormatsAreTold, CapturesGrow, GivenAreFirst, RefusalsStay, PacketsAreWithin};
ghost use Rattle.cd_capture.specs.Laws.{PacketsStandBefore};

/// The first four bytes of each capture tell its format: one of the four magics of pcap, or the section header of
/// pcapng. Fewer bytes and all others are refused at their start.
pub fn formats_are_told()
    ensures { FormatsAreTold }
{}

/// The packets of a capture stay as its bytes go on. Fewer than four bytes hold none, and from four bytes on nothing
/// comes after a refused place.
pub fn captures_grow()
    ensures { CapturesGrow }
{}

/// The packets that a reader has given are the first of those in the bytes that it was fed.
pub fn given_packets_are_first()
    ensures { GivenAreFirst }
{}

/// A refused place stays as more bytes are fed.
pub fn refusals_stay()
    ensures { RefusalsStay }
{}

/// All packets of a capture, each of 16 bytes and the captured ones, together take no more bytes than the capture has.
pub fn packets_are_within_the_capture()
    ensures { PacketsAreWithin }
{}

/// The bytes before a refused place have all packets of the capture.
pub fn packets_stand_before_refusals()
    ensures { PacketsStandBefore }
{}
