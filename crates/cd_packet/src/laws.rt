//! Laws on the definitions, each the contract of a function that does nothing.

ghost use Rattle.cd_packet.specs.Building.{BuiltIsRead};
ghost use Rattle.cd_packet.specs.Payloads.{PayloadsAreCaptured};

/// The payload of a datagram and the eight bytes of UDP's header are at most the captured bytes of its packet
/// (RFC 768).
pub fn payloads_are_captured()
    ensures { PayloadsAreCaptured }
{}

/// The IP packet that `build` gives of a datagram holds that datagram again, for each of its two ports, where it is
/// captured whole, with no link header (link type 101) and at the datagram's time.
pub fn packets_are_read_as_built()
    ensures { BuiltIsRead }
{}
