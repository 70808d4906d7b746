//! A packet of a capture.

ghost use Rattle.std.specs.Prelude.{◌≡◌, ℕ, ◌<◌};
ghost use Rattle.cd_packet.specs.Time.{end_of_time};
ghost use Rattle.cd_packet.specs.declared.packet.When.TheVariants.{At};

use cd_name::Blob;

/// When a packet was captured.
#[derive(Clone, Copy, Debug, PartialEq, Eq)]
pub enum When {
    /// Nanoseconds since 1970, below 2^32 seconds.
    At(u64),
    /// A time that is none of the 2^32 seconds since 1970.
    Outside,
    /// The capture gives no time for it.
    Missing,
}

/// A packet of a capture.
#[derive(Debug, Drop)]
pub struct Packet {
    /// The offset of its record or block: bytes from the start of the capture.
    pub at: u64,
    /// When it was captured.
    pub when: When,
    /// The link type: 1 for Ethernet.
    pub link: u16,
    /// How many bytes the packet had, as its record says. It may be more than the captured bytes, or fewer.
    pub original: u32,
    /// The captured bytes.
    pub bytes: Blob,
    pub ghost timely: { (n : ℕ) → when ≡ At n → n < end_of_time },
}
