ghost use Rattle.std.specs.Prelude.{◌≡◌, ℕ, ◌<◌};
ghost use Rattle.cd_packet.specs.Time.{end_of_time};
ghost use Rattle.cd_packet.specs.declared.packet.When.TheVariants.{At};

use cd_packet::When;

/// A packet whose captured bytes lie among other bytes of the capture.
#[derive(Clone, Copy)]
pub struct PacketPlace {
    /// The offset of its block.
    pub at: u64,
    /// When it was captured.
    pub when: When,
    /// The link type.
    pub link: u16,
    /// How many bytes the packet had.
    pub original: u32,
    /// The offset of its captured bytes.
    pub captured_at: u64,
    /// How many bytes were captured.
    pub captured: usize,
    pub ghost timely: { (n : ℕ) → when ≡ At n → n < end_of_time },
}
