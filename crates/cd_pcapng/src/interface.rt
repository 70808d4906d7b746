/// An interface that a section declares (the pcapng draft, 4.2).
#[derive(Clone, Copy)]
pub struct Interface {
    /// The link type of its packets.
    pub link: u16,
    /// The unit of its clock (if_tsresol): 10 to the power of its negative, or, with the top bit set, 2 to that of the
    /// other bits.
    pub resolution: u8,
    /// Seconds that are added to the time of each packet (if_tsoffset).
    pub offset: i64,
}
