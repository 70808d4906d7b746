/// The kinds of blocks that are read (the pcapng draft, 4).
#[derive(Clone, Copy)]
pub enum Kind {
    /// A section header block.
    SectionHeader,
    /// An interface description block.
    Interface,
    /// An enhanced packet block.
    EnhancedPacket,
    /// A simple packet block.
    SimplePacket,
    /// Any other block, which is passed over.
    Other,
}
