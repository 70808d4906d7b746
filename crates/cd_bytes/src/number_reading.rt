//! Numbers at an offset of a slice.

ghost use Rattle.std.specs.Prelude.{◌≡◌, ◌+◌, ◌≤◌, length};
ghost use Rattle.cd_bytes.specs.Numbers.{be16, be32, le16, le32};

/// The big-endian number of two bytes at an offset.
#[tactic(auto, unfolding(crate::specs::Numbers::be16))]
pub fn be16(bytes: &[u8], at: usize) -> u16
    requires { at + 2 ≤ length bytes.now }
    ensures { result ≡ be16 at bytes.now }
{
    u16::from_be_bytes([bytes[at], bytes[at + 1]])
}

/// The big-endian number of four bytes at an offset.
#[tactic(auto, unfolding(crate::specs::Numbers::be32))]
pub fn be32(bytes: &[u8], at: usize) -> u32
    requires { at + 4 ≤ length bytes.now }
    ensures { result ≡ be32 at bytes.now }
{
    u32::from_be_bytes([bytes[at], bytes[at + 1], bytes[at + 2], bytes[at + 3]])
}

/// The little-endian number of two bytes at an offset.
#[tactic(auto, unfolding(crate::specs::Numbers::le16))]
pub fn le16(bytes: &[u8], at: usize) -> u16
    requires { at + 2 ≤ length bytes.now }
    ensures { result ≡ le16 at bytes.now }
{
    u16::from_le_bytes([bytes[at], bytes[at + 1]])
}

/// The little-endian number of four bytes at an offset.
#[tactic(auto, unfolding(crate::specs::Numbers::le32))]
pub fn le32(bytes: &[u8], at: usize) -> u32
    requires { at + 4 ≤ length bytes.now }
    ensures { result ≡ le32 at bytes.now }
{
    u32::from_le_bytes([bytes[at], bytes[at + 1], bytes[at + 2], bytes[at + 3]])
}
