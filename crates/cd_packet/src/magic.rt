//! The first four bytes of a capture.

ghost use Rattle.std.specs.Prelude.{◌≡◌};
ghost use Rattle.cd_packet.specs.Magic.{has_magic};

use cd_bytes::le32;

/// Whether the first four bytes are there, and are this little-endian number. Fewer bytes are none.
#[tactic(auto, unfolding(crate::specs::Magic::has_magic))]
pub fn has_magic(bytes: &[u8], magic: u32) -> bool
    ensures { result ≡ has_magic magic bytes.now }
{
    if bytes.len() < 4 {
        return false;
    }
    le32(bytes, 0) == magic
}
