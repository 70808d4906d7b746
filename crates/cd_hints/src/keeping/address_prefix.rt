//! Prefixes of addresses.

ghost use Rattle.std.specs.Prelude.{◌≡◌, ◌≤◌};
ghost use Rattle.std.specs.Option.{ForSome};
ghost use Rattle.cd_hints.specs.Prefix.{first_bits_of_byte, width_of, prefix_bytes, prefix_size};

use cd_packet::Addr;

const BYTE_BITS: usize = 8;

// The first bits of a byte, and 0 after them.
fn first_bits_of_byte(bits: usize, byte: u8) -> u8
    requires { bits ≤ 8 }
    ensures { result ≡ first_bits_of_byte bits byte }
{
    let unit = 1u16 << (BYTE_BITS - bits);
    (u16::from(byte) / unit * unit) as u8
}

/// The bytes of an address with all bits past the first `bits` 0, and how many of them are stored: as many as have a
/// bit that is kept. Without `bits` all are kept, 4 bytes of IPv4 and 16 of IPv6.
pub fn prefix(addr: &Addr, bits: Option<u8>) -> ([u8; 16], usize)
    requires { ForSome bits (λ n. n ≤ width_of addr.now.v6) }
    ensures bytes { result.0 ≡ prefix_bytes addr.now bits }
    ensures size { result.1 ≡ prefix_size addr.now bits }
{
    let kept = match bits {
        Some(bits) => usize::from(bits),
        None if addr.v6 => 128,
        None => 32,
    };
    let mut octets = addr.octets;
    let mut left = kept;
    for octet in &mut octets {
        *octet = first_bits_of_byte(left.min(BYTE_BITS), *octet);
        left = left.saturating_sub(BYTE_BITS);
    }
    (octets, kept.div_ceil(BYTE_BITS))
}
