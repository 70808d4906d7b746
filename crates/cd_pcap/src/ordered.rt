//! Numbers at an offset of a slice, in either order.

ghost use Rattle.std.specs.Prelude.{◌≡◌, ◌+◌, ◌≤◌, length};
ghost use Rattle.cd_bytes.specs.Numbers.{number16_at, number32_at};

use cd_bytes::{Order, be16, be32, le16, le32};

/// The number of two bytes at an offset.
pub fn number16_at(order: Order, bytes: &[u8], at: usize) -> u16
    requires { at + 2 ≤ length bytes.now }
    ensures { result ≡ number16_at order at bytes.now }
{
    match order {
        Order::Big => be16(bytes, at),
        Order::Little => le16(bytes, at),
    }
}

/// The number of four bytes at an offset.
pub fn number32_at(order: Order, bytes: &[u8], at: usize) -> u32
    requires { at + 4 ≤ length bytes.now }
    ensures { result ≡ number32_at order at bytes.now }
{
    match order {
        Order::Big => be32(bytes, at),
        Order::Little => le32(bytes, at),
    }
}
