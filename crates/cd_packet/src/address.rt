ghost use Rattle.std.specs.Prelude.{◌≡◌, false, drop, replicate};

/// An IP address. One of IPv4 stands in the first four octets, and the others are 0.
#[derive(Clone, Copy, Debug)]
pub struct Addr {
    /// Whether this is an address of IPv6.
    pub v6: bool,
    /// The octets in network order.
    pub octets: [u8; 16],
    pub ghost padded: { v6 ≡ false → drop 4 octets ≡ replicate 12 0 },
}
