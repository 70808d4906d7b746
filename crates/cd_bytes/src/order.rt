ghost use Rattle.std.specs.Prelude.{◌≡◌};
ghost use Rattle.std.specs.Int.{w16, w32, w64};

/// Which byte of a number comes first.
#[derive(Clone, Copy, Debug, PartialEq, Eq)]
pub enum Order {
    /// The byte that counts most comes first, as in the Internet protocols.
    Big,
    /// The byte that counts least comes first.
    Little,
}

impl Order {
    ghost use Rattle.cd_bytes.specs.Numbers.{number_of, bytes_of};

    // The number of two bytes.
    pub(crate) fn read16(self, bytes: [u8; 2]) -> u16
        ensures { result ≡ number_of w16 self bytes }
    {
        match self {
            Order::Big => u16::from_be_bytes(bytes),
            Order::Little => u16::from_le_bytes(bytes),
        }
    }

    // The number of four bytes.
    pub(crate) fn read32(self, bytes: [u8; 4]) -> u32
        ensures { result ≡ number_of w32 self bytes }
    {
        match self {
            Order::Big => u32::from_be_bytes(bytes),
            Order::Little => u32::from_le_bytes(bytes),
        }
    }

    // The number of eight bytes.
    pub(crate) fn read64(self, bytes: [u8; 8]) -> u64
        ensures { result ≡ number_of w64 self bytes }
    {
        match self {
            Order::Big => u64::from_be_bytes(bytes),
            Order::Little => u64::from_le_bytes(bytes),
        }
    }

    // The two bytes of a number.
    pub(crate) fn write16(self, value: u16) -> [u8; 2]
        ensures { result ≡ bytes_of w16 self value }
    {
        match self {
            Order::Big => value.to_be_bytes(),
            Order::Little => value.to_le_bytes(),
        }
    }

    // The four bytes of a number.
    pub(crate) fn write32(self, value: u32) -> [u8; 4]
        ensures { result ≡ bytes_of w32 self value }
    {
        match self {
            Order::Big => value.to_be_bytes(),
            Order::Little => value.to_le_bytes(),
        }
    }

    // The eight bytes of a number.
    pub(crate) fn write64(self, value: u64) -> [u8; 8]
        ensures { result ≡ bytes_of w64 self value }
    {
        match self {
            Order::Big => value.to_be_bytes(),
            Order::Little => value.to_le_bytes(),
        }
    }
}
