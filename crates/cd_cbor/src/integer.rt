//! Integers.

ghost use Rattle.std.specs.Prelude.{◌≡◌};

/// An integer (RFC 8949 3.1).
#[derive(Clone, Copy, Debug, PartialEq, Eq)]
pub enum Integer {
    /// A number from 0.
    Unsigned(u64),
    /// The number -1 - n.
    Negative(u64),
}

impl Integer {
    ghost use Rattle.cd_cbor.specs.Integers.{signed, integer_item};

    /// The integer of a signed number.
    pub fn of_signed(n: i64) -> Integer
        ensures { integer_item result ≡ signed n }
    {
        if n < 0 {
            Integer::Negative((-1 - n) as u64)
        } else {
            Integer::Unsigned(n as u64)
        }
    }
}
