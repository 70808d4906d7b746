//! Major types.

ghost use Rattle.std.specs.Prelude.{◌≡◌, ◌<◌};

/// A major type: the kind of an item, in the first three bits of its head (RFC 8949 3.1).
#[derive(Clone, Copy, Debug, PartialEq, Eq)]
pub enum MajorType {
    /// Major type 0, a number from 0. The argument is the number.
    Unsigned,
    /// Major type 1, a number below 0. With the argument n it is -1 - n.
    Negative,
    /// Major type 2, a string of as many bytes as the argument says.
    Bytes,
    /// Major type 3, a text of as many bytes as the argument says.
    Text,
    /// Major type 4, an array of as many items as the argument says.
    Array,
    /// Major type 5, a map of as many pairs as the argument says.
    Map,
    /// Major type 6, a tagged item. The argument is the tag.
    Tag,
    /// Major type 7, a simple value or a float.
    Simple,
}

impl MajorType {
    ghost use Rattle.cd_cbor.specs.MajorTypes.{major_number};

    /// Its number, 0 to 7.
    pub fn number(self) -> u8
        ensures number { result ≡ major_number self }
        ensures small { result < 8 }
    {
        match self {
            MajorType::Unsigned => 0,
            MajorType::Negative => 1,
            MajorType::Bytes => 2,
            MajorType::Text => 3,
            MajorType::Array => 4,
            MajorType::Map => 5,
            MajorType::Tag => 6,
            MajorType::Simple => 7,
        }
    }
}
