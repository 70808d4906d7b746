//! Why a file is refused.

use std::alloc::AllocError;

/// What is wrong with a file. A key is that of the map in which it stands (RFC 8618 7.3).
#[derive(Clone, Copy, Debug, PartialEq, Eq)]
pub enum FileWhy {
    /// The bytes are no well-formed CBOR, nest deeper than 16 items, or have a text that is not UTF-8 or a string longer than
    /// 134,217,728 bytes. The offset is that of the head that shows it, in bytes from the start of the file; of an end of
    /// the bytes it is their number.
    Cbor(u64),
    /// This is no C-DNS file: not an array of the text "C-DNS", a map and an array.
    NotCdns,
    /// The major version is not 1.
    Version,
    /// A block is no map.
    NotMap,
    /// The value of this key is of another kind, or beyond its range.
    Shape(i128),
    /// This key is in its map already.
    Repeated(i128),
    /// This key is not in its map.
    Missing(i128),
    /// An index is at or past the length of the table with this key, 0 to 8, as `keys::TABLES_IP_ADDRESS`.
    Index(u8),
    /// The bytes at an index that stands for a name are no name (RFC 1035 3.1).
    Name,
    /// A block names block parameters that the head does not have.
    ParamIndex,
    /// The ticks of a second are not 1 to 1,000,000,000.
    TimeRange,
    /// The preamble or a block has more than 134,217,728 bytes.
    TooLarge,
    /// Bytes stand after the end of the file.
    Trailing,
}

/// The first refusal of a file.
#[derive(Clone, Copy, Debug, PartialEq, Eq)]
pub struct BadFile {
    /// 0 for the head, and from 1 the number of the block, or of what stands in its place.
    pub block: u64,
    /// What is wrong there.
    pub why: FileWhy,
}

/// Why a call gave nothing of a file.
#[derive(Clone, Copy, Debug, PartialEq, Eq)]
pub enum FileFault {
    /// The file is refused.
    Bad(BadFile),
    /// Memory ran out.
    NoMemory,
}

impl From<AllocError> for FileFault {
    ghost use Rattle.std.specs.Prelude.{◌≡◌};
    ghost use Rattle.cd_file.specs.declared.refusal.FileFault.TheVariants.{NoMemory};

    ghost from_gives = { λ _ e. e ≡ NoMemory };

    fn from(_fault: AllocError) -> FileFault {
        FileFault::NoMemory
    }
}
