//! Faults of bytes that are no item.

use thiserror::Error;

/// What is wrong with bytes that spell no item (RFC 8949 3 and Appendix C).
#[derive(Clone, Copy, Debug, PartialEq, Eq, Error)]
pub enum Why {
    /// A head that no item has: additional information 28 to 30, or 31 with a major type that has a length always; a
    /// simple value of two bytes below 32; in a string in chunks, what is no string of its kind with a length.
    #[error("a head is not well-formed")]
    Head,
    /// A break where none may stand.
    #[error("a break is misplaced")]
    Break,
    /// A head that would open an array, a map or a tag within 16 others.
    #[error("more than 16 arrays, maps and tags are open")]
    Depth,
    /// A text, or a chunk of a text, that is not UTF-8.
    #[error("a text is not UTF-8")]
    Utf8,
    /// A string of more than 134,217,728 bytes, or a chunk that brings its string above that.
    #[error("a string is too long")]
    Length,
    /// A break of a map after a key.
    #[error("a key of a map has no value")]
    Odd,
    /// The bytes end before the item does.
    #[error("the bytes end before the item does")]
    End,
}

/// Why no item was read.
#[derive(Clone, Copy, Debug, PartialEq, Eq, Error)]
pub enum CborFault {
    /// The first fault. Its offset, in bytes, is that of the head that shows it; of an end it is the number of bytes.
    #[error("{why} at byte {at}")]
    Bad { at: u64, why: Why },
    /// Memory ran out.
    #[error("out of memory")]
    NoMemory,
}
