//! Items.

use cd_name::{Blob, List};

/// A value in CBOR (RFC 8949 2). Two items are equal where they hold the same, in the same order.
#[derive(Debug, Drop, PartialEq, Eq, Hash)]
pub enum Item {
    /// A number from 0.
    Uint(u64),
    /// The number -1 - n.
    Nint(u64),
    /// A string of bytes.
    Bytes(Blob),
    /// A text, by its bytes in UTF-8.
    Text(Blob),
    /// Items in their order.
    Array(List<Item>),
    /// Pairs of a key and a value, in their order.
    Map(List<(Item, Item)>),
    /// The bytes of a tagged value, a simple value or a float.
    Other(Blob),
}
