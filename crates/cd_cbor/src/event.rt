//! Events: what a reader tells of an item, head by head.

use crate::wanted::Wanted;
use cd_name::Blob;

/// What a head, with the content of its string, tells of an item (RFC 8949 3). Two spellings of one number or of one
/// string tell the same.
#[derive(Debug, Drop, PartialEq, Eq)]
pub enum Event {
    /// A number from 0.
    Uint(u64),
    /// The number -1 - n.
    Nint(u64),
    /// A string of bytes, whole.
    Bytes(Blob),
    /// A text, whole, by its bytes in UTF-8.
    Text(Blob),
    /// An array of so many items, or of those up to `Close`.
    Array(Option<u64>),
    /// A map of so many pairs, or of those up to `Close`, each key before its value.
    Map(Option<u64>),
    /// The break of an array or a map that tells no length.
    Close,
    /// A tag, of the item that comes next.
    Tag(u64),
    /// A simple value.
    Simple(u8),
    /// A float, of which no number is computed.
    Float,
}

/// What a reader answers.
#[derive(Debug, Drop, PartialEq, Eq)]
pub enum Step {
    /// The next event.
    Event(Event),
    /// The bytes fed end before the next event is whole.
    More,
}

/// What a head does to the arrays, maps and tags that are open.
#[derive(Clone, Copy, Debug, PartialEq, Eq)]
pub enum Act {
    /// It is an item.
    Item,
    /// It opens an array, a map or a tag that wants this.
    Enter(Wanted),
    /// It closes the innermost.
    Close,
}

/// What the head at the front of some bytes tells.
#[derive(Debug, Drop)]
pub enum Told {
    /// An event, and what it does.
    Event(Event, Act),
    /// That a text, or a string of bytes, comes in chunks.
    Chunks(bool),
}
