//! How far a reader of a file came.

/// What is due of a file.
#[derive(Clone, Copy, Debug, PartialEq, Eq)]
pub enum Stage {
    /// The outer array.
    Outer,
    /// The title.
    Title,
    /// A chunk of the title, or the break after the last one.
    Chunk,
    /// The preamble.
    Preamble,
    /// The array of blocks.
    Array,
    /// A block, or the end of the array of blocks, of which so many are still to come where its length is definite.
    Block(Option<u64>),
}
