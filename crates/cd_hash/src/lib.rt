//! A hasher for keys that are strings of bytes.
//!
//! The `Hash` of a slice writes its length, and then each byte alone. `FoldHasher` of std multiplies at each write, so a
//! name of 30 bytes costs 30 multiplications. `ByteHasher` gathers single bytes and hashes eight of them at once.
//! It is not cryptographic, and its seed is fixed, as that of `FoldHasher`: whoever picks the keys can make them collide.
//!
//! ```text
//! let names: IndexSet<Vec<u8>, ByteHash> = IndexSet::with_hasher(alloc, ByteHash::new());
//! ```
#![tactic(auto)]

mod gathering;

pub use gathering::{ByteHash, ByteHasher};
