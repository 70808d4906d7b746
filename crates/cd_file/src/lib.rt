//! Writes C-DNS files (RFC 8618 7.3) in their one canonical spelling, and reads files in any spelling.
//!
//! - A *file* is an array of the text "C-DNS", a *preamble* with the block parameters, and an array of *blocks*. The
//!   array of blocks alone has an indefinite length, so a file is written block by block.
//! - The *head* of a file is all that stands before its first block, the *end* the break after its last one.
//! - An *entry* is a key of a map and its value. A value that may be absent is an `Option` in the types of `cd_block`:
//!   an absent one has no entry. An empty table or list of items, and a map of optional values of which none is there,
//!   are absent too.
//! - The *spelling* is canonical (RFC 8949 4.2.1): heads are the shortest, the keys of a map ascend, and lengths are
//!   definite.
//!
//! | Call | Writes | Section |
//! |---|---|---|
//! | `head_bytes` | the head of a file with one set of block parameters | 7.3.1 |
//! | `block_bytes` | a block | 7.3.2 |
//! | `end_bytes` | the end | 7.3 |
//!
//! Each call writes at the end of an `Out`, and builds no items on the way.
//!
//! Example: a block without an earliest time, whose statistics are that one message was processed and that one was not
//! kept, and that holds nothing else, is `a2 00 a0 01 a6 00 01 01 00 02 00 03 00 04 01 05 00`: a map of two keys, an
//! empty preamble under 0, and the six statistics under 1.
//!
//! ```text
//! let mut out = Out::new(alloc);
//! head_bytes(&params, &mut out)?;
//! block_bytes(&first, &mut out)?;
//! block_bytes(&second, &mut out)?;
//! end_bytes(&mut out)?;
//! ```
//!
//! `FileReader` reads a file that comes in pieces: block by block, however its bytes are cut, up to the first refusal.
//!
//! What any bytes hold as a file is one function of them (`specs/ReadFile`): block parameters, blocks, and an end, which
//! may be a refusal (`BadFile`). Each kind of map has one table, with a line a key (`specs/ReadHead`, `specs/ReadTables`,
//! `specs/ReadBlock`), and one reading of maps visits the entries in the order of their spelling (`specs/MapReading`).
//! `key_laws` says that the keys of each table ascend.
//!
//! `laws` says that these calls in turn write the file of the parameters and of the two blocks, `size_laws` how many
//! bytes each map of a block takes at most.
#![tactic(auto)]

mod block;
mod block_parameters;
mod end;
mod entries;
mod file_reader;
mod fronts;
mod head;
mod items;
pub mod key_laws;
pub mod laws;
mod opcodes;
mod preamble;
mod progress;
mod reading;
mod refusal;
pub mod size_laws;
mod spelled;
mod stage;
mod tables;

pub use block::block_bytes;
pub use end::end_bytes;
pub use file_reader::{FileReader, Next};
pub use head::head_bytes;
pub use refusal::{BadFile, FileFault, FileWhy};
