//! The values of a C-DNS file (RFC 8618 7.3, 7.4): the parameters of a file, and a block in two forms.
//!
//! - `Params` are the storage and the collection parameters of a file, `Hints` its storage hints.
//! - A *kept block* has each value where it belongs: `KeptBlock`, `KeptItem`, `KeptSig` and the other types named so.
//! - A *block* has each value once, in one of nine tables, and its index there wherever it belongs: `Block`,
//!   `BlockItem`, `BlockSig` and the other types named so. An index counts from 0.
//!
//! `resolve` gives the kept block of a block, or the first of its indexes that leads to no entry, or to no name where a
//! name is due. That a kept block is what its own block resolves to is stated in `laws`.
//!
//! A struct stands for a map of the format, and a field for the key of its name. A field that is an `Option` stands for
//! a key that may be absent. Keys have constants in `keys`, the bits of hints in `hints`, and those of flags in `flags`.
//! That each is the number of the format is stated in `laws`.
//!
//! Example: where the table `name_rdata` holds the names example.com and example.org, an item whose query asks for
//! example.org has 1 as its `query_name` in a `BlockItem`, and the name itself in a `KeptItem`.
//!
//! | Type | Map | Section |
//! |---|---|---|
//! | `Params` | storage parameters, and collection parameters for the two timeouts | 7.3.1.1.1, 7.3.1.1.2 |
//! | `Hints` | storage hints | 7.3.1.1.1.1 |
//! | `KeptBlock`, `Block` | a block, with its preamble and its tables | 7.3.2 |
//! | `Stamp` | the earliest time | 7.3.2.1 |
//! | `Stats` | block statistics | 7.3.2.2 |
//! | `KeptSig`, `BlockSig` | a query-response signature | 7.3.2.3.2 |
//! | `KeptQuestion`, `BlockQuestion` | a question | 7.3.2.3.3 |
//! | `KeptRr`, `BlockRr` | a resource record | 7.3.2.3.4 |
//! | `KeptData`, `BlockData` | the data of a malformed message | 7.3.2.3.5 |
//! | `KeptItem`, `BlockItem` | a query-response item | 7.3.2.4 |
//! | `KeptLists`, `BlockLists` | the extended part of a query or a response | 7.3.2.4.2 |
//! | `KeptMalformed`, `BlockMalformed` | a malformed message | 7.3.2.6 |
#![tactic(auto)]

mod block;
pub mod flags;
pub mod hints;
mod kept;
pub mod keys;
pub mod laws;
mod naming;
mod params;
mod resolving;
mod stamp;
mod stats;

pub use block::{
    Block, BlockData, BlockItem, BlockLists, BlockMalformed, BlockQuestion, BlockRr, BlockSig,
};
pub use hints::Hints;
pub use kept::{
    KeptBlock, KeptData, KeptItem, KeptLists, KeptMalformed, KeptQuestion, KeptRr, KeptSig,
};
pub use naming::names_are_names;
pub use params::Params;
pub use resolving::{ResolveFault, resolve};
pub use stamp::Stamp;
pub use stats::Stats;
