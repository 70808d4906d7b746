//! Reads the preamble and the blocks of a file where their items stand in bytes that are known to be well-formed. Each
//! function says what it answers where an item stands at the offset; it builds none.

mod arrays;
mod block_tables;
mod blocks;
mod fault;
mod heads;
mod items;
mod kinds;
mod malformed;
mod maps;
mod met;
mod params;
mod putting;
mod records;
mod signatures;
mod statistics;
mod storage;
mod strings;
mod time;

pub use blocks::block_of;
pub use fault::ItemFault;
pub use params::params_of;
