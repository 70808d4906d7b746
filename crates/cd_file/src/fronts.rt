//! Reads the parts of a file at the front of the bytes that are held of it: the outer array, the title, the preamble,
//! the head of the array of blocks, a block, and what closes the file. Each call answers the part and its size, or how
//! the file ends there.

mod ending;
mod file_end;
mod heads;
mod item;
mod parts;
mod title;

pub use ending::{Ending, Unread};
pub use file_end::{closing, nothing_more};
pub use heads::{Head, count_front, element_head, outer_front, title_head};
pub use item::ItemScan;
pub use parts::{BLOCK_DEPTH, PREAMBLE_DEPTH, block_front, preamble_front};
pub use title::{chunk_front, is_title, title_front};
