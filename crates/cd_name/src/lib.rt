//! Names, and the small containers that contracts see as lists.
//!
//! - A *label* is 1 to 63 bytes after a byte with their number; a *name* is labels and the root, a byte 0, in 1 to
//!   255 bytes.
//! - A *pointer* stands in a message for the rest of a name; `read_name` follows it. A *run* is the labels up to a
//!   root or a pointer.
//! - A `NameReader` reads the names of one message, and a `NameWriter` writes those of another, each with a pointer
//!   to the longest of its suffixes that was written before.
//! - A `Name` is a name without pointers. `fold` turns its letters to lower case, so that equal names have equal bytes.
//! - A `Blob` is some bytes on the heap, a `List<T>` some items. In a clause either one is the list of what it holds,
//!   so two are equal where they hold the same, whatever their room.
//!
//! In a message whose byte 12 begins the name `7 example 3 com 0`, the bytes `3 www 192 12` are the label `www` and a
//! pointer to offset 12, together the name `3 www 7 example 3 com 0`:
//!
//! ```text
//! let mut reader = NameReader::new(alloc, message);
//! let (name, next) = reader.read(25)?;    // www.example.com, and the offset after the pointer
//! ```
//!
//! Offsets are bytes from the start of the message. `laws` has what holds of all names that are read and written.
#![tactic(auto)]

mod blob;
mod fault;
mod label_run;
pub mod laws;
mod leads;
mod list;
mod name;
mod name_reader;
mod name_reading;
mod name_walk;
mod name_writer;
mod piece;
mod shared_suffix;

pub use blob::Blob;
pub use fault::{NameFault, NameWhy};
pub use label_run::run_is_cut;
pub use list::List;
pub use name::{Name, fold, is_name, name_size};
pub use name_reader::NameReader;
pub use name_reading::{append_name, read_name};
pub use name_writer::NameWriter;
