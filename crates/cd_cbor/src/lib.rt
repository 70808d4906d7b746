//! CBOR (RFC 8949): items, the one spelling that is written of each, and the reading of every well-formed spelling.
//!
//! - An *item* is a value: a number, a string of bytes, a text, an array of items, or a map of pairs of a key and a
//!   value (`Item`). A tagged value, a simple value or a float is kept as its bytes.
//! - A *head* begins an item, in 1 to 9 bytes. It tells the *major type*, which is the kind of the item, and the
//!   *argument*: the number itself, the bytes of a string, the items of an array or the pairs of a map (RFC 8949 3).
//! - A *spelling* of an item is bytes that are well-formed: heads of every size, strings in chunks, arrays and maps up
//!   to a break (`specs/Spells`). The one that is written has the shortest heads and definite lengths (RFC 8949
//!   4.2.1), items and pairs in the order in which the item has them. The keys of a map are not sorted here.
//! - A *fault* is what is wrong with bytes that spell no item, at the offset of the head that shows it (`CborFault`).
//!
//! `encode` writes an item. A writer that builds no item writes heads and values in turn, by `push_map_head`,
//! `push_unsigned` and the other calls. Each contract names the item that is written, in the words of `specs/Items`,
//! or the head.
//!
//! `decode_one` reads the item at the front of some bytes, or says the first fault. What it answers is a function of
//! the bytes (`specs/Reading`), which the laws of `laws` tie to spellings: what is spelled is read, what is read is
//! spelled, no spelling goes on as another, and some bytes spell at most one item.
//!
//! `Reader` reads items whose bytes come in pieces, and gives an event for each head (`Event`). For each history of
//! pieces its answer is the same function of all bytes fed (`specs/Events`, `specs/Following`). Its events are those of
//! the items that `decode_one` would read there, by how each is spelled (`specs/Telling`), and its faults are theirs
//! (`laws::events_are_the_items`, `laws::events_follow_items`).
//!
//! `Scan` says of the bytes of one item, as they come, whether the item is whole, is at fault, or goes on, with no event
//! and no copy of a string (`specs/Scanning`): for each history of calls that is what `item_at` reads of all its bytes,
//! in which as many arrays, maps and tags may be open as the caller says. `item_end` passes over an item at an offset.
//!
//! The map of the key 0 with the number 500, and of the key 1 with the text "DNS", has the spelling
//! `a2 00 19 01 f4 01 63 44 4e 53`:
//!
//! ```text
//! push_map_head(out, 2)?;
//! push_unsigned(out, 0)?;
//! push_unsigned(out, 500)?;
//! push_unsigned(out, 1)?;
//! push_text(out, b"DNS")?;
//! ```
#![tactic(auto)]

mod encoding;
mod event;
mod event_reading;
mod fault;
mod head;
mod head_passing;
mod head_reading;
mod integer;
mod item;
mod item_reading;
pub mod laws;
mod major_type;
mod nest;
mod passing;
mod reader;
mod scan;
mod string_reading;
mod values;
mod wanted;

pub use encoding::encode;
pub use event::{Act, Event, Step, Told};
pub use fault::{CborFault, Why};
pub use head::{push_array_head, push_head, push_map_head};
pub use head_passing::Done;
pub use head_reading::{argument_at, byte_at, major_type as major_type_of};
pub use integer::Integer;
pub use item::Item;
pub use item_reading::{MOST_DEPTH, decode_one};
pub use major_type::MajorType;
pub use reader::Reader;
pub use scan::{Due, Judged, Scan, item_end};
pub use string_reading::{MOST_STRING, chunks_at, content_at};
pub use values::{push_bytes, push_integer, push_negative, push_text, push_unsigned};
pub use wanted::Wanted;
