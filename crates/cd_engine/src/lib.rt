//! From a capture to its C-DNS file (RFC 8618), `compact_plain`, whether a file is one, `check`, and from a file to the
//! capture that is rebuilt of it, `inspect`.
//!
//! - A *capture*, a pcap or a pcapng, comes from a source in chunks. Each packet that holds a datagram from or to the port
//!   of DNS is an *event*; each other one is *skipped* for one of nine reasons, and counted.
//! - Events are paired by the window of `cd_window`. A *record* is a query with its response, or an event that stands
//!   alone; records come in the order of their first events.
//! - Records are cut into *runs*, and each run is a *block*. A run is *closed* once the record after it is released.
//! - The *closed part* of a file is its head and its closed blocks. It is written before the source is asked again.
//!
//! The way of the data: bytes and packets (`cd_capture`), their events (`event_making`), their records (`blocks`), runs and
//! blocks (`filing`), the machine of all of them (`compactor`), driven from a source to a sink (`compaction`).
//! A check and an inspection drive the machine of `cd_inspection`: it counts the blocks of a file (`checking`), or rebuilds
//! their packets too (`inspecting`).
//!
//! Example: a query and its response 20 ms later are one record. Its run is closed at the end of the capture, and the
//! file holds one block with one item.
#![tactic(auto)]

mod blocks;
mod checking;
mod compaction;
mod compactor;
mod counts;
mod ended;
mod event_making;
mod filing;
mod inspecting;
pub mod laws;
mod settings_copy;

pub use cd_inspection::ReadCounts;
pub use checking::check;
pub use compaction::compact_plain;
pub use counts::Counts;
pub use ended::Ended;
pub use inspecting::inspect;
