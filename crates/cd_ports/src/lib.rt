//! Sources and sinks of bytes, and some of each.
//!
//! - A *source* gives bytes by calls of `read`, a *sink* takes them by calls of `write`.
//! - To a contract a `Source` means the bytes that are left, where it *tells* them, a count of its *faults*, and what its
//!   calls have answered so far; a `Sink` means what it holds, where it tells it, and likewise.
//! - `MemSource`, `CutSource`, `SureSource` and `MemSink` stand in memory and always tell. `StdSource` and `StdSink` stand
//!   over a reader and a writer of std and never do.
//!
//! A fault is a call that failed. The count of faults never falls, and rises where a call fails. Counts stand still at
//! 2^64 - 1.
//!
//! An example: a `CutSource` of the five bytes `abcde` and the sizes 2 and 0 gives, to a buffer of four bytes, the chunks
//! `ab`, `c` and `de`, and then tells the end by `Ok(0)`. A `MemSink` whose call 1 fails and keeps two bytes is written `abc`,
//! `defg` and `h`: the second call answers `Failed`, and the sink holds `abcdeh`.
#![tactic(auto)]

mod copying;
mod cut_source;
mod mem_sink;
mod mem_source;
mod sink;
mod source;
mod std_ports;
mod sure_source;

pub use cut_source::CutSource;
pub use mem_sink::MemSink;
pub use mem_source::MemSource;
pub use sink::{Sink, SinkFault};
pub use source::{Failed, Source};
pub use std_ports::{StdSink, StdSource};
pub use sure_source::SureSource;
