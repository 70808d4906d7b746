//! One loop over reads, for each call that makes bytes of bytes: `drive`.
//!
//! - A *machine* is fed the input in *chunks*. It says what the bytes fed are refused for, where they are, has
//!   output that is *ready* between two chunks, and finishes. What it makes of bytes is its `Behavior`: it depends
//!   on the bytes alone, and not on how they were cut. Its laws are that what is ready only grows and is a front of
//!   the whole output, and that bytes which are refused stay so, whatever follows them.
//! - `drive` reads a source chunk by chunk, feeds a machine, and writes what is ready before it reads again. It
//!   stops at the end of the source, at a refusal, at a fault, and at the first byte past `max_input`.
//!
//! The loop is for machines whose output is ready as soon as it is due: `ready` is a function of the bytes fed. A
//! machine that hands its work to threads, so that its output lags, is none. A machine whose output comes at its
//! end alone is one: nothing is ready before. For a machine without output there is `NoSink`.
//!
//! An example: a machine copies its bytes, and refuses them where one is 0. What is ready is what was fed. Driven
//! with `max_input` 3 over `abc`, it ends `Done` and `abc` is written; over `abcd`, it ends `TooLong`, the byte `d`
//! was taken, and `abc` is written; where `abc` has a 0 for its `b`, it ends `Refused`; and where the read after
//! `ab` fails, it ends `ReadFault` and `ab` is written.
#![tactic(auto)]

mod chunk;
mod driving;
mod machine;
mod no_sink;
mod output;
mod reading;

pub use driving::{Driven, Stop, drive};
pub use machine::{Finished, Machine};
pub use no_sink::NoSink;
pub use reading::read_front;
