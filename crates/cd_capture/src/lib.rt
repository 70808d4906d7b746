//! Reads captures of either format that come in chunks.
//!
//! - A *capture* is a pcap or a pcapng capture, as its first four bytes tell: `specs/Formats.antt`. Bytes that begin
//!   with none of the five magics are refused at their start.
//! - A `CaptureReader` is *fed* the bytes of a capture, cut into any chunks, and gives the packets that came whole. It
//!   keeps fewer than four bytes as they are, and from the fourth on it hands all to the reader of their format.
//! - A *refused place* is one where no capture goes on as these bytes do. Nothing is read after it.
//!
//! An example: a reader is fed the bytes 0a 0d 0d, which end `Bad`, and then 0a and the rest of a section header. They
//! end `Whole` then, and it gives no packet.
//!
//! Offsets are bytes from the start of the capture.
#![tactic(auto)]

mod beginning;
mod capture_reader;
pub mod laws;
mod stage;

pub use capture_reader::CaptureReader;
