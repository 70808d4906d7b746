//! Reads pcap captures that come in chunks.
//!
//! - A *capture* is a header and records, one a packet. `specs/Spelled.antt` says over the list of its records which
//!   bytes are one, and `specs/Pcap.antt` what any bytes hold; `laws` joins the two. Its *form* is the order of its
//!   numbers and the unit of its times, microseconds or nanoseconds: the first four bytes tell both (the pcap draft,
//!   4).
//! - A `PcapReader` is *fed* the bytes of a capture, cut into any chunks, and gives the packets that came whole.
//! - The *mark* stands after the whole records that came. As bytes are fed it moves over their headers, each once.
//! - `write_header` and `write_packet` write a capture of IP packets, each captured whole.
//! - A *refused place* is a header or a record that no capture can have. Nothing is read after it.
//!
//! An example: a reader is fed a header of 24 bytes, and the first 20 bytes of a record. It gives no packet, and the
//! bytes fed end `Cut`. It is fed the rest of the record, gives its packet, at offset 24, and then no other, and the
//! bytes fed end `Whole`.
#![tactic(auto)]

mod form;
pub mod laws;
mod ordered;
mod pcap_reader;
mod record;
mod writing;

pub use pcap_reader::PcapReader;
pub use writing::{write_header, write_packet};
