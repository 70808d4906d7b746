//! EDNS: the OPT record of a message, seen as what its fields mean (RFC 6891 section 6).
//!
//! - An *OPT record* is the additional record of type 41, once at most; an `Opt` is what its fields mean.
//! - The *full RCODE* of a message has twelve bits: the low four stand in the header, the others in the OPT record.
//!
//! The OPT record `0 0 41 16 0 1 2 128 0 0 2 171 205` of a message whose RCODE in the header is 0 means a UDP size of
//! 4096, the extended RCODE 1, version 2, DNSSEC records wanted and the two bytes of options 171 and 205; the full
//! RCODE is 16.
#![tactic(auto)]

pub mod laws;
mod opt_reading;
mod opt_record;
mod opt_writing;

pub use opt_reading::{full_rcode, opt_of, opt_ref};
pub use opt_record::{Opt, OptRef};
pub use opt_writing::put_opt;
