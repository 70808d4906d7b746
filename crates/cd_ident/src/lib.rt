//! DNS events, and the identifiers by which a query and its response find each other (RFC 8618 10).
//!
//! - An *event* is what a datagram is in the traffic of DNS: a query, a response, a payload that is no message, or a
//!   message whose opcode is not listed.
//! - Its *client* asks and its *server* answers: a query goes from client to server, a response from server to
//!   client.
//! - Its *primary* is 41 bytes that both halves of an exchange have. Its *secondary* is the first question in lower
//!   case, which one half may lack.
//!
//! Example: a query from 192.0.2.1, port 40000, to 192.0.2.53, port 53, and the response from there have the same
//! client and the same server. With one ID, opcode and transport they have the same primary, and with one question
//! the same secondary, whatever the case of its letters.
#![tactic(auto)]

mod ends;
mod event;
mod event_making;
mod event_pairing;
mod event_rules;
mod header;
mod identifiers;
pub mod laws;
mod primary;
mod secondary;

pub use event::{Body, Event, Kind};
pub use event_making::{GREATEST_WEIGHT, event_of};
pub use event_rules::EventRules;
pub use header::opcode_of;
pub use identifiers::{Ids, compatible_ids};
